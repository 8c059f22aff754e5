//! Lines of a certificate.

ghost use Rattle.nc_algebra.specs.Limits.{max_lines};
ghost use Rattle.std.specs.Prelude.{OnErr, OnOk, [], get_or, length, ◌++◌, ◌-◌, ◌<◌, ◌∷◌, ◌≡◌, ◌≤◌};

use nc_field::Residue;
use nc_words::Word;
use std::alloc::{AllocError, Global};
use std::marker::Model;

/// What a part multiplies.
#[derive(Clone, Copy, Debug, PartialEq, Eq)]
pub enum Of {
    /// The generator with this number, counted from 1.
    Generator(u32),
    /// The value of the line with this number, counted from 1.
    Line(u32),
}

/// The multiple `c a f b` of a generator or of a line's value f.
#[derive(Drop)]
pub struct Part {
    pub coefficient: Residue,
    pub left: Word,
    pub of: Of,
    pub right: Word,
}

impl Model for Part {
    ghost use Rattle.nc_algebra.specs.Certificates.{Part};
    ghost use Rattle.nc_module.specs.Factors.{factor_of};

    ghost Value = { Part };

    ghost view = { λ p. record {
      coefficient = p.coefficient;
      left = p.left;
      of = factor_of p.of;
      right = p.right;
    } };
}

/// A sum of parts.
#[derive(Drop)]
pub struct Line {
    parts: Vec<Part>,
}

impl Model for Line {
    ghost use Rattle.nc_algebra.specs.Certificates.{Line};

    ghost Value = { Line };

    ghost view = { λ l. l.parts.items };
}

impl Line {
    /// The line without parts. No memory is taken.
    pub fn empty(alloc: Global) -> Line
        ensures { result ≡ [] }
    {
        Line {
            parts: Vec::new(alloc),
        }
    }

    /// The number of parts.
    pub fn len(&self) -> u64
        ensures { result ≡ length self.now }
    {
        self.parts.len() as u64
    }

    /// The parts in their order.
    pub fn parts(&self) -> &[Part]
        ensures { result.now ≡ self.now }
    {
        self.parts.as_slice()
    }

    /// The part with this number, counted from 1.
    pub fn get(&self, k: u64) -> &Part
        requires some { 1 ≤ k }
        requires within { k ≤ length self.now }
        ensures { result.now ≡ get_or self.now (k - 1) result.now }
    {
        &self.parts[k as usize - 1]
    }

    /// Appends a part. After want of memory the line is what it was, and the part is gone.
    pub fn push(&mut self, part: Part) -> Result<(), AllocError>
        ensures added { OnOk result (self.new ≡ self.old ++ part ∷ []) }
        ensures kept { OnErr result (self.new ≡ self.old) }
    {
        self.parts.push(part)?;
        Ok(())
    }
}

/// The most lines of a certificate.
pub const MAX_LINES: u32 = 4_000_000_000;

/// Lines, each behind those that it may name.
#[derive(Drop)]
pub struct Lines {
    lines: Vec<Line>,
}

impl Model for Lines {
    ghost use Rattle.nc_algebra.specs.Limits.{max_lines};
    ghost use Rattle.nc_algebra.specs.Certificates.{Line};
    ghost use Rattle.std.specs.Prelude.{List, length, ◌≤◌};

    ghost Value = { List Line };

    ghost view = { λ l. l.lines.items };

    ghost invariant = { λ l. length l.lines.items ≤ max_lines };
}

impl Lines {
    /// No lines. No memory is taken.
    pub fn empty(alloc: Global) -> Lines
        ensures { result ≡ [] }
    {
        Lines {
            lines: Vec::new(alloc),
        }
    }

    /// The number of lines.
    pub fn len(&self) -> u32
        ensures { result ≡ length self.now }
    {
        self.lines.len() as u32
    }

    /// The lines in their order.
    pub fn lines(&self) -> &[Line]
        ensures lines { result.now ≡ self.now }
        ensures few { length self.now ≤ max_lines }
    {
        self.lines.as_slice()
    }

    /// The line with this number, counted from 1.
    pub fn get(&self, k: u32) -> &Line
        requires some { 1 ≤ k }
        requires within { k ≤ length self.now }
        ensures { result.now ≡ get_or self.now (k - 1) result.now }
    {
        &self.lines[k as usize - 1]
    }

    /// Appends a line. After want of memory the lines are what they were, and the new one is gone.
    pub fn push(&mut self, line: Line) -> Result<(), AllocError>
        requires { length self.old < max_lines }
        ensures added { OnOk result (self.new ≡ self.old ++ line ∷ []) }
        ensures kept { OnErr result (self.new ≡ self.old) }
    {
        self.lines.push(line)?;
        Ok(())
    }
}
