//! A source in memory, which fails at the calls that are listed.
ghost use Rattle.std.specs.Prelude.{◌≡◌, ◌+◌, ◌-◌, ◌<◌, ◌≤◌, ◌↔◌, drop, Some, length, vec_len, IsTrue, is_err, IfOk, MatchResult};
ghost use Rattle.std.specs.Io.{ReadsAtMost};
ghost use Rattle.std.specs.Io.KnownBytes.{ReadConsumes};
ghost use Rattle.nc_io.specs.Causes.{HasCause};
ghost use Rattle.nc_io.specs.Memory.{IsFailing, call_number, given_count};

use crate::{Failed, Source};

/// Bytes that are given in steps, from `at` on.
///
/// A call fails where its number, counted from 1, stands in `failing`. `calls` and `faults` stop rising at `u64::MAX`:
/// from then on every call has that number, and a source whose `faults` can't rise doesn't fail.
#[derive(Drop)]
pub struct MemorySource {
    /// All the bytes, those that are taken too.
    pub bytes: Vec<u8>,
    /// How many bytes are taken.
    pub at: usize,
    /// The most bytes that one call gives.
    pub step: usize,
    pub calls: u64,
    /// The numbers of the calls that fail, in any order.
    pub failing: Vec<u64>,
    pub faults: u64,
    ghost gives: { 0 < step },
    ghost within: { at ≤ vec_len bytes },
}

impl Source for MemorySource {
    ghost left = { λ s. Some (drop s.at s.bytes.items) };

    ghost faults = { λ s. s.faults };

    /// Takes no memory.
    fn take(&mut self, buf: &mut [u8]) -> Result<usize, Failed>
        ensures bound { ReadsAtMost result buf.new }
        ensures bytes { ReadConsumes (Some (drop self.old.at self.old.bytes.items))
            (Some (drop self.new.at self.new.bytes.items)) result buf.new }
        ensures cause { HasCause self.old.faults self.new.faults result }

        // When it fails, and how much it gives otherwise.
        ensures fails { IsTrue (is_err result)
            ↔ IsFailing self.old.failing.items self.old.calls self.old.faults }
        ensures count { IfOk result (λ n. n ≡ given_count self.old.step (length buf.old)
            (vec_len self.old.bytes - self.old.at)) }
        ensures rest { MatchResult result (λ n. drop n buf.new ≡ drop n buf.old)
            (λ _. buf.new ≡ buf.old) }

        // What becomes of each field.
        ensures at { MatchResult result (λ n. self.new.at ≡ self.old.at + n)
            (λ _. self.new.at ≡ self.old.at) }
        ensures calls { self.new.calls ≡ call_number self.old.calls }
        ensures faults { MatchResult result (λ _. self.new.faults ≡ self.old.faults)
            (λ _. self.new.faults ≡ self.old.faults + 1) }
        ensures same_bytes { self.new.bytes ≡ self.old.bytes }
        ensures same_step { self.new.step ≡ self.old.step }
        ensures same_failing { self.new.failing ≡ self.old.failing }
    {
        self.calls = self.calls.saturating_add(1);
        if self.faults < u64::MAX && self.failing.contains(&self.calls) {
            self.faults += 1;
            return Err(Failed);
        }
        let count = self.step.min(buf.len()).min(self.bytes.len() - self.at);
        let end = self.at + count;
        buf[..count].copy_from_slice(&self.bytes[self.at..end]);
        self.at = end;
        Ok(count)
    }
}
