//! Values of lines.

ghost use Rattle.nc_algebra.specs.Certificates.{IsFactor, factor_value, line_value, part_value};
ghost use Rattle.nc_algebra.specs.Polynomials.{AreResidues, normal_form};
ghost use Rattle.nc_algebra.specs.Sums.{SameSum, minus};
ghost use Rattle.nc_algebra.specs.Words.{same_word};
ghost use Rattle.nc_cert.specs.Ready.{IsReadyPart};
ghost use Rattle.nc_module.specs.Factors.{factor_of};
ghost use Rattle.std.specs.Prelude.{All, IfOk, OnOk, length, ◌<◌, ◌≡◌};

use nc_field::Residue;
use nc_module::{Line, Of, Part, Setting};
use nc_poly::{Accumulator, Poly};
use std::alloc::{AllocError, Global};

/// What a part multiplies, over the values of the lines before.
pub(crate) fn factor<'a>(setting: &'a Setting, values: &'a [Poly], of: Of) -> &'a Poly
    requires { IsFactor setting.now.setting (length values.now) (factor_of of) }
    ensures { result.now ≡ factor_value setting.now.setting values.now (factor_of of) }
{
    match of {
        Of::Generator(i) => setting.generator(i),
        Of::Line(k) => &values[k as usize - 1],
    }
}

/// Subtracts c times the value of a part, over the values of the lines before.
fn sub_part(
    alloc: Global,
    sum: &mut Accumulator,
    c: Residue,
    setting: &Setting,
    values: &[Poly],
    part: &Part,
) -> Result<(), AllocError>
    requires scalar { c < setting.now.setting.prime }
    requires residues { AreResidues setting.now.setting.prime sum.old }
    requires ready { IsReadyPart setting.now.setting values.now part.now }
    ensures difference { OnOk result
        (SameSum same_word setting.now.setting.prime sum.new
        (minus setting.now.setting.prime sum.old c
        (part_value setting.now.setting values.now part.now))) }
    ensures residues { AreResidues setting.now.setting.prime sum.new }
{
    let p = setting.prime();
    let f = factor(setting, values, part.of);
    let scalar = p.mul(c, part.coefficient);
    sum.sub_multiple(
        alloc,
        p,
        scalar,
        part.left.letters(),
        f,
        part.right.letters(),
    )
}

/// The polynomial f minus c times the value of a line, over the values of the lines before.
pub(crate) fn minus_line(
    alloc: Global,
    f: Poly,
    c: Residue,
    setting: &Setting,
    values: &[Poly],
    line: &Line,
) -> Result<Poly, AllocError>
    requires scalar { c < setting.now.setting.prime }
    requires residues { AreResidues setting.now.setting.prime f }
    requires ready { All (IsReadyPart setting.now.setting values.now) line.now }
    ensures { IfOk result (λ g. g ≡ normal_form setting.now.setting.prime
        (minus setting.now.setting.prime f c
        (line_value setting.now.setting values.now line.now))) }
{
    let mut sum = Accumulator::of(f);
    for part in line.parts() {
        sub_part(alloc, &mut sum, c, setting, values, part)?;
    }
    Ok(sum.finish(setting.prime()))
}
