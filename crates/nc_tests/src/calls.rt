//! Calls that the program does not make.

ghost use Rattle.nc_algebra.specs.Elements.{HasDegree, IsGenerator};
ghost use Rattle.nc_algebra.specs.Limits.{max_letters};
ghost use Rattle.nc_algebra.specs.Polynomials.{AreResidues};
ghost use Rattle.nc_algebra.specs.Words.{word_weight};
ghost use Rattle.nc_poly.specs.Ordered.{AreResiduesBy};
ghost use Rattle.std.specs.Prelude.{All, IfOk, IsTrue, length, ◌+◌, ◌↔◌, ◌≡◌, ◌≤◌};

use crate::samples::{are_terms, letter, poly, prime, problem, spells, word};
use nc_cofactor::{CofactorFault, expand};
use nc_desk::{Desk, Finished};
use nc_field::{Prime, Residue};
use nc_module::{Module, ModuleTerm, Setting};
use nc_poly::Poly;
use nc_sig::Sig;
use nc_snapshot::Listed;
use nc_text::{MAX_BYTES, read_certificate, write_certificate};
use nc_words::{Letter, Word, weight_of};
use std::alloc::Global;
use std::sync::Arc;
use std::test::Fail;
use std::thread;

#[test]
fn digits_give_residues(rt: HostRuntime) -> Result<(), Fail> {
    let p = prime()?;
    assert_eq!(rt; p.of_digits(b"000123"), Some(22));
    assert_eq!(rt; p.of_digits(b"1:"), None);
    Ok(())
}

/// The polynomial x x - y.
fn square_minus_y(alloc: Global, p: Prime) -> Result<Poly, Fail>
    requires { p ≡ 101 }
    ensures { IfOk result (AreResidues p) }
{
    poly(alloc, p, &[(100, "y"), (1, "xx")])
}

/// Whether the words of the multiple u g v are short.
fn has_room(u: &[Letter], g: &Poly, v: &[Letter]) -> bool
    ensures { IsTrue result → All (λ t. length u.now + length t.key + length v.now ≤ max_letters) g.now }
{
    g.terms()
        .iter()
        .all(|t| u.len() + t.letters().len() + v.len() <= 200_000)
}

/// x x - y without 3 x (x x - y) y.
const DIFFERENCE: [(Residue, &str); 4] = [(98, "xxxy"), (3, "xyy"), (1, "xx"), (100, "y")];

/// Whether a polynomial gives this difference.
fn poly_loses(alloc: Global, x: Letter, y: Letter) -> Result<bool, Fail> {
    let p = prime()?;
    let mut f = square_minus_y(alloc, p)?;
    let g = square_minus_y(alloc, p)?;
    if !has_room(&[x], &g, &[y]) {
        return Err("too long".into());
    }
    f.sub_multiple(alloc, p, 3, &[x], &g, &[y])?;
    Ok(are_terms(f.terms(), &DIFFERENCE))
}

#[test]
fn polynomials_lose_multiples(rt: HostRuntime) -> Result<(), Fail> {
    assert!(rt; poly_loses(rt.alloc(), letter(b'x')?, letter(b'y')?)?);
    Ok(())
}

/// A problem with the generators x x z and 5 y, which weigh 5 and 1.
const SETTING: &str = "field 101
letters x y z
weights 1 1 3
generator x*x*z
generator 5*y
bound degree 9
";

/// Whether the setting has the generator.
fn has_generator(setting: &Setting, i: u32) -> bool
    ensures { IsTrue result ↔ IsGenerator setting.now.setting i }
{
    1 <= i && i as usize <= setting.generators().len()
}

/// The term with this coefficient, this word and this generator.
fn term(
    alloc: Global,
    setting: &Setting,
    c: Residue,
    left: &str,
    i: u32,
) -> Result<ModuleTerm, Fail> {
    if !has_generator(setting, i) {
        return Err("no such generator".into());
    }
    let at = Sig::of(setting.weight(i), i, word(alloc, left)?, Word::empty(alloc));
    Ok(ModuleTerm::of(c, at))
}

/// The sum of the terms, each with its coefficient, its word and its generator.
fn module(alloc: Global, setting: &Setting, terms: &[(Residue, &str, u32)]) -> Result<Module, Fail>
    ensures { IfOk result (AreResiduesBy setting.now.setting.prime) }
{
    let mut list = Vec::new(alloc);
    for (c, left, i) in terms {
        list.push(term(alloc, setting, *c, left, *i)?)?;
    }
    let p = setting.prime();
    if !list.iter().all(|t| t.coefficient < p.number()) {
        return Err("no residues".into());
    }
    Ok(Module::of_terms(alloc, p, list)?)
}

/// Whether the element has these terms, each with its coefficient, its word and its generator.
fn has_terms(m: &Module, want: &[(Residue, &str, u32)]) -> bool {
    m.terms().len() == want.len()
        && m.terms().iter().zip(want).all(|(term, (c, left, i))| {
            term.coefficient == *c
                && spells(term.at.left.letters(), left)
                && term.at.generator == *i
        })
}

/// Whether the multiples are small.
fn are_small(u: &[Letter], m: &[ModuleTerm], v: &[Letter]) -> bool
    ensures degrees { IsTrue result
        → All (λ t. word_weight u.now + t.key.degree + word_weight v.now ≤ 300000) m.now }
    ensures left { IsTrue result → All (λ t. length u.now + length t.key.left ≤ max_letters) m.now }
    ensures right { IsTrue result → All (λ t. length t.key.right + length v.now ≤ max_letters) m.now }
{
    m.iter().all(|t| weight_of(u) + u128::from(t.at.degree) + weight_of(v) <= 300000)
        && m.iter().all(|t| u.len() as u128 + t.at.left.letters().len() as u128 <= 200000)
        && m.iter().all(|t| t.at.right.letters().len() as u128 + v.len() as u128 <= 200000)
}

/// Subtracts 5 x [2].
fn subtract(alloc: Global, setting: &Setting, m: &mut Module) -> Result<(), Fail>
    requires { AreResiduesBy setting.now.setting.prime m.old }
{
    let p = setting.prime();
    let u = [letter(b'x')?];
    let other = module(alloc, setting, &[(1, "", 2)])?;
    if p.number() <= 5 || !are_small(&u, other.terms(), &[]) {
        return Err("too great".into());
    }
    m.sub_multiple(alloc, p, 5, &u, &other, &[])?;
    Ok(())
}

/// Whether 3 [1] is left of 3 [1] + 5 x [2].
fn loses_multiple(alloc: Global) -> Result<bool, Fail> {
    let problem = problem(alloc, SETTING)?;
    let setting = problem.setting();
    let mut m = module(alloc, setting, &[(3, "", 1), (5, "x", 2)])?;
    subtract(alloc, setting, &mut m)?;
    Ok(has_terms(&m, &[(3, "", 1)]))
}

/// Whether the setting has the monomial's generator, and the degree is that of the setting.
fn has_degree(setting: &Setting, s: &Sig) -> bool
    ensures { IsTrue result ↔ (IsGenerator setting.now.setting s.now.generator
        × HasDegree setting.now.setting s.now) }
{
    has_generator(setting, s.generator)
        && s.degree == s.left.weight() + setting.weight(s.generator) + s.right.weight()
}

/// What the element evaluates to.
fn eval(setting: &Setting, m: &Module) -> Result<Poly, Fail> {
    let p = setting.prime();
    let terms = m.terms();
    if !terms.iter().all(|t| has_generator(setting, t.at.generator))
        || !terms.iter().all(|t| has_degree(setting, &t.at))
        || !terms.iter().all(|t| t.at.degree <= 100000)
        || !terms.iter().all(|t| t.coefficient < p.number())
    {
        return Err("not over the setting".into());
    }
    Ok(m.eval(setting)?)
}

/// Whether 3 z [1] + 7 x [2] evaluates to 3 z x x z + 35 x y.
fn is_evaluated(alloc: Global) -> Result<bool, Fail> {
    let problem = problem(alloc, SETTING)?;
    let setting = problem.setting();
    let m = module(alloc, setting, &[(3, "z", 1), (7, "x", 2)])?;
    let f = eval(setting, &m)?;
    Ok(are_terms(f.terms(), &[(3, "zxxz"), (35, "xy")]))
}

#[test]
fn module_elements_lose_multiples(rt: HostRuntime) -> Result<(), Fail> {
    assert!(rt; loses_multiple(rt.alloc())?);
    Ok(())
}

#[test]
fn module_elements_are_evaluated(rt: HostRuntime) -> Result<(), Fail> {
    assert!(rt; is_evaluated(rt.alloc())?);
    Ok(())
}

/// The run of the problem with the generators x x - y and y. Its second entry is x x, with the label \[1\] + \[2\].
fn run(alloc: Global) -> Result<Finished, Fail> {
    let text = "field 101\nletters x y\ngenerator x*x - y\ngenerator y\nbound degree 4\n";
    let problem = Arc::new(alloc, problem(alloc, text)?)?;
    let desk = Desk::open(alloc, problem, 1)?;
    if desk.counts().alone != 0 {
        return Err("nothing is handled".into());
    }
    match desk.drive() {
        Ok(finished) => Ok(finished),
        Err(_) => Err("no memory".into()),
    }
}

#[test]
fn two_threads_read_a_run(rt: HostRuntime) -> Result<(), Fail> {
    let finished = run(rt.alloc())?;
    let (entries, leads) = thread::join(
        &rt,
        || finished.snapshot().entries(),
        || finished.leads().len(),
    );
    assert!(rt; entries == 2 && leads == 2);
    Ok(())
}

/// How many terms the label of the last entry has, with at most so many.
fn last_label(alloc: Global, finished: &Finished, limit: u64) -> Result<usize, CofactorFault> {
    let snapshot = finished.snapshot();
    let number = snapshot.entries();
    if number == 0 {
        return Ok(0);
    }
    let label = expand(
        alloc,
        snapshot,
        finished.leads(),
        Listed::Entry(number),
        limit,
    )?;
    Ok(label.terms().len())
}

#[test]
fn one_label_is_made(rt: HostRuntime) -> Result<(), Fail> {
    let finished = run(rt.alloc())?;
    assert!(rt; matches!(last_label(rt.alloc(), &finished, 2), Ok(2)));
    let fault = last_label(rt.alloc(), &finished, 1).err();
    assert!(rt; matches!(fault, Some(CofactorFault::TooMany { terms: 2, .. })));
    Ok(())
}

/// What is printed of the certificate that a text is.
fn printed(alloc: Global, text: &str) -> Result<Vec<u8>, Fail> {
    let bytes = text.as_bytes();
    if bytes.len() > MAX_BYTES {
        return Err("a short text".into());
    }
    let mut out = Vec::new(alloc);
    write_certificate(&mut out, &read_certificate(alloc, bytes)?)?;
    Ok(out)
}

/// x y - y x, from the generator f = x x - y: minus (x f - f x).
const LINES: &str = "certificate 2
field 101
letters x y
weights 1 2
generator 100*y + x*x
claim 100*y*x + x*y
line
part 1 1 [1] 1
line
part 1 x {1} 1
part 100 1 {1} x
line
part 100 1 {2} 1
end
";

#[test]
fn what_is_printed_is_read(rt: HostRuntime) -> Result<(), Fail> {
    let printed = printed(rt.alloc(), LINES)?;
    assert_eq!(rt; printed.as_slice(), LINES.as_bytes());
    Ok(())
}
