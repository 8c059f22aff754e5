//! Leading words that meet.

ghost use Rattle.nc_algebra.specs.Elements.{HasDegree, Setting};
ghost use Rattle.nc_algebra.specs.Monomials.{monomial_of};
ghost use Rattle.nc_overlap.specs.Overlaps.{IsLedBy};
ghost use Rattle.nc_overlap.specs.Sides.{side_sig};
ghost use Rattle.nc_theory.specs.Meetings.{IsOnly, MeetAt};
ghost use Rattle.nc_theory.specs.States.{Entry};
ghost use Rattle.std.specs.Prelude.{IfSome, length, option_map, ◌<◌, ◌≡◌, ◌⊎◌};

use crate::side::Side;
use nc_snapshot::Lead;

/// The greater side, where the second leading word begins so many letters behind the beginning of the first one. None
/// where they do not meet so, and where the sides are equal.
pub(crate) fn greater_side<'a>(first: &Lead<'a>, second: &Lead<'a>, at: usize) -> Option<Side<'a>>
    requires { at < length first.now.word.now }
    ensures greater { (s : Setting) (e f : Entry) → HasDegree s first.now.sig.now
        → HasDegree s second.now.sig.now → IsLedBy s first.now e → IsLedBy s second.now f
        → IsOnly (MeetAt s e f at) (option_map (λ x. monomial_of (side_sig x)) result) }
    ensures sig { IfSome result (λ x. (x.sig.now ≡ first.now.sig.now)
        ⊎ (x.sig.now ≡ second.now.sig.now)) }
{
    let word = second.word.letters();
    if at == 0 && word.is_empty() {
        return None;
    }
    let (before, rest) = first.word.letters().split_at(at);
    let shared = rest.len().min(word.len());
    let (end, behind_second) = rest.split_at(shared);
    let (begin, behind_first) = word.split_at(shared);
    if end != begin {
        return None;
    }
    let one = Side {
        left: &[],
        sig: first.sig,
        right: behind_first,
    };
    let two = Side {
        left: before,
        sig: second.sig,
        right: behind_second,
    };
    one.greater(&two)
}
