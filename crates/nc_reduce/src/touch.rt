//! Whether newer entries bear on what a reduction kept.

ghost use Rattle.nc_reduce.specs.Touches.{IsTouched};
ghost use Rattle.std.specs.Prelude.{IsTrue, ◌↔◌};

use nc_index::Leads;
use nc_poly::Poly;
use nc_sig::Sig;

/// Whether the word of some pair behind the first `after` stands in a word of the polynomial where the multiple has a
/// signature below the bound. No memory is taken.
pub fn touches(poly: &Poly, leads: &Leads, after: u32, bound: &Sig) -> bool
    ensures { IsTrue result ↔ IsTouched leads.now after poly.now bound.now }
{
    for term in poly.terms() {
        if leads.regular_after(term.letters(), bound, after) {
            return true;
        }
    }
    false
}
