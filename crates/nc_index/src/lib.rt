//! The search for an entry whose leading word stands in a word.
#![tactic(auto)]

ghost use Rattle.nc_index.specs.Chosen.{LeadsLaw, NewerLeadsLaw};

mod hit;
mod lead;
mod leads;

pub use hit::Hit;
pub use leads::{Leads, MAX_LEADS};

/// What the search finds among the pairs of a run's entries is the divisor that a reduction chooses.
pub fn leads_law()
    ensures { LeadsLaw }
{
    nc_algebra::sig_law();
}

/// The search behind the first pairs tells whether a newer entry gives a divisor.
pub fn newer_leads_law()
    ensures { NewerLeadsLaw }
{
    nc_algebra::sig_law();
}
