//! Cofactors: what a run subtracted, and the labels that this gives.
#![tactic(auto)]

ghost use Rattle.nc_cofactor.specs.Laws.{LabelsExist, OneFirst, OneLabel};

mod alphabet;
mod below;
mod claims;
mod expansion;
mod fault;
mod fill;
mod label;
mod labels;
mod rebuilds;
mod sum;
mod sweep;
mod trace;

pub use alphabet::cofactors_are_over;
pub use claims::{needed, needed_traces, represent};
pub use expansion::expand;
pub use fault::CofactorFault;
pub use labels::Labels;
pub use rebuilds::rebuild;
pub use trace::trace_of;

/// A label has one normal form.
pub fn one_label()
    ensures { OneLabel }
{}

/// Each label has a normal form.
pub fn labels_exist()
    ensures { LabelsExist }
{}

/// Where not all labels are within a limit, one is the first that is not.
pub fn one_first()
    ensures { OneFirst }
{}
