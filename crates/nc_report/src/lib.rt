//! The report on a run: how it ended, its counts, its entries and syzygies, and what is shown of their cofactors.
#![tactic(auto)]

mod item;
mod listing;
mod named;
mod shown;
mod summary;
mod trace;

pub use listing::report_on;
pub use named::names_of;
pub use shown::Shown;
