//! The commands of the program: the basis of a problem, the membership of a claim, the check of a certificate, and the run
//! over a source and a sink.
#![tactic(auto)]

ghost use Rattle.nc_top.specs.Laws.{CompleteMembers, CompleteRuns, FaultlessRuns, MembersCheck, OneAnswer};

mod basis;
mod check;
mod input;
mod member;
mod run;
mod status;

pub use run::run_alone;
pub use status::{Status, code_of};

/// For each command that runs, the bytes that are read determine the status and the report.
pub fn one_answer()
    ensures { OneAnswer }
{}

/// A run in which nothing fails answers for all bytes of its source.
pub fn faultless_runs()
    ensures { FaultlessRuns }
{}

/// A problem that allows as many steps as its bound has module monomials is answered with the whole report, or with a label that has too many terms.
pub fn complete_runs()
    ensures { CompleteRuns }
{}

/// A problem with a claim that allows as many steps as its bound has module monomials is decided: `member` answers with a
/// representation of the claim, or names a label that has too many terms, where there is one within the bound, and else that
/// there is none.
pub fn complete_members()
    ensures { CompleteMembers }
{}

/// What `member` prints of a claim that has a representation is a certificate of the claim. If its words have at most 255
/// letters, its text is not too long and its check stays within the limit on work, then `check` reads it and answers that it
/// is valid.
pub fn members_check()
    ensures { MembersCheck }
{}
