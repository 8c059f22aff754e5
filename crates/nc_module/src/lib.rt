//! Settings of generators over an alphabet, module elements over them, and certificates of ideal membership.
#![tactic(auto)]

mod alphabet;
mod certificate;
mod line;
mod module;
mod name;
mod problem;
mod setting;

pub use alphabet::{Alphabet, has_name};
pub use certificate::Certificate;
pub use line::{Line, Lines, MAX_LINES, Of, Part};
pub use module::{Module, ModuleTerm};
pub use name::Name;
pub use problem::{Bound, Problem};
pub use setting::Setting;
