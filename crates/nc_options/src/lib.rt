//! The options of the command line: what the words ask for, with the defaults filled in, or that they ask for nothing
//! that there is. `clap` splits the words; they are tested before it, and their values are read behind it.
#![tactic(auto)]

ghost use Rattle.nc_options.specs.CommandLine.{OrderIsFree, UsesAreSpelled};
ghost use Rattle.nc_options.specs.Laws.{OptionsAreInRange, OptionsInAnyOrder};

mod error;
mod fit;
mod options;
mod read;
mod split;
mod values;

pub use error::OptionsError;
pub use options::{BasisOptions, Cofactors, DemoOptions, Form, MemberOptions, Options};
pub use read::read_options;

/// The words behind a command word are uses exactly where the uses are written in them, one behind another.
pub fn uses_are_spelled()
    ensures { UsesAreSpelled }
{}

/// The order of the uses is free.
pub fn order_is_free()
    ensures { OrderIsFree }
{}

/// The order of the options is free, and so is the place of the number among them.
pub fn options_in_any_order()
    ensures { OptionsInAnyOrder }
{}

/// The numbers of options lie in their ranges.
pub fn options_are_in_range()
    ensures { OptionsAreInRange }
{}
