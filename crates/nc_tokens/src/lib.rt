//! What texts are made of: lines, tokens, and what is wanted of the next ones, up to the first fault.
#![tactic(auto)]

mod fault;
mod line;
mod text;
mod token;
mod tokens;

pub use fault::{Kind, LineError, ReadFault, TextFault, at};
pub use text::{Row, Text};
pub use token::Token;
pub use tokens::{Tokens, misplaced};
