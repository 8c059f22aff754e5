//! Lists that grow at their end and share what stands.
#![tactic(auto)]

mod chunk;
mod chunks;
mod owners;

pub use chunks::Chunks;
