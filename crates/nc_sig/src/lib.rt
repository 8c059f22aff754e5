//! Module monomials with their degree: as the greatest monomial of a module element, its signature.
#![tactic(auto)]

mod sig;

pub use sig::Sig;
