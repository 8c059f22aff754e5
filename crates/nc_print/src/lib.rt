//! The printed forms of polynomials, monomials, module elements and certificates.
#![tactic(auto, using(crate::proofs::Begins::begins))]

mod certificate;
mod module;
mod monomial;
mod polynomial;
mod setting;
mod terms;
mod whole;

pub use certificate::{write_certificate, write_proof};
pub use module::write_module;
pub use monomial::write_sig;
pub use polynomial::{push_number, write_poly, write_word};
pub use terms::write_terms;
