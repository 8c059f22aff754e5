//! The texts of problems and certificates: the reader of certificates, which gives the certificate or the first fault;
//! and the laws of what is read and what is printed.
#![tactic(auto)]

ghost use Rattle.nc_text.specs.Laws.{OneCertificate, ReadsCertificates, ReadsMonomials, ReadsPolynomials, ReadsProblems, ReadsTerms, ReadsWhatIsPrinted, SameWords};

mod certificate;
mod lines;
mod polynomial;
mod problem;
mod rows;
mod setting;
mod sides;
mod word;

pub use certificate::{MAX_BYTES, read_certificate};
pub use nc_print::{write_certificate, write_module, write_poly, write_sig};
pub use nc_tokens::{Kind, ReadFault, TextFault};
pub use problem::{ProblemText, read_problem};

/// What is printed of a certificate of at most 4,000,000,000 lines is read as that certificate.
pub fn reads_what_is_printed()
    ensures { ReadsWhatIsPrinted }
{}

/// What is printed of a claim and terms is read as the certificate with one line of the terms.
pub fn reads_terms()
    ensures { ReadsTerms }
{}

/// What is printed of a polynomial is read as that polynomial.
pub fn reads_polynomials()
    ensures { ReadsPolynomials }
{}

/// What is printed of a monomial is read as that monomial.
pub fn reads_monomials()
    ensures { ReadsMonomials }
{}

/// Two certificates of at most 4,000,000,000 lines with the same text are the same.
pub fn one_certificate()
    ensures { OneCertificate }
{}

/// What is read of a text is a certificate.
pub fn reads_certificates()
    ensures { ReadsCertificates }
{}

/// What is read of a text is a problem.
pub fn reads_problems()
    ensures { ReadsProblems }
{}

/// A word read by patterns on its tokens is one read factor after factor.
pub fn same_words()
    ensures { SameWords }
{}
