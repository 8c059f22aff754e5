//! What a command line asks for.

/// Which cofactors are printed.
#[derive(Clone, Copy, Debug, PartialEq, Eq)]
pub enum Cofactors {
    /// Nothing: `--cofactors none`.
    Omitted,
    /// The steps that led to it: `--cofactors trace`.
    Trace,
    /// All cofactors, multiplied out: `--cofactors full`.
    Full,
}

/// How a certificate is printed.
#[derive(Clone, Copy, Debug, PartialEq, Eq)]
pub enum Form {
    /// As the terms of a module element: `--form 1`.
    Terms,
    /// As lines that use the lines before them: `--form 2`.
    Lines,
}

/// The options of `basis`.
#[derive(Clone, Copy, Debug, PartialEq, Eq)]
pub struct BasisOptions {
    /// How many threads work, 1 to 64.
    pub workers: u32,
    /// How many signatures may be under way at a time, 1 to 4,096.
    pub window: u32,
    /// How many terms a label that is printed may have, 1 to 10,000,000.
    pub limit: u32,
    /// What is printed behind each entry and each syzygy.
    pub cofactors: Cofactors,
}

/// The options of `member`.
#[derive(Clone, Copy, Debug, PartialEq, Eq)]
pub struct MemberOptions {
    /// How many threads work, 1 to 64.
    pub workers: u32,
    /// How many signatures may be under way at a time, 1 to 4,096.
    pub window: u32,
    /// How many terms a representation may have, 1 to 10,000,000.
    pub limit: u32,
    /// The form of the certificate that is printed.
    pub form: Form,
}

/// The options of `demo`.
#[derive(Clone, Copy, Debug, PartialEq, Eq)]
pub struct DemoOptions {
    /// The number that the problem is made from, 0 to 65,536.
    pub number: u32,
    /// The degree of the bound, 2 to 10.
    pub degree: u32,
    /// How many threads work, 1 to 64.
    pub workers: u32,
    /// How many signatures may be under way at a time, 1 to 4,096.
    pub window: u32,
}

/// A command with its options.
#[derive(Clone, Copy, Debug, PartialEq, Eq)]
pub enum Options {
    Basis(BasisOptions),
    Member(MemberOptions),
    Check,
    Demo(DemoOptions),
}
