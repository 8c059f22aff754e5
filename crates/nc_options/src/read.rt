//! The reader of options.

ghost use Rattle.clap.specs.Words.{first_value, found_of};
ghost use Rattle.nc_options.specs.Answers.{Answers};
ghost use Rattle.nc_options.specs.Options.{basis_after, basis_of, check_after, demo_after, demo_of, member_after, member_of, options_of};
ghost use Rattle.nc_options.specs.declared.options.Options.TheVariants.{Basis, Demo, Member};
ghost use Rattle.std.specs.Prelude.{◌<◌, ◌≡◌, drop, length, map, option_map, string_bytes};

use crate::error::OptionsError;
use crate::options::{BasisOptions, DemoOptions, MemberOptions, Options};
use crate::split::split_words;
use crate::values::{degree, form, limit, number, wanted_cofactors, window, workers};
use clap::ArgMatches;
use std::alloc::Global;

static BASIS_NAMES: [&str; 4] = ["workers", "window", "limit", "cofactors"];

static MEMBER_NAMES: [&str; 4] = ["workers", "window", "limit", "form"];

static CHECK_NAMES: [&str; 0] = [];

static DEMO_NAMES: [&str; 3] = ["degree", "workers", "window"];

/// The options of `basis`, by what `clap` found.
fn basis_options(matches: &ArgMatches<'_>) -> Option<Options>
    ensures { result ≡ option_map Basis (basis_of (first_value (found_of matches.now))) }
{
    Some(Options::Basis(BasisOptions {
        workers: workers(matches)?,
        window: window(matches)?,
        limit: limit(matches)?,
        cofactors: wanted_cofactors(matches)?,
    }))
}

/// The options of `member`, by what `clap` found.
fn member_options(matches: &ArgMatches<'_>) -> Option<Options>
    ensures { result ≡ option_map Member (member_of (first_value (found_of matches.now))) }
{
    Some(Options::Member(MemberOptions {
        workers: workers(matches)?,
        window: window(matches)?,
        limit: limit(matches)?,
        form: form(matches)?,
    }))
}

/// The options of `demo`, by what `clap` found.
fn demo_options(matches: &ArgMatches<'_>) -> Option<Options>
    ensures { result ≡ option_map Demo (demo_of (first_value (found_of matches.now))) }
{
    Some(Options::Demo(DemoOptions {
        number: number(matches)?,
        degree: degree(matches)?,
        workers: workers(matches)?,
        window: window(matches)?,
    }))
}

/// `basis`, and what follows it.
fn read_basis(alloc: Global, words: &[String]) -> Result<Options, OptionsError>
    requires { 0 < length words.now }
    ensures { Answers (basis_after (drop 1 (map string_bytes words.now))) result }
{
    let matches = split_words(alloc, "basis", BASIS_NAMES.as_slice(), false, words)?;
    basis_options(&matches).ok_or(OptionsError::Usage)
}

/// `member`, and what follows it.
fn read_member(alloc: Global, words: &[String]) -> Result<Options, OptionsError>
    requires { 0 < length words.now }
    ensures { Answers (member_after (drop 1 (map string_bytes words.now))) result }
{
    let matches = split_words(alloc, "member", MEMBER_NAMES.as_slice(), false, words)?;
    member_options(&matches).ok_or(OptionsError::Usage)
}

/// `check`, and what follows it.
fn read_check(alloc: Global, words: &[String]) -> Result<Options, OptionsError>
    requires { 0 < length words.now }
    ensures { Answers (check_after (drop 1 (map string_bytes words.now))) result }
{
    split_words(alloc, "check", CHECK_NAMES.as_slice(), false, words)?;
    Ok(Options::Check)
}

/// `demo`, and what follows it.
fn read_demo(alloc: Global, words: &[String]) -> Result<Options, OptionsError>
    requires { 0 < length words.now }
    ensures { Answers (demo_after (drop 1 (map string_bytes words.now))) result }
{
    let matches = split_words(alloc, "demo", DEMO_NAMES.as_slice(), true, words)?;
    demo_options(&matches).ok_or(OptionsError::Usage)
}

/// What the words ask for, defaults filled in. The first word is the command. `Usage` comes exactly where the words have
/// no options by the definition; `Memory` says nothing of the words.
pub fn read_options(alloc: Global, words: &[String]) -> Result<Options, OptionsError>
    ensures { Answers (options_of (map string_bytes words.now)) result }
{
    let Some(command) = words.first() else {
        return Err(OptionsError::Usage);
    };
    match command.as_str() {
        "basis" => read_basis(alloc, words),
        "member" => read_member(alloc, words),
        "check" => read_check(alloc, words),
        "demo" => read_demo(alloc, words),
        _ => Err(OptionsError::Usage),
    }
}
