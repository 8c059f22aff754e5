//! The words behind the command word, split by `clap`.

ghost use Rattle.clap.specs.Words.{app_of, rule_of};
ghost use Rattle.nc_options.specs.Commands.{command_for, number_arg, option_arg};
ghost use Rattle.nc_options.specs.Pieces.{is_among};
ghost use Rattle.nc_options.specs.Uses.{number_id, uses_of};
ghost use Rattle.nc_options.specs.Answers.{AnswersUses, IsCause};
ghost use Rattle.std.specs.Prelude.{◌<◌, ◌≡◌, [], IfOk, drop, false, length, map, string_bytes};

use crate::error::OptionsError;
use crate::fit::are_fit_and_single;
use clap::error::ErrorKind;
use clap::{Arg, ArgAction, ArgMatches, Command, Error};
use std::alloc::{AllocError, Global};

/// An option that takes a value.
fn option<'a>(alloc: Global, name: &'a str) -> Arg<'a>
    ensures rule { rule_of result ≡ option_arg name.entry.now }
    ensures local { result.global ≡ false }
{
    Arg::new(alloc, name).long(name).action(ArgAction::Set)
}

/// The number, which stands alone.
fn number<'a>(alloc: Global) -> Arg<'a>
    ensures rule { rule_of result ≡ number_arg }
    ensures local { result.global ≡ false }
{
    Arg::new(alloc, "number").action(ArgAction::Set)
}

/// A command with no options and no `--help`.
fn bare_command<'a>(alloc: Global, name: &'a str) -> Command<'a>
    ensures { app_of result ≡ command_for name.entry.now [] false }
{
    Command::new(alloc, name).disable_help_flag(true)
}

/// A command with these options, and with a number if it takes one.
fn command<'a>(
    alloc: Global,
    name: &'a str,
    names: &'a [&'a str],
    takes_number: bool,
) -> Result<Command<'a>, AllocError>
    ensures { IfOk result (λ c. app_of c ≡ command_for name.entry.now
        (map (λ n. n.now) names.entry.now) takes_number) }
{
    let mut command = bare_command(alloc, name);
    for option_name in names {
        command = command.arg(option(alloc, *option_name))?;
    }
    if takes_number {
        command = command.arg(number(alloc))?;
    }
    Ok(command)
}

/// Whether memory ran out, or the words are refused.
fn cause_of(error: &Error) -> OptionsError
    ensures { IsCause error.now result }
{
    if error.kind() == ErrorKind::OutOfMemory {
        OptionsError::Memory(AllocError)
    } else {
        OptionsError::Usage
    }
}

/// The words behind the command word, by the names of their options. The number, if the command takes one, goes by the
/// name `number`. To `clap` the command word stands for the program's name.
pub fn split_words<'a>(
    alloc: Global,
    name: &'a str,
    names: &'a [&'a str],
    takes_number: bool,
    words: &'a [String],
) -> Result<ArgMatches<'a>, OptionsError>
    requires some { 0 < length words.now }
    requires named { is_among (map (λ n. n.now) names.now) [] ≡ false }
    requires apart { is_among (map (λ n. n.now) names.now) number_id ≡ false }
    ensures { AnswersUses (uses_of (map (λ n. n.now) names.entry.now) takes_number
        (drop 1 (map string_bytes words.entry.now))) result }
{
    if !are_fit_and_single(names, &words[1..]) {
        return Err(OptionsError::Usage);
    }
    let command = command(alloc, name, names, takes_number).map_err(OptionsError::Memory)?;
    match command.try_get_matches_from(words) {
        Ok(matches) => Ok(matches),
        Err(error) => Err(cause_of(&error)),
    }
}
