//! The values of the options.

ghost use Rattle.clap.specs.Words.{first_value, found_of};
ghost use Rattle.nc_options.specs.Values.{cofactors_named, cofactors_option, degree_option, digits_of, form_option, limit_option, number_in, number_option, number_or, window_option, workers_option};
ghost use Rattle.std.specs.Char.{is_ascii_digit};
ghost use Rattle.std.specs.List.{list_all};
ghost use Rattle.std.specs.Prelude.{◌≡◌, option_map};

use crate::options::{Cofactors, Form};
use clap::ArgMatches;

/// Whether each byte is a digit.
fn are_digits(text: &[u8]) -> bool
    ensures { result ≡ list_all is_ascii_digit text.now }
{
    text.iter().all(|byte| byte.is_ascii_digit())
}

/// The value of 1 to 18 digits.
fn value_of_digits(text: &str) -> Option<u64>
    ensures { result ≡ digits_of text.now }
{
    if text.is_empty() || text.len() > 18 || !are_digits(text.as_bytes()) {
        return None;
    }
    text.parse::<u64>().ok()
}

/// A number of 1 to 18 digits from `low` to `high`.
fn number_in(text: &str, low: u32, high: u32) -> Option<u32>
    ensures { result ≡ number_in low high text.now }
{
    let number = value_of_digits(text)?;
    if number < u64::from(low) || u64::from(high) < number {
        return None;
    }
    Some(number as u32)
}

/// The number that was given, or the default.
fn number_or(text: Option<&str>, low: u32, high: u32, default: u32) -> Option<u32>
    ensures { result ≡ number_or low high default (option_map (λ t. t.now) text.entry) }
{
    match text {
        Some(text) => number_in(text, low, high),
        None => Some(default),
    }
}

/// `--workers`, 1 to 64, by default 1.
pub fn workers(matches: &ArgMatches<'_>) -> Option<u32>
    ensures { result ≡ workers_option (first_value (found_of matches.now)) }
{
    number_or(matches.get_str("workers"), 1, 64, 1)
}

/// `--window`, 1 to 4,096, by default 64.
pub fn window(matches: &ArgMatches<'_>) -> Option<u32>
    ensures { result ≡ window_option (first_value (found_of matches.now)) }
{
    number_or(matches.get_str("window"), 1, 4096, 64)
}

/// `--limit`, 1 to 10,000,000, by default 10,000.
pub fn limit(matches: &ArgMatches<'_>) -> Option<u32>
    ensures { result ≡ limit_option (first_value (found_of matches.now)) }
{
    number_or(matches.get_str("limit"), 1, 10_000_000, 10_000)
}

/// `--form`, 1 or 2, by default 2.
pub fn form(matches: &ArgMatches<'_>) -> Option<Form>
    ensures { result ≡ form_option (first_value (found_of matches.now)) }
{
    let number = number_or(matches.get_str("form"), 1, 2, 2)?;
    Some(if number == 1 {
        Form::Terms
    } else {
        Form::Lines
    })
}

/// `--degree`, 2 to 10, by default 6.
pub fn degree(matches: &ArgMatches<'_>) -> Option<u32>
    ensures { result ≡ degree_option (first_value (found_of matches.now)) }
{
    number_or(matches.get_str("degree"), 2, 10, 6)
}

/// The number of a demo, 0 to 65,536. It has no default.
pub fn number(matches: &ArgMatches<'_>) -> Option<u32>
    ensures { result ≡ number_option (first_value (found_of matches.now)) }
{
    number_in(matches.get_str("number")?, 0, 65_536)
}

/// The cofactors that the text names.
fn named_cofactors(text: &str) -> Option<Cofactors>
    ensures { result ≡ cofactors_named text.now }
{
    match text {
        "none" => Some(Cofactors::Omitted),
        "trace" => Some(Cofactors::Trace),
        "full" => Some(Cofactors::Full),
        _ => None,
    }
}

/// `--cofactors`, by default none.
pub fn wanted_cofactors(matches: &ArgMatches<'_>) -> Option<Cofactors>
    ensures { result ≡ cofactors_option (first_value (found_of matches.now)) }
{
    match matches.get_str("cofactors") {
        Some(text) => named_cofactors(text),
        None => Some(Cofactors::Omitted),
    }
}
