//! What is asked of the words before `clap` sees them: `--`, `--help`, `--version`, shortened names, short options and
//! repeated options are refused here.

ghost use Rattle.nc_options.specs.Fit.{are_fit, are_fit_and_single, are_single, is_fit, names_option};
ghost use Rattle.nc_options.specs.Pieces.{is_among, name_in};
ghost use Rattle.std.specs.List.{count_by};
ghost use Rattle.std.specs.Prelude.{◌≡◌, map, nat_le, string_bytes};

/// Whether the text is one of the names.
fn is_name(names: &[&str], text: &[u8]) -> bool
    ensures { result ≡ is_among (map (λ n. n.now) names.now) text.now }
{
    names.iter().any(|name| name.as_bytes() == text)
}

/// What stands before the first `=`, the whole text where there is none.
fn name_of(text: &[u8]) -> &[u8]
    ensures { result.now ≡ name_in text.now }
{
    match text.iter().position(|byte| *byte == b'=') {
        Some(at) => &text[..at],
        None => text,
    }
}

/// Whether a word does not begin with a hyphen, or names an option in full.
fn is_fit(names: &[&str], word: &[u8]) -> bool
    ensures { result ≡ is_fit (map (λ n. n.now) names.now) word.now }
{
    match word {
        [b'-', b'-', text @ ..] => is_name(names, name_of(text)),
        [b'-', ..] => false,
        _ => true,
    }
}

/// Whether each word is fit.
fn are_fit(names: &[&str], words: &[String]) -> bool
    ensures { result ≡ are_fit (map (λ n. n.now) names.now) (map string_bytes words.now) }
{
    words.iter().all(|word| is_fit(names, word.as_bytes()))
}

/// Whether the word is the option of this name.
fn names_option(name: &str, word: &[u8]) -> bool
    ensures { result ≡ names_option name.now word.now }
{
    match word {
        [b'-', b'-', text @ ..] => name_of(text) == name.as_bytes(),
        _ => false,
    }
}

/// Whether the option of this name stands in at most one word.
fn is_single(name: &str, words: &[String]) -> bool
    ensures { result ≡ nat_le (count_by (names_option name.now) (map string_bytes words.now)) 1 }
{
    let mut count = 0usize;
    for word in words {
        if names_option(name, word.as_bytes()) {
            count += 1;
        }
    }
    count <= 1
}

/// Whether each option stands in at most one word.
fn are_single(names: &[&str], words: &[String]) -> bool
    ensures { result ≡ are_single (map (λ n. n.now) names.now) (map string_bytes words.now) }
{
    names.iter().all(|name| is_single(*name, words))
}

/// Whether each word is fit and no option stands in two.
pub fn are_fit_and_single(names: &[&str], words: &[String]) -> bool
    ensures { result ≡ are_fit_and_single (map (λ n. n.now) names.now) (map string_bytes words.now) }
{
    are_fit(names, words) && are_single(names, words)
}
