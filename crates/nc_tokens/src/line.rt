//! The lines of a text.

ghost use Rattle.nc_tokens.specs.Lines.{content, is_allowed, lines, written};
ghost use Rattle.nc_tokens.specs.Next.{IsNextWritten};
ghost use Rattle.nc_tokens.specs.Tokens.{is_blank};
ghost use Rattle.std.specs.List.{list_all, prefix_len};
ghost use Rattle.std.specs.Prelude.{length, not, ◌+◌, ◌<◌, ◌==◌, ◌^◌, ◌∷◌, ◌≡◌, ◌≤◌};

use crate::token::is_blank;

/// How many bytes stand before the first one of a kind.
fn len_before(bytes: &[u8], end: u8) -> usize
    ensures value { result ≡ prefix_len (λ b. not (b == end)) bytes.now }
    ensures within { result ≤ length bytes.now }
{
    bytes.iter().take_while(|b| **b != end).count()
}

/// The first line, and the bytes behind the line feed that ends it.
fn split_line(bytes: &[u8]) -> (&[u8], &[u8])
    requires { 0 < length bytes.now }
    ensures lines { lines bytes.now ≡ result.0.now ∷ lines result.1.now }
    ensures shorter { length result.1.now < length bytes.now }
{
    let len = len_before(bytes, b'\n');
    let (line, rest) = bytes.split_at(len);
    if rest.is_empty() {
        return (line, rest);
    }
    (line, &rest[1..])
}

/// What stands before a line's comment.
fn content_of(line: &[u8]) -> &[u8]
    ensures { result.now ≡ content line.now }
{
    let mut line = line;
    if !line.is_empty() && line[line.len() - 1] == b'\r' {
        line = &line[..line.len() - 1];
    }
    let (content, _) = line.split_at(len_before(line, b'#'));
    content
}

/// Whether a byte may stand in a line, outside its comment.
fn is_allowed(byte: u8) -> bool
    ensures { result ≡ is_allowed byte }
{
    byte == b'\t' || (32..=126).contains(&byte)
}

/// Whether each byte may stand in a line.
pub fn are_allowed(bytes: &[u8]) -> bool
    ensures { result ≡ list_all is_allowed bytes.now }
{
    bytes.iter().all(|b| is_allowed(*b))
}

/// Whether a line is blank.
fn are_blanks(bytes: &[u8]) -> bool
    ensures { result ≡ list_all is_blank bytes.now }
{
    bytes.iter().all(|b| is_blank(*b))
}

/// What comes next in a text.
pub enum Next<'a> {
    /// The end, with the number of lines plus 1.
    End(u64),
    /// A line that is not blank, with its number, without its comment, and the bytes behind it.
    Line(u64, &'a [u8], &'a [u8]),
}

/// The next line that is not blank.
pub fn next_line(bytes: &[u8], number: u64) -> Next<'_>
    requires { number + length bytes.now < 2 ^ 64 }
    ensures { IsNextWritten (number + length bytes.now) (written number (lines bytes.now)) result }
{
    let mut rest = bytes;
    let mut at = number;
    while !rest.is_empty() {
        let (line, after) = split_line(rest);
        let content = content_of(line);
        if !are_blanks(content) {
            return Next::Line(at, content, after);
        }
        rest = after;
        at += 1;
    }
    Next::End(at)
}
