//! The tokens of a line.

ghost use Rattle.nc_algebra.specs.Alphabets.{is_name_byte};
ghost use Rattle.nc_tokens.specs.Shown.{IsShownAs, before};
ghost use Rattle.nc_tokens.specs.Tokens.{is_blank, literal_of, sign_of, tokens};
ghost use Rattle.std.specs.Char.{is_ascii_digit};
ghost use Rattle.std.specs.List.{prefix_len};
ghost use Rattle.std.specs.Prelude.{EachIndex, length, slice_index, ◌≡◌, ◌≤◌};

/// A token, or the end of the line.
#[derive(Clone, Copy)]
pub enum Token<'a> {
    /// At most 18 digits, as a number.
    Literal(u64),
    /// More digits than that.
    Long,
    Name(&'a [u8]),
    Plus,
    Minus,
    Times,
    Power,
    Open,
    Close,
    OpenBrace,
    CloseBrace,
    /// A byte that begins no token.
    Bad,
    End,
}

/// Whether a byte is a space or a tab.
pub fn is_blank(byte: u8) -> bool
    ensures { result ≡ is_blank byte }
{
    byte == b' ' || byte == b'\t'
}

/// Whether a byte may stand in a name behind its first one.
fn is_name_byte(byte: u8) -> bool
    ensures { result ≡ is_name_byte byte }
{
    byte.is_ascii_alphanumeric() || byte == b'_'
}

/// How many blanks stand first.
fn blanks_len(bytes: &[u8]) -> usize
    ensures value { result ≡ prefix_len is_blank bytes.now }
    ensures within { result ≤ length bytes.now }
{
    bytes.iter().take_while(|b| is_blank(**b)).count()
}

/// How many digits stand first.
fn digits_len(bytes: &[u8]) -> usize
    ensures value { result ≡ prefix_len is_ascii_digit bytes.now }
    ensures within { result ≤ length bytes.now }
{
    bytes.iter().take_while(|b| b.is_ascii_digit()).count()
}

/// How many bytes of a name stand first.
fn name_len(bytes: &[u8]) -> usize
    ensures value { result ≡ prefix_len is_name_byte bytes.now }
    ensures within { result ≤ length bytes.now }
{
    bytes.iter().take_while(|b| is_name_byte(**b)).count()
}

/// The token of a byte that is no blank, digit or letter.
fn sign_of(byte: u8) -> Token<'static>
    ensures { IsShownAs result (sign_of byte) }
{
    match byte {
        b'+' => Token::Plus,
        b'-' => Token::Minus,
        b'*' => Token::Times,
        b'^' => Token::Power,
        b'[' => Token::Open,
        b']' => Token::Close,
        b'{' => Token::OpenBrace,
        b'}' => Token::CloseBrace,
        _ => Token::Bad,
    }
}

/// A literal from its digits.
fn literal_of(digits: &[u8]) -> Token<'static>
    requires { EachIndex digits.now (λ k. (48 ≤ slice_index digits.now k)
        × (slice_index digits.now k ≤ 57)) }
    ensures { IsShownAs result (literal_of digits.now) }
{
    if digits.len() > 18 {
        return Token::Long;
    }
    let mut value: u64 = 0;
    for digit in digits {
        value = value * 10 + u64::from(digit - b'0');
    }
    Token::Literal(value)
}

/// The next token, and the bytes behind it.
pub fn next_token(bytes: &[u8]) -> (Token<'_>, &[u8])
    ensures { tokens bytes.now ≡ before result.0 (tokens result.1.now) }
{
    let (_, bytes) = bytes.split_at(blanks_len(bytes));
    let [first, rest @ ..] = bytes else {
        return (Token::End, bytes);
    };
    if first.is_ascii_digit() {
        let (digits, rest) = bytes.split_at(digits_len(bytes));
        (literal_of(digits), rest)
    } else if first.is_ascii_alphabetic() {
        let (name, rest) = bytes.split_at(name_len(bytes));
        (Token::Name(name), rest)
    } else {
        (sign_of(*first), rest)
    }
}
