//! The number that decimal digits write.

ghost use Rattle.std.specs.Prelude.{◌≡◌, ◌↔◌, IfSome, IsSome};
ghost use Rattle.std.specs.Str.Parse.{digits_value};
ghost use Rattle.nc_field.specs.Literals.{IsLiteral};

/// The most digits that a number may have. Whatever they are, it fits in 64 bits.
const MOST_DIGITS: usize = 18;

/// The number that the digits write, the first of them the highest.
pub(crate) fn value_of(digits: &[u8]) -> Option<u64>
    ensures when { IsSome result ↔ IsLiteral digits.now }
    ensures value { IfSome result (λ n. n ≡ digits_value 10 digits.now) }
{
    if digits.is_empty() || digits.len() > MOST_DIGITS {
        return None;
    }
    let mut value: u64 = 0;
    for digit in digits {
        if !digit.is_ascii_digit() {
            return None;
        }
        value = value * 10 + u64::from(*digit - b'0');
    }
    Some(value)
}
