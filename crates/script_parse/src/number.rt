//! The numbers that digits stand for.

ghost use Rattle.std.specs.Prelude.{◌≡◌, ◌<◌, ◌^◌, true, min, pos, Some};
ghost use Rattle.std.specs.Char.{digit_value};
ghost use Rattle.std.specs.Str.Parse.{digits_value};
ghost use Rattle.script_tree.specs.Forms as language;
ghost use Rattle.script_tree.specs.Ranges as ranges;
ghost use Rattle.script_parse.specs.SeenForms.{seen_value_tokens};

use pct_ask::NameKind;

/// What a byte is worth as a digit, as far as bases go.
fn digit_of(byte: u8) -> u32
    ensures { result ≡ digit_value byte }
{
    char::from(byte).to_digit(36).unwrap_or(36)
}

/// The number that digits stand for, and 2 to the power of 64 where it is greater.
pub fn number_of(digits: &[u8]) -> u128
    ensures { result ≡ min (digits_value 10 digits.now) (2 ^ 64) }
{
    let mut value = 0u128;
    for &byte in digits {
        value = (value * 10 + u128::from(digit_of(byte))).min(1 << 64);
    }
    value
}

/// The number that digits stand for, where it isn't above the greatest i64.
pub fn small_number(digits: &[u8]) -> i64
    requires { digits_value 10 digits.now < 2 ^ 63 }
    ensures { result ≡ pos (digits_value 10 digits.now) }
{
    number_of(digits) as i64
}

/// The first value that digits stand for, with a `-` before them or without.
pub fn first_value(kind: NameKind, minus: bool, digits: &[u8]) -> i64
    requires { ranges.value_fits kind (seen_value_tokens minus digits.now) ≡ true }
    ensures { language.value_in kind (seen_value_tokens minus digits.now) ≡ Some result }
{
    let number = number_of(digits);
    if !minus {
        number as i64
    } else if number < 1 << 63 {
        -(number as i64)
    } else {
        i64::MIN
    }
}
