//! The numbers of a trace.

ghost use Rattle.std.specs.Prelude.{◌≡◌};
ghost use Rattle.trace_text.specs.reader.Numbers as numbers;

use pct_ask::read_number;

/// The i64 that a canonical decimal spells.
pub fn i64_in(word: &[u8]) -> Option<i64>
    ensures { result ≡ numbers.i64_in word.now }
{
    let number = read_number(word)?;
    as_value(number)
}

fn as_value(number: i128) -> Option<i64>
    ensures { result ≡ numbers.small number }
{
    if i128::from(i64::MIN) <= number && number <= i128::from(i64::MAX) {
        Some(number as i64)
    } else {
        None
    }
}

/// The number from 0 on that a canonical decimal spells.
pub fn natural_of(word: &[u8]) -> Option<u64>
    ensures { result ≡ numbers.natural_of word.now }
{
    as_natural(i64_in(word)?)
}

fn as_natural(value: i64) -> Option<u64>
    ensures { result ≡ numbers.natural (Some value) }
{
    if value < 0 { None } else { Some(value as u64) }
}
