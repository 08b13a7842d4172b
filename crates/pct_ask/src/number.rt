ghost use Rattle.std.specs.Prelude.{◌≡◌, ◌≤◌, ◌++◌, ℤ, IfOk, IfSome, OnOk, OnErr, Some};
ghost use Rattle.std.specs.Prelude.{FitsSigned};
ghost use Rattle.std.specs.Int.{w128};
ghost use Rattle.pct_ask.specs.Numbers as numbers;
ghost use Rattle.pct_ask.specs.Numbers.{number_text};
ghost use Rattle.pct_ask.specs.Pieces.{seen};

use crate::limits::MAX_STEPS;
use crate::sequence::PointList;
use itoa::Buffer;
use std::alloc::{AllocError as NoMemory, Global};

/// The number that a canonical decimal spells. `None` where the text is no canonical decimal, or
/// one outside i128.
pub fn read_number(text: &[u8]) -> Option<i128>
    ensures spelled { IfSome result (λ number. text.now ≡ number_text number) }
    ensures fits { IfSome result (λ number. FitsSigned w128 number) }
    ensures every { (number : ℤ) → FitsSigned w128 number → text.now ≡ number_text number
        → result ≡ Some number }
{
    let Ok(digits) = str::from_utf8(text) else {
        return None;
    };
    let Ok(number) = digits.parse::<i128>() else {
        return None;
    };
    let mut buffer = Buffer::new();
    let canonical = buffer.format(number).as_bytes();
    if canonical == text {
        Some(number)
    } else {
        None
    }
}

fn in_range(low: u64, high: u64, number: i128) -> Option<u64>
    ensures number { result ≡ numbers.in_range low high number }
    ensures most { IfSome result (λ found. found ≤ high) }
{
    if i128::from(low) <= number && number <= i128::from(high) {
        Some(number as u64)
    } else {
        None
    }
}

/// The number in a range of which the text is the canonical decimal.
pub fn number_in(low: u64, high: u64, text: &[u8]) -> Option<u64>
    ensures number { result ≡ numbers.number_in low high text.now }
    ensures most { IfSome result (λ number. number ≤ high) }
{
    let number = read_number(text)?;
    in_range(low, high, number)
}

/// The number from 1 to 100,000 that a word spells: a limit, a count of steps or of runs, or the
/// step of a change point or of a moment.
pub fn step_count(word: &[u8]) -> Option<u32>
    ensures { result ≡ numbers.step_count word.now }
{
    let count = number_in(1, u64::from(MAX_STEPS), word)?;
    Some(count as u32)
}

/// What each word is, where each is a number of steps.
pub fn step_counts(alloc: Global, words: &[&[u8]]) -> Result<Option<PointList>, NoMemory>
    ensures { IfOk result (λ counts. counts ≡ numbers.step_counts (seen words.now)) }
{
    let mut counts = PointList::new(alloc);
    let mut rest = words;
    while let [word, others @ ..] = rest {
        let Some(count) = step_count(word) else {
            return Ok(None);
        };
        counts.try_push(count)?;
        rest = others;
    }
    Ok(Some(counts))
}

/// Writes a number's canonical decimal at the end. After an `Err` the bytes are as before.
pub fn write_number(value: i128, out: &mut Vec<u8>) -> Result<(), NoMemory>
    ensures written { OnOk result (out.new.items ≡ out.old.items ++ number_text value) }
    ensures unchanged { OnErr result (out.new.items ≡ out.old.items) }
{
    let mut buffer = Buffer::new();
    out.extend_from_slice(buffer.format(value).as_bytes())
}
