//! A text as lines or as pieces, and a line as words.

ghost use Rattle.std.specs.Prelude.{◌≡◌, ◌≤◌, ◌==◌, ◌∷◌, IfOk, length, position, take};
ghost use Rattle.std.specs.List.{slice_split};
ghost use Rattle.pct_ask.specs.VerdictWords.{words_of};
ghost use Rattle.pct_ask.specs.Pieces.{pieces_of, seen, pieces_after, length_after};

use std::alloc::{AllocError as NoMemory, Global};

/// The first line of a text, and what comes after its LF, if it has one.
pub fn cut_line(text: &[u8]) -> (&[u8], Option<&[u8]>)
    ensures pieces { pieces_of text.now ≡ result.0.now ∷ pieces_after result.1 }
    ensures shorter { length_after result.1 ≤ length text.now }
{
    match first_end(text) {
        Some(end) => (&text[..end], Some(&text[end + 1..])),
        None => (text, None),
    }
}

/// Where the first LF stands.
pub(crate) fn first_end(text: &[u8]) -> Option<usize>
    ensures { result ≡ position (λ b. b == 10) text.now }
{
    text.iter().position(|b| *b == b'\n')
}

/// The pieces of a text between which the separator stands. Of a text with more than `most` pieces
/// these are only the first.
pub fn first_pieces(
    alloc: Global,
    text: &[u8],
    separator: u8,
    most: usize,
) -> Result<Vec<&[u8]>, NoMemory>
    ensures { IfOk result (λ pieces. seen pieces.items
        ≡ take most (slice_split (λ b. b == separator) text.now)) }
{
    let mut pieces = Vec::new(alloc);
    for piece in text.split(|b| *b == separator).take(most) {
        pieces.push(piece)?;
    }
    Ok(pieces)
}

/// The words of a line, which single spaces separate. Of a line with more than `most` words these
/// are only the first.
pub fn first_words(alloc: Global, line: &[u8], most: usize) -> Result<Vec<&[u8]>, NoMemory>
    ensures { IfOk result (λ words. seen words.items ≡ take most (words_of line.now)) }
{
    first_pieces(alloc, line, b' ', most)
}
