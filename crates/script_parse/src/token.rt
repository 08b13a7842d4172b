//! A line as tokens.

ghost use Rattle.std.specs.Prelude.{◌≡◌, ◌≢◌, ◌+◌, ◌^◌, ◌<◌, ◌≤◌, ◌∷◌, false, length, IfOk};
ghost use Rattle.std.specs.List.{prefix_len, list_all};
ghost use Rattle.std.specs.Option.{option_map};
ghost use Rattle.pct_ask.specs.Characters as characters;
ghost use Rattle.pct_ask.specs.Tokens.{token_pieces, tokens_of, token_of as token_in};
ghost use Rattle.pct_ask.specs.Tokens.{is_short_symbol as is_short, is_long_symbol as is_long};
ghost use Rattle.script_parse.specs.Cutting.{BeginsPlain, BeginsWithPiece, IsNext};
ghost use Rattle.script_parse.specs.Seen.{seen, all_seen};

use pct_ask::{is_letter, is_word_byte};
use std::alloc::{AllocError as NoMemory, Global};

/// A word, a number or a symbol of a line.
#[derive(Clone, Copy)]
pub enum Token<'a> {
    Word(&'a [u8]),
    Number(&'a [u8]),
    Symbol(&'a [u8]),
}

/// What stands next in a line.
enum NextToken<'a> {
    End,
    /// No token begins here.
    Bad,
    /// A token, and what follows it.
    Token(Token<'a>, &'a [u8]),
}

fn is_blank(byte: u8) -> bool
    ensures { result ≡ characters.is_blank byte }
{
    byte == b' ' || byte == b'\t' || byte == b'\r'
}

fn is_digit(byte: u8) -> bool
    ensures { result ≡ characters.is_digit byte }
{
    byte.is_ascii_digit()
}

fn is_short_symbol(byte: u8) -> bool
    ensures { result ≡ is_short byte }
{
    matches!(
        byte,
        b'<' | b'>' | b'+' | b'-' | b'*' | b'/' | b'%' | b'!' | b'(' | b')' | b',' | b'='
    )
}

fn is_long_symbol(first: u8, second: u8) -> bool
    ensures { result ≡ is_long first second }
{
    matches!(
        (first, second),
        (b'|', b'|') | (b'&', b'&') | (b'=' | b'!' | b'<' | b'>', b'=')
    )
}

/// The line without the blanks that it begins with.
fn without_blanks(line: &[u8]) -> &[u8]
    ensures same { token_pieces result.now ≡ token_pieces line.now }
    ensures shorter { length result.now ≤ length line.now }
    ensures plain { BeginsPlain result.now }
{
    let mut rest = line;
    while let [byte, after @ ..] = rest {
        if !is_blank(*byte) {
            break;
        }
        rest = after;
    }
    rest
}

/// How many letters and digits a text begins with.
fn word_length(text: &[u8]) -> usize
    ensures length { result ≡ prefix_len characters.is_word_byte text.now }
    ensures within { result ≤ length text.now }
{
    text.iter().take_while(|byte| is_word_byte(**byte)).count()
}

/// How many bytes the piece has that a text begins with, and 0 where no piece begins there.
fn piece_length(first: u8, after: &[u8]) -> usize
    requires plain { characters.is_blank first ≡ false }
    requires uncommented { first ≢ 35 }
    requires short { length after.now < 2 ^ 63 }
    ensures within { result ≤ length after.now + 1 }
    ensures piece { BeginsWithPiece result (first ∷ after.now) }
{
    if is_word_byte(first) {
        return 1 + word_length(after);
    }
    if let [second, ..] = after {
        if is_long_symbol(first, *second) {
            return 2;
        }
    }
    usize::from(is_short_symbol(first))
}

/// Whether a text is digits alone.
fn are_digits(text: &[u8]) -> bool
    ensures { result ≡ list_all characters.is_digit text.now }
{
    text.iter().all(|byte| is_digit(*byte))
}

/// The token that a piece is.
fn token_of(piece: &[u8]) -> Option<Token<'_>>
    ensures { option_map seen result ≡ token_in piece.now }
{
    let (first, others) = piece.split_first()?;
    if is_letter(*first) {
        if others.len() <= 31 {
            Some(Token::Word(piece))
        } else {
            None
        }
    } else if is_digit(*first) {
        if are_digits(others) {
            Some(Token::Number(piece))
        } else {
            None
        }
    } else {
        Some(Token::Symbol(piece))
    }
}

/// What stands next in a line.
fn next_token(line: &[u8]) -> NextToken<'_>
    ensures { IsNext result line.now }
{
    let rest = without_blanks(line);
    let Some((first, after)) = rest.split_first() else {
        return NextToken::End;
    };
    if *first == b'#' {
        return NextToken::End;
    }
    let length = piece_length(*first, after);
    if length == 0 {
        return NextToken::Bad;
    }
    let (piece, others) = rest.split_at(length);
    match token_of(piece) {
        None => NextToken::Bad,
        Some(token) => NextToken::Token(token, others),
    }
}

/// The tokens of a line, or None where it can't be cut into tokens.
pub fn tokens(alloc: Global, line: &[u8]) -> Result<Option<Vec<Token<'_>>>, NoMemory>
    ensures { IfOk result (λ found.
        option_map (λ tokens. all_seen tokens.items) found ≡ tokens_of line.now) }
{
    let mut tokens = Vec::new(alloc);
    let mut rest = line;
    loop {
        match next_token(rest) {
            NextToken::End => return Ok(Some(tokens)),
            NextToken::Bad => return Ok(None),
            NextToken::Token(token, others) => {
                tokens.push(token)?;
                rest = others;
            }
        }
    }
}
