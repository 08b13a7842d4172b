//! What a line begins, by its first tokens.

ghost use Rattle.std.specs.Prelude.{◌≡◌, is_some};
ghost use Rattle.pct_ask.specs.declared.names.NameKind.TheVariants as kinds;
ghost use Rattle.script_tree.specs.Lines as lines;
ghost use Rattle.script_parse.specs.Seen.{all_seen};

use crate::expression::says;
use crate::token::Token;

/// Whether a line begins with this word.
pub fn begins(word: &[u8], tokens: &[Token<'_>]) -> bool
    ensures { result ≡ lines.begins_with word.now (all_seen tokens.now) }
{
    match tokens {
        [Token::Word(first), ..] => says(first, word),
        _ => false,
    }
}

/// Whether a line begins a block: a thread, an `if` or a `while`.
pub fn opens(tokens: &[Token<'_>]) -> bool
    ensures { result ≡ lines.opens (all_seen tokens.now) }
{
    begins(b"thread", tokens) || begins(b"if", tokens) || begins(b"while", tokens)
}

/// Whether a line names a thread that it begins.
pub fn names_thread(tokens: &[Token<'_>]) -> bool
    ensures { result ≡ is_some (lines.declared_name kinds.Thread (all_seen tokens.now)) }
{
    match tokens {
        [Token::Word(word), Token::Word(_), ..] => says(word, b"thread"),
        _ => false,
    }
}
