//! Numbers out of range.

ghost use Rattle.std.specs.Prelude.{◌≡◌};
ghost use Rattle.std.specs.List.{list_any};
ghost use Rattle.script_tree.specs.Ranges as ranges;
ghost use Rattle.script_parse.specs.Seen.{seen, all_seen};
ghost use Rattle.script_parse.specs.SeenForms.{seen_value_tokens, seen_form};

use crate::form::Form;
use crate::number::number_of;
use crate::token::Token;
use pct_ask::NameKind;

fn value_fits(kind: NameKind, minus: bool, digits: &[u8]) -> bool
    ensures { result ≡ ranges.value_fits kind (seen_value_tokens minus digits.now) }
{
    let number = number_of(digits);
    match (kind, minus) {
        (NameKind::Var, false) => number < 1 << 63,
        (NameKind::Var, true) => number <= 1 << 63,
        (NameKind::Sem, false) => number <= 2_147_483_647,
        (NameKind::Barrier, false) => number >= 1 && number <= 1000,
        _ => false,
    }
}

/// Whether a token is a number above the greatest i64.
fn is_great(token: &Token<'_>) -> bool
    ensures { result ≡ ranges.is_great (seen token.now) }
{
    match token {
        Token::Number(digits) => number_of(digits) >= 1 << 63,
        _ => false,
    }
}

fn has_great(tokens: &[Token<'_>]) -> bool
    ensures { result ≡ list_any (λ token. ranges.is_great (seen token)) tokens.now }
{
    tokens.iter().any(|token| is_great(token))
}

/// Whether a number of a line is out of range.
pub fn is_out_of_range(tokens: &[Token<'_>], form: &Form<'_>) -> bool
    ensures { result ≡ ranges.is_out_of_range (all_seen tokens.now) (seen_form form.now) }
{
    match form {
        Form::Valued {
            kind,
            minus,
            digits,
            ..
        } => !value_fits(*kind, *minus, digits),
        _ => has_great(tokens),
    }
}
