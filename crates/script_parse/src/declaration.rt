//! The forms of declarations, and of the beginning of a thread.

ghost use Rattle.std.specs.Prelude.{◌≡◌};
ghost use Rattle.std.specs.Option.{option_map};
ghost use Rattle.script_tree.specs.Forms as language;
ghost use Rattle.script_parse.specs.Seen.{all_seen};
ghost use Rattle.script_parse.specs.SeenForms.{seen_form, seen_value_tokens};
ghost use Rattle.script_parse.specs.Saying as saying;

use crate::expression::says;
use crate::form::Form;
use crate::token::Token;
use pct_ask::{NameKind, is_lawful_name};

/// Whether a kind is declared without a first value.
fn is_plain(kind: NameKind) -> bool
    ensures { result ≡ language.is_plain kind }
{
    matches!(kind, NameKind::Mutex | NameKind::Cond | NameKind::RwLock)
}

/// The first version of the language that has a kind.
fn kind_since(kind: NameKind) -> u32
    ensures { result ≡ language.kind_since kind }
{
    match kind {
        NameKind::RwLock => 3,
        _ => 1,
    }
}

fn plain_form<'a>(version: u32, kind: NameKind, name: &'a [u8]) -> Option<Form<'a>>
    ensures { option_map seen_form result ≡ saying.plain_form version kind name.now }
{
    if is_plain(kind) && kind_since(kind) <= version && is_lawful_name(version, name) {
        Some(Form::Plain { kind, name })
    } else {
        None
    }
}

/// A declaration without a first value, or the beginning of a thread.
fn lone_form<'a>(version: u32, kind: NameKind, name: &'a [u8]) -> Option<Form<'a>>
    ensures { option_map seen_form result ≡ saying.lone_form version kind name.now }
{
    match kind {
        NameKind::Thread => {
            if is_lawful_name(version, name) {
                Some(Form::Thread { name })
            } else {
                None
            }
        }
        _ => plain_form(version, kind, name),
    }
}

/// Whether these signs stand before the digits of a first value that is negative.
fn is_minus(kind: NameKind, signs: &[u8]) -> bool
    ensures { result ≡ saying.is_minus kind signs.now }
{
    match kind {
        NameKind::Var => says(signs, b"-"),
        _ => false,
    }
}

fn minus_value<'a>(kind: NameKind, signs: &[u8], digits: &'a [u8]) -> Option<(bool, &'a [u8])>
    ensures { option_map (λ v. seen_value_tokens v.0 v.1.now) result
        ≡ saying.minus_value kind signs.now digits.now }
{
    if is_minus(kind, signs) {
        Some((true, digits))
    } else {
        None
    }
}

/// Whether a first value is negative, and its digits.
fn value_of<'a>(kind: NameKind, tokens: &[Token<'a>]) -> Option<(bool, &'a [u8])>
    ensures { option_map (λ v. seen_value_tokens v.0 v.1.now) result
        ≡ saying.value_parts kind (all_seen tokens.now) }
{
    match tokens {
        [Token::Number(digits)] => Some((false, digits)),
        [Token::Symbol(signs), Token::Number(digits)] => minus_value(kind, signs, digits),
        _ => None,
    }
}

fn has_value(kind: NameKind) -> bool
    ensures { result ≡ language.has_value kind }
{
    matches!(kind, NameKind::Var | NameKind::Sem | NameKind::Barrier)
}

fn valued_form<'a>(
    version: u32,
    kind: NameKind,
    name: &'a [u8],
    signs: &[u8],
    value: &[Token<'a>],
) -> Option<Form<'a>>
    ensures { option_map seen_form result
        ≡ saying.valued_form version kind name.now signs.now (all_seen value.now) }
{
    if !has_value(kind) || !says(signs, b"=") || !is_lawful_name(version, name) {
        return None;
    }
    let (minus, digits) = value_of(kind, value)?;
    Some(Form::Valued {
        kind,
        name,
        minus,
        digits,
    })
}

pub fn declared_form<'a>(version: u32, kind: NameKind, tokens: &[Token<'a>]) -> Option<Form<'a>>
    ensures { option_map seen_form result
        ≡ saying.declared_form version kind (all_seen tokens.now) }
{
    match tokens {
        [Token::Word(name)] => lone_form(version, kind, name),
        [Token::Word(name), Token::Symbol(signs), value @ ..] => {
            valued_form(version, kind, name, signs, value)
        }
        _ => None,
    }
}
