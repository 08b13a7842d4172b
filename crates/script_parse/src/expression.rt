//! Expressions, read token by token.

ghost use Rattle.std.specs.Prelude.{◌≡◌, ◌∷◌, IfOk, OnOk, Some, None};
ghost use Rattle.std.specs.Option.{option_map};
ghost use Rattle.std.specs.Str.{bytes_eq};
ghost use Rattle.script_parse.specs.Spellings.{spelled_tree as tree};
ghost use Rattle.script_tree.specs.Expressions as language;
ghost use Rattle.script_parse.specs.Seen.{seen, all_seen};
ghost use Rattle.script_parse.specs.Machine.{operator_in, expression_in, open_expression};
ghost use Rattle.script_parse.specs.Machine as machine;
ghost use Rattle.script_parse.specs.Frames.{seen_frame, seen_frames, seen_pending};

use crate::spelling::Spelling;
use crate::token::Token;
use pct_ask::register_of;
use script_tree::Op;
use std::alloc::{AllocError as NoMemory, Global};

/// What waits for what follows: a parenthesis for its end, an operator for its part or its right
/// part.
#[derive(Drop)]
pub enum OpenPart<'a> {
    Paren,
    Not,
    Minus,
    Two(Op, Spelling<'a>),
}

/// What was read of an expression: what waits, the innermost last, and the value that was read
/// last, if one was.
#[derive(Drop)]
pub struct Pending<'a> {
    frames: Vec<OpenPart<'a>>,
    value: Option<Spelling<'a>>,
}

/// Whether a word or a symbol is this text.
pub fn says(word: &[u8], text: &[u8]) -> bool
    ensures { result ≡ bytes_eq word.now text.now }
{
    word == text
}

/// The operator that signs stand for.
fn operator_of(signs: &[u8]) -> Option<Op>
    ensures { result ≡ operator_in signs.now }
{
    if says(signs, b"||") {
        Some(Op::Or)
    } else if says(signs, b"&&") {
        Some(Op::And)
    } else if says(signs, b"==") {
        Some(Op::Eq)
    } else if says(signs, b"!=") {
        Some(Op::Ne)
    } else if says(signs, b"<") {
        Some(Op::Lt)
    } else if says(signs, b"<=") {
        Some(Op::Le)
    } else if says(signs, b">") {
        Some(Op::Gt)
    } else if says(signs, b">=") {
        Some(Op::Ge)
    } else if says(signs, b"+") {
        Some(Op::Plus)
    } else if says(signs, b"-") {
        Some(Op::Less)
    } else if says(signs, b"*") {
        Some(Op::Times)
    } else if says(signs, b"/") {
        Some(Op::Over)
    } else if says(signs, b"%") {
        Some(Op::Rest)
    } else {
        None
    }
}

/// How strongly an operator binds.
fn strength(op: Op) -> u32
    ensures { result ≡ language.strength op }
{
    match op {
        Op::Or => 0,
        Op::And => 1,
        Op::Eq | Op::Ne | Op::Lt | Op::Le | Op::Gt | Op::Ge => 2,
        Op::Plus | Op::Less => 3,
        Op::Times | Op::Over | Op::Rest => 4,
    }
}

/// The level of an operator's left part: its own, so that it groups to the left, but no comparison
/// for a comparison.
fn left_level(op: Op) -> u32
    ensures { result ≡ language.left_level op }
{
    let own = strength(op);
    if own == 2 { 3 } else { own }
}

/// Whether what waits takes a part of this level.
fn takes_part(frame: &OpenPart<'_>, level: u32) -> bool
    ensures { result ≡ machine.takes_part level (seen_frame frame.now) }
{
    match frame {
        OpenPart::Paren => false,
        OpenPart::Not | OpenPart::Minus => true,
        OpenPart::Two(op, _) => level <= strength(*op),
    }
}

/// What waited, with its part.
fn around<'a>(
    alloc: Global,
    frame: OpenPart<'a>,
    part: Spelling<'a>,
) -> Result<Spelling<'a>, NoMemory>
    ensures { IfOk result (λ e.
        tree e ≡ machine.around (seen_frame frame.entry) (tree part.entry)) }
{
    match frame {
        OpenPart::Paren => Ok(part),
        OpenPart::Not => Ok(Spelling::Not(Box::new(alloc, part)?)),
        OpenPart::Minus => Ok(Spelling::Minus(Box::new(alloc, part)?)),
        OpenPart::Two(op, left) => {
            let left = Box::new(alloc, left)?;
            let right = Box::new(alloc, part)?;
            Ok(Spelling::Two(op, left, right))
        }
    }
}

fn is_taken(frames: &[OpenPart<'_>], level: u32) -> bool
    ensures { result ≡ machine.is_taken level (seen_frames frames.now) }
{
    match frames.last() {
        None => false,
        Some(frame) => takes_part(frame, level),
    }
}

/// The value with all that waits for it at this level or a stronger one.
fn reduce<'a>(
    alloc: Global,
    level: u32,
    frames: &mut Vec<OpenPart<'a>>,
    value: Spelling<'a>,
) -> Result<Spelling<'a>, NoMemory>
    ensures { OnOk result
        (IfOk result (λ e.
        machine.reduced_value level (seen_frames frames.old.items) (tree value.entry)
        ≡ (seen_frames frames.new.items, tree e))) }
{
    let mut value = value;
    'taking: while is_taken(frames, level) {
        let Some(frame) = frames.pop() else {
            break;
        };
        value = around(alloc, frame, value)?;
    }
    Ok(value)
}

/// Whether a comparison waits there for its right part, where another comparison begins.
fn chains(op: Op, frames: &[OpenPart<'_>]) -> bool
    ensures { result ≡ machine.chains op (seen_frames frames.now) }
{
    match frames.last() {
        Some(OpenPart::Two(other, _)) => strength(*other) == strength(op),
        _ => false,
    }
}

fn waiting<'a>(mut frames: Vec<OpenPart<'a>>, frame: OpenPart<'a>) -> Result<Pending<'a>, NoMemory>
    ensures { IfOk result (λ p.
        seen_pending p
        ≡ open_expression (seen_frame frame.entry ∷ seen_frames frames.entry.items) None) }
{
    frames.push(frame)?;
    Ok(Pending {
        frames,
        value: None,
    })
}

/// A token where a value may begin.
fn with_value_token<'a>(
    frames: Vec<OpenPart<'a>>,
    token: &Token<'a>,
) -> Result<Option<Pending<'a>>, NoMemory>
    ensures { IfOk result (λ next.
        option_map seen_pending next
        ≡ machine.with_value_token (seen_frames frames.entry.items) (seen token.now)) }
{
    match token {
        Token::Number(digits) => Ok(Some(Pending {
            frames,
            value: Some(Spelling::Number(digits)),
        })),
        Token::Word(word) => match register_of(word) {
            None => Ok(None),
            Some(reg) => Ok(Some(Pending {
                frames,
                value: Some(Spelling::Reg(reg)),
            })),
        },
        Token::Symbol(signs) => {
            if says(signs, b"(") {
                Ok(Some(waiting(frames, OpenPart::Paren)?))
            } else if says(signs, b"-") {
                Ok(Some(waiting(frames, OpenPart::Minus)?))
            } else if says(signs, b"!") {
                Ok(Some(waiting(frames, OpenPart::Not)?))
            } else {
                Ok(None)
            }
        }
    }
}

/// An operator behind a value.
fn joined<'a>(
    alloc: Global,
    mut frames: Vec<OpenPart<'a>>,
    value: Spelling<'a>,
    op: Op,
) -> Result<Option<Pending<'a>>, NoMemory>
    ensures { IfOk result (λ next.
        option_map seen_pending next
        ≡ machine.joined_by (Some op) (seen_frames frames.entry.items) (tree value.entry)) }
{
    let left = reduce(alloc, left_level(op), &mut frames, value)?;
    if chains(op, &frames) {
        return Ok(None);
    }
    Ok(Some(waiting(frames, OpenPart::Two(op, left))?))
}

/// A `)` behind a value.
fn closed<'a>(
    alloc: Global,
    mut frames: Vec<OpenPart<'a>>,
    value: Spelling<'a>,
) -> Result<Option<Pending<'a>>, NoMemory>
    ensures { IfOk result (λ next.
        option_map seen_pending next
        ≡ machine.closed_by (seen_frames frames.entry.items) (tree value.entry)) }
{
    let value = reduce(alloc, 0, &mut frames, value)?;
    match frames.pop() {
        Some(OpenPart::Paren) => Ok(Some(Pending {
            frames,
            value: Some(value),
        })),
        _ => Ok(None),
    }
}

/// A token behind a value.
fn behind<'a>(
    alloc: Global,
    frames: Vec<OpenPart<'a>>,
    value: Spelling<'a>,
    token: &Token<'a>,
) -> Result<Option<Pending<'a>>, NoMemory>
    ensures { IfOk result (λ next.
        option_map seen_pending next
        ≡ machine.behind (seen_frames frames.entry.items) (tree value.entry) (seen token.now)) }
{
    let Token::Symbol(signs) = token else {
        return Ok(None);
    };
    if says(signs, b")") {
        return closed(alloc, frames, value);
    }
    match operator_of(signs) {
        None => Ok(None),
        Some(op) => joined(alloc, frames, value, op),
    }
}

impl<'a> Pending<'a> {
    /// Takes the next token. None where no expression goes on with it.
    fn take(self, alloc: Global, token: &Token<'a>) -> Result<Option<Pending<'a>>, NoMemory>
        ensures { IfOk result (λ next.
            option_map seen_pending next
            ≡ machine.token_step (seen_pending self.entry) (seen token.now)) }
    {
        let Pending { frames, value } = self;
        match value {
            None => with_value_token(frames, token),
            Some(value) => behind(alloc, frames, value, token),
        }
    }

    /// The expression, where the last token was read.
    fn finish(self, alloc: Global) -> Result<Option<Spelling<'a>>, NoMemory>
        ensures { IfOk result (λ found.
            option_map tree found ≡ machine.whole_expression (seen_pending self.entry)) }
    {
        let Pending { mut frames, value } = self;
        let Some(value) = value else {
            return Ok(None);
        };
        let value = reduce(alloc, 0, &mut frames, value)?;
        if frames.is_empty() {
            Ok(Some(value))
        } else {
            Ok(None)
        }
    }
}

/// The expression that tokens spell.
pub fn expression_of<'a>(
    alloc: Global,
    tokens: &[Token<'a>],
) -> Result<Option<Spelling<'a>>, NoMemory>
    ensures { IfOk result (λ found.
        option_map tree found ≡ expression_in (all_seen tokens.now)) }
{
    let mut pending = Pending {
        frames: Vec::new(alloc),
        value: None,
    };
    for token in tokens {
        match pending.take(alloc, token)? {
            None => return Ok(None),
            Some(next) => pending = next,
        }
    }
    pending.finish(alloc)
}
