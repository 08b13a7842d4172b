//! A directive, read from its first line to its last.

ghost use Rattle.std.specs.Prelude.{◌≡◌, ◌⊎◌, ℕ, ◌≤◌, MatchOption, MatchResult, length, Err};
ghost use Rattle.pct_ask.specs.NameLists.{NameLists, AreNames};
ghost use Rattle.directive.specs.Answers.{AnswersDirective, EachHasOneAnswer, plain_directive};
ghost use Rattle.directive.specs.Directive.{IsDirective};
ghost use Rattle.directive.specs.DirectiveText.{DirectiveText};
ghost use Rattle.directive.specs.Faults.{IsDirectiveFault};
ghost use Rattle.pct_ask.specs.Pieces.{pieces_of};
ghost use Rattle.directive.specs.Reading as reading;
ghost use Rattle.directive.specs.Seen.{Fails, Gives};
ghost use Rattle.directive.specs.declared.fault.DirectiveFault.{DirectiveFault};
ghost use Rattle.pct_ask.specs.declared.limits.TheConstants.{MAX_POINTS};

use crate::directive::Directive;
use crate::fault::{DirectiveError, DirectiveFault};
use crate::row::{SoundDirectiveRow, line_or_fault, low_in, read_row, unended_fault};
use pct_ask::{NameKind, Names, Verdict, cut_line};
use policy_pick::MomentList;
use std::alloc::Global;

const MOST_BYTES: usize = 65_536;

const FIRST: &[u8] = b"directive 1";

/// The moments and the verdict.
#[derive(Drop)]
struct Body {
    events: MomentList,
    verdict: Verdict,
    ghost few: { length events ≤ MAX_POINTS },
}

fn bad(line: u32, kind: DirectiveFault) -> DirectiveError
    ensures { result ≡ DirectiveError.Bad line kind }
{
    DirectiveError::Bad { line, kind }
}

/// What follows the first line, where that is as it should be.
fn after_first(text: &[u8]) -> Option<&[u8]>
    ensures { (names : NameLists)
        → MatchOption result
        (reading.read_from_first names (pieces_of text.now) ≡ Err (1, DirectiveFault.BadHeader))
        (λ rest. reading.read_from_first names (pieces_of text.now)
        ≡ reading.second_line names (pieces_of rest.now)) }
{
    let (line, after) = cut_line(text);
    if line == FIRST { after } else { None }
}

/// The lowest thread, and what follows its line.
fn read_low<'a>(
    alloc: Global,
    names: &Names,
    text: &'a [u8],
) -> Result<(u32, &'a [u8]), DirectiveError>
    ensures { MatchResult result
        (λ low. reading.second_line names.now (pieces_of text.now)
        ≡ reading.told_of low.0 (reading.body_of names.now 3 (pieces_of low.1.now)))
        (λ error. Fails error (reading.second_line names.now (pieces_of text.now))) }
{
    let (line, after) = cut_line(text);
    let name = low_in(alloc, line)?;
    let (Some(name), Some(after)) = (name, after) else {
        return Err(bad(2, DirectiveFault::BadHeader));
    };
    match names.find(NameKind::Thread, name) {
        Some(low) => Ok((low, after)),
        None => Err(bad(2, DirectiveFault::UnknownName)),
    }
}

fn read_body(alloc: Global, names: &Names, text: &[u8]) -> Result<Body, DirectiveError>
    ensures { Gives (λ body. (body.events, body.verdict)) result
        (reading.body_of names.now 3 (pieces_of text.now)) }
{
    let mut events = MomentList::new(alloc);
    let mut line = 3;
    let mut rest = text;
    'lines: loop {
        let (text, after) = cut_line(rest);
        let row = read_row(alloc, names, text)?;
        let Some(after) = after else {
            return Err(bad(line, unended_fault(line, row, text)));
        };
        match line_or_fault(line, row) {
            Err(kind) => return Err(bad(line, kind)),
            Ok(SoundDirectiveRow::Event(moment)) => events.try_push(moment)?,
            Ok(SoundDirectiveRow::Last(verdict)) => {
                if after.is_empty() {
                    return Ok(Body { events, verdict });
                }
                return Err(bad(line + 1, DirectiveFault::MoreAfterVerdict));
            }
        }
        line += 1;
        rest = after;
    }
}

fn read(alloc: Global, bytes: &[u8], names: &Names) -> Result<Directive, DirectiveError>
    ensures read { Gives plain_directive result (reading.read_as_directive names.now bytes.now) }
    ensures lawful { AreNames names.now }
{
    let _ = names.count(NameKind::Thread);
    if bytes.len() > MOST_BYTES {
        return Err(bad(1, DirectiveFault::TooLong));
    }
    let Some(rest) = after_first(bytes) else {
        return Err(bad(1, DirectiveFault::BadHeader));
    };
    let (low, rest) = read_low(alloc, names, rest)?;
    let Body { events, verdict } = read_body(alloc, names, rest)?;
    Ok(Directive {
        low,
        events,
        verdict,
    })
}

/// Reads a directive under the names of a test.
pub fn read_directive(
    alloc: Global,
    bytes: &[u8],
    names: &Names,
) -> Result<Directive, DirectiveError>
    ensures answer { AnswersDirective bytes.now names.now result }

    // A directive's text gives it, and a fault itself, unless there is no memory.
    ensures directive { (text : DirectiveText) → IsDirective bytes.now names.now text
        → MatchResult result
        (λ directive. plain_directive directive ≡ text) (λ error. error ≡ DirectiveError.NoMemory) }
    ensures fault { (line : ℕ) (kind : DirectiveFault)
        → IsDirectiveFault bytes.now names.now line kind
        → (result ≡ Err (DirectiveError.Bad line kind)) ⊎ (result ≡ Err DirectiveError.NoMemory) }
{
    read(alloc, bytes, names)
}

/// A law of the format, and no work: under the names of a test each text is one directive's or has
/// one first fault, and never both.
pub fn one_answer()
    ensures { EachHasOneAnswer }
{}
