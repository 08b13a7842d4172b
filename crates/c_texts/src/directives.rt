//! A directive as a text, and read back.

ghost use Rattle.std.specs.Prelude.{◌≡◌, ◌≤◌, length, map, take};
ghost use Rattle.directive.specs.Answers.{plain_directive};
ghost use Rattle.c_values.specs.Told.{Answers};
ghost use Rattle.c_values.specs.Moments.{moment_numbers};
ghost use Rattle.c_texts.specs.Directives.{SaysDirective, IsDirectiveText, TellsDirective};
ghost use Rattle.pct_ask.specs.declared.limits.TheConstants.{MAX_POINTS};

use crate::known::known_verdict;
use c_values::{
    PctMoment, PctOutcome, Refused, moments_said, names_said, numbers_of_moment, numbers_of_verdict,
};
use directive::{Directive, are_known_moments, write_directive};
use pct_ask::{MAX_POINTS, NameKind, Names, Sequence};
use policy_pick::{Moment, MomentList};
use std::alloc::Global;

/// A directive: the lowest thread, the moments, as many as `count`, and the verdict.
#[repr(C)]
#[derive(Clone, Copy, Debug)]
pub struct PctDirective {
    pub low: u32,
    pub count: u32,
    pub moments: [PctMoment; 7],
    pub verdict: PctOutcome,
}

/// The directive that the numbers say, where it may be written under the names.
fn directive_of(alloc: Global, names: &Names, numbers: &PctDirective) -> Result<Directive, Refused>
    ensures { Answers (λ told. SaysDirective names.now numbers.now (plain_directive told)) result }
{
    let verdict = known_verdict(names, &numbers.verdict)?;
    if numbers.count > MAX_POINTS as u32 || numbers.low >= names.count(NameKind::Thread) {
        return Err(Refused::Bad);
    }
    let moments = moments_said(alloc, &numbers.moments[..numbers.count as usize])?;
    if !are_known_moments(names, moments.as_slice()) {
        return Err(Refused::Bad);
    }
    Ok(Directive {
        low: numbers.low,
        events: MomentList::from_vec(moments),
        verdict,
    })
}

/// A directive file.
pub fn directive_text_told(
    alloc: Global,
    names: &[u8],
    directive: &PctDirective,
) -> Result<Sequence<u8>, Refused>
    ensures { Answers (IsDirectiveText names.now directive.now) result }
{
    let known = names_said(alloc, names)?;
    let said = directive_of(alloc, &known, directive)?;
    Ok(Sequence::from_vec(write_directive(alloc, &said, &known)?))
}

/// The numbers of at most 7 moments, at the front of an array.
fn moments_in(moments: &[Moment]) -> [PctMoment; 7]
    requires { length moments.now ≤ MAX_POINTS }
    ensures { take (length moments.now) result ≡ map moment_numbers moments.now }
{
    let mut numbers = [PctMoment {
        thread: 0,
        number: 0,
    }; 7];
    for (place, moment) in moments.iter().enumerate() {
        numbers[place] = numbers_of_moment(*moment);
    }
    numbers
}

/// The numbers of a directive.
pub fn numbers_of_directive(told: &Directive) -> PctDirective
    ensures { TellsDirective told.now result }
{
    let moments = told.events.as_slice();
    PctDirective {
        low: told.low,
        count: moments.len() as u32,
        moments: moments_in(moments),
        verdict: numbers_of_verdict(&told.verdict),
    }
}
