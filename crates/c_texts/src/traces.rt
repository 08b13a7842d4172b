//! A trace as a text.

ghost use Rattle.std.specs.Prelude.{◌≤◌, length};
ghost use Rattle.rank_now.specs.Order.{IsOrder};
ghost use Rattle.trace_text.specs.Known.{head_by};
ghost use Rattle.c_values.specs.Told.{Answers};
ghost use Rattle.c_texts.specs.Traces.{IsHeadOf, SaysSteps, IsTraceText};
ghost use Rattle.pct_ask.specs.declared.limits.TheConstants.{MAX_THREADS};

use crate::known::known_verdict;
use c_values::{PctEvent, PctOutcome, Refused, deal_of_names, names_said, steps_of};
use pct_ask::{EventList, NameKind, Names, OrderList, PointList, Sequence};
use rank_now::is_order;
use std::alloc::Global;
use trace_text::{Header, are_known_steps, is_of_version, is_plain_head, write_trace};

/// Refuses a list that is no order.
fn check_order(order: &[u32]) -> Result<(), Refused>
    requires { length order.now ≤ MAX_THREADS }
    ensures { Answers (λ _. IsOrder order.now) result }
{
    if is_order(order) {
        Ok(())
    } else {
        Err(Refused::Bad)
    }
}

/// The head of a trace that may be written under the names.
fn header_of(
    alloc: Global,
    names: &Names,
    version: u32,
    limit: u32,
    order: &[u32],
    points: &[u32],
) -> Result<Header, Refused>
    ensures { Answers (IsHeadOf names.now (head_by version limit order.now points.now)) result }
{
    let threads = names.count(NameKind::Thread);
    if !is_plain_head(threads, version, limit, order, points) {
        return Err(Refused::Bad);
    }
    check_order(order)?;
    Ok(Header {
        version,
        order: OrderList::from_vec(Vec::from_slice(alloc, order)?),
        points: PointList::from_vec(Vec::from_slice(alloc, points)?),
        limit,
    })
}

/// The steps that the numbers say, where they may be written under the names.
fn known_run(
    alloc: Global,
    names: &Names,
    version: u32,
    limit: u32,
    steps: &[PctEvent],
) -> Result<EventList, Refused>
    ensures { Answers (SaysSteps names.now version limit steps.now) result }
{
    let events = steps_of(alloc, steps)?;
    if events.len() > limit as usize {
        return Err(Refused::Bad);
    }
    match deal_of_names(alloc, names)? {
        Some(deal) if are_known_steps(version, &deal, events.as_slice()) => Ok(events),
        _ => Err(Refused::Bad),
    }
}

/// A trace file of a run by an order and change points.
pub fn trace_text_told(
    alloc: Global,
    names: &[u8],
    version: u32,
    limit: u32,
    order: &[u32],
    points: &[u32],
    steps: &[PctEvent],
    verdict: &PctOutcome,
) -> Result<Sequence<u8>, Refused>
    ensures { Answers (IsTraceText names.now (head_by version limit order.now points.now)
        steps.now verdict.now) result }
{
    let known = names_said(alloc, names)?;
    let header = header_of(alloc, &known, version, limit, order, points)?;
    let events = known_run(alloc, &known, version, limit, steps)?;
    let said = known_verdict(&known, verdict)?;
    if !is_of_version(version, &said) {
        return Err(Refused::Bad);
    }
    let text = write_trace(alloc, &header, &known, events.as_slice(), &said)?;
    Ok(Sequence::from_vec(text))
}
