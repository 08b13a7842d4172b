//! A trace, written line by line.

ghost use Rattle.std.specs.Prelude.{◌≡◌, ◌<◌, ◌≤◌, ◌⊎◌, ◌+◌, [], ◌∷◌, ◌++◌, false, All, Result};
ghost use Rattle.std.specs.Prelude.{OnOk, OnErr, IfOk, length, map, codes, decimal};
ghost use Rattle.std.specs.Fmt.{signed_decimal};
ghost use Rattle.std.specs.List.{slice_index_or, flat_map};
ghost use Rattle.pct_ask.specs.NameLists.{list_of};
ghost use Rattle.pct_ask.specs.VerdictText.{thread_name, named_verdict, IsVerdictForm, HasNames};
ghost use Rattle.pct_ask.specs.VerdictText.{IsWholeVerdict};
ghost use Rattle.pct_ask.specs.TraceText.{ask_words, event_words, step_lines, head_lines};
ghost use Rattle.pct_ask.specs.TraceText.{verdict_line_words, line_text, trace_text, check_word};
ghost use Rattle.pct_ask.specs.TraceVerbs.{verb_word};
ghost use Rattle.trace_text.specs.Answers.{AnswersTrace};
ghost use Rattle.trace_text.specs.Lawful.{IsValue, HasObjects, IsAsk, NamesKnown, IsStep, IsHead};
ghost use Rattle.trace_text.specs.Lawful.{is_of_second};
ghost use Rattle.trace_text.specs.Spaced.{behind_spaces};
ghost use Rattle.trace_text.specs.Trace.{head_of, file_of_parts, IsTrace};
ghost use Rattle.trace_text.specs.declared.file.TraceFile.{TraceFile};
ghost use Rattle.trace_text.specs.declared.fault.TraceError.{TraceError};

use crate::asks::{FAILS, HOLDS};
use crate::fault::TraceError;
use crate::file::{Header, TraceFile};
use NameKind::{Barrier, Cond, Mutex, RwLock, Sem, Thread, Var};
use pct_ask::{
    Ask, Event, NameKind, Names, Verb, Verdict, fault_word, write_number, write_spaced_number,
    write_spaced_word, write_verdict,
};
use std::alloc::{AllocError as NoMemory, Global};

/// A word behind a space.
fn push_word(out: &mut Vec<u8>, word: &[u8]) -> Result<(), NoMemory>
    ensures { OnOk result (out.new.items ≡ out.old.items ++ behind_spaces (word.now ∷ [])) }
{
    write_spaced_word(word, out)
}

fn push_value(out: &mut Vec<u8>, value: i64) -> Result<(), NoMemory>
    ensures { OnOk result
        (out.new.items ≡ out.old.items ++ behind_spaces (signed_decimal value ∷ [])) }
{
    write_spaced_number(i128::from(value), out)
}

fn push_count(out: &mut Vec<u8>, count: u32) -> Result<(), NoMemory>
    ensures { OnOk result (out.new.items ≡ out.old.items ++ behind_spaces (decimal count ∷ [])) }
{
    write_spaced_number(i128::from(count), out)
}

/// The name of a thread or an object.
fn push_name(out: &mut Vec<u8>, names: &Names, kind: NameKind, id: u32) -> Result<(), NoMemory>
    requires { id < length (list_of kind names.now) }
    ensures { OnOk result
        (out.new.items
        ≡ out.old.items ++ behind_spaces (slice_index_or (list_of kind names.now) id [] ∷ [])) }
{
    push_word(out, names.name(kind, id).unwrap())
}

/// A word and the object that it asks something of.
fn push_object(
    out: &mut Vec<u8>,
    names: &Names,
    verb: Verb,
    kind: NameKind,
    id: u32,
) -> Result<(), NoMemory>
    requires { id < length (list_of kind names.now) }
    ensures { OnOk result
        (out.new.items
        ≡ out.old.items
        ++ behind_spaces (verb_word verb ∷ slice_index_or (list_of kind names.now) id [] ∷ [])) }
{
    push_word(out, verb.word())?;
    push_name(out, names, kind, id)
}

/// A wait's half: its word, its condition and its mutex.
fn push_wait(
    out: &mut Vec<u8>,
    names: &Names,
    verb: Verb,
    cond: u32,
    mutex: u32,
) -> Result<(), NoMemory>
    requires cond { cond < length names.now.conds }
    requires mutex { mutex < length names.now.mutexes }
    ensures { OnOk result
        (out.new.items
        ≡ out.old.items
        ++ behind_spaces
        (verb_word verb ∷ slice_index_or names.now.conds cond []
        ∷ slice_index_or names.now.mutexes mutex [] ∷ [])) }
{
    push_object(out, names, verb, NameKind::Cond, cond)?;
    push_name(out, names, NameKind::Mutex, mutex)
}

/// A word, a variable and a number for it.
fn push_change(
    out: &mut Vec<u8>,
    names: &Names,
    verb: Verb,
    var: u32,
    value: i64,
) -> Result<(), NoMemory>
    requires { var < length names.now.vars }
    ensures { OnOk result
        (out.new.items
        ≡ out.old.items
        ++ behind_spaces
        (verb_word verb ∷ slice_index_or names.now.vars var [] ∷ signed_decimal value ∷ [])) }
{
    push_object(out, names, verb, NameKind::Var, var)?;
    push_value(out, value)
}

fn push_pair(out: &mut Vec<u8>, verb: Verb, operand: &[u8]) -> Result<(), NoMemory>
    ensures { OnOk result
        (out.new.items ≡ out.old.items ++ behind_spaces (verb_word verb ∷ operand.now ∷ [])) }
{
    push_word(out, verb.word())?;
    push_word(out, operand)
}

fn check_word(holds: bool) -> &'static [u8]
    ensures { result.now ≡ check_word holds }
{
    if holds { HOLDS } else { FAILS }
}

fn push_cas(out: &mut Vec<u8>, names: &Names, var: u32, old: i64, new: i64) -> Result<(), NoMemory>
    requires { var < length names.now.vars }
    ensures { OnOk result
        (out.new.items
        ≡ out.old.items
        ++ behind_spaces
        (codes "cas" ∷ slice_index_or names.now.vars var [] ∷ signed_decimal old
        ∷ signed_decimal new ∷ [])) }
{
    push_change(out, names, Verb::Cas, var, old)?;
    push_value(out, new)
}

fn push_ask(out: &mut Vec<u8>, names: &Names, version: u32, ask: Ask) -> Result<(), NoMemory>
    requires { HasObjects names.now version ask }
    ensures lawful { OnOk result (IsAsk names.now version ask) }
    ensures text { OnOk result
        (out.new.items ≡ out.old.items ++ behind_spaces (ask_words names.now ask)) }
{
    match ask {
        Ask::Read { var } => push_object(out, names, Verb::Read, Var, var),
        Ask::Write { var, value } => push_change(out, names, Verb::Write, var, value),
        Ask::Add { var, value } => push_change(out, names, Verb::Add, var, value),
        Ask::Cas { var, old, new } => push_cas(out, names, var, old, new),
        Ask::Lock { mutex } => push_object(out, names, Verb::Lock, Mutex, mutex),
        Ask::TryLock { mutex } => push_object(out, names, Verb::TryLock, Mutex, mutex),
        Ask::Unlock { mutex } => push_object(out, names, Verb::Unlock, Mutex, mutex),
        Ask::Release { cond, mutex } => push_wait(out, names, Verb::Release, cond, mutex),
        Ask::Regain { cond, mutex } => push_wait(out, names, Verb::Regain, cond, mutex),
        Ask::Signal { cond } => push_object(out, names, Verb::Signal, Cond, cond),
        Ask::Broadcast { cond } => push_object(out, names, Verb::Broadcast, Cond, cond),
        Ask::Down { sem } => push_object(out, names, Verb::Down, Sem, sem),
        Ask::TryDown { sem } => push_object(out, names, Verb::TryDown, Sem, sem),
        Ask::Up { sem } => push_object(out, names, Verb::Up, Sem, sem),
        Ask::Arrive { barrier } => push_object(out, names, Verb::Arrive, Barrier, barrier),
        Ask::Leave { barrier } => push_object(out, names, Verb::Leave, Barrier, barrier),
        Ask::Join { thread } => push_object(out, names, Verb::Join, Thread, thread),
        Ask::Yield => push_word(out, Verb::Yield.word()),
        Ask::Check { holds } => push_pair(out, Verb::Check, check_word(holds)),
        Ask::Fault { kind } => push_pair(out, Verb::Fault, fault_word(kind)),
        Ask::Start { thread } => push_object(out, names, Verb::Start, Thread, thread),
        Ask::Begin => push_word(out, Verb::Begin.word()),
        Ask::RdLock { rwlock } => push_object(out, names, Verb::RdLock, RwLock, rwlock),
        Ask::WrLock { rwlock } => push_object(out, names, Verb::WrLock, RwLock, rwlock),
        Ask::TryRdLock { rwlock } => push_object(out, names, Verb::TryRdLock, RwLock, rwlock),
        Ask::TryWrLock { rwlock } => push_object(out, names, Verb::TryWrLock, RwLock, rwlock),
        Ask::RwUnlock { rwlock } => push_object(out, names, Verb::RwUnlock, RwLock, rwlock),
    }
}

fn push_step(out: &mut Vec<u8>, step: usize) -> Result<(), NoMemory>
    ensures { OnOk result (out.new.items ≡ out.old.items ++ decimal step) }
{
    write_number(step as i128, out)
}

fn push_answer(out: &mut Vec<u8>, event: &Event) -> Result<(), NoMemory>
    ensures value { OnOk result (IsValue event.now.answer) }
    ensures text { OnOk result
        (out.new.items
        ≡ out.old.items
        ++ (behind_spaces (codes "=" ∷ signed_decimal event.now.answer ∷ []) ++ 10 ∷ [])) }
{
    push_word(out, b"=")?;
    push_value(out, event.answer)?;
    out.push(b'\n')?;
    Ok(())
}

fn push_event(
    out: &mut Vec<u8>,
    names: &Names,
    version: u32,
    step: usize,
    event: &Event,
) -> Result<(), NoMemory>
    requires { NamesKnown names.now version event.now }
    ensures lawful { OnOk result (IsStep names.now version event.now) }
    ensures text { OnOk result
        (out.new.items ≡ out.old.items ++ line_text (event_words names.now step event.now)) }
{
    push_step(out, step)?;
    push_name(out, names, NameKind::Thread, event.thread)?;
    push_count(out, event.line)?;
    push_ask(out, names, version, event.ask)?;
    push_answer(out, event)
}

/// Writes the line of a step at the end, as it stands in a trace of the second version. After an
/// `Err` the bytes are as
/// before.
pub fn write_step(
    step: u32,
    event: &Event,
    names: &Names,
    out: &mut Vec<u8>,
) -> Result<(), NoMemory>
    requires { NamesKnown names.now 2 event.now }
    ensures written { OnOk result
        (out.new.items ≡ out.old.items ++ line_text (event_words names.now step event.now)) }
    ensures unchanged { OnErr result (out.new.items ≡ out.old.items) }
{
    let mut line = Vec::new(*out.allocator());
    push_event(&mut line, names, 2, step as usize, event)?;
    out.extend_from_slice(&line)
}

fn push_steps(
    out: &mut Vec<u8>,
    names: &Names,
    version: u32,
    events: &[Event],
) -> Result<(), NoMemory>
    requires { All (NamesKnown names.now version) events.now }
    ensures lawful { OnOk result (All (IsStep names.now version) events.now) }
    ensures text { OnOk result
        (out.new.items ≡ out.old.items ++ flat_map line_text (step_lines names.now 1 events.now)) }
{
    for (index, event) in events.iter().enumerate() {
        push_event(out, names, version, index + 1, event)?;
    }
    Ok(())
}

fn push_order(out: &mut Vec<u8>, names: &Names, order: &[u32]) -> Result<(), NoMemory>
    requires { All (λ thread. thread < length names.now.threads) order.now }
    ensures { OnOk result
        (out.new.items
        ≡ out.old.items
        ++ (codes "order" ++ behind_spaces (map (thread_name names.now) order.now))) }
{
    out.extend_from_slice(b"order")?;
    for thread in order {
        push_name(out, names, NameKind::Thread, *thread)?;
    }
    Ok(())
}

fn push_points(out: &mut Vec<u8>, points: &[u32]) -> Result<(), NoMemory>
    ensures { OnOk result
        (out.new.items
        ≡ out.old.items ++ (codes "points" ++ behind_spaces (map decimal points.now))) }
{
    out.extend_from_slice(b"points")?;
    for point in points {
        push_count(out, *point)?;
    }
    Ok(())
}

fn push_version(out: &mut Vec<u8>, version: u32) -> Result<(), NoMemory>
    ensures { OnOk result
        (out.new.items
        ≡ out.old.items ++ (codes "trace" ++ behind_spaces (decimal version ∷ []) ++ 10 ∷ [])) }
{
    out.extend_from_slice(b"trace")?;
    push_count(out, version)?;
    out.push(b'\n')?;
    Ok(())
}

fn push_limit(out: &mut Vec<u8>, limit: u32) -> Result<(), NoMemory>
    ensures { OnOk result
        (out.new.items
        ≡ out.old.items ++ (codes "limit" ++ behind_spaces (decimal limit ∷ []) ++ 10 ∷ [])) }
{
    out.extend_from_slice(b"limit")?;
    push_count(out, limit)?;
    out.push(b'\n')?;
    Ok(())
}

fn push_head(out: &mut Vec<u8>, names: &Names, header: &Header) -> Result<(), NoMemory>
    requires { All (λ thread. thread < length names.now.threads) header.now.order }
    ensures { OnOk result
        (out.new.items
        ≡ out.old.items ++ flat_map line_text (head_lines names.now (head_of header.now))) }
{
    push_version(out, header.version)?;
    push_order(out, names, header.order.as_slice())?;
    out.push(b'\n')?;
    push_points(out, header.points.as_slice())?;
    out.push(b'\n')?;
    push_limit(out, header.limit)
}

fn push_verdict(out: &mut Vec<u8>, names: &Names, verdict: &Verdict) -> Result<(), NoMemory>
    requires threads { HasNames names.now verdict.now }
    requires whole { IsWholeVerdict verdict.now }
    ensures text { OnOk result
        (out.new.items ≡ out.old.items ++ line_text (verdict_line_words names.now verdict.now)) }
    ensures form { OnOk result (IsVerdictForm names.now (named_verdict names.now verdict.now)) }
{
    out.extend_from_slice(b"verdict ")?;
    write_verdict(verdict, names, out)?;
    out.push(b'\n')?;
    Ok(())
}

/// Writes the trace of a run.
pub fn write_trace(
    alloc: Global,
    header: &Header,
    names: &Names,
    events: &[Event],
    verdict: &Verdict,
) -> Result<Vec<u8>, NoMemory>
    requires head { IsHead names.now (head_of header.now) }
    requires few { length events.now ≤ header.now.limit }
    requires steps { All (NamesKnown names.now header.now.version) events.now }
    requires threads { HasNames names.now verdict.now }
    requires whole { IsWholeVerdict verdict.now }
    requires version { (is_of_second verdict.now ≡ false) ⊎ (header.now.version ≡ 2) }
    ensures text { IfOk result (λ text.
        text.items ≡ trace_text (head_of header.now) names.now events.now verdict.now) }
    ensures trace { IfOk result (λ text.
        IsTrace text.items names.now (file_of_parts header.now events.now verdict.now)) }

    // Whatever may be answered of the text, want of memory aside, is what was written.
    ensures read_back { IfOk result (λ text.
        (answer : Result TraceFile TraceError) → AnswersTrace text.items names.now answer
        → (answer ≡ Ok (file_of_parts header.now events.now verdict.now))
        ⊎ (answer ≡ Err TraceError.NoMemory)) }
{
    // The names are lawful, and so what is written can be read.
    let _ = names.count(NameKind::Thread);
    let mut text = Vec::new(alloc);
    push_head(&mut text, names, header)?;
    push_steps(&mut text, names, header.version, events)?;
    push_verdict(&mut text, names, verdict)?;
    Ok(text)
}
