ghost use Rattle.std.specs.Prelude.{◌≡◌, ◌≤◌, ◌<◌, ℕ, suc, List, ◌++◌, length, All, IfOk, OnOk};
ghost use Rattle.std.specs.Prelude.{OnErr, Some};
ghost use Rattle.std.specs.Option.{option_to_list};
ghost use Rattle.std.specs.List.{filter_map};
ghost use Rattle.pct_ask.specs.declared.event.Event.{Event as Step};
ghost use Rattle.pct_ask.specs.Objects.{sizes_of_deal, EventIsInRange};
ghost use Rattle.hb_race.specs.Ranges.{most_with};
ghost use Rattle.hb_race.specs.Races.{AreRaces};
ghost use Rattle.hb_race.specs.Table.{clock_entry};
ghost use Rattle.hb_race.specs.Histories.{AreHistories, AreNewHistories, IsNoted};
ghost use Rattle.pct_ask.specs.declared.limits.TheConstants.{MAX_OBJECTS, MAX_STEPS};

use crate::access::{Access, access_of};
use crate::clock::{Clock, ROWS, advance};
use crate::history::History;
use crate::race::{Race, RaceList};
use pct_ask::{Deal, Event, MAX_THREADS};
use std::alloc::{AllocError as NoMemory, Global};
use worker_run::Played;

/// The races of a run, by happens-before: at most one for each variable. The time grows with the
/// steps times the threads.
pub fn races(alloc: Global, deal: &Deal, played: &Played) -> Result<RaceList, NoMemory>
    requires few { length (played.now).events ≤ MAX_STEPS }
    requires in_range { All (EventIsInRange (sizes_of_deal deal.now)) (played.now).events }
    ensures { IfOk result (λ races. AreRaces (played.now).events races) }
{
    races_of(alloc, deal, played.events.as_slice())
}

/// The races of some steps.
fn races_of(alloc: Global, deal: &Deal, events: &[Event]) -> Result<RaceList, NoMemory>
    requires few { length events.now ≤ MAX_STEPS }
    requires in_range { All (EventIsInRange (sizes_of_deal deal.now)) events.now }
    ensures { IfOk result (λ races. AreRaces events.now races) }
{
    let mut table = new_table(alloc)?;
    let mut histories = new_histories(alloc, deal.vars.len())?;
    follow(table.as_mut_slice(), histories.as_mut_slice(), events);
    list_of(alloc, histories.as_slice())
}

/// A table of clocks before the first step.
fn new_table(alloc: Global) -> Result<Vec<Clock>, NoMemory>
    ensures rows { IfOk result (λ table. length table.items ≡ 512) }
    ensures entries { IfOk result (λ table. (row u : ℕ) → clock_entry table.items row u ≡ 0) }
{
    let mut table = Vec::with_capacity(alloc, ROWS)?;
    for _row in 0..ROWS {
        table.push([0; MAX_THREADS])?;
    }
    Ok(table)
}

/// The histories of `vars` variables before the first step.
fn new_histories(alloc: Global, vars: usize) -> Result<Vec<History>, NoMemory>
    ensures rows { IfOk result (λ histories. length histories.items ≡ vars) }
    ensures fresh { IfOk result (λ histories. AreNewHistories vars histories.items) }
{
    let mut histories = Vec::with_capacity(alloc, vars)?;
    for _var in 0..vars {
        histories.push(History::new())?;
    }
    Ok(histories)
}

/// Takes all steps, one after another.
fn follow(table: &mut [Clock], histories: &mut [History], events: &[Event])
    requires rows { length table.old ≡ 512 }
    requires empty { (row u : ℕ) → clock_entry table.old row u ≡ 0 }
    requires few_vars { length histories.old ≤ MAX_OBJECTS }
    requires fresh { AreNewHistories (length histories.old) histories.old }
    requires few { length events.now ≤ MAX_STEPS }
    requires in_range { All (EventIsInRange (most_with (length histories.old))) events.now }
    ensures { AreHistories events.now (length events.now) histories.new }
{
    let mut counts = [0; MAX_THREADS];
    for (k, event) in events.iter().enumerate() {
        let clock = advance(table, &mut counts, event);
        note(
            histories,
            access_of(event),
            k as u32 + 1,
            event.thread,
            &clock,
        );
    }
}

/// Notes the access of the next step, if it has one. Steps are numbered from 1.
fn note(histories: &mut [History], access: Option<Access>, step: u32, thread: u32, clock: &Clock)
    requires thread { thread < MAX_THREADS }
    requires var { (made : Access) → access ≡ Some made → made.var < length histories.old }
    ensures rows { length histories.new ≡ length histories.old }
    ensures noted { (events : List Step) (n : ℕ) → IsNoted events n access step thread clock.now
        → AreHistories events n histories.old → AreHistories events (suc n) histories.new }
{
    if let Some(access) = access {
        histories[access.var as usize].add(access, step, thread, clock);
    }
}

/// The races of all variables, in their order.
fn list_of(alloc: Global, histories: &[History]) -> Result<RaceList, NoMemory>
    ensures { IfOk result (λ races. races ≡ filter_map (λ history. history.race) histories.now) }
{
    let mut races = RaceList::new(alloc);
    for history in histories {
        push_race(&mut races, history.race)?;
    }
    Ok(races)
}

/// Adds a variable's race at the end, if it has one.
fn push_race(races: &mut RaceList, race: Option<Race>) -> Result<(), NoMemory>
    ensures ok { OnOk result (races.new ≡ races.old ++ option_to_list race) }
    ensures err { OnErr result (races.new ≡ races.old) }
{
    if let Some(race) = race {
        races.try_push(race)?;
    }
    Ok(())
}
