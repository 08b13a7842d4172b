//! Rows that are counted one after another.

ghost use Rattle.std.specs.Prelude.{◌≡◌, [], ◌∷◌, ◌++◌, ◌+◌, ◌<◌, ◌^◌, ℕ, List, length, IfOk};
ghost use Rattle.std.specs.Prelude.{OnOk, All};
ghost use Rattle.indexmap.specs.IndexMap.{get, insert_entry};
ghost use Rattle.pct_ask.specs.declared.event.Row.{Row};
ghost use Rattle.pct_ask.specs.SameVerdict.{same_verdict};
ghost use Rattle.failure_rank.specs.Groups.{IsRanking, rows_with};
ghost use Rattle.failure_rank.specs.Growing.{AreRowsCounted, IsTally, grown};
ghost use Rattle.failure_rank.specs.declared.group.Group.{Group};

use crate::group::{Group, Groups};
use indexmap::IndexMap;
use pct_ask::{Row, Verdict};
use std::alloc::{AllocError as NoMemory, Global};
use std::cmp::Reverse;

/// Rows as they are counted: how many passed, and a group for each failure, in the order in which
/// their verdicts first came.
#[derive(Drop)]
pub struct Tally {
    passed: u32,
    failures: IndexMap<Verdict, Group>,
}

fn add_failure(failures: &mut IndexMap<Verdict, Group>, row: &Row) -> Result<(), NoMemory>
    requires { All (λ entry. entry.1.count + 1 < 2 ^ 32) failures.old.entries }
    ensures { let verdict = row.now.verdict in OnOk result (failures.new.entries
        ≡ insert_entry same_verdict failures.old.entries verdict
        (grown (get same_verdict failures.old verdict) row.now)) }
{
    let group = match failures.get(&row.verdict) {
        Some(group) => group.with(row),
        None => Group::of(row),
    };
    failures.insert(row.verdict, group)?;
    Ok(())
}

impl Tally {
    /// No rows yet.
    pub fn new(alloc: Global) -> Self
        ensures { IsTally [] result }
    {
        Tally {
            passed: 0,
            failures: IndexMap::new(alloc),
        }
    }

    /// Counts one more row, which comes behind those before it.
    pub fn add(&mut self, row: &Row) -> Result<(), NoMemory>
        requires { (rows : List Row) × IsTally rows self.old × (length rows + 1 < 2 ^ 32) }
        ensures { (rows : List Row) → IsTally rows self.old
            → OnOk result (IsTally (rows ++ row.now ∷ []) self.new) }
    {
        if row.verdict == Verdict::Passed {
            self.passed += 1;
        } else {
            add_failure(&mut self.failures, row)?;
        }
        Ok(())
    }

    /// How many rows passed.
    pub fn passed(&self) -> u32
        ensures { (rows : List Row) → IsTally rows self.now
            → result ≡ length (rows_with Verdict.Passed rows) }
    {
        self.passed
    }

    /// The groups of the rows, ranked.
    pub fn into_groups(self, alloc: Global) -> Result<Groups, NoMemory>
        ensures ranking { (rows : List Row) → IsTally rows self → IfOk result (IsRanking rows) }
        ensures only { (rows : List Row) → IsTally rows self → IfOk result
            (λ groups. (other : List Group) → IsRanking rows other → other ≡ groups) }
    {
        let mut groups: Vec<Group> = self.failures.into_values().collect(alloc)?;
        groups.sort_by_key(|group| (Reverse(group.count), group.steps, group.first))?;
        Ok(Groups::from_vec(groups))
    }
}
