//! Failures in groups.

ghost use Rattle.std.specs.Prelude.{◌≡◌, IfOk, map};
ghost use Rattle.c_values.specs.Told.{Answers};
ghost use Rattle.c_tells.specs.Groups.{group_numbers, AreGroupsOf};

use c_values::{PctOutcome, PctRow, Refused, numbers_of_verdict, rows_of};
use failure_rank::{Group, rank};
use pct_ask::Sequence;
use std::alloc::{AllocError as NoMemory, Global};

/// Failures that have one verdict: how many they are, the shortest one's steps, and the first one's
/// seed.
#[repr(C)]
#[derive(Clone, Copy, Debug)]
pub struct PctGroup {
    pub verdict: PctOutcome,
    pub count: u32,
    pub steps: u32,
    pub first: u64,
}

fn numbers_of_group(group: &Group) -> PctGroup
    ensures { result ≡ group_numbers group.now }
{
    PctGroup {
        verdict: numbers_of_verdict(&group.verdict),
        count: group.count,
        steps: group.steps,
        first: group.first,
    }
}

fn numbers_of(alloc: Global, groups: &[Group]) -> Result<Vec<PctGroup>, NoMemory>
    ensures { IfOk result (λ numbers. numbers.items ≡ map group_numbers groups.now) }
{
    groups
        .iter()
        .map(|group| numbers_of_group(group))
        .collect(alloc)
}

/// The failures among the runs, in groups by their verdicts, the most frequent first.
pub fn groups_told(alloc: Global, rows: &[PctRow]) -> Result<Sequence<PctGroup>, Refused>
    ensures { Answers (AreGroupsOf rows.now) result }
{
    let runs = rows_of(alloc, rows)?;
    let groups = rank(alloc, &runs)?;
    Ok(Sequence::from_vec(numbers_of(alloc, groups.as_slice())?))
}
