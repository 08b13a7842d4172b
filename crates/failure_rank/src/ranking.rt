//! The groups of a campaign's rows, put in order.

ghost use Rattle.std.specs.Prelude.{◌≡◌, ◌≤◌, List, length, IfOk};
ghost use Rattle.failure_rank.specs.Groups.{IsRanking};
ghost use Rattle.failure_rank.specs.Growing.{IsTally};
ghost use Rattle.failure_rank.specs.declared.group.Group.{Group};
ghost use Rattle.pct_ask.specs.declared.limits.TheConstants.{MAX_RUNS};

use crate::group::Groups;
use crate::tally::Tally;
use pct_ask::{Row, RowList};
use std::alloc::{AllocError as NoMemory, Global};

/// Ranks the failures of a campaign.
pub fn rank(alloc: Global, rows: &RowList) -> Result<Groups, NoMemory>
    requires { length rows.now ≤ MAX_RUNS }
    ensures ranking { IfOk result (IsRanking rows.now) }
    ensures only { IfOk result
        (λ groups. (other : List Group) → IsRanking rows.now other → other ≡ groups) }
{
    tally_of(alloc, rows.as_slice())?.into_groups(alloc)
}

/// The rows, counted.
fn tally_of(alloc: Global, rows: &[Row]) -> Result<Tally, NoMemory>
    requires { length rows.now ≤ MAX_RUNS }
    ensures { IfOk result (IsTally rows.now) }
{
    let mut tally = Tally::new(alloc);
    for row in rows {
        tally.add(row)?;
    }
    Ok(tally)
}
