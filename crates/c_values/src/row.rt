//! The run of a seed as numbers.

ghost use Rattle.std.specs.Prelude.{◌≡◌, ◌++◌, ◌∷◌, [], true, false, Some, None, IfOk};
ghost use Rattle.pct_ask.specs.declared.event.Row.{Row};
ghost use Rattle.c_values.specs.Rows.{row_said, AreRows};
ghost use Rattle.c_values.specs.Told.{all_said, Answers};

use crate::outcome::{PctOutcome, verdict_said};
use crate::refused::Refused;
use pct_ask::{MAX_RUNS, Row, RowList, Verdict};
use std::alloc::{AllocError as NoMemory, Global};

/// The run of a seed: how many steps it took, and how it ended.
#[repr(C)]
#[derive(Clone, Copy, Debug)]
pub struct PctRow {
    pub seed: u64,
    pub steps: u32,
    pub verdict: PctOutcome,
}

fn row_with(numbers: &PctRow, verdict: Verdict) -> Row
    ensures seed { result.seed ≡ numbers.now.seed }
    ensures steps { result.steps ≡ numbers.now.steps }
    ensures verdict { result.verdict ≡ verdict }
{
    Row {
        seed: numbers.seed,
        steps: numbers.steps,
        verdict,
    }
}

fn push_row(rows: &mut RowList, numbers: &PctRow) -> Result<bool, NoMemory>
    ensures { IfOk result (λ done.
        (done ≡ true → (row : Row) × (row_said numbers.now ≡ Some row)
        × (rows.new ≡ rows.old ++ row ∷ []))
        × (done ≡ false → row_said numbers.now ≡ None)) }
{
    match verdict_said(&numbers.verdict) {
        Some(verdict) => {
            rows.try_push(row_with(numbers, verdict))?;
            Ok(true)
        }
        None => Ok(false),
    }
}

fn all_rows(alloc: Global, numbers: &[PctRow]) -> Result<Option<RowList>, NoMemory>
    ensures { IfOk result (λ rows. rows ≡ all_said row_said numbers.now) }
{
    let mut rows = RowList::new(alloc);
    for one in numbers {
        if !push_row(&mut rows, one)? {
            return Ok(None);
        }
    }
    Ok(Some(rows))
}

/// The runs that the numbers say, in their order.
pub fn rows_of(alloc: Global, numbers: &[PctRow]) -> Result<RowList, Refused>
    ensures { Answers (AreRows numbers.now) result }
{
    if numbers.len() > MAX_RUNS as usize {
        return Err(Refused::Bad);
    }
    match all_rows(alloc, numbers)? {
        Some(rows) => Ok(rows),
        None => Err(Refused::Bad),
    }
}
