//! A verdict as a text.

ghost use Rattle.c_values.specs.Told.{Answers};
ghost use Rattle.c_texts.specs.Verdicts.{SaysVerdictText};

use crate::known::known_verdict;
use c_values::{PctOutcome, Refused, names_said};
use pct_ask::{Sequence, write_verdict};
use std::alloc::Global;

/// A verdict, as it stands behind `verdict ` in traces and reports.
pub fn verdict_text_told(
    alloc: Global,
    names: &[u8],
    verdict: &PctOutcome,
) -> Result<Sequence<u8>, Refused>
    ensures { Answers (SaysVerdictText names.now verdict.now) result }
{
    let known = names_said(alloc, names)?;
    let said = known_verdict(&known, verdict)?;
    let mut text = Vec::new(alloc);
    write_verdict(&said, &known, &mut text)?;
    Ok(Sequence::from_vec(text))
}
