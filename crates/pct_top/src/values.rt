//! The values of options.

ghost use Rattle.std.specs.Prelude.{◌≡◌, IfOk};
ghost use Rattle.std.specs.List.{list_all};
ghost use Rattle.pct_ask.specs.Words.{is_name};
ghost use Rattle.pct_top.specs.Values as values;

use crate::text::{Text, TextList};
use pct_ask::{
    MAX_DEPTH, MAX_POINTS, MAX_THREADS, PointList, first_pieces, is_lawful_name, number_in,
    step_counts,
};
use std::alloc::{AllocError as NoMemory, Global};
use worker_run::Serve;

/// The items of a value, which stand between commas.
fn items_of(alloc: Global, value: &str) -> Result<TextList, NoMemory>
    ensures { IfOk result (λ items. items ≡ values.items_of value.now) }
{
    let mut items = TextList::new(alloc);
    for item in value.split(',') {
        items.try_push(Text::copy_of(alloc, item)?)?;
    }
    Ok(items)
}

fn are_names(items: &[Text]) -> bool
    ensures { result ≡ list_all (is_name 1) items.now }
{
    items
        .iter()
        .all(|item| is_lawful_name(1, item.as_str().as_bytes()))
}

/// The names that a value lists, where it lists one to `MAX_THREADS` names that are lawful.
pub fn order_in(alloc: Global, value: &str) -> Result<Option<TextList>, NoMemory>
    ensures { IfOk result (λ names. names ≡ values.order_in value.now) }
{
    let items = items_of(alloc, value)?;
    let lawful = items.len() <= MAX_THREADS && are_names(items.as_slice());
    Ok(lawful.then_some(items))
}

pub fn seed_in(word: &str) -> Option<u64>
    ensures { result ≡ values.seed_in word.now }
{
    number_in(0, u64::MAX, word.as_bytes())
}

pub fn depth_in(word: &str) -> Option<u32>
    ensures { result ≡ values.depth_in word.now }
{
    let depth = number_in(1, u64::from(MAX_DEPTH), word.as_bytes())?;
    Some(depth as u32)
}

/// How many pieces the threads of the large script have.
pub fn pieces_in(word: &str) -> Option<u32>
    ensures { result ≡ values.pieces_in word.now }
{
    let pieces = number_in(1, 100, word.as_bytes())?;
    Some(pieces as u32)
}

/// The form of a report.
#[derive(Clone, Copy, Debug, PartialEq, Eq)]
pub enum ReportForm {
    Text,
    Json,
}

/// The form that a word names.
pub fn form_in(word: &str) -> Option<ReportForm>
    ensures { result ≡ values.form_in word.now }
{
    match word {
        "json" => Some(ReportForm::Json),
        "text" => Some(ReportForm::Text),
        _ => None,
    }
}

/// Who serves the bodies of many runs.
pub fn serve_in(word: &str) -> Option<Serve>
    ensures { result ≡ values.serve_in word.now }
{
    match word {
        "threads" => Some(Serve::Threads),
        "caller" => Some(Serve::Caller),
        _ => None,
    }
}

/// The numbers of steps that a value lists, where it lists one to `MAX_POINTS`.
pub fn points_in(alloc: Global, value: &str) -> Result<Option<PointList>, NoMemory>
    ensures { IfOk result (λ points. points ≡ values.points_in value.now) }
{
    let items = first_pieces(alloc, value.as_bytes(), b',', MAX_POINTS + 1)?;
    if items.len() > MAX_POINTS {
        return Ok(None);
    }
    step_counts(alloc, items.as_slice())
}
