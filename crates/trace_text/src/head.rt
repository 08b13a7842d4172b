//! The four lines of a trace's head.

ghost use Rattle.std.specs.Prelude.{◌≡◌, IfOk};
ghost use Rattle.std.specs.List.{list_all};
ghost use Rattle.std.specs.Option.{option_map};
ghost use Rattle.pct_ask.specs.Words as lexis;
ghost use Rattle.trace_text.specs.reader.Heads as heads;
ghost use Rattle.pct_ask.specs.Pieces.{pieces_of, seen};
ghost use Rattle.trace_text.specs.reader.Reading as reading;
ghost use Rattle.trace_text.specs.reader.Seen.{cut_value, Gives};

use crate::fault::{TraceError, TraceFault};
use pct_ask::{
    MAX_POINTS, NameKind, Names, OrderList, PointList, cut_line, first_words, is_among,
    is_lawful_name, step_count, step_counts,
};
use std::alloc::{AllocError as NoMemory, Global};

const FIRST: &[u8] = b"trace 1";

const SECOND: &[u8] = b"trace 2";

const ORDER: &[u8] = b"order";

const POINTS: &[u8] = b"points";

const LIMIT: &[u8] = b"limit";

fn bad_header(line: u32) -> TraceError
    ensures { result ≡ TraceError.Bad line TraceFault.BadHeader }
{
    TraceError::Bad {
        line,
        kind: TraceFault::BadHeader,
    }
}

/// What a line of the head says, and what follows its LF.
fn head_value<T: Drop>(
    line: u32,
    value: Option<T>,
    after: Option<&[u8]>,
) -> Result<(T, &[u8]), TraceError>
    ensures { Gives (λ x. (x.0, pieces_of x.1.now)) result (cut_value line value after.entry) }
{
    let Some(after) = after else {
        return Err(bad_header(line));
    };
    match value {
        Some(value) => Ok((value, after)),
        None => Err(bad_header(line)),
    }
}

fn version_on_line(text: &[u8]) -> Option<u32>
    ensures { result ≡ heads.version_on_line text.now }
{
    if text == FIRST {
        Some(1)
    } else if text == SECOND {
        Some(2)
    } else {
        None
    }
}

/// The version of a trace, and what follows its first line.
pub fn read_version(text: &[u8]) -> Result<(u32, &[u8]), TraceError>
    ensures { Gives (λ x. (x.0, pieces_of x.1.now)) result
        (reading.head_line 1 heads.version_on_line (pieces_of text.now)) }
{
    let (line, after) = cut_line(text);
    head_value(1, version_on_line(line), after)
}

fn are_different(words: &[&[u8]]) -> bool
    ensures { result ≡ heads.are_different (seen words.now) }
{
    match words.split_first() {
        None => true,
        Some((word, others)) => !is_among(word, others) && are_different(others),
    }
}

fn are_lawful(words: &[&[u8]]) -> bool
    ensures { result ≡ list_all (λ word. lexis.is_name 1 word.now) words.now }
{
    words.iter().all(|word| is_lawful_name(1, word))
}

fn are_order_names(names: &Names, words: &[&[u8]]) -> bool
    ensures { result ≡ heads.are_order_names names.now (seen words.now) }
{
    let threads = names.count(NameKind::Thread) as usize;
    words.len() == threads && are_lawful(words) && are_different(words)
}

fn order_names<'a, 'b>(names: &Names, words: &'b [&'a [u8]]) -> Option<&'b [&'a [u8]]>
    ensures { option_map (λ found. seen found.now) result
        ≡ heads.names_after_order names.now (seen words.now) }
{
    let (head, others) = words.split_first()?;
    if *head == ORDER && are_order_names(names, others) {
        Some(others)
    } else {
        None
    }
}

/// The threads of these names, where each is one's.
fn threads_of_names(
    alloc: Global,
    names: &Names,
    words: &[&[u8]],
) -> Result<Option<OrderList>, NoMemory>
    ensures { IfOk result (λ order. order ≡ heads.threads_of_names names.now (seen words.now)) }
{
    let mut order = OrderList::new(alloc);
    let mut rest = words;
    while let [word, others @ ..] = rest {
        let Some(thread) = names.find(NameKind::Thread, word) else {
            return Ok(None);
        };
        order.try_push(thread)?;
        rest = others;
    }
    Ok(Some(order))
}

/// The threads of a trace's order, and what follows its line.
pub fn read_order<'a>(
    alloc: Global,
    names: &Names,
    text: &'a [u8],
) -> Result<(OrderList, &'a [u8]), TraceError>
    ensures { Gives (λ x. (x.0, pieces_of x.1.now)) result
        (reading.order_line names.now (pieces_of text.now)) }
{
    let (line, after) = cut_line(text);
    let most = names.count(NameKind::Thread) as usize + 2;
    let words = first_words(alloc, line, most)?;
    let (threads, after) = head_value(2, order_names(names, words.as_slice()), after)?;
    match threads_of_names(alloc, names, threads)? {
        Some(order) => Ok((order, after)),
        None => Err(TraceError::Bad {
            line: 2,
            kind: TraceFault::UnknownName,
        }),
    }
}

fn points_in(alloc: Global, words: &[&[u8]]) -> Result<Option<PointList>, NoMemory>
    ensures { IfOk result (λ points. points ≡ heads.point_words (seen words.now)) }
{
    let Some((head, others)) = words.split_first() else {
        return Ok(None);
    };
    if *head == POINTS && others.len() <= MAX_POINTS {
        step_counts(alloc, others)
    } else {
        Ok(None)
    }
}

/// The change points of a trace, and what follows their line.
pub fn read_points(alloc: Global, text: &[u8]) -> Result<(PointList, &[u8]), TraceError>
    ensures { Gives (λ x. (x.0, pieces_of x.1.now)) result
        (reading.head_line 3 heads.points_on_line (pieces_of text.now)) }
{
    let (line, after) = cut_line(text);
    let words = first_words(alloc, line, 9)?;
    head_value(3, points_in(alloc, words.as_slice())?, after)
}

fn limit_on_line(words: &[&[u8]]) -> Option<u32>
    ensures { result ≡ heads.limit_words (seen words.now) }
{
    match words {
        [head, number] if *head == LIMIT => step_count(number),
        _ => None,
    }
}

/// The limit of a trace, and what follows its line.
pub fn read_limit(alloc: Global, text: &[u8]) -> Result<(u32, &[u8]), TraceError>
    ensures { Gives (λ x. (x.0, pieces_of x.1.now)) result
        (reading.head_line 4 heads.limit_on_line (pieces_of text.now)) }
{
    let (line, after) = cut_line(text);
    let words = first_words(alloc, line, 3)?;
    head_value(4, limit_on_line(words.as_slice()), after)
}
