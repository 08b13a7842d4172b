//! The types of asks, posts, events and verdicts, of what threads share (`Deal`) and of their code
//! (`Body`); how large a test may be; names, numbers, lines and the texts of verdicts; `Sequence`,
//! the list type.
//!
//! What is proved, by call and clause; in parentheses the definitions:
//!
//! - A body goes on by its answers: `Body::post`; `Body::answer` (`pending`).
//! - A list is its items, a copy is equal, a refused push changes nothing: `Sequence::new`;
//!   `Sequence::from_vec`; `Sequence::into_vec`; `Sequence::len`; `Sequence::get`;
//!   `Sequence::as_slice`; `Sequence::try_push`: `ok`, `err`; `Sequence::copy`; `Deal::copy`.
//! - An ask names only what a deal has, exactly where the deal says so: `Deal::has_objects_of`
//!   (`IsInRange`).
//! - A word declares the kind that is stated: `NameKind::of` (`kind_in`).
//! - Names have one place each among their kind and are lawful; a name is found exactly where it is
//!   there, and a refused `add` changes nothing: `Names::new`; `Names::add`: `place`, `added`,
//!   `unchanged`; `Names::find`: `place`, `lawful`; `Names::name`: `name`; `Names::count`: `count`;
//!   `Names::contains`: `found` (`AreNames`); `name_at`; `is_lawful_name`; `is_among`; `is_letter`;
//!   `is_word_byte`.
//! - Decimals are written and read exactly, each the inverse of the other; a text that is the
//!   canonical decimal of no number in the range is none: `read_number`: `spelled`, `fits`,
//!   `every`; `number_in`: `number`, `most`; `write_number`: `written`, `unchanged`; of steps, 1 to
//!   100,000: `step_count`, `step_counts`; of lines, 1 to 4096: `line_number`.
//! - Lines are the pieces between LFs; a text is cut into a first line and the rest, into pieces
//!   between separators, and a line into words: `split_lines`; `Lines`: `next_gives`, `remaining`
//!   (`lines_of`); `cut_line`: `pieces`, `shorter` (`pieces_of`); `first_pieces`; `first_words`
//!   (`words_of`).
//! - Blocked threads stand in rising order, each with its line, also as bits and lines; verdicts
//!   and outcomes are compared whole: `Blocked::new`; `Blocked::push`; `Blocked::get`: `line`,
//!   `rising`; `Blocked::numbers`: `bits`, `lines`; `Verdict::is`; `Outcome::is`.
//! - Two steps are the same exactly where thread, line, ask and answer are: `Event::is`.
//! - A limit is in 1..=`MAX_STEPS`, a depth in 1..=`MAX_DEPTH`, one more than its change points:
//!   `Limit::new`; `Limit::steps`: `number`, `fits`; `Depth::new`; `Depth::number`: `number`,
//!   `fits`; `Depth::points`: `number`, `few` (`IsStepCount`, `IsDepth`).
//! - A verdict's text is written as defined and read back; it has no form exactly where it is no
//!   verdict's text by form, and an unknown name where one of its names is no thread's:
//!   `write_verdict`: `written`, `read_back`, `unchanged`; `read_verdict`: `read`, `only`
//!   (`ReadsAs`).
//! - Each fault and each register has its word, and a word is read as what it stands for; words and
//!   numbers are written behind a space: `fault_word`; `fault_kind`; `register_word`;
//!   `register_of`; `write_spaced_word`: `written`; `write_spaced_number`.
//! - The tables of verbs are as stated, and each verb is found by its word. Of the asks of traces
//!   the word, the kinds of the operands and the first version: `Verb::signature`: `word`,
//!   `operands`, `since`; `Verb::word`; `verb_in` (`row_of`). Of the statements, with or
//!   without a register, the word, the kind of object and the first version: `OnVerb::row`: `word`,
//!   `kind`, `since`; `OnVerb::of`; `IntoVerb::row`: `word`, `kind`, `since`; `IntoVerb::of`
//!   (`on_row`, `into_row`).
#![tactic(auto)]

mod ask;
mod blocked;
mod body;
mod deal;
mod event;
mod limits;
mod line;
mod names;
mod number;
mod objects;
mod pieces;
mod sequence;
mod spaced;
mod statement_verbs;
mod trace_verbs;
mod verdict;
mod verdict_text;
mod verdict_words;
mod words;

pub use ask::{Ask, FaultKind, Post};
pub use blocked::Blocked;
pub use body::Body;
pub use deal::Deal;
pub use event::{Event, EventList, Row, RowList, Standing};
pub use limits::{
    Depth, Limit, MAX_CERTIFIED_THREADS, MAX_DEPTH, MAX_LINES, MAX_OBJECTS, MAX_POINTS, MAX_RUNS,
    MAX_STEPS, MAX_THREADS,
};
pub use line::{Lines, split_lines};
pub use names::{NameKind, Names};
pub use number::{number_in, read_number, step_count, step_counts, write_number};
pub use pieces::{cut_line, first_pieces, first_words};
pub use sequence::{NumberList, OrderList, PointList, Sequence};
pub use spaced::{name_at, write_spaced_number, write_spaced_word};
pub use statement_verbs::{INTO_VERBS, IntoVerb, ON_VERBS, OnVerb, VerbRow};
pub use trace_verbs::{OperandKind, Operands, Signature, Verb, verb_in};
pub use verdict::{MisuseKind, Outcome, Verdict};
pub use verdict_text::{VerdictRead, fault_word, read_verdict, write_verdict};
pub use verdict_words::{fault_kind, line_number};
pub use words::{
    REGISTER_COUNT, is_among, is_lawful_name, is_letter, is_word_byte, register_of, register_word,
};
