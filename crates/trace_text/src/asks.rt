//! The words of asks.

ghost use Rattle.std.specs.Prelude.{◌≡◌};
ghost use Rattle.trace_text.specs.Operands.{mapped};
ghost use Rattle.trace_text.specs.reader.Asks as asks;

use crate::number::i64_in;
use pct_ask::{
    Ask, FaultKind, NameKind, Names, OperandKind, Operands, Verb, fault_kind, is_lawful_name,
    verb_in,
};

pub const HOLDS: &[u8] = b"1";

pub const FAILS: &[u8] = b"0";

/// An operand. An object is its place among those of its kind.
#[derive(Clone, Copy)]
pub enum Operand {
    Place(u32),
    Value(i64),
    Holds(bool),
    Cause(FaultKind),
}

/// What words of a line are read as: an object, or an ask.
#[derive(Clone, Copy)]
pub enum WordsRead<T> {
    Is(T),
    /// They have no such form, whatever the names are.
    NoForm,
    /// They would have it, if each name in them were declared with the kind that its place needs.
    UnknownName,
}

impl<T: Copy> WordsRead<T> {
    /// Whether the words have the form, be their names known or not.
    pub fn has_form(self) -> bool
        ensures { result ≡ asks.has_form self }
    {
        match self {
            WordsRead::Is(_) => true,
            WordsRead::NoForm => false,
            WordsRead::UnknownName => true,
        }
    }

    /// What they are, where all their names are known.
    pub fn known_words(self) -> Option<T>
        ensures { result ≡ asks.known_words self }
    {
        match self {
            WordsRead::Is(what) => Some(what),
            WordsRead::NoForm => None,
            WordsRead::UnknownName => None,
        }
    }
}

/// The place of an object of a kind, by its name. A word that is no lawful name has no form.
pub fn object(names: &Names, kind: NameKind, word: &[u8]) -> WordsRead<u32>
    ensures { result ≡ asks.object names.now kind word.now }
{
    if !is_lawful_name(1, word) {
        return WordsRead::NoForm;
    }
    match names.find(kind, word) {
        Some(id) => WordsRead::Is(id),
        None => WordsRead::UnknownName,
    }
}

fn holds_of(word: &[u8]) -> Option<bool>
    ensures { result ≡ asks.holds_of word.now }
{
    if word == HOLDS {
        Some(true)
    } else if word == FAILS {
        Some(false)
    } else {
        None
    }
}

/// An operand, by its word.
fn operand_in(names: &Names, kind: OperandKind, word: &[u8]) -> WordsRead<Operand>
    ensures { result ≡ asks.operand_in names.now kind word.now }
{
    match kind {
        OperandKind::Object(kind) => placed(object(names, kind, word)),
        OperandKind::Value => match i64_in(word) {
            Some(value) => WordsRead::Is(Operand::Value(value)),
            None => WordsRead::NoForm,
        },
        OperandKind::Holds => match holds_of(word) {
            Some(holds) => WordsRead::Is(Operand::Holds(holds)),
            None => WordsRead::NoForm,
        },
        OperandKind::Cause => match fault_kind(word) {
            Some(kind) => WordsRead::Is(Operand::Cause(kind)),
            None => WordsRead::NoForm,
        },
    }
}

fn placed(object: WordsRead<u32>) -> WordsRead<Operand>
    ensures { result ≡ asks.placed object }
{
    match object {
        WordsRead::Is(id) => WordsRead::Is(Operand::Place(id)),
        WordsRead::NoForm => WordsRead::NoForm,
        WordsRead::UnknownName => WordsRead::UnknownName,
    }
}

/// Two things, where each has a form and the names of both are known.
fn both<A: Copy, B: Copy>(first: WordsRead<A>, second: WordsRead<B>) -> WordsRead<(A, B)>
    ensures { result ≡ asks.both first second }
{
    match first {
        WordsRead::Is(first) => match second {
            WordsRead::Is(second) => WordsRead::Is((first, second)),
            WordsRead::NoForm => WordsRead::NoForm,
            WordsRead::UnknownName => WordsRead::UnknownName,
        },
        WordsRead::NoForm => WordsRead::NoForm,
        WordsRead::UnknownName => match second {
            WordsRead::NoForm => WordsRead::NoForm,
            WordsRead::Is(_) => WordsRead::UnknownName,
            WordsRead::UnknownName => WordsRead::UnknownName,
        },
    }
}

fn one(operand: WordsRead<Operand>) -> WordsRead<Operands<Operand>>
    ensures { result ≡ asks.one operand }
{
    match operand {
        WordsRead::Is(operand) => WordsRead::Is(Operands::One(operand)),
        WordsRead::NoForm => WordsRead::NoForm,
        WordsRead::UnknownName => WordsRead::UnknownName,
    }
}

fn two(operands: WordsRead<(Operand, Operand)>) -> WordsRead<Operands<Operand>>
    ensures { result ≡ asks.two operands }
{
    match operands {
        WordsRead::Is((first, second)) => WordsRead::Is(Operands::Two(first, second)),
        WordsRead::NoForm => WordsRead::NoForm,
        WordsRead::UnknownName => WordsRead::UnknownName,
    }
}

fn three(operands: WordsRead<(Operand, (Operand, Operand))>) -> WordsRead<Operands<Operand>>
    ensures { result ≡ asks.three operands }
{
    match operands {
        WordsRead::Is((first, (second, third))) => {
            WordsRead::Is(Operands::Three(first, second, third))
        }
        WordsRead::NoForm => WordsRead::NoForm,
        WordsRead::UnknownName => WordsRead::UnknownName,
    }
}

/// As many operands as there are kinds, each of its own.
fn operands_in(
    names: &Names,
    kinds: Operands<OperandKind>,
    words: Operands<&[u8]>,
) -> WordsRead<Operands<Operand>>
    ensures { result ≡ asks.operands_in names.now kinds (mapped (λ w. w.now) words.entry) }
{
    match (kinds, words) {
        (Operands::Bare, Operands::Bare) => WordsRead::Is(Operands::Bare),
        (Operands::One(k), Operands::One(a)) => one(operand_in(names, k, a)),
        (Operands::Two(k, l), Operands::Two(a, b)) => {
            two(both(operand_in(names, k, a), operand_in(names, l, b)))
        }
        (Operands::Three(k, l, m), Operands::Three(a, b, c)) => {
            let others = both(operand_in(names, l, b), operand_in(names, m, c));
            three(both(operand_in(names, k, a), others))
        }
        _ => WordsRead::NoForm,
    }
}

fn bare_ask(verb: Verb) -> Option<Ask>
    ensures { result ≡ asks.bare_ask verb }
{
    match verb {
        Verb::Yield => Some(Ask::Yield),
        Verb::Begin => Some(Ask::Begin),
        _ => None,
    }
}

fn object_ask(verb: Verb, id: u32) -> Option<Ask>
    ensures { result ≡ asks.object_ask verb id }
{
    let ask = match verb {
        Verb::Read => Ask::Read { var: id },
        Verb::Lock => Ask::Lock { mutex: id },
        Verb::TryLock => Ask::TryLock { mutex: id },
        Verb::Unlock => Ask::Unlock { mutex: id },
        Verb::Signal => Ask::Signal { cond: id },
        Verb::Broadcast => Ask::Broadcast { cond: id },
        Verb::Down => Ask::Down { sem: id },
        Verb::TryDown => Ask::TryDown { sem: id },
        Verb::Up => Ask::Up { sem: id },
        Verb::Arrive => Ask::Arrive { barrier: id },
        Verb::Leave => Ask::Leave { barrier: id },
        Verb::Join => Ask::Join { thread: id },
        Verb::Start => Ask::Start { thread: id },
        Verb::RdLock => Ask::RdLock { rwlock: id },
        Verb::WrLock => Ask::WrLock { rwlock: id },
        Verb::TryRdLock => Ask::TryRdLock { rwlock: id },
        Verb::TryWrLock => Ask::TryWrLock { rwlock: id },
        Verb::RwUnlock => Ask::RwUnlock { rwlock: id },
        _ => return None,
    };
    Some(ask)
}

fn change_ask(verb: Verb, var: u32, value: i64) -> Option<Ask>
    ensures { result ≡ asks.change_ask verb var value }
{
    match verb {
        Verb::Write => Some(Ask::Write { var, value }),
        Verb::Add => Some(Ask::Add { var, value }),
        _ => None,
    }
}

fn wait_ask(verb: Verb, cond: u32, mutex: u32) -> Option<Ask>
    ensures { result ≡ asks.wait_ask verb cond mutex }
{
    match verb {
        Verb::Release => Some(Ask::Release { cond, mutex }),
        Verb::Regain => Some(Ask::Regain { cond, mutex }),
        _ => None,
    }
}

/// What a verb asks with these operands, where they are such as it has.
fn ask_of(verb: Verb, operands: Operands<Operand>) -> Option<Ask>
    ensures { result ≡ asks.ask_of verb operands }
{
    match operands {
        Operands::Bare => bare_ask(verb),
        Operands::One(Operand::Place(id)) => object_ask(verb, id),
        Operands::One(Operand::Holds(holds)) => Some(Ask::Check { holds }),
        Operands::One(Operand::Cause(kind)) => Some(Ask::Fault { kind }),
        Operands::Two(Operand::Place(var), Operand::Value(value)) => change_ask(verb, var, value),
        Operands::Two(Operand::Place(cond), Operand::Place(mutex)) => wait_ask(verb, cond, mutex),
        Operands::Three(Operand::Place(var), Operand::Value(old), Operand::Value(new)) => {
            Some(Ask::Cas { var, old, new })
        }
        _ => None,
    }
}

fn asked(verb: Verb, operands: WordsRead<Operands<Operand>>) -> WordsRead<Ask>
    ensures { result ≡ asks.asked verb operands }
{
    match operands {
        WordsRead::Is(operands) => match ask_of(verb, operands) {
            Some(ask) => WordsRead::Is(ask),
            None => WordsRead::NoForm,
        },
        WordsRead::NoForm => WordsRead::NoForm,
        WordsRead::UnknownName => WordsRead::UnknownName,
    }
}

/// An ask, by its first word and those of its operands.
#[tactic(auto, unfolding(crate::specs::reader::Asks::ask_of_words))]
pub fn ask_of_words(
    names: &Names,
    version: u32,
    word: &[u8],
    operands: Operands<&[u8]>,
) -> WordsRead<Ask>
    ensures { result ≡ asks.ask_of_words names.now version word.now
        (mapped (λ w. w.now) operands.entry) }
{
    match verb_in(version, word) {
        Some(verb) => asked(
            verb,
            operands_in(names, verb.signature().operands, operands),
        ),
        None => WordsRead::NoForm,
    }
}
