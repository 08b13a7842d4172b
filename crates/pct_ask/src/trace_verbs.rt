//! The verbs of traces, by which they tell what is asked, as a table.

ghost use Rattle.std.specs.Prelude.{◌≡◌};
ghost use Rattle.pct_ask.specs.TraceVerbs as verbs;

use crate::names::NameKind;
use OperandKind::{Cause, Holds, Value};
use Operands::{Bare, One, Three, Two};

/// An ask, without its operands.
#[derive(Clone, Copy)]
pub enum Verb {
    Read,
    Write,
    Add,
    Cas,
    Lock,
    TryLock,
    Unlock,
    Release,
    Regain,
    Signal,
    Broadcast,
    Down,
    TryDown,
    Up,
    Arrive,
    Leave,
    Join,
    Yield,
    Check,
    Fault,
    Start,
    Begin,
    RdLock,
    WrLock,
    TryRdLock,
    TryWrLock,
    RwUnlock,
}

/// What an operand is.
#[derive(Clone, Copy)]
pub enum OperandKind {
    /// A thread or an object, by its name.
    Object(NameKind),
    /// A number.
    Value,
    /// Whether a check holds.
    Holds,
    /// Why a thread can't go on.
    Cause,
}

/// The operands of an ask, or something of each of them.
#[derive(Clone, Copy)]
pub enum Operands<T> {
    Bare,
    One(T),
    Two(T, T),
    Three(T, T, T),
}

/// A row of the table.
#[derive(Clone, Copy)]
pub struct Signature {
    pub word: &'static [u8],
    pub operands: Operands<OperandKind>,
    /// The first version of traces that has it.
    pub since: u32,
}

const THREAD: OperandKind = OperandKind::Object(NameKind::Thread);

const VAR: OperandKind = OperandKind::Object(NameKind::Var);

const MUTEX: OperandKind = OperandKind::Object(NameKind::Mutex);

const COND: OperandKind = OperandKind::Object(NameKind::Cond);

const SEM: OperandKind = OperandKind::Object(NameKind::Sem);

const BARRIER: OperandKind = OperandKind::Object(NameKind::Barrier);

const RW_LOCK: OperandKind = OperandKind::Object(NameKind::RwLock);

const VERBS: [Verb; 27] = [
    Verb::Read,
    Verb::Write,
    Verb::Add,
    Verb::Cas,
    Verb::Lock,
    Verb::TryLock,
    Verb::Unlock,
    Verb::Release,
    Verb::Regain,
    Verb::Signal,
    Verb::Broadcast,
    Verb::Down,
    Verb::TryDown,
    Verb::Up,
    Verb::Arrive,
    Verb::Leave,
    Verb::Join,
    Verb::Yield,
    Verb::Check,
    Verb::Fault,
    Verb::Start,
    Verb::Begin,
    Verb::RdLock,
    Verb::WrLock,
    Verb::TryRdLock,
    Verb::TryWrLock,
    Verb::RwUnlock,
];

fn row(word: &'static [u8], operands: Operands<OperandKind>, since: u32) -> Signature
    ensures word { result.word.now ≡ word.now }
    ensures operands { result.operands ≡ operands }
    ensures since { result.since ≡ since }
{
    Signature {
        word,
        operands,
        since,
    }
}

impl Verb {
    /// Its row of the table.
    pub fn signature(self) -> Signature
        ensures word { result.word.now ≡ verbs.verb_word self }
        ensures operands { result.operands ≡ verbs.verb_operands self }
        ensures since { result.since ≡ verbs.verb_since self }
    {
        match self {
            Verb::Read => row(b"read", One(VAR), 1),
            Verb::Write => row(b"write", Two(VAR, Value), 1),
            Verb::Add => row(b"add", Two(VAR, Value), 1),
            Verb::Cas => row(b"cas", Three(VAR, Value, Value), 1),
            Verb::Lock => row(b"lock", One(MUTEX), 1),
            Verb::TryLock => row(b"trylock", One(MUTEX), 1),
            Verb::Unlock => row(b"unlock", One(MUTEX), 1),
            Verb::Release => row(b"release", Two(COND, MUTEX), 1),
            Verb::Regain => row(b"regain", Two(COND, MUTEX), 1),
            Verb::Signal => row(b"signal", One(COND), 1),
            Verb::Broadcast => row(b"broadcast", One(COND), 1),
            Verb::Down => row(b"down", One(SEM), 1),
            Verb::TryDown => row(b"trydown", One(SEM), 1),
            Verb::Up => row(b"up", One(SEM), 1),
            Verb::Arrive => row(b"arrive", One(BARRIER), 1),
            Verb::Leave => row(b"leave", One(BARRIER), 1),
            Verb::Join => row(b"join", One(THREAD), 1),
            Verb::Yield => row(b"yield", Bare, 1),
            Verb::Check => row(b"check", One(Holds), 1),
            Verb::Fault => row(b"fault", One(Cause), 1),
            Verb::Start => row(b"start", One(THREAD), 1),
            Verb::Begin => row(b"begin", Bare, 1),
            Verb::RdLock => row(b"rdlock", One(RW_LOCK), 2),
            Verb::WrLock => row(b"wrlock", One(RW_LOCK), 2),
            Verb::TryRdLock => row(b"tryrdlock", One(RW_LOCK), 2),
            Verb::TryWrLock => row(b"trywrlock", One(RW_LOCK), 2),
            Verb::RwUnlock => row(b"rwunlock", One(RW_LOCK), 2),
        }
    }

    /// Its word, as traces have it.
    pub fn word(self) -> &'static [u8]
        ensures { result.now ≡ verbs.verb_word self }
    {
        self.signature().word
    }
}

/// The verb of a word, among these.
#[tactic(auto, using(crate::proofs::laws::TraceVerbs::among_laws))]
fn verb_among(list: &[Verb], word: &[u8]) -> Option<Verb>
    ensures { result ≡ verbs.verb_among list.now word.now }
{
    for verb in list {
        if word == verb.word() {
            return Some(*verb);
        }
    }
    None
}

/// The verb, where a version of traces has it.
fn verb_known(version: u32, verb: Verb) -> Option<Verb>
    ensures { result ≡ verbs.verb_known version (Some verb) }
{
    if verb.signature().since == 1 || version == 2 {
        Some(verb)
    } else {
        None
    }
}

/// The verb that a word is in traces of a version.
#[tactic(auto, unfolding(crate::specs::TraceVerbs::verb_in))]
pub fn verb_in(version: u32, word: &[u8]) -> Option<Verb>
    ensures { result ≡ verbs.verb_in version word.now }
{
    let verb = verb_among(&VERBS, word)?;
    verb_known(version, verb)
}
