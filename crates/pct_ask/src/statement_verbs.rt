//! The verbs of statements that name one object or thread, as two tables.

ghost use Rattle.std.specs.Prelude.{◌≡◌};
ghost use Rattle.pct_ask.specs.StatementVerbs.{on_word, on_kind, on_since, on_verb_in};
ghost use Rattle.pct_ask.specs.StatementVerbs.{into_word, into_kind, into_since, into_verb_in};

use crate::names::NameKind;

/// A statement on one object.
#[derive(Clone, Copy)]
pub enum OnVerb {
    Lock,
    Unlock,
    Signal,
    Broadcast,
    Down,
    Up,
    Join,
    Start,
    RdLock,
    WrLock,
    RwUnlock,
}

/// A statement whose answer goes from one object into a register.
#[derive(Clone, Copy)]
pub enum IntoVerb {
    Read,
    TryLock,
    TryDown,
    Arrive,
    TryRdLock,
    TryWrLock,
}

/// A row of the table.
#[derive(Clone, Copy)]
pub struct VerbRow {
    /// The keyword.
    pub word: &'static [u8],
    /// The kind of the object, or thread, that the statement names.
    pub kind: NameKind,
    /// The first version of the language that has it.
    pub since: u32,
}

/// All verbs of statements on one object.
pub const ON_VERBS: &[OnVerb] = &[
    OnVerb::Lock,
    OnVerb::Unlock,
    OnVerb::Signal,
    OnVerb::Broadcast,
    OnVerb::Down,
    OnVerb::Up,
    OnVerb::Join,
    OnVerb::Start,
    OnVerb::RdLock,
    OnVerb::WrLock,
    OnVerb::RwUnlock,
];

/// All verbs of statements into a register.
pub const INTO_VERBS: &[IntoVerb] = &[
    IntoVerb::Read,
    IntoVerb::TryLock,
    IntoVerb::TryDown,
    IntoVerb::Arrive,
    IntoVerb::TryRdLock,
    IntoVerb::TryWrLock,
];

fn row(word: &'static [u8], kind: NameKind, since: u32) -> VerbRow
    ensures word { result.word.now ≡ word.now }
    ensures kind { result.kind ≡ kind }
    ensures since { result.since ≡ since }
{
    VerbRow { word, kind, since }
}

impl OnVerb {
    /// Its row of the table.
    pub fn row(self) -> VerbRow
        ensures word { result.word.now ≡ on_word self }
        ensures kind { result.kind ≡ on_kind self }
        ensures since { result.since ≡ on_since self }
    {
        match self {
            OnVerb::Lock => row(b"lock", NameKind::Mutex, 1),
            OnVerb::Unlock => row(b"unlock", NameKind::Mutex, 1),
            OnVerb::Signal => row(b"signal", NameKind::Cond, 1),
            OnVerb::Broadcast => row(b"broadcast", NameKind::Cond, 1),
            OnVerb::Down => row(b"down", NameKind::Sem, 1),
            OnVerb::Up => row(b"up", NameKind::Sem, 1),
            OnVerb::Join => row(b"join", NameKind::Thread, 1),
            OnVerb::Start => row(b"start", NameKind::Thread, 2),
            OnVerb::RdLock => row(b"rdlock", NameKind::RwLock, 3),
            OnVerb::WrLock => row(b"wrlock", NameKind::RwLock, 3),
            OnVerb::RwUnlock => row(b"rwunlock", NameKind::RwLock, 3),
        }
    }

    /// The verb of a word.
    pub fn of(word: &[u8]) -> Option<OnVerb>
        ensures { result ≡ on_verb_in word.now }
    {
        ON_VERBS
            .iter()
            .find(|verb| word == verb.row().word)
            .copied()
    }
}

impl IntoVerb {
    /// Its row of the table.
    pub fn row(self) -> VerbRow
        ensures word { result.word.now ≡ into_word self }
        ensures kind { result.kind ≡ into_kind self }
        ensures since { result.since ≡ into_since self }
    {
        match self {
            IntoVerb::Read => row(b"read", NameKind::Var, 1),
            IntoVerb::TryLock => row(b"trylock", NameKind::Mutex, 1),
            IntoVerb::TryDown => row(b"trydown", NameKind::Sem, 1),
            IntoVerb::Arrive => row(b"arrive", NameKind::Barrier, 1),
            IntoVerb::TryRdLock => row(b"tryrdlock", NameKind::RwLock, 3),
            IntoVerb::TryWrLock => row(b"trywrlock", NameKind::RwLock, 3),
        }
    }

    /// The verb of a word.
    pub fn of(word: &[u8]) -> Option<IntoVerb>
        ensures { result ≡ into_verb_in word.now }
    {
        INTO_VERBS
            .iter()
            .find(|verb| word == verb.row().word)
            .copied()
    }
}
