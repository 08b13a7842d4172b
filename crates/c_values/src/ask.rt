//! An ask as numbers.

ghost use Rattle.std.specs.Prelude.{◌≡◌, Some};
ghost use Rattle.c_values.specs.Asks.{ask_said, fault_ask};

use pct_ask::{Ask, FaultKind};

/// An ask as numbers: its kind, the objects that it names, and its values. Kind 0 is no ask.
#[repr(C)]
#[derive(Clone, Copy, Debug, PartialEq, Eq)]
pub struct PctAsk {
    pub kind: u32,
    pub a: u32,
    pub b: u32,
    pub x: i64,
    pub y: i64,
}

/// The ask that the numbers say, or that there is none. `None` where they say nothing.
pub fn ask_of(numbers: &PctAsk) -> Option<Option<Ask>>
    ensures { result ≡ ask_said numbers.now }
{
    if numbers.kind > 30 {
        return None;
    }
    let a = numbers.a;
    let b = numbers.b;
    let (x, y) = (numbers.x, numbers.y);
    let ask = match numbers.kind {
        0 => return Some(None),
        1 => Ask::Read { var: a },
        2 => Ask::Write { var: a, value: x },
        3 => Ask::Add { var: a, value: x },
        4 => Ask::Cas {
            var: a,
            old: x,
            new: y,
        },
        5 => Ask::Lock { mutex: a },
        6 => Ask::TryLock { mutex: a },
        7 => Ask::Unlock { mutex: a },
        8 => Ask::Release { cond: a, mutex: b },
        9 => Ask::Regain { cond: a, mutex: b },
        10 => Ask::Signal { cond: a },
        11 => Ask::Broadcast { cond: a },
        12 => Ask::Down { sem: a },
        13 => Ask::TryDown { sem: a },
        14 => Ask::Up { sem: a },
        15 => Ask::Arrive { barrier: a },
        16 => Ask::Leave { barrier: a },
        17 => Ask::Join { thread: a },
        18 => Ask::Yield,
        19 => Ask::Check { holds: true },
        20 => Ask::Check { holds: false },
        21 => Ask::Fault {
            kind: FaultKind::Overflow,
        },
        22 => Ask::Fault {
            kind: FaultKind::ZeroDivisor,
        },
        23 => Ask::Fault {
            kind: FaultKind::Spin,
        },
        24 => Ask::Start { thread: a },
        25 => Ask::Begin,
        26 => Ask::RdLock { rwlock: a },
        27 => Ask::WrLock { rwlock: a },
        28 => Ask::TryRdLock { rwlock: a },
        29 => Ask::TryWrLock { rwlock: a },
        30 => Ask::RwUnlock { rwlock: a },
        _ => unreachable!(),
    };
    Some(Some(ask))
}

fn numbers(kind: u32, a: u32, b: u32, x: i64, y: i64) -> PctAsk
    ensures kind { result.kind ≡ kind }
    ensures a { result.a ≡ a }
    ensures b { result.b ≡ b }
    ensures x { result.x ≡ x }
    ensures y { result.y ≡ y }
{
    PctAsk { kind, a, b, x, y }
}

fn of_object(kind: u32, a: u32) -> PctAsk
    ensures kind { result.kind ≡ kind }
    ensures a { result.a ≡ a }
{
    numbers(kind, a, 0, 0, 0)
}

/// The numbers that say an ask.
pub fn numbers_of_ask(ask: &Ask) -> PctAsk
    ensures { ask_said result ≡ Some (Some ask.now) }
{
    match *ask {
        Ask::Read { var } => of_object(1, var),
        Ask::Write { var, value } => numbers(2, var, 0, value, 0),
        Ask::Add { var, value } => numbers(3, var, 0, value, 0),
        Ask::Cas { var, old, new } => numbers(4, var, 0, old, new),
        Ask::Lock { mutex } => of_object(5, mutex),
        Ask::TryLock { mutex } => of_object(6, mutex),
        Ask::Unlock { mutex } => of_object(7, mutex),
        Ask::Release { cond, mutex } => numbers(8, cond, mutex, 0, 0),
        Ask::Regain { cond, mutex } => numbers(9, cond, mutex, 0, 0),
        Ask::Signal { cond } => of_object(10, cond),
        Ask::Broadcast { cond } => of_object(11, cond),
        Ask::Down { sem } => of_object(12, sem),
        Ask::TryDown { sem } => of_object(13, sem),
        Ask::Up { sem } => of_object(14, sem),
        Ask::Arrive { barrier } => of_object(15, barrier),
        Ask::Leave { barrier } => of_object(16, barrier),
        Ask::Join { thread } => of_object(17, thread),
        Ask::Yield => of_object(18, 0),
        Ask::Check { holds } => of_object(if holds { 19 } else { 20 }, 0),
        Ask::Fault { kind } => of_object(fault_ask(kind), 0),
        Ask::Start { thread } => of_object(24, thread),
        Ask::Begin => of_object(25, 0),
        Ask::RdLock { rwlock } => of_object(26, rwlock),
        Ask::WrLock { rwlock } => of_object(27, rwlock),
        Ask::TryRdLock { rwlock } => of_object(28, rwlock),
        Ask::TryWrLock { rwlock } => of_object(29, rwlock),
        Ask::RwUnlock { rwlock } => of_object(30, rwlock),
    }
}

/// The kind of a fault's ask.
fn fault_ask(kind: FaultKind) -> u32
    ensures { result ≡ fault_ask kind }
{
    match kind {
        FaultKind::Overflow => 21,
        FaultKind::ZeroDivisor => 22,
        FaultKind::Spin => 23,
    }
}
