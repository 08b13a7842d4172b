ghost use Rattle.std.specs.Prelude.{◌≡◌};
ghost use Rattle.hb_race.specs.Objects.{place, object_given, first_taken, second_taken};

use pct_ask::{Ask, Event};

/// What passes the order of steps on: a step gives to objects, and comes after the steps that gave
/// before it to the objects from which it takes.
#[derive(Clone, Copy)]
pub(crate) enum Object {
    /// A thread, to which each of its own steps gives.
    Thread(u32),
    /// The start of a thread, from which each of its own steps takes.
    Beginning(u32),
    Mutex(u32),
    Condition(u32),
    Semaphore(u32),
    Barrier(u32),
    Variable(u32),
    ReadWriteLock(u32),
}

impl Object {
    /// The row of its clock.
    pub(crate) fn place(self) -> usize
        ensures { result ≡ place self }
    {
        match self {
            Object::Thread(id) => 8 * id as usize,
            Object::Beginning(id) => 8 * id as usize + 1,
            Object::Mutex(id) => 8 * id as usize + 2,
            Object::Condition(id) => 8 * id as usize + 3,
            Object::Semaphore(id) => 8 * id as usize + 4,
            Object::Barrier(id) => 8 * id as usize + 5,
            Object::Variable(id) => 8 * id as usize + 6,
            Object::ReadWriteLock(id) => 8 * id as usize + 7,
        }
    }
}

/// The object to which a step gives, beside its own thread.
pub(crate) fn object_given(event: &Event) -> Option<Object>
    ensures { result ≡ object_given (event.now).ask (event.now).answer }
{
    match event.ask {
        Ask::Add { var, .. } | Ask::Cas { var, .. } => Some(Object::Variable(var)),
        Ask::Unlock { mutex } | Ask::Release { mutex, .. } => Some(Object::Mutex(mutex)),
        Ask::Signal { cond } | Ask::Broadcast { cond } => {
            (event.answer > 0).then_some(Object::Condition(cond))
        }
        Ask::Up { sem } => Some(Object::Semaphore(sem)),
        Ask::Arrive { barrier } => Some(Object::Barrier(barrier)),
        Ask::Start { thread } => Some(Object::Beginning(thread)),
        Ask::RwUnlock { rwlock } => Some(Object::ReadWriteLock(rwlock)),
        _ => None,
    }
}

/// The object from which a step takes, beside its own thread.
pub(crate) fn first_taken(event: &Event) -> Option<Object>
    ensures { result ≡ first_taken (event.now).ask (event.now).answer }
{
    match event.ask {
        Ask::Cas { var, .. } | Ask::Add { var, .. } => Some(Object::Variable(var)),
        Ask::Lock { mutex } | Ask::Regain { mutex, .. } => Some(Object::Mutex(mutex)),
        Ask::TryLock { mutex } => (event.answer == 1).then_some(Object::Mutex(mutex)),
        Ask::Down { sem } => Some(Object::Semaphore(sem)),
        Ask::TryDown { sem } => (event.answer == 1).then_some(Object::Semaphore(sem)),
        Ask::Leave { barrier } => Some(Object::Barrier(barrier)),
        Ask::Join { thread } => Some(Object::Thread(thread)),
        Ask::RdLock { rwlock } | Ask::WrLock { rwlock } => Some(Object::ReadWriteLock(rwlock)),
        Ask::TryRdLock { rwlock } | Ask::TryWrLock { rwlock } => {
            (event.answer == 1).then_some(Object::ReadWriteLock(rwlock))
        }
        _ => None,
    }
}

/// A further object from which a step takes.
pub(crate) fn second_taken(event: &Event) -> Option<Object>
    ensures { result ≡ second_taken (event.now).ask }
{
    match event.ask {
        Ask::Regain { cond, .. } => Some(Object::Condition(cond)),
        _ => None,
    }
}
