ghost use Rattle.std.specs.Prelude.{◌≡◌, not, if◌then◌else◌};
ghost use Rattle.script_tree.specs.Values.{is_zero};
ghost use Rattle.script_body.specs.Asking.{ask_by_value};

use pct_ask::{Ask, FaultKind};

/// The ask of a `write`, or its fault.
pub(crate) fn write_ask(var: u32, value: Result<i64, FaultKind>) -> Ask
    ensures { result ≡ ask_by_value value (λ n. Ask.Write var n) }
{
    match value {
        Ok(value) => Ask::Write { var, value },
        Err(kind) => Ask::Fault { kind },
    }
}

/// The ask of an `add`, or its fault.
pub(crate) fn add_ask(var: u32, value: Result<i64, FaultKind>) -> Ask
    ensures { result ≡ ask_by_value value (λ n. Ask.Add var n) }
{
    match value {
        Ok(value) => Ask::Add { var, value },
        Err(kind) => Ask::Fault { kind },
    }
}

/// The ask of a `cas`, or the fault of its first part that has one.
pub(crate) fn cas_ask(var: u32, old: Result<i64, FaultKind>, new: Result<i64, FaultKind>) -> Ask
    ensures { result ≡ ask_by_value old (λ m. ask_by_value new (λ n. Ask.Cas var m n)) }
{
    match (old, new) {
        (Ok(old), Ok(new)) => Ask::Cas { var, old, new },
        (Err(kind), _) => Ask::Fault { kind },
        (_, Err(kind)) => Ask::Fault { kind },
    }
}

/// The ask of an `assert`, or its fault.
pub(crate) fn check_ask(test: Result<i64, FaultKind>) -> Ask
    ensures { result ≡ ask_by_value test (λ n. Ask.Check (not (is_zero n))) }
{
    match test {
        Ok(n) => Ask::Check { holds: n != 0 },
        Err(kind) => Ask::Fault { kind },
    }
}

/// The ask of a `wait`: first that the mutex is let go, and then that it is taken again.
pub(crate) fn wait_ask(cond: u32, mutex: u32, halfway: bool) -> Ask
    ensures { result ≡ (if halfway then Ask.Regain cond mutex else Ask.Release cond mutex) }
{
    if halfway {
        Ask::Regain { cond, mutex }
    } else {
        Ask::Release { cond, mutex }
    }
}

/// The ask of an `arrive`: first that the thread has come, and then that it may leave.
pub(crate) fn arrive_ask(barrier: u32, halfway: bool) -> Ask
    ensures { result ≡ (if halfway then Ask.Leave barrier else Ask.Arrive barrier) }
{
    if halfway {
        Ask::Leave { barrier }
    } else {
        Ask::Arrive { barrier }
    }
}
