//! The statements that open and close no block.

ghost use Rattle.std.specs.Prelude.{◌≡◌, IfOk};
ghost use Rattle.std.specs.Option.{option_map};
ghost use Rattle.script_tree.specs.Forms.{On, Into, Wait};
ghost use Rattle.script_tree.specs.Seen.{expression, statement};
ghost use Rattle.script_tree.specs.Trees as trees;
ghost use Rattle.script_parse.specs.SeenForms.{seen_form};
ghost use Rattle.script_parse.specs.Lookahead.{place_ahead};
ghost use Rattle.script_parse.specs.Lawful.{NumbersAreSmall};
ghost use Rattle.script_parse.specs.Reading as reading;

use crate::ahead::Lookahead;
use crate::form::Form;
use crate::spelling::expression_at;
use pct_ask::{IntoVerb, NameKind, Names, OnVerb};
use script_tree::{Expr, Stmt};
use std::alloc::{AllocError as NoMemory, Global};

/// Where a name of a kind stands among those of its kind: a thread's among those of the whole text.
pub fn place_in(names: &Names, ahead: &Lookahead<'_>, kind: NameKind, name: &[u8]) -> Option<u32>
    ensures { result ≡ reading.place_in names.now (place_ahead ahead.now) kind name.now }
{
    match kind {
        NameKind::Thread => ahead.place(name),
        _ => names.find(kind, name),
    }
}

#[tactic(auto, using(script_tree::proofs::laws::SeenParts::seen_laws))]
fn on_statement(verb: OnVerb, line: u32, place: u32) -> Stmt
    ensures { statement result ≡ reading.on_statement verb line place }
{
    match verb {
        OnVerb::Lock => Stmt::Lock { line, mutex: place },
        OnVerb::Unlock => Stmt::Unlock { line, mutex: place },
        OnVerb::Signal => Stmt::Signal { line, cond: place },
        OnVerb::Broadcast => Stmt::Broadcast { line, cond: place },
        OnVerb::Down => Stmt::Down { line, sem: place },
        OnVerb::Up => Stmt::Up { line, sem: place },
        OnVerb::Join => Stmt::Join {
            line,
            thread: place,
        },
        OnVerb::Start => Stmt::Start {
            line,
            thread: place,
        },
        OnVerb::RdLock => Stmt::RdLock {
            line,
            rwlock: place,
        },
        OnVerb::WrLock => Stmt::WrLock {
            line,
            rwlock: place,
        },
        OnVerb::RwUnlock => Stmt::RwUnlock {
            line,
            rwlock: place,
        },
    }
}

#[tactic(auto, using(script_tree::proofs::laws::SeenParts::seen_laws))]
fn into_statement(verb: IntoVerb, line: u32, reg: u32, place: u32) -> Stmt
    ensures { statement result ≡ reading.into_statement verb line reg place }
{
    match verb {
        IntoVerb::Read => Stmt::Read {
            line,
            reg,
            var: place,
        },
        IntoVerb::TryLock => Stmt::TryLock {
            line,
            reg,
            mutex: place,
        },
        IntoVerb::TryDown => Stmt::TryDown {
            line,
            reg,
            sem: place,
        },
        IntoVerb::Arrive => Stmt::Arrive {
            line,
            reg,
            barrier: place,
        },
        IntoVerb::TryRdLock => Stmt::TryRdLock {
            line,
            reg,
            rwlock: place,
        },
        IntoVerb::TryWrLock => Stmt::TryWrLock {
            line,
            reg,
            rwlock: place,
        },
    }
}

fn on_object(
    names: &Names,
    ahead: &Lookahead<'_>,
    line: u32,
    verb: OnVerb,
    object: &[u8],
) -> Option<Stmt>
    ensures { option_map statement result
        ≡ reading.statement_on names.now (place_ahead ahead.now) line
        (On verb object.now) }
{
    let place = place_in(names, ahead, verb.row().kind, object)?;
    Some(on_statement(verb, line, place))
}

fn into_register(
    names: &Names,
    ahead: &Lookahead<'_>,
    line: u32,
    verb: IntoVerb,
    reg: u32,
    object: &[u8],
) -> Option<Stmt>
    ensures { option_map statement result
        ≡ reading.statement_on names.now (place_ahead ahead.now) line
        (Into verb reg object.now) }
{
    let place = place_in(names, ahead, verb.row().kind, object)?;
    Some(into_statement(verb, line, reg, place))
}

#[tactic(auto, using(script_tree::proofs::laws::SeenParts::seen_laws))]
fn wait_statement(
    names: &Names,
    ahead: &Lookahead<'_>,
    line: u32,
    cond: &[u8],
    mutex: &[u8],
) -> Option<Stmt>
    ensures { option_map statement result
        ≡ reading.statement_on names.now (place_ahead ahead.now) line (Wait cond.now mutex.now) }
{
    let cond = place_in(names, ahead, NameKind::Cond, cond)?;
    let mutex = place_in(names, ahead, NameKind::Mutex, mutex)?;
    Some(Stmt::Wait { line, cond, mutex })
}

#[tactic(auto, using(script_tree::proofs::laws::SeenParts::seen_laws))]
fn add_statement(line: u32, reg: u32, var: u32, value: Expr) -> Stmt
    ensures { statement result ≡ trees.Add line reg var (expression value) }
{
    Stmt::Add {
        line,
        reg,
        var,
        value,
    }
}

#[tactic(auto, using(script_tree::proofs::laws::SeenParts::seen_laws))]
fn cas_statement(line: u32, reg: u32, var: u32, old: Expr, new: Expr) -> Stmt
    ensures { statement result ≡ trees.Cas line reg var (expression old) (expression new) }
{
    Stmt::Cas {
        line,
        reg,
        var,
        old,
        new,
    }
}

/// The statement on a line, where the names that it uses are known and it opens and closes no
/// block.
#[tactic(auto, using(script_tree::proofs::laws::SeenParts::seen_laws))]
pub fn statement_on(
    alloc: Global,
    names: &Names,
    ahead: &Lookahead<'_>,
    line: u32,
    form: &Form<'_>,
) -> Result<Option<Stmt>, NoMemory>
    requires { NumbersAreSmall (seen_form form.now) }
    ensures { IfOk result (λ found.
        option_map statement found
        ≡ reading.statement_on names.now (place_ahead ahead.now) line (seen_form form.now)) }
{
    match form {
        Form::On { verb, object } => Ok(on_object(names, ahead, line, *verb, object)),
        Form::Into { verb, reg, object } => {
            Ok(into_register(names, ahead, line, *verb, *reg, object))
        }
        Form::Write { var, value } => {
            let Some(var) = place_in(names, ahead, NameKind::Var, var) else {
                return Ok(None);
            };
            let value = expression_at(alloc, value)?;
            Ok(Some(Stmt::Write { line, var, value }))
        }
        Form::Add { reg, var, value } => {
            let Some(var) = place_in(names, ahead, NameKind::Var, var) else {
                return Ok(None);
            };
            let value = expression_at(alloc, value)?;
            Ok(Some(add_statement(line, *reg, var, value)))
        }
        Form::Cas { reg, var, old, new } => {
            let Some(var) = place_in(names, ahead, NameKind::Var, var) else {
                return Ok(None);
            };
            let old = expression_at(alloc, old)?;
            let new = expression_at(alloc, new)?;
            Ok(Some(cas_statement(line, *reg, var, old, new)))
        }
        Form::Wait { cond, mutex } => Ok(wait_statement(names, ahead, line, cond, mutex)),
        Form::Yield => Ok(Some(Stmt::Yield { line })),
        Form::Assert { test } => {
            let test = expression_at(alloc, test)?;
            Ok(Some(Stmt::Assert { line, test }))
        }
        Form::Set { reg, value } => {
            let value = expression_at(alloc, value)?;
            let reg = *reg;
            Ok(Some(Stmt::Set { line, reg, value }))
        }
        _ => Ok(None),
    }
}
