//! The lines of a script's statements in its canonical layout.

ghost use Rattle.std.specs.Prelude.{◌≡◌, ◌++◌, [], ◌∷◌, ◌&&◌, true, codes, OnOk};
ghost use Rattle.std.specs.List.{flat_map};
ghost use Rattle.pct_ask.specs.NameLists.{list_of};
ghost use Rattle.script_tree.specs.Trees.{has_no_block, statement_list};
ghost use Rattle.script_tree.specs.Seen.{expression, statement, block};
ghost use Rattle.pct_ask.specs.Words.{register_word};
ghost use Rattle.pct_ask.specs.TraceText.{name_at};
ghost use Rattle.pct_ask.specs.StatementVerbs.{on_word, on_kind, into_word, into_kind};
ghost use Rattle.script_tree.specs.Grammar.{statement_lines};
ghost use Rattle.script_tree.specs.Layout.{spaced_words, expression_text};
ghost use Rattle.script_tree.specs.Printing.{printed_lines, are_ranged, is_ranged, names_one};

use crate::expr::Expr;
use crate::printing_words::{push_expression, push_last, push_spaced};
use crate::stmt::{Block, Stmt};
use pct_ask::{IntoVerb, NameKind, Names, OnVerb, name_at, register_word};
use std::alloc::AllocError as NoMemory;

#[cycle(printing)]
pub(crate) fn push_statements(
    body: &Block,
    names: &Names,
    out: &mut Vec<u8>,
) -> Result<(), NoMemory>
    ensures written { OnOk result
        (out.new.items
        ≡ out.old.items
        ++ printed_lines (flat_map (statement_lines names.now) (statement_list (block body.now)))) }
    ensures ranged { OnOk result
        (are_ranged (flat_map (statement_lines names.now) (statement_list (block body.now)))
        ≡ true) }
{
    for stmt in &body.stmts {
        push_statement(stmt, names, out)?;
    }
    Ok(())
}

#[cycle(printing)]
fn push_statement(stmt: &Stmt, names: &Names, out: &mut Vec<u8>) -> Result<(), NoMemory>
    ensures written { OnOk result
        (out.new.items
        ≡ out.old.items ++ printed_lines (statement_lines names.now (statement stmt.now))) }
    ensures ranged { OnOk result
        (are_ranged (statement_lines names.now (statement stmt.now)) ≡ true) }
{
    match stmt {
        Stmt::If {
            test,
            then,
            otherwise,
            ..
        } => {
            push_test(b"if", test, out)?;
            push_statements(then, names, out)?;
            if let Some(otherwise) = otherwise {
                push_last(b"else", out)?;
                push_statements(otherwise, names, out)?;
            }
            push_last(b"end", out)
        }
        Stmt::While { test, body, .. } => {
            push_test(b"while", test, out)?;
            push_statements(body, names, out)?;
            push_last(b"end", out)
        }
        _ => push_single(stmt, names, out),
    }
}

// A statement of one line: it has no blocks.
fn push_single(stmt: &Stmt, names: &Names, out: &mut Vec<u8>) -> Result<(), NoMemory>
    requires { has_no_block (statement stmt.now) ≡ true }
    ensures written { OnOk result
        (out.new.items
        ≡ out.old.items ++ printed_lines (statement_lines names.now (statement stmt.now))) }
    ensures ranged { OnOk result
        (are_ranged (statement_lines names.now (statement stmt.now)) ≡ true) }
{
    match stmt {
        Stmt::Write { var, value, .. } => push_write(*var, value, names, out),
        Stmt::Add {
            reg,
            var,
            value,
            ..
        } => push_add(*reg, *var, value, names, out),
        Stmt::Cas {
            reg,
            var,
            old,
            new,
            ..
        } => push_cas(*reg, *var, old, new, names, out),
        Stmt::Wait { cond, mutex, .. } => push_wait(*cond, *mutex, names, out),
        Stmt::Yield { .. } => push_last(b"yield", out),
        Stmt::Assert { test, .. } => push_test(b"assert", test, out),
        Stmt::Set { reg, value, .. } => {
            push_spaced(b"set", out)?;
            push_test(register_word(*reg), value, out)
        }
        Stmt::If { .. } | Stmt::While { .. } => unreachable!(),
        _ => push_named(stmt, names, out),
    }
}

// A statement that names one object or thread.
fn push_named(stmt: &Stmt, names: &Names, out: &mut Vec<u8>) -> Result<(), NoMemory>
    requires { names_one (statement stmt.now) ≡ true }
    ensures written { OnOk result
        (out.new.items
        ≡ out.old.items ++ printed_lines (statement_lines names.now (statement stmt.now))) }
    ensures ranged { are_ranged (statement_lines names.now (statement stmt.now)) ≡ true }
{
    match *stmt {
        Stmt::Read { reg, var, .. } => push_into(IntoVerb::Read, reg, var, names, out),
        Stmt::Lock { mutex, .. } => push_on(OnVerb::Lock, mutex, names, out),
        Stmt::TryLock { reg, mutex, .. } => push_into(IntoVerb::TryLock, reg, mutex, names, out),
        Stmt::Unlock { mutex, .. } => push_on(OnVerb::Unlock, mutex, names, out),
        Stmt::Signal { cond, .. } => push_on(OnVerb::Signal, cond, names, out),
        Stmt::Broadcast { cond, .. } => push_on(OnVerb::Broadcast, cond, names, out),
        Stmt::Down { sem, .. } => push_on(OnVerb::Down, sem, names, out),
        Stmt::TryDown { reg, sem, .. } => push_into(IntoVerb::TryDown, reg, sem, names, out),
        Stmt::Up { sem, .. } => push_on(OnVerb::Up, sem, names, out),
        Stmt::Arrive { reg, barrier, .. } => {
            push_into(IntoVerb::Arrive, reg, barrier, names, out)
        }
        Stmt::Join { thread, .. } => push_on(OnVerb::Join, thread, names, out),
        Stmt::Start { thread, .. } => push_on(OnVerb::Start, thread, names, out),
        Stmt::RdLock { rwlock, .. } => push_on(OnVerb::RdLock, rwlock, names, out),
        Stmt::WrLock { rwlock, .. } => push_on(OnVerb::WrLock, rwlock, names, out),
        Stmt::TryRdLock { reg, rwlock, .. } => {
            push_into(IntoVerb::TryRdLock, reg, rwlock, names, out)
        }
        Stmt::TryWrLock { reg, rwlock, .. } => {
            push_into(IntoVerb::TryWrLock, reg, rwlock, names, out)
        }
        Stmt::RwUnlock { rwlock, .. } => push_on(OnVerb::RwUnlock, rwlock, names, out),
        Stmt::Write { .. } | Stmt::Add { .. } | Stmt::Cas { .. } => unreachable!(),
        Stmt::Wait { .. } | Stmt::Yield { .. } | Stmt::Assert { .. } => unreachable!(),
        Stmt::Set { .. } | Stmt::If { .. } | Stmt::While { .. } => unreachable!(),
    }
}

// A statement on one object.
fn push_on(verb: OnVerb, place: u32, names: &Names, out: &mut Vec<u8>) -> Result<(), NoMemory>
    ensures { OnOk result
        (out.new.items
        ≡ out.old.items
        ++ (spaced_words
        (on_word verb ∷ name_at (list_of (on_kind verb) names.now) place ∷ [])
        ++ 10 ∷ [])) }
{
    let row = verb.row();
    push_spaced(row.word, out)?;
    push_last(name_at(names, row.kind, place), out)
}

// A statement whose answer goes from one object into a register.
fn push_into(
    verb: IntoVerb,
    register: u32,
    place: u32,
    names: &Names,
    out: &mut Vec<u8>,
) -> Result<(), NoMemory>
    ensures { OnOk result
        (out.new.items
        ≡ out.old.items
        ++ (spaced_words
        (into_word verb ∷ register_word register
        ∷ name_at (list_of (into_kind verb) names.now) place ∷ [])
        ++ 10 ∷ [])) }
{
    let row = verb.row();
    push_spaced(row.word, out)?;
    push_spaced(register_word(register), out)?;
    push_last(name_at(names, row.kind, place), out)
}

fn push_write(var: u32, value: &Expr, names: &Names, out: &mut Vec<u8>) -> Result<(), NoMemory>
    ensures written { OnOk result
        (out.new.items
        ≡ out.old.items
        ++ (spaced_words
        (codes "write" ∷ name_at names.now.vars var ∷ expression_text (expression value.now) ∷ [])
        ++ 10 ∷ [])) }
    ensures ranged { OnOk result (is_ranged (expression value.now) ≡ true) }
{
    push_spaced(b"write", out)?;
    push_test(name_at(names, NameKind::Var, var), value, out)
}

fn push_add(
    register: u32,
    var: u32,
    value: &Expr,
    names: &Names,
    out: &mut Vec<u8>,
) -> Result<(), NoMemory>
    ensures written { OnOk result
        (out.new.items
        ≡ out.old.items
        ++ (spaced_words
        (codes "add" ∷ register_word register ∷ name_at names.now.vars var
        ∷ expression_text (expression value.now) ∷ [])
        ++ 10 ∷ [])) }
    ensures ranged { OnOk result (is_ranged (expression value.now) ≡ true) }
{
    push_spaced(b"add", out)?;
    push_spaced(register_word(register), out)?;
    push_test(name_at(names, NameKind::Var, var), value, out)
}

fn push_cas(
    register: u32,
    var: u32,
    old: &Expr,
    new: &Expr,
    names: &Names,
    out: &mut Vec<u8>,
) -> Result<(), NoMemory>
    ensures written { OnOk result
        (out.new.items
        ≡ out.old.items
        ++ (spaced_words
        (codes "cas" ∷ register_word register ∷ name_at names.now.vars var
        ∷ (expression_text (expression old.now) ++ codes ",") ∷ expression_text (expression new.now)
        ∷ [])
        ++ 10 ∷ [])) }
    ensures ranged { OnOk result
        ((is_ranged (expression old.now) && is_ranged (expression new.now)) ≡ true) }
{
    push_spaced(b"cas", out)?;
    push_spaced(register_word(register), out)?;
    push_spaced(name_at(names, NameKind::Var, var), out)?;
    push_expression(old, out)?;
    push_test(b",", new, out)
}

fn push_wait(cond: u32, mutex: u32, names: &Names, out: &mut Vec<u8>) -> Result<(), NoMemory>
    ensures { OnOk result
        (out.new.items
        ≡ out.old.items
        ++ (spaced_words
        (codes "wait" ∷ name_at names.now.conds cond ∷ name_at names.now.mutexes mutex ∷ [])
        ++ 10 ∷ [])) }
{
    push_spaced(b"wait", out)?;
    push_spaced(name_at(names, NameKind::Cond, cond), out)?;
    push_last(name_at(names, NameKind::Mutex, mutex), out)
}

// A word and the expression that ends its line.
fn push_test(word: &[u8], expr: &Expr, out: &mut Vec<u8>) -> Result<(), NoMemory>
    ensures written { OnOk result
        (out.new.items
        ≡ out.old.items
        ++ (spaced_words (word.now ∷ expression_text (expression expr.now) ∷ []) ++ 10 ∷ [])) }
    ensures ranged { OnOk result (is_ranged (expression expr.now) ≡ true) }
{
    push_spaced(word, out)?;
    push_expression(expr, out)?;
    Ok(out.push(b'\n')?)
}
