ghost use Rattle.std.specs.Prelude.{◌≡◌, ◌+◌, ◌^◌, ◌<◌, ◌++◌, length, IfOk, OnOk};
ghost use Rattle.script_tree.specs.Seen.{expression, statement, block};
ghost use Rattle.script_tree.specs.Fitting.{count_of, counts_of};
ghost use Rattle.script_code.specs.Operations.{Test, operation, operations};
ghost use Rattle.script_code.specs.Rest.{from};
ghost use Rattle.script_code.specs.Layout.{entry, code_of, codes_of};

use crate::copying::{copy_expr, copy_stmt};
use crate::counting::{count_of, counts_of};
use crate::flat::Flat;
use script_tree::{Block, Expr, Stmt};
use std::alloc::{AllocError as NoMemory, Global};

/// The test of an `if` or a `while`, and where it leads.
fn test_of(
    alloc: Global,
    line: u32,
    test: &Expr,
    next: u32,
    otherwise: u32,
) -> Result<Flat, NoMemory>
    ensures { IfOk result (λ flat.
        operation flat ≡ Test line (expression test.now) next otherwise) }
{
    Ok(Flat::Test {
        line,
        test: copy_expr(alloc, test)?,
        next,
        otherwise,
    })
}

/// Appends the operations of a statement, behind which `next` comes.
#[cycle(emit)]
fn emit_stmt(alloc: Global, ops: &mut Vec<Flat>, stmt: &Stmt, next: u32) -> Result<(), NoMemory>
    requires room { length ops.old.items + count_of (statement stmt.now) < 2 ^ 32 }
    ensures { OnOk result
        (operations ops.new.items ≡ operations ops.old.items
        ++ code_of (length ops.old.items) next (statement stmt.now)) }
{
    let at = ops.len() as u32;
    match stmt {
        Stmt::If {
            line,
            test,
            then,
            otherwise,
        } => {
            let second = at + 1 + counts_of(then);
            let first = entry(at + 1, next, then, 0);
            match otherwise {
                None => {
                    ops.push(test_of(alloc, *line, test, first, next)?)?;
                    emit_block(alloc, ops, then, next)
                }
                Some(otherwise) => {
                    let last = entry(second, next, otherwise, 0);
                    ops.push(test_of(alloc, *line, test, first, last)?)?;
                    emit_block(alloc, ops, then, next)?;
                    emit_block(alloc, ops, otherwise, next)
                }
            }
        }
        Stmt::While { line, test, body } => {
            let first = entry(at + 1, at, body, 0);
            ops.push(test_of(alloc, *line, test, first, next)?)?;
            emit_block(alloc, ops, body, at)
        }
        _ => {
            ops.push(Flat::Do {
                stmt: copy_stmt(alloc, stmt)?,
                next,
            })?;
            Ok(())
        }
    }
}

/// Appends the operations of a block, behind which `next` comes.
#[cycle(emit)]
pub(crate) fn emit_block(
    alloc: Global,
    ops: &mut Vec<Flat>,
    body: &Block,
    next: u32,
) -> Result<(), NoMemory>
    requires room { length ops.old.items + counts_of (block body.now) < 2 ^ 32 }
    ensures { OnOk result
        (operations ops.new.items ≡ operations ops.old.items
        ++ codes_of (length ops.old.items) next (block body.now)) }
{
    for (i, stmt) in body.stmts.iter().enumerate() {
        let after = ops.len() as u32 + count_of(stmt);
        emit_stmt(alloc, ops, stmt, entry(after, next, body, i + 1))?;
    }
    Ok(())
}

// Where the statements of a block from one of them on begin, if the first is laid at a place.
fn entry(at: u32, next: u32, body: &Block, first: usize) -> u32
    ensures { result ≡ entry at next (from body.now first) }
{
    if first < body.stmts.len() { at } else { next }
}
