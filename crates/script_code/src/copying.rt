ghost use Rattle.std.specs.Prelude.{◌≡◌, true, IfOk};
ghost use Rattle.script_tree.specs.Trees.{Cas, has_no_block};
ghost use Rattle.script_tree.specs.Seen.{expression, statement};
ghost use Rattle.script_code.specs.Placed.{has_no_expression};

use script_tree::{Expr, Stmt};
use std::alloc::{AllocError as NoMemory, Global};

/// An equal expression in memory of its own.
pub(crate) fn copy_expr(alloc: Global, expr: &Expr) -> Result<Expr, NoMemory>
    ensures { IfOk result (λ copy. expression copy ≡ expression expr.now) }
{
    match expr {
        Expr::Number(n) => Ok(Expr::Number(*n)),
        Expr::Reg(reg) => Ok(Expr::Reg(*reg)),
        Expr::Not(a) => {
            let a = copy_expr(alloc, a)?;
            Ok(Expr::Not(Box::new(alloc, a)?))
        }
        Expr::Minus(a) => {
            let a = copy_expr(alloc, a)?;
            Ok(Expr::Minus(Box::new(alloc, a)?))
        }
        Expr::Two(op, a, b) => {
            let a = copy_expr(alloc, a)?;
            let b = copy_expr(alloc, b)?;
            Ok(Expr::Two(*op, Box::new(alloc, a)?, Box::new(alloc, b)?))
        }
    }
}

/// An equal statement, of a statement that has neither blocks nor expressions.
fn copy_plain(stmt: &Stmt) -> Stmt
    requires { has_no_expression (statement stmt.now) ≡ true }
    ensures { statement result ≡ statement stmt.now }
{
    match *stmt {
        Stmt::Read { line, reg, var } => Stmt::Read { line, reg, var },
        Stmt::Lock { line, mutex } => Stmt::Lock { line, mutex },
        Stmt::TryLock { line, reg, mutex } => Stmt::TryLock { line, reg, mutex },
        Stmt::Unlock { line, mutex } => Stmt::Unlock { line, mutex },
        Stmt::Wait { line, cond, mutex } => Stmt::Wait { line, cond, mutex },
        Stmt::Signal { line, cond } => Stmt::Signal { line, cond },
        Stmt::Broadcast { line, cond } => Stmt::Broadcast { line, cond },
        Stmt::Down { line, sem } => Stmt::Down { line, sem },
        Stmt::TryDown { line, reg, sem } => Stmt::TryDown { line, reg, sem },
        Stmt::Up { line, sem } => Stmt::Up { line, sem },
        Stmt::Arrive { line, reg, barrier } => Stmt::Arrive { line, reg, barrier },
        Stmt::Join { line, thread } => Stmt::Join { line, thread },
        Stmt::Yield { line } => Stmt::Yield { line },
        Stmt::Start { line, thread } => Stmt::Start { line, thread },
        Stmt::RdLock { line, rwlock } => Stmt::RdLock { line, rwlock },
        Stmt::WrLock { line, rwlock } => Stmt::WrLock { line, rwlock },
        Stmt::TryRdLock { line, reg, rwlock } => Stmt::TryRdLock { line, reg, rwlock },
        Stmt::TryWrLock { line, reg, rwlock } => Stmt::TryWrLock { line, reg, rwlock },
        Stmt::RwUnlock { line, rwlock } => Stmt::RwUnlock { line, rwlock },
        Stmt::Write { .. } | Stmt::Add { .. } | Stmt::Cas { .. } => unreachable!(),
        Stmt::Assert { .. } | Stmt::Set { .. } => unreachable!(),
        Stmt::If { .. } | Stmt::While { .. } => unreachable!(),
    }
}

/// An exchange in a line, with a register and a variable, and with equal expressions.
fn copy_cas(
    alloc: Global,
    line: u32,
    reg: u32,
    var: u32,
    old: &Expr,
    new: &Expr,
) -> Result<Stmt, NoMemory>
    ensures { IfOk result (λ copy.
        statement copy ≡ Cas line reg var (expression old.now) (expression new.now)) }
{
    Ok(Stmt::Cas {
        line,
        reg,
        var,
        old: copy_expr(alloc, old)?,
        new: copy_expr(alloc, new)?,
    })
}

/// An equal statement in memory of its own, of a statement without blocks.
pub(crate) fn copy_stmt(alloc: Global, stmt: &Stmt) -> Result<Stmt, NoMemory>
    requires { has_no_block (statement stmt.now) ≡ true }
    ensures same { IfOk result (λ copy. statement copy ≡ statement stmt.now) }
    ensures lone { has_no_block (statement stmt.now) ≡ true }
{
    Ok(match stmt {
        Stmt::Write { line, var, value } => Stmt::Write {
            line: *line,
            var: *var,
            value: copy_expr(alloc, value)?,
        },
        Stmt::Add {
            line,
            reg,
            var,
            value,
        } => Stmt::Add {
            line: *line,
            reg: *reg,
            var: *var,
            value: copy_expr(alloc, value)?,
        },
        Stmt::Cas {
            line,
            reg,
            var,
            old,
            new,
        } => copy_cas(alloc, *line, *reg, *var, old, new)?,
        Stmt::Assert { line, test } => Stmt::Assert {
            line: *line,
            test: copy_expr(alloc, test)?,
        },
        Stmt::Set { line, reg, value } => Stmt::Set {
            line: *line,
            reg: *reg,
            value: copy_expr(alloc, value)?,
        },
        _ => copy_plain(stmt),
    })
}
