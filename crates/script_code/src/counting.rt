ghost use Rattle.std.specs.Prelude.{◌≡◌, ◌^◌, ◌<◌};
ghost use Rattle.script_tree.specs.Seen.{statement, block};
ghost use Rattle.script_tree.specs.Fitting.{count_of, counts_of};

use script_tree::{Block, Stmt};

/// How many statements a statement is, with those inside it.
#[cycle(counting)]
pub(crate) fn count_of(stmt: &Stmt) -> u32
    requires { count_of (statement stmt.now) < 2 ^ 32 }
    ensures { result ≡ count_of (statement stmt.now) }
{
    match stmt {
        Stmt::If {
            then,
            otherwise: None,
            ..
        } => 1 + counts_of(then),
        Stmt::If {
            then,
            otherwise: Some(otherwise),
            ..
        } => 1 + (counts_of(then) + counts_of(otherwise)),
        Stmt::While { body, .. } => 1 + counts_of(body),
        _ => 1,
    }
}

/// How many statements a block has, with those inside them.
#[cycle(counting)]
pub(crate) fn counts_of(body: &Block) -> u32
    requires { counts_of (block body.now) < 2 ^ 32 }
    ensures { result ≡ counts_of (block body.now) }
{
    let mut sum = 0;
    for stmt in &body.stmts {
        sum += count_of(stmt);
    }
    sum
}
