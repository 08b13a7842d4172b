ghost use Rattle.std.specs.Prelude.{◌≡◌, ℕ, ◌<◌, ◌||◌, false, length, slice_index_or};
ghost use Rattle.script_tree.specs.Seen.{statement, block};
ghost use Rattle.script_tree.specs.Posts.{starts, any_starts};

use script_tree::{Block, Stmt};

/// Marks the thread that a statement or one inside it starts.
#[cycle(held)]
fn mark_started(held: &mut [bool], stmt: &Stmt)
    ensures { (t : ℕ) → t < length held.old
        → slice_index_or held.new t false
        ≡ (slice_index_or held.old t false || starts t (statement stmt.now)) }
{
    match stmt {
        Stmt::Start { thread, .. } => {
            if (*thread as usize) < held.len() {
                held[*thread as usize] = true;
            }
        }
        Stmt::If {
            then,
            otherwise: None,
            ..
        } => mark_all_started(held, then),
        Stmt::If {
            then,
            otherwise: Some(otherwise),
            ..
        } => {
            mark_all_started(held, then);
            mark_all_started(held, otherwise);
        }
        Stmt::While { body, .. } => mark_all_started(held, body),
        _ => {}
    }
}

/// Marks the threads that the statements of a block start.
#[cycle(held)]
pub(crate) fn mark_all_started(held: &mut [bool], body: &Block)
    ensures { (t : ℕ) → t < length held.old
        → slice_index_or held.new t false
        ≡ (slice_index_or held.old t false || any_starts t (block body.now)) }
{
    for stmt in &body.stmts {
        mark_started(held, stmt);
    }
}
