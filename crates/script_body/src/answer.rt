ghost use Rattle.std.specs.Prelude.{◌≡◌, ◌<◌, ℤ, List, true, length};
ghost use Rattle.script_tree.specs.Seen.{statement};
ghost use Rattle.script_code.specs.Listing.{listing};
ghost use Rattle.script_code.specs.Placed.{listing_of, is_lone};
ghost use Rattle.script_code.specs.FlatPosts.{flat_head, flat_pending_from};
ghost use Rattle.script_body.specs.Spots.{spot_of};
ghost use Rattle.script_body.specs.Waiting.{is_waiting, spot_after};
ghost use Rattle.script_body.specs.Answering.{answer_reg, asks_twice, spot_after_answer};

use crate::state::State;
use script_code::{Code, Flat};
use script_tree::Stmt;

/// Goes on with the answer to the ask at which a thread waits, up to the next operation. At its end
/// a thread stays there.
pub(crate) fn take_answer(code: &Code, thread: u32, state: &mut State, value: i64)
    requires thread { thread < length (listing code.now) }
    requires place { state.old.place < length (listing_of (listing code.now) thread) }
    requires waits { is_waiting
        (flat_head (listing_of (listing code.now) thread) (spot_of state.old)).1
        ≡ true }
    ensures goes_on { (answers : List ℤ) →
        flat_pending_from (listing_of (listing code.now) thread) (spot_of state.new) answers
        ≡ flat_pending_from (listing_of (listing code.now) thread)
        (spot_after (listing_of (listing code.now) thread) (spot_of state.old) value) answers }
    ensures inside { state.new.place < length (listing_of (listing code.now) thread) }
{
    match code.flat(thread, state.place) {
        Flat::Do { stmt, next } => take_lone(stmt, *next, state, value),
        Flat::Begin { next, .. } => state.go(*next),
        Flat::End { .. } => state.go(code.end(thread)),
        Flat::Test { .. } => unreachable!(),
    }
}

// Goes on with the answer to a statement without blocks.
fn take_lone(stmt: &Stmt, next: u32, state: &mut State, value: i64)
    requires { is_lone (statement stmt.now) ≡ true }
    ensures { spot_of state.new
        ≡ spot_after_answer (statement stmt.now) next (spot_of state.old) value }
{
    if !state.halfway && asks_twice(stmt) {
        state.halfway = true;
        return;
    }
    if let Some(reg) = answer_reg(stmt) {
        state.registers[reg as usize] = value;
    }
    state.go(next);
}

// Whether a statement asks twice.
fn asks_twice(stmt: &Stmt) -> bool
    ensures { result ≡ asks_twice (statement stmt.now) }
{
    matches!(stmt, Stmt::Wait { .. } | Stmt::Arrive { .. })
}

// The register that has the answer to a statement.
fn answer_reg(stmt: &Stmt) -> Option<u32>
    ensures reg { result ≡ answer_reg (statement stmt.now) }
{
    match stmt {
        Stmt::Read { reg, .. } => Some(*reg),
        Stmt::Add { reg, .. } => Some(*reg),
        Stmt::Cas { reg, .. } => Some(*reg),
        Stmt::TryLock { reg, .. } => Some(*reg),
        Stmt::TryDown { reg, .. } => Some(*reg),
        Stmt::Arrive { reg, .. } => Some(*reg),
        Stmt::TryRdLock { reg, .. } => Some(*reg),
        Stmt::TryWrLock { reg, .. } => Some(*reg),
        _ => None,
    }
}
