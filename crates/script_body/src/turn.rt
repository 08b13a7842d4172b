ghost use Rattle.std.specs.Prelude.{◌≡◌, ◌<◌, ℤ, List, [], true, length};
ghost use Rattle.script_tree.specs.Seen.{statement};
ghost use Rattle.script_tree.specs.Trees.{line_of};
ghost use Rattle.script_tree.specs.Moves.{act};
ghost use Rattle.script_code.specs.Listing.{listing};
ghost use Rattle.script_code.specs.Placed.{listing_of, is_lone, has_no_expression};
ghost use Rattle.script_code.specs.FlatPosts.{flat_head};
ghost use Rattle.script_body.specs.Spots.{spot_of};
ghost use Rattle.script_body.specs.Turns.{turn_of, told_turn, Posts};

use crate::ask::{add_ask, arrive_ask, cas_ask, check_ask, wait_ask, write_ask};
use crate::state::State;
use crate::value::{Registers, value_of};
use pct_ask::{Ask, Post};
use script_code::{Code, Flat};
use script_tree::Stmt;

/// What comes next in a thread.
#[derive(Clone, Copy, Debug)]
pub(crate) enum Next {
    /// A post, which was put where posts are.
    Post,
    /// A local move.
    Move { line: u32 },
}

/// What comes first where a thread stands. A post is put in `post`.
pub(crate) fn turn_at(code: &Code, thread: u32, state: &State, post: &mut Post) -> Next
    requires thread { thread < length (listing code.now) }
    requires place { state.now.place < length (listing_of (listing code.now) thread) }
    ensures { let head = flat_head (listing_of (listing code.now) thread) (spot_of state.now) in
        told_turn result post.new ≡ turn_of head.0 head.1 }
{
    match code.flat(thread, state.place) {
        Flat::Do { stmt, .. } => lone_turn(stmt, &state.registers, state.halfway, post),
        Flat::Test { line, .. } => Next::Move { line: *line },
        Flat::End { line } => put(*line, None, post),
        Flat::Begin { line, .. } => put(*line, Some(Ask::Begin), post),
    }
}

// The post of this line: an ask, or none at a thread's end.
fn put(line: u32, ask: Option<Ask>, post: &mut Post) -> Next
    ensures { told_turn result post.new ≡ Posts (record { ask = ask; line = line }) }
{
    *post = Post { ask, line };
    Next::Post
}

// The line and the ask of a statement without blocks and expressions, whatever the registers hold.
fn plain_ask(stmt: &Stmt, halfway: bool) -> (u32, Ask)
    requires { has_no_expression (statement stmt.now) ≡ true }
    ensures { (registers : List ℤ)
        → turn_of (line_of (statement stmt.now)) (act [] registers halfway (statement stmt.now))
        ≡ Posts (record { ask = Some result.1; line = result.0 }) }
{
    match stmt {
        Stmt::Read { line, var, .. } => (*line, Ask::Read { var: *var }),
        Stmt::Lock { line, mutex } => (*line, Ask::Lock { mutex: *mutex }),
        Stmt::TryLock { line, mutex, .. } => (*line, Ask::TryLock { mutex: *mutex }),
        Stmt::Unlock { line, mutex } => (*line, Ask::Unlock { mutex: *mutex }),
        Stmt::Wait { line, cond, mutex } => (*line, wait_ask(*cond, *mutex, halfway)),
        Stmt::Signal { line, cond } => (*line, Ask::Signal { cond: *cond }),
        Stmt::Broadcast { line, cond } => (*line, Ask::Broadcast { cond: *cond }),
        Stmt::Down { line, sem } => (*line, Ask::Down { sem: *sem }),
        Stmt::TryDown { line, sem, .. } => (*line, Ask::TryDown { sem: *sem }),
        Stmt::Up { line, sem } => (*line, Ask::Up { sem: *sem }),
        Stmt::Arrive { line, barrier, .. } => (*line, arrive_ask(*barrier, halfway)),
        Stmt::Join { line, thread } => (*line, Ask::Join { thread: *thread }),
        Stmt::Yield { line } => (*line, Ask::Yield),
        Stmt::Start { line, thread } => (*line, Ask::Start { thread: *thread }),
        Stmt::RdLock { line, rwlock } => (*line, Ask::RdLock { rwlock: *rwlock }),
        Stmt::WrLock { line, rwlock } => (*line, Ask::WrLock { rwlock: *rwlock }),
        Stmt::TryRdLock { line, rwlock, .. } => (*line, Ask::TryRdLock { rwlock: *rwlock }),
        Stmt::TryWrLock { line, rwlock, .. } => (*line, Ask::TryWrLock { rwlock: *rwlock }),
        Stmt::RwUnlock { line, rwlock } => (*line, Ask::RwUnlock { rwlock: *rwlock }),
        Stmt::Write { .. } | Stmt::Add { .. } | Stmt::Cas { .. } => unreachable!(),
        Stmt::Assert { .. } | Stmt::Set { .. } => unreachable!(),
        Stmt::If { .. } | Stmt::While { .. } => unreachable!(),
    }
}

// What a statement without blocks does first.
fn lone_turn(stmt: &Stmt, registers: &Registers, halfway: bool, post: &mut Post) -> Next
    requires { is_lone (statement stmt.now) ≡ true }
    ensures { told_turn result post.new
        ≡ turn_of (line_of (statement stmt.now))
        (act [] registers.now halfway (statement stmt.now)) }
{
    match stmt {
        Stmt::Write { line, var, value } => put(
            *line,
            Some(write_ask(*var, value_of(value, registers))),
            post,
        ),
        Stmt::Add {
            line,
            var,
            value,
            ..
        } => put(*line, Some(add_ask(*var, value_of(value, registers))), post),
        Stmt::Cas {
            line,
            var,
            old,
            new,
            ..
        } => put(
            *line,
            Some(cas_ask(*var, value_of(old, registers), value_of(new, registers))),
            post,
        ),
        Stmt::Assert { line, test } => put(*line, Some(check_ask(value_of(test, registers))), post),
        Stmt::Set { line, .. } => Next::Move { line: *line },
        _ => {
            let (line, ask) = plain_ask(stmt, halfway);
            put(line, Some(ask), post)
        }
    }
}
