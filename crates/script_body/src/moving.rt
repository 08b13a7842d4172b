ghost use Rattle.std.specs.Prelude.{◌≡◌, ◌<◌, true, [], length, Ok, Err, OnOk, OnErr, IfErr};
ghost use Rattle.script_tree.specs.Seen.{statement};
ghost use Rattle.script_tree.specs.Machine.{Moves};
ghost use Rattle.script_tree.specs.Moves.{act, state_before};
ghost use Rattle.script_code.specs.Listing.{listing};
ghost use Rattle.script_code.specs.Placed.{listing_of, is_lone};
ghost use Rattle.script_code.specs.FlatPosts.{spot, flat_head};
ghost use Rattle.script_body.specs.Spots.{spot_of};
ghost use Rattle.script_body.specs.Turns.{is_move};

use crate::state::State;
use crate::value::value_of;
use pct_ask::FaultKind;
use script_code::{Code, Flat};
use script_tree::Stmt;

/// Makes the local move that comes first. An `Err` leaves the thread where it stood.
pub(crate) fn make_move(code: &Code, thread: u32, state: &mut State) -> Result<(), FaultKind>
    requires thread { thread < length (listing code.now) }
    requires place { state.old.place < length (listing_of (listing code.now) thread) }
    requires local { is_move
        (flat_head (listing_of (listing code.now) thread) (spot_of state.old)).1
        ≡ true }
    ensures moved { OnOk result
        ((flat_head (listing_of (listing code.now) thread) (spot_of state.old)).1
        ≡ Moves (Ok (spot_of state.new))) }
    ensures fault { IfErr result (λ kind.
        (flat_head (listing_of (listing code.now) thread) (spot_of state.old)).1
        ≡ Moves (Err kind)) }
    ensures inside { state.new.place < length (listing_of (listing code.now) thread) }
{
    match code.flat(thread, state.place) {
        Flat::Test {
            test,
            next,
            otherwise,
            ..
        } => {
            let n = value_of(test, &state.registers)?;
            state.go(if n != 0 { *next } else { *otherwise });
            Ok(())
        }
        Flat::Do { stmt, next } => set(stmt, *next, state),
        Flat::End { .. } | Flat::Begin { .. } => unreachable!(),
    }
}

// Makes the move of a `set`.
fn set(stmt: &Stmt, next: u32, state: &mut State) -> Result<(), FaultKind>
    requires lone { is_lone (statement stmt.now) ≡ true }
    requires local { is_move (act [] state.old.registers state.old.halfway (statement stmt.now))
        ≡ true }
    ensures moved { OnOk result
        (act [] state.old.registers state.old.halfway (statement stmt.now)
        ≡ Moves (Ok (state_before [] state.new.registers))) }
    ensures next { OnOk result (spot_of state.new ≡ spot next state.new.registers) }
    ensures fault { IfErr result (λ kind.
        act [] state.old.registers state.old.halfway (statement stmt.now) ≡ Moves (Err kind)) }
    ensures unchanged { OnErr result (state.new ≡ state.old) }
{
    match stmt {
        Stmt::Set { reg, value, .. } => {
            let n = value_of(value, &state.registers)?;
            state.registers[*reg as usize] = n;
            state.go(next);
            Ok(())
        }
        _ => unreachable!(),
    }
}
