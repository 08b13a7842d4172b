ghost use Rattle.std.specs.Prelude.{◌≡◌, ◌<◌, length, Some};
ghost use Rattle.script_code.specs.Listing.{listing};
ghost use Rattle.script_code.specs.Placed.{listing_of};
ghost use Rattle.script_body.specs.Spots.{spot_of};
ghost use Rattle.script_body.specs.Waiting.{Settles, spot_after_fault};

use crate::moving::make_move;
use crate::state::State;
use crate::turn::{Next, turn_at};
use pct_ask::{Ask, FaultKind, Post};
use script_code::Code;

/// How many local moves a thread makes between two asks at most.
const MOST_MOVES: u32 = 10_000;

/// Makes the local moves of a thread, up to its next post, which is put in `post`. After a fault it
/// stands at its end.
pub(crate) fn settle(code: &Code, thread: u32, state: &mut State, post: &mut Post)
    requires thread { thread < length (listing code.now) }
    requires place { state.old.place < length (listing_of (listing code.now) thread) }
    ensures { Settles (listing_of (listing code.now) thread) (spot_of state.old) (spot_of state.new)
        post.new }
{
    for _ in 0..MOST_MOVES {
        match turn_at(code, thread, state, post) {
            Next::Post => return stop(code, thread, state, post),
            Next::Move { line } => {
                if let Err(kind) = make_move(code, thread, state) {
                    *post = fault(line, kind);
                    return stop(code, thread, state, post);
                }
            }
        }
    }
    match turn_at(code, thread, state, post) {
        Next::Post => stop(code, thread, state, post),
        Next::Move { line } => {
            *post = fault(line, FaultKind::Spin);
            stop(code, thread, state, post);
        }
    }
}

fn fault(line: u32, kind: FaultKind) -> Post
    ensures { result ≡ record { ask = Some (Ask.Fault kind); line = line } }
{
    Post {
        ask: Some(Ask::Fault { kind }),
        line,
    }
}

// A thread that has this post stops where it stands. A fault takes it to its end.
fn stop(code: &Code, thread: u32, state: &mut State, post: &Post)
    requires thread { thread < length (listing code.now) }
    ensures { spot_of state.new
        ≡ spot_after_fault (listing_of (listing code.now) thread) post.now.ask (spot_of state.old) }
{
    if let Some(Ask::Fault { .. }) = post.ask {
        state.go(code.end(thread));
    }
}
