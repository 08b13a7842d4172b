ghost use Rattle.std.specs.Prelude.{◌≡◌, ◌<◌, true, length};
ghost use Rattle.script_code.specs.Listing.{listing};
ghost use Rattle.script_code.specs.Placed.{listing_of};
ghost use Rattle.script_code.specs.FlatPosts.{flat_head};
ghost use Rattle.script_body.specs.Spots.{spot_of};
ghost use Rattle.script_body.specs.Waiting.{is_waiting};

use crate::answer::take_answer;
use crate::settling::settle;
use crate::state::State;
use pct_ask::{Body, Post, REGISTER_COUNT};
use script_code::Code;

/// The body of a script's thread. It waits at an ask of its code, or at its end.
#[derive(Debug, Drop)]
pub struct ScriptBody<'c> {
    code: &'c Code,
    thread: u32,
    state: State,
    post: Post,
    ghost there: { thread < length (listing code.now) },
    ghost inside: { state.place < length (listing_of (listing code.now) thread) },
    ghost waits: { is_waiting (flat_head (listing_of (listing code.now) thread) (spot_of state)).1
        ≡ true },
}

impl<'c> ScriptBody<'c> {
    ghost use Rattle.std.specs.Prelude.{ℤ, List};
    ghost use Rattle.pct_ask.specs.declared.deal.Deal.{Deal};
    ghost use Rattle.script_tree.specs.ScriptText.{ScriptText};
    ghost use Rattle.script_tree.specs.Fitting.{IsScript};
    ghost use Rattle.script_tree.specs.DealOf.{IsDealOf};
    ghost use Rattle.script_tree.specs.Naming.{IsPostOf};
    ghost use Rattle.script_tree.specs.Posts.{pending};
    ghost use Rattle.script_code.specs.FlatPosts.{flat_pending};
    ghost use Rattle.script_code.specs.CodeOf.{IsCodeOf};
    ghost use Rattle.script_body.specs.BodyPosts.{pending_of_body};

    /// The body of a thread that has had no answer.
    pub fn new(code: &'c Code, thread: u32) -> Self
        requires { thread < length (listing code.now) }
        // What its code posts, after any answers.
        ensures code { (answers : List ℤ)
            → pending_of_body result answers
            ≡ flat_pending (listing_of (listing code.now) thread) answers }
        // Of the code of a script: what the script's thread posts.
        ensures script { (script : ScriptText) → IsCodeOf script (listing code.now)
            → (answers : List ℤ) → pending_of_body result answers ≡ pending script thread answers }
        // Of the code of a sound script: its posts name only what the script's deal has.
        ensures named { (script : ScriptText) (deal : Deal) → IsCodeOf script (listing code.now)
            → IsScript script → IsDealOf script deal → (answers : List ℤ)
            → IsPostOf deal (pending_of_body result answers) }
    {
        let mut state = State {
            place: 0,
            registers: [0; REGISTER_COUNT],
            halfway: false,
        };
        let mut post = Post { ask: None, line: 0 };
        settle(code, thread, &mut state, &mut post);
        ScriptBody {
            code,
            thread,
            state,
            post,
        }
    }
}

impl Body for ScriptBody<'_> {
    ghost use Rattle.script_body.specs.BodyPosts.{pending_of_body};

    ghost pending = { pending_of_body };

    fn post(&self) -> Post {
        self.post
    }

    fn answer(&mut self, value: i64) {
        take_answer(self.code, self.thread, &mut self.state, value);
        settle(self.code, self.thread, &mut self.state, &mut self.post);
    }
}
