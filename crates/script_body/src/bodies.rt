// The bodies of all threads of a script's code.
ghost use Rattle.std.specs.Prelude.{◌≡◌, length, map, IfOk};
ghost use Rattle.pct_ask.specs.declared.deal.Deal.{Deal};
ghost use Rattle.pct_ask.specs.Objects.{sizes_of_deal};
ghost use Rattle.pct_ask.specs.Bodies.{AreInRange};
ghost use Rattle.script_tree.specs.ScriptText.{ScriptText};
ghost use Rattle.script_code.specs.CodeOf.{IsCodeOf};
ghost use Rattle.script_code.specs.FlatPosts.{flat_pending};
ghost use Rattle.script_code.specs.Listing.{listing};
ghost use Rattle.script_body.specs.BodyPosts.{pending_of_body};
ghost use Rattle.script_body.specs.Bodies.{bodies_of, AreOf};

use crate::ScriptBody;
use script_code::Code;
use std::alloc::{AllocError as NoMemory, Global};

/// The bodies of a script's threads, none of which has had an answer.
pub fn bodies_of<'c>(alloc: Global, code: &'c Code) -> Result<Vec<ScriptBody<'c>>, NoMemory>
    ensures code { IfOk result (λ bodies.
        map pending_of_body bodies.items ≡ map flat_pending (listing code.now)) }
    // Of the code of a script: what the script's threads post.
    ensures script { (script : ScriptText) → IsCodeOf script (listing code.now)
        → IfOk result (λ bodies. map pending_of_body bodies.items ≡ bodies_of script) }
    // With a deal of that script: they are one for each of its threads, and name only what it has.
    ensures one_each { (script : ScriptText) (deal : Deal) → AreOf script (listing code.now) deal
        → IfOk result (λ bodies. length bodies.items ≡ deal.threads) }
    ensures in_range { (script : ScriptText) (deal : Deal) → AreOf script (listing code.now) deal
        → IfOk result
        (λ bodies. AreInRange (sizes_of_deal deal) (map pending_of_body bodies.items)) }
{
    let mut bodies = Vec::with_capacity(alloc, code.threads() as usize)?;
    for thread in 0..code.threads() {
        bodies.push_reserved(ScriptBody::new(code, thread));
    }
    Ok(bodies)
}
