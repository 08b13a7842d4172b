//! A script, ready to be run.

ghost use Rattle.std.specs.Prelude.{◌≡◌, IfOk};
ghost use Rattle.script_tree.specs.ScriptSeen.{plain_script};
ghost use Rattle.script_code.specs.Listing.{listing};
ghost use Rattle.script_body.specs.Bodies.{AreOf};
ghost use Rattle.script_body.proofs.laws.OneWay.{are_of-prop};

use pct_ask::Deal;
use script_code::{Code, compile};
use script_tree::Script;
use std::alloc::{AllocError as NoMemory, Global};

/// A script with its code and what its threads share.
#[derive(Debug, Drop)]
pub struct ReadyTest {
    pub script: Script,
    pub code: Code,
    pub deal: Deal,
    ghost is_ready: { AreOf (plain_script script) (listing code) deal } by { are_of-prop },
}

/// A script's code, and what its threads share.
fn parts_of(alloc: Global, script: &Script) -> Result<(Code, Deal), NoMemory>
    ensures { IfOk result
        (λ parts. AreOf (plain_script script.now) (listing parts.0) parts.1) }
{
    let deal = script.deal(alloc)?;
    let code = compile(alloc, script)?;
    Ok((code, deal))
}

impl ReadyTest {
    pub fn of_script(alloc: Global, script: Script) -> Result<Self, NoMemory>
        ensures { IfOk result (λ test. plain_script test.script ≡ plain_script script) }
    {
        match parts_of(alloc, &script) {
            Ok((code, deal)) => Ok(ReadyTest { script, code, deal }),
            Err(NoMemory) => {
                drop(script);
                Err(NoMemory)
            }
        }
    }
}
