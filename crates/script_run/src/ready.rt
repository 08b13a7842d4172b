//! A script ready to run, and the tests that are made of it.

ghost use Rattle.script_tree.specs.ScriptText.{ScriptText};
ghost use Rattle.script_code.specs.Listing.{listing};
ghost use Rattle.script_body.specs.Bodies.{AreOf};

use pct_ask::{Deal, Limit};
use policy_pick::Policy;
use script_body::{ScriptBody, bodies_of};
use script_code::Code;
use std::alloc::{AllocError as NoMemory, Global};
use worker_run::Test;

/// A script ready to run: the code of its threads, and what they share.
#[derive(Clone, Copy)]
pub struct ReadyScript<'a> {
    pub code: &'a Code,
    pub deal: &'a Deal,
    pub ghost script: { ∥ ((script : ScriptText) × AreOf script (listing code.now) deal.now) ∥₁ },
}

impl<'a> ReadyScript<'a> {
    ghost use Rattle.std.specs.Prelude.{[], IfOk};
    ghost use Rattle.policy_pick.specs.Plan.{SpeaksOf};
    ghost use Rattle.script_body.specs.BodyPosts.{pending_of_body};
    ghost use Rattle.worker_run.specs.Tests.{IsTest, IsRunBy};
    ghost use Rattle.script_run.specs.Ready.{bodies_of_code};
    ghost use Rattle.script_run.specs.Tests.{Tries};

    /// The test of a policy, whose run has at most `limit` steps.
    pub fn test<P: Policy>(
        &self,
        alloc: Global,
        policy: P,
        limit: Limit,
    ) -> Result<Test<P, ScriptBody<'a>>, NoMemory>
        requires stands { P.stands policy [] }
        requires speaks { SpeaksOf (P.plan policy) self.now.deal.now.threads }
        ensures asked { IfOk result (λ test. IsTest pending_of_body P.plan P.stands test) }
        // Its run is what the policy makes of what the script's threads post.
        ensures run { IfOk result (Tries pending_of_body P.plan
            (IsRunBy (P.plan policy) self.now.deal.now
            (bodies_of_code (listing self.now.code.now)) limit)) }
    {
        let bodies = bodies_of(alloc, self.code)?;
        let deal = self.deal.copy(alloc)?;
        Ok(Test {
            deal,
            policy,
            limit,
            bodies,
        })
    }
}
