//! The scripts of the tests.
ghost use Rattle.std.specs.Prelude.{IfOk};
ghost use Rattle.script_tree.specs.ScriptText.{ScriptText};
ghost use Rattle.script_code.specs.Listing.{listing};
ghost use Rattle.script_body.specs.Bodies.{AreOf};

use pct_ask::{Deal, Verdict};
use policy_pick::Moment;
use script_code::{Code, compile};
use script_parse::parse;
use std::alloc::Global;
use std::test::Fail;

/// Two threads each add one to x, and the third, which waits for both, wants 2.
pub(crate) const ADDERS: &[u8] = b"script 1\nvar x = 0\n\
    thread A\n  read r0 x\n  write x r0 + 1\nend\n\
    thread B\n  read r0 x\n  write x r0 + 1\nend\n\
    thread C\n  join A\n  join B\n  read r0 x\n  assert r0 == 2\nend\n";

/// The third thread of the adders doesn't read 2.
pub(crate) const FAILED: Verdict = Verdict::Failed {
    thread: 2,
    line: 15,
};

pub(crate) const FIRST_OF_A: Moment = Moment {
    thread: 0,
    number: 1,
};

/// The first thread fails where it comes after both of the two that add to x.
pub(crate) const LAST_FAILS: &[u8] = b"script 1\nvar x = 0\n\
    thread A\n  read r0 x\n  assert r0 < 2\nend\n\
    thread B\n  add r0 x 1\nend\n\
    thread C\n  add r0 x 1\nend\n\
    thread D\nend\n";

/// No thread of these does anything.
pub(crate) const ONE: &[u8] = b"script 1\nthread A\nend\n";

pub(crate) const SEVEN: &[u8] = b"script 1\nthread T1\nend\nthread T2\nend\nthread T3\nend\n\
    thread T4\nend\nthread T5\nend\nthread T6\nend\nthread T7\nend\n";

pub(crate) const EIGHT: &[u8] = b"script 1\nthread T1\nend\nthread T2\nend\nthread T3\nend\n\
    thread T4\nend\nthread T5\nend\nthread T6\nend\nthread T7\nend\nthread T8\nend\n";

/// A text's code, and what its threads share.
pub(crate) fn code_and_deal(alloc: Global, text: &[u8]) -> Result<(Code, Deal), Fail>
    ensures { IfOk result (λ made. (script : ScriptText) × AreOf script (listing made.0) made.1) }
{
    let script = parse(alloc, text)?;
    let code = compile(alloc, &script);
    let deal = script.deal(alloc);
    drop(script);
    Ok((code?, deal?))
}
