ghost use Rattle.std.specs.Prelude.{◌≡◌, ◌≤◌, IfOk};
ghost use Rattle.script_tree.specs.Seen.{block};
ghost use Rattle.script_tree.specs.Fitting.{counts_of};
ghost use Rattle.script_tree.specs.ScriptParts.{thread_text};
ghost use Rattle.script_tree.specs.ScriptSeen.{plain_script};
ghost use Rattle.script_code.specs.Operations.{operations};
ghost use Rattle.script_code.specs.Layout.{begin_operations, thread_code};
ghost use Rattle.script_code.specs.Listing.{listing};
ghost use Rattle.script_code.specs.CodeOf.{IsCodeOf};
ghost use Rattle.pct_ask.specs.declared.limits.TheConstants.{MAX_LINES};

use crate::code::Code;
use crate::counting::counts_of;
use crate::emit::emit_block;
use crate::flat::{Flat, FlatList};
use crate::held::mark_all_started;
use pct_ask::{MAX_THREADS, Sequence};
use script_tree::{Script, ThreadText};
use std::alloc::{AllocError as NoMemory, Global};

/// The code of a script: each thread posts what the script's thread does, whatever its answers.
pub fn compile(alloc: Global, script: &Script) -> Result<Code, NoMemory>
    ensures { IfOk result (λ code. IsCodeOf (plain_script script.now) (listing code)) }
{
    let mut held = [false; MAX_THREADS];
    for started in &script.threads {
        mark_all_started(&mut held, &started.body);
    }
    let mut threads = Sequence::new(alloc);
    for (t, text) in script.threads.iter().enumerate() {
        threads.try_push(compile_thread(alloc, text, held[t])?)?;
    }
    Ok(Code { threads })
}

// The operations of a thread's text.
fn compile_thread(alloc: Global, text: &ThreadText, held: bool) -> Result<FlatList, NoMemory>
    requires { counts_of (block text.now.body) ≤ MAX_LINES }
    ensures { IfOk result (λ list. operations list ≡ thread_code held (thread_text text.now)) }
{
    let mut ops = begin(alloc, text.line, held)?;
    let end = ops.len() as u32 + counts_of(&text.body);
    emit_block(alloc, &mut ops, &text.body, end)?;
    ops.push(Flat::End {
        line: text.body.end_line,
    })?;
    Ok(Sequence::from_vec(ops))
}

// What stands before a thread's statements.
fn begin(alloc: Global, line: u32, held: bool) -> Result<Vec<Flat>, NoMemory>
    ensures { IfOk result (λ ops. operations ops.items ≡ begin_operations held line) }
{
    let mut ops = Vec::new(alloc);
    if held {
        ops.push(Flat::Begin { line, next: 1 })?;
    }
    Ok(ops)
}
