ghost use Rattle.std.specs.Prelude.{◌≡◌, ◌≤◌, ◌<◌, ◌++◌, ◌∷◌, [], true, length, map, IfOk, OnOk};
ghost use Rattle.pct_ask.specs.Lines.{lines_of};
ghost use Rattle.pct_ask.specs.NameLists.{no_names};
ghost use Rattle.script_tree.specs.Trees as trees;
ghost use Rattle.script_tree.specs.Seen.{expression, statement, statements};
ghost use Rattle.script_tree.specs.ScriptParts as parts;
ghost use Rattle.script_tree.specs.ScriptSeen.{plain_script};
ghost use Rattle.script_tree.specs.Layout.{layout};
ghost use Rattle.script_tree.specs.Grammar.{Spells};
ghost use Rattle.script_tree.specs.Renumbering.{renumbered_script};
ghost use Rattle.large_script.specs.Large.{large_names, with_names, may_add, add_one};
ghost use Rattle.large_script.specs.Large.{open_piece, locked_piece, piece, pieces, joins_of, sums};
ghost use Rattle.large_script.specs.Large.{last_checks, unset_thread, large_script};

use pct_ask::{NameKind, Names, NumberList};
use script_tree::{Block, Expr, Op, Script, Stmt, ThreadText, print_script};
use std::alloc::{AllocError as NoMemory, Global};

/// The line of a statement that is not printed yet.
const UNPRINTED: u32 = 1;

const VARS: [&[u8]; 8] = [b"v0", b"v1", b"v2", b"v3", b"v4", b"v5", b"v6", b"v7"];

const MUTEXES: [&[u8]; 8] = [b"m0", b"m1", b"m2", b"m3", b"m4", b"m5", b"m6", b"m7"];

const THREADS: [&[u8]; 9] = [b"T0", b"T1", b"T2", b"T3", b"T4", b"T5", b"T6", b"T7", b"Z"];

fn two(alloc: Global, op: Op, left: Expr, right: Expr) -> Result<Expr, NoMemory>
    ensures { IfOk result (λ e. expression e ≡ trees.Two op (expression left) (expression right)) }
{
    Ok(Expr::Two(op, Box::new(alloc, left)?, Box::new(alloc, right)?))
}

fn push(stmt: Stmt, stmts: &mut Vec<Stmt>) -> Result<(), NoMemory>
    ensures { OnOk result
        (statements stmts.new.items ≡ statements stmts.old.items ++ statement stmt ∷ []) }
{
    Ok(stmts.push(stmt)?)
}

/// Adds one to a variable by way of register 0.
fn push_added_one(alloc: Global, var: u32, stmts: &mut Vec<Stmt>) -> Result<(), NoMemory>
    ensures { OnOk result
        (statements stmts.new.items ≡ statements stmts.old.items ++ add_one var) }
{
    let value = two(alloc, Op::Plus, Expr::Reg(0), Expr::Number(1))?;
    let read = Stmt::Read {
        line: UNPRINTED,
        reg: 0,
        var,
    };
    push(read, stmts)?;
    let write = Stmt::Write {
        line: UNPRINTED,
        var,
        value,
    };
    push(write, stmts)
}

/// A piece that takes no mutex.
fn push_open_piece(alloc: Global, var: u32, stmts: &mut Vec<Stmt>) -> Result<(), NoMemory>
    ensures { OnOk result
        (statements stmts.new.items ≡ statements stmts.old.items ++ open_piece var) }
{
    push(Stmt::Yield { line: UNPRINTED }, stmts)?;
    push_added_one(alloc, var, stmts)?;
    push(Stmt::Yield { line: UNPRINTED }, stmts)
}

/// A piece under the mutex of the variable's number.
fn push_locked_piece(alloc: Global, var: u32, stmts: &mut Vec<Stmt>) -> Result<(), NoMemory>
    ensures { OnOk result
        (statements stmts.new.items ≡ statements stmts.old.items ++ locked_piece var) }
{
    let lock = Stmt::Lock {
        line: UNPRINTED,
        mutex: var,
    };
    push(lock, stmts)?;
    push_added_one(alloc, var, stmts)?;
    let unlock = Stmt::Unlock {
        line: UNPRINTED,
        mutex: var,
    };
    push(unlock, stmts)
}

/// The piece of a place in a thread's text, both from 0.
fn push_piece(alloc: Global, thread: u32, place: u32, stmts: &mut Vec<Stmt>) -> Result<(), NoMemory>
    requires thread { thread < 8 }
    requires place { place < 100 }
    ensures { OnOk result
        (statements stmts.new.items ≡ statements stmts.old.items ++ piece thread place) }
{
    let var = (thread + place) % 8;
    if place % 4 == 0 {
        push_open_piece(alloc, var, stmts)
    } else {
        push_locked_piece(alloc, var, stmts)
    }
}

fn thread_text(stmts: Vec<Stmt>) -> ThreadText
    ensures { parts.thread_text result ≡ unset_thread (statements stmts.items) }
{
    ThreadText {
        line: UNPRINTED,
        body: Block {
            stmts,
            end_line: UNPRINTED,
        },
    }
}

/// A thread of `many` pieces.
fn worker(alloc: Global, thread: u32, many: u32) -> Result<ThreadText, NoMemory>
    requires thread { thread < 8 }
    requires many { many ≤ 100 }
    ensures { IfOk result (λ t. parts.thread_text t ≡ unset_thread (pieces thread many)) }
{
    let mut stmts = Vec::new(alloc);
    for place in 0..many {
        push_piece(alloc, thread, place, &mut stmts)?;
    }
    Ok(thread_text(stmts))
}

fn push_joins(stmts: &mut Vec<Stmt>) -> Result<(), NoMemory>
    ensures { OnOk result (statements stmts.new.items ≡ statements stmts.old.items ++ joins_of 8) }
{
    for thread in 0..8u32 {
        let join = Stmt::Join {
            line: UNPRINTED,
            thread,
        };
        push(join, stmts)?;
    }
    Ok(())
}

fn push_sums(alloc: Global, stmts: &mut Vec<Stmt>) -> Result<(), NoMemory>
    ensures { OnOk result (statements stmts.new.items ≡ statements stmts.old.items ++ sums 8) }
{
    for var in 0..8u32 {
        let read = Stmt::Read {
            line: UNPRINTED,
            reg: 0,
            var,
        };
        push(read, stmts)?;
        let set = Stmt::Set {
            line: UNPRINTED,
            reg: 1,
            value: two(alloc, Op::Plus, Expr::Reg(1), Expr::Reg(0))?,
        };
        push(set, stmts)?;
    }
    Ok(())
}

/// The last thread: it joins the others, adds the variables up and looks at the sum.
fn checker(alloc: Global, many: u32) -> Result<ThreadText, NoMemory>
    requires { many ≤ 100 }
    ensures { IfOk result (λ t. parts.thread_text t ≡ unset_thread (last_checks many)) }
{
    let mut stmts = Vec::new(alloc);
    push_joins(&mut stmts)?;
    push_sums(alloc, &mut stmts)?;
    let whole = Expr::Number(8 * i64::from(many));
    let assert = Stmt::Assert {
        line: UNPRINTED,
        test: two(alloc, Op::Eq, Expr::Reg(1), whole)?,
    };
    push(assert, &mut stmts)?;
    Ok(thread_text(stmts))
}

fn threads(alloc: Global, many: u32) -> Result<Vec<ThreadText>, NoMemory>
    requires { many ≤ 100 }
    ensures { IfOk result (λ ts. map parts.thread_text ts.items ≡ (large_script many).threads) }
{
    let mut threads = Vec::new(alloc);
    for thread in 0..8 {
        let text = worker(alloc, thread, many)?;
        threads.push(text)?;
    }
    let last = checker(alloc, many)?;
    threads.push(last)?;
    Ok(threads)
}

/// Adds names of a kind, one after another.
fn add_all(
    alloc: Global,
    kind: NameKind,
    words: &[&[u8]],
    names: &mut Names,
) -> Result<(), NoMemory>
    requires { may_add kind (map (λ word. word.now) words.now) names.old ≡ true }
    ensures { OnOk result
        (names.new ≡ with_names kind (map (λ word. word.now) words.now) names.old) }
{
    for word in words {
        names.add(alloc, kind, word)?;
    }
    Ok(())
}

fn add_names(alloc: Global, names: &mut Names) -> Result<(), NoMemory>
    requires { names.old ≡ no_names }
    ensures { OnOk result (names.new ≡ large_names) }
{
    add_all(alloc, NameKind::Var, &VARS, names)?;
    add_all(alloc, NameKind::Mutex, &MUTEXES, names)?;
    add_all(alloc, NameKind::Thread, &THREADS, names)
}

fn names(alloc: Global) -> Result<Names, NoMemory>
    ensures { IfOk result (λ names. names ≡ large_names) }
{
    let mut names = Names::new(alloc);
    add_names(alloc, &mut names)?;
    Ok(names)
}

/// The large script, whose threads have `many` pieces each, at most 100.
pub fn large_script(alloc: Global, many: u32) -> Result<Script, NoMemory>
    requires { many ≤ 100 }
    ensures { IfOk result (λ script. plain_script script ≡ large_script many) }
{
    let threads = threads(alloc, many)?;
    let vars = vec![in alloc; 0; 8]?;
    Ok(Script {
        version: 1,
        names: names(alloc)?,
        vars: NumberList::from_vec(vars),
        sems: NumberList::new(alloc),
        barriers: NumberList::new(alloc),
        threads,
    })
}

/// The large script as a text, which spells it with the lines that its statements have there.
pub fn print_large(alloc: Global, many: u32) -> Result<Vec<u8>, NoMemory>
    requires { many ≤ 100 }
    ensures layout { IfOk result (λ bytes. bytes.items ≡ layout (large_script many)) }
    ensures spelled { IfOk result
        (λ bytes. Spells bytes.items (renumbered_script (large_script many))) }
{
    print_script(alloc, &large_script(alloc, many)?)
}

/// How many lines the text of the large script has.
pub fn line_count(many: u32) -> u32
    requires { many ≤ 100 }
    ensures { result ≡ length (lines_of (layout (large_script many))) }
{
    32 * many + 60
}
