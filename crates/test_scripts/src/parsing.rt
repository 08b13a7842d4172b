// Texts as scripts, or their first faults.
mod texts;

use script_parse::{ScriptError, one_answer, parse, print_is_read};
use script_tree::print_script;
use std::alloc::{AllocError as NoMemory, Global};
use std::fmt::Write;
use std::process::Abort;
use std::test::Fail;
use texts::{EXPRESSIONS, LONG_TEXTS, NO_TEXTS, Parts, TEXTS, THREADS, VARIABLES, Want};

/// A text is a script, or has this first fault.
fn expect(rt: &impl Abort, alloc: Global, text: &[u8], want: Want, place: usize) {
    match parse(alloc, text) {
        Ok(script) => {
            drop(script);
            assert_eq!(rt; None, want, "text {place}")
        }
        Err(ScriptError::Bad { line, kind }) => {
            assert_eq!(rt; Some((line, kind)), want, "text {place}")
        }
        Err(ScriptError::NoMemory) => panic!(rt; "text {place}: no memory"),
    }
}

fn expect_texts(rt: &impl Abort, alloc: Global, texts: &[(&str, Want)]) {
    for (place, (text, want)) in texts.iter().enumerate() {
        expect(rt, alloc, text.as_bytes(), *want, place);
    }
}

#[test]
fn texts_have_their_answers(rt: HostRuntime) {
    expect_texts(&rt, rt.alloc(), &TEXTS);
}

fn expect_bytes(rt: &impl Abort, alloc: Global, texts: &[(&[u8], Want)]) {
    for (place, (text, want)) in texts.iter().enumerate() {
        expect(rt, alloc, text, *want, place);
    }
}

#[test]
fn bytes_that_are_no_text_have_their_answers(rt: HostRuntime) {
    expect_bytes(&rt, rt.alloc(), &NO_TEXTS);
}

fn push_repeated(out: &mut Vec<u8>, piece: &str, count: usize) -> Result<(), NoMemory> {
    for _ in 0..count {
        out.extend_from_slice(piece.as_bytes())?;
    }
    Ok(())
}

fn text_of(alloc: Global, parts: Parts) -> Result<Vec<u8>, NoMemory> {
    let mut text = Vec::new(alloc);
    for (piece, count) in parts {
        push_repeated(&mut text, piece, *count)?;
    }
    Ok(text)
}

fn expect_parts(rt: &impl Abort, alloc: Global, texts: &[(Parts, Want)]) -> Result<(), NoMemory> {
    for (place, (parts, want)) in texts.iter().enumerate() {
        expect(rt, alloc, &text_of(alloc, parts)?, *want, place);
    }
    Ok(())
}

#[test]
fn long_texts_have_their_answers(rt: HostRuntime) -> Result<(), Fail> {
    expect_parts(&rt, rt.alloc(), &LONG_TEXTS)?;
    Ok(())
}

/// A text of so many threads.
fn threads(alloc: Global, version: u32, count: u32, back: &str) -> Result<String, NoMemory> {
    let mut text = String::new(alloc);
    write!(text, "script {version}\n")?;
    for thread in 0..count {
        write!(text, "thread T{thread}\nend\n")?;
    }
    text.push_str(back)?;
    Ok(text)
}

fn expect_threads(
    rt: &impl Abort,
    alloc: Global,
    counts: &[(u32, u32, &str, Want)],
) -> Result<(), NoMemory> {
    for (place, (version, count, back, want)) in counts.iter().enumerate() {
        let text = threads(alloc, *version, *count, back)?;
        expect(rt, alloc, text.as_bytes(), *want, place);
    }
    Ok(())
}

/// A text of so many variables.
fn variables(alloc: Global, count: u32, back: &str) -> Result<String, NoMemory> {
    let mut text = String::from_str(alloc, "script 1\n")?;
    for var in 0..count {
        write!(text, "var v{var} = 0\n")?;
    }
    text.push_str(back)?;
    Ok(text)
}

fn expect_variables(
    rt: &impl Abort,
    alloc: Global,
    counts: &[(u32, &str, Want)],
) -> Result<(), NoMemory> {
    for (place, (count, back, want)) in counts.iter().enumerate() {
        let text = variables(alloc, *count, back)?;
        expect(rt, alloc, text.as_bytes(), *want, place);
    }
    Ok(())
}

#[test]
fn threads_and_objects_are_counted(rt: HostRuntime) -> Result<(), Fail> {
    expect_threads(&rt, rt.alloc(), &THREADS)?;
    expect_variables(&rt, rt.alloc(), &VARIABLES)?;
    Ok(())
}

/// Two producers, and one consumer, of a buffer of one place.
const BUFFER: &[u8] = b"\
script 1
var full = 0
mutex m
cond room
cond item
thread P1
  set r1 0
  while r1 < 2
    lock m
    read r0 full
    if r0 == 1
      wait room m
    end
    read r0 full
    assert r0 == 0
    write full 1
    signal item
    unlock m
    set r1 r1 + 1
  end
end
thread P2
  set r1 0
  while r1 < 2
    lock m
    read r0 full
    if r0 == 1
      wait room m
    end
    read r0 full
    assert r0 == 0
    write full 1
    signal item
    unlock m
    set r1 r1 + 1
  end
end
thread Q
  set r1 0
  while r1 < 4
    lock m
    read r0 full
    while r0 == 0
      wait item m
      read r0 full
    end
    write full 0
    signal room
    unlock m
    set r1 r1 + 1
  end
end
";

/// The same as it is printed.
const BUFFER_PRINTED: &[u8] = b"\
script 1
var full = 0
mutex m
cond room
cond item
thread P1
set r1 0
while (r1 < 2)
lock m
read r0 full
if (r0 == 1)
wait room m
end
read r0 full
assert (r0 == 0)
write full 1
signal item
unlock m
set r1 (r1 + 1)
end
end
thread P2
set r1 0
while (r1 < 2)
lock m
read r0 full
if (r0 == 1)
wait room m
end
read r0 full
assert (r0 == 0)
write full 1
signal item
unlock m
set r1 (r1 + 1)
end
end
thread Q
set r1 0
while (r1 < 4)
lock m
read r0 full
while (r0 == 0)
wait item m
read r0 full
end
write full 0
signal room
unlock m
set r1 (r1 + 1)
end
end
";

/// A text's script as it is shown, and as it is printed.
fn shown_and_printed(alloc: Global, text: &[u8]) -> Result<(String, Vec<u8>), Fail> {
    let script = parse(alloc, text)?;
    let shown = format!(in alloc; "{script:?}");
    let print = print_script(alloc, &script);
    drop(script);
    Ok((shown?, print?))
}

/// A text is parsed as a script that prints as `printed`, which is parsed as the same script. Its
/// lines are those of its print.
fn expect_print(rt: &impl Abort, alloc: Global, text: &[u8], printed: &[u8]) -> Result<(), Fail> {
    let (first, print) = shown_and_printed(alloc, text)?;
    assert_eq!(rt; print.as_slice(), printed);
    let (second, _) = shown_and_printed(alloc, &print)?;
    assert_eq!(rt; first.as_str(), second.as_str());
    Ok(())
}

fn expect_expressions(
    rt: &impl Abort,
    alloc: Global,
    expressions: &[(&str, &str)],
) -> Result<(), Fail> {
    for (source, printed) in expressions {
        let text = format!(in alloc; "script 1\nthread A\nassert {source}\nend\n")?;
        let print = format!(in alloc; "script 1\nthread A\nassert {printed}\nend\n")?;
        expect_print(rt, alloc, text.as_bytes(), print.as_bytes())?;
    }
    Ok(())
}

#[test]
fn expressions_group_by_strength(rt: HostRuntime) -> Result<(), Fail> {
    expect_expressions(&rt, rt.alloc(), &EXPRESSIONS)
}

#[test]
fn prints_are_parsed_as_the_same(rt: HostRuntime) -> Result<(), Fail> {
    expect_print(&rt, rt.alloc(), BUFFER, BUFFER_PRINTED)?;
    for pieces in [1, 100] {
        let text = large_script(rt.alloc(), pieces)?;
        expect_print(&rt, rt.alloc(), text.as_bytes(), text.as_bytes())?;
    }
    one_answer();
    print_is_read();
    Ok(())
}

/// One piece of a thread: a variable is raised, in every fourth piece under no mutex.
fn push_piece(out: &mut String, thread: u8, piece: u8) -> Result<(), NoMemory> {
    let object = (u32::from(thread) + u32::from(piece)) % 8;
    if piece % 4 == 0 {
        write!(
            out,
            "yield\nread r0 v{object}\nwrite v{object} (r0 + 1)\nyield\n"
        )
    } else {
        write!(
            out,
            "lock m{object}\nread r0 v{object}\nwrite v{object} (r0 + 1)\nunlock m{object}\n"
        )
    }
}

fn push_thread(out: &mut String, thread: u8, pieces: u8) -> Result<(), NoMemory> {
    write!(out, "thread T{thread}\n")?;
    for piece in 0..pieces {
        push_piece(out, thread, piece)?;
    }
    out.push_str("end\n")
}

fn push_objects(out: &mut String) -> Result<(), NoMemory> {
    for var in 0..8 {
        write!(out, "var v{var} = 0\n")?;
    }
    for mutex in 0..8 {
        write!(out, "mutex m{mutex}\n")?;
    }
    Ok(())
}

/// The thread that joins the others, and sums the variables up.
fn push_sum(out: &mut String, sum: u32) -> Result<(), NoMemory> {
    out.push_str("thread Z\n")?;
    for thread in 0..8 {
        write!(out, "join T{thread}\n")?;
    }
    for var in 0..8 {
        write!(out, "read r0 v{var}\nset r1 (r1 + r0)\n")?;
    }
    write!(out, "assert (r1 == {sum})\nend\n")
}

/// A script of eight threads of so many pieces, in its canonical layout, and of one that checks
/// what they did.
fn large_script(alloc: Global, pieces: u8) -> Result<String, NoMemory> {
    let mut text = String::from_str(alloc, "script 1\n")?;
    push_objects(&mut text)?;
    for thread in 0..8 {
        push_thread(&mut text, thread, pieces)?;
    }
    push_sum(&mut text, 8 * u32::from(pieces))?;
    Ok(text)
}
