use crate::samples::names_of;
use crate::traces::{OBJECTS, rewritten};
use pct_ask::{NameKind, Names};
use std::alloc::{AllocError as NoMemory, Global};
use std::fmt::Write;
use std::process::Abort;
use std::test::Fail;

/// What stands in a longest step line after its number.
const LONGEST: &str =
    " a_thread_of_exactly_32_character 4096 cas a_name_of_exactly_32_characters_ -9223372036854775808 -9223372036854775807 = 1\n";

/// The thread of the steps.
const THREAD: [(NameKind, &[u8]); 1] = [(NameKind::Thread, b"a_thread_of_exactly_32_character")];

/// As many steps as a run may have, each as long as a run's may be.
fn push_longest(text: &mut String) -> Result<(), NoMemory> {
    text.push_str("trace 1\norder a_thread_of_exactly_32_character\npoints\nlimit 100000\n")?;
    for step in 1..=100_000 {
        write!(text, "{step}{LONGEST}")?;
    }
    text.push_str("verdict cut\n")
}

fn expect_many(rt: &impl Abort, alloc: Global, names: &Names) -> Result<(), Fail> {
    let mut text = String::new(alloc);
    push_longest(&mut text)?;
    let again = rewritten(alloc, text.as_bytes(), names)?;
    assert!(rt; again.as_slice() == text.as_bytes());
    Ok(())
}

#[test]
fn many_steps(rt: HostRuntime) -> Result<(), Fail> {
    // With the six digits of its number a run's longest step line has 128 bytes.
    assert_eq!(rt; LONGEST.len(), 122);
    let names = names_of(&rt, rt.alloc(), &THREAD, &OBJECTS)?;
    let told = expect_many(&rt, rt.alloc(), &names);
    drop(names);
    told
}
