//! Runs a script again and again, for measuring, each time by the order of the next seed: its
//! threads are real threads, or the caller serves them.
#![tactic(auto)]

mod repeating;

use pct_outside::{HostShelf, Shelf};
use repeating::{Mode, steps_of};
use script_parse::SCRIPT_BYTES;
use std::process::ExitCode;
use std::sync::Wait;
use std::thread::Threads;
use std::{env, io};

/// One byte more than a script may have.
const READ_BYTES: u64 = SCRIPT_BYTES as u64 + 1;

/// How many steps `times` runs of the file's script have in all. `None` where one can't be made.
fn counted<R: AllocGlobal + Threads + Wait + Sync, H: Shelf>(
    rt: &R,
    shelf: &mut H,
    mode: &str,
    file: &str,
    times: &str,
) -> Option<u64> {
    let mode = Mode::of_word(mode)?;
    let times = times.parse::<u32>().ok()?;
    let bytes = shelf.read_up_to(file, READ_BYTES).ok()?;
    steps_of(rt, rt.alloc(), &bytes, mode, times).ok()?
}

/// `here FILE TIMES` or `threads FILE TIMES`.
fn main(rt: HostRuntime) -> io::Result<ExitCode> {
    // the first word is the program's own name
    let mut words = env::args(&rt)?.skip(1);
    let mut shelf = HostShelf::new(&rt);
    let steps = match (words.next(), words.next(), words.next(), words.next()) {
        (Some(mode), Some(file), Some(times), None) => {
            counted(
                &rt,
                &mut shelf,
                mode.as_str(),
                file.as_str(),
                times.as_str(),
            )
        }
        _ => None,
    };
    match steps {
        Some(steps) => {
            println!(rt; "{steps}")?;
            Ok(ExitCode::from(0))
        }
        None => {
            println!(rt; "usage: run_bench here|threads FILE TIMES")?;
            Ok(ExitCode::from(2))
        }
    }
}
