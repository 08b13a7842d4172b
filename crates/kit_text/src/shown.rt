use failure_rank::Groups;
use pct_ask::{Blocked, FaultKind, MAX_THREADS, MisuseKind, NameKind, Names, Verdict};
use std::fmt::{Display, Formatter, Write};
use std::{fmt, str};

/// A verdict as a text: its word, and its threads with their lines. A thread that has no name is
/// told by its number, from 0, behind a `#`.
#[derive(Clone, Copy)]
pub struct ShownVerdict<'a> {
    pub verdict: &'a Verdict,
    pub names: &'a Names,
}

/// A thread as a text: its name, or where it has none its number, from 0, behind a `#`.
#[derive(Clone, Copy)]
pub struct ShownThread<'a> {
    pub thread: u32,
    pub names: &'a Names,
}

/// A thread and its line.
#[derive(Clone, Copy)]
struct ShownPlace<'a> {
    names: &'a Names,
    thread: u32,
    line: u32,
}

/// The threads that can't go on, in rising order.
#[derive(Clone, Copy)]
struct Places<'a> {
    names: &'a Names,
    blocked: &'a Blocked,
}

fn misuse_word(kind: MisuseKind) -> &'static str {
    match kind {
        MisuseKind::NotOwner => "notowner",
        MisuseKind::SemFull => "semfull",
        MisuseKind::AlreadyStarted => "alreadystarted",
        MisuseKind::TooManyReads => "toomanyreads",
    }
}

fn fault_word(kind: FaultKind) -> &'static str {
    match kind {
        FaultKind::Overflow => "overflow",
        FaultKind::ZeroDivisor => "zerodivisor",
        FaultKind::Spin => "spin",
    }
}

/// The name of a thread, where it has one.
fn name_of(names: &Names, thread: u32) -> Option<&str> {
    let name = names.name(NameKind::Thread, thread)?;
    str::from_utf8(name).ok()
}

impl Display for ShownThread<'_> {
    fn fmt<W: Write>(&self, f: &mut Formatter<W>) -> fmt::Result {
        let thread = self.thread;
        match name_of(self.names, thread) {
            Some(name) => write!(f, "{name}"),
            None => write!(f, "#{thread}"),
        }
    }
}

impl Display for ShownPlace<'_> {
    fn fmt<W: Write>(&self, f: &mut Formatter<W>) -> fmt::Result {
        let line = self.line;
        let thread = ShownThread {
            thread: self.thread,
            names: self.names,
        };
        write!(f, " {thread} {line}")
    }
}

impl Display for Places<'_> {
    fn fmt<W: Write>(&self, f: &mut Formatter<W>) -> fmt::Result {
        let names = self.names;
        for thread in 0..MAX_THREADS as u32 {
            if let Some(line) = self.blocked.get(thread) {
                let place = ShownPlace {
                    names,
                    thread,
                    line,
                };
                write!(f, "{place}")?;
            }
        }
        Ok(())
    }
}

impl<'a> ShownVerdict<'a> {
    fn place(&self, thread: u32, line: u32) -> ShownPlace<'a> {
        ShownPlace {
            names: self.names,
            thread,
            line,
        }
    }
}

impl Display for ShownVerdict<'_> {
    fn fmt<W: Write>(&self, f: &mut Formatter<W>) -> fmt::Result {
        match self.verdict {
            Verdict::Passed => write!(f, "passed"),
            Verdict::Failed { thread, line } => write!(f, "failed{}", self.place(*thread, *line)),
            Verdict::Stuck { blocked } => {
                let names = self.names;
                let places = Places { names, blocked };
                write!(f, "stuck{places}")
            }
            Verdict::Misuse { thread, line, kind } => {
                let place = self.place(*thread, *line);
                write!(f, "misuse{place} {}", misuse_word(*kind))
            }
            Verdict::Fault { thread, line, kind } => {
                let place = self.place(*thread, *line);
                write!(f, "fault{place} {}", fault_word(*kind))
            }
            Verdict::Cut => write!(f, "cut"),
        }
    }
}

/// The failures of a campaign as a text, a line for each: how many runs had it, the fewest steps of
/// one, the seed of the first one, and the verdict.
#[derive(Clone, Copy)]
pub struct ShownGroups<'a> {
    pub groups: &'a Groups,
    pub names: &'a Names,
}

impl Display for ShownGroups<'_> {
    fn fmt<W: Write>(&self, f: &mut Formatter<W>) -> fmt::Result {
        let names = self.names;
        for group in self.groups.as_slice() {
            let verdict = ShownVerdict {
                verdict: &group.verdict,
                names,
            };
            writeln!(
                f,
                "{} {} {} {verdict}",
                group.count, group.steps, group.first
            )?;
        }
        Ok(())
    }
}
