//! A gate at which two threads of each run meet, handed to each command: it makes so many runs,
//! each with its threads at once.
use crate::calls::{ADDERS, DIRECTIVE, SUM, words_of};
use pct_outside::{Gate, MemoryShelf, MemorySink};
use pct_top::pct;
use std::alloc::Global;
use std::process::Abort;
use std::sync::Wait;
use std::sync::atomic::{AtomicU64, Ordering};
use std::test::Fail;
use std::thread::{Threads, yield_now};

const LOOKS: u64 = 10_000_000;

/// Counts first arrivals, those with turn 0, of all threads. One of the two threads that comes to
/// its n-th run looks until the other has, and notes that it has seen it.
#[derive(Drop)]
struct CountingGate {
    pair: (u32, u32),
    first: AtomicU64,
    second: AtomicU64,
    arrivals: AtomicU64,
    seen: AtomicU64,
}

impl CountingGate {
    fn new(one: u32, other: u32) -> CountingGate {
        CountingGate {
            pair: (one, other),
            first: AtomicU64::new(0),
            second: AtomicU64::new(0),
            arrivals: AtomicU64::new(0),
            seen: AtomicU64::new(0),
        }
    }

    fn meet(&self, own: &AtomicU64, other: &AtomicU64) {
        let before = own.fetch_add(1, Ordering::SeqCst);
        for _ in 0..LOOKS {
            if other.load(Ordering::SeqCst) > before {
                self.seen.fetch_add(1, Ordering::SeqCst);
                return;
            }
            yield_now();
        }
    }
}

impl Gate for CountingGate {
    fn arrive(&self, thread: u32, turn: u64) {
        if turn != 0 {
            return;
        }
        self.arrivals.fetch_add(1, Ordering::SeqCst);
        if thread == self.pair.0 {
            self.meet(&self.first, &self.second);
        } else if thread == self.pair.1 {
            self.meet(&self.second, &self.first);
        }
    }
}

/// A call with a script, a second file, and a gate at which two threads meet: it makes so many runs
/// of so many threads, and in each the two see each other.
fn expect_runs<R: Abort + Threads + Wait + Sync>(
    rt: &R,
    alloc: Global,
    files: (&str, &str),
    line: &str,
    pair: (u32, u32),
    threads: u64,
    runs: u64,
) -> Result<(), Fail> {
    let mut shelf = MemoryShelf::new(alloc, vec![in alloc; 0]?);
    shelf.add("s.pct", files.0.as_bytes())?;
    shelf.add("t.txt", files.1.as_bytes())?;
    let mut out = MemorySink::new(alloc, vec![in alloc; 0]?);
    let mut err = MemorySink::new(alloc, vec![in alloc; 0]?);
    let words = words_of(alloc, line)?;
    let gate = CountingGate::new(pair.0, pair.1);
    let words = words.as_slice();
    pct(rt, alloc, words, &mut shelf, &mut out, &mut err, &gate);
    assert_eq!(rt; err.bytes(), b"".as_slice(), "{line}");
    let arrivals = gate.arrivals.load(Ordering::SeqCst);
    assert_eq!(rt; arrivals, runs.saturating_mul(threads), "{line}");
    let seen = gate.seen.load(Ordering::SeqCst);
    assert_eq!(rt; seen, runs.saturating_mul(2), "{line}");
    Ok(())
}

/// Calls over the adders, the second file of each, and their runs: a campaign or a sweep without
/// `--steps` makes one more to find how many there are, and a sweep makes those with points up to
/// a run's eight steps.
const ADDING: [(&str, &str, u64); 13] = [
    ("run s.pct --order A,B,C", "", 1),
    ("run s.pct --seed 7 --depth 2 --steps 8", "", 1),
    ("races s.pct --order A,B,C", "", 1),
    ("locks s.pct --order A,B,C", "", 1),
    ("replay s.pct t.txt", SUM, 1),
    (
        "campaign s.pct --from 1 --count 5 --depth 2 --steps 8",
        "",
        5,
    ),
    ("campaign s.pct --from 1 --count 5 --depth 2", "", 6),
    ("sweep s.pct --depth 2 --steps 2", "", 12),
    ("sweep s.pct --depth 1", "", 7),
    ("sweep s.pct --depth 3 --steps 20", "", 384),
    ("find s.pct --order A,B,C --points 1", "", 2),
    ("expose s.pct t.txt --order A,C,B --steps 8", DIRECTIVE, 1),
    ("certify s.pct t.txt --steps 8", DIRECTIVE, 2),
];

/// Each command makes its runs, and each pair of threads meets in each of them.
#[test]
fn commands_meet(rt: HostRuntime) -> Result<(), Fail> {
    for pair in [(0, 1), (0, 2), (1, 2)] {
        for (line, second, runs) in ADDING.iter() {
            expect_runs(&rt, rt.alloc(), (ADDERS, second), line, pair, 3, *runs)?;
        }
    }
    Ok(())
}

/// The large script's campaign: a run to find how many steps there are, and twenty.
#[test]
fn large_script_meets(rt: HostRuntime) -> Result<(), Fail> {
    expect_runs(&rt, rt.alloc(), ("", ""), "big 1", (0, 1), 9, 21)
}

/// Seven threads that may be lowered between their two steps, and an eighth one's head. It sees by
/// the variables who is.
const LOWERED: &str = "\
script 1
var v1 = 0
var v2 = 0
var v3 = 0
var v4 = 0
var v5 = 0
var v6 = 0
var v7 = 0
thread T1
  write v1 1
  write v1 0
end
thread T2
  write v2 1
  write v2 0
end
thread T3
  write v3 1
  write v3 0
end
thread T4
  write v4 1
  write v4 0
end
thread T5
  write v5 1
  write v5 0
end
thread T6
  write v6 1
  write v6 0
end
thread T7
  write v7 1
  write v7 0
end
thread T8
";

/// The eighth fails where all seven are lowered.
const ALL: &str = "\
  read r1 v1
  read r2 v2
  read r3 v3
  read r4 v4
  read r5 v5
  read r6 v6
  read r7 v7
  assert r1 + r2 + r3 + r4 + r5 + r6 + r7 != 7
end
";

/// It always fails.
const ALWAYS: &str = "\
  read r1 v1
  assert r1 == 2
end
";

/// It fails where no thread is lowered behind one that isn't.
const NO_GAP: &str = "\
  read r1 v1
  read r2 v2
  read r3 v3
  read r4 v4
  read r5 v5
  read r6 v6
  read r7 v7
  if r1 < r2
    set r0 1
  end
  if r2 < r3
    set r0 1
  end
  if r3 < r4
    set r0 1
  end
  if r4 < r5
    set r0 1
  end
  if r5 < r6
    set r0 1
  end
  if r6 < r7
    set r0 1
  end
  assert r0 == 1
end
";

/// A run that fails with seven moments, the moments that the verdict needs, and how many runs show
/// that: of the moments that are there each is left out in turn, up to the first that isn't needed.
const FINDING: [(&str, u64); 3] = [(ALL, 8), (ALWAYS, 8), (NO_GAP, 29)];

/// `find` makes at most 29 runs: the run itself, and 7, 6, 5, 4, 3, 2 and 1.
#[test]
fn findings_are_few_runs(rt: HostRuntime) -> Result<(), Fail> {
    let line = "find s.pct --order T1,T2,T3,T4,T5,T6,T7,T8 --points 1,2,3,4,5,6,7";
    for (judged, runs) in FINDING.iter() {
        let mut script = String::from_str(rt.alloc(), LOWERED)?;
        script.push_str(judged)?;
        expect_runs(
            &rt,
            rt.alloc(),
            (script.as_str(), ""),
            line,
            (0, 7),
            8,
            *runs,
        )?;
    }
    Ok(())
}
