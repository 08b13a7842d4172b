// The words of calls, and what they ask for.
use crate::calls::{Given, LOST, REPLAY, SOUND, expect_call, words_of};
use pct_top::{Report, Settings, Status, WordsError, read_words};
use std::process::Abort;
use std::test::Fail;
use worker_run::Serve;

/// The word that isn't taken of each line.
const UNTAKEN: [(&str, &str); 33] = [
    ("", "usage: word 1\n"),
    ("walk s.pct --order A,B,C", "usage: word 1\n"),
    ("run", "usage: word 2\n"),
    ("replay", "usage: word 2\n"),
    ("run s.pct", "usage: word 3\n"),
    ("replay s.pct", "usage: word 3\n"),
    ("run --order A,B,C", "usage: word 3\n"),
    ("run s.pct --form text", "usage: word 3\n"),
    ("replay s.pct t.txt now", "usage: word 4\n"),
    ("replay s.pct t.txt --serve caller", "usage: word 4\n"),
    ("big 1 --serve nobody", "usage: word 4\n"),
    ("run s.pct --order", "usage: word 4\n"),
    ("run s.pct --order A,", "usage: word 4\n"),
    ("run s.pct --order A,r0,C", "usage: word 4\n"),
    ("run s.pct --order A,A,C", "usage: word 4\n"),
    ("run s.pct --order A,B", "usage: word 4\n"),
    ("run s.pct --order A,B,D", "usage: word 4\n"),
    ("run s.pct --limit 0 --order A,B,C", "usage: word 4\n"),
    ("run s.pct --limit 100001", "usage: word 4\n"),
    ("run s.pct --limit 010", "usage: word 4\n"),
    ("run s.pct --seed 18446744073709551616", "usage: word 4\n"),
    ("run s.pct --seed -1", "usage: word 4\n"),
    ("run s.pct --points 1", "usage: word 5\n"),
    ("run s.pct --seed 1", "usage: word 5\n"),
    ("run s.pct --points 1 --seed 4", "usage: word 5\n"),
    ("run s.pct --order A,B,C --seed 1", "usage: word 5\n"),
    ("run s.pct --order A,B,C --serve caller", "usage: word 5\n"),
    ("run s.pct --order A,B,C --order A,B,C", "usage: word 5\n"),
    ("run s.pct --limit 5 --limit 5", "usage: word 5\n"),
    ("run s.pct --seed 1 --depth 9", "usage: word 6\n"),
    ("run s.pct --seed 1 --depth 0", "usage: word 6\n"),
    (
        "run s.pct --order A,B,C --points 1,2,3,4,5,6,7,8",
        "usage: word 6\n",
    ),
    ("run s.pct --seed 1 --steps 8", "usage: word 7\n"),
];

#[test]
fn untaken_words_are_said(rt: HostRuntime) -> Result<(), Fail> {
    let alloc = rt.alloc();
    for (line, err) in UNTAKEN.iter() {
        let want = Given {
            status: Status::Usage,
            out: "",
            err,
        };
        expect_call(&rt, alloc, LOST.as_bytes(), SOUND, line, want)?;
    }
    Ok(())
}

/// What words are read as.
type Read = Result<Settings, WordsError>;

/// A run of the threads A and B.
fn expect_ordered(rt: &impl Abort, read: &Read) {
    match read {
        Ok(
            Settings::RunOrder {
                file,
                order,
                word,
                points,
                limit,
                report,
            },
        ) => {
            assert_eq!(rt; file.as_str(), "s.pct");
            assert_eq!(rt; order.len(), 2);
            for (item, name) in order.as_slice().iter().zip(["A", "B"].iter()) {
                assert_eq!(rt; item.as_str(), *name);
            }
            assert_eq!(rt; *word, 8);
            assert_eq!(rt; points.as_slice(), [3, 1].as_slice());
            assert_eq!(rt; *limit, 9);
            assert_eq!(rt; *report, Report::Trace);
        }
        _ => panic!(rt; "not a run under an order"),
    }
}

#[test]
fn words_of_an_ordered_run_are_read(rt: HostRuntime) -> Result<(), Fail> {
    let words = words_of(rt.alloc(), "run s.pct --limit 9 --points 3,1 --order A,B")?;
    expect_ordered(&rt, &read_words(rt.alloc(), words.as_slice()));
    Ok(())
}

fn expect_seeded(rt: &impl Abort, read: &Read) {
    match read {
        Ok(
            Settings::RunSeed {
                seed,
                depth,
                steps,
                limit,
                ..
            },
        ) => {
            assert_eq!(rt; *seed, u64::MAX);
            assert_eq!(rt; *depth, 3);
            assert_eq!(rt; *steps, Some(8));
            assert_eq!(rt; *limit, 10_000);
        }
        _ => panic!(rt; "not a run of a seed"),
    }
}

#[test]
fn words_of_a_seeded_run_are_read(rt: HostRuntime) -> Result<(), Fail> {
    let line = "run s.pct --steps 8 --seed 18446744073709551615 --depth 3";
    let words = words_of(rt.alloc(), line)?;
    expect_seeded(&rt, &read_words(rt.alloc(), words.as_slice()));
    Ok(())
}

fn expect_replay(rt: &impl Abort, read: &Read) {
    match read {
        Ok(Settings::Replay { file, trace }) => {
            assert_eq!(rt; file.as_str(), "s.pct");
            assert_eq!(rt; trace.as_str(), "t.txt");
        }
        Err(WordsError::Word(word)) => panic!(rt; "word {word}"),
        _ => panic!(rt; "not a replay"),
    }
}

#[test]
fn words_of_a_replay_are_read(rt: HostRuntime) -> Result<(), Fail> {
    let words = words_of(rt.alloc(), REPLAY)?;
    expect_replay(&rt, &read_words(rt.alloc(), words.as_slice()));
    Ok(())
}

/// Calls that make many runs, and who is to serve these.
const SERVED: [(&str, Serve); 8] = [
    (
        "campaign s.pct --from 1 --count 2 --depth 3",
        Serve::Threads,
    ),
    (
        "campaign s.pct --serve caller --from 1 --count 2 --depth 3",
        Serve::Caller,
    ),
    ("sweep s.pct --depth 2", Serve::Threads),
    ("sweep s.pct --depth 2 --serve caller", Serve::Caller),
    (
        "certify s.pct t.txt --steps 8 --serve threads",
        Serve::Threads,
    ),
    (
        "certify s.pct t.txt --serve caller --steps 8",
        Serve::Caller,
    ),
    ("big 3", Serve::Threads),
    ("big 3 --serve caller", Serve::Caller),
];

/// Who is to serve the runs that the words ask for, where they ask for many.
fn serve_of(read: &Read) -> Option<Serve> {
    match read {
        Ok(Settings::Campaign { serve, .. }) => Some(*serve),
        Ok(Settings::Sweep { serve, .. }) => Some(*serve),
        Ok(Settings::Certify { serve, .. }) => Some(*serve),
        Ok(Settings::Big { serve, .. }) => Some(*serve),
        _ => None,
    }
}

#[test]
fn words_say_who_serves(rt: HostRuntime) -> Result<(), Fail> {
    for (line, serve) in SERVED.iter() {
        let words = words_of(rt.alloc(), line)?;
        assert_eq!(rt;
            serve_of(&read_words(rt.alloc(), words.as_slice())),
            Some(*serve)
        );
    }
    Ok(())
}
