//! Files, streams and gates.
use pct_outside::{
    Gate, HostShelf, HostSink, MemoryShelf, MemorySink, OpenGate, PairGate, Shelf, ShelfError,
    Sink, SinkError, SureShelf, SureSink, put_whole,
};
use std::alloc::AllocError as NoMemory;
use std::process::Abort;
use std::test::Fail;
use std::thread::join;
use std::{env, fs, process};

/// Reads through the trait, and compares what came.
fn expect_read<S: Shelf>(
    rt: &impl Abort,
    shelf: &mut S,
    name: &str,
    most: u64,
    want: Result<&str, ShelfError>,
) {
    let same = match (shelf.read_up_to(name, most), want) {
        (Ok(bytes), Ok(text)) => bytes.as_slice() == text.as_bytes(),
        (Err(error), Err(wanted)) => error == wanted,
        _ => false,
    };
    assert!(rt; same, "{name} {most}");
}

/// Puts through the trait, and compares the answer.
fn expect_put<S: Sink>(rt: &impl Abort, sink: &mut S, piece: &str, want: Result<(), SinkError>) {
    assert_eq!(rt; sink.put(piece.as_bytes()), want, "{piece}");
}

fn expect_memory_reads(rt: &impl Abort, shelf: &mut MemoryShelf) -> Result<(), NoMemory> {
    shelf.add("a", b"hello")?;
    shelf.add("empty", b"")?;
    expect_read(rt, shelf, "a", 3, Ok("hel"));
    expect_read(rt, shelf, "a", 5, Ok("hello"));
    expect_read(rt, shelf, "a", 5, Err(ShelfError::Failed));
    shelf.add("a", b"new")?;
    for (name, most, want) in [
        ("a", 9, Ok("new")),
        ("a", 0, Ok("")),
        ("empty", 9, Ok("")),
        ("none", 9, Err(ShelfError::Failed)),
    ] {
        expect_read(rt, shelf, name, most, want);
    }
    Ok(())
}

#[test]
fn memory_shelf_reads(rt: HostRuntime) -> Result<(), Fail> {
    let mut shelf = MemoryShelf::new(rt.alloc(), vec![in rt.alloc(); 3]?);
    let added = expect_memory_reads(&rt, &mut shelf);
    drop(shelf);
    Ok(added?)
}

fn expect_sure_reads(rt: &impl Abort, shelf: &mut SureShelf) -> Result<(), NoMemory> {
    shelf.add("a", b"hello")?;
    shelf.add("a", b"new")?;
    expect_read(rt, shelf, "a", 2, Ok("ne"));
    expect_read(rt, shelf, "none", 9, Ok(""));
    Ok(())
}

#[test]
fn sure_shelf_reads(rt: HostRuntime) -> Result<(), Fail> {
    let mut shelf = SureShelf::new(rt.alloc());
    let added = expect_sure_reads(&rt, &mut shelf);
    drop(shelf);
    Ok(added?)
}

#[test]
fn memory_sinks_take(rt: HostRuntime) -> Result<(), Fail> {
    let mut sink = MemorySink::new(rt.alloc(), vec![in rt.alloc(); 2]?);
    expect_put(&rt, &mut sink, "ab", Ok(()));
    expect_put(&rt, &mut sink, "cd", Err(SinkError::Failed));
    expect_put(&rt, &mut sink, "ef", Ok(()));
    assert_eq!(rt; sink.finish(), Ok(()));
    assert_eq!(rt; sink.bytes(), b"abef".as_slice());
    drop(sink);

    let mut sure = SureSink::new(rt.alloc());
    expect_put(&rt, &mut sure, "ab", Ok(()));
    expect_put(&rt, &mut sure, "cd", Ok(()));
    assert_eq!(rt; sure.finish(), Ok(()));
    assert_eq!(rt; sure.bytes(), b"abcd".as_slice());
    drop(sure);
    Ok(())
}

#[test]
fn host_shelf_reads(rt: HostRuntime) -> Result<(), Fail> {
    let folder = env::temp_dir(&rt)?;
    let folder = folder.as_str();
    let id = process::id(rt.process());
    let path = format!(in rt.alloc(); "{folder}/pct_outside_{id}")?;
    fs::write(&rt, path.as_str(), "hello")?;
    let mut shelf = HostShelf::new(&rt);
    for (name, most, want) in [
        (path.as_str(), 3, Ok("hel")),
        (path.as_str(), 9, Ok("hello")),
        (folder, 9, Err(ShelfError::Failed)),
        ("", 9, Err(ShelfError::Failed)),
    ] {
        expect_read(&rt, &mut shelf, name, most, want);
    }
    let removed = fs::remove_file(&rt, path.as_str());
    expect_read(&rt, &mut shelf, path.as_str(), 9, Err(ShelfError::Failed));
    drop(shelf);
    Ok(removed?)
}

#[test]
fn host_streams_take(rt: HostRuntime) {
    assert_eq!(rt;
        put_whole(&mut HostSink::output(rt.alloc(), rt.stdout()), b""),
        Ok(())
    );
    assert_eq!(rt;
        put_whole(&mut HostSink::errors(rt.alloc(), rt.stderr()), b""),
        Ok(())
    );
    OpenGate::new().arrive(0, 0);
}

// The first to come looks ten times and goes on unmet; the second sees that it came.
#[test]
fn one_thread_at_a_pair_gate(rt: HostRuntime) {
    let gate = PairGate::new(0, 1, 10);
    gate.arrive(0, 0);
    gate.arrive(1, 0);
    assert_eq!(rt; gate.met(), false);
}

// Each of two threads waits for the other; a later arrival and another thread's aren't held.
#[test]
fn two_threads_at_a_pair_gate(rt: HostRuntime) {
    let gate = PairGate::new(3, 1, 1_000_000_000);
    gate.arrive(3, 1);
    gate.arrive(0, 0);
    assert_eq!(rt; gate.met(), false);
    join(&rt, || gate.arrive(1, 0), || gate.arrive(3, 0));
    assert_eq!(rt; gate.met(), true);
}
