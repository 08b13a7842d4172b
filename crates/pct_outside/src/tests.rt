use crate::host_sinks::HostSink;
use crate::sinks::{Sink, SinkError};
use std::test::Fail;

// What is put is gathered, and is written by `finish`. A stream that takes nothing more is a fault,
// which is met there. Other crates make no sink of such a stream.
#[test]
fn host_sink_gathers(rt: HostRuntime) {
    let mut room = [0; 3];
    let mut sink = HostSink::new(rt.alloc(), room.as_mut_slice());
    assert_eq!(rt; sink.put(b"ab"), Ok(()));
    assert_eq!(rt; sink.finish(), Ok(()));
    assert_eq!(rt; sink.put(b"cd"), Ok(()));
    assert_eq!(rt; sink.finish(), Err(SinkError::Failed));
    assert_eq!(rt; sink.finish(), Ok(()));
    drop(sink);
    assert_eq!(rt; room.as_slice(), b"abc".as_slice());
}

// A piece for which there is no room among what is gathered is written behind it at once.
#[test]
fn host_sink_writes_a_full_block(rt: HostRuntime) -> Result<(), Fail> {
    let block = vec![in rt.alloc(); b'x'; 65_536]?;
    let mut room = vec![in rt.alloc(); b'-'; 65_538]?;
    let mut sink = HostSink::new(rt.alloc(), room.as_mut_slice());
    assert_eq!(rt; sink.put(block.as_slice()), Ok(()));
    assert_eq!(rt; sink.put(b"y"), Ok(()));
    assert_eq!(rt; sink.put(b"z"), Ok(()));
    drop(sink);
    assert_eq!(rt; &room[65_534..], b"xxy-".as_slice());
    drop(block);
    drop(room);
    Ok(())
}
