//! A source and a sink in memory.

use crate::checking::is;
use ek_types::{MemorySink, MemorySource, Sink, SinkFault, Source, Took, Wrote, put, write_all};
use std::alloc::Global;
use std::process::Abort;

/// What a read into so many bytes of the room comes to, and what the whole room then holds.
struct Read {
    size: usize,
    took: Took,
    held: [u8; 4],
}

const READS: [Read; 5] = [
    Read {
        size: 4,
        took: Took::Bytes(2),
        held: *b"he\0\0",
    },
    Read {
        size: 4,
        took: Took::Failed,
        held: *b"he\0\0",
    },
    Read {
        size: 4,
        took: Took::Bytes(2),
        held: *b"ll\0\0",
    },
    Read {
        size: 1,
        took: Took::Bytes(1),
        held: *b"ol\0\0",
    },
    Read {
        size: 4,
        took: Took::End,
        held: *b"ol\0\0",
    },
];

fn take(rt: &impl Abort, source: &mut MemorySource, room: &mut [u8; 4], size: usize) -> Took {
    assert!(rt; 0 < size && size <= 4);
    source.read(&mut room[..size])
}

fn reads(rt: &impl Abort, source: &mut MemorySource) {
    let mut room = [0u8; 4];
    for row in &READS {
        is(rt, take(rt, source, &mut room, row.size), row.took);
        is(rt, room, row.held);
    }
}

#[test]
fn a_source_fails_at_its_second_read_and_goes_on(rt: HostRuntime) {
    let text = b"hello".to_vec(rt.alloc()).expect(&rt, "memory");
    let fails = vec![in rt.alloc(); 1].expect(&rt, "memory");
    let mut source = MemorySource::new(text, 2, fails);
    reads(&rt, &mut source);
}

/// A sink in memory, whose calls of these numbers fail.
fn sink(rt: &impl Abort, alloc: Global, room: usize, piece: usize, fails: Vec<u32>) -> MemorySink {
    assert!(rt; 0 < piece);
    MemorySink::new(alloc, room, piece, fails).expect(rt, "memory")
}

/// Writing all came to this, and then the sink holds these bytes.
fn writes(
    rt: &impl Abort,
    sink: &MemorySink,
    done: Result<(), SinkFault>,
    ends: Result<(), SinkFault>,
    held: &[u8],
) {
    is(rt, done, ends);
    is(rt, sink.bytes(), held);
}

#[test]
fn a_sink_of_one_byte_a_call_that_fails_at_call_3_holds_buf(rt: HostRuntime) {
    let fails = vec![in rt.alloc(); 3].expect(&rt, "memory");
    let mut sink = sink(&rt, rt.alloc(), 100, 1, fails);
    let done = write_all(&mut sink, b"buffer *scratch*");
    writes(&rt, &sink, done, Err(SinkFault), b"buf");
    let done = put(Err(SinkFault), &mut sink, b"more");
    writes(&rt, &sink, done, Err(SinkFault), b"buf");
    let done = put(Ok(()), &mut sink, b"fer");
    writes(&rt, &sink, done, Ok(()), b"buffer");
}

#[test]
fn a_full_sink_fails(rt: HostRuntime) {
    let mut sink = sink(&rt, rt.alloc(), 2, 7, Vec::new(rt.alloc()));
    is(&rt, sink.write(b"abc"), Wrote::Bytes(2));
    is(&rt, sink.write(b"c"), Wrote::Failed);
    is(&rt, sink.bytes(), b"ab".as_slice());
}
