//! Sources over readers and sinks over writers, also where a call is interrupted.
ghost use Rattle.std.specs.Prelude.{◌≤◌, IfOk};

use crate::comparing::is;
use ek_types::{Sink, SinkFault, Source, Took, Wrote, write_all};
use std::io::{self, Error, ErrorKind, Read, Write};
use system_host::{ReaderSource, WriterSink};

/// Takes and gives a byte a call. The first call is interrupted.
#[derive(Drop)]
struct Interrupted {
    was_called: bool,
}

impl Interrupted {
    fn call(&mut self, room: usize) -> io::Result<usize>
        ensures { IfOk result (λ n. n ≤ room) }
    {
        if !self.was_called {
            self.was_called = true;
            return Err(Error::from(ErrorKind::Interrupted));
        }
        Ok(room.min(1))
    }
}

impl Read for Interrupted {
    fn read(&mut self, into: &mut [u8]) -> io::Result<usize> {
        self.call(into.len())
    }
}

impl Write for Interrupted {
    fn write(&mut self, from: &[u8]) -> io::Result<usize> {
        self.call(from.len())
    }

    fn flush(&mut self) -> io::Result<()> {
        self.call(1).map(|_| ())
    }
}

#[test]
fn a_reader_is_read_to_its_end(rt: HostRuntime) {
    let text = b"hello";
    let mut source = ReaderSource::new(text.as_slice());
    let mut room = [0u8; 4];
    is(&rt, source.read(&mut room), Took::Bytes(4));
    is(&rt, room.as_slice(), b"hell".as_slice());
    is(&rt, source.read(&mut room), Took::Bytes(1));
    is(&rt, source.read(&mut room), Took::End);
    is(&rt, source.faults, 0);
}

#[test]
fn a_writer_that_takes_nothing_is_a_failed_write(rt: HostRuntime) {
    let mut room = [0u8; 3];
    let mut sink = WriterSink::new(room.as_mut_slice());
    is(&rt, write_all(&mut sink, b"hello"), Err(SinkFault));
    is(&rt, sink.faults, 1);
    is(&rt, sink.finish(), Ok(()));
    drop(sink);
    is(&rt, room.as_slice(), b"hel".as_slice());
}

#[test]
fn an_interrupted_call_has_failed_and_is_not_made_again(rt: HostRuntime) {
    let mut source = ReaderSource::new(Interrupted { was_called: false });
    let mut room = [0u8; 4];
    is(&rt, source.read(&mut room), Took::Failed);
    is(&rt, source.read(&mut room), Took::Bytes(1));
    is(&rt, source.faults, 1);
    let mut sink = WriterSink::new(Interrupted { was_called: false });
    is(&rt, sink.write(b"hello"), Wrote::Failed);
    is(&rt, sink.write(b"hello"), Wrote::Bytes(1));
    is(&rt, sink.faults, 1);
    let mut kept_back = WriterSink::new(Interrupted { was_called: false });
    is(&rt, kept_back.finish(), Err(SinkFault));
    is(&rt, kept_back.faults, 1);
}
