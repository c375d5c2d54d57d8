//! A source over a reader and a sink over a writer, as standard input and standard output are.
//!
//! They call the reader and the writer once for each call of their own, count each error of those calls, and answer
//! `Failed` in just these calls. Nothing is retried, so an interrupted call counts too.
ghost use Rattle.std.specs.Prelude.{◌≡◌, ◌<◌, length};
ghost use Rattle.std.specs.Io.KnownBytes.{Keeps};
ghost use Rattle.ek_types.specs.Io.{HasCause, Takes, Puts};
ghost use Rattle.system_host.specs.Counts.{after_read, after_write, after_finish};

use ek_types::{Sink, SinkFault, Source, Took, Wrote};
use std::io::{Read, Write};

/// Bytes from a reader. It tells what is left exactly where the reader does.
#[derive(Drop)]
pub struct ReaderSource<R> {
    pub reader: R,
    /// How many calls failed.
    pub faults: u64,
}

impl<R: Read> ReaderSource<R> {
    /// A source of a reader none of whose calls has failed yet.
    pub fn new(reader: R) -> ReaderSource<R>
        ensures reader { result.reader ≡ reader }
        ensures faults { result.faults ≡ 0 }
    {
        ReaderSource { reader, faults: 0 }
    }
}

impl<R: Read> Source for ReaderSource<R> {
    ghost use Rattle.std.specs.Prelude.{false};

    ghost state = { λ s. record { left = R.remaining s.reader; faults = s.faults; unfailing = false } };

    fn read(&mut self, into: &mut [u8]) -> Took
        requires { 0 < length into.old }
        ensures bytes { Takes (R.remaining self.old.reader) (R.remaining self.new.reader) into.new result }
        ensures cause { HasCause self.old.faults self.new.faults (result ≡ Took.Failed) }
        ensures faults { self.new.faults ≡ after_read result self.old.faults }
    {
        match self.reader.read(into) {
            Ok(0) => Took::End,
            Ok(n) => Took::Bytes(n),
            Err(_) => {
                self.faults = self.faults.saturating_add(1);
                Took::Failed
            }
        }
    }
}

/// Bytes to a writer. It tells what it holds exactly where the writer does.
#[derive(Drop)]
pub struct WriterSink<W> {
    pub writer: W,
    /// How many calls failed.
    pub faults: u64,
}

impl<W: Write> WriterSink<W> {
    /// A sink of a writer none of whose calls has failed yet.
    pub fn new(writer: W) -> WriterSink<W>
        ensures writer { result.writer ≡ writer }
        ensures faults { result.faults ≡ 0 }
    {
        WriterSink { writer, faults: 0 }
    }

    /// Hands on what the writer keeps back. Call it once all is written, since an error that a writer meets while it
    /// is dropped is lost.
    pub fn finish(&mut self) -> Result<(), SinkFault>
        ensures bytes { Keeps (W.contents self.old.writer) (W.contents self.new.writer) }
        ensures faults { self.new.faults ≡ after_finish result self.old.faults }
    {
        match self.writer.flush() {
            Ok(()) => Ok(()),
            Err(_) => {
                self.faults = self.faults.saturating_add(1);
                Err(SinkFault)
            }
        }
    }
}

impl<W: Write> Sink for WriterSink<W> {
    ghost state = { λ s. record { held = W.contents s.writer; faults = s.faults; room = 0 } };

    /// A write that takes nothing counts as an error.
    fn write(&mut self, from: &[u8]) -> Wrote
        requires { 0 < length from.now }
        ensures bytes { Puts (W.contents self.old.writer) (W.contents self.new.writer) from.now result }
        ensures cause { HasCause self.old.faults self.new.faults (result ≡ Wrote.Failed) }
        ensures faults { self.new.faults ≡ after_write result self.old.faults }
    {
        match self.writer.write(from) {
            Ok(0) | Err(_) => {
                self.faults = self.faults.saturating_add(1);
                Wrote::Failed
            }
            Ok(n) => Wrote::Bytes(n),
        }
    }
}
