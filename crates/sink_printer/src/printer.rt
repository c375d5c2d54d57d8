//! What writes to a sink until a write fails.
ghost use Rattle.std.specs.Prelude.{◌≡◌, ◌<◌, false, [], ◌∷◌};
ghost use Rattle.ek_types.specs.Io.{Continues};
ghost use Rattle.sink_printer.specs.Outcomes.{outcome};
ghost use Rattle.sink_printer.specs.Printing.{Prints, Finishes};

use arrayvec::ArrayVec;
use ek_types::{Sink, SinkFault, write_all};

/// How many bytes are gathered on the way to the sink.
const GATHERED: usize = 128;

/// Writes to a sink, and gathers what is short, so that a line takes few writes. After a failure it writes nothing more.
/// What is gathered reaches the sink at `finish`.
#[derive(Drop)]
pub struct Printer<'a, K> {
    sink: &'a mut K,
    gathered: ArrayVec<u8, GATHERED>,
    failed: bool,
}

/// Writes some bytes unless a write failed, and says whether one has failed now.
fn write<K: Sink>(failed: bool, sink: &mut K, bytes: &[u8]) -> bool
    ensures { Continues (outcome failed) (outcome result) (K.state sink.old) (K.state sink.new)
        bytes.now }
{
    failed || write_all(sink, bytes).is_err()
}

impl<'a, K: Sink> Printer<'a, K> {
    /// A printer that has said nothing yet.
    pub fn new(sink: &'a mut K) -> Printer<'a, K>
        ensures same { result.sink.ghost_name ≡ sink.entry.ghost_name }
        ensures sink { result.sink.now ≡ sink.old }
        ensures fresh { result.failed ≡ false }
        ensures empty { result.gathered.items ≡ [] }
    {
        Printer {
            sink,
            gathered: ArrayVec::new(),
            failed: false,
        }
    }

    /// Writes what is gathered.
    fn flush(&mut self)
        ensures said { Prints K.state self.old self.new [] }
        ensures empty { self.new.gathered.items ≡ [] }
    {
        self.failed = write(self.failed, self.sink, self.gathered.as_slice());
        self.gathered.clear();
    }

    /// Writes some bytes that may be too long to be gathered.
    fn send(&mut self, bytes: &[u8])
        requires { self.old.gathered.items ≡ [] }
        ensures { Prints K.state self.old self.new bytes.now }
    {
        if self.gathered.try_extend_from_slice(bytes).is_err() {
            self.failed = write(self.failed, self.sink, bytes);
        }
    }

    /// Writes some bytes.
    #[inline(always)]
    pub fn put(&mut self, bytes: &[u8])
        ensures { Prints K.state self.old self.new bytes.now }
    {
        if self.gathered.try_extend_from_slice(bytes).is_err() {
            self.flush();
            self.send(bytes);
        }
    }

    /// Writes one byte.
    pub fn put_byte(&mut self, byte: u8)
        ensures { Prints K.state self.old self.new (byte ∷ []) }
    {
        if self.gathered.try_push(byte).is_err() {
            self.put(&[byte]);
        }
    }

    /// Writes what is still gathered, and says what came of all writes.
    pub fn finish(self) -> Result<(), SinkFault>
        ensures { Finishes K.state self.entry (K.state self.exit.0.now) result }
    {
        let Printer {
            sink,
            ref gathered,
            failed,
        } = self;
        if write(failed, sink, gathered.as_slice()) {
            Err(SinkFault)
        } else {
            Ok(())
        }
    }
}
