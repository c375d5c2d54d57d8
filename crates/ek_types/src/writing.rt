//! Writing whole texts to a sink, and printing that threads what came of it so far.
ghost use Rattle.ek_types.specs.Io.{Writes, Continues};

use crate::io::{Sink, SinkFault, Wrote};

/// Writes all the bytes, or after a failure a front of them.
#[inline(always)]
pub fn write_all<K: Sink>(sink: &mut K, bytes: &[u8]) -> Result<(), SinkFault>
    ensures { Writes (K.state sink.old) (K.state sink.new) result bytes.now }
{
    let mut at = 0;
    while at < bytes.len() {
        match sink.write(&bytes[at..]) {
            Wrote::Bytes(n) => at += n,
            Wrote::Failed => return Err(SinkFault),
        }
    }
    Ok(())
}

/// Writes the bytes where nothing has failed so far. After a failure the sink is left as it was.
pub fn put<K: Sink>(
    so_far: Result<(), SinkFault>,
    sink: &mut K,
    bytes: &[u8],
) -> Result<(), SinkFault>
    ensures { Continues so_far result (K.state sink.old) (K.state sink.new) bytes.now }
{
    match so_far {
        Ok(()) => write_all(sink, bytes),
        Err(fault) => Err(fault),
    }
}
