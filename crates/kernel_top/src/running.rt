//! The word `run`: a script is run, and its lines and the dump are written.
ghost use Rattle.std.specs.Prelude.{◌≡◌, ◌≢◌, ◌^◌, ◌≤◌, Some, length, IsTrue};
ghost use Rattle.ek_types.specs.Io.{HasCause};
ghost use Rattle.kernel_state.specs.Whole.{program_with};
ghost use Rattle.kernel_top.specs.Outcomes.{Came, CameForAnySource, OfBytes, OnRun};

use crate::reading::{read_script, script_in};
use crate::status::{Status, status_of};
use command_words::Command;
use ek_types::{Sink, Source};
use handler_code::Natives;
use host_link::Host;
use kernel_run::Kernel;
use std::alloc::Global;

/// Reads the script that some bytes are, and runs it on a kernel of its own.
fn run_bytes<K: Sink, H: Host, N: Natives>(
    alloc: Global,
    bytes: &[u8],
    sink: &mut K,
    host: &mut H,
    natives: &N,
) -> Status
    requires { length (H.state host.old).kills ≤ 2 ^ 31 }
    ensures outcome { CameForAnySource H.state H.made host.old host.new (K.state sink.old) (K.state sink.new)
        (OfBytes (OnRun (λ script. program_with N.names N.does script natives.now)) bytes.now result) }
    ensures no_read { result ≢ Status.ReadFault }
    ensures write_fault { HasCause (K.state sink.old).faults (K.state sink.new).faults
        (result ≡ Status.WriteFault) }
{
    let script = match script_in(alloc, bytes) {
        Ok(script) => script,
        Err(status) => return status,
    };
    let Ok(mut kernel) = Kernel::new(alloc) else {
        return Status::NoMemory;
    };
    let ended = kernel.run_script(&script, natives, host, sink);
    kernel.close();
    status_of(ended)
}

/// Reads the script that the source holds, and runs it.
pub(crate) fn run_source<S: Source, K: Sink, H: Host, N: Natives>(
    alloc: Global,
    source: &mut S,
    sink: &mut K,
    host: &mut H,
    natives: &N,
) -> Status
    requires { length (H.state host.old).kills ≤ 2 ^ 31 }
    ensures outcome { Came H.state H.made
        (λ script. program_with N.names N.does script natives.now) (Some Command.Run) result
        host.old host.new (S.state source.old) (S.state source.new) (K.state sink.old) (K.state sink.new) }
    ensures read_fault { HasCause (S.state source.old).faults (S.state source.new).faults
        (result ≡ Status.ReadFault) }
    ensures write_fault { HasCause (K.state sink.old).faults (K.state sink.new).faults
        (result ≡ Status.WriteFault) }
    ensures unfailing { IsTrue (S.state source.old).unfailing →
        (S.state source.new).faults ≡ (S.state source.old).faults }
{
    match read_script(alloc, source) {
        Ok(bytes) => run_bytes(alloc, bytes.as_slice(), sink, host, natives),
        Err(status) => status,
    }
}
