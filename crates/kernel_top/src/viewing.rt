//! The word `view`: a script is run with its lines thrown away, and its current buffer is written as it would be seen.
ghost use Rattle.std.specs.Prelude.{◌≡◌, ◌≢◌, ◌^◌, ◌≤◌, ℕ, List, length, Some, IsTrue};
ghost use Rattle.std.specs.Io.KnownBytes.{Appends};
ghost use Rattle.plain_machine.specs.Exchanges.{Exchange};
ghost use Rattle.plain_machine.specs.State.{new_state};
ghost use Rattle.ek_types.specs.Io.{HasCause};
ghost use Rattle.ek_call.specs.Meaning.{script_of};
ghost use Rattle.buffer_table.specs.Kept.{editor_of};
ghost use Rattle.final_view.specs.Faults.{Views};
ghost use Rattle.kernel_steps.specs.HostCalls.{CallsSince};
ghost use Rattle.kernel_run.specs.Meaning.{state_of};
ghost use Rattle.kernel_state.specs.Whole.{program_with};
ghost use Rattle.kernel_top.specs.Viewing.{view_of, Viewed, viewed_status};
ghost use Rattle.kernel_top.specs.Outcomes.{Came, CameForAnySource, OfBytes, OnView};

use crate::reading::{read_script, script_in};
use crate::status::Status;
use crate::unseen::run_unseen_on;
use buffer_table::Editor;
use command_words::Command;
use ek_call::Script;
use ek_types::{Sink, Source};
use final_view::{ViewFault, view};
use handler_code::Natives;
use host_link::Host;
use kernel_run::Kernel;
use std::alloc::Global;

/// The status of a script that was run, by how the writing of its view ended.
fn viewed_status(viewed: Result<(), ViewFault>) -> Status
    ensures { result ≡ viewed_status viewed }
{
    match viewed {
        Ok(()) => Status::Done,
        Err(ViewFault::Sink) => Status::WriteFault,
        Err(ViewFault::NoMemory) => Status::NoMemory,
    }
}

/// Writes the current buffer as it would be seen.
fn view_current<K: Sink>(editor: &Editor, sink: &mut K) -> Result<(), ViewFault>
    ensures { Views (K.state sink.old) (K.state sink.new) result (view_of (editor_of editor.now)) }
{
    view(editor, editor.current(), sink)
}

/// Runs the script on a kernel that is new, with its lines thrown away, and writes what its current buffer then looks
/// like.
fn view_script<K: Sink, H: Host, N: Natives>(
    kernel: &mut Kernel,
    script: &Script,
    sink: &mut K,
    host: &mut H,
    natives: &N,
) -> Status
    requires new { state_of kernel.old ≡ new_state }
    requires few { length (H.state host.old).kills ≤ 2 ^ 31 }
    ensures outcome { (written : List ℕ) × (exchanges : List Exchange)
        × Appends (K.state sink.old).held (K.state sink.new).held written
        × CallsSince H.state H.made host.old host.new exchanges
        × Viewed result (program_with N.names N.does (script_of script.now) natives.now) (script_of script.now)
        written exchanges (K.state sink.old) (K.state sink.new) }
    ensures write_fault { HasCause (K.state sink.old).faults (K.state sink.new).faults
        (result ≡ Status.WriteFault) }
{
    match run_unseen_on(kernel, script, host, natives) {
        Ok(()) => viewed_status(view_current(kernel.editor(), sink)),
        Err(_) => Status::NoMemory,
    }
}

/// Reads the script that some bytes are, runs it, and writes what its current buffer then looks like.
fn view_bytes<K: Sink, H: Host, N: Natives>(
    alloc: Global,
    bytes: &[u8],
    sink: &mut K,
    host: &mut H,
    natives: &N,
) -> Status
    requires { length (H.state host.old).kills ≤ 2 ^ 31 }
    ensures outcome { CameForAnySource H.state H.made host.old host.new (K.state sink.old) (K.state sink.new)
        (OfBytes (OnView (λ script. program_with N.names N.does script natives.now)) bytes.now result) }
    ensures no_read { result ≢ Status.ReadFault }
    ensures write_fault { HasCause (K.state sink.old).faults (K.state sink.new).faults
        (result ≡ Status.WriteFault) }
{
    let script = match script_in(alloc, bytes) {
        Ok(script) => script,
        Err(status) => return status,
    };
    let Ok(mut kernel) = Kernel::new(alloc) else {
        return Status::NoMemory;
    };
    let status = view_script(&mut kernel, &script, sink, host, natives);
    kernel.close();
    status
}

/// Reads the script that the source holds, runs it, and writes what its current buffer then looks like.
pub(crate) fn view_source<S: Source, K: Sink, H: Host, N: Natives>(
    alloc: Global,
    source: &mut S,
    sink: &mut K,
    host: &mut H,
    natives: &N,
) -> Status
    requires { length (H.state host.old).kills ≤ 2 ^ 31 }
    ensures outcome { Came H.state H.made
        (λ script. program_with N.names N.does script natives.now) (Some Command.View) result
        host.old host.new (S.state source.old) (S.state source.new) (K.state sink.old) (K.state sink.new) }
    ensures read_fault { HasCause (S.state source.old).faults (S.state source.new).faults
        (result ≡ Status.ReadFault) }
    ensures write_fault { HasCause (K.state sink.old).faults (K.state sink.new).faults
        (result ≡ Status.WriteFault) }
    ensures unfailing { IsTrue (S.state source.old).unfailing →
        (S.state source.new).faults ≡ (S.state source.old).faults }
{
    match read_script(alloc, source) {
        Ok(bytes) => view_bytes(alloc, bytes.as_slice(), sink, host, natives),
        Err(status) => status,
    }
}
