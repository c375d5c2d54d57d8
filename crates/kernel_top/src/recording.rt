//! The word `record`: a script is run with its lines thrown away, and its session is written.
ghost use Rattle.std.specs.Prelude.{◌≡◌, ◌≢◌, ◌^◌, ◌≤◌, ℕ, List, [], length, Some, IsTrue, OnOk};
ghost use Rattle.std.specs.Io.KnownBytes.{Appends};
ghost use Rattle.plain_machine.specs.Exchanges.{Exchange};
ghost use Rattle.ek_types.specs.Io.{HasCause, Writes};
ghost use Rattle.ek_call.specs.Meaning.{script_of};
ghost use Rattle.host_link.specs.Meaning.{exchanges_of};
ghost use Rattle.journal_text.specs.Lines.{session};
ghost use Rattle.journal_text.specs.Allowed.{AreLines};
ghost use Rattle.kernel_steps.specs.HostCalls.{CallsSince};
ghost use Rattle.kernel_state.specs.Whole.{program_with};
ghost use Rattle.kernel_top.specs.Unseen.{RanUnseen};
ghost use Rattle.kernel_top.specs.Sessions.{fits, Written};
ghost use Rattle.kernel_top.specs.Outcomes.{Came, CameForAnySource, OfBytes, OnRecord};

use crate::reading::{read_script, script_in};
use crate::status::{Status, written_status};
use crate::unseen::run_unseen;
use command_words::Command;
use ek_call::Script;
use ek_types::{Mem, Sink, SinkFault, Source, put};
use handler_code::Natives;
use host_link::{Exchanges, Host};
use journal_text::{LONGEST_SESSION, LinedHost, write_journal};
use run_counters::CountingSink;
use std::alloc::Global;

/// Writes a journal, and behind it the line `script` and the script.
fn put_session<K: Sink>(list: &Exchanges, script: &[u8], sink: &mut K) -> Result<(), SinkFault>
    ensures { Writes (K.state sink.old) (K.state sink.new) result
        (session (exchanges_of list.now) script.now) }
{
    let so_far = write_journal(list, sink);
    let so_far = put(so_far, sink, b"script\n");
    put(so_far, sink, script)
}

/// Whether a session is no longer than one may be. It is put to a sink that counts its bytes
/// and keeps none, so that a run that was made isn't lost for want of memory.
fn fits(list: &Exchanges, script: &[u8]) -> bool
    ensures { result ≡ fits (session (exchanges_of list.now) script.now) }
{
    let mut sink = CountingSink::new();
    let _ = put_session(list, script, &mut sink);
    sink.bytes() <= LONGEST_SESSION as u64
}

/// Writes the session of a run, unless it is too long. It takes no memory.
fn write_session<K: Sink>(list: &Exchanges, script: &[u8], sink: &mut K) -> Status
    ensures written { (written : List ℕ) × Appends (K.state sink.old).held (K.state sink.new).held written
        × Written result (session (exchanges_of list.now) script.now) written (K.state sink.old) (K.state sink.new) }
    ensures write_fault { HasCause (K.state sink.old).faults (K.state sink.new).faults
        (result ≡ Status.WriteFault) }
{
    if fits(list, script) {
        written_status(put_session(list, script, sink))
    } else {
        Status::JournalFull
    }
}

/// Runs the script with its lines thrown away. Each exchange of a whole run has a line.
fn run_lined<H: Host, N: Natives>(
    alloc: Global,
    script: &Script,
    host: &mut H,
    natives: &N,
) -> Mem<()>
    requires { length (H.state host.old).kills ≤ 2 ^ 31 }
    ensures { (exchanges : List Exchange) × CallsSince H.state H.made host.old host.new exchanges
        × RanUnseen result (program_with N.names N.does (script_of script.now) natives.now) (script_of script.now)
        exchanges × OnOk result (AreLines (length (H.state host.old).kills) exchanges) }
{
    let mut lined = LinedHost::new(host);
    run_unseen(alloc, script, &mut lined, natives)
}

/// Reads the script that some bytes are, runs it, and writes its session.
fn record_bytes<K: Sink, H: Host, N: Natives>(
    alloc: Global,
    bytes: &[u8],
    sink: &mut K,
    host: &mut H,
    natives: &N,
) -> Status
    requires few { length (H.state host.old).kills ≤ 2 ^ 31 }
    requires told { (H.state host.old).told ≡ Some [] }
    ensures outcome { CameForAnySource H.state H.made host.old host.new (K.state sink.old) (K.state sink.new)
        (OfBytes (OnRecord (λ script. program_with N.names N.does script natives.now)) bytes.now result) }
    ensures no_read { result ≢ Status.ReadFault }
    ensures write_fault { HasCause (K.state sink.old).faults (K.state sink.new).faults
        (result ≡ Status.WriteFault) }
{
    let script = match script_in(alloc, bytes) {
        Ok(script) => script,
        Err(status) => return status,
    };
    let ran = run_lined(alloc, &script, host, natives);
    let Ok(()) = ran else {
        return Status::NoMemory;
    };
    match host.told() {
        Some(list) => write_session(list, bytes, sink),
        // The host tells its exchanges from the start, so it tells those of the run.
        None => unreachable!(),
    }
}

/// Reads the script that the source holds, runs it, and writes its session. The host has told no exchange yet.
pub(crate) fn record_source<S: Source, K: Sink, H: Host, N: Natives>(
    alloc: Global,
    source: &mut S,
    sink: &mut K,
    host: &mut H,
    natives: &N,
) -> Status
    requires few { length (H.state host.old).kills ≤ 2 ^ 31 }
    requires told { (H.state host.old).told ≡ Some [] }
    ensures outcome { Came H.state H.made
        (λ script. program_with N.names N.does script natives.now) (Some Command.Record) result
        host.old host.new (S.state source.old) (S.state source.new) (K.state sink.old) (K.state sink.new) }
    ensures read_fault { HasCause (S.state source.old).faults (S.state source.new).faults
        (result ≡ Status.ReadFault) }
    ensures write_fault { HasCause (K.state sink.old).faults (K.state sink.new).faults
        (result ≡ Status.WriteFault) }
    ensures unfailing { IsTrue (S.state source.old).unfailing →
        (S.state source.new).faults ≡ (S.state source.old).faults }
{
    match read_script(alloc, source) {
        Ok(bytes) => record_bytes(alloc, bytes.as_slice(), sink, host, natives),
        Err(status) => status,
    }
}
