//! The word `replay`: a session is read, and its script run over the exchanges of its journal.
ghost use Rattle.std.specs.Prelude.{◌≡◌, ◌<◌, ◌≤◌, ◌^◌, ◌==◌, ◌&&◌, not, ℕ, List, length, IsTrue};
ghost use Rattle.std.specs.Io.KnownBytes.{Appends};
ghost use Rattle.ek_types.specs.Io.{HasCause};
ghost use Rattle.ek_call.specs.Meaning.{script_of};
ghost use Rattle.host_link.specs.Meaning.{exchanges_of};
ghost use Rattle.journal_text.specs.Lines.{longest_session};
ghost use Rattle.journal_text.specs.Allowed.{AreAnswered};
ghost use Rattle.journal_text.specs.Replayed.{new_replay};
ghost use Rattle.kernel_state.specs.Whole.{program_with};
ghost use Rattle.kernel_top.specs.Unseen.{IsWhole};
ghost use Rattle.kernel_top.specs.Replaying.{Followed, ReplayedOn, Replayed, SourceSettled};

use crate::reading::{read_session, script_in};
use crate::status::{Status, status_of};
use crate::unseen::run_unseen;
use ek_call::Script;
use ek_types::{Sink, Source};
use handler_code::Natives;
use host_link::Exchanges;
use journal_text::{JournalFault, Replay, read_journal};
use kernel_run::Kernel;
use std::alloc::Global;

/// Whether all of a journal of so many exchanges was followed.
fn is_followed(host: &Replay, count: usize) -> bool
    ensures { result ≡ (not host.now.strayed && (host.now.matched == count)) }
{
    !host.strayed() && host.matched() == count
}

/// Runs the script over a journal of so many exchanges, with its lines thrown away: whether it follows all of it.
fn follow<N: Natives>(
    alloc: Global,
    script: &Script,
    host: &mut Replay,
    count: usize,
    natives: &N,
) -> Result<(), Status>
    requires fresh { host.old ≡ new_replay host.old.list }
    requires count { count ≡ length host.old.list }
    requires few { count < 2 ^ 32 }
    requires answered { AreAnswered 0 host.old.list }
    ensures kept { host.new.list ≡ host.old.list }
    ensures followed { Followed result (program_with N.names N.does (script_of script.now) natives.now)
        (script_of script.now) host.old.list }
{
    let ran = run_unseen(alloc, script, host, natives);
    let Ok(()) = ran else {
        return Err(Status::NoMemory);
    };
    if is_followed(host, count) {
        Ok(())
    } else {
        Err(Status::Strayed(host.matched() as u32))
    }
}

/// Runs the script over a journal that its run follows to the end, and writes its lines and the dump.
fn write_run<K: Sink, N: Natives>(
    alloc: Global,
    script: &Script,
    host: &mut Replay,
    sink: &mut K,
    natives: &N,
) -> Status
    requires fresh { host.old ≡ new_replay host.old.list }
    requires answered { AreAnswered 0 host.old.list }
    requires whole { IsWhole (program_with N.names N.does (script_of script.now) natives.now)
        (script_of script.now) host.old.list }
    ensures written { (written : List ℕ) × Appends (K.state sink.old).held (K.state sink.new).held written
        × ReplayedOn (program_with N.names N.does (script_of script.now) natives.now) result (script_of script.now)
        host.old.list written (K.state sink.old) (K.state sink.new) }
    ensures write_fault { HasCause (K.state sink.old).faults (K.state sink.new).faults
        (result ≡ Status.WriteFault) }
{
    let Ok(mut kernel) = Kernel::new(alloc) else {
        return Status::NoMemory;
    };
    let ended = kernel.run_script(script, natives, host, sink);
    kernel.close();
    status_of(ended)
}

/// Runs the script over the journal twice: to see whether it follows it to its end, and then for its lines.
fn replay_script<K: Sink, N: Natives>(
    alloc: Global,
    script: &Script,
    journal: Exchanges,
    sink: &mut K,
    natives: &N,
) -> Status
    requires few { length (exchanges_of journal) < 2 ^ 32 }
    requires answered { AreAnswered 0 (exchanges_of journal) }
    ensures written { (written : List ℕ) × Appends (K.state sink.old).held (K.state sink.new).held written
        × ReplayedOn (program_with N.names N.does (script_of script.now) natives.now) result (script_of script.now)
        (exchanges_of journal) written (K.state sink.old) (K.state sink.new) }
    ensures write_fault { HasCause (K.state sink.old).faults (K.state sink.new).faults
        (result ≡ Status.WriteFault) }
{
    let count = journal.len();
    let mut host = Replay::new(journal);
    match follow(alloc, script, &mut host, count, natives) {
        Ok(()) => {
            host.restart();
            write_run(alloc, script, &mut host, sink, natives)
        }
        Err(status) => status,
    }
}

/// Reads the session that some bytes are, and replays it.
fn replay_bytes<K: Sink, N: Natives>(
    alloc: Global,
    bytes: &[u8],
    sink: &mut K,
    natives: &N,
) -> Status
    requires { length bytes.now ≤ longest_session }
    ensures written { (written : List ℕ) × Appends (K.state sink.old).held (K.state sink.new).held written
        × Replayed (λ script. program_with N.names N.does script natives.now) result bytes.now written
        (K.state sink.old) (K.state sink.new) }
    ensures write_fault { HasCause (K.state sink.old).faults (K.state sink.new).faults
        (result ≡ Status.WriteFault) }
{
    let (journal, at) = match read_journal(alloc, bytes) {
        Ok(found) => found,
        Err(JournalFault::Line(line)) => return Status::Journal(line),
        Err(JournalFault::NoMemory) => return Status::NoMemory,
    };
    let script = match script_in(alloc, &bytes[at..]) {
        Ok(script) => script,
        Err(status) => return status,
    };
    replay_script(alloc, &script, journal, sink, natives)
}

/// Reads the session that the source holds, and replays it.
pub(crate) fn replay_source<S: Source, K: Sink, N: Natives>(
    alloc: Global,
    source: &mut S,
    sink: &mut K,
    natives: &N,
) -> Status
    ensures outcome { SourceSettled (Replayed (λ script. program_with N.names N.does script natives.now)) result
        (S.state source.old) (S.state source.new) (K.state sink.old) (K.state sink.new) }
    ensures read_fault { HasCause (S.state source.old).faults (S.state source.new).faults
        (result ≡ Status.ReadFault) }
    ensures write_fault { HasCause (K.state sink.old).faults (K.state sink.new).faults
        (result ≡ Status.WriteFault) }
    ensures unfailing { IsTrue (S.state source.old).unfailing →
        (S.state source.new).faults ≡ (S.state source.old).faults }
{
    match read_session(alloc, source) {
        Ok(bytes) => replay_bytes(alloc, bytes.as_slice(), sink, natives),
        Err(status) => status,
    }
}
