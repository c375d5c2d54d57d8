//! The word `check`: a transcript is read, and its claimed lines compared with those of its script's run on its
//! journal, by a second machine.
ghost use Rattle.std.specs.Prelude.{◌≡◌, ◌<◌, ◌≤◌, ◌^◌, ℕ, List, length, IsTrue};
ghost use Rattle.std.specs.Io.KnownBytes.{Appends};
ghost use Rattle.ek_types.specs.Io.{HasCause};
ghost use Rattle.ek_call.specs.Meaning.{script_of};
ghost use Rattle.host_link.specs.Meaning.{exchanges_of};
ghost use Rattle.journal_text.specs.Lines.{longest_session};
ghost use Rattle.journal_text.specs.Transcripts.{IsTranscriptTo};
ghost use Rattle.kernel_state.specs.Whole.{program_with};
ghost use Rattle.kernel_top.specs.Checking.{Judged, Checked, Told};
ghost use Rattle.kernel_top.specs.Replaying.{SourceSettled};

use crate::reading::{read_session, script_in};
use crate::status::{Status, written_status};
use ek_call::Script;
use ek_types::{Sink, Source, write_all};
use handler_code::Natives;
use host_link::Exchanges;
use journal_text::{JournalFault, Transcript, read_transcript};
use std::alloc::Global;
use trace_check::{Verdict, check};

/// The verdict on claimed lines.
fn judge<N: Natives>(
    alloc: Global,
    script: &Script,
    journal: &Exchanges,
    claimed: &[u8],
    natives: &N,
) -> Status
    requires few { length (exchanges_of journal.now) < 2 ^ 32 }
    requires short { length claimed.now ≤ longest_session }
    ensures { Judged result (program_with N.names N.does (script_of script.now) natives.now)
        (script_of script.now) (exchanges_of journal.now) claimed.now }
{
    match check(alloc, script, natives, journal, claimed) {
        Ok(Verdict::Yes) => Status::Done,
        Ok(Verdict::Strayed(most)) => Status::Strayed(most),
        Ok(Verdict::Differs(line)) => Status::Differs(line),
        Err(_) => Status::NoMemory,
    }
}

/// Reads the script of a transcript that was found in some bytes, and judges its claimed lines.
fn check_found<N: Natives>(alloc: Global, bytes: &[u8], found: &Transcript, natives: &N) -> Status
    requires short { length bytes.now ≤ longest_session }
    requires read { IsTranscriptTo bytes.now (exchanges_of found.now.journal) found.now.from found.now.to
        found.now.script }
    ensures { Checked (λ script. program_with N.names N.does script natives.now) result bytes.now }
{
    match script_in(alloc, &bytes[found.script..]) {
        Ok(script) => judge(
            alloc,
            &script,
            &found.journal,
            &bytes[found.from..found.to],
            natives,
        ),
        Err(status) => status,
    }
}

/// Reads the transcript that some bytes are, and judges its claimed lines. Nothing is written.
fn check_bytes<N: Natives>(alloc: Global, bytes: &[u8], natives: &N) -> Status
    requires { length bytes.now ≤ longest_session }
    ensures { Checked (λ script. program_with N.names N.does script natives.now) result bytes.now }
{
    match read_transcript(alloc, bytes) {
        Ok(found) => check_found(alloc, bytes, &found, natives),
        Err(JournalFault::Line(line)) => Status::Journal(line),
        Err(JournalFault::NoMemory) => Status::NoMemory,
    }
}

/// Reads the transcript that some bytes are, judges its claimed lines, and writes one line where they are those of
/// the run.
fn answer_bytes<K: Sink, N: Natives>(
    alloc: Global,
    bytes: &[u8],
    sink: &mut K,
    natives: &N,
) -> Status
    requires { length bytes.now ≤ longest_session }
    ensures written { (written : List ℕ) × Appends (K.state sink.old).held (K.state sink.new).held written
        × Told (λ script. program_with N.names N.does script natives.now) result bytes.now written
        (K.state sink.old) (K.state sink.new) }
    ensures write_fault { HasCause (K.state sink.old).faults (K.state sink.new).faults
        (result ≡ Status.WriteFault) }
{
    match check_bytes(alloc, bytes, natives) {
        Status::Done => written_status(write_all(sink, b"yes\n")),
        status => status,
    }
}

/// Reads the transcript that the source holds, and judges its claimed lines.
pub(crate) fn check_source<S: Source, K: Sink, N: Natives>(
    alloc: Global,
    source: &mut S,
    sink: &mut K,
    natives: &N,
) -> Status
    ensures outcome { SourceSettled (Told (λ script. program_with N.names N.does script natives.now)) result
        (S.state source.old) (S.state source.new) (K.state sink.old) (K.state sink.new) }
    ensures read_fault { HasCause (S.state source.old).faults (S.state source.new).faults
        (result ≡ Status.ReadFault) }
    ensures write_fault { HasCause (K.state sink.old).faults (K.state sink.new).faults
        (result ≡ Status.WriteFault) }
    ensures unfailing { IsTrue (S.state source.old).unfailing →
        (S.state source.new).faults ≡ (S.state source.old).faults }
{
    match read_session(alloc, source) {
        Ok(bytes) => answer_bytes(alloc, bytes.as_slice(), sink, natives),
        Err(status) => status,
    }
}
