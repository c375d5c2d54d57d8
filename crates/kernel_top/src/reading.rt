//! The bytes of a source.
ghost use Rattle.std.specs.Prelude.{◌≡◌, ◌<◌, ◌^◌, IfOk, IfErr, IsTrue, Err};
ghost use Rattle.plain_machine.specs.Grammar.{longest_script, IsScript};
ghost use Rattle.ek_types.specs.Io.{HasCause};
ghost use Rattle.ek_call.specs.Meaning.{script_of};
ghost use Rattle.journal_text.specs.Lines.{longest_session};
ghost use Rattle.kernel_top.specs.Reading.{IsAll, IsGivenUp};
ghost use Rattle.kernel_top.specs.Scripts.{TellsNoScript, LeavesScriptUnread};
ghost use Rattle.kernel_top.specs.Replaying.{LeavesSessionUnread};

use crate::status::Status;
use ek_call::Script;
use ek_types::{Source, Took};
use journal_text::LONGEST_SESSION;
use script_read::{LONGEST_SCRIPT, ScriptFault, read};
use std::alloc::{AllocError, Global};

/// Why the bytes of a source weren't had.
#[derive(Clone, Copy, Debug, PartialEq, Eq)]
pub enum Refused {
    /// The source failed.
    Failed,
    /// They are more than were wanted.
    TooLong,
    /// Memory was wanting for them.
    NoMemory,
}

impl From<AllocError> for Refused {
    ghost use Rattle.kernel_top.specs.declared.reading.Refused.TheVariants as refused;

    ghost from_gives = { λ _ r. r ≡ refused.NoMemory };

    fn from(_: AllocError) -> Refused {
        Refused::NoMemory
    }
}

/// The most bytes that a source is asked for at once.
const PIECE: usize = 4096;

/// All the bytes of a source that has at most so many. No more than one byte behind them is asked for.
pub(crate) fn read_all<S: Source>(
    alloc: Global,
    source: &mut S,
    most: usize,
) -> Result<Vec<u8>, Refused>
    requires { most < 2 ^ 32 }
    ensures all { IfOk result (λ all. IsAll most all.items (S.state source.old) (S.state source.new)) }
    ensures some { IfErr result (λ why. IsGivenUp most why (S.state source.old) (S.state source.new)) }
    ensures cause { HasCause (S.state source.old).faults (S.state source.new).faults
        (result ≡ Err Refused.Failed) }
    ensures unfailing { IsTrue (S.state source.old).unfailing →
        (S.state source.new).faults ≡ (S.state source.old).faults }
{
    let mut all = Vec::new(alloc);
    let mut piece = [0u8; PIECE];
    while all.len() <= most {
        let room = PIECE.min(most + 1 - all.len());
        match source.read(&mut piece[..room]) {
            Took::Bytes(n) => all.extend_from_slice(&piece[..n])?,
            Took::End => return Ok(all),
            Took::Failed => return Err(Refused::Failed),
        }
    }
    Err(Refused::TooLong)
}

/// All the bytes of a script, which has at most 1,048,576; or the status where they weren't had.
pub(crate) fn read_script<S: Source>(alloc: Global, source: &mut S) -> Result<Vec<u8>, Status>
    ensures all { IfOk result (λ all. IsAll longest_script all.items (S.state source.old) (S.state source.new)) }
    ensures none { IfErr result (λ status. LeavesScriptUnread status (S.state source.old) (S.state source.new)) }
    ensures cause { HasCause (S.state source.old).faults (S.state source.new).faults
        (result ≡ Err Status.ReadFault) }
    ensures unfailing { IsTrue (S.state source.old).unfailing →
        (S.state source.new).faults ≡ (S.state source.old).faults }
{
    match read_all(alloc, source, LONGEST_SCRIPT) {
        Ok(bytes) => Ok(bytes),
        Err(Refused::Failed) => Err(Status::ReadFault),
        Err(Refused::TooLong) => Err(Status::Script(0)),
        Err(Refused::NoMemory) => Err(Status::NoMemory),
    }
}

/// The script that some bytes are, or the status where they are none.
pub(crate) fn script_in(alloc: Global, bytes: &[u8]) -> Result<Script, Status>
    ensures script { IfOk result (λ script. IsScript bytes.now (script_of script)) }
    ensures none { IfErr result (λ status. TellsNoScript status bytes.now) }
{
    match read(alloc, bytes) {
        Ok(script) => Ok(script),
        Err(ScriptFault::Line(line)) => Err(Status::Script(line)),
        Err(ScriptFault::NoMemory) => Err(Status::NoMemory),
    }
}

/// All the bytes of a session or a transcript, which has at most 268,435,456; or the status where they weren't had.
pub(crate) fn read_session<S: Source>(alloc: Global, source: &mut S) -> Result<Vec<u8>, Status>
    ensures all { IfOk result (λ all. IsAll longest_session all.items (S.state source.old) (S.state source.new)) }
    ensures none { IfErr result (λ status. LeavesSessionUnread status (S.state source.old) (S.state source.new)) }
    ensures cause { HasCause (S.state source.old).faults (S.state source.new).faults
        (result ≡ Err Status.ReadFault) }
    ensures unfailing { IsTrue (S.state source.old).unfailing →
        (S.state source.new).faults ≡ (S.state source.old).faults }
{
    match read_all(alloc, source, LONGEST_SESSION) {
        Ok(bytes) => Ok(bytes),
        Err(Refused::Failed) => Err(Status::ReadFault),
        Err(Refused::TooLong) => Err(Status::Journal(0)),
        Err(Refused::NoMemory) => Err(Status::NoMemory),
    }
}
