//! How a run ends.
ghost use Rattle.std.specs.Prelude.{◌≡◌};
ghost use Rattle.kernel_top.specs.Outcomes.{status_of, written_status};

use ek_types::SinkFault;
use kernel_run::Stop;

/// How a run ends.
#[derive(Clone, Copy, Debug, PartialEq, Eq)]
pub enum Status {
    /// The script ran to its end, and all lines and the dump are written; or its session, its view, the summary of a
    /// drill, the text of a line session, or the line `yes`, which says that the claimed lines are those of the run.
    Done,
    /// The words are neither `run`, `record`, `replay`, `check` or `view` alone, nor `drill` and a number of one to
    /// four digits, nor `session` with a number, a program and its words. Nothing was read or written.
    Usage,
    /// The bytes of the source are no script. The line is that at which they go wrong, and 0 where they are more than
    /// a script may have. Nothing was written.
    Script(u32),
    /// The source failed. Nothing was written.
    ReadFault,
    /// The sink failed. What is written is the front of the run's lines, of its session, of its view, of the summary
    /// of a drill, of the text of a line session, or of the line `yes`.
    WriteFault,
    /// Memory was wanting. What is written is whole lines of the run or of the replay, and nothing of a session, a
    /// view, a drill, a line session or a check.
    NoMemory,
    /// The bytes of the source are no session, or for `check` no transcript. The line is that at which they go wrong,
    /// and 0 where they are more than 268,435,456. Nothing was written.
    Journal(u32),
    /// The session of the run is longer than 268,435,456 bytes. Nothing was written.
    JournalFull,
    /// The run of the session's script doesn't end with all exchanges of its journal used up. The number is how many of
    /// the journal's first exchanges it goes through, at most. Nothing was written.
    Strayed(u32),
    /// The claimed lines aren't those of the run. The line is that of the first difference, from 1. Nothing was
    /// written.
    Differs(u32),
    /// The buffer of a line session became full, and a part of its output is lost. What is written is the text that it
    /// had.
    SessionFull,
}

/// The status of a script that was run, by how that ended.
pub(crate) fn status_of(ended: Result<(), Stop>) -> Status
    ensures { result ≡ status_of ended }
{
    match ended {
        Ok(()) => Status::Done,
        Err(Stop::WriteFault) => Status::WriteFault,
        Err(Stop::NoMemory) => Status::NoMemory,
    }
}

/// The status of what is written last, by whether it was.
pub(crate) fn written_status(written: Result<(), SinkFault>) -> Status
    ensures { result ≡ written_status written }
{
    match written {
        Ok(()) => Status::Done,
        Err(_) => Status::WriteFault,
    }
}
