//! Why a run ended early, as the line on standard error and the exit status tell it.
ghost use Rattle.std.specs.Prelude.{◌≡◌, None, Some, MatchResult};
ghost use Rattle.shipped_run.specs.Exits.{failure_of, exit_status};

use kernel_top::Status;
use thiserror::Error;

/// What a run came to other than its end, as `Status` of `kernel_top` has it. It reads as the line on standard error.
#[derive(Clone, Copy, Debug, Error)]
pub enum Failure {
    #[error("kernel_cli: usage")]
    Usage,
    /// The line of the script's fault, from 1, and 0 where there are too many bytes.
    #[error("kernel_cli: script: line {0}")]
    Script(u32),
    #[error("kernel_cli: read failed")]
    Read,
    #[error("kernel_cli: write failed")]
    Write,
    #[error("kernel_cli: out of memory")]
    Memory,
    /// The line of the session's or the transcript's fault, from 1, and 0 where there are too many bytes.
    #[error("kernel_cli: journal: line {0}")]
    Journal(u32),
    #[error("kernel_cli: journal too long")]
    JournalFull,
    /// How many of the journal's first exchanges the run goes through.
    #[error("kernel_cli: strayed at {0}")]
    Strayed(u32),
    /// The first line, from 1, that isn't that of the run.
    #[error("kernel_cli: line {0} differs")]
    Differs(u32),
    #[error("kernel_cli: session full")]
    SessionFull,
}

impl Failure {
    /// The status that the program ends with, from 1 to 10, each failure with its own.
    pub fn exit_status(&self) -> u8
        ensures { result ≡ exit_status self.now }
    {
        match self {
            Failure::Usage => 1,
            Failure::Script(_) => 2,
            Failure::Read => 3,
            Failure::Write => 4,
            Failure::Memory => 5,
            Failure::Journal(_) => 6,
            Failure::JournalFull => 7,
            Failure::Strayed(_) => 8,
            Failure::Differs(_) => 9,
            Failure::SessionFull => 10,
        }
    }
}

/// The failure that the end of a run is, unless it was done.
pub fn result_of(status: Status) -> Result<(), Failure>
    ensures { MatchResult result (λ _. failure_of status ≡ None) (λ failure. failure_of status ≡ Some failure) }
{
    match status {
        Status::Done => Ok(()),
        Status::Usage => Err(Failure::Usage),
        Status::Script(line) => Err(Failure::Script(line)),
        Status::ReadFault => Err(Failure::Read),
        Status::WriteFault => Err(Failure::Write),
        Status::NoMemory => Err(Failure::Memory),
        Status::Journal(line) => Err(Failure::Journal(line)),
        Status::JournalFull => Err(Failure::JournalFull),
        Status::Strayed(most) => Err(Failure::Strayed(most)),
        Status::Differs(line) => Err(Failure::Differs(line)),
        Status::SessionFull => Err(Failure::SessionFull),
    }
}
