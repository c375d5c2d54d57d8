//! What a step comes to.
use ek_types::{NoMemory, SinkFault};

/// What a step of the machine comes to.
#[derive(Clone, Copy, Debug, PartialEq, Eq)]
pub enum Turn {
    /// One step was made.
    Went,
    /// The run had ended.
    Ended,
    /// The next step asks, and the journal is used up.
    Waits,
    /// The next exchange of the journal isn't the one that the next step makes.
    Off,
}

/// Why a step couldn't be made.
#[derive(Clone, Copy, Debug, PartialEq, Eq)]
pub enum StepFault {
    /// A line couldn't be written.
    Sink,
    /// Memory was wanting.
    NoMemory,
}

/// What an item comes to.
#[derive(Clone, Copy)]
pub(crate) enum Done {
    /// The step asked nothing.
    Alone,
    /// The step asked, and the journal's next exchange has its answer.
    Answered,
    Waits,
    Off,
}

impl From<NoMemory> for StepFault {
    ghost use Rattle.std.specs.Prelude.{◌≡◌};
    ghost use Rattle.trace_check.specs.declared.turn.StepFault.TheVariants as fault;

    ghost from_gives = { λ _ f. f ≡ fault.NoMemory };

    fn from(_: NoMemory) -> StepFault {
        StepFault::NoMemory
    }
}

impl From<SinkFault> for StepFault {
    ghost use Rattle.std.specs.Prelude.{◌≡◌};
    ghost use Rattle.trace_check.specs.declared.turn.StepFault.TheVariants as fault;

    ghost from_gives = { λ _ f. f ≡ fault.Sink };

    fn from(_: SinkFault) -> StepFault {
        StepFault::Sink
    }
}
