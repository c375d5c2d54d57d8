//! Why a piece of a run's work doesn't go on.
ghost use Rattle.std.specs.Prelude.{◌≡◌};

use ek_call::Fault;
use ek_types::{NoMemory, SinkFault};

/// Why a run is broken off before the end of its script.
#[derive(Clone, Copy, Debug, PartialEq, Eq)]
pub enum Stop {
    /// A line couldn't be written.
    WriteFault,
    /// Memory was wanting.
    NoMemory,
}

/// Why a piece of work is left early: by a fault that was told and goes on outwards, or because the
/// run is broken off.
#[derive(Clone, Copy, Debug, PartialEq, Eq)]
pub enum Halt {
    /// A fault that was told.
    Fault(Fault),
    /// The run is broken off.
    Stop(Stop),
}

impl From<NoMemory> for Stop {
    ghost use Rattle.kernel_steps.specs.declared.stop.Stop.TheVariants as stop;

    ghost from_gives = { λ _ s. s ≡ stop.NoMemory };

    fn from(_: NoMemory) -> Stop {
        Stop::NoMemory
    }
}

impl From<SinkFault> for Stop {
    ghost use Rattle.kernel_steps.specs.declared.stop.Stop.TheVariants as stop;

    ghost from_gives = { λ _ s. s ≡ stop.WriteFault };

    fn from(_: SinkFault) -> Stop {
        Stop::WriteFault
    }
}

impl From<NoMemory> for Halt {
    ghost use Rattle.kernel_steps.specs.declared.stop.Stop.TheVariants as stop;
    ghost use Rattle.kernel_steps.specs.declared.stop.Halt.TheVariants as halt;

    ghost from_gives = { λ _ h. h ≡ halt.Stop stop.NoMemory };

    fn from(_: NoMemory) -> Halt {
        Halt::Stop(Stop::NoMemory)
    }
}

impl From<SinkFault> for Halt {
    ghost use Rattle.kernel_steps.specs.declared.stop.Stop.TheVariants as stop;
    ghost use Rattle.kernel_steps.specs.declared.stop.Halt.TheVariants as halt;

    ghost from_gives = { λ _ h. h ≡ halt.Stop stop.WriteFault };

    fn from(_: SinkFault) -> Halt {
        Halt::Stop(Stop::WriteFault)
    }
}

impl From<Stop> for Halt {
    ghost use Rattle.kernel_steps.specs.declared.stop.Halt.TheVariants as halt;

    ghost from_gives = { λ why h. h ≡ halt.Stop why };

    fn from(why: Stop) -> Halt {
        Halt::Stop(why)
    }
}
