//! Why a call gives no answer.
ghost use Rattle.std.specs.Prelude.{◌≡◌};

use ek_call::Fault;
use ek_types::NoMemory;

/// Why a call gives no answer: it is refused, or memory was wanting.
#[derive(Clone, Copy, Debug, PartialEq, Eq)]
pub enum Failure {
    Refused(Fault),
    NoMemory,
}

impl From<Fault> for Failure {
    ghost use Rattle.prim_arguments.specs.declared.failure.Failure.TheVariants as failure;

    ghost from_gives = { λ fault e. e ≡ failure.Refused fault };

    fn from(fault: Fault) -> Failure {
        Failure::Refused(fault)
    }
}

impl From<NoMemory> for Failure {
    ghost use Rattle.prim_arguments.specs.declared.failure.Failure.TheVariants as failure;

    ghost from_gives = { λ _ e. e ≡ failure.NoMemory };

    fn from(_: NoMemory) -> Failure {
        Failure::NoMemory
    }
}
