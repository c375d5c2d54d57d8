//! The replies of calls.
ghost use Rattle.std.specs.Prelude.{Err};
ghost use Rattle.plain_machine.specs.Items.{Refuse};
ghost use Rattle.ek_call.specs.Faults.{fault_of};
ghost use Rattle.ek_call.specs.Meaning.{view, reply_of};
ghost use Rattle.kernel_steps.specs.Work.{Does, Tells};
ghost use Rattle.kernel_steps.specs.Worlds.{Aside};

use crate::kernel::Kernel;
use crate::program::Program;
use crate::stop::Halt;
use ek_call::{Fault, Reply, Value};
use ek_types::Sink;

/// Writes the line of a reply. A refusal goes on outwards.
#[inline(always)]
pub(crate) fn tell<M: Kernel, P: Program, K: Sink>(
    kernel: &M,
    program: &P,
    sink: &mut K,
    reply: Reply,
) -> Result<Value, Halt>
    ensures { Aside (M.state kernel.now) (M.state kernel.now) (K.state sink.old) (K.state sink.new)
        (Tells result view (P.meant program.now) (reply_of reply)) }
{
    kernel.tell_reply(program.symbols(), &reply, sink)?;
    match reply {
        Reply::Value(value) => Ok(value),
        Reply::Fault(fault) => Err(Halt::Fault(fault)),
    }
}

/// Writes the line of a refusal by a fault, whatever was refused, and says why the work is left: by
/// that fault, or because the line couldn't be written.
pub(crate) fn refuse<M: Kernel, P: Program, K: Sink>(
    kernel: &M,
    program: &P,
    sink: &mut K,
    fault: Fault,
) -> Halt
    ensures { Aside (M.state kernel.now) (M.state kernel.now) (K.state sink.old) (K.state sink.new)
        (Does {T = Unit {0}} (Err result) (P.meant program.now) (Refuse (fault_of fault))) }
{
    match kernel.tell_reply(program.symbols(), &Reply::Fault(fault), sink) {
        Ok(()) => Halt::Fault(fault),
        Err(failed) => Halt::from(failed),
    }
}
