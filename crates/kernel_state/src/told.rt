//! Answers of children that are told, in place of asking the children.
ghost use Rattle.std.specs.Prelude.{◌≡◌, true, IfOk, OnErr};
ghost use Rattle.plain_machine.specs.Arguments.{is_running};
ghost use Rattle.plain_machine.specs.Refusals.{may_ask};
ghost use Rattle.host_link.specs.Meaning.{answer_of};
ghost use Rattle.kernel_steps.specs.Answers.{HearsAnswer, IsAllowed, IsKilled};
ghost use Rattle.kernel_state.specs.Meaning.{state_of};

use crate::hearing::entry_of;
use crate::kernel::KernelState;
use ek_types::Mem;
use host_link::Answer;
use kernel_steps::{Entry, Heard};

/// Takes up what a process answered about its output, or about its end once its output has ended. A refusal leaves all as
/// it was.
pub(crate) fn take_answer(kernel: &mut KernelState, p: u32, answer: &Answer) -> Mem<Heard>
    requires asked { may_ask (state_of kernel.old) ≡ true }
    requires allowed { IsAllowed (state_of kernel.old) p (answer_of answer.now) }
    ensures ok { IfOk result (HearsAnswer (state_of kernel.old) (state_of kernel.new) p
        (answer_of answer.now)) }
    ensures err { OnErr result (state_of kernel.new ≡ state_of kernel.old) }
{
    let heard = handler_run::take_answer(kernel.alloc, &mut kernel.processes, p, answer)?;
    kernel.asked += 1;
    Ok(Heard {
        bytes: heard.bytes,
        entry: entry_of(p, heard.entry),
    })
}

/// Takes up that a process was killed, and says what is entered then. A refusal leaves all as it was.
pub(crate) fn take_kill(kernel: &mut KernelState, p: u32) -> Mem<Entry>
    requires { is_running (state_of kernel.old) p ≡ true }
    ensures ok { IfOk result (IsKilled (state_of kernel.old) (state_of kernel.new) p) }
    ensures err { OnErr result (state_of kernel.new ≡ state_of kernel.old) }
{
    let entered = handler_run::take_kill(kernel.alloc, &mut kernel.processes, p)?;
    let Some(entry) = entry_of(p, entered) else {
        unreachable!()
    };
    Ok(entry)
}
