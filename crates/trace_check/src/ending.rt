//! The end of a run.
ghost use Rattle.std.specs.Prelude.{◌≡◌, ◌<◌, ◌∷◌, [], Err, option_map, OnOk};
ghost use Rattle.plain_machine.specs.Items.{Finish, WriteDump};
ghost use Rattle.ek_types.specs.Io.{HasCause};
ghost use Rattle.host_link.specs.Meaning.{exchange_of};
ghost use Rattle.trace_check.specs.Meaning.{item_of, list_of, places_of};
ghost use Rattle.trace_check.specs.Steps.{Aloud, Comes};

use crate::asks::{Question, meet};
use crate::item::Item;
use crate::turn::{Done, StepFault};
use crate::waits::is_running;
use crate::work::Work;
use ek_types::Sink;
use host_link::Exchange;
use kernel_steps::{Kernel, Program};

/// Nothing is left but this.
fn leave_only(work: &mut Work, item: Item)
    requires { 0 < places_of work.old }
    ensures { list_of work.new ≡ item_of item ∷ [] }
{
    work.clear();
    work.put_back(item);
}

/// A process that still runs is killed, with a line. Behind the last one comes the dump.
pub(crate) fn finish<M: Kernel, P: Program, K: Sink>(
    kernel: &M,
    program: &P,
    work: &mut Work,
    sink: &mut K,
    p: u32,
    next: Option<&Exchange>,
) -> Result<Done, StepFault>
    requires { 0 < places_of work.old }
    ensures step { Comes result (P.meant program.now) (option_map (λ x. exchange_of x.now) next.entry)
        (M.state kernel.now) (M.state kernel.now) (Finish p ∷ (list_of work.old)) (list_of work.new)
        (K.state sink.old) (K.state sink.new) }
    ensures cause { HasCause (K.state sink.old).faults (K.state sink.new).faults (result ≡
        Err StepFault.Sink) }
{
    if p >= kernel.processes().count() {
        leave_only(work, Item::WriteDump);
        return Ok(Done::Alone);
    }
    let child = kernel.processes().get(p).child();
    if !is_running(kernel, p) {
        leave_only(work, Item::Finish { process: p + 1 });
        return Ok(Done::Alone);
    }
    match meet(next, &Question::Kill(child)) {
        Err(missed) => {
            work.put_back(Item::Finish { process: p });
            Ok(missed)
        }
        Ok(_) => {
            kernel.tell_kill(program.symbols(), p, sink)?;
            leave_only(work, Item::Finish { process: p + 1 });
            Ok(Done::Answered)
        }
    }
}

/// The dump is written, and the run has ended.
pub(crate) fn write_dump<M: Kernel, P: Program, K: Sink>(
    kernel: &M,
    program: &P,
    work: &mut Work,
    sink: &mut K,
) -> Result<(), StepFault>
    ensures step { OnOk result (Aloud (P.meant program.now) (M.state kernel.now) (M.state kernel.now)
        (WriteDump ∷ (list_of work.old)) (list_of work.new) (K.state sink.old) (K.state sink.new)) }
    ensures cause { HasCause (K.state sink.old).faults (K.state sink.new).faults (result ≡
        Err StepFault.Sink) }
{
    kernel.tell_dump(program.symbols(), sink)?;
    work.clear();
    Ok(())
}
