//! Calls that ask no child.
ghost use Rattle.std.specs.Prelude.{◌≡◌, ◌∷◌, map, OnOk};
ghost use Rattle.editor_model.specs.Prims.{ChangesText, ConcernsHandlers, OnlyAsks, SetsState};
ghost use Rattle.editor_model.specs.Prims.{manner_of};
ghost use Rattle.editor_model.specs.Values.{AcceptProcessOutput, DeleteProcess, KillBuffer};
ghost use Rattle.editor_model.specs.Table.{commit};
ghost use Rattle.plain_machine.specs.Items.{GiveAnswer, MakeCall, MakeChange};
ghost use Rattle.plain_machine.specs.Items.{KillBuffer as KillsBuffer};
ghost use Rattle.plain_machine.specs.State.{Program as Plain};
ghost use Rattle.ek_types.specs.Listing.{items_of};
ghost use Rattle.ek_call.specs.Meaning.{view};
ghost use Rattle.ek_call.specs.Primitives.{prim_of};
ghost use Rattle.prim_changes.specs.Meaning.{change_of};
ghost use Rattle.kernel_steps.specs.Processes.{IsSilent};
ghost use Rattle.kernel_steps.specs.Waits.{Passes};
ghost use Rattle.trace_check.specs.Meaning.{list_of, target_of};
ghost use Rattle.trace_check.specs.Steps.{Quietly};

use crate::item::{Item, Target};
use crate::replies::put_reply;
use crate::waiting::Waiting;
use crate::work::Work;
use editor_prims::{Change, Prepared};
use ek_call::{Primitive, Value, Values};
use ek_types::{Copied, Mem};
use kernel_steps::{Kernel, Program};

/// A call that only asks the editor.
pub(crate) fn ask_editor<M: Kernel>(
    kernel: &M,
    work: &mut Work,
    prim: Primitive,
    args: &Values,
    target: Target,
) -> Mem<()>
    requires { manner_of (prim_of prim) ≡ OnlyAsks }
    ensures { (program : Plain) → OnOk result (Quietly program (M.state kernel.now) (M.state kernel.now)
        (MakeCall (prim_of prim) (map view (items_of args.now)) (target_of target) ∷ (list_of work.old))
        (list_of work.new)) }
{
    let reply = kernel.query(prim, args)?;
    put_reply(work, reply, target)
}

/// A call that sets state and is heard by no hook.
pub(crate) fn set_editor<M: Kernel>(
    kernel: &mut M,
    work: &mut Work,
    prim: Primitive,
    args: &Values,
    target: Target,
) -> Mem<()>
    requires { manner_of (prim_of prim) ≡ SetsState }
    ensures { (program : Plain) → OnOk result (Quietly program (M.state kernel.old) (M.state kernel.new)
        (MakeCall (prim_of prim) (map view (items_of args.now)) (target_of target) ∷ (list_of work.old))
        (list_of work.new)) }
{
    let reply = kernel.apply(prim, args)?;
    put_reply(work, reply, target)
}

/// A call that changes a text.
pub(crate) fn change_text<M: Kernel>(
    kernel: &mut M,
    work: &mut Work,
    prim: Primitive,
    args: &Values,
    target: Target,
) -> Mem<()>
    requires { manner_of (prim_of prim) ≡ ChangesText }
    ensures { (program : Plain) → OnOk result (Quietly program (M.state kernel.old) (M.state kernel.new)
        (MakeCall (prim_of prim) (map view (items_of args.now)) (target_of target) ∷ (list_of work.old))
        (list_of work.new)) }
{
    match kernel.prepare(prim, args)? {
        Prepared::Change(change) => put_change(work, change, target),
        Prepared::Quiet(change) => change_quietly(kernel, work, &change, target),
        Prepared::Nothing(value) => work.put(Item::GiveAnswer { value, target }),
        Prepared::Fault(fault) => work.put(Item::Refuse(fault)),
    }
}

/// Puts a change in front, and its answer behind it.
fn put_change(work: &mut Work, change: Change, target: Target) -> Mem<()>
    ensures { OnOk result (list_of work.new ≡ MakeChange (change_of change) ∷
        GiveAnswer (change_of change).reply (target_of target) ∷ (list_of work.old)) }
{
    put_answer(work, &change, target)?;
    work.put(Item::MakeChange(change))
}

/// Makes a change that no hook hears of, and puts its answer in front.
fn change_quietly<M: Kernel>(
    kernel: &mut M,
    work: &mut Work,
    change: &Change,
    target: Target,
) -> Mem<()>
    ensures state { OnOk result (M.state kernel.new ≡
        record (M.state kernel.old) {
          editor = (commit (M.state kernel.old).editor (change_of change.now)).editor;
        }) }
    ensures work { OnOk result (list_of work.new ≡
        GiveAnswer (change_of change.now).reply (target_of target) ∷ (list_of work.old)) }
{
    kernel.commit_quiet(change)?;
    put_answer(work, change, target)
}

/// Puts the answer of a change in front.
fn put_answer(work: &mut Work, change: &Change, target: Target) -> Mem<()>
    ensures { OnOk result (list_of work.new ≡
        GiveAnswer (change_of change.now).reply (target_of target) ∷ (list_of work.old)) }
{
    let value = change.reply.copy()?;
    work.put(Item::GiveAnswer { value, target })
}

/// A call on hooks or processes that asks and enters nothing.
pub(crate) fn call_silently<M: Kernel, P: Program>(
    kernel: &mut M,
    program: &P,
    work: &mut Work,
    prim: Primitive,
    args: &Values,
    target: Target,
) -> Mem<()>
    requires silent { IsSilent (prim_of prim) }
    requires manner { manner_of (prim_of prim) ≡ ConcernsHandlers }
    requires passes { Passes (P.meant program.now) (M.state kernel.old) (prim_of prim)
        (map view (items_of args.now)) }
    ensures { OnOk result (Quietly (P.meant program.now) (M.state kernel.old) (M.state kernel.new)
        (MakeCall (prim_of prim) (map view (items_of args.now)) (target_of target) ∷ (list_of work.old))
        (list_of work.new)) }
{
    let value = kernel.call_silently(program, prim, args)?;
    work.put(Item::GiveAnswer { value, target })
}

/// A wait for output.
pub(crate) fn accept_output<M: Kernel, P: Program>(
    kernel: &M,
    program: &P,
    work: &mut Work,
    args: &Values,
    target: Target,
) -> Mem<()>
    requires { Passes (P.meant program.now) (M.state kernel.now) AcceptProcessOutput (map view (items_of args.now)) }
    ensures { OnOk result (Quietly (P.meant program.now) (M.state kernel.now) (M.state kernel.now)
        (MakeCall AcceptProcessOutput (map view (items_of args.now)) (target_of target) ∷ (list_of work.old))
        (list_of work.new)) }
{
    let waiting = Waiting::new(kernel, args);
    work.put(Item::Wait { waiting, target })
}

/// The deletion of a process.
pub(crate) fn delete_process<M: Kernel, P: Program>(
    kernel: &M,
    program: &P,
    work: &mut Work,
    args: &Values,
    target: Target,
) -> Mem<()>
    requires { Passes (P.meant program.now) (M.state kernel.now) DeleteProcess (map view (items_of args.now)) }
    ensures { OnOk result (Quietly (P.meant program.now) (M.state kernel.now) (M.state kernel.now)
        (MakeCall DeleteProcess (map view (items_of args.now)) (target_of target) ∷ (list_of work.old))
        (list_of work.new)) }
{
    let process = kernel.process_given(args);
    work.put(Item::GiveAnswer {
        value: Value::Nil,
        target,
    })?;
    work.put(Item::Delete { process })
}

/// The killing of a buffer, behind the deletions of its processes.
pub(crate) fn kill_buffer<M: Kernel, P: Program>(
    kernel: &M,
    program: &P,
    work: &mut Work,
    args: &Values,
    target: Target,
) -> Mem<()>
    requires { Passes (P.meant program.now) (M.state kernel.now) KillBuffer (map view (items_of args.now)) }
    ensures { OnOk result (Quietly (P.meant program.now) (M.state kernel.now) (M.state kernel.now)
        (MakeCall KillBuffer (map view (items_of args.now)) (target_of target) ∷ (list_of work.old))
        (list_of work.new)) }
{
    let buffer = kernel.buffer_given(args);
    let doomed = kernel.running_in(buffer)?;
    work.put(Item::KillBuffer { buffer, target })?;
    for i in 0..doomed.len() {
        let process = doomed[doomed.len() - 1 - i];
        work.put(Item::Delete { process })?;
    }
    Ok(())
}

/// A buffer is killed, unless it was meanwhile.
pub(crate) fn kill_live<M: Kernel>(
    kernel: &mut M,
    work: &mut Work,
    buffer: u32,
    target: Target,
) -> Mem<()>
    ensures { (program : Plain) → OnOk result (Quietly program (M.state kernel.old) (M.state kernel.new)
        (KillsBuffer buffer (target_of target) ∷ (list_of work.old)) (list_of work.new)) }
{
    let reply = kernel.kill_live(buffer)?;
    put_reply(work, reply, target)
}
