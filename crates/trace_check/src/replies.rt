//! The replies of calls, and faults.
ghost use Rattle.std.specs.Prelude.{◌≡◌, ◌<◌, ◌∷◌, false, Err, IfOk, OnOk};
ghost use Rattle.plain_machine.specs.Items.{GiveAnswer, Refuse};
ghost use Rattle.editor_model.specs.Values.{Answered, Value as Meant};
ghost use Rattle.plain_machine.specs.Forms.{assigned, kept_reply};
ghost use Rattle.ek_types.specs.Io.{HasCause};
ghost use Rattle.ek_call.specs.Faults.{fault_of};
ghost use Rattle.ek_call.specs.Meaning.{reply_of, view};
ghost use Rattle.kernel_steps.specs.Work.{reply_item};
ghost use Rattle.trace_check.specs.Meaning.{item_of, list_of, places_of, target_of};
ghost use Rattle.trace_check.specs.Steps.{Aloud, Drops, DropsBy};
ghost use Rattle.trace_check.specs.Replies.{HandsOn};

use crate::item::{Item, Target};
use crate::turn::StepFault;
use crate::work::Work;
use ek_call::{Fault, Reply, Value};
use ek_types::{Mem, Sink, Sym};
use kernel_steps::{Kernel, Program, Stepped};

/// Puts the item of a reply in front.
pub(crate) fn put_reply(work: &mut Work, reply: Reply, target: Target) -> Mem<()>
    ensures { OnOk result (list_of work.new ≡ reply_item (reply_of reply) (target_of target) ∷ (list_of work.old)) }
{
    match reply {
        Reply::Value(value) => work.put(Item::GiveAnswer { value, target }),
        Reply::Fault(fault) => work.put(Item::Refuse(fault)),
    }
}

/// An answer is told, and goes where it is wanted.
pub(crate) fn give_answer<M: Kernel, P: Program, K: Sink>(
    kernel: &mut M,
    program: &P,
    work: &mut Work,
    sink: &mut K,
    value: Value,
    target: Target,
) -> Result<(), StepFault>
    ensures step { OnOk result (Aloud (P.meant program.now) (M.state kernel.old) (M.state kernel.new)
        (GiveAnswer (view value) (target_of target) ∷ (list_of work.old)) (list_of work.new)
        (K.state sink.old) (K.state sink.new)) }
    ensures cause { HasCause (K.state sink.old).faults (K.state sink.new).faults (result ≡
        Err StepFault.Sink) }
{
    let reply = Reply::Value(value);
    kernel.tell_reply(program.symbols(), &reply, sink)?;
    hand_on(kernel, work, reply, target)?;
    Ok(())
}

/// A reply that was told goes where it is wanted.
fn hand_on<M: Kernel>(kernel: &mut M, work: &mut Work, reply: Reply, target: Target) -> Mem<()>
    ensures { OnOk result (HandsOn (target_of target) (reply_of reply) (M.state kernel.old)
        (M.state kernel.new) (list_of work.old) (list_of work.new)) }
{
    match target {
        Target::Nowhere => Ok(()),
        Target::Name(name) => {
            keep_value(kernel, name, reply)?;
            Ok(())
        }
        Target::Native => {
            keep_reply(work, reply)?;
            Ok(())
        }
    }
}

/// An answer is kept under a name.
fn keep_value<M: Kernel>(kernel: &mut M, name: Sym, reply: Reply) -> Mem<()>
    ensures { (v : Meant) → reply_of reply ≡ Answered v →
        OnOk result (M.state kernel.new ≡ assigned name.0 v (M.state kernel.old)) }
{
    match reply {
        Reply::Value(value) => {
            kernel.assign(name, value)?;
            Ok(())
        }
        Reply::Fault(_) => Ok(()),
    }
}

/// A reply is kept for the native that made the call.
fn keep_reply(work: &mut Work, reply: Reply) -> Mem<()>
    ensures { OnOk result (list_of work.new ≡ kept_reply (reply_of reply) (list_of work.old)) }
{
    match work.take() {
        None => Ok(()),
        Some(Item::Called { native, args, past }) => {
            let mut past = past;
            past.push(reply)?;
            work.put_back(Item::Native { native, args, past });
            Ok(())
        }
        Some(item) => {
            work.put_back(item);
            Ok(())
        }
    }
}

/// A fault is told, and drops what stands in front of the handler or form that it ends.
pub(crate) fn refuse<M: Stepped, P: Program, K: Sink>(
    kernel: &mut M,
    program: &P,
    work: &mut Work,
    sink: &mut K,
    fault: Fault,
) -> Result<(), StepFault>
    ensures step { OnOk result (Aloud (P.meant program.now) (M.state kernel.old) (M.state kernel.new)
        (Refuse (fault_of fault) ∷ (list_of work.old)) (list_of work.new) (K.state sink.old) (K.state sink.new)) }
    ensures cause { HasCause (K.state sink.old).faults (K.state sink.new).faults (result ≡
        Err StepFault.Sink) }
{
    kernel.tell_reply(program.symbols(), &Reply::Fault(fault), sink)?;
    drop_work(kernel, work, fault)?;
    Ok(())
}

/// Drops the items in front of the nearest top level, native or end of a handler. Blocks are restored, and the kept
/// ends of a change are kept no longer.
fn drop_work<M: Stepped>(kernel: &mut M, work: &mut Work, fault: Fault) -> Mem<()>
    ensures { OnOk result (Drops (fault_of fault) (M.state kernel.old) (M.state kernel.new)
        (list_of work.old) (list_of work.new)) }
{
    while let Some(item) = work.take() {
        if drop_item(kernel, work, item, fault)? {
            return Ok(());
        }
    }
    Ok(())
}

/// Drops one item that was taken, or says that the fault ends there.
fn drop_item<M: Stepped>(kernel: &mut M, work: &mut Work, item: Item, fault: Fault) -> Mem<bool>
    requires { 0 < places_of work.old }
    ensures drops { IfOk result (λ ends. DropsBy ends (fault_of fault) (M.state kernel.old)
        (M.state kernel.new) (item_of item ∷ (list_of work.old)) (list_of work.new)) }
    ensures rest { IfOk result (λ ends. ends ≡ false → list_of work.new ≡ list_of work.old) }
{
    match item {
        Item::Top { forms, at } => {
            work.put_back(Item::Top { forms, at });
            Ok(true)
        }
        Item::Called { native, args, past } => {
            let mut past = past;
            past.push(Reply::Fault(fault))?;
            work.put_back(Item::Native { native, args, past });
            Ok(true)
        }
        Item::Exit {
            kind,
            handler,
            current,
            ..
        } => {
            work.put_back(Item::Exit {
                kind,
                handler,
                current,
                faulted: true,
            });
            Ok(true)
        }
        Item::Leave(kept) => {
            kernel.restore(kept);
            Ok(false)
        }
        Item::CommitChange(_) => {
            kernel.forget_kept();
            Ok(false)
        }
        _ => Ok(false),
    }
}
