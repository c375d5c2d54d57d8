//! Waits, deletions and the killing of buffers: calls that enter filters and sentinels.
ghost use Rattle.std.specs.Prelude.{◌≡◌, ◌<◌, length, map, true, IsSome, OnOk};
ghost use Rattle.editor_model.specs.Prims.{ConcernsHandlers, manner_of};
ghost use Rattle.editor_model.specs.Values.{AcceptProcessOutput, DeleteProcess, KillBuffer};
ghost use Rattle.plain_machine.specs.Refusals.{may_ask};
ghost use Rattle.plain_machine.specs.Arguments.{is_running};
ghost use Rattle.plain_machine.specs.Items.{Delete};
ghost use Rattle.ek_types.specs.Listing.{items_of};
ghost use Rattle.ek_call.specs.Meaning.{view};
ghost use Rattle.ek_call.specs.Primitives.{prim_of};
ghost use Rattle.kernel_steps.specs.Outside.{deepest};
ghost use Rattle.kernel_steps.specs.Waits.{AsksIn, DeletesAll, EntersIf, IsHeardIf, Passes};
ghost use Rattle.kernel_steps.specs.Waits.{WaitsOn, truth_of};
ghost use Rattle.kernel_steps.specs.Work.{Answers, Does, lifted};
ghost use Rattle.kernel_steps.specs.Worlds.{Between, IsReady};

use crate::handlers::handle;
use crate::kernel::{Entry, Kernel};
use crate::processes::call_other;
use crate::program::Program;
use crate::reply::{refuse, tell};
use crate::stop::{Halt, Stop};
use ek_call::{Fault, Primitive, Reply, Value, Values};
use ek_types::Sink;
use host_link::Host;
use wait_loop::{Step, Wait};

/// A call that concerns hooks or processes.
#[cycle(run)]
pub(crate) fn call_process<M: Kernel, P: Program, H: Host, K: Sink>(
    kernel: &mut M,
    program: &P,
    host: &mut H,
    sink: &mut K,
    prim: Primitive,
    args: &Values,
) -> Result<Value, Halt>
    requires ready { IsReady (M.state kernel.old) (H.state host.old).kills }
    requires manner { manner_of (prim_of prim) ≡ ConcernsHandlers }
    ensures { Between M.state H.state H.made
        kernel.old kernel.new host.old host.new (K.state sink.old) (K.state sink.new)
        (Answers result view (P.meant program.now) (prim_of prim) (map view (items_of args.now))) }
{
    if let Some(fault) = kernel.refusal(program, prim, args) {
        return Err(refuse(kernel, program, sink, fault));
    }
    match prim {
        Primitive::AcceptProcessOutput => accept_output(kernel, program, host, sink, args),
        Primitive::DeleteProcess => delete_process(kernel, program, host, sink, args),
        Primitive::KillBuffer => kill_buffer(kernel, program, host, sink, args),
        _ => call_other(kernel, program, host, sink, prim, args),
    }
}

/// Waits for the output of processes.
#[cycle(run)]
fn accept_output<M: Kernel, P: Program, H: Host, K: Sink>(
    kernel: &mut M,
    program: &P,
    host: &mut H,
    sink: &mut K,
    args: &Values,
) -> Result<Value, Halt>
    requires ready { IsReady (M.state kernel.old) (H.state host.old).kills }
    requires passes { Passes (P.meant program.now) (M.state kernel.old) AcceptProcessOutput
        (map view (items_of args.now)) }
    ensures { Between M.state H.state H.made
        kernel.old kernel.new host.old host.new (K.state sink.old) (K.state sink.new)
        (Answers result view (P.meant program.now) AcceptProcessOutput (map view (items_of args.now))) }
{
    let mut wait = kernel.new_wait(args)?;
    take_turns(kernel, program, host, sink, &mut wait)
}

/// Asks processes in turn, until the wait has its answer.
#[cycle(run)]
fn take_turns<M: Kernel, P: Program, H: Host, K: Sink>(
    kernel: &mut M,
    program: &P,
    host: &mut H,
    sink: &mut K,
    wait: &mut Wait,
) -> Result<Value, Halt>
    requires ready { IsReady (M.state kernel.old) (H.state host.old).kills }
    requires nesting { (M.state kernel.old).depth < deepest }
    requires room { wait.old.room ≡ 256 }
    ensures { Between M.state H.state H.made
        kernel.old kernel.new host.old host.new (K.state sink.old) (K.state sink.new)
        (WaitsOn result view (P.meant program.now) wait.old.waiting) }
{
    loop {
        // Read for what it ensures: there are at most as many processes as the wait has places for.
        let _few = kernel.processes().count();
        match wait.next(kernel.processes()) {
            Step::Done(heard) => return tell(kernel, program, sink, Reply::Value(truth(heard))),
            Step::Ask(p) => ask(kernel, program, host, sink, wait, p)?,
        }
    }
}

/// A truth as a value.
fn truth(heard: bool) -> Value
    ensures { view result ≡ truth_of heard }
{
    if heard { Value::T } else { Value::Nil }
}

/// Asks one process, and enters what was heard.
#[cycle(run)]
fn ask<M: Kernel, P: Program, H: Host, K: Sink>(
    kernel: &mut M,
    program: &P,
    host: &mut H,
    sink: &mut K,
    wait: &mut Wait,
    p: u32,
) -> Result<(), Halt>
    requires ready { IsReady (M.state kernel.old) (H.state host.old).kills }
    requires nesting { (M.state kernel.old).depth < deepest }
    requires running { is_running (M.state kernel.old) p ≡ true }
    ensures asks { Between M.state H.state H.made kernel.old kernel.new host.old host.new
        (K.state sink.old) (K.state sink.new)
        (AsksIn result (P.meant program.now) p wait.old.waiting wait.new.waiting) }
    ensures asked { OnOk result ((M.state kernel.old).asked < (M.state kernel.new).asked) }
    ensures may { OnOk result (may_ask (M.state kernel.old) ≡ true) }
    ensures room { wait.new.room ≡ wait.old.room }
{
    if !kernel.may_ask() {
        return Err(refuse(kernel, program, sink, Fault::ExchangesSpent));
    }
    let heard = kernel.hear(program, host, p)?;
    wait.note(p, heard.bytes);
    enter_if(kernel, program, host, sink, &heard.entry)?;
    Ok(())
}

/// Enters a filter or a sentinel, if there is one to be entered.
#[cycle(run)]
fn enter_if<M: Kernel, P: Program, H: Host, K: Sink>(
    kernel: &mut M,
    program: &P,
    host: &mut H,
    sink: &mut K,
    entry: &Option<Entry>,
) -> Result<(), Stop>
    requires ready { IsReady (M.state kernel.old) (H.state host.old).kills }
    requires nesting { IsSome entry.now → (M.state kernel.old).depth < deepest }
    requires heard { IsHeardIf entry.now }
    ensures { Between M.state H.state H.made
        kernel.old kernel.new host.old host.new (K.state sink.old) (K.state sink.new)
        (EntersIf (lifted result) (P.meant program.now) entry.now) }
{
    match entry {
        None => Ok(()),
        Some(entry) => {
            handle(
                kernel,
                program,
                host,
                sink,
                entry.kind,
                entry.handler,
                &entry.args,
            )?;
            Ok(())
        }
    }
}

/// Deletes a process: if it runs it is killed, and its sentinel is entered.
#[cycle(run)]
fn delete<M: Kernel, P: Program, H: Host, K: Sink>(
    kernel: &mut M,
    program: &P,
    host: &mut H,
    sink: &mut K,
    p: u32,
) -> Result<(), Stop>
    requires ready { IsReady (M.state kernel.old) (H.state host.old).kills }
    requires nesting { is_running (M.state kernel.old) p ≡ true → (M.state kernel.old).depth < deepest }
    ensures { Between M.state H.state H.made
        kernel.old kernel.new host.old host.new (K.state sink.old) (K.state sink.new)
        (Does (lifted result) (P.meant program.now) (Delete p)) }
{
    let entry = kernel.kill(program, host, p)?;
    enter_if(kernel, program, host, sink, &entry)
}

/// Deletes a process that an argument gives.
#[cycle(run)]
fn delete_process<M: Kernel, P: Program, H: Host, K: Sink>(
    kernel: &mut M,
    program: &P,
    host: &mut H,
    sink: &mut K,
    args: &Values,
) -> Result<Value, Halt>
    requires ready { IsReady (M.state kernel.old) (H.state host.old).kills }
    requires passes { Passes (P.meant program.now) (M.state kernel.old) DeleteProcess
        (map view (items_of args.now)) }
    ensures { Between M.state H.state H.made
        kernel.old kernel.new host.old host.new (K.state sink.old) (K.state sink.new)
        (Answers result view (P.meant program.now) DeleteProcess (map view (items_of args.now))) }
{
    let p = kernel.process_given(args);
    delete(kernel, program, host, sink, p)?;
    tell(kernel, program, sink, Reply::Value(Value::Nil))
}

/// Deletes processes, one after another.
#[cycle(run)]
fn delete_all<M: Kernel, P: Program, H: Host, K: Sink>(
    kernel: &mut M,
    program: &P,
    host: &mut H,
    sink: &mut K,
    doomed: &[u32],
) -> Result<(), Stop>
    requires ready { IsReady (M.state kernel.old) (H.state host.old).kills }
    requires nesting { 0 < length doomed.now → (M.state kernel.old).depth < deepest }
    ensures { Between M.state H.state H.made
        kernel.old kernel.new host.old host.new (K.state sink.old) (K.state sink.new)
        (DeletesAll (lifted result) (P.meant program.now) doomed.now) }
{
    for i in 0..doomed.len() {
        delete(kernel, program, host, sink, doomed[i])?;
    }
    Ok(())
}

/// Kills a buffer, once its processes are deleted.
#[cycle(run)]
fn kill_buffer<M: Kernel, P: Program, H: Host, K: Sink>(
    kernel: &mut M,
    program: &P,
    host: &mut H,
    sink: &mut K,
    args: &Values,
) -> Result<Value, Halt>
    requires ready { IsReady (M.state kernel.old) (H.state host.old).kills }
    requires passes { Passes (P.meant program.now) (M.state kernel.old) KillBuffer
        (map view (items_of args.now)) }
    ensures { Between M.state H.state H.made
        kernel.old kernel.new host.old host.new (K.state sink.old) (K.state sink.new)
        (Answers result view (P.meant program.now) KillBuffer (map view (items_of args.now))) }
{
    let buffer = kernel.buffer_given(args);
    let doomed = kernel.running_in(buffer)?;
    delete_all(kernel, program, host, sink, doomed.as_slice())?;
    let reply = kernel.kill_live(buffer)?;
    tell(kernel, program, sink, reply)
}
