//! The machine, one step at a time.
ghost use Rattle.std.specs.Prelude.{◌≡◌, ◌<◌, ◌∷◌, Err, map, option_map, slice_get};
ghost use Rattle.editor_model.specs.Prims.{ConcernsHandlers, manner_of};
ghost use Rattle.plain_machine.specs.Items.{MakeCall};
ghost use Rattle.ek_types.specs.Io.{HasCause};
ghost use Rattle.ek_types.specs.Listing.{items_of};
ghost use Rattle.ek_call.specs.Meaning.{view};
ghost use Rattle.ek_call.specs.Primitives.{prim_of};
ghost use Rattle.host_link.specs.Meaning.{exchange_of, exchanges_of};
ghost use Rattle.trace_check.specs.Meaning.{item_of, list_of, places_of, target_of};
ghost use Rattle.trace_check.specs.Steps.{Comes, Unheard};
ghost use Rattle.kernel_steps.specs.Waits.{Passes};
ghost use Rattle.trace_check.specs.Turns.{Turns, alone_by, heard_by, quiet_by, seen, told_by};

use crate::calls;
use crate::changes::{calm, commit_change, enter_hooks, make_change};
use crate::ending::{finish, write_dump};
use crate::forms::{do_body, do_form, do_top, leave};
use crate::handlers::{enter, exit, go_on};
use crate::item::{Item, Target};
use crate::processes::{send_eof, send_string, start_process};
use crate::replies::{give_answer, refuse};
use crate::turn::{Done, StepFault, Turn};
use crate::waits::{delete, wait};
use crate::work::Work;
use ek_call::{Primitive, Values};
use ek_types::{Mem, Sink};
use host_link::{Exchange, Exchanges};
use kernel_steps::{Kernel, Manner, Program, Stepped};

/// A run of the plain machine that is made one step at a time: what it keeps, what is left to do, and how many
/// exchanges of the journal are used.
pub struct Machine<M> {
    kernel: M,
    work: Work,
    used: usize,
}

/// What an item comes to that asks and says nothing.
fn alone(done: Mem<()>) -> Result<Done, StepFault>
    ensures { result ≡ alone_by done }
{
    done?;
    Ok(Done::Alone)
}

/// What an item comes to that says something and asks nothing.
fn told(done: Result<(), StepFault>) -> Result<Done, StepFault>
    ensures { result ≡ told_by done }
{
    done?;
    Ok(Done::Alone)
}

/// What an item comes to that says nothing.
fn heard(done: Mem<Done>) -> Result<Done, StepFault>
    ensures { result ≡ heard_by done }
{
    Ok(done?)
}

/// What a call comes to that asks no child.
fn quiet(done: Mem<()>) -> Mem<Done>
    ensures { result ≡ quiet_by done }
{
    done?;
    Ok(Done::Alone)
}

/// A call on hooks or processes that isn't refused.
fn call_passed<M: Stepped, P: Program>(
    kernel: &mut M,
    program: &P,
    work: &mut Work,
    prim: Primitive,
    args: Values,
    target: Target,
    next: Option<&Exchange>,
) -> Mem<Done>
    requires place { 0 < places_of work.old }
    requires manner { manner_of (prim_of prim) ≡ ConcernsHandlers }
    requires passes { Passes (P.meant program.now) (M.state kernel.old) (prim_of prim)
        (map view (items_of args)) }
    ensures { Unheard result (P.meant program.now) (option_map (λ x. exchange_of x.now) next.entry)
        (M.state kernel.old) (M.state kernel.new)
        (MakeCall (prim_of prim) (map view (items_of args)) (target_of target) ∷ (list_of work.old))
        (list_of work.new) }
{
    match prim {
        Primitive::StartProcess => start_process(kernel, program, work, args, target, next),
        Primitive::ProcessSendString => send_string(kernel, program, work, args, target, next),
        Primitive::ProcessSendEof => send_eof(kernel, program, work, args, target, next),
        Primitive::AcceptProcessOutput => {
            quiet(calls::accept_output(kernel, program, work, &args, target))
        }
        Primitive::DeleteProcess => {
            quiet(calls::delete_process(kernel, program, work, &args, target))
        }
        Primitive::KillBuffer => quiet(calls::kill_buffer(kernel, program, work, &args, target)),
        _ => quiet(calls::call_silently(kernel, program, work, prim, &args, target)),
    }
}

/// A call on hooks or processes.
fn call_process<M: Stepped, P: Program>(
    kernel: &mut M,
    program: &P,
    work: &mut Work,
    prim: Primitive,
    args: Values,
    target: Target,
    next: Option<&Exchange>,
) -> Mem<Done>
    requires place { 0 < places_of work.old }
    requires manner { manner_of (prim_of prim) ≡ ConcernsHandlers }
    ensures { Unheard result (P.meant program.now) (option_map (λ x. exchange_of x.now) next.entry)
        (M.state kernel.old) (M.state kernel.new)
        (MakeCall (prim_of prim) (map view (items_of args)) (target_of target) ∷ (list_of work.old))
        (list_of work.new) }
{
    match kernel.refusal(program, prim, &args) {
        Some(fault) => quiet(work.put(Item::Refuse(fault))),
        None => call_passed(kernel, program, work, prim, args, target, next),
    }
}

/// A call.
fn call<M: Stepped, P: Program>(
    kernel: &mut M,
    program: &P,
    work: &mut Work,
    prim: Primitive,
    args: Values,
    target: Target,
    next: Option<&Exchange>,
) -> Mem<Done>
    requires { 0 < places_of work.old }
    ensures { Unheard result (P.meant program.now) (option_map (λ x. exchange_of x.now) next.entry)
        (M.state kernel.old) (M.state kernel.new)
        (MakeCall (prim_of prim) (map view (items_of args)) (target_of target) ∷ (list_of work.old))
        (list_of work.new) }
{
    match M::manner(prim) {
        Manner::OnlyAsks => quiet(calls::ask_editor(kernel, work, prim, &args, target)),
        Manner::SetsState => quiet(calls::set_editor(kernel, work, prim, &args, target)),
        Manner::ChangesText => quiet(calls::change_text(kernel, work, prim, &args, target)),
        Manner::ConcernsHandlers => {
            call_process(kernel, program, work, prim, args, target, next)
        }
    }
}

/// The exchange of a journal at a place, if it is so long.
fn exchange_at(journal: &Exchanges, i: usize) -> Option<&Exchange>
    ensures { option_map (λ x. exchange_of x.now) result ≡ slice_get (exchanges_of journal.now) i }
{
    if i >= journal.len() {
        return None;
    }
    Some(journal.at(i))
}

/// Does an item that was taken from the front of the work, where the journal has this exchange next.
fn do_item<M: Stepped, P: Program, K: Sink>(
    kernel: &mut M,
    program: &P,
    work: &mut Work,
    sink: &mut K,
    item: Item,
    next: Option<&Exchange>,
) -> Result<Done, StepFault>
    requires { 0 < places_of work.old }
    ensures step { Comes result (P.meant program.now) (option_map (λ x. exchange_of x.now) next.entry)
        (M.state kernel.old) (M.state kernel.new) (item_of item ∷ (list_of work.old)) (list_of work.new)
        (K.state sink.old) (K.state sink.new) }
    ensures cause { HasCause (K.state sink.old).faults (K.state sink.new).faults (result ≡
        Err StepFault.Sink) }
{
    match item {
        Item::Top { forms, at } => alone(do_top(work, forms, at)),
        Item::Body { forms, at } => alone(do_body(work, forms, at)),
        Item::DoForm(form) => alone(do_form(kernel, work, form)),
        Item::MakeCall { prim, args, target } => {
            heard(call(kernel, program, work, prim, args, target, next))
        }
        Item::Leave(kept) => {
            leave(kernel, kept);
            Ok(Done::Alone)
        }
        Item::GiveAnswer { value, target } => {
            told(give_answer(kernel, program, work, sink, value, target))
        }
        Item::Refuse(fault) => told(refuse(kernel, program, work, sink, fault)),
        Item::MakeChange(change) => alone(make_change(kernel, work, change)),
        Item::Hooks {
            kind,
            names,
            at,
            args,
        } => alone(enter_hooks(work, kind, names, at, args)),
        Item::Calm { old } => {
            calm(kernel, old);
            Ok(Done::Alone)
        }
        Item::CommitChange(change) => alone(commit_change(kernel, work, &change)),
        Item::Enter {
            kind,
            handler,
            args,
        } => { told(enter(kernel, program, work, sink, kind, handler, args)) }
        Item::Native { native, args, past } => alone(go_on(
            kernel, program, work, native, args, past,
        )),
        Item::Called { .. } => Ok(Done::Alone),
        Item::Exit {
            kind,
            handler,
            current,
            faulted,
        } => { told(exit(kernel, program, work, sink, kind, handler, current, faulted)) }
        Item::Wait { waiting, target } => heard(wait(kernel, work, waiting, target, next)),
        Item::Delete { process } => heard(delete(kernel, work, process, next)),
        Item::KillBuffer { buffer, target } => {
            alone(calls::kill_live(kernel, work, buffer, target))
        }
        Item::Finish { process } => finish(kernel, program, work, sink, process, next),
        Item::WriteDump => told(write_dump(kernel, program, work, sink)),
    }
}

impl<M: Stepped> Machine<M> {
    /// A machine before its first step, with this work to do and no exchange used.
    pub fn new(kernel: M, work: Work) -> Machine<M>
        ensures { result ≡ record { kernel = kernel; work = work; used = 0 } }
    {
        Machine {
            kernel,
            work,
            used: 0,
        }
    }

    /// How many exchanges of the journal are used.
    pub fn used(&self) -> usize
        ensures { result ≡ self.now.used }
    {
        self.used
    }

    /// What is kept, once no further step is made.
    pub fn into_kernel(self) -> M
        ensures { result ≡ self.kernel }
    {
        let Machine {
            kernel,
            work: _,
            used: _,
        } = self;
        kernel
    }

    /// Makes one step of the machine and writes its line, if it has one. `Ended`, `Waits` and `Off` change nothing.
    /// Behind an error the item is lost and its line may stand there in part: only `into_kernel` is called then.
    pub fn step<P: Program, K: Sink>(
        &mut self,
        program: &P,
        journal: &Exchanges,
        sink: &mut K,
    ) -> Result<Turn, StepFault>
        ensures turn { Turns result (P.meant program.now) (exchanges_of journal.now)
            (seen (M.state self.old.kernel) (list_of self.old.work) self.old.used)
            (seen (M.state self.new.kernel) (list_of self.new.work) self.new.used)
            (K.state sink.old) (K.state sink.new) }
        ensures cause { HasCause (K.state sink.old).faults (K.state sink.new).faults (result ≡
            Err StepFault.Sink) }
    {
        let Some(item) = self.work.take() else {
            return Ok(Turn::Ended);
        };
        let next = exchange_at(journal, self.used);
        let done = do_item(&mut self.kernel, program, &mut self.work, sink, item, next)?;
        match done {
            Done::Alone => Ok(Turn::Went),
            Done::Answered => {
                self.used += 1;
                Ok(Turn::Went)
            }
            Done::Waits => Ok(Turn::Waits),
            Done::Off => Ok(Turn::Off),
        }
    }
}
