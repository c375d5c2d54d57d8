//! Calls that ask a child: starting it, sending to it, and closing its input.
ghost use Rattle.std.specs.Prelude.{◌≡◌, ◌==◌, ◌+◌, ◌<◌, ◌≤◌, ◌∷◌, true, length, Ok, map, option_map};
ghost use Rattle.editor_model.specs.Arguments.{arg};
ghost use Rattle.editor_model.specs.Values.{ProcessSendEof, ProcessSendString, StartProcess};
ghost use Rattle.plain_machine.specs.Calls.{closed_answer, is_new_child, sent_answer, spawned};
ghost use Rattle.plain_machine.specs.Exchanges.{Started};
ghost use Rattle.plain_machine.specs.Refusals.{may_ask, most_sent};
ghost use Rattle.plain_machine.specs.Items.{MakeCall};
ghost use Rattle.ek_types.specs.Listing.{items_of};
ghost use Rattle.ek_call.specs.Meaning.{view};
ghost use Rattle.ek_call.specs.Primitives.{prim_of};
ghost use Rattle.host_link.specs.Meaning.{answer_of, exchange_of};
ghost use Rattle.kernel_steps.specs.Waits.{Passes};
ghost use Rattle.trace_check.specs.Answers.{TakesUp};
ghost use Rattle.trace_check.specs.Meaning.{list_of, places_of, target_of};
ghost use Rattle.trace_check.specs.Steps.{Unheard};

use crate::asks::{Question, meet};
use crate::item::{Item, Target};
use crate::turn::Done;
use crate::work::Work;
use ek_call::{Fault, Primitive, Value, Values};
use ek_types::Mem;
use host_link::{Answer, Exchange};
use kernel_steps::{Kernel, Program};

/// A call that met nothing, or nothing that answers it, is still to be made.
fn unmade(work: &mut Work, prim: Primitive, args: Values, target: Target, done: Done) -> Mem<Done>
    requires { 0 < places_of work.old }
    ensures result { result ≡ Ok done }
    ensures work { list_of work.new ≡ MakeCall (prim_of prim) (map view (items_of args))
        (target_of target) ∷ (list_of work.old) }
{
    work.put_back(Item::MakeCall { prim, args, target });
    Ok(done)
}

/// Whether no process has this child.
fn is_new<M: Kernel>(kernel: &M, child: u32) -> bool
    ensures { result ≡ is_new_child (M.state kernel.now) child }
{
    let table = kernel.processes();
    for p in 0..table.count() {
        if table.get(p).child() == child {
            return false;
        }
    }
    true
}

/// A process is started, by the answer that the journal has next.
pub(crate) fn start_process<M: Kernel, P: Program>(
    kernel: &mut M,
    program: &P,
    work: &mut Work,
    args: Values,
    target: Target,
    next: Option<&Exchange>,
) -> Mem<Done>
    requires place { 0 < places_of work.old }
    requires passes { Passes (P.meant program.now) (M.state kernel.old) StartProcess
        (map view (items_of args)) }
    ensures { Unheard result (P.meant program.now) (option_map (λ x. exchange_of x.now) next.entry)
        (M.state kernel.old) (M.state kernel.new)
        (MakeCall StartProcess (map view (items_of args)) (target_of target) ∷ (list_of work.old))
        (list_of work.new) }
{
    let command = kernel.command(program, &args)?;
    match meet(next, &Question::Spawn(&command)) {
        Err(missed) => unmade(work, Primitive::StartProcess, args, target, missed),
        Ok(answer) => take_spawned(kernel, program, work, args, target, answer),
    }
}

/// The answer to a start is taken.
fn take_spawned<M: Kernel, P: Program>(
    kernel: &mut M,
    program: &P,
    work: &mut Work,
    args: Values,
    target: Target,
    answer: &Answer,
) -> Mem<Done>
    requires place { 0 < places_of work.old }
    requires passes { Passes (P.meant program.now) (M.state kernel.old) StartProcess
        (map view (items_of args)) }
    ensures { TakesUp result (λ s. spawned s (target_of target) (list_of work.old)
        (arg (map view (items_of args)) 0) (arg (map view (items_of args)) 1) (answer_of answer.now))
        (M.state kernel.old) (M.state kernel.new)
        (MakeCall StartProcess (map view (items_of args)) (target_of target) ∷ (list_of work.old))
        (list_of work.new) }
{
    match answer {
        Answer::Started(child) => take_child(kernel, program, work, args, target, *child),
        Answer::Refused => {
            kernel.count_asked();
            work.put_back(Item::Refuse(Fault::SpawnFailed));
            Ok(Done::Answered)
        }
        _ => unmade(work, Primitive::StartProcess, args, target, Done::Off),
    }
}

/// A child was started: its process is made, unless another has this child.
fn take_child<M: Kernel, P: Program>(
    kernel: &mut M,
    program: &P,
    work: &mut Work,
    args: Values,
    target: Target,
    child: u32,
) -> Mem<Done>
    requires place { 0 < places_of work.old }
    requires passes { Passes (P.meant program.now) (M.state kernel.old) StartProcess
        (map view (items_of args)) }
    ensures { TakesUp result (λ s. spawned s (target_of target) (list_of work.old)
        (arg (map view (items_of args)) 0) (arg (map view (items_of args)) 1) (Started child))
        (M.state kernel.old) (M.state kernel.new)
        (MakeCall StartProcess (map view (items_of args)) (target_of target) ∷ (list_of work.old))
        (list_of work.new) }
{
    if !is_new(kernel, child) {
        return unmade(work, Primitive::StartProcess, args, target, Done::Off);
    }
    kernel.reserve_process(program, &args)?;
    let p = kernel.start(program, &args, child);
    work.put_back(Item::GiveAnswer {
        value: Value::Process(p),
        target,
    });
    Ok(Done::Answered)
}

/// A text is sent to the child of a process. An empty one asks nothing.
pub(crate) fn send_string<M: Kernel, P: Program>(
    kernel: &mut M,
    program: &P,
    work: &mut Work,
    args: Values,
    target: Target,
    next: Option<&Exchange>,
) -> Mem<Done>
    requires place { 0 < places_of work.old }
    requires passes { Passes (P.meant program.now) (M.state kernel.old) ProcessSendString
        (map view (items_of args)) }
    ensures { Unheard result (P.meant program.now) (option_map (λ x. exchange_of x.now) next.entry)
        (M.state kernel.old) (M.state kernel.new)
        (MakeCall ProcessSendString (map view (items_of args)) (target_of target) ∷ (list_of work.old))
        (list_of work.new) }
{
    let bytes = kernel.bytes_given(&args)?;
    if is_empty(bytes.as_slice()) {
        work.put_back(Item::GiveAnswer {
            value: Value::Nil,
            target,
        });
        return Ok(Done::Alone);
    }
    let child = kernel.processes().get(kernel.process_given(&args)).child();
    match meet(next, &Question::Send(child, bytes.as_slice())) {
        Err(missed) => unmade(work, Primitive::ProcessSendString, args, target, missed),
        Ok(answer) => take_sent(kernel, work, args, target, bytes.len(), answer),
    }
}

fn is_empty(bytes: &[u8]) -> bool
    ensures { result ≡ (length bytes.now == 0) }
{
    bytes.is_empty()
}

/// The answer to a text that was sent is taken.
fn take_sent<M: Kernel>(
    kernel: &mut M,
    work: &mut Work,
    args: Values,
    target: Target,
    size: usize,
    answer: &Answer,
) -> Mem<Done>
    requires place { 0 < places_of work.old }
    requires asked { may_ask (M.state kernel.old) ≡ true }
    requires sent { (M.state kernel.old).sent + size ≤ most_sent }
    ensures { TakesUp result (λ s. sent_answer s (target_of target) (list_of work.old) size
        (answer_of answer.now)) (M.state kernel.old) (M.state kernel.new)
        (MakeCall ProcessSendString (map view (items_of args)) (target_of target) ∷ (list_of work.old))
        (list_of work.new) }
{
    match answer {
        Answer::Sent => {
            kernel.count_sent(size);
            work.put_back(Item::GiveAnswer {
                value: Value::Nil,
                target,
            });
            Ok(Done::Answered)
        }
        Answer::Broken => {
            kernel.count_sent(size);
            work.put_back(Item::Refuse(Fault::BrokenPipe));
            Ok(Done::Answered)
        }
        _ => unmade(work, Primitive::ProcessSendString, args, target, Done::Off),
    }
}

/// The input of a process is closed, unless it was before.
pub(crate) fn send_eof<M: Kernel, P: Program>(
    kernel: &mut M,
    program: &P,
    work: &mut Work,
    args: Values,
    target: Target,
    next: Option<&Exchange>,
) -> Mem<Done>
    requires place { 0 < places_of work.old }
    requires passes { Passes (P.meant program.now) (M.state kernel.old) ProcessSendEof
        (map view (items_of args)) }
    ensures { Unheard result (P.meant program.now) (option_map (λ x. exchange_of x.now) next.entry)
        (M.state kernel.old) (M.state kernel.new)
        (MakeCall ProcessSendEof (map view (items_of args)) (target_of target) ∷ (list_of work.old))
        (list_of work.new) }
{
    let p = kernel.process_given(&args);
    let process = kernel.processes().get(p);
    let child = process.child();
    if process.closed() {
        work.put_back(Item::GiveAnswer {
            value: Value::Process(p),
            target,
        });
        return Ok(Done::Alone);
    }
    match meet(next, &Question::Close(child)) {
        Err(missed) => unmade(work, Primitive::ProcessSendEof, args, target, missed),
        Ok(answer) => take_closed(kernel, work, args, target, p, answer),
    }
}

/// The answer to a close is taken.
fn take_closed<M: Kernel>(
    kernel: &mut M,
    work: &mut Work,
    args: Values,
    target: Target,
    p: u32,
    answer: &Answer,
) -> Mem<Done>
    requires place { 0 < places_of work.old }
    requires asked { may_ask (M.state kernel.old) ≡ true }
    requires made { p < length (M.state kernel.old).processes }
    ensures { TakesUp result (λ s. closed_answer s (target_of target) (list_of work.old) p
        (answer_of answer.now)) (M.state kernel.old) (M.state kernel.new)
        (MakeCall ProcessSendEof (map view (items_of args)) (target_of target) ∷ (list_of work.old))
        (list_of work.new) }
{
    match answer {
        Answer::Closed => {
            kernel.note_closed(p);
            work.put_back(Item::GiveAnswer {
                value: Value::Process(p),
                target,
            });
            Ok(Done::Answered)
        }
        _ => unmade(work, Primitive::ProcessSendEof, args, target, Done::Off),
    }
}
