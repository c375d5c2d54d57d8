//! Waits and deletions.
ghost use Rattle.std.specs.Prelude.{◌≡◌, ◌<◌, ◌∷◌, true, option_map, OnOk};
ghost use Rattle.plain_machine.specs.Arguments.{is_running};
ghost use Rattle.plain_machine.specs.Exchanges.{Answer as Answered};
ghost use Rattle.plain_machine.specs.Items.{Delete, Wait};
ghost use Rattle.plain_machine.specs.Refusals.{may_ask};
ghost use Rattle.plain_machine.specs.State.{Program as Plain};
ghost use Rattle.process_table.specs.Table.{with_table};
ghost use Rattle.host_link.specs.Meaning.{answer_of, exchange_of};
ghost use Rattle.kernel_steps.specs.Waits.{entering};
ghost use Rattle.trace_check.specs.Answers.{Deletes, Hears, IsAllowed, may_hear};
ghost use Rattle.trace_check.specs.Meaning.{list_of, places_of, target_of};
ghost use Rattle.trace_check.specs.Questions.{allows, asked, asked_about};
ghost use Rattle.trace_check.specs.Steps.{Unheard};
ghost use Rattle.trace_check.specs.Waits.{ahead_of};

use crate::asks::{Question, meet};
use crate::item::{Item, Target};
use crate::turn::Done;
use crate::waiting::{Ahead, Waiting};
use crate::work::Work;
use ek_call::Fault;
use ek_types::Mem;
use host_link::{Answer, Exchange};
use kernel_steps::{Entry, Kernel, Stepped};
use prim_arguments::values::truth;
use process_table::Status;

/// A wait goes on by its next rule.
pub(crate) fn wait<M: Stepped>(
    kernel: &mut M,
    work: &mut Work,
    waiting: Waiting,
    target: Target,
    next: Option<&Exchange>,
) -> Mem<Done>
    requires { 0 < places_of work.old }
    ensures { (program : Plain) → Unheard result program (option_map (λ x. exchange_of x.now) next.entry)
        (M.state kernel.old) (M.state kernel.new) (Wait waiting (target_of target) ∷ (list_of work.old))
        (list_of work.new) }
{
    match waiting.ahead(kernel.processes()) {
        Ahead::Done(heard) => {
            work.put_back(Item::GiveAnswer {
                value: truth(heard),
                target,
            });
            Ok(Done::Alone)
        }
        Ahead::Round => {
            let mut waiting = waiting;
            waiting.begin_round(kernel.processes())?;
            work.put_back(Item::Wait { waiting, target });
            Ok(Done::Alone)
        }
        Ahead::Ask(p) => ask(kernel, work, waiting, target, p, next),
    }
}

/// What a process is asked: for its output, or for its end once that has ended.
fn question_about<'a>(drained: bool, child: u32) -> Question<'a>
    ensures asks { asked result ≡ asked_about drained child }
    ensures allows { (answer : Answered) → allows result answer ≡ may_hear drained answer }
{
    if drained {
        Question::End(child)
    } else {
        Question::Read(child)
    }
}

/// One process is asked, and what was heard is to be entered.
fn ask<M: Stepped>(
    kernel: &mut M,
    work: &mut Work,
    waiting: Waiting,
    target: Target,
    p: u32,
    next: Option<&Exchange>,
) -> Mem<Done>
    requires place { 0 < places_of work.old }
    requires ahead { ahead_of (with_table (M.state kernel.old).processes) waiting ≡ Ahead.Ask p }
    ensures { (program : Plain) → Unheard result program (option_map (λ x. exchange_of x.now) next.entry)
        (M.state kernel.old) (M.state kernel.new) (Wait waiting (target_of target) ∷ (list_of work.old))
        (list_of work.new) }
{
    if !kernel.may_ask() {
        work.put_back(Item::Refuse(Fault::ExchangesSpent));
        return Ok(Done::Alone);
    }
    let process = kernel.processes().get(p);
    let drained = process.drained();
    let question = question_about(drained, process.child());
    match meet(next, &question) {
        Err(missed) => {
            work.put_back(Item::Wait { waiting, target });
            Ok(missed)
        }
        Ok(answer) => {
            hear(kernel, work, waiting, target, p, answer)?;
            Ok(Done::Answered)
        }
    }
}

/// The answer of a process is taken: the wait stands behind what is to be entered.
fn hear<M: Stepped>(
    kernel: &mut M,
    work: &mut Work,
    waiting: Waiting,
    target: Target,
    p: u32,
    answer: &Answer,
) -> Mem<()>
    requires place { 0 < places_of work.old }
    requires asked { may_ask (M.state kernel.old) ≡ true }
    requires allowed { IsAllowed (M.state kernel.old) p (answer_of answer.now) }
    ensures { OnOk result (Hears (M.state kernel.old) (M.state kernel.new) waiting (target_of target) p
        (answer_of answer.now) (list_of work.old) (list_of work.new)) }
{
    let mut waiting = waiting;
    waiting.pass_first(kernel.processes());
    let heard = kernel.take_answer(p, answer)?;
    waiting.note(p, heard.bytes);
    work.put_back(Item::Wait { waiting, target });
    put_entry(work, heard.entry)
}

/// Puts a filter or a sentinel in front, if there is one to be entered.
fn put_entry(work: &mut Work, entry: Option<Entry>) -> Mem<()>
    ensures { OnOk result (list_of work.new ≡ entering entry (list_of work.old)) }
{
    match entry {
        None => Ok(()),
        Some(entry) => work.put(Item::Enter {
            kind: entry.kind,
            handler: entry.handler,
            args: entry.args,
        }),
    }
}

/// Whether a process was made and runs.
pub(crate) fn is_running<M: Kernel>(kernel: &M, p: u32) -> bool
    ensures { result ≡ is_running (M.state kernel.now) p }
{
    let table = kernel.processes();
    p < table.count() && table.get(p).status() == Status::Run
}

/// A process is deleted: if it runs it is killed, and its sentinel is to be entered.
pub(crate) fn delete<M: Stepped>(
    kernel: &mut M,
    work: &mut Work,
    p: u32,
    next: Option<&Exchange>,
) -> Mem<Done>
    requires { 0 < places_of work.old }
    ensures { (program : Plain) → Unheard result program (option_map (λ x. exchange_of x.now) next.entry)
        (M.state kernel.old) (M.state kernel.new) (Delete p ∷ (list_of work.old)) (list_of work.new) }
{
    if !is_running(kernel, p) {
        return Ok(Done::Alone);
    }
    let child = kernel.processes().get(p).child();
    match meet(next, &Question::Kill(child)) {
        Err(missed) => {
            work.put_back(Item::Delete { process: p });
            Ok(missed)
        }
        Ok(_) => {
            kill(kernel, work, p)?;
            Ok(Done::Answered)
        }
    }
}

/// A process was killed: its sentinel is to be entered.
fn kill<M: Stepped>(kernel: &mut M, work: &mut Work, p: u32) -> Mem<()>
    requires { is_running (M.state kernel.old) p ≡ true }
    ensures { OnOk result (Deletes (M.state kernel.old) (M.state kernel.new) p (list_of work.old)
        (list_of work.new)) }
{
    let entry = kernel.take_kill(p)?;
    work.put(Item::Enter {
        kind: entry.kind,
        handler: entry.handler,
        args: entry.args,
    })
}
