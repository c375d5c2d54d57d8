//! The start of a child once more.
ghost use Rattle.std.specs.Prelude.{◌≡◌, ◌∷◌, [], Some, map, unwrap_or, IfOk};
ghost use Rattle.std.specs.Option.{option_map};
ghost use Rattle.text_model.specs.Characters.{Scalar};
ghost use Rattle.text_model.specs.Properties.{same_ch, same_list};
ghost use Rattle.editor_model.specs.Arguments.{arg};
ghost use Rattle.editor_model.specs.Values.{Nil, Str, StartProcess};
ghost use Rattle.ek_call.specs.Meaning.{view};
ghost use Rattle.ek_call.specs.Primitives.{prim_of};
ghost use Rattle.handler_code.specs.Calls.{asked_of};
ghost use Rattle.line_session.specs.Handlers as handlers;
ghost use Rattle.line_session.specs.Handlers.{in_turn, nothing};
ghost use Rattle.line_session.specs.Replies.{values_of, replies_of, answers_of, process_of, told_of};

use crate::asking::ask_with_two;
use crate::replies::{answer, are_answers};
use ek_call::{Primitive, Reply, Value, Values, argument};
use ek_types::{Ch, Chars, Copied, Mem, Piece};
use handler_code::{NativeCall, Next, ask_with, copied};
use std::alloc::Global;

/// The child is started again unless it ended with code 0, or was restarted as often as it may be.
pub(crate) fn restart(limit: u32, command: &Values, args: &Values, past: &[Reply]) -> Mem<Next>
    ensures { IfOk result (λ next. asked_of next ≡ handlers.restart limit (values_of command.now)
        (process_of args.now) (told_of args.now) (replies_of past.now)) }
{
    if is_finished(argument(args, 1)) {
        return Ok(Next::Done);
    }
    if !has_restarts(limit, argument(args, 0)) {
        return Ok(Next::Done);
    }
    start_again(command, args, past)
}

/// Whether a sentinel is told an end with code 0.
fn is_finished(told: Option<&Value>) -> bool
    ensures { result ≡
        handlers.is_finished (unwrap_or (option_map (λ v. view v.now) told.entry) Nil) }
{
    match told {
        Some(Value::Str(text)) => says_finished(text),
        _ => false,
    }
}

/// Whether a text is what is told of an end with code 0.
fn says_finished(text: &Piece) -> bool
    ensures { result ≡ handlers.is_finished (Str text.now) }
{
    same_ascii(text.text(), b"finished\n")
}

/// Whether these are the characters of a string of ASCII, one for each byte.
fn same_ascii(text: &Chars, bytes: &[u8]) -> bool
    ensures { result ≡ same_list same_ch text.now.items (map Scalar bytes.now) }
{
    if text.len() != bytes.len() {
        return false;
    }
    for i in 0..bytes.len() {
        if !text.at(i).same(Ch::Scalar(char::from(bytes[i]))) {
            return false;
        }
    }
    true
}

/// Whether the child may be started again behind this process, whose number is the count of restarts so far.
fn has_restarts(limit: u32, process: Option<&Value>) -> bool
    ensures { result ≡
        handlers.has_restarts limit (unwrap_or (option_map (λ v. view v.now) process.entry) Nil) }
{
    match process {
        Some(Value::Process(number)) => *number < limit,
        _ => false,
    }
}

/// The call that comes next of those that start the child once more, with the filter and the sentinel that it had.
fn start_again(command: &Values, args: &Values, past: &[Reply]) -> Mem<Next>
    ensures { IfOk result (λ next. asked_of next ≡
        in_turn (handlers.start_again (values_of command.now) (process_of args.now))
        (replies_of past.now) nothing) }
{
    if !are_answers(past) {
        return Ok(Next::Done);
    }
    let alloc = args.allocator();
    match past.len() {
        0 => ask_with(alloc, Primitive::ProcessFilter, copied(argument(args, 0))?),
        1 => ask_with(
            alloc,
            Primitive::ProcessSentinel,
            copied(argument(args, 0))?,
        ),
        2 => start(command),
        3 => hand_over(alloc, Primitive::SetProcessFilter, past, 0),
        4 => hand_over(alloc, Primitive::SetProcessSentinel, past, 1),
        _ => Ok(Next::Done),
    }
}

/// The start itself.
fn start(command: &Values) -> Mem<Next>
    ensures { IfOk result (λ next. asked_of next ≡
        Some (StartProcess, values_of command.now)) }
{
    Ok(Next::Call(NativeCall {
        prim: Primitive::StartProcess,
        args: command.copy()?,
    }))
}

/// The new process gets the handler that was answered at a place.
fn hand_over(alloc: Global, prim: Primitive, past: &[Reply], place: usize) -> Mem<Next>
    ensures { IfOk result (λ next. asked_of next ≡
        Some (prim_of prim, arg (answers_of past.now) 2 ∷ arg (answers_of past.now) place ∷ [])) }
{
    let process = copied(answer(past, 2))?;
    let handler = copied(answer(past, place))?;
    ask_with_two(alloc, prim, process, handler)
}
