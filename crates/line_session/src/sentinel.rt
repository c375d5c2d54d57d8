//! The sentinel of a session.
ghost use Rattle.std.specs.Prelude.{◌≡◌, unwrap_or, IfOk};
ghost use Rattle.std.specs.Option.{option_map};
ghost use Rattle.editor_model.specs.Values.{Nil};
ghost use Rattle.ek_call.specs.Meaning.{view};
ghost use Rattle.handler_code.specs.Calls.{asked_of};
ghost use Rattle.line_session.specs.Handlers as handlers;
ghost use Rattle.line_session.specs.Handlers.{in_turn, nothing, to_the_last, session_sentinel};
ghost use Rattle.line_session.specs.Replies.{values_of, replies_of, process_of, told_of};

use crate::asking::ascii;
use crate::output::{stop, to_the_end};
use crate::replies::{answer, are_answers, has_answers, is_answer};
use crate::restarting::restart;
use ek_call::{Primitive, Reply, Value, Values};
use ek_types::Mem;
use handler_code::{Next, ask_with};

/// What the sentinel does next: it closes the last line, and starts the child again. `command` has the arguments of
/// the start.
pub(crate) fn next_call(limit: u32, command: &Values, args: &Values, past: &[Reply]) -> Mem<Next>
    ensures { IfOk result (λ next. asked_of next ≡ session_sentinel limit (values_of command.now)
        (process_of args.now) (told_of args.now) (replies_of past.now)) }
{
    if !has_answers(past, 5) {
        return look_back(args, past);
    }
    if leaves_open(answer(past, 4)) {
        close_line(limit, command, args, &past[5..])
    } else {
        restart(limit, command, args, &past[5..])
    }
}

/// The call that comes next on the way to the last character of the buffer.
fn look_back(args: &Values, past: &[Reply]) -> Mem<Next>
    ensures { IfOk result (λ next. asked_of next ≡
        in_turn (to_the_last (process_of args.now)) (replies_of past.now) nothing) }
{
    if past.len() < 4 {
        return to_the_end(args, past);
    }
    if past.len() > 4 {
        return Ok(Next::Done);
    }
    if !are_answers(past) {
        return Ok(Next::Done);
    }
    ask_with(
        args.allocator(),
        Primitive::CharAfter,
        before(answer(past, 2)),
    )
}

/// The position in front of another, and nil where there is none.
fn before(position: Option<&Value>) -> Value
    ensures { view result ≡
        handlers.before (unwrap_or (option_map (λ v. view v.now) position.entry) Nil) }
{
    match position {
        Some(Value::Int(i)) => number_before(*i),
        _ => Value::Nil,
    }
}

/// The number in front of another, and nil where it is no i64.
fn number_before(i: i64) -> Value
    ensures { view result ≡ handlers.number_before i }
{
    match i.checked_sub(1) {
        Some(before) => Value::Int(before),
        None => Value::Nil,
    }
}

/// Whether the last character, as `char-after` answers it, is one that is no line feed.
fn leaves_open(last: Option<&Value>) -> bool
    ensures { result ≡
        handlers.leaves_open (unwrap_or (option_map (λ v. view v.now) last.entry) Nil) }
{
    match last {
        Some(Value::Int(code)) => *code != 10,
        _ => false,
    }
}

/// The last line is closed, and the child started again. Where the line feed was refused, nothing more is read.
fn close_line(limit: u32, command: &Values, args: &Values, past: &[Reply]) -> Mem<Next>
    ensures { IfOk result (λ next. asked_of next ≡ handlers.close_line limit (values_of command.now)
        (process_of args.now) (told_of args.now) (replies_of past.now)) }
{
    match past {
        [] => {
            let alloc = args.allocator();
            ask_with(alloc, Primitive::Insert, ascii(alloc, b"\n")?)
        }
        [inserted, left @ ..] => {
            if is_answer(inserted) {
                restart(limit, command, args, left)
            } else {
                stop(args, left)
            }
        }
    }
}
