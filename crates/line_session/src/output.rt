//! The end of a process's buffer.
ghost use Rattle.std.specs.Prelude.{◌≡◌, IfOk};
ghost use Rattle.handler_code.specs.Calls.{asked_of};
ghost use Rattle.line_session.specs.Handlers as handlers;
ghost use Rattle.line_session.specs.Handlers.{in_turn, nothing};
ghost use Rattle.line_session.specs.Replies.{replies_of, process_of};

use crate::asking::ask_with_two;
use crate::replies::{answer, are_answers};
use ek_call::{Primitive, Reply, Value, Values, argument};
use ek_types::Mem;
use handler_code::{Next, ask, ask_with, copied};

/// The call that comes next on the way to the end of the buffer.
pub(crate) fn to_the_end(args: &Values, past: &[Reply]) -> Mem<Next>
    ensures { IfOk result (λ next. asked_of next ≡
        in_turn (handlers.to_the_end (process_of args.now)) (replies_of past.now) nothing) }
{
    if !are_answers(past) {
        return Ok(Next::Done);
    }
    let alloc = args.allocator();
    match past.len() {
        0 => ask_with(alloc, Primitive::ProcessBuffer, copied(argument(args, 0))?),
        1 => ask_with(alloc, Primitive::SetBuffer, copied(answer(past, 0))?),
        2 => Ok(ask(alloc, Primitive::PointMax)),
        3 => ask_with(alloc, Primitive::GotoChar, copied(answer(past, 2))?),
        _ => Ok(Next::Done),
    }
}

/// Nothing more is read from the process.
pub(crate) fn stop(args: &Values, past: &[Reply]) -> Mem<Next>
    ensures { IfOk result (λ next. asked_of next ≡
        handlers.stop (process_of args.now) (replies_of past.now)) }
{
    match past {
        [] => {
            let process = copied(argument(args, 0))?;
            ask_with_two(
                args.allocator(),
                Primitive::SetProcessFilter,
                process,
                Value::T,
            )
        }
        [_, ..] => Ok(Next::Done),
    }
}
