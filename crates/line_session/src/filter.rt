//! The filter of a session.
ghost use Rattle.std.specs.Prelude.{◌≡◌, None, IfOk};
ghost use Rattle.handler_code.specs.Calls.{asked_of};
ghost use Rattle.line_session.specs.Handlers.{session_filter, put_or_stop};
ghost use Rattle.line_session.specs.Replies.{replies_of, process_of, told_of};

use crate::output::{stop, to_the_end};
use crate::replies::{has_answers, is_answer};
use ek_call::{Primitive, Reply, Values, argument};
use ek_types::Mem;
use handler_code::{Next, ask_with, copied};

/// What the filter does next: it puts the text at the end of the process's buffer.
pub(crate) fn next_call(args: &Values, past: &[Reply]) -> Mem<Next>
    ensures { IfOk result (λ next. asked_of next ≡
        session_filter (process_of args.now) (told_of args.now) (replies_of past.now)) }
{
    if has_answers(past, 4) {
        insert(args, &past[4..])
    } else {
        to_the_end(args, past)
    }
}

/// At the end of the buffer the text goes in. Where that was refused, nothing more is read.
fn insert(args: &Values, past: &[Reply]) -> Mem<Next>
    ensures { IfOk result (λ next. asked_of next ≡
        put_or_stop (process_of args.now) (told_of args.now) (λ left. None) (replies_of past.now)) }
{
    match past {
        [] => ask_with(
            args.allocator(),
            Primitive::Insert,
            copied(argument(args, 1))?,
        ),
        [inserted, left @ ..] => {
            if is_answer(inserted) {
                Ok(Next::Done)
            } else {
                stop(args, left)
            }
        }
    }
}
