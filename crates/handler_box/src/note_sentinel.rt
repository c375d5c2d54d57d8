//! The sentinel that notes ends in a buffer.
ghost use Rattle.std.specs.Prelude.{◌≡◌, true, map, codes, IfOk, []};
ghost use Rattle.text_model.specs.Characters.{Scalar};
ghost use Rattle.editor_model.specs.Values.{Str};
ghost use Rattle.plain_machine.specs.Shipped.{note_sentinel};
ghost use Rattle.ek_types.specs.Listing.{items_of};
ghost use Rattle.ek_call.specs.Meaning.{view, reply_of};
ghost use Rattle.handler_code.specs.Calls.{asked_of};
ghost use Rattle.handler_box.specs.Replies.{are_kept, note_wanted};

use crate::handler::Handler;
use crate::replies::{Wanted, answer, are_as_wanted};
use ek_call::{Primitive, Replies, Value, Values, argument};
use ek_types::{Chars, Mem, Piece};
use handler_code::{Next, ask, ask_with, copied};
use std::alloc::Global;

/// The sentinel `note-sentinel`, which puts what it is told at the end of the buffer `*events*`.
#[derive(Clone, Copy, Debug, PartialEq, Eq)]
pub struct NoteSentinel;

/// What each call has to answer.
const WANTED: [Wanted; 5] = [
    Wanted::Buffer,
    Wanted::Anything,
    Wanted::Number,
    Wanted::Anything,
    Wanted::Anything,
];

impl NoteSentinel {
    /// The sentinel.
    pub fn new() -> NoteSentinel {
        NoteSentinel
    }
}

impl Handler for NoteSentinel {
    ghost use Rattle.std.specs.Prelude.{codes};
    ghost use Rattle.plain_machine.specs.Shipped.{note_sentinel};

    ghost called = { λ h. codes "note-sentinel" };

    ghost does = { λ h args past. note_sentinel args past };

    fn name(&self) -> &str {
        "note-sentinel"
    }

    fn next(&self, args: &Values, past: &Replies) -> Mem<Next> {
        if !are_as_wanted(past, &WANTED) {
            return Ok(Next::Done);
        }
        next_call(args, past)
    }
}

/// The call that comes next where each reply is as wanted.
fn next_call(args: &Values, past: &Replies) -> Mem<Next>
    requires { are_kept (map reply_of (items_of past.now)) note_wanted ≡ true }
    ensures { IfOk result (λ next. asked_of next ≡
        note_sentinel (map view (items_of args.now)) (map reply_of (items_of past.now))) }
{
    let alloc = args.allocator();
    match past.len() {
        0 => ask_with(alloc, Primitive::GetBufferCreate, events(alloc)?),
        1 => ask_with(alloc, Primitive::SetBuffer, copied(answer(past, 0))?),
        2 => Ok(ask(alloc, Primitive::PointMax)),
        3 => ask_with(alloc, Primitive::GotoChar, copied(answer(past, 2))?),
        4 => ask_with(alloc, Primitive::Insert, copied(argument(args, 1))?),
        _ => Ok(Next::Done),
    }
}

/// The name of the buffer that takes the notes.
fn events(alloc: Global) -> Mem<Value>
    ensures { IfOk result (λ v. view v ≡ Str (map (λ c. (Scalar c, [])) (codes "*events*"))) }
{
    let mut name = Chars::new(alloc);
    name.extend_bytes(b"*events*")?;
    Ok(Value::Str(Piece::plain(alloc, name)?))
}
