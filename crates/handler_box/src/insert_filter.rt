//! The filter that inserts output as the default one does, by calls.
ghost use Rattle.std.specs.Prelude.{◌≡◌, ◌∷◌, [], true, Some, map, IfOk};
ghost use Rattle.std.specs.Option.{option_map};
ghost use Rattle.editor_model.specs.Arguments.{arg};
ghost use Rattle.editor_model.specs.Values.{GotoChar, SetMarker, Int};
ghost use Rattle.plain_machine.specs.Shipped.{insert_filter, point_back as point_back_of, back};
ghost use Rattle.ek_types.specs.Listing.{items_of};
ghost use Rattle.ek_call.specs.Meaning.{view, reply_of};
ghost use Rattle.handler_code.specs.Calls.{asked_of};
ghost use Rattle.handler_box.specs.Replies.{are_kept, answers_of, insert_wanted};

use crate::asking::ask_with_three;
use crate::handler::Handler;
use crate::replies::{Wanted, answer, are_as_wanted, number};
use ek_call::{Primitive, Replies, Value, Values, argument};
use ek_types::Mem;
use handler_code::{Next, ask, ask_with, copied};
use std::alloc::Global;

/// The filter `insert-filter`. The text goes in at the process's mark, and the mark behind it; point goes back where
/// it stood in the text, unless it stood at the mark (GNU Emacs Lisp Reference Manual, Filter Functions).
#[derive(Clone, Copy, Debug, PartialEq, Eq)]
pub struct InsertFilter;

/// What each call before the last has to answer.
const WANTED: [Wanted; 9] = [
    Wanted::Buffer,
    Wanted::Anything,
    Wanted::Number,
    Wanted::Marker,
    Wanted::Number,
    Wanted::Anything,
    Wanted::Anything,
    Wanted::Number,
    Wanted::Anything,
];

impl InsertFilter {
    /// The filter.
    pub fn new() -> InsertFilter {
        InsertFilter
    }
}

impl Handler for InsertFilter {
    ghost use Rattle.std.specs.Prelude.{codes};
    ghost use Rattle.plain_machine.specs.Shipped.{insert_filter};

    ghost called = { λ h. codes "insert-filter" };

    ghost does = { λ h args past. insert_filter args past };

    fn name(&self) -> &str {
        "insert-filter"
    }

    fn next(&self, args: &Values, past: &Replies) -> Mem<Next> {
        if !are_as_wanted(past, &WANTED) {
            return Ok(Next::Done);
        }
        next_call(args, past)
    }
}

/// The call that comes next where each reply is as wanted.
fn next_call(args: &Values, past: &Replies) -> Mem<Next>
    requires { are_kept (map reply_of (items_of past.now)) insert_wanted ≡ true }
    ensures { IfOk result (λ next. asked_of next ≡
        insert_filter (map view (items_of args.now)) (map reply_of (items_of past.now))) }
{
    let alloc = args.allocator();
    match past.len() {
        0 => ask_with(alloc, Primitive::ProcessBuffer, copied(argument(args, 0))?),
        1 => ask_with(alloc, Primitive::SetBuffer, copied(answer(past, 0))?),
        2 => Ok(ask(alloc, Primitive::Point)),
        3 => ask_with(alloc, Primitive::ProcessMark, copied(argument(args, 0))?),
        4 => ask_with(alloc, Primitive::MarkerPosition, copied(answer(past, 3))?),
        5 => ask_with(alloc, Primitive::GotoChar, copied(answer(past, 3))?),
        6 => ask_with(alloc, Primitive::Insert, copied(argument(args, 1))?),
        7 => Ok(ask(alloc, Primitive::Point)),
        8 => set_mark(alloc, past),
        _ => point_back(alloc, past),
    }
}

/// The process's mark is set behind the text.
fn set_mark(alloc: Global, past: &Replies) -> Mem<Next>
    ensures { IfOk result (λ next. asked_of next ≡
        Some (
          SetMarker,
          arg (answers_of past.now) 3 ∷ arg (answers_of past.now) 7 ∷
              arg (answers_of past.now) 0 ∷ [],
        )) }
{
    let mark = copied(answer(past, 3))?;
    let place = copied(answer(past, 7))?;
    let buffer = copied(answer(past, 0))?;
    ask_with_three(alloc, Primitive::SetMarker, mark, place, buffer)
}

/// Point goes back, if it has to.
fn point_back(alloc: Global, past: &Replies) -> Mem<Next>
    ensures { IfOk result (λ next. asked_of next ≡ point_back_of (answers_of past.now) []) }
{
    let point = number(answer(past, 2));
    let mark = number(answer(past, 4));
    let behind = number(answer(past, 7));
    match place_back(point, mark, behind) {
        Some(place) => ask_with(alloc, Primitive::GotoChar, Value::Int(place)),
        None => Ok(Next::Done),
    }
}

/// Where point goes that stood at `point`, when a text was put in at `mark` that now ends in front of `behind`. It
/// stays where it was put where it stood at the mark, or where its place is no i64.
fn place_back(point: i64, mark: i64, behind: i64) -> Option<i64>
    ensures { option_map (λ i. (GotoChar, Int i ∷ [])) result ≡ back point mark behind }
{
    if point < mark {
        return Some(point);
    }
    if mark < point {
        return behind.checked_add_unsigned(point.abs_diff(mark));
    }
    None
}
