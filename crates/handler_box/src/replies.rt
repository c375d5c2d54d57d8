//! The replies that a shipped handler has had.
ghost use Rattle.std.specs.Prelude.{◌≡◌, ◌<◌, Some, length, map, slice_get, unwrap_or};
ghost use Rattle.std.specs.Option.{option_map};
ghost use Rattle.editor_model.specs.Arguments.{arg};
ghost use Rattle.editor_model.specs.Values.{Nil};
ghost use Rattle.plain_machine.specs.Shipped.{ABuffer, AMarker, ANumber, is_wanted, number_of};
ghost use Rattle.ek_types.specs.Listing.{items_of};
ghost use Rattle.ek_call.specs.Meaning.{view, reply_of};
ghost use Rattle.handler_box.specs.Replies.{wanted_of, is_kept, are_kept, answers_of};

use ek_call::{Replies, Reply, Value};

/// What the answer of a call has to be.
#[derive(Clone, Copy, Debug, PartialEq, Eq)]
pub(crate) enum Wanted {
    Buffer,
    Marker,
    Number,
    Anything,
}

/// Whether a value is a buffer.
fn is_buffer(value: &Value) -> bool
    ensures { result ≡ is_wanted ABuffer (view value.now) }
{
    matches!(value, Value::Buffer(_))
}

/// Whether a value is a marker.
fn is_marker(value: &Value) -> bool
    ensures { result ≡ is_wanted AMarker (view value.now) }
{
    matches!(value, Value::Marker(_))
}

/// Whether a value is a number.
fn is_number(value: &Value) -> bool
    ensures { result ≡ is_wanted ANumber (view value.now) }
{
    matches!(value, Value::Int(_))
}

/// Whether a reply is an answer of the kind that is wanted.
fn is_as_wanted(reply: &Reply, wanted: Wanted) -> bool
    ensures { result ≡ is_kept (reply_of reply.now) (wanted_of wanted) }
{
    let Reply::Value(value) = reply else {
        return false;
    };
    match wanted {
        Wanted::Buffer => is_buffer(value),
        Wanted::Marker => is_marker(value),
        Wanted::Number => is_number(value),
        Wanted::Anything => true,
    }
}

/// What the answer to the call at place `i` has to be, which is below the length.
fn wanted_at(wanted: &[Wanted], i: usize) -> Wanted
    requires { i < length wanted.now }
    ensures { slice_get wanted.now i ≡ Some result }
{
    wanted[i]
}

/// Whether each reply so far is an answer of the kind that is wanted, and there are no more than are wanted.
pub(crate) fn are_as_wanted(past: &Replies, wanted: &[Wanted]) -> bool
    ensures { result ≡ are_kept (map reply_of (items_of past.now)) (map wanted_of wanted.now) }
{
    if past.len() > wanted.len() {
        return false;
    }
    for i in 0..past.len() {
        if !is_as_wanted(past.at(i), wanted_at(wanted, i)) {
            return false;
        }
    }
    true
}

/// The reply at a place, counted from 0, if there is one.
fn reply_at(past: &Replies, i: usize) -> Option<&Reply>
    ensures { option_map (λ r. reply_of r.now) result ≡ slice_get (map reply_of (items_of past.now)) i }
{
    past.as_slice().get(i)
}

/// The answer to the call at a place, counted from 0. `None` stands for nil.
pub(crate) fn answer(past: &Replies, i: usize) -> Option<&Value>
    ensures { unwrap_or (option_map (λ v. view v.now) result) Nil ≡ arg (answers_of past.now) i }
{
    let Some(reply) = reply_at(past, i) else {
        return None;
    };
    match reply {
        Reply::Value(value) => Some(value),
        Reply::Fault(_) => None,
    }
}

/// A number, and 0 in the place of anything else.
pub(crate) fn number(value: Option<&Value>) -> i64
    ensures { result ≡ number_of (unwrap_or (option_map (λ v. view v.now) value.entry) Nil) }
{
    match value {
        Some(Value::Int(i)) => *i,
        _ => 0,
    }
}
