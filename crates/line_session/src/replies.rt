//! The replies that a native of a session has had.
ghost use Rattle.std.specs.Prelude.{◌≡◌, slice_get, unwrap_or};
ghost use Rattle.std.specs.Option.{option_map};
ghost use Rattle.std.specs.List.{list_all};
ghost use Rattle.editor_model.specs.Arguments.{arg};
ghost use Rattle.editor_model.specs.Values.{Nil};
ghost use Rattle.ek_call.specs.Meaning.{view, reply_of};
ghost use Rattle.line_session.specs.Replies as seen;
ghost use Rattle.line_session.specs.Replies.{replies_of, answers_of};

use ek_call::{Reply, Value};

/// Whether a reply is an answer.
pub(crate) fn is_answer(reply: &Reply) -> bool
    ensures { result ≡ seen.is_answer (reply_of reply.now) }
{
    match reply {
        Reply::Value(_) => true,
        Reply::Fault(_) => false,
    }
}

/// Whether all replies are answers.
pub(crate) fn are_answers(past: &[Reply]) -> bool
    ensures { result ≡ list_all (λ r. seen.is_answer (reply_of r)) past.now }
{
    past.iter().all(|reply| is_answer(reply))
}

/// Whether the first so many replies are there and are answers.
pub(crate) fn has_answers(past: &[Reply], count: usize) -> bool
    ensures { result ≡ seen.has_answers count (replies_of past.now) }
{
    if past.len() < count {
        return false;
    }
    are_answers(&past[..count])
}

/// The reply at a place, counted from 0, if there is one.
fn reply_at(past: &[Reply], i: usize) -> Option<&Reply>
    ensures { option_map (λ r. reply_of r.now) result ≡ slice_get (replies_of past.now) i }
{
    past.get(i)
}

/// The answer to the call at a place, counted from 0. `None` stands for nil.
pub(crate) fn answer(past: &[Reply], i: usize) -> Option<&Value>
    ensures { unwrap_or (option_map (λ v. view v.now) result) Nil ≡ arg (answers_of past.now) i }
{
    let Some(reply) = reply_at(past, i) else {
        return None;
    };
    match reply {
        Reply::Value(value) => Some(value),
        Reply::Fault(_) => None,
    }
}
