//! What calls come to, as replies.
ghost use Rattle.std.specs.Prelude.{◌≡◌, Err, IfOk, OnErr};
ghost use Rattle.editor_model.specs.Values.{Reply as Meant};
ghost use Rattle.editor_model.specs.Answers as answers;
ghost use Rattle.editor_model.specs.Editor as model;
ghost use Rattle.ek_call.specs.Meaning.{reply_of};
ghost use Rattle.prim_arguments.specs.Meaning.{Answers, Applies};
ghost use Rattle.prim_changes.specs.Meaning.{Prepares, Commits, prepared_of};
ghost use Rattle.prim_changes.specs.Meaning.{committed_of};
ghost use Rattle.prim_arguments.specs.declared.failure.Failure.TheVariants as failure;

use crate::change::{Committed, Prepared};
use ek_call::{Reply, Value};
use ek_types::{Mem, NoMemory};
use prim_arguments::Failure;

/// The reply of a call.
pub fn reply(answer: Result<Value, Failure>) -> Mem<Reply>
    ensures asks { (call : Meant) → Answers answer call → IfOk result (λ r. reply_of r ≡ call) }
    ensures applies { (old new : model.Editor) (call : answers.Applied) →
        Applies answer old new call → IfOk result (λ r. record {
          editor = new;
          reply = reply_of r;
        } ≡ call) }
    ensures err { (old new : model.Editor) (call : answers.Applied) → Applies answer old new call →
        OnErr result (new ≡ old) }
    ensures memory { OnErr result (answer ≡ Err failure.NoMemory) }
{
    match answer {
        Ok(value) => Ok(Reply::Value(value)),
        Err(Failure::Refused(fault)) => Ok(Reply::Fault(fault)),
        Err(Failure::NoMemory) => Err(NoMemory),
    }
}

/// What a call that changes a text comes to before anything is changed.
pub fn prepared(call: Result<Prepared, Failure>) -> Mem<Prepared>
    ensures ok { (meant : answers.Prepared) → Prepares call meant →
        IfOk result (λ p. prepared_of p ≡ meant) }
    ensures memory { OnErr result (call ≡ Err failure.NoMemory) }
{
    match call {
        Ok(prepared) => Ok(prepared),
        Err(Failure::Refused(fault)) => Ok(Prepared::Fault(fault)),
        Err(Failure::NoMemory) => Err(NoMemory),
    }
}

/// What a commit comes to.
pub(crate) fn committed(call: Result<Committed, Failure>) -> Mem<Committed>
    ensures ok { (old new : model.Editor) (meant : answers.Commit) → Commits call old new meant →
        IfOk result (λ c. record { editor = new; committed = committed_of c } ≡ meant) }
    ensures err { (old new : model.Editor) (meant : answers.Commit) → Commits call old new meant →
        OnErr result (new ≡ old) }
    ensures memory { OnErr result (call ≡ Err failure.NoMemory) }
{
    match call {
        Ok(committed) => Ok(committed),
        Err(Failure::Refused(fault)) => Ok(Committed::Fault(fault)),
        Err(Failure::NoMemory) => Err(NoMemory),
    }
}
