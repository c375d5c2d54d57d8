//! The call that undoes groups of records ("Undo" in the GNU Emacs Lisp Reference Manual).
ghost use Rattle.std.specs.Prelude.{◌≡◌, ◌≤◌, ◌&&◌, nat_le, IfOk};
ghost use Rattle.editor_model.specs.Values.{ArgsOutOfRange, Int as number};
ghost use Rattle.editor_model.specs.Answers.{refuse};
ghost use Rattle.editor_model.specs.Arguments.{count_of, must_be_integer};
ghost use Rattle.editor_model.specs.Editor.{buffer_at};
ghost use Rattle.editor_model.specs.Limits.{most_groups};
ghost use Rattle.editor_model.specs.UndoCalls as calls;
ghost use Rattle.ek_call.specs.Meaning.{view};
ghost use Rattle.buffer_table.specs.Kept.{editor_of};
ghost use Rattle.prim_arguments.specs.Meaning.{fault_in};
ghost use Rattle.prim_changes.specs.Meaning.{Prepares};
ghost use Rattle.prim_changes.specs.Planning.{Planned};

use crate::change::{Change, Prepared, What};
use crate::read_only::must_be_undoable;
use buffer_table::Editor;
use ek_call::{Fault, Value};
use prim_arguments::Failure;
use undo_list::{Plan, Refused};

/// The most groups that are undone at once.
const MOST_GROUPS: i64 = 65_536;

/// An integer.
fn integer(v: &Value) -> Result<i64, Fault>
    ensures test { fault_in result ≡ must_be_integer (view v.now) }
    ensures content { IfOk result (λ i. view v.now ≡ number i) }
{
    match v {
        Value::Int(i) => Ok(*i),
        _ => Err(Fault::WrongType),
    }
}

/// How many groups an integer gives.
fn groups(i: i64) -> Result<u32, Fault>
    ensures test { fault_in result ≡ refuse ArgsOutOfRange
        (nat_le 1 (count_of (number i)) && nat_le (count_of (number i)) most_groups) }
    ensures content { IfOk result (λ n. (n ≡ count_of (number i)) × (1 ≤ n)) }
{
    if i < 1 || i > MOST_GROUPS {
        return Err(Fault::ArgsOutOfRange);
    }
    Ok(i as u32)
}

/// The plan of undoing some groups, or why it is refused.
pub(crate) fn plan(editor: &Editor, id: u32, groups: u32) -> Result<Plan, Failure>
    requires { 1 ≤ groups }
    ensures { Planned result groups (buffer_at (editor_of editor.now) id) }
{
    match editor.undo_plan(id, groups)? {
        Ok(plan) => Ok(plan),
        Err(Refused::Disabled) => Err(Failure::Refused(Fault::UndoDisabled)),
        Err(Refused::Nothing) => Err(Failure::Refused(Fault::NoFurtherUndo)),
        Err(Refused::Outside(_)) => Err(Failure::Refused(Fault::UndoOutside)),
    }
}

/// Undoes some groups of records of the current buffer.
pub fn undo_more(editor: &Editor, v: &Value) -> Result<Prepared, Failure>
    ensures { Prepares result (calls.undo_more (editor_of editor.now) (view v.now)) }
{
    let groups = groups(integer(v)?)?;
    let buffer = editor.current();
    must_be_undoable(editor)?;
    let plan = plan(editor, buffer, groups)?;
    let portion = editor.bounds(buffer);
    let change = Change {
        buffer,
        from: portion.start,
        to: portion.end,
        what: What::UndoGroups(groups),
        reply: Value::Nil,
    };
    if plan.count == 0 {
        Ok(Prepared::Quiet(change))
    } else {
        Ok(Prepared::Change(change))
    }
}
