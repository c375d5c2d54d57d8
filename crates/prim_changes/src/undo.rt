//! The calls on undo records.
ghost use Rattle.std.specs.Prelude.{◌≡◌, OnOk, OnErr};
ghost use Rattle.text_model.specs.Undo.{with_boundary, enabled, disabled};
ghost use Rattle.editor_model.specs.UndoCalls as calls;
ghost use Rattle.buffer_table.specs.Kept.{editor_of};
ghost use Rattle.prim_arguments.specs.Meaning.{Applies};

use buffer_table::Editor;
use ek_call::{Fault, Value};
use ek_types::Mem;
use prim_arguments::Failure;

/// Ends the newest group of records of the current buffer. A refusal leaves the editor as it was.
fn end_group(editor: &mut Editor) -> Mem<()>
    ensures ok { OnOk result (editor_of editor.new ≡
        calls.with_undo with_boundary (editor_of editor.old)) }
    ensures err { OnErr result (editor_of editor.new ≡ editor_of editor.old) }
{
    let id = editor.current();
    editor.undo_boundary(id)
}

/// Ends the newest group of records, and answers nil.
pub fn undo_boundary(editor: &mut Editor) -> Result<Value, Failure>
    ensures { Applies result (editor_of editor.old) (editor_of editor.new)
        (calls.undo_boundary (editor_of editor.old)) }
{
    end_group(editor)?;
    Ok(Value::Nil)
}

/// Begins to record the changes of the current buffer.
fn enable(editor: &mut Editor)
    ensures { editor_of editor.new ≡ calls.with_undo enabled (editor_of editor.old) }
{
    let id = editor.current();
    editor.undo_enable(id, true);
}

/// Stops to record the changes of the current buffer, and drops all records.
fn disable(editor: &mut Editor)
    ensures { editor_of editor.new ≡ calls.with_undo disabled (editor_of editor.old) }
{
    let id = editor.current();
    editor.undo_enable(id, false);
}

/// The current buffer records its changes.
pub fn buffer_enable_undo(editor: &mut Editor) -> Result<Value, Failure>
    ensures { Applies result (editor_of editor.old) (editor_of editor.new)
        (calls.buffer_enable_undo (editor_of editor.old)) }
{
    enable(editor);
    Ok(Value::Nil)
}

/// The current buffer records no changes, and drops its records.
pub fn buffer_disable_undo(editor: &mut Editor) -> Result<Value, Failure>
    ensures { Applies result (editor_of editor.old) (editor_of editor.new)
        (calls.buffer_disable_undo (editor_of editor.old)) }
{
    disable(editor);
    Ok(Value::Nil)
}

/// All records of the current buffer become pending, where it records. It is refused where it doesn't.
pub fn undo_start(editor: &mut Editor) -> Result<Value, Failure>
    ensures { Applies result (editor_of editor.old) (editor_of editor.new)
        (calls.undo_start (editor_of editor.old)) }
{
    let id = editor.current();
    match editor.undo_start(id) {
        Ok(()) => Ok(Value::Nil),
        Err(_) => Err(Failure::Refused(Fault::UndoDisabled)),
    }
}
