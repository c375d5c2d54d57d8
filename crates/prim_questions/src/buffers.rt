//! The calls on buffers.
ghost use Rattle.std.specs.Prelude.{◌≡◌, map, true, IfOk, OnOk, OnErr, None};
ghost use Rattle.editor_model.specs.Values.{TheBuffer, Answered, plain};
ghost use Rattle.editor_model.specs.Editor.{live, live_from, find, find_from, change_buffer, protected};
ghost use Rattle.editor_model.specs.Editor.{renamed};
ghost use Rattle.editor_model.specs.Arguments.{name_of};
ghost use Rattle.editor_model.specs.BufferCalls as calls;
ghost use Rattle.ek_types.specs.Listing.{items_of};
ghost use Rattle.ek_call.specs.Meaning.{view};
ghost use Rattle.buffer_table.specs.Kept.{editor_of};
ghost use Rattle.prim_arguments.specs.Meaning.{Answers, Applies};
ghost use Rattle.prim_questions.specs.Names.{rivals};

use crate::names::free_name;
use buffer_table::Editor;
use ek_call::{Fault, Value, Values};
use ek_types::limits::MOST_BUFFERS;
use ek_types::{Chars, Mem};
use prim_arguments::kinds::{flag, must_be_buffer, must_be_buffer_or_nil, name as string_of_name};
use prim_arguments::limits::{must_be_fewer, must_be_short};
use prim_arguments::values::{buffer, list, plain, truth};
use prim_arguments::{Failure, objects};

/// The current buffer.
pub fn current_buffer(editor: &Editor) -> Result<Value, Failure>
    ensures { Answers result (Answered (TheBuffer (editor_of editor.now).current)) }
{
    Ok(buffer(editor.current()))
}

/// The buffer that has a name, or nil.
pub fn get_buffer(editor: &Editor, b: &Value) -> Result<Value, Failure>
    ensures { Answers result (calls.get_buffer (editor_of editor.now) (view b.now)) }
{
    match b {
        Value::Buffer(id) => Ok(Value::Buffer(*id)),
        Value::Str(name) => match objects::find(editor, name) {
            Some(id) => Ok(Value::Buffer(id)),
            None => Ok(Value::Nil),
        },
        _ => Err(Failure::Refused(Fault::WrongType)),
    }
}

/// Whether a value is a live buffer.
pub fn buffer_live_p(editor: &Editor, b: &Value) -> Result<Value, Failure>
    ensures { Answers result (calls.buffer_live_p (editor_of editor.now) (view b.now)) }
{
    match b {
        Value::Buffer(id) => Ok(truth(editor.is_live(*id))),
        _ => Ok(Value::Nil),
    }
}

/// The name of a live buffer, or nil.
fn name(editor: &Editor, id: u32) -> Mem<Value>
    ensures { IfOk result (λ v. view v ≡ calls.name_value (live (editor_of editor.now) id)) }
{
    match editor.name(id) {
        Some(name) => plain(editor.allocator(), name),
        None => Ok(Value::Nil),
    }
}

/// The name of a buffer, or nil where it was killed.
pub fn buffer_name(editor: &Editor, b: &Value) -> Result<Value, Failure>
    ensures { Answers result (calls.buffer_name (editor_of editor.now) (view b.now)) }
{
    match b {
        Value::Nil => Ok(name(editor, editor.current())?),
        Value::Buffer(id) => Ok(name(editor, *id)?),
        _ => Err(Failure::Refused(Fault::WrongType)),
    }
}

/// The live buffers by rising number.
fn all_live(editor: &Editor) -> Mem<Values>
    ensures { IfOk result (λ values. map view (items_of values) ≡
        map TheBuffer (live_from 0 (editor_of editor.now).buffers)) }
{
    let mut values = Values::new(editor.allocator());
    for id in 0..editor.count() {
        if editor.is_live(id) {
            values.push(buffer(id))?;
        }
    }
    Ok(values)
}

/// The live buffers.
pub fn buffer_list(editor: &Editor) -> Result<Value, Failure>
    ensures { Answers result (calls.buffer_list (editor_of editor.now)) }
{
    Ok(list(all_live(editor)?))
}

/// Whether a buffer was modified.
pub fn buffer_modified_p(editor: &Editor, b: &Value) -> Result<Value, Failure>
    ensures { Answers result (calls.buffer_modified_p (editor_of editor.now) (view b.now)) }
{
    must_be_buffer_or_nil(b)?;
    let id = objects::buffer(editor, b)?;
    Ok(truth(editor.is_modified(id)))
}

/// Whether a buffer is read-only.
pub fn buffer_read_only_p(editor: &Editor, b: &Value) -> Result<Value, Failure>
    ensures { Answers result (calls.buffer_read_only_p (editor_of editor.now) (view b.now)) }
{
    must_be_buffer_or_nil(b)?;
    let id = objects::buffer(editor, b)?;
    Ok(truth(editor.read_only(id)))
}

/// Makes a buffer the current one.
pub fn set_buffer(editor: &mut Editor, b: &Value) -> Result<Value, Failure>
    ensures { Applies result (editor_of editor.old) (editor_of editor.new)
        (calls.set_buffer (editor_of editor.old) (view b.now)) }
{
    must_be_buffer(b)?;
    let id = objects::buffer(editor, b)?;
    editor.set_current(id);
    Ok(Value::Buffer(id))
}

/// Says whether the current buffer was modified.
fn set_modified(editor: &mut Editor, on: bool)
    ensures { editor_of editor.new ≡ change_buffer (editor_of editor.old).current
        (λ b. record b { modified = on }) (editor_of editor.old) }
{
    let id = editor.current();
    editor.set_modified(id, on);
}

/// Says whether the current buffer was modified, and answers it.
pub fn set_buffer_modified_p(editor: &mut Editor, v: &Value) -> Result<Value, Failure>
    ensures { Applies result (editor_of editor.old) (editor_of editor.new)
        (calls.set_buffer_modified_p (editor_of editor.old) (view v.now)) }
{
    set_modified(editor, flag(v));
    Ok(truth(flag(v)))
}

/// Makes the current buffer read-only, or writable.
fn set_read_only(editor: &mut Editor, on: bool)
    ensures { editor_of editor.new ≡ protected (editor_of editor.old).current on
        (editor_of editor.old) }
{
    let id = editor.current();
    editor.set_read_only(id, on);
}

/// Says whether the current buffer is read-only, and answers it.
pub fn set_buffer_read_only(editor: &mut Editor, v: &Value) -> Result<Value, Failure>
    ensures { Applies result (editor_of editor.old) (editor_of editor.new)
        (calls.set_buffer_read_only (editor_of editor.old) (view v.now)) }
{
    set_read_only(editor, flag(v));
    Ok(truth(flag(v)))
}

/// Makes a buffer of a name that no live buffer has.
fn make_named(editor: &mut Editor, v: &Value) -> Result<Value, Failure>
    requires { find (editor_of editor.old) (name_of (view v.now)) ≡ None }
    ensures { Applies result (editor_of editor.old) (editor_of editor.new)
        (calls.found_or_made (editor_of editor.old) (view v.now) None) }
{
    let name = string_of_name(v)?;
    must_be_short(v)?;
    must_be_fewer(MOST_BUFFERS, editor.count())?;
    let id = editor.make(name.text())?;
    Ok(Value::Buffer(id))
}

/// The buffer that has a name, which is made where there is none.
pub fn get_buffer_create(editor: &mut Editor, b: &Value) -> Result<Value, Failure>
    ensures { Applies result (editor_of editor.old) (editor_of editor.new)
        (calls.get_buffer_create (editor_of editor.old) (view b.now)) }
{
    match b {
        Value::Buffer(id) => Ok(Value::Buffer(*id)),
        Value::Str(name) => match objects::find(editor, name) {
            Some(id) => Ok(Value::Buffer(id)),
            None => make_named(editor, b),
        },
        _ => Err(Failure::Refused(Fault::WrongType)),
    }
}

/// Makes a buffer, whose name gets a number where another has it.
pub fn generate_new_buffer(editor: &mut Editor, v: &Value) -> Result<Value, Failure>
    ensures { Applies result (editor_of editor.old) (editor_of editor.new)
        (calls.generate_new_buffer (editor_of editor.old) (view v.now)) }
{
    let name = string_of_name(v)?;
    must_be_short(v)?;
    must_be_fewer(MOST_BUFFERS, editor.count())?;
    let free = free_name(editor, false, name.text())?;
    let id = editor.make(&free)?;
    Ok(Value::Buffer(id))
}

/// Gives the current buffer a name that no other live buffer has, and answers it. A refusal leaves the editor as it was.
fn rename_current(editor: &mut Editor, name: &Chars) -> Mem<Value>
    requires { find_from 0 (rivals true (editor_of editor.old)) name.now.items ≡ None }
    ensures value { IfOk result (λ v. view v ≡ plain name.now.items) }
    ensures ok { OnOk result (editor_of editor.new ≡
        renamed (editor_of editor.old).current name.now.items (editor_of editor.old)) }
    ensures err { OnErr result (editor_of editor.new ≡ editor_of editor.old) }
{
    let answer = plain(editor.allocator(), name)?;
    let id = editor.current();
    editor.rename(id, name)?;
    Ok(answer)
}

/// Gives the current buffer a name, with a number where another has it.
pub fn rename_buffer(editor: &mut Editor, v: &Value) -> Result<Value, Failure>
    ensures { Applies result (editor_of editor.old) (editor_of editor.new)
        (calls.rename_buffer (editor_of editor.old) (view v.now)) }
{
    let name = string_of_name(v)?;
    must_be_short(v)?;
    let free = free_name(editor, true, name.text())?;
    Ok(rename_current(editor, &free)?)
}
