//! The buffers that arguments give.
ghost use Rattle.std.specs.Prelude.{◌≡◌, ◌<◌, map, true, Some, IfOk};
ghost use Rattle.std.specs.Prelude.{IfSome};
ghost use Rattle.editor_model.specs.Editor.{find, is_live};
ghost use Rattle.editor_model.specs.Arguments.{buffer_of, buffer_there};
ghost use Rattle.ek_call.specs.Meaning.{view};
ghost use Rattle.buffer_table.specs.Kept.{editor_of};
ghost use Rattle.prim_arguments.specs.Meaning.{fault_in};

use crate::kinds::must;
use buffer_table::Editor;
use ek_call::{Fault, Value};
use ek_types::Piece;

/// The number of the live buffer whose name has the characters of a string.
pub fn find(editor: &Editor, name: &Piece) -> Option<u32>
    ensures found { result ≡ find (editor_of editor.now) (map (λ c. c.0) name.now) }
    ensures live { IfSome result (λ id. is_live (editor_of editor.now) id ≡ true) }
{
    editor.find(name.text())
}

/// The buffer that a buffer, a name, or nil for the current one gives, if it is there.
pub fn buffer(editor: &Editor, v: &Value) -> Result<u32, Fault>
    ensures test { fault_in result ≡ buffer_there (editor_of editor.now) (view v.now) }
    ensures number { IfOk result (λ id. id ≡ buffer_of (editor_of editor.now) (view v.now)) }
    ensures live { IfOk result (λ id. is_live (editor_of editor.now) id ≡ true) }
{
    match v {
        Value::Buffer(id) => {
            must(editor.is_live(*id), Fault::BufferKilled)?;
            Ok(*id)
        }
        Value::Str(name) => match find(editor, name) {
            Some(id) => Ok(id),
            None => Err(Fault::NoSuchBuffer),
        },
        _ => Ok(editor.current()),
    }
}
