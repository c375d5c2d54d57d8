//! The limits that calls keep.
ghost use Rattle.std.specs.Prelude.{◌≡◌, ◌+◌, ◌≤◌, nat_le};
ghost use Rattle.editor_model.specs.Arguments.{has_room, must_be_fewer, must_be_short};
ghost use Rattle.editor_model.specs.Arguments.{must_fit_a_string, must_have_room};
ghost use Rattle.editor_model.specs.Editor.{characters_in};
ghost use Rattle.editor_model.specs.Limits.{longest_text, longest_texts};
ghost use Rattle.ek_call.specs.Meaning.{view};
ghost use Rattle.buffer_table.specs.Kept.{editor_of};
ghost use Rattle.prim_arguments.specs.Meaning.{fault_in};

use crate::kinds::must;
use buffer_table::Editor;
use ek_call::{Fault, Value};

/// The most characters of one text.
const LONGEST_TEXT: u128 = 4_194_304;

/// The most characters of all texts together.
const LONGEST_TEXTS: u128 = 16_777_216;

/// The most characters of a string that is made from a buffer.
const LONGEST_STRING: usize = 1_048_576;

/// The most characters of a name as it is given.
const LONGEST_NAME: usize = 256;

/// One more is to be made, and `most` may ever be.
pub fn must_be_fewer(most: u32, made: u32) -> Result<(), Fault>
    ensures { fault_in result ≡ must_be_fewer most made }
{
    must(made < most, Fault::TooMany)
}

/// A name is no longer than a name may be.
pub fn must_be_short(v: &Value) -> Result<(), Fault>
    ensures { fault_in result ≡ must_be_short (view v.now) }
{
    let length = match v {
        Value::Str(text) => text.len(),
        _ => 0,
    };
    must(length <= LONGEST_NAME, Fault::TooMany)
}

/// So many characters are to be made a string.
pub fn must_fit_a_string(length: usize) -> Result<(), Fault>
    ensures { fault_in result ≡ must_fit_a_string length }
{
    must(length <= LONGEST_STRING, Fault::TooMany)
}

/// Whether `n` more characters, of one text at most, fit in all texts. Where they would fit if all blocks of the
/// texts were full, the texts aren't counted.
fn have_room(editor: &Editor, n: u128) -> bool
    requires { n ≤ longest_text }
    ensures { result ≡ nat_le (characters_in (editor_of editor.now).buffers + n) longest_texts }
{
    let room = LONGEST_TEXTS - n;
    256 * editor.pool_live() as u128 <= room || editor.characters() <= room
}

/// Whether `n` more characters fit in a buffer.
fn has_room(editor: &Editor, id: u32, n: u128) -> bool
    ensures { result ≡ has_room (editor_of editor.now) id n }
{
    if n == 0 {
        return true;
    }
    if n > LONGEST_TEXT {
        return false;
    }
    let size = editor.size(id) as u128;
    size + n <= LONGEST_TEXT && have_room(editor, n)
}

/// So many more characters are to be put in a buffer.
#[inline(always)]
pub fn must_have_room(editor: &Editor, id: u32, n: u128) -> Result<(), Fault>
    ensures { fault_in result ≡ must_have_room (editor_of editor.now) id n }
{
    must(has_room(editor, id, n), Fault::BufferFull)
}
