//! What is read-only, and which changes that bars ("Read Only Buffers" and "Special Properties" in the GNU Emacs Lisp
//! Reference Manual).
ghost use Rattle.std.specs.Prelude.{◌≡◌, ◌≤◌, true, false, nat_lt, length};
ghost use Rattle.text_model.specs.Properties.{part};
ghost use Rattle.editor_model.specs.Editor.{here};
ghost use Rattle.editor_model.specs.ReadOnly as calls;
ghost use Rattle.editor_model.specs.TextCalls.{takes_no_text, must_take_text, must_give_text};
ghost use Rattle.buffer_table.specs.Kept.{editor_of};
ghost use Rattle.prim_arguments.specs.Meaning.{fault_in};

use buffer_table::Editor;
use ek_call::Fault;
use ek_types::Sym;
use prim_arguments::kinds::must;
use prim_questions::properties::{first_place, set_at};
use stickiness::inherits;

/// A change that is tested: neither its buffer nor its text is read-only.
fn must_be_writable(buffer: bool, text: bool) -> Result<(), Fault>
    ensures { fault_in result ≡ calls.must_be_writable true buffer text }
{
    must(!buffer, Fault::BufferReadOnly)?;
    must(!text, Fault::TextReadOnly)
}

/// Whether a change is tested, by whether it would change something.
fn is_tested(editor: &Editor, changes: bool) -> bool
    ensures { result ≡ calls.is_tested (editor_of editor.now) changes }
{
    changes && !editor.tests_lifted()
}

/// Whether text that is put in at a place would inherit `read-only`.
fn takes_no_text(editor: &Editor, id: u32, at: usize) -> bool
    ensures { result ≡ takes_no_text (editor_of editor.now) id at }
{
    let before = if at == 0 {
        None
    } else {
        set_at(editor, id, at - 1)
    };
    inherits(before, set_at(editor, id, at), Sym::READ_ONLY)
}

/// So many characters may be put in at a place of a buffer, which may count as read-only or not.
pub(crate) fn must_take(
    editor: &Editor,
    read_only: bool,
    id: u32,
    at: usize,
    n: u128,
) -> Result<(), Fault>
    ensures { fault_in result ≡ calls.must_be_writable
        (calls.is_tested (editor_of editor.now) (nat_lt 0 n)) read_only
        (takes_no_text (editor_of editor.now) id at) }
{
    if !is_tested(editor, n > 0) {
        return Ok(());
    }
    must_be_writable(read_only, takes_no_text(editor, id, at))
}

/// So many characters may be put in at point.
pub(crate) fn must_take_text(editor: &Editor, n: u128) -> Result<(), Fault>
    ensures { fault_in result ≡ must_take_text (editor_of editor.now) n }
{
    let id = editor.current();
    let point = editor.bounds(id).point;
    must_take(editor, editor.read_only(id), id, point, n)
}

/// Records of the current buffer may be undone.
pub(crate) fn must_be_undoable(editor: &Editor) -> Result<(), Fault>
    ensures { fault_in result ≡ calls.must_be_writable_here (editor_of editor.now) true false }
{
    if !is_tested(editor, true) {
        return Ok(());
    }
    must_be_writable(editor.read_only(editor.current()), false)
}

/// Whether a part of the current buffer has a character that is read-only.
fn has_read_only(editor: &Editor, from: usize, to: usize) -> bool
    requires order { from ≤ to }
    requires range { to ≤ length (here (editor_of editor.now)).text }
    ensures { result ≡ calls.has_read_only (part from to (here (editor_of editor.now)).text) }
{
    first_place(editor, from, to, Sym::READ_ONLY, None, false).is_some()
}

/// A part of the current buffer may be changed, by whether something would change.
pub(crate) fn must_take_change(
    editor: &Editor,
    changes: bool,
    from: usize,
    to: usize,
) -> Result<(), Fault>
    requires order { from ≤ to }
    requires range { to ≤ length (here (editor_of editor.now)).text }
    ensures { fault_in result ≡ calls.must_be_writable_here (editor_of editor.now) changes
        (calls.has_read_only (part from to (here (editor_of editor.now)).text)) }
{
    if !is_tested(editor, changes) {
        return Ok(());
    }
    let read_only = editor.read_only(editor.current());
    must_be_writable(read_only, has_read_only(editor, from, to))
}

/// A part of the current buffer may be taken out.
pub(crate) fn must_give_text(editor: &Editor, from: usize, to: usize) -> Result<(), Fault>
    requires order { from ≤ to }
    requires range { to ≤ length (here (editor_of editor.now)).text }
    ensures { fault_in result ≡ must_give_text (editor_of editor.now) from to }
{
    must_take_change(editor, from != to, from, to)
}
