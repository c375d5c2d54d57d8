//! The calls on point, on the text and on the accessible portion of a buffer.
ghost use Rattle.std.specs.Prelude.{◌≡◌, ◌≤◌, ◌-◌, nat_lt, false, [], ◌∷◌, length, IfOk, None};
ghost use Rattle.editor_model.specs.Values.{at_place, truth, Answered};
ghost use Rattle.editor_model.specs.Editor.{here, buffer_at, change_buffer, marker_of};
ghost use Rattle.narrow_region.specs.Positions.{place_of};
ghost use Rattle.text_model.specs.Properties.{part};
ghost use Rattle.editor_model.specs.Answers.{first_fault};
ghost use Rattle.editor_model.specs.TextCalls as calls;
ghost use Rattle.editor_model.specs.Arguments.{place_or, from_of, to_of, must_fit_a_string};
ghost use Rattle.editor_model.specs.Arguments.{must_have_room as room};
ghost use Rattle.editor_model.specs.ReadOnly.{must_be_writable, is_tested as tested};
ghost use Rattle.ek_call.specs.Meaning.{view};
ghost use Rattle.buffer_table.specs.Kept.{editor_of};
ghost use Rattle.prim_arguments.specs.Meaning.{Answers, Applies, fault_in};
ghost use Rattle.prim_changes.specs.Meaning.{Prepares, prepared_of, text_of};

use crate::change::{Change, Pieces, Prepared, What};
use crate::read_only::{must_give_text, must_take, must_take_text};
use buffer_core::are_empty;
use buffer_table::Editor;
use ek_call::{Fault, Value};
use ek_types::{Chars, Copied, Mem, Piece};
use prim_arguments::kinds::{
    must_be_buffer, must_be_buffer_or_nil, must_be_position, must_be_position_or_nil,
};
use prim_arguments::limits::{must_fit_a_string, must_have_room};
use prim_arguments::places::{
    from_of, is_before_text, must_be_accessible, must_be_nil_or_accessible, must_lie_in,
    must_point_somewhere, place, position, spot, to_of,
};
use prim_arguments::values::{at_place, count, plain, truth};
use prim_arguments::{Failure, objects};
use std::alloc::Global;

/// Point.
pub fn point(editor: &Editor) -> Result<Value, Failure>
    ensures { Answers result (Answered (at_place (here (editor_of editor.now)).point)) }
{
    Ok(at_place(editor.bounds(editor.current()).point)?)
}

/// The beginning of the accessible portion.
pub fn point_min(editor: &Editor) -> Result<Value, Failure>
    ensures { Answers result (Answered (at_place (here (editor_of editor.now)).begin)) }
{
    Ok(at_place(editor.bounds(editor.current()).start)?)
}

/// The end of the accessible portion.
pub fn point_max(editor: &Editor) -> Result<Value, Failure>
    ensures { Answers result (Answered (at_place (here (editor_of editor.now)).end)) }
{
    Ok(at_place(editor.bounds(editor.current()).end)?)
}

/// Whether the accessible portion isn't the whole text.
pub fn buffer_narrowed_p(editor: &Editor) -> Result<Value, Failure>
    ensures { Answers result (Answered (truth (calls.is_narrowed (here (editor_of editor.now))))) }
{
    let id = editor.current();
    let portion = editor.bounds(id);
    let whole = portion.start == 0 && portion.end == editor.size(id);
    Ok(truth(!whole))
}

/// How many characters a buffer has.
pub fn buffer_size(editor: &Editor, b: &Value) -> Result<Value, Failure>
    ensures { Answers result (calls.buffer_size (editor_of editor.now) (view b.now)) }
{
    must_be_buffer_or_nil(b)?;
    let id = objects::buffer(editor, b)?;
    Ok(count(editor.size(id))?)
}

/// The code of the character of the accessible portion at a place, or nil.
fn code_at(editor: &Editor, id: u32, place: usize) -> Value
    ensures { view result ≡ calls.code_value (calls.char_at (buffer_at (editor_of editor.now) id)
        place) }
{
    let portion = editor.bounds(id);
    if place < portion.start || portion.end <= place {
        return Value::Nil;
    }
    Value::Int(i64::from(editor.char_at(id, place).code()))
}

/// The code of the character behind a position, or behind point.
pub fn char_after(editor: &Editor, p: &Value) -> Result<Value, Failure>
    ensures { Answers result (calls.char_after (editor_of editor.now) (view p.now)) }
{
    let id = editor.current();
    if p.is_nil() {
        return Ok(code_at(editor, id, editor.bounds(id).point));
    }
    must_be_position(p)?;
    must_point_somewhere(editor, p)?;
    if is_before_text(editor, p) {
        return Ok(Value::Nil);
    }
    Ok(code_at(editor, id, place(editor, p)))
}

/// A part of a text.
fn part(editor: &Editor, id: u32, from: usize, to: usize) -> Mem<Piece>
    requires order { from ≤ to }
    requires range { to ≤ length (buffer_at (editor_of editor.now) id).text }
    ensures { IfOk result (λ piece. piece ≡ part from to (buffer_at (editor_of editor.now) id).text) }
{
    if from == to {
        let alloc = editor.allocator();
        return Piece::plain(alloc, Chars::new(alloc));
    }
    editor.substring(id, from, to)
}

/// The text of the accessible portion.
pub fn buffer_string(editor: &Editor) -> Result<Value, Failure>
    ensures { Answers result (calls.buffer_string (editor_of editor.now)) }
{
    let id = editor.current();
    let portion = editor.bounds(id);
    must_fit_a_string(portion.end - portion.start)?;
    Ok(Value::Str(part(editor, id, portion.start, portion.end)?))
}

/// A region in the accessible portion of the current buffer.
fn must_be_a_region(editor: &Editor, a: &Value, b: &Value) -> Result<(), Fault>
    ensures { fault_in result ≡ first_fault (calls.must_be_a_region (editor_of editor.now)
        (view a.now) (view b.now) []) }
{
    must_be_position(a)?;
    must_be_position(b)?;
    must_be_accessible(editor.current(), editor, a)?;
    must_be_accessible(editor.current(), editor, b)
}

/// A region whose text fits in a string.
fn must_fit_a_region(editor: &Editor, a: &Value, b: &Value) -> Result<(), Fault>
    ensures { fault_in result ≡ first_fault (calls.must_fit_a_region (editor_of editor.now)
        (view a.now) (view b.now)) }
{
    must_be_position(a)?;
    must_be_position(b)?;
    must_be_accessible(editor.current(), editor, a)?;
    must_be_accessible(editor.current(), editor, b)?;
    must_fit_a_string(to_of(editor, a, b) - from_of(editor, a, b))
}

/// The text of a region.
fn region_text(editor: &Editor, a: &Value, b: &Value) -> Mem<Piece>
    requires { first_fault (calls.must_fit_a_region (editor_of editor.now) (view a.now)
        (view b.now)) ≡ None }
    ensures { IfOk result (λ piece. piece ≡ calls.region_text (editor_of editor.now) (view a.now)
        (view b.now)) }
{
    // Read for what it ensures: the accessible portion lies in the text.
    let _portion = editor.bounds(editor.current());
    part(
        editor,
        editor.current(),
        from_of(editor, a, b),
        to_of(editor, a, b),
    )
}

/// The text of a region.
pub fn buffer_substring(editor: &Editor, a: &Value, b: &Value) -> Result<Value, Failure>
    ensures { Answers result (calls.buffer_substring (editor_of editor.now) (view a.now) (view b.now)) }
{
    must_fit_a_region(editor, a, b)?;
    Ok(Value::Str(region_text(editor, a, b)?))
}

/// The text of a region without its properties.
pub fn buffer_substring_no_properties(
    editor: &Editor,
    a: &Value,
    b: &Value,
) -> Result<Value, Failure>
    ensures { Answers result (calls.buffer_substring_no_properties (editor_of editor.now)
        (view a.now) (view b.now)) }
{
    must_fit_a_region(editor, a, b)?;
    let text = region_text(editor, a, b)?;
    Ok(plain(editor.allocator(), text.text())?)
}

/// Takes the text of a region out, and answers it.
pub fn delete_and_extract_region(editor: &Editor, a: &Value, b: &Value) -> Result<Prepared, Failure>
    ensures { Prepares result (calls.delete_and_extract_region (editor_of editor.now) (view a.now)
        (view b.now)) }
{
    must_give_and_fit(editor, a, b)?;
    let text = Value::Str(region_text(editor, a, b)?);
    Ok(deletion(
        editor.allocator(),
        editor.current(),
        from_of(editor, a, b),
        to_of(editor, a, b),
        false,
        text,
    ))
}

/// The text of a region may be taken out.
fn must_give_region(editor: &Editor, a: &Value, b: &Value) -> Result<(), Fault>
    requires { first_fault (calls.must_be_a_region (editor_of editor.now) (view a.now) (view b.now)
        []) ≡ None }
    ensures { fault_in result ≡ calls.must_give_region (editor_of editor.now) (view a.now)
        (view b.now) }
{
    // Read for what it ensures: the accessible portion lies in the text.
    let _portion = editor.bounds(editor.current());
    must_give_text(editor, from_of(editor, a, b), to_of(editor, a, b))
}

/// A region that may be taken out, and whose text fits in a string.
fn must_give_and_fit(editor: &Editor, a: &Value, b: &Value) -> Result<(), Fault>
    ensures whole { fault_in result ≡ first_fault (calls.must_be_a_region (editor_of editor.now)
        (view a.now) (view b.now) (calls.must_give_region (editor_of editor.now) (view a.now)
        (view b.now) ∷ must_fit_a_string (to_of (editor_of editor.now) (view a.now) (view b.now) -
        from_of (editor_of editor.now) (view a.now) (view b.now)) ∷ [])) }
    ensures fits { IfOk result (λ _. first_fault (calls.must_fit_a_region (editor_of editor.now)
        (view a.now) (view b.now)) ≡ None) }
{
    must_be_a_region(editor, a, b)?;
    must_give_region(editor, a, b)?;
    must_fit_a_string(to_of(editor, a, b) - from_of(editor, a, b))
}

/// The change that takes a part out; an empty part changes nothing.
fn deletion(
    alloc: Global,
    buffer: u32,
    from: usize,
    to: usize,
    widen: bool,
    reply: Value,
) -> Prepared
    ensures { prepared_of result ≡ calls.deletion buffer from to widen (view reply) }
{
    if from == to {
        return Prepared::Nothing(reply);
    }
    Prepared::Change(Change {
        buffer,
        from,
        to,
        what: What::Put {
            pieces: Pieces::Several(Vec::new(alloc)),
            all: false,
            point_after: false,
            widen,
            mark: None,
        },
        reply,
    })
}

/// Takes the text of a region out.
pub fn delete_region(editor: &Editor, a: &Value, b: &Value) -> Result<Prepared, Failure>
    ensures { Prepares result (calls.delete_region (editor_of editor.now) (view a.now) (view b.now)) }
{
    must_be_a_region(editor, a, b)?;
    must_give_region(editor, a, b)?;
    Ok(deletion(
        editor.allocator(),
        editor.current(),
        from_of(editor, a, b),
        to_of(editor, a, b),
        false,
        Value::Nil,
    ))
}

/// Takes the whole text out, and widens the buffer.
pub fn erase_buffer(editor: &Editor) -> Result<Prepared, Failure>
    ensures { Prepares result (calls.erase_buffer (editor_of editor.now)) }
{
    let id = editor.current();
    let size = editor.size(id);
    must_give_text(editor, 0, size)?;
    Ok(deletion(editor.allocator(), id, 0, size, true, Value::Nil))
}

/// Point of the current buffer goes to a position, or to the nearer end of the accessible portion.
fn go_to(editor: &mut Editor, position: i64)
    ensures { editor_of editor.new ≡ change_buffer (editor_of editor.old).current
        (calls.point_at (place_of position)) (editor_of editor.old) }
{
    let id = editor.current();
    editor.goto(id, position);
}

/// Point goes to a position, which is answered.
pub fn goto_char(editor: &mut Editor, p: &Value) -> Result<Value, Failure>
    ensures { Applies result (editor_of editor.old) (editor_of editor.new)
        (calls.goto_char (editor_of editor.old) (view p.now)) }
{
    must_be_position(p)?;
    must_point_somewhere(editor, p)?;
    let answer = p.copy()?;
    let position = position(editor, p)?;
    go_to(editor, position);
    Ok(answer)
}

/// A part of the current buffer becomes its accessible portion.
fn narrow(editor: &mut Editor, from: usize, to: usize)
    requires order { from ≤ to }
    requires range { to ≤ length (here (editor_of editor.old)).text }
    ensures { editor_of editor.new ≡ change_buffer (editor_of editor.old).current
        (calls.narrowed from to) (editor_of editor.old) }
{
    let id = editor.current();
    editor.narrow(id, from, to);
}

/// A region becomes the accessible portion.
pub fn narrow_to_region(editor: &mut Editor, a: &Value, b: &Value) -> Result<Value, Failure>
    ensures { Applies result (editor_of editor.old) (editor_of editor.new)
        (calls.narrow_to_region (editor_of editor.old) (view a.now) (view b.now)) }
{
    let size = editor.size(editor.current());
    must_be_position(a)?;
    must_be_position(b)?;
    must_lie_in(0, size, editor, a)?;
    must_lie_in(0, size, editor, b)?;
    let from = from_of(editor, a, b);
    let to = to_of(editor, a, b);
    narrow(editor, from, to);
    Ok(Value::Nil)
}

/// The whole text becomes the accessible portion.
pub fn widen(editor: &mut Editor) -> Result<Value, Failure>
    ensures { Applies result (editor_of editor.old) (editor_of editor.new)
        (calls.widen (editor_of editor.old)) }
{
    let id = editor.current();
    editor.widen(id);
    Ok(Value::Nil)
}

/// The change that puts pieces in at a place; pieces without characters change nothing.
pub(crate) fn insertion(buffer: u32, at: usize, pieces: Pieces, all: bool) -> Prepared
    ensures { prepared_of result ≡ calls.insertion buffer at (text_of pieces) all }
{
    if are_empty(pieces.as_slice()) {
        return Prepared::Nothing(Value::Nil);
    }
    Prepared::Change(Change {
        buffer,
        from: at,
        to: at,
        what: What::Put {
            pieces,
            all,
            point_after: true,
            widen: false,
            mark: None,
        },
        reply: Value::Nil,
    })
}

/// A place where an argument gives one, and else another.
fn place_or(default: usize, editor: &Editor, v: &Value) -> usize
    ensures { result ≡ place_or default (editor_of editor.now) (view v.now) }
{
    if v.is_nil() {
        default
    } else {
        place(editor, v)
    }
}

/// Inserts a part of a buffer's text at point of the current buffer.
pub fn insert_buffer_substring(
    editor: &Editor,
    buffer: &Value,
    a: &Value,
    b: &Value,
) -> Result<Prepared, Failure>
    ensures { Prepares result (calls.insert_buffer_substring (editor_of editor.now)
        (view buffer.now) (view a.now) (view b.now)) }
{
    must_be_buffer(buffer)?;
    must_be_position_or_nil(a)?;
    must_be_position_or_nil(b)?;
    let source = objects::buffer(editor, buffer)?;
    must_be_nil_or_accessible(source, editor, a)?;
    must_be_nil_or_accessible(source, editor, b)?;
    let portion = editor.bounds(source);
    let one = place_or(portion.start, editor, a);
    let other = place_or(portion.end, editor, b);
    let from = one.min(other);
    let to = one.max(other);
    must_take_text(editor, (to - from) as u128)?;
    must_fit_a_string(to - from)?;
    must_have_room(editor, editor.current(), (to - from) as u128)?;
    let piece = part(editor, source, from, to)?;
    let point = editor.bounds(editor.current()).point;
    Ok(insertion(editor.current(), point, Pieces::One(piece), false))
}

/// The place of a mark in a buffer; one that isn't there counts as the end of the accessible portion.
fn place_in(editor: &Editor, id: u32, mark: u32) -> usize
    ensures { result ≡ calls.place_in id (buffer_at (editor_of editor.now) id)
        (marker_of (editor_of editor.now) mark).spot }
{
    match spot(editor, mark) {
        Some((buffer, place)) if buffer == id => place,
        _ => editor.bounds(id).end,
    }
}

/// The tests of an output of so many characters at a place: a read-only buffer doesn't bar it, but read-only text does.
fn must_take_output(editor: &Editor, id: u32, at: usize, n: u128) -> Result<(), Fault>
    ensures { fault_in result ≡ first_fault (must_be_writable (tested (editor_of editor.now)
        (nat_lt 0 n)) false (calls.takes_no_text (editor_of editor.now) id at) ∷
        room (editor_of editor.now) id n ∷ []) }
{
    must_take(editor, false, id, at, n)?;
    must_have_room(editor, id, n)
}

/// Prepares the insertion of a process's output at its mark, which goes behind the text. A read-only buffer takes it,
/// too.
pub fn prepare_output(editor: &Editor, id: u32, mark: u32, text: Piece) -> Prepared
    ensures { prepared_of result ≡ calls.prepare_output (editor_of editor.now) id mark text }
{
    let at = place_in(editor, id, mark);
    match must_take_output(editor, id, at, text.len() as u128) {
        Ok(()) => {}
        Err(fault) => return Prepared::Fault(fault),
    }
    Prepared::Change(Change {
        buffer: id,
        from: at,
        to: at,
        what: What::Put {
            pieces: Pieces::One(text),
            all: true,
            point_after: false,
            widen: false,
            mark: Some(mark),
        },
        reply: Value::Nil,
    })
}
