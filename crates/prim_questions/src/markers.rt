//! The calls on markers.
ghost use Rattle.std.specs.Prelude.{◌≡◌, ◌-◌, ◌^◌, ◌<◌, true, length, IfOk, IfSome, OnOk, OnErr};
ghost use Rattle.std.specs.Prelude.{option_map};
ghost use Rattle.editor_model.specs.Editor.{here, is_live, with_marker, change_marker, set_marker_spot};
ghost use Rattle.editor_model.specs.Arguments.{number, place};
ghost use Rattle.editor_model.specs.MarkerCalls as calls;
ghost use Rattle.ek_call.specs.Meaning.{view};
ghost use Rattle.marker_set.specs.Numbered.{spot_of};
ghost use Rattle.buffer_table.specs.Kept.{editor_of};
ghost use Rattle.buffer_table.specs.Places.{IsPlace};
ghost use Rattle.prim_arguments.specs.Meaning.{Answers, Applies};

use buffer_table::Editor;
use ek_call::{Fault, Value};
use ek_types::Mem;
use ek_types::limits::MOST_MARKERS;
use prim_arguments::kinds::{flag, marker, must_be_buffer_or_nil, must_be_position_or_nil};
use prim_arguments::limits::must_be_fewer;
use prim_arguments::places::{advances, clipped, number, place, spot};
use prim_arguments::values::{at_place, truth};
use prim_arguments::{Failure, objects};

/// The position of a marker, or nil.
pub fn marker_position(editor: &Editor, m: &Value) -> Result<Value, Failure>
    ensures { Answers result (calls.marker_position (editor_of editor.now) (view m.now)) }
{
    let k = marker(m)?;
    match spot(editor, k) {
        Some((_, place)) => Ok(at_place(place)?),
        None => Ok(Value::Nil),
    }
}

/// The buffer of a marker, or nil.
pub fn marker_buffer(editor: &Editor, m: &Value) -> Result<Value, Failure>
    ensures { Answers result (calls.marker_buffer (editor_of editor.now) (view m.now)) }
{
    let k = marker(m)?;
    match spot(editor, k) {
        Some((buffer, _)) => Ok(Value::Buffer(buffer)),
        None => Ok(Value::Nil),
    }
}

/// Whether a marker advances.
pub fn marker_insertion_type(editor: &Editor, m: &Value) -> Result<Value, Failure>
    ensures { Answers result (calls.marker_insertion_type (editor_of editor.now) (view m.now)) }
{
    let k = marker(m)?;
    Ok(truth(advances(editor, k)))
}

/// Says whether a marker advances. One that was never made stays as it is.
fn set_kind(editor: &mut Editor, k: u32, on: bool)
    ensures { editor_of editor.new ≡ change_marker k (λ marker. record marker { advances = on })
        (editor_of editor.old) }
{
    if k < editor.marks().markers.count() {
        editor.set_marker_kind(k, on);
    }
}

/// Says whether a marker advances, and answers it.
pub fn set_marker_insertion_type(
    editor: &mut Editor,
    m: &Value,
    kind: &Value,
) -> Result<Value, Failure>
    ensures { Applies result (editor_of editor.old) (editor_of editor.new)
        (calls.set_marker_insertion_type (editor_of editor.old) (view m.now) (view kind.now)) }
{
    let k = marker(m)?;
    set_kind(editor, k, flag(kind));
    Ok(truth(flag(kind)))
}

/// Puts a marker behind the others, at a place of a live buffer or nowhere, and gives its number. A refusal leaves the
/// editor as it was.
fn make(editor: &mut Editor, to: Option<(u32, usize)>, on: bool) -> Mem<u32>
    requires room { length (editor_of editor.old).marks.markers < 2 ^ 32 - 1 }
    requires place { IfSome to (λ p. IsPlace (editor_of editor.old) p.0 p.1) }
    ensures number { IfOk result (λ k. k ≡ length (editor_of editor.old).marks.markers) }
    ensures ok { OnOk result (editor_of editor.new ≡ with_marker (record {
      spot = spot_of to;
      advances = on;
    }) (editor_of editor.old)) }
    ensures err { OnErr result (editor_of editor.new ≡ editor_of editor.old) }
{
    let k = editor.make_marker()?;
    editor.set_marker(k, to);
    editor.set_marker_kind(k, on);
    Ok(k)
}

/// Makes a marker at a place of a live buffer, or nowhere.
fn new_marker(editor: &mut Editor, to: Option<(u32, usize)>, on: bool) -> Result<Value, Failure>
    requires { IfSome to (λ p. IsPlace (editor_of editor.old) p.0 p.1) }
    ensures { Applies result (editor_of editor.old) (editor_of editor.new)
        (calls.new_marker (editor_of editor.old) (spot_of to) on) }
{
    must_be_fewer(MOST_MARKERS, editor.marks().markers.count())?;
    let k = make(editor, to, on)?;
    Ok(Value::Marker(k))
}

/// Makes a marker that points nowhere.
pub fn make_marker(editor: &mut Editor) -> Result<Value, Failure>
    ensures { Applies result (editor_of editor.old) (editor_of editor.new)
        (calls.make_marker (editor_of editor.old)) }
{
    new_marker(editor, None, false)
}

/// Where point of the current buffer stands.
fn point(editor: &Editor) -> (u32, usize)
    ensures buffer { result.0 ≡ (editor_of editor.now).current }
    ensures place { result.1 ≡ (here (editor_of editor.now)).point }
    ensures lies { IsPlace (editor_of editor.now) result.0 result.1 }
{
    let id = editor.current();
    (id, editor.bounds(id).point)
}

/// Makes a marker at point.
pub fn point_marker(editor: &mut Editor) -> Result<Value, Failure>
    ensures { Applies result (editor_of editor.old) (editor_of editor.new)
        (calls.point_marker (editor_of editor.old)) }
{
    let to = point(editor);
    new_marker(editor, Some(to), false)
}

/// Makes a marker where another stands, or at a position.
pub fn copy_marker(editor: &mut Editor, x: &Value, kind: &Value) -> Result<Value, Failure>
    ensures { Applies result (editor_of editor.old) (editor_of editor.new)
        (calls.copy_marker (editor_of editor.old) (view x.now) (view kind.now)) }
{
    match x {
        Value::Nil => new_marker(editor, None, flag(kind)),
        Value::Int(_) => {
            let id = editor.current();
            let to = (id, clipped(editor, id, place(editor, x)));
            new_marker(editor, Some(to), flag(kind))
        }
        Value::Marker(k) => {
            let to = spot(editor, *k);
            new_marker(editor, to, flag(kind))
        }
        _ => Err(Failure::Refused(Fault::WrongType)),
    }
}

/// Where a marker of a live buffer is to go by a position: nowhere where this is nil, or a marker that points nowhere.
fn target(editor: &Editor, id: u32, x: &Value) -> Option<(u32, usize)>
    requires { is_live (editor_of editor.now) id ≡ true }
    ensures spot { spot_of result ≡ option_map (λ n. calls.spot_in (editor_of editor.now) id
        (place (editor_of editor.now) (view x.now))) (number (editor_of editor.now) (view x.now)) }
    ensures place { IfSome result (λ p. IsPlace (editor_of editor.now) p.0 p.1) }
{
    match number(editor, x) {
        Some(_) => Some((id, clipped(editor, id, place(editor, x)))),
        None => None,
    }
}

/// Points a marker to a place of a live buffer, or nowhere. One that was never made stays as it is.
pub fn put(editor: &mut Editor, k: u32, to: Option<(u32, usize)>)
    requires { IfSome to (λ p. IsPlace (editor_of editor.old) p.0 p.1) }
    ensures { editor_of editor.new ≡ set_marker_spot k (spot_of to) (editor_of editor.old) }
{
    if k < editor.marks().markers.count() {
        editor.set_marker(k, to);
    }
}

/// Puts a marker at a position of a buffer, or nowhere.
pub fn set_marker(editor: &mut Editor, m: &Value, x: &Value, b: &Value) -> Result<Value, Failure>
    ensures { Applies result (editor_of editor.old) (editor_of editor.new)
        (calls.set_marker (editor_of editor.old) (view m.now) (view x.now) (view b.now)) }
{
    let k = marker(m)?;
    must_be_position_or_nil(x)?;
    must_be_buffer_or_nil(b)?;
    let id = objects::buffer(editor, b)?;
    let to = target(editor, id, x);
    put(editor, k, to);
    Ok(Value::Marker(k))
}
