//! Positions and places. Positions count from 1 in arguments and answers, and places from 0 inside a text.
ghost use Rattle.std.specs.Prelude.{◌≡◌, ◌==◌, ◌≤◌, length, IfOk, IfSome};
ghost use Rattle.text_model.specs.Places.{clip};
ghost use Rattle.editor_model.specs.Editor.{marker_of, buffer_at};
ghost use Rattle.editor_model.specs.Arguments.{number, position, place, from_of, to_of};
ghost use Rattle.editor_model.specs.Arguments.{points_somewhere, lies_in, must_point_somewhere};
ghost use Rattle.editor_model.specs.Arguments.{must_be_nil_or_somewhere, must_be_accessible};
ghost use Rattle.editor_model.specs.Arguments.{must_be_nil_or_accessible, must_lie_in};
ghost use Rattle.ek_call.specs.Meaning.{view};
ghost use Rattle.marker_set.specs.Numbered.{spot_of};
ghost use Rattle.narrow_region.specs.Positions.{place_of};
ghost use Rattle.buffer_table.specs.Kept.{editor_of};
ghost use Rattle.buffer_table.specs.Places.{IsPlace};
ghost use Rattle.prim_arguments.specs.Meaning.{fault_in};

use crate::kinds::must;
use buffer_table::Editor;
use ek_call::{Fault, Value};
use ek_types::{Mem, NoMemory};

/// Where a marker stands.
pub fn spot(editor: &Editor, k: u32) -> Option<(u32, usize)>
    ensures spot { spot_of result ≡ (marker_of (editor_of editor.now) k).spot }
    ensures place { IfSome result (λ p. IsPlace (editor_of editor.now) p.0 p.1) }
{
    if k < editor.marks().markers.count() {
        editor.spot(k)
    } else {
        None
    }
}

/// The nearest place of a text.
pub fn clipped(editor: &Editor, id: u32, place: usize) -> usize
    ensures exact { result ≡ clip 0 (length (buffer_at (editor_of editor.now) id).text) place }
    ensures within { result ≤ length (buffer_at (editor_of editor.now) id).text }
{
    place.min(editor.size(id))
}

/// Whether a marker advances at an insertion.
pub fn advances(editor: &Editor, k: u32) -> bool
    ensures { result ≡ (marker_of (editor_of editor.now) k).advances }
{
    let markers = &editor.marks().markers;
    if k < markers.count() {
        markers.kind(k)
    } else {
        false
    }
}

/// The number of a position: a marker counts as its own, whatever its buffer.
pub fn number(editor: &Editor, v: &Value) -> Option<i128>
    ensures { result ≡ number (editor_of editor.now) (view v.now) }
{
    match v {
        Value::Int(i) => Some(i128::from(*i)),
        Value::Marker(k) => match spot(editor, *k) {
            Some((_, place)) => Some(place as i128 + 1),
            None => None,
        },
        _ => None,
    }
}

/// The place of a position; whatever lies before the text counts as its beginning.
pub fn place(editor: &Editor, v: &Value) -> usize
    ensures { result ≡ place (editor_of editor.now) (view v.now) }
{
    match v {
        Value::Int(i) => match usize::try_from(*i) {
            Ok(position) => position.saturating_sub(1),
            Err(_) => 0,
        },
        Value::Marker(k) => match spot(editor, *k) {
            Some((_, place)) => place,
            None => 0,
        },
        _ => 0,
    }
}

/// Whether a position lies before the text, as 0 does.
pub fn is_before_text(editor: &Editor, v: &Value) -> bool
    ensures { result ≡ (position (editor_of editor.now) (view v.now) == 0) }
{
    match number(editor, v) {
        Some(n) => n < 1,
        None => true,
    }
}

/// A position as a number that stands for its place. One that is too large counts as want of memory.
pub fn position(editor: &Editor, v: &Value) -> Mem<i64>
    ensures { IfOk result (λ i. place_of i ≡ place (editor_of editor.now) (view v.now)) }
{
    match v {
        Value::Int(i) => Ok(*i),
        _ => match i64::try_from(place(editor, v) as u128 + 1) {
            Ok(position) => Ok(position),
            Err(_) => Err(NoMemory),
        },
    }
}

/// The smaller of two places.
pub fn from_of(editor: &Editor, a: &Value, b: &Value) -> usize
    ensures { result ≡ from_of (editor_of editor.now) (view a.now) (view b.now) }
{
    place(editor, a).min(place(editor, b))
}

/// The larger of two places.
pub fn to_of(editor: &Editor, a: &Value, b: &Value) -> usize
    ensures { result ≡ to_of (editor_of editor.now) (view a.now) (view b.now) }
{
    place(editor, a).max(place(editor, b))
}

fn points_somewhere(editor: &Editor, v: &Value) -> bool
    ensures { result ≡ points_somewhere (editor_of editor.now) (view v.now) }
{
    number(editor, v).is_some()
}

fn lies_in(low: usize, high: usize, editor: &Editor, v: &Value) -> bool
    ensures { result ≡ lies_in low high (editor_of editor.now) (view v.now) }
{
    match number(editor, v) {
        Some(n) => low as i128 + 1 <= n && n <= high as i128 + 1,
        None => false,
    }
}

/// A marker that points nowhere is no position.
pub fn must_point_somewhere(editor: &Editor, v: &Value) -> Result<(), Fault>
    ensures { fault_in result ≡ must_point_somewhere (editor_of editor.now) (view v.now) }
{
    must(points_somewhere(editor, v), Fault::ArgsOutOfRange)
}

/// Nil, or no marker that points nowhere.
pub fn must_be_nil_or_somewhere(editor: &Editor, v: &Value) -> Result<(), Fault>
    ensures { fault_in result ≡ must_be_nil_or_somewhere (editor_of editor.now) (view v.now) }
{
    must(
        v.is_nil() || points_somewhere(editor, v),
        Fault::ArgsOutOfRange,
    )
}

/// A position from one place to another, both included.
pub fn must_lie_in(low: usize, high: usize, editor: &Editor, v: &Value) -> Result<(), Fault>
    ensures { fault_in result ≡ must_lie_in low high (editor_of editor.now) (view v.now) }
{
    must(lies_in(low, high, editor, v), Fault::ArgsOutOfRange)
}

/// A position in the accessible portion of a buffer.
pub fn must_be_accessible(id: u32, editor: &Editor, v: &Value) -> Result<(), Fault>
    ensures { fault_in result ≡ must_be_accessible (buffer_at (editor_of editor.now) id)
        (editor_of editor.now) (view v.now) }
{
    let portion = editor.bounds(id);
    must_lie_in(portion.start, portion.end, editor, v)
}

/// Nil, or a position in the accessible portion of a buffer.
pub fn must_be_nil_or_accessible(id: u32, editor: &Editor, v: &Value) -> Result<(), Fault>
    ensures { fault_in result ≡ must_be_nil_or_accessible (buffer_at (editor_of editor.now) id)
        (editor_of editor.now) (view v.now) }
{
    let portion = editor.bounds(id);
    must(
        v.is_nil() || lies_in(portion.start, portion.end, editor, v),
        Fault::ArgsOutOfRange,
    )
}
