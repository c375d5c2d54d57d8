//! Which overlays stand where ("Finding Overlays" in the GNU Emacs Lisp Reference Manual).
ghost use Rattle.std.specs.Prelude.{◌≡◌, ◌≤◌, ◌+◌, map, option_map, if◌then◌else◌};
ghost use Rattle.std.specs.Prelude.{IfOk, OnOk, ◌++◌, ◌∷◌, []};
ghost use Rattle.overlay_set.specs.Numbered.{numbers_of, span_of};
ghost use Rattle.text_model.specs.OverlayQuestions.{overlays_where, span_passes, covers};
ghost use Rattle.text_model.specs.OverlayQuestions.{lies_within, winner, next_end, previous_end};
ghost use Rattle.editor_model.specs.Values.{of_prop, TheOverlay, list};
ghost use Rattle.editor_model.specs.Arguments.{position};
ghost use Rattle.editor_model.specs.OverlayCalls as calls;
ghost use Rattle.editor_model.specs.PropertyCalls.{set_at};
ghost use Rattle.editor_model.specs.Editor.{here};
ghost use Rattle.ek_types.specs.Listing.{items_of};
ghost use Rattle.ek_types.specs.Property.{number_of};
ghost use Rattle.ek_call.specs.Meaning.{view};
ghost use Rattle.buffer_table.specs.Kept.{editor_of};
ghost use Rattle.prim_arguments.specs.Meaning.{Answers};

use crate::overlays::{overlay_count, overlay_value, span};
use crate::properties::text_property;
use buffer_table::Editor;
use ek_call::{Value, Values};
use ek_types::{Mem, Sym};
use overlay_set::Numbers;
use prim_arguments::Failure;
use prim_arguments::kinds::{must_be_position, symbol};
use prim_arguments::places::{
    from_of, is_before_text, must_be_accessible, must_point_somewhere, number, place, to_of,
};
use prim_arguments::values::{at_place, list, of_prop, overlay};

/// Overlays as a list.
fn overlay_list(numbers: &Numbers) -> Mem<Value>
    ensures { IfOk result (λ v. view v ≡ list (map TheOverlay (items_of numbers.now))) }
{
    let mut values = Values::new(numbers.allocator());
    for i in 0..numbers.len() {
        values.push(overlay(*numbers.at(i)))?;
    }
    Ok(list(values))
}

/// The numbers of the overlays of a buffer that cover a place.
fn covering_place(editor: &Editor, id: u32, place: usize) -> Mem<Numbers>
    ensures { IfOk result (λ numbers. items_of numbers ≡
        numbers_of (overlays_where id (covers (place + 1)) (editor_of editor.now).marks.overlays)) }
{
    editor.marks().overlays.at(id, place)
}

/// The numbers of the overlays of the current buffer that cover a position.
fn covering(editor: &Editor, p: &Value) -> Mem<Numbers>
    ensures { IfOk result (λ numbers. items_of numbers ≡
        numbers_of (overlays_where (editor_of editor.now).current
        (covers (position (editor_of editor.now) (view p.now)))
        (editor_of editor.now).marks.overlays)) }
{
    if is_before_text(editor, p) {
        let none = Numbers::new(editor.allocator());
        return Ok(none);
    }
    let id = editor.current();
    covering_place(editor, id, place(editor, p))
}

/// The overlays of the current buffer that cover a position.
fn covering_list(editor: &Editor, p: &Value) -> Mem<Value>
    ensures { IfOk result (λ v. view v ≡ calls.overlay_values
        (overlays_where (editor_of editor.now).current
        (covers (position (editor_of editor.now) (view p.now)))
        (editor_of editor.now).marks.overlays)) }
{
    overlay_list(&covering(editor, p)?)
}

/// The overlays that cover the character at a position.
pub fn overlays_at(editor: &Editor, p: &Value) -> Result<Value, Failure>
    ensures { Answers result (calls.overlays_at (editor_of editor.now) (view p.now)) }
{
    must_be_position(p)?;
    must_point_somewhere(editor, p)?;
    Ok(covering_list(editor, p)?)
}

/// The number of the overlay of a buffer that wins at a place, of those that have a property.
fn winner(editor: &Editor, id: u32, place: usize, name: Sym) -> Option<u32>
    ensures { result ≡ option_map (λ o. o.0) (winner id (place + 1) (number_of name)
        (editor_of editor.now).marks.overlays) }
{
    editor.marks().overlays.winner(id, place, name)
}

/// The value of a property at a place of the current buffer: that of the overlay that wins, or the text's.
fn char_property(editor: &Editor, place: usize, name: Sym) -> Mem<Value>
    ensures { IfOk result (λ v. view v ≡ of_prop
        (calls.char_property (winner (editor_of editor.now).current (place + 1) (number_of name)
        (editor_of editor.now).marks.overlays) (number_of name)
        (set_at (here (editor_of editor.now)) place))) }
{
    let id = editor.current();
    match winner(editor, id, place, name) {
        Some(k) => of_prop(editor.allocator(), overlay_value(editor, k, name)),
        None => text_property(editor, place, name),
    }
}

/// A property of the character at a position, by its overlays first.
pub fn get_char_property(editor: &Editor, p: &Value, name: &Value) -> Result<Value, Failure>
    ensures { Answers result (calls.get_char_property (editor_of editor.now) (view p.now)
        (view name.now)) }
{
    must_be_position(p)?;
    let name = symbol(name)?;
    must_be_accessible(editor.current(), editor, p)?;
    Ok(char_property(editor, place(editor, p), name)?)
}

/// A position, counted from 1, where 0 stands for whatever lies before the text.
fn position(editor: &Editor, v: &Value) -> u128
    ensures { result ≡ position (editor_of editor.now) (view v.now) }
{
    match number(editor, v) {
        Some(n) if n > 0 => n as u128,
        _ => 0,
    }
}

/// Whether an overlay stands in the part of a buffer from what lies before its text to a position.
#[tactic(auto, using(crate::proofs::Ends::before_part))]
fn stands_in_front(span: Option<(u32, usize, usize)>, id: u32, last: u128, end: usize) -> bool
    ensures { result ≡ span_passes id (lies_within 0 last (end + 1)) (span_of span) }
{
    match span {
        Some((buffer, from, to)) => {
            let start = from as u128 + 1;
            buffer == id
                && if from == to {
                    start < last || (start == last && last == end as u128 + 1)
                } else {
                    start < last
                }
        }
        None => false,
    }
}

/// Puts a number behind others, if it is to stand there.
fn push_if(numbers: &mut Numbers, k: u32, on: bool) -> Mem<()>
    ensures { OnOk result (items_of numbers.new ≡ items_of numbers.old ++ (if on then k ∷ [] else [])) }
{
    if on { numbers.push(k) } else { Ok(()) }
}

/// The overlays of a buffer that stand in the part from what lies before its text to a position.
fn standing_in_front(editor: &Editor, id: u32, last: u128, end: usize) -> Mem<Numbers>
    ensures { IfOk result (λ numbers. items_of numbers ≡
        numbers_of (overlays_where id (lies_within 0 last (end + 1))
        (editor_of editor.now).marks.overlays)) }
{
    let mut numbers = Numbers::new(editor.allocator());
    for k in 0..overlay_count(editor) {
        push_if(
            &mut numbers,
            k,
            stands_in_front(span(editor, k), id, last, end),
        )?;
    }
    Ok(numbers)
}

/// The numbers of the overlays of a buffer that stand between two places.
fn standing_within(editor: &Editor, id: u32, from: usize, to: usize, end: usize) -> Mem<Numbers>
    requires { from ≤ to }
    ensures { IfOk result (λ numbers. items_of numbers ≡
        numbers_of (overlays_where id (lies_within (from + 1) (to + 1) (end + 1))
        (editor_of editor.now).marks.overlays)) }
{
    editor.marks().overlays.within(id, from, to, end)
}

/// The numbers of the overlays of the current buffer that stand between two positions.
fn standing(editor: &Editor, a: &Value, b: &Value) -> Mem<Numbers>
    ensures { IfOk result (λ numbers. items_of numbers ≡
        numbers_of (overlays_where (editor_of editor.now).current
        (lies_within (calls.first_position (editor_of editor.now) (view a.now) (view b.now))
        (calls.last_position (editor_of editor.now) (view a.now) (view b.now))
        (calls.end_position (editor_of editor.now))) (editor_of editor.now).marks.overlays)) }
{
    let id = editor.current();
    let end = editor.bounds(id).end;
    let (one, other) = (position(editor, a), position(editor, b));
    let first = one.min(other);
    let last = one.max(other);
    if first == 0 {
        return standing_in_front(editor, id, last, end);
    }
    standing_within(editor, id, from_of(editor, a, b), to_of(editor, a, b), end)
}

/// The overlays of the current buffer that stand between two positions.
fn standing_list(editor: &Editor, a: &Value, b: &Value) -> Mem<Value>
    ensures { IfOk result (λ v. view v ≡ calls.overlay_values
        (overlays_where (editor_of editor.now).current
        (lies_within (calls.first_position (editor_of editor.now) (view a.now) (view b.now))
        (calls.last_position (editor_of editor.now) (view a.now) (view b.now))
        (calls.end_position (editor_of editor.now))) (editor_of editor.now).marks.overlays)) }
{
    overlay_list(&standing(editor, a, b)?)
}

/// The overlays that a region overlaps, or that stand in it.
pub fn overlays_in(editor: &Editor, a: &Value, b: &Value) -> Result<Value, Failure>
    ensures { Answers result (calls.overlays_in (editor_of editor.now) (view a.now) (view b.now)) }
{
    must_be_position(a)?;
    must_be_position(b)?;
    must_point_somewhere(editor, a)?;
    must_point_somewhere(editor, b)?;
    Ok(standing_list(editor, a, b)?)
}

/// The first place where an overlay of a buffer begins or ends, or a place that comes before it.
fn first_end(editor: &Editor, id: u32, end: usize) -> usize
    ensures { result + 1 ≡ next_end id 0 (end + 1) (editor_of editor.now).marks.overlays }
{
    let overlays = &editor.marks().overlays;
    if overlays.prev_change(id, 1).is_some() {
        return 0;
    }
    match overlays.next_change(id, 0) {
        Some(found) => found.min(end),
        None => end,
    }
}

/// The next place where an overlay of the current buffer begins or ends behind a position, or the end of the accessible
/// portion.
fn next_place(editor: &Editor, p: &Value) -> usize
    ensures { result + 1 ≡ next_end (editor_of editor.now).current
        (position (editor_of editor.now) (view p.now)) (calls.end_position (editor_of editor.now))
        (editor_of editor.now).marks.overlays }
{
    let id = editor.current();
    let end = editor.bounds(id).end;
    if is_before_text(editor, p) {
        return first_end(editor, id, end);
    }
    match editor.marks().overlays.next_change(id, place(editor, p)) {
        Some(found) => found.min(end),
        None => end,
    }
}

/// Where behind a position an overlay begins or ends.
pub fn next_overlay_change(editor: &Editor, p: &Value) -> Result<Value, Failure>
    ensures { Answers result (calls.next_overlay_change (editor_of editor.now) (view p.now)) }
{
    must_be_position(p)?;
    must_point_somewhere(editor, p)?;
    Ok(at_place(next_place(editor, p))?)
}

/// The last place where an overlay of the current buffer begins or ends before a position, or the beginning of the
/// accessible portion.
fn previous_place(editor: &Editor, p: &Value) -> usize
    ensures { result + 1 ≡ previous_end (editor_of editor.now).current
        (position (editor_of editor.now) (view p.now)) (calls.begin_position (editor_of editor.now))
        (editor_of editor.now).marks.overlays }
{
    let id = editor.current();
    let start = editor.bounds(id).start;
    if is_before_text(editor, p) {
        return start;
    }
    match editor.marks().overlays.prev_change(id, place(editor, p)) {
        Some(found) => found.max(start),
        None => start,
    }
}

/// Where in front of a position an overlay begins or ends.
pub fn previous_overlay_change(editor: &Editor, p: &Value) -> Result<Value, Failure>
    ensures { Answers result (calls.previous_overlay_change (editor_of editor.now) (view p.now)) }
{
    must_be_position(p)?;
    must_point_somewhere(editor, p)?;
    Ok(at_place(previous_place(editor, p))?)
}
