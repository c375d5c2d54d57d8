//! The calls on overlays ("Managing Overlays" and "Overlay Properties" in the GNU Emacs Lisp Reference Manual).
ghost use Rattle.std.specs.Prelude.{◌≡◌, ◌≤◌, length, true, None, Some, IfOk, IfSome, OnOk, OnErr};
ghost use Rattle.std.specs.Prelude.{option_map, unwrap_or, []};
ghost use Rattle.text_model.specs.Properties.{get, put as put_property};
ghost use Rattle.editor_model.specs.Values.{of_set};
ghost use Rattle.editor_model.specs.Editor.{overlay_of, change_overlay, is_live};
ghost use Rattle.editor_model.specs.Arguments.{buffer_of};
ghost use Rattle.editor_model.specs.OverlayCalls as calls;
ghost use Rattle.ek_types.specs.Property.{number_of, prop_of};
ghost use Rattle.ek_call.specs.Meaning.{view};
ghost use Rattle.overlay_set.specs.Numbered.{span_of, given_of};
ghost use Rattle.buffer_table.specs.Kept.{editor_of};
ghost use Rattle.buffer_table.specs.Places.{IsPlace};
ghost use Rattle.prim_arguments.specs.Meaning.{Answers, Applies};
ghost use Rattle.prim_questions.specs.Overlays.{vanishes};

use buffer_table::Editor;
use ek_call::Value;
use ek_types::limits::MOST_OVERLAYS;
use ek_types::{Copied, Mem, PropSet, PropVal, Sym};
use prim_arguments::kinds::{flag, must_be_buffer_or_nil, must_be_position, overlay, symbol};
use prim_arguments::limits::must_be_fewer;
use prim_arguments::places::{clipped, from_of, must_point_somewhere, to_of};
use prim_arguments::property_values::{must_be_property_value, property_value};
use prim_arguments::values::{at_place, of_prop, of_set};
use prim_arguments::{Failure, objects};

/// How many overlays were made.
pub(crate) fn overlay_count(editor: &Editor) -> u32
    ensures { result ≡ length (editor_of editor.now).marks.overlays }
{
    editor.marks().overlays.count()
}

/// Where an overlay stands.
pub(crate) fn span(editor: &Editor, k: u32) -> Option<(u32, usize, usize)>
    ensures span { span_of result ≡ (overlay_of (editor_of editor.now) k).span }
    ensures live { IfSome result (λ s. is_live (editor_of editor.now) s.0 ≡ true) }
{
    if k < editor.marks().overlays.count() {
        editor.span(k)
    } else {
        None
    }
}

/// The position where an overlay begins, or nil.
pub fn overlay_start(editor: &Editor, o: &Value) -> Result<Value, Failure>
    ensures { Answers result (calls.overlay_start (editor_of editor.now) (view o.now)) }
{
    let k = overlay(o)?;
    match span(editor, k) {
        Some((_, start, _)) => Ok(at_place(start)?),
        None => Ok(Value::Nil),
    }
}

/// The position where an overlay ends, or nil.
pub fn overlay_end(editor: &Editor, o: &Value) -> Result<Value, Failure>
    ensures { Answers result (calls.overlay_end (editor_of editor.now) (view o.now)) }
{
    let k = overlay(o)?;
    match span(editor, k) {
        Some((_, _, end)) => Ok(at_place(end)?),
        None => Ok(Value::Nil),
    }
}

/// The buffer of an overlay, or nil.
pub fn overlay_buffer(editor: &Editor, o: &Value) -> Result<Value, Failure>
    ensures { Answers result (calls.overlay_buffer (editor_of editor.now) (view o.now)) }
{
    let k = overlay(o)?;
    match span(editor, k) {
        Some((buffer, _, _)) => Ok(Value::Buffer(buffer)),
        None => Ok(Value::Nil),
    }
}

/// Takes an overlay out of its buffer. One that was never made stays as it is.
fn remove(editor: &mut Editor, k: u32)
    ensures { editor_of editor.new ≡ change_overlay k (λ old. record old { span = None })
        (editor_of editor.old) }
{
    if k < editor.marks().overlays.count() {
        editor.remove_overlay(k);
    }
}

/// Takes an overlay out of its buffer.
pub fn delete_overlay(editor: &mut Editor, o: &Value) -> Result<Value, Failure>
    ensures { Applies result (editor_of editor.old) (editor_of editor.new)
        (calls.delete_overlay (editor_of editor.old) (view o.now)) }
{
    let k = overlay(o)?;
    remove(editor, k);
    Ok(Value::Nil)
}

/// The value of a property of an overlay, where it has one.
pub(crate) fn overlay_value(editor: &Editor, k: u32, name: Sym) -> Option<&PropVal>
    ensures { option_map (λ v. prop_of v.now) result ≡
        get (overlay_of (editor_of editor.now) k).props (number_of name) }
{
    let overlays = &editor.marks().overlays;
    if k < overlays.count() {
        overlays.get(k, name)
    } else {
        None
    }
}

/// The properties of an overlay that was made.
fn overlay_props(editor: &Editor, k: u32) -> Option<&PropSet>
    ensures { unwrap_or (option_map (λ s. s.now) result) [] ≡
        (overlay_of (editor_of editor.now) k).props }
{
    let overlays = &editor.marks().overlays;
    if k < overlays.count() {
        Some(overlays.props(k))
    } else {
        None
    }
}

/// A property of an overlay, or nil.
pub fn overlay_get(editor: &Editor, o: &Value, name: &Value) -> Result<Value, Failure>
    ensures { Answers result (calls.overlay_get (editor_of editor.now) (view o.now) (view name.now)) }
{
    let k = overlay(o)?;
    let name = symbol(name)?;
    Ok(of_prop(editor.allocator(), overlay_value(editor, k, name))?)
}

/// The properties of an overlay as a list.
fn properties(editor: &Editor, k: u32) -> Mem<Value>
    ensures { IfOk result (λ v. view v ≡ of_set (overlay_of (editor_of editor.now) k).props) }
{
    match overlay_props(editor, k) {
        Some(set) => of_set(editor.allocator(), set),
        None => Ok(Value::Nil),
    }
}

/// The properties of an overlay, as a list.
pub fn overlay_properties(editor: &Editor, o: &Value) -> Result<Value, Failure>
    ensures { Answers result (calls.overlay_properties (editor_of editor.now) (view o.now)) }
{
    let k = overlay(o)?;
    Ok(properties(editor, k)?)
}

/// Makes an overlay over a region of a buffer.
pub fn make_overlay(
    editor: &mut Editor,
    a: &Value,
    b: &Value,
    buffer: &Value,
    front: &Value,
    rear: &Value,
) -> Result<Value, Failure>
    ensures { Applies result (editor_of editor.old) (editor_of editor.new)
        (calls.make_overlay (editor_of editor.old) (view a.now) (view b.now) (view buffer.now)
        (view front.now) (view rear.now)) }
{
    must_be_position(a)?;
    must_be_position(b)?;
    must_be_buffer_or_nil(buffer)?;
    let id = objects::buffer(editor, buffer)?;
    must_point_somewhere(editor, a)?;
    must_point_somewhere(editor, b)?;
    must_be_fewer(MOST_OVERLAYS, editor.marks().overlays.count())?;
    let from = clipped(editor, id, from_of(editor, a, b));
    let to = clipped(editor, id, to_of(editor, a, b));
    let k = editor.make_overlay(id, from, to, flag(front), flag(rear))?;
    Ok(Value::Overlay(k))
}

/// Whether an overlay is empty and evaporates.
fn vanishes(editor: &Editor, k: u32) -> bool
    ensures { result ≡ vanishes (overlay_of (editor_of editor.now) k) }
{
    match span(editor, k) {
        Some((_, start, end)) => start == end && overlay_value(editor, k, Sym::EVAPORATE).is_some(),
        None => false,
    }
}

/// Takes an overlay out of its buffer where it is empty and evaporates.
#[tactic(auto, using(crate::proofs::Evaporating::gone))]
fn evaporate(editor: &mut Editor, k: u32)
    ensures { editor_of editor.new ≡ change_overlay k calls.kept (editor_of editor.old) }
{
    if vanishes(editor, k) {
        remove(editor, k);
    }
}

/// Gives an overlay a property, or takes it away, and takes the overlay out where it is empty and evaporates then. A
/// refusal leaves the editor as it was.
fn put(editor: &mut Editor, k: u32, name: Sym, v: Option<&PropVal>) -> Mem<()>
    ensures ok { OnOk result (editor_of editor.new ≡
        change_overlay k (λ old. calls.kept
        (record old {
          props = put_property old.props (number_of name)
              (given_of (option_map (λ p. prop_of p.now) v.entry));
        })) (editor_of editor.old)) }
    ensures err { OnErr result (editor_of editor.new ≡ editor_of editor.old) }
{
    let count = overlay_count(editor);
    if count <= k {
        return Ok(());
    }
    editor.put_overlay(k, name, v)?;
    evaporate(editor, k);
    Ok(())
}

/// Gives an overlay a property, and answers its value.
pub fn overlay_put(
    editor: &mut Editor,
    o: &Value,
    name: &Value,
    v: &Value,
) -> Result<Value, Failure>
    ensures { Applies result (editor_of editor.old) (editor_of editor.new)
        (calls.overlay_put (editor_of editor.old) (view o.now) (view name.now) (view v.now)) }
{
    let k = overlay(o)?;
    let name = symbol(name)?;
    must_be_property_value(v)?;
    let value = property_value(v)?;
    let answer = v.copy()?;
    put(editor, k, name, value.as_ref())?;
    Ok(answer)
}

/// Puts an overlay in a part of a live buffer, and takes it out where it is empty and evaporates then. A refusal
/// leaves the editor as it was.
fn shift(editor: &mut Editor, k: u32, id: u32, from: usize, to: usize) -> Mem<()>
    requires order { from ≤ to }
    requires place { IsPlace (editor_of editor.old) id to }
    ensures ok { OnOk result (editor_of editor.new ≡
        change_overlay k (λ old. calls.kept (record old {
          span = Some (record {
            buffer = id;
            start = from;
            end = to;
          });
        })) (editor_of editor.old)) }
    ensures err { OnErr result (editor_of editor.new ≡ editor_of editor.old) }
{
    let count = overlay_count(editor);
    if count <= k {
        return Ok(());
    }
    editor.move_overlay(k, id, from, to)?;
    evaporate(editor, k);
    Ok(())
}

/// The buffer that an overlay is moved to: that which is given, or its own.
fn home(editor: &Editor, k: u32, buffer: &Value, given: u32) -> u32
    requires given { given ≡ buffer_of (editor_of editor.now) (view buffer.now) }
    requires live { is_live (editor_of editor.now) given ≡ true }
    ensures exact { result ≡ calls.overlay_home (editor_of editor.now)
        (overlay_of (editor_of editor.now) k).span (view buffer.now) }
    ensures live { is_live (editor_of editor.now) result ≡ true }
{
    match span(editor, k) {
        Some((own, _, _)) if buffer.is_nil() => own,
        _ => given,
    }
}

/// Puts an overlay over a region of a buffer.
pub fn move_overlay(
    editor: &mut Editor,
    o: &Value,
    a: &Value,
    b: &Value,
    buffer: &Value,
) -> Result<Value, Failure>
    ensures { Applies result (editor_of editor.old) (editor_of editor.new)
        (calls.move_overlay (editor_of editor.old) (view o.now) (view a.now) (view b.now)
        (view buffer.now)) }
{
    let k = overlay(o)?;
    must_be_position(a)?;
    must_be_position(b)?;
    must_be_buffer_or_nil(buffer)?;
    let given = objects::buffer(editor, buffer)?;
    must_point_somewhere(editor, a)?;
    must_point_somewhere(editor, b)?;
    let id = home(editor, k, buffer, given);
    let from = clipped(editor, id, from_of(editor, a, b));
    let to = clipped(editor, id, to_of(editor, a, b));
    shift(editor, k, id, from, to)?;
    Ok(Value::Overlay(k))
}
