//! The calls that change text properties ("Changing Properties" in the GNU Emacs Lisp Reference Manual).
ghost use Rattle.std.specs.Prelude.{◌≡◌, IfOk, option_map, [], ◌∷◌, None};
ghost use Rattle.text_model.specs.Properties.{Add, Remove, Replace};
ghost use Rattle.editor_model.specs.Answers.{prepared};
ghost use Rattle.editor_model.specs.Arguments.{must_be_accessible};
ghost use Rattle.editor_model.specs.Editor.{here};
ghost use Rattle.editor_model.specs.Values.{truth};
ghost use Rattle.editor_model.specs.PropertyCalls as calls;
ghost use Rattle.ek_types.specs.Property.{number_of, prop_of};
ghost use Rattle.ek_types.specs.Listing.{items_of};
ghost use Rattle.ek_call.specs.Meaning.{view};
ghost use Rattle.prop_intervals.specs.Edits.{edit_of};
ghost use Rattle.overlay_set.specs.Numbered.{given_of};
ghost use Rattle.buffer_table.specs.Kept.{editor_of};
ghost use Rattle.prim_changes.specs.Meaning.{Prepares};
ghost use Rattle.prim_arguments.specs.PropertyArguments.{backwards};

use crate::change::{Change, Prepared, What};
use crate::read_only::must_take_change;
use buffer_table::Editor;
use ek_call::Value;
use ek_types::{Mem, PropSet, PropVal, Sym, SymList};
use prim_arguments::Failure;
use prim_arguments::kinds::must_be_position;
use prim_arguments::places::{from_of, must_be_accessible, to_of};
use prim_arguments::property_lists::{
    Pairs, must_be_pairs, names_of_pairs, nil_names, pairs, set_of_pairs,
};
use prim_arguments::property_values::property_value;
use prim_arguments::values::truth;
use prim_questions::properties::must_be_value_in_region;
use prop_intervals::PropEdit;
use std::alloc::Global;

/// The change of the properties of a region, which may not be read-only; where it would change nothing, there is none. A
/// change that is made may answer `t`.
fn change(
    editor: &Editor,
    a: &Value,
    b: &Value,
    edit: PropEdit,
    told: bool,
) -> Result<Prepared, Failure>
    requires from { must_be_accessible (here (editor_of editor.now)) (editor_of editor.now)
        (view a.now) ≡ None }
    requires to { must_be_accessible (here (editor_of editor.now)) (editor_of editor.now)
        (view b.now) ≡ None }
    ensures { Prepares result (prepared (calls.must_take_properties (editor_of editor.now)
        (view a.now) (view b.now) (edit_of edit) ∷ []) (calls.property_change
        (editor_of editor.now) (view a.now) (view b.now) (edit_of edit) (truth told))) }
{
    let buffer = editor.current();
    // Read for what it ensures: the accessible portion lies in the text.
    let _portion = editor.bounds(buffer);
    let from = from_of(editor, a, b);
    let to = to_of(editor, a, b);
    if !editor.would_change(buffer, from, to, &edit)? {
        return Ok(Prepared::Nothing(Value::Nil));
    }
    must_take_change(editor, true, from, to)?;
    Ok(Prepared::Change(Change {
        buffer,
        from,
        to,
        what: What::Props(edit),
        reply: truth(told),
    }))
}

/// The change that gives a property a value, or takes it away.
fn put_edit(alloc: Global, name: Sym, value: Option<PropVal>) -> Mem<PropEdit>
    ensures { IfOk result (λ edit. edit_of edit ≡
        calls.put_edit (number_of name) (given_of (option_map prop_of value))) }
{
    let mut gone = SymList::new(alloc);
    match value {
        Some(value) if !value.is_nil() => {
            let set = PropSet::empty(alloc).with(name, &value)?;
            Ok(PropEdit::Add(set, gone))
        }
        _ => {
            gone.push(name)?;
            Ok(PropEdit::Remove(gone))
        }
    }
}

/// Gives the characters of a region a property with a value.
pub fn put_text_property(
    editor: &Editor,
    a: &Value,
    b: &Value,
    name: &Value,
    v: &Value,
) -> Result<Prepared, Failure>
    ensures { Prepares result (calls.put_text_property (editor_of editor.now) (view a.now)
        (view b.now) (view name.now) (view v.now)) }
{
    let name = must_be_value_in_region(editor, a, b, name, v)?;
    let edit = put_edit(editor.allocator(), name, property_value(v)?)?;
    change(editor, a, b, edit, false)
}

/// The change that gives the properties of a list their values.
fn adding(alloc: Global, list: &Pairs) -> Mem<PropEdit>
    ensures { IfOk result (λ edit. edit_of edit ≡
        Add (calls.set_of_pairs (backwards (items_of list.now)))
        (calls.nil_names (backwards (items_of list.now)))) }
{
    let set = set_of_pairs(alloc, list)?;
    let gone = nil_names(alloc, list)?;
    Ok(PropEdit::Add(set, gone))
}

/// The change that takes the properties of a list away.
fn removing(alloc: Global, list: &Pairs) -> Mem<PropEdit>
    ensures { IfOk result (λ edit. edit_of edit ≡
        Remove (calls.names_of_pairs (backwards (items_of list.now)))) }
{
    Ok(PropEdit::Remove(names_of_pairs(alloc, list)?))
}

/// The change that puts the properties of a list in the place of all others.
fn replacing(alloc: Global, list: &Pairs) -> Mem<PropEdit>
    ensures { IfOk result (λ edit. edit_of edit ≡
        Replace (calls.set_of_pairs (backwards (items_of list.now)))) }
{
    Ok(PropEdit::Replace(set_of_pairs(alloc, list)?))
}

/// Gives the characters of a region the properties of a list.
pub fn add_text_properties(
    editor: &Editor,
    a: &Value,
    b: &Value,
    properties: &Value,
) -> Result<Prepared, Failure>
    ensures { Prepares result (calls.add_text_properties (editor_of editor.now) (view a.now)
        (view b.now) (view properties.now)) }
{
    must_be_position(a)?;
    must_be_position(b)?;
    let list = must_be_pairs(pairs(editor.allocator(), properties)?)?;
    must_be_accessible(editor.current(), editor, a)?;
    must_be_accessible(editor.current(), editor, b)?;
    let edit = adding(editor.allocator(), &list)?;
    change(editor, a, b, edit, true)
}

/// Takes the properties that a list names from the characters of a region.
pub fn remove_text_properties(
    editor: &Editor,
    a: &Value,
    b: &Value,
    properties: &Value,
) -> Result<Prepared, Failure>
    ensures { Prepares result (calls.remove_text_properties (editor_of editor.now) (view a.now)
        (view b.now) (view properties.now)) }
{
    must_be_position(a)?;
    must_be_position(b)?;
    let list = must_be_pairs(pairs(editor.allocator(), properties)?)?;
    must_be_accessible(editor.current(), editor, a)?;
    must_be_accessible(editor.current(), editor, b)?;
    let edit = removing(editor.allocator(), &list)?;
    change(editor, a, b, edit, true)
}

/// Gives the characters of a region the properties of a list in place of theirs.
pub fn set_text_properties(
    editor: &Editor,
    a: &Value,
    b: &Value,
    properties: &Value,
) -> Result<Prepared, Failure>
    ensures { Prepares result (calls.set_text_properties (editor_of editor.now) (view a.now)
        (view b.now) (view properties.now)) }
{
    must_be_position(a)?;
    must_be_position(b)?;
    let list = must_be_pairs(pairs(editor.allocator(), properties)?)?;
    must_be_accessible(editor.current(), editor, a)?;
    must_be_accessible(editor.current(), editor, b)?;
    let edit = replacing(editor.allocator(), &list)?;
    change(editor, a, b, edit, true)
}
