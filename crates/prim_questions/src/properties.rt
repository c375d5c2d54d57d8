//! The questions on text properties ("Examining Properties" and "Property Search" in the GNU Emacs Lisp Reference
//! Manual).
ghost use Rattle.std.specs.Prelude.{◌≡◌, ◌≤◌, length, IfOk, option_map, unwrap_or, [], None};
ghost use Rattle.text_model.specs.Properties.{get, part};
ghost use Rattle.text_model.specs.PropertyQuestions.{first_where, has_value};
ghost use Rattle.editor_model.specs.Values.{of_prop, of_set, Int as integer};
ghost use Rattle.prim_questions.specs.Searches.{wanted, changes_in, Ends, EndsBehind};
ghost use Rattle.editor_model.specs.Answers.{first_fault};
ghost use Rattle.editor_model.specs.Arguments.{number, place, symbol_of, value_of, from_of};
ghost use Rattle.editor_model.specs.Arguments.{must_be_accessible};
ghost use Rattle.editor_model.specs.TextCalls.{region_text};
ghost use Rattle.editor_model.specs.Editor.{here, buffer_at};
ghost use Rattle.editor_model.specs.PropertyCalls as calls;
ghost use Rattle.ek_types.specs.Property.{number_of, prop_of};
ghost use Rattle.ek_call.specs.Meaning.{view};
ghost use Rattle.buffer_table.specs.Kept.{editor_of};
ghost use Rattle.prim_arguments.specs.Meaning.{Answers, fault_in};

use buffer_table::Editor;
use ek_call::{Fault, Value};
use ek_types::{Mem, NoMemory, PropSet, PropVal, Sym, same_option};
use prim_arguments::Failure;
use prim_arguments::kinds::{must_be_position, must_be_position_or_nil, symbol};
use prim_arguments::places::{
    from_of, must_be_accessible, must_be_nil_or_somewhere, number, place, to_of,
};
use prim_arguments::property_values::{must_be_property_value, property_value};
use prim_arguments::values::{at_place, of_prop, of_set};

/// The property set of the character of the accessible portion at a place, where there is one.
#[inline(always)]
pub fn set_at(editor: &Editor, id: u32, place: usize) -> Option<&PropSet>
    ensures { unwrap_or (option_map (λ s. s.now) result) [] ≡
        calls.set_at (buffer_at (editor_of editor.now) id) place }
{
    let portion = editor.bounds(id);
    if place < portion.start || portion.end <= place {
        return None;
    }
    Some(editor.props_at(id, place))
}

/// The value of a property of the character of the accessible portion at a place; nil where there is none.
pub(crate) fn text_property(editor: &Editor, place: usize, name: Sym) -> Mem<Value>
    ensures { IfOk result (λ v. view v ≡ of_prop
        (get (calls.set_at (here (editor_of editor.now)) place) (number_of name))) }
{
    match set_at(editor, editor.current(), place) {
        Some(set) => of_prop(editor.allocator(), set.get(name)),
        None => Ok(Value::Nil),
    }
}

/// The properties of the character of the accessible portion at a place as a list.
fn text_properties(editor: &Editor, place: usize) -> Mem<Value>
    ensures { IfOk result (λ v. view v ≡ of_set (calls.set_at (here (editor_of editor.now)) place)) }
{
    match set_at(editor, editor.current(), place) {
        Some(set) => of_set(editor.allocator(), set),
        None => Ok(Value::Nil),
    }
}

/// A property of the character at a position, or nil.
pub fn get_text_property(editor: &Editor, p: &Value, name: &Value) -> Result<Value, Failure>
    ensures { Answers result (calls.get_text_property (editor_of editor.now) (view p.now)
        (view name.now)) }
{
    must_be_position(p)?;
    let name = symbol(name)?;
    must_be_accessible(editor.current(), editor, p)?;
    Ok(text_property(editor, place(editor, p), name)?)
}

/// The properties of the character at a position, as a list.
pub fn text_properties_at(editor: &Editor, p: &Value) -> Result<Value, Failure>
    ensures { Answers result (calls.text_properties_at (editor_of editor.now) (view p.now)) }
{
    must_be_position(p)?;
    must_be_accessible(editor.current(), editor, p)?;
    Ok(text_properties(editor, place(editor, p))?)
}

/// A number as a value. One that no value can hold counts as want of memory.
fn whole(n: i128) -> Mem<Value>
    ensures { IfOk result (λ v. view v ≡ integer n) }
{
    match i64::try_from(n) {
        Ok(n) => Ok(Value::Int(n)),
        Err(_) => Err(NoMemory),
    }
}

/// A place that was found, unless a limit comes first.
fn up_to(found: Option<usize>, limit: Option<i128>) -> Mem<Value>
    ensures { IfOk result (λ v. view v ≡ calls.up_to found limit) }
{
    match (found, limit) {
        (None, None) => Ok(Value::Nil),
        (None, Some(limit)) => whole(limit),
        (Some(place), None) => at_place(place),
        (Some(place), Some(limit)) => {
            if (place as i128) + 1 < limit {
                at_place(place)
            } else {
                whole(limit)
            }
        }
    }
}

/// A place that was found, unless a limit lies behind it.
fn down_to(found: Option<usize>, limit: Option<i128>) -> Mem<Value>
    ensures { IfOk result (λ v. view v ≡ calls.down_to found limit) }
{
    match (found, limit) {
        (None, None) => Ok(Value::Nil),
        (None, Some(limit)) => whole(limit),
        (Some(place), None) => at_place(place),
        (Some(place), Some(limit)) => {
            if limit < (place as i128) + 1 {
                at_place(place)
            } else {
                whole(limit)
            }
        }
    }
}

/// Where a search ends that begins in front of an end: there, or where the limit comes first.
fn ends(end: usize, limit: Option<i128>) -> usize
    ensures { Ends end limit result }
{
    match limit {
        Some(limit) if limit <= end as i128 => (limit.max(1) - 1) as usize,
        _ => end,
    }
}

/// Where a search ends that goes back to a beginning: there, or where the limit comes first.
fn ends_behind(begin: usize, limit: Option<i128>) -> usize
    ensures { EndsBehind begin limit result }
{
    match limit {
        Some(limit) if limit > begin as i128 => usize::try_from(limit - 1).unwrap_or(usize::MAX),
        _ => begin,
    }
}

/// Where the sets change, or the values of one property, behind a position.
fn next_after(editor: &Editor, p: &Value, name: Option<Sym>, limit: &Value) -> Mem<Value>
    requires { must_be_accessible (here (editor_of editor.now)) (editor_of editor.now)
        (view p.now) ≡ None }
    ensures { IfOk result (λ v. view v ≡ calls.next_after (editor_of editor.now) (view p.now)
        (view limit.now) (changes_in (option_map number_of name)
        (here (editor_of editor.now)).text)) }
{
    let id = editor.current();
    let limit = number(editor, limit);
    let to = ends(editor.bounds(id).end, limit);
    up_to(editor.next_change(id, place(editor, p), to, name), limit)
}

/// Where the sets change, or the values of one property, in front of a position.
fn previous_before(editor: &Editor, p: &Value, name: Option<Sym>, limit: &Value) -> Mem<Value>
    requires { must_be_accessible (here (editor_of editor.now)) (editor_of editor.now)
        (view p.now) ≡ None }
    ensures { IfOk result (λ v. view v ≡ calls.previous_before (editor_of editor.now) (view p.now)
        (view limit.now) (changes_in (option_map number_of name)
        (here (editor_of editor.now)).text)) }
{
    let id = editor.current();
    let limit = number(editor, limit);
    let from = ends_behind(editor.bounds(id).start, limit);
    down_to(editor.prev_change(id, from, place(editor, p), name), limit)
}

/// Where behind a position the properties change.
pub fn next_property_change(editor: &Editor, p: &Value, limit: &Value) -> Result<Value, Failure>
    ensures { Answers result (calls.next_property_change (editor_of editor.now) (view p.now)
        (view limit.now)) }
{
    must_be_position(p)?;
    must_be_position_or_nil(limit)?;
    must_be_accessible(editor.current(), editor, p)?;
    must_be_nil_or_somewhere(editor, limit)?;
    Ok(next_after(editor, p, None, limit)?)
}

/// Where behind a position one property changes.
pub fn next_single_property_change(
    editor: &Editor,
    p: &Value,
    name: &Value,
    limit: &Value,
) -> Result<Value, Failure>
    ensures { Answers result (calls.next_single_property_change (editor_of editor.now) (view p.now)
        (view name.now) (view limit.now)) }
{
    must_be_position(p)?;
    let name = symbol(name)?;
    must_be_position_or_nil(limit)?;
    must_be_accessible(editor.current(), editor, p)?;
    must_be_nil_or_somewhere(editor, limit)?;
    Ok(next_after(editor, p, Some(name), limit)?)
}

/// Where in front of a position the properties change.
pub fn previous_property_change(editor: &Editor, p: &Value, limit: &Value) -> Result<Value, Failure>
    ensures { Answers result (calls.previous_property_change (editor_of editor.now) (view p.now)
        (view limit.now)) }
{
    must_be_position(p)?;
    must_be_position_or_nil(limit)?;
    must_be_accessible(editor.current(), editor, p)?;
    must_be_nil_or_somewhere(editor, limit)?;
    Ok(previous_before(editor, p, None, limit)?)
}

/// Where in front of a position one property changes.
pub fn previous_single_property_change(
    editor: &Editor,
    p: &Value,
    name: &Value,
    limit: &Value,
) -> Result<Value, Failure>
    ensures { Answers result (calls.previous_single_property_change (editor_of editor.now)
        (view p.now) (view name.now) (view limit.now)) }
{
    must_be_position(p)?;
    let name = symbol(name)?;
    must_be_position_or_nil(limit)?;
    must_be_accessible(editor.current(), editor, p)?;
    must_be_nil_or_somewhere(editor, limit)?;
    Ok(previous_before(editor, p, Some(name), limit)?)
}

/// The first place of a part of the current buffer whose character has a value of a property, or has another.
pub fn first_place(
    editor: &Editor,
    from: usize,
    to: usize,
    name: Sym,
    value: Option<&PropVal>,
    has: bool,
) -> Option<usize>
    requires order { from ≤ to }
    requires range { to ≤ length (here (editor_of editor.now)).text }
    ensures { result ≡ first_where (λ c. wanted has
        (has_value (number_of name) (option_map (λ v. prop_of v.now) value.entry) c)) from
        (part from to (here (editor_of editor.now)).text) }
{
    let id = editor.current();
    let mut i = from;
    'runs: while i < to {
        if wanted(has, same_option(editor.props_at(id, i).get(name), value)) {
            return Some(i);
        }
        i = editor.run_end(id, i);
    }
    None
}

/// Whether it has a value that it is to have, or hasn't one that it isn't to have.
fn wanted(has: bool, found: bool) -> bool
    ensures { result ≡ wanted has found }
{
    if has { found } else { !found }
}

/// The position of a place that was found, or nil.
fn found_place(found: Option<usize>) -> Mem<Value>
    ensures { IfOk result (λ v. view v ≡ calls.place_value found) }
{
    match found {
        Some(place) => at_place(place),
        None => Ok(Value::Nil),
    }
}

/// The tests of a question on the property's value in a region.
pub fn must_be_value_in_region(
    editor: &Editor,
    a: &Value,
    b: &Value,
    name: &Value,
    v: &Value,
) -> Result<Sym, Fault>
    ensures test { fault_in result ≡ first_fault
        (calls.property_tests (editor_of editor.now) (view a.now) (view b.now) (view name.now)
        (view v.now)) }
    ensures content { IfOk result (λ s. number_of s ≡ symbol_of (view name.now)) }
    ensures from { IfOk result (λ _. must_be_accessible (here (editor_of editor.now))
        (editor_of editor.now) (view a.now) ≡ None) }
    ensures to { IfOk result (λ _. must_be_accessible (here (editor_of editor.now))
        (editor_of editor.now) (view b.now) ≡ None) }
{
    must_be_position(a)?;
    must_be_position(b)?;
    let name = symbol(name)?;
    must_be_property_value(v)?;
    must_be_accessible(editor.current(), editor, a)?;
    must_be_accessible(editor.current(), editor, b)?;
    Ok(name)
}

/// The first place of a region whose character has a value of a property, or has another.
fn first_in_region(
    editor: &Editor,
    a: &Value,
    b: &Value,
    name: Sym,
    v: &Value,
    has: bool,
) -> Mem<Value>
    requires from { must_be_accessible (here (editor_of editor.now)) (editor_of editor.now)
        (view a.now) ≡ None }
    requires to { must_be_accessible (here (editor_of editor.now)) (editor_of editor.now)
        (view b.now) ≡ None }
    ensures { IfOk result (λ w. view w ≡ calls.place_value
        (first_where (λ c. wanted has (has_value (number_of name) (value_of (view v.now)) c))
        (from_of (editor_of editor.now) (view a.now) (view b.now))
        (region_text (editor_of editor.now) (view a.now) (view b.now)))) }
{
    // Read for what it ensures: the accessible portion lies in the text.
    let _portion = editor.bounds(editor.current());
    let value = property_value(v)?;
    let from = from_of(editor, a, b);
    let to = to_of(editor, a, b);
    found_place(first_place(editor, from, to, name, value.as_ref(), has))
}

/// The first position of a region where a property has a value.
pub fn text_property_any(
    editor: &Editor,
    a: &Value,
    b: &Value,
    name: &Value,
    v: &Value,
) -> Result<Value, Failure>
    ensures { Answers result (calls.text_property_any (editor_of editor.now) (view a.now)
        (view b.now) (view name.now) (view v.now)) }
{
    let name = must_be_value_in_region(editor, a, b, name, v)?;
    Ok(first_in_region(editor, a, b, name, v, true)?)
}

/// The first position of a region where a property has another value.
pub fn text_property_not_all(
    editor: &Editor,
    a: &Value,
    b: &Value,
    name: &Value,
    v: &Value,
) -> Result<Value, Failure>
    ensures { Answers result (calls.text_property_not_all (editor_of editor.now) (view a.now)
        (view b.now) (view name.now) (view v.now)) }
{
    let name = must_be_value_in_region(editor, a, b, name, v)?;
    Ok(first_in_region(editor, a, b, name, v, false)?)
}
