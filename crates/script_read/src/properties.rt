//! Property lists as sets.
ghost use Rattle.std.specs.Prelude.{◌≡◌, ◌++◌, map, option_map, IfOk, OnOk, Some};
ghost use Rattle.editor_model.specs.Values.{Items, values, symbol_names, as_prop};
ghost use Rattle.ek_types.specs.Listing.{items_of};
ghost use Rattle.ek_types.specs.Property.{number_of, prop_of, pair_of};
ghost use Rattle.ek_call.specs.Meaning.{view};
ghost use Rattle.script_read.specs.PropStrings.{Named, with_property, named_of, set_of};
ghost use Rattle.script_read.specs.PropSets.{Gathers, Adds, Lists, AreRising, IsGiven, property_of};
ghost use Rattle.script_read.specs.PropSets.{one_given, set_given};

use ek_call::{Value, Values};
use ek_types::{ListOf, Mem, PropSet, PropVal, Sym, SymList};
use std::alloc::Global;
use std::collections::BTreeMap;

/// Properties by the number of the name, each given once. Nil takes no place in a set, but is given.
type Given = BTreeMap<u32, Option<PropVal>>;

/// The symbols of a list that has nothing else.
fn symbols(alloc: Global, list: &Values) -> Mem<Option<SymList>>
    ensures { IfOk result (λ o. option_map (λ names. map number_of (items_of names)) o ≡
        symbol_names (values (map view (items_of list.now)))) }
{
    let mut names = ListOf::new(alloc);
    for i in 0..list.len() {
        let Some(name) = list.at(i).symbol() else {
            return Ok(None);
        };
        names.push(name)?;
    }
    Ok(Some(names))
}

/// The value of a property, nil being `None`, where a list holds the symbols of one.
fn symbols_value(alloc: Global, list: &Values) -> Mem<Option<Option<PropVal>>>
    ensures { IfOk result (λ o. option_map (option_map prop_of) o ≡
        as_prop (Items (values (map view (items_of list.now))))) }
{
    if list.len() == 0 {
        return Ok(Some(None));
    }
    let Some(names) = symbols(alloc, list)? else {
        return Ok(None);
    };
    Ok(Some(Some(PropVal::Syms(names))))
}

/// A value as that of a property, nil being `None`, where it can be one.
fn property_value(alloc: Global, value: &Value) -> Mem<Option<Option<PropVal>>>
    ensures { IfOk result (λ o. option_map (option_map prop_of) o ≡ as_prop (view value.now)) }
{
    match value {
        Value::Nil => Ok(Some(None)),
        Value::T => Ok(Some(Some(PropVal::Truth))),
        Value::Int(i) => Ok(Some(Some(PropVal::Int(*i)))),
        Value::Sym(name) => Ok(Some(Some(PropVal::Sym(*name)))),
        Value::Str(text) => Ok(Some(Some(PropVal::Text(text.shared_text()?)))),
        Value::List(list) => symbols_value(alloc, list),
        _ => Ok(None),
    }
}

/// Notes a property. Answers whether its name is new.
fn note(given: &mut Given, name: Sym, value: Option<PropVal>) -> Mem<bool>
    requires { IsGiven value }
    ensures { (named : Named) → Gathers given.old.entries named →
        IfOk result (λ new. Adds new (with_property (number_of name)
        (Some (option_map prop_of value)) named) given.new.entries) }
{
    let before = given.insert(name.0, value)?;
    Ok(before.is_none())
}

/// Notes the property of this name and value, where they can be one. Answers whether they are and the name is new.
fn note_property(alloc: Global, given: &mut Given, name: &Value, value: &Value) -> Mem<bool>
    ensures { (named : Named) → Gathers given.old.entries named →
        IfOk result (λ new. Adds new (property_of (view name.now) (view value.now) named)
        given.new.entries) }
{
    let Some(name) = name.symbol() else {
        return Ok(false);
    };
    let Some(value) = property_value(alloc, value)? else {
        return Ok(false);
    };
    note(given, name, value)
}

/// The properties of a list of names and values, from the last to the first.
fn gathered(alloc: Global, list: &Values) -> Mem<Option<Given>>
    ensures { IfOk result (λ o. Lists o (named_of (map view (items_of list.now)))) }
{
    let mut given = BTreeMap::new(alloc);
    let mut left = list.len() / 2;
    if list.len() > 2 * left {
        return Ok(None);
    }
    'pairs: while left > 0 {
        left -= 1;
        if !note_property(alloc, &mut given, list.at(2 * left), list.at(2 * left + 1))? {
            return Ok(None);
        }
    }
    Ok(Some(given))
}

/// Puts a property behind others, unless it is nil.
fn push_given(pairs: &mut Vec<(Sym, PropVal)>, name: u32, value: Option<PropVal>) -> Mem<()>
    ensures { OnOk result (map pair_of pairs.new.items ≡ map pair_of pairs.old.items ++
        one_given name value) }
{
    if let Some(value) = value {
        pairs.push((Sym(name), value))?;
    }
    Ok(())
}

/// The set of the properties that aren't nil.
fn set_from(alloc: Global, given: Given) -> Mem<PropSet>
    requires { AreRising 0 given.entries }
    ensures { IfOk result (λ set. set ≡ set_given given.entries) }
{
    let mut pairs = Vec::new(alloc);
    let mut left = given;
    'entries: while let Some((name, value)) = left.pop_first() {
        push_given(&mut pairs, name, value)?;
    }
    Ok(PropSet::of_rising(pairs))
}

/// The set of a list of names and values, where it is one that gives no name twice.
pub(crate) fn set_of(alloc: Global, list: &Values) -> Mem<Option<PropSet>>
    ensures { IfOk result (λ o. o ≡ set_of (map view (items_of list.now))) }
{
    let Some(given) = gathered(alloc, list)? else {
        return Ok(None);
    };
    let set = set_from(alloc, given)?;
    Ok(Some(set))
}
