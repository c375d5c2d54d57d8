//! Values that calls answer.
ghost use Rattle.std.specs.Prelude.{◌≡◌, pos, [], ◌∷◌, ◌++◌, map, IfOk, OnOk, Some, option_map};
ghost use Rattle.editor_model.specs.Values.{Int as number, Sym as symbol, Dotted, TheBuffer};
ghost use Rattle.editor_model.specs.Values.{TheOverlay, at_place, list, values, plain, truth};
ghost use Rattle.editor_model.specs.Values.{of_prop, of_set, set_words};
ghost use Rattle.ek_types.specs.Listing.{items_of};
ghost use Rattle.ek_types.specs.Property.{number_of, prop_of};
ghost use Rattle.ek_call.specs.Meaning.{view};

use ek_call::{Value, Values};
use ek_types::{Chars, Copied, Mem, NoMemory, Piece, PropSet, PropVal, Sym, SymList};
use std::alloc::Global;

/// `t` or nil.
pub fn truth(on: bool) -> Value
    ensures { view result ≡ truth on }
{
    if on { Value::T } else { Value::Nil }
}

/// The position of a place as a value. One that no value can hold counts as want of memory.
pub fn at_place(place: usize) -> Mem<Value>
    ensures { IfOk result (λ v. view v ≡ at_place place) }
{
    match i64::try_from(place as u128 + 1) {
        Ok(position) => Ok(Value::Int(position)),
        Err(_) => Err(NoMemory),
    }
}

/// A number of characters as a value. One that no value can hold counts as want of memory.
pub fn count(n: usize) -> Mem<Value>
    ensures { IfOk result (λ v. view v ≡ number (pos n)) }
{
    match i64::try_from(n) {
        Ok(n) => Ok(Value::Int(n)),
        Err(_) => Err(NoMemory),
    }
}

/// A buffer as a value.
pub fn buffer(id: u32) -> Value
    ensures { view result ≡ TheBuffer id }
{
    Value::Buffer(id)
}

/// Values as a list, which is nil where there are none.
pub fn list(values: Values) -> Value
    ensures { view result ≡ list (map view (items_of values)) }
{
    if values.len() == 0 {
        return Value::Nil;
    }
    Value::List(values)
}

/// Characters as a string without properties.
pub fn plain(alloc: Global, text: &Chars) -> Mem<Value>
    ensures { IfOk result (λ v. view v ≡ plain text.now.items) }
{
    Ok(Value::Str(Piece::plain(alloc, text.copy()?)?))
}

/// A symbol as a value.
pub fn symbol(name: Sym) -> Value
    ensures { view result ≡ symbol (number_of name) }
{
    Value::Sym(name)
}

/// An overlay as a value.
pub fn overlay(k: u32) -> Value
    ensures { view result ≡ TheOverlay k }
{
    Value::Overlay(k)
}

/// Symbols as values.
fn symbols(names: &SymList) -> Mem<Values>
    ensures { IfOk result (λ values. map view (items_of values) ≡
        map symbol (map number_of (items_of names.now))) }
{
    let mut values = Values::new(names.allocator());
    for i in 0..names.len() {
        values.push(symbol(*names.at(i)))?;
    }
    Ok(values)
}

/// A property's value as a value; where there is none, nil.
pub fn of_prop(alloc: Global, v: Option<&PropVal>) -> Mem<Value>
    ensures { IfOk result (λ w. view w ≡ of_prop (option_map (λ p. prop_of p.now) v.entry)) }
{
    match v {
        None => Ok(Value::Nil),
        Some(PropVal::Truth) => Ok(Value::T),
        Some(PropVal::Int(i)) => Ok(Value::Int(*i)),
        Some(PropVal::Sym(name)) => Ok(Value::Sym(*name)),
        Some(PropVal::Syms(names)) => Ok(list(symbols(names)?)),
        Some(PropVal::Text(text)) => Ok(Value::Str(Piece::sharing(alloc, text)?)),
    }
}

/// Puts a property's name and value behind other values. A refusal may leave the name there.
fn push_pair(alloc: Global, values: &mut Values, name: Sym, v: &PropVal) -> Mem<()>
    ensures { OnOk result (map view (items_of values.new) ≡ map view (items_of values.old) ++
        symbol (number_of name) ∷ of_prop (Some (prop_of v.now)) ∷ []) }
{
    values.push(symbol(name))?;
    values.push(of_prop(alloc, Some(v))?)
}

/// The names and values of a property set.
fn set_words(alloc: Global, set: &PropSet) -> Mem<Values>
    ensures { IfOk result (λ values. map view (items_of values) ≡ set_words set.now) }
{
    let mut values = Values::new(alloc);
    for i in 0..set.len() {
        let (name, value) = set.at(i);
        push_pair(alloc, &mut values, name, value)?;
    }
    Ok(values)
}

/// A property set as a list of names and values.
pub fn of_set(alloc: Global, set: &PropSet) -> Mem<Value>
    ensures { IfOk result (λ v. view v ≡ of_set set.now) }
{
    Ok(list(set_words(alloc, set)?))
}

/// A list with a tail.
pub fn dotted(items: Values, tail: Value) -> Mem<Value>
    ensures { IfOk result (λ v. view v ≡ Dotted (values (map view (items_of items))) (view tail)) }
{
    let tail = Box::new(items.allocator(), tail)?;
    Ok(Value::Dot(items, tail))
}
