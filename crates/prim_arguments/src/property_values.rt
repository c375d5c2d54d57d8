//! Arguments that give values of properties.
ghost use Rattle.std.specs.Prelude.{◌≡◌, map, ◌++◌, IfOk, OnOk, is_some, unwrap_or, option_map};
ghost use Rattle.std.specs.Prelude.{true, []};
ghost use Rattle.editor_model.specs.Values.{Items, as_prop, symbol_names, values};
ghost use Rattle.prim_arguments.specs.PropertyArguments.{symbols_of};
ghost use Rattle.editor_model.specs.Arguments.{is_symbol, must_be_property_value, value_of};
ghost use Rattle.ek_types.specs.Listing.{items_of};
ghost use Rattle.ek_types.specs.Property.{number_of, prop_of};
ghost use Rattle.ek_call.specs.Meaning.{view};
ghost use Rattle.overlay_set.specs.Numbered.{given_of};
ghost use Rattle.prim_arguments.specs.Meaning.{fault_in};

use crate::kinds::must;
use ek_call::{Fault, Value, Values};
use ek_types::{Mem, PropVal, SymList};

fn is_symbol(v: &Value) -> bool
    ensures { result ≡ is_symbol (view v.now) }
{
    matches!(v, Value::Sym(_))
}

/// Whether all of some values are symbols.
fn are_symbols(items: &Values) -> bool
    ensures { result ≡ is_some (symbol_names (values (map view (items_of items.now)))) }
{
    for i in 0..items.len() {
        if !is_symbol(items.at(i)) {
            return false;
        }
    }
    true
}

/// Puts a value behind some symbols, if it is one. A refusal leaves these as they were.
fn push_symbol(names: &mut SymList, v: &Value) -> Mem<()>
    ensures { OnOk result (map number_of (items_of names.new) ≡
        map number_of (items_of names.old) ++ symbols_of (view v.now)) }
{
    match v {
        Value::Sym(name) => names.push(*name),
        _ => Ok(()),
    }
}

/// The symbols of a list of symbols.
fn symbols(items: &Values) -> Mem<SymList>
    requires { is_some (symbol_names (values (map view (items_of items.now)))) ≡ true }
    ensures { IfOk result (λ names. map number_of (items_of names) ≡
        unwrap_or (symbol_names (values (map view (items_of items.now)))) []) }
{
    let mut names = SymList::new(items.allocator());
    for i in 0..items.len() {
        push_symbol(&mut names, items.at(i))?;
    }
    Ok(names)
}

/// Whether a value can be a property's: nil, t, an integer, a symbol, a string, or a list of symbols.
pub(crate) fn is_property_value(v: &Value) -> bool
    ensures { result ≡ is_some (as_prop (view v.now)) }
{
    match v {
        Value::Nil | Value::T | Value::Int(_) | Value::Sym(_) | Value::Str(_) => true,
        Value::List(items) => are_symbols(items),
        _ => false,
    }
}

/// A value that a property can have.
pub fn must_be_property_value(v: &Value) -> Result<(), Fault>
    ensures { fault_in result ≡ must_be_property_value (view v.now) }
{
    must(is_property_value(v), Fault::WrongType)
}

/// The property's value that a value gives; `None` where it is nil, or can't be one.
pub fn property_value(v: &Value) -> Mem<Option<PropVal>>
    ensures value { IfOk result (λ p. option_map prop_of p ≡ value_of (view v.now)) }
    ensures given { IfOk result (λ p. given_of (option_map prop_of p) ≡ value_of (view v.now)) }
{
    match v {
        Value::T => Ok(Some(PropVal::Truth)),
        Value::Int(i) => Ok(Some(PropVal::Int(*i))),
        Value::Sym(name) => Ok(Some(PropVal::Sym(*name))),
        Value::Str(text) => Ok(Some(PropVal::Text(text.shared_text()?))),
        Value::List(items) => symbols_value(items),
        _ => Ok(None),
    }
}

/// The property's value that a list gives.
#[tactic(auto, using(crate::proofs::Symbols::listed, crate::proofs::Symbols::not_listed, crate::proofs::Symbols::none_listed))]
fn symbols_value(items: &Values) -> Mem<Option<PropVal>>
    ensures value { IfOk result (λ p. option_map prop_of p ≡
        value_of (Items (values (map view (items_of items.now))))) }
    ensures given { IfOk result (λ p. given_of (option_map prop_of p) ≡
        value_of (Items (values (map view (items_of items.now))))) }
{
    if items.len() == 0 {
        return Ok(None);
    }
    if !are_symbols(items) {
        return Ok(None);
    }
    Ok(Some(PropVal::Syms(symbols(items)?)))
}
