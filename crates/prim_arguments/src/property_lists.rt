//! Arguments that are property lists: names and values in turn, no name twice.
ghost use Rattle.std.specs.Prelude.{◌≡◌, ◌==◌, map, IfOk, OnOk, is_some, ◌++◌, option_map};
ghost use Rattle.std.specs.Prelude.{Some, [], ◌∷◌};
ghost use Rattle.text_model.specs.Properties.{put};
ghost use Rattle.std.specs.List.{list_any};
ghost use Rattle.editor_model.specs.Values.{as_pairs, as_prop, pairs_of, with_pair, items, values};
ghost use Rattle.editor_model.specs.Values as model;
ghost use Rattle.editor_model.specs.Arguments.{refuse};
ghost use Rattle.editor_model.specs.PropertyCalls.{set_of_pairs, names_of_pairs, nil_names};
ghost use Rattle.ek_types.specs.Listing.{items_of};
ghost use Rattle.ek_types.specs.Property.{number_of};
ghost use Rattle.ek_call.specs.Meaning.{view};
ghost use Rattle.prim_arguments.specs.Meaning.{fault_in};
ghost use Rattle.prim_arguments.specs.PropertyArguments.{backwards, paired, pair_of};

use crate::property_values::{is_property_value, property_value};
use ek_call::{Fault, Value, Values};
use ek_types::{ListOf, Mem, PropSet, PropVal, Sym, SymList};
use std::alloc::Global;

/// A name with its value; `None` is nil.
#[derive(Drop)]
pub struct Pair {
    pub name: Sym,
    pub value: Option<PropVal>,
}

/// The pairs of a property list, the last first.
pub type Pairs = ListOf<Pair>;

/// Whether one of the pairs has a name.
fn has_name(list: &Pairs, name: Sym) -> bool
    ensures { result ≡ list_any (λ p. p.0 == number_of name) (backwards (items_of list.now)) }
{
    list.as_slice().iter().any(|pair| pair.name.0 == name.0)
}

/// The pairs of a list with a name and a value in front, where these can stand there.
fn with_named(list: Pairs, name: Sym, value: &Value) -> Mem<Option<Pairs>>
    ensures { IfOk result (λ l. option_map (λ ps. backwards (items_of ps)) l ≡
        with_pair (number_of name) (as_prop (view value.now)) (Some (backwards (items_of list)))) }
{
    if !is_property_value(value) {
        return Ok(None);
    }
    if has_name(&list, name) {
        return Ok(None);
    }
    let mut list = list;
    let value = property_value(value)?;
    list.push(Pair { name, value })?;
    Ok(Some(list))
}

/// The same with a name that need be none.
fn with_pair(list: Pairs, name: &Value, value: &Value) -> Mem<Option<Pairs>>
    ensures { IfOk result (λ l. option_map (λ ps. backwards (items_of ps)) l ≡
        paired (view name.now) (view value.now) (Some (backwards (items_of list)))) }
{
    match name {
        Value::Sym(name) => with_named(list, *name, value),
        _ => Ok(None),
    }
}

/// The same where there may be no list.
fn with_pair_in_front(list: Option<Pairs>, name: &Value, value: &Value) -> Mem<Option<Pairs>>
    ensures { IfOk result (λ l. option_map (λ ps. backwards (items_of ps)) l ≡
        paired (view name.now) (view value.now) (option_map (λ ps. backwards (items_of ps)) list)) }
{
    match list {
        Some(list) => with_pair(list, name, value),
        None => Ok(None),
    }
}

/// The pairs of some values, where they are a property list.
fn pairs_in(words: &Values) -> Mem<Option<Pairs>>
    ensures { IfOk result (λ l. option_map (λ ps. backwards (items_of ps)) l ≡
        pairs_of (items (values (map view (items_of words.now))))) }
{
    if words.len() % 2 == 1 {
        return Ok(None);
    }
    let mut list = Some(Pairs::new(words.allocator()));
    let mut n = words.len() / 2;
    'pairs: while n > 0 {
        n -= 1;
        list = with_pair_in_front(list, words.at(2 * n), words.at(2 * n + 1))?;
    }
    Ok(list)
}

/// The pairs that a value gives, where it is a property list.
pub fn pairs(alloc: Global, v: &Value) -> Mem<Option<Pairs>>
    ensures { IfOk result (λ l. option_map (λ ps. backwards (items_of ps)) l ≡ as_pairs (view v.now)) }
{
    match v {
        Value::Nil => Ok(Some(Pairs::new(alloc))),
        Value::List(items) => pairs_in(items),
        _ => Ok(None),
    }
}

/// Refuses what is no property list.
pub fn must_be_pairs(list: Option<Pairs>) -> Result<Pairs, Fault>
    ensures test { fault_in result ≡ refuse model.WrongType (is_some list) }
    ensures content { IfOk result (λ l. list ≡ Some l) }
{
    match list {
        Some(list) => Ok(list),
        None => Err(Fault::WrongType),
    }
}

/// A set with a pair put in, or its name taken away.
fn with_value(set: PropSet, pair: &Pair) -> Mem<PropSet>
    ensures { IfOk result (λ s. s ≡ put set (pair_of pair.now).0 (pair_of pair.now).1) }
{
    match &pair.value {
        Some(value) => set.with(pair.name, value),
        None => Ok(set.without(pair.name)),
    }
}

/// The pairs with a value as a set.
pub fn set_of_pairs(alloc: Global, list: &Pairs) -> Mem<PropSet>
    ensures { IfOk result (λ s. s ≡ set_of_pairs (backwards (items_of list.now))) }
{
    let mut set = PropSet::empty(alloc);
    for i in 0..list.len() {
        set = with_value(set, list.at(i))?;
    }
    Ok(set)
}

/// The names of all pairs.
pub fn names_of_pairs(alloc: Global, list: &Pairs) -> Mem<SymList>
    ensures { IfOk result (λ names. map number_of (items_of names) ≡
        names_of_pairs (backwards (items_of list.now))) }
{
    let mut names = SymList::new(alloc);
    let mut i = list.len();
    'pairs: while i > 0 {
        i -= 1;
        names.push(list.at(i).name)?;
    }
    Ok(names)
}

/// Puts the name of a pair behind others, if it has no value.
fn push_if_nil(names: &mut SymList, pair: &Pair) -> Mem<()>
    ensures { OnOk result (map number_of (items_of names.new) ≡
        map number_of (items_of names.old) ++ nil_names (pair_of pair.now ∷ [])) }
{
    let is_nil = match &pair.value {
        Some(value) => value.is_nil(),
        None => true,
    };
    if is_nil {
        names.push(pair.name)
    } else {
        Ok(())
    }
}

/// The names of the pairs without a value.
pub fn nil_names(alloc: Global, list: &Pairs) -> Mem<SymList>
    ensures { IfOk result (λ names. map number_of (items_of names) ≡
        nil_names (backwards (items_of list.now))) }
{
    let mut names = SymList::new(alloc);
    let mut i = list.len();
    'pairs: while i > 0 {
        i -= 1;
        push_if_nil(&mut names, list.at(i))?;
    }
    Ok(names)
}
