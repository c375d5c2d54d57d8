//! Values in which each empty list is nil.
ghost use Rattle.std.specs.Prelude.{◌≡◌, ◌<◌, map, IfOk, IsTrue};
ghost use Rattle.plain_machine.specs.Natives.{normal};
ghost use Rattle.ek_types.specs.Listing.{items_of};
ghost use Rattle.ek_call.specs.Meaning.{view};

use ek_call::{Value, Values};
use ek_types::{Copied, ListOf, Mem};

/// A copy of a value in which each empty list is nil.
#[cycle(normal)]
fn normal_value(value: &Value) -> Mem<Value>
    ensures { IfOk result (λ v. view v ≡ normal (view value.now)) }
{
    match value {
        Value::List(items) => {
            if items.len() == 0 {
                return Ok(Value::Nil);
            }
            Ok(Value::List(normal_values(items)?))
        }
        Value::Dot(items, tail) => {
            let front = normal_values(items)?;
            let last = normal_value(tail)?;
            Ok(Value::Dot(front, Box::new(items.allocator(), last)?))
        }
        _ => value.copy(),
    }
}

/// A copy of values in each of which each empty list is nil.
#[cycle(normal)]
pub(crate) fn normal_values(values: &Values) -> Mem<Values>
    ensures { IfOk result (λ vs. map view (items_of vs) ≡ map normal (map view (items_of values.now))) }
{
    let mut copies = ListOf::with_room(values.allocator(), values.len())?;
    for i in 0..values.len() {
        copies.push(normal_value(values.at(i))?)?;
    }
    Ok(copies)
}

/// Whether no empty list is in a value.
#[cycle(look)]
fn is_normal(value: &Value) -> bool
    ensures { IsTrue result → view value.now ≡ normal (view value.now) }
{
    match value {
        Value::List(items) => {
            if items.len() == 0 {
                return false;
            }
            are_normal(items)
        }
        Value::Dot(items, tail) => {
            if !are_normal(items) {
                return false;
            }
            is_normal(tail)
        }
        _ => true,
    }
}

/// Whether no empty list is in some values.
#[cycle(look)]
pub(crate) fn are_normal(values: &Values) -> bool
    ensures { IsTrue result →
        map view (items_of values.now) ≡ map normal (map view (items_of values.now)) }
{
    for i in 0..values.len() {
        if !is_normal(values.at(i)) {
            return false;
        }
    }
    true
}
