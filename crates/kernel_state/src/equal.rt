//! When values are equal.
ghost use Rattle.std.specs.Prelude.{◌≡◌, map};
ghost use Rattle.editor_model.specs.Values.{equal, equal_each, values};
ghost use Rattle.ek_types.specs.Listing.{items_of};
ghost use Rattle.ek_call.specs.Meaning.{view};

use ek_call::{Value, Values};

/// Whether two values are of one kind and have the same content: strings by their characters alone, also in lists.
#[cycle(equal)]
pub(crate) fn are_equal(a: &Value, b: &Value) -> bool
    ensures { result ≡ equal (view a.now) (view b.now) }
{
    match (a, b) {
        (Value::Nil, Value::Nil) | (Value::T, Value::T) => true,
        (Value::Int(x), Value::Int(y)) => *x == *y,
        (Value::Sym(x), Value::Sym(y)) => x.0 == y.0,
        (Value::Str(x), Value::Str(y)) => x.text().same(y.text()),
        (Value::List(x), Value::List(y)) => each_equal(x, y),
        (Value::Dot(x, s), Value::Dot(y, t)) => {
            if !each_equal(x, y) {
                return false;
            }
            are_equal(s, t)
        }
        (Value::Buffer(x), Value::Buffer(y)) => *x == *y,
        (Value::Marker(x), Value::Marker(y)) => *x == *y,
        (Value::Overlay(x), Value::Overlay(y)) => *x == *y,
        (Value::Process(x), Value::Process(y)) => *x == *y,
        _ => false,
    }
}

/// Whether two lists are as long, and equal one by one.
#[cycle(equal)]
fn each_equal(a: &Values, b: &Values) -> bool
    ensures { result ≡ equal_each (values (map view (items_of a.now)))
        (values (map view (items_of b.now))) }
{
    if a.len() != b.len() {
        return false;
    }
    for i in 0..a.len() {
        if !are_equal(a.at(i), b.at(i)) {
            return false;
        }
    }
    true
}
