//! Worked cases of natives' calls, and of bodies.
use crate::checking::{holds, is};
use ek_call::{HandlerDef, Primitive, Value};
use ek_types::{Ch, Chars, ListOf, Piece, PropSet, PropVal, Sym};
use handler_code::{Body, Made, NativeCall, Natives, NoNatives, allowed};
use std::alloc::Global;
use std::process::Abort;

/// Two symbols and three buffers were made, and nothing else.
const FEW: Made = Made {
    symbols: 2,
    buffers: 3,
    markers: 0,
    overlays: 0,
    processes: 0,
};

/// A call with one argument.
fn call(rt: &impl Abort, alloc: Global, prim: Primitive, arg: Value) -> NativeCall {
    let mut args = ListOf::new(alloc);
    args.push(arg).expect(rt, "memory");
    NativeCall { prim, args }
}

/// A list of one value.
fn list(rt: &impl Abort, alloc: Global, item: Value) -> Value {
    let mut items = ListOf::new(alloc);
    items.push(item).expect(rt, "memory");
    Value::List(items)
}

/// A piece of one character.
fn letter(rt: &impl Abort, alloc: Global) -> Piece {
    let mut chars = Chars::new(alloc);
    chars.push(Ch::Scalar('a')).expect(rt, "memory");
    Piece::plain(alloc, chars).expect(rt, "memory")
}

/// Gives the only character of a piece its properties.
fn put(rt: &impl Abort, piece: &mut Piece, set: &PropSet) {
    assert!(rt; piece.len() == 1);
    piece.put(0, 1, set).expect(rt, "memory");
}

/// A character with one property.
fn text(rt: &impl Abort, alloc: Global, value: &PropVal) -> Value {
    let mut piece = letter(rt, alloc);
    let set = PropSet::empty(alloc).with(Sym(1), value);
    put(rt, &mut piece, &set.expect(rt, "memory"));
    Value::Str(piece)
}

/// Whether a call with this argument is made.
fn is_made(rt: &impl Abort, alloc: Global, prim: Primitive, arg: Value) -> bool {
    let asked = call(rt, alloc, prim, arg);
    allowed(&FEW, asked).expect(rt, "memory").is_some()
}

/// A call of `set-buffer` with this argument is made, or it isn't.
fn makes(rt: &impl Abort, alloc: Global, arg: Value, expected: bool) {
    is(rt, is_made(rt, alloc, Primitive::SetBuffer, arg), expected);
}

#[test]
fn what_was_never_made_is_found_inside_any_argument(rt: HostRuntime) {
    let alloc = rt.alloc();
    makes(&rt, alloc, Value::Buffer(2), true);
    makes(&rt, alloc, Value::Buffer(3), false);
    makes(&rt, alloc, Value::Marker(0), false);
    makes(&rt, alloc, Value::Overlay(0), false);
    makes(&rt, alloc, Value::Process(0), false);
    makes(&rt, alloc, Value::Sym(Sym(1)), true);
    let nested = list(&rt, alloc, list(&rt, alloc, Value::Sym(Sym(2))));
    makes(&rt, alloc, nested, false);
    makes(&rt, alloc, text(&rt, alloc, &PropVal::Sym(Sym(0))), true);
    makes(&rt, alloc, text(&rt, alloc, &PropVal::Sym(Sym(2))), false);
}

#[test]
fn a_wrong_number_of_arguments_is_refused(rt: HostRuntime) {
    let made = is_made(&rt, rt.alloc(), Primitive::Point, Value::Nil);
    is(&rt, made, false);
}

/// Whether these are one nil.
fn are_nil(items: &[Value]) -> bool {
    match items {
        [item] => item.is_nil(),
        _ => false,
    }
}

/// Whether these are one list of one nil.
fn are_list_of_nil(args: &[Value]) -> bool {
    match args {
        [Value::List(items)] => are_nil(items.as_slice()),
        _ => false,
    }
}

/// A call of `set-buffer` with this argument is made with a list of nil.
fn is_made_with_nil(rt: &impl Abort, alloc: Global, arg: Value) {
    let asked = call(rt, alloc, Primitive::SetBuffer, arg);
    let made = allowed(&FEW, asked).expect(rt, "memory");
    let made = made.expect(rt, "a call");
    holds(rt, are_list_of_nil(made.args.as_slice()));
}

#[test]
fn an_empty_list_counts_as_nil(rt: HostRuntime) {
    let empty = Value::List(ListOf::new(rt.alloc()));
    is_made_with_nil(&rt, rt.alloc(), list(&rt, rt.alloc(), empty));
}

/// The body of a handler with one parameter and no form.
fn body(rt: &impl Abort, alloc: Global) -> Body {
    let mut params = ListOf::new(alloc);
    params.push(Sym(20)).expect(rt, "memory");
    let body = ListOf::new(alloc);
    let name = Sym(21);
    Body::of(&HandlerDef { name, params, body }).expect(rt, "memory")
}

#[test]
fn a_body_is_a_copy_of_its_definition(rt: HostRuntime) {
    let copy = body(&rt, rt.alloc()).copy().expect(&rt, "memory");
    is(&rt, copy.params().as_slice(), &[Sym(20)]);
    is(&rt, copy.forms().len(), 0);
}

#[test]
fn no_natives_are_none(rt: HostRuntime) {
    is(&rt, NoNatives.count(), 0);
}
