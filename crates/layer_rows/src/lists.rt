//! Characters, lists and property sets: each call that takes memory, once with ample memory.

use crate::checking::{copied, holds, is};
use ek_types::{Ch, Chars, Copied, ListOf, PropSet, PropVal, Sym, SymList};
use std::alloc::Global;
use std::process::Abort;
use std::rc::Rc;

#[test]
fn a_list_and_its_copy_have_the_same_items(rt: HostRuntime) {
    let mut list = ListOf::new(rt.alloc());
    list.reserve(1).expect(&rt, "memory");
    list.push_spare(7u32);
    list.push(9u32).expect(&rt, "memory");
    let copy = list.copy().expect(&rt, "memory");
    is(&rt, list.as_slice(), &[7, 9]);
    is(&rt, copy.as_slice(), &[7, 9]);
    is(&rt, copy.len(), 2);
}

pub fn at(rt: &impl Abort, text: &Chars, i: usize) -> Ch {
    assert!(rt; i < text.len());
    text.at(i)
}

/// A text is these characters.
fn are(rt: &impl Abort, text: &Chars, expected: &[Ch]) {
    is(rt, text.len(), expected.len());
    for (i, c) in expected.iter().enumerate() {
        is(rt, at(rt, text, i), *c);
    }
}

const TWICE: [Ch; 4] = [
    Ch::Scalar('a'),
    Ch::Scalar('é'),
    Ch::Scalar('a'),
    Ch::Scalar('é'),
];

#[test]
fn characters_are_put_behind_others(rt: HostRuntime) {
    let mut text = Chars::new(rt.alloc());
    text.extend_bytes(b"a\xe9").expect(&rt, "memory");
    let mut whole = Chars::new(rt.alloc());
    whole.extend(&text).expect(&rt, "memory");
    whole.extend(&text).expect(&rt, "memory");
    are(&rt, &whole, &TWICE);
}

#[test]
fn characters_are_copied(rt: HostRuntime) {
    let mut text = Chars::new(rt.alloc());
    text.reserve(1).expect(&rt, "memory");
    text.push_spare(Ch::Scalar('€'));
    text.push(Ch::Raw(0x82)).expect(&rt, "memory");
    let copy = text.copy().expect(&rt, "memory");
    are(&rt, &copy, &[Ch::Scalar('€'), Ch::Raw(0x82)]);
}

/// The number, where the value is one.
pub fn number(value: Option<&PropVal>) -> Option<i64> {
    match value {
        Some(PropVal::Int(i)) => Some(*i),
        _ => None,
    }
}

const PRIORITY: Sym = Sym(3);

const FACE: Sym = Sym(14);

/// A set with one property more.
pub fn with(rt: &impl Abort, set: PropSet, name: Sym, value: &PropVal) -> PropSet {
    set.with(name, value).expect(rt, "memory")
}

/// A face that is given anew behind a priority, copied.
fn copied_set(rt: &impl Abort, alloc: Global) -> PropSet {
    let set = with(rt, PropSet::empty(alloc), FACE, &PropVal::Int(1));
    let set = with(rt, set, PRIORITY, &PropVal::Int(2));
    let set = with(rt, set, FACE, &PropVal::Int(5));
    set.copy().expect(rt, "memory")
}

#[test]
fn a_property_given_anew_has_the_later_value(rt: HostRuntime) {
    let set = copied_set(&rt, rt.alloc());
    is(&rt, set.len(), 2);
    is(&rt, number(set.get(PRIORITY)), Some(2));
    is(&rt, number(set.get(FACE)), Some(5));
}

#[test]
fn a_property_taken_away_leaves_the_others(rt: HostRuntime) {
    let set = copied_set(&rt, rt.alloc()).without(PRIORITY);
    is(&rt, set.len(), 1);
    is(&rt, number(set.get(FACE)), Some(5));
}

#[test]
fn nil_takes_a_property_away(rt: HostRuntime) {
    let nil = PropVal::Syms(ListOf::new(rt.alloc()));
    let set = with(&rt, copied_set(&rt, rt.alloc()), FACE, &nil);
    is(&rt, set.len(), 1);
    is(&rt, number(set.get(PRIORITY)), Some(2));
}

/// Whether two values are of the same kind and word.
fn are_same(one: &PropVal, other: &PropVal) -> bool {
    match (one, other) {
        (PropVal::Truth, PropVal::Truth) => true,
        (PropVal::Int(one), PropVal::Int(other)) => one == other,
        (PropVal::Sym(one), PropVal::Sym(other)) => one == other,
        _ => false,
    }
}

fn copies_as_itself(rt: &impl Abort, value: &PropVal) {
    let copy = value.copy().expect(rt, "memory");
    holds(rt, are_same(value, &copy));
}

#[test]
fn values_of_one_word_are_copied(rt: HostRuntime) {
    copies_as_itself(&rt, &PropVal::Truth);
    copies_as_itself(&rt, &PropVal::Int(-4));
    copies_as_itself(&rt, &PropVal::Sym(Sym(8)));
}

/// A list of one name.
pub fn just(rt: &impl Abort, alloc: Global, name: Sym) -> SymList {
    let mut names = SymList::new(alloc);
    names.push(name).expect(rt, "memory");
    names
}

/// Whether a value is a list of one name.
fn names_one(value: &PropVal, name: Sym) -> bool {
    match value {
        PropVal::Syms(names) => names.as_slice() == [name].as_slice(),
        _ => false,
    }
}

#[test]
fn names_are_copied(rt: HostRuntime) {
    let copy = copied(&rt, PropVal::Syms(just(&rt, rt.alloc(), Sym(14))));
    holds(&rt, names_one(&copy, Sym(14)));
}

/// Whether a value is a text of so many characters.
fn is_text(value: &PropVal, len: usize) -> bool {
    match value {
        PropVal::Text(text) => text.as_ref().len() == len,
        _ => false,
    }
}

/// A text of one letter.
fn text(rt: &impl Abort, alloc: Global) -> PropVal {
    let mut text = Chars::new(alloc);
    text.push(Ch::Scalar('a')).expect(rt, "memory");
    PropVal::Text(Rc::new(alloc, text).expect(rt, "memory"))
}

#[test]
fn a_text_is_copied(rt: HostRuntime) {
    let copy = copied(&rt, text(&rt, rt.alloc()));
    holds(&rt, is_text(&copy, 1));
}
