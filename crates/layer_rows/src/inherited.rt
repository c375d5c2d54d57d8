//! Worked cases of what a character inherits.

use crate::checking::is;
use crate::lists::{just, with};
use ek_types::{PropSet, PropVal, Sym};
use std::alloc::Global;
use std::process::Abort;
use stickiness::{inherited, inherits};

const FRONT_STICKY: Sym = Sym(0);

const REAR_NONSTICKY: Sym = Sym(1);

const FACE: Sym = Sym(20);

const MOUSE_FACE: Sym = Sym(21);

const BOLD: PropVal = PropVal::Sym(Sym(30));

const ITALIC: PropVal = PropVal::Sym(Sym(31));

/// The number of the symbol that a property has as its value, or 0.
fn symbol(set: &PropSet, name: Sym) -> u32 {
    match set.get(name) {
        Some(PropVal::Sym(s)) => s.0,
        _ => 0,
    }
}

/// Two faces and a stickiness property.
fn faces(rt: &impl Abort, alloc: Global, sticky: Sym, value: &PropVal, face: &PropVal) -> PropSet {
    let set = with(rt, PropSet::empty(alloc), FACE, face);
    let set = with(rt, set, MOUSE_FACE, face);
    with(rt, set, sticky, value)
}

/// The number of properties, the face and the mouse face that a character inherits.
fn inherit(
    rt: &impl Abort,
    alloc: Global,
    before: Option<&PropSet>,
    after: Option<&PropSet>,
) -> (usize, u32, u32) {
    let set = inherited(alloc, before, after).expect(rt, "memory");
    (set.len(), symbol(&set, FACE), symbol(&set, MOUSE_FACE))
}

#[test]
fn what_a_list_withholds_at_the_rear_comes_from_the_front(rt: HostRuntime) {
    let alloc = rt.alloc();
    let before = with(&rt, PropSet::empty(alloc), FACE, &BOLD);
    let withheld = PropVal::Syms(just(&rt, alloc, FACE));
    let before = with(&rt, before, REAR_NONSTICKY, &withheld);
    let after = with(&rt, PropSet::empty(alloc), FACE, &ITALIC);
    let after = with(&rt, after, FRONT_STICKY, &PropVal::Truth);
    let set = inherit(&rt, alloc, Some(&before), Some(&after));
    is(&rt, set, (1, 31, 0));
}

/// Which properties a character inherits between the two, and at an end.
fn are_inherited(rt: &impl Abort, before: &PropSet, after: &PropSet) {
    is(rt, inherits(Some(before), Some(after), MOUSE_FACE), true);
    is(rt, inherits(Some(before), None, MOUSE_FACE), false);
    is(rt, inherits(None, Some(after), FRONT_STICKY), false);
    is(rt, inherits(Some(after), Some(before), FACE), true);
}

#[test]
fn the_preceding_value_is_taken_where_both_offer_one(rt: HostRuntime) {
    let alloc = rt.alloc();
    let before = with(&rt, PropSet::empty(alloc), FACE, &BOLD);
    let after = faces(&rt, alloc, FRONT_STICKY, &PropVal::Truth, &ITALIC);
    let set = inherit(&rt, alloc, Some(&before), Some(&after));
    is(&rt, set, (2, 30, 31));
    are_inherited(&rt, &before, &after);
}

#[test]
fn the_end_of_the_text_offers_nothing(rt: HostRuntime) {
    let alloc = rt.alloc();
    let offered = PropVal::Syms(just(&rt, alloc, FACE));
    let after = faces(&rt, alloc, FRONT_STICKY, &offered, &ITALIC);
    is(&rt, inherit(&rt, alloc, None, Some(&after)), (1, 31, 0));
    is(&rt, inherit(&rt, alloc, None, None), (0, 0, 0));
}

#[test]
fn neither_t_nor_a_list_counts_as_absent(rt: HostRuntime) {
    let alloc = rt.alloc();
    let before = faces(&rt, alloc, REAR_NONSTICKY, &PropVal::Int(1), &BOLD);
    let after = faces(&rt, alloc, FRONT_STICKY, &PropVal::Sym(FACE), &ITALIC);
    is(&rt, inherit(&rt, alloc, Some(&before), None), (2, 30, 30));
    is(&rt, inherit(&rt, alloc, None, Some(&after)), (0, 0, 0));
}

#[test]
fn a_character_that_withholds_all_gives_nothing(rt: HostRuntime) {
    let alloc = rt.alloc();
    let before = faces(&rt, alloc, REAR_NONSTICKY, &PropVal::Truth, &BOLD);
    is(&rt, inherit(&rt, alloc, Some(&before), None), (0, 0, 0));
}
