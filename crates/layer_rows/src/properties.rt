//! Worked cases of property sets, and the time of many insertions.
ghost use Rattle.std.specs.Prelude.{◌≡◌, length};

use crate::checking::is;
use crate::lists::{just, with};
use crate::pieces::{FACE, bare_text, face_of, faced, paint};
use ek_types::{Piece, PropSet, PropVal, Sym, SymList};
use prop_intervals::{PropEdit, Props};
use std::alloc::Global;
use std::process::Abort;
use std::slice;

const MOUSE_FACE: Sym = Sym(21);

/// How many characters have a set.
fn size(props: &Props) -> usize
    ensures { result ≡ length props.now }
{
    props.runs().len()
}

fn at<'a>(rt: &impl Abort, props: &'a Props, i: usize) -> &'a PropSet {
    assert!(rt; i < size(props));
    props.at(i)
}

fn run_end(rt: &impl Abort, props: &Props, i: usize) -> usize {
    assert!(rt; i < size(props));
    props.run_end(i)
}

/// The next change from place `i` on, and in front of place `to`.
fn next_change(
    rt: &impl Abort,
    props: &Props,
    i: usize,
    to: usize,
    name: Option<Sym>,
) -> Option<usize> {
    assert!(rt; to <= size(props));
    props.next_change(i, to, name)
}

/// The change in front of place `to`, and behind place `from`.
fn prev_change(
    rt: &impl Abort,
    props: &Props,
    from: usize,
    to: usize,
    name: Option<Sym>,
) -> Option<usize> {
    assert!(rt; to <= size(props));
    props.prev_change(from, to, name)
}

/// Two places, and the change of a property, or of any one, that is found between them.
type Change = (usize, usize, Option<Sym>, Option<usize>);

fn are_next(rt: &impl Abort, props: &Props, rows: &[Change]) {
    for (from, to, name, place) in rows {
        is(rt, next_change(rt, props, *from, *to, *name), *place);
    }
}

fn are_previous(rt: &impl Abort, props: &Props, rows: &[Change]) {
    for (from, to, name, place) in rows {
        is(rt, prev_change(rt, props, *from, *to, *name), *place);
    }
}

/// The faces of all characters are these.
fn are(rt: &impl Abort, props: &Props, expected: &[i64]) {
    is(rt, size(props), expected.len());
    for i in 0..expected.len() {
        is(rt, face_of(at(rt, props, i)), expected[i]);
    }
}

/// A part is replaced by a text.
fn replace(rt: &impl Abort, props: &mut Props, from: usize, to: usize, text: &Piece) {
    assert!(rt; from <= to && to <= size(props));
    props
        .splice(from, to, slice::from_ref(text))
        .expect(rt, "memory");
}

/// The properties of a text alone.
fn of_text(rt: &impl Abort, alloc: Global, text: &Piece) -> Props {
    let mut props = Props::new(alloc);
    replace(rt, &mut props, 0, 0, text);
    props
}

/// A text whose part has a face.
fn part(rt: &impl Abort, alloc: Global, size: usize, from: usize, to: usize, face: i64) -> Piece {
    let mut text = bare_text(rt, alloc, size);
    paint(rt, alloc, &mut text, from, to, face);
    text
}

/// A text with a face from one place to another.
fn with_face(rt: &impl Abort, alloc: Global, size: usize, from: usize, to: usize) -> Props {
    of_text(rt, alloc, &part(rt, alloc, size, from, to, 1))
}

/// Whether a change of a text changes something.
fn changes(rt: &impl Abort, props: &mut Props, from: usize, to: usize, edit: &PropEdit) -> bool {
    assert!(rt; from <= to && to <= size(props));
    props.change(from, to, edit).expect(rt, "memory")
}

/// Whether adding a face changes something.
fn adds_face(
    rt: &impl Abort,
    alloc: Global,
    props: &mut Props,
    from: usize,
    to: usize,
    face: i64,
) -> bool {
    let add = PropEdit::Add(faced(rt, alloc, face), SymList::new(alloc));
    changes(rt, props, from, to, &add)
}

/// Changes of a text of four characters, whose second and third have a face.
const NEXT: [Change; 7] = [
    (0, 4, None, Some(1)),
    (1, 4, None, Some(3)),
    (3, 4, None, None),
    (4, 4, None, None),
    (0, 1, None, None),
    (0, 2, None, Some(1)),
    (3, 1, None, None),
];

const PREVIOUS: [Change; 7] = [
    (0, 4, None, Some(3)),
    (0, 3, None, Some(1)),
    (0, 1, None, None),
    (0, 0, None, None),
    (3, 4, None, None),
    (2, 4, None, Some(3)),
    (4, 2, None, None),
];

#[test]
fn changes_are_found_and_a_change_to_what_is_there_is_none(rt: HostRuntime) {
    let alloc = rt.alloc();
    let mut props = with_face(&rt, alloc, 4, 1, 3);
    are_next(&rt, &props, &NEXT);
    are_previous(&rt, &props, &PREVIOUS);
    is(&rt, adds_face(&rt, alloc, &mut props, 1, 3, 1), false);
    is(&rt, adds_face(&rt, alloc, &mut props, 1, 4, 1), true);
    are(&rt, &props, &[0, 1, 1, 1]);
}

/// A set of a face and one more property.
fn both_faces(rt: &impl Abort, alloc: Global) -> PropSet {
    with(rt, faced(rt, alloc, 2), MOUSE_FACE, &PropVal::Truth)
}

/// Whether replacing all properties by two faces changes something.
fn replaces(rt: &impl Abort, alloc: Global, props: &mut Props, from: usize, to: usize) -> bool {
    let replace = PropEdit::Replace(both_faces(rt, alloc));
    changes(rt, props, from, to, &replace)
}

/// Whether adding a face, and nil for the mouse face, changes something.
fn adds_nil(rt: &impl Abort, alloc: Global, props: &mut Props, from: usize, to: usize) -> bool {
    let add = PropEdit::Add(faced(rt, alloc, 3), just(rt, alloc, MOUSE_FACE));
    changes(rt, props, from, to, &add)
}

#[test]
fn adding_with_nil_takes_away(rt: HostRuntime) {
    let alloc = rt.alloc();
    let mut props = with_face(&rt, alloc, 3, 0, 2);
    is(&rt, replaces(&rt, alloc, &mut props, 1, 3), true);
    is(&rt, adds_nil(&rt, alloc, &mut props, 0, 3), true);
    are(&rt, &props, &[3, 3, 3]);
    is(&rt, at(&rt, &props, 1).len(), 1);
    is(&rt, run_end(&rt, &props, 0), 3);
}

/// Whether removing the face changes something.
fn removes(rt: &impl Abort, alloc: Global, props: &mut Props, from: usize, to: usize) -> bool {
    let remove = PropEdit::Remove(just(rt, alloc, FACE));
    changes(rt, props, from, to, &remove)
}

#[test]
fn runs_join_after_a_change_back(rt: HostRuntime) {
    let alloc = rt.alloc();
    let mut props = with_face(&rt, alloc, 3, 1, 2);
    is(&rt, run_end(&rt, &props, 0), 1);
    is(&rt, run_end(&rt, &props, 1), 2);
    is(&rt, removes(&rt, alloc, &mut props, 1, 2), true);
    is(&rt, run_end(&rt, &props, 0), 3);
    is(&rt, next_change(&rt, &props, 0, 3, None), None);
    is(&rt, removes(&rt, alloc, &mut props, 0, 3), false);
}

/// A text of four characters, of which three have a face, and the second a mouse face too.
fn with_both(rt: &impl Abort, alloc: Global) -> Props {
    let mut props = with_face(rt, alloc, 4, 0, 3);
    let mouse = with(rt, PropSet::empty(alloc), MOUSE_FACE, &PropVal::Truth);
    let add = PropEdit::Add(mouse, SymList::new(alloc));
    is(rt, changes(rt, &mut props, 1, 2, &add), true);
    props
}

const NEXT_OF_BOTH: [Change; 3] = [
    (0, 4, None, Some(1)),
    (0, 4, Some(FACE), Some(3)),
    (1, 4, Some(MOUSE_FACE), Some(2)),
];

const PREVIOUS_OF_BOTH: [Change; 3] = [
    (0, 4, Some(FACE), Some(3)),
    (0, 4, Some(MOUSE_FACE), Some(2)),
    (0, 3, Some(FACE), None),
];

#[test]
fn changes_of_one_property_pass_over_those_of_others(rt: HostRuntime) {
    let props = with_both(&rt, rt.alloc());
    are_next(&rt, &props, &NEXT_OF_BOTH);
    are_previous(&rt, &props, &PREVIOUS_OF_BOTH);
}

/// Replaces two characters in the middle by two others, and then these and one more by none.
fn replace_twice(rt: &impl Abort, alloc: Global, props: &mut Props) {
    replace(rt, props, 1, 3, &part(rt, alloc, 2, 0, 1, 2));
    are(rt, props, &[0, 2, 0, 1, 0, 0]);
    replace(rt, props, 1, 4, &bare_text(rt, alloc, 0));
    are(rt, props, &[0, 0, 0]);
    is(rt, run_end(rt, props, 0), 3);
}

#[test]
fn a_part_replaced_has_the_sets_of_its_text(rt: HostRuntime) {
    let mut props = with_face(&rt, rt.alloc(), 6, 2, 4);
    let copy = props.copy().expect(&rt, "memory");
    replace_twice(&rt, rt.alloc(), &mut props);
    are(&rt, &copy, &[0, 0, 1, 1, 0, 0]);
}

const RUNS: usize = 131_072;

/// A text of as many characters, each with a face of its own.
fn own_faces(rt: &impl Abort, alloc: Global) -> Props {
    let mut text = bare_text(rt, alloc, RUNS);
    for i in 0..RUNS {
        paint(rt, alloc, &mut text, i, i + 1, i as i64 + 1);
    }
    of_text(rt, alloc, &text)
}

/// The face that stands 65,536 places in front of the end.
fn face_near_the_end(rt: &impl Abort, props: &Props) -> i64 {
    face_of(at(rt, props, size(props).saturating_sub(65_536)))
}

#[test]
fn many_runs_follow_two_million_insertions(rt: HostRuntime) {
    let alloc = rt.alloc();
    let mut props = own_faces(&rt, alloc);
    let x = bare_text(&rt, alloc, 1);
    for _ in 0..2_000_000u32 {
        replace(&rt, &mut props, 0, 0, &x);
        is(&rt, face_near_the_end(&rt, &props), 65_537);
    }
}
