//! Worked cases of narrowing and of kept places.

use crate::checking::is;
use narrow_region::{Bounds, Saved, SavedStack};
use std::alloc::Global;
use std::process::Abort;

fn bounds(rt: &impl Abort, start: usize, end: usize, point: usize) -> Bounds {
    assert!(rt; start <= point && point <= end);
    Bounds { start, end, point }
}

/// The portion has these bounds and this point.
fn are(rt: &impl Abort, portion: &Bounds, start: usize, end: usize, point: usize) {
    is(rt, *portion, bounds(rt, start, end, point));
}

#[test]
fn point_goes_to_the_nearer_end(rt: HostRuntime) {
    let mut portion = bounds(&rt, 1, 3, 2);
    portion.goto(9);
    are(&rt, &portion, 1, 3, 3);
    portion.goto(3);
    are(&rt, &portion, 1, 3, 2);
    portion.goto(1);
    are(&rt, &portion, 1, 3, 1);
    portion.goto(i64::MIN);
    are(&rt, &portion, 1, 3, 1);
}

#[test]
fn a_narrowing_takes_point_along(rt: HostRuntime) {
    let mut portion = bounds(&rt, 0, 6, 6);
    portion.narrow(1, 3);
    are(&rt, &portion, 1, 3, 3);
}

/// Characters are put in at a place.
fn put_in(rt: &impl Abort, portion: &mut Bounds, at: usize, n: usize) {
    assert!(rt; portion.end < 100 && n < 100);
    portion.note_insert(at, n, true);
}

#[test]
fn text_outside_the_portion_stays_outside(rt: HostRuntime) {
    let mut portion = bounds(&rt, 1, 3, 3);
    put_in(&rt, &mut portion, 6, 2);
    are(&rt, &portion, 1, 3, 3);
    put_in(&rt, &mut portion, 3, 2);
    are(&rt, &portion, 1, 5, 5);
    put_in(&rt, &mut portion, 1, 1);
    are(&rt, &portion, 1, 6, 6);
    put_in(&rt, &mut portion, 0, 1);
    are(&rt, &portion, 2, 7, 7);
    portion.note_delete(1, 4);
    are(&rt, &portion, 1, 4, 4);
}

/// Kept places of each kind, behind two insertions.
fn kept_places(rt: &impl Abort, alloc: Global) -> SavedStack {
    let mut kept = SavedStack::new(alloc);
    kept.push(Saved::Restriction(0, Some((1, 3))))
        .expect(rt, "memory");
    kept.push(Saved::Restriction(0, None)).expect(rt, "memory");
    kept.push(Saved::Restriction(1, Some((1, 3))))
        .expect(rt, "memory");
    kept.push(Saved::Excursion(0, 3)).expect(rt, "memory");
    kept.push(Saved::Change(0, 3, 3)).expect(rt, "memory");
    kept.note_insert(0, 3, 2);
    kept.note_insert(0, 1, 1);
    kept
}

/// All that is kept is this, the last first.
fn are_kept(rt: &impl Abort, kept: &mut SavedStack, expected: &[Saved]) {
    for i in 0..expected.len() {
        is(rt, kept.pop(), Some(expected[i]));
    }
    is(rt, kept.pop(), None);
}

const BEHIND_INSERTIONS: [Saved; 5] = [
    Saved::Change(0, 4, 4),
    Saved::Excursion(0, 4),
    Saved::Restriction(1, Some((1, 3))),
    Saved::Restriction(0, None),
    Saved::Restriction(0, Some((1, 6))),
];

const BEHIND_A_DELETION: [Saved; 5] = [
    Saved::Change(0, 2, 2),
    Saved::Excursion(0, 2),
    Saved::Restriction(1, Some((1, 3))),
    Saved::Restriction(0, None),
    Saved::Restriction(0, Some((1, 3))),
];

#[test]
fn the_end_of_a_kept_restriction_advances(rt: HostRuntime) {
    let mut kept = kept_places(&rt, rt.alloc());
    let mut copy = kept.copy().expect(&rt, "memory");
    are_kept(&rt, &mut kept, &BEHIND_INSERTIONS);
    copy.note_delete(0, 2, 5);
    are_kept(&rt, &mut copy, &BEHIND_A_DELETION);
}
