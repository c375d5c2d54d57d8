//! Worked cases of overlays. Emacs counts positions from 1, and places count from 0.
ghost use Rattle.std.specs.Prelude.{◌<◌, ◌+◌, ◌-◌, ◌^◌, All, IfOk};
ghost use Rattle.layer_rows.specs.Upto.{EndsUpto};

use crate::checking::is;
use crate::lists::number;
use ek_types::{Mem, PropVal, Sym};
use overlay_set::{Numbers, Overlays};
use std::alloc::Global;
use std::process::Abort;

const EVAPORATE: Sym = Sym(2);

const PRIORITY: Sym = Sym(3);

const FACE: Sym = Sym(14);

fn span(rt: &impl Abort, overlays: &Overlays, k: u32) -> Option<(u32, usize, usize)> {
    assert!(rt; k < overlays.count());
    overlays.span(k)
}

/// An overlay, between whose ends no insertion at them comes.
fn make(rt: &impl Abort, overlays: &mut Overlays, buffer: u32, from: usize, to: usize) -> u32 {
    assert!(rt; from <= to && overlays.count() < 100_000);
    let made = overlays.make(buffer, from, to, false, false);
    made.expect(rt, "memory")
}

fn put(rt: &impl Abort, overlays: &mut Overlays, k: u32, name: Sym, v: &PropVal) {
    assert!(rt; k < overlays.count());
    overlays.put(k, name, Some(v)).expect(rt, "memory");
}

fn are(rt: &impl Abort, numbers: Mem<Numbers>, expected: &[u32]) {
    is(rt, numbers.expect(rt, "memory").as_slice(), expected);
}

/// Overlays of these parts of buffers.
fn made(rt: &impl Abort, alloc: Global, parts: &[(u32, usize, usize)]) -> Overlays {
    let mut overlays = Overlays::new(alloc);
    for (buffer, from, to) in parts {
        make(rt, &mut overlays, *buffer, *from, *to);
    }
    overlays
}

/// All overlays stand at these parts of buffers.
fn stand_at(rt: &impl Abort, overlays: &Overlays, spans: &[Option<(u32, usize, usize)>]) {
    is(rt, overlays.count() as usize, spans.len());
    for k in 0..overlays.count() {
        is(rt, Some(&span(rt, overlays, k)), spans.get(k as usize));
    }
}

/// The overlay that wins with a face at a place of buffer 0.
fn wins(rt: &impl Abort, overlays: &Overlays, place: usize, expected: Option<u32>) {
    is(rt, overlays.winner(0, place, FACE), expected);
}

#[test]
fn an_insertion_before_markers_moves_every_end(rt: HostRuntime) {
    let mut overlays = Overlays::new(rt.alloc());
    overlays.make(0, 0, 2, false, false).expect(&rt, "memory");
    overlays.make(0, 2, 4, false, false).expect(&rt, "memory");
    overlays.note_insert(0, 2, 2, true);
    stand_at(&rt, &overlays, &[Some((0, 0, 4)), Some((0, 4, 6))]);
}

const BY_ADVANCES: [Option<(u32, usize, usize)>; 4] = [
    Some((0, 2, 2)),
    Some((0, 2, 4)),
    Some((0, 4, 4)),
    Some((0, 2, 2)),
];

#[test]
fn empty_overlays_at_an_insertion_go_by_their_advances(rt: HostRuntime) {
    let mut overlays = Overlays::new(rt.alloc());
    overlays.make(0, 2, 2, false, false).expect(&rt, "memory");
    overlays.make(0, 2, 2, false, true).expect(&rt, "memory");
    overlays.make(0, 2, 2, true, true).expect(&rt, "memory");
    overlays.make(0, 2, 2, true, false).expect(&rt, "memory");
    overlays.note_insert(0, 2, 2, false);
    stand_at(&rt, &overlays, &BY_ADVANCES);
}

#[test]
fn an_evaporating_overlay_that_becomes_empty_is_deleted(rt: HostRuntime) {
    let mut overlays = made(&rt, rt.alloc(), &[(0, 1, 3), (0, 0, 2), (0, 1, 3)]);
    put(&rt, &mut overlays, 0, EVAPORATE, &PropVal::Truth);
    put(&rt, &mut overlays, 1, EVAPORATE, &PropVal::Truth);
    overlays.note_delete(0, 1, 3);
    stand_at(&rt, &overlays, &[None, Some((0, 0, 1)), Some((0, 1, 1))]);
}

#[test]
fn the_inner_overlay_wins_until_the_outer_has_a_priority(rt: HostRuntime) {
    let mut overlays = made(&rt, rt.alloc(), &[(0, 0, 4), (0, 1, 3)]);
    put(&rt, &mut overlays, 0, FACE, &PropVal::Sym(Sym(15)));
    put(&rt, &mut overlays, 1, FACE, &PropVal::Sym(Sym(16)));
    wins(&rt, &overlays, 1, Some(1));
    put(&rt, &mut overlays, 0, PRIORITY, &PropVal::Int(1));
    wins(&rt, &overlays, 1, Some(0));
    wins(&rt, &overlays, 4, None);
    is(&rt, overlays.winner(1, 1, FACE), None);
    is(&rt, overlays.winner(0, 1, EVAPORATE), None);
}

/// Overlays of these parts of buffers, each with a face.
fn with_faces(rt: &impl Abort, alloc: Global, parts: &[(u32, usize, usize)]) -> Overlays {
    let mut overlays = made(rt, alloc, parts);
    for k in 0..overlays.count() {
        put(rt, &mut overlays, k, FACE, &PropVal::Truth);
    }
    overlays
}

#[test]
fn of_two_equal_overlays_the_later_wins(rt: HostRuntime) {
    let mut overlays = with_faces(&rt, rt.alloc(), &[(0, 1, 3), (0, 1, 3), (0, 1, 4)]);
    wins(&rt, &overlays, 2, Some(1));
    put(&rt, &mut overlays, 1, PRIORITY, &PropVal::Int(-1));
    wins(&rt, &overlays, 2, Some(0));
}

/// A region of a buffer, the end of its accessible portion, and the overlays in the region.
struct Within {
    buffer: u32,
    from: usize,
    to: usize,
    end: usize,
    numbers: &'static [u32],
}

const WITHIN: [Within; 5] = [
    Within {
        buffer: 0,
        from: 1,
        to: 3,
        end: 3,
        numbers: &[0, 1, 2],
    },
    Within {
        buffer: 0,
        from: 1,
        to: 3,
        end: 4,
        numbers: &[0, 1],
    },
    Within {
        buffer: 0,
        from: 1,
        to: 1,
        end: 3,
        numbers: &[0, 1],
    },
    Within {
        buffer: 0,
        from: 2,
        to: 3,
        end: 3,
        numbers: &[2],
    },
    Within {
        buffer: 1,
        from: 0,
        to: 3,
        end: 3,
        numbers: &[],
    },
];

fn are_within(rt: &impl Abort, overlays: &Overlays, row: &Within) {
    assert!(rt; row.from <= row.to);
    let found = overlays.within(row.buffer, row.from, row.to, row.end);
    are(rt, found, row.numbers);
}

#[test]
fn empty_overlays_stand_in_a_region_and_at_no_place(rt: HostRuntime) {
    let overlays = made(&rt, rt.alloc(), &[(0, 1, 1), (0, 0, 2), (0, 3, 3)]);
    for row in &WITHIN {
        are_within(&rt, &overlays, row);
    }
    are(&rt, overlays.at(0, 1), &[1]);
    are(&rt, overlays.at(0, 2), &[]);
}

#[test]
fn overlays_change_where_one_begins_or_ends(rt: HostRuntime) {
    let parts = [(0, 1, 1), (0, 0, 2), (0, 3, 3), (1, 1, 9)];
    let overlays = made(&rt, rt.alloc(), parts.as_slice());
    is(&rt, overlays.next_change(0, 0), Some(1));
    is(&rt, overlays.next_change(0, 2), Some(3));
    is(&rt, overlays.next_change(0, 3), None);
    is(&rt, overlays.prev_change(0, 3), Some(2));
    is(&rt, overlays.prev_change(0, 1), Some(0));
    is(&rt, overlays.prev_change(0, 0), None);
}

/// Moves an overlay to a part of a buffer.
fn shift(rt: &impl Abort, overlays: &mut Overlays, k: u32, buffer: u32, from: usize, to: usize) {
    assert!(rt; k < overlays.count() && from <= to);
    overlays.shift(k, buffer, from, to).expect(rt, "memory");
}

fn remove(rt: &impl Abort, overlays: &mut Overlays, k: u32) {
    assert!(rt; k < overlays.count());
    overlays.remove(k);
}

/// The face of an overlay, if it is a number.
fn face(rt: &impl Abort, overlays: &Overlays, k: u32) -> Option<i64> {
    assert!(rt; k < overlays.count());
    number(overlays.get(k, FACE))
}

/// How many properties an overlay has.
fn properties(rt: &impl Abort, overlays: &Overlays, k: u32) -> usize {
    assert!(rt; k < overlays.count());
    overlays.props(k).len()
}

fn take_face_away(rt: &impl Abort, overlays: &mut Overlays, k: u32) {
    assert!(rt; k < overlays.count());
    overlays.put(k, FACE, None).expect(rt, "memory");
}

/// The first two overlays lose their places, by their buffer and by themselves, and then the first loses its face.
fn lose_all(rt: &impl Abort, overlays: &mut Overlays) {
    overlays.note_delete(0, 0, 1);
    overlays.drop_buffer(1);
    remove(rt, overlays, 1);
    stand_at(rt, overlays, &[None, None]);
    is(rt, face(rt, overlays, 0), Some(7));
    take_face_away(rt, overlays, 0);
    is(rt, face(rt, overlays, 0), None);
    is(rt, properties(rt, overlays, 0), 0);
    is(rt, overlays.count(), 2);
}

#[test]
fn an_overlay_moves_to_another_buffer_and_is_killed_with_it(rt: HostRuntime) {
    let mut overlays = made(&rt, rt.alloc(), &[(0, 1, 3), (0, 1, 3)]);
    put(&rt, &mut overlays, 0, FACE, &PropVal::Int(7));
    shift(&rt, &mut overlays, 0, 1, 4, 6);
    let copy = overlays.copy().expect(&rt, "memory");
    lose_all(&rt, &mut overlays);
    stand_at(&rt, &copy, &[Some((1, 4, 6)), Some((0, 1, 3))]);
    is(&rt, properties(&rt, &copy, 0), 1);
}

/// An overlay of buffer 0 with a face.
fn with_face(rt: &impl Abort, overlays: &mut Overlays, from: usize, to: usize) {
    let k = make(rt, overlays, 0, from, to);
    put(rt, overlays, k, FACE, &PropVal::Truth);
}

#[test]
fn two_million_winners_are_found_among_many_overlays(rt: HostRuntime) {
    let mut overlays = Overlays::new(rt.alloc());
    for k in 0..65_536usize {
        with_face(&rt, &mut overlays, k, k + 1);
    }
    for i in 0..2_000_000u32 {
        let place = i % 65_536;
        wins(&rt, &overlays, place as usize, Some(place));
    }
}

#[test]
fn the_innermost_of_nested_overlays_wins(rt: HostRuntime) {
    let mut overlays = Overlays::new(rt.alloc());
    for k in 0..512usize {
        with_face(&rt, &mut overlays, k, 1_024 - k);
    }
    for i in 0..512u32 {
        wins(&rt, &overlays, i as usize, Some(i));
        wins(&rt, &overlays, 1_023 - i as usize, Some(i));
    }
}

#[test]
fn of_overlays_that_begin_together_the_shortest_wins(rt: HostRuntime) {
    let mut overlays = Overlays::new(rt.alloc());
    for k in 0..512usize {
        with_face(&rt, &mut overlays, 7, 8 + k);
    }
    for i in 0..512u32 {
        wins(&rt, &overlays, 7 + i as usize, Some(i));
    }
    wins(&rt, &overlays, 6, None);
    wins(&rt, &overlays, 519, None);
}

/// Overlays from k to k + 1.
fn apart(alloc: Global, count: usize) -> Mem<Overlays>
    requires { count < 2 ^ 32 - 1 }
    ensures { IfOk result (λ overlays. All (EndsUpto count) overlays) }
{
    let mut overlays = Overlays::new(alloc);
    for k in 0..count {
        overlays.make(0, k, k + 1, false, false)?;
    }
    Ok(overlays)
}

/// One character put in where no place is behind `most`.
fn put_in(overlays: &mut Overlays, at: usize, most: usize)
    requires upto { All (EndsUpto most) overlays.old }
    requires room { most < 2 ^ 33 }
    ensures { All (EndsUpto (most + 1)) overlays.new }
{
    overlays.note_insert(0, at, 1, false);
}

#[test]
fn many_overlays_follow_a_hundred_thousand_insertions(rt: HostRuntime) {
    let mut overlays = apart(rt.alloc(), 65_536).expect(&rt, "memory");
    for i in 0..100_000usize {
        put_in(&mut overlays, 0, 65_536 + i);
    }
    is(&rt, span(&rt, &overlays, 0), Some((0, 0, 100_001)));
    for k in 1..65_536u32 {
        let from = 100_000 + k as usize;
        is(&rt, span(&rt, &overlays, k), Some((0, from, from + 1)));
    }
}
