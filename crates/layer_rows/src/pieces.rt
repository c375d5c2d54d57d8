//! Pieces of text with their properties, and their copies.

use crate::checking::{holds, is};
use crate::lists::{number, with};
use ek_types::{Ch, Chars, Piece, PropSet, PropVal, Sym};
use std::alloc::Global;
use std::process::Abort;

pub const FACE: Sym = Sym(14);

/// The face of a set, and 0 where it has none.
pub fn face_of(set: &PropSet) -> i64 {
    number(set.get(FACE)).unwrap_or(0)
}

/// So many letters without properties.
pub fn bare_text(rt: &impl Abort, alloc: Global, size: usize) -> Piece {
    let mut text = Chars::new(alloc);
    for _ in 0..size {
        text.push(Ch::Scalar('x')).expect(rt, "memory");
    }
    Piece::plain(alloc, text).expect(rt, "memory")
}

/// The set with a face, or none where it is 0.
pub fn faced(rt: &impl Abort, alloc: Global, face: i64) -> PropSet {
    let set = PropSet::empty(alloc);
    if face == 0 {
        return set;
    }
    with(rt, set, FACE, &PropVal::Int(face))
}

/// Gives a part a face, or none where it is 0.
pub fn paint(rt: &impl Abort, alloc: Global, piece: &mut Piece, from: usize, to: usize, face: i64) {
    assert!(rt; from <= to && to <= piece.len());
    piece
        .put(from, to, &faced(rt, alloc, face))
        .expect(rt, "memory");
}

/// A part that is given a face, and the faces of all characters behind that.
struct Part {
    from: usize,
    to: usize,
    face: i64,
    faces: [i64; 8],
}

const PARTS: [Part; 5] = [
    Part {
        from: 1,
        to: 6,
        face: 1,
        faces: [0, 1, 1, 1, 1, 1, 0, 0],
    },
    Part {
        from: 3,
        to: 4,
        face: 2,
        faces: [0, 1, 1, 2, 1, 1, 0, 0],
    },
    Part {
        from: 5,
        to: 8,
        face: 2,
        faces: [0, 1, 1, 2, 1, 2, 2, 2],
    },
    Part {
        from: 0,
        to: 4,
        face: 0,
        faces: [0, 0, 0, 0, 1, 2, 2, 2],
    },
    Part {
        from: 4,
        to: 4,
        face: 1,
        faces: [0, 0, 0, 0, 1, 2, 2, 2],
    },
];

/// The properties of a character.
fn set<'a>(rt: &impl Abort, piece: &'a Piece, i: usize) -> &'a PropSet {
    assert!(rt; i < piece.len());
    piece.props(i)
}

/// The characters of a piece have these faces.
fn are(rt: &impl Abort, piece: &Piece, expected: &[i64]) {
    is(rt, piece.len(), expected.len());
    for i in 0..expected.len() {
        is(rt, face_of(set(rt, piece, i)), expected[i]);
    }
}

/// The characters of a piece have these faces, and so have those of a copy.
fn are_copied(rt: &impl Abort, piece: &Piece, expected: &[i64]) {
    are(rt, piece, expected);
    let copy = piece.copy().expect(rt, "memory");
    are(rt, &copy, expected);
}

#[test]
fn parts_of_a_piece_have_the_properties_given_last(rt: HostRuntime) {
    let alloc = rt.alloc();
    let mut piece = bare_text(&rt, alloc, 8);
    for part in PARTS.iter() {
        paint(&rt, alloc, &mut piece, part.from, part.to, part.face);
        are_copied(&rt, &piece, part.faces.as_slice());
    }
}

/// Where the run of a character ends.
fn run_end(rt: &impl Abort, piece: &Piece, i: usize) -> usize {
    assert!(rt; i < piece.len());
    piece.run_end(i)
}

/// Letters of which a part has a face.
fn painted(
    rt: &impl Abort,
    alloc: Global,
    size: usize,
    from: usize,
    to: usize,
    face: i64,
) -> Piece {
    let mut piece = bare_text(rt, alloc, size);
    paint(rt, alloc, &mut piece, from, to, face);
    piece
}

/// A piece whose first two letters of three have a face, and behind it one whose second has another.
fn joined(rt: &impl Abort, alloc: Global) -> Piece {
    let mut piece = painted(rt, alloc, 3, 0, 2, 1);
    let more = painted(rt, alloc, 2, 1, 2, 2);
    piece.append(&more).expect(rt, "memory");
    piece
}

/// Whether two characters have the same set.
fn same_sets(rt: &impl Abort, piece: &Piece, i: usize, j: usize) -> bool {
    set(rt, piece, i).same(set(rt, piece, j))
}

fn is_joined(rt: &impl Abort, alloc: Global, piece: &Piece) {
    are(rt, piece, &[1, 1, 0, 0, 2]);
    is(rt, run_end(rt, piece, 0), 2);
    is(rt, run_end(rt, piece, 4), 5);
    holds(rt, piece.text().same(bare_text(rt, alloc, 5).text()));
    is(rt, same_sets(rt, piece, 0, 1), true);
    is(rt, same_sets(rt, piece, 0, 2), false);
}

#[test]
fn a_piece_put_behind_another_keeps_its_runs(rt: HostRuntime) {
    let piece = joined(&rt, rt.alloc());
    is_joined(&rt, rt.alloc(), &piece);
}

#[test]
fn a_copied_run_has_its_end_and_its_set(rt: HostRuntime) {
    let piece = painted(&rt, rt.alloc(), 3, 0, 3, 1);
    let copy = piece.copy().expect(&rt, "memory");
    is(&rt, run_end(&rt, &copy, 0), 3);
    is(&rt, set(&rt, &copy, 0).len(), 1);
}

/// Two letters of three with a face, shared.
fn shared_text(rt: &impl Abort, alloc: Global) -> Piece {
    painted(rt, alloc, 3, 0, 2, 1)
        .shared(alloc)
        .expect(rt, "memory")
}

/// A copy of a piece, to which the piece is appended.
fn twice(rt: &impl Abort, piece: &Piece) -> Piece {
    let mut copy = piece.copy().expect(rt, "memory");
    copy.append(piece).expect(rt, "memory");
    copy
}

/// A copy of a piece, shared anew and with another face from its second letter on.
fn repainted(rt: &impl Abort, alloc: Global, piece: &Piece) -> Piece {
    let copy = piece.copy().expect(rt, "memory");
    let mut shared = copy.shared(alloc).expect(rt, "memory");
    paint(rt, alloc, &mut shared, 1, 3, 2);
    shared
}

#[test]
fn copies_of_a_shared_piece_are_changed_alone(rt: HostRuntime) {
    let shared = shared_text(&rt, rt.alloc());
    let first = twice(&rt, &shared);
    let second = repainted(&rt, rt.alloc(), &shared);
    are(&rt, &shared, &[1, 1, 0]);
    are(&rt, &first, &[1, 1, 0, 1, 1, 0]);
    are(&rt, &second, &[1, 2, 2]);
}

/// Appends a piece to a copy of it, and gives the length.
fn doubled(rt: &impl Abort, piece: &Piece) -> usize {
    twice(rt, piece).len()
}

/// The length of the text that is shared with a piece, and of a piece that is made of that.
fn shared_lengths(rt: &impl Abort, alloc: Global, piece: &Piece) -> (usize, usize) {
    let text = piece.shared_text().expect(rt, "memory");
    let made = Piece::sharing(alloc, &text).expect(rt, "memory");
    (text.as_ref().len(), doubled(rt, &made))
}

/// So many letters, bare and shared, are shared once more; twice as many are in a doubled piece.
fn are_shared(rt: &impl Abort, alloc: Global, size: usize, twice: usize) {
    let piece = bare_text(rt, alloc, size);
    is(rt, shared_lengths(rt, alloc, &piece), (size, twice));
    let shared = piece.shared(alloc).expect(rt, "memory");
    is(rt, shared_lengths(rt, alloc, &shared), (size, twice));
    is(rt, doubled(rt, &shared), twice);
}

#[test]
fn a_text_is_shared_whether_short_or_long(rt: HostRuntime) {
    for size in [1, 63, 64, 100] {
        are_shared(&rt, rt.alloc(), size, 2 * size);
    }
}
