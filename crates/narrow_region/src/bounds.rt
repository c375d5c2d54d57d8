//! The accessible portion of a text, and point in it.
ghost use Rattle.std.specs.Prelude.{◌≡◌, ◌+◌, ◌≤◌, true, false};
ghost use Rattle.text_model.specs.Places.{after_insert, after_delete, clip};
ghost use Rattle.narrow_region.specs.Positions.{place_of};

use ek_types::{place_after_delete, place_after_insert};

/// The accessible portion of a text, from `start` to `end`, and `point` in it (GNU Emacs Lisp Reference Manual,
/// Narrowing). Places count from 0.
#[derive(Clone, Copy, Debug, PartialEq, Eq)]
pub struct Bounds {
    pub start: usize,
    pub end: usize,
    pub point: usize,
    ghost point_after_start: { start ≤ point },
    ghost point_before_end: { point ≤ end },
}

impl Bounds {
    /// Point goes to the position `p`, which counts from 1, or to the nearer end of the accessible portion. The two ends
    /// stay.
    pub fn goto(&mut self, p: i64)
        ensures start { self.new.start ≡ self.old.start }
        ensures end { self.new.end ≡ self.old.end }
        ensures point { self.new.point ≡ clip self.old.start self.old.end (place_of p) }
    {
        let place = usize::try_from(p).map_or(0, |position| position.saturating_sub(1));
        self.point = place.min(self.end).max(self.start);
    }

    /// The part from `from` to `to` becomes the accessible portion, and point goes to the nearest place in it.
    pub fn narrow(&mut self, from: usize, to: usize)
        requires { from ≤ to }
        ensures start { self.new.start ≡ from }
        ensures end { self.new.end ≡ to }
        ensures point { self.new.point ≡ clip from to self.old.point }
    {
        *self = Bounds {
            start: from,
            end: to,
            point: self.point.min(to).max(from),
        };
    }

    /// `n` characters were put in at `at`. At the place itself the start stays, and the end advances; point does where it
    /// `advances`.
    pub fn note_insert(&mut self, at: usize, n: usize, advances: bool)
        requires { n + self.old.end ≤ usize.MAX }
        ensures start { self.new.start ≡ after_insert at n false self.old.start }
        ensures end { self.new.end ≡ after_insert at n true self.old.end }
        ensures point { self.new.point ≡ after_insert at n advances self.old.point }
    {
        *self = Bounds {
            start: place_after_insert(at, n, false, self.start),
            end: place_after_insert(at, n, true, self.end),
            point: place_after_insert(at, n, advances, self.point),
        };
    }

    /// The part from `from` to `to` was deleted: what lies in it goes to `from`, and what lies behind it comes nearer.
    pub fn note_delete(&mut self, from: usize, to: usize)
        requires { from ≤ to }
        ensures start { self.new.start ≡ after_delete from to self.old.start }
        ensures end { self.new.end ≡ after_delete from to self.old.end }
        ensures point { self.new.point ≡ after_delete from to self.old.point }
    {
        *self = Bounds {
            start: place_after_delete(from, to, self.start),
            end: place_after_delete(from, to, self.end),
            point: place_after_delete(from, to, self.point),
        };
    }
}
