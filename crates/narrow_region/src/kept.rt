//! Kept places: what the blocks of a script and a change under way come back to.
ghost use Rattle.std.specs.Prelude.{◌≡◌, ◌↔◌, ◌≤◌, List, [], ◌∷◌, map, All, IfOk, OnOk, OnErr};
ghost use Rattle.std.specs.Prelude.{IfSome, IfNone, IsNone, option_map};
ghost use Rattle.text_model.specs.Marks.{move_saved, insertion, deletion};
ghost use Rattle.narrow_region.specs.Kept.{head_of, kept_of, HasRoomFor, IsOrdered};

use ek_types::{Mem, place_after_delete, place_after_insert};
use std::alloc::Global;
use std::marker::Model;

/// What a block keeps of its buffer (GNU Emacs Lisp Reference Manual, Excursions and Narrowing), or a change of its
/// ends. The number of the buffer comes first, then places that count from 0.
#[derive(Clone, Copy, Debug, PartialEq, Eq)]
pub enum Saved {
    /// A buffer and point in it.
    Excursion(u32, usize),
    /// The ends of the accessible portion; none where the buffer was widened.
    Restriction(u32, Option<(usize, usize)>),
    /// The ends of a change that is prepared and not yet committed.
    Change(u32, usize, usize),
}

impl Saved {
    ghost use Rattle.std.specs.Prelude.{◌≡◌, ◌≤◌};

    /// The kept places after `n` characters were put in at `at` of a buffer: the end of an accessible portion advances
    /// at the place, and nothing else does.
    fn after_insert(self, buffer: u32, at: usize, n: usize) -> Saved
        requires { HasRoomFor buffer n (kept_of self) }
        ensures { kept_of result ≡ move_saved buffer (insertion at n) (kept_of self) }
    {
        match self {
            Saved::Excursion(b, point) if b == buffer => {
                Saved::Excursion(b, place_after_insert(at, n, false, point))
            }
            Saved::Restriction(b, Some((start, end))) if b == buffer => {
                let start = place_after_insert(at, n, false, start);
                let end = place_after_insert(at, n, true, end);
                Saved::Restriction(b, Some((start, end)))
            }
            Saved::Change(b, from, to) if b == buffer => {
                let from = place_after_insert(at, n, false, from);
                let to = place_after_insert(at, n, false, to);
                Saved::Change(b, from, to)
            }
            other => other,
        }
    }

    /// The kept places after the part from `from` to `to` of a buffer was deleted.
    fn after_delete(self, buffer: u32, from: usize, to: usize) -> Saved
        requires { from ≤ to }
        ensures { kept_of result ≡ move_saved buffer (deletion from to) (kept_of self) }
    {
        match self {
            Saved::Excursion(b, point) if b == buffer => {
                Saved::Excursion(b, place_after_delete(from, to, point))
            }
            Saved::Restriction(b, Some((start, end))) if b == buffer => {
                let start = place_after_delete(from, to, start);
                let end = place_after_delete(from, to, end);
                Saved::Restriction(b, Some((start, end)))
            }
            Saved::Change(b, first, last) if b == buffer => {
                let first = place_after_delete(from, to, first);
                let last = place_after_delete(from, to, last);
                Saved::Change(b, first, last)
            }
            other => other,
        }
    }
}

/// The kept places of a run, seen as a list with the newest first. The ends of each stand in order.
#[derive(Drop)]
pub struct SavedStack {
    items: Vec<Saved>,
}

impl Model for SavedStack {
    ghost use Rattle.std.specs.Prelude.{List, map, reverse, All};
    ghost use Rattle.text_model.specs.Marks as marks;

    ghost Value = { List marks.Saved };

    ghost use Rattle.narrow_region.specs.Kept.{kept_of, IsOrdered};

    ghost view = { λ s. reverse (map kept_of s.items.items) };

    ghost invariant = { λ s. All (λ k. IsOrdered (kept_of k)) s.items.items };
}

impl SavedStack {
    /// Nothing is kept, and no memory taken yet.
    pub fn new(alloc: Global) -> SavedStack
        ensures { result ≡ [] }
    {
        SavedStack {
            items: Vec::new(alloc),
        }
    }

    /// Keeps `s`, whose ends stand in order. A refusal leaves the stack as it was.
    pub fn push(&mut self, s: Saved) -> Mem<()>
        requires ordered { IsOrdered (kept_of s) }
        ensures ok { OnOk result (self.new ≡ kept_of s ∷ self.old) }
        ensures err { OnErr result (self.new ≡ self.old) }
    {
        self.items.push(s)?;
        Ok(())
    }

    /// What was kept last; `None` where nothing is kept.
    pub fn last(&self) -> Option<Saved>
        ensures { option_map kept_of result ≡ head_of self.now }
    {
        self.items.last().copied()
    }

    /// Takes away what was kept last, and gives it; `None` where nothing is kept.
    pub fn pop(&mut self) -> Option<Saved>
        ensures none { IsNone result ↔ (self.old ≡ []) }
        ensures newest { IfSome result (λ s. self.old ≡ kept_of s ∷ self.new) }
        ensures unchanged { IfNone result (self.new ≡ self.old) }
        ensures ordered { IfSome result (λ s. IsOrdered (kept_of s)) }
    {
        self.items.pop()
    }

    /// `n` characters were put in at `at` of a buffer: the end of a kept accessible portion advances at the place, and
    /// nothing else does.
    pub fn note_insert(&mut self, buffer: u32, at: usize, n: usize)
        requires { All (HasRoomFor buffer n) self.old }
        ensures { self.new ≡ map (move_saved buffer (insertion at n)) self.old }
    {
        for item in self.items.iter_mut() {
            *item = item.after_insert(buffer, at, n);
        }
    }

    /// The part from `from` to `to` of a buffer was deleted: its kept places in the part go to `from`, and those
    /// behind it come nearer.
    pub fn note_delete(&mut self, buffer: u32, from: usize, to: usize)
        requires { from ≤ to }
        ensures { self.new ≡ map (move_saved buffer (deletion from to)) self.old }
    {
        for item in self.items.iter_mut() {
            *item = item.after_delete(buffer, from, to);
        }
    }

    /// A stack of its own that keeps the same.
    pub fn copy(&self) -> Mem<SavedStack>
        ensures { IfOk result (λ copy. copy ≡ self.now) }
    {
        let items = Vec::from_slice(*self.items.allocator(), self.items.as_slice())?;
        Ok(SavedStack { items })
    }
}
