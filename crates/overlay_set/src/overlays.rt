//! All overlays of a run, by number.
ghost use Rattle.std.specs.Prelude.{◌≡◌, ℕ, ◌+◌, ◌-◌, ◌^◌, ◌<◌, ◌≤◌, false, [], ◌∷◌, ◌++◌, length};
ghost use Rattle.std.specs.Prelude.{map, Some, None, option_map, slice_set, All, OnOk, OnErr, IfOk};
ghost use Rattle.text_model.specs.Properties.{get, put};
ghost use Rattle.text_model.specs.Marks.{Overlay, move_overlay, evaporated, overlay_left};
ghost use Rattle.text_model.specs.Marks.{insertion, deletion};
ghost use Rattle.text_model.specs.OverlayQuestions.{overlays_where, covers, lies_within, winner};
ghost use Rattle.text_model.specs.OverlayQuestions.{next_end, previous_end};
ghost use Rattle.ek_types.specs.Property.{prop_of};
ghost use Rattle.ek_types.specs.Listing.{items_of};
ghost use Rattle.overlay_set.specs.Numbered.{overlay_at, span_of, span_at, given_of, numbers_of};
ghost use Rattle.overlay_set.specs.Numbered.{next_or, previous_or, HasRoomFor};
ghost use Rattle.overlay_set.specs.Slots.{test_of, with_span, moved_by, CanMoveIn};
ghost use Rattle.overlay_set.specs.Entries.{HoldSame};

use crate::bounds::Entry;
use crate::moves::{move_in, put, take_out};
use crate::slot::{Change, Question, Slot};
use crate::tree::{Node, Tree, alone, with_key};
use ek_types::{ListOf, Mem, PropSet, PropVal, Sym};
use std::alloc::Global;
use std::marker::Model;

/// Numbers of overlays, which rise.
pub type Numbers = ListOf<u32>;

/// Overlays by number, from 0 in the order in which they were made (GNU Emacs Lisp Reference Manual, Overlays). Places
/// count from 0. Those that stand somewhere are in a tree, which has their stretches.
#[derive(Drop)]
pub struct Overlays {
    slots: Vec<Slot>,
    tree: Tree,
}

impl Model for Overlays {
    ghost use Rattle.std.specs.Prelude.{List, length, ◌<◌, ◌^◌};
    ghost use Rattle.text_model.specs.Marks.{Overlay};

    ghost Value = { List Overlay };

    ghost use Rattle.overlay_set.specs.Seen.{seen_from};
    ghost use Rattle.overlay_set.specs.Entries.{HoldSame, entries_from};

    ghost view = { λ a. seen_from a.tree 0 a.slots.items };

    ghost invariant = { λ a. (length a.slots.items < 2 ^ 32) ×
        HoldSame a.tree (entries_from 0 (seen_from a.tree 0 a.slots.items)) };
}

impl Overlays {
    /// No overlays yet, and no memory taken.
    pub fn new(alloc: Global) -> Overlays
        ensures { result ≡ [] }
    {
        Overlays {
            slots: Vec::new(alloc),
            tree: Tree::new(),
        }
    }

    /// How many were made.
    pub fn count(&self) -> u32
        ensures { result ≡ length self.now }
    {
        self.slots.len() as u32
    }

    /// Makes an overlay without properties from place `from` to place `to` of a buffer, and gives its number. `front`
    /// and `rear` say whether its start and its end go behind text put in just there. A refusal leaves all overlays as
    /// they were.
    pub fn make(&mut self, buffer: u32, from: usize, to: usize, front: bool, rear: bool) -> Mem<u32>
        requires room { length self.old < 2 ^ 32 - 1 }
        requires ordered { from ≤ to }
        ensures number { IfOk result (λ k. k ≡ length self.old) }
        ensures ok { OnOk result (self.new ≡ self.old ++
            record {
              span = Some (span_at (buffer, from, to));
              front_advance = front;
              rear_advance = rear;
              props = [];
            } ∷ []) }
        ensures err { OnErr result (self.new ≡ self.old) }
    {
        let alloc = *self.slots.allocator();
        let number = self.slots.len() as u32;
        let stretch = (buffer, from, to);
        let entry = Entry { number, stretch };
        self.slots.reserve(1)?;
        let key = self.tree.key_for(entry);
        let node = alone(alloc, entry, key)?;
        put(&mut self.tree, node);
        self.slots.push_reserved(Slot {
            key,
            front,
            rear,
            props: PropSet::empty(alloc),
        });
        Ok(number)
    }

    /// Puts overlay `k` from place `from` to place `to` of a buffer. It keeps its properties, and whether its ends
    /// advance. A refusal leaves it where it was.
    pub fn shift(&mut self, k: u32, buffer: u32, from: usize, to: usize) -> Mem<()>
        requires made { k < length self.old }
        requires ordered { from ≤ to }
        ensures ok { OnOk result (self.new ≡ slice_set self.old k
            (record (overlay_at self.old k) { span = Some (span_at (buffer, from, to)) })) }
        ensures err { OnErr result (self.new ≡ self.old) }
    {
        let stretch = (buffer, from, to);
        let node = alone(*self.slots.allocator(), Entry { number: k, stretch }, 0)?;
        self.remove(k);
        self.stand(node);
        Ok(())
    }

    /// Puts an overlay that stands nowhere in the stretch of an entry.
    fn stand(&mut self, node: Box<Node>)
        requires made { node.value.entry.number < length self.old }
        requires away { (overlay_at self.old node.value.entry.number).span ≡ None }
        ensures { self.new ≡ slice_set self.old node.value.entry.number
            (with_span (overlay_at self.old node.value.entry.number) node.value.entry.stretch) }
    {
        let number = node.entry.number;
        let key = self.tree.key_for(node.entry);
        put(&mut self.tree, with_key(node, key));
        self.slots[number as usize].key = key;
    }

    /// Takes overlay `k` out of its buffer ("Managing Overlays" there). It keeps its properties, and whether its ends
    /// advance.
    pub fn remove(&mut self, k: u32)
        requires { k < length self.old }
        ensures { self.new ≡ slice_set self.old k (record (overlay_at self.old k) { span = None }) }
    {
        let span = self.span(k);
        take_out(&mut self.tree, k, span);
    }

    /// Where overlay `k` stands: a buffer with two places in it, or nowhere.
    pub fn span(&self, k: u32) -> Option<(u32, usize, usize)>
        requires { k < length self.now }
        ensures { span_of result ≡ (overlay_at self.now k).span }
    {
        self.tree.stretch(k, self.slots[k as usize].key)
    }

    /// Gives overlay `k` a property, or takes it away where `v` is none or nil. The overlay stays where it is, also
    /// where it is empty and now evaporates. A refusal leaves it as it was.
    pub fn put(&mut self, k: u32, name: Sym, v: Option<&PropVal>) -> Mem<()>
        requires { k < length self.old }
        ensures ok { OnOk result (self.new ≡ slice_set self.old k
            (record (overlay_at self.old k) {
              props = put (overlay_at self.old k).props name.0
                  (given_of (option_map (λ p. prop_of p.now) v.entry));
            })) }
        ensures err { OnErr result (self.new ≡ self.old) }
    {
        let slot = &mut self.slots[k as usize];
        slot.props = slot.props_with(name, v)?;
        Ok(())
    }

    /// The properties of overlay `k`.
    pub fn props(&self, k: u32) -> &PropSet
        requires { k < length self.now }
        ensures { result.now ≡ (overlay_at self.now k).props }
    {
        &self.slots[k as usize].props
    }

    /// The value of a property of overlay `k`, or `None` where the overlay hasn't it.
    pub fn get(&self, k: u32, name: Sym) -> Option<&PropVal>
        requires { k < length self.now }
        ensures { option_map (λ v. prop_of v.now) result ≡ get (overlay_at self.now k).props name.0 }
    {
        self.slots[k as usize].props.get(name)
    }

    /// The overlays that cover place `i` of a buffer: they begin there or before and end behind it ("Finding
    /// Overlays").
    pub fn at(&self, buffer: u32, i: usize) -> Mem<Numbers>
        ensures { IfOk result (λ numbers. items_of numbers ≡
            numbers_of (overlays_where buffer (covers (i + 1)) self.now)) }
    {
        self.found(buffer, Question::At { i })
    }

    /// The overlays of a buffer that have a character between place `from` and place `to`, or cover the place where
    /// these are one; and the empty ones at `from`, between the two, and at `to` where this is the `end` of the
    /// accessible portion ("Finding Overlays").
    pub fn within(&self, buffer: u32, from: usize, to: usize, end: usize) -> Mem<Numbers>
        requires { from ≤ to }
        ensures { IfOk result (λ numbers. items_of numbers ≡
            numbers_of (overlays_where buffer (lies_within (from + 1) (to + 1) (end + 1))
            self.now)) }
    {
        self.found(buffer, Question::Within { from, to, end })
    }

    /// The overlays of a buffer that pass a test.
    fn found(&self, buffer: u32, question: Question) -> Mem<Numbers>
        ensures { IfOk result (λ numbers. items_of numbers ≡
            numbers_of (overlays_where buffer (test_of question) self.now)) }
    {
        let mut numbers = Vec::new(*self.slots.allocator());
        self.tree.found(buffer, question, &mut numbers)?;
        numbers.sort_unstable();
        Ok(Numbers::of(numbers))
    }

    /// Of the overlays that cover place `i` of a buffer and have a property, the one that wins: by priority (0 where
    /// none is given as a number), then by the larger start, then by the smaller end, then by the higher number.
    pub fn winner(&self, buffer: u32, i: usize, name: Sym) -> Option<u32>
        ensures { result ≡ option_map (λ o. o.0) (winner buffer (i + 1) name.0 self.now) }
    {
        self.tree.winner(self.slots.as_slice(), buffer, i, name)
    }

    /// The first place behind `i` where an overlay of a buffer begins or ends, or `None` where there is none.
    pub fn next_change(&self, buffer: u32, i: usize) -> Option<usize>
        ensures { (last : ℕ) → next_end buffer (i + 1) last self.now ≡ next_or last result }
    {
        self.tree.next_change(buffer, i)
    }

    /// The last place before `i` where an overlay of a buffer begins or ends, or `None` where there is none.
    pub fn prev_change(&self, buffer: u32, i: usize) -> Option<usize>
        ensures { (first : ℕ) → previous_end buffer (i + 1) first self.now ≡ previous_or first result }
    {
        self.tree.prev_change(buffer, i)
    }

    /// `n` characters were put in at `at` of a buffer: the starts and ends of its overlays behind `at` go on by `n`,
    /// and so do those just there which advance, or all of these where `all` is said. The start of an empty overlay
    /// doesn't leave its end behind.
    pub fn note_insert(&mut self, buffer: u32, at: usize, n: usize, all: bool)
        requires { All (HasRoomFor buffer n) self.old }
        ensures { self.new ≡ map (move_overlay buffer all (insertion at n)) self.old }
    {
        self.note(buffer, Change::Insertion { at, n, all });
    }

    /// The part from `from` to `to` of a buffer was deleted: the starts and ends of its overlays in the part go to
    /// `from`, and those behind it come nearer. Its overlays that are empty then and evaporate are taken out of it
    /// ("Overlay Properties").
    pub fn note_delete(&mut self, buffer: u32, from: usize, to: usize)
        requires { from ≤ to }
        ensures { self.new ≡ map (λ o. evaporated buffer
            (move_overlay buffer false (deletion from to) o)) self.old }
    {
        self.note(buffer, Change::Deletion { from, to });
    }

    /// A buffer's text was changed: its overlays move.
    fn note(&mut self, buffer: u32, change: Change)
        requires { All (CanMoveIn buffer change) self.old }
        ensures { self.new ≡ map (moved_by buffer change) self.old }
    {
        move_in(&mut self.tree, self.slots.as_slice(), buffer, change);
    }

    /// A buffer was killed: its overlays have no buffer. They keep their properties.
    pub fn drop_buffer(&mut self, buffer: u32)
        ensures { self.new ≡ map (overlay_left buffer) self.old }
    {
        self.note(buffer, Change::Killed);
    }

    /// Overlays of their own that stand and look alike.
    pub fn copy(&self) -> Mem<Overlays>
        ensures { IfOk result (λ copy. copy ≡ self.now) }
    {
        let mut slots = Vec::new(*self.slots.allocator());
        for slot in &self.slots {
            slots.push(slot.copy()?)?;
        }
        let tree = self.tree.copy(*self.slots.allocator())?;
        Ok(Overlays { slots, tree })
    }
}
