//! Questions to a tree of entries. A part is left aside where its bounds show that nothing in it counts. On the way down
//! the shifts add up, modulo 2^64, to what the places of a part are counted from.
ghost use Rattle.std.specs.Prelude.{◌≡◌, ℕ, ◌+◌, ◌<◌, nat_lt, All, Contains, ◌∷◌, [], ◌++◌, length, map};
ghost use Rattle.std.specs.Prelude.{filter, option_map, option_to_list, None, OnOk, IfSome};
ghost use Rattle.std.specs.List.{flat_map};
ghost use Rattle.text_model.specs.OverlayQuestions.{least, greatest};
ghost use Rattle.overlay_set.specs.Numbered.{next_or, previous_or};
ghost use Rattle.overlay_set.specs.Slots.{bare_of};
ghost use Rattle.overlay_set.specs.Entries.{numbers_in, passes, ends_at, raised, IsMade};
ghost use Rattle.overlay_set.specs.Winner.{is_stronger, stronger, strongest};

use crate::bounds::Entry;
use crate::slot::{Question, Slot, Stretch};
use crate::tree::{Link, Node, Tree};
use ek_types::{Mem, Sym};

impl Tree {
    /// Where an overlay stands. Its key leads to it where the key is right, and its number where it isn't.
    pub(crate) fn stretch(&self, number: u32, key: usize) -> Option<Stretch>
        ensures found { IfSome result (λ s. Contains self.now (record { number = number; stretch = s })) }
        ensures none { result ≡ None → All (λ e. e.number ≡ number → ⊥) self.now }
    {
        // Read so that the bounds of the nodes are known to hold.
        let _ = &self.root;
        let by_key = self.find(number, Some(key), 0);
        if by_key.is_some() {
            return by_key;
        }
        self.find(number, None, 0)
    }

    /// Where an overlay stands, in the part where the key lies if one is given.
    fn find(&self, number: u32, key: Option<usize>, base: usize) -> Option<Stretch>
        ensures found { IfSome result (λ s. Contains (map (raised base) self.now)
            (record { number = number; stretch = s })) }
        ensures none { key ≡ None → result ≡ None → All (λ e. e.number ≡ number → ⊥) self.now }
    {
        match &self.root {
            Link::Empty => None,
            Link::Full(node) => {
                let node: &Node = node;
                if !node.bounds.numbers.holds(number as usize) {
                    return None;
                }
                if key.is_some_and(|key| !node.keys.holds(key)) {
                    return None;
                }
                let by = base.wrapping_add(node.shift);
                if node.entry.number == number {
                    return Some(node.entry.raised(by).stretch);
                }
                let left = node.left.find(number, key, by);
                if left.is_some() {
                    return left;
                }
                node.right.find(number, key, by)
            }
        }
    }

    /// Adds the numbers of a buffer's entries that pass a test.
    pub(crate) fn found(&self, buffer: u32, question: Question, numbers: &mut Vec<u32>) -> Mem<()>
        ensures { OnOk result (numbers.new.items ≡ numbers.old.items ++
            numbers_in (filter (passes buffer question) self.now)) }
    {
        // Read so that the bounds of the nodes are known to hold.
        let _ = &self.root;
        self.found_from(buffer, question, 0, numbers)
    }

    /// The same where places are counted from a base.
    fn found_from(
        &self,
        buffer: u32,
        question: Question,
        base: usize,
        numbers: &mut Vec<u32>,
    ) -> Mem<()>
        ensures { OnOk result (numbers.new.items ≡ numbers.old.items ++
            numbers_in (filter (passes buffer question) (map (raised base) self.now))) }
    {
        match &self.root {
            Link::Empty => Ok(()),
            Link::Full(node) => {
                let node: &Node = node;
                let by = base.wrapping_add(node.shift);
                if !node.bounds.may_pass(buffer, question, by) {
                    return Ok(());
                }
                node.left.found_from(buffer, question, by, numbers)?;
                add_where(node.entry.raised(by), buffer, question, numbers)?;
                node.right.found_from(buffer, question, by, numbers)
            }
        }
    }

    /// Of the entries that cover a place of a buffer and have a property, the number of the one that wins.
    pub(crate) fn winner(&self, slots: &[Slot], buffer: u32, i: usize, name: Sym) -> Option<u32>
        requires { All (IsMade (length slots.now)) self.now }
        ensures { result ≡ option_map (λ e. e.number)
            (strongest buffer i name.0 (map bare_of slots.now) None self.now) }
    {
        // Read so that the bounds of the nodes are known to hold.
        let _ = &self.root;
        let mut best = None;
        self.winner_from(slots, buffer, i, name, 0, &mut best);
        Some(best?.number)
    }

    /// Puts in the place of the best so far the one that wins of it and the entries that cover a place of a buffer
    /// and have a property, where places are counted from a base.
    fn winner_from(
        &self,
        slots: &[Slot],
        buffer: u32,
        i: usize,
        name: Sym,
        base: usize,
        best: &mut Option<Entry>,
    )
        requires made { All (IsMade (length slots.now)) self.now }
        requires best { All (IsMade (length slots.now)) (option_to_list best.old) }
        ensures exact { best.new ≡ strongest buffer i name.0 (map bare_of slots.now) best.old
            (map (raised base) self.now) }
        ensures made { All (IsMade (length slots.now)) (option_to_list best.new) }
    {
        match &self.root {
            Link::Empty => {}
            Link::Full(node) => {
                let node: &Node = node;
                let by = base.wrapping_add(node.shift);
                if !node.bounds.may_pass(buffer, Question::At { i }, by) {
                    return;
                }
                node.left.winner_from(slots, buffer, i, name, by, best);
                let entry = node.entry.raised(by);
                *best = stronger_where(slots, entry, buffer, i, name, *best);
                node.right.winner_from(slots, buffer, i, name, by, best);
            }
        }
    }

    /// The nearest place behind `i` where an entry of the buffer begins or ends.
    pub(crate) fn next_change(&self, buffer: u32, i: usize) -> Option<usize>
        ensures { (last : ℕ) → next_or last result ≡
            least last (filter (λ x. nat_lt (i + 1) x) (flat_map (ends_at buffer) self.now)) }
    {
        // Read so that the bounds of the nodes are known to hold.
        let _ = &self.root;
        self.next_from(buffer, i, None, 0)
    }

    /// The nearest of these and of the nearest so far, where places are counted from a base.
    fn next_from(&self, buffer: u32, i: usize, nearest: Option<usize>, base: usize) -> Option<usize>
        ensures { (last : ℕ) → next_or last result ≡
            least (next_or last nearest) (filter (λ x. nat_lt (i + 1) x)
            (flat_map (ends_at buffer) (map (raised base) self.now))) }
    {
        match &self.root {
            Link::Empty => nearest,
            Link::Full(node) => {
                let node: &Node = node;
                let by = base.wrapping_add(node.shift);
                if !node.bounds.raised(by).may_come_next(buffer, i, nearest) {
                    return nearest;
                }
                let nearest = node.left.next_from(buffer, i, nearest, by);
                let nearest = node.entry.raised(by).nearer_next(buffer, i, nearest);
                node.right.next_from(buffer, i, nearest, by)
            }
        }
    }

    /// The nearest place before `i` where an entry of the buffer begins or ends.
    pub(crate) fn prev_change(&self, buffer: u32, i: usize) -> Option<usize>
        ensures { (first : ℕ) → previous_or first result ≡
            greatest first (filter (λ x. nat_lt x (i + 1)) (flat_map (ends_at buffer) self.now)) }
    {
        // Read so that the bounds of the nodes are known to hold.
        let _ = &self.root;
        self.prev_from(buffer, i, None, 0)
    }

    /// The nearest of these and of the nearest so far, where places are counted from a base.
    fn prev_from(&self, buffer: u32, i: usize, nearest: Option<usize>, base: usize) -> Option<usize>
        ensures { (first : ℕ) → previous_or first result ≡
            greatest (previous_or first nearest) (filter (λ x. nat_lt x (i + 1))
            (flat_map (ends_at buffer) (map (raised base) self.now))) }
    {
        match &self.root {
            Link::Empty => nearest,
            Link::Full(node) => {
                let node: &Node = node;
                let by = base.wrapping_add(node.shift);
                if !node.bounds.raised(by).may_come_before(buffer, i, nearest) {
                    return nearest;
                }
                let nearest = node.right.prev_from(buffer, i, nearest, by);
                let nearest = node.entry.raised(by).nearer_previous(buffer, i, nearest);
                node.left.prev_from(buffer, i, nearest, by)
            }
        }
    }

    /// A key for a newcomer, between those of the entries that it comes to stand between.
    pub(crate) fn key_for(&self, newcomer: Entry) -> usize {
        self.key_between(newcomer, 0, 0, usize::MAX)
    }

    /// The same, where places are counted from a base and the key lies between two others.
    fn key_between(&self, newcomer: Entry, base: usize, low: usize, high: usize) -> usize {
        match &self.root {
            Link::Empty => middle(low, high),
            Link::Full(node) => {
                let node: &Node = node;
                let by = base.wrapping_add(node.shift);
                if newcomer.comes_before(node.entry.raised(by)) {
                    node.left.key_between(newcomer, by, low, node.key)
                } else {
                    node.right.key_between(newcomer, by, node.key, high)
                }
            }
        }
    }
}

/// A key between two others. Before all and behind all the keys go on by a step, so that they last.
fn middle(low: usize, high: usize) -> usize {
    const STEP: usize = 1 << 32;
    let room = high.saturating_sub(low);
    if room < STEP || (low == 0 && high == usize::MAX) {
        low.saturating_add(room / 2)
    } else if high == usize::MAX {
        low.saturating_add(STEP / 2)
    } else if low == 0 {
        high.saturating_sub(STEP / 2)
    } else {
        low.saturating_add(room / 2)
    }
}

/// Adds the number of an entry that passes a test.
fn add_where(entry: Entry, buffer: u32, question: Question, numbers: &mut Vec<u32>) -> Mem<()>
    ensures { OnOk result (numbers.new.items ≡ numbers.old.items ++
        numbers_in (filter (passes buffer question) (entry ∷ []))) }
{
    if entry.passes(buffer, question) {
        numbers.push(entry.number)?;
    }
    Ok(())
}

/// The better of the best so far and an entry, where this covers the place and has the property.
fn stronger_where(
    slots: &[Slot],
    entry: Entry,
    buffer: u32,
    i: usize,
    name: Sym,
    best: Option<Entry>,
) -> Option<Entry>
    requires made { IsMade (length slots.now) entry }
    requires best { All (IsMade (length slots.now)) (option_to_list best) }
    ensures exact { result ≡ strongest buffer i name.0 (map bare_of slots.now) best (entry ∷ []) }
    ensures made { All (IsMade (length slots.now)) (option_to_list result) }
{
    if entry.passes(buffer, Question::At { i }) && slots[entry.number as usize].has(name) {
        Some(stronger(slots, best, entry))
    } else {
        best
    }
}

/// The one of two entries that wins, or the one where there is no other.
fn stronger(slots: &[Slot], best: Option<Entry>, entry: Entry) -> Entry
    requires best { All (IsMade (length slots.now)) (option_to_list best) }
    requires made { IsMade (length slots.now) entry }
    ensures within { IsMade (length slots.now) result }
    ensures exact { result ≡ stronger (map bare_of slots.now) best entry }
{
    match best {
        Some(other) if !wins(slots, entry, other) => other,
        _ => entry,
    }
}

/// Whether an entry wins over another.
fn wins(slots: &[Slot], entry: Entry, other: Entry) -> bool
    requires made { IsMade (length slots.now) entry }
    requires other { IsMade (length slots.now) other }
    ensures { result ≡ is_stronger (map bare_of slots.now) entry other }
{
    let (slot, rival) = (&slots[entry.number as usize], &slots[other.number as usize]);
    if other.number < entry.number {
        slot.outranks(entry.stretch, rival, other.stretch)
    } else {
        !rival.outranks(other.stretch, slot, entry.stretch)
    }
}
