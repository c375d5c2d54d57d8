//! Changes of a tree of entries. A part that a change can't touch is left as it is, and one that moves as one gets a
//! shift.
ghost use Rattle.std.specs.Prelude.{◌≡◌, ℕ, false, ◌<◌, All, ◌∷◌, ◌++◌, length, map, List, Some};
ghost use Rattle.std.specs.List.{flat_map};
ghost use Rattle.text_model.specs.Marks.{Overlay};
ghost use Rattle.overlay_set.specs.Numbered.{span_of};
ghost use Rattle.overlay_set.specs.Slots.{bare_of};
ghost use Rattle.overlay_set.specs.Entries.{HoldSame, IsMade, entry_of, raised, without, without_all};
ghost use Rattle.overlay_set.specs.Moves.{CanMoveEntry, touches, moved_entry};

use crate::balance::{insert, join, merge};
use crate::bounds::Entry;
use crate::slot::{Change, Slot, Stretch};
use crate::tree::{Link, Node, Tree, take_sides};
use std::mem;

impl Tree {
    /// Whether an entry may be the given one.
    fn may_hold(&self, entry: Entry) -> bool
        ensures { result ≡ false → without entry self.now ≡ self.now }
    {
        match &self.root {
            Link::Empty => false,
            Link::Full(node) => {
                let node: &Node = node;
                node.bounds.raised(node.shift).may_hold(entry)
            }
        }
    }

    /// Whether a change of the buffer may move an entry.
    fn may_be_touched(&self, buffer: u32, change: Change) -> bool
        ensures { result ≡ false → All (λ e. touches buffer change e ≡ false) self.now }
    {
        match &self.root {
            Link::Empty => false,
            Link::Full(node) => {
                let node: &Node = node;
                node.bounds
                    .raised(node.shift)
                    .may_be_touched(buffer, change)
            }
        }
    }

    /// How far a change of the buffer moves all entries alike, modulo 2^64, where the bounds show that it does.
    fn carry(&self, buffer: u32, change: Change) -> Option<usize>
        requires { All (CanMoveEntry buffer change) self.now }
        ensures { (by : ℕ) → result ≡ Some by → (os : List Overlay) →
            map (raised by) self.now ≡ flat_map (moved_entry buffer change os) self.now }
    {
        match &self.root {
            Link::Empty => None,
            Link::Full(node) => {
                let node: &Node = node;
                node.bounds.raised(node.shift).carry(buffer, change)
            }
        }
    }
}

/// Puts an entry into a tree.
pub(crate) fn put(tree: &mut Tree, node: Box<Node>)
    ensures { HoldSame tree.new (node.value.entry ∷ tree.old) }
{
    let old = mem::replace(tree, Tree::new());
    *tree = insert(old, node);
}

/// Takes the entry of an overlay out of a tree, where it stands somewhere.
pub(crate) fn take_out(tree: &mut Tree, number: u32, span: Option<Stretch>)
    ensures { tree.new ≡ without_all (entry_of number (span_of span)) tree.old }
{
    if let Some(stretch) = span {
        let old = mem::replace(tree, Tree::new());
        *tree = all_but(old, Entry { number, stretch });
    }
}

/// The entries but one.
fn all_but(tree: Tree, gone: Entry) -> Tree
    ensures { result ≡ without gone tree }
{
    if !tree.may_hold(gone) {
        return tree;
    }
    match tree.root {
        Link::Empty => Tree::new(),
        Link::Full(mut node) => {
            let (left, right) = take_sides(&mut node);
            let left = all_but(left, gone);
            let right = all_but(right, gone);
            if node.entry.is_same(gone) {
                merge(left, right)
            } else {
                join(left, node, right)
            }
        }
    }
}

/// Moves the entries of a tree at a change of a buffer.
pub(crate) fn move_in(tree: &mut Tree, slots: &[Slot], buffer: u32, change: Change)
    requires made { All (IsMade (length slots.now)) tree.old }
    requires can { All (CanMoveEntry buffer change) tree.old }
    ensures { tree.new ≡ flat_map (moved_entry buffer change (map bare_of slots.now)) tree.old }
{
    let old = mem::replace(tree, Tree::new());
    *tree = moved(old, slots, buffer, change);
}

/// The entries after a change of a buffer.
fn moved(tree: Tree, slots: &[Slot], buffer: u32, change: Change) -> Tree
    requires made { All (IsMade (length slots.now)) tree }
    requires can { All (CanMoveEntry buffer change) tree }
    ensures { result ≡ flat_map (moved_entry buffer change (map bare_of slots.now)) tree }
{
    if !tree.may_be_touched(buffer, change) {
        return tree;
    }
    if let Some(by) = tree.carry(buffer, change) {
        return tree.raised(by);
    }
    match tree.root {
        Link::Empty => Tree::new(),
        Link::Full(mut node) => {
            let (left, right) = take_sides(&mut node);
            let left = moved(left, slots, buffer, change);
            let stretch = moved_stretch(slots, node.entry, buffer, change);
            let right = moved(right, slots, buffer, change);
            put_between(left, node, stretch, right)
        }
    }
}

/// Where an entry goes at a change of a buffer, if anywhere.
fn moved_stretch(slots: &[Slot], entry: Entry, buffer: u32, change: Change) -> Option<Stretch>
    requires made { entry.number < length slots.now }
    requires can { CanMoveEntry buffer change entry }
    ensures { entry_of entry.number (span_of result) ≡
        moved_entry buffer change (map bare_of slots.now) entry }
{
    if !entry.is_touched(buffer, change) {
        return Some(entry.stretch);
    }
    slots[entry.number as usize].moved(entry.stretch, buffer, change)
}

/// An entry that has gone to a stretch, or nowhere, between two trees.
fn put_between(left: Tree, node: Box<Node>, stretch: Option<Stretch>, right: Tree) -> Tree
    ensures { result ≡ left ++ (entry_of node.value.entry.number (span_of stretch) ++ right) }
{
    match stretch {
        Some(stretch) => {
            let mut node = node;
            node.entry.stretch = stretch;
            join(left, node, right)
        }
        None => merge(left, right),
    }
}
