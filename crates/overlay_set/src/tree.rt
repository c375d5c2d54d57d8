//! A tree of the overlays that stand somewhere, by where they stand. A part of it moves as one by its shift.
ghost use Rattle.std.specs.Prelude.{◌≡◌, [], ◌∷◌, ◌++◌, All, IfOk, map, length};
ghost use Rattle.overlay_set.specs.Entries.{entries_in, Holds, InRange, raised};

use crate::bounds::{Bounds, Entry, Range};
use ek_types::Mem;
use std::alloc::Global;
use std::marker::Model;
use std::mem;

/// Entries in order, seen as their list.
#[cycle(tree)]
#[derive(Drop)]
pub(crate) struct Tree {
    pub(crate) root: Link,
}

#[cycle(tree)]
#[derive(Drop)]
pub(crate) enum Link {
    Empty,
    Full(Box<Node>),
}

/// An entry with those in front of it and those behind it, and the bounds of all these. The places of all are counted
/// from the shift, modulo 2^64. Keys rise from left to right, as far as there was room for them; no clause says so.
#[cycle(tree)]
#[derive(Drop)]
pub(crate) struct Node {
    pub(crate) left: Tree,
    pub(crate) entry: Entry,
    pub(crate) bounds: Bounds,
    pub(crate) shift: usize,
    pub(crate) key: usize,
    pub(crate) keys: Range,
    pub(crate) height: u32,
    pub(crate) right: Tree,
}

impl Model for Tree {
    ghost use Rattle.std.specs.Prelude.{List, length};
    ghost use Rattle.overlay_set.specs.declared.bounds.Entry.{Entry};

    ghost Value = { List Entry };

    ghost use Rattle.overlay_set.specs.Entries.{entries_of, HasBounds};

    ghost view = { λ a. entries_of a.root };

    ghost invariant = { λ a. HasBounds a.root };

    ghost size = { length };

    ghost use Rattle.std.proofs.Common.{arith, length-append};
    ghost use Rattle.std.proofs.lemmas.List.{length-map};

    ghost size_decreases = { λ a h. Prim.grind (arith, length-append, length-map) };
}

impl Tree {
    pub(crate) fn new() -> Tree
        ensures { result ≡ [] }
    {
        Tree { root: Link::Empty }
    }

    pub(crate) fn height(&self) -> u32 {
        match &self.root {
            Link::Empty => 0,
            Link::Full(node) => node.height,
        }
    }

    /// The bounds of the tree and of another part.
    fn bounds_with(&self, other: Bounds) -> Bounds
        ensures all { All (Holds result) self.now }
        ensures range { All InRange self.now }
        ensures others { (e : Entry) → Holds other e → Holds result e }
    {
        match &self.root {
            Link::Empty => other,
            Link::Full(node) => {
                let node: &Node = node;
                other.joined(node.bounds.raised(node.shift))
            }
        }
    }

    /// Where the keys lie, those of another part among them.
    fn keys_with(&self, other: Range) -> Range {
        match &self.root {
            Link::Empty => other,
            Link::Full(node) => other.joined(node.keys),
        }
    }

    /// The same entries, their places counted from a shift.
    pub(crate) fn raised(self, by: usize) -> Tree
        ensures { result ≡ map (raised by) self }
    {
        match self.root {
            Link::Empty => Tree::new(),
            Link::Full(mut node) => {
                node.shift = node.shift.wrapping_add(by);
                Tree {
                    root: Link::Full(node),
                }
            }
        }
    }

    /// The same entries again.
    pub(crate) fn copy(&self, alloc: Global) -> Mem<Tree>
        ensures { IfOk result (λ t. t ≡ self.now) }
    {
        match &self.root {
            Link::Empty => Ok(Tree::new()),
            Link::Full(node) => {
                let node: &Node = node;
                let left = node.left.copy(alloc)?;
                let right = node.right.copy(alloc)?;
                let copy = Box::new(
                    alloc,
                    Node {
                        left,
                        entry: node.entry,
                        bounds: node.bounds,
                        shift: node.shift,
                        key: node.key,
                        keys: node.keys,
                        height: node.height,
                        right,
                    },
                )?;
                Ok(Tree {
                    root: Link::Full(copy),
                })
            }
        }
    }
}

/// An entry by itself, with a key that leads to it.
pub(crate) fn alone(alloc: Global, entry: Entry, key: usize) -> Mem<Box<Node>>
    ensures { IfOk result (λ n. n.value.entry ≡ entry) }
{
    let node = Node {
        left: Tree::new(),
        entry,
        bounds: Bounds::of(entry),
        shift: 0,
        key,
        keys: Range::one(key),
        height: 1,
        right: Tree::new(),
    };
    Ok(Box::new(alloc, node)?)
}

/// The same entry with another key.
pub(crate) fn with_key(node: Box<Node>, key: usize) -> Box<Node>
    ensures { result.value.entry ≡ node.value.entry }
{
    let mut node = node;
    node.key = key;
    node
}

/// An entry with those in front of it and behind it.
pub(crate) fn fork(left: Tree, node: Box<Node>, right: Tree) -> Tree
    ensures { result ≡ left ++ node.value.entry ∷ right }
{
    let mut node = node;
    set_sides(&mut node, left, right);
    Tree {
        root: Link::Full(node),
    }
}

/// Puts other entries in front of an entry and behind it.
fn set_sides(node: &mut Node, left: Tree, right: Tree)
    ensures bounds { All (Holds node.new.bounds)
        (node.new.left ++ node.new.entry ∷ node.new.right) }
    ensures whole { entries_in node.new ≡ left ++ node.old.entry ∷ right }
{
    let own = Bounds::of(node.entry);
    node.bounds = right.bounds_with(left.bounds_with(own));
    node.shift = 0;
    node.keys = right.keys_with(left.keys_with(Range::one(node.key)));
    node.height = left.height().max(right.height()).saturating_add(1);
    node.left = left;
    node.right = right;
}

/// Takes away the entries in front of an entry and those behind it. The shift goes to all three.
pub(crate) fn take_sides(node: &mut Node) -> (Tree, Tree)
    ensures whole { result.0 ++ node.new.entry ∷ result.1 ≡ entries_in node.old }
    ensures left { length result.0 ≡ length node.old.left }
{
    let by = node.shift;
    let left = mem::replace(&mut node.left, Tree::new());
    let right = mem::replace(&mut node.right, Tree::new());
    node.entry = node.entry.raised(by);
    (left.raised(by), right.raised(by))
}
