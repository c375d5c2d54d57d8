//! Runs that are lent.
ghost use Rattle.std.specs.Prelude.{◌≡◌, [], ◌∷◌, ◌++◌, IfSome, IfNone};
ghost use Rattle.prop_intervals.specs.Runs.{size};

use crate::tree::{Link, Node, Tree};
use ek_types::PropSet;
use std::marker::Model;

/// Runs of a text in order, lent: property sets, each with the number of characters that have it.
#[derive(Drop)]
pub struct Runs<'a> {
    tree: &'a Tree,
}

impl<'a> Model for Runs<'a> {
    ghost use Rattle.std.specs.Prelude.{List};
    ghost use Rattle.prop_intervals.specs.Runs.{Run};

    ghost Value = { List Run };

    ghost view = { λ r. r.tree.now };
}

/// A run, with the runs in front of it and those behind it.
#[derive(Drop)]
pub struct Parted<'a> {
    pub front: Runs<'a>,
    pub set: &'a PropSet,
    pub len: usize,
    pub behind: Runs<'a>,
}

impl<'a> Runs<'a> {
    pub(crate) fn of(tree: &'a Tree) -> Runs<'a>
        ensures { result ≡ tree.now }
    {
        Runs { tree }
    }

    /// How many characters the runs have.
    pub fn len(&self) -> usize
        ensures { result ≡ size self.now }
    {
        self.tree.len()
    }

    /// Some run in the middle with the others on its sides, and `None` where there is no run. Who goes on with the sides
    /// meets each run once.
    pub fn part(&self) -> Option<Parted<'a>>
        ensures some { IfSome result (λ p. self.now ≡ p.front ++ (p.set.now, p.len) ∷ p.behind) }
        ensures none { IfNone result (self.now ≡ []) }
    {
        let tree = self.tree;
        match &tree.root {
            Link::Empty => None,
            Link::Full(node) => {
                let node: &Node = node;
                Some(Parted {
                    front: Runs::of(&node.left),
                    set: &node.set,
                    len: node.len,
                    behind: Runs::of(&node.right),
                })
            }
        }
    }
}
