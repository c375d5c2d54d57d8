//! A tree of runs.
ghost use Rattle.std.specs.Prelude.{◌≡◌, ◌+◌, ◌<◌, ◌^◌, [], ◌∷◌, ◌++◌, ◌≤◌, IfOk};
ghost use Rattle.prop_intervals.specs.Runs.{size, grown, shrunk, IsPartOfRun, IsRunAt};
ghost use Rattle.prop_intervals.specs.Tree.{runs_of, run_of};

use ek_types::{Mem, PropSet};
use std::alloc::Global;
use std::marker::Model;
use std::mem;

/// Runs in order, seen as their list.
#[cycle(tree)]
#[derive(Drop)]
pub(crate) struct Tree {
    pub(crate) root: Link,
}

#[cycle(tree)]
#[derive(Drop)]
pub(crate) enum Link {
    Empty,
    Full(Box<Node>),
}

/// A run with the runs in front of it and those behind it.
#[cycle(tree)]
#[derive(Drop)]
pub(crate) struct Node {
    pub(crate) left: Tree,
    pub(crate) set: PropSet,
    pub(crate) len: usize,
    /// The characters of all these runs.
    pub(crate) total: usize,
    pub(crate) height: u32,
    pub(crate) right: Tree,
}

/// A run of a tree: its set, and the places where it starts and ends.
#[derive(Clone, Copy)]
pub(crate) struct Found<'a> {
    pub(crate) set: &'a PropSet,
    pub(crate) start: usize,
    pub(crate) end: usize,
}

impl Model for Tree {
    ghost use Rattle.std.specs.Prelude.{ℕ, List, length};
    ghost use Rattle.text_model.specs.Properties.{PropSet as Pairs};

    ghost Value = { List (Pairs × ℕ) };

    ghost use Rattle.prop_intervals.specs.Tree.{runs_of, HasRightTotal};

    ghost view = { λ a. runs_of a.root };

    ghost invariant = { λ a. HasRightTotal a.root };

    ghost size = { length };

    ghost use Rattle.std.proofs.Common.{arith, length-append};

    ghost size_decreases = { λ a h. Prim.grind (arith, length-append) };
}

impl Tree {
    pub(crate) fn new() -> Tree
        ensures { result ≡ [] }
    {
        Tree { root: Link::Empty }
    }

    /// How many characters the runs have.
    pub(crate) fn len(&self) -> usize
        ensures { result ≡ size self.now }
    {
        match &self.root {
            Link::Empty => 0,
            Link::Full(node) => node.total,
        }
    }

    pub(crate) fn height(&self) -> u32 {
        match &self.root {
            Link::Empty => 0,
            Link::Full(node) => node.height,
        }
    }

    /// The run at a place.
    #[tactic(auto, using(crate::proofs::RunLemmas::find_steps))]
    pub(crate) fn find(&self, place: usize) -> Found<'_>
        requires { place < size self.now }
        ensures exact { IsRunAt self.now place result.set.now result.start result.end }
        ensures within { result.end ≤ size self.now }
    {
        match &self.root {
            Link::Empty => unreachable!(),
            Link::Full(node) => {
                let node: &Node = node;
                let front = node.left.len();
                // Read so that it is known to fit its type.
                let _total = node.total;
                if place < front {
                    return node.left.find(place);
                }
                if place - front < node.len {
                    return Found {
                        set: &node.set,
                        start: front,
                        end: front + node.len,
                    };
                }
                let found = node.right.find(place - front - node.len);
                Found {
                    set: found.set,
                    start: front + node.len + found.start,
                    end: front + node.len + found.end,
                }
            }
        }
    }

    /// The same runs again.
    pub(crate) fn copy(&self, alloc: Global) -> Mem<Tree>
        ensures { IfOk result (λ t. t ≡ self.now) }
    {
        match &self.root {
            Link::Empty => Ok(Tree::new()),
            Link::Full(node) => {
                let node: &Node = node;
                let left = node.left.copy(alloc)?;
                let set = node.set.copy()?;
                let right = node.right.copy(alloc)?;
                let copy = Box::new(
                    alloc,
                    Node {
                        left,
                        set,
                        len: node.len,
                        total: node.total,
                        height: node.height,
                        right,
                    },
                )?;
                Ok(Tree {
                    root: Link::Full(copy),
                })
            }
        }
    }

    /// Makes the run at a place longer.
    #[tactic(auto, using(crate::proofs::RunLemmas::size_steps))]
    pub(crate) fn grow(&mut self, at: usize, n: usize)
        requires within { at < size self.old }
        requires fits { size self.old + n < 2 ^ 64 }
        ensures { self.new ≡ grown at n self.old }
    {
        match &mut self.root {
            Link::Empty => {}
            Link::Full(node) => {
                let node: &mut Node = node;
                let front = node.left.len();
                let own = node.len;
                node.total += n;
                if at < front {
                    return node.left.grow(at, n);
                }
                if at - front < own {
                    node.len = own + n;
                    return;
                }
                node.right.grow(at - front - own, n);
            }
        }
    }

    /// Makes the run at a place shorter. It is longer than that.
    #[tactic(auto, using(crate::proofs::RunLemmas::size_steps))]
    pub(crate) fn shrink(&mut self, at: usize, n: usize)
        requires { IsPartOfRun at n self.old }
        ensures { self.new ≡ shrunk at n self.old }
    {
        match &mut self.root {
            Link::Empty => {}
            Link::Full(node) => {
                let node: &mut Node = node;
                let front = node.left.len();
                let own = node.len;
                node.total -= n;
                if at < front {
                    return node.left.shrink(at, n);
                }
                if at - front < own {
                    node.len = own - n;
                    return;
                }
                node.right.shrink(at - front - own, n);
            }
        }
    }
}

/// A run by itself.
pub(crate) fn alone(alloc: Global, set: PropSet, len: usize) -> Mem<Box<Node>>
    ensures { IfOk result (λ n. run_of n.value ≡ (set, len)) }
{
    let node = Node {
        left: Tree::new(),
        set,
        len,
        total: len,
        height: 1,
        right: Tree::new(),
    };
    Ok(Box::new(alloc, node)?)
}

/// Puts other runs in front of a run and behind it.
#[tactic(auto, using(crate::proofs::RunLemmas::size_steps))]
pub(crate) fn set_sides(node: &mut Node, left: Tree, right: Tree)
    requires { size left + node.old.len + size right < 2 ^ 64 }
    ensures run { run_of node.new ≡ run_of node.old }
    ensures left { node.new.left ≡ left }
    ensures right { node.new.right ≡ right }
    ensures total { node.new.total ≡ size (left ++ run_of node.old ∷ right) }
{
    node.total = left.len() + node.len + right.len();
    node.height = left.height().max(right.height()).saturating_add(1);
    node.left = left;
    node.right = right;
}

/// Takes away the runs in front of a run and those behind it.
pub(crate) fn take_sides(node: &mut Node) -> (Tree, Tree)
    ensures run { run_of node.new ≡ run_of node.old }
    ensures left { result.0 ≡ node.old.left }
    ensures right { result.1 ≡ node.old.right }
{
    let left = mem::replace(&mut node.left, Tree::new());
    let right = mem::replace(&mut node.right, Tree::new());
    (left, right)
}
