//! Runs of a tree replaced by others.
ghost use Rattle.std.specs.Prelude.{◌≡◌, ◌+◌, ◌<◌, ◌≤◌, ◌++◌, ◌^◌, IfOk, OnOk, OnErr, take, drop};
ghost use Rattle.prop_intervals.specs.Runs.{size, sets_of, AreApart, CanCut};

use crate::cut::{cut, glue};
use crate::tree::{Node, Tree, alone};
use ek_types::{Mem, NoMemory, PropSet};
use std::alloc::Global;
use std::mem;

/// The set of the run that has a place inside; no property where none has.
fn set_inside(alloc: Global, tree: &Tree, at: usize) -> Mem<PropSet>
    ensures { IfOk result (CanCut tree.now at) }
{
    if at < tree.len() {
        let run = tree.find(at);
        if run.start < at {
            return run.set.copy();
        }
    }
    Ok(PropSet::empty(alloc))
}

/// A run by itself, which can take what is cut off a run at a place.
fn spare(alloc: Global, tree: &Tree, at: usize) -> Mem<Box<Node>>
    ensures { IfOk result (λ n. CanCut tree.now at n.value.set) }
{
    let set = set_inside(alloc, tree, at)?;
    alone(alloc, set, 1)
}

/// The runs from one place to another replaced, with spare runs for the two places.
#[tactic(auto, using(crate::proofs::SetLemmas::cut_twice))]
fn put_between(
    tree: Tree,
    from: usize,
    to: usize,
    middle: Tree,
    first: Box<Node>,
    second: Box<Node>,
) -> Tree
    requires order { from ≤ to }
    requires within { to ≤ size tree }
    requires apart { AreApart tree }
    requires apart_too { AreApart middle }
    requires fits { size tree + size middle < 2 ^ 64 }
    requires first { CanCut tree from first.value.set }
    requires second { CanCut tree to second.value.set }
    ensures sets { sets_of result ≡ take from (sets_of tree) ++
        (sets_of middle ++ drop to (sets_of tree)) }
    ensures apart { AreApart result }
{
    let (head, back) = cut(tree, to, second);
    let (front, _) = cut(head, from, first);
    glue(glue(front, middle), back)
}

/// The runs from one place to another replaced. Want of memory leaves all as it was.
pub(crate) fn replace(
    alloc: Global,
    tree: &mut Tree,
    from: usize,
    to: usize,
    middle: Tree,
) -> Mem<()>
    requires order { from ≤ to }
    requires within { to ≤ size tree.old }
    requires apart { AreApart tree.old }
    requires apart_too { AreApart middle }
    ensures ok { OnOk result (sets_of tree.new ≡ take from (sets_of tree.old) ++
        (sets_of middle ++ drop to (sets_of tree.old))) }
    ensures err { OnErr result (tree.new ≡ tree.old) }
    ensures apart { AreApart tree.new }
{
    if middle.len() > usize::MAX - tree.len() {
        return Err(NoMemory);
    }
    let first = spare(alloc, tree, from)?;
    let second = spare(alloc, tree, to)?;
    let old = mem::replace(tree, Tree::new());
    *tree = put_between(old, from, to, middle, first, second);
    Ok(())
}
