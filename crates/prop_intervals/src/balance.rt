//! Trees joined in balance.
ghost use Rattle.std.specs.Prelude.{◌≡◌, ◌+◌, ◌<◌, ◌^◌, ◌∷◌, ◌++◌};
ghost use Rattle.prop_intervals.specs.Runs.{size};
ghost use Rattle.prop_intervals.specs.Tree.{run_of};

use crate::tree::{Link, Node, Tree, set_sides, take_sides};

/// A run with the runs in front of it and behind it.
fn fork(left: Tree, node: Box<Node>, right: Tree) -> Tree
    requires { size left + node.value.len + size right < 2 ^ 64 }
    ensures { result ≡ left ++ run_of node.value ∷ right }
{
    let mut node = node;
    set_sides(&mut node, left, right);
    Tree {
        root: Link::Full(node),
    }
}

/// The same with a rotation, where one side is two levels higher than the other.
fn balanced(left: Tree, node: Box<Node>, right: Tree) -> Tree
    requires { size left + node.value.len + size right < 2 ^ 64 }
    ensures { result ≡ left ++ run_of node.value ∷ right }
{
    if left.height() > right.height().saturating_add(1) {
        lean_left(left, node, right)
    } else if right.height() > left.height().saturating_add(1) {
        lean_right(left, node, right)
    } else {
        fork(left, node, right)
    }
}

/// The same where the left side is too high.
#[tactic(auto, using(crate::proofs::RunLemmas::size_steps))]
fn lean_left(left: Tree, node: Box<Node>, right: Tree) -> Tree
    requires { size left + node.value.len + size right < 2 ^ 64 }
    ensures { result ≡ left ++ run_of node.value ∷ right }
{
    match left.root {
        Link::Empty => fork(Tree::new(), node, right),
        Link::Full(mut top) => {
            let (a, b) = take_sides(&mut top);
            if a.height() < b.height() {
                middle_up(a, top, b, node, right)
            } else {
                fork(a, top, fork(b, node, right))
            }
        }
    }
}

/// The same where the right side is too high.
#[tactic(auto, using(crate::proofs::RunLemmas::size_steps))]
fn lean_right(left: Tree, node: Box<Node>, right: Tree) -> Tree
    requires { size left + node.value.len + size right < 2 ^ 64 }
    ensures { result ≡ left ++ run_of node.value ∷ right }
{
    match right.root {
        Link::Empty => fork(left, node, Tree::new()),
        Link::Full(mut top) => {
            let (b, c) = take_sides(&mut top);
            if c.height() < b.height() {
                middle_up(left, node, b, top, c)
            } else {
                fork(fork(left, node, b), top, c)
            }
        }
    }
}

/// Three trees with a run between each, the middle one's root on top.
#[tactic(auto, using(crate::proofs::RunLemmas::size_steps))]
fn middle_up(left: Tree, first: Box<Node>, middle: Tree, second: Box<Node>, right: Tree) -> Tree
    requires { size left + first.value.len + size middle + second.value.len + size right < 2 ^ 64 }
    ensures { result ≡ left ++ run_of first.value ∷ (middle ++ run_of second.value ∷ right) }
{
    match middle.root {
        Link::Empty => fork(left, first, fork(Tree::new(), second, right)),
        Link::Full(mut top) => {
            let (b, c) = take_sides(&mut top);
            fork(fork(left, first, b), top, fork(c, second, right))
        }
    }
}

/// Two trees of any height with a run between them.
pub(crate) fn join(left: Tree, node: Box<Node>, right: Tree) -> Tree
    requires { size left + node.value.len + size right < 2 ^ 64 }
    ensures { result ≡ left ++ run_of node.value ∷ right }
{
    if left.height() > right.height() {
        join_right(left, node, right)
    } else {
        join_left(left, node, right)
    }
}

/// The same where the left side is higher.
#[tactic(auto, using(crate::proofs::RunLemmas::size_steps))]
fn join_right(left: Tree, node: Box<Node>, right: Tree) -> Tree
    requires { size left + node.value.len + size right < 2 ^ 64 }
    ensures { result ≡ left ++ run_of node.value ∷ right }
{
    if left.height() <= right.height().saturating_add(1) {
        return fork(left, node, right);
    }
    match left.root {
        Link::Empty => fork(Tree::new(), node, right),
        Link::Full(mut top) => {
            let (a, b) = take_sides(&mut top);
            balanced(a, top, join_right(b, node, right))
        }
    }
}

/// The same where the right side is higher.
#[tactic(auto, using(crate::proofs::RunLemmas::size_steps))]
fn join_left(left: Tree, node: Box<Node>, right: Tree) -> Tree
    requires { size left + node.value.len + size right < 2 ^ 64 }
    ensures { result ≡ left ++ run_of node.value ∷ right }
{
    if right.height() <= left.height().saturating_add(1) {
        return fork(left, node, right);
    }
    match right.root {
        Link::Empty => fork(left, node, Tree::new()),
        Link::Full(mut top) => {
            let (b, c) = take_sides(&mut top);
            balanced(join_left(left, node, b), top, c)
        }
    }
}
