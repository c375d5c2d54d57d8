//! Trees joined in balance.
ghost use Rattle.std.specs.Prelude.{◌≡◌, ◌∷◌, ◌++◌};
ghost use Rattle.overlay_set.specs.Entries.{HoldSame, entries_in};

use crate::tree::{Link, Node, Tree, fork, take_sides};

/// An entry between two trees, with a rotation where one side is two levels higher than the other.
fn balanced(left: Tree, node: Box<Node>, right: Tree) -> Tree
    ensures { result ≡ left ++ node.value.entry ∷ right }
{
    if left.height() > right.height().saturating_add(1) {
        lean_left(left, node, right)
    } else if right.height() > left.height().saturating_add(1) {
        lean_right(left, node, right)
    } else {
        fork(left, node, right)
    }
}

/// The same where the left side is too high.
fn lean_left(left: Tree, node: Box<Node>, right: Tree) -> Tree
    ensures { result ≡ left ++ node.value.entry ∷ right }
{
    match left.root {
        Link::Empty => fork(Tree::new(), node, right),
        Link::Full(mut top) => {
            let (a, b) = take_sides(&mut top);
            if a.height() < b.height() {
                middle_up(a, top, b, node, right)
            } else {
                fork(a, top, fork(b, node, right))
            }
        }
    }
}

/// The same where the right side is too high.
fn lean_right(left: Tree, node: Box<Node>, right: Tree) -> Tree
    ensures { result ≡ left ++ node.value.entry ∷ right }
{
    match right.root {
        Link::Empty => fork(left, node, Tree::new()),
        Link::Full(mut top) => {
            let (b, c) = take_sides(&mut top);
            if c.height() < b.height() {
                middle_up(left, node, b, top, c)
            } else {
                fork(fork(left, node, b), top, c)
            }
        }
    }
}

/// Three trees with an entry between each, the middle one's root on top.
fn middle_up(left: Tree, first: Box<Node>, middle: Tree, second: Box<Node>, right: Tree) -> Tree
    ensures { result ≡ left ++ first.value.entry ∷ (middle ++ second.value.entry ∷ right) }
{
    match middle.root {
        Link::Empty => fork(left, first, fork(Tree::new(), second, right)),
        Link::Full(mut top) => {
            let (b, c) = take_sides(&mut top);
            fork(fork(left, first, b), top, fork(c, second, right))
        }
    }
}

/// Two trees of any height with an entry between them.
pub(crate) fn join(left: Tree, node: Box<Node>, right: Tree) -> Tree
    ensures { result ≡ left ++ node.value.entry ∷ right }
{
    if left.height() > right.height() {
        join_right(left, node, right)
    } else {
        join_left(left, node, right)
    }
}

/// The same where the left side is higher.
fn join_right(left: Tree, node: Box<Node>, right: Tree) -> Tree
    ensures { result ≡ left ++ node.value.entry ∷ right }
{
    if left.height() <= right.height().saturating_add(1) {
        return fork(left, node, right);
    }
    match left.root {
        Link::Empty => fork(Tree::new(), node, right),
        Link::Full(mut top) => {
            let (a, b) = take_sides(&mut top);
            balanced(a, top, join_right(b, node, right))
        }
    }
}

/// The same where the right side is higher.
fn join_left(left: Tree, node: Box<Node>, right: Tree) -> Tree
    ensures { result ≡ left ++ node.value.entry ∷ right }
{
    if right.height() <= left.height().saturating_add(1) {
        return fork(left, node, right);
    }
    match right.root {
        Link::Empty => fork(left, node, Tree::new()),
        Link::Full(mut top) => {
            let (b, c) = take_sides(&mut top);
            balanced(join_left(left, node, b), top, c)
        }
    }
}

/// The first entry of a tree with more behind it, and these.
fn first_out(node: Box<Node>) -> (Box<Node>, Tree)
    ensures { result.0.value.entry ∷ result.1 ≡ entries_in node.value }
{
    let mut node = node;
    let (left, right) = take_sides(&mut node);
    match left.root {
        Link::Empty => (node, right),
        Link::Full(top) => {
            let (first, rest) = first_out(top);
            (first, balanced(rest, node, right))
        }
    }
}

/// Two trees of any height, one behind the other.
pub(crate) fn merge(left: Tree, right: Tree) -> Tree
    ensures { result ≡ left ++ right }
{
    match right.root {
        Link::Empty => left,
        Link::Full(top) => {
            let (first, rest) = first_out(top);
            join(left, first, rest)
        }
    }
}

/// Puts an entry among the others, by where it stands.
pub(crate) fn insert(tree: Tree, node: Box<Node>) -> Tree
    ensures { HoldSame result (node.value.entry ∷ tree) }
{
    match tree.root {
        Link::Empty => fork(Tree::new(), node, Tree::new()),
        Link::Full(mut top) => {
            let (left, right) = take_sides(&mut top);
            if node.entry.comes_before(top.entry) {
                balanced(insert(left, node), top, right)
            } else {
                balanced(left, top, insert(right, node))
            }
        }
    }
}
