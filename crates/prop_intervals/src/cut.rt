//! Trees cut at a place, and put behind one another.
ghost use Rattle.std.specs.Prelude.{◌≡◌, ◌+◌, ◌<◌, ◌^◌, [], ◌∷◌, ◌++◌, MatchOption};
ghost use Rattle.prop_intervals.specs.Runs.{size, before, behind, in_front, glued, CanCut};
ghost use Rattle.prop_intervals.specs.Tree.{run_of};

use crate::balance::join;
use crate::tree::{Link, Node, Tree, take_sides};

/// The runs in front of a place, and those from it on. The spare takes the second part of a run that is cut, whose
/// set it has then.
#[tactic(auto, using(crate::proofs::RunLemmas::size_steps))]
pub(crate) fn cut(tree: Tree, at: usize, spare: Box<Node>) -> (Tree, Tree)
    requires { CanCut tree at spare.value.set }
    ensures front { result.0 ≡ before at tree }
    ensures back { result.1 ≡ behind at tree }
{
    match tree.root {
        Link::Empty => (Tree::new(), Tree::new()),
        Link::Full(mut node) => {
            // Read so that it is known to fit its type.
            let _total = node.total;
            let (left, right) = take_sides(&mut node);
            let front = left.len();
            let own = node.len;
            if at < front {
                let (a, b) = cut(left, at, spare);
                return (a, join(b, node, right));
            }
            if at - front >= own {
                let (a, b) = cut(right, at - front - own, spare);
                return (join(left, node, a), b);
            }
            if at == front {
                return (left, join(Tree::new(), node, right));
            }
            let mut spare = spare;
            spare.len = own - (at - front);
            node.len = at - front;
            (
                join(left, node, Tree::new()),
                join(Tree::new(), spare, right),
            )
        }
    }
}

/// The first run and the rest.
#[tactic(auto, using(crate::proofs::RunLemmas::size_steps))]
pub(crate) fn take_first(tree: Tree) -> (Option<Box<Node>>, Tree)
    ensures { MatchOption result.0 (tree ≡ []) (λ n. tree ≡ run_of n.value ∷ result.1) }
{
    match tree.root {
        Link::Empty => (None, Tree::new()),
        Link::Full(mut node) => {
            // Read so that it is known to fit its type.
            let _total = node.total;
            let (left, right) = take_sides(&mut node);
            let (first, rest) = take_first(left);
            match first {
                None => (Some(node), right),
                Some(first) => (Some(first), join(rest, node, right)),
            }
        }
    }
}

/// The last run and those in front of it.
#[tactic(auto, using(crate::proofs::RunLemmas::size_steps))]
pub(crate) fn take_last(tree: Tree) -> (Option<Box<Node>>, Tree)
    ensures { MatchOption result.0 (tree ≡ []) (λ n. tree ≡ result.1 ++ run_of n.value ∷ []) }
{
    match tree.root {
        Link::Empty => (None, Tree::new()),
        Link::Full(mut node) => {
            // Read so that it is known to fit its type.
            let _total = node.total;
            let (left, right) = take_sides(&mut node);
            let (last, rest) = take_last(right);
            match last {
                None => (Some(node), left),
                Some(last) => (Some(last), join(left, node, rest)),
            }
        }
    }
}

/// One tree behind another; the two runs where they meet become one, if they have one set.
#[tactic(auto, using(crate::proofs::RunLemmas::glue_steps))]
pub(crate) fn glue(left: Tree, right: Tree) -> Tree
    requires { size left + size right < 2 ^ 64 }
    ensures { result ≡ glued left right }
{
    let (first, rest) = take_first(right);
    let Some(first) = first else {
        return left;
    };
    let (last, front) = take_last(left);
    let Some(last) = last else {
        return join(Tree::new(), first, rest);
    };
    meet(front, last, first, rest)
}

/// Two trees with two runs between them, which become one if they have one set.
#[tactic(auto, using(crate::proofs::RunLemmas::meet_steps))]
fn meet(front: Tree, last: Box<Node>, first: Box<Node>, back: Tree) -> Tree
    requires { size front + last.value.len + first.value.len + size back < 2 ^ 64 }
    ensures { result ≡ front ++ in_front (run_of last.value) (run_of first.value ∷ back) }
{
    if last.set.same(&first.set) {
        let mut last = last;
        last.len += first.len;
        join(front, last, back)
    } else {
        join(join(front, last, Tree::new()), first, back)
    }
}
