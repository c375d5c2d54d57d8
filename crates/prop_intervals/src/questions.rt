//! Where the sets of a text change.
ghost use Rattle.std.specs.Prelude.{◌≡◌, ◌≤◌, ◌&&◌, not, option_map};
ghost use Rattle.text_model.specs.PropertyQuestions.{next_change, previous_change};
ghost use Rattle.ek_types.specs.Property.{number_of};
ghost use Rattle.prop_intervals.specs.Runs.{size, sets_of, AreApart};
ghost use Rattle.prop_intervals.specs.Sets.{changes_of, same_by};
ghost use Rattle.prop_intervals.specs.Others.{starts_of, ends_of, first_from, last_from};

use crate::tree::{Link, Node, Tree};
use ek_types::{PropSet, Sym, same_option};

/// Whether two sets differ, or only the values of one property.
fn differ(a: &PropSet, b: &PropSet, name: Option<Sym>) -> bool
    ensures { result ≡ not (same_by (option_map number_of name) a.now b.now) }
{
    match name {
        None => !a.same(b),
        Some(name) => !same_option(a.get(name), b.get(name)),
    }
}

/// Whether two sets differ that are to be compared, or only the values of one property.
fn differ_where(compared: bool, a: &PropSet, b: &PropSet, name: Option<Sym>) -> bool
    ensures { result ≡ compared && not (same_by (option_map number_of name) a.now b.now) }
{
    compared && differ(a, b, name)
}

/// The first place from `from` on and before `to` where a run starts whose set differs from this one.
#[tactic(auto, using(crate::proofs::RunLemmas::size_steps))]
fn first_other(
    tree: &Tree,
    from: usize,
    to: usize,
    set: &PropSet,
    name: Option<Sym>,
) -> Option<usize>
    ensures { result ≡ first_from from to (starts_of (option_map number_of name) set.now 0 tree.now) }
{
    if tree.len() < from {
        return None;
    }
    match &tree.root {
        Link::Empty => None,
        Link::Full(node) => {
            let node: &Node = node;
            // Read so that it is known to fit its type.
            let _total = node.total;
            if let Some(found) = first_other(&node.left, from, to, set, name) {
                return Some(found);
            }
            let front = node.left.len();
            if to <= front {
                return None;
            }
            if differ_where(from <= front, set, &node.set, name) {
                return Some(front);
            }
            let behind = front + node.len;
            let found = first_other(
                &node.right,
                from.saturating_sub(behind),
                to.saturating_sub(behind),
                set,
                name,
            )?;
            Some(behind + found)
        }
    }
}

/// The last place from `from` on and before `to` where a run ends whose set differs from this one.
#[tactic(auto, using(crate::proofs::RunLemmas::size_steps))]
fn last_other(
    tree: &Tree,
    from: usize,
    to: usize,
    set: &PropSet,
    name: Option<Sym>,
) -> Option<usize>
    ensures { result ≡ last_from from to (ends_of (option_map number_of name) set.now 0 tree.now) }
{
    if to == 0 {
        return None;
    }
    match &tree.root {
        Link::Empty => None,
        Link::Full(node) => {
            let node: &Node = node;
            // Read so that it is known to fit its type.
            let _total = node.total;
            let behind = node.left.len() + node.len;
            let right = last_other(
                &node.right,
                from.saturating_sub(behind),
                to.saturating_sub(behind),
                set,
                name,
            );
            if let Some(found) = right {
                return Some(behind + found);
            }
            if behind < from {
                return None;
            }
            if differ_where(behind < to, &node.set, set, name) {
                return Some(behind);
            }
            last_other(&node.left, from, to, set, name)
        }
    }
}

/// The first place behind another and before `to` where the sets or the values change.
pub(crate) fn next_change(tree: &Tree, i: usize, to: usize, name: Option<Sym>) -> Option<usize>
    requires within { to ≤ size tree.now }
    requires apart { AreApart tree.now }
    ensures { result ≡ next_change i to (changes_of (option_map number_of name) (sets_of tree.now)) }
{
    if i >= to {
        return None;
    }
    let run = tree.find(i);
    first_other(tree, run.end, to, run.set, name)
}

/// The last place in front of another and behind `from` where the sets or the values change.
pub(crate) fn previous_change(
    tree: &Tree,
    from: usize,
    i: usize,
    name: Option<Sym>,
) -> Option<usize>
    requires within { i ≤ size tree.now }
    requires apart { AreApart tree.now }
    ensures { result ≡ previous_change from i
        (changes_of (option_map number_of name) (sets_of tree.now)) }
{
    if i <= from {
        return None;
    }
    let run = tree.find(i - 1);
    last_other(tree, from + 1, run.start + 1, run.set, name)
}
