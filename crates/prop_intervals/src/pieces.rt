//! The runs of pieces.
ghost use Rattle.std.specs.Prelude.{◌≡◌, ◌+◌, ◌-◌, ◌<◌, ◌≤◌, ◌^◌, IfOk, length, replicate, take, ◌++◌};
ghost use Rattle.std.specs.Prelude.{true, slice_get, Some, None, IfSome};
ghost use Rattle.text_model.specs.Properties.{PropSet as Pairs};
ghost use Rattle.prop_intervals.specs.Runs.{size, sets_of, AreApart};
ghost use Rattle.prop_intervals.specs.Sets.{sets_in, together, run_end};

use crate::balance::join;
use crate::cut::glue;
use crate::tree::{Tree, alone};
use ek_types::{Mem, Piece, PropSet};
use std::alloc::Global;

/// Whether all characters of a piece have one set.
fn is_all(piece: &Piece, set: &PropSet) -> bool
    ensures { result ≡ true → sets_in piece.now ≡ replicate (length piece.now) set.now }
{
    let mut i = 0;
    while i < piece.len() {
        if !set.same(piece.props(i)) {
            return false;
        }
        i = piece.run_end(i);
    }
    true
}

/// Whether all characters of some pieces have one set.
pub(crate) fn are_all(pieces: &[Piece], set: &PropSet) -> bool
    ensures { result ≡ true → sets_in (together pieces.now) ≡
        replicate (length (together pieces.now)) set.now }
{
    for piece in pieces {
        if !is_all(piece, set) {
            return false;
        }
    }
    true
}

/// How many characters some pieces have together, unless that is more than can be counted.
pub fn length_of(pieces: &[Piece]) -> Option<usize>
    ensures some { IfSome result (λ n. n ≡ length (together pieces.now)) }
    ensures none { result ≡ None → usize.MAX < length (together pieces.now) }
{
    let mut total = 0usize;
    for piece in pieces {
        total = total.checked_add(piece.len())?;
    }
    Some(total)
}

/// The first place of a piece behind another whose set differs from that there, or the length.
pub fn run_end_in(piece: &Piece, i: usize) -> usize
    requires { i < length piece.now }
    ensures exact { result ≡ run_end i (sets_in piece.now) }
    ensures behind { i < result }
    ensures within { result ≤ length piece.now }
    ensures all { (set : Pairs) → slice_get (sets_in piece.now) i ≡ Some set →
        take result (sets_in piece.now) ≡ take i (sets_in piece.now) ++ replicate (result - i) set }
{
    let set = piece.props(i);
    let mut end = piece.run_end(i);
    while end < piece.len() && set.same(piece.props(end)) {
        end = piece.run_end(end);
    }
    end
}

/// A tree with a run behind it.
pub(crate) fn pushed(alloc: Global, tree: Tree, set: PropSet, len: usize) -> Mem<Tree>
    requires len { 0 < len }
    requires apart { AreApart tree }
    requires fits { size tree + len < 2 ^ 64 }
    ensures sets { IfOk result (λ t. sets_of t ≡ sets_of tree ++ replicate len set) }
    ensures apart { IfOk result AreApart }
{
    let node = alone(alloc, set, len)?;
    Ok(glue(tree, join(Tree::new(), node, Tree::new())))
}

/// A tree with the runs of a piece behind it.
fn with_piece(alloc: Global, tree: Tree, piece: &Piece) -> Mem<Tree>
    requires apart { AreApart tree }
    requires fits { size tree + length piece.now < 2 ^ 64 }
    ensures sets { IfOk result (λ t. sets_of t ≡ sets_of tree ++ sets_in piece.now) }
    ensures apart { IfOk result AreApart }
{
    let mut tree = tree;
    let mut i = 0;
    while i < piece.len() {
        let end = run_end_in(piece, i);
        let set = piece.props(i).copy()?;
        tree = pushed(alloc, tree, set, end - i)?;
        i = end;
    }
    Ok(tree)
}

/// The runs of some pieces, one behind the other.
pub(crate) fn runs_of(alloc: Global, pieces: &[Piece]) -> Mem<Tree>
    requires fits { length (together pieces.now) < 2 ^ 64 }
    ensures sets { IfOk result (λ t. sets_of t ≡ sets_in (together pieces.now)) }
    ensures apart { IfOk result AreApart }
{
    let mut tree = Tree::new();
    for piece in pieces {
        tree = with_piece(alloc, tree, piece)?;
    }
    Ok(tree)
}
