//! The property sets of a text.
ghost use Rattle.std.specs.Prelude.{ℕ, ◌≡◌, ◌≢◌, ◌↔◌, ◌+◌, ◌-◌, ◌<◌, ◌≤◌, [], ◌++◌, IfOk, OnOk};
ghost use Rattle.std.specs.Prelude.{OnErr, MatchBool, false, length, map, take, drop, slice_get};
ghost use Rattle.std.specs.Prelude.{Some, option_map, not};
ghost use Rattle.text_model.specs.Properties.{edited, same_list, same_set};
ghost use Rattle.text_model.specs.Ordered.{IsProper};
ghost use Rattle.text_model.specs.PropertyQuestions.{next_change, previous_change};
ghost use Rattle.ek_types.specs.Property.{number_of};
ghost use Rattle.prop_intervals.specs.Edits.{edit_of};
ghost use Rattle.prop_intervals.specs.Runs.{sets_of, AreApart};
ghost use Rattle.prop_intervals.specs.Sets.{sets_in, together, run_end, changes_of, before};
ghost use Rattle.prop_intervals.specs.Sets.{behind};

use crate::change::edited_runs;
use crate::edit::PropEdit;
use crate::lent::Runs;
use crate::pieces::{are_all, length_of, runs_of};
use crate::questions;
use crate::splice::replace;
use crate::tree::Tree;
use ek_types::{Mem, NoMemory, Piece, PropSet, Sym};
use std::alloc::Global;
use std::marker::Model;

/// The property sets of a text, one per character, counted from 0.
///
/// They are kept as runs of one set in a tree that is rebalanced by height, so that the run of a character is found
/// along one path.
#[derive(Drop)]
pub struct Props {
    pub(crate) tree: Tree,
    pub(crate) alloc: Global,
}

impl Model for Props {
    ghost use Rattle.std.specs.Prelude.{List};
    ghost use Rattle.text_model.specs.Properties.{PropSet as Pairs};

    ghost Value = { List Pairs };

    ghost use Rattle.prop_intervals.specs.Runs.{sets_of, AreApart};

    ghost view = { λ a. sets_of a.tree };

    ghost invariant = { λ a. AreApart a.tree };
}

impl Props {
    /// No characters yet, and no memory taken.
    pub fn new(alloc: Global) -> Props
        ensures { result ≡ [] }
    {
        Props {
            tree: Tree::new(),
            alloc,
        }
    }

    /// The set of a character: its names rise, and nil is never a value.
    pub fn at(&self, i: usize) -> &PropSet
        requires { i < length self.now }
        ensures exact { slice_get self.now i ≡ Some result.now }
        ensures proper { IsProper result.now }
    {
        let set = self.tree.find(i).set;
        // Read for what it ensures: the names rise, and nil is never a value.
        let _proper = set.len();
        set
    }

    /// The first place behind another whose set differs from the set there, or the length: up to it all sets are equal,
    /// and there stands another set, or none.
    pub fn run_end(&self, i: usize) -> usize
        requires { i < length self.now }
        ensures exact { result ≡ run_end i self.now }
        ensures behind { i < result }
        ensures equal { (j : ℕ) → i ≤ j → j < result → slice_get self.now j ≡ slice_get self.now i }
        ensures other { slice_get self.now result ≢ slice_get self.now i }
    {
        self.tree.find(i).end
    }

    /// The runs of one set, lent: none is empty, and neighbours have different sets.
    pub fn runs(&self) -> Runs<'_>
        ensures sets { sets_of result ≡ self.now }
        ensures apart { AreApart result }
    {
        Runs::of(&self.tree)
    }

    /// The sets again.
    pub fn copy(&self) -> Mem<Props>
        ensures { IfOk result (λ copy. copy ≡ self.now) }
    {
        let tree = self.tree.copy(self.alloc)?;
        Ok(Props {
            tree,
            alloc: self.alloc,
        })
    }

    /// The sets of the characters from one place to another replaced by those of some pieces, one behind the other. Want
    /// of memory leaves all as it was.
    pub fn splice(&mut self, from: usize, to: usize, with: &[Piece]) -> Mem<()>
        requires order { from ≤ to }
        requires within { to ≤ length self.old }
        ensures ok { OnOk result (self.new ≡ take from self.old ++
            (sets_in (together with.now) ++ drop to self.old)) }
        ensures err { OnErr result (self.new ≡ self.old) }
    {
        let Some(n) = length_of(with) else {
            return Err(NoMemory);
        };
        if from == to && self.grow(from, with, n) {
            return Ok(());
        }
        if n == 0 && self.shrink(from, to) {
            return Ok(());
        }
        self.put(from, to, with)
    }

    /// The same for any pieces.
    fn put(&mut self, from: usize, to: usize, with: &[Piece]) -> Mem<()>
        requires order { from ≤ to }
        requires within { to ≤ length self.old }
        requires fits { length (together with.now) ≤ usize.MAX }
        ensures ok { OnOk result (self.new ≡ take from self.old ++
            (sets_in (together with.now) ++ drop to self.old)) }
        ensures err { OnErr result (self.new ≡ self.old) }
    {
        let middle = runs_of(self.alloc, with)?;
        replace(self.alloc, &mut self.tree, from, to, middle)
    }

    /// The sets of the characters from one place to another changed. It answers whether one of them is another then.
    /// Want of memory leaves all as it was.
    pub fn change(&mut self, from: usize, to: usize, edit: &PropEdit) -> Mem<bool>
        requires order { from ≤ to }
        requires within { to ≤ length self.old }
        ensures ok { OnOk result (self.new ≡ take from self.old ++
            (map (edited (edit_of edit.now)) (drop from (take to self.old)) ++ drop to self.old)) }
        ensures changed { IfOk result (λ b. b ≡ not (same_list same_set self.old self.new)) }
        ensures equal { IfOk result (λ b. b ≡ false ↔ self.new ≡ self.old) }
        ensures err { OnErr result (self.new ≡ self.old) }
    {
        let edited = edited_runs(self.alloc, &self.tree, from, to, edit)?;
        if !edited.changed {
            return Ok(false);
        }
        replace(self.alloc, &mut self.tree, from, to, edited.runs)?;
        Ok(true)
    }

    /// The first place behind another and before `to` where a set differs from the one in front of it, or only the value
    /// of one property, if one is named ("Property Search" in the GNU Emacs Lisp Reference Manual). `None` where there
    /// is no such place. So it is the first before any later end, unless that doesn't lie before `to`.
    pub fn next_change(&self, i: usize, to: usize, name: Option<Sym>) -> Option<usize>
        requires { to ≤ length self.now }
        ensures exact { result ≡ next_change i to (changes_of (option_map number_of name) self.now) }
        ensures within { (end : ℕ) → to ≤ end →
            result ≡ before to (next_change i end (changes_of (option_map number_of name) self.now)) }
    {
        questions::next_change(&self.tree, i, to, name)
    }

    /// The last place in front of another and behind `from` where a set differs from the one in front of it, or only the
    /// value of one property, if one is named. `None` where there is no such place. So it is the last behind any earlier
    /// start, unless that doesn't lie behind `from`.
    pub fn prev_change(&self, from: usize, i: usize, name: Option<Sym>) -> Option<usize>
        requires { i ≤ length self.now }
        ensures exact { result ≡
            previous_change from i (changes_of (option_map number_of name) self.now) }
        ensures within { (start : ℕ) → start ≤ from → result ≡
            behind from (previous_change start i (changes_of (option_map number_of name) self.now)) }
    {
        questions::previous_change(&self.tree, from, i, name)
    }

    /// Puts `n` characters in by making a run longer, if all of them have the set of a run that is there.
    fn grow(&mut self, at: usize, with: &[Piece], n: usize) -> bool
        requires place { at ≤ length self.old }
        requires count { n ≡ length (together with.now) }
        ensures { MatchBool result (self.new ≡ take at self.old ++
            (sets_in (together with.now) ++ drop at self.old)) (self.new ≡ self.old) }
    {
        let size = self.tree.len();
        if n > usize::MAX - size {
            return false;
        }
        if at < size && are_all(with, self.tree.find(at).set) {
            self.tree.grow(at, n);
            return true;
        }
        if at > 0 && are_all(with, self.tree.find(at - 1).set) {
            self.tree.grow(at - 1, n);
            return true;
        }
        false
    }

    /// Takes a part out by making a run shorter, if it lies in one that has more.
    fn shrink(&mut self, from: usize, to: usize) -> bool
        requires order { from ≤ to }
        requires within { to ≤ length self.old }
        ensures { MatchBool result (self.new ≡ take from self.old ++ drop to self.old)
            (self.new ≡ self.old) }
    {
        if from >= self.tree.len() {
            return false;
        }
        let run = self.tree.find(from);
        if run.end < to || run.end - run.start <= to - from {
            return false;
        }
        self.tree.shrink(from, to - from);
        true
    }
}
