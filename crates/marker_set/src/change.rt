//! A change of a text, and where places go.
ghost use Rattle.std.specs.Prelude.{◌≡◌, ℕ, ◌+◌, ◌≤◌, Bool, ◌||◌, true, IfSome};
ghost use Rattle.marker_set.specs.Changes.{move_of, all_of, carried, CanMove};

use ek_types::{place_after_delete, place_after_insert};

/// A change of a buffer's text.
#[derive(Clone, Copy)]
pub(crate) enum Change {
    /// `n` characters were put in at `at`; `all` markers there advance.
    Insertion { at: usize, n: usize, all: bool },
    /// The part from `from` to `to` was deleted.
    Deletion { from: usize, to: usize },
}

impl Change {
    /// Where a place of the text goes.
    pub(crate) fn after(self, advances: bool, place: usize) -> usize
        requires { CanMove self place }
        ensures { result ≡ move_of self (advances || all_of self) place }
    {
        match self {
            Change::Insertion { at, n, all } => place_after_insert(at, n, advances || all, place),
            Change::Deletion { from, to } => place_after_delete(from, to, place),
        }
    }

    /// A place that no place from `least` on goes in front of.
    pub(crate) fn lowest(self, least: usize) -> usize
        ensures { (advances : Bool) (place : ℕ) → least ≤ place → CanMove self place →
            result ≤ move_of self advances place }
    {
        match self {
            Change::Insertion { at, n, .. } if at < least => least.saturating_add(n),
            Change::Deletion { from, to } if from <= to => place_after_delete(from, to, least),
            _ => least,
        }
    }

    /// A place that no place up to `most` goes behind.
    pub(crate) fn highest(self, most: usize) -> usize
        ensures { (advances : Bool) (place : ℕ) → place ≤ most → CanMove self place →
            move_of self advances place ≤ result }
    {
        match self {
            Change::Insertion { at, n, .. } if at <= most => most.saturating_add(n),
            Change::Deletion { from, to } if from <= to => place_after_delete(from, to, most),
            _ => most,
        }
    }

    /// Whether each place up to `most` stays.
    pub(crate) fn leaves(self, advances: bool, most: usize) -> bool
        ensures { result ≡ true → (place : ℕ) → place ≤ most →
            move_of self (advances || all_of self) place ≡ place }
    {
        match self {
            Change::Insertion { at, all, .. } => most < at || (most == at && !advances && !all),
            Change::Deletion { from, .. } => most <= from,
        }
    }

    /// Whether each place from `least` on moves, and all alike.
    pub(crate) fn carries(self, advances: bool, least: usize) -> bool
        ensures { result ≡ true → (place : ℕ) → least ≤ place → CanMove self place →
            move_of self (advances || all_of self) place ≡ carried self place }
    {
        match self {
            Change::Insertion { at, all, .. } => at < least || (at == least && (advances || all)),
            Change::Deletion { to, .. } => to <= least,
        }
    }

    /// Where an offset goes with all that is counted from it, if there is such a number.
    pub(crate) fn carry(self, offset: usize) -> Option<usize>
        ensures { IfSome result (λ moved. (n : ℕ) → carried self (offset + n) ≡ moved + n) }
    {
        match self {
            Change::Insertion { n, .. } => offset.checked_add(n),
            Change::Deletion { from, to } => offset.checked_sub(to.saturating_sub(from)),
        }
    }
}
