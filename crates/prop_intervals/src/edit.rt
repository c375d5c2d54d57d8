//! Changes of property sets.
ghost use Rattle.std.specs.Prelude.{◌≡◌, ◌+◌, ◌<◌, IfOk, length, map, drop};
ghost use Rattle.text_model.specs.Properties.{edited, put_all, without_all};
ghost use Rattle.text_model.specs.Ordered.{IsProper};
ghost use Rattle.ek_types.specs.Listing.{items_of};
ghost use Rattle.ek_types.specs.Property.{number_of};
ghost use Rattle.prop_intervals.specs.Edits.{edit_of};

use ek_types::{Mem, PropSet, SymList};

/// A change of the properties of each character of a part ("Changing Properties" in the GNU Emacs Lisp Reference
/// Manual).
#[derive(Drop)]
pub enum PropEdit {
    /// Takes away the properties of the list, and then gives those of the set anew.
    Add(PropSet, SymList),
    /// Takes away the properties of the list.
    Remove(SymList),
    /// Gives this set in place of the old one.
    Replace(PropSet),
}

/// A set with one property of another given anew.
fn with_one(set: PropSet, more: &PropSet, i: usize) -> Mem<PropSet>
    requires within { i < length more.now }
    requires proper { IsProper more.now }
    ensures { IfOk result (λ s. put_all s (drop (i + 1) more.now) ≡ put_all set (drop i more.now)) }
{
    let (name, value) = more.at(i);
    set.with(name, value)
}

/// A set with the properties of another given anew.
fn with_all(set: PropSet, more: &PropSet) -> Mem<PropSet>
    ensures { IfOk result (λ s. s ≡ put_all set more.now) }
{
    let mut set = set;
    for i in 0..more.len() {
        set = with_one(set, more, i)?;
    }
    Ok(set)
}

/// A set without the properties of a list.
fn without_all(set: &PropSet, names: &SymList) -> Mem<PropSet>
    ensures { IfOk result (λ s. s ≡ without_all set.now (map number_of (items_of names.now))) }
{
    let mut left = set.copy()?;
    for i in 0..names.len() {
        left = left.without(*names.at(i));
    }
    Ok(left)
}

impl PropEdit {
    /// What becomes of a set.
    pub(crate) fn edited(&self, set: &PropSet) -> Mem<PropSet>
        ensures { IfOk result (λ s. s ≡ edited (edit_of self.now) set.now) }
    {
        match self {
            PropEdit::Add(more, gone) => with_all(without_all(set, gone)?, more),
            PropEdit::Remove(gone) => without_all(set, gone),
            PropEdit::Replace(new) => new.copy(),
        }
    }
}
