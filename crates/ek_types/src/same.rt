//! Whether two characters, texts, values of properties or property sets are the same.
ghost use Rattle.std.specs.Prelude.{◌≡◌, ◌<◌, ◌==◌, ◌&&◌, map, option_map};
ghost use Rattle.text_model.specs.Properties.{same_set, same_value, same_list, same_ch, same_option};
ghost use Rattle.ek_types.specs.Property.{prop_of, number_of};
ghost use Rattle.ek_types.specs.Listing.{items_of};
ghost use Rattle.ek_types.specs.Seen.{ch_of};

use crate::character::Ch;
use crate::chars::Chars;
use crate::prop_set::PropSet;
use crate::property::{PropVal, SymList};
use crate::symbol::Sym;

impl Ch {
    /// Whether it is the same character.
    pub fn same(self, other: Ch) -> bool
        ensures { result ≡ same_ch (ch_of self) (ch_of other) }
    {
        match (self, other) {
            (Ch::Scalar(x), Ch::Scalar(y)) => x == y,
            (Ch::Raw(x), Ch::Raw(y)) => x == y,
            _ => false,
        }
    }
}

impl Chars {
    /// Whether these are the same characters.
    pub fn same(&self, other: &Chars) -> bool
        ensures { result ≡ same_list same_ch self.now.items other.now.items }
    {
        self.codes() == other.codes()
    }
}

fn same_names(a: &SymList, b: &SymList) -> bool
    ensures { result ≡ same_list (λ x y. x == y) (map number_of (items_of a.now))
        (map number_of (items_of b.now)) }
{
    if a.len() != b.len() {
        return false;
    }
    for i in 0..a.len() {
        if a.at(i).0 != b.at(i).0 {
            return false;
        }
    }
    true
}

impl PropVal {
    /// Whether it is the same value.
    pub fn same(&self, other: &PropVal) -> bool
        ensures { result ≡ same_value (prop_of self.now) (prop_of other.now) }
    {
        match (self, other) {
            (PropVal::Truth, PropVal::Truth) => true,
            (PropVal::Int(x), PropVal::Int(y)) => x == y,
            (PropVal::Sym(x), PropVal::Sym(y)) => x.0 == y.0,
            (PropVal::Syms(x), PropVal::Syms(y)) => same_names(x, y),
            (PropVal::Text(x), PropVal::Text(y)) => x.as_ref().same(y.as_ref()),
            _ => false,
        }
    }
}

/// Whether two values are the same, where nil is `None`.
pub fn same_option(a: Option<&PropVal>, b: Option<&PropVal>) -> bool
    ensures { result ≡ same_option same_value (option_map (λ v. prop_of v.now) a.entry)
        (option_map (λ v. prop_of v.now) b.entry) }
{
    match (a, b) {
        (None, None) => true,
        (Some(v), Some(w)) => v.same(w),
        _ => false,
    }
}

fn same_pair(x: Sym, v: &PropVal, y: Sym, w: &PropVal) -> bool
    ensures { result ≡ ((x.0 == y.0) && same_value (prop_of v.now) (prop_of w.now)) }
{
    x.0 == y.0 && v.same(w)
}

impl PropSet {
    /// Whether these are the same properties with the same values.
    pub fn same(&self, other: &PropSet) -> bool
        ensures { result ≡ same_set self.now other.now }
    {
        if self.len() != other.len() {
            return false;
        }
        for i in 0..self.len() {
            let (x, v) = self.at(i);
            let (y, w) = other.at(i);
            if !same_pair(x, v, y, w) {
                return false;
            }
        }
        true
    }
}
