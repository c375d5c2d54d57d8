//! What each of the two neighbours offers.
ghost use Rattle.std.specs.Prelude.{◌≡◌, option_map, ◌==◌};
ghost use Rattle.std.specs.List.{list_any};
ghost use Rattle.text_model.specs.Sticky.{names, is_stickiness};
ghost use Rattle.ek_types.specs.Property.{prop_of};
ghost use Rattle.stickiness.specs.Offers.{offers};

use ek_types::{PropSet, PropVal, Sym};

/// Where a neighbour stands: before or after the insertion.
#[derive(Clone, Copy)]
pub enum Side {
    Before,
    After,
}

/// Whether a list has a name.
fn has_name(list: &[Sym], name: Sym) -> bool
    ensures { result ≡ list_any (λ s. s.0 == name.0) list.now }
{
    list.iter().any(|s| s.0 == name.0)
}

/// Whether a stickiness property names a property.
#[tactic(auto, using(crate::proofs::Names::any_number))]
fn names(value: Option<&PropVal>, name: Sym) -> bool
    ensures { result ≡ names (option_map (λ v. prop_of v.now) value.entry) name.0 }
{
    match value {
        Some(PropVal::Truth) => true,
        Some(PropVal::Syms(list)) => has_name(list.as_slice(), name),
        _ => false,
    }
}

/// Whether a property is one of stickiness itself.
fn is_stickiness(name: Sym) -> bool
    ensures { result ≡ is_stickiness name.0 }
{
    name.0 == Sym::FRONT_STICKY.0 || name.0 == Sym::REAR_NONSTICKY.0
}

impl Side {
    /// Whether a neighbour with these properties offers the one of this name, if it has it.
    pub fn offers(self, set: &PropSet, name: Sym) -> bool
        ensures { result ≡ offers self set.now name.0 }
    {
        if is_stickiness(name) {
            return false;
        }
        match self {
            Side::Before => !names(set.get(Sym::REAR_NONSTICKY), name),
            Side::After => names(set.get(Sym::FRONT_STICKY), name),
        }
    }
}
