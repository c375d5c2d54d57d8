//! The values of properties.
ghost use Rattle.std.specs.Prelude.{◌≡◌, is_none};
ghost use Rattle.text_model.specs.Properties.{given};
ghost use Rattle.ek_types.specs.Property.{prop_of};

use crate::chars::Chars;
use crate::list::{Copied, ListOf};
use crate::memory::Mem;
use crate::symbol::Sym;
use std::rc::Rc;

/// Symbols in order, counted from 0.
pub type SymList = ListOf<Sym>;

/// The value of a text property or an overlay's property, where it isn't nil. An empty list of symbols is nil.
#[derive(Drop)]
pub enum PropVal {
    /// The value `t`.
    Truth,
    Int(i64),
    Sym(Sym),
    Syms(SymList),
    /// A string, whose own properties don't count. Copies share it.
    Text(Rc<Chars>),
}

impl Copied for PropVal {
    ghost use Rattle.text_model.specs.Properties.{PropVal as Value};
    ghost use Rattle.ek_types.specs.Property.{prop_of};

    ghost Seen = { Value };

    ghost seen = { prop_of };

    fn copy(&self) -> Mem<PropVal> {
        match self {
            PropVal::Truth => Ok(PropVal::Truth),
            PropVal::Int(i) => Ok(PropVal::Int(*i)),
            PropVal::Sym(s) => Ok(PropVal::Sym(*s)),
            PropVal::Syms(names) => Ok(PropVal::Syms(names.copy()?)),
            PropVal::Text(text) => Ok(PropVal::Text(text.clone()?)),
        }
    }
}

impl Copied for Sym {
    ghost use Rattle.std.specs.Prelude.{ℕ};
    ghost use Rattle.ek_types.specs.Property.{number_of};

    ghost Seen = { ℕ };

    ghost seen = { number_of };

    fn copy(&self) -> Mem<Sym> {
        Ok(*self)
    }
}

impl PropVal {
    /// Whether the value is nil: an empty list of symbols.
    pub fn is_nil(&self) -> bool
        ensures { result ≡ is_none (given (prop_of self.now)) }
    {
        match self {
            PropVal::Syms(names) => names.len() == 0,
            _ => false,
        }
    }
}
