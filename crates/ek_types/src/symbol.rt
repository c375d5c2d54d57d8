//! Names and their numbers.
ghost use Rattle.std.specs.Prelude.{◌≡◌, ℕ, ◌+◌, ◌<◌, ◌^◌, length, List, [], ◌∷◌, ◌++◌, map, Some};
ghost use Rattle.std.specs.Prelude.{None, IfOk, OnOk, OnErr, slice_get, string_bytes, fold, take};
ghost use Rattle.std.specs.Option.{option_map};
ghost use Rattle.text_model.specs.Names.{first_symbols, with_name};
ghost use Rattle.ek_types.specs.Property.{number_of};
ghost use Rattle.ek_types.specs.Names.{number_in, AreNumbered};

use crate::memory::Mem;
use indexmap::IndexSet;
use std::alloc::Global;
use std::marker::Model;

/// The names that have a number in every script.
const FIRST_NAMES: [&str; 17] = [
    "front-sticky",
    "rear-nonsticky",
    "evaporate",
    "priority",
    "before-change-functions",
    "after-change-functions",
    "run",
    "exit",
    "signal",
    "failed",
    "read-only",
    "invisible",
    "before-string",
    "after-string",
    "utf-8-unix",
    "utf-8-dos",
    "latin-1-unix",
];

/// A symbol: the number of its name among the `Symbols`.
#[derive(Clone, Copy, Debug, PartialEq, Eq)]
pub struct Sym(pub u32);

/// The symbols that have the same number in every script: the places of their names in `FIRST_NAMES`.
impl Sym {
    pub const FRONT_STICKY: Sym = Sym(0);

    pub const REAR_NONSTICKY: Sym = Sym(1);

    pub const EVAPORATE: Sym = Sym(2);

    pub const PRIORITY: Sym = Sym(3);

    pub const BEFORE_CHANGE_FUNCTIONS: Sym = Sym(4);

    pub const AFTER_CHANGE_FUNCTIONS: Sym = Sym(5);

    pub const RUN: Sym = Sym(6);

    pub const EXIT: Sym = Sym(7);

    pub const SIGNAL: Sym = Sym(8);

    pub const FAILED: Sym = Sym(9);

    pub const READ_ONLY: Sym = Sym(10);

    pub const INVISIBLE: Sym = Sym(11);

    pub const BEFORE_STRING: Sym = Sym(12);

    pub const AFTER_STRING: Sym = Sym(13);

    pub const UTF_8_UNIX: Sym = Sym(14);

    pub const UTF_8_DOS: Sym = Sym(15);

    pub const LATIN_1_UNIX: Sym = Sym(16);
}

/// Names, each with its number, which are counted from 0 in the order of first use and never change.
#[derive(Drop)]
pub struct Symbols {
    names: IndexSet<String>,
}

impl Model for Symbols {
    ghost use Rattle.std.specs.Prelude.{ℕ, ◌<◌, ◌^◌, length, List, map, string_bytes};
    ghost use Rattle.ek_types.specs.Names.{AreNumbered};

    ghost Value = { List (List ℕ) };

    ghost view = { λ s. map string_bytes s.names.keys };

    ghost invariant = { λ s. AreNumbered (map string_bytes s.names.keys) ×
        (length s.names.keys < 2 ^ 32) };
}

impl Symbols {
    /// The names that have a number in every script.
    pub fn new(alloc: Global) -> Mem<Symbols>
        ensures { IfOk result (λ s. s ≡ first_symbols) }
    {
        let mut symbols = Symbols {
            names: IndexSet::new(alloc),
        };
        symbols.intern_all(&FIRST_NAMES)?;
        Ok(symbols)
    }

    /// How many names there are.
    pub fn count(&self) -> u32
        ensures count { result ≡ length self.now }
        ensures few { length self.now < 2 ^ 32 }
        ensures numbered { AreNumbered self.now }
    {
        self.names.len() as u32
    }

    /// The symbol of a name, if it has one.
    pub fn find(&self, name: &str) -> Option<Sym>
        ensures { option_map number_of result ≡ number_in self.now name.now }
    {
        match self.names.get_index_of(name) {
            Some(number) => Some(Sym(number as u32)),
            None => None,
        }
    }

    /// The name of a symbol, whose number is below the count.
    pub fn name(&self, s: Sym) -> &str
        requires { s.0 < length self.now }
        ensures { slice_get self.now s.0 ≡ Some result.now }
    {
        self.names.get_index(s.0 as usize).unwrap().as_str()
    }

    /// The symbol of a name, which gets the next number where it has none. There are fewer than 2^32 - 1 names before.
    /// Want of memory leaves the names as they were.
    pub fn intern(&mut self, name: &str) -> Mem<Sym>
        requires { length self.old + 1 < 2 ^ 32 }
        ensures names { OnOk result (self.new ≡ with_name self.old name.now) }
        ensures number { IfOk result (λ s. number_in self.new name.now ≡ Some s.0) }
        ensures stands { IfOk result (λ s. slice_get self.new s.0 ≡ Some name.now) }
        ensures err { OnErr result (self.new ≡ self.old) }
    {
        match self.find(name) {
            Some(found) => Ok(found),
            None => {
                let number = self.count();
                self.put_last(name)?;
                Ok(Sym(number))
            }
        }
    }

    /// Gives each of these names a number in turn, where it has none. They and the names before are fewer than 2^32. Want
    /// of memory leaves some of the first of them in.
    pub fn intern_all(&mut self, names: &[&str]) -> Mem<()>
        requires { length self.old + length names.now < 2 ^ 32 }
        ensures ok { OnOk result
            (self.new ≡ fold with_name self.old (map (λ name. name.now) names.now)) }
        ensures err { OnErr result ((k : ℕ) ×
            (self.new ≡ fold with_name self.old (map (λ name. name.now) (take k names.now)))) }
    {
        for name in names {
            self.intern(name)?;
        }
        Ok(())
    }

    /// Gives a name that has no number the next one.
    fn put_last(&mut self, name: &str) -> Mem<()>
        requires absent { number_in self.old name.now ≡ None }
        requires room { length self.old + 1 < 2 ^ 32 }
        ensures ok { OnOk result (self.new ≡ self.old ++ name.now ∷ []) }
        ensures err { OnErr result (self.new ≡ self.old) }
    {
        let text = String::from_str(*self.names.allocator(), name)?;
        self.names.insert(text)?;
        Ok(())
    }

    /// The same names with the same numbers.
    pub fn copy(&self) -> Mem<Symbols>
        ensures { IfOk result (λ s. s ≡ self.now) }
    {
        let names = self.names.clone()?;
        Ok(Symbols { names })
    }
}
