//! The symbols of the natives of a run.
ghost use Rattle.std.specs.Prelude.{◌≡◌, ◌≤◌, length, map, unwrap_or, IfOk};
ghost use Rattle.text_model.specs.Names.{number_from};
ghost use Rattle.plain_machine.specs.Arguments.{native_from};
ghost use Rattle.ek_types.specs.Listing.{items_of};
ghost use Rattle.ek_types.specs.Property.{number_of};

use ek_types::{ListOf, Mem, Sym, SymList, Symbols};
use handler_code::Natives;
use std::alloc::Global;

/// The symbols of the natives, in their order.
#[derive(Drop)]
pub struct NativeNames {
    list: SymList,
    ghost few: { length (items_of list) ≤ 65536 },
}

/// The symbol of a name; the first one where it has none.
fn symbol_in(symbols: &Symbols, name: &str) -> Sym
    ensures { result.0 ≡ unwrap_or (number_from 0 symbols.now name.now) 0 }
{
    match symbols.find(name) {
        Some(symbol) => symbol,
        None => Sym(0),
    }
}

impl NativeNames {
    /// The symbols of the names of some natives.
    pub fn new<N: Natives>(alloc: Global, symbols: &Symbols, natives: &N) -> Mem<NativeNames>
        ensures { IfOk result (λ names. map number_of (items_of names.list) ≡
            map (λ name. unwrap_or (number_from 0 symbols.now name) 0) (N.names natives.now)) }
    {
        let mut list = ListOf::new(alloc);
        for i in 0..natives.count() {
            list.push(symbol_in(symbols, natives.name(i)))?;
        }
        Ok(NativeNames { list })
    }

    /// The least number of a native of a name.
    pub fn find(&self, name: Sym) -> Option<u32>
        ensures { result ≡ native_from 0 (map number_of (items_of self.now.list)) name.0 }
    {
        for i in 0..self.list.len() {
            if self.list.at(i).0 == name.0 {
                return Some(i as u32);
            }
        }
        None
    }
}
