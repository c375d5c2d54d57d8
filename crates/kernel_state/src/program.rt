//! What is fixed for a run.
ghost use Rattle.std.specs.Prelude.{◌≡◌, map, option_map, IfOk};
ghost use Rattle.plain_machine.specs.Arguments.{handler_def};
ghost use Rattle.plain_machine.specs.Symbols.{with_names};
ghost use Rattle.ek_types.specs.Listing.{items_of};
ghost use Rattle.ek_call.specs.Meaning.{handler_of, script_of};
ghost use Rattle.kernel_state.specs.Whole.{meant_of, program_with};

use crate::native_names::NativeNames;
use ek_call::{Forms, HandlerDef, HandlerDefs, Replies, Script, Values};
use ek_types::{Mem, NoMemory, Sym, Symbols};
use handler_code::{Natives, Next};
use kernel_steps::Program;
use std::alloc::Global;

/// The most symbols of a script.
const MOST_SYMBOLS: u32 = 1 << 31;

/// The handlers of a script and the natives of a run, with all names.
#[derive(Drop)]
pub struct RunProgram<'a, N: Natives> {
    symbols: Symbols,
    handlers: &'a HandlerDefs,
    natives: &'a N,
    names: NativeNames,
}

/// The symbols of a script, and behind them the names of the natives.
fn symbols_with<N: Natives>(script: &Script, natives: &N) -> Mem<Symbols>
    ensures { IfOk result (λ symbols. symbols ≡ with_names script.now.symbols (N.names natives.now)) }
{
    let mut symbols = script.symbols.copy()?;
    if symbols.count() >= MOST_SYMBOLS {
        return Err(NoMemory);
    }
    for i in 0..natives.count() {
        symbols.intern(natives.name(i))?;
    }
    Ok(symbols)
}

impl<'a, N: Natives> RunProgram<'a, N> {
    /// The program that a script makes with some natives. 2^31 names of a script or more count as want of memory.
    pub fn new(alloc: Global, script: &'a Script, natives: &'a N) -> Mem<RunProgram<'a, N>>
        ensures { IfOk result (λ p. meant_of N.does p ≡
            program_with N.names N.does (script_of script.now) natives.now) }
    {
        let symbols = symbols_with(script, natives)?;
        let names = NativeNames::new(alloc, &symbols, natives)?;
        Ok(RunProgram {
            symbols,
            handlers: &script.handlers,
            natives,
            names,
        })
    }

    /// The script's handler of a name.
    fn handler(&self, name: Sym) -> Option<&HandlerDef>
        ensures { option_map (λ d. handler_of d.now) result ≡
            handler_def (map handler_of (items_of self.now.handlers.now)) name.0 }
    {
        for i in 0..self.handlers.len() {
            let handler = self.handlers.at(i);
            if handler.name.0 == name.0 {
                return Some(handler);
            }
        }
        None
    }
}

impl<N: Natives> Program for RunProgram<'_, N> {
    ghost meant = { meant_of N.does };

    fn symbols(&self) -> &Symbols {
        &self.symbols
    }

    fn body(&self, name: Sym) -> Option<&Forms> {
        match self.handler(name) {
            Some(handler) => Some(&handler.body),
            None => None,
        }
    }

    fn params(&self, handler: Option<Sym>) -> &[Sym] {
        let Some(name) = handler else {
            return &[];
        };
        match self.handler(name) {
            Some(handler) => handler.params.as_slice(),
            None => &[],
        }
    }

    fn is_handler(&self, name: Sym) -> bool {
        self.handler(name).is_some() || self.names.find(name).is_some()
    }

    fn native(&self, name: Sym) -> u32 {
        self.names.find(name).unwrap_or(0)
    }

    fn next(&self, native: u32, args: &Values, past: &Replies) -> Mem<Next> {
        self.natives.next(native, args, past)
    }
}
