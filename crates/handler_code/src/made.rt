//! What was made in a run.
ghost use Rattle.std.specs.Prelude.{◌≡◌, map};
ghost use Rattle.std.specs.List.{list_all};
ghost use Rattle.plain_machine.specs.Natives.{is_symbol_there, prop_was_made, set_was_made, was_made};
ghost use Rattle.ek_types.specs.Listing.{items_of};
ghost use Rattle.ek_types.specs.Property.{prop_of};
ghost use Rattle.ek_call.specs.Meaning.{view};
ghost use Rattle.handler_code.specs.Counts.{program_with, state_with};

use ek_call::{Value, Values};
use ek_types::{Piece, PropSet, PropVal, Sym};

/// How many symbols and objects of each kind were made so far. Each is given by its number, counted from 0, so those
/// of smaller numbers are there.
#[derive(Clone, Copy, Debug, PartialEq, Eq)]
pub struct Made {
    pub symbols: u32,
    pub buffers: u32,
    pub markers: u32,
    pub overlays: u32,
    pub processes: u32,
}

impl Made {
    /// Whether a symbol was made.
    fn has_symbol(&self, name: Sym) -> bool
        ensures { result ≡ is_symbol_there (program_with self.now) name.0 }
    {
        name.0 < self.symbols
    }

    /// Whether all symbols in the value of a property were made.
    fn has_property(&self, value: &PropVal) -> bool
        ensures { result ≡ prop_was_made (program_with self.now) (prop_of value.now) }
    {
        match value {
            PropVal::Sym(name) => self.has_symbol(*name),
            PropVal::Syms(names) => self.has_symbols(names.as_slice()),
            _ => true,
        }
    }

    /// Whether all symbols of a list were made.
    fn has_symbols(&self, names: &[Sym]) -> bool
        ensures { result ≡ list_all (λ n. is_symbol_there (program_with self.now) n.0) names.now }
    {
        names.iter().all(|n| self.has_symbol(*n))
    }

    /// Whether all symbols in a property set were made.
    fn has_properties(&self, set: &PropSet) -> bool
        ensures { result ≡ set_was_made (program_with self.now) set.now }
    {
        for i in 0..set.len() {
            let (name, value) = set.at(i);
            if !self.has_symbol(name) {
                return false;
            }
            if !self.has_property(value) {
                return false;
            }
        }
        true
    }

    /// Whether all symbols in the properties of a text were made.
    fn has_text(&self, text: &Piece) -> bool
        ensures { result ≡ list_all (λ c. set_was_made (program_with self.now) c.1) text.now }
    {
        let mut at = 0;
        while at < text.len() {
            if !self.has_properties(text.props(at)) {
                return false;
            }
            at = text.run_end(at);
        }
        true
    }
}

/// Whether all symbols and objects that a value is or contains were made.
#[cycle(made)]
pub(crate) fn is_made(value: &Value, made: &Made) -> bool
    ensures { result ≡ was_made (program_with made.now) (state_with made.now) (view value.now) }
{
    match value {
        Value::Sym(name) => made.has_symbol(*name),
        Value::Str(text) => made.has_text(text),
        Value::List(items) => are_made(items, made),
        Value::Dot(items, tail) => {
            if !are_made(items, made) {
                return false;
            }
            is_made(tail, made)
        }
        Value::Buffer(b) => *b < made.buffers,
        Value::Marker(k) => *k < made.markers,
        Value::Overlay(k) => *k < made.overlays,
        Value::Process(p) => *p < made.processes,
        _ => true,
    }
}

/// Whether all symbols and objects in some values were made.
#[cycle(made)]
pub(crate) fn are_made(values: &Values, made: &Made) -> bool
    ensures { result ≡ list_all (was_made (program_with made.now) (state_with made.now))
        (map view (items_of values.now)) }
{
    for i in 0..values.len() {
        if !is_made(values.at(i), made) {
            return false;
        }
    }
    true
}
