//! Symbols and their numbers.

use crate::checking::is;
use ek_types::{Sym, Symbols};
use std::process::Abort;

/// The number of a name, which then bears that name.
fn number(rt: &impl Abort, symbols: &mut Symbols, name: &str) -> u32 {
    assert!(rt; symbols.count() < 100);
    let symbol = symbols.intern(name).expect(rt, "memory");
    is(rt, symbols.name(symbol), name);
    symbol.0
}

/// The names of `(defhandler h (b e) (delete-region 1 2)) (add-hook 'before-change-functions 'h) (setq m (copy-marker
/// 2))` with their numbers, the words for calls left out.
const OF_A_SCRIPT: [(&str, u32); 6] = [
    ("h", 17),
    ("b", 18),
    ("e", 19),
    ("before-change-functions", 4),
    ("h", 17),
    ("m", 20),
];

fn are_numbered(rt: &impl Abort, symbols: &mut Symbols) {
    is(rt, symbols.count(), 17);
    for (name, expected) in &OF_A_SCRIPT {
        is(rt, number(rt, symbols, name), *expected);
    }
}

fn are_found(rt: &impl Abort, symbols: &Symbols) {
    is(rt, symbols.count(), 21);
    is(rt, symbols.find("e"), Some(Sym(19)));
    is(rt, symbols.find("insert"), None);
}

fn are_copied(rt: &impl Abort, symbols: &Symbols) {
    let copy = symbols.copy().expect(rt, "memory");
    are_found(rt, &copy);
}

#[test]
fn the_names_of_a_script_are_numbered_in_their_order(rt: HostRuntime) {
    let mut symbols = Symbols::new(rt.alloc()).expect(&rt, "memory");
    are_numbered(&rt, &mut symbols);
    are_copied(&rt, &symbols);
}

/// The names in the order of their numbers, with their symbols.
const NAMES: [(&str, Sym); 17] = [
    ("front-sticky", Sym::FRONT_STICKY),
    ("rear-nonsticky", Sym::REAR_NONSTICKY),
    ("evaporate", Sym::EVAPORATE),
    ("priority", Sym::PRIORITY),
    ("before-change-functions", Sym::BEFORE_CHANGE_FUNCTIONS),
    ("after-change-functions", Sym::AFTER_CHANGE_FUNCTIONS),
    ("run", Sym::RUN),
    ("exit", Sym::EXIT),
    ("signal", Sym::SIGNAL),
    ("failed", Sym::FAILED),
    ("read-only", Sym::READ_ONLY),
    ("invisible", Sym::INVISIBLE),
    ("before-string", Sym::BEFORE_STRING),
    ("after-string", Sym::AFTER_STRING),
    ("utf-8-unix", Sym::UTF_8_UNIX),
    ("utf-8-dos", Sym::UTF_8_DOS),
    ("latin-1-unix", Sym::LATIN_1_UNIX),
];

fn have_numbers(rt: &impl Abort, symbols: &Symbols) {
    for (i, (name, symbol)) in NAMES.iter().enumerate() {
        is(rt, symbol.0, i as u32);
        is(rt, symbols.find(name), Some(*symbol));
    }
}

#[test]
fn names_of_every_script_have_their_numbers(rt: HostRuntime) {
    let symbols = Symbols::new(rt.alloc()).expect(&rt, "memory");
    have_numbers(&rt, &symbols);
}
