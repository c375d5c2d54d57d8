//! Arguments of calls as words, and the values that they stand for.
//!
//! An argument is `nil`, `t`, a number, a symbol, a string in quotes, a list in square brackets, or an object by its kind and
//! its number, as `marker:0`. Objects count from 0 in the order in which they are made. Behind a string a ` / ` begins each run
//! of it: its two ends, and the names and values of its properties. As a value among these, or inside a list, a list of symbols
//! stands in round brackets, with commas.

use crate::checking::{at_most, holds};
use ek_call::{Value, Values};
use ek_types::{Ch, Chars, Piece, PropSet, PropVal, Sym, SymList};
use std::alloc::Global;
use std::process::Abort;
use std::rc::Rc;

/// The names of the symbols by their numbers. The last three are those of these tests.
pub const NAMES: [&str; 20] = [
    "front-sticky",
    "rear-nonsticky",
    "evaporate",
    "priority",
    "before-change-functions",
    "after-change-functions",
    "run",
    "exit",
    "signal",
    "failed",
    "read-only",
    "invisible",
    "before-string",
    "after-string",
    "utf-8-unix",
    "utf-8-dos",
    "latin-1-unix",
    "face",
    "bold",
    "italic",
];

pub fn chars(rt: &impl Abort, alloc: Global, text: &str) -> Chars {
    let mut chars = Chars::new(alloc);
    for c in text.chars() {
        chars.push(Ch::Scalar(c)).expect(rt, "memory");
    }
    chars
}

/// A string without properties.
pub fn plain(rt: &impl Abort, alloc: Global, text: &str) -> Piece {
    Piece::plain(alloc, chars(rt, alloc, text)).expect(rt, "memory")
}

/// What stands between two brackets, or quotes.
fn between(word: &str, first: char, last: char) -> &str {
    let word = word.strip_prefix(first).unwrap_or(word);
    word.strip_suffix(last).unwrap_or(word)
}

/// The symbol of a name.
fn symbol(rt: &impl Abort, name: &str) -> Sym {
    for (i, known) in NAMES.iter().enumerate() {
        if *known == name {
            return Sym(i as u32);
        }
    }
    holds(rt, false);
    Sym(0)
}

fn symbols(rt: &impl Abort, alloc: Global, names: &str) -> SymList {
    let mut list = SymList::new(alloc);
    for name in names.split(',') {
        list.push(symbol(rt, name)).expect(rt, "memory");
    }
    list
}

fn text(rt: &impl Abort, alloc: Global, letters: &str) -> PropVal {
    PropVal::Text(Rc::new(alloc, chars(rt, alloc, letters)).expect(rt, "memory"))
}

/// The value of a property that a name stands for.
fn named(rt: &impl Abort, name: &str) -> PropVal {
    if name == "t" {
        PropVal::Truth
    } else {
        PropVal::Sym(symbol(rt, name))
    }
}

fn property(rt: &impl Abort, alloc: Global, word: &str) -> PropVal {
    match word.as_bytes().first() {
        Some(b'"') => text(rt, alloc, between(word, '"', '"')),
        Some(b'(') => PropVal::Syms(symbols(rt, alloc, between(word, '(', ')'))),
        Some(b'-' | b'0'..=b'9') => PropVal::Int(word.parse::<i64>().unwrap_or(0)),
        _ => named(rt, word),
    }
}

fn with(rt: &impl Abort, set: PropSet, name: Sym, value: &PropVal) -> PropSet {
    set.with(name, value).expect(rt, "memory")
}

/// The set of these names and values, one behind the other.
fn set(rt: &impl Abort, alloc: Global, words: &str) -> PropSet {
    let mut set = PropSet::empty(alloc);
    let mut name = None;
    for word in words.split(' ') {
        match name {
            Some(known) => {
                set = with(rt, set, known, &property(rt, alloc, word));
                name = None;
            }
            None => name = Some(symbol(rt, word)),
        }
    }
    set
}

/// Gives a part of a string these properties.
fn put(rt: &impl Abort, piece: &mut Piece, from: usize, to: usize, set: &PropSet) {
    at_most(rt, from, to);
    at_most(rt, to, piece.len());
    piece.put(from, to, set).expect(rt, "memory");
}

/// The number that a word stands for.
pub fn number(word: &str) -> usize {
    word.parse::<usize>().unwrap_or(0)
}

/// Gives a run of a string its properties.
fn style(rt: &impl Abort, alloc: Global, piece: &mut Piece, run: &str) {
    let (from, behind) = run.split_once(' ').unwrap_or((run, ""));
    let (to, words) = behind.split_once(' ').unwrap_or((behind, ""));
    let set = set(rt, alloc, words);
    put(rt, piece, number(from), number(to), &set);
}

fn styled(rt: &impl Abort, alloc: Global, text: &str, runs: &str) -> Piece {
    let mut piece = plain(rt, alloc, between(text, '"', '"'));
    for run in runs.split(" / ") {
        style(rt, alloc, &mut piece, run);
    }
    piece
}

fn string(rt: &impl Abort, alloc: Global, word: &str) -> Piece {
    match word.split_once(" / ") {
        Some((text, runs)) => styled(rt, alloc, text, runs),
        None => plain(rt, alloc, between(word, '"', '"')),
    }
}

fn symbol_list(rt: &impl Abort, alloc: Global, names: &str) -> Values {
    let mut list = Values::new(alloc);
    for name in names.split(',') {
        list.push(Value::Sym(symbol(rt, name))).expect(rt, "memory");
    }
    list
}

fn object(kind: &str, number: u32) -> Value {
    match kind {
        "buffer" => Value::Buffer(number),
        "marker" => Value::Marker(number),
        "overlay" => Value::Overlay(number),
        _ => Value::Process(number),
    }
}

fn constant(rt: &impl Abort, name: &str) -> Value {
    match name {
        "nil" => Value::Nil,
        "t" => Value::T,
        _ => Value::Sym(symbol(rt, name)),
    }
}

/// The value of a word that begins with a letter.
fn object_or_constant(rt: &impl Abort, word: &str) -> Value {
    match word.split_once(':') {
        Some((kind, number)) => object(kind, number.parse::<u32>().unwrap_or(0)),
        None => constant(rt, word),
    }
}

fn item(rt: &impl Abort, alloc: Global, word: &str) -> Value {
    match word.as_bytes().first() {
        Some(b'"') => Value::Str(string(rt, alloc, word)),
        Some(b'(') => Value::List(symbol_list(rt, alloc, between(word, '(', ')'))),
        Some(b'-' | b'0'..=b'9') => Value::Int(word.parse::<i64>().unwrap_or(0)),
        _ => object_or_constant(rt, word),
    }
}

fn items(rt: &impl Abort, alloc: Global, words: &str) -> Values {
    let mut list = Values::new(alloc);
    for word in words.split(' ') {
        list.push(item(rt, alloc, word)).expect(rt, "memory");
    }
    list
}

/// The value of an argument.
pub fn value(rt: &impl Abort, alloc: Global, word: &str) -> Value {
    if word.starts_with('[') {
        Value::List(items(rt, alloc, between(word, '[', ']')))
    } else {
        item(rt, alloc, word)
    }
}

/// The values of arguments, with ` | ` between any two.
pub fn arguments(rt: &impl Abort, alloc: Global, words: &str) -> Values {
    let mut list = Values::new(alloc);
    for word in words.split(" | ") {
        if !word.is_empty() {
            list.push(value(rt, alloc, word)).expect(rt, "memory");
        }
    }
    list
}
