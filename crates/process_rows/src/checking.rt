//! Comparing, and calls about a process that has to be there. Each comparison is a call, so a test that makes many of
//! them branches at none. What a call requires is asserted in a helper with that call, so a test proves none of it.

use ek_types::{Ch, Chars, Sym};
use process_table::{Filter, Process, Processes, Status};
use std::fmt::Debug;
use std::process::Abort;

/// What was found is what was expected.
pub fn is<T: PartialEq + Debug + Drop>(rt: &impl Abort, found: T, expected: T) {
    assert_eq!(rt; found, expected);
}

pub fn holds(rt: &impl Abort, condition: bool) {
    assert!(rt; condition);
}

fn at(rt: &impl Abort, text: &Chars, i: usize) -> Ch {
    assert!(rt; i < text.len());
    text.at(i)
}

/// The characters are these.
pub fn is_text(rt: &impl Abort, out: &Chars, text: &[Ch]) {
    is(rt, out.len(), text.len());
    for (i, c) in text.iter().enumerate() {
        is(rt, at(rt, out, i), *c);
    }
}

/// A process of the table.
pub fn get<'a>(rt: &impl Abort, table: &'a Processes, p: u32) -> &'a Process {
    assert!(rt; p < table.count());
    table.get(p)
}

pub fn set_filter(rt: &impl Abort, table: &mut Processes, p: u32, filter: Filter) {
    assert!(rt; p < table.count());
    table.set_filter(p, filter);
}

pub fn set_sentinel(rt: &impl Abort, table: &mut Processes, p: u32, sentinel: Sym) {
    assert!(rt; p < table.count());
    table.set_sentinel(p, Some(sentinel));
}

pub fn note_end(rt: &impl Abort, table: &mut Processes, p: u32, status: Status) {
    assert!(rt; p < table.count());
    table.note_end(p, status);
}
