//! Texts that are put together.

use std::alloc::Global;
use std::process::Abort;

/// Puts a text behind another.
pub fn push(rt: &impl Abort, text: &mut String, more: &str) {
    text.push_str(more).expect(rt, "memory");
}

/// The words of a command line.
pub fn given(rt: &impl Abort, alloc: Global, words: &[&str]) -> Vec<String> {
    let mut given = Vec::new(alloc);
    for word in words {
        given
            .push(String::from_str(alloc, word).expect(rt, "memory"))
            .expect(rt, "memory");
    }
    given
}
