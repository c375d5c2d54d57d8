//! Exchanges as text.

use host_link::{Exchange, Exchanges};
use std::alloc::Global;
use std::process::Abort;

/// An exchange as text.
pub fn shown_one(rt: &impl Abort, alloc: Global, x: &Exchange) -> String {
    format!(in alloc; "{x}").expect(rt, "memory")
}

/// A line for each exchange.
pub fn shown(rt: &impl Abort, alloc: Global, exchanges: &Exchanges) -> Vec<u8> {
    let mut text = String::new(alloc);
    for x in exchanges.as_slice() {
        writeln!(text, "{x}").expect(rt, "memory");
    }
    text.into_bytes()
}
