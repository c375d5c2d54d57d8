//! A sink that keeps nothing.
ghost use Rattle.ek_types.specs.NullSinks.{null_state};

use crate::io::{Sink, Wrote};

/// Takes every byte and tells nothing. No call fails.
#[derive(Clone, Copy, Debug, PartialEq, Eq)]
pub struct NullSink;

impl NullSink {
    pub fn new() -> NullSink {
        NullSink
    }
}

impl Sink for NullSink {
    ghost state = { λ _. null_state };

    fn write(&mut self, from: &[u8]) -> Wrote {
        Wrote::Bytes(from.len())
    }
}
