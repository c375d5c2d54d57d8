//! The empty list of natives.
use crate::native::{Natives, Next};
use ek_call::{Replies, Values};
use ek_types::Mem;

/// No natives: all handlers are those of the script.
#[derive(Clone, Copy, Debug, PartialEq, Eq)]
pub struct NoNatives;

impl Natives for NoNatives {
    ghost use Rattle.std.specs.Prelude.{[], None};

    ghost names = { λ n. [] };

    ghost does = { λ n i args past. None };

    fn count(&self) -> u32 {
        0
    }

    fn name(&self, _i: u32) -> &str {
        ""
    }

    fn next(&self, _i: u32, _args: &Values, _past: &Replies) -> Mem<Next> {
        Ok(Next::Done)
    }
}
