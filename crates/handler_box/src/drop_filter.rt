//! The filter that drops all output.
use crate::handler::Handler;
use ek_call::{Replies, Values};
use ek_types::Mem;
use handler_code::Next;

/// The filter `drop-filter`, which makes no call.
#[derive(Clone, Copy, Debug, PartialEq, Eq)]
pub struct DropFilter;

impl DropFilter {
    /// The filter.
    pub fn new() -> DropFilter {
        DropFilter
    }
}

impl Handler for DropFilter {
    ghost use Rattle.std.specs.Prelude.{codes};
    ghost use Rattle.plain_machine.specs.Shipped.{drop_filter};

    ghost called = { λ h. codes "drop-filter" };

    ghost does = { λ h args past. drop_filter args past };

    fn name(&self) -> &str {
        "drop-filter"
    }

    fn next(&self, _args: &Values, _past: &Replies) -> Mem<Next> {
        Ok(Next::Done)
    }
}
