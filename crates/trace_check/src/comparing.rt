//! A sink that compares what a run writes with claimed bytes.
ghost use Rattle.std.specs.Prelude.{◌≡◌, ◌<◌, ◌-◌, ◌^◌, [], ◌∷◌, ◌++◌, length, IfNone, IfSome};
ghost use Rattle.trace_check.specs.Comparing.{Agrees, comparing_state, DiffersAt};

use ek_types::{Sink, Wrote};
use http_server::Log;
use std::marker::Model;

/// Takes all bytes and keeps none of them. It knows how far they agree with those claimed, of which there are fewer than
/// 2^32 - 1. What it was given is in a history that only proofs read, and it is seen as both.
#[derive(Drop)]
pub(crate) struct ComparingSink<'a> {
    claimed: &'a [u8],
    /// How many bytes agree.
    at: usize,
    /// How many line feeds are among them.
    feeds: u32,
    /// It was given more than that.
    differs: bool,
    given: Log<u8, ()>,
}

impl<'a> Model for ComparingSink<'a> {
    ghost use Rattle.trace_check.specs.Comparing.{Compared, Agrees, firsts};

    ghost Value = { Compared };

    ghost view = { λ s. record { claimed = s.claimed.now; given = firsts s.given.items } };

    ghost invariant = { λ s. Agrees (record { claimed = s.claimed.now; given = firsts s.given.items })
        s.at s.feeds s.differs };
}

impl<'a> ComparingSink<'a> {
    /// Nothing was given so far.
    pub(crate) fn new(claimed: &'a [u8]) -> ComparingSink<'a>
        requires { length claimed.now < 2 ^ 32 - 1 }
        ensures { result ≡ record { claimed = claimed.now; given = [] } }
    {
        ComparingSink {
            claimed,
            at: 0,
            feeds: 0,
            differs: false,
            given: Log::new(),
        }
    }

    /// How far all agrees with this byte behind the others: how many bytes, how many line feeds among them, and
    /// whether there are more.
    fn after(&self, byte: u8) -> (usize, u32, bool)
        ensures { Agrees (record self.now { given = self.now.given ++ byte ∷ [] }) result.0 result.1 result.2 }
    {
        if self.differs {
            return (self.at, self.feeds, true);
        }
        if self.at >= self.claimed.len() {
            return (self.at, self.feeds, true);
        }
        if self.claimed[self.at] != byte {
            return (self.at, self.feeds, true);
        }
        if byte == b'\n' {
            return (self.at + 1, self.feeds + 1, false);
        }
        (self.at + 1, self.feeds, false)
    }

    fn take(&mut self, byte: u8)
        ensures { self.new ≡ record self.old { given = self.old.given ++ byte ∷ [] } }
    {
        let (at, feeds, differs) = self.after(byte);
        self.at = at;
        self.feeds = feeds;
        self.differs = differs;
        self.given = self.given.and(&byte, &());
    }

    /// The line of the first difference, from 1, if there is one.
    pub(crate) fn difference(&self) -> Option<u32>
        ensures none { IfNone result (self.now.claimed ≡ self.now.given) }
        ensures some { IfSome result (λ line. DiffersAt line self.now.claimed self.now.given) }
    {
        if self.differs {
            return Some(self.feeds + 1);
        }
        if self.at < self.claimed.len() {
            return Some(self.feeds + 1);
        }
        None
    }
}

impl<'a> Sink for ComparingSink<'a> {
    ghost state = { comparing_state };

    fn write(&mut self, from: &[u8]) -> Wrote {
        for byte in from {
            self.take(*byte);
        }
        Wrote::Bytes(from.len())
    }
}
