//! A sink that counts what it is given.
ghost use Rattle.std.specs.Prelude.{◌≡◌, ◌≤◌, ◌-◌, ◌%◌, ◌^◌, min, length, [], ◌++◌};
ghost use Rattle.plain_machine.specs.Grammar.{line_feeds};
ghost use Rattle.run_counters.specs.Counting.{counting_state, bytes_given};

use ek_types::{Sink, Wrote};
use http_server::Log;
use std::marker::Model;

/// Takes all bytes and keeps none of them; no call fails. It counts the lines, modulo 2^64, and the bytes, up to
/// 2^64 - 1. What it was given is in a history that only proofs read, and it is seen as these bytes.
#[derive(Drop)]
pub struct CountingSink {
    lines: u64,
    bytes: u64,
    given: Log<u8, ()>,
}

impl Model for CountingSink {
    ghost use Rattle.std.specs.Prelude.{◌≡◌, ◌-◌, ◌%◌, ◌^◌, ℕ, List, min, length};
    ghost use Rattle.plain_machine.specs.Grammar.{line_feeds};
    ghost use Rattle.run_counters.specs.Counting.{bytes_given};

    ghost Value = { List ℕ };

    ghost view = { λ s. bytes_given s.given.items };

    ghost invariant = { λ s. (s.lines ≡ line_feeds (bytes_given s.given.items) % 2 ^ 64) ×
        (s.bytes ≡ min (length (bytes_given s.given.items)) (2 ^ 64 - 1)) };
}

/// How many line feeds stand among few bytes. Small counts let the compiler take many bytes at once.
fn feeds_of_few(bytes: &[u8]) -> u8
    requires { length bytes.now ≤ 240 }
    ensures exact { result ≡ line_feeds bytes.now }
    ensures few { result ≤ length bytes.now }
{
    let mut count = 0;
    for byte in bytes {
        if *byte == b'\n' {
            count += 1;
        }
    }
    count
}

/// How many line feeds stand among the bytes.
fn feeds(bytes: &[u8]) -> u64
    ensures { result ≡ line_feeds bytes.now }
{
    let mut count = 0;
    let mut left = bytes;
    while left.len() > 240 {
        let (few, behind) = left.split_at(240);
        count += u64::from(feeds_of_few(few));
        left = behind;
    }
    count + u64::from(feeds_of_few(left))
}

/// Puts bytes into the history; at run time this does nothing.
fn note(given: &mut Log<u8, ()>, bytes: &[u8])
    ensures { bytes_given given.new.items ≡ bytes_given given.old.items ++ bytes.now }
{
    for byte in bytes {
        *given = given.and(byte, &());
    }
}

impl CountingSink {
    /// A sink that was given nothing so far.
    pub fn new() -> CountingSink
        ensures { result ≡ [] }
    {
        CountingSink {
            lines: 0,
            bytes: 0,
            given: Log::new(),
        }
    }

    /// How many lines it was given, modulo 2^64.
    pub fn lines(&self) -> u64
        ensures { result ≡ line_feeds self.now % 2 ^ 64 }
    {
        self.lines
    }

    /// How many bytes it was given, or 2^64 - 1 where they were more.
    pub fn bytes(&self) -> u64
        ensures { result ≡ min (length self.now) (2 ^ 64 - 1) }
    {
        self.bytes
    }

    fn take(&mut self, bytes: &[u8])
        ensures { self.new ≡ self.old ++ bytes.now }
    {
        self.lines = self.lines.wrapping_add(feeds(bytes));
        self.bytes = self.bytes.saturating_add(bytes.len() as u64);
        note(&mut self.given, bytes);
    }
}

impl Sink for CountingSink {
    ghost state = { counting_state };

    fn write(&mut self, from: &[u8]) -> Wrote {
        self.take(from);
        Wrote::Bytes(from.len())
    }
}
