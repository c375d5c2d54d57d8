//! A source and a sink in memory. Both tell what they hold.
ghost use Rattle.std.specs.Prelude.{◌≡◌, ◌≤◌, ◌<◌, length, vec_len, vec_capacity, IfOk, [], drop};
ghost use Rattle.std.specs.Prelude.{IsTrue};
ghost use Rattle.ek_types.specs.Io.{HasCause, Takes, Puts, StaysUnfailing, StaysRoomy};
ghost use Rattle.ek_types.specs.MemoryIo.{MemorySourceState, MemorySinkState, fails_at};
ghost use Rattle.ek_types.specs.MemoryIo.{source_state, sink_state, read_answer, after_read};
ghost use Rattle.ek_types.specs.MemoryIo.{room_after_read, write_answer, after_write};

use crate::io::{Sink, Source, Took, Wrote};
use crate::memory::Mem;
use std::alloc::Global;
use std::marker::Model;

/// Gives its bytes in pieces, and fails at the calls that it was told.
#[derive(Drop)]
pub struct MemorySource {
    bytes: Vec<u8>,
    at: usize,
    piece: usize,
    fails: Vec<u32>,
    calls: u64,
    faults: u64,
}

impl Model for MemorySource {
    ghost Value = { MemorySourceState };

    ghost view = { λ s. record {
      left = drop s.at s.bytes.items;
      piece = s.piece;
      fails = s.fails.items;
      calls = s.calls;
      faults = s.faults;
    } };

    ghost invariant = { λ s. (s.at ≤ vec_len s.bytes) × (0 < s.piece) };
}

impl MemorySource {
    /// A source that gives at most `piece` bytes in a call (`piece` is 1 or more), and fails at the calls whose numbers,
    /// from 0, stand in `fails`.
    pub fn new(bytes: Vec<u8>, piece: usize, fails: Vec<u32>) -> MemorySource
        requires { 0 < piece }
        ensures { result ≡ record {
          left = bytes.items;
          piece = piece;
          fails = fails.items;
          calls = 0;
          faults = 0;
        } }
    {
        MemorySource {
            bytes,
            at: 0,
            piece,
            fails,
            calls: 0,
            faults: 0,
        }
    }
}

/// Whether the call of this number fails.
fn is_among(fails: &[u32], call: u64) -> bool
    ensures { result ≡ fails_at fails.now call }
{
    fails.iter().any(|n| u64::from(*n) == call)
}

impl Source for MemorySource {
    ghost state = { source_state };

    /// Answers exactly by the calls that fail, the piece, what is left and the room given.
    fn read(&mut self, into: &mut [u8]) -> Took
        requires { 0 < length into.old }
        ensures bytes { Takes (source_state self.old).left (source_state self.new).left into.new
            result }
        ensures cause { HasCause (source_state self.old).faults (source_state self.new).faults
            (result ≡ Took.Failed) }
        ensures unfailing { IsTrue (source_state self.old).unfailing →
            StaysUnfailing (source_state self.old) (source_state self.new) result }

        ensures answer { result ≡ read_answer self.old (length into.old) }
        ensures after { self.new ≡ after_read self.old (length into.old) }
        ensures given { into.new ≡ room_after_read self.old into.old }
    {
        let call = self.calls;
        self.calls = call.saturating_add(1);
        if is_among(&self.fails, call) {
            self.faults = self.faults.saturating_add(1);
            return Took::Failed;
        }
        let at = self.at;
        let n = (self.bytes.len() - at).min(self.piece).min(into.len());
        if n == 0 {
            return Took::End;
        }
        into[..n].copy_from_slice(&self.bytes[at..at + n]);
        self.at = at + n;
        Took::Bytes(n)
    }
}

/// Takes bytes in pieces up to its room, and fails at the calls that it was told and where it is full.
#[derive(Drop)]
pub struct MemorySink {
    bytes: Vec<u8>,
    room: usize,
    piece: usize,
    fails: Vec<u32>,
    calls: u64,
    faults: u64,
}

impl Model for MemorySink {
    ghost Value = { MemorySinkState };

    ghost view = { λ s. record {
      held = s.bytes.items;
      limit = s.room;
      piece = s.piece;
      fails = s.fails.items;
      calls = s.calls;
      faults = s.faults;
    } };

    ghost invariant = { λ s. (0 < s.piece) × (vec_len s.bytes ≤ s.room) ×
        (s.room ≤ vec_capacity s.bytes) };
}

impl MemorySink {
    /// A sink that holds at most `room` bytes, takes at most `piece` in a call (`piece` is 1 or more), and fails where it
    /// is full and at the calls whose numbers, from 0, stand in `fails`. All memory is taken here.
    pub fn new(alloc: Global, room: usize, piece: usize, fails: Vec<u32>) -> Mem<MemorySink>
        requires { 0 < piece }
        ensures { IfOk result (λ s. s ≡ record {
          held = [];
          limit = room;
          piece = piece;
          fails = fails.items;
          calls = 0;
          faults = 0;
        }) }
    {
        Ok(MemorySink {
            bytes: Vec::with_capacity(alloc, room)?,
            room,
            piece,
            fails,
            calls: 0,
            faults: 0,
        })
    }

    /// What it holds.
    pub fn bytes(&self) -> &[u8]
        ensures { result.now ≡ self.now.held }
    {
        self.bytes.as_slice()
    }
}

impl Sink for MemorySink {
    ghost state = { sink_state };

    /// Answers exactly by the calls that fail, the piece, the room and the bytes given.
    fn write(&mut self, from: &[u8]) -> Wrote
        requires { 0 < length from.now }
        ensures bytes { Puts (sink_state self.old).held (sink_state self.new).held from.now result }
        ensures cause { HasCause (sink_state self.old).faults (sink_state self.new).faults
            (result ≡ Wrote.Failed) }
        ensures roomy { length from.now ≤ (sink_state self.old).room →
            StaysRoomy (sink_state self.old) (sink_state self.new) result }

        ensures answer { result ≡ write_answer self.old (length from.now) }
        ensures after { self.new ≡ after_write self.old from.now }
    {
        let call = self.calls;
        self.calls = call.saturating_add(1);
        if is_among(&self.fails, call) {
            self.faults = self.faults.saturating_add(1);
            return Wrote::Failed;
        }
        let left = self.room - self.bytes.len();
        let n = left.min(self.piece).min(from.len());
        if n == 0 {
            self.faults = self.faults.saturating_add(1);
            return Wrote::Failed;
        }
        // Its room was set aside when the sink was made, so this takes no memory and can't fail.
        let _ = self.bytes.extend_from_slice(&from[..n]);
        Wrote::Bytes(n)
    }
}
