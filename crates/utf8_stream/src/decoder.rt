//! The decoder, which holds what it can't decode yet between two pieces.
ghost use Rattle.std.specs.Prelude.{◌≡◌, ◌+◌, ◌≤◌, [], ◌∷◌, ◌++◌, length, false, true};
ghost use Rattle.text_model.specs.Codings.{Utf8, decoded, undecoded, all_decoded, ends_in_return};
ghost use Rattle.utf8_stream.specs.Codings.{coding_of};

use crate::coding::Coding;
use crate::decoding::{open, put_raw};
use ek_types::{Ch, Chars};
use std::marker::Model;

/// Decodes bytes that come in pieces, seen as its coding and the bytes that it holds: those at the end of what it was fed
/// that the next bytes may still change. A byte that can be part of no character is a raw byte.
#[derive(Drop)]
pub struct Decoder {
    coding: Coding,
    // The fourth is room for the byte that ends a sequence.
    bytes: [u8; 4],
    count: usize,
}

impl Model for Decoder {
    ghost use Rattle.std.specs.Prelude.{◌≡◌, ◌≤◌, take};
    ghost use Rattle.text_model.specs.Codings.{undecoded};
    ghost use Rattle.utf8_stream.specs.Codings.{Held, coding_of};

    ghost Value = { Held };

    ghost view = { λ d. record { coding = coding_of d.coding; bytes = take d.count d.bytes } };

    ghost invariant = { λ d. (d.count ≤ 3) ×
        (undecoded (coding_of d.coding) (take d.count d.bytes) ≡ take d.count d.bytes) };
}

impl Decoder {
    /// A decoder of UTF-8 that holds nothing.
    pub fn new() -> Decoder
        ensures { result ≡ record { coding = Utf8; bytes = [] } }
    {
        Decoder::with(Coding::Utf8)
    }

    /// A decoder of this coding that holds nothing.
    pub fn with(coding: Coding) -> Decoder
        ensures { result ≡ record { coding = coding_of coding; bytes = [] } }
    {
        Decoder {
            coding,
            bytes: [0; 4],
            count: 0,
        }
    }

    /// How it decodes.
    pub fn coding(&self) -> Coding
        ensures { coding_of result ≡ self.now.coding }
    {
        self.coding
    }

    /// The bytes held: those that it can't decode yet, of which there are at most 3.
    pub fn held(&self) -> &[u8]
        ensures held { result.now ≡ self.now.bytes }
        ensures tail { undecoded self.now.coding self.now.bytes ≡ self.now.bytes }
        ensures at_most { length self.now.bytes ≤ 3 }
    {
        &self.bytes[..self.count]
    }

    /// Appends the characters of the bytes held and the bytes given, without those that the next bytes may still change,
    /// and then holds the bytes left out. Needs spare in `out` for all these bytes, and takes no memory.
    pub fn feed(&mut self, bytes: &[u8], out: &mut Chars)
        requires { length self.old.bytes + length bytes.now ≤ out.old.spare }
        ensures items { out.new.items ≡ out.old.items ++ decoded self.old.coding
            (self.old.bytes ++ bytes.now) }
        ensures spare { out.new.spare + length (decoded self.old.coding (self.old.bytes ++ bytes.now)) ≡
            out.old.spare }
        ensures held { self.new ≡ record self.old {
          bytes = undecoded self.old.coding
              (self.old.bytes ++ bytes.now);
        } }
    {
        let mut rest = bytes;
        while !self.held().is_empty() && !rest.is_empty() {
            self.feed_one(rest[0], out);
            rest = &rest[1..];
        }
        if self.held().is_empty() {
            self.hold(open(self.coding, rest, out));
        }
    }

    /// Appends all characters of the bytes held, since nothing follows them, and then holds nothing. Needs spare in `out`
    /// for them, and takes no memory.
    pub fn finish(&mut self, out: &mut Chars)
        requires { length self.old.bytes ≤ out.old.spare }
        ensures items { out.new.items ≡ out.old.items ++ all_decoded self.old.coding self.old.bytes }
        ensures spare { out.new.spare + length (all_decoded self.old.coding self.old.bytes) ≡
            out.old.spare }
        ensures held { self.new ≡ record self.old { bytes = [] } }
    {
        self.put_held(out);
        self.count = 0;
    }

    /// Appends all characters of the bytes held.
    fn put_held(&self, out: &mut Chars)
        requires { length self.now.bytes ≤ out.old.spare }
        ensures items { out.new.items ≡ out.old.items ++ all_decoded self.now.coding self.now.bytes }
        ensures spare { out.new.spare + length (all_decoded self.now.coding self.now.bytes) ≡
            out.old.spare }
    {
        if self.holds_return() {
            out.push_spare(Ch::Scalar('\r'));
            return;
        }
        self.put_raw(out);
    }

    /// Whether it holds a carriage return, which is all that it holds then.
    fn holds_return(&self) -> bool
        ensures answer { result ≡ ends_in_return self.now.bytes }
        ensures lone { result ≡ true → self.now.bytes ≡ 13 ∷ [] }
    {
        self.count == 1 && self.bytes[0] == b'\r'
    }

    /// Appends the bytes held as raw bytes.
    fn put_raw(&self, out: &mut Chars)
        requires room { length self.now.bytes ≤ out.old.spare }
        requires part { ends_in_return self.now.bytes ≡ false }
        ensures items { out.new.items ≡ out.old.items ++ all_decoded self.now.coding self.now.bytes }
        ensures spare { out.new.spare + length (all_decoded self.now.coding self.now.bytes) ≡
            out.old.spare }
    {
        put_raw(self.held(), out);
    }

    /// Appends the characters that are complete with one byte more.
    fn feed_one(&mut self, byte: u8, out: &mut Chars)
        requires { length self.old.bytes + 1 ≤ out.old.spare }
        ensures items { out.new.items ≡ out.old.items ++ decoded self.old.coding
            (self.old.bytes ++ byte ∷ []) }
        ensures spare { out.new.spare + length (decoded self.old.coding (self.old.bytes ++ byte ∷ [])) ≡
            out.old.spare }
        ensures held { self.new ≡ record self.old {
          bytes = undecoded self.old.coding
              (self.old.bytes ++ byte ∷ []);
        } }
    {
        let mut joined = self.bytes;
        joined[self.count] = byte;
        self.hold(open(self.coding, &joined[..self.count + 1], out));
    }

    /// Holds these bytes in place of the others.
    fn hold(&mut self, bytes: &[u8])
        requires tail { undecoded self.old.coding bytes.now ≡ bytes.now }
        requires short { length bytes.now ≤ 3 }
        ensures { self.new ≡ record self.old { bytes = bytes.now } }
    {
        self.bytes[..bytes.len()].copy_from_slice(bytes);
        self.count = bytes.len();
    }
}
