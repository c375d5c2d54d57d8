//! A list of characters with a spare.
ghost use Rattle.std.specs.Prelude.{◌≡◌, ◌+◌, ◌<◌, ◌≤◌, length, [], ◌∷◌, ◌++◌, OnOk, OnErr, IfOk};
ghost use Rattle.std.specs.Prelude.{IsOk, slice_get, Some, ◌==◌, map, vec_len, vec_capacity};
ghost use Rattle.text_model.specs.Characters.{IsCharacter, Scalar, code};
ghost use Rattle.ek_types.specs.Seen.{ch_of, AreCharacters, AreCodes, characters_of};

use crate::character::Ch;
use crate::memory::Mem;
use std::alloc::Global;
use std::marker::Model;
use std::mem;

/// Characters in order, counted from 0, seen as their list with the spare beside it: how many more fit with no memory
/// taken. Each is a real one: a raw byte is 0x80 or more. They are kept as their codes.
#[derive(Drop)]
pub struct Chars {
    codes: Vec<u32>,
}

impl Model for Chars {
    ghost use Rattle.std.specs.Prelude.{◌-◌, vec_len, vec_capacity};
    ghost use Rattle.ek_types.specs.Listing.{Roomy};
    ghost use Rattle.text_model.specs.Characters.{Ch as Character};

    ghost Value = { Roomy Character };

    ghost use Rattle.ek_types.specs.Seen.{AreCodes, characters_of};

    ghost view = { λ c. record {
      items = characters_of c.codes.items;
      spare = vec_capacity c.codes - vec_len c.codes;
    } };

    ghost invariant = { λ c. AreCodes c.codes.items };
}

impl Chars {
    /// No characters, which takes no memory yet.
    pub fn new(alloc: Global) -> Chars
        ensures { result.items ≡ [] }
    {
        Chars {
            codes: Vec::new(alloc),
        }
    }

    /// Makes the spare at least `n`. A refusal leaves the characters as they were.
    pub fn reserve(&mut self, n: usize) -> Mem<()>
        ensures items { self.new.items ≡ self.old.items }
        ensures room { OnOk result (n ≤ self.new.spare) }
        ensures kept { self.old.spare ≤ self.new.spare }
        ensures had { n ≤ self.old.spare → IsOk result }
    {
        self.codes.reserve(n)?;
        Ok(())
    }

    /// Puts a character behind the others; a raw byte is 0x80 or more. A refusal leaves them as they were and the spare
    /// no smaller.
    pub fn push(&mut self, c: Ch) -> Mem<()>
        requires { IsCharacter (ch_of c) }
        ensures ok { OnOk result (self.new.items ≡ self.old.items ++ ch_of c ∷ []) }
        ensures room { OnOk result (self.old.spare ≤ self.new.spare + 1) }
        ensures err { OnErr result (self.new.items ≡ self.old.items) }
        ensures kept { OnErr result (self.old.spare ≤ self.new.spare) }
        ensures had { 0 < self.old.spare → IsOk result }
    {
        self.codes.push(c.code())?;
        Ok(())
    }

    /// Puts a character behind the others, with no memory taken. There must be spare, which falls by one.
    pub fn push_spare(&mut self, c: Ch)
        requires character { IsCharacter (ch_of c) }
        requires room { 0 < self.old.spare }
        ensures items { self.new.items ≡ self.old.items ++ ch_of c ∷ [] }
        ensures spare { self.new.spare + 1 ≡ self.old.spare }
    {
        self.codes.push_reserved(c.code());
    }

    /// Puts other characters behind these. A refusal leaves them as they were and the spare no smaller.
    pub fn extend(&mut self, more: &Chars) -> Mem<()>
        ensures ok { OnOk result (self.new.items ≡ self.old.items ++ more.now.items) }
        ensures room { OnOk result (self.old.spare ≤ self.new.spare + length more.now.items) }
        ensures err { OnErr result (self.new.items ≡ self.old.items) }
        ensures kept { OnErr result (self.old.spare ≤ self.new.spare) }
        ensures had { length more.now.items ≤ self.old.spare → IsOk result }
    {
        self.codes.extend_from_slice(&more.codes)?;
        Ok(())
    }

    /// Puts other characters behind these, with no memory taken. There must be spare for them, which falls by no more
    /// than their number.
    pub fn extend_spare(&mut self, more: &Chars)
        requires { length more.now.items ≤ self.old.spare }
        ensures items { self.new.items ≡ self.old.items ++ more.now.items }
        ensures spare { self.old.spare ≤ self.new.spare + length more.now.items }
    {
        let Ok(()) = self.extend(more) else {
            unreachable!()
        };
    }

    /// Puts the characters U+0000 to U+00FF that have these bytes as their scalar values behind the others, so that ASCII
    /// stands for itself. A refusal leaves them as they were and the spare no smaller.
    pub fn extend_bytes(&mut self, bytes: &[u8]) -> Mem<()>
        ensures ok { OnOk result (self.new.items ≡ self.old.items ++ map Scalar bytes.now) }
        ensures room { OnOk result (self.old.spare ≤ self.new.spare + length bytes.now) }
        ensures err { OnErr result (self.new.items ≡ self.old.items) }
        ensures kept { OnErr result (self.old.spare ≤ self.new.spare) }
        ensures had { length bytes.now ≤ self.old.spare → IsOk result }
    {
        self.reserve(bytes.len())?;
        self.extend_bytes_spare(bytes);
        Ok(())
    }

    /// Puts the characters U+0000 to U+00FF that have these bytes as their scalar values behind the others, with no
    /// memory taken. There must be spare for them, which falls by their number.
    pub fn extend_bytes_spare(&mut self, bytes: &[u8])
        requires { length bytes.now ≤ self.old.spare }
        ensures items { self.new.items ≡ self.old.items ++ map Scalar bytes.now }
        ensures spare { self.new.spare + length bytes.now ≡ self.old.spare }
    {
        let none = Vec::new(self.allocator());
        self.codes = push_bytes(mem::replace(&mut self.codes, none), bytes);
    }

    /// Puts the characters of some codes behind the others. Each is the code of a character. A refusal leaves them as
    /// they were and the spare no smaller.
    pub fn extend_codes(&mut self, codes: &[u32]) -> Mem<()>
        requires { AreCodes codes.now }
        ensures ok { OnOk result (self.new.items ≡ self.old.items ++ characters_of codes.now) }
        ensures room { OnOk result (self.old.spare ≤ self.new.spare + length codes.now) }
        ensures err { OnErr result (self.new.items ≡ self.old.items) }
        ensures kept { OnErr result (self.old.spare ≤ self.new.spare) }
        ensures had { length codes.now ≤ self.old.spare → IsOk result }
    {
        self.codes.extend_from_slice(codes)?;
        Ok(())
    }

    /// The allocator that the list keeps.
    pub fn allocator(&self) -> Global {
        *self.codes.allocator()
    }

    /// How many characters there are.
    pub fn len(&self) -> usize
        ensures { result ≡ length self.now.items }
    {
        self.codes.len()
    }

    /// Whether there are none.
    pub fn is_empty(&self) -> bool
        ensures { result ≡ (length self.now.items == 0) }
    {
        self.codes.is_empty()
    }

    /// The character at place `i`, which is below the length.
    pub fn at(&self, i: usize) -> Ch
        requires { i < length self.now.items }
        ensures item { slice_get self.now.items i ≡ Some (ch_of result) }
        ensures character { IsCharacter (ch_of result) }
    {
        match Ch::from_code(self.codes[i]) {
            Some(c) => c,
            None => unreachable!(),
        }
    }

    /// The codes of the characters, in order. They are lent, and nothing is copied.
    pub fn codes(&self) -> &[u32]
        ensures codes { result.now ≡ map code self.now.items }
        ensures characters { AreCharacters self.now.items }
    {
        &self.codes
    }

    /// The same characters again.
    pub fn copy(&self) -> Mem<Chars>
        ensures { IfOk result (λ c. c.items ≡ self.now.items) }
    {
        let codes = Vec::from_slice(*self.codes.allocator(), &self.codes)?;
        Ok(Chars { codes })
    }
}

/// Puts bytes behind codes, each as its own code. The list comes and goes as a whole, since behind a reference the
/// compiler writes its length anew for each byte.
#[inline]
fn push_bytes(mut codes: Vec<u32>, bytes: &[u8]) -> Vec<u32>
    requires { vec_len codes + length bytes.now ≤ vec_capacity codes }
    ensures items { result.items ≡ codes.items ++ bytes.now }
    ensures len { vec_len result ≡ vec_len codes + length bytes.now }
    ensures capacity { vec_capacity result ≡ vec_capacity codes }
{
    for byte in bytes {
        codes.push_reserved(u32::from(*byte));
    }
    codes
}
