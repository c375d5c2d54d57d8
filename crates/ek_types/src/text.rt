//! Characters that copies may share.
ghost use Rattle.std.specs.Prelude.{◌≡◌, ◌<◌, ◌≤◌, ◌++◌, length, slice_get, Some, OnOk, IfOk};
ghost use Rattle.text_model.specs.Characters.{IsCharacter};
ghost use Rattle.ek_types.specs.Seen.{ch_of};
ghost use Rattle.ek_types.specs.Sharing.{characters_held};

use crate::character::Ch;
use crate::chars::Chars;
use crate::memory::Mem;
use std::alloc::Global;
use std::marker::Model;
use std::rc::Rc;

/// Where characters are: in a list of their own, or in one that is shared and never changes.
#[derive(Drop)]
enum Held {
    Own(Chars),
    Shared(Rc<Chars>),
}

/// From this length on characters are shared rather than copied: a copy of fewer costs no more than sharing them does.
const LONG: usize = 64;

/// Characters in order, counted from 0, seen with their spare. Those that are shared have none.
#[derive(Drop)]
pub(crate) struct Text {
    held: Held,
}

impl Model for Text {
    ghost use Rattle.ek_types.specs.Listing.{Roomy};
    ghost use Rattle.text_model.specs.Characters.{Ch as Character};

    ghost Value = { Roomy Character };

    ghost use Rattle.ek_types.specs.Sharing.{characters_held};

    ghost view = { λ t. characters_held t.held };
}

/// Characters that copies share from now on, where there are many.
fn shared_if_long(alloc: Global, chars: Chars) -> Mem<Text>
    ensures { IfOk result (λ t. t.items ≡ chars.items) }
{
    if chars.len() < LONG {
        return Ok(Text::own(chars));
    }
    let chars = Rc::new(alloc, chars)?;
    Ok(Text {
        held: Held::Shared(chars),
    })
}

impl Text {
    /// Characters of its own.
    pub fn own(chars: Chars) -> Text
        ensures { result ≡ chars }
    {
        Text {
            held: Held::Own(chars),
        }
    }

    /// Characters that are shared once more.
    pub fn sharing(chars: &Rc<Chars>) -> Mem<Text>
        ensures { IfOk result (λ t. t.items ≡ chars.now.value.items) }
    {
        Ok(Text {
            held: Held::Shared(chars.clone()?),
        })
    }

    /// The characters. They are lent, and nothing is copied.
    pub fn chars(&self) -> &Chars
        ensures { result.now.items ≡ self.now.items }
    {
        match &self.held {
            Held::Own(chars) => chars,
            Held::Shared(chars) => chars.as_ref(),
        }
    }

    /// How many characters there are.
    pub fn len(&self) -> usize
        ensures { result ≡ length self.now.items }
    {
        self.chars().len()
    }

    /// The character at place `i`, which is below the length.
    pub fn at(&self, i: usize) -> Ch
        requires { i < length self.now.items }
        ensures item { slice_get self.now.items i ≡ Some (ch_of result) }
        ensures character { IsCharacter (ch_of result) }
    {
        self.chars().at(i)
    }

    /// Makes the spare at least `n`. A refusal leaves the characters as they were.
    pub fn reserve(&mut self, n: usize) -> Mem<()>
        ensures items { self.new.items ≡ self.old.items }
        ensures room { OnOk result (n ≤ self.new.spare) }
    {
        if let Held::Shared(chars) = &self.held {
            self.held = Held::Own(chars.as_ref().copy()?);
        }
        match &mut self.held {
            Held::Own(chars) => chars.reserve(n),
            Held::Shared(_) => unreachable!(),
        }
    }

    /// Puts other characters behind these, with no memory taken. There must be spare for them.
    pub fn extend_spare(&mut self, more: &Text)
        requires { length more.now.items ≤ self.old.spare }
        ensures items { self.new.items ≡ self.old.items ++ more.now.items }
    {
        if let Held::Own(chars) = &mut self.held {
            chars.extend_spare(more.chars());
        }
    }

    /// The same characters, so that a copy of them costs no more than a few steps, however many they are.
    pub fn shared(self, alloc: Global) -> Mem<Text>
        ensures { IfOk result (λ t. t.items ≡ self.items) }
    {
        match self.held {
            Held::Own(chars) => shared_if_long(alloc, chars),
            held => Ok(Text { held }),
        }
    }

    /// The characters as shared ones. They are copied where they aren't shared yet.
    pub fn lent(&self) -> Mem<Rc<Chars>>
        ensures { IfOk result (λ c. c.value.items ≡ self.now.items) }
    {
        match &self.held {
            Held::Own(chars) => Ok(Rc::new(chars.allocator(), chars.copy()?)?),
            Held::Shared(chars) => Ok(chars.clone()?),
        }
    }

    /// The same characters again.
    pub fn copy(&self) -> Mem<Text>
        ensures { IfOk result (λ t. t.items ≡ self.now.items) }
    {
        match &self.held {
            Held::Own(chars) => Ok(Text::own(chars.copy()?)),
            Held::Shared(chars) => Text::sharing(chars),
        }
    }
}
