//! Pieces of text: characters with their properties.
ghost use Rattle.std.specs.Prelude.{◌≡◌, ℕ, ◌<◌, ◌≤◌, length, map, ◌++◌, IfOk, OnOk, OnErr};
ghost use Rattle.std.specs.Prelude.{slice_get, Some, option_map, ◌==◌};
ghost use Rattle.text_model.specs.Properties.{bare, with_sets, edited, Replace};
ghost use Rattle.text_model.specs.Characters.{IsCharacter};
ghost use Rattle.ek_types.specs.Seen.{ch_of};
ghost use Rattle.ek_types.specs.Sharing.{content_of};

use crate::character::Ch;
use crate::chars::Chars;
use crate::content::Content;
use crate::memory::Mem;
use crate::prop_set::PropSet;
use std::alloc::Global;
use std::marker::Model;
use std::rc::Rc;

/// Where the content of a piece is: its own, or one that it shares with copies of it and never changes. Either stands
/// behind one pointer, so that a value that is no string isn't as long as a content.
#[derive(Drop)]
enum Held {
    Own(Box<Content>),
    Shared(Rc<Content>),
}

/// Characters with a property set each, counted from 0: the contents of a string, or of a part of a buffer.
#[derive(Drop)]
pub struct Piece {
    held: Held,
}

impl Model for Piece {
    ghost use Rattle.std.specs.Prelude.{List};
    ghost use Rattle.text_model.specs.Properties.{Cell};

    ghost Value = { List Cell };

    ghost use Rattle.ek_types.specs.Sharing.{content_of};

    ghost view = { λ p. content_of p.held };
}

/// What is held.
fn content(held: &Held) -> &Content
    ensures { result.now ≡ content_of held.now }
{
    match held {
        Held::Own(content) => &**content,
        Held::Shared(content) => content.as_ref(),
    }
}

/// A content that is shared with no other piece.
fn own(content: Content) -> Mem<Held>
    ensures { IfOk result (λ c. content_of c ≡ content) }
{
    let content = Box::new(content.text().allocator(), content)?;
    Ok(Held::Own(content))
}

/// A content that copies will share.
fn to_share(alloc: Global, content: Content) -> Mem<Held>
    ensures { IfOk result (λ c. content_of c ≡ content) }
{
    let content = Rc::new(alloc, content.shared(alloc)?)?;
    Ok(Held::Shared(content))
}

/// The same again: a shared content is lent once more, and another is copied.
fn copy(held: &Held) -> Mem<Held>
    ensures { IfOk result (λ c. content_of c ≡ content_of held.now) }
{
    match held {
        Held::Own(content) => own(content.copy()?),
        Held::Shared(content) => Ok(Held::Shared(content.clone()?)),
    }
}

/// What is shared once more, to be changed.
fn unshared(shared: &Rc<Content>) -> Mem<Content>
    ensures { IfOk result (λ c. c ≡ shared.now.value) }
{
    shared.as_ref().copy()
}

/// Memory for a piece, taken before its characters are there.
#[derive(Drop)]
pub struct PieceRoom {
    room: Box<Content>,
}

impl PieceRoom {
    /// Takes the memory.
    pub fn new(alloc: Global) -> Mem<PieceRoom> {
        let empty = Content::plain(alloc, Chars::new(alloc));
        Ok(PieceRoom {
            room: Box::new(alloc, empty)?,
        })
    }

    /// The characters without properties, as a piece. It takes no memory.
    pub fn filled(self, text: Chars) -> Piece
        ensures { result ≡ bare text.items }
    {
        let mut room = self.room;
        *room = Content::plain(text.allocator(), text);
        Piece {
            held: Held::Own(room),
        }
    }
}

impl Piece {
    /// The characters without properties. None of them is copied.
    pub fn plain(alloc: Global, text: Chars) -> Mem<Piece>
        ensures { IfOk result (λ p. p ≡ bare text.items) }
    {
        Ok(Piece {
            held: own(Content::plain(alloc, text))?,
        })
    }

    /// The characters without properties, as a piece whose copies cost no more than a few steps, however long it is.
    pub fn plain_to_share(alloc: Global, text: Chars) -> Mem<Piece>
        ensures { IfOk result (λ p. p ≡ bare text.items) }
    {
        Ok(Piece {
            held: to_share(alloc, Content::plain(alloc, text))?,
        })
    }

    /// The characters without properties, which are shared with others that keep them.
    pub fn sharing(alloc: Global, text: &Rc<Chars>) -> Mem<Piece>
        ensures { IfOk result (λ p. p ≡ bare text.now.value.items) }
    {
        Ok(Piece {
            held: own(Content::sharing(alloc, text)?)?,
        })
    }

    /// The same piece, whose copies cost no more than a few steps, however long it is.
    pub fn shared(self, alloc: Global) -> Mem<Piece>
        ensures { IfOk result (λ p. p ≡ self) }
    {
        match self.held {
            Held::Own(content) => Ok(Piece {
                held: to_share(alloc, Box::into_inner(content))?,
            }),
            held => Ok(Piece { held }),
        }
    }

    /// How many characters there are.
    pub fn len(&self) -> usize
        ensures { result ≡ length self.now }
    {
        content(&self.held).len()
    }

    /// Whether there are none.
    pub fn is_empty(&self) -> bool
        ensures { result ≡ (length self.now == 0) }
    {
        content(&self.held).is_empty()
    }

    /// The character at place `i`, which is below the length.
    pub fn ch(&self, i: usize) -> Ch
        requires { i < length self.now }
        ensures item { option_map (λ c. c.0) (slice_get self.now i) ≡ Some (ch_of result) }
        ensures character { IsCharacter (ch_of result) }
    {
        content(&self.held).ch(i)
    }

    /// The characters without their properties. They are lent, and nothing is copied.
    pub fn text(&self) -> &Chars
        ensures { result.now.items ≡ map (λ c. c.0) self.now }
    {
        content(&self.held).text()
    }

    /// The characters without their properties, to be kept beside the piece. Many are copied only where the piece isn't
    /// shared.
    pub fn shared_text(&self) -> Mem<Rc<Chars>>
        ensures { IfOk result (λ c. c.value.items ≡ map (λ c. c.0) self.now) }
    {
        content(&self.held).shared_text()
    }

    /// The property set of the character at place `i`, which is below the length.
    #[inline(always)]
    pub fn props(&self, i: usize) -> &PropSet
        requires { i < length self.now }
        ensures { option_map (λ c. c.1) (slice_get self.now i) ≡ Some result.now }
    {
        content(&self.held).props(i)
    }

    /// A place behind `i`, which is below the length, up to which each character has the property set of that at `i`. It
    /// need not be the last such place.
    #[inline(always)]
    pub fn run_end(&self, i: usize) -> usize
        requires { i < length self.now }
        ensures behind { i < result }
        ensures within { result ≤ length self.now }
        ensures same { (j : ℕ) → i ≤ j → j < result →
            option_map (λ c. c.1) (slice_get self.now j) ≡
            option_map (λ c. c.1) (slice_get self.now i) }
    {
        content(&self.held).run_end(i)
    }

    /// Puts the characters of another piece behind these, with their properties. Want of memory leaves the piece as
    /// it was.
    pub fn append(&mut self, more: &Piece) -> Mem<()>
        ensures ok { OnOk result (self.new ≡ self.old ++ more.now) }
        ensures err { OnErr result (self.new ≡ self.old) }
    {
        if self.is_empty() {
            self.held = copy(&more.held)?;
            return Ok(());
        }
        match &mut self.held {
            Held::Own(held) => held.append(content(&more.held)),
            Held::Shared(shared) => {
                let mut changed = unshared(shared)?;
                changed.append(content(&more.held))?;
                self.held = own(changed)?;
                Ok(())
            }
        }
    }

    /// Gives each character from place `from` to the one before place `to` this property set in place of its own. `from`
    /// is at most `to`, and `to` at most the length. Want of memory leaves the piece as it was.
    pub fn put(&mut self, from: usize, to: usize, set: &PropSet) -> Mem<()>
        requires { (from ≤ to) × (to ≤ length self.old) }
        ensures ok { OnOk result (self.new ≡ with_sets from to (edited (Replace set.now)) self.old) }
        ensures err { OnErr result (self.new ≡ self.old) }
    {
        match &mut self.held {
            Held::Own(held) => held.put(from, to, set),
            Held::Shared(shared) => {
                let mut changed = unshared(shared)?;
                changed.put(from, to, set)?;
                self.held = own(changed)?;
                Ok(())
            }
        }
    }

    /// The same piece again.
    pub fn copy(&self) -> Mem<Piece>
        ensures { IfOk result (λ p. p ≡ self.now) }
    {
        Ok(Piece {
            held: copy(&self.held)?,
        })
    }
}
