//! A buffer with its pool.
ghost use Rattle.std.specs.Prelude.{◌<◌, length};

use crate::checking::{at_most, below};
use buffer_core::{Buffer, Marks};
use ek_types::{Ch, Chars, Piece, PropSet, PropVal, Sym};
use prop_intervals::PropEdit;
use std::alloc::Global;
use std::marker::Model;
use std::process::Abort;
use std::slice;
use text_pool::Pool;

pub const FACE: Sym = Sym(14);

/// Buffer 0, which holds its text in this pool, with no marks beside it.
pub struct Scene {
    buffer: Buffer,
    marks: Marks,
    pool: Pool,
    alloc: Global,
}

impl Model for Scene {
    ghost use Rattle.std.specs.Prelude.{length};
    ghost use Rattle.gap_text.specs.Text.{LiesIn};
    ghost use Rattle.buffer_core.specs.Standing.{AreWithin};

    ghost Value = { Unit {0} };

    ghost view = { λ _. tt };

    ghost invariant = { λ s. LiesIn s.pool s.buffer.text × AreWithin 0 (length s.buffer.sets) s.marks };
}

/// So many letters without properties.
pub fn letters(rt: &impl Abort, alloc: Global, count: usize) -> Piece {
    let mut chars = Chars::new(alloc);
    for _ in 0..count {
        chars.push(Ch::Scalar('x')).expect(rt, "a letter");
    }
    Piece::plain(alloc, chars).expect(rt, "a piece")
}

/// A text without properties.
pub fn plain(rt: &impl Abort, alloc: Global, text: &str) -> Piece {
    let mut chars = Chars::new(alloc);
    for c in text.chars() {
        chars.push(Ch::Scalar(c)).expect(rt, "a character");
    }
    Piece::plain(alloc, chars).expect(rt, "a piece")
}

/// Writes a character, and its face if it has one.
fn put_shown(rt: &impl Abort, text: &mut String, piece: &Piece, i: usize)
    requires { i < length piece.now }
{
    if let Ch::Scalar(c) = piece.ch(i) {
        text.push(c).expect(rt, "room");
    }
    if let Some(PropVal::Int(face)) = piece.props(i).get(FACE) {
        write!(text, "{face}").expect(rt, "room");
    }
}

impl Scene {
    pub fn new(alloc: Global) -> Scene {
        Scene {
            buffer: Buffer::new(alloc),
            marks: Marks::new(alloc),
            pool: Pool::new(alloc),
            alloc,
        }
    }

    pub fn put(&mut self, rt: &impl Abort, at: usize, piece: &Piece) {
        let _bounds = self.buffer.bounds();
        let size = self.buffer.text().len();
        at_most(rt, at, size);
        let done = self.buffer.replace(
            0,
            at,
            at,
            slice::from_ref(piece),
            false,
            &mut self.marks,
            &mut self.pool,
        );
        done.expect(rt, "memory");
    }

    pub fn insert(&mut self, rt: &impl Abort, at: usize, text: &str) {
        let piece = plain(rt, self.alloc, text);
        self.put(rt, at, &piece);
    }

    pub fn delete(&mut self, rt: &impl Abort, from: usize, to: usize) {
        let _bounds = self.buffer.bounds();
        let size = self.buffer.text().len();
        at_most(rt, from, to);
        at_most(rt, to, size);
        let done = self
            .buffer
            .replace(0, from, to, &[], false, &mut self.marks, &mut self.pool);
        done.expect(rt, "memory");
    }

    /// Gives a part a face, and says whether that changes something.
    pub fn paint(&mut self, rt: &impl Abort, from: usize, to: usize, face: i64) -> bool {
        let set = PropSet::empty(self.alloc).with(FACE, &PropVal::Int(face));
        let edit = PropEdit::Replace(set.expect(rt, "a set"));
        let _bounds = self.buffer.bounds();
        let size = self.buffer.text().len();
        at_most(rt, from, to);
        at_most(rt, to, size);
        self.buffer.reprop(from, to, &edit).expect(rt, "a change")
    }

    pub fn boundary(&mut self, rt: &impl Abort) {
        let done = self.buffer.undo_boundary();
        done.expect(rt, "memory");
    }

    pub fn narrow(&mut self, rt: &impl Abort, from: usize, to: usize) {
        let _bounds = self.buffer.bounds();
        let size = self.buffer.text().len();
        at_most(rt, from, to);
        at_most(rt, to, size);
        self.buffer.narrow(from, to);
    }

    /// Point goes to a place.
    pub fn go(&mut self, place: usize) {
        self.buffer.goto_place(place);
    }

    /// The start and the end of the accessible portion, and point.
    pub fn bounds(&self) -> (usize, usize, usize) {
        let bounds = self.buffer.bounds();
        (bounds.start, bounds.end, bounds.point)
    }

    pub fn is_modified(&self) -> bool {
        self.buffer.modified()
    }

    /// How many undo records there are.
    pub fn records(&self) -> usize {
        self.buffer.undo().len()
    }

    /// Makes all records pending.
    pub fn start(&mut self, rt: &impl Abort) {
        let done = self.buffer.undo_start();
        done.expect(rt, "memory");
    }

    /// Undoes so many groups of what is pending. Says whether there was anything, inside the accessible portion.
    pub fn undo(&mut self, rt: &impl Abort, groups: u32) -> bool {
        below(rt, 0, groups);
        let bounds = self.buffer.bounds();
        let (start, end) = (bounds.start, bounds.end);
        match self
            .buffer
            .undo()
            .plan(groups, start, end)
            .expect(rt, "a plan")
        {
            Ok(plan) => {
                let done = self
                    .buffer
                    .apply_plan(0, &plan, &mut self.marks, &mut self.pool);
                done.expect(rt, "memory");
                true
            }
            Err(_) => false,
        }
    }

    /// How many characters there are.
    pub fn size(&self) -> usize {
        self.buffer.text().len()
    }

    /// The whole text with its properties.
    fn piece(&self, rt: &impl Abort) -> Piece {
        let _bounds = self.buffer.bounds();
        let size = self.buffer.text().len();
        self.buffer
            .substring(0, size, &self.pool)
            .expect(rt, "a text")
    }

    /// The text, with a face behind each character that has one.
    pub fn shown(&self, rt: &impl Abort) -> String {
        let piece = self.piece(rt);
        let mut text = String::new(self.alloc);
        for i in 0..piece.len() {
            put_shown(rt, &mut text, &piece, i);
        }
        text
    }

    /// Gives all blocks back, and says how many are left in the pool.
    pub fn release(self) -> usize {
        let Scene {
            buffer,
            marks: _,
            mut pool,
            alloc: _,
        } = self;
        buffer.release(&mut pool);
        pool.live()
    }
}
