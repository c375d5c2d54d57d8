//! A live buffer, lent to be read.
ghost use Rattle.std.specs.Prelude.{◌≡◌, ◌<◌, length, map, option_map, slice_get, Some, take, drop};
ghost use Rattle.text_model.specs.Characters.{code};
ghost use Rattle.editor_model.specs.Editor.{live};
ghost use Rattle.ek_types.specs.Seen.{ch_of};
ghost use Rattle.gap_text.specs.Text.{LiesIn};
ghost use Rattle.prop_intervals.specs.Runs.{sets_of, AreApart};
ghost use Rattle.prop_intervals.specs.Sets.{run_end};
ghost use Rattle.buffer_table.specs.Kept.{editor_of, live_of};

use crate::editor::{Editor, Live};
use buffer_core::Buffer;
use ek_types::{Ch, Chars, PropSet};
use prop_intervals::Runs;
use std::marker::Model;
use text_pool::Pool;
use undo_list::Undo;

/// A live buffer, lent with its name, its text, the property sets of its characters, its accessible portion and its undo
/// records. It is seen as the live buffer of the definitions, and holds no copy of anything. Places count from 0.
#[derive(Drop)]
pub struct BufferText<'a> {
    name: &'a Chars,
    buffer: &'a Buffer,
    pool: &'a Pool,
    read_only: bool,
}

impl<'a> Model for BufferText<'a> {
    ghost use Rattle.editor_model.specs.Editor.{Live};
    ghost use Rattle.buffer_core.specs.Meaning.{buffer_of};
    ghost use Rattle.buffer_table.specs.Kept.{IsReadable};

    ghost Value = { Live };

    ghost view = { λ t. record {
      name = t.name.now.items;
      buffer = buffer_of t.pool.now t.buffer.now;
      read_only = t.read_only;
    } };

    ghost invariant = { λ t. IsReadable t.pool.now t.buffer.now };
}

impl<'a> BufferText<'a> {
    fn of(live: &'a Live, pool: &'a Pool) -> BufferText<'a>
        requires { LiesIn pool.now live.now.buffer.text }
        ensures { result ≡ live_of pool.now live.now }
    {
        let buffer = &live.buffer;
        // Both read for what they ensure: there are as many property sets as characters.
        let _bounds = buffer.bounds();
        let _size = buffer.text().len();
        BufferText {
            name: &live.name,
            buffer,
            pool,
            read_only: live.read_only,
        }
    }

    /// The name.
    pub fn name(&self) -> &'a Chars
        ensures { result.now.items ≡ self.now.name }
    {
        self.name
    }

    /// How many characters the text has.
    pub fn len(&self) -> usize
        ensures { result ≡ length self.now.buffer.text }
    {
        self.buffer.text().len()
    }

    /// Character `i`.
    pub fn ch(&self, i: usize) -> Ch
        requires { i < length self.now.buffer.text }
        ensures { option_map (λ c. c.0) (slice_get self.now.buffer.text i) ≡ Some (ch_of result) }
    {
        self.buffer.text().at(self.pool, i)
    }

    /// The codes of some characters from character `i` on: of one at least.
    pub fn stretch(&self, i: usize) -> &'a [u32]
        requires { i < length self.now.buffer.text }
        ensures some { 0 < length result.now }
        ensures codes { result.now ≡
            map code (take (length result.now) (drop i (map (λ c. c.0) self.now.buffer.text))) }
    {
        self.buffer.text().stretch(self.pool, i)
    }

    /// The property set of character `i`.
    pub fn props(&self, i: usize) -> &'a PropSet
        requires { i < length self.now.buffer.text }
        ensures { option_map (λ c. c.1) (slice_get self.now.buffer.text i) ≡ Some result.now }
    {
        self.buffer.props().at(i)
    }

    /// The first place behind `i` whose property set differs from the one there, or the length.
    pub fn run_end(&self, i: usize) -> usize
        requires { i < length self.now.buffer.text }
        ensures { result ≡ run_end i (map (λ c. c.1) self.now.buffer.text) }
    {
        self.buffer.props().run_end(i)
    }

    /// The runs of one property set: none is empty, and neighbours have different sets.
    pub fn runs(&self) -> Runs<'a>
        ensures sets { sets_of result ≡ map (λ c. c.1) self.now.buffer.text }
        ensures apart { AreApart result }
    {
        self.buffer.props().runs()
    }

    /// Where the accessible portion begins.
    pub fn begin(&self) -> usize
        ensures { result ≡ self.now.buffer.begin }
    {
        self.buffer.bounds().start
    }

    /// Where the accessible portion ends.
    pub fn end(&self) -> usize
        ensures { result ≡ self.now.buffer.end }
    {
        self.buffer.bounds().end
    }

    /// Where point stands.
    pub fn point(&self) -> usize
        ensures { result ≡ self.now.buffer.point }
    {
        self.buffer.bounds().point
    }

    /// Whether the buffer was modified.
    pub fn modified(&self) -> bool
        ensures { result ≡ self.now.buffer.modified }
    {
        self.buffer.modified()
    }

    /// Whether the buffer is read-only.
    pub fn read_only(&self) -> bool
        ensures { result ≡ self.now.read_only }
    {
        self.read_only
    }

    /// The undo records, whether they are recorded, and which are pending.
    pub fn undo(&self) -> &'a Undo
        ensures { result.now.state ≡ self.now.buffer.undo }
    {
        self.buffer.undo()
    }
}

impl Editor {
    /// The live buffer of a number, to be read: `None` where no buffer of this number was made, or it was killed.
    pub fn text(&self, id: u32) -> Option<BufferText<'_>>
        ensures { result ≡ live (editor_of self.now) id }
    {
        match self.buffers.get(id as usize) {
            Some(Some(live)) => Some(BufferText::of(live, &self.pool)),
            _ => None,
        }
    }
}
