//! What is asked of one buffer. Where no live buffer has the number, the answer is that of an empty one.
ghost use Rattle.std.specs.Prelude.{◌≡◌, ◌<◌, ◌≤◌, true, length, Ok, map, IfSome, Some, option_map};
ghost use Rattle.std.specs.Prelude.{slice_get};
ghost use Rattle.editor_model.specs.Editor.{live, is_live, buffer_at, characters_in};
ghost use Rattle.gap_text.specs.Text.{LiesIn};
ghost use Rattle.undo_list.specs.Plans.{planned};
ghost use Rattle.undo_list.specs.Records.{rec_of};
ghost use Rattle.buffer_core.specs.Meaning.{buffer_of};
ghost use Rattle.buffer_table.specs.Kept.{editor_of, named_at};

use crate::editor::Editor;
use buffer_core::Buffer;
use ek_types::Mem;
use narrow_region::Bounds;
use std::alloc::Global;
use undo_list::{Plan, Rec, Refused};

impl Editor {
    /// The live buffer of a number, whose blocks live in the pool and whose characters have a property set each.
    pub(crate) fn found(&self, id: u32) -> Option<&Buffer>
        ensures shown { option_map (λ b. buffer_of self.now.pool b.now) result ≡
            option_map (λ l. l.buffer) (live (editor_of self.now) id) }
        ensures lies { IfSome result (λ b. LiesIn self.now.pool b.now.text) }
        ensures sets { IfSome result (λ b. b.now.sets ≡
            map (λ c. c.1) (buffer_at (editor_of self.now) id).text) }
        ensures named { IfSome result (λ b. b.now ≡ (named_at self.now.buffers id).buffer) }
        ensures made { IfSome result (λ _. id < 256) }
    {
        // The invariant is known where a field is read.
        let _buffers = &self.buffers;
        match self.buffer(id) {
            Some(buffer) => {
                // Read for what they ensure: each character has a property set.
                let _bounds = buffer.bounds();
                let _size = buffer.text().len();
                Some(buffer)
            }
            None => None,
        }
    }

    /// The allocator that the editor keeps.
    pub fn allocator(&self) -> Global {
        self.alloc
    }

    /// Whether a live buffer has the number, which is below 256 then.
    pub fn is_live(&self, id: u32) -> bool
        ensures live { result ≡ is_live (editor_of self.now) id }
        ensures made { result ≡ true → id < 256 }
    {
        self.found(id).is_some()
    }

    /// How many characters the text has; each has a property set.
    pub fn size(&self, id: u32) -> usize
        ensures exact { result ≡ length (buffer_at (editor_of self.now) id).text }
        ensures sets { is_live (editor_of self.now) id ≡ true →
            result ≡ length (named_at self.now.buffers id).buffer.sets }
    {
        match self.found(id) {
            Some(buffer) => {
                // Read for what it ensures: each character has a property set.
                let _bounds = buffer.bounds();
                buffer.text().len()
            }
            None => 0,
        }
    }

    /// The accessible portion with point in it.
    #[inline(always)]
    pub fn bounds(&self, id: u32) -> Bounds
        ensures start { result.start ≡ (buffer_at (editor_of self.now) id).begin }
        ensures end { result.end ≡ (buffer_at (editor_of self.now) id).end }
        ensures point { result.point ≡ (buffer_at (editor_of self.now) id).point }
        ensures order { (result.start ≤ result.point) × (result.point ≤ result.end) }
        ensures within { result.end ≤ length (buffer_at (editor_of self.now) id).text }
    {
        let Some(buffer) = self.found(id) else {
            return Bounds {
                start: 0,
                end: 0,
                point: 0,
            };
        };
        // Read for what it ensures: each character has a property set.
        let _size = buffer.text().len();
        *buffer.bounds()
    }

    /// How many characters all texts have.
    pub fn characters(&self) -> u128
        ensures { result ≡ characters_in (editor_of self.now).buffers }
    {
        let mut total = 0;
        for id in 0..self.count() {
            total += self.size(id) as u128;
        }
        total
    }

    /// Whether it was modified.
    pub fn is_modified(&self, id: u32) -> bool
        ensures { result ≡ (buffer_at (editor_of self.now) id).modified }
    {
        match self.found(id) {
            Some(buffer) => buffer.modified(),
            None => false,
        }
    }

    /// Whether its changes are recorded.
    pub fn is_recording(&self, id: u32) -> bool
        ensures { result ≡ (buffer_at (editor_of self.now) id).undo.on }
    {
        match self.found(id) {
            Some(buffer) => buffer.undo().is_on(),
            None => true,
        }
    }

    /// How many undo records there are.
    pub fn undo_len(&self, id: u32) -> usize
        ensures { result ≡ length (buffer_at (editor_of self.now) id).undo.entries }
    {
        match self.found(id) {
            Some(buffer) => buffer.undo().len(),
            None => 0,
        }
    }

    /// An undo record with its serial number; the newest is number 0.
    pub fn undo_at(&self, id: u32, i: usize) -> (&Rec, u64)
        requires { i < length (buffer_at (editor_of self.now) id).undo.entries }
        ensures { slice_get (buffer_at (editor_of self.now) id).undo.entries i ≡
            Some (record { what = rec_of result.0.now; serial = result.1 }) }
    {
        match self.found(id) {
            Some(buffer) => buffer.undo().at(i),
            None => unreachable!(),
        }
    }

    /// What undoing so many groups of the pending records would pass in the accessible portion, or why it is refused.
    pub fn undo_plan(&self, id: u32, groups: u32) -> Mem<Result<Plan, Refused>>
        requires { 1 ≤ groups }
        ensures { result ≡ Ok (planned groups (buffer_at (editor_of self.now) id).begin
            (buffer_at (editor_of self.now) id).end (buffer_at (editor_of self.now) id).undo) }
    {
        match self.found(id) {
            Some(buffer) => {
                let bounds = *buffer.bounds();
                buffer.undo().plan(groups, bounds.start, bounds.end)
            }
            None => Ok(Err(Refused::Nothing)),
        }
    }
}
