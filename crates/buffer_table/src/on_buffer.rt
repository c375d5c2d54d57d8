//! Calls on one of the buffers.
ghost use Rattle.std.specs.Prelude.{◌≡◌, ℕ, ◌⊎◌, ◌<◌, ◌≤◌, true, [], length, if◌then◌else◌, Ok};
ghost use Rattle.std.specs.Prelude.{Err, IfOk, OnOk, OnErr, Some, option_map, slice_get};
ghost use Rattle.text_model.specs.Properties.{part};
ghost use Rattle.text_model.specs.Undo.{with_boundary, started, enabled, disabled, passed};
ghost use Rattle.text_model.specs.Commit.{replaced, reset, property_records, undone_groups};
ghost use Rattle.editor_model.specs.TextCalls.{point_at, narrowed, widened};
ghost use Rattle.editor_model.specs.Editor.{is_live, buffer_at, change_site, change_buffer};
ghost use Rattle.ek_types.specs.Seen.{ch_of};
ghost use Rattle.prop_intervals.specs.Edits.{edit_of};
ghost use Rattle.prop_intervals.specs.Sets.{together};
ghost use Rattle.narrow_region.specs.Positions.{place_of};
ghost use Rattle.undo_list.specs.Plans.{planned};
ghost use Rattle.buffer_core.specs.Changes.{is_some_record};
ghost use Rattle.buffer_table.specs.Kept.{editor_of};

use crate::editor::Editor;
use ek_types::{Ch, Mem, Piece};
use prop_intervals::PropEdit;
use undo_list::{Plan, Refused};

/// In all of these the buffer lives, and places count from 0.
impl Editor {
    /// Character `i` of a buffer.
    pub fn char_at(&self, id: u32, i: usize) -> Ch
        requires live { is_live (editor_of self.now) id ≡ true }
        requires range { i < length (buffer_at (editor_of self.now) id).text }
        ensures { option_map (λ c. c.0) (slice_get (buffer_at (editor_of self.now) id).text i) ≡
            Some (ch_of result) }
    {
        match &self.buffers[id as usize] {
            Some(live) => live.buffer.text().at(&self.pool, i),
            None => unreachable!(),
        }
    }

    /// The part of a buffer from `from` to before `to`.
    pub fn substring(&self, id: u32, from: usize, to: usize) -> Mem<Piece>
        requires live { is_live (editor_of self.now) id ≡ true }
        requires order { from ≤ to }
        requires range { to ≤ length (buffer_at (editor_of self.now) id).text }
        ensures { IfOk result (λ piece. piece ≡ part from to (buffer_at (editor_of self.now) id).text) }
    {
        match &self.buffers[id as usize] {
            Some(live) => live.buffer.substring(from, to, &self.pool),
            None => unreachable!(),
        }
    }

    /// Takes the part from `from` to before `to` out, or puts pieces in there: only one of the two can be something.
    /// `all` markers and overlays at the place of an insertion advance. A refusal leaves the editor as it was.
    #[inline(always)]
    pub fn replace(&mut self, id: u32, from: usize, to: usize, with: &[Piece], all: bool) -> Mem<()>
        requires live { is_live (editor_of self.old) id ≡ true }
        requires order { from ≤ to }
        requires range { to ≤ length (buffer_at (editor_of self.old) id).text }
        requires one { (from ≡ to) ⊎ (together with.now ≡ []) }
        ensures ok { OnOk result (editor_of self.new ≡
            change_site id (replaced id from to (together with.now) all) (editor_of self.old)) }
        ensures err { OnErr result (editor_of self.new ≡ editor_of self.old) }
    {
        match &mut self.buffers[id as usize] {
            Some(live) => live
                .buffer
                .replace(id, from, to, with, all, &mut self.marks, &mut self.pool),
            None => unreachable!(),
        }
    }

    /// Changes the properties of the characters from `from` to before `to`, and says whether that changed something. A
    /// refusal leaves the editor as it was.
    pub fn reprop(&mut self, id: u32, from: usize, to: usize, edit: &PropEdit) -> Mem<bool>
        requires live { is_live (editor_of self.old) id ≡ true }
        requires order { from ≤ to }
        requires range { to ≤ length (buffer_at (editor_of self.old) id).text }
        ensures ok { OnOk result (editor_of self.new ≡
            change_buffer id (reset (edit_of edit.now) from to) (editor_of self.old)) }
        ensures changed { IfOk result (λ b. b ≡ is_some_record
            (property_records (edit_of edit.now) from to
            (buffer_at (editor_of self.old) id).text)) }
        ensures err { OnErr result (editor_of self.new ≡ editor_of self.old) }
    {
        match &mut self.buffers[id as usize] {
            Some(live) => live.buffer.reprop(from, to, edit),
            None => unreachable!(),
        }
    }

    /// Point goes to the position `p`, which counts from 1, or to the nearer end of the accessible portion.
    pub fn goto(&mut self, id: u32, p: i64)
        requires { is_live (editor_of self.old) id ≡ true }
        ensures { editor_of self.new ≡ change_buffer id (point_at (place_of p)) (editor_of self.old) }
    {
        match &mut self.buffers[id as usize] {
            Some(live) => live.buffer.goto(p),
            None => unreachable!(),
        }
    }

    /// Point goes to a place, or to the nearer end of the accessible portion.
    pub fn goto_place(&mut self, id: u32, place: usize)
        requires { is_live (editor_of self.old) id ≡ true }
        ensures { editor_of self.new ≡ change_buffer id (point_at place) (editor_of self.old) }
    {
        match &mut self.buffers[id as usize] {
            Some(live) => live.buffer.goto_place(place),
            None => unreachable!(),
        }
    }

    /// The part from `from` to `to` becomes the accessible portion, and point goes to the nearest place in it.
    pub fn narrow(&mut self, id: u32, from: usize, to: usize)
        requires live { is_live (editor_of self.old) id ≡ true }
        requires order { from ≤ to }
        requires range { to ≤ length (buffer_at (editor_of self.old) id).text }
        ensures { editor_of self.new ≡ change_buffer id (narrowed from to) (editor_of self.old) }
    {
        match &mut self.buffers[id as usize] {
            Some(live) => live.buffer.narrow(from, to),
            None => unreachable!(),
        }
    }

    /// The whole text becomes the accessible portion.
    pub fn widen(&mut self, id: u32)
        requires { is_live (editor_of self.old) id ≡ true }
        ensures { editor_of self.new ≡ change_buffer id widened (editor_of self.old) }
    {
        let size = self.size(id);
        // Read for what it ensures: point lies in the text.
        let _bounds = self.bounds(id);
        self.narrow(id, 0, size);
    }

    /// Says whether a buffer was modified.
    pub fn set_modified(&mut self, id: u32, on: bool)
        requires { is_live (editor_of self.old) id ≡ true }
        ensures { editor_of self.new ≡ change_buffer id (λ b. record b { modified = on })
            (editor_of self.old) }
    {
        match &mut self.buffers[id as usize] {
            Some(live) => live.buffer.set_modified(on),
            None => unreachable!(),
        }
    }

    /// Ends the newest group of undo records, unless there is none. A refusal leaves the editor as it was.
    pub fn undo_boundary(&mut self, id: u32) -> Mem<()>
        requires { is_live (editor_of self.old) id ≡ true }
        ensures ok { OnOk result (editor_of self.new ≡
            change_buffer id (λ b. record b { undo = with_boundary b.undo }) (editor_of self.old)) }
        ensures err { OnErr result (editor_of self.new ≡ editor_of self.old) }
    {
        match &mut self.buffers[id as usize] {
            Some(live) => live.buffer.undo_boundary(),
            None => unreachable!(),
        }
    }

    /// Makes all undo records pending. It is refused where recording is off, as `Disabled`, and changes nothing then.
    pub fn undo_start(&mut self, id: u32) -> Result<(), Refused>
        requires { is_live (editor_of self.old) id ≡ true }
        ensures result { result ≡ (if (buffer_at (editor_of self.old) id).undo.on then Ok tt else
            Err Refused.Disabled) }
        ensures editor { editor_of self.new ≡ change_buffer id
            (λ b. record b { undo = if b.undo.on then started b.undo else b.undo })
            (editor_of self.old) }
    {
        match &mut self.buffers[id as usize] {
            Some(live) => live.buffer.undo_start(),
            None => unreachable!(),
        }
    }

    /// Begins to record, or stops and drops all records.
    pub fn undo_enable(&mut self, id: u32, on: bool)
        requires { is_live (editor_of self.old) id ≡ true }
        ensures { editor_of self.new ≡ change_buffer id
            (λ b. record b { undo = if on then enabled b.undo else disabled b.undo })
            (editor_of self.old) }
    {
        match &mut self.buffers[id as usize] {
            Some(live) => live.buffer.undo_enable(on),
            None => unreachable!(),
        }
    }

    /// Undoes the groups of a plan, which `undo_plan` gave of the buffer as it stands. A refusal leaves the editor as
    /// it was.
    pub fn apply_plan(&mut self, id: u32, plan: &Plan) -> Mem<()>
        requires live { is_live (editor_of self.old) id ≡ true }
        requires plan { let b = buffer_at (editor_of self.old) id in
            (groups : ℕ) × (1 ≤ groups) × (planned groups b.begin b.end b.undo ≡ Ok plan.now) }
        ensures ok { let b = buffer_at (editor_of self.old) id in
            (groups : ℕ) → 1 ≤ groups → planned groups b.begin b.end b.undo ≡ Ok plan.now
            → OnOk result (editor_of self.new ≡
            change_site id (undone_groups id (passed groups b.undo)) (editor_of self.old)) }
        ensures err { OnErr result (editor_of self.new ≡ editor_of self.old) }
    {
        match &mut self.buffers[id as usize] {
            Some(live) => live
                .buffer
                .apply_plan(id, plan, &mut self.marks, &mut self.pool),
            None => unreachable!(),
        }
    }
}
