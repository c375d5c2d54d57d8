//! The editor as a whole: how it begins, and how it ends.
ghost use Rattle.std.specs.Prelude.{◌≡◌, ◌≢◌, ◌==◌, if◌then◌else◌, ◌+◌, ◌<◌, true, length, None};
ghost use Rattle.std.specs.Prelude.{IfSome, IfOk, OnOk, OnErr, slice_set};
ghost use Rattle.text_model.specs.PropertyQuestions.{first};
ghost use Rattle.editor_model.specs.Editor.{new_editor, is_live, live_from, killed};
ghost use Rattle.gap_text.specs.Blocks.{SameOutside};
ghost use Rattle.gap_text.specs.Text.{LiesIn};
ghost use Rattle.text_pool.specs.Pool.{live};
ghost use Rattle.buffer_table.specs.Kept.{editor_of, named_at, blocks_of};
ghost use Rattle.buffer_table.specs.Places.{gone};

use crate::editor::{Editor, Live};
use crate::table::scratch;
use buffer_core::Marks;
use ek_types::{Mem, NoMemory};
use std::alloc::Global;
use std::mem;
use text_pool::Pool;

/// Gives the blocks of a buffer back, where it lives.
fn release(entry: Option<Live>, pool: &mut Pool)
    requires { IfSome entry (λ n. LiesIn pool.old n.buffer.text) }
    ensures others { SameOutside (blocks_of entry) pool.old pool.new }
    ensures count { live pool.new + length (blocks_of entry) ≡ live pool.old }
{
    match entry {
        Some(live) => {
            let Live {
                name: _,
                buffer,
                read_only: _,
            } = live;
            buffer.release(pool);
        }
        None => {}
    }
}

impl Editor {
    /// The editor with the one buffer `*scratch*`, which is empty and current.
    pub fn new(alloc: Global) -> Mem<Editor>
        ensures { IfOk result (λ e. editor_of e ≡ new_editor) }
    {
        let name = scratch(alloc)?;
        let mut buffers = Vec::new(alloc);
        match buffers.reserve(1) {
            Ok(()) => {}
            Err(_) => {
                buffers.destroy_empty();
                return Err(NoMemory);
            }
        }
        buffers.push_reserved(Some(Live::new(name, alloc)));
        Ok(Editor {
            buffers,
            current: 0,
            marks: Marks::new(alloc),
            registers: Vec::new(alloc),
            pool: Pool::new(alloc),
            lifted: false,
            alloc,
        })
    }

    /// The first live buffer but one.
    fn other_than(&self, id: u32) -> Option<u32>
        ensures first { result ≡ first (live_from 0 (slice_set (editor_of self.now).buffers id None)) }
        ensures live { IfSome result (λ other. is_live (editor_of self.now) other ≡ true) }
        ensures other { IfSome result (λ other. other ≢ id) }
    {
        for other in 0..self.buffers.len() {
            if other != id as usize && self.buffers[other].is_some() {
                return Some(other as u32);
            }
        }
        None
    }

    /// Takes a live buffer out that isn't current, and gives the blocks of its text back. Its markers and overlays stand
    /// nowhere then.
    fn forget(&mut self, id: u32)
        requires live { is_live (editor_of self.old) id ≡ true }
        requires aside { (editor_of self.old).current ≢ id }
        ensures editor { editor_of self.new ≡ gone id (editor_of self.old) }
        ensures blocks { live self.new.pool + length
            (named_at self.old.buffers id).buffer.text.blocks ≡ live self.old.pool }
    {
        let entry = mem::replace(&mut self.buffers[id as usize], None);
        release(entry, &mut self.pool);
        self.marks.drop_buffer(id);
    }

    /// Makes another buffer the current one in the place of `id`.
    fn leave(&mut self, id: u32, other: u32)
        requires live { is_live (editor_of self.old) other ≡ true }
        requires other { other ≢ id }
        ensures editor { editor_of self.new ≡ record (editor_of self.old) {
          current = if (editor_of self.old).current == id then other else
              (editor_of self.old).current;
        } }
        ensures aside { (editor_of self.new).current ≢ id }
        ensures buffers { self.new.buffers ≡ self.old.buffers }
        ensures pool { self.new.pool ≡ self.old.pool }
    {
        if self.current == id {
            self.current = other;
        }
    }

    /// Kills the only live buffer, and makes a new `*scratch*` in its place. A refusal leaves the editor as it was.
    fn kill_only(&mut self, only: u32) -> Mem<()>
        requires live { is_live (editor_of self.old) only ≡ true }
        requires alone { None ≡ first (live_from 0 (slice_set (editor_of self.old).buffers only None)) }
        requires room { length (editor_of self.old).buffers < 256 }
        ensures ok { OnOk result (editor_of self.new ≡ killed only (editor_of self.old)) }
        ensures err { OnErr result (editor_of self.new ≡ editor_of self.old) }
        ensures blocks { OnOk result (live self.new.pool + length
            (named_at self.old.buffers only).buffer.text.blocks ≡ live self.old.pool) }
    {
        let name = scratch(self.alloc)?;
        self.buffers.reserve(1)?;
        let number = self.buffers.len() as u32;
        let new = Live::new(name, self.alloc);
        self.buffers.push_reserved(Some(new));
        self.current = number;
        let killed = mem::replace(&mut self.buffers[only as usize], None);
        release(killed, &mut self.pool);
        self.marks.drop_buffer(only);
        Ok(())
    }

    /// Kills a live buffer. Where it was the current one, the first of the others becomes current, and where it was
    /// the only one a new `*scratch*`; fewer than 256 buffers were made then. A refusal leaves the editor as it was.
    pub fn kill(&mut self, id: u32) -> Mem<()>
        requires live { is_live (editor_of self.old) id ≡ true }
        requires room { None ≡ first (live_from 0 (slice_set (editor_of self.old).buffers id None))
            → length (editor_of self.old).buffers < 256 }
        ensures ok { OnOk result (editor_of self.new ≡ killed id (editor_of self.old)) }
        ensures err { OnErr result (editor_of self.new ≡ editor_of self.old) }
        ensures blocks { OnOk result (live self.new.pool + length
            (named_at self.old.buffers id).buffer.text.blocks ≡ live self.old.pool) }
    {
        match self.other_than(id) {
            Some(other) => {
                self.leave(id, other);
                self.forget(id);
                Ok(())
            }
            None => self.kill_only(id),
        }
    }

    /// Gives the blocks of all texts back, and lets everything go.
    pub fn close(self) {
        let Editor {
            mut buffers,
            current: _,
            marks: _,
            registers: _,
            mut pool,
            lifted: _,
            alloc: _,
        } = self;
        while let Some(entry) = buffers.pop() {
            release(entry, &mut pool);
        }
        buffers.destroy_empty();
    }
}
