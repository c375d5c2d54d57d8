//! Buffers that are made, named and found.
ghost use Rattle.std.specs.Prelude.{◌≡◌, ℕ, ◌+◌, ◌<◌, true, length, None, IfOk, OnOk, OnErr};
ghost use Rattle.std.specs.Prelude.{option_map, slice_set};
ghost use Rattle.editor_model.specs.Editor.{scratch, live, is_live, find, find_from, with_buffer};
ghost use Rattle.editor_model.specs.Editor.{renamed};
ghost use Rattle.buffer_table.specs.Kept.{editor_of, has_name, named_at};

use crate::editor::{Editor, Live};
use crate::room::{BufferRoom, move_to};
use ek_types::{Chars, Mem};
use std::alloc::Global;

/// The name of the first buffer.
const SCRATCH: [u8; 9] = *b"*scratch*";

/// The name of the first buffer, as characters.
pub(crate) fn scratch(alloc: Global) -> Mem<Chars>
    ensures { IfOk result (λ name. name.items ≡ scratch) }
{
    let mut name = Chars::new(alloc);
    name.extend_bytes(SCRATCH.as_slice())?;
    Ok(name)
}

/// Whether a buffer lives and has a name.
fn is_named(entry: &Option<Live>, name: &Chars) -> bool
    ensures { result ≡ has_name name.now.items entry.now }
{
    match entry {
        Some(live) => live.name.same(name),
        None => false,
    }
}

impl Editor {
    /// The number of the live buffer of a name.
    pub fn find(&self, name: &Chars) -> Option<u32>
        ensures { result ≡ find (editor_of self.now) name.now.items }
    {
        for id in 0..self.buffers.len() {
            if is_named(&self.buffers[id], name) {
                return Some(id as u32);
            }
        }
        None
    }

    /// The name of a live buffer, or `None` where no live buffer has the number.
    pub fn name(&self, id: u32) -> Option<&Chars>
        ensures { option_map (λ n. n.now.items) result ≡
            option_map (λ l. l.name) (live (editor_of self.now) id) }
    {
        match self.buffers.get(id as usize) {
            Some(Some(live)) => Some(&live.name),
            _ => None,
        }
    }

    /// Makes a live buffer the current one.
    pub fn set_current(&mut self, id: u32)
        requires { is_live (editor_of self.old) id ≡ true }
        ensures { editor_of self.new ≡ record (editor_of self.old) { current = id } }
    {
        self.current = id;
    }

    /// Takes all the memory that one buffer more of this name needs.
    pub fn reserve_buffer(&self, name: Chars) -> Mem<BufferRoom>
        ensures name { IfOk result (λ room. room.name ≡ name.items) }
        ensures buffers { IfOk result (λ room. room.buffers ≡ length (editor_of self.now).buffers + 1) }
    {
        let buffers = Vec::with_capacity(self.alloc, self.buffers.len() + 1)?;
        Ok(BufferRoom { name, buffers })
    }

    /// Makes an empty buffer of a name that no live buffer has, in the room that was reserved for it, and gives its
    /// number. It takes no memory.
    pub fn make_reserved(&mut self, room: BufferRoom) -> u32
        requires few { length (editor_of self.old).buffers < 256 }
        requires fits { length (editor_of self.old).buffers < room.buffers }
        requires free { find (editor_of self.old) room.name ≡ None }
        ensures number { result ≡ length (editor_of self.old).buffers }
        ensures live { is_live (editor_of self.new) result ≡ true }
        ensures editor { editor_of self.new ≡ with_buffer room.name (editor_of self.old) }
        ensures pool { self.new.pool ≡ self.old.pool }
        ensures others { (id : ℕ) → id < length self.old.buffers →
            named_at self.new.buffers id ≡ named_at self.old.buffers id }
    {
        let BufferRoom { name, buffers } = room;
        let number = self.buffers.len() as u32;
        move_to(&mut self.buffers, buffers);
        let live = Live::new(name, self.alloc);
        self.buffers.push_reserved(Some(live));
        number
    }

    /// Makes an empty buffer of a name that no live buffer has, and gives its number. A refusal leaves the editor as
    /// it was.
    pub fn make(&mut self, name: &Chars) -> Mem<u32>
        requires room { length (editor_of self.old).buffers < 256 }
        requires free { find (editor_of self.old) name.now.items ≡ None }
        ensures number { IfOk result (λ id. id ≡ length (editor_of self.old).buffers) }
        ensures live { IfOk result (λ id. is_live (editor_of self.new) id ≡ true) }
        ensures ok { OnOk result (editor_of self.new ≡
            with_buffer name.now.items (editor_of self.old)) }
        ensures err { OnErr result (editor_of self.new ≡ editor_of self.old) }
        ensures pool { self.new.pool ≡ self.old.pool }
        ensures others { (id : ℕ) → id < length self.old.buffers →
            named_at self.new.buffers id ≡ named_at self.old.buffers id }
    {
        let room = self.reserve_buffer(name.copy()?)?;
        Ok(self.make_reserved(room))
    }

    /// Gives a live buffer a name that no other live buffer has. A refusal leaves the editor as it was.
    pub fn rename(&mut self, id: u32, name: &Chars) -> Mem<()>
        requires live { is_live (editor_of self.old) id ≡ true }
        requires free { find_from 0 (slice_set (editor_of self.old).buffers id None)
            name.now.items ≡ None }
        ensures ok { OnOk result (editor_of self.new ≡ renamed id name.now.items (editor_of self.old)) }
        ensures err { OnErr result (editor_of self.new ≡ editor_of self.old) }
    {
        let name = name.copy()?;
        match &mut self.buffers[id as usize] {
            Some(live) => live.name = name,
            None => unreachable!(),
        }
        Ok(())
    }
}
