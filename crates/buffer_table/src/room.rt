//! Room for a buffer that is still to be made.
ghost use Rattle.std.specs.Prelude.{◌≡◌, ◌≤◌, [], length, vec_capacity};

use crate::editor::Live;
use ek_types::Chars;
use std::marker::Model;
use std::mem;

/// Room for one buffer more, with its name: seen as the name, and for how many buffers an editor has room that it is
/// given to. It can't be dropped: it has to be given to an editor, or released.
pub struct BufferRoom {
    pub(crate) name: Chars,
    pub(crate) buffers: Vec<Option<Live>>,
}

impl Model for BufferRoom {
    ghost use Rattle.std.specs.Prelude.{◌≡◌, [], vec_capacity};
    ghost use Rattle.buffer_table.specs.Room.{Room};

    ghost Value = { Room };

    ghost view = { λ r. record { name = r.name.items; buffers = vec_capacity r.buffers } };

    ghost invariant = { λ r. r.buffers.items ≡ [] };
}

impl BufferRoom {
    /// Gives the memory back, where no buffer is to be made.
    pub fn release(self) {
        let BufferRoom { name: _, buffers } = self;
        buffers.destroy_empty();
    }
}

/// Moves buffers into empty room, which takes the place of where they were. It takes no memory.
pub(crate) fn move_to(list: &mut Vec<Option<Live>>, room: Vec<Option<Live>>)
    requires empty { room.items ≡ [] }
    requires fits { length list.old.items ≤ vec_capacity room }
    ensures items { list.new.items ≡ list.old.items }
    ensures capacity { vec_capacity room ≤ vec_capacity list.new }
{
    let mut before = mem::replace(list, room);
    match list.append(&mut before) {
        Ok(()) => {}
        Err(_) => unreachable!(),
    }
    before.destroy_empty();
}
