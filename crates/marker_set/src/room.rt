//! Room for a marker that is still to be made.
ghost use Rattle.std.specs.Prelude.{◌≡◌, ◌<◌, ◌≤◌, [], length, vec_capacity, IfOk};

use crate::part::Part;
use crate::slot::Slot;
use ek_types::Mem;
use std::alloc::Global;
use std::marker::Model;
use std::mem;

/// Room for markers: seen as their number. There may be a part for them, and room for it among the other parts.
#[derive(Drop)]
pub struct Room {
    pub(crate) slots: Vec<Slot>,
    pub(crate) part: Option<Part>,
    pub(crate) parts: Vec<Part>,
}

impl Model for Room {
    ghost use Rattle.std.specs.Prelude.{ℕ, vec_capacity};

    ghost Value = { ℕ };

    ghost use Rattle.marker_set.specs.Room.{IsRoom};

    ghost view = { λ r. vec_capacity r.slots };

    ghost invariant = { λ r. IsRoom r.slots.items r.part r.parts.items };
}

impl Room {
    /// Room for `n` markers.
    pub(crate) fn new(alloc: Global, n: usize) -> Mem<Room>
        ensures { IfOk result (λ room. room ≡ n) }
    {
        Ok(Room {
            slots: Vec::with_capacity(alloc, n)?,
            part: None,
            parts: Vec::new(alloc),
        })
    }

    /// Room for `n` markers and one part more, among `n_parts` parts.
    pub(crate) fn with_part(alloc: Global, n: usize, n_parts: usize) -> Mem<Room>
        ensures { IfOk result (λ room. room ≡ n) }
    {
        Ok(Room {
            slots: Vec::with_capacity(alloc, n)?,
            part: Some(Part::new(alloc)?),
            parts: Vec::with_capacity(alloc, n_parts)?,
        })
    }
}

/// Moves items into empty room, which takes the place of where they were. It takes no memory.
pub(crate) fn move_to<T>(list: &mut Vec<T>, room: Vec<T>)
    requires empty { room.items ≡ [] }
    requires fits { length list.old.items ≤ vec_capacity room }
    ensures items { list.new.items ≡ list.old.items }
    ensures capacity { vec_capacity room ≤ vec_capacity list.new }
{
    let mut before = mem::replace(list, room);
    match list.append(&mut before) {
        Ok(()) => {}
        Err(_) => unreachable!(),
    }
    before.destroy_empty();
}
