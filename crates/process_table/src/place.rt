//! Room for a process that is still to be made.
ghost use Rattle.std.specs.Prelude.{◌≡◌, ◌<◌, [], length, vec_capacity};

use crate::process::Process;
use ek_types::Chars;
use std::marker::Model;

/// Room for one process more, with its name: seen as the name, and for how many processes a table has room that it is
/// given to.
#[derive(Drop)]
pub struct Place {
    pub(crate) name: Chars,
    pub(crate) list: Vec<Process>,
}

impl Model for Place {
    ghost use Rattle.std.specs.Prelude.{◌≡◌, [], vec_capacity};
    ghost use Rattle.process_table.specs.Table.{Room};

    ghost Value = { Room };

    ghost view = { λ p. record { name = p.name.items; processes = vec_capacity p.list } };

    ghost invariant = { λ p. p.list.items ≡ [] };
}

/// Moves processes into empty room, with no memory taken.
pub(crate) fn moved(processes: Vec<Process>, room: Vec<Process>) -> Vec<Process>
    requires empty { room.items ≡ [] }
    requires fits { length processes.items < vec_capacity room }
    ensures items { result.items ≡ processes.items }
    ensures capacity { vec_capacity result ≡ vec_capacity room }
{
    let mut list = room;
    for process in processes {
        list.push_reserved(process);
    }
    list
}
