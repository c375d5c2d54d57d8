//! Room for an answer.
ghost use Rattle.std.specs.Prelude.{◌≡◌, ◌+◌, ◌≤◌, false, IfOk};
ghost use Rattle.plain_machine.specs.Exchanges.{most_read};
ghost use Rattle.handler_run.specs.Answers.{longest_told, most_held};

use crate::told::LONGEST_TOLD;
use ek_call::Values;
use ek_types::limits::MOST_READ;
use ek_types::{Chars, Mem, PieceRoom};
use process_table::Process;
use std::alloc::Global;
use std::marker::Model;

/// The most bytes that a decoder holds.
const MOST_HELD: usize = 3;

/// All the memory that one answer of a process can need, seen as the number of characters that it has room for.
#[derive(Drop)]
pub struct Slot {
    pub(crate) text: Chars,
    pub(crate) piece: PieceRoom,
    pub(crate) args: Values,
}

impl Model for Slot {
    ghost use Rattle.std.specs.Prelude.{◌≡◌, ◌≤◌, ℕ, []};
    ghost use Rattle.ek_types.specs.Listing.{items_of, spare_of};

    ghost Value = { ℕ };

    ghost view = { λ s. s.text.spare };

    ghost invariant = { λ s. (s.text.items ≡ []) × (items_of s.args ≡ []) × (2 ≤ spare_of s.args) };
}

/// Takes all the memory that the next answer of a process can need, before it is asked: for the characters of one read
/// and of the bytes held, or for what its sentinel is told.
pub fn ready(alloc: Global, p: &Process) -> Mem<Slot>
    ensures reads { p.now.drained ≡ false → IfOk result (λ slot. most_read + most_held ≤ slot) }
    ensures ends { IfOk result (λ slot. longest_told ≤ slot) }
{
    let mut text = Chars::new(alloc);
    text.reserve(needed(p))?;
    let piece = PieceRoom::new(alloc)?;
    let mut args = Values::new(alloc);
    args.reserve(2)?;
    Ok(Slot { text, piece, args })
}

/// For how many characters the next answer of a process needs room.
fn needed(p: &Process) -> usize
    ensures reads { p.now.drained ≡ false → result ≡ most_read + most_held }
    ensures ends { longest_told ≤ result }
{
    if p.drained() {
        LONGEST_TOLD
    } else {
        MOST_READ + MOST_HELD
    }
}
