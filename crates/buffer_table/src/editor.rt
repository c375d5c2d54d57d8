//! The editor.
ghost use Rattle.std.specs.Prelude.{◌≡◌, ◌*◌, ◌<◌, ◌≤◌, true, [], length, None, option_map, unwrap_or};
ghost use Rattle.std.specs.Prelude.{slice_get};
ghost use Rattle.editor_model.specs.Editor.{characters_in, is_live, new_live};
ghost use Rattle.gap_text.specs.Text.{LiesIn};
ghost use Rattle.text_pool.specs.Pool.{Pooled};
ghost use Rattle.buffer_table.specs.Kept.{blocks_in, cells_in, editor_of, live_of};

use buffer_core::{Buffer, Marks};
use ek_call::Value;
use ek_types::{Chars, Sym};
use std::alloc::Global;
use std::marker::Model;
use text_pool::Pool;

/// A buffer with its name.
pub struct Live {
    pub name: Chars,
    pub buffer: Buffer,
    pub read_only: bool,
}

impl Model for Live {
    ghost use Rattle.buffer_table.specs.Kept.{Named};

    ghost Value = { Named };

    ghost view = { λ l. record { name = l.name.items; buffer = l.buffer; read_only = l.read_only } };
}

impl Live {
    /// An empty buffer of a name, which is writable. It takes no memory.
    pub(crate) fn new(name: Chars, alloc: Global) -> Live
        ensures shown { (pool : Pooled) → live_of pool result ≡ new_live name.items }
        ensures name { result.name ≡ name.items }
        ensures blocks { result.buffer.text.blocks ≡ [] }
        ensures sets { result.buffer.sets ≡ [] }
        ensures lies { (pool : Pooled) → LiesIn pool result.buffer.text }
    {
        Live {
            name,
            buffer: Buffer::new(alloc),
            read_only: false,
        }
    }
}

/// All buffers by number, from 0 in the order in which they were made; a killed one keeps its number. It is seen with the
/// pool beside the buffers, in which the characters of their texts lie.
pub struct Editor {
    pub(crate) buffers: Vec<Option<Live>>,
    pub(crate) current: u32,
    pub(crate) marks: Marks,
    pub(crate) registers: Vec<(Sym, Value)>,
    pub(crate) pool: Pool,
    pub(crate) lifted: bool,
    pub(crate) alloc: Global,
}

impl Model for Editor {
    ghost use Rattle.buffer_table.specs.Kept.{Kept, IsKept};
    ghost use Rattle.ek_call.specs.contracts.value.Value as value;
    ghost use Rattle.std.specs.Coded.{codes};

    ghost Value = { Kept };

    ghost coded = { Prim.hlevel (codes, value.the_row.coded) };

    ghost view = { λ e. record {
      buffers = e.buffers.items;
      current = e.current;
      marks = e.marks;
      registers = e.registers.items;
      pool = e.pool;
      lifted = e.lifted;
    } };

    ghost invariant = { λ e. IsKept (record {
      buffers = e.buffers.items;
      current = e.current;
      marks = e.marks;
      registers = e.registers.items;
      pool = e.pool;
      lifted = e.lifted;
    }) };
}

impl Editor {
    /// How many buffers were made: at most 256.
    pub fn count(&self) -> u32
        ensures number { result ≡ length self.now.buffers }
        ensures few { result ≤ 256 }
    {
        self.buffers.len() as u32
    }

    /// The number of the current buffer, which lives.
    pub fn current(&self) -> u32
        ensures number { result ≡ (editor_of self.now).current }
        ensures live { is_live (editor_of self.now) result ≡ true }
        ensures made { result < 256 }
        ensures counted { result < length (editor_of self.now).buffers }
    {
        self.current
    }

    /// How many blocks of the pool are live: those of the texts of the live buffers. Each has 256 cells, which hold the
    /// characters of these texts and the spare beside them.
    pub fn pool_live(&self) -> usize
        ensures blocks { result ≡ blocks_in self.now.buffers }
        ensures account { 256 * result ≡ cells_in self.now.pool self.now.buffers }
        ensures bound { characters_in (editor_of self.now).buffers ≤ 256 * result }
    {
        self.pool.live()
    }

    /// The buffer of a number: none where it was never made or was killed.
    pub fn buffer(&self, id: u32) -> Option<&Buffer>
        ensures { option_map (λ b. b.now) result ≡
            option_map (λ n. n.buffer) (unwrap_or (slice_get self.now.buffers id) None) }
    {
        match self.buffers.get(id as usize) {
            Some(Some(live)) => Some(&live.buffer),
            _ => None,
        }
    }
}
