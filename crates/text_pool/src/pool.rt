//! The pool, and the blocks that it lends out.
ghost use Rattle.std.specs.Prelude.{◌≡◌, ◌↔◌, ℕ, ◌+◌, ◌<◌, ◌≤◌, [], ◌++◌, length, take, drop, max, Some};
ghost use Rattle.std.specs.Prelude.{None, OnOk, OnErr, IsNone, IfNone, IfSome, OnSome, slice_index, slice_set};
ghost use Rattle.slab.specs.Slab.{HasRoomFor};
ghost use Rattle.text_pool.specs.Pool.{Pooled, cells_at, cells, IsLive, live, SameOthers};

use slab::Slab;
use std::alloc::Global;
use std::marker::Model;

/// How many cells a block has.
pub const CELLS: usize = 256;

/// Memory was wanting in the pool, which stays as it was.
#[derive(Clone, Copy, Debug, PartialEq, Eq)]
pub struct PoolMemory;

/// A block of a pool, seen as its number. It can't be dropped: it has to be given back.
pub struct Block {
    number: usize,
}

impl Model for Block {
    ghost Value = { ℕ };

    ghost view = { λ block. block.number };
}

/// Blocks of 256 cells under numbers that the pool picks, and a spare: how many more can be taken with no memory.
#[derive(Drop)]
pub struct Pool {
    blocks: Slab<[u32; CELLS]>,
    // The slab may have room for more.
    spare: usize,
}

impl Model for Pool {
    ghost Value = { Pooled };

    ghost view = { λ pool. record { slots = pool.blocks.slots; spare = pool.spare } };

    ghost invariant = { λ pool. HasRoomFor pool.blocks pool.spare };
}

impl Pool {
    /// A pool with no block and no spare, which takes no memory yet.
    pub fn new(alloc: Global) -> Pool
        ensures empty { result.slots ≡ [] }
        ensures spare { result.spare ≡ 0 }
    {
        Pool {
            blocks: Slab::new(alloc),
            spare: 0,
        }
    }

    /// Raises the spare to `blocks` where it is less, and else changes nothing. A refusal leaves the pool as it was.
    pub fn reserve(&mut self, blocks: usize) -> Result<(), PoolMemory>
        ensures slots { self.new.slots ≡ self.old.slots }
        ensures ok { OnOk result (self.new.spare ≡ max self.old.spare blocks) }
        ensures err { OnErr result (self.new ≡ self.old) }
        ensures err_only_where_needed { OnErr result (self.old.spare < blocks) }
    {
        if blocks <= self.spare {
            return Ok(());
        }
        match self.blocks.reserve(blocks) {
            Ok(()) => {
                self.spare = blocks;
                Ok(())
            }
            Err(_) => Err(PoolMemory),
        }
    }

    /// Lends a block that nobody else has, and lowers the spare by one; `None` exactly where the spare is 0, and then
    /// nothing changes. What its cells hold is left open.
    pub fn take(&mut self) -> Option<Block>
        ensures none { IsNone result ↔ (self.old.spare ≡ 0) }
        ensures unchanged { IfNone result (self.new ≡ self.old) }

        ensures was_not_live { IfSome result (λ block. cells_at self.old block ≡ None) }
        ensures is_live { IfSome result (λ block. IsLive self.new block) }
        ensures others { IfSome result (λ block. SameOthers self.old self.new block) }
        ensures spare { OnSome result (self.new.spare + 1 ≡ self.old.spare) }
        ensures count { OnSome result (live self.new ≡ live self.old + 1) }
    {
        if self.spare == 0 {
            return None;
        }
        self.spare -= 1;
        let number = self.blocks.insert_reserved([0; CELLS]);
        Some(Block { number })
    }

    /// Takes back a block that is live in this pool, and raises the spare by one.
    pub fn give(&mut self, block: Block)
        requires { IsLive self.old block }
        ensures gone { cells_at self.new block ≡ None }
        ensures others { SameOthers self.old self.new block }
        ensures spare { self.new.spare ≡ self.old.spare + 1 }
        ensures count { live self.new + 1 ≡ live self.old }
    {
        let Block { number } = block;
        let _cells = self.blocks.remove(number);
        let capacity = self.blocks.capacity();
        prove!(self.spare < capacity);
        self.spare += 1;
    }

    /// How many blocks `take` can give before it answers `None`.
    pub fn spare(&self) -> usize
        ensures { result ≡ self.now.spare }
    {
        self.spare
    }

    /// How many blocks were taken and not given back.
    pub fn live(&self) -> usize
        ensures { result ≡ live self.now }
    {
        self.blocks.len()
    }

    /// What was last set in cell `i` of a block that is live in this pool, counted from 0 and below 256.
    pub fn cell(&self, block: &Block, i: usize) -> u32
        requires live { IsLive self.now block.now }
        requires range { i < 256 }
        ensures { result ≡ slice_index (cells self.now block.now) i }
    {
        self.blocks[block.number][i]
    }

    /// The cells of a block that is live in this pool.
    pub fn cells(&self, block: &Block) -> &[u32; CELLS]
        requires { IsLive self.now block.now }
        ensures { result.now ≡ cells self.now block.now }
    {
        &self.blocks[block.number]
    }

    /// Sets cell `i` of a block that is live in this pool, counted from 0 and below 256, and no other cell.
    pub fn set_cell(&mut self, block: &Block, i: usize, value: u32)
        requires live { IsLive self.old block.now }
        requires range { i < 256 }
        ensures cell { cells self.new block.now ≡ slice_set (cells self.old block.now) i value }
        ensures is_live { IsLive self.new block.now }
        ensures others { SameOthers self.old self.new block.now }
        ensures spare { self.new.spare ≡ self.old.spare }
        ensures count { live self.new ≡ live self.old }
    {
        let cells = self.blocks.get_mut(block.number).unwrap();
        cells[i] = value;
    }

    /// Sets the cells of a block that is live in this pool to some values, from cell `at` on, and no other cells.
    pub fn set_cells(&mut self, block: &Block, at: usize, values: &[u32])
        requires live { IsLive self.old block.now }
        requires range { at + length values.now ≤ 256 }
        ensures cells { let old = cells self.old block.now in cells self.new block.now ≡
            take at old ++ values.now ++ drop (at + length values.now) old }
        ensures is_live { IsLive self.new block.now }
        ensures others { SameOthers self.old self.new block.now }
        ensures spare { self.new.spare ≡ self.old.spare }
        ensures count { live self.new ≡ live self.old }
    {
        let cells = self.blocks.get_mut(block.number).unwrap();
        cells[at..at + values.len()].copy_from_slice(values);
    }

    /// Copies `count` cells of one block, from cell `at` on, to the cells from `to` on of another one, or of the same
    /// one, where the two parts may overlap. Both blocks are live in this pool, and cells are counted from 0. No
    /// other cell changes.
    pub fn copy_cells(&mut self, source: &Block, at: usize, target: &Block, to: usize, count: usize)
        requires source_live { IsLive self.old source.now }
        requires target_live { IsLive self.old target.now }
        requires source_range { at + count ≤ 256 }
        requires target_range { to + count ≤ 256 }
        ensures cells { let old = cells self.old target.now in
            cells self.new target.now ≡ take to old ++
            take count (drop at (cells self.old source.now)) ++ drop (to + count) old }
        ensures source_is_live { IsLive self.new source.now }
        ensures target_is_live { IsLive self.new target.now }
        ensures others { SameOthers self.old self.new target.now }
        ensures spare { self.new.spare ≡ self.old.spare }
        ensures count { live self.new ≡ live self.old }
    {
        if source.number == target.number {
            let cells = self.blocks.get_mut(target.number).unwrap();
            cells.copy_within(at..at + count, to);
            return;
        }
        let copied = self.blocks[source.number];
        let cells = self.blocks.get_mut(target.number).unwrap();
        cells[to..to + count].copy_from_slice(&copied[at..at + count]);
    }
}
