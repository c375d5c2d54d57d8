//! Blocks of a pool: taken and given back, with their cells.

ghost use Rattle.std.specs.Prelude.{◌≢◌};
ghost use Rattle.text_pool.specs.Pool.{IsLive, SameOthers};

use crate::checking::{holds, is};
use std::process::Abort;
use text_pool::{Block, Pool};

#[test]
fn two_reserved_blocks_are_taken_and_one_is_given_back(rt: HostRuntime) {
    let mut pool = Pool::new(rt.alloc());
    pool.reserve(2).expect(&rt, "memory");
    let first = pool.take().expect(&rt, "a first block");
    let second = pool.take().expect(&rt, "a second block");
    if let Some(third) = pool.take() {
        pool.give(third);
        panic!(rt; "a third block");
    }
    pool.give(second);
    is(&rt, pool.spare(), 1);
    is(&rt, pool.live(), 1);
    pool.give(first);
    is(&rt, pool.spare(), 2);
    is(&rt, pool.live(), 0);
}

/// Two blocks of a pool.
fn two(rt: &impl Abort, pool: &mut Pool) -> (Block, Block)
    ensures first { IsLive pool.new result.0 }
    ensures second { IsLive pool.new result.1 }
    ensures apart { result.0 ≢ result.1 }
{
    pool.reserve(2).expect(rt, "memory");
    let first = pool.take().expect(rt, "a first block");
    let second = pool.take().expect(rt, "a second block");
    (first, second)
}

/// Sets the first and the last cell of a block.
fn set_ends(pool: &mut Pool, block: &Block, first: u32, last: u32)
    requires { IsLive pool.old block.now }
    ensures is_live { IsLive pool.new block.now }
    ensures others { SameOthers pool.old pool.new block.now }
{
    pool.set_cells(block, 0, &[first]);
    pool.set_cells(block, 255, &[last]);
}

/// The first and the last cell of a block.
fn ends(pool: &Pool, block: &Block) -> (u32, u32)
    requires { IsLive pool.now block.now }
{
    (pool.cell(block, 0), pool.cell(block, 255))
}

#[test]
fn each_block_keeps_its_cells(rt: HostRuntime) {
    let mut pool = Pool::new(rt.alloc());
    let (first, second) = two(&rt, &mut pool);
    set_ends(&mut pool, &first, 10, 11);
    set_ends(&mut pool, &second, 20, u32::MAX);
    is(&rt, ends(&pool, &first), (10, 11));
    pool.give(first);
    is(&rt, ends(&pool, &second), (20, u32::MAX));
    pool.give(second);
}

/// A block's cells begin with these.
fn begins_with(rt: &impl Abort, pool: &Pool, block: &Block, expected: &[u32])
    requires { IsLive pool.now block.now }
{
    holds(rt, pool.cells(block).starts_with(expected));
}

#[test]
fn a_part_is_copied_over_itself(rt: HostRuntime) {
    let mut pool = Pool::new(rt.alloc());
    pool.reserve(1).expect(&rt, "memory");
    let block = pool.take().expect(&rt, "a block");
    pool.set_cells(&block, 0, &[10, 11]);
    pool.copy_cells(&block, 0, &block, 1, 2);
    begins_with(&rt, &pool, &block, &[10, 10, 11]);
    pool.give(block);
}

#[test]
fn a_part_is_copied_to_another_block(rt: HostRuntime) {
    let mut pool = Pool::new(rt.alloc());
    let (first, second) = two(&rt, &mut pool);
    pool.set_cell(&first, 1, 10);
    pool.copy_cells(&first, 1, &second, 255, 1);
    is(&rt, pool.cell(&second, 255), 10);
    pool.give(first);
    pool.give(second);
}
