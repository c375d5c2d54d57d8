//! More blocks for a row.
ghost use Rattle.std.specs.Prelude.{◌≡◌, ◌+◌, ◌*◌, ◌^◌, ◌<◌, ◌≤◌, length, take, ◌-◌, IfOk, OnOk};
ghost use Rattle.std.specs.Prelude.{vec_len, vec_capacity};
ghost use Rattle.gap_text.specs.Blocks.{AllLive, Distinct};
ghost use Rattle.gap_text.specs.Growth.{Grown, Appended, Inserted, brought};

use ek_types::{Mem, NoMemory};
use text_pool::{Block, CELLS, Pool};

/// How many blocks a row takes to have a gap of `n` cells: as many as it needs, and an eighth of its own number at
/// least, so that a text that grows by single characters takes blocks seldom.
pub(crate) fn blocks_wanted(blocks: usize, spare: usize, n: usize) -> Mem<usize>
    requires { spare < n }
    ensures room { IfOk result (λ more. n ≤ spare + 256 * more) }
    ensures countable { IfOk result (λ more. 256 * (blocks + more) < 2 ^ 64) }
{
    let needed = (n - spare - 1) / CELLS + 1;
    let more = needed.max(blocks / 8);
    match blocks.checked_add(more) {
        Some(all) if all <= usize::MAX / CELLS => Ok(more),
        _ => Err(NoMemory),
    }
}

/// Takes the memory for `more` blocks, in the pool and in the list. A refusal leaves both but for spare room.
pub(crate) fn make_room(blocks: &mut Vec<Block>, pool: &mut Pool, more: usize) -> Mem<()>
    ensures items { blocks.new.items ≡ blocks.old.items }
    ensures slots { pool.new.slots ≡ pool.old.slots }
    ensures kept { pool.old.spare ≤ pool.new.spare }
    ensures spare { OnOk result (more ≤ pool.new.spare) }
    ensures room { OnOk result (vec_len blocks.new + more ≤ vec_capacity blocks.new) }
{
    match pool.reserve(more) {
        Ok(()) => Ok(blocks.reserve(more)?),
        Err(_) => Err(NoMemory),
    }
}

/// Puts one block of the pool behind the others.
fn take_block(blocks: &mut Vec<Block>, pool: &mut Pool)
    requires live { AllLive pool.old blocks.old.items }
    requires distinct { Distinct blocks.old.items }
    requires spare { 0 < pool.old.spare }
    requires room { vec_len blocks.old < vec_capacity blocks.old }
    ensures grown { Grown pool.old pool.new blocks.old.items blocks.new.items 1 }
    ensures appended { Appended blocks.old.items blocks.new.items 1 }
    ensures capacity { vec_capacity blocks.new ≡ vec_capacity blocks.old }
{
    let Some(block) = pool.take() else {
        unreachable!()
    };
    blocks.push_reserved(block);
}

/// Puts `more` blocks of the pool behind the others.
fn take_blocks(blocks: &mut Vec<Block>, pool: &mut Pool, more: usize)
    requires live { AllLive pool.old blocks.old.items }
    requires distinct { Distinct blocks.old.items }
    requires spare { more ≤ pool.old.spare }
    requires room { vec_len blocks.old + more ≤ vec_capacity blocks.old }
    ensures grown { Grown pool.old pool.new blocks.old.items blocks.new.items more }
    ensures appended { Appended blocks.old.items blocks.new.items more }
{
    'taking: for _ in 0..more {
        take_block(blocks, pool);
    }
}

/// Moves the last `more` blocks to the place `at`, before those that stood there.
fn bring_last(blocks: &mut [Block], at: usize, more: usize)
    requires { at + more ≤ length blocks.old }
    ensures { blocks.new ≡ brought at more blocks.old }
{
    blocks[at..].rotate_right(more);
}

/// Puts `more` blocks of the pool at the place `at` of the row.
pub(crate) fn insert_blocks(blocks: &mut Vec<Block>, pool: &mut Pool, at: usize, more: usize)
    requires live { AllLive pool.old blocks.old.items }
    requires distinct { Distinct blocks.old.items }
    requires place { at ≤ vec_len blocks.old }
    requires spare { more ≤ pool.old.spare }
    requires room { vec_len blocks.old + more ≤ vec_capacity blocks.old }
    ensures grown { Grown pool.old pool.new blocks.old.items blocks.new.items more }
    ensures inserted { Inserted blocks.old.items blocks.new.items at more }
{
    take_blocks(blocks, pool, more);
    bring_last(blocks, at, more);
}
