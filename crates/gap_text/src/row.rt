//! The cells of a list of blocks as one row, counted from 0, and the gap in it.
ghost use lib.Seq.{paste};
ghost use Rattle.std.specs.Prelude.{◌≡◌, ℕ, ◌+◌, ◌*◌, ◌%◌, ◌<◌, ◌≤◌, ◌++◌, length, take, drop, map};
ghost use Rattle.std.specs.Prelude.{slice_index};
ghost use Rattle.text_model.specs.Characters.{code};
ghost use Rattle.ek_types.specs.Seen.{AreCharacters};
ghost use Rattle.gap_text.specs.Blocks.{cells_of, IsRow, AllLive, ChangesCellsOf};
ghost use Rattle.gap_text.specs.Text.{without_gap};

use ek_types::Chars;
use text_pool::{Block, CELLS, Pool};

/// What the cell at a place holds.
pub(crate) fn cell_at(blocks: &[Block], pool: &Pool, place: usize) -> u32
    requires live { AllLive pool.now blocks.now }
    requires range { place < 256 * length blocks.now }
    ensures { result ≡ slice_index (cells_of pool.now blocks.now) place }
{
    pool.cell(&blocks[place / CELLS], place % CELLS)
}

/// The cells from a place on, at most `most`, up to the end of their block.
pub(crate) fn cells_from<'a>(
    blocks: &[Block],
    pool: &'a Pool,
    place: usize,
    most: usize,
) -> &'a [u32]
    requires live { AllLive pool.now blocks.now }
    requires range { place < 256 * length blocks.now }
    ensures within { length result.now ≤ most }
    ensures some { 0 < most → 0 < length result.now }
    ensures cells { result.now ≡
        take (length result.now) (drop place (cells_of pool.now blocks.now)) }
{
    let first = place % CELLS;
    let end = CELLS.min(first.saturating_add(most));
    &pool.cells(&blocks[place / CELLS])[first..end]
}

/// Copies `count` cells from the place `from` on to the places from `to` on. Either part lies in one block.
fn copy_within_blocks(blocks: &[Block], pool: &mut Pool, from: usize, to: usize, count: usize)
    requires row { IsRow pool.old blocks.now }
    requires some { 0 < count }
    requires source { from % 256 + count ≤ 256 }
    requires source_range { from + count ≤ 256 * length blocks.now }
    requires target { to % 256 + count ≤ 256 }
    requires target_range { to + count ≤ 256 * length blocks.now }
    ensures cells { let old = cells_of pool.old blocks.now in cells_of pool.new blocks.now ≡
        paste old to (drop from old) count }
    ensures row { IsRow pool.new blocks.now }
    ensures pool { ChangesCellsOf blocks.now pool.old pool.new }
{
    let source = &blocks[from / CELLS];
    let target = &blocks[to / CELLS];
    pool.copy_cells(source, from % CELLS, target, to % CELLS, count);
}

/// Moves a gap of `spare` cells from the place `gap` to the place `to`, on its left. Each cell between goes behind it.
fn move_left(blocks: &[Block], pool: &mut Pool, gap: usize, spare: usize, to: usize)
    requires row { IsRow pool.old blocks.now }
    requires left { to ≤ gap }
    requires fits { gap + spare ≤ 256 * length blocks.now }
    ensures kept { without_gap to spare (cells_of pool.new blocks.now) ≡
        without_gap gap spare (cells_of pool.old blocks.now) }
    ensures row { IsRow pool.new blocks.now }
    ensures pool { ChangesCellsOf blocks.now pool.old pool.new }
{
    let mut place = gap;
    while place > to {
        // As far back as neither part leaves its block.
        let of_source = (place - 1) % CELLS + 1;
        let of_target = (place + spare - 1) % CELLS + 1;
        let count = (place - to).min(of_source).min(of_target);
        place -= count;
        copy_within_blocks(blocks, pool, place, place + spare, count);
    }
}

/// Moves a gap of `spare` cells from the place `gap` to the place `to`, on its right. Each cell between goes before it.
fn move_right(blocks: &[Block], pool: &mut Pool, gap: usize, spare: usize, to: usize)
    requires row { IsRow pool.old blocks.now }
    requires right { gap ≤ to }
    requires fits { to + spare ≤ 256 * length blocks.now }
    ensures kept { without_gap to spare (cells_of pool.new blocks.now) ≡
        without_gap gap spare (cells_of pool.old blocks.now) }
    ensures row { IsRow pool.new blocks.now }
    ensures pool { ChangesCellsOf blocks.now pool.old pool.new }
{
    let mut place = gap;
    while place < to {
        // As far on as neither part leaves its block.
        let of_source = CELLS - (place + spare) % CELLS;
        let of_target = CELLS - place % CELLS;
        let count = (to - place).min(of_source).min(of_target);
        copy_within_blocks(blocks, pool, place + spare, place, count);
        place += count;
    }
}

/// Moves a gap of `spare` cells from the place `gap` to the place `to`, by as many cells as lie between, a part of a
/// block at a time.
pub(crate) fn move_gap(blocks: &[Block], pool: &mut Pool, gap: usize, spare: usize, to: usize)
    requires row { IsRow pool.old blocks.now }
    requires from_fits { gap + spare ≤ 256 * length blocks.now }
    requires to_fits { to + spare ≤ 256 * length blocks.now }
    ensures kept { without_gap to spare (cells_of pool.new blocks.now) ≡
        without_gap gap spare (cells_of pool.old blocks.now) }
    ensures row { IsRow pool.new blocks.now }
    ensures pool { ChangesCellsOf blocks.now pool.old pool.new }
{
    if to < gap {
        move_left(blocks, pool, gap, spare, to)
    } else {
        move_right(blocks, pool, gap, spare, to)
    }
}

/// Sets the cells from a place on, which lie in one block, to some values, and no others.
pub(crate) fn set_cells_at(blocks: &[Block], pool: &mut Pool, place: usize, values: &[u32])
    requires row { IsRow pool.old blocks.now }
    requires some { 0 < length values.now }
    requires one_block { place % 256 + length values.now ≤ 256 }
    requires range { place + length values.now ≤ 256 * length blocks.now }
    ensures cells { let old = cells_of pool.old blocks.now in cells_of pool.new blocks.now ≡
        take place old ++ values.now ++ drop (place + length values.now) old }
    ensures row { IsRow pool.new blocks.now }
    ensures pool { ChangesCellsOf blocks.now pool.old pool.new }
{
    pool.set_cells(&blocks[place / CELLS], place % CELLS, values);
}

/// Writes the codes of a text to the cells from `place` on, by parts that lie in one block.
pub(crate) fn write(blocks: &[Block], pool: &mut Pool, place: usize, text: &Chars)
    requires row { IsRow pool.old blocks.now }
    requires fits { place + length text.now.items ≤ 256 * length blocks.now }
    ensures written { take (place + length text.now.items) (cells_of pool.new blocks.now) ≡
        take place (cells_of pool.old blocks.now) ++ map code text.now.items }
    ensures behind { (k : ℕ) → place + length text.now.items ≤ k →
        drop k (cells_of pool.new blocks.now) ≡ drop k (cells_of pool.old blocks.now) }
    ensures characters { AreCharacters text.now.items }
    ensures row { IsRow pool.new blocks.now }
    ensures pool { ChangesCellsOf blocks.now pool.old pool.new }
{
    let codes = text.codes();
    let mut i = 0;
    while i < codes.len() {
        let of_block = CELLS - (place + i) % CELLS;
        let count = (codes.len() - i).min(of_block);
        set_cells_at(blocks, pool, place + i, &codes[i..i + count]);
        i += count;
    }
}
