//! A text, and its calls.
ghost use Rattle.std.specs.Prelude.{◌≡◌, ◌+◌, ◌*◌, ◌<◌, ◌≤◌, [], ◌++◌, length, take, drop, IfOk};
ghost use Rattle.std.specs.Prelude.{OnOk, OnErr, IsOk, slice_index, slice_get, Some, None, map};
ghost use Rattle.text_model.specs.Characters.{IsCharacter, code};
ghost use Rattle.ek_types.specs.Seen.{ch_of};
ghost use Rattle.text_pool.specs.Pool.{Pooled, live};
ghost use Rattle.gap_text.specs.Blocks.{cells_of, Apart, AllGone, IsRow, SameOutside, OnlyFresh};
ghost use Rattle.gap_text.specs.Blocks.{ChangesCellsOf};
ghost use Rattle.gap_text.specs.Text.{Gapped, codes, characters, LiesIn};

use crate::growth::{blocks_wanted, insert_blocks, make_room};
use crate::row::{cell_at, cells_from, move_gap, set_cells_at, write};
use ek_types::{Ch, Chars, Mem};
use std::alloc::Global;
use std::marker::Model;
use text_pool::{Block, CELLS, Pool};

/// A text over blocks of a pool. By itself it is its list of blocks with the place and the size of a gap among their
/// cells; its characters are those of the cells outside the gap, so each call that looks at them takes the pool, in which
/// all its blocks must be live. A text can't be dropped, since its blocks can't: it has to be released.
pub struct Text {
    blocks: Vec<Block>,
    // The cell at which the gap starts.
    gap: usize,
    // How many cells the gap has.
    spare: usize,
}

impl Model for Text {
    ghost use Rattle.gap_text.specs.Text.{Gapped, IsGapped};

    ghost Value = { Gapped };

    ghost view = { λ text. record { blocks = text.blocks.items; gap = text.gap; spare = text.spare } };

    ghost invariant = { λ text. IsGapped (record {
      blocks = text.blocks.items;
      gap = text.gap;
      spare = text.spare;
    }) };
}

impl Text {
    /// The empty text with no spare, which takes no memory yet.
    pub fn new(alloc: Global) -> Text
        ensures blocks { result.blocks ≡ [] }
        ensures spare { result.spare ≡ 0 }
        ensures lies { (pool : Pooled) → LiesIn pool result }
        ensures characters { (pool : Pooled) → characters pool result ≡ [] }
    {
        Text {
            blocks: Vec::new(alloc),
            gap: 0,
            spare: 0,
        }
    }

    /// How many characters the text has.
    pub fn len(&self) -> usize
        ensures characters { (pool : Pooled) → LiesIn pool self.now →
            result ≡ length (characters pool self.now) }
        ensures cells { result + self.now.spare ≡ 256 * length self.now.blocks }
    {
        self.blocks.len() * CELLS - self.spare
    }

    /// How many more characters fit with no memory taken.
    pub fn spare(&self) -> usize
        ensures { result ≡ self.now.spare }
    {
        self.spare
    }

    /// The code of character `i`.
    fn code_at(&self, pool: &Pool, i: usize) -> u32
        requires lies { LiesIn pool.now self.now }
        requires range { i < length (codes pool.now self.now) }
        ensures { result ≡ slice_index (codes pool.now self.now) i }
    {
        if i < self.gap {
            cell_at(&self.blocks, pool, i)
        } else {
            cell_at(&self.blocks, pool, i + self.spare)
        }
    }

    /// Character `i`, counted from 0.
    pub fn at(&self, pool: &Pool, i: usize) -> Ch
        requires lies { LiesIn pool.now self.now }
        requires range { i < length (characters pool.now self.now) }
        ensures item { slice_get (characters pool.now self.now) i ≡ Some (ch_of result) }
        ensures character { IsCharacter (ch_of result) }
    {
        match Ch::from_code(self.code_at(pool, i)) {
            Some(c) => c,
            None => unreachable!(),
        }
    }

    /// The codes of some characters from character `at` on, counted from 0: of one at least, and of no more than
    /// stand side by side in one block. They are lent.
    pub fn stretch<'a>(&self, pool: &'a Pool, at: usize) -> &'a [u32]
        requires lies { LiesIn pool.now self.now }
        requires range { at < length (characters pool.now self.now) }
        ensures some { 0 < length result.now }
        ensures codes { result.now ≡
            map code (take (length result.now) (drop at (characters pool.now self.now))) }
    {
        if at < self.gap {
            cells_from(&self.blocks, pool, at, self.gap - at)
        } else {
            let behind = self.len() - at;
            cells_from(&self.blocks, pool, at + self.spare, behind)
        }
    }

    /// The characters from `from` to before `to`, counted from 0, where `to` is at most the length.
    pub fn copy_out(&self, pool: &Pool, from: usize, to: usize) -> Mem<Chars>
        requires lies { LiesIn pool.now self.now }
        requires order { from ≤ to }
        requires range { to ≤ length (characters pool.now self.now) }
        ensures { IfOk result (λ text. text.items ≡
            drop from (take to (characters pool.now self.now))) }
    {
        let mut text = Chars::new(*self.blocks.allocator());
        text.reserve(to - from)?;
        let mut at = from;
        while at < to {
            let lent = self.stretch(pool, at);
            let count = lent.len().min(to - at);
            text.extend_codes(&lent[..count])?;
            at += count;
        }
        Ok(text)
    }

    /// Puts a text before character `i`, counted from 0, or behind all. It needs spare for the text, which falls by its
    /// length, and takes no memory.
    pub fn insert(&mut self, pool: &mut Pool, i: usize, text: &Chars)
        requires lies { LiesIn pool.old self.old }
        requires place { i ≤ length (characters pool.old self.old) }
        requires room { length text.now.items ≤ self.old.spare }
        ensures lies { LiesIn pool.new self.new }
        ensures characters { let old = characters pool.old self.old in
            characters pool.new self.new ≡ take i old ++ (text.now.items ++ drop i old) }
        ensures spare { self.new.spare + length text.now.items ≡ self.old.spare }
        ensures blocks { self.new.blocks ≡ self.old.blocks }
        ensures pool { ChangesCellsOf self.old.blocks pool.old pool.new }
    {
        let count = text.len();
        let blocks = self.blocks.as_slice();
        move_gap(blocks, pool, self.gap, self.spare, i);
        write(blocks, pool, i, text);
        self.gap = i + count;
        self.spare -= count;
    }

    /// Takes the characters from `from` to before `to` out, counted from 0. The spare rises by their number. It takes no
    /// memory.
    pub fn delete(&mut self, pool: &mut Pool, from: usize, to: usize)
        requires lies { LiesIn pool.old self.old }
        requires order { from ≤ to }
        requires range { to ≤ length (characters pool.old self.old) }
        ensures lies { LiesIn pool.new self.new }
        ensures characters { let old = characters pool.old self.old in
            characters pool.new self.new ≡ take from old ++ drop to old }
        ensures spare { self.new.spare + from ≡ self.old.spare + to }
        ensures blocks { self.new.blocks ≡ self.old.blocks }
        ensures pool { ChangesCellsOf self.old.blocks pool.old pool.new }
    {
        // The gap grows over the part from wherever it stands in it.
        let place = self.gap.max(from).min(to);
        let blocks = self.blocks.as_slice();
        move_gap(blocks, pool, self.gap, self.spare, place);
        self.gap = from;
        self.spare += to - from;
    }
}

impl Text {
    /// Makes the spare at least `n`. A refusal leaves the text as it was, and the pool but for spare room. Blocks are
    /// put where the gap is, so that at most the cells of one block move; a row that grows grows by an eighth of its
    /// blocks at least.
    pub fn reserve(&mut self, pool: &mut Pool, n: usize) -> Mem<()>
        requires { LiesIn pool.old self.old }
        ensures lies { LiesIn pool.new self.new }
        ensures characters { characters pool.new self.new ≡ characters pool.old self.old }
        ensures room { OnOk result (n ≤ self.new.spare) }
        ensures kept { self.old.spare ≤ self.new.spare }

        ensures enough { n ≤ self.old.spare → IsOk result }
        ensures text_with_enough { n ≤ self.old.spare → self.new ≡ self.old }
        ensures pool_with_enough { n ≤ self.old.spare → pool.new ≡ pool.old }
        ensures refused { OnErr result (self.new ≡ self.old) }
        ensures pool_after_refusal { OnErr result (pool.new.slots ≡ pool.old.slots) }

        ensures fresh { OnlyFresh pool.old self.old.blocks self.new.blocks }
        ensures others { SameOutside self.new.blocks pool.old pool.new }
        ensures count { live pool.new + length self.old.blocks ≡
            live pool.old + length self.new.blocks }
        ensures pool_spare { pool.old.spare + length self.old.blocks ≤ pool.new.spare + length
            self.new.blocks }
    {
        if n <= self.spare {
            return Ok(());
        }
        let more = blocks_wanted(self.blocks.len(), self.spare, n)?;
        make_room(&mut self.blocks, pool, more)?;
        let at = self.gap / CELLS;
        move_gap(
            self.blocks.as_slice(),
            pool,
            self.gap,
            self.spare,
            at * CELLS,
        );
        insert_blocks(&mut self.blocks, pool, at, more);
        self.gap = at * CELLS;
        self.spare += more * CELLS;
        Ok(())
    }

    /// Gives all blocks back, so that the pool's spare rises by their number.
    pub fn release(self, pool: &mut Pool)
        requires { LiesIn pool.old self }
        ensures gone { AllGone pool.new self.blocks }
        ensures others { SameOutside self.blocks pool.old pool.new }
        ensures count { live pool.new + length self.blocks ≡ live pool.old }
        ensures spare { pool.new.spare ≡ pool.old.spare + length self.blocks }
    {
        let Text {
            mut blocks,
            gap: _,
            spare: _,
        } = self;
        while let Some(block) = blocks.pop() {
            pool.give(block);
        }
        blocks.destroy_empty();
    }

    /// A text that has no blocks yet.
    fn discard(self)
        requires { self.blocks ≡ [] }
    {
        let Text {
            blocks,
            gap: _,
            spare: _,
        } = self;
        blocks.destroy_empty();
    }

    /// Writes all codes to the first cells of a row of other blocks, by parts that lie in one block of either.
    fn copy_codes(&self, pool: &mut Pool, blocks: &[Block])
        requires lies { LiesIn pool.old self.now }
        requires row { IsRow pool.old blocks.now }
        requires apart { Apart self.now.blocks blocks.now }
        requires room { length (codes pool.old self.now) ≤ 256 * length blocks.now }
        ensures written { let old = codes pool.old self.now in take (length old)
            (cells_of pool.new blocks.now) ≡ old }
        ensures row { IsRow pool.new blocks.now }
        ensures pool { ChangesCellsOf blocks.now pool.old pool.new }
    {
        let size = self.len();
        // The pool can't lend cells while others of it are set.
        let mut held = [0; CELLS];
        let mut place = 0;
        while place < size {
            let lent = self.stretch(pool, place);
            let count = lent.len().min(CELLS - place % CELLS);
            held[..count].copy_from_slice(&lent[..count]);
            set_cells_at(blocks, pool, place, &held[..count]);
            place += count;
        }
    }

    /// Writes the characters of another text into this one, which has none.
    fn fill(&mut self, pool: &mut Pool, from: &Text)
        requires lies { LiesIn pool.old self.old }
        requires from_lies { LiesIn pool.old from.now }
        requires empty { self.old.spare ≡ 256 * length self.old.blocks }
        requires apart { Apart from.now.blocks self.old.blocks }
        requires room { length (codes pool.old from.now) ≤ self.old.spare }
        ensures lies { LiesIn pool.new self.new }
        ensures codes { codes pool.new self.new ≡ codes pool.old from.now }
        ensures blocks { self.new.blocks ≡ self.old.blocks }
        ensures pool { ChangesCellsOf self.old.blocks pool.old pool.new }
    {
        let count = from.len();
        from.copy_codes(pool, self.blocks.as_slice());
        self.gap = count;
        self.spare -= count;
    }

    /// The same characters again, over blocks of their own. A refusal leaves the pool but for spare room.
    pub fn copy(&self, pool: &mut Pool) -> Mem<Text>
        requires { LiesIn pool.old self.now }
        ensures lies { IfOk result (λ text. LiesIn pool.new text) }
        ensures characters { IfOk result (λ text. characters pool.new text ≡
            characters pool.old self.now) }
        ensures own_blocks { IfOk result (λ text. OnlyFresh pool.old [] text.blocks) }
        ensures others { IfOk result (λ text. SameOutside text.blocks pool.old pool.new) }
        ensures count { IfOk result (λ text. live pool.new ≡ live pool.old + length text.blocks) }
        ensures source { LiesIn pool.new self.now }
        ensures source_characters { characters pool.new self.now ≡ characters pool.old self.now }
        ensures pool_spare { IfOk result (λ text. pool.old.spare ≤ pool.new.spare + length
            text.blocks) }
        ensures refused { OnErr result (pool.new.slots ≡ pool.old.slots) }
        ensures spare_after_refusal { OnErr result (pool.old.spare ≤ pool.new.spare) }
    {
        let mut text = Text::new(*self.blocks.allocator());
        match text.reserve(pool, self.len()) {
            Ok(()) => {
                text.fill(pool, self);
                Ok(text)
            }
            Err(refused) => {
                text.discard();
                Err(refused)
            }
        }
    }
}
