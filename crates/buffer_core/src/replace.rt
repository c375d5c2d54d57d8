//! Changes of a buffer's text.
ghost use Rattle.std.specs.Prelude.{◌≡◌, ◌⊎◌, ◌+◌, ◌<◌, ◌≤◌, true, [], length, map, All};
ghost use Rattle.std.specs.Prelude.{◌++◌, take, drop, IfOk, OnOk, OnErr};
ghost use Rattle.text_model.specs.Properties.{part};
ghost use Rattle.text_model.specs.Undo.{Undo, pushed_all};
ghost use Rattle.text_model.specs.Commit.{inserted, deleted, replaced, deletion_records};
ghost use Rattle.gap_text.specs.Text.{LiesIn, characters};
ghost use Rattle.gap_text.specs.Blocks.{ChangesCellsOf};
ghost use Rattle.prop_intervals.specs.Sets.{together};
ghost use Rattle.buffer_core.specs.Blocks.{ChangesBlocks};
ghost use Rattle.text_model.specs.Ordered.{AreOrdered};
ghost use Rattle.machine_laws.specs.Boundaries.{KeepsBoundaries};
ghost use Rattle.machine_laws.specs.Good.{Good};
ghost use Rattle.undo_list.specs.Records.{rec_of};
ghost use Rattle.buffer_core.specs.Meaning.{buffer_of, site_of, letters, CanBeUndone};
ghost use Rattle.buffer_core.specs.Recording.{with_text};
ghost use Rattle.buffer_core.specs.Standing.{AreWithin};

use crate::buffer::Buffer;
use crate::marks::Marks;
use crate::pieces::are_empty;
use crate::recording::{Deletion, push_deletion, push_first, push_reserved, records_before};
use ek_types::{Mem, NoMemory, Piece};
use gap_text::Text;
use machine_laws::replacing_keeps_boundaries;
use prop_intervals::length_of;
use text_pool::Pool;
use undo_list::Rec;

/// Puts the characters of some pieces in before character `at`, or behind all. The gap is behind the piece put in last,
/// where the next one goes, so that each costs its own characters alone. It takes no memory.
fn put_characters(text: &mut Text, pool: &mut Pool, at: usize, pieces: &[Piece])
    requires lies { LiesIn pool.old text.old }
    requires place { at ≤ length (characters pool.old text.old) }
    requires room { length (together pieces.now) ≤ text.old.spare }
    ensures lies { LiesIn pool.new text.new }
    ensures characters { let old = characters pool.old text.old in characters pool.new text.new ≡
        take at old ++ (letters (together pieces.now) ++ drop at old) }
    ensures spare { text.new.spare + length (together pieces.now) ≡ text.old.spare }
    ensures blocks { text.new.blocks ≡ text.old.blocks }
    ensures pool { ChangesCellsOf text.old.blocks pool.old pool.new }
{
    let behind = text.len() - at;
    for piece in pieces {
        let place = text.len() - behind;
        text.insert(pool, place, piece.text());
    }
}

impl Buffer {
    /// Puts pieces in before character `at`, or behind all, one behind the other. `all` markers and overlays there
    /// advance; point there does where it `advances`. A refusal leaves all as it was, but for spare room.
    pub(crate) fn insert(
        &mut self,
        id: u32,
        at: usize,
        pieces: &[Piece],
        all: bool,
        advances: bool,
        marks: &mut Marks,
        pool: &mut Pool,
    ) -> Mem<()>
        requires lies { LiesIn pool.old self.old.text }
        requires place { at ≤ length self.old.sets }
        requires marks { AreWithin id (length self.old.sets) marks.old }
        ensures lies { LiesIn pool.new self.new.text }
        ensures ok { OnOk result (site_of pool.new self.new marks.new ≡
            inserted id at (together pieces.now) all advances (site_of pool.old self.old marks.old)) }
        ensures err { OnErr result (site_of pool.new self.new marks.new ≡
            site_of pool.old self.old marks.old) }
        ensures marks { AreWithin id (length self.new.sets) marks.new }
        ensures blocks { ChangesBlocks self.old.text.blocks self.new.text.blocks pool.old pool.new }
        ensures cells { length self.old.text.blocks ≤ length self.new.text.blocks }
    {
        let Some(n) = length_of(pieces) else {
            return Err(NoMemory);
        };
        self.text.reserve(pool, n)?;
        self.undo.reserve(2)?;
        self.props.splice(at, at, pieces)?;
        put_characters(&mut self.text, pool, at, pieces);
        // Read for what it ensures: all characters can be counted.
        let _size = self.text.len();
        self.bounds.note_insert(at, n, advances);
        push_first(&mut self.undo, self.modified);
        push_reserved(&mut self.undo, Rec::Inserted(at, at + n));
        self.modified = true;
        marks.note_insert(id, at, n, all);
        Ok(())
    }

    /// The part from `from` to before `to`, to stand in a record: an undoing copies all records, and copies share it.
    fn kept(&self, from: usize, to: usize, pool: &Pool) -> Mem<Piece>
        requires lies { LiesIn pool.now self.now.text }
        requires order { from ≤ to }
        requires range { to ≤ length self.now.sets }
        ensures { IfOk result (λ piece. piece ≡ part from to (buffer_of pool.now self.now).text) }
    {
        self.substring(from, to, pool)?.shared(self.alloc)
    }

    /// What taking the part from `from` to before `to` out records.
    fn deletion(&self, id: u32, from: usize, to: usize, marks: &Marks, pool: &Pool) -> Mem<Deletion>
        requires lies { LiesIn pool.now self.now.text }
        requires order { from ≤ to }
        requires range { to ≤ length self.now.sets }
        ensures records { IfOk result (λ d. (u : Undo) → u.on ≡ self.now.undo.state.on →
            pushed_all (with_text (map rec_of d.before.items) d.text from) u ≡
            pushed_all (deletion_records id from to (site_of pool.now self.now marks.now)) u) }
        ensures undoable { IfOk result (λ d.
            All CanBeUndone (with_text (map rec_of d.before.items) d.text from)) }
    {
        if !self.undo.is_on() {
            return Ok(Deletion {
                before: Vec::new(self.alloc),
                text: None,
            });
        }
        let piece = self.kept(from, to, pool)?;
        let before = records_before(
            self.alloc,
            &self.undo,
            self.bounds.point,
            &marks.markers,
            id,
            from,
            to,
        )?;
        Ok(Deletion {
            before,
            text: Some(piece),
        })
    }

    /// Takes the part from `from` to before `to` out. A refusal leaves all as it was, but for spare room.
    pub(crate) fn delete(
        &mut self,
        id: u32,
        from: usize,
        to: usize,
        marks: &mut Marks,
        pool: &mut Pool,
    ) -> Mem<()>
        requires lies { LiesIn pool.old self.old.text }
        requires order { from ≤ to }
        requires range { to ≤ length self.old.sets }
        requires marks { AreWithin id (length self.old.sets) marks.old }
        ensures lies { LiesIn pool.new self.new.text }
        ensures ok { OnOk result (site_of pool.new self.new marks.new ≡
            deleted id from to (site_of pool.old self.old marks.old)) }
        ensures err { OnErr result (site_of pool.new self.new marks.new ≡
            site_of pool.old self.old marks.old) }
        ensures marks { AreWithin id (length self.new.sets) marks.new }
        ensures blocks { ChangesBlocks self.old.text.blocks self.new.text.blocks pool.old pool.new }
        ensures cells { length self.old.text.blocks ≤ length self.new.text.blocks }
    {
        let deletion = self.deletion(id, from, to, marks, pool)?;
        self.undo.reserve(deletion.before.len() + 2)?;
        self.props.splice(from, to, &[])?;
        self.text.delete(pool, from, to);
        self.bounds.note_delete(from, to);
        push_first(&mut self.undo, self.modified);
        push_deletion(&mut self.undo, deletion, from);
        self.modified = true;
        marks.note_delete(id, from, to);
        Ok(())
    }

    /// Takes the part from `from` to before `to` out, or puts pieces in there: only one of the two can be something.
    /// `all` markers and overlays at the place of an insertion advance, and point there does. The pending records are
    /// dropped where something changes. A refusal leaves all as it was, but for spare room.
    ///
    /// Undoing all that is newer than a boundary that still stands gives the same text as before.
    pub fn replace(
        &mut self,
        id: u32,
        from: usize,
        to: usize,
        with: &[Piece],
        all: bool,
        marks: &mut Marks,
        pool: &mut Pool,
    ) -> Mem<()>
        requires lies { LiesIn pool.old self.old.text }
        requires order { from ≤ to }
        requires range { to ≤ length self.old.sets }
        requires one { (from ≡ to) ⊎ (together with.now ≡ []) }
        requires marks { AreWithin id (length self.old.sets) marks.old }
        ensures lies { LiesIn pool.new self.new.text }
        ensures ok { OnOk result (site_of pool.new self.new marks.new ≡
            replaced id from to (together with.now) all (site_of pool.old self.old marks.old)) }
        ensures err { OnErr result (site_of pool.new self.new marks.new ≡
            site_of pool.old self.old marks.old) }
        ensures marks { AreWithin id (length self.new.sets) marks.new }
        ensures blocks { ChangesBlocks self.old.text.blocks self.new.text.blocks pool.old pool.new }
        ensures undo { AreOrdered (together with.now) → Good (buffer_of pool.old self.old) →
            OnOk result (KeepsBoundaries (buffer_of pool.old self.old)
            (buffer_of pool.new self.new)) }
    {
        replacing_keeps_boundaries();
        // Read for what it ensures: there is a property set for each character.
        let _bounds = self.bounds();
        self.replace_text(id, from, to, with, all, marks, pool)
    }

    /// The same, without what it means for undo.
    fn replace_text(
        &mut self,
        id: u32,
        from: usize,
        to: usize,
        with: &[Piece],
        all: bool,
        marks: &mut Marks,
        pool: &mut Pool,
    ) -> Mem<()>
        requires lies { LiesIn pool.old self.old.text }
        requires order { from ≤ to }
        requires range { to ≤ length self.old.sets }
        requires one { (from ≡ to) ⊎ (together with.now ≡ []) }
        requires marks { AreWithin id (length self.old.sets) marks.old }
        ensures lies { LiesIn pool.new self.new.text }
        ensures ok { OnOk result (site_of pool.new self.new marks.new ≡
            replaced id from to (together with.now) all (site_of pool.old self.old marks.old)) }
        ensures err { OnErr result (site_of pool.new self.new marks.new ≡
            site_of pool.old self.old marks.old) }
        ensures marks { AreWithin id (length self.new.sets) marks.new }
        ensures blocks { ChangesBlocks self.old.text.blocks self.new.text.blocks pool.old pool.new }
    {
        if from < to {
            self.delete(id, from, to, marks, pool)?;
            self.undo.drop_pending();
        } else if !are_empty(with) {
            self.insert(id, from, with, all, true, marks, pool)?;
            self.undo.drop_pending();
        }
        Ok(())
    }
}
