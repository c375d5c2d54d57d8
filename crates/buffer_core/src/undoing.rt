//! Undoing.
ghost use Rattle.std.specs.Prelude.{◌≡◌, ℕ, ◌+◌, ◌-◌, ◌*◌, ◌<◌, ◌≤◌, true, false, length, Ok, None};
ghost use Rattle.std.specs.Prelude.{◌++◌, take, drop};
ghost use Rattle.std.specs.Prelude.{IfOk, OnOk, OnErr, slice_get, IfSome, All, option_map};
ghost use Rattle.text_model.specs.Ordered.{IsValue};
ghost use Rattle.machine_laws.specs.Boundaries.{KeepsBoundaries};
ghost use Rattle.machine_laws.specs.Good.{Good};
ghost use Rattle.text_model.specs.Undo.{lies_inside, passed, trial, Deleted};
ghost use Rattle.text_model.specs.Commit.{undo_one, undo_each, undone_groups, moves_behind};
ghost use Rattle.text_model.specs.Commit.{deleted, set_point, with_properties};
ghost use Rattle.text_pool.specs.Pool.{Pooled};
ghost use Rattle.gap_text.specs.Text.{LiesIn, characters};
ghost use Rattle.ek_types.specs.Property.{prop_of};
ghost use Rattle.prop_intervals.specs.Edits.{edit_of};
ghost use Rattle.undo_list.specs.Plans.{planned};
ghost use Rattle.undo_list.specs.Records.{rec_of};
ghost use Rattle.buffer_core.specs.Blocks.{ChangesBlocks};
ghost use Rattle.buffer_core.specs.Margins.{AllBetween, SameMargins};
ghost use Rattle.buffer_core.specs.Meaning.{buffer_of, site_of, letters, CanBeUndone};
ghost use Rattle.buffer_core.specs.Standing.{AreWithin};
ghost use Rattle.buffer_core.specs.Undoing.{value_back, is_change, ChangesOnlyAt, StaysButForPoint};
ghost use Rattle.buffer_core.specs.Undoing.{with_pending};

use crate::buffer::Buffer;
use crate::margins::{Margins, untouched};
use crate::marks::Marks;
use crate::moving_back::{standing_moves, take_all_back};
use ek_types::{Chars, Mem, NoMemory, Piece, PropSet, PropVal, Sym, SymList};
use machine_laws::undoing_keeps_boundaries;
use narrow_region::Bounds;
use prop_intervals::{PropEdit, Props};
use std::alloc::Global;
use std::slice;
use text_pool::Pool;
use undo_list::{Plan, Rec, Undo};

/// The change of properties that gives a property its old value, or takes it away where it had none.
fn value_back(alloc: Global, name: Sym, old: Option<&PropVal>) -> Mem<PropEdit>
    requires { IfSome (option_map (λ v. prop_of v.now) old) IsValue }
    ensures { IfOk result (λ edit. edit_of edit ≡
        value_back name.0 (option_map (λ v. prop_of v.now) old.entry)) }
{
    match old {
        Some(value) => {
            let set = PropSet::empty(alloc).with(name, value)?;
            Ok(PropEdit::Add(set, SymList::new(alloc)))
        }
        None => {
            let mut names = SymList::new(alloc);
            names.push(name)?;
            Ok(PropEdit::Remove(names))
        }
    }
}

/// Whether a record is of a change of text or properties. Undoing another one takes no memory.
fn is_change(rec: &Rec) -> bool
    ensures { result ≡ is_change (rec_of rec.now) }
{
    matches!(rec, Rec::Inserted(..) | Rec::Deleted(..) | Rec::Prop(..))
}

/// The place of the first record of a change from place `from` on, or that behind all records.
fn next_change(records: &Undo, from: usize) -> usize
    ensures { (i : ℕ) → from ≤ i → i < result →
        IfSome (slice_get records.now.state.entries i) (λ e. is_change e.what ≡ false) }
{
    for i in from..records.len() {
        if is_change(records.at(i).0) {
            return i;
        }
    }
    records.len()
}

/// Whether at most one of the records is of a change.
fn is_one_change(records: &Undo) -> bool
    ensures { result ≡ true → (only : ℕ) × ChangesOnlyAt only records.now.state.entries }
{
    let only = next_change(records, 0);
    next_change(records, only.saturating_add(1)) == records.len()
}

/// What an undoing that is refused goes back to: all of a buffer, but for the margins of its text that the undoing
/// leaves.
#[derive(Drop)]
struct Before {
    margins: Margins,
    text: Chars,
    props: Props,
    bounds: Bounds,
    modified: bool,
    undo: Undo,
}

impl Buffer {
    /// Point goes to a place of the accessible portion.
    fn set_point(&mut self, place: usize)
        requires low { self.old.begin ≤ place }
        requires high { place ≤ self.old.end }
        ensures { self.new ≡ record self.old { point = place } }
    {
        self.bounds.point = place;
    }

    /// Takes inserted text out again.
    fn take_out(
        &mut self,
        id: u32,
        from: usize,
        to: usize,
        marks: &mut Marks,
        pool: &mut Pool,
    ) -> Mem<()>
        requires lies { LiesIn pool.old self.old.text }
        requires low { self.old.begin ≤ from }
        requires order { from ≤ to }
        requires high { to ≤ self.old.end }
        requires marks { AreWithin id (length self.old.sets) marks.old }
        ensures lies { LiesIn pool.new self.new.text }
        ensures site { OnOk result (site_of pool.new self.new marks.new ≡
            deleted id from to (set_point from (site_of pool.old self.old marks.old))) }
        ensures err { OnErr result (StaysButForPoint (site_of pool.old self.old marks.old)
            (site_of pool.new self.new marks.new)) }
        ensures marks { AreWithin id (length self.new.sets) marks.new }
        ensures blocks { ChangesBlocks self.old.text.blocks self.new.text.blocks pool.old pool.new }
        ensures cells { length self.old.text.blocks ≤ length self.new.text.blocks }
    {
        // Read for what it ensures: the accessible portion lies in the text.
        let _bounds = self.bounds();
        self.set_point(from);
        self.delete(id, from, to, marks, pool)
    }

    /// Puts deleted text back, and the markers that the records from `i` on moved.
    fn put_back(
        &mut self,
        id: u32,
        piece: &Piece,
        place: usize,
        records: &Undo,
        i: usize,
        marks: &mut Marks,
        pool: &mut Pool,
    ) -> Mem<()>
        requires lies { LiesIn pool.old self.old.text }
        requires low { self.old.begin ≤ place }
        requires high { place ≤ self.old.end }
        requires range { i ≤ length records.now.state.entries }
        requires marks { AreWithin id (length self.old.sets) marks.old }
        ensures lies { LiesIn pool.new self.new.text }
        ensures site { OnOk result (site_of pool.new self.new marks.new ≡
            undo_one id (Deleted piece.now place)
            (moves_behind (drop i records.now.state.entries))
            (site_of pool.old self.old marks.old)) }
        ensures err { OnErr result (StaysButForPoint (site_of pool.old self.old marks.old)
            (site_of pool.new self.new marks.new)) }
        ensures marks { AreWithin id (length self.new.sets) marks.new }
        ensures blocks { ChangesBlocks self.old.text.blocks self.new.text.blocks pool.old pool.new }
        ensures cells { length self.old.text.blocks ≤ length self.new.text.blocks }
    {
        let moves = standing_moves(self.alloc, records, i, &marks.markers, id, place)?;
        self.set_point(place);
        self.insert(id, place, slice::from_ref(piece), false, false, marks, pool)?;
        let size = self.text.len();
        take_all_back(&mut marks.markers, &moves, id, size);
        Ok(())
    }

    /// The characters from `from` to before `to` get the old value of a property again, or lose it where they had none.
    fn give_back(&mut self, name: Sym, old: Option<&PropVal>, from: usize, to: usize) -> Mem<()>
        requires order { from ≤ to }
        requires high { to ≤ self.old.end }
        requires value { IfSome (option_map (λ v. prop_of v.now) old) IsValue }
        ensures text { self.new.text ≡ self.old.text }
        ensures size { length self.new.sets ≡ length self.old.sets }
        ensures ok { (pool : Pooled) → LiesIn pool self.old.text →
            OnOk result (buffer_of pool self.new ≡
            with_properties (value_back name.0 (option_map (λ v. prop_of v.now) old.entry)) from to
            (buffer_of pool self.old)) }
        ensures err { (pool : Pooled) → OnErr result
            (buffer_of pool self.new ≡ buffer_of pool self.old) }
    {
        let edit = value_back(self.alloc, name, old)?;
        self.change_properties(from, to, &edit)?;
        Ok(())
    }

    /// Undoes the record at place `i`, behind which the others are undone too. A refusal may have moved point. It comes
    /// only where the record is of a change.
    fn undo_one(
        &mut self,
        id: u32,
        records: &Undo,
        i: usize,
        marks: &mut Marks,
        pool: &mut Pool,
    ) -> Mem<()>
        requires lies { LiesIn pool.old self.old.text }
        requires range { i < length records.now.state.entries }
        requires inside { IfSome (slice_get records.now.state.entries i)
            (λ e. lies_inside self.old.begin self.old.end e.what ≡ true) }
        requires undoable { IfSome (slice_get records.now.state.entries i) (λ e. CanBeUndone e.what) }
        requires marks { AreWithin id (length self.old.sets) marks.old }
        ensures lies { LiesIn pool.new self.new.text }
        ensures site { OnOk result (IfSome (slice_get records.now.state.entries i)
            (λ e. site_of pool.new self.new marks.new ≡
            undo_one id e.what (moves_behind (drop (i + 1) records.now.state.entries))
            (site_of pool.old self.old marks.old))) }
        ensures err { OnErr result (StaysButForPoint (site_of pool.old self.old marks.old)
            (site_of pool.new self.new marks.new)) }
        ensures change { OnErr result (IfSome (slice_get records.now.state.entries i)
            (λ e. is_change e.what ≡ true)) }
        ensures marks { AreWithin id (length self.new.sets) marks.new }
        ensures blocks { ChangesBlocks self.old.text.blocks self.new.text.blocks pool.old pool.new }
        ensures cells { length self.old.text.blocks ≤ length self.new.text.blocks }
    {
        // Read for what it ensures: the records can be counted.
        let _count = records.len();
        match records.at(i).0 {
            Rec::Inserted(from, to) => self.take_out(id, *from, *to, marks, pool),
            Rec::Deleted(piece, place) => {
                self.put_back(id, piece, *place, records, i + 1, marks, pool)
            }
            Rec::Prop(name, old, from, to) => self.give_back(*name, old.as_ref(), *from, *to),
            Rec::Point(place) => {
                self.set_point(*place);
                Ok(())
            }
            Rec::First => {
                self.modified = false;
                Ok(())
            }
            Rec::Boundary | Rec::Moved(..) => Ok(()),
        }
    }

    /// Undoes records one after the other, the places of which lie in the accessible portion as it then stands. Where
    /// at most one of them is of a change, a refusal leaves all but point and the modified flag as it was.
    fn undo_each(&mut self, id: u32, records: &Undo, marks: &mut Marks, pool: &mut Pool) -> Mem<()>
        requires lies { LiesIn pool.old self.old.text }
        requires inside { trial self.old.begin self.old.end records.now.state.entries ≡ None }
        requires undoable { All (λ e. CanBeUndone e.what) records.now.state.entries }
        requires marks { AreWithin id (length self.old.sets) marks.old }
        ensures lies { LiesIn pool.new self.new.text }
        ensures site { OnOk result (site_of pool.new self.new marks.new ≡
            undo_each id records.now.state.entries (site_of pool.old self.old marks.old)) }
        ensures err { (only : ℕ) → ChangesOnlyAt only records.now.state.entries →
            OnErr result (StaysButForPoint (site_of pool.old self.old marks.old)
            (site_of pool.new self.new marks.new)) }
        ensures marks { AreWithin id (length self.new.sets) marks.new }
        ensures blocks { ChangesBlocks self.old.text.blocks self.new.text.blocks pool.old pool.new }
        ensures cells { length self.old.text.blocks ≤ length self.new.text.blocks }
        ensures margins { let text = letters (buffer_of pool.old self.old).text in
            (front behind : ℕ) → front + behind ≤ length text →
            AllBetween front behind (length text) records.now.state.entries →
            OnErr result (SameMargins front behind text
            (letters (buffer_of pool.new self.new).text)) }
    {
        for i in 0..records.len() {
            self.undo_one(id, records, i, marks, pool)?;
        }
        Ok(())
    }

    /// Undoes the records of a plan that the undo records of this buffer give for its accessible portion: passes
    /// them, then undoes the newest first. A refusal leaves all as it was, but for spare room in the pool. Where at most
    /// one of the records is of a change of text or properties, as those of a command mostly are, only these records
    /// are copied. Else all records, marks and runs of properties are, and of the text what lies between the places that
    /// the records take characters out at or put them in.
    ///
    /// Undoing all that is newer than a boundary that still stands gives the same text as before.
    pub fn apply_plan(
        &mut self,
        id: u32,
        plan: &Plan,
        marks: &mut Marks,
        pool: &mut Pool,
    ) -> Mem<()>
        requires lies { LiesIn pool.old self.old.text }
        requires marks { AreWithin id (length self.old.sets) marks.old }
        requires plan { (groups : ℕ) × (1 ≤ groups) ×
            (planned groups self.old.begin self.old.end self.old.undo.state ≡ Ok plan.now) }
        ensures lies { LiesIn pool.new self.new.text }
        ensures ok { (groups : ℕ) → 1 ≤ groups → planned groups self.old.begin self.old.end
            self.old.undo.state ≡ Ok plan.now →
            OnOk result (site_of pool.new self.new marks.new ≡
            undone_groups id (passed groups self.old.undo.state)
            (site_of pool.old self.old marks.old)) }
        ensures err { OnErr result (site_of pool.new self.new marks.new ≡
            site_of pool.old self.old marks.old) }
        ensures marks { AreWithin id (length self.new.sets) marks.new }
        ensures blocks { ChangesBlocks self.old.text.blocks self.new.text.blocks pool.old pool.new }
        ensures undo { Good (buffer_of pool.old self.old) →
            OnOk result (KeepsBoundaries (buffer_of pool.old self.old)
            (buffer_of pool.new self.new)) }
    {
        undoing_keeps_boundaries();
        // Read for what it ensures: the accessible portion lies in the text.
        let _bounds = self.bounds();
        // Read for what it ensures: the trial of the plan met nothing outside.
        let _passed = self.undo().passed(plan);
        self.undo_groups(id, plan, marks, pool)
    }

    /// The same, without what it means for undo.
    fn undo_groups(&mut self, id: u32, plan: &Plan, marks: &mut Marks, pool: &mut Pool) -> Mem<()>
        requires lies { LiesIn pool.old self.old.text }
        requires marks { AreWithin id (length self.old.sets) marks.old }
        requires undoable { All (λ e. CanBeUndone e.what) self.old.undo.state.entries }
        requires plan { (groups : ℕ) × (1 ≤ groups) ×
            (planned groups self.old.begin self.old.end self.old.undo.state ≡ Ok plan.now) }
        ensures lies { LiesIn pool.new self.new.text }
        ensures ok { (groups : ℕ) → 1 ≤ groups → planned groups self.old.begin self.old.end
            self.old.undo.state ≡ Ok plan.now →
            OnOk result (site_of pool.new self.new marks.new ≡
            undone_groups id (passed groups self.old.undo.state)
            (site_of pool.old self.old marks.old)) }
        ensures err { OnErr result (site_of pool.new self.new marks.new ≡
            site_of pool.old self.old marks.old) }
        ensures marks { AreWithin id (length self.new.sets) marks.new }
        ensures blocks { ChangesBlocks self.old.text.blocks self.new.text.blocks pool.old pool.new }
    {
        let (first, end) = self.undo.passed(plan);
        let records = self.undo.part(first, end)?;
        if is_one_change(&records) {
            self.undo_in_place(id, &records, plan, marks, pool)
        } else {
            self.undo_or_go_back(id, &records, plan, marks, pool)
        }
    }

    /// Passes a plan and undoes its records, at most one of which is of a change. So a refusal has changed nothing but
    /// point, the flag and what is pending, which go back.
    fn undo_in_place(
        &mut self,
        id: u32,
        records: &Undo,
        plan: &Plan,
        marks: &mut Marks,
        pool: &mut Pool,
    ) -> Mem<()>
        requires lies { LiesIn pool.old self.old.text }
        requires inside { trial self.old.begin self.old.end records.now.state.entries ≡ None }
        requires undoable { All (λ e. CanBeUndone e.what) records.now.state.entries }
        requires one { (only : ℕ) × ChangesOnlyAt only records.now.state.entries }
        requires marks { AreWithin id (length self.old.sets) marks.old }
        ensures lies { LiesIn pool.new self.new.text }
        ensures ok { OnOk result (site_of pool.new self.new marks.new ≡
            undo_each id records.now.state.entries
            (with_pending plan.now.last (site_of pool.old self.old marks.old))) }
        ensures err { OnErr result (site_of pool.new self.new marks.new ≡
            site_of pool.old self.old marks.old) }
        ensures marks { AreWithin id (length self.new.sets) marks.new }
        ensures blocks { ChangesBlocks self.old.text.blocks self.new.text.blocks pool.old pool.new }
    {
        let bounds = self.bounds;
        let modified = self.modified;
        let pending = self.undo.pending_below();
        self.pass(plan);
        match self.undo_each(id, records, marks, pool) {
            Ok(()) => Ok(()),
            Err(refused) => {
                // Read for what it ensures: the accessible portion still lies in the text.
                let _bounds = self.bounds();
                self.go_back(bounds, modified, pending);
                Err(refused)
            }
        }
    }

    /// The accessible portion with point in it, the modified flag, and what is pending are as these say.
    fn go_back(&mut self, bounds: Bounds, modified: bool, below: u64)
        requires { bounds.end ≤ length self.old.sets }
        ensures rest { self.new ≡ record self.old {
          begin = bounds.start;
          end = bounds.end;
          point = bounds.point;
          modified = modified;
          undo = self.new.undo;
        } }
        ensures state { self.new.undo.state ≡ record self.old.undo.state { pending_below = below } }
    {
        self.bounds = bounds;
        self.modified = modified;
        self.undo.make_pending(below);
    }

    /// What an undoing of some records goes back to where it is refused.
    fn before(&self, records: &Undo, pool: &Pool) -> Mem<Before>
        requires lies { LiesIn pool.now self.now.text }
        requires inside { trial self.now.begin self.now.end records.now.state.entries ≡ None }
        requires undoable { All (λ e. CanBeUndone e.what) records.now.state.entries }
        ensures order { IfOk result (λ b.
            b.margins.front + b.margins.behind ≤ length self.now.sets) }
        ensures between { IfOk result (λ b. AllBetween b.margins.front b.margins.behind
            (length self.now.sets) records.now.state.entries) }
        ensures text { IfOk result (λ b. b.text.items ≡ drop b.margins.front
            (take (length self.now.sets - b.margins.behind) (characters pool.now self.now.text))) }
        ensures rest { IfOk result (λ b. self.now ≡ record {
          text = self.now.text;
          sets = b.props;
          begin = b.bounds.start;
          end = b.bounds.end;
          point = b.bounds.point;
          modified = b.modified;
          undo = self.now.undo;
        }) }
        ensures undo { IfOk result (λ b. b.undo.state ≡ self.now.undo.state) }
    {
        // Read for what it ensures: the accessible portion lies in the text.
        let _bounds = self.bounds();
        let size = self.text.len();
        let Some(margins) = untouched(records, size) else {
            return Err(NoMemory);
        };
        let text = self
            .text
            .copy_out(pool, margins.front, size - margins.behind)?;
        let props = self.props.copy()?;
        let undo = self.undo.copy()?;
        Ok(Before {
            margins,
            text,
            props,
            bounds: self.bounds,
            modified: self.modified,
            undo,
        })
    }

    /// All is as it was before an undoing that left the margins of the text. It takes no memory.
    fn go_back_to(&mut self, before: Before, pool: &mut Pool)
        requires lies { LiesIn pool.old self.old.text }
        requires order { before.margins.front + before.margins.behind ≤ length self.old.sets }
        requires size { before.margins.front + (length before.text.items + before.margins.behind) ≡
            length before.props }
        requires cells { length before.props ≤ 256 * length self.old.text.blocks }
        requires end { before.bounds.end ≤ length before.props }
        requires undoable { All (λ e. CanBeUndone e.what) before.undo.state.entries }
        ensures lies { LiesIn pool.new self.new.text }
        ensures text { let text = characters pool.old self.old.text in
            characters pool.new self.new.text ≡ take before.margins.front text ++
            (before.text.items ++ drop (length text - before.margins.behind) text) }
        ensures rest { self.new ≡ record {
          text = self.new.text;
          sets = before.props;
          begin = before.bounds.start;
          end = before.bounds.end;
          point = before.bounds.point;
          modified = before.modified;
          undo = before.undo;
        } }
        ensures blocks { ChangesBlocks self.old.text.blocks self.new.text.blocks pool.old pool.new }
    {
        let end = self.text.len() - before.margins.behind;
        self.text.delete(pool, before.margins.front, end);
        self.text.insert(pool, before.margins.front, &before.text);
        self.props = before.props;
        self.bounds = before.bounds;
        self.modified = before.modified;
        self.undo = before.undo;
    }

    /// Passes a plan and undoes its records, whatever these are: what they change is kept first, and goes back where the
    /// undoing is refused.
    fn undo_or_go_back(
        &mut self,
        id: u32,
        records: &Undo,
        plan: &Plan,
        marks: &mut Marks,
        pool: &mut Pool,
    ) -> Mem<()>
        requires lies { LiesIn pool.old self.old.text }
        requires inside { trial self.old.begin self.old.end records.now.state.entries ≡ None }
        requires undoable { All (λ e. CanBeUndone e.what) records.now.state.entries }
        requires marks { AreWithin id (length self.old.sets) marks.old }
        ensures lies { LiesIn pool.new self.new.text }
        ensures ok { OnOk result (site_of pool.new self.new marks.new ≡
            undo_each id records.now.state.entries
            (with_pending plan.now.last (site_of pool.old self.old marks.old))) }
        ensures err { OnErr result (site_of pool.new self.new marks.new ≡
            site_of pool.old self.old marks.old) }
        ensures marks { AreWithin id (length self.new.sets) marks.new }
        ensures blocks { ChangesBlocks self.old.text.blocks self.new.text.blocks pool.old pool.new }
    {
        let mut moved = marks.copy()?;
        let before = self.before(records, pool)?;
        // Read for what it ensures: the accessible portion lies in the text.
        let _bounds = self.bounds();
        self.pass(plan);
        match self.undo_each(id, records, &mut moved, pool) {
            Ok(()) => {
                *marks = moved;
                Ok(())
            }
            Err(refused) => {
                // Read for what it ensures: there is a property set for each character.
                let _left = self.bounds();
                self.go_back_to(before, pool);
                Err(refused)
            }
        }
    }

    /// Makes the records of a plan pending no longer. Nothing else changes.
    fn pass(&mut self, plan: &Plan)
        ensures rest { self.new ≡ record self.old { undo = self.new.undo } }
        ensures state { self.new.undo.state ≡
            record self.old.undo.state { pending_below = plan.now.last } }
    {
        self.undo.pass(plan);
    }
}
