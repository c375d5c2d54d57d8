//! Records with their serial numbers, and the cut of the oldest.
ghost use Rattle.std.specs.Prelude.{◌≡◌, ℕ, ◌+◌, ◌<◌, ◌≤◌, [], ◌∷◌, length, drop, take, OnOk, OnErr};
ghost use Rattle.std.specs.Prelude.{IfOk, IsOk, IfSome, IfNone, filter, nat_lt, nat_le};
ghost use Rattle.std.specs.Prelude.{if◌then◌else◌, true, slice_get, Some};
ghost use Rattle.text_model.specs.Undo as undo;
ghost use Rattle.text_model.specs.Undo.{is_boundary, without_oldest_group, fits, cut, extends};
ghost use Rattle.text_model.specs.Undo.{in_front, kept_characters};
ghost use Rattle.undo_list.specs.Records.{entry_of, AreFalling};
ghost use Rattle.undo_list.specs.Plans.{planned_from};

use crate::plan::{Plan, Refused};
use crate::rec::Rec;
use crate::walk::Walk;
use ek_types::{Copied, Mem};
use std::alloc::Global;
use std::collections::VecDeque;
use std::marker::Model;

/// The most records that are kept.
const MAX_RECORDS: usize = 65_536;

/// The most characters of deleted text that are kept.
const MAX_CHARACTERS: u128 = 1_048_576;

/// How many records a change of a text adds where it moves no markers.
const ADDED: usize = 3;

/// A record with its serial number.
#[derive(Drop)]
pub struct Entry {
    pub what: Rec,
    pub serial: u64,
}

/// Records with their serial numbers, the newest first.
#[derive(Drop)]
pub struct Records {
    entries: VecDeque<Entry>,
    /// How many characters of deleted text they keep.
    kept: u128,
}

impl Model for Records {
    ghost use Rattle.undo_list.specs.State.{Held};

    ghost Value = { Held };

    ghost use Rattle.std.specs.Prelude.{◌≡◌, ◌-◌, map};
    ghost use Rattle.std.specs.VecDeque.{deque_len, deque_capacity};
    ghost use Rattle.text_model.specs.Undo.{kept_characters};
    ghost use Rattle.undo_list.specs.Records.{entry_of};

    ghost view = { λ r. record {
      entries = map entry_of r.entries.items;
      spare = deque_capacity r.entries - deque_len r.entries;
    } };

    ghost invariant = { λ r. r.kept ≡ kept_characters (map entry_of r.entries.items) };
}

impl Records {
    pub fn new(alloc: Global) -> Records
        ensures { result.entries ≡ [] }
    {
        Records {
            entries: VecDeque::new(alloc),
            kept: 0,
        }
    }

    pub fn len(&self) -> usize
        ensures { result ≡ length self.now.entries }
    {
        self.entries.len()
    }

    pub fn at(&self, i: usize) -> &Entry
        requires { i < length self.now.entries }
        ensures { slice_get self.now.entries i ≡ Some (entry_of result.now) }
    {
        &self.entries[i]
    }

    /// Makes the spare at least `n`.
    pub fn reserve(&mut self, n: usize) -> Mem<()>
        ensures entries { self.new.entries ≡ self.old.entries }
        ensures room { OnOk result (n ≤ self.new.spare) }
        ensures kept { self.old.spare ≤ self.new.spare }
        ensures had { n ≤ self.old.spare → IsOk result }
    {
        self.entries.reserve(n)?;
        Ok(())
    }

    /// Whether they keep within the limits.
    pub fn fits(&self) -> bool
        ensures { result ≡ fits self.now.entries }
    {
        self.entries.len() <= MAX_RECORDS && self.kept <= MAX_CHARACTERS
    }

    /// Takes them all away.
    pub fn clear(&mut self)
        ensures entries { self.new.entries ≡ [] }
        ensures spare { self.old.spare ≤ self.new.spare }
    {
        self.entries.clear();
        self.kept = 0;
    }

    /// Puts a record in front of the others. A refusal leaves them as they were.
    pub fn push(&mut self, entry: Entry) -> Mem<()>
        requires { fits self.old.entries ≡ true }
        ensures ok { OnOk result (self.new.entries ≡ entry_of entry ∷ self.old.entries) }
        ensures err { OnErr result (self.new.entries ≡ self.old.entries) }
        ensures had { 0 < self.old.spare → IsOk result }
        ensures spare { self.old.spare ≤ self.new.spare + 1 }
        ensures spare_err { OnErr result (self.old.spare ≤ self.new.spare) }
    {
        let size = entry.what.size() as u128;
        self.entries.push_front(entry)?;
        self.kept += size;
        Ok(())
    }

    /// Extends the newest record to `to`, where it is an insertion that ended at `from`.
    pub fn extend(&mut self, from: usize, to: usize) -> bool
        ensures extends { result ≡ extends (undo.Inserted from to) self.old.entries }
        ensures entries { (serial : ℕ) → self.new.entries ≡
            (if result then in_front (undo.Inserted from to) serial self.old.entries else
            self.old.entries) }
        ensures spare { self.new.spare ≡ self.old.spare }
    {
        match self.entries.front_mut() {
            Some(entry) => entry.what.extend(from, to),
            None => false,
        }
    }

    /// Takes the oldest record away, and says whether it was a boundary. None where there is no record.
    fn pop(&mut self) -> Option<bool>
        ensures none { IfNone result (self.old.entries ≡ []) }
        ensures same { IfNone result (self.new.entries ≡ self.old.entries) }
        ensures some { IfSome result (λ last. without_oldest_group self.old.entries ≡
            (if last then self.new.entries else without_oldest_group self.new.entries)) }
        ensures len { IfSome result (λ _. length self.new.entries + 1 ≡ length self.old.entries) }
        ensures spare { self.old.spare ≤ self.new.spare }
    {
        let entry = self.entries.pop_back()?;
        self.kept -= entry.what.size() as u128;
        Some(entry.what.is_boundary())
    }

    /// Takes the oldest group away, with the boundary next to it.
    fn drop_oldest_group(&mut self)
        ensures entries { self.new.entries ≡ without_oldest_group self.old.entries }
        ensures spare { self.old.spare ≤ self.new.spare }
    {
        'records: while let Some(is_boundary) = self.pop() {
            if is_boundary {
                return;
            }
        }
    }

    /// Takes groups away until the rest keeps within the limits.
    pub fn cut(&mut self)
        ensures entries { (turns : ℕ) → length self.old.entries ≤ turns →
            self.new.entries ≡ cut turns self.old.entries }
        ensures fits { fits self.new.entries ≡ true }
        ensures spare { self.old.spare ≤ self.new.spare }
    {
        'groups: while !self.fits() {
            self.drop_oldest_group();
        }
    }

    /// How many records there are in front of those whose serial number is below `below`.
    pub fn newer(&self, below: u64) -> usize
        ensures exact { (bound : ℕ) → AreFalling bound self.now.entries →
            drop result self.now.entries ≡ filter (λ e. nat_lt e.serial below) self.now.entries }
        ensures within { result ≤ length self.now.entries }
    {
        self.entries.partition_point(
            |entry: &Entry| -> bool
                ensures { result ≡ nat_le below entry.now.serial }
            { below <= entry.serial },
        )
    }

    /// The plan of so many groups from the record at `start` on, or why it is refused.
    pub fn plan(&self, start: usize, groups: u32, min: usize, max: usize) -> Result<Plan, Refused>
        requires start { start < length self.now.entries }
        ensures { result ≡ planned_from groups min max (drop start self.now.entries) }
    {
        let first = self.entries[start].serial;
        let plan = Plan {
            first,
            last: first,
            count: 0,
        };
        let mut walk = Walk {
            left: groups,
            min,
            max: max as u128,
            plan,
        };
        let mut i = start;
        'walk: while walk.left > 0 && i < self.entries.len() {
            let entry = &self.entries[i];
            if !entry.what.lies_inside(walk.min, walk.max) {
                return Err(Refused::Outside(entry.serial));
            }
            walk.step(entry);
            i += 1;
        }
        Ok(walk.plan)
    }

    /// The records from place `from` to before `to` again.
    pub fn part(&self, from: usize, to: usize) -> Mem<Records>
        requires fits { fits self.now.entries ≡ true }
        requires order { from ≤ to }
        requires range { to ≤ length self.now.entries }
        ensures { IfOk result (λ part. part.entries ≡ drop from (take to self.now.entries)) }
    {
        let mut entries = VecDeque::new(*self.entries.allocator());
        // A copy is made to be added to, and a full list that grows would be moved to twice the room.
        entries.reserve((to - from).saturating_add(ADDED))?;
        let mut kept = 0;
        for i in from..to {
            let entry = &self.entries[i];
            kept += entry.what.size() as u128;
            entries.push_back(Entry {
                what: entry.what.copy()?,
                serial: entry.serial,
            })?;
        }
        Ok(Records { entries, kept })
    }
}
