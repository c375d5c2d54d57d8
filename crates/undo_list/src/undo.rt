//! The undo state of a buffer.
ghost use Rattle.std.specs.Prelude.{◌≡◌, ℕ, ◌+◌, ◌<◌, ◌≤◌, true, false, if◌then◌else◌, [], length};
ghost use Rattle.std.specs.Prelude.{take, drop, Ok, Err, OnOk, OnErr, IfOk, IsOk, IsErr, slice_get};
ghost use Rattle.std.specs.Prelude.{Some, None};
ghost use Rattle.text_model.specs.Undo.{extends, pushed, with_boundary, started, without_pending};
ghost use Rattle.text_model.specs.Undo.{disabled, enabled, pass, passed, trial};
ghost use Rattle.text_model.specs.Commit.{fresh_group};
ghost use Rattle.undo_list.specs.Records.{rec_of};
ghost use Rattle.undo_list.specs.Plans.{planned};
ghost use Rattle.undo_list.specs.State.{IsKept, serials_left};

use crate::plan::{Plan, Refused};
use crate::rec::Rec;
use crate::records::{Entry, Records};
use ek_types::{Mem, NoMemory};
use std::alloc::Global;
use std::marker::Model;

/// The records of one buffer, whether recording is on, and which records are pending (GNU Emacs Lisp Reference Manual,
/// Undo and Maintaining Undo). It is seen as the undo state of the definitions with its spare beside it: how many calls
/// of `push` and `boundary` take no memory from now on.
///
/// Records are counted from 0, the newest first. Each has a serial number that no other record of the buffer ever has.
#[derive(Drop)]
pub struct Undo {
    on: bool,
    records: Records,
    /// The serial number of the next record.
    next: u64,
    /// Records with a smaller serial number are pending.
    pending_below: u64,
}

impl Model for Undo {
    ghost use Rattle.undo_list.specs.State.{Recording, serials_left};

    ghost Value = { Recording };

    ghost use Rattle.std.specs.Prelude.{◌≡◌, min, true, false, []};
    ghost use Rattle.text_model.specs.Undo.{fits};
    ghost use Rattle.undo_list.specs.Records.{AreFalling};

    ghost view = { λ u. record {
      state = record {
        on = u.on;
        entries = u.records.entries;
        next = u.next;
        pending_below = u.pending_below;
      };
      spare = min u.records.spare
          (serials_left u.next);
    } };

    ghost invariant = { λ u. AreFalling u.next u.records.entries × (fits u.records.entries ≡ true) ×
        (u.on ≡ false → u.records.entries ≡ []) };
}

impl Undo {
    /// No records, none pending, and recording on. It takes no memory.
    pub fn new(alloc: Global) -> Undo
        ensures { result.state ≡ record { on = true; entries = []; next = 0; pending_below = 0 } }
    {
        Undo {
            on: true,
            records: Records::new(alloc),
            next: 0,
            pending_below: 0,
        }
    }

    /// Whether recording is on.
    pub fn is_on(&self) -> bool
        ensures { result ≡ self.now.state.on }
    {
        self.on
    }

    /// How many records there are.
    pub fn len(&self) -> usize
        ensures exact { result ≡ length self.now.state.entries }
        ensures kept { IsKept self.now.state }
    {
        self.records.len()
    }

    /// The record at a place, the newest at 0, with its serial number.
    pub fn at(&self, i: usize) -> (&Rec, u64)
        requires { i < length self.now.state.entries }
        ensures { slice_get self.now.state.entries i ≡ Some (record {
          what = rec_of result.0.now;
          serial = result.1;
        }) }
    {
        let entry = self.records.at(i);
        (&entry.what, entry.serial)
    }

    /// Takes the memory for the next `n` calls of `push` and `boundary`, which then don't answer `NoMemory`. A refusal
    /// leaves the records as they were; it comes, too, where fewer than `n` serial numbers are left.
    pub fn reserve(&mut self, n: usize) -> Mem<()>
        ensures state { self.new.state ≡ self.old.state }
        ensures room { OnOk result (n ≤ self.new.spare) }
        ensures kept { self.old.spare ≤ self.new.spare }
        ensures had { n ≤ self.old.spare → IsOk result }
        ensures spent { serials_left self.old.state.next < n → IsErr result }
    {
        if u64::MAX - self.next < n as u64 {
            return Err(NoMemory);
        }
        self.records.reserve(n)
    }

    /// Puts a record in front of the others, or extends the newest one where both are insertions and the new one starts
    /// where the newest ended. Then the oldest groups go while there are more than 65,536 records or they keep more than
    /// 1,048,576 deleted characters. Nothing happens where recording is off.
    ///
    /// A refusal leaves the records as they were; it comes, too, where no serial number is left.
    pub fn push(&mut self, rec: Rec) -> Mem<()>
        ensures ok { OnOk result (self.new.state ≡ pushed (rec_of rec) self.old.state) }
        ensures err { OnErr result (self.new.state ≡ self.old.state) }
        ensures had { 0 < self.old.spare → IsOk result }
        ensures spare { self.old.spare ≤ self.new.spare + 1 }
        ensures spent { serials_left self.old.state.next ≡ 0 → self.old.state.on ≡ true →
            extends (rec_of rec) self.old.state.entries ≡ false → IsErr result }
    {
        if !self.on {
            return Ok(());
        }
        if self.extends_newest(&rec) {
            return Ok(());
        }
        self.push_apart(rec)
    }

    /// Extends the newest record, where the new one does that, and says whether it did.
    fn extends_newest(&mut self, rec: &Rec) -> bool
        requires { self.old.state.on ≡ true }
        ensures extends { result ≡ extends (rec_of rec.now) self.old.state.entries }
        ensures state { self.new.state ≡ (if result then pushed (rec_of rec.now) self.old.state else
            self.old.state) }
        ensures spare { self.new.spare ≡ self.old.spare }
    {
        match rec {
            Rec::Inserted(from, to) => self.records.extend(*from, *to),
            _ => false,
        }
    }

    /// Puts a record with a serial number of its own in front of the others.
    fn push_apart(&mut self, rec: Rec) -> Mem<()>
        requires on { self.old.state.on ≡ true }
        requires apart { extends (rec_of rec) self.old.state.entries ≡ false }
        ensures ok { OnOk result (self.new.state ≡ pushed (rec_of rec) self.old.state) }
        ensures err { OnErr result (self.new.state ≡ self.old.state) }
        ensures had { 0 < self.old.spare → IsOk result }
        ensures spare { self.old.spare ≤ self.new.spare + 1 }
        ensures spent { serials_left self.old.state.next ≡ 0 → IsErr result }
    {
        if self.next == u64::MAX {
            return Err(NoMemory);
        }
        let serial = self.next;
        self.records.push(Entry { what: rec, serial })?;
        self.next = serial + 1;
        self.records.cut();
        Ok(())
    }

    /// Ends the newest group, unless there is no record or the newest is a boundary already (GNU Emacs Lisp Reference
    /// Manual, Undo). A refusal leaves the records as they were; it comes, too, where no serial number is left.
    pub fn boundary(&mut self) -> Mem<()>
        ensures ok { OnOk result (self.new.state ≡ with_boundary self.old.state) }
        ensures err { OnErr result (self.new.state ≡ self.old.state) }
        ensures had { 0 < self.old.spare → IsOk result }
        ensures spare { self.old.spare ≤ self.new.spare + 1 }
        ensures spent { serials_left self.old.state.next ≡ 0 →
            fresh_group self.old.state.entries ≡ false → IsErr result }
    {
        if self.records.len() == 0 || self.records.at(0).what.is_boundary() {
            return Ok(());
        }
        self.push(Rec::Boundary)
    }

    /// Makes all records pending. It is refused where recording is off, as `Disabled`, and changes nothing then.
    pub fn start(&mut self) -> Result<(), Refused>
        ensures result { result ≡ (if self.old.state.on then Ok tt else Err Refused.Disabled) }
        ensures state { self.new.state ≡ (if self.old.state.on then started self.old.state else
            self.old.state) }
        ensures spare { self.new.spare ≡ self.old.spare }
    {
        if !self.on {
            return Err(Refused::Disabled);
        }
        self.pending_below = self.next;
        Ok(())
    }

    /// The serial number below which records are pending.
    pub fn pending_below(&self) -> u64
        ensures { result ≡ self.now.state.pending_below }
    {
        self.pending_below
    }

    /// Makes the records below a serial number pending, and no others. All stay in the list.
    pub fn make_pending(&mut self, below: u64)
        ensures state { self.new.state ≡ record self.old.state { pending_below = below } }
        ensures spare { self.new.spare ≡ self.old.spare }
    {
        self.pending_below = below;
    }

    /// Makes no record pending. All stay in the list.
    pub fn drop_pending(&mut self)
        ensures state { self.new.state ≡ without_pending self.old.state }
        ensures spare { self.new.spare ≡ self.old.spare }
    {
        self.pending_below = 0;
    }

    /// What undoing so many groups of the pending records would pass. A group ends with a boundary or with the list, and
    /// fewer groups are passed where there are fewer. It is refused as `Disabled` where recording is off, else as
    /// `Nothing` where no record is pending, else as `Outside` where a place of a record lies outside `min` to `max`, as
    /// these stand once the records before it are undone; it names the first such record. Nothing is changed by asking.
    pub fn plan(&self, groups: u32, min: usize, max: usize) -> Mem<Result<Plan, Refused>>
        requires { 1 ≤ groups }
        ensures { result ≡ Ok (planned groups min max self.now.state) }
    {
        if !self.on {
            return Ok(Err(Refused::Disabled));
        }
        let start = self.records.newer(self.pending_below);
        if start == self.records.len() {
            return Ok(Err(Refused::Nothing));
        }
        Ok(self.records.plan(start, groups, min, max))
    }

    /// The places of the records of a plan of this list, its boundaries among them: from the first to before the second.
    pub fn passed(&self, plan: &Plan) -> (usize, usize)
        ensures records { (groups min max : ℕ) → 1 ≤ groups →
            planned groups min max self.now.state ≡ Ok plan.now →
            drop result.0 (take result.1 self.now.state.entries) ≡ passed groups self.now.state }
        ensures inside { (groups min max : ℕ) → 1 ≤ groups →
            planned groups min max self.now.state ≡ Ok plan.now →
            trial min max (passed groups self.now.state) ≡ None }
        ensures pass { (groups min max : ℕ) → 1 ≤ groups →
            planned groups min max self.now.state ≡ Ok plan.now →
            record self.now.state { pending_below = plan.now.last } ≡
            pass (passed groups self.now.state) self.now.state }
        ensures order { result.0 ≤ result.1 }
        ensures within { result.1 ≤ length self.now.state.entries }
    {
        let from = self.records.newer(self.pending_below);
        let to = self.records.newer(plan.last);
        (from, to.max(from))
    }

    /// Makes the records of a plan of this list, its boundaries among them, pending no longer. Nothing else changes.
    pub fn pass(&mut self, plan: &Plan)
        ensures state { self.new.state ≡ record self.old.state { pending_below = plan.now.last } }
        ensures groups { (groups min max : ℕ) → 1 ≤ groups →
            planned groups min max self.old.state ≡ Ok plan.now →
            self.new.state ≡ pass (passed groups self.old.state) self.old.state }
        ensures spare { self.new.spare ≡ self.old.spare }
    {
        self.pending_below = plan.last;
    }

    /// Stops recording, and drops all records, so that none is pending. Their serial numbers aren't given again.
    pub fn disable(&mut self)
        ensures state { self.new.state ≡ disabled self.old.state }
        ensures spare { self.old.spare ≤ self.new.spare }
    {
        self.on = false;
        self.records.clear();
        self.drop_pending();
    }

    /// Begins to record, with no records, where recording was off; else nothing changes.
    pub fn enable(&mut self)
        ensures state { self.new.state ≡ enabled self.old.state }
        ensures spare { self.new.spare ≡ self.old.spare }
    {
        self.on = true;
    }

    /// The same undo state again.
    pub fn copy(&self) -> Mem<Undo>
        ensures { IfOk result (λ copy. copy.state ≡ self.now.state) }
    {
        self.part(0, self.records.len())
    }

    /// The same undo state, with the records from place `from` to before `to` alone.
    pub fn part(&self, from: usize, to: usize) -> Mem<Undo>
        requires order { from ≤ to }
        requires range { to ≤ length self.now.state.entries }
        ensures { IfOk result (λ part. part.state ≡
            record self.now.state { entries = drop from (take to self.now.state.entries) }) }
    {
        Ok(Undo {
            on: self.on,
            records: self.records.part(from, to)?,
            next: self.next,
            pending_below: self.pending_below,
        })
    }
}
