//! A walk over the records of some groups.
ghost use Rattle.std.specs.Prelude.{◌≡◌, ◌^◌, ◌<◌, ◌+◌};
ghost use Rattle.undo_list.specs.Records.{entry_of};
ghost use Rattle.undo_list.specs.Walks.{stepped};

use crate::plan::Plan;
use crate::records::Entry;

/// How far a trial has come.
#[derive(Drop)]
pub struct Walk {
    /// How many groups are left.
    pub left: u32,
    /// The first place that a record may touch.
    pub min: usize,
    /// The last place that a record may touch, once those before it are undone.
    pub max: u128,
    /// What was passed so far.
    pub plan: Plan,
}

impl Walk {
    /// Passes one record more.
    pub fn step(&mut self, entry: &Entry)
        requires left { 0 < self.old.left }
        requires max { self.old.max + 2 ^ 64 < 2 ^ 128 }
        requires count { self.old.plan.count + 1 < 2 ^ 64 }
        ensures exact { self.new ≡ stepped (entry_of entry.now) self.old }
        ensures bound { self.new.max < self.old.max + 2 ^ 64 }
    {
        if entry.what.is_boundary() {
            self.left -= 1;
        } else {
            self.plan.count += 1;
        }
        self.max = entry.what.max_after(self.max);
        self.plan.last = entry.serial;
    }
}
