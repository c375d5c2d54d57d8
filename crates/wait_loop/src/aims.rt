//! Whom a wait is for, and which processes it may ask.
ghost use Rattle.std.specs.Prelude.{◌≡◌, ◌≤◌, length, drop, find, slice_get, vec_capacity};
ghost use Rattle.std.specs.List.{position, range_with_len};
ghost use Rattle.plain_machine.specs.Waits.{is_target, is_eligible, eligible, target_is_eligible};
ghost use Rattle.process_table.specs.Table.{with_table};
ghost use Rattle.wait_loop.specs.Aims.{waiting_for};

use process_table::{Filter, Processes, Status};

/// A process or any, and whether that one alone is asked.
#[derive(Clone, Copy)]
pub struct Aim {
    pub target: Option<u32>,
    pub just: bool,
}

impl Aim {
    /// Whether bytes of process `p` count: those of the target, or of any where there is none.
    pub fn counts(self, p: u32) -> bool
        ensures { result ≡ is_target self.target p }
    {
        self.target.is_none_or(|t| t == p)
    }

    /// Whether process `p` may be asked.
    pub fn may_ask(self, table: &Processes, p: u32) -> bool
        ensures { result ≡ is_eligible (with_table table.now) (waiting_for self) p }
    {
        if p >= table.count() {
            return false;
        }
        let process = table.get(p);
        process.status() == Status::Run
            && process.filter() != Filter::Off
            && (!self.just || self.counts(p))
    }

    /// Whether the target may be asked; so it is where there is none.
    pub fn may_ask_target(self, table: &Processes) -> bool
        ensures { result ≡ target_is_eligible (with_table table.now) (waiting_for self) }
    {
        self.target.is_none_or(|t| self.may_ask(table, t))
    }

    /// The place of the first process of a list that may be asked.
    pub fn first_in(self, table: &Processes, asking: &[u32]) -> Option<usize>
        ensures { result ≡ position (is_eligible (with_table table.now) (waiting_for self)) asking.now }
    {
        asking.iter().position(|p| self.may_ask(table, *p))
    }

    /// The first process of a round.
    pub fn first(self, table: &Processes) -> Option<u32>
        ensures { result ≡ slice_get (eligible (with_table table.now) (waiting_for self)) 0 }
    {
        match self.target {
            Some(target) => Some(target),
            None => self.first_of_all(table),
        }
    }

    /// The first of all processes that may be asked.
    fn first_of_all(self, table: &Processes) -> Option<u32>
        ensures { result ≡ find (is_eligible (with_table table.now) (waiting_for self))
            (range_with_len 0 (length table.now)) }
    {
        (0..table.count()).find(|p| self.may_ask(table, *p))
    }

    /// Makes `asking` the processes of a round behind the first one, by rising number.
    pub fn list_others(self, table: &Processes, first: u32, asking: &mut Vec<u32>)
        requires first { slice_get (eligible (with_table table.now) (waiting_for self)) 0 ≡ Some first }
        requires room { length table.now ≤ vec_capacity asking.old }
        ensures items { asking.new.items ≡ drop 1 (eligible (with_table table.now) (waiting_for self)) }
        ensures capacity { vec_capacity asking.new ≡ vec_capacity asking.old }
    {
        asking.clear();
        for p in 0..table.count() {
            if p != first && self.may_ask(table, p) {
                asking.push_reserved(p);
            }
        }
    }
}
