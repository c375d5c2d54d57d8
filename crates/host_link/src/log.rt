//! The exchanges that a host keeps, with a place set aside for each kill that may still come.
ghost use Rattle.std.specs.Prelude.{◌≡◌, ◌+◌, ◌-◌, ◌<◌, ◌≤◌, [], ◌∷◌, ◌++◌, OnOk};
ghost use Rattle.host_link.specs.Meaning.{ask_of, answer_of, exchanges_of};
ghost use Rattle.host_link.specs.Logged.{Logged, due_by};

use crate::asking::{Answer, Ask, Exchange, Exchanges};
use crate::host::Spawned;
use ek_types::{ListOf, Mem, NoMemory};
use std::alloc::Global;
use std::marker::Model;

/// A list of exchanges that is given memory before an exchange is made, and takes none to note it.
#[derive(Drop)]
pub struct Log {
    alloc: Global,
    list: Exchanges,
    due: usize,
}

impl Model for Log {
    ghost use Rattle.std.specs.Prelude.{◌-◌, ◌≤◌};
    ghost use Rattle.ek_types.specs.Listing.{spare_of};
    ghost use Rattle.host_link.specs.Meaning.{exchanges_of};
    ghost use Rattle.host_link.specs.Logged.{Logged};

    ghost Value = { Logged };

    ghost view = { λ l. record {
      told = exchanges_of l.list;
      due = l.due;
      places = spare_of l.list - l.due;
    } };

    ghost invariant = { λ l. l.due ≤ spare_of l.list };
}

impl Log {
    /// No exchange so far.
    pub fn new(alloc: Global) -> Log
        ensures told { result.told ≡ [] }
        ensures due { result.due ≡ 0 }
    {
        Log {
            alloc,
            list: ListOf::new(alloc),
            due: 0,
        }
    }

    /// Where its memory is taken.
    pub fn allocator(&self) -> Global {
        self.alloc
    }

    /// The exchanges so far.
    pub fn list(&self) -> &Exchanges
        ensures { exchanges_of result.now ≡ self.now.told }
    {
        &self.list
    }

    /// Makes places for `n` exchanges beside the kills.
    pub fn reserve(&mut self, n: usize) -> Mem<()>
        ensures told { self.new.told ≡ self.old.told }
        ensures due { self.new.due ≡ self.old.due }
        ensures room { OnOk result (n ≤ self.new.places) }
        ensures kept { self.old.places ≤ self.new.places }
    {
        let places = self.due.checked_add(n).ok_or(NoMemory)?;
        self.list.reserve(places)
    }

    /// Notes an exchange at its place.
    pub fn put(&mut self, ask: Ask, answer: Answer)
        requires { 0 < self.old.places }
        ensures told { self.new.told ≡ self.old.told ++ record {
          ask = ask_of ask;
          answer = answer_of answer;
        } ∷ [] }
        ensures due { self.new.due ≡ self.old.due }
        ensures places { self.new.places + 1 ≡ self.old.places }
    {
        self.list.push_spare(Exchange { ask, answer });
    }

    /// Notes a spawn, and keeps a place for the kill of the child that it started.
    pub fn put_spawn(&mut self, ask: Ask, answer: Answer, spawned: Spawned)
        requires { 2 ≤ self.old.places }
        ensures told { self.new.told ≡ self.old.told ++ record {
          ask = ask_of ask;
          answer = answer_of answer;
        } ∷ [] }
        ensures due { self.new.due ≡ self.old.due + due_by spawned }
        ensures places { self.new.places + (1 + due_by spawned) ≡ self.old.places }
    {
        self.put(ask, answer);
        self.owe(spawned);
    }

    /// Keeps a place for the kill of the child that was started.
    pub fn owe(&mut self, spawned: Spawned)
        requires { 0 < self.old.places }
        ensures told { self.new.told ≡ self.old.told }
        ensures due { self.new.due ≡ self.old.due + due_by spawned }
        ensures places { self.new.places + due_by spawned ≡ self.old.places }
    {
        match spawned {
            Spawned::Started(_) => self.due += 1,
            Spawned::Refused => {}
        }
    }

    /// Notes a kill at the place that was kept for it.
    pub fn put_kill(&mut self, ask: Ask, answer: Answer)
        requires { 0 < self.old.due }
        ensures told { self.new.told ≡ self.old.told ++ record {
          ask = ask_of ask;
          answer = answer_of answer;
        } ∷ [] }
        ensures due { self.new.due + 1 ≡ self.old.due }
        ensures places { self.new.places ≡ self.old.places }
    {
        self.due -= 1;
        self.put(ask, answer);
    }
}
