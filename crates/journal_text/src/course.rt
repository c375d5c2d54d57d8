//! How far a replay has come.
ghost use Rattle.std.specs.Prelude.{◌≡◌, ◌+◌, ◌<◌, ◌≤◌, ◌^◌, [], ◌∷◌, ◌++◌, length, false, not, IfOk, OnOk};
ghost use Rattle.host_link.specs.Meaning.{ask_of, answer_of, exchanges_of};
ghost use Rattle.host_link.specs.Hosts.{faults_after};
ghost use Rattle.journal_text.specs.Allowed.{AreAnswered};
ghost use Rattle.journal_text.specs.Replayed.{Replied};

use crate::reply::{Reply, reply_to};
use ek_types::Mem;
use host_link::{Ask, Exchanges, Log, faults_after};
use std::alloc::Global;

/// How many exchanges of the list were answered, whether an ask has differed or found the list used up, how many answers
/// were faults, and the exchanges that were made.
#[derive(Drop)]
pub(crate) struct Course {
    pub(crate) matched: usize,
    pub(crate) strayed: bool,
    pub(crate) faults: u64,
    pub(crate) told: Log,
}

impl Course {
    /// Before any exchange.
    pub(crate) fn new(alloc: Global) -> Course
        ensures matched { result.matched ≡ 0 }
        ensures strayed { result.strayed ≡ false }
        ensures faults { result.faults ≡ 0 }
        ensures told { result.told.told ≡ [] }
        ensures due { result.told.due ≡ 0 }
    {
        Course {
            matched: 0,
            strayed: false,
            faults: 0,
            told: Log::new(alloc),
        }
    }

    /// What is answered to an ask. A place is made for the exchange.
    pub(crate) fn reply_to(&mut self, list: &Exchanges, ask: &Ask, room: usize) -> Mem<Reply>
        requires answered { AreAnswered 0 (exchanges_of list.now) }
        requires within { self.old.matched ≤ length (exchanges_of list.now) }
        ensures reply { IfOk result (λ r. Replied self.old.strayed (exchanges_of list.now) self.old.matched
            (ask_of ask.now) room r.follows r.matched (answer_of r.answer)) }
        ensures place { OnOk result (0 < self.new.told.places) }
        ensures matched { self.new.matched ≡ self.old.matched }
        ensures strayed { self.new.strayed ≡ self.old.strayed }
        ensures faults { self.new.faults ≡ self.old.faults }
        ensures told { self.new.told.told ≡ self.old.told.told }
        ensures due { self.new.told.due ≡ self.old.told.due }
    {
        self.told.reserve(1)?;
        reply_to(self.strayed, list, self.matched, ask, room)
    }

    /// Keeps an exchange, at the place that was made for it.
    pub(crate) fn keep(&mut self, ask: Ask, reply: Reply)
        requires { 0 < self.old.told.places }
        ensures counted { self.old.faults < 2 ^ 64 }
        ensures matched { self.new.matched ≡ reply.matched }
        ensures strayed { self.new.strayed ≡ not reply.follows }
        ensures faults { self.new.faults ≡ faults_after (answer_of reply.answer) self.old.faults }
        ensures told { self.new.told.told ≡ self.old.told.told ++ record {
          ask = ask_of ask;
          answer = answer_of reply.answer;
        } ∷ [] }
        ensures due { self.new.told.due ≡ self.old.told.due }
        ensures places { self.new.told.places + 1 ≡ self.old.told.places }
    {
        self.matched = reply.matched;
        self.strayed = !reply.follows;
        self.faults = faults_after(self.faults, &reply.answer);
        self.told.put(ask, reply.answer);
    }
}
