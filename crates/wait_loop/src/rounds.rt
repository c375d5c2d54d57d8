//! A wait and its rounds.
use crate::aims::Aim;
use ek_types::Mem;
use process_table::Processes;
use std::alloc::Global;
use std::marker::Model;

/// What a wait does next.
#[derive(Clone, Copy, Debug, PartialEq, Eq)]
pub enum Step {
    /// The process of this number is to be asked: Read, or End where its output has ended.
    Ask(u32),
    /// The wait is over, and answers whether a read that counts gave bytes.
    Done(bool),
}

/// A wait for output (GNU Emacs Lisp Reference Manual, Accepting Output).
#[derive(Drop)]
pub struct Wait {
    aim: Aim,
    /// How many rounds may still begin.
    rounds: u32,
    /// The processes of this round, of which those from `at` on are still to be asked.
    asking: Vec<u32>,
    at: usize,
    /// Whether a read that counts gave bytes.
    heard: bool,
}

impl Model for Wait {
    ghost use Rattle.std.specs.Prelude.{◌≤◌, length, drop, vec_capacity};
    ghost use Rattle.wait_loop.specs.KeptWaits.{KeptWait};

    ghost Value = { KeptWait };

    ghost view = { λ w. record {
      waiting = record {
        target = w.aim.target;
        just = w.aim.just;
        rounds = w.rounds;
        asking = drop w.at w.asking.items;
        counted = w.heard;
      };
      room =
          vec_capacity w.asking;
    } };

    ghost invariant = { λ w. w.at ≤ length w.asking.items };
}

impl Wait {
    ghost use Rattle.std.specs.Prelude.{◌≡◌, ◌↔◌, ◌⊎◌, ◌<◌, ◌≤◌, [], true, false, length, IfOk};
    ghost use Rattle.std.specs.Prelude.{IfNone, MatchOption};
    ghost use Rattle.plain_machine.specs.State.{State};
    ghost use Rattle.plain_machine.specs.Waits.{is_eligible, eligible, from_eligible};
    ghost use Rattle.process_table.specs.Table.{StandsFor, with_table};
    ghost use Rattle.wait_loop.specs.KeptWaits.{new_waiting, noted};
    ghost use Rattle.wait_loop.specs.Rounds.{IfAsk, IfDone, GivesNil, Takes, BeginsRound, AsksNext};
    ghost use Rattle.wait_loop.specs.Rounds.{Leads};

    /// A wait for the process `target`, or for any, of at most so many rounds. It asks its target alone where it is for
    /// `just` this one. It has places for `room` processes.
    pub fn new(alloc: Global, target: Option<u32>, rounds: u32, just: bool, room: u32) -> Mem<Wait>
        ensures waiting { IfOk result (λ w. w.waiting ≡ new_waiting target rounds just) }
        ensures room { IfOk result (λ w. w.room ≡ room) }
    {
        Ok(Wait {
            aim: Aim { target, just },
            rounds,
            asking: Vec::with_capacity(alloc, room as usize)?,
            at: 0,
            heard: false,
        })
    }

    /// Process `p` was read, and answered bytes or not. Bytes count where they are of the target, or of any process
    /// where there is no target.
    pub fn note(&mut self, p: u32, bytes: bool)
        ensures waiting { self.new.waiting ≡ noted p bytes self.old.waiting }
        ensures room { self.new.room ≡ self.old.room }
    {
        if bytes && self.aim.counts(p) {
            self.heard = true;
        }
    }

    /// What the wait does next, by the first of these rules that fits. It is done with true where a read that counts
    /// gave bytes. It is done with false where the target isn't eligible. It asks the first eligible process of those
    /// left in this round. It is done with false where no process is eligible or no round is left. Else a round begins,
    /// and it asks the first of the eligible processes, which are the target and then the others by rising number. A
    /// wait that is done doesn't change.
    ///
    /// A process is eligible where the table has it, it runs and its filter isn't off; where the wait asks its target
    /// alone, only that one is. The table has no more processes than the wait has places for, and no memory is taken.
    pub fn next(&mut self, table: &Processes) -> Step
        requires { length table.now ≤ self.old.room }
        ensures heard { (result ≡ Step.Done true) ↔ (self.old.waiting.counted ≡ true) }
        ensures nil { (result ≡ Step.Done false) ↔ GivesNil (with_table table.now) self.old.waiting }
        ensures done { IfDone result (self.new ≡ self.old) }
        ensures asks { IfAsk result (λ p. AsksNext (with_table table.now) self.old.waiting p
            self.new.waiting) }
        ensures eligible { IfAsk result (λ p. is_eligible (with_table table.now) self.old.waiting
            p ≡ true) }
        ensures made { IfAsk result (λ p. p < length table.now) }
        ensures room { self.new.room ≡ self.old.room }
        ensures machine { (s : State) → StandsFor table.now s.processes →
            Leads s self.old.waiting result self.new.waiting }
    {
        if self.heard {
            return Step::Done(true);
        }
        if !self.aim.may_ask_target(table) {
            return Step::Done(false);
        }
        if let Some(p) = self.take(table) {
            return Step::Ask(p);
        }
        match self.begin(table) {
            Some(p) => Step::Ask(p),
            None => Step::Done(false),
        }
    }

    /// Takes the first eligible process of those left in this round; where there is none, nothing changes.
    fn take(&mut self, table: &Processes) -> Option<u32>
        ensures taken { MatchOption result (from_eligible (with_table table.now) self.old.waiting
            self.old.waiting.asking ≡ []) (λ p. Takes (with_table table.now) self.old.waiting p
            self.new.waiting) }
        ensures none { IfNone result (self.new ≡ self.old) }
        ensures room { self.new.room ≡ self.old.room }
    {
        let i = self.aim.first_in(table, &self.asking[self.at..])?;
        let p = self.asking[self.at + i];
        self.at += i + 1;
        Some(p)
    }

    /// Begins a round and takes the first process of it; where there is none or no round is left, nothing changes.
    fn begin(&mut self, table: &Processes) -> Option<u32>
        requires room { length table.now ≤ self.old.room }
        requires over { from_eligible (with_table table.now) self.old.waiting
            self.old.waiting.asking ≡ [] }
        ensures begun { MatchOption result ((eligible (with_table table.now) self.old.waiting ≡
            []) ⊎ (self.old.waiting.rounds ≡ 0))
            (λ p. BeginsRound (with_table table.now) self.old.waiting p self.new.waiting) }
        ensures none { IfNone result (self.new ≡ self.old) }
        ensures room { self.new.room ≡ self.old.room }
    {
        if self.rounds == 0 {
            return None;
        }
        let first = self.aim.first(table)?;
        self.aim.list_others(table, first, &mut self.asking);
        self.at = 0;
        self.rounds -= 1;
        Some(first)
    }
}
