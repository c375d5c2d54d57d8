//! Waits for output.
ghost use Rattle.std.specs.Prelude.{◌≡◌, [], false, true, map, IfOk, OnOk};
ghost use Rattle.editor_model.specs.Arguments.{arg};
ghost use Rattle.editor_model.specs.Values.{Nil};
ghost use Rattle.plain_machine.specs.Calls.{waiting};
ghost use Rattle.plain_machine.specs.Refusals.{rounds_of};
ghost use Rattle.plain_machine.specs.Waits.{eligible, from_eligible, target_is_eligible};
ghost use Rattle.ek_types.specs.Listing.{items_of};
ghost use Rattle.ek_call.specs.Meaning.{view};
ghost use Rattle.process_table.specs.Table.{with_table};
ghost use Rattle.wait_loop.specs.Aims.{waiting_for};
ghost use Rattle.wait_loop.specs.KeptWaits.{noted};
ghost use Rattle.kernel_steps.specs.Waits.{waiting_of};
ghost use Rattle.trace_check.specs.Waits.{ahead_of, in_next_round, without_first};

use editor_prims::{arg, nil};
use ek_call::{Value, Values};
use ek_types::Mem;
use ek_types::limits::MOST_ROUNDS;
use kernel_steps::Kernel;
use prim_arguments::kinds::flag;
use process_table::Processes;
use std::alloc::Global;
use std::marker::Model;
use wait_loop::Aim;

/// What a wait comes to next.
#[derive(Clone, Copy)]
pub(crate) enum Ahead {
    /// The process of this number is asked.
    Ask(u32),
    /// Another round begins.
    Round,
    /// The wait is over, and answers whether a read that counts gave bytes.
    Done(bool),
}

/// A wait for the output of a process or of any.
#[derive(Drop)]
pub struct Waiting {
    aim: Aim,
    rounds: u64,
    /// The processes of this round, of which those from `at` on are still to be asked.
    asking: Vec<u32>,
    at: usize,
    counted: bool,
}

impl Model for Waiting {
    ghost use Rattle.std.specs.Prelude.{◌≤◌, drop, length};
    ghost use Rattle.plain_machine.specs.Items.{Waiting as Meant};

    ghost Value = { Meant };

    ghost view = { λ w. record {
      target = w.aim.target;
      just = w.aim.just;
      rounds = w.rounds;
      asking = drop w.at w.asking.items;
      counted = w.counted;
    } };

    ghost invariant = { λ w. w.at ≤ length w.asking.items };
}

/// How many rounds a value gives: the most for nil, and 0 for a number below 0 and for what is no number.
fn rounds(v: &Value) -> u64
    ensures { result ≡ rounds_of (view v.now) }
{
    match v {
        Value::Nil => u64::from(MOST_ROUNDS),
        Value::Int(n) if *n < 0 => 0,
        Value::Int(n) => *n as u64,
        _ => 0,
    }
}

/// The process that a wait is for, by the first argument.
fn target<M: Kernel>(kernel: &M, args: &Values, v: &Value) -> Option<u32>
    requires { view v.now ≡ arg (map view (items_of args.now)) 0 }
    ensures { result ≡ (waiting (M.state kernel.now) (view v.now) Nil Nil).target }
{
    match v {
        Value::Nil => None,
        _ => Some(kernel.process_given(args)),
    }
}

/// The processes of a round, the target first.
fn list_round(alloc: Global, aim: Aim, table: &Processes) -> Mem<Vec<u32>>
    ensures { IfOk result (λ list. list.items ≡ eligible (with_table table.now) (waiting_for aim)) }
{
    let mut list = Vec::with_capacity(alloc, table.count() as usize)?;
    match aim.first(table) {
        None => Ok(list),
        Some(first) => {
            aim.list_others(table, first, &mut list);
            list.insert(0, first)?;
            Ok(list)
        }
    }
}

impl Waiting {
    /// The wait that a call asks for.
    pub(crate) fn new<M: Kernel>(kernel: &M, args: &Values) -> Waiting
        ensures { result ≡ waiting_of (M.state kernel.now) (map view (items_of args.now)) }
    {
        let nil = nil();
        let target = target(kernel, args, arg(args, 0, &nil));
        let just = target.is_some() && flag(arg(args, 2, &nil));
        Waiting {
            aim: Aim { target, just },
            rounds: rounds(arg(args, 1, &nil)),
            asking: Vec::new(kernel.allocator()),
            at: 0,
            counted: false,
        }
    }

    /// What the wait comes to next, by the first rule that fits.
    pub(crate) fn ahead(&self, table: &Processes) -> Ahead
        ensures { result ≡ ahead_of (with_table table.now) self.now }
    {
        if self.counted {
            return Ahead::Done(true);
        }
        if !self.aim.may_ask_target(table) {
            return Ahead::Done(false);
        }
        match self.aim.first_in(table, &self.asking[self.at..]) {
            Some(i) => Ahead::Ask(self.asking[self.at + i]),
            None => self.ahead_of_round(table),
        }
    }

    /// What comes behind a round of which nobody is left.
    fn ahead_of_round(&self, table: &Processes) -> Ahead
        requires quiet { self.now.counted ≡ false }
        requires fit { target_is_eligible (with_table table.now) self.now ≡ true }
        requires over { from_eligible (with_table table.now) self.now self.now.asking ≡ [] }
        ensures { result ≡ ahead_of (with_table table.now) self.now }
    {
        if self.rounds == 0 {
            return Ahead::Done(false);
        }
        match self.aim.first(table) {
            Some(_) => Ahead::Round,
            None => Ahead::Done(false),
        }
    }

    /// Passes the first process left in this round that may be asked, and all before it.
    pub(crate) fn pass_first(&mut self, table: &Processes)
        ensures { self.new ≡ without_first (with_table table.now) self.old }
    {
        match self.aim.first_in(table, &self.asking[self.at..]) {
            Some(i) => self.at += i + 1,
            None => self.at = self.asking.len(),
        }
    }

    /// Begins a round. A refusal leaves nothing that may go on.
    pub(crate) fn begin_round(&mut self, table: &Processes) -> Mem<()>
        ensures { OnOk result (self.new ≡ in_next_round (with_table table.now) self.old) }
    {
        let asking = list_round(*self.asking.allocator(), self.aim, table)?;
        self.asking = asking;
        self.at = 0;
        self.rounds = self.rounds.saturating_sub(1);
        Ok(())
    }

    /// A process was read, and answered bytes or not.
    pub(crate) fn note(&mut self, p: u32, bytes: bool)
        ensures { self.new ≡ noted p bytes self.old }
    {
        if bytes && self.aim.counts(p) {
            self.counted = true;
        }
    }
}
