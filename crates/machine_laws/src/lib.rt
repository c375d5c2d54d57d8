//! Laws of the plain editor machine, over all its runs: what a reader can believe of it without running it.
//!
//! Each law is the contract of a function with an empty body. It is stated in `specs/`, in the file of its subject, and
//! proved in `proofs/`. The laws are about the definitions alone, whatever the script, the natives and the nesting bound
//! are, and whatever the exchanges with the outside were. They are told in this order: there is one run, and it stops;
//! what children can do to it; what filters and sentinels are entered with; what undo gives back; what a refusal leaves.
#![tactic(auto)]

ghost use Rattle.std.specs.Prelude.{◌≡◌, List, ℕ, ◌+◌, ◌≤◌, [], length};
ghost use Rattle.text_model.specs.Properties.{Cell, part, splice};
ghost use Rattle.editor_model.specs.Editor.{empty_buffer};
ghost use Rattle.editor_model.specs.Values.{Script};
ghost use Rattle.plain_machine.specs.Items.{Config};
ghost use Rattle.plain_machine.specs.Run.{start};
ghost use Rattle.plain_machine.specs.State.{Program};
ghost use Rattle.machine_laws.specs.Brackets.{CallsBracket, HandlersBracket, TopIsClear};
ghost use Rattle.machine_laws.specs.Boundaries.{BoundaryKeeps, RecordingKeeps, ReplacingKeeps};
ghost use Rattle.machine_laws.specs.Boundaries.{ResettingKeeps, UndoingKeeps};
ghost use Rattle.machine_laws.specs.Children.{FewExchanges, FewInAll, KillsLeft, KillsOnce};
ghost use Rattle.machine_laws.specs.Editors.{EditorsAreSound};
ghost use Rattle.machine_laws.specs.Entries.{BrokenEntries, CodingsStay, EndsAfterOutput, Entries};
ghost use Rattle.machine_laws.specs.Entries.{EntriesOfChildren, RanEntries, Sentinels};
ghost use Rattle.machine_laws.specs.Entries.{SentinelsAfterOutput};
ghost use Rattle.machine_laws.specs.FaultLines.{OneFaultLine};
ghost use Rattle.machine_laws.specs.Good.{Good};
ghost use Rattle.machine_laws.specs.Names.{BufferNamesAreFirst, ProcessNamesAreFirst};
ghost use Rattle.machine_laws.specs.Nesting.{SameDeeper, Shallow};
ghost use Rattle.machine_laws.specs.OneRun.{ComputedRuns, OneEnd, OneRun, RunStops, RunsAreComputed};
ghost use Rattle.machine_laws.specs.Refusals.{RefusalsLeave};
ghost use Rattle.machine_laws.specs.RefusedCalls.{RefusedCallsLeave};
ghost use Rattle.machine_laws.specs.Rounds.{RoundsAsk};
ghost use Rattle.machine_laws.specs.UndoneRuns.{UndoReturns};

// ONE RUN

/// Of two runs over the same exchanges one goes on where the other stands; over more exchanges the longer one goes on.
#[tactic(auto, using(crate::proofs::OneRun::one_run))]
pub fn one_run_over_the_same_exchanges()
    ensures { (program : Program) (bound : ℕ) (from : Config) → OneRun program bound from }
{}

/// Two runs that have ended over the same exchanges wrote the same and came to the same state.
#[tactic(auto, using(crate::proofs::OneRun::one_end))]
pub fn one_end_over_the_same_exchanges()
    ensures { (program : Program) (bound : ℕ) (from : Config) → OneEnd program bound from }
{}

/// What the computing run gives is a run, over the exchanges that it used.
#[tactic(auto, using(crate::proofs::Computing::computed_runs))]
pub fn computed_runs_are_runs()
    ensures { (program : Program) (bound : ℕ) (from : Config) → ComputedRuns program bound from }
{}

/// A run that has ended is what the computing run gives, with enough steps.
#[tactic(auto, using(crate::proofs::Computing::runs_are_computed))]
pub fn runs_are_computed()
    ensures { (program : Program) (bound : ℕ) (from : Config) → RunsAreComputed program bound from }
{}

/// Over each list of exchanges the run ends, waits for one more or is off after finitely many steps, from any
/// configuration.
#[tactic(auto, using(crate::proofs::Stopping::run_stops))]
pub fn runs_stop()
    ensures { (program : Program) (bound : ℕ) (from : Config) → RunStops program bound from }
{}

// NESTING, CHILDREN

/// Handlers nest no deeper than one level more than the bound.
#[tactic(auto, using(crate::proofs::Depth::shallow))]
pub fn handlers_stay_shallow()
    ensures { (program : Program) (bound : ℕ) (script : Script) → Shallow program bound (start script) }
{}

/// A run in which nothing is refused for want of depth is the same under any larger bound.
#[tactic(auto, using(crate::proofs::Deeper::same_deeper))]
pub fn same_under_a_larger_bound()
    ensures { (program : Program) (bound deeper : ℕ) (from : Config) →
        SameDeeper program bound deeper from }
{}

/// Each round of a wait that begins asks a child, unless it is refused since no exchange may be made any more.
pub fn rounds_ask()
    ensures { (program : Program) (bound : ℕ) → RoundsAsk program bound }
{}

/// No more than 65,536 exchanges are made, but for kills.
#[tactic(auto, using(crate::proofs::Spent::few_exchanges))]
pub fn exchanges_stay_few()
    ensures { (program : Program) (bound : ℕ) (script : Script) →
        FewExchanges program bound (start script) }
{}

/// In all no more than 65,792 exchanges are made: the kills are no more than the processes that may be.
pub fn exchanges_stay_few_in_all()
    ensures { (program : Program) (bound : ℕ) (script : Script) →
        FewInAll program bound (start script) }
{}

/// A child that is asked to be killed was started, has not ended, and was not asked so before.
pub fn kills_come_once()
    ensures { (program : Program) (bound : ℕ) (script : Script) →
        KillsOnce program bound (start script) }
{}

/// The children that live by the exchanges are those of the processes that run, but for those killed at the end.
#[tactic(auto, using(crate::proofs::Alive::kills_left))]
pub fn kills_are_left()
    ensures { (program : Program) (bound : ℕ) (script : Script) →
        KillsLeft program bound (start script) }
{}

// WHAT IS HEARD OF A PROCESS

/// A process's coding changes only while nothing was read of it.
#[tactic(auto, using(crate::proofs::Coded::codings_stay))]
pub fn codings_stay()
    ensures { (program : Program) (bound : ℕ) (script : Script) →
        CodingsStay program bound (start script) }
{}

/// What the filters of a process were entered with is the decoding of what was read from it: nothing is lost, doubled or
/// out of order, whatever handlers do in between.
#[tactic(auto, using(crate::proofs::Heard::entries))]
pub fn filters_hear_what_was_read()
    ensures { (program : Program) (bound : ℕ) (script : Script) → Entries program bound (start script) }
{}

/// The same by the exchanges and the lines, process by process in the order of their starts.
#[tactic(auto, using(crate::proofs::Alive::entries_of_children))]
pub fn filters_hear_what_children_wrote()
    ensures { (program : Program) (bound : ℕ) (script : Script) →
        EntriesOfChildren program bound (start script) }
{}

/// The same of a whole run: of the entries whose lines it wrote.
pub fn whole_runs_hear_all()
    ensures { (program : Program) (bound : ℕ) (script : Script) → RanEntries program bound script }
{}

/// The same of a run that was broken off.
pub fn broken_runs_hear_all()
    ensures { (program : Program) (bound : ℕ) (script : Script) → BrokenEntries program bound script }
{}

/// The end of a child is asked after the end of its output.
#[tactic(auto, using(crate::proofs::Heard::ends_after_output))]
pub fn ends_are_asked_after_output()
    ensures { (program : Program) (bound : ℕ) (script : Script) →
        EndsAfterOutput program bound (start script) }
{}

/// Each process has at most one sentinel entry, and no filter entry after it.
pub fn sentinels_come_last()
    ensures { (program : Program) (bound : ℕ) (script : Script) →
        Sentinels program bound (start script) }
{}

/// A process whose sentinel was entered runs no more: its child was killed, or its output was read to its end.
pub fn sentinels_come_after_output()
    ensures { (program : Program) (bound : ℕ) (script : Script) →
        SentinelsAfterOutput program bound (start script) }
{}

// UNDO

/// An insertion taken out again leaves the text as it was.
#[tactic(auto, using(crate::proofs::Undoing::inserted_out))]
pub fn insertions_are_taken_out()
    ensures { (place : ℕ) (piece text : List Cell) → place ≤ length text →
        splice place (place + length piece) [] (splice place place piece text) ≡ text }
{}

/// A deletion put back again leaves the text as it was, with its properties.
#[tactic(auto, using(crate::proofs::Undoing::deleted_back))]
pub fn deletions_are_put_back()
    ensures { (from to : ℕ) (text : List Cell) → from ≤ to → to ≤ length text →
        splice from from (part from to text) (splice from to [] text) ≡ text }
{}

/// A new buffer is as the laws of one buffer want it.
#[tactic(auto, using(crate::proofs::Boundaries::new_buffer_is_good))]
pub fn new_buffers_are_good()
    ensures { Good empty_buffer }
{}

/// A piece put in, or a part taken out, keeps the text that undoing back to a boundary would give.
#[tactic(auto, using(crate::proofs::Boundaries::replacing_keeps))]
pub fn replacing_keeps_boundaries()
    ensures { ReplacingKeeps }
{}

/// So does a change of properties.
#[tactic(auto, using(crate::proofs::Boundaries::resetting_keeps))]
pub fn changing_properties_keeps_boundaries()
    ensures { ResettingKeeps }
{}

/// So does undoing itself.
#[tactic(auto, using(crate::proofs::Boundaries::undoing_keeps))]
pub fn undoing_keeps_boundaries()
    ensures { UndoingKeeps }
{}

/// So does a boundary that is pushed, and nothing is newer than that one.
pub fn nothing_is_newer_than_a_new_boundary()
    ensures { BoundaryKeeps }
{}

/// So do undoing begun anew, and recording switched off and on.
#[tactic(auto, using(crate::proofs::Boundaries::recording_keeps))]
pub fn recording_keeps_boundaries()
    ensures { RecordingKeeps }
{}

/// In every run of every script: undoing back to a boundary that is still kept gives the text of the moment at which
/// it was pushed, with its properties, by however many calls.
pub fn undo_returns()
    ensures { (program : Program) (bound : ℕ) (script : Script) →
        UndoReturns program bound (start script) }
{}

// BRACKETS

/// Whenever a run comes to the forms of the top level, the depth is 0, there are no scopes and no
/// kept places, hooks aren't inhibited, and what is read-only counts as that: no handler, no block
/// and no change has left anything over.
#[tactic(auto, using(crate::proofs::Bracketing::top_is_clear))]
pub fn nothing_is_left_at_the_top()
    ensures { (program : Program) (bound : ℕ) (script : Script) →
        TopIsClear program bound (start script) }
{}

/// Behind a call, answered or refused, whatever handlers ran in it: as many handlers run as before,
/// there are as many scopes, hooks are inhibited or not as before, so are the tests for what is
/// read-only lifted, and the same places are kept below. The buffer that was current is so again, unless it was
/// killed, or the call names one.
pub fn calls_bracket()
    ensures { (program : Program) (bound : ℕ) (script : Script) →
        CallsBracket program bound (start script) }
{}

/// The same behind a handler.
pub fn handlers_bracket()
    ensures { (program : Program) (bound : ℕ) (script : Script) →
        HandlersBracket program bound (start script) }
{}

// EDITORS

/// In each state of each run: point lies in its buffer's accessible portion; its bounds,
/// markers, overlays and kept places lie in their texts; a buffer's property sets are in order; its
/// undo records have falling serial numbers, and don't end in a boundary; names of live buffers
/// differ; the current buffer lives.
pub fn editors_stay_sound()
    ensures { (program : Program) (bound : ℕ) (script : Script) →
        EditorsAreSound program bound (start script) }
{}

// NAMES

/// The name that is made for a buffer is the name itself, if no live buffer has it, and else the one
/// with the least number from 2 on that none has.
#[tactic(auto, using(crate::proofs::FirstNames::buffer_names_are_first))]
pub fn buffer_names_are_first()
    ensures { BufferNamesAreFirst }
{}

/// The same of the name of a new process, by those that are listed, with numbers from 1 on.
#[tactic(auto, using(crate::proofs::FirstNames::process_names_are_first))]
pub fn process_names_are_first()
    ensures { ProcessNamesAreFirst }
{}

// REFUSALS

/// A call that is refused leaves the state as it was, but for what exchanges left and for what handlers did that ran
/// in it.
#[tactic(auto, using(crate::proofs::Refusing::refusals_leave))]
pub fn refusals_leave_the_state()
    ensures { (program : Program) (bound : ℕ) → RefusalsLeave program bound }
{}

/// The same of a whole refused call that a run comes to, with whatever handlers between: what is
/// left of it is what exchanges left, and what the handlers did that were entered in it. The lines
/// of these handlers are just the lines of the call before that of its refusal. The end of a handler
/// makes the buffer of its entry current again, if this lives, and empties the hook list of a
/// function that a fault ended.
pub fn refused_calls_leave_the_state()
    ensures { (program : Program) (bound : ℕ) (script : Script) →
        RefusedCallsLeave program bound (start script) }
{}

// SCRIPTS

/// Bytes have at most one fault line. (That no bytes are two scripts is a law of `script_read`.)
pub fn fault_lines_are_determined()
    ensures { OneFaultLine }
{}
