//! Laws of what runs ask, and of their sessions.
#![tactic(auto)]

ghost use Rattle.std.specs.Prelude.{ℕ};
ghost use Rattle.editor_model.specs.Values.{Script};
ghost use Rattle.plain_machine.specs.State.{Program};
ghost use Rattle.journal_laws.specs.Spoken.{AsksAreSpoken};
ghost use Rattle.journal_laws.specs.Replaying.{OneSession, OneReplay};

/// Each program that a run starts has a name, none of its words has the byte 0, and what is sent isn't empty.
#[tactic(auto, using(crate::proofs::Spoken::asks_are_spoken))]
pub fn what_a_run_asks_can_be_written()
    ensures { (program : Program) (bound : ℕ) (script : Script) → AsksAreSpoken program bound script }
{}

/// A session has one journal, and one rest behind it.
#[tactic(auto, using(crate::proofs::Replaying::one_session))]
pub fn a_session_is_read_in_one_way()
    ensures { OneSession }
{}

/// What is written of a run over the journal of a session is what was written of the recorded run.
pub fn a_session_has_one_replay()
    ensures { (program : Script → Program) (bound : ℕ) → OneReplay program bound }
{}
