//! Whether claimed lines are those of a run on a journal.
ghost use Rattle.std.specs.Prelude.{◌≡◌, ◌-◌, ◌<◌, ◌^◌, [], IfOk, length};
ghost use Rattle.editor_model.specs.Values.{Script as Meant};
ghost use Rattle.ek_call.specs.Meaning.{script_of};
ghost use Rattle.kernel_state.specs.Whole.{program_with};
ghost use Rattle.plain_machine.specs.Run.{start};
ghost use Rattle.plain_machine.specs.State.{Program as Plain, new_state};
ghost use Rattle.host_link.specs.Meaning.{exchanges_of};
ghost use Rattle.trace_check.specs.Meaning.{list_of};
ghost use Rattle.trace_check.specs.Turns.{Seen};
ghost use Rattle.trace_check.specs.Verdicts.{HasCome, IsVerdict};

use crate::comparing::ComparingSink;
use crate::machine::Machine;
use crate::turn::{StepFault, Turn};
use crate::work::Work;
use ek_call::Script;
use ek_types::{Mem, NoMemory};
use handler_code::Natives;
use host_link::Exchanges;
use kernel_state::{KernelState, RunProgram};
use kernel_steps::{Program, Stepped};
use std::alloc::Global;

/// What a check comes to.
#[derive(Clone, Copy, Debug, PartialEq, Eq)]
pub enum Verdict {
    /// The claimed lines are those of the run.
    Yes,
    /// The run doesn't end with the whole journal used. The number is how many of its first exchanges the run goes
    /// through.
    Strayed(u32),
    /// The claimed lines differ from those of the run, first in this line, from 1.
    Differs(u32),
}

/// Runs a script on a journal, one step of the machine after another, and compares the lines and the dump with those
/// claimed, as they come. A run of 2^64 steps counts as want of memory.
pub fn check<N: Natives>(
    alloc: Global,
    script: &Script,
    natives: &N,
    journal: &Exchanges,
    claimed: &[u8],
) -> Mem<Verdict>
    requires few { length (exchanges_of journal.now) < 2 ^ 32 }
    requires short { length claimed.now < 2 ^ 32 - 1 }
    ensures { IfOk result (IsVerdict (program_with N.names N.does (script_of script.now) natives.now)
        (script_of script.now) (exchanges_of journal.now) claimed.now) }
{
    let program = RunProgram::new(alloc, script, natives)?;
    run(alloc, script, &program, journal, claimed)
}

/// Runs a script, of which a program was made, and compares.
fn run<P: Program>(
    alloc: Global,
    script: &Script,
    program: &P,
    journal: &Exchanges,
    claimed: &[u8],
) -> Mem<Verdict>
    requires few { length (exchanges_of journal.now) < 2 ^ 32 }
    requires short { length claimed.now < 2 ^ 32 - 1 }
    ensures { IfOk result (IsVerdict (P.meant program.now) (script_of script.now) (exchanges_of journal.now)
        claimed.now) }
{
    let work = Work::of_script(alloc, script)?;
    let kernel = KernelState::new(alloc)?;
    let mut machine = Machine::new(kernel, work);
    let verdict = compare(&mut machine, program, journal, claimed);
    machine.into_kernel().close();
    verdict
}

/// Makes the steps of a machine that is new, and compares.
fn compare<M: Stepped, P: Program>(
    machine: &mut Machine<M>,
    program: &P,
    journal: &Exchanges,
    claimed: &[u8],
) -> Mem<Verdict>
    requires new { M.state machine.old.kernel ≡ new_state }
    requires unused { machine.old.used ≡ 0 }
    requires few { length (exchanges_of journal.now) < 2 ^ 32 }
    requires short { length claimed.now < 2 ^ 32 - 1 }
    ensures { (script : Meant) → list_of machine.old.work ≡ (start script).work → IfOk result (IsVerdict
        (P.meant program.now) script (exchanges_of journal.now) claimed.now) }
{
    let mut sink = ComparingSink::new(claimed);
    'steps: for _ in 0..u64::MAX {
        match machine.step(program, journal, &mut sink) {
            Ok(Turn::Went) => {}
            Ok(Turn::Ended) => return Ok(judge(machine.used(), journal, &sink)),
            Ok(Turn::Waits) => return Ok(Verdict::Strayed(machine.used() as u32)),
            Ok(Turn::Off) => return Ok(Verdict::Strayed(machine.used() as u32)),
            Err(StepFault::Sink) | Err(StepFault::NoMemory) => return Err(NoMemory),
        }
    }
    Err(NoMemory)
}

/// The verdict on a run that has ended with so many exchanges used.
fn judge(used: usize, journal: &Exchanges, sink: &ComparingSink) -> Verdict
    requires few { length (exchanges_of journal.now) < 2 ^ 32 }
    ensures { (program : Plain) (script : Meant) (now : Seen) → now.used ≡ used → now.work ≡ [] →
        HasCome program (start script) (exchanges_of journal.now) now sink.now.given → IsVerdict program
        script (exchanges_of journal.now) sink.now.claimed result }
{
    if used < journal.len() {
        return Verdict::Strayed(used as u32);
    }
    match sink.difference() {
        None => Verdict::Yes,
        Some(line) => Verdict::Differs(line),
    }
}
