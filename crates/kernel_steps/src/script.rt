//! The run of a whole script.
ghost use Rattle.std.specs.Prelude.{◌≡◌, ◌^◌, ◌≤◌, ℕ, List, length, Err};
ghost use Rattle.std.specs.Io.KnownBytes.{Appends};
ghost use Rattle.plain_machine.specs.Exchanges.{Exchange};
ghost use Rattle.plain_machine.specs.State.{new_state};
ghost use Rattle.ek_types.specs.Io.{HasCause};
ghost use Rattle.ek_call.specs.Meaning.{script_of};
ghost use Rattle.kernel_steps.specs.HostCalls.{CallsSince};
ghost use Rattle.kernel_steps.specs.Outcomes.{EndsAs};

use crate::ending::finish;
use crate::forms::run_top;
use crate::kernel::Kernel;
use crate::program::Program;
use crate::stop::Stop;
use ek_call::Script;
use ek_types::Sink;
use host_link::Host;

/// Runs the forms of a script on a kernel that is new, kills the children that still run, and
/// writes the lines and the dump.
///
/// Where it succeeds the lines are those of the plain machine's whole run. A run that was broken
/// off says how far the machine came; each child that lived then was asked to be killed, once.
/// Filters are entered with just what was read. Sentinels come last, and behind the end of the
/// output, unless the child was killed. Undoing back to a kept boundary gives its text back. The
/// exchanges are the calls on the host.
pub fn run_script<M: Kernel, P: Program, H: Host, K: Sink>(
    kernel: &mut M,
    program: &P,
    script: &Script,
    host: &mut H,
    sink: &mut K,
) -> Result<(), Stop>
    requires new { M.state kernel.old ≡ new_state }
    requires few { length (H.state host.old).kills ≤ 2 ^ 31 }
    ensures outcome { (written : List ℕ) × (exchanges : List Exchange) ×
        Appends (K.state sink.old).held (K.state sink.new).held written
        × CallsSince H.state H.made host.old host.new exchanges
        × EndsAs result (P.meant program.now) (script_of script.now) exchanges written
        (K.state sink.old) (K.state sink.new) (M.state kernel.new) }
    ensures cause { HasCause (K.state sink.old).faults (K.state sink.new).faults (result ≡
        Err Stop.WriteFault) }
{
    // Laws of all runs of the machine, by which the contract speaks of entries, sentinels, kills and undoing. They do
    // nothing.
    machine_laws::kills_are_left();
    machine_laws::whole_runs_hear_all();
    machine_laws::broken_runs_hear_all();
    machine_laws::sentinels_come_last();
    machine_laws::ends_are_asked_after_output();
    machine_laws::sentinels_come_after_output();
    machine_laws::undo_returns();
    let ran = run_top(kernel, program, host, sink, &script.forms);
    finish(ran, kernel, program, host, sink)
}
