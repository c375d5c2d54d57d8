//! The run of a script on a kernel.
ghost use Rattle.std.specs.Prelude.{◌≡◌, ◌^◌, ◌≤◌, ℕ, List, length, Err};
ghost use Rattle.std.specs.Io.KnownBytes.{Appends};
ghost use Rattle.plain_machine.specs.Exchanges.{Exchange};
ghost use Rattle.plain_machine.specs.State.{new_state};
ghost use Rattle.ek_types.specs.Io.{HasCause};
ghost use Rattle.ek_call.specs.Meaning.{script_of};
ghost use Rattle.kernel_steps.specs.HostCalls.{CallsSince};
ghost use Rattle.kernel_steps.specs.Outcomes.{EndsAs};
ghost use Rattle.kernel_run.specs.Meaning.{state_of};
ghost use Rattle.kernel_state.specs.Whole.{program_with};

use crate::kernel::Kernel;
use ek_call::Script;
use ek_types::Sink;
use handler_code::Natives;
use host_link::Host;
use kernel_state::RunProgram;
use kernel_steps::{Stop, run_script};

impl Kernel {
    /// Runs the forms of a script on a kernel that is new, kills the children that still run, and writes the lines
    /// and the dump. The natives are handlers under their names, where the script has none of that name.
    ///
    /// Where it succeeds the lines are those of the plain machine's whole run, and the kernel stands for its last
    /// state. A run that was broken off says how far the machine came; each child that lived then was asked to be
    /// killed, once. Filters are entered with just what was read. Sentinels come last, and behind the end of the
    /// output, unless the child was killed. Undoing back to a kept boundary gives its text back. The exchanges are
    /// the calls on the host.
    pub fn run_script<K: Sink, H: Host, N: Natives>(
        &mut self,
        script: &Script,
        natives: &N,
        host: &mut H,
        sink: &mut K,
    ) -> Result<(), Stop>
        requires new { state_of self.old ≡ new_state }
        requires few { length (H.state host.old).kills ≤ 2 ^ 31 }
        ensures outcome { (written : List ℕ) × (exchanges : List Exchange) ×
            Appends (K.state sink.old).held (K.state sink.new).held written
            × CallsSince H.state H.made host.old host.new exchanges
            × EndsAs result (program_with N.names N.does (script_of script.now) natives.now) (script_of script.now)
            exchanges written (K.state sink.old) (K.state sink.new) (state_of self.new) }
        ensures cause { HasCause (K.state sink.old).faults (K.state sink.new).faults (result ≡
            Err Stop.WriteFault) }
    {
        match RunProgram::new(self.state.alloc(), script, natives) {
            Ok(program) => run_script(&mut self.state, &program, script, host, sink),
            Err(_) => {
                // Laws of all runs of the machine, by which the contract speaks of sentinels and undoing. They do
                // nothing.
                machine_laws::sentinels_come_after_output();
                machine_laws::undo_returns();
                Err(Stop::NoMemory)
            }
        }
    }
}
