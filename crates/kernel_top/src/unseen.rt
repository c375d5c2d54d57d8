//! The run of a script whose lines are thrown away.
ghost use Rattle.std.specs.Prelude.{◌≡◌, ◌^◌, ◌≤◌, List, length};
ghost use Rattle.plain_machine.specs.Exchanges.{Exchange};
ghost use Rattle.plain_machine.specs.State.{new_state};
ghost use Rattle.ek_call.specs.Meaning.{script_of};
ghost use Rattle.kernel_steps.specs.HostCalls.{CallsSince};
ghost use Rattle.kernel_run.specs.Meaning.{state_of};
ghost use Rattle.kernel_state.specs.Whole.{program_with};
ghost use Rattle.kernel_top.specs.Unseen.{RanUnseen, RanOn};

use ek_call::Script;
use ek_types::{Mem, NoMemory, NullSink};
use handler_code::Natives;
use host_link::Host;
use kernel_run::Kernel;
use std::alloc::Global;

/// Runs the script on a kernel that is new, and throws its lines away.
pub(crate) fn run_unseen_on<H: Host, N: Natives>(
    kernel: &mut Kernel,
    script: &Script,
    host: &mut H,
    natives: &N,
) -> Mem<()>
    requires new { state_of kernel.old ≡ new_state }
    requires few { length (H.state host.old).kills ≤ 2 ^ 31 }
    ensures { (exchanges : List Exchange) × CallsSince H.state H.made host.old host.new exchanges
        × RanOn result (program_with N.names N.does (script_of script.now) natives.now) (script_of script.now)
        exchanges (state_of kernel.new) }
{
    let mut unseen = NullSink::new();
    match kernel.run_script(script, natives, host, &mut unseen) {
        Ok(()) => Ok(()),
        // That sink never fails.
        Err(_) => Err(NoMemory),
    }
}

/// Runs the script on a kernel of its own, and throws its lines away.
pub(crate) fn run_unseen<H: Host, N: Natives>(
    alloc: Global,
    script: &Script,
    host: &mut H,
    natives: &N,
) -> Mem<()>
    requires { length (H.state host.old).kills ≤ 2 ^ 31 }
    ensures { (exchanges : List Exchange) × CallsSince H.state H.made host.old host.new exchanges
        × RanUnseen result (program_with N.names N.does (script_of script.now) natives.now) (script_of script.now)
        exchanges }
{
    let Ok(mut kernel) = Kernel::new(alloc) else {
        return Err(NoMemory);
    };
    let ran = run_unseen_on(&mut kernel, script, host, natives);
    kernel.close();
    ran
}
