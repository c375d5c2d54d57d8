//! The end of a run: the children that still run are killed.
ghost use Rattle.std.specs.Prelude.{◌≡◌, ◌+◌, ◌<◌, drop, length};
ghost use Rattle.plain_machine.specs.Arguments.{runs};
ghost use Rattle.kernel_steps.specs.Ending.{CameSoFar, ComesOn, IsAtEnd, IsOver};
ghost use Rattle.kernel_steps.specs.Worlds.{Hosted};

use crate::kernel::Kernel;
use crate::program::Program;
use crate::stop::Stop;
use ek_types::Sink;
use host_link::Host;
use process_table::{Process, Status};

/// Ends a run that came so far: kills each child that still runs, each once. Where nothing has
/// stopped the run, a line is written for each kill, and the dump behind them. A failed write stops
/// only the writing.
pub fn finish<M: Kernel, P: Program, H: Host, K: Sink>(
    so_far: Result<(), Stop>,
    kernel: &M,
    program: &P,
    host: &mut H,
    sink: &mut K,
) -> Result<(), Stop>
    requires { Hosted (M.state kernel.now).processes (H.state host.old).kills }
    ensures { ComesOn M.state H.state H.made kernel.now host.old host.new (K.state sink.old) (K.state sink.new)
        (CameSoFar so_far (P.meant program.now)) (IsOver result (P.meant program.now)) }
{
    let mut state = so_far;
    for p in 0..kernel.processes().count() {
        state = finish_one(state, kernel, program, host, sink, p);
    }
    state?;
    kernel.tell_dump(program.symbols(), sink)?;
    Ok(())
}

fn still_runs(process: &Process) -> bool
    ensures { result ≡ runs process.now.status }
{
    matches!(process.status(), Status::Run)
}

/// Deals with one process at the end of a run.
fn finish_one<M: Kernel, P: Program, H: Host, K: Sink>(
    so_far: Result<(), Stop>,
    kernel: &M,
    program: &P,
    host: &mut H,
    sink: &mut K,
    p: u32,
) -> Result<(), Stop>
    requires made { p < length (M.state kernel.now).processes }
    requires hosted { Hosted (drop p (M.state kernel.now).processes) (H.state host.old).kills }
    ensures deals { ComesOn M.state H.state H.made kernel.now host.old host.new (K.state sink.old)
        (K.state sink.new)
        (IsAtEnd so_far (P.meant program.now) p) (IsAtEnd result (P.meant program.now) (p + 1)) }
    ensures hosted { Hosted (drop (p + 1) (M.state kernel.now).processes) (H.state host.new).kills }
{
    let process = kernel.processes().get(p);
    if !still_runs(process) {
        return so_far;
    }
    host.kill(process.child());
    so_far?;
    kernel.tell_kill(program.symbols(), p, sink)?;
    Ok(())
}
