//! Asking the children of processes, and killing them.
ghost use Rattle.std.specs.Prelude.{◌≡◌, ◌<◌, true, List, IsSome, IfOk, OnOk, OnErr};
ghost use Rattle.plain_machine.specs.Items.{Item, Waiting};
ghost use Rattle.plain_machine.specs.Arguments.{is_running};
ghost use Rattle.ek_types.specs.Io.{SinkState};
ghost use Rattle.handler_run.specs.Entries.{entering as entering_one};
ghost use Rattle.kernel_steps.specs.Work.{Stays, lifted};
ghost use Rattle.kernel_steps.specs.Worlds.{Between, IsReady};
ghost use Rattle.kernel_steps.specs.Waits.{Hears, IsAsked, IsHeardIf, Kills, entering};
ghost use Rattle.kernel_state.specs.Meaning.{state_of};

use crate::kernel::KernelState;
use handler_run::Entry as Entered;
use host_link::Host;
use kernel_steps::{Entry, Heard, Kind, Program, Stop};
use process_table::Status;

/// What is entered at process `p`.
pub(crate) fn entry_of(p: u32, entered: Entered) -> Option<Entry>
    ensures heard { IsHeardIf result }
    ensures entering { (rest : List Item) → entering result rest ≡ entering_one p entered rest }
{
    match entered {
        Entered::Filter(handler, args) => Some(Entry {
            kind: Kind::Filter(p),
            handler,
            args,
        }),
        Entered::Sentinel(handler, args) => Some(Entry {
            kind: Kind::Sentinel(p),
            handler,
            args,
        }),
        Entered::None => None,
    }
}

/// Asks a process for its output, or for its end once that has ended. All memory is taken before it is asked: want of it
/// leaves all as it was, the host too.
pub(crate) fn hear<P: Program, H: Host>(
    kernel: &mut KernelState,
    program: &P,
    host: &mut H,
    p: u32,
) -> Result<Heard, Stop>
    requires ready { IsReady (state_of kernel.old) (H.state host.old).kills }
    requires asked { IsAsked (state_of kernel.old) p }
    ensures hears { (sink : SinkState) (v : Waiting) →
        Between state_of H.state H.made kernel.old kernel.new host.old host.new sink sink (Hears
        (lifted result) (P.meant program.now) p v) }
    ensures stays { (sink : SinkState) →
        Between state_of H.state H.made kernel.old kernel.new host.old host.new sink sink (Stays (lifted result)) }
    ensures heard { IfOk result (λ heard. IsHeardIf heard.entry) }
    ensures asked { OnOk result ((state_of kernel.old).asked < (state_of kernel.new).asked) }
    ensures err { OnErr result (state_of kernel.new ≡ state_of kernel.old) }
    ensures host { OnErr result (host.new ≡ host.old) }
{
    let heard = handler_run::hear(kernel.alloc, &mut kernel.processes, host, p)?;
    kernel.asked += 1;
    Ok(Heard {
        bytes: heard.bytes,
        entry: entry_of(p, heard.entry),
    })
}

/// Whether a process was made and runs.
pub(crate) fn is_running(kernel: &KernelState, p: u32) -> bool
    ensures { result ≡ is_running (state_of kernel.now) p }
{
    p < kernel.processes.count() && matches!(kernel.processes.get(p).status(), Status::Run)
}

/// Kills a process that runs, and says what is to be entered then. All memory is taken before it is killed: want of it
/// leaves all as it was, the host too. Where the process doesn't run, nothing is asked, and `None` is answered.
pub(crate) fn kill<P: Program, H: Host>(
    kernel: &mut KernelState,
    program: &P,
    host: &mut H,
    p: u32,
) -> Result<Option<Entry>, Stop>
    requires { IsReady (state_of kernel.old) (H.state host.old).kills }
    ensures kills { (sink : SinkState) →
        Between state_of H.state H.made kernel.old kernel.new host.old host.new sink sink (Kills
        (lifted result) (P.meant program.now) p) }
    ensures heard { IfOk result IsHeardIf }
    ensures running { IfOk result (λ entry. IsSome entry → is_running (state_of kernel.old) p ≡ true) }
    ensures err { OnErr result (state_of kernel.new ≡ state_of kernel.old) }
    ensures host { OnErr result (host.new ≡ host.old) }
{
    if !is_running(kernel, p) {
        return Ok(None);
    }
    let entered = handler_run::kill(kernel.alloc, &mut kernel.processes, host, p)?;
    Ok(entry_of(p, entered))
}
