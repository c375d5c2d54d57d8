//! The word `session`: a child is run and started again until it ends well, and what it wrote is written in lines.
ghost use Rattle.std.specs.Prelude.{◌≡◌, ◌^◌, ◌≤◌, length};
ghost use Rattle.plain_machine.specs.State.{new_state};
ghost use Rattle.ek_types.specs.Io.{HasCause};
ghost use Rattle.ek_call.specs.Meaning.{script_of};
ghost use Rattle.session_laws.specs.Standing.{session_name};
ghost use Rattle.kernel_run.specs.Meaning.{state_of};
ghost use Rattle.kernel_state.specs.Whole.{program_with};
ghost use Rattle.kernel_top.specs.Outcomes.{CameForAnySource, OnGathering, OnSession};

use crate::gathered::{buffer_name, write_gathered};
use crate::status::Status;
use crate::unseen::run_unseen_on;
use command_words::SessionWords;
use ek_call::Script;
use ek_types::{Chars, Sink};
use handler_code::Natives;
use host_link::Host;
use kernel_run::Kernel;
use line_session::LineSession;
use std::alloc::Global;

/// Runs the script on a kernel that is new, and writes what was gathered.
fn gather<K: Sink, H: Host, N: Natives>(
    kernel: &mut Kernel,
    script: &Script,
    name: &Chars,
    sink: &mut K,
    host: &mut H,
    natives: &N,
) -> Status
    requires new { state_of kernel.old ≡ new_state }
    requires few { length (H.state host.old).kills ≤ 2 ^ 31 }
    requires name { name.now.items ≡ session_name }
    ensures outcome { CameForAnySource H.state H.made host.old host.new (K.state sink.old) (K.state sink.new)
        (OnGathering (program_with N.names N.does (script_of script.now) natives.now) (script_of script.now)
        result) }
    ensures write_fault { HasCause (K.state sink.old).faults (K.state sink.new).faults
        (result ≡ Status.WriteFault) }
{
    match run_unseen_on(kernel, script, host, natives) {
        Ok(()) => write_gathered(kernel, name, sink),
        Err(_) => Status::NoMemory,
    }
}

/// Runs the script on a kernel of its own, and writes what was gathered. All memory is taken before that.
fn gather_alone<K: Sink, H: Host, N: Natives>(
    alloc: Global,
    script: &Script,
    sink: &mut K,
    host: &mut H,
    natives: &N,
) -> Status
    requires { length (H.state host.old).kills ≤ 2 ^ 31 }
    ensures outcome { CameForAnySource H.state H.made host.old host.new (K.state sink.old) (K.state sink.new)
        (OnGathering (program_with N.names N.does (script_of script.now) natives.now) (script_of script.now)
        result) }
    ensures write_fault { HasCause (K.state sink.old).faults (K.state sink.new).faults
        (result ≡ Status.WriteFault) }
{
    let Ok(name) = buffer_name(alloc) else {
        return Status::NoMemory;
    };
    let Ok(mut kernel) = Kernel::new(alloc) else {
        return Status::NoMemory;
    };
    let status = gather(&mut kernel, script, &name, sink, host, natives);
    kernel.close();
    status
}

/// Runs the program that is wanted, and restarts it as often as it may be while it ends otherwise than with code 0.
/// Then it writes what was gathered.
pub(crate) fn run_session<K: Sink, H: Host>(
    alloc: Global,
    wanted: &SessionWords<'_>,
    sink: &mut K,
    host: &mut H,
) -> Status
    requires { length (H.state host.old).kills ≤ 2 ^ 31 }
    ensures outcome { CameForAnySource H.state H.made host.old host.new (K.state sink.old) (K.state sink.new)
        (OnSession wanted.now result) }
    ensures write_fault { HasCause (K.state sink.old).faults (K.state sink.new).faults
        (result ≡ Status.WriteFault) }
{
    let Ok(session) = LineSession::new(alloc, wanted.limit, wanted.program, wanted.args) else {
        return Status::NoMemory;
    };
    let Ok(script) = session.script() else {
        return Status::NoMemory;
    };
    gather_alone(alloc, &script, sink, host, &session)
}
