//! Calls on hooks and processes that enter no handler.
ghost use Rattle.std.specs.Prelude.{◌≡◌, ◌==◌, length, map};
ghost use Rattle.editor_model.specs.Prims.{ConcernsHandlers, manner_of};
ghost use Rattle.editor_model.specs.Values.{ProcessSendEof, ProcessSendString, StartProcess};
ghost use Rattle.ek_types.specs.Listing.{items_of};
ghost use Rattle.ek_call.specs.Meaning.{view};
ghost use Rattle.ek_call.specs.Primitives.{prim_of};
ghost use Rattle.kernel_steps.specs.Processes.{IsSilent};
ghost use Rattle.kernel_steps.specs.Waits.{Passes};
ghost use Rattle.kernel_steps.specs.Work.{Answers};
ghost use Rattle.kernel_steps.specs.Worlds.{Aside, Between, IsReady};

use crate::kernel::Kernel;
use crate::program::Program;
use crate::reply::{refuse, tell};
use crate::stop::Halt;
use ek_call::{Fault, Primitive, Reply, Value, Values};
use ek_types::Sink;
use host_link::{Host, SendAnswer, Spawned};

/// A call that enters no handler, and passed its tests.
pub(crate) fn call_other<M: Kernel, P: Program, H: Host, K: Sink>(
    kernel: &mut M,
    program: &P,
    host: &mut H,
    sink: &mut K,
    prim: Primitive,
    args: &Values,
) -> Result<Value, Halt>
    requires ready { IsReady (M.state kernel.old) (H.state host.old).kills }
    requires manner { manner_of (prim_of prim) ≡ ConcernsHandlers }
    requires passes { Passes (P.meant program.now) (M.state kernel.old) (prim_of prim)
        (map view (items_of args.now)) }
    requires other { (prim ≡ Primitive.AcceptProcessOutput → ⊥) × (prim ≡ Primitive.DeleteProcess → ⊥) ×
        (prim ≡ Primitive.KillBuffer → ⊥) }
    ensures { Between M.state H.state H.made
        kernel.old kernel.new host.old host.new (K.state sink.old) (K.state sink.new)
        (Answers result view (P.meant program.now) (prim_of prim) (map view (items_of args.now))) }
{
    match prim {
        Primitive::StartProcess => start_process(kernel, program, host, sink, args),
        Primitive::ProcessSendString => send_string(kernel, program, host, sink, args),
        Primitive::ProcessSendEof => send_eof(kernel, program, host, sink, args),
        _ => call_silent(kernel, program, sink, prim, args),
    }
}

/// A call that asks the host nothing.
fn call_silent<M: Kernel, P: Program, K: Sink>(
    kernel: &mut M,
    program: &P,
    sink: &mut K,
    prim: Primitive,
    args: &Values,
) -> Result<Value, Halt>
    requires silent { IsSilent (prim_of prim) }
    requires manner { manner_of (prim_of prim) ≡ ConcernsHandlers }
    requires passes { Passes (P.meant program.now) (M.state kernel.old) (prim_of prim)
        (map view (items_of args.now)) }
    ensures { Aside (M.state kernel.old) (M.state kernel.new) (K.state sink.old) (K.state sink.new)
        (Answers result view (P.meant program.now) (prim_of prim) (map view (items_of args.now))) }
{
    let value = kernel.call_silently(program, prim, args)?;
    tell(kernel, program, sink, Reply::Value(value))
}

/// Whether there are no bytes to be sent.
fn holds_nothing(bytes: &[u8]) -> bool
    ensures { result ≡ (length bytes.now == 0) }
{
    bytes.len() == 0
}

/// Sends a text to the child of a process, coded in UTF-8 with raw bytes as they are. An empty text
/// is no exchange.
fn send_string<M: Kernel, P: Program, H: Host, K: Sink>(
    kernel: &mut M,
    program: &P,
    host: &mut H,
    sink: &mut K,
    args: &Values,
) -> Result<Value, Halt>
    requires ready { IsReady (M.state kernel.old) (H.state host.old).kills }
    requires passes { Passes (P.meant program.now) (M.state kernel.old) ProcessSendString
        (map view (items_of args.now)) }
    ensures { Between M.state H.state H.made
        kernel.old kernel.new host.old host.new (K.state sink.old) (K.state sink.new)
        (Answers result view (P.meant program.now) ProcessSendString (map view (items_of args.now))) }
{
    let bytes = kernel.bytes_given(args)?;
    let text = bytes.as_slice();
    if holds_nothing(text) {
        return tell(kernel, program, sink, Reply::Value(Value::Nil));
    }
    let p = kernel.process_given(args);
    let child = kernel.processes().get(p).child();
    let answer = host.send(child, text)?;
    kernel.count_sent(text.len());
    match answer {
        SendAnswer::Sent => tell(kernel, program, sink, Reply::Value(Value::Nil)),
        SendAnswer::Broken => Err(refuse(kernel, program, sink, Fault::BrokenPipe)),
    }
}

/// Closes the input of a process, unless it was closed before.
fn send_eof<M: Kernel, P: Program, H: Host, K: Sink>(
    kernel: &mut M,
    program: &P,
    host: &mut H,
    sink: &mut K,
    args: &Values,
) -> Result<Value, Halt>
    requires ready { IsReady (M.state kernel.old) (H.state host.old).kills }
    requires passes { Passes (P.meant program.now) (M.state kernel.old) ProcessSendEof
        (map view (items_of args.now)) }
    ensures { Between M.state H.state H.made
        kernel.old kernel.new host.old host.new (K.state sink.old) (K.state sink.new)
        (Answers result view (P.meant program.now) ProcessSendEof (map view (items_of args.now))) }
{
    let p = kernel.process_given(args);
    let process = kernel.processes().get(p);
    if process.closed() {
        return tell(kernel, program, sink, Reply::Value(Value::Process(p)));
    }
    host.close(process.child())?;
    kernel.note_closed(p);
    tell(kernel, program, sink, Reply::Value(Value::Process(p)))
}

/// Starts a process. All memory that it needs is taken before its child is asked for.
fn start_process<M: Kernel, P: Program, H: Host, K: Sink>(
    kernel: &mut M,
    program: &P,
    host: &mut H,
    sink: &mut K,
    args: &Values,
) -> Result<Value, Halt>
    requires ready { IsReady (M.state kernel.old) (H.state host.old).kills }
    requires passes { Passes (P.meant program.now) (M.state kernel.old) StartProcess
        (map view (items_of args.now)) }
    ensures { Between M.state H.state H.made
        kernel.old kernel.new host.old host.new (K.state sink.old) (K.state sink.new)
        (Answers result view (P.meant program.now) StartProcess (map view (items_of args.now))) }
{
    let command = kernel.command(program, args)?;
    kernel.reserve_process(program, args)?;
    match host.spawn(command.program.as_str(), command.words.as_slice())? {
        Spawned::Started(child) => {
            let p = kernel.start(program, args, child);
            tell(kernel, program, sink, Reply::Value(Value::Process(p)))
        }
        Spawned::Refused => {
            kernel.count_asked();
            Err(refuse(kernel, program, sink, Fault::SpawnFailed))
        }
    }
}
