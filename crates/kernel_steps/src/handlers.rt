//! Handlers: how they are entered, run and left.
ghost use Rattle.std.specs.Prelude.{◌≡◌, [], map, None, option_map};
ghost use Rattle.plain_machine.specs.Items.{Native};
ghost use Rattle.ek_types.specs.Listing.{items_of};
ghost use Rattle.ek_types.specs.Property.{number_of};
ghost use Rattle.ek_call.specs.Meaning.{reply_of, view};
ghost use Rattle.handler_code.specs.Calls.{call_asked};
ghost use Rattle.kernel_steps.specs.Handlers.{Handles, RepliesTo, RunsCode, ended_by, kind_of};
ghost use Rattle.kernel_steps.specs.Handlers.{reply_by};
ghost use Rattle.kernel_steps.specs.Work.{Does, lifted};
ghost use Rattle.kernel_steps.specs.Worlds.{Between, IsReady, MayEnter};

use crate::calls::call;
use crate::changes::make_change;
use crate::forms::run_forms;
use crate::kernel::{Kernel, Kind};
use crate::program::Program;
use crate::reply::refuse;
use crate::stop::{Halt, Stop};
use ek_call::{Fault, Reply, Value, Values};
use ek_types::{ListOf, Sink, Sym};
use handler_code::{NativeCall, Next};
use host_link::Host;
use prim_changes::Prepared;

/// The most calls that a native makes.
const MOST_REPLIES: u32 = 256;

/// Enters a handler, runs it and leaves it. Says whether it ended by a fault, which ends the
/// handler alone.
#[cycle(run)]
pub(crate) fn handle<M: Kernel, P: Program, H: Host, K: Sink>(
    kernel: &mut M,
    program: &P,
    host: &mut H,
    sink: &mut K,
    kind: Kind,
    handler: Option<Sym>,
    args: &Values,
) -> Result<bool, Stop>
    requires ready { IsReady (M.state kernel.old) (H.state host.old).kills }
    requires nesting { MayEnter (M.state kernel.old) }
    ensures { Between M.state H.state H.made
        kernel.old kernel.new host.old host.new (K.state sink.old) (K.state sink.new)
        (Handles (lifted result) (P.meant program.now) (kind_of kind) (option_map number_of handler)
        (map view (items_of args.now))) }
{
    let current = kernel.current();
    kernel.tell_entry(program.symbols(), kind, handler, args, sink)?;
    kernel.enter(program.params(handler), args)?;
    let faulted = has_faulted(run_handler(kernel, program, host, sink, kind, handler, args))?;
    kernel.tell_exit(program.symbols(), handler, sink)?;
    kernel.leave(current);
    kernel.end_handler(kind, faulted);
    Ok(faulted)
}

/// Runs the code of a handler that was entered.
#[cycle(run)]
fn run_handler<M: Kernel, P: Program, H: Host, K: Sink>(
    kernel: &mut M,
    program: &P,
    host: &mut H,
    sink: &mut K,
    kind: Kind,
    handler: Option<Sym>,
    args: &Values,
) -> Result<(), Halt>
    requires { IsReady (M.state kernel.old) (H.state host.old).kills }
    ensures { Between M.state H.state H.made
        kernel.old kernel.new host.old host.new (K.state sink.old) (K.state sink.new)
        (RunsCode result (P.meant program.now) (kind_of kind) (option_map number_of handler)
        (map view (items_of args.now))) }
{
    match handler {
        None => run_default(kernel, program, host, sink, kind, args),
        Some(name) => match program.body(name) {
            Some(body) => run_forms(kernel, program, host, sink, body),
            None => run_native(kernel, program, host, sink, program.native(name), args),
        },
    }
}

/// Whether a handler or a form of the top level ended by a fault, which ends it alone. A stop goes on.
pub(crate) fn has_faulted(ran: Result<(), Halt>) -> Result<bool, Stop>
    ensures { result ≡ ended_by ran }
{
    match ran {
        Ok(()) => Ok(false),
        Err(Halt::Fault(_)) => Ok(true),
        Err(Halt::Stop(stop)) => Err(stop),
    }
}

/// Puts in the text of a default handler, whose buffer becomes current.
#[cycle(run)]
fn run_default<M: Kernel, P: Program, H: Host, K: Sink>(
    kernel: &mut M,
    program: &P,
    host: &mut H,
    sink: &mut K,
    kind: Kind,
    args: &Values,
) -> Result<(), Halt>
    requires { IsReady (M.state kernel.old) (H.state host.old).kills }
    ensures { Between M.state H.state H.made
        kernel.old kernel.new host.old host.new (K.state sink.old) (K.state sink.new)
        (RunsCode result (P.meant program.now) (kind_of kind) None (map view (items_of args.now))) }
{
    match kernel.prepare_default(kind, args)? {
        Prepared::Change(change) => make_change(kernel, program, host, sink, &change),
        Prepared::Fault(fault) => Err(refuse(kernel, program, sink, fault)),
        Prepared::Quiet(_) => Ok(()),
        Prepared::Nothing(_) => Ok(()),
    }
}

/// Runs a native: makes the calls that it asks for, until it is done or has had all its replies.
#[cycle(run)]
fn run_native<M: Kernel, P: Program, H: Host, K: Sink>(
    kernel: &mut M,
    program: &P,
    host: &mut H,
    sink: &mut K,
    native: u32,
    args: &Values,
) -> Result<(), Halt>
    requires { IsReady (M.state kernel.old) (H.state host.old).kills }
    ensures { Between M.state H.state H.made
        kernel.old kernel.new host.old host.new (K.state sink.old) (K.state sink.new)
        (Does result (P.meant program.now) (Native native (map view (items_of args.now)) [])) }
{
    let mut past = ListOf::new(kernel.allocator());
    for _i in 0..MOST_REPLIES {
        let Next::Call(asked) = program.next(native, args, &past)? else {
            return Ok(());
        };
        let reply = call_native(kernel, program, host, sink, asked)?;
        past.push(reply)?;
    }
    Ok(())
}

/// Makes a native's call, and gives its reply.
#[cycle(run)]
fn call_native<M: Kernel, P: Program, H: Host, K: Sink>(
    kernel: &mut M,
    program: &P,
    host: &mut H,
    sink: &mut K,
    asked: NativeCall,
) -> Result<Reply, Stop>
    requires { IsReady (M.state kernel.old) (H.state host.old).kills }
    ensures { Between M.state H.state H.made
        kernel.old kernel.new host.old host.new (K.state sink.old) (K.state sink.new)
        (RepliesTo (lifted result) reply_of (P.meant program.now) (call_asked asked)) }
{
    match kernel.allowed(program, asked)? {
        Some(made) => as_reply(call(kernel, program, host, sink, made.prim, &made.args)),
        None => as_reply(Err(refuse(kernel, program, sink, Fault::WrongType))),
    }
}

/// The reply that a call came to.
fn as_reply(answer: Result<Value, Halt>) -> Result<Reply, Stop>
    ensures { result ≡ reply_by answer }
{
    match answer {
        Ok(value) => Ok(Reply::Value(value)),
        Err(Halt::Fault(fault)) => Ok(Reply::Fault(fault)),
        Err(Halt::Stop(stop)) => Err(stop),
    }
}
