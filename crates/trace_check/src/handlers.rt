//! Handlers: how they are entered, go on and are left.
ghost use Rattle.std.specs.Prelude.{◌≡◌, ◌<◌, ◌∷◌, Err, map, option_map, OnOk};
ghost use Rattle.plain_machine.specs.Handling.{default_handler, native_call, without_hooks_item};
ghost use Rattle.plain_machine.specs.Items.{Enter, Exit, Native};
ghost use Rattle.ek_types.specs.Io.{HasCause};
ghost use Rattle.ek_types.specs.Listing.{items_of};
ghost use Rattle.ek_types.specs.Property.{number_of};
ghost use Rattle.ek_call.specs.Meaning.{reply_of, view};
ghost use Rattle.handler_code.specs.Calls.{call_asked};
ghost use Rattle.kernel_steps.specs.Handlers.{code_of, ended_work, kind_of, named_code};
ghost use Rattle.kernel_steps.specs.Work.{working};
ghost use Rattle.trace_check.specs.Meaning.{list_of, places_of};
ghost use Rattle.trace_check.specs.Steps.{Aloud, Quietly};

use crate::item::{Item, Target};
use crate::turn::StepFault;
use crate::work::Work;
use editor_prims::Prepared;
use ek_call::{Fault, Replies, Values};
use ek_types::{Copied, ListOf, Mem, Sink, Sym};
use handler_code::{NativeCall, Next};
use kernel_steps::{Kernel, Kind, Program};

/// The most replies that a native gets.
const MOST_REPLIES: usize = 256;

/// A handler is entered: its code is put in front of its end.
pub(crate) fn enter<M: Kernel, P: Program, K: Sink>(
    kernel: &mut M,
    program: &P,
    work: &mut Work,
    sink: &mut K,
    kind: Kind,
    handler: Option<Sym>,
    args: Values,
) -> Result<(), StepFault>
    requires { 0 < places_of work.old }
    ensures step { OnOk result (Aloud (P.meant program.now) (M.state kernel.old) (M.state kernel.new)
        (Enter (kind_of kind) (option_map number_of handler) (map view (items_of args)) ∷ (list_of work.old))
        (list_of work.new) (K.state sink.old) (K.state sink.new)) }
    ensures cause { HasCause (K.state sink.old).faults (K.state sink.new).faults (result ≡
        Err StepFault.Sink) }
{
    let current = kernel.current();
    kernel.tell_entry(program.symbols(), kind, handler, &args, sink)?;
    kernel.enter(program.params(handler), &args)?;
    work.put_back(Item::Exit {
        kind,
        handler,
        current,
        faulted: false,
    });
    put_code(kernel, program, work, kind, handler, args)?;
    Ok(())
}

/// Puts the code of a handler in front: a body of the script, a native, or the insertion of a default handler.
fn put_code<M: Kernel, P: Program>(
    kernel: &mut M,
    program: &P,
    work: &mut Work,
    kind: Kind,
    handler: Option<Sym>,
    args: Values,
) -> Mem<()>
    ensures { OnOk result (working (M.state kernel.new) (list_of work.new) ≡
        code_of (P.meant program.now) (kind_of kind) (option_map number_of handler)
        (map view (items_of args)) (M.state kernel.old) (list_of work.old)) }
{
    match handler {
        None => put_default(kernel, work, kind, &args),
        Some(name) => put_named(kernel, program, work, name, args),
    }
}

/// Puts a body of the script or a native in front.
fn put_named<M: Kernel, P: Program>(
    kernel: &M,
    program: &P,
    work: &mut Work,
    name: Sym,
    args: Values,
) -> Mem<()>
    ensures { OnOk result (working (M.state kernel.now) (list_of work.new) ≡
        named_code (P.meant program.now) name.0 (map view (items_of args)) (M.state kernel.now) (list_of work.old)) }
{
    match program.body(name) {
        Some(body) => {
            let copy = body.copy()?;
            work.put(Item::Body { forms: copy, at: 0 })
        }
        None => {
            let past = ListOf::new(kernel.allocator());
            work.put(Item::Native {
                native: program.native(name),
                args,
                past,
            })
        }
    }
}

/// Puts the insertion of a default handler in front, whose buffer becomes current.
fn put_default<M: Kernel>(kernel: &mut M, work: &mut Work, kind: Kind, args: &Values) -> Mem<()>
    ensures { OnOk result (working (M.state kernel.new) (list_of work.new) ≡
        default_handler (M.state kernel.old) (kind_of kind) (map view (items_of args.now)) (list_of work.old)) }
{
    match kernel.prepare_default(kind, args)? {
        Prepared::Change(change) => work.put(Item::MakeChange(change)),
        Prepared::Fault(fault) => work.put(Item::Refuse(fault)),
        Prepared::Quiet(_) => Ok(()),
        Prepared::Nothing(_) => Ok(()),
    }
}

/// A native goes on: the call that it asks for is made, until it is done or has had all its replies.
pub(crate) fn go_on<M: Kernel, P: Program>(
    kernel: &M,
    program: &P,
    work: &mut Work,
    native: u32,
    args: Values,
    past: Replies,
) -> Mem<()>
    requires { 0 < places_of work.old }
    ensures { OnOk result (Quietly (P.meant program.now) (M.state kernel.now) (M.state kernel.now)
        (Native native (map view (items_of args)) (map reply_of (items_of past)) ∷ (list_of work.old))
        (list_of work.new)) }
{
    if past.len() >= MOST_REPLIES {
        return Ok(());
    }
    match program.next(native, &args, &past)? {
        Next::Done => Ok(()),
        Next::Call(asked) => {
            work.put_back(Item::Called { native, args, past });
            put_call(kernel, program, work, asked)
        }
    }
}

/// Puts the call of a native in front, or its refusal where no script might make it.
fn put_call<M: Kernel, P: Program>(
    kernel: &M,
    program: &P,
    work: &mut Work,
    asked: NativeCall,
) -> Mem<()>
    ensures { OnOk result (list_of work.new ≡ native_call (P.meant program.now) (M.state kernel.now)
        (call_asked asked) ∷ (list_of work.old)) }
{
    match kernel.allowed(program, asked)? {
        Some(made) => work.put(Item::MakeCall {
            prim: made.prim,
            args: made.args,
            target: Target::Native,
        }),
        None => work.put(Item::Refuse(Fault::WrongType)),
    }
}

/// A handler is left. Where a fault ended a hook function, the others of its hook aren't entered.
pub(crate) fn exit<M: Kernel, P: Program, K: Sink>(
    kernel: &mut M,
    program: &P,
    work: &mut Work,
    sink: &mut K,
    kind: Kind,
    handler: Option<Sym>,
    current: u32,
    faulted: bool,
) -> Result<(), StepFault>
    ensures step { OnOk result (Aloud (P.meant program.now) (M.state kernel.old) (M.state kernel.new)
        (Exit (kind_of kind) (option_map number_of handler) current faulted ∷ (list_of work.old))
        (list_of work.new) (K.state sink.old) (K.state sink.new)) }
    ensures cause { HasCause (K.state sink.old).faults (K.state sink.new).faults (result ≡
        Err StepFault.Sink) }
{
    kernel.tell_exit(program.symbols(), handler, sink)?;
    kernel.leave(current);
    kernel.end_handler(kind, faulted);
    end_work(work, kind, faulted);
    Ok(())
}

/// Drops the hook functions that are left, where a fault ended one of them.
fn end_work(work: &mut Work, kind: Kind, faulted: bool)
    ensures { list_of work.new ≡ ended_work (kind_of kind) faulted (list_of work.old) }
{
    if !faulted {
        return;
    }
    match kind {
        Kind::Before(_) => drop_hooks(work),
        Kind::After(_) => drop_hooks(work),
        Kind::Filter(_) => {}
        Kind::Sentinel(_) => {}
    }
}

fn drop_hooks(work: &mut Work)
    ensures { list_of work.new ≡ without_hooks_item (list_of work.old) }
{
    match work.take() {
        None => {}
        Some(Item::Hooks { .. }) => {}
        Some(item) => work.put_back(item),
    }
}
