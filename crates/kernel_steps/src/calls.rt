//! Calls.
ghost use Rattle.std.specs.Prelude.{◌≡◌, map};
ghost use Rattle.editor_model.specs.Prims.{OnlyAsks, SetsState, manner_of};
ghost use Rattle.ek_types.specs.Listing.{items_of};
ghost use Rattle.ek_call.specs.Meaning.{view};
ghost use Rattle.ek_call.specs.Primitives.{prim_of};
ghost use Rattle.kernel_steps.specs.Work.{Answers};
ghost use Rattle.kernel_steps.specs.Worlds.{Aside, Between, IsReady};

use crate::changes::change_text;
use crate::kernel::{Kernel, Manner};
use crate::program::Program;
use crate::reply::tell;
use crate::stop::Halt;
use crate::waits::call_process;
use ek_call::{Primitive, Value, Values};
use ek_types::Sink;
use host_link::Host;

/// A call that only asks.
fn ask_editor<M: Kernel, P: Program, K: Sink>(
    kernel: &M,
    program: &P,
    sink: &mut K,
    prim: Primitive,
    args: &Values,
) -> Result<Value, Halt>
    requires { manner_of (prim_of prim) ≡ OnlyAsks }
    ensures { Aside (M.state kernel.now) (M.state kernel.now) (K.state sink.old) (K.state sink.new)
        (Answers result view (P.meant program.now) (prim_of prim) (map view (items_of args.now))) }
{
    let reply = kernel.query(prim, args)?;
    tell(kernel, program, sink, reply)
}

/// A call that sets state and is heard by no hook.
fn set_editor<M: Kernel, P: Program, K: Sink>(
    kernel: &mut M,
    program: &P,
    sink: &mut K,
    prim: Primitive,
    args: &Values,
) -> Result<Value, Halt>
    requires { manner_of (prim_of prim) ≡ SetsState }
    ensures { Aside (M.state kernel.old) (M.state kernel.new) (K.state sink.old) (K.state sink.new)
        (Answers result view (P.meant program.now) (prim_of prim) (map view (items_of args.now))) }
{
    let reply = kernel.apply(prim, args)?;
    tell(kernel, program, sink, reply)
}

/// Makes a call and writes the line of its reply.
#[cycle(run)]
#[inline(always)]
pub(crate) fn call<M: Kernel, P: Program, H: Host, K: Sink>(
    kernel: &mut M,
    program: &P,
    host: &mut H,
    sink: &mut K,
    prim: Primitive,
    args: &Values,
) -> Result<Value, Halt>
    requires { IsReady (M.state kernel.old) (H.state host.old).kills }
    ensures { Between M.state H.state H.made
        kernel.old kernel.new host.old host.new (K.state sink.old) (K.state sink.new)
        (Answers result view (P.meant program.now) (prim_of prim) (map view (items_of args.now))) }
{
    match M::manner(prim) {
        Manner::OnlyAsks => ask_editor(kernel, program, sink, prim, args),
        Manner::SetsState => set_editor(kernel, program, sink, prim, args),
        Manner::ChangesText => change_text(kernel, program, host, sink, prim, args),
        Manner::ConcernsHandlers => call_process(kernel, program, host, sink, prim, args),
    }
}
