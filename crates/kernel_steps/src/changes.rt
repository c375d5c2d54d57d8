//! Changes of texts: the functions before a change, its commit, and the functions behind it.
ghost use Rattle.std.specs.Prelude.{◌≡◌, IfOk, map};
ghost use Rattle.editor_model.specs.Prims.{ChangesText, manner_of};
ghost use Rattle.plain_machine.specs.Items.{CommitChange, Hooks, MakeChange};
ghost use Rattle.ek_types.specs.Listing.{items_of};
ghost use Rattle.ek_types.specs.Property.{number_of};
ghost use Rattle.ek_call.specs.Meaning.{view};
ghost use Rattle.ek_call.specs.Primitives.{prim_of};
ghost use Rattle.prim_changes.specs.Meaning.{change_of};
ghost use Rattle.kernel_steps.specs.Handlers.{HooksAround, IsHook, kind_of};
ghost use Rattle.kernel_steps.specs.Told.{told_of};
ghost use Rattle.kernel_steps.specs.Work.{Answers, Does, lifted};
ghost use Rattle.kernel_steps.specs.Worlds.{Between, IsReady, MayEnter};

use crate::handlers::handle;
use crate::kernel::{Kernel, Kind};
use crate::program::Program;
use crate::reply::{refuse, tell};
use crate::stop::{Halt, Stop};
use ek_call::{Primitive, Reply, Value, Values};
use ek_types::{Mem, Sink, SymList};
use host_link::Host;
use prim_changes::{Change, Committed, Prepared};
use std::alloc::Global;

/// A call that changes a text.
#[cycle(run)]
pub(crate) fn change_text<M: Kernel, P: Program, H: Host, K: Sink>(
    kernel: &mut M,
    program: &P,
    host: &mut H,
    sink: &mut K,
    prim: Primitive,
    args: &Values,
) -> Result<Value, Halt>
    requires ready { IsReady (M.state kernel.old) (H.state host.old).kills }
    requires manner { manner_of (prim_of prim) ≡ ChangesText }
    ensures { Between M.state H.state H.made
        kernel.old kernel.new host.old host.new (K.state sink.old) (K.state sink.new)
        (Answers result view (P.meant program.now) (prim_of prim) (map view (items_of args.now))) }
{
    match kernel.prepare(prim, args)? {
        Prepared::Change(change) => {
            make_change(kernel, program, host, sink, &change)?;
            tell(kernel, program, sink, Reply::Value(change.reply))
        }
        Prepared::Quiet(change) => {
            kernel.commit_quiet(&change)?;
            tell(kernel, program, sink, Reply::Value(change.reply))
        }
        Prepared::Nothing(value) => tell(kernel, program, sink, Reply::Value(value)),
        Prepared::Fault(fault) => Err(refuse(kernel, program, sink, fault)),
    }
}

/// Makes a change that was prepared.
#[cycle(run)]
pub(crate) fn make_change<M: Kernel, P: Program, H: Host, K: Sink>(
    kernel: &mut M,
    program: &P,
    host: &mut H,
    sink: &mut K,
    change: &Change,
) -> Result<(), Halt>
    requires { IsReady (M.state kernel.old) (H.state host.old).kills }
    ensures { Between M.state H.state H.made
        kernel.old kernel.new host.old host.new (K.state sink.old) (K.state sink.new)
        (Does result (P.meant program.now) (MakeChange (change_of change.now))) }
{
    kernel.keep_ends(change)?;
    run_bracket(
        kernel,
        program,
        host,
        sink,
        Kind::Before(change.buffer),
        change,
        None,
    )?;
    commit_change(kernel, program, host, sink, change)
}

/// Commits a change at its kept ends, and enters the functions behind it.
#[cycle(run)]
fn commit_change<M: Kernel, P: Program, H: Host, K: Sink>(
    kernel: &mut M,
    program: &P,
    host: &mut H,
    sink: &mut K,
    change: &Change,
) -> Result<(), Halt>
    requires { IsReady (M.state kernel.old) (H.state host.old).kills }
    ensures { Between M.state H.state H.made
        kernel.old kernel.new host.old host.new (K.state sink.old) (K.state sink.new)
        (Does result (P.meant program.now) (CommitChange (change_of change.now))) }
{
    match kernel.commit(change)? {
        Committed::Fault(fault) => Err(refuse(kernel, program, sink, fault)),
        Committed::Done { from, to, old } => {
            run_bracket(
                kernel,
                program,
                host,
                sink,
                Kind::After(change.buffer),
                change,
                Some(Made { from, to, old }),
            )?;
            Ok(())
        }
    }
}

/// The ends of a change that was made, and the length before it.
#[derive(Clone, Copy)]
struct Made {
    from: usize,
    to: usize,
    old: usize,
}

/// What the hook functions of a change are told: its ends, or those behind it once it was made.
fn told<M: Kernel>(alloc: Global, change: &Change, made: Option<Made>) -> Mem<Values>
    ensures { IfOk result (λ args. map view (items_of args) ≡ told_of change.now made) }
{
    match made {
        None => M::ends(alloc, change),
        Some(made) => M::ends_behind(alloc, made.from, made.to, made.old),
    }
}

/// Enters the hook functions of a kind, unless hooks are inhibited. They are meanwhile. Where there is none, no list
/// is made of what they would be told.
#[cycle(run)]
#[inline(always)]
fn run_bracket<M: Kernel, P: Program, H: Host, K: Sink>(
    kernel: &mut M,
    program: &P,
    host: &mut H,
    sink: &mut K,
    kind: Kind,
    change: &Change,
    made: Option<Made>,
) -> Result<(), Stop>
    requires ready { IsReady (M.state kernel.old) (H.state host.old).kills }
    requires hook { IsHook (kind_of kind) }
    ensures { Between M.state H.state H.made
        kernel.old kernel.new host.old host.new (K.state sink.old) (K.state sink.new)
        (HooksAround (lifted result) (P.meant program.now) (kind_of kind) (told_of change.now made)) }
{
    if kernel.inhibited() {
        return Ok(());
    }
    let names = kernel.hooks(kind)?;
    if names.len() == 0 {
        return Ok(());
    }
    let args = told::<M>(kernel.allocator(), change, made)?;
    kernel.inhibit(true);
    run_hooks(kernel, program, host, sink, kind, &names, &args)?;
    kernel.inhibit(false);
    Ok(())
}

/// Enters hook functions one after another, up to the first that ends by a fault.
#[cycle(run)]
fn run_hooks<M: Kernel, P: Program, H: Host, K: Sink>(
    kernel: &mut M,
    program: &P,
    host: &mut H,
    sink: &mut K,
    kind: Kind,
    names: &SymList,
    args: &Values,
) -> Result<(), Stop>
    requires ready { IsReady (M.state kernel.old) (H.state host.old).kills }
    requires nesting { MayEnter (M.state kernel.old) }
    requires hook { IsHook (kind_of kind) }
    ensures { Between M.state H.state H.made
        kernel.old kernel.new host.old host.new (K.state sink.old) (K.state sink.new)
        (Does (lifted result) (P.meant program.now) (Hooks (kind_of kind) (map number_of
        (items_of names.now)) (map view (items_of args.now)))) }
{
    for i in 0..names.len() {
        if handle(kernel, program, host, sink, kind, Some(*names.at(i)), args)? {
            return Ok(());
        }
    }
    Ok(())
}
