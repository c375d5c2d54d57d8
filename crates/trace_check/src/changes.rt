//! Changes of texts, with the functions before and behind them.
ghost use Rattle.std.specs.Prelude.{◌≡◌, ◌<◌, ◌∷◌, List, drop, false, true, map, IfOk, OnOk};
ghost use Rattle.plain_machine.specs.Items.{Item as MachineItem, Calm, CommitChange, Hooks};
ghost use Rattle.plain_machine.specs.Items.{MakeChange};
ghost use Rattle.plain_machine.specs.State.{Program as Plain, State};
ghost use Rattle.ek_types.specs.Listing.{items_of};
ghost use Rattle.ek_types.specs.Property.{number_of};
ghost use Rattle.ek_call.specs.Meaning.{view};
ghost use Rattle.prim_changes.specs.Meaning.{change_of};
ghost use Rattle.kernel_steps.specs.Changes.{begun, ends_of};
ghost use Rattle.kernel_steps.specs.Handlers.{around, hook_names, kind_of};
ghost use Rattle.kernel_steps.specs.Work.{working};
ghost use Rattle.trace_check.specs.Meaning.{list_of, places_of};
ghost use Rattle.trace_check.specs.Steps.{Quietly};

use crate::item::Item;
use crate::work::Work;
use editor_prims::{Change, Committed};
use ek_call::Values;
use ek_types::{Copied, Mem, SymList};
use kernel_steps::{Kernel, Kind};

/// A change that was prepared: its ends are kept, and the functions before it come first.
pub(crate) fn make_change<M: Kernel>(kernel: &mut M, work: &mut Work, change: Change) -> Mem<()>
    requires { 0 < places_of work.old }
    ensures { (program : Plain) → OnOk result (Quietly program (M.state kernel.old) (M.state kernel.new)
        (MakeChange (change_of change) ∷ (list_of work.old)) (list_of work.new)) }
{
    let kind = Kind::Before(change.buffer);
    let ends = keep_ends(kernel, &change)?;
    work.put_back(Item::CommitChange(change));
    put_hooks(kernel, work, kind, ends)
}

/// Keeps the ends of a change, and gives them as its hook functions get them.
fn keep_ends<M: Kernel>(kernel: &mut M, change: &Change) -> Mem<Values>
    ensures state { OnOk result (M.state kernel.new ≡ begun (change_of change.now) (M.state kernel.old)) }
    ensures ends { IfOk result (λ ends. map view (items_of ends) ≡
        ends_of change.now.from change.now.to) }
{
    kernel.keep_ends(change)?;
    M::ends(kernel.allocator(), change)
}

/// Puts the functions of a kind in front, unless hooks are inhibited. They are meanwhile.
fn put_hooks<M: Kernel>(kernel: &mut M, work: &mut Work, kind: Kind, args: Values) -> Mem<()>
    ensures { OnOk result (working (M.state kernel.new) (list_of work.new) ≡
        around (kind_of kind) (map view (items_of args)) (M.state kernel.old) (list_of work.old)) }
{
    if kernel.inhibited() {
        return Ok(());
    }
    let names = begin_hooks(kernel, work, kind)?;
    work.put(Item::Hooks {
        kind,
        names,
        at: 0,
        args,
    })
}

/// Inhibits hooks, puts the end of that in front, and gives the functions of a kind.
fn begin_hooks<M: Kernel>(kernel: &mut M, work: &mut Work, kind: Kind) -> Mem<SymList>
    ensures names { IfOk result (λ names. map number_of (items_of names) ≡
        hook_names (kind_of kind) (M.state kernel.old)) }
    ensures state { OnOk result (M.state kernel.new ≡ record (M.state kernel.old) { inhibited = true }) }
    ensures work { OnOk result (list_of work.new ≡ Calm false ∷ (list_of work.old)) }
{
    let names = kernel.hooks(kind)?;
    work.put(Item::Calm { old: false })?;
    kernel.inhibit(true);
    Ok(names)
}

/// A change is committed at its kept ends, and the functions behind it come first.
pub(crate) fn commit_change<M: Kernel>(kernel: &mut M, work: &mut Work, change: &Change) -> Mem<()>
    ensures { (program : Plain) → OnOk result (Quietly program (M.state kernel.old) (M.state kernel.new)
        (CommitChange (change_of change.now) ∷ (list_of work.old)) (list_of work.new)) }
{
    match kernel.commit(change)? {
        Committed::Fault(fault) => work.put(Item::Refuse(fault)),
        Committed::Done { from, to, old } => {
            let ends = M::ends_behind(kernel.allocator(), from, to, old)?;
            put_hooks(kernel, work, Kind::After(change.buffer), ends)
        }
    }
}

/// The first function that is left of a hook is entered, and the others stand behind it.
pub(crate) fn enter_hooks(
    work: &mut Work,
    kind: Kind,
    names: SymList,
    at: usize,
    args: Values,
) -> Mem<()>
    requires { 0 < places_of work.old }
    ensures { (program : Plain) (s : State) → OnOk result (Quietly program s s
        (Hooks (kind_of kind) (drop at (map number_of (items_of names))) (map view (items_of args)) ∷
        (list_of work.old)) (list_of work.new)) }
{
    if at >= names.len() {
        return Ok(());
    }
    let name = *names.at(at);
    let copies = args.copy()?;
    work.put_back(Item::Hooks {
        kind,
        names,
        at: at + 1,
        args,
    });
    work.put(Item::Enter {
        kind,
        handler: Some(name),
        args: copies,
    })
}

/// Hooks are inhibited as before.
pub(crate) fn calm<M: Kernel>(kernel: &mut M, old: bool)
    ensures { (program : Plain) (rest : List MachineItem) → Quietly program (M.state kernel.old)
        (M.state kernel.new) (Calm old ∷ rest) rest }
{
    kernel.inhibit(old);
}
