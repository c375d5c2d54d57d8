//! Changes of texts: their ends are kept while hook functions run, and they are made there.
ghost use Rattle.std.specs.Prelude.{◌≡◌, ◌↔◌, map, IfOk, OnOk, OnErr, IsTrue};
ghost use Rattle.text_model.specs.Marks.{Pending};
ghost use Rattle.editor_model.specs.Values.{at_place};
ghost use Rattle.plain_machine.specs.Forms.{at_kept, popped, saved_of};
ghost use Rattle.ek_types.specs.Listing.{items_of};
ghost use Rattle.ek_call.specs.Meaning.{view};
ghost use Rattle.buffer_table.specs.Kept.{editor_of};
ghost use Rattle.buffer_table.specs.Places.{IsKeptPlace};
ghost use Rattle.prim_changes.specs.Meaning.{IsFailed, change_of, committed_of};
ghost use Rattle.kernel_steps.specs.Changes.{begun, behind_commit, done_at, ends_behind, ends_of};
ghost use Rattle.kernel_state.specs.Meaning.{state_of};

use crate::kernel::KernelState;
use editor_prims::{Change, Committed, commit_at};
use ek_call::{Value, Values};
use ek_types::{ListOf, Mem, NoMemory};
use narrow_region::Saved;
use prim_arguments::values;
use std::alloc::Global;

/// Whether the ends of a change lie in the text of a live buffer, in their order.
fn fits(kernel: &KernelState, change: &Change) -> bool
    ensures { IsTrue result ↔ IsKeptPlace (editor_of kernel.now.editor)
        (Pending change.now.buffer change.now.from change.now.to) }
{
    kernel.editor.is_live(change.buffer)
        && change.from <= change.to
        && change.to <= kernel.editor.size(change.buffer)
}

/// Keeps the ends of a change, which move with the text. A refusal leaves all as it was; it is answered, too, where
/// the ends don't lie in the text: no call prepares such a change.
pub(crate) fn keep_ends(kernel: &mut KernelState, change: &Change) -> Mem<()>
    ensures ok { OnOk result (state_of kernel.new ≡
        begun (change_of change.now) (state_of kernel.old)) }
    ensures err { OnErr result (state_of kernel.new ≡ state_of kernel.old) }
{
    if !fits(kernel, change) {
        return Err(NoMemory);
    }
    kernel
        .editor
        .push_saved(Saved::Change(change.buffer, change.from, change.to))
}

/// The ends of a change as they were kept, or its own where none are.
fn kept_ends(kernel: &KernelState, change: &Change) -> (usize, usize)
    ensures { record (change_of change.now) { from = result.0; to = result.1 } ≡
        at_kept (change_of change.now) (saved_of (state_of kernel.now)) }
{
    match kernel.editor.last_saved() {
        Some(Saved::Change(_, from, to)) => (from, to),
        _ => (change.from, change.to),
    }
}

/// Makes a change where its ends were kept, and leaves them kept. A refusal leaves all as it was.
fn commit_there(kernel: &mut KernelState, change: &Change) -> Mem<Committed>
    ensures ok { IfOk result (λ d. record { editor = (state_of kernel.new).editor; committed = committed_of d } ≡
        done_at (change_of change.now) (state_of kernel.old)) }
    ensures rest { OnOk result (state_of kernel.new ≡
        record (state_of kernel.old) { editor = (state_of kernel.new).editor }) }
    ensures refused { IfOk result (λ d. IsFailed (committed_of d) →
        state_of kernel.new ≡ state_of kernel.old) }
    ensures err { OnErr result (state_of kernel.new ≡ state_of kernel.old) }
{
    let (from, to) = kept_ends(kernel, change);
    commit_at(&mut kernel.editor, change, from, to)
}

/// Keeps the last kept place no longer.
pub(crate) fn drop_kept(kernel: &mut KernelState)
    ensures { state_of kernel.new ≡ popped (state_of kernel.old) }
{
    let _kept = kernel.editor.pop_saved();
}

/// Makes a change at its kept ends, which are kept no longer. A refusal leaves all as it was.
pub(crate) fn commit(kernel: &mut KernelState, change: &Change) -> Mem<Committed>
    ensures done { IfOk result (λ d. committed_of d ≡
        (done_at (change_of change.now) (state_of kernel.old)).committed) }
    ensures ok { IfOk result (λ d. state_of kernel.new ≡
        behind_commit (change_of change.now) (committed_of d) (state_of kernel.old)) }
    ensures err { OnErr result (state_of kernel.new ≡ state_of kernel.old) }
{
    let committed = commit_there(kernel, change)?;
    drop_kept(kernel);
    Ok(committed)
}

/// A place as the position that a hook function gets. One that no value can hold counts as want of memory.
fn position(place: usize) -> Mem<Value>
    ensures { IfOk result (λ v. view v ≡ at_place place) }
{
    values::at_place(place)
}

/// The ends of a change, as its hook functions get them.
pub(crate) fn ends(alloc: Global, change: &Change) -> Mem<Values>
    ensures { IfOk result (λ args. map view (items_of args) ≡ ends_of change.now.from change.now.to) }
{
    let mut args = ListOf::with_room(alloc, 2)?;
    args.push(position(change.from)?)?;
    args.push(position(change.to)?)?;
    Ok(args)
}

/// The ends behind a change, and the length before it, as its hook functions get them.
pub(crate) fn ends_behind(alloc: Global, from: usize, to: usize, old: usize) -> Mem<Values>
    ensures { IfOk result (λ args. map view (items_of args) ≡ ends_behind from to old) }
{
    let mut args = ListOf::with_room(alloc, 3)?;
    args.push(position(from)?)?;
    args.push(position(to)?)?;
    args.push(values::count(old)?)?;
    Ok(args)
}
