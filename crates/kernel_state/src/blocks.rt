//! Blocks that save and restore (GNU Emacs Lisp Reference Manual, Excursions and Narrowing).
ghost use Rattle.std.specs.Prelude.{◌≡◌, ◌==◌, ◌&&◌, ◌≤◌, IfOk, OnOk, OnErr, None, Some, if◌then◌else◌};
ghost use Rattle.text_model.specs.Marks as marks;
ghost use Rattle.plain_machine.specs.Forms.{current, if_live, kept_of, opened, pop, put_back, restored};
ghost use Rattle.buffer_table.specs.Kept.{editor_of};
ghost use Rattle.buffer_table.specs.Places.{IsKeptIn};
ghost use Rattle.narrow_region.specs.Kept.{IsOrdered, kept_of as saved_as};
ghost use Rattle.kernel_steps.specs.Blocks.{block_of, kept_as};
ghost use Rattle.kernel_state.specs.Meaning.{state_of};

use crate::kernel::KernelState;
use ek_types::Mem;
use kernel_steps::{Block, Kept};
use narrow_region::{Bounds, Saved};

/// The ends of an accessible portion, or none where the whole text is accessible.
fn ends(bounds: Bounds, size: usize) -> Option<(usize, usize)>
    ensures { result ≡
        (if (bounds.start == 0) && (bounds.end == size) then None else Some (bounds.start, bounds.end)) }
{
    if bounds.start == 0 && bounds.end == size {
        return None;
    }
    Some((bounds.start, bounds.end))
}

/// Keeps the current buffer and point in it. A refusal leaves all as it was.
fn keep_excursion(kernel: &mut KernelState) -> Mem<()>
    ensures ok { OnOk result (state_of kernel.new ≡
        opened (block_of Block.Excursion) (state_of kernel.old)) }
    ensures err { OnErr result (state_of kernel.new ≡ state_of kernel.old) }
{
    let buffer = kernel.editor.current();
    let point = kernel.editor.bounds(buffer).point;
    kernel.editor.push_saved(Saved::Excursion(buffer, point))
}

/// Keeps the current buffer and its accessible portion. A refusal leaves all as it was.
fn keep_restriction(kernel: &mut KernelState) -> Mem<()>
    ensures ok { OnOk result (state_of kernel.new ≡
        opened (block_of Block.Restriction) (state_of kernel.old)) }
    ensures err { OnErr result (state_of kernel.new ≡ state_of kernel.old) }
{
    let buffer = kernel.editor.current();
    let kept = ends(kernel.editor.bounds(buffer), kernel.editor.size(buffer));
    kernel.editor.push_saved(Saved::Restriction(buffer, kept))
}

/// Begins a block, and says what is to be restored behind it. A refusal leaves all as it was.
pub(crate) fn open(kernel: &mut KernelState, block: Block) -> Mem<Kept>
    ensures kept { IfOk result (λ kept. kept_as kept ≡ kept_of (block_of block) (state_of kernel.old)) }
    ensures ok { OnOk result (state_of kernel.new ≡ opened (block_of block) (state_of kernel.old)) }
    ensures err { OnErr result (state_of kernel.new ≡ state_of kernel.old) }
{
    match block {
        Block::Excursion => {
            keep_excursion(kernel)?;
            Ok(Kept::Excursion)
        }
        Block::Restriction => {
            keep_restriction(kernel)?;
            Ok(Kept::Restriction)
        }
        Block::CurrentBuffer => Ok(Kept::Buffer(kernel.editor.current())),
        Block::NoHooks => Ok(Kept::Hooks(kernel.hooks.inhibit(true))),
        Block::ReadOnlyOff => Ok(Kept::Lifting(kernel.editor.lift_tests(true))),
    }
}

/// Makes a buffer current, if it lives.
pub(crate) fn make_current(kernel: &mut KernelState, buffer: u32)
    ensures { state_of kernel.new ≡ if_live (state_of kernel.old) buffer
        (current buffer (state_of kernel.old)) }
{
    if kernel.editor.is_live(buffer) {
        kernel.editor.set_current(buffer);
    }
}

/// Puts point back in a buffer that lives, and makes it current.
fn put_point(kernel: &mut KernelState, buffer: u32, point: usize)
    ensures { state_of kernel.new ≡ put_back (marks.Excursion buffer point) (state_of kernel.old) }
{
    if kernel.editor.is_live(buffer) {
        kernel.editor.set_current(buffer);
        kernel.editor.goto_place(buffer, point);
    }
}

/// Makes the whole text of a buffer accessible that lives.
fn put_whole(kernel: &mut KernelState, buffer: u32)
    ensures { state_of kernel.new ≡ put_back (marks.Restriction buffer None) (state_of kernel.old) }
{
    if kernel.editor.is_live(buffer) {
        kernel.editor.widen(buffer);
    }
}

/// Makes a part of the text of a buffer accessible that lives.
fn put_portion(kernel: &mut KernelState, buffer: u32, start: usize, end: usize)
    requires place { IsKeptIn (editor_of kernel.old.editor)
        (marks.Restriction buffer (Some (start, end))) }
    requires ordered { start ≤ end }
    ensures { state_of kernel.new ≡
        put_back (marks.Restriction buffer (Some (start, end))) (state_of kernel.old) }
{
    if kernel.editor.is_live(buffer) {
        kernel.editor.narrow(buffer, start, end);
    }
}

/// Puts back what was kept, where its buffer lives.
fn put_back(kernel: &mut KernelState, saved: Saved)
    requires place { IsKeptIn (editor_of kernel.old.editor) (saved_as saved) }
    requires ordered { IsOrdered (saved_as saved) }
    ensures { state_of kernel.new ≡ put_back (saved_as saved) (state_of kernel.old) }
{
    match saved {
        Saved::Excursion(buffer, point) => put_point(kernel, buffer, point),
        Saved::Restriction(buffer, None) => put_whole(kernel, buffer),
        Saved::Restriction(buffer, Some((start, end))) => put_portion(kernel, buffer, start, end),
        Saved::Change(_, _, _) => {}
    }
}

/// Takes away what was kept last, and puts it back.
fn pop(kernel: &mut KernelState)
    ensures { state_of kernel.new ≡ pop (state_of kernel.old) }
{
    if let Some(saved) = kernel.editor.pop_saved() {
        put_back(kernel, saved);
    }
}

/// Restores what a block kept.
pub(crate) fn restore(kernel: &mut KernelState, kept: Kept)
    ensures { state_of kernel.new ≡ restored (kept_as kept) (state_of kernel.old) }
{
    match kept {
        Kept::Excursion | Kept::Restriction => pop(kernel),
        Kept::Buffer(buffer) => make_current(kernel, buffer),
        Kept::Hooks(inhibited) => {
            kernel.hooks.inhibit(inhibited);
        }
        Kept::Lifting(lifted) => {
            kernel.editor.lift_tests(lifted);
        }
    }
}
