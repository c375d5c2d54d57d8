//! Buffers that are killed, with their processes.
ghost use Rattle.std.specs.Prelude.{◌≡◌, ◌&&◌, length, nat_lt, true, None, IfOk, OnOk, OnErr};
ghost use Rattle.plain_machine.specs.Arguments.{running_in, runs, stands_in};
ghost use Rattle.plain_machine.specs.Refusals.{is_last, must_be_replaceable};
ghost use Rattle.ek_call.specs.Meaning.{reply_of};
ghost use Rattle.buffer_table.specs.Kept.{editor_of};
ghost use Rattle.prim_arguments.specs.Meaning.{fault_in};
ghost use Rattle.kernel_steps.specs.Waits.{killed_by};
ghost use Rattle.editor_model.specs.Editor.{is_live, killed};
ghost use Rattle.editor_model.specs.Values.{Answered, T};
ghost use Rattle.kernel_state.specs.Meaning.{state_of};

use crate::kernel::KernelState;
use buffer_table::Editor;
use ek_call::{Fault, Reply, Value};
use ek_types::Mem;
use ek_types::limits::MOST_BUFFERS;
use prim_arguments::limits::must_be_fewer;
use process_table::{Process, Status};

/// Whether a buffer is the only one that lives.
fn is_last(editor: &Editor, buffer: u32) -> bool
    ensures { result ≡ is_last (editor_of editor.now) buffer }
{
    for other in 0..editor.count() {
        if other != buffer && editor.is_live(other) {
            return false;
        }
    }
    editor.is_live(buffer)
}

/// The last live buffer is killed only where one more can be made.
pub(crate) fn must_be_replaceable(editor: &Editor, buffer: u32) -> Result<(), Fault>
    ensures { fault_in result ≡ must_be_replaceable (editor_of editor.now) buffer }
{
    if is_last(editor, buffer) {
        must_be_fewer(MOST_BUFFERS, editor.count())
    } else {
        Ok(())
    }
}

/// Whether a process runs and has this buffer.
fn runs_in(process: &Process, buffer: u32) -> bool
    ensures { result ≡ (runs process.now.status && stands_in buffer process.now) }
{
    matches!(process.status(), Status::Run) && process.buffer() == Some(buffer)
}

/// The running processes of a buffer, by rising number.
pub(crate) fn running_in(kernel: &KernelState, buffer: u32) -> Mem<Vec<u32>>
    ensures { IfOk result (λ ps. ps.items ≡ running_in (state_of kernel.now) buffer) }
{
    let mut found = Vec::new(kernel.alloc);
    for p in 0..kernel.processes.count() {
        if runs_in(kernel.processes.get(p), buffer) {
            found.push(p)?;
        }
    }
    Ok(found)
}

/// Whether a buffer has a running process.
pub(crate) fn has_running(kernel: &KernelState, buffer: u32) -> bool
    ensures { result ≡ nat_lt 0 (length (running_in (state_of kernel.now) buffer)) }
{
    for p in 0..kernel.processes.count() {
        if runs_in(kernel.processes.get(p), buffer) {
            return true;
        }
    }
    false
}

/// Kills a buffer that lives, where it may be killed. A refusal leaves all as it was.
fn kill_one(kernel: &mut KernelState, buffer: u32) -> Mem<Reply>
    requires live { is_live (state_of kernel.old).editor buffer ≡ true }
    requires free { must_be_replaceable (state_of kernel.old).editor buffer ≡ None }
    ensures reply { IfOk result (λ r. reply_of r ≡ Answered T) }
    ensures ok { OnOk result (state_of kernel.new ≡
        record (state_of kernel.old) { editor = killed buffer (state_of kernel.old).editor }) }
    ensures err { OnErr result (state_of kernel.new ≡ state_of kernel.old) }
{
    kernel.editor.kill(buffer)?;
    Ok(Reply::Value(Value::T))
}

/// Kills a buffer that lives, unless it is the last and none can be made in its place.
fn kill_if_replaceable(kernel: &mut KernelState, buffer: u32) -> Mem<Reply>
    requires live { is_live (state_of kernel.old).editor buffer ≡ true }
    ensures reply { IfOk result (λ r. reply_of r ≡
        (killed_by (state_of kernel.old).editor buffer).reply) }
    ensures ok { OnOk result (state_of kernel.new ≡
        record (state_of kernel.old) { editor = (killed_by (state_of kernel.old).editor buffer).editor }) }
    ensures err { OnErr result (state_of kernel.new ≡ state_of kernel.old) }
{
    match must_be_replaceable(&kernel.editor, buffer) {
        Ok(()) => kill_one(kernel, buffer),
        Err(fault) => Ok(Reply::Fault(fault)),
    }
}

/// Kills a buffer, if it lives. A refusal leaves all as it was.
pub(crate) fn kill_live(kernel: &mut KernelState, buffer: u32) -> Mem<Reply>
    ensures reply { IfOk result (λ r. reply_of r ≡
        (killed_by (state_of kernel.old).editor buffer).reply) }
    ensures ok { OnOk result (state_of kernel.new ≡
        record (state_of kernel.old) { editor = (killed_by (state_of kernel.old).editor buffer).editor }) }
    ensures err { OnErr result (state_of kernel.new ≡ state_of kernel.old) }
{
    if kernel.editor.is_live(buffer) {
        kill_if_replaceable(kernel, buffer)
    } else {
        Ok(Reply::Value(Value::Nil))
    }
}
