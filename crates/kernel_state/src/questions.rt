//! What the arguments of a call on processes give.
ghost use Rattle.std.specs.Prelude.{◌≡◌, map, IfOk};
ghost use Rattle.editor_model.specs.Values.{Nil};
ghost use Rattle.editor_model.specs.Arguments.{arg, buffer_of};
ghost use Rattle.plain_machine.specs.Arguments.{process_of};
ghost use Rattle.plain_machine.specs.Refusals.{rounds_of};
ghost use Rattle.plain_machine.specs.Calls.{process_buffer, waiting};
ghost use Rattle.ek_types.specs.Listing.{items_of};
ghost use Rattle.ek_call.specs.Meaning.{view};
ghost use Rattle.buffer_table.specs.Kept.{editor_of};
ghost use Rattle.kernel_steps.specs.Waits.{waiting_of};
ghost use Rattle.kernel_state.specs.Meaning.{state_of};

use crate::kernel::KernelState;
use buffer_table::Editor;
use editor_prims::{arg, nil};
use ek_call::{Value, Values};
use ek_types::limits::{MOST_PROCESSES, MOST_ROUNDS};
use ek_types::{Mem, NoMemory};
use prim_arguments::kinds::flag;
use prim_arguments::objects::find;
use wait_loop::Wait;

/// The process that a value gives: itself, or the listed one of a name. Where there is none it is the first.
pub(crate) fn process(kernel: &KernelState, v: &Value) -> u32
    ensures { result ≡ process_of (state_of kernel.now) (view v.now) }
{
    match v {
        Value::Process(p) => *p,
        Value::Str(name) => kernel.processes.named(name).unwrap_or(0),
        _ => 0,
    }
}

/// The buffer that a value gives: itself, the live one of a name, or else the current one.
pub(crate) fn buffer(editor: &Editor, v: &Value) -> u32
    ensures { result ≡ buffer_of (editor_of editor.now) (view v.now) }
{
    match v {
        Value::Buffer(id) => *id,
        Value::Str(name) => find(editor, name).unwrap_or(0),
        _ => editor.current(),
    }
}

/// The buffer that a value gives a process: none for nil.
pub(crate) fn process_buffer(editor: &Editor, v: &Value) -> Option<u32>
    ensures { result ≡ process_buffer (editor_of editor.now) (view v.now) }
{
    match v {
        Value::Nil => None,
        _ => Some(buffer(editor, v)),
    }
}

/// How many rounds a value gives, also where a wait may have fewer. More than a `u32` holds counts as want of memory.
fn rounds(v: &Value) -> Mem<u32>
    ensures { IfOk result (λ n. n ≡ rounds_of (view v.now)) }
{
    match v {
        Value::Nil => Ok(MOST_ROUNDS),
        Value::Int(n) if *n < 0 => Ok(0),
        Value::Int(n) => u32::try_from(*n).map_err(|_| NoMemory),
        _ => Ok(0),
    }
}

/// The process that a wait is for.
fn target(kernel: &KernelState, v: &Value) -> Option<u32>
    ensures { result ≡ (waiting (state_of kernel.now) (view v.now) Nil Nil).target }
{
    match v {
        Value::Nil => None,
        _ => Some(process(kernel, v)),
    }
}

/// The wait that a call asks for.
pub(crate) fn new_wait(kernel: &KernelState, args: &Values) -> Mem<Wait>
    ensures waiting { IfOk result (λ w. w.waiting ≡
        waiting_of (state_of kernel.now) (map view (items_of args.now))) }
    ensures room { IfOk result (λ w. w.room ≡ 256) }
{
    let nil = nil();
    let target = target(kernel, arg(args, 0, &nil));
    let just = target.is_some() && flag(arg(args, 2, &nil));
    Wait::new(
        kernel.alloc,
        target,
        rounds(arg(args, 1, &nil))?,
        just,
        MOST_PROCESSES,
    )
}
