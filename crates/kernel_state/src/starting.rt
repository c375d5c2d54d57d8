//! Starting a process: its memory is taken before its child is asked for.
ghost use Rattle.std.specs.Prelude.{◌≡◌, ◌≤◌, ◌+◌, ◌<◌, true, map, length, Some, IfOk, IfSome, OnOk};
ghost use Rattle.editor_model.specs.Arguments.{arg, name_of};
ghost use Rattle.editor_model.specs.Editor.{is_live};
ghost use Rattle.editor_model.specs.Limits.{most_markers};
ghost use Rattle.plain_machine.specs.Arguments.{is_new_name};
ghost use Rattle.editor_model.specs.Values.{StartProcess};
ghost use Rattle.plain_machine.specs.Refusals.{may_ask, most_sent};
ghost use Rattle.plain_machine.specs.State.{change_process};
ghost use Rattle.plain_machine.specs.Calls.{started, with_editor, with_input_closed};
ghost use Rattle.plain_machine.specs.Calls.{with_process_buffer};
ghost use Rattle.ek_types.specs.Listing.{items_of};
ghost use Rattle.ek_call.specs.Meaning.{view};
ghost use Rattle.plain_machine.specs.Waits.{asked_more};
ghost use Rattle.kernel_steps.specs.Processes.{counted};
ghost use Rattle.kernel_steps.specs.Waits.{Passes};
ghost use Rattle.kernel_state.specs.Meaning.{state_of};
ghost use Rattle.kernel_state.specs.Starting.{HasBuffer, HasPlace, IsPlaceFor, MayMake, MayStart};
ghost use Rattle.kernel_state.specs.Starting.{put_end, with_end};

use crate::kernel::KernelState;
use crate::place::StartPlace;
use crate::questions::process_buffer;
use crate::refusals::is_new_name;
use crate::words::name_of;
use buffer_table::BufferRoom;
use editor_prims::{arg, nil};
use ek_call::{Value, Values};
use ek_types::Mem;
use kernel_steps::Program;
use marker_set::Room;
use std::mem;

/// Counts an exchange.
pub(crate) fn count_asked(kernel: &mut KernelState)
    requires { may_ask (state_of kernel.old) ≡ true }
    ensures { state_of kernel.new ≡ asked_more (state_of kernel.old) }
{
    kernel.asked += 1;
}

/// Counts an exchange that sent so many bytes.
pub(crate) fn count_sent(kernel: &mut KernelState, bytes: usize)
    requires asked { may_ask (state_of kernel.old) ≡ true }
    requires sent { (state_of kernel.old).sent + bytes ≤ most_sent }
    ensures { state_of kernel.new ≡ counted bytes (state_of kernel.old) }
{
    kernel.asked += 1;
    kernel.sent += bytes as u32;
}

/// Counts an exchange, by which the input of a process was closed.
pub(crate) fn note_closed(kernel: &mut KernelState, p: u32)
    requires asked { may_ask (state_of kernel.old) ≡ true }
    requires made { p < length (state_of kernel.old).processes }
    ensures { state_of kernel.new ≡ change_process p with_input_closed
        (asked_more (state_of kernel.old)) }
{
    kernel.asked += 1;
    kernel.processes.close_input(p);
}

/// Keeps the room of a start, and gives back that of one that came to nothing.
fn keep_place(kernel: &mut KernelState, place: StartPlace)
    ensures place { kernel.new.place ≡ Some place }
    ensures state { state_of kernel.new ≡ state_of kernel.old }
{
    if let Some(before) = mem::replace(&mut kernel.place, Some(place)) {
        before.release();
    }
}

/// Room for the buffer of a start, where it is to be made.
fn reserve_buffer(kernel: &KernelState, b: &Value) -> Mem<Option<BufferRoom>>
    ensures { IfOk result (λ room. HasBuffer (is_new_name (state_of kernel.now).editor (view b.now)) room
        (state_of kernel.now).editor (name_of (view b.now))) }
{
    if !is_new_name(&kernel.editor, b) {
        return Ok(None);
    }
    let name = name_of(kernel.alloc, b)?;
    Ok(Some(kernel.editor.reserve_buffer(name)?))
}

/// Room for a start with these arguments.
fn reserve_place(kernel: &KernelState, args: &Values) -> Mem<StartPlace>
    ensures { IfOk result (λ place. IsPlaceFor place (state_of kernel.now)
        (map view (items_of args.now))) }
{
    let nil = nil();
    let name = name_of(kernel.alloc, arg(args, 0, &nil))?;
    let process = kernel
        .processes
        .reserve(&kernel.processes.free_name(&name)?)?;
    let mark = kernel.editor.reserve_marker()?;
    Ok(StartPlace {
        process,
        mark,
        buffer: reserve_buffer(kernel, arg(args, 1, &nil))?,
    })
}

/// Takes all the memory that a start needs, for its process, its mark and its buffer. The state is as it was.
pub(crate) fn reserve_process<P: Program>(
    kernel: &mut KernelState,
    program: &P,
    args: &Values,
) -> Mem<()>
    requires { Passes (P.meant program.now) (state_of kernel.old) StartProcess
        (map view (items_of args.now)) }
    ensures place { OnOk result (HasPlace kernel.new (map view (items_of args.now))) }
    ensures state { state_of kernel.new ≡ state_of kernel.old }
{
    let place = reserve_place(kernel, args)?;
    keep_place(kernel, place);
    Ok(())
}

/// Makes the buffer that a value gives a process, where it is new.
fn make_buffer(kernel: &mut KernelState, b: &Value, room: Option<BufferRoom>)
    requires may { MayMake (state_of kernel.old).editor (view b.now) }
    requires room { HasBuffer (is_new_name (state_of kernel.old).editor (view b.now)) room
        (state_of kernel.old).editor (name_of (view b.now)) }
    ensures { state_of kernel.new ≡
        with_editor (with_process_buffer (view b.now) (state_of kernel.old).editor) (state_of kernel.old) }
{
    if let Some(room) = room {
        kernel.editor.make_reserved(room);
    }
}

/// Puts a marker at the end of the accessible portion of a buffer, or leaves it where it is.
fn put_mark(kernel: &mut KernelState, mark: u32, buffer: Option<u32>)
    requires made { mark < length (state_of kernel.old).editor.marks.markers }
    requires live { IfSome buffer (λ id. is_live (state_of kernel.old).editor id ≡ true) }
    ensures { state_of kernel.new ≡
        with_editor (put_end mark buffer (state_of kernel.old).editor) (state_of kernel.old) }
{
    if let Some(id) = buffer {
        let end = kernel.editor.bounds(id).end;
        kernel.editor.set_marker(mark, Some((id, end)));
    }
}

/// Makes a marker at the end of the accessible portion of a buffer, or nowhere, in the room that was taken.
fn make_mark(kernel: &mut KernelState, room: Room, buffer: Option<u32>) -> u32
    requires few { length (state_of kernel.old).editor.marks.markers < most_markers }
    requires fits { length (state_of kernel.old).editor.marks.markers < room }
    requires live { IfSome buffer (λ id. is_live (state_of kernel.old).editor id ≡ true) }
    ensures number { result ≡ length (state_of kernel.old).editor.marks.markers }
    ensures state { state_of kernel.new ≡
        with_editor (with_end buffer (state_of kernel.old).editor) (state_of kernel.old) }
{
    let mark = kernel.editor.make_marker_reserved(room);
    put_mark(kernel, mark, buffer);
    mark
}

/// Makes the process of a child that was started in the room that was taken.
fn start_in(kernel: &mut KernelState, place: StartPlace, args: &Values, child: u32) -> u32
    requires may { MayStart (state_of kernel.old) (map view (items_of args.now)) }
    requires place { IsPlaceFor place (state_of kernel.old) (map view (items_of args.now)) }
    ensures number { result ≡ length (state_of kernel.old).processes }
    ensures state { state_of kernel.new ≡
        started (state_of kernel.old) (arg (map view (items_of args.now)) 0) (arg
        (map view (items_of args.now)) 1) child }
{
    let nil = nil();
    let b = arg(args, 1, &nil);
    let StartPlace {
        process,
        mark,
        buffer,
    } = place;
    make_buffer(kernel, b, buffer);
    let id = process_buffer(&kernel.editor, b);
    let mark = make_mark(kernel, mark, id);
    kernel.asked += 1;
    kernel.processes.add_reserved(process, child, id, mark)
}

/// Makes the process of a child that was started, and gives its number. It takes no memory.
pub(crate) fn start<P: Program>(
    kernel: &mut KernelState,
    program: &P,
    args: &Values,
    child: u32,
) -> u32
    requires passes { Passes (P.meant program.now) (state_of kernel.old) StartProcess
        (map view (items_of args.now)) }
    requires place { HasPlace kernel.old (map view (items_of args.now)) }
    ensures number { result ≡ length (state_of kernel.old).processes }
    ensures state { state_of kernel.new ≡
        started (state_of kernel.old) (arg (map view (items_of args.now)) 0) (arg
        (map view (items_of args.now)) 1) child }
{
    match mem::replace(&mut kernel.place, None) {
        Some(place) => start_in(kernel, place, args, child),
        None => unreachable!(),
    }
}
