//! Handlers: what entering and leaving them does, and what the default ones put in.
ghost use Rattle.std.specs.Prelude.{◌≡◌, [], ◌++◌, ◌+◌, map, IfOk, OnOk, OnErr, option_map};
ghost use Rattle.plain_machine.specs.State.{change_process};
ghost use Rattle.plain_machine.specs.Lines.{OfFilter};
ghost use Rattle.plain_machine.specs.Forms.{if_live};
ghost use Rattle.plain_machine.specs.Hooks.{set_hook_list};
ghost use Rattle.plain_machine.specs.Handling.{bound_params, in_scope, left_state, plain_text};
ghost use Rattle.plain_machine.specs.Handling.{process_buffer_of, second, sentinel_words, unlisted};
ghost use Rattle.change_hooks.specs.Hooked.{hook};
ghost use Rattle.ek_types.specs.Listing.{items_of};
ghost use Rattle.ek_types.specs.Property.{number_of};
ghost use Rattle.ek_call.specs.Meaning.{view};
ghost use Rattle.prim_changes.specs.Meaning.{prepared_of};
ghost use Rattle.handler_code.specs.Calls.{allowed as may, call_asked};
ghost use Rattle.handler_code.specs.Counts.{AreMade};
ghost use Rattle.kernel_steps.specs.Handlers.{default_prepared, default_state, ended_state};
ghost use Rattle.kernel_steps.specs.Handlers.{hook_names, kind_of};
ghost use Rattle.kernel_state.specs.Defaults.{name_at, text_prepared};
ghost use Rattle.kernel_state.specs.Meaning.{state_of};

use crate::blocks::make_current;
use crate::kernel::KernelState;
use editor_prims::{Prepared, prepare_output};
use ek_call::{Value, Values, argument};
use ek_types::{Chars, ListOf, Mem, NoMemory, Piece, Sym, SymList};
use handler_code::{Made, NativeCall, allowed};
use kernel_steps::{Kind, Program};
use std::alloc::Global;

/// A handler is entered: its parameters are bound. A refusal leaves all as it was.
pub(crate) fn enter(kernel: &mut KernelState, params: &[Sym], args: &Values) -> Mem<()>
    ensures ok { OnOk result (state_of kernel.new ≡
        in_scope (bound_params (map number_of params.now) (map view (items_of args.now))) (record
        (state_of kernel.old) { depth = (state_of kernel.old).depth + 1 })) }
    ensures err { OnErr result (state_of kernel.new ≡ state_of kernel.old) }
{
    let Some(deeper) = kernel.depth.checked_add(1) else {
        return Err(NoMemory);
    };
    kernel.scopes.push(params, args)?;
    kernel.depth = deeper;
    Ok(())
}

/// A handler is left, and the buffer that was current before it is put back, if it lives.
pub(crate) fn leave(kernel: &mut KernelState, current: u32)
    ensures { state_of kernel.new ≡ left_state (state_of kernel.old) current }
{
    kernel.depth = kernel.depth.saturating_sub(1);
    kernel.scopes.pop();
    make_current(kernel, current);
}

/// Takes a process from the list.
fn unlist(kernel: &mut KernelState, p: u32)
    ensures { state_of kernel.new ≡ change_process p unlisted (state_of kernel.old) }
{
    if p < kernel.processes.count() {
        kernel.processes.unlist(p);
    }
}

/// Empties a list of hook functions, if its buffer lives.
fn clear_hooks(kernel: &mut KernelState, buffer: u32, before: bool)
    ensures { state_of kernel.new ≡
        if_live (state_of kernel.old) buffer (set_hook_list buffer (hook before) [] (state_of kernel.old)) }
{
    if kernel.editor.is_live(buffer) {
        kernel.hooks.clear(buffer, before);
    }
}

/// What the end of a handler does besides: a process leaves the list behind its sentinel, and a hook function that
/// ended by a fault empties the list that it stands on.
pub(crate) fn end_handler(kernel: &mut KernelState, kind: Kind, faulted: bool)
    ensures { state_of kernel.new ≡ ended_state (kind_of kind) faulted (state_of kernel.old) }
{
    match kind {
        Kind::Sentinel(p) => unlist(kernel, p),
        Kind::Before(buffer) if faulted => clear_hooks(kernel, buffer, true),
        Kind::After(buffer) if faulted => clear_hooks(kernel, buffer, false),
        Kind::Filter(_) | Kind::Before(_) | Kind::After(_) => {}
    }
}

/// The hook functions of a kind, in a list of their own.
pub(crate) fn hooks(kernel: &KernelState, kind: Kind) -> Mem<SymList>
    ensures { IfOk result (λ names. map number_of (items_of names) ≡
        hook_names (kind_of kind) (state_of kernel.now)) }
{
    match kind {
        Kind::Before(buffer) => kernel.hooks.names(buffer, true),
        Kind::After(buffer) => kernel.hooks.names(buffer, false),
        Kind::Filter(_) | Kind::Sentinel(_) => Ok(ListOf::new(kernel.alloc)),
    }
}

/// What was made so far.
fn made<P: Program>(kernel: &KernelState, program: &P) -> Made
    ensures { AreMade result (P.meant program.now) (state_of kernel.now) }
{
    Made {
        symbols: program.symbols().count(),
        buffers: kernel.editor.count(),
        markers: kernel.editor.marker_count(),
        overlays: kernel.editor.overlay_count(),
        processes: kernel.processes.count(),
    }
}

/// A native's call, if a script might make it, with each empty list as nil.
pub(crate) fn allow<P: Program>(
    kernel: &KernelState,
    program: &P,
    asked: NativeCall,
) -> Mem<Option<NativeCall>>
    ensures { IfOk result (λ call. option_map call_asked call ≡
        may (P.meant program.now) (state_of kernel.now) (call_asked asked)) }
{
    allowed(&made(kernel, program), asked)
}

/// The buffer of a process, where it lives.
fn live_buffer(kernel: &KernelState, p: u32) -> Option<u32>
    ensures { result ≡ process_buffer_of (state_of kernel.now) p }
{
    if p >= kernel.processes.count() {
        return None;
    }
    let Some(buffer) = kernel.processes.get(p).buffer() else {
        return None;
    };
    if kernel.editor.is_live(buffer) {
        Some(buffer)
    } else {
        None
    }
}

/// Puts what a handler was told behind other characters: the second of its arguments.
fn append_told(text: &mut Chars, args: &Values) -> Mem<()>
    ensures { OnOk result (text.new.items ≡
        text.old.items ++ map (λ c. c.0) (second (map view (items_of args.now)))) }
{
    match argument(args, 1) {
        Some(Value::Str(told)) => text.extend(told.text()),
        _ => Ok(()),
    }
}

/// What the default filter puts in: what it was told.
fn filter_text(alloc: Global, args: &Values) -> Mem<Piece>
    ensures { IfOk result (λ text. text ≡ plain_text (second (map view (items_of args.now)))) }
{
    let mut text = Chars::new(alloc);
    append_told(&mut text, args)?;
    Piece::plain(alloc, text)
}

/// Puts the name of a process behind other characters, if it was made. A refusal leaves a part of it there.
fn append_name(text: &mut Chars, kernel: &KernelState, p: u32) -> Mem<()>
    ensures { OnOk result (text.new.items ≡ text.old.items ++ name_at (state_of kernel.now) p) }
{
    if p < kernel.processes.count() {
        text.extend(kernel.processes.get(p).name())
    } else {
        Ok(())
    }
}

/// What the default sentinel puts in: a line with the name of the process and what it was told.
fn sentinel_text(kernel: &KernelState, p: u32, args: &Values) -> Mem<Piece>
    ensures { IfOk result (λ text. text ≡ sentinel_words (state_of kernel.now) p
        (plain_text (second (map view (items_of args.now))))) }
{
    let mut text = Chars::new(kernel.alloc);
    text.extend_bytes(b"\nProcess ")?;
    append_name(&mut text, kernel, p)?;
    text.extend_bytes(b" ")?;
    append_told(&mut text, args)?;
    Piece::plain(kernel.alloc, text)
}

/// Prepares the insertion of a text at the mark of a process, whose buffer becomes current; nothing without a live
/// buffer.
fn prepare_text(kernel: &mut KernelState, p: u32, text: Piece) -> Prepared
    ensures prepared { prepared_of result ≡ text_prepared (state_of kernel.old) p text }
    ensures state { state_of kernel.new ≡ default_state (OfFilter p) (state_of kernel.old) }
{
    let Some(buffer) = live_buffer(kernel, p) else {
        return Prepared::Nothing(Value::Nil);
    };
    let mark = kernel.processes.get(p).mark();
    let prepared = prepare_output(&kernel.editor, buffer, mark, text);
    kernel.editor.set_current(buffer);
    prepared
}

/// Prepares the insertion of a default handler, whose buffer becomes current. A refusal leaves all as it was.
pub(crate) fn prepare_default(kernel: &mut KernelState, kind: Kind, args: &Values) -> Mem<Prepared>
    ensures prepared { IfOk result (λ p. prepared_of p ≡
        default_prepared (kind_of kind) (map view (items_of args.now)) (state_of kernel.old)) }
    ensures ok { OnOk result (state_of kernel.new ≡
        default_state (kind_of kind) (state_of kernel.old)) }
    ensures err { OnErr result (state_of kernel.new ≡ state_of kernel.old) }
{
    match kind {
        Kind::Filter(p) => {
            let text = filter_text(kernel.alloc, args)?;
            Ok(prepare_text(kernel, p, text))
        }
        Kind::Sentinel(p) => {
            let text = sentinel_text(kernel, p, args)?;
            Ok(prepare_text(kernel, p, text))
        }
        Kind::Before(_) | Kind::After(_) => Ok(Prepared::Nothing(Value::Nil)),
    }
}
