//! What the calls on hooks and processes refuse, and in which order: void names, types, what is absent or dead, ranges,
//! states, limits, depth, exchanges.
ghost use Rattle.std.specs.Prelude.{◌≡◌, ◌+◌, ◌&&◌, ◌∷◌, [], not, map, drop, length, nat_le};
ghost use Rattle.std.specs.Prelude.{option_map};
ghost use Rattle.editor_model.specs.Values.{WrongType, ArgsOutOfRange, ProcessEnded, TooMany};
ghost use Rattle.editor_model.specs.Values.{AddHook, RemoveHook, KillBuffer, StartProcess};
ghost use Rattle.editor_model.specs.Values.{SetProcessFilter, SetProcessSentinel, SetProcessBuffer};
ghost use Rattle.editor_model.specs.Values.{ProcessSendString, ProcessSendEof, DeleteProcess};
ghost use Rattle.editor_model.specs.Values.{AcceptProcessOutput, SetProcessCodingSystem, CodingFixed};
ghost use Rattle.editor_model.specs.Answers.{first_fault, refuse};
ghost use Rattle.editor_model.specs.Limits.{most_buffers, most_markers};
ghost use Rattle.editor_model.specs.Arguments.{arg, buffer_there, must_be_fewer, must_be_name};
ghost use Rattle.editor_model.specs.Arguments.{must_be_short};
ghost use Rattle.plain_machine.specs.Refusals.{is_rounds, may_ask, most_processes, most_rounds};
ghost use Rattle.plain_machine.specs.Refusals.{most_sent, must_ask, must_be_handler};
ghost use Rattle.plain_machine.specs.Refusals.{must_be_process, must_be_process_or_nil};
ghost use Rattle.plain_machine.specs.Refusals.{must_be_word, must_live_or_be_named, must_nest};
ghost use Rattle.plain_machine.specs.Refusals.{only_where, process_there, rounds_of};
ghost use Rattle.plain_machine.specs.Arguments.{encoded, is_closed, is_filter_place};
ghost use Rattle.plain_machine.specs.Arguments.{is_handler_place, is_new_name, is_process_buffer};
ghost use Rattle.plain_machine.specs.Arguments.{is_running, is_coding, is_fed, process_of};
ghost use Rattle.plain_machine.specs.Hooks.{hook_added, is_hook};
ghost use Rattle.plain_machine.specs.State.{State, Program as Plain};
ghost use Rattle.ek_types.specs.Listing.{items_of};
ghost use Rattle.ek_call.specs.Meaning.{view};
ghost use Rattle.ek_call.specs.Faults.{fault_of};
ghost use Rattle.ek_call.specs.Primitives.{prim_of};
ghost use Rattle.buffer_table.specs.Kept.{editor_of};
ghost use Rattle.prim_arguments.specs.Meaning.{fault_in};
ghost use Rattle.kernel_steps.specs.Outside.{deepest};
ghost use Rattle.kernel_steps.specs.Waits.{refusal_of};
ghost use Rattle.kernel_state.specs.Meaning.{state_of};

use crate::buffers::{has_running, must_be_replaceable};
use crate::hearing::is_running;
use crate::kernel::KernelState;
use crate::questions::{buffer, process};
use crate::setting::{is_before, symbol_of};
use crate::words::{encoded_length, is_word};
use buffer_table::Editor;
use change_hooks::{MOST_HOOKS, holds};
use editor_prims::{arg, nil};
use ek_call::{Fault, Primitive, Value, Values};
use ek_types::limits::{MOST_BUFFERS, MOST_MARKERS, MOST_PROCESSES, MOST_ROUNDS};
use ek_types::{Piece, Sym};
use kernel_steps::Program;
use prim_arguments::kinds::{must, must_be_buffer_or_nil, name, string, symbol};
use prim_arguments::limits::{must_be_fewer, must_be_short};
use prim_arguments::objects::{self, find};

/// The most exchanges of a run but for kills.
const MOST_EXCHANGES: u32 = 65_536;

/// The most bytes that are sent in a run.
const MOST_SENT: u128 = 16_777_216;

/// How deep handlers may be nested in which waits and deletions are.
const NESTING_BOUND: u32 = 16;

// TESTS

/// A symbol in a handler's place names one.
fn must_be_handler<P: Program>(program: &P, v: &Value) -> Result<(), Fault>
    ensures { fault_in result ≡ must_be_handler (P.meant program.now) (view v.now) }
{
    match v {
        Value::Sym(name) => must(program.is_handler(*name), Fault::VoidVariable),
        _ => Ok(()),
    }
}

fn must_be_hook(v: &Value) -> Result<(), Fault>
    ensures { fault_in result ≡ refuse WrongType (is_hook (view v.now)) }
{
    let is_hook = match v {
        Value::Sym(name) => name.0 == Sym::BEFORE_CHANGE_FUNCTIONS.0
            || name.0 == Sym::AFTER_CHANGE_FUNCTIONS.0,
        _ => false,
    };
    must(is_hook, Fault::WrongType)
}

/// Nil or a symbol.
fn must_be_handler_place(v: &Value) -> Result<(), Fault>
    ensures { fault_in result ≡ refuse WrongType (is_handler_place (view v.now)) }
{
    must(matches!(v, Value::Nil | Value::Sym(_)), Fault::WrongType)
}

/// Nil, `t` or a symbol.
fn must_be_filter_place(v: &Value) -> Result<(), Fault>
    ensures { fault_in result ≡ refuse WrongType (is_filter_place (view v.now)) }
{
    must(
        matches!(v, Value::Nil | Value::T | Value::Sym(_)),
        Fault::WrongType,
    )
}

/// The name of a coding.
fn must_be_coding(v: &Value) -> Result<(), Fault>
    ensures { fault_in result ≡ refuse WrongType (is_coding (view v.now)) }
{
    let is_coding = match v {
        Value::Sym(name) => {
            name.0 == Sym::UTF_8_UNIX.0
                || name.0 == Sym::UTF_8_DOS.0
                || name.0 == Sym::LATIN_1_UNIX.0
        }
        _ => false,
    };
    must(is_coding, Fault::WrongType)
}

fn must_be_process(v: &Value) -> Result<(), Fault>
    ensures { fault_in result ≡ must_be_process (view v.now) }
{
    must(
        matches!(v, Value::Process(_) | Value::Str(_)),
        Fault::WrongType,
    )
}

fn must_be_process_or_nil(v: &Value) -> Result<(), Fault>
    ensures { fault_in result ≡ must_be_process_or_nil (view v.now) }
{
    must(
        matches!(v, Value::Nil | Value::Process(_) | Value::Str(_)),
        Fault::WrongType,
    )
}

/// A listed process has the name that is given.
fn process_there(kernel: &KernelState, v: &Value) -> Result<(), Fault>
    ensures { fault_in result ≡ process_there (state_of kernel.now) (view v.now) }
{
    match v {
        Value::Str(name) => must(kernel.processes.named(name).is_some(), Fault::NoSuchProcess),
        _ => Ok(()),
    }
}

/// A buffer that is given lives.
fn buffer_there(editor: &Editor, v: &Value) -> Result<(), Fault>
    ensures { fault_in result ≡ buffer_there (editor_of editor.now) (view v.now) }
{
    objects::buffer(editor, v)?;
    Ok(())
}

/// A buffer that is given lives; a name may be unknown.
fn must_live_or_be_named(editor: &Editor, v: &Value) -> Result<(), Fault>
    ensures { fault_in result ≡ must_live_or_be_named (editor_of editor.now) (view v.now) }
{
    match v {
        Value::Buffer(id) => must(editor.is_live(*id), Fault::BufferKilled),
        _ => Ok(()),
    }
}

/// Nil, a buffer, or a name that isn't empty.
fn must_be_process_buffer(v: &Value) -> Result<(), Fault>
    ensures { fault_in result ≡ refuse WrongType (is_process_buffer (view v.now)) }
{
    let fits = match v {
        Value::Nil | Value::Buffer(_) => true,
        Value::Str(name) => !name.is_empty(),
        _ => false,
    };
    must(fits, Fault::WrongType)
}

/// A word of a command: a string without raw bytes and without the character 0.
fn must_be_word(v: &Value) -> Result<(), Fault>
    ensures { fault_in result ≡ must_be_word (view v.now) }
{
    must(is_word(v), Fault::WrongType)
}

/// Whether no live buffer has a name that is given.
pub(crate) fn is_new_name(editor: &Editor, v: &Value) -> bool
    ensures { result ≡ is_new_name (editor_of editor.now) (view v.now) }
{
    match v {
        Value::Str(name) => find(editor, name).is_none(),
        _ => false,
    }
}

/// Nil or an integer.
fn must_be_rounds(v: &Value) -> Result<(), Fault>
    ensures { fault_in result ≡ refuse WrongType (is_rounds (view v.now)) }
{
    must(matches!(v, Value::Nil | Value::Int(_)), Fault::WrongType)
}

/// Nil, or 1 to 1,000.
fn must_be_in_range(v: &Value) -> Result<(), Fault>
    ensures { fault_in result ≡ refuse ArgsOutOfRange
        (nat_le 1 (rounds_of (view v.now)) && nat_le (rounds_of (view v.now)) most_rounds) }
{
    let fits = match v {
        Value::Nil => true,
        Value::Int(n) => 1 <= *n && *n <= i64::from(MOST_ROUNDS),
        _ => false,
    };
    must(fits, Fault::ArgsOutOfRange)
}

/// Whether an exchange may be made.
pub(crate) fn may_ask(kernel: &KernelState) -> bool
    ensures { result ≡ may_ask (state_of kernel.now) }
{
    kernel.asked < MOST_EXCHANGES
}

fn must_ask(kernel: &KernelState) -> Result<(), Fault>
    ensures { fault_in result ≡ must_ask (state_of kernel.now) }
{
    must(may_ask(kernel), Fault::ExchangesSpent)
}

/// Waits and deletions don't nest any deeper.
fn must_nest(kernel: &KernelState) -> Result<(), Fault>
    ensures { fault_in result ≡ must_nest deepest (state_of kernel.now) }
{
    must(kernel.depth < NESTING_BOUND, Fault::Nesting)
}

/// A test that is made in one case only.
fn only_where(here: bool, test: Result<(), Fault>) -> Result<(), Fault>
    ensures { fault_in result ≡ only_where here (fault_in test) }
{
    if here { test } else { Ok(()) }
}

// HOOKS

/// How many hook functions a list would have with one more.
fn hooks_with(kernel: &KernelState, hook: &Value, function: &Value) -> u32
    ensures { result ≡ length (hook_added (state_of kernel.now) (view hook.now) (view function.now)) }
{
    let before = is_before(hook);
    let names = kernel.hooks.list(kernel.editor.current(), before);
    let number = symbol_of(function);
    let length = names.len() as u32;
    if holds(names.as_slice(), number) {
        length
    } else {
        length + 1
    }
}

fn test_add_hook<P: Program>(
    kernel: &KernelState,
    program: &P,
    hook: &Value,
    function: &Value,
) -> Result<(), Fault>
    ensures { fault_in result ≡ refusal_of (P.meant program.now) (state_of kernel.now) AddHook
        (view hook.now ∷ view function.now ∷ []) }
{
    must_be_handler(program, function)?;
    must_be_hook(hook)?;
    symbol(function)?;
    must_be_fewer(MOST_HOOKS as u32 + 1, hooks_with(kernel, hook, function))
}

fn test_remove_hook<P: Program>(program: &P, hook: &Value, function: &Value) -> Result<(), Fault>
    ensures { (s : State) → fault_in result ≡ refusal_of (P.meant program.now) s RemoveHook
        (view hook.now ∷ view function.now ∷ []) }
{
    must_be_handler(program, function)?;
    must_be_hook(hook)?;
    symbol(function)?;
    Ok(())
}

// BUFFERS

fn test_kill_buffer(kernel: &KernelState, b: &Value) -> Result<(), Fault>
    ensures { (machine : Plain) → fault_in result ≡
        refusal_of machine (state_of kernel.now) KillBuffer (view b.now ∷ []) }
{
    must_be_buffer_or_nil(b)?;
    buffer_there(&kernel.editor, b)?;
    let id = buffer(&kernel.editor, b);
    must_be_replaceable(&kernel.editor, id)?;
    only_where(has_running(kernel, id), must_nest(kernel))
}

// PROCESSES

/// The words of a command behind its program.
fn must_be_words(args: &[Value]) -> Result<(), Fault>
    ensures { fault_in result ≡ first_fault (map must_be_word (map view args.now)) }
{
    for word in args {
        must_be_word(word)?;
    }
    Ok(())
}

/// The kinds of the arguments of a start.
fn test_command(args: &Values, process: &Value, b: &Value, program: &Value) -> Result<(), Fault>
    ensures { fault_in result ≡ first_fault
        (must_be_name (view process.now) ∷ refuse WrongType (is_process_buffer (view b.now)) ∷
        must_be_name (view program.now) ∷ must_be_word (view program.now) ∷
        map must_be_word (drop 3 (map view (items_of args.now)))) }
{
    name(process)?;
    must_be_process_buffer(b)?;
    name(program)?;
    must_be_word(program)?;
    if args.len() > 3 {
        must_be_words(&args.as_slice()[3..])?;
    }
    Ok(())
}

/// What is absent in a start, its limits, and its exchange.
fn test_place(kernel: &KernelState, process: &Value, b: &Value) -> Result<(), Fault>
    ensures { fault_in result ≡ first_fault
        (must_live_or_be_named (editor_of kernel.now.editor) (view b.now) ∷ must_be_short (view process.now) ∷
        only_where (is_new_name (editor_of kernel.now.editor) (view b.now)) (must_be_short (view b.now)) ∷
        must_be_fewer most_processes (length (state_of kernel.now).processes) ∷
        must_be_fewer most_markers (length (editor_of kernel.now.editor).marks.markers) ∷
        only_where (is_new_name (editor_of kernel.now.editor) (view b.now))
        (must_be_fewer most_buffers (length (editor_of kernel.now.editor).buffers)) ∷
        must_ask (state_of kernel.now) ∷ []) }
{
    must_live_or_be_named(&kernel.editor, b)?;
    let new = is_new_name(&kernel.editor, b);
    must_be_short(process)?;
    only_where(new, must_be_short(b))?;
    must_be_fewer(MOST_PROCESSES, kernel.processes.count())?;
    must_be_fewer(MOST_MARKERS, kernel.editor.marker_count())?;
    only_where(new, must_be_fewer(MOST_BUFFERS, kernel.editor.count()))?;
    must_ask(kernel)
}

fn test_start(kernel: &KernelState, args: &Values) -> Result<(), Fault>
    ensures { (machine : Plain) → fault_in result ≡ refusal_of machine (state_of kernel.now) StartProcess
        (map view (items_of args.now)) }
{
    let nil = nil();
    let process = arg(args, 0, &nil);
    let b = arg(args, 1, &nil);
    test_command(args, process, b, arg(args, 2, &nil))?;
    test_place(kernel, process, b)
}

fn test_one(kernel: &KernelState, p: &Value) -> Result<(), Fault>
    ensures { fault_in result ≡ first_fault (must_be_process (view p.now) ∷
        process_there (state_of kernel.now) (view p.now) ∷ []) }
{
    must_be_process(p)?;
    process_there(kernel, p)
}

fn test_set_filter<P: Program>(
    kernel: &KernelState,
    program: &P,
    p: &Value,
    filter: &Value,
) -> Result<(), Fault>
    ensures { fault_in result ≡ refusal_of (P.meant program.now) (state_of kernel.now) SetProcessFilter
        (view p.now ∷ view filter.now ∷ []) }
{
    must_be_handler(program, filter)?;
    must_be_process(p)?;
    must_be_filter_place(filter)?;
    process_there(kernel, p)
}

fn test_set_sentinel<P: Program>(
    kernel: &KernelState,
    program: &P,
    p: &Value,
    sentinel: &Value,
) -> Result<(), Fault>
    ensures { fault_in result ≡ refusal_of (P.meant program.now) (state_of kernel.now) SetProcessSentinel
        (view p.now ∷ view sentinel.now ∷ []) }
{
    must_be_handler(program, sentinel)?;
    must_be_process(p)?;
    must_be_handler_place(sentinel)?;
    process_there(kernel, p)
}

fn test_set_buffer(kernel: &KernelState, p: &Value, b: &Value) -> Result<(), Fault>
    ensures { (machine : Plain) → fault_in result ≡ refusal_of machine (state_of kernel.now) SetProcessBuffer
        (view p.now ∷ view b.now ∷ []) }
{
    must_be_process(p)?;
    must_be_buffer_or_nil(b)?;
    process_there(kernel, p)?;
    buffer_there(&kernel.editor, b)
}

/// Whether a process was made and a read of it gave bytes.
fn is_fed(kernel: &KernelState, p: u32) -> bool
    ensures { result ≡ is_fed (state_of kernel.now) p }
{
    p < kernel.processes.count() && kernel.processes.get(p).fed()
}

/// No bytes were read of a process.
fn must_be_unfed(kernel: &KernelState, v: &Value) -> Result<(), Fault>
    ensures { fault_in result ≡ refuse CodingFixed
        (not (is_fed (state_of kernel.now) (process_of (state_of kernel.now) (view v.now)))) }
{
    must(!is_fed(kernel, process(kernel, v)), Fault::CodingFixed)
}

fn test_set_coding(kernel: &KernelState, p: &Value, coding: &Value) -> Result<(), Fault>
    ensures { (machine : Plain) → fault_in result ≡
        refusal_of machine (state_of kernel.now) SetProcessCodingSystem
        (view p.now ∷ view coding.now ∷ []) }
{
    must_be_process(p)?;
    must_be_coding(coding)?;
    process_there(kernel, p)?;
    must_be_unfed(kernel, p)
}

/// Whether the input of a process was closed. Where there is none it counts as closed.
pub(crate) fn is_closed(kernel: &KernelState, p: u32) -> bool
    ensures { result ≡ is_closed (state_of kernel.now) p }
{
    p >= kernel.processes.count() || kernel.processes.get(p).closed()
}

/// Whether so many bytes more may be sent.
fn may_send(kernel: &KernelState, bytes: u128) -> bool
    ensures { result ≡ nat_le ((state_of kernel.now).sent + bytes) most_sent }
{
    bytes <= MOST_SENT && u128::from(kernel.sent) <= MOST_SENT - bytes
}

/// Whether a process runs and its input wasn't closed.
fn is_open(kernel: &KernelState, p: u32) -> bool
    ensures { result ≡ (is_running (state_of kernel.now) p && not (is_closed (state_of kernel.now) p)) }
{
    is_running(kernel, p) && !is_closed(kernel, p)
}

/// The tests of a text that isn't empty.
fn must_send(kernel: &KernelState, p: u32, text: &Piece) -> Result<(), Fault>
    ensures { fault_in result ≡ first_fault
        (refuse ProcessEnded (is_running (state_of kernel.now) p && not (is_closed (state_of kernel.now) p)) ∷
        refuse TooMany (nat_le ((state_of kernel.now).sent + length (encoded text.now)) most_sent) ∷
        must_ask (state_of kernel.now) ∷ []) }
{
    must(is_open(kernel, p), Fault::ProcessEnded)?;
    must(may_send(kernel, encoded_length(text)), Fault::TooMany)?;
    must_ask(kernel)
}

fn test_send(kernel: &KernelState, p: &Value, text: &Value) -> Result<(), Fault>
    ensures { (machine : Plain) → fault_in result ≡ refusal_of machine (state_of kernel.now) ProcessSendString
        (view p.now ∷ view text.now ∷ []) }
{
    must_be_process(p)?;
    let content = string(text)?;
    process_there(kernel, p)?;
    if content.is_empty() {
        return Ok(());
    }
    must_send(kernel, process(kernel, p), content)
}

fn test_send_eof(kernel: &KernelState, p: &Value) -> Result<(), Fault>
    ensures { (machine : Plain) → fault_in result ≡ refusal_of machine (state_of kernel.now) ProcessSendEof
        (view p.now ∷ []) }
{
    test_one(kernel, p)?;
    let number = process(kernel, p);
    must(is_running(kernel, number), Fault::ProcessEnded)?;
    only_where(!is_closed(kernel, number), must_ask(kernel))
}

fn test_delete(kernel: &KernelState, p: &Value) -> Result<(), Fault>
    ensures { (machine : Plain) → fault_in result ≡ refusal_of machine (state_of kernel.now) DeleteProcess
        (view p.now ∷ []) }
{
    test_one(kernel, p)?;
    only_where(is_running(kernel, process(kernel, p)), must_nest(kernel))
}

fn test_wait(kernel: &KernelState, p: &Value, rounds: &Value) -> Result<(), Fault>
    ensures { (machine : Plain) → fault_in result ≡ refusal_of machine (state_of kernel.now) AcceptProcessOutput
        (view p.now ∷ view rounds.now ∷ []) }
{
    must_be_process_or_nil(p)?;
    must_be_rounds(rounds)?;
    process_there(kernel, p)?;
    must_be_in_range(rounds)?;
    must_nest(kernel)
}

/// The tests of a call on hooks or processes, up to the first that refuses it, where its first two arguments are these.
fn test_with<P: Program>(
    kernel: &KernelState,
    program: &P,
    prim: Primitive,
    args: &Values,
    a: &Value,
    b: &Value,
) -> Result<(), Fault>
    requires first { view a.now ≡ arg (map view (items_of args.now)) 0 }
    requires second { view b.now ≡ arg (map view (items_of args.now)) 1 }
    ensures { fault_in result ≡ refusal_of (P.meant program.now) (state_of kernel.now) (prim_of prim)
        (map view (items_of args.now)) }
{
    match prim {
        Primitive::AddHook => test_add_hook(kernel, program, a, b),
        Primitive::RemoveHook => test_remove_hook(program, a, b),
        Primitive::KillBuffer => test_kill_buffer(kernel, a),
        Primitive::StartProcess => test_start(kernel, args),
        Primitive::ProcessList => Ok(()),
        Primitive::GetProcess => must_be_process(a),
        Primitive::SetProcessFilter => test_set_filter(kernel, program, a, b),
        Primitive::SetProcessSentinel => test_set_sentinel(kernel, program, a, b),
        Primitive::SetProcessBuffer => test_set_buffer(kernel, a, b),
        Primitive::SetProcessCodingSystem => test_set_coding(kernel, a, b),
        Primitive::ProcessSendString => test_send(kernel, a, b),
        Primitive::ProcessSendEof => test_send_eof(kernel, a),
        Primitive::DeleteProcess => test_delete(kernel, a),
        Primitive::AcceptProcessOutput => test_wait(kernel, a, b),
        _ => test_one(kernel, a),
    }
}

/// The tests of a call on hooks or processes, up to the first that refuses it.
fn test<P: Program>(
    kernel: &KernelState,
    program: &P,
    prim: Primitive,
    args: &Values,
) -> Result<(), Fault>
    ensures { fault_in result ≡ refusal_of (P.meant program.now) (state_of kernel.now) (prim_of prim)
        (map view (items_of args.now)) }
{
    let nil = nil();
    let a = arg(args, 0, &nil);
    let b = arg(args, 1, &nil);
    test_with(kernel, program, prim, args, a, b)
}

/// Why a call on hooks or processes is refused.
pub(crate) fn refusal<P: Program>(
    kernel: &KernelState,
    program: &P,
    prim: Primitive,
    args: &Values,
) -> Option<Fault>
    ensures { option_map fault_of result ≡ refusal_of (P.meant program.now) (state_of kernel.now) (prim_of prim)
        (map view (items_of args.now)) }
{
    match test(kernel, program, prim, args) {
        Ok(()) => None,
        Err(fault) => Some(fault),
    }
}
