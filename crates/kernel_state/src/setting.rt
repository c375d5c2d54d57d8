//! Calls on hooks and processes that ask the host nothing and enter nothing.
ghost use Rattle.std.specs.Prelude.{◌≡◌, [], ◌∷◌, ◌++◌, ◌≤◌, ◌==◌, not, map, filter};
ghost use Rattle.std.specs.Prelude.{length, IfOk, OnOk, OnErr, option_map};
ghost use Rattle.std.specs.Prelude.{Some};
ghost use Rattle.editor_model.specs.Values.{Sym as symbol, AddHook, RemoveHook, SetProcessFilter};
ghost use Rattle.editor_model.specs.Values.{SetProcessSentinel, SetProcessBuffer, TheProcess, list};
ghost use Rattle.editor_model.specs.Values.{SetProcessCodingSystem, Nil};
ghost use Rattle.editor_model.specs.Arguments.{arg, symbol_of};
ghost use Rattle.editor_model.specs.BufferCalls.{buffer_value};
ghost use Rattle.plain_machine.specs.State.{change_process, process};
ghost use Rattle.plain_machine.specs.Arguments.{filter_of, sentinel_of, coding_of, coding_named};
ghost use Rattle.plain_machine.specs.Calls.{exit_value, get_process, listed};
ghost use Rattle.plain_machine.specs.Calls.{of_buffer, status_symbol, told_of, told_of_one};
ghost use Rattle.plain_machine.specs.Calls.{with_filter, with_sentinel, with_coding};
ghost use Rattle.plain_machine.specs.Arguments.{filter_value, sentinel_value, coding_value};
ghost use Rattle.plain_machine.specs.Hooks.{before_change_functions, hook_added, hook_removed};
ghost use Rattle.plain_machine.specs.Hooks.{most_hooks};
ghost use Rattle.process_table.specs.Meaning.{filter_of as filter_meant, status_of};
ghost use Rattle.utf8_stream.specs.Codings.{coding_of as coding_meant};
ghost use Rattle.ek_types.specs.Listing.{items_of};
ghost use Rattle.ek_types.specs.Property.{number_of};
ghost use Rattle.ek_call.specs.Meaning.{view};
ghost use Rattle.ek_call.specs.Primitives.{prim_of};
ghost use Rattle.kernel_steps.specs.Processes.{IsSilent, set_by, told_by};
ghost use Rattle.kernel_steps.specs.Waits.{Passes};
ghost use Rattle.kernel_state.specs.Meaning.{state_of};
ghost use Rattle.kernel_state.specs.Setting.{added};

use crate::kernel::KernelState;
use crate::questions::{process, process_buffer};
use change_hooks::{holds, remove_from};
use editor_prims::{arg, nil};
use ek_call::{Primitive, Value, Values};
use ek_types::{Copied, ListOf, Mem, Sym, SymList};
use kernel_steps::Program;
use prim_arguments::values::{list, plain, truth};
use process_table::{Filter, Process, Status};
use std::alloc::Global;
use utf8_stream::Coding;

// HOOKS

/// The symbol that a value is; the first one where it is none.
pub(crate) fn symbol_of(v: &Value) -> Sym
    ensures { result.0 ≡ symbol_of (view v.now) }
{
    match v {
        Value::Sym(name) => *name,
        _ => Sym(0),
    }
}

/// Whether a value names the functions before a change.
pub(crate) fn is_before(hook: &Value) -> bool
    ensures { result ≡ (symbol_of (view hook.now) == before_change_functions) }
{
    symbol_of(hook).0 == Sym::BEFORE_CHANGE_FUNCTIONS.0
}

/// Values with symbols behind them.
fn with_symbols(values: Values, names: &[Sym]) -> Mem<Values>
    ensures { IfOk result (λ all. map view (items_of all) ≡
        map view (items_of values) ++ map symbol (map number_of names.now)) }
{
    let mut all = values;
    for name in names {
        all.push(Value::Sym(*name))?;
    }
    Ok(all)
}

/// A symbol in front of others, as values.
fn with_first(alloc: Global, name: Sym, names: &[Sym]) -> Mem<Values>
    ensures { IfOk result (λ values. map view (items_of values) ≡
        map symbol (name.0 ∷ map number_of names.now)) }
{
    let mut values = ListOf::new(alloc);
    values.push(Value::Sym(name))?;
    with_symbols(values, names)
}

/// Hook functions with one in front, unless it stands there, as values.
fn with_hook(names: &SymList, name: Sym) -> Mem<Values>
    ensures { IfOk result (λ values. map view (items_of values) ≡
        map symbol (added name.0 (map number_of (items_of names.now)))) }
{
    if holds(names.as_slice(), name) {
        with_symbols(ListOf::new(names.allocator()), names.as_slice())
    } else {
        with_first(names.allocator(), name, names.as_slice())
    }
}

/// Hook functions without one, as values.
fn without_hook(names: SymList, name: Sym) -> Mem<Values>
    ensures { IfOk result (λ values. map view (items_of values) ≡
        map symbol (filter (λ n. not (n == name.0)) (map number_of (items_of names)))) }
{
    let mut others = names;
    remove_from(&mut others, name);
    with_symbols(ListOf::new(others.allocator()), others.as_slice())
}

/// Puts a function in front of a list of the current buffer, which then has at most 8. A refusal leaves all as it was.
fn add_hook(kernel: &mut KernelState, hook: &Value, function: &Value) -> Mem<Value>
    requires { length (hook_added (state_of kernel.old) (view hook.now) (view function.now)) ≤
        most_hooks }
    ensures value { IfOk result (λ v. view v ≡
        list (map symbol (hook_added (state_of kernel.old) (view hook.now) (view function.now)))) }
    ensures ok { OnOk result (state_of kernel.new ≡
        set_by AddHook (view hook.now ∷ view function.now ∷ []) (state_of kernel.old)) }
    ensures err { OnErr result (state_of kernel.new ≡ state_of kernel.old) }
{
    let current = kernel.editor.current();
    let before = is_before(hook);
    let name = symbol_of(function);
    let values = with_hook(kernel.hooks.list(current, before), name)?;
    kernel.hooks.add(current, before, name)?;
    Ok(list(values))
}

/// Takes a function out of a list of the current buffer. A refusal leaves all as it was.
fn remove_hook(kernel: &mut KernelState, hook: &Value, function: &Value) -> Mem<Value>
    ensures value { IfOk result (λ v. view v ≡
        list (map symbol (hook_removed (state_of kernel.old) (view hook.now) (view function.now)))) }
    ensures ok { OnOk result (state_of kernel.new ≡
        set_by RemoveHook (view hook.now ∷ view function.now ∷ []) (state_of kernel.old)) }
    ensures err { OnErr result (state_of kernel.new ≡ state_of kernel.old) }
{
    let current = kernel.editor.current();
    let before = is_before(hook);
    let name = symbol_of(function);
    let values = without_hook(kernel.hooks.names(current, before)?, name)?;
    kernel.hooks.remove(current, before, name);
    Ok(list(values))
}

// QUESTIONS

fn process_value(p: u32) -> Value
    ensures { view result ≡ TheProcess p }
{
    Value::Process(p)
}

/// The listed processes.
fn process_list(kernel: &KernelState) -> Mem<Value>
    ensures { IfOk result (λ v. view v ≡ list (listed (state_of kernel.now))) }
{
    let mut values = ListOf::new(kernel.alloc);
    for p in 0..kernel.processes.count() {
        if kernel.processes.get(p).listed() {
            values.push(process_value(p))?;
        }
    }
    Ok(list(values))
}

/// The process itself, or the listed one of a name, or nil.
fn get_process(kernel: &KernelState, v: &Value) -> Mem<Value>
    ensures { IfOk result (λ w. view w ≡ get_process (state_of kernel.now) (view v.now)) }
{
    match v {
        Value::Str(name) => match kernel.processes.named(name) {
            Some(p) => Ok(Value::Process(p)),
            None => Ok(Value::Nil),
        },
        _ => v.copy(),
    }
}

/// The symbols `run`, `exit`, `signal` and `failed`.
fn status_value(status: Status) -> Value
    ensures { view result ≡ symbol (status_symbol (status_of status)) }
{
    match status {
        Status::Run => Value::Sym(Sym::RUN),
        Status::Exit(_) => Value::Sym(Sym::EXIT),
        Status::Signal => Value::Sym(Sym::SIGNAL),
        Status::Failed => Value::Sym(Sym::FAILED),
    }
}

/// 0 of a process that runs, the code of one that exited, else nil.
fn exit_value(status: Status) -> Value
    ensures { view result ≡ exit_value (status_of status) }
{
    match status {
        Status::Run => Value::Int(0),
        Status::Exit(code) => Value::Int(i64::from(code)),
        Status::Signal | Status::Failed => Value::Nil,
    }
}

fn filter_value(filter: Filter) -> Value
    ensures { view result ≡ filter_value (filter_meant filter) }
{
    match filter {
        Filter::Default => Value::Nil,
        Filter::Off => Value::T,
        Filter::Named(name) => Value::Sym(name),
    }
}

fn sentinel_value(sentinel: Option<Sym>) -> Value
    ensures { view result ≡ sentinel_value (option_map number_of sentinel) }
{
    match sentinel {
        Some(name) => Value::Sym(name),
        None => Value::Nil,
    }
}

/// The symbols `utf-8-unix`, `utf-8-dos` and `latin-1-unix`.
fn coding_value(coding: Coding) -> Value
    ensures { view result ≡ coding_value (coding_meant coding) }
{
    match coding {
        Coding::Utf8 => Value::Sym(Sym::UTF_8_UNIX),
        Coding::Utf8Dos => Value::Sym(Sym::UTF_8_DOS),
        Coding::Latin1 => Value::Sym(Sym::LATIN_1_UNIX),
    }
}

fn buffer_value(buffer: Option<u32>) -> Value
    ensures { view result ≡ buffer_value buffer }
{
    match buffer {
        Some(id) => Value::Buffer(id),
        None => Value::Nil,
    }
}

/// What a call that asks about a process answers.
fn told(alloc: Global, prim: Primitive, process: &Process) -> Mem<Value>
    ensures { IfOk result (λ v. view v ≡ told_of (prim_of prim) process.now) }
{
    match prim {
        Primitive::ProcessName => plain(alloc, process.name()),
        Primitive::ProcessStatus => Ok(status_value(process.status())),
        Primitive::ProcessBuffer => Ok(buffer_value(process.buffer())),
        Primitive::ProcessMark => Ok(Value::Marker(process.mark())),
        Primitive::ProcessLiveP => Ok(truth(matches!(process.status(), Status::Run))),
        Primitive::ProcessExitStatus => Ok(exit_value(process.status())),
        Primitive::ProcessFilter => Ok(filter_value(process.filter())),
        Primitive::ProcessSentinel => Ok(sentinel_value(process.sentinel())),
        Primitive::ProcessCodingSystem => Ok(coding_value(process.coding())),
        _ => Ok(Value::Nil),
    }
}

/// What a call that asks about one process answers; nil where it wasn't made.
fn told_of_one(kernel: &KernelState, prim: Primitive, p: u32) -> Mem<Value>
    ensures { IfOk result (λ v. view v ≡ told_of_one (prim_of prim) (process (state_of kernel.now) p)) }
{
    if p >= kernel.processes.count() {
        return Ok(nil());
    }
    told(kernel.alloc, prim, kernel.processes.get(p))
}

// SETTING

/// The filter that a value is.
fn filter_of(v: &Value) -> Filter
    ensures { filter_meant result ≡ filter_of (view v.now) }
{
    match v {
        Value::Sym(name) => Filter::Named(*name),
        Value::T => Filter::Off,
        _ => Filter::Default,
    }
}

/// The sentinel that a value is.
fn sentinel_of(v: &Value) -> Option<Sym>
    ensures { option_map number_of result ≡ sentinel_of (view v.now) }
{
    match v {
        Value::Sym(name) => Some(*name),
        _ => None,
    }
}

/// The coding of which a symbol is the name; the first one where it is of none.
fn coding_named(name: u32) -> Coding
    ensures { coding_meant result ≡ coding_named name }
{
    if name == Sym::UTF_8_DOS.0 {
        Coding::Utf8Dos
    } else if name == Sym::LATIN_1_UNIX.0 {
        Coding::Latin1
    } else {
        Coding::Utf8
    }
}

/// The coding that a value is.
fn coding_of(v: &Value) -> Coding
    ensures { coding_meant result ≡ coding_of (view v.now) }
{
    match v {
        Value::Sym(name) => coding_named(name.0),
        _ => Coding::Utf8,
    }
}

/// Gives a process that was made a filter.
fn note_filter(kernel: &mut KernelState, p: u32, filter: Filter)
    ensures { state_of kernel.new ≡ change_process p (with_filter (filter_meant filter))
        (state_of kernel.old) }
{
    if p < kernel.processes.count() {
        kernel.processes.set_filter(p, filter);
    }
}

/// Sets the filter of a process that was made. A refusal leaves all as it was.
fn set_filter(kernel: &mut KernelState, v: &Value, filter: &Value) -> Mem<Value>
    ensures value { IfOk result (λ w. view w ≡ view filter.now) }
    ensures ok { OnOk result (state_of kernel.new ≡
        set_by SetProcessFilter (view v.now ∷ view filter.now ∷ []) (state_of kernel.old)) }
    ensures err { OnErr result (state_of kernel.new ≡ state_of kernel.old) }
{
    let answer = filter.copy()?;
    let p = process(kernel, v);
    note_filter(kernel, p, filter_of(filter));
    Ok(answer)
}

/// Gives a process that was made a sentinel.
fn note_sentinel(kernel: &mut KernelState, p: u32, sentinel: Option<Sym>)
    ensures { state_of kernel.new ≡ change_process p (with_sentinel (option_map number_of sentinel))
        (state_of kernel.old) }
{
    if p < kernel.processes.count() {
        kernel.processes.set_sentinel(p, sentinel);
    }
}

/// Sets the sentinel of a process that was made. A refusal leaves all as it was.
fn set_sentinel(kernel: &mut KernelState, v: &Value, sentinel: &Value) -> Mem<Value>
    ensures value { IfOk result (λ w. view w ≡ view sentinel.now) }
    ensures ok { OnOk result (state_of kernel.new ≡
        set_by SetProcessSentinel (view v.now ∷ view sentinel.now ∷ []) (state_of kernel.old)) }
    ensures err { OnErr result (state_of kernel.new ≡ state_of kernel.old) }
{
    let answer = sentinel.copy()?;
    let p = process(kernel, v);
    note_sentinel(kernel, p, sentinel_of(sentinel));
    Ok(answer)
}

/// Gives a process that was made a buffer.
fn note_buffer(kernel: &mut KernelState, p: u32, buffer: Option<u32>)
    ensures { state_of kernel.new ≡ change_process p (of_buffer buffer) (state_of kernel.old) }
{
    if p < kernel.processes.count() {
        kernel.processes.set_buffer(p, buffer);
    }
}

/// Sets the buffer of a process that was made. A refusal leaves all as it was.
fn set_buffer(kernel: &mut KernelState, v: &Value, b: &Value) -> Mem<Value>
    ensures value { IfOk result (λ w. view w ≡ view b.now) }
    ensures ok { OnOk result (state_of kernel.new ≡
        set_by SetProcessBuffer (view v.now ∷ view b.now ∷ []) (state_of kernel.old)) }
    ensures err { OnErr result (state_of kernel.new ≡ state_of kernel.old) }
{
    let answer = b.copy()?;
    let p = process(kernel, v);
    let buffer = process_buffer(&kernel.editor, b);
    note_buffer(kernel, p, buffer);
    Ok(answer)
}

/// Gives a process that was made a coding, as long as nothing was read of it.
fn note_coding(kernel: &mut KernelState, p: u32, coding: Coding)
    ensures { state_of kernel.new ≡ change_process p (with_coding (coding_meant coding))
        (state_of kernel.old) }
{
    if p < kernel.processes.count() {
        kernel.processes.set_coding(p, coding);
    }
}

/// Sets the coding of a process that was made. A refusal leaves all as it was.
fn set_coding(kernel: &mut KernelState, v: &Value, coding: &Value) -> Mem<Value>
    ensures value { IfOk result (λ w. view w ≡ view coding.now) }
    ensures ok { OnOk result (state_of kernel.new ≡
        set_by SetProcessCodingSystem (view v.now ∷ view coding.now ∷ []) (state_of kernel.old)) }
    ensures err { OnErr result (state_of kernel.new ≡ state_of kernel.old) }
{
    let answer = coding.copy()?;
    let p = process(kernel, v);
    note_coding(kernel, p, coding_of(coding));
    Ok(answer)
}

/// Makes a call on hooks or processes that asks the host nothing, enters nothing and isn't refused. Want of memory leaves
/// all as it was.
pub(crate) fn call_silently<P: Program>(
    kernel: &mut KernelState,
    program: &P,
    prim: Primitive,
    args: &Values,
) -> Mem<Value>
    requires silent { IsSilent (prim_of prim) }
    requires passes { Passes (P.meant program.now) (state_of kernel.old) (prim_of prim)
        (map view (items_of args.now)) }
    ensures value { IfOk result (λ v. view v ≡
        told_by (state_of kernel.old) (prim_of prim) (map view (items_of args.now))) }
    ensures ok { OnOk result (state_of kernel.new ≡
        set_by (prim_of prim) (map view (items_of args.now)) (state_of kernel.old)) }
    ensures err { OnErr result (state_of kernel.new ≡ state_of kernel.old) }
{
    let nil = nil();
    call_with(kernel, program, prim, args, &nil)
}

/// Makes such a call, with nil at hand for the arguments that were left out.
fn call_with<P: Program>(
    kernel: &mut KernelState,
    program: &P,
    prim: Primitive,
    args: &Values,
    nil: &Value,
) -> Mem<Value>
    requires nil { view nil.now ≡ Nil }
    requires silent { IsSilent (prim_of prim) }
    requires passes { Passes (P.meant program.now) (state_of kernel.old) (prim_of prim)
        (map view (items_of args.now)) }
    ensures value { IfOk result (λ v. view v ≡
        told_by (state_of kernel.old) (prim_of prim) (map view (items_of args.now))) }
    ensures ok { OnOk result (state_of kernel.new ≡
        set_by (prim_of prim) (map view (items_of args.now)) (state_of kernel.old)) }
    ensures err { OnErr result (state_of kernel.new ≡ state_of kernel.old) }
{
    let a = arg(args, 0, nil);
    let b = arg(args, 1, nil);
    match prim {
        Primitive::AddHook => add_hook(kernel, a, b),
        Primitive::RemoveHook => remove_hook(kernel, a, b),
        Primitive::ProcessList => process_list(kernel),
        Primitive::GetProcess => get_process(kernel, a),
        Primitive::SetProcessFilter => set_filter(kernel, a, b),
        Primitive::SetProcessSentinel => set_sentinel(kernel, a, b),
        Primitive::SetProcessBuffer => set_buffer(kernel, a, b),
        Primitive::SetProcessCodingSystem => set_coding(kernel, a, b),
        _ => {
            let p = process(kernel, a);
            told_of_one(kernel, prim, p)
        }
    }
}
