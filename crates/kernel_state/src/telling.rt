//! The lines of a run, as its state has the names.
ghost use Rattle.std.specs.Prelude.{◌≡◌, ◌-◌, ℕ, map, option_map};
ghost use Rattle.plain_machine.specs.Lines.{Replied, Entered, Left, KilledLast, Dumped, line};
ghost use Rattle.ek_types.specs.Io.{Writes};
ghost use Rattle.ek_types.specs.Listing.{items_of};
ghost use Rattle.ek_types.specs.Property.{number_of};
ghost use Rattle.ek_call.specs.Meaning.{view, reply_of};
ghost use Rattle.trace_print.specs.Kinds.{kind_of as word_of};
ghost use Rattle.trace_print.specs.Standing.{AreNamesIn};
ghost use Rattle.kernel_steps.specs.Handlers.{kind_of};
ghost use Rattle.kernel_state.specs.Meaning.{state_of};

use crate::kernel::KernelState;
use ek_call::{Reply, Values};
use ek_types::{Sink, SinkFault, Sym, Symbols};
use kernel_steps::Kind;
use trace_print::{Kind as Word, Names};

/// What stands behind the objects and symbols of values.
fn names<'a>(kernel: &'a KernelState, symbols: &'a Symbols) -> Names<'a>
    ensures known { AreNamesIn (state_of kernel.now) result }
    ensures symbols { result.symbols.now ≡ symbols.now }
{
    Names {
        editor: &kernel.editor,
        processes: &kernel.processes,
        symbols,
    }
}

/// The word of what is entered.
fn word(kind: Kind) -> Word
    ensures { (number : ℕ) × (word_of result number ≡ kind_of kind) }
{
    match kind {
        Kind::Filter(_) => Word::Filter,
        Kind::Sentinel(_) => Word::Sentinel,
        Kind::Before(_) => Word::Before,
        Kind::After(_) => Word::After,
    }
}

/// Writes the line of a handler's entry.
pub(crate) fn tell_entry<K: Sink>(
    kernel: &KernelState,
    symbols: &Symbols,
    kind: Kind,
    handler: Option<Sym>,
    args: &Values,
    sink: &mut K,
) -> Result<(), SinkFault>
    ensures { Writes (K.state sink.old) (K.state sink.new) result (line symbols.now (state_of kernel.now)
        (Entered (state_of kernel.now).depth (kind_of kind) (option_map number_of handler)
        (map view (items_of args.now)))) }
{
    let names = names(kernel, symbols);
    trace_print::entry(kernel.depth, word(kind), handler, args, &names, sink)
}

/// Writes the line of a handler's end.
pub(crate) fn tell_exit<K: Sink>(
    kernel: &KernelState,
    symbols: &Symbols,
    handler: Option<Sym>,
    sink: &mut K,
) -> Result<(), SinkFault>
    ensures { Writes (K.state sink.old) (K.state sink.new) result (line symbols.now (state_of kernel.now)
        (Left ((state_of kernel.now).depth - 1) (option_map number_of handler))) }
{
    let names = names(kernel, symbols);
    trace_print::exit(kernel.depth.saturating_sub(1), handler, &names, sink)
}

/// Writes the line of a reply.
pub(crate) fn tell_reply<K: Sink>(
    kernel: &KernelState,
    symbols: &Symbols,
    reply: &Reply,
    sink: &mut K,
) -> Result<(), SinkFault>
    ensures { Writes (K.state sink.old) (K.state sink.new) result (line symbols.now (state_of kernel.now)
        (Replied (state_of kernel.now).depth (reply_of reply.now))) }
{
    let names = names(kernel, symbols);
    trace_print::reply(kernel.depth, reply, &names, sink)
}

/// Writes the line of the kill of a process at the end of a run.
pub(crate) fn tell_kill<K: Sink>(
    kernel: &KernelState,
    symbols: &Symbols,
    p: u32,
    sink: &mut K,
) -> Result<(), SinkFault>
    ensures { Writes (K.state sink.old) (K.state sink.new) result (line symbols.now (state_of kernel.now)
        (KilledLast p)) }
{
    let names = names(kernel, symbols);
    trace_print::kill(p, &names, sink)
}

/// Writes the dump.
pub(crate) fn tell_dump<K: Sink>(
    kernel: &KernelState,
    symbols: &Symbols,
    sink: &mut K,
) -> Result<(), SinkFault>
    ensures { Writes (K.state sink.old) (K.state sink.new) result (line symbols.now
        (state_of kernel.now) Dumped) }
{
    let names = names(kernel, symbols);
    trace_print::dump(&names, sink)
}
