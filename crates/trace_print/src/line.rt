//! The lines of a run, and its dump. All calls are for every value, whatever it names: an object that isn't known is
//! printed as the definitions say. A failure of the sink leaves a front of the bytes in it.
ghost use Rattle.std.specs.Prelude.{ℕ, map, option_map};
ghost use Rattle.plain_machine.specs.Lines.{Replied, Entered, Left, KilledLast, Dumped};
ghost use Rattle.plain_machine.specs.Lines.{fault_words, kind_word, handler_word, shown};
ghost use Rattle.ek_types.specs.Listing.{items_of};
ghost use Rattle.ek_types.specs.Property.{number_of};
ghost use Rattle.ek_call.specs.Meaning.{view, reply_of};
ghost use Rattle.ek_call.specs.Faults.{fault_of};
ghost use Rattle.sink_printer.specs.Printing.{Prints};
ghost use Rattle.trace_print.specs.Strings.{led};
ghost use Rattle.trace_print.specs.Standing.{state_of, Tells};
ghost use Rattle.trace_print.specs.Kinds.{kind_of, margin, reply_words};

use crate::buffer_dump::buffers;
use crate::kind::Kind;
use crate::names::Names;
use crate::number::count;
use crate::object;
use crate::objects_dump::{markers, overlays, processes};
use crate::symbol::symbol;
use crate::value::{value, values};
use ek_call::{Fault, Reply, Values};
use ek_types::{Sink, SinkFault, Sym, Symbols};
use sink_printer::Printer;

/// Writes the two blanks that stand in front of a line for each level of depth.
fn margin<K: Sink>(out: &mut Printer<'_, K>, depth: u32)
    ensures { Prints K.state out.old out.new (margin depth) }
{
    'level: for _ in 0..depth {
        out.put(b"  ");
    }
}

fn fault_words<K: Sink>(out: &mut Printer<'_, K>, fault: Fault)
    ensures { Prints K.state out.old out.new (fault_words (fault_of fault)) }
{
    count(out, usize::from(fault.number()));
    out.put(b" ");
    out.put(fault.name().as_bytes());
}

fn reply_words<K: Sink>(out: &mut Printer<'_, K>, reply: &Reply, names: &Names)
    ensures { Prints K.state out.old out.new
        (reply_words names.now.symbols.now (state_of names.now) (reply_of reply.now)) }
{
    match reply {
        Reply::Value(v) => {
            out.put(b"= ");
            value(out, v, names);
        }
        Reply::Fault(fault) => {
            out.put(b"! ");
            fault_words(out, *fault);
        }
    }
}

fn kind_word<K: Sink>(out: &mut Printer<'_, K>, kind: Kind)
    ensures { (n : ℕ) → Prints K.state out.old out.new (kind_word (kind_of kind n)) }
{
    match kind {
        Kind::Filter => out.put(b"filter"),
        Kind::Sentinel => out.put(b"sentinel"),
        Kind::Before => out.put(b"before"),
        Kind::After => out.put(b"after"),
    }
}

fn handler_word<K: Sink>(out: &mut Printer<'_, K>, handler: Option<Sym>, symbols: &Symbols)
    ensures { Prints K.state out.old out.new
        (handler_word symbols.now (option_map number_of handler)) }
{
    match handler {
        Some(name) => symbol(out, name, symbols),
        None => out.put(b"default"),
    }
}

/// Writes some values, with a blank in front of each.
fn arguments<K: Sink>(out: &mut Printer<'_, K>, args: &Values, names: &Names)
    ensures { Prints K.state out.old out.new
        (led (map (shown names.now.symbols.now (state_of names.now))
        (map view (items_of args.now)))) }
{
    if args.len() > 0 {
        out.put(b" ");
        values(out, args, names);
    }
}

/// Writes the line of what a call came to, two blanks further in for each level of depth. A sink that failed has a front
/// of it; so it is with the other lines.
pub fn reply<K: Sink>(
    depth: u32,
    reply: &Reply,
    names: &Names,
    sink: &mut K,
) -> Result<(), SinkFault>
    ensures { Tells names.now (K.state sink.old) (K.state sink.new) result
        (Replied depth (reply_of reply.now)) }
{
    let mut out = Printer::new(sink);
    margin(&mut out, depth);
    reply_words(&mut out, reply, names);
    out.put_byte(b'\n');
    out.finish()
}

/// Writes the line of a handler's entry, at the depth outside it. `None` is the default handler.
pub fn entry<K: Sink>(
    depth: u32,
    kind: Kind,
    handler: Option<Sym>,
    args: &Values,
    names: &Names,
    sink: &mut K,
) -> Result<(), SinkFault>
    ensures { (n : ℕ) → Tells names.now (K.state sink.old) (K.state sink.new) result
        (Entered depth (kind_of kind n) (option_map number_of handler)
        (map view (items_of args.now))) }
{
    let mut out = Printer::new(sink);
    margin(&mut out, depth);
    out.put(b"> ");
    kind_word(&mut out, kind);
    out.put_byte(b' ');
    handler_word(&mut out, handler, names.symbols);
    arguments(&mut out, args, names);
    out.put_byte(b'\n');
    out.finish()
}

/// Writes the line of a handler's end, at the depth outside it. `None` is the default handler.
pub fn exit<K: Sink>(
    depth: u32,
    handler: Option<Sym>,
    names: &Names,
    sink: &mut K,
) -> Result<(), SinkFault>
    ensures { Tells names.now (K.state sink.old) (K.state sink.new) result
        (Left depth (option_map number_of handler)) }
{
    let mut out = Printer::new(sink);
    margin(&mut out, depth);
    out.put(b"< ");
    handler_word(&mut out, handler, names.symbols);
    out.put_byte(b'\n');
    out.finish()
}

/// Writes the line of a child killed at the end of a run.
pub fn kill<K: Sink>(process: u32, names: &Names, sink: &mut K) -> Result<(), SinkFault>
    ensures { Tells names.now (K.state sink.old) (K.state sink.new) result (KilledLast process) }
{
    let mut out = Printer::new(sink);
    out.put(b"kill ");
    object::process(&mut out, process, names);
    out.put_byte(b'\n');
    out.finish()
}

/// Writes the dump: all live buffers with their texts, then all markers, overlays and processes, each by rising number.
/// A sink that failed has a front of it.
pub fn dump<K: Sink>(names: &Names, sink: &mut K) -> Result<(), SinkFault>
    ensures { Tells names.now (K.state sink.old) (K.state sink.new) result Dumped }
{
    let mut out = Printer::new(sink);
    buffers(&mut out, names);
    markers(&mut out, names.editor);
    overlays(&mut out, names);
    processes(&mut out, names);
    out.finish()
}
