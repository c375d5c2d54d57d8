//! The text that a line session has gathered, and whether its buffer became full.
ghost use Rattle.std.specs.Prelude.{◌≡◌, ℕ, List, IfOk};
ghost use Rattle.std.specs.List.{list_any};
ghost use Rattle.std.specs.Io.KnownBytes.{Appends};
ghost use Rattle.text_model.specs.Characters.{encoded as encoded_character};
ghost use Rattle.plain_machine.specs.Arguments.{encoded};
ghost use Rattle.plain_machine.specs.State.{State};
ghost use Rattle.ek_types.specs.Io.{HasCause, Writes};
ghost use Rattle.ek_types.specs.Seen.{ch_of};
ghost use Rattle.buffer_table.specs.Kept.{editor_of};
ghost use Rattle.sink_printer.specs.Printing.{Prints};
ghost use Rattle.session_laws.specs.Standing.{session_name};
ghost use Rattle.session_laws.specs.Sessions.{is_stopped};
ghost use Rattle.kernel_steps.specs.Worlds.{Stands};
ghost use Rattle.kernel_run.specs.Meaning.{state_of};
ghost use Rattle.kernel_top.specs.Gathering.{gathered, gathered_status, Gathered};

use crate::status::Status;
use buffer_table::{BufferText, Editor};
use ek_types::{Ch, Chars, Mem, Sink, SinkFault};
use kernel_run::Kernel;
use process_table::{Filter, Process, Processes};
use sink_printer::Printer;
use std::alloc::Global;

/// Writes a character.
fn put_character<K: Sink>(out: &mut Printer<'_, K>, c: Ch)
    ensures { Prints K.state out.old out.new (encoded_character (ch_of c)) }
{
    let mut bytes = [0u8; 4];
    let size = c.encode(&mut bytes);
    out.put(&bytes[..size]);
}

/// Writes all characters of a text.
fn put_text<K: Sink>(out: &mut Printer<'_, K>, text: &BufferText<'_>)
    ensures { Prints K.state out.old out.new (encoded text.now.buffer.text) }
{
    for i in 0..text.len() {
        put_character(out, text.ch(i));
    }
}

/// Writes a text, and nothing else.
fn write_text<K: Sink>(text: &BufferText<'_>, sink: &mut K) -> Result<(), SinkFault>
    ensures { Writes (K.state sink.old) (K.state sink.new) result (encoded text.now.buffer.text) }
{
    let mut out = Printer::new(sink);
    put_text(&mut out, text);
    out.finish()
}

/// The name of the buffer in which a session gathers its output.
pub(crate) fn buffer_name(alloc: Global) -> Mem<Chars>
    ensures { IfOk result (λ name. name.items ≡ session_name) }
{
    let mut name = Chars::new(alloc);
    name.extend_bytes(b"*session*")?;
    Ok(name)
}

/// Writes the text of the live buffer of a name, and nothing where there is none.
fn write_buffer<K: Sink>(editor: &Editor, name: &Chars, sink: &mut K) -> Result<(), SinkFault>
    requires { name.now.items ≡ session_name }
    ensures { Writes (K.state sink.old) (K.state sink.new) result (gathered (editor_of editor.now)) }
{
    let Some(id) = editor.find(name) else {
        return Ok(());
    };
    match editor.text(id) {
        Some(text) => write_text(&text, sink),
        None => Ok(()),
    }
}

/// Whether a process isn't read any more.
fn is_stopped(process: &Process) -> bool
    ensures { result ≡ is_stopped process.now }
{
    matches!(process.filter(), Filter::Off)
}

/// Whether the buffer of a session became full, for then its natives stop a process.
fn is_full(processes: &Processes) -> bool
    ensures { result ≡ list_any is_stopped processes.now }
{
    for p in 0..processes.count() {
        if is_stopped(processes.get(p)) {
            return true;
        }
    }
    false
}

/// The status of a session that was run to its end, by whether its text was written and whether its buffer became
/// full.
fn gathered_status(written: Result<(), SinkFault>, full: bool) -> Status
    ensures { result ≡ gathered_status full written }
{
    match written {
        Ok(()) if full => Status::SessionFull,
        Ok(()) => Status::Done,
        Err(_) => Status::WriteFault,
    }
}

/// Writes what a kernel has gathered in a session that was run to its end.
pub(crate) fn write_gathered<K: Sink>(kernel: &Kernel, name: &Chars, sink: &mut K) -> Status
    requires { name.now.items ≡ session_name }
    ensures written { (last : State) → Stands (state_of kernel.now) last → (written : List ℕ)
        × Appends (K.state sink.old).held (K.state sink.new).held written
        × Gathered result last written (K.state sink.old) (K.state sink.new) }
    ensures write_fault { HasCause (K.state sink.old).faults (K.state sink.new).faults
        (result ≡ Status.WriteFault) }
{
    let full = is_full(kernel.processes());
    gathered_status(write_buffer(kernel.editor(), name, sink), full)
}
