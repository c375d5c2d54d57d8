//! The lines of the live buffers in the dump.
ghost use Rattle.std.specs.Prelude.{codes, [], if◌then◌else◌, map, flat_map, Some};
ghost use Rattle.std.specs.List.{enumerate_from};
ghost use Rattle.editor_model.specs.Editor.{live};
ghost use Rattle.plain_machine.specs.Lines.{shown_live};
ghost use Rattle.buffer_table.specs.Kept.{editor_of};
ghost use Rattle.sink_printer.specs.Printing.{Prints};
ghost use Rattle.trace_print.specs.Dumped.{buffer_lines};
ghost use Rattle.trace_print.specs.Strings.{string_words};

use crate::names::Names;
use crate::number::position;
use crate::runs::{Sets, has_properties};
use crate::string::lent_runs;
use crate::text::{Characters, quoted, unquoted};
use buffer_table::BufferText;
use ek_types::{Ch, PropSet, Sink, Symbols};
use sink_printer::Printer;

impl Characters for BufferText<'_> {
    ghost use Rattle.std.specs.Prelude.{map};

    ghost chars = { λ t. map (λ c. c.0) t.buffer.text };

    fn count(&self) -> usize {
        self.len()
    }

    fn character(&self, i: usize) -> Ch {
        self.ch(i)
    }

    fn codes(&self, i: usize) -> &[u32] {
        self.stretch(i)
    }
}

impl Sets for BufferText<'_> {
    ghost use Rattle.std.specs.Prelude.{map};

    ghost sets = { λ t. map (λ c. c.1) t.buffer.text };

    fn size(&self) -> usize {
        self.len()
    }

    fn set(&self, i: usize) -> &PropSet {
        self.props(i)
    }

    fn end_of_run(&self, i: usize) -> usize {
        self.run_end(i)
    }
}

fn flag<K: Sink>(out: &mut Printer<'_, K>, flag: bool)
    ensures { Prints K.state out.old out.new (if flag then codes "t" else codes "nil") }
{
    if flag {
        out.put(b"t");
    } else {
        out.put(b"nil");
    }
}

/// Writes that a buffer is read-only, where it is.
fn read_only_word<K: Sink>(out: &mut Printer<'_, K>, read_only: bool)
    ensures { Prints K.state out.old out.new (if read_only then codes " read-only" else []) }
{
    if read_only {
        out.put(b" read-only");
    }
}

/// Writes what stands in front of a text, of the current buffer or another.
fn text_word<K: Sink>(out: &mut Printer<'_, K>, current: bool)
    ensures { Prints K.state out.old out.new
        (if current then codes " current\ntext " else codes "\ntext ") }
{
    if current {
        out.put(b" current\ntext ");
    } else {
        out.put(b"\ntext ");
    }
}

/// Writes the text of a buffer with its properties.
fn whole_text<K: Sink>(out: &mut Printer<'_, K>, text: &BufferText<'_>, symbols: &Symbols)
    ensures { Prints K.state out.old out.new (string_words symbols.now
        (map (λ c. c.0) text.now.buffer.text) (map (λ c. c.1) text.now.buffer.text)) }
{
    if has_properties(text) {
        let runs = text.runs();
        // Read so that it is known to fit its type.
        let _size = runs.len();
        out.put(b"#(");
        quoted(out, text);
        lent_runs(out, &runs, 0, symbols);
        out.put(b")");
    } else {
        quoted(out, text);
    }
}

/// Writes both lines of a live buffer.
fn buffer_lines<K: Sink>(
    out: &mut Printer<'_, K>,
    text: &BufferText<'_>,
    current: bool,
    symbols: &Symbols,
)
    ensures { Prints K.state out.old out.new (buffer_lines symbols.now current text.now) }
{
    out.put(b"buffer ");
    unquoted(out, text.name());
    out.put(b" point ");
    position(out, text.point());
    out.put(b" min ");
    position(out, text.begin());
    out.put(b" max ");
    position(out, text.end());
    out.put(b" modified ");
    flag(out, text.modified());
    read_only_word(out, text.read_only());
    text_word(out, current);
    whole_text(out, text, symbols);
    out.put(b"\n");
}

/// Writes the lines of the buffer of a number, and nothing where it doesn't live.
fn numbered_buffer<K: Sink>(out: &mut Printer<'_, K>, id: u32, names: &Names)
    ensures { Prints K.state out.old out.new
        (shown_live names.now.symbols.now (editor_of names.now.editor.now).current
        (id, live (editor_of names.now.editor.now) id)) }
{
    if let Some(text) = names.editor.text(id) {
        buffer_lines(out, &text, id == names.editor.current(), names.symbols);
    }
}

pub(crate) fn buffers<K: Sink>(out: &mut Printer<'_, K>, names: &Names)
    ensures { Prints K.state out.old out.new
        (flat_map (shown_live names.now.symbols.now (editor_of names.now.editor.now).current)
        (enumerate_from 0 (editor_of names.now.editor.now).buffers)) }
{
    for id in 0..names.editor.count() {
        numbered_buffer(out, id, names);
    }
}
