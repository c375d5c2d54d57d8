//! What several of these tests need: comparing, texts, sinks, markers and properties of overlays, and journals both ways.
ghost use Rattle.std.specs.Prelude.{◌<◌, IfOk};
ghost use Rattle.host_link.specs.Meaning.{exchanges_of};
ghost use Rattle.journal_text.specs.Allowed.{AreAnswered};

use buffer_table::Editor;
use ek_types::{Ch, Chars, MemorySink, Piece, PropSet, PropVal, Sym, Symbols};
use host_link::Exchanges;
use journal_text::{JournalFault, LONGEST_SESSION, read_journal, write_journal};
use process_table::Processes;
use std::alloc::Global;
use std::fmt::Debug;
use std::process::Abort;
use std::rc::Rc;
use std::slice;
use trace_print::{Names, dump};

pub const EVAPORATE: Sym = Sym(2);

pub const PRIORITY: Sym = Sym(3);

/// What was found is what was expected.
pub fn is<T: PartialEq + Debug + Drop>(rt: &impl Abort, found: T, expected: T) {
    assert_eq!(rt; found, expected);
}

/// Nothing was refused, and these bytes stand in the sink.
pub fn wrote<E: Debug + Drop>(
    rt: &impl Abort,
    sink: &MemorySink,
    written: Result<(), E>,
    bytes: &[u8],
) {
    written.expect(rt, "all is written");
    is(rt, sink.bytes(), bytes);
}

/// These bytes were refused with a line.
pub fn refused(rt: &impl Abort, fault: Option<JournalFault>, line: u32, bytes: &str) {
    assert_eq!(rt; fault, Some(JournalFault::Line(line)), "{bytes}");
}

/// A dump of an editor and of processes is this.
pub fn dumps(rt: &impl Abort, alloc: Global, editor: &Editor, processes: &Processes, bytes: &[u8]) {
    let symbols = Symbols::new(alloc).expect(rt, "symbols");
    let names = Names {
        editor,
        processes,
        symbols: &symbols,
    };
    let mut sink = new_sink(rt, alloc, 2000, 2000);
    let written = dump(&names, &mut sink);
    wrote(rt, &sink, written, bytes);
}

/// The characters of a text.
pub fn chars(rt: &impl Abort, alloc: Global, text: &str) -> Chars {
    let mut chars = Chars::new(alloc);
    for c in text.chars() {
        chars.push(Ch::Scalar(c)).expect(rt, "a character");
    }
    chars
}

/// A string as the value of a property.
pub fn string(rt: &impl Abort, alloc: Global, text: Chars) -> PropVal {
    PropVal::Text(Rc::new(alloc, text).expect(rt, "a string"))
}

/// A text without properties.
pub fn plain(rt: &impl Abort, alloc: Global, text: &str) -> Piece {
    Piece::plain(alloc, chars(rt, alloc, text)).expect(rt, "a piece")
}

/// A set with one property more.
pub fn with(rt: &impl Abort, set: PropSet, name: Sym, value: &PropVal) -> PropSet {
    set.with(name, value).expect(rt, "a set")
}

/// Gives a part of a text the properties of a set.
pub fn paint(rt: &impl Abort, text: &mut Piece, from: usize, to: usize, set: &PropSet) {
    assert!(rt; from <= to && to <= text.len());
    text.put(from, to, set).expect(rt, "room");
}

/// Puts a text in at the start of a buffer.
pub fn fill(rt: &impl Abort, editor: &mut Editor, id: u32, text: &Piece) {
    assert!(rt; editor.is_live(id));
    editor
        .replace(id, 0, 0, slice::from_ref(text), false)
        .expect(rt, "room");
}

/// A sink with room for so many bytes, which takes at most a piece in a call.
pub fn new_sink(rt: &impl Abort, alloc: Global, room: usize, piece: usize) -> MemorySink
    requires { 0 < piece }
{
    let fails = Vec::new(alloc);
    MemorySink::new(alloc, room, piece, fails).expect(rt, "a sink")
}

/// Makes a buffer of a name that none has.
pub fn make_buffer(rt: &impl Abort, editor: &mut Editor, name: &Chars) -> u32 {
    assert!(rt; editor.count() < 9 && editor.find(name).is_none());
    editor.make(name).expect(rt, "a buffer")
}

pub fn kill_buffer(rt: &impl Abort, editor: &mut Editor, id: u32) {
    assert!(rt; editor.count() < 9 && editor.is_live(id));
    editor.kill(id).expect(rt, "a death");
}

/// Makes a part of a buffer the accessible one.
pub fn narrow(rt: &impl Abort, editor: &mut Editor, id: u32, start: usize, end: usize) {
    let size = editor.size(id);
    assert!(rt; editor.is_live(id) && start <= end && end <= size);
    editor.narrow(id, start, end);
}

/// Points a marker to a place of a buffer.
fn point(rt: &impl Abort, editor: &mut Editor, k: u32, id: u32, place: usize) {
    let size = editor.size(id);
    assert!(rt; k < editor.marker_count() && editor.is_live(id) && place <= size);
    editor.set_marker(k, Some((id, place)));
}

/// A marker at a place of a buffer.
pub fn mark(rt: &impl Abort, editor: &mut Editor, id: u32, place: usize, advances: bool) {
    assert!(rt; editor.marker_count() < 9);
    let k = editor.make_marker().expect(rt, "a marker");
    point(rt, editor, k, id, place);
    assert!(rt; k < editor.marker_count());
    editor.set_marker_kind(k, advances);
}

/// A property of an overlay.
pub fn put(rt: &impl Abort, editor: &mut Editor, k: u32, name: Sym, value: &PropVal) {
    assert!(rt; k < editor.overlay_count());
    editor.put_overlay(k, name, Some(value)).expect(rt, "room");
}

/// A process of this name, or of the first that is free.
pub fn add_process(rt: &impl Abort, table: &mut Processes, name: &Chars) -> u32 {
    assert!(rt; table.count() < 9);
    let free = table.free_name(name).expect(rt, "a name");
    table.add(&free, 0, None, 0).expect(rt, "a process")
}

/// The list of a journal, and where the script begins.
pub fn read(
    rt: &impl Abort,
    alloc: Global,
    bytes: &[u8],
) -> Result<(Exchanges, usize), JournalFault>
    ensures { IfOk result (λ r. AreAnswered 0 (exchanges_of r.0)) }
{
    assert!(rt; bytes.len() <= LONGEST_SESSION);
    read_journal(alloc, bytes)
}

/// This is written of a list.
pub fn is_written(rt: &impl Abort, alloc: Global, list: &Exchanges, journal: &str) {
    let mut sink = new_sink(rt, alloc, 65536, 65536);
    let written = write_journal(list, &mut sink);
    wrote(rt, &sink, written, journal.as_bytes());
}
