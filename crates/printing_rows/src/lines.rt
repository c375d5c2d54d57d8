//! Printing: each escape, each printed form, the lines, a dump, and a sink that fails in the middle.

use crate::checking::{
    EVAPORATE, PRIORITY, add_process, chars, dumps, fill, is, kill_buffer, make_buffer, mark,
    new_sink, paint, plain, with, wrote,
};
use buffer_table::Editor;
use ek_call::{Fault, Reply, Value, Values};
use ek_types::{Ch, Chars, MemorySink, Piece, PropSet, PropVal, SinkFault, Sym, Symbols};
use process_table::Processes;
use std::alloc::Global;
use std::process::Abort;
use trace_print::{Kind, Names, entry, exit, kill, reply};

/// A string in which the properties change at each character.
fn decorated(rt: &impl Abort, alloc: Global) -> Piece {
    let mut text = plain(rt, alloc, "abc");
    let one = with(rt, PropSet::empty(alloc), PRIORITY, &PropVal::Int(5));
    paint(rt, &mut text, 0, 1, &one);
    let two = with(rt, one, EVAPORATE, &PropVal::Truth);
    paint(rt, &mut text, 1, 2, &two);
    text
}

fn push(rt: &impl Abort, list: &mut Values, value: Value) {
    list.push(value).expect(rt, "a value");
}

/// The list `(5 . -1)`.
fn pair(rt: &impl Abort, alloc: Global) -> Value {
    let mut front = Values::new(alloc);
    push(rt, &mut front, Value::Int(5));
    let end = Box::new(alloc, Value::Int(-1)).expect(rt, "a value");
    Value::Dot(front, end)
}

/// Three values by themselves, two strings and a list.
fn push_whole(rt: &impl Abort, alloc: Global, list: &mut Values) {
    push(rt, list, Value::Nil);
    push(rt, list, Value::T);
    push(rt, list, Value::Sym(EVAPORATE));
    push(rt, list, Value::Str(decorated(rt, alloc)));
    push(rt, list, Value::Str(plain(rt, alloc, "")));
    push(rt, list, pair(rt, alloc));
}

/// Values that name something or nothing.
fn push_names(rt: &impl Abort, list: &mut Values) {
    push(rt, list, Value::Buffer(0));
    push(rt, list, Value::Buffer(9));
    push(rt, list, Value::Marker(9));
    push(rt, list, Value::Overlay(9));
    push(rt, list, Value::Process(0));
}

/// A list of each kind of value, of which some name nothing.
fn one_of_each(rt: &impl Abort, alloc: Global) -> Values {
    let mut list = Values::new(alloc);
    push_whole(rt, alloc, &mut list);
    push_names(rt, &mut list);
    list
}

fn one_process(rt: &impl Abort, alloc: Global) -> Processes {
    let mut processes = Processes::new(alloc);
    add_process(rt, &mut processes, &chars(rt, alloc, "c"));
    processes
}

/// Writes a reply, where there is no process.
fn put_reply(
    rt: &impl Abort,
    alloc: Global,
    editor: &Editor,
    told: &Reply,
    sink: &mut MemorySink,
) -> Result<(), SinkFault> {
    let symbols = Symbols::new(alloc).expect(rt, "symbols");
    let processes = Processes::new(alloc);
    let names = Names {
        editor,
        processes: &processes,
        symbols: &symbols,
    };
    reply(0, told, &names, sink)
}

/// The reply that is this string.
fn string(rt: &impl Abort, alloc: Global, text: Chars) -> Reply {
    Reply::Value(Value::Str(Piece::plain(alloc, text).expect(rt, "a piece")))
}

/// Writes the reply that is this string.
fn tell(
    rt: &impl Abort,
    alloc: Global,
    text: Chars,
    sink: &mut MemorySink,
) -> Result<(), SinkFault> {
    let told = string(rt, alloc, text);
    let editor = Editor::new(alloc).expect(rt, "an editor");
    let written = put_reply(rt, alloc, &editor, &told, sink);
    editor.close();
    written
}

/// Characters of each kind that strings escape, and some that they don't.
fn escaped(rt: &impl Abort, alloc: Global) -> Chars {
    let mut text = chars(rt, alloc, "a\"\\\n\t\u{1}\u{7F}é€");
    text.push(Ch::Raw(0xFF)).expect(rt, "a character");
    text
}

#[test]
fn each_escape_is_written(rt: HostRuntime) {
    let mut sink = new_sink(&rt, rt.alloc(), 100, 7);
    let written = tell(&rt, rt.alloc(), escaped(&rt, rt.alloc()), &mut sink);
    wrote(
        &rt,
        &sink,
        written,
        b"= \"a\\\"\\\\\\n\\t\\001\\177\xC3\xA9\xE2\x82\xAC\\377\"\n",
    );
}

/// A control character or raw byte as it is written: a mark and three octal digits.
fn put_octal(rt: &impl Abort, bytes: &mut Vec<u8>, byte: u8) {
    for digit in [
        b'\\',
        b'0' + byte / 64,
        b'0' + byte / 8 % 8,
        b'0' + byte % 8,
    ] {
        bytes.push(digit).expect(rt, "a digit");
    }
}

/// Whether a code is that of a control character which strings write in octal.
fn is_control(code: u8) -> bool {
    code == 0x7F || code < 0x20 && code != 9 && code != 10
}

/// All control characters but the tab and the line feed, and all raw bytes, as characters and as they are written.
fn put_all_octal(rt: &impl Abort, text: &mut Chars, written: &mut Vec<u8>) {
    for code in 0u8..=255 {
        if code >= 0x80 {
            text.push(Ch::Raw(code)).expect(rt, "a character");
            put_octal(rt, written, code);
        } else if is_control(code) {
            text.push(Ch::Scalar(char::from(code)))
                .expect(rt, "a character");
            put_octal(rt, written, code);
        }
    }
}

/// What is written of these characters.
fn all_octal(rt: &impl Abort, alloc: Global, text: &mut Chars) -> Vec<u8> {
    let mut written = b"= \"".to_vec(alloc).expect(rt, "a text");
    put_all_octal(rt, text, &mut written);
    written.extend_from_slice(b"\"\n").expect(rt, "a text");
    written
}

#[test]
fn control_characters_and_raw_bytes_are_written_in_octal(rt: HostRuntime) {
    let mut text = Chars::new(rt.alloc());
    let expected = all_octal(&rt, rt.alloc(), &mut text);
    let mut sink = new_sink(&rt, rt.alloc(), 1000, 1000);
    let written = tell(&rt, rt.alloc(), text, &mut sink);
    wrote(&rt, &sink, written, expected.as_slice());
}

/// The sink has a front of the reply, and no more than a part of it.
fn has_front(rt: &impl Abort, sink: &MemorySink) {
    is(rt, sink.bytes().starts_with(b"= \"aaa"), true);
    is(rt, sink.bytes().len() < 1000, true);
}

/// A text longer than what is written in some calls.
fn long_text(rt: &impl Abort, alloc: Global) -> Chars {
    let text = "a".repeat(alloc, 3000).expect(rt, "a text");
    chars(rt, alloc, text.as_str())
}

/// A sink that fails at its second call alone.
fn failing_sink(rt: &impl Abort, alloc: Global) -> MemorySink {
    let fails = vec![in alloc; 1].expect(rt, "a list");
    MemorySink::new(alloc, 4000, 4000, fails).expect(rt, "a sink")
}

#[test]
fn nothing_is_written_behind_a_failure(rt: HostRuntime) {
    let mut sink = failing_sink(&rt, rt.alloc());
    let written = tell(&rt, rt.alloc(), long_text(&rt, rt.alloc()), &mut sink);
    is(&rt, written, Err(SinkFault));
    has_front(&rt, &sink);
}

/// A handler is entered without arguments.
fn enter(
    rt: &impl Abort,
    depth: u32,
    kind: Kind,
    handler: Option<Sym>,
    names: &Names,
    sink: &mut MemorySink,
) {
    let none = Values::new(names.editor.allocator());
    entry(depth, kind, handler, &none, names, sink).expect(rt, "a line");
}

fn leave(rt: &impl Abort, depth: u32, handler: Option<Sym>, names: &Names, sink: &mut MemorySink) {
    exit(depth, handler, names, sink).expect(rt, "a line");
}

fn answer(rt: &impl Abort, depth: u32, told: Reply, names: &Names, sink: &mut MemorySink) {
    reply(depth, &told, names, sink).expect(rt, "a line");
}

/// A line of each kind, of which one tells this reply.
fn put_lines(rt: &impl Abort, told: Reply, names: &Names, sink: &mut MemorySink) {
    answer(rt, 1, told, names, sink);
    answer(rt, 2, Reply::Fault(Fault::BufferKilled), names, sink);
    enter(rt, 0, Kind::Sentinel, Some(EVAPORATE), names, sink);
    enter(rt, 1, Kind::After, None, names, sink);
    leave(rt, 1, None, names, sink);
    leave(rt, 0, Some(EVAPORATE), names, sink);
}

/// A line about a process, and lines at the deepest margin.
fn put_more_lines(rt: &impl Abort, names: &Names, sink: &mut MemorySink) {
    kill(0, names, sink).expect(rt, "a line");
    answer(rt, 17, Reply::Value(Value::Nil), names, sink);
    enter(rt, 16, Kind::Filter, None, names, sink);
    leave(rt, 16, None, names, sink);
}

const PRINTED: &str = concat!(
    "  = (nil t evaporate #(\"abc\" 0 1 (priority 5) 1 2 (evaporate t priority 5)) \"\" (5 . -1)",
    " #<buffer *scratch*> #<killed buffer> #<marker in no buffer> #<overlay in no buffer> #<process c>)",
    "
    ! 5 buffer-killed
> sentinel evaporate
  > after default
  < default
< evaporate
kill #<process c>
                                  = nil
                                > filter default
                                < default
",
);

/// Each form and each line, where there is one process.
fn print(rt: &impl Abort, alloc: Global, editor: &Editor, sink: &mut MemorySink) {
    let symbols = Symbols::new(alloc).expect(rt, "symbols");
    let processes = one_process(rt, alloc);
    let names = Names {
        editor,
        processes: &processes,
        symbols: &symbols,
    };
    let told = Reply::Value(Value::List(one_of_each(rt, alloc)));
    put_lines(rt, told, &names, sink);
    put_more_lines(rt, &names, sink);
}

#[test]
fn each_form_and_each_line_is_printed(rt: HostRuntime) {
    let editor = Editor::new(rt.alloc()).expect(&rt, "an editor");
    let mut sink = new_sink(&rt, rt.alloc(), 1000, 1000);
    print(&rt, rt.alloc(), &editor, &mut sink);
    editor.close();
    is(&rt, sink.bytes(), PRINTED.as_bytes());
}

/// A second buffer with a marker, killed.
fn kill_second(rt: &impl Abort, alloc: Global, editor: &mut Editor) {
    let w = make_buffer(rt, editor, &chars(rt, alloc, "w"));
    mark(rt, editor, w, 0, true);
    kill_buffer(rt, editor, w);
}

/// A text with a marker of each type.
fn fill_first(rt: &impl Abort, alloc: Global, editor: &mut Editor) {
    fill(rt, editor, 0, &decorated(rt, alloc));
    mark(rt, editor, 0, 3, false);
    mark(rt, editor, 0, 1, true);
}

const SMALL: &[u8] = b"buffer *scratch* point 4 min 1 max 4 modified t current
text #(\"abc\" 0 1 (priority 5) 1 2 (evaporate t priority 5))
marker 0 #<marker at 4 in *scratch*>
marker 1 #<marker (moves after insertion) at 2 in *scratch*>
marker 2 #<marker (moves after insertion) in no buffer>
process 0 #<process c> run 0
";

#[test]
fn a_small_dump_tells_of_its_text_markers_and_process(rt: HostRuntime) {
    let mut editor = Editor::new(rt.alloc()).expect(&rt, "an editor");
    fill_first(&rt, rt.alloc(), &mut editor);
    kill_second(&rt, rt.alloc(), &mut editor);
    let processes = one_process(&rt, rt.alloc());
    dumps(&rt, rt.alloc(), &editor, &processes, SMALL);
    editor.close();
}
