//! A dump with all there is: live, narrowed and killed buffers, markers and overlays in each, and ended processes.

use crate::checking::{
    EVAPORATE, PRIORITY, add_process, chars, dumps, fill, kill_buffer, make_buffer, mark, narrow,
    paint, plain, put, string, with,
};
use buffer_table::Editor;
use ek_types::{Ch, Piece, PropSet, PropVal, Sym, SymList};
use process_table::{Processes, Status};
use std::alloc::Global;
use std::process::Abort;

const FRONT_STICKY: Sym = Sym(0);

const RUN: Sym = Sym(6);

const EXIT: Sym = Sym(7);

const SIGNAL: Sym = Sym(8);

/// A set whose value is a list of names.
fn of_names(rt: &impl Abort, alloc: Global) -> PropSet {
    let mut names = SymList::new(alloc);
    names.push(EVAPORATE).expect(rt, "a name");
    names.push(PRIORITY).expect(rt, "a name");
    let value = PropVal::Syms(names);
    with(rt, PropSet::empty(alloc), FRONT_STICKY, &value)
}

/// A set whose value is a string.
fn of_string(rt: &impl Abort, alloc: Global) -> PropSet {
    let mut text = chars(rt, alloc, "x\"");
    text.push(Ch::Raw(0x80)).expect(rt, "a character");
    with(rt, PropSet::empty(alloc), RUN, &string(rt, alloc, text))
}

/// A set of a name and a number.
fn of_both(rt: &impl Abort, alloc: Global) -> PropSet {
    let set = with(rt, PropSet::empty(alloc), EXIT, &PropVal::Sym(SIGNAL));
    with(rt, set, PRIORITY, &PropVal::Int(-5))
}

/// Three letters with a set each.
fn decorated(rt: &impl Abort, alloc: Global) -> Piece {
    let mut text = plain(rt, alloc, "abc");
    paint(rt, &mut text, 0, 1, &of_names(rt, alloc));
    paint(rt, &mut text, 1, 2, &of_string(rt, alloc));
    paint(rt, &mut text, 2, 3, &of_both(rt, alloc));
    text
}

/// A new buffer.
fn buffer(rt: &impl Abort, alloc: Global, editor: &mut Editor, name: &str) -> u32 {
    make_buffer(rt, editor, &chars(rt, alloc, name))
}

/// An overlay over the first `to` characters of a buffer.
fn overlay(rt: &impl Abort, editor: &mut Editor, id: u32, to: usize) -> u32 {
    let size = editor.size(id);
    assert!(rt; editor.overlay_count() < 9 && editor.is_live(id) && to <= size);
    let k = editor.make_overlay(id, 0, to, false, false);
    k.expect(rt, "an overlay")
}

/// The texts of two buffers, and a third buffer without one.
fn put_texts(rt: &impl Abort, alloc: Global, editor: &mut Editor) {
    fill(rt, editor, 0, &plain(rt, alloc, "ab"));
    let second = buffer(rt, alloc, editor, "v\"\\\n");
    fill(rt, editor, second, &decorated(rt, alloc));
    buffer(rt, alloc, editor, "w");
}

/// A marker of each type in each buffer: the buffer, the place, and whether it moves after insertion.
const MARKERS: [(u32, usize, bool); 6] = [
    (0, 1, false),
    (0, 1, true),
    (1, 0, false),
    (1, 3, true),
    (2, 0, false),
    (2, 0, true),
];

/// Buffers, and how many of their first characters an overlay is over.
const OVERLAYS: [(u32, usize); 4] = [(0, 1), (1, 3), (2, 0), (0, 0)];

fn put_marks(rt: &impl Abort, editor: &mut Editor) {
    for (id, place, advances) in &MARKERS {
        mark(rt, editor, *id, *place, *advances);
    }
    for (id, to) in &OVERLAYS {
        overlay(rt, editor, *id, *to);
    }
}

/// Properties for two overlays, and the last is removed.
fn put_properties(rt: &impl Abort, editor: &mut Editor) {
    put(rt, editor, 1, PRIORITY, &PropVal::Int(5));
    put(rt, editor, 1, EVAPORATE, &PropVal::Truth);
    put(rt, editor, 2, PRIORITY, &PropVal::Int(5));
    assert!(rt; 3 < editor.overlay_count());
    editor.remove_overlay(3);
}

/// The first buffer is unmodified, the second current and read-only.
fn set_states(rt: &impl Abort, editor: &mut Editor) {
    assert!(rt; editor.is_live(0));
    editor.set_modified(0, false);
    assert!(rt; editor.is_live(1));
    editor.set_current(1);
    assert!(rt; editor.is_live(1));
    editor.set_read_only(1, true);
}

/// Of the second buffer the second of three characters is accessible, with a marker of each type outside. The third is
/// killed, which had a marker of each type and an overlay.
fn furnish(rt: &impl Abort, alloc: Global, editor: &mut Editor) {
    put_texts(rt, alloc, editor);
    put_marks(rt, editor);
    put_properties(rt, editor);
    narrow(rt, editor, 1, 1, 2);
    set_states(rt, editor);
    kill_buffer(rt, editor, 2);
}

fn note_end(rt: &impl Abort, table: &mut Processes, p: u32, status: Status) {
    assert!(rt; p < table.count());
    table.note_end(p, status);
}

/// A process that has come to a status.
fn put_process(rt: &impl Abort, alloc: Global, table: &mut Processes, status: Status) {
    let p = add_process(rt, table, &chars(rt, alloc, "c"));
    note_end(rt, table, p, status);
}

const STATUSES: [Status; 4] = [Status::Run, Status::Exit(3), Status::Signal, Status::Failed];

/// A process of each status.
fn processes(rt: &impl Abort, alloc: Global) -> Processes {
    let mut table = Processes::new(alloc);
    for status in STATUSES {
        put_process(rt, alloc, &mut table, status);
    }
    table
}

const DUMP: &[u8] = br#"buffer *scratch* point 3 min 1 max 3 modified nil
text "ab"
buffer v\"\\\n point 3 min 2 max 3 modified t read-only current
text #("abc" 0 1 (front-sticky (evaporate priority)) 1 2 (run "x\"\200") 2 3 (priority -5 exit signal))
marker 0 #<marker at 2 in *scratch*>
marker 1 #<marker (moves after insertion) at 2 in *scratch*>
marker 2 #<marker at 1 in v\"\\\n>
marker 3 #<marker (moves after insertion) at 4 in v\"\\\n>
marker 4 #<marker in no buffer>
marker 5 #<marker (moves after insertion) in no buffer>
overlay 0 #<overlay from 1 to 2 in *scratch*> nil
overlay 1 #<overlay from 1 to 4 in v\"\\\n> (evaporate t priority 5)
overlay 2 #<overlay in no buffer> (priority 5)
overlay 3 #<overlay in no buffer> nil
process 0 #<process c> run 0
process 1 #<process c<1>> exit 3
process 2 #<process c<2>> signal nil
process 3 #<process c<3>> failed nil
"#;

#[test]
fn a_dump_tells_of_all_there_is(rt: HostRuntime) {
    let mut editor = Editor::new(rt.alloc()).expect(&rt, "an editor");
    furnish(&rt, rt.alloc(), &mut editor);
    let processes = processes(&rt, rt.alloc());
    dumps(&rt, rt.alloc(), &editor, &processes, DUMP);
    editor.close();
}
