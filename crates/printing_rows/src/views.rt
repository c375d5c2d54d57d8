//! Views: buffers with overlays, worked out by hand, and a sink that fails.

use crate::checking::{
    PRIORITY, chars, fill, is, narrow, new_sink, paint, plain, put, string, with, wrote,
};
use buffer_table::Editor;
use ek_types::{Ch, MemorySink, Piece, PropSet, PropVal, Sym};
use final_view::{ViewFault, view};
use std::alloc::Global;
use std::process::Abort;

const INVISIBLE: Sym = Sym(11);

const BEFORE_STRING: Sym = Sym(12);

const AFTER_STRING: Sym = Sym(13);

/// An overlay between two places, with its priority, its strings, and whether it hides. An empty string isn't given.
#[derive(Clone, Copy)]
struct Laid {
    start: usize,
    end: usize,
    priority: i64,
    before: &'static str,
    after: &'static str,
    hides: bool,
}

/// What it shows, a text of which a part is invisible by its text property and another is accessible, its overlays,
/// and what is seen.
#[derive(Clone, Copy)]
struct Row {
    shows: &'static str,
    text: &'static str,
    invisible: (usize, usize),
    accessible: (usize, usize),
    overlays: &'static [Laid],
    seen: &'static str,
}

fn put_string(rt: &impl Abort, alloc: Global, editor: &mut Editor, k: u32, name: Sym, text: &str) {
    if !text.is_empty() {
        let value = string(rt, alloc, chars(rt, alloc, text));
        put(rt, editor, k, name, &value);
    }
}

/// An overlay of the first buffer.
fn overlay(rt: &impl Abort, editor: &mut Editor, start: usize, end: usize) -> u32 {
    let size = editor.size(0);
    let fits = editor.is_live(0) && start <= end && end <= size;
    assert!(rt; editor.overlay_count() < 99 && fits);
    editor
        .make_overlay(0, start, end, false, false)
        .expect(rt, "an overlay")
}

fn put_priority(rt: &impl Abort, editor: &mut Editor, k: u32, priority: i64) {
    if priority != 0 {
        put(rt, editor, k, PRIORITY, &PropVal::Int(priority));
    }
}

fn hide_below(rt: &impl Abort, editor: &mut Editor, k: u32, hides: bool) {
    if hides {
        put(rt, editor, k, INVISIBLE, &PropVal::Truth);
    }
}

fn lay(rt: &impl Abort, alloc: Global, editor: &mut Editor, laid: &Laid) {
    let k = overlay(rt, editor, laid.start, laid.end);
    put_priority(rt, editor, k, laid.priority);
    hide_below(rt, editor, k, laid.hides);
    put_string(rt, alloc, editor, k, BEFORE_STRING, laid.before);
    put_string(rt, alloc, editor, k, AFTER_STRING, laid.after);
}

/// The text of a row, of which a part is invisible.
fn text(rt: &impl Abort, alloc: Global, row: &Row) -> Piece {
    let mut text = plain(rt, alloc, row.text);
    let set = with(rt, PropSet::empty(alloc), INVISIBLE, &PropVal::Truth);
    paint(rt, &mut text, row.invisible.0, row.invisible.1, &set);
    text
}

/// Furnishes a new editor as a row says.
fn furnish(rt: &impl Abort, alloc: Global, editor: &mut Editor, row: &Row) {
    fill(rt, editor, 0, &text(rt, alloc, row));
    for laid in row.overlays {
        lay(rt, alloc, editor, laid);
    }
    narrow(rt, editor, 0, row.accessible.0, row.accessible.1);
}

/// The editor of a row.
fn furnished(rt: &impl Abort, alloc: Global, row: &Row) -> Editor {
    let mut editor = Editor::new(alloc).expect(rt, "an editor");
    furnish(rt, alloc, &mut editor, row);
    editor
}

/// Views the first buffer.
fn view_first(rt: &impl Abort, editor: &Editor, sink: &mut MemorySink) -> Result<(), ViewFault> {
    assert!(rt; editor.is_live(0));
    view(editor, 0, sink)
}

/// What is seen of the first buffer is what a row says.
fn is_seen(rt: &impl Abort, alloc: Global, editor: &Editor, row: &Row) {
    let mut sink = new_sink(rt, alloc, 99, 2);
    view_first(rt, editor, &mut sink).expect(rt, row.shows);
    assert_eq!(rt; sink.bytes(), row.seen.as_bytes(), "{}", row.shows);
}

fn check(rt: &impl Abort, alloc: Global, row: &Row) {
    let editor = furnished(rt, alloc, row);
    is_seen(rt, alloc, &editor, row);
    editor.close();
}

const HIDDEN_LETTERS: Row = Row {
    shows: "hidden letters, and an overlay at the end",
    text: "abcdef",
    invisible: (1, 3),
    accessible: (0, 6),
    overlays: &[Laid {
        start: 4,
        end: 6,
        priority: 0,
        before: "[",
        after: "]",
        hides: false,
    }],
    seen: "ad[ef]",
};

const TWO: [Laid; 2] = [
    Laid {
        start: 0,
        end: 2,
        priority: 5,
        before: "A",
        after: "a",
        hides: false,
    },
    Laid {
        start: 0,
        end: 2,
        priority: 0,
        before: "B",
        after: "b",
        hides: false,
    },
];

const TWO_WHOLE: Row = Row {
    shows: "the higher priority is nearer to the text",
    text: "xy",
    invisible: (0, 0),
    accessible: (0, 2),
    overlays: &TWO,
    seen: "BAxyab",
};

const TWO_NARROWED: Row = Row {
    shows: "so it is where a part is accessible",
    text: "xy",
    invisible: (0, 0),
    accessible: (0, 1),
    overlays: &TWO,
    seen: "BAx",
};

/// Of those that start at one place the shorter is nearer to the text; of those that end at one place the one that
/// starts later.
const NESTED: Row = Row {
    shows: "nested overlays at one place",
    text: "wxyz",
    invisible: (0, 0),
    accessible: (0, 4),
    overlays: &[
        Laid {
            start: 0,
            end: 4,
            priority: 0,
            before: "(",
            after: ")",
            hides: false,
        },
        Laid {
            start: 0,
            end: 2,
            priority: 0,
            before: "[",
            after: "]",
            hides: false,
        },
        Laid {
            start: 2,
            end: 4,
            priority: 0,
            before: "{",
            after: "}",
            hides: false,
        },
        Laid {
            start: 2,
            end: 4,
            priority: -1,
            before: "<",
            after: ">",
            hides: false,
        },
    ],
    seen: "([wx]<{yz})>",
};

/// Strings behind those that end at a place, then those of the empty one and of the one that starts, the empty one being
/// stronger as it ends earlier.
const EMPTY_BETWEEN: Row = Row {
    shows: "an empty overlay between two others",
    text: "ab",
    invisible: (0, 0),
    accessible: (0, 2),
    overlays: &[
        Laid {
            start: 1,
            end: 1,
            priority: 0,
            before: "1",
            after: "2",
            hides: false,
        },
        Laid {
            start: 0,
            end: 1,
            priority: 0,
            before: "",
            after: "!",
            hides: false,
        },
        Laid {
            start: 1,
            end: 2,
            priority: 0,
            before: "?",
            after: "",
            hides: false,
        },
    ],
    seen: "a!?12b",
};

/// An empty overlay at each end of the portion is shown; one that ends where it begins or starts where it ends isn't.
const EMPTY_AT_BOUNDS: Row = Row {
    shows: "empty overlays at the ends of the portion",
    text: "abcd",
    invisible: (0, 0),
    accessible: (1, 3),
    overlays: &[
        Laid {
            start: 1,
            end: 1,
            priority: 0,
            before: "<",
            after: ",",
            hides: false,
        },
        Laid {
            start: 3,
            end: 3,
            priority: 0,
            before: ".",
            after: ">",
            hides: false,
        },
        Laid {
            start: 0,
            end: 1,
            priority: 0,
            before: "p",
            after: "q",
            hides: false,
        },
        Laid {
            start: 3,
            end: 4,
            priority: 0,
            before: "r",
            after: "s",
            hides: false,
        },
        Laid {
            start: 0,
            end: 0,
            priority: 0,
            before: "t",
            after: "u",
            hides: false,
        },
        Laid {
            start: 0,
            end: 4,
            priority: 0,
            before: "v",
            after: "w",
            hides: false,
        },
    ],
    seen: "<,bc.>",
};

/// One hides from in front of the portion on, another behind it, and the text's own property between; the strings stay.
const HIDDEN_BY_BOTH: Row = Row {
    shows: "strings on hidden text",
    text: "abcdefg",
    invisible: (4, 5),
    accessible: (1, 7),
    overlays: &[
        Laid {
            start: 0,
            end: 2,
            priority: 0,
            before: "x",
            after: "1",
            hides: true,
        },
        Laid {
            start: 2,
            end: 4,
            priority: 0,
            before: "2",
            after: "3",
            hides: true,
        },
        Laid {
            start: 4,
            end: 5,
            priority: 0,
            before: "4",
            after: "5",
            hides: true,
        },
    ],
    seen: "12345fg",
};

const ROWS: [Row; 7] = [
    HIDDEN_LETTERS,
    TWO_WHOLE,
    TWO_NARROWED,
    NESTED,
    EMPTY_BETWEEN,
    EMPTY_AT_BOUNDS,
    HIDDEN_BY_BOTH,
];

#[test]
fn each_row_is_seen_as_it_says(rt: HostRuntime) {
    for row in &ROWS {
        check(&rt, rt.alloc(), row);
    }
}

/// Characters of one to four bytes and a raw byte.
fn of_all_lengths(rt: &impl Abort, alloc: Global) -> Piece {
    let mut text = chars(rt, alloc, "aé€😀");
    text.push(Ch::Raw(0xFF)).expect(rt, "room");
    Piece::plain(alloc, text).expect(rt, "a piece")
}

/// An overlay whose strings are given as values that are none.
fn put_others(rt: &impl Abort, editor: &mut Editor) {
    let k = overlay(rt, editor, 0, 1);
    put(rt, editor, k, BEFORE_STRING, &PropVal::Int(7));
    put(rt, editor, k, AFTER_STRING, &PropVal::Truth);
}

/// A view of the first buffer, in pieces of at most three bytes, is this.
fn views(rt: &impl Abort, alloc: Global, editor: &Editor, bytes: &[u8]) {
    let mut sink = new_sink(rt, alloc, 99, 3);
    let written = view_first(rt, editor, &mut sink);
    wrote(rt, &sink, written, bytes);
}

const SEEN: &[u8] = b"a\xC3\xA9\xE2\x82\xAC\xF0\x9F\x98\x80\xFF";

/// A value that is no string isn't shown.
#[test]
fn characters_of_all_lengths_are_seen_and_other_values_are_not(rt: HostRuntime) {
    let mut editor = Editor::new(rt.alloc()).expect(&rt, "an editor");
    let text = of_all_lengths(&rt, rt.alloc());
    fill(&rt, &mut editor, 0, &text);
    put_others(&rt, &mut editor);
    views(&rt, rt.alloc(), &editor, SEEN);
    editor.close();
}

/// A sink with too little room has a front of a view.
fn fails(rt: &impl Abort, alloc: Global, editor: &Editor, front: &[u8]) {
    let mut sink = new_sink(rt, alloc, front.len(), 2);
    is(rt, view_first(rt, editor, &mut sink), Err(ViewFault::Sink));
    is(rt, sink.bytes(), front);
}

#[test]
fn a_sink_that_fails_has_a_front(rt: HostRuntime) {
    let editor = furnished(&rt, rt.alloc(), &HIDDEN_LETTERS);
    fails(&rt, rt.alloc(), &editor, b"ad[e");
    editor.close();
}
