//! Each limit, and one beyond.

use super::playing::{answer, make, reply};
use super::words::{arguments, plain};
use crate::checking::is;
use buffer_table::Editor;
use editor_prims::prepare;
use ek_call::Prim::*;
use ek_call::{Prim, Reply, Value, Values};
use std::alloc::Global;
use std::process::Abort;

/// The fault of a reply, or an empty text where it is none.
fn fault_of(reply: &Reply) -> &'static str {
    match reply {
        Reply::Fault(fault) => fault.name(),
        Reply::Value(_) => "",
    }
}

/// Why a call is refused.
fn refused(rt: &impl Abort, editor: &mut Editor, call: &str) -> &'static str {
    fault_of(&answer(rt, editor, call))
}

/// A call that is made so many times, and why it is refused each time, if it is.
type Step = (usize, &'static str, &'static str);

fn repeat(rt: &impl Abort, editor: &mut Editor, step: &Step) {
    for _ in 0..step.0 {
        let fault = refused(rt, editor, step.1);
        is(rt, (step.1, fault), (step.1, step.2));
    }
}

fn take(rt: &impl Abort, editor: &mut Editor, steps: &[Step]) {
    for step in steps {
        repeat(rt, editor, step);
    }
}

/// A name of so many letters as the only argument.
fn name_of(rt: &impl Abort, alloc: Global, length: usize) -> Values {
    let letters = "n".repeat(alloc, length).expect(rt, "a name");
    let name = plain(rt, alloc, letters.as_str());
    let mut args = Values::new(alloc);
    args.push(Value::Str(name)).expect(rt, "room");
    args
}

/// Why a call is refused that is given a name of so many letters.
fn refused_name(rt: &impl Abort, editor: &mut Editor, prim: Prim, length: usize) -> &'static str {
    let args = name_of(rt, editor.allocator(), length);
    fault_of(&reply(rt, editor, prim, &args))
}

/// A name of 256 letters is taken, and a longer one isn't.
fn check_name(rt: &impl Abort, editor: &mut Editor, prim: Prim) {
    let longest = refused_name(rt, editor, prim, 256);
    is(rt, (prim, longest), (prim, ""));
    let longer = refused_name(rt, editor, prim, 257);
    is(rt, (prim, longer), (prim, TOO_MANY));
}

/// The second name of 256 letters gets a number and is longer than that.
#[test]
fn a_buffer_takes_a_name_of_256_letters_and_no_longer_one(rt: HostRuntime) {
    let mut editor = Editor::new(rt.alloc()).expect(&rt, "an editor");
    check_name(&rt, &mut editor, GetBufferCreate);
    check_name(&rt, &mut editor, GenerateNewBuffer);
    check_name(&rt, &mut editor, RenameBuffer);
    is(&rt, refused_name(&rt, &mut editor, GetBuffer, 257), "");
    editor.close();
}

const TOO_MANY: &str = "too-many";

const BUFFERS: [Step; 6] = [
    (254, r#"generate-new-buffer | "w""#, ""),
    (1, "kill-buffer | buffer:9", ""),
    (1, r#"generate-new-buffer | "v""#, ""),
    (1, r#"generate-new-buffer | "new""#, TOO_MANY),
    (1, r#"get-buffer-create | "new""#, TOO_MANY),
    (1, r#"get-buffer-create | "w<254>""#, ""),
];

/// A buffer that is there isn't made.
#[test]
fn killed_buffers_count_among_the_256(rt: HostRuntime) {
    let mut editor = Editor::new(rt.alloc()).expect(&rt, "an editor");
    take(&rt, &mut editor, &BUFFERS);
    editor.close();
}

const MARKS: [Step; 8] = [
    (65_536, "make-marker", ""),
    (1, "make-marker", TOO_MANY),
    (1, "point-marker", TOO_MANY),
    (1, "copy-marker", TOO_MANY),
    (65_536, "make-overlay | 1 | 1", ""),
    (1, "make-overlay | 1 | 1", TOO_MANY),
    (1, "delete-overlay | overlay:65535", ""),
    (1, "set-marker | marker:65535 | 1", ""),
];

#[test]
fn a_marker_or_overlay_beyond_65536_is_refused(rt: HostRuntime) {
    let mut editor = Editor::new(rt.alloc()).expect(&rt, "an editor");
    take(&rt, &mut editor, &MARKS);
    editor.close();
}

/// The call of an insertion of 64 strings of 64 letters each.
fn insertion(rt: &impl Abort, alloc: Global) -> String {
    let mut call = String::new(alloc);
    call.push_str("insert").expect(rt, "room");
    for _ in 0..64 {
        let letters = "0123456789abcdef".repeat(alloc, 4).expect(rt, "letters");
        write!(call, " | \"{letters}\"").expect(rt, "room");
    }
    call
}

/// Fills the current buffer, which is empty, with the longest string that a buffer gives.
fn fill(rt: &impl Abort, editor: &mut Editor) {
    let call = insertion(rt, editor.allocator());
    is(rt, refused(rt, editor, call.as_str()), "");
    repeat(
        rt,
        editor,
        &(8, r#"insert-buffer-substring | "*scratch*""#, ""),
    );
}

/// The longest string that is made from a buffer has 1,048,576 letters.
const STRINGS: [Step; 10] = [
    (1, "buffer-string", ""),
    (1, r#"insert | "x""#, ""),
    (1, "buffer-substring | 2 | 1048578", ""),
    (1, "buffer-substring | 1 | 1048578", TOO_MANY),
    (1, "buffer-substring-no-properties | 1 | 1048578", TOO_MANY),
    (1, "delete-and-extract-region | 1 | 1048578", TOO_MANY),
    (1, "buffer-string", TOO_MANY),
    (1, r#"insert-buffer-substring | "*scratch*""#, TOO_MANY),
    (1, "delete-and-extract-region | 2 | 1048578", ""),
    (1, "delete-region | 1 | 2", ""),
];

#[test]
fn a_string_from_a_buffer_beyond_1048576_letters_is_refused(rt: HostRuntime) {
    let mut editor = Editor::new(rt.alloc()).expect(&rt, "an editor");
    fill(&rt, &mut editor);
    take(&rt, &mut editor, &STRINGS);
    is(&rt, editor.size(0), 0);
    editor.close();
}

const FULL: &str = "buffer-full";

/// The longest text has four times as many letters: the first buffer has room for no more, and then for one letter.
const ONE_TEXT: [Step; 3] = [
    (3, "insert-buffer-substring | buffer:0 | 1 | 1048577", ""),
    (1, r#"insert | "x""#, FULL),
    (1, "delete-region | 4194304 | 4194305", ""),
];

/// An insertion that no longer has room when it is committed is refused then.
fn fill_meanwhile(rt: &impl Abort, editor: &mut Editor) {
    let args = arguments(rt, editor.allocator(), r#""x""#);
    let prepared = prepare(editor, Insert, &args).expect(rt, "a change");
    is(rt, refused(rt, editor, r#"insert | "x""#), "");
    is(rt, fault_of(&make(rt, editor, prepared)), FULL);
}

/// Three more buffers are filled. A letter of one of them makes room for one letter in a fifth.
const ALL_TEXTS: [Step; 15] = [
    (1, r#"get-buffer-create | "b""#, ""),
    (1, r#"set-buffer | "b""#, ""),
    (4, "insert-buffer-substring | buffer:0 | 1 | 1048577", ""),
    (1, r#"get-buffer-create | "c""#, ""),
    (1, r#"set-buffer | "c""#, ""),
    (4, "insert-buffer-substring | buffer:0 | 1 | 1048577", ""),
    (1, r#"get-buffer-create | "d""#, ""),
    (1, r#"set-buffer | "d""#, ""),
    (4, "insert-buffer-substring | buffer:0 | 1 | 1048577", ""),
    (1, "set-buffer | buffer:1", ""),
    (1, "delete-region | 1 | 2", ""),
    (1, r#"get-buffer-create | "e""#, ""),
    (1, r#"set-buffer | "e""#, ""),
    (1, r#"insert | "x""#, ""),
    (1, r#"insert | "x""#, FULL),
];

#[test]
fn one_text_and_all_texts_are_filled_to_their_limits(rt: HostRuntime) {
    let mut editor = Editor::new(rt.alloc()).expect(&rt, "an editor");
    fill(&rt, &mut editor);
    take(&rt, &mut editor, &ONE_TEXT);
    fill_meanwhile(&rt, &mut editor);
    take(&rt, &mut editor, &ALL_TEXTS);
    editor.close();
}
