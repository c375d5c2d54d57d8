//! Calls on an editor.

use super::shown::shown;
use super::words::arguments;
use buffer_table::Editor;
use editor_prims::{Change, Committed, Prepared, apply, commit, prepare, query};
use ek_call::{Fault, Prim, Reply, Value, Values};
use std::alloc::Global;
use std::process::Abort;

/// Makes a change that was prepared, and gives its reply.
pub fn make(rt: &impl Abort, editor: &mut Editor, prepared: Prepared) -> Reply {
    match prepared {
        Prepared::Change(change) | Prepared::Quiet(change) => committed(rt, editor, change),
        Prepared::Nothing(value) => Reply::Value(value),
        Prepared::Fault(fault) => Reply::Fault(fault),
    }
}

fn committed(rt: &impl Abort, editor: &mut Editor, change: Change) -> Reply {
    match commit(editor, &change).expect(rt, "memory") {
        Committed::Done { .. } => Reply::Value(change.reply),
        Committed::Fault(fault) => Reply::Fault(fault),
    }
}

/// The buffer that is the first argument.
fn first_buffer(args: &Values) -> Option<u32> {
    match args.as_slice() {
        [Value::Buffer(id), ..] => Some(*id),
        _ => None,
    }
}

/// Kills a buffer, which is no call of this crate.
fn kill(rt: &impl Abort, editor: &mut Editor, args: &Values) -> Reply {
    match first_buffer(args) {
        Some(id) if editor.is_live(id) && editor.count() < 256 => {
            editor.kill(id).expect(rt, "memory");
            Reply::Value(Value::T)
        }
        _ => Reply::Fault(Fault::BufferKilled),
    }
}

fn is_wrong_type(reply: &Reply) -> bool {
    matches!(reply, Reply::Fault(Fault::WrongType))
}

/// The reply of a call that may change texts.
fn change(rt: &impl Abort, editor: &mut Editor, prim: Prim, args: &Values) -> Reply {
    let prepared = prepare(editor, prim, args).expect(rt, "memory");
    make(rt, editor, prepared)
}

/// The reply of a call that is no question.
fn set_or_change(rt: &impl Abort, editor: &mut Editor, prim: Prim, args: &Values) -> Reply {
    let set = apply(editor, prim, args).expect(rt, "memory");
    if is_wrong_type(&set) {
        change(rt, editor, prim, args)
    } else {
        set
    }
}

/// The reply of a call of any kind but `kill-buffer`: each of the three tables refuses the calls of the others as a wrong type.
fn asked(rt: &impl Abort, editor: &mut Editor, prim: Prim, args: &Values) -> Reply {
    let asked = query(editor, prim, args).expect(rt, "memory");
    if is_wrong_type(&asked) {
        set_or_change(rt, editor, prim, args)
    } else {
        asked
    }
}

/// The reply of a call of any kind.
pub fn reply(rt: &impl Abort, editor: &mut Editor, prim: Prim, args: &Values) -> Reply {
    if prim == Prim::KillBuffer {
        kill(rt, editor, args)
    } else {
        asked(rt, editor, prim, args)
    }
}

/// The name of a call, and its arguments.
pub fn parted(call: &str) -> (&str, &str) {
    call.split_once(" | ").unwrap_or((call, ""))
}

/// The call of a name.
pub fn called(rt: &impl Abort, name: &str) -> Prim {
    Prim::find(name.as_bytes()).expect(rt, "a call")
}

/// What a call replies. Behind its name stands ` | ` in front of each argument.
pub fn answer(rt: &impl Abort, editor: &mut Editor, call: &str) -> Reply {
    let (name, words) = parted(call);
    let args = arguments(rt, editor.allocator(), words);
    reply(rt, editor, called(rt, name), &args)
}

/// What a call replies, as a text.
pub fn said(rt: &impl Abort, editor: &mut Editor, call: &str) -> String {
    let reply = answer(rt, editor, call);
    shown(rt, editor, &reply)
}

/// Compares a reply with that which is expected.
pub fn is_said(rt: &impl Abort, shows: &str, call: &str, found: &str, expected: &str) {
    assert_eq!(rt; found, expected, "{shows}: {call}");
}

/// Makes the call of a line, and compares its reply with that which stands behind the arrow.
fn check_call(rt: &impl Abort, editor: &mut Editor, shows: &str, line: &str) {
    let (call, expected) = line.split_once(" => ").unwrap_or((line, ""));
    let found = said(rt, editor, call);
    is_said(rt, shows, call, found.as_str(), expected);
}

/// Makes the calls of these lines one after the other, and compares their replies.
pub fn check_calls(rt: &impl Abort, editor: &mut Editor, shows: &str, lines: &str) {
    for line in lines.split('\n') {
        check_call(rt, editor, shows, line);
    }
}

/// Makes the calls of a row on a new editor. Its first line says what they show.
fn check_row(rt: &impl Abort, alloc: Global, row: &str) {
    let (shows, calls) = row.split_once('\n').unwrap_or((row, ""));
    let mut editor = Editor::new(alloc).expect(rt, "an editor");
    check_calls(rt, &mut editor, shows, calls);
    editor.close();
}

/// Makes the calls of each row, behind which an empty line stands, on an editor of its own.
pub fn check_rows(rt: &impl Abort, alloc: Global, rows: &str) {
    for row in rows.split("\n\n") {
        check_row(rt, alloc, row);
    }
}
