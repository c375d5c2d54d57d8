//! Replies as short texts, in the form of the lines of a run.

use super::words::NAMES;
use buffer_table::Editor;
use ek_call::{Reply, Value, Values};
use ek_types::{Ch, Chars, Piece, PropSet, PropVal, Sym, SymList};
use std::process::Abort;

fn put(rt: &impl Abort, text: &mut String, more: &str) {
    text.push_str(more).expect(rt, "room");
}

fn put_char(rt: &impl Abort, text: &mut String, c: char) {
    text.push(c).expect(rt, "room");
}

fn put_number(rt: &impl Abort, text: &mut String, number: i128) {
    write!(text, "{number}").expect(rt, "room");
}

fn put_symbol(rt: &impl Abort, text: &mut String, name: Sym) {
    put(rt, text, NAMES.get(name.0 as usize).unwrap_or(&"?"));
}

fn put_chars(rt: &impl Abort, text: &mut String, chars: &Chars) {
    for i in 0..chars.len() {
        match chars.at(i) {
            Ch::Scalar(c) => put_char(rt, text, c),
            Ch::Raw(byte) => put_number(rt, text, i128::from(byte)),
        }
    }
}

/// A blank in front of each item but the first.
fn put_blank(rt: &impl Abort, text: &mut String, i: usize) {
    if i > 0 {
        put(rt, text, " ");
    }
}

fn put_symbols(rt: &impl Abort, text: &mut String, names: &SymList) {
    put(rt, text, "(");
    for i in 0..names.len() {
        put_blank(rt, text, i);
        put_symbol(rt, text, *names.at(i));
    }
    put(rt, text, ")");
}

fn put_property(rt: &impl Abort, text: &mut String, value: &PropVal) {
    match value {
        PropVal::Truth => put(rt, text, "t"),
        PropVal::Int(i) => put_number(rt, text, i128::from(*i)),
        PropVal::Sym(name) => put_symbol(rt, text, *name),
        PropVal::Syms(names) => put_symbols(rt, text, names),
        PropVal::Text(chars) => put_quoted(rt, text, chars.as_ref()),
    }
}

fn put_quoted(rt: &impl Abort, text: &mut String, chars: &Chars) {
    put(rt, text, "\"");
    put_chars(rt, text, chars);
    put(rt, text, "\"");
}

fn put_set(rt: &impl Abort, text: &mut String, set: &PropSet) {
    put(rt, text, "(");
    for i in 0..set.len() {
        let (name, value) = set.at(i);
        put_blank(rt, text, i);
        put_symbol(rt, text, name);
        put(rt, text, " ");
        put_property(rt, text, value);
    }
    put(rt, text, ")");
}

fn put_run(rt: &impl Abort, text: &mut String, from: usize, to: usize, set: &PropSet) {
    if set.len() > 0 {
        put(rt, text, " ");
        put_number(rt, text, from as i128);
        put(rt, text, " ");
        put_number(rt, text, to as i128);
        put(rt, text, " ");
        put_set(rt, text, set);
    }
}

fn has_properties(piece: &Piece) -> bool {
    for i in 0..piece.len() {
        if piece.props(i).len() > 0 {
            return true;
        }
    }
    false
}

fn put_runs(rt: &impl Abort, text: &mut String, piece: &Piece) {
    for from in 0..piece.len() {
        if from == 0 || piece.run_end(from - 1) == from {
            put_run(rt, text, from, piece.run_end(from), piece.props(from));
        }
    }
}

fn put_string(rt: &impl Abort, text: &mut String, piece: &Piece) {
    if has_properties(piece) {
        put(rt, text, "#(");
        put_quoted(rt, text, piece.text());
        put_runs(rt, text, piece);
        put(rt, text, ")");
    } else {
        put_quoted(rt, text, piece.text());
    }
}

fn put_name(rt: &impl Abort, text: &mut String, editor: &Editor, id: u32) {
    if let Some(name) = editor.name(id) {
        put_chars(rt, text, name);
    }
}

fn put_buffer(rt: &impl Abort, text: &mut String, editor: &Editor, id: u32) {
    if editor.is_live(id) {
        put(rt, text, "#<buffer ");
        put_name(rt, text, editor, id);
    } else {
        put(rt, text, "#<killed buffer");
    }
    put(rt, text, ">");
}

/// A position, which counts from 1.
fn put_position(rt: &impl Abort, text: &mut String, place: usize) {
    put_number(rt, text, place as i128 + 1);
}

/// Whether a marker advances, and where it stands.
fn marker(editor: &Editor, k: u32) -> (bool, Option<(u32, usize)>) {
    let markers = &editor.marks().markers;
    if k < markers.count() {
        (markers.kind(k), markers.place(k))
    } else {
        (false, None)
    }
}

fn put_spot(rt: &impl Abort, text: &mut String, editor: &Editor, spot: Option<(u32, usize)>) {
    match spot {
        Some((id, place)) => {
            put(rt, text, "at ");
            put_position(rt, text, place);
            put(rt, text, " in ");
            put_name(rt, text, editor, id);
        }
        None => put(rt, text, "in no buffer"),
    }
}

fn put_marker(rt: &impl Abort, text: &mut String, editor: &Editor, k: u32) {
    let (advances, spot) = marker(editor, k);
    put(rt, text, "#<marker ");
    if advances {
        put(rt, text, "(moves after insertion) ");
    }
    put_spot(rt, text, editor, spot);
    put(rt, text, ">");
}

/// The part of a buffer at which an overlay stands.
fn span(editor: &Editor, k: u32) -> Option<(u32, usize, usize)> {
    let overlays = &editor.marks().overlays;
    if k < overlays.count() {
        overlays.span(k)
    } else {
        None
    }
}

fn put_overlay(rt: &impl Abort, text: &mut String, editor: &Editor, k: u32) {
    match span(editor, k) {
        Some((id, from, to)) => {
            put(rt, text, "#<overlay from ");
            put_position(rt, text, from);
            put(rt, text, " to ");
            put_position(rt, text, to);
            put(rt, text, " in ");
            put_name(rt, text, editor, id);
            put(rt, text, ">");
        }
        None => put(rt, text, "#<overlay in no buffer>"),
    }
}

#[cycle(show)]
fn put_value(rt: &impl Abort, text: &mut String, editor: &Editor, value: &Value) {
    match value {
        Value::Nil => put(rt, text, "nil"),
        Value::T => put(rt, text, "t"),
        Value::Int(i) => put_number(rt, text, i128::from(*i)),
        Value::Sym(name) => put_symbol(rt, text, *name),
        Value::Str(piece) => put_string(rt, text, piece),
        Value::List(items) => {
            put(rt, text, "(");
            put_values(rt, text, editor, items);
            put(rt, text, ")");
        }
        Value::Dot(items, tail) => {
            put(rt, text, "(");
            put_values(rt, text, editor, items);
            put(rt, text, " . ");
            put_value(rt, text, editor, tail);
            put(rt, text, ")");
        }
        Value::Buffer(id) => put_buffer(rt, text, editor, *id),
        Value::Marker(k) => put_marker(rt, text, editor, *k),
        Value::Overlay(k) => put_overlay(rt, text, editor, *k),
        Value::Process(_) => put(rt, text, "#<process>"),
    }
}

#[cycle(show)]
fn put_values(rt: &impl Abort, text: &mut String, editor: &Editor, values: &Values) {
    for i in 0..values.len() {
        put_blank(rt, text, i);
        put_value(rt, text, editor, values.at(i));
    }
}

fn put_reply(rt: &impl Abort, text: &mut String, editor: &Editor, reply: &Reply) {
    match reply {
        Reply::Value(value) => put_value(rt, text, editor, value),
        Reply::Fault(fault) => {
            put(rt, text, "! ");
            put(rt, text, fault.name());
        }
    }
}

/// A value as Lisp prints it, and the name of a refusal behind a mark.
pub fn shown(rt: &impl Abort, editor: &Editor, reply: &Reply) -> String {
    let mut text = String::new(editor.allocator());
    put_reply(rt, &mut text, editor, reply);
    text
}
