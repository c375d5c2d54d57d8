//! What runs: names after an unlisting, a character cut in two, arguments, and what each call changes.

use crate::checking::{get, holds, is, is_text, note_end, set_filter, set_sentinel};
use ek_call::{Fault, Value};
use ek_types::{Ch, Chars, Piece, Sym};
use process_table::{Filter, Processes, Status};
use std::alloc::Global;
use std::process::Abort;
use utf8_stream::Coding;

/// Characters of one byte each.
fn text(rt: &impl Abort, alloc: Global, bytes: &[u8]) -> Chars {
    let mut chars = Chars::new(alloc);
    chars.extend_bytes(bytes).expect(rt, "a character");
    chars
}

/// The names are alike.
fn is_name(rt: &impl Abort, found: &Chars, expected: &Chars) {
    is(rt, found.codes(), expected.codes());
}

/// A process has this name and this child.
fn is_started(rt: &impl Abort, table: &Processes, p: u32, name: &Chars, child: u32) {
    let process = get(rt, table, p);
    is_name(rt, process.name(), name);
    is(rt, process.child(), child);
}

/// A process of this name, or of the first that is free, as is said by `becomes`.
fn start(
    rt: &impl Abort,
    alloc: Global,
    table: &mut Processes,
    name: &[u8],
    becomes: &[u8],
) -> u32 {
    let free = table.free_name(&text(rt, alloc, name)).expect(rt, "a name");
    is_name(rt, &free, &text(rt, alloc, becomes));
    assert!(rt; table.count() < 256);
    let child = 100 + table.count();
    let place = table.reserve(&free).expect(rt, "a place");
    let p = table.add_reserved(place, child, Some(3), 7);
    is_started(rt, table, p, &free, child);
    p
}

fn unlist(rt: &impl Abort, table: &mut Processes, p: u32) {
    assert!(rt; p < table.count());
    table.unlist(p);
}

#[test]
fn an_unlisted_name_is_free_again(rt: HostRuntime) {
    let alloc = rt.alloc();
    let mut table = Processes::new(alloc);
    let first = start(&rt, alloc, &mut table, b"p", b"p");
    let second = start(&rt, alloc, &mut table, b"p", b"p<1>");
    start(&rt, alloc, &mut table, b"p", b"p<2>");
    start(&rt, alloc, &mut table, b"q", b"q");
    start(&rt, alloc, &mut table, b"p<1>", b"p<1><1>");
    unlist(&rt, &mut table, second);
    start(&rt, alloc, &mut table, b"p", b"p<1>");
    unlist(&rt, &mut table, first);
    start(&rt, alloc, &mut table, b"p", b"p");
    start(&rt, alloc, &mut table, b"p", b"p<3>");
    is(&rt, table.count(), 8);
}

/// A process by itself, which isn't drained.
pub fn one(rt: &impl Abort, alloc: Global) -> Processes {
    let mut table = Processes::new(alloc);
    let name = text(rt, alloc, b"p");
    table.add(&name, 0, None, 0).expect(rt, "a process");
    table
}

/// Room is made, and process 0 is fed.
fn feed(rt: &impl Abort, table: &mut Processes, bytes: &[u8], out: &mut Chars) {
    assert!(rt; table.count() > 0);
    let room = table.get(0).held().len().checked_add(bytes.len());
    out.reserve(room.expect(rt, "room")).expect(rt, "room");
    table.feed(0, bytes, out);
}

/// Room is made, and the output of process 0 ends.
fn drain(rt: &impl Abort, table: &mut Processes, out: &mut Chars) {
    assert!(rt; table.count() > 0);
    let held = table.get(0).held().len();
    out.reserve(held).expect(rt, "room");
    table.drain(0, out);
}

/// Whether process 0 took a coding.
fn set_coding(rt: &impl Abort, table: &mut Processes, coding: Coding) -> bool {
    assert!(rt; table.count() > 0);
    table.set_coding(0, coding)
}

/// Whether process 0 is drained.
fn drained(rt: &impl Abort, table: &Processes) -> bool {
    get(rt, table, 0).drained()
}

/// Process 0 has this coding, and was fed or wasn't.
fn decodes(rt: &impl Abort, table: &Processes, coding: Coding, fed: bool) {
    let process = get(rt, table, 0);
    is(rt, process.coding(), coding);
    is(rt, process.fed(), fed);
}

/// The bytes that process 0 holds are these.
fn holds_back(rt: &impl Abort, table: &Processes, bytes: &[u8]) {
    is(rt, get(rt, table, 0).held(), bytes);
}

#[test]
fn a_character_cut_in_two_is_held_and_then_whole(rt: HostRuntime) {
    let mut table = one(&rt, rt.alloc());
    let mut out = Chars::new(rt.alloc());
    feed(&rt, &mut table, b"a\xE2\x82", &mut out);
    is(&rt, out.len(), 1);
    holds_back(&rt, &table, b"\xE2\x82");
    feed(&rt, &mut table, b"\xAC", &mut out);
    is_text(&rt, &out, &[Ch::Scalar('a'), Ch::Scalar('€')]);
    holds_back(&rt, &table, b"");
}

#[test]
fn what_is_held_comes_out_as_raw_bytes_where_output_ends(rt: HostRuntime) {
    let mut table = one(&rt, rt.alloc());
    let mut out = Chars::new(rt.alloc());
    feed(&rt, &mut table, b"\xF0\x9F", &mut out);
    feed(&rt, &mut table, b"\x98", &mut out);
    holds(&rt, out.is_empty());
    is(&rt, drained(&rt, &table), false);
    drain(&rt, &mut table, &mut out);
    is_text(&rt, &out, &[Ch::Raw(0xF0), Ch::Raw(0x9F), Ch::Raw(0x98)]);
    holds(&rt, drained(&rt, &table));
    holds_back(&rt, &table, b"");
    drain(&rt, &mut table, &mut out);
    is(&rt, out.len(), 3);
}

/// Before any byte is read, a coding may be set more than once.
fn set_dos(rt: &impl Abort, table: &mut Processes) {
    decodes(rt, table, Coding::Utf8, false);
    holds(rt, set_coding(rt, table, Coding::Latin1));
    holds(rt, set_coding(rt, table, Coding::Utf8Dos));
    decodes(rt, table, Coding::Utf8Dos, false);
}

/// Where a carriage return is held, no other coding is taken.
fn refuse_another(rt: &impl Abort, table: &mut Processes) {
    holds_back(rt, table, b"\r");
    decodes(rt, table, Coding::Utf8Dos, true);
    is(rt, set_coding(rt, table, Coding::Latin1), false);
    decodes(rt, table, Coding::Utf8Dos, true);
    holds_back(rt, table, b"\r");
}

#[test]
fn a_coding_may_be_set_until_bytes_are_read(rt: HostRuntime) {
    let mut table = one(&rt, rt.alloc());
    let mut out = Chars::new(rt.alloc());
    set_dos(&rt, &mut table);
    feed(&rt, &mut table, b"a\r", &mut out);
    refuse_another(&rt, &mut table);
    feed(&rt, &mut table, b"\n", &mut out);
    is_text(&rt, &out, &[Ch::Scalar('a'), Ch::Scalar('\n')]);
}

#[test]
fn a_coding_may_be_set_behind_the_end_of_output(rt: HostRuntime) {
    let mut table = one(&rt, rt.alloc());
    let mut out = Chars::new(rt.alloc());
    drain(&rt, &mut table, &mut out);
    holds(&rt, out.is_empty());
    holds(&rt, set_coding(&rt, &mut table, Coding::Latin1));
    decodes(&rt, &table, Coding::Latin1, false);
}

/// What a string gives as an argument of a call.
fn by_name(rt: &impl Abort, alloc: Global, table: &Processes, bytes: &[u8]) -> Result<u32, Fault> {
    let name = Piece::plain(alloc, text(rt, alloc, bytes)).expect(rt, "a piece");
    let name = Value::Str(name);
    table.resolve(&name)
}

/// What a process gives as an argument of a call.
fn by_number(rt: &impl Abort, table: &Processes, p: u32) -> Result<u32, Fault> {
    assert!(rt; p < table.count());
    table.resolve(&Value::Process(p))
}

/// Names, and the processes that they give.
const GIVEN: [(&[u8], Result<u32, Fault>); 5] = [
    (b"p", Ok(0)),
    (b"p<1>", Ok(1)),
    (b"p<", Err(Fault::NoSuchProcess)),
    (b"P", Err(Fault::NoSuchProcess)),
    (b"", Err(Fault::NoSuchProcess)),
];

fn are_given(rt: &impl Abort, alloc: Global, table: &Processes) {
    for (name, given) in &GIVEN {
        is(rt, by_name(rt, alloc, table, name), *given);
    }
}

#[test]
fn names_and_processes_give_a_process(rt: HostRuntime) {
    let alloc = rt.alloc();
    let mut table = Processes::new(alloc);
    let first = start(&rt, alloc, &mut table, b"p", b"p");
    let second = start(&rt, alloc, &mut table, b"p", b"p<1>");
    are_given(&rt, alloc, &table);
    unlist(&rt, &mut table, second);
    let none = Err(Fault::NoSuchProcess);
    is(&rt, by_name(&rt, alloc, &table, b"p<1>"), none);
    is(&rt, by_number(&rt, &table, second), Ok(1));
    is(&rt, by_number(&rt, &table, first), Ok(0));
}

#[test]
fn other_arguments_are_of_a_wrong_type(rt: HostRuntime) {
    let table = Processes::new(rt.alloc());
    is(&rt, table.resolve(&Value::Nil), Err(Fault::WrongType));
    is(&rt, table.resolve(&Value::T), Err(Fault::WrongType));
    is(&rt, table.resolve(&Value::Int(0)), Err(Fault::WrongType));
    is(
        &rt,
        table.resolve(&Value::Sym(Sym(0))),
        Err(Fault::WrongType),
    );
    is(&rt, table.resolve(&Value::Buffer(0)), Err(Fault::WrongType));
}

/// The process is as it was started.
fn is_new(rt: &impl Abort, table: &Processes, p: u32) {
    let process = get(rt, table, p);
    is(rt, process.status(), Status::Run);
    is(rt, process.buffer(), Some(3));
    is(rt, process.mark(), 7);
    is(rt, process.filter(), Filter::Default);
    is(rt, process.sentinel(), None);
    holds(rt, process.held().is_empty());
    is(rt, process.drained(), false);
    is(rt, process.closed(), false);
    holds(rt, process.listed());
}

/// Each call that changes a process, but those for its name and its output.
fn change(rt: &impl Abort, table: &mut Processes, p: u32) {
    set_filter(rt, table, p, Filter::Named(Sym(20)));
    set_sentinel(rt, table, p, Sym(21));
    assert!(rt; p < table.count());
    table.set_buffer(p, None);
    table.close_input(p);
    note_end(rt, table, p, Status::Exit(-1));
}

/// The process has this filter and this status.
fn stands(rt: &impl Abort, table: &Processes, p: u32, filter: Filter, status: Status) {
    let process = get(rt, table, p);
    is(rt, process.filter(), filter);
    is(rt, process.status(), status);
}

/// The process is as `change` leaves it.
fn is_changed(rt: &impl Abort, table: &Processes, p: u32) {
    stands(rt, table, p, Filter::Named(Sym(20)), Status::Exit(-1));
    let process = get(rt, table, p);
    is(rt, process.sentinel(), Some(Sym(21)));
    is(rt, process.buffer(), None);
    holds(rt, process.closed());
    is(rt, process.mark(), 7);
    holds(rt, process.listed());
}

fn change_again(rt: &impl Abort, table: &mut Processes, p: u32) {
    set_filter(rt, table, p, Filter::Off);
    note_end(rt, table, p, Status::Signal);
    stands(rt, table, p, Filter::Off, Status::Signal);
}

#[test]
fn one_process_is_changed_and_no_other(rt: HostRuntime) {
    let alloc = rt.alloc();
    let mut table = Processes::new(alloc);
    let first = start(&rt, alloc, &mut table, b"p", b"p");
    let second = start(&rt, alloc, &mut table, b"q", b"q");
    let third = start(&rt, alloc, &mut table, b"r", b"r");
    is_new(&rt, &table, second);
    change(&rt, &mut table, second);
    is_new(&rt, &table, first);
    is_new(&rt, &table, third);
    is_changed(&rt, &table, second);
    change_again(&rt, &mut table, second);
    is_new(&rt, &table, first);
}
