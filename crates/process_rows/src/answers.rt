//! What is entered for answers: ends of all kinds, tails that are held when the output ends, and handlers set meanwhile.
ghost use Rattle.std.specs.Prelude.{[]};
ghost use Rattle.handler_run.specs.Answers.{IsRead};

use super::processes::one;
use crate::checking::{get, holds, is, is_text, set_filter, set_sentinel};
use ek_call::{Value, Values};
use ek_types::{Ch, Chars, Sym};
use handler_run::{Entry, ended, enter, ready};
use host_link::{Ended, Got};
use process_table::{Filter, Processes, Status};
use std::alloc::Global;
use std::process::Abort;

/// What is entered for bytes that were read.
fn read(rt: &impl Abort, alloc: Global, table: &mut Processes, bytes: &[u8]) -> Entry {
    assert!(rt; table.count() > 0 && !table.get(0).drained());
    assert!(rt; !bytes.is_empty() && bytes.len() <= 4096);
    let slot = ready(alloc, table.get(0)).expect(rt, "room");
    enter(table, 0, slot, &Got::Bytes(bytes.len()), bytes)
}

/// What is entered for a read that gave no bytes.
fn read_none(rt: &impl Abort, alloc: Global, table: &mut Processes, got: Got) -> Entry
    requires { IsRead got [] }
{
    assert!(rt; table.count() > 0 && !table.get(0).drained());
    let slot = ready(alloc, table.get(0)).expect(rt, "room");
    enter(table, 0, slot, &got, &[])
}

/// What is entered for the answer about the end.
fn end(rt: &impl Abort, alloc: Global, table: &mut Processes, how: Ended) -> Entry {
    assert!(rt; table.count() > 0);
    let slot = ready(alloc, table.get(0)).expect(rt, "room");
    ended(table, 0, slot, &how)
}

/// The text of arguments that are process 0 and a string.
fn told(args: &Values) -> Option<&Chars> {
    match args.as_slice() {
        [Value::Process(0), Value::Str(given)] => Some(given.text()),
        _ => None,
    }
}

/// The arguments are process 0 and these characters.
fn are_arguments(rt: &impl Abort, args: &Values, text: &[Ch]) {
    is_text(rt, told(args).expect(rt, "a process and a text"), text);
}

/// The filter of this name is entered with these characters.
fn is_filter(rt: &impl Abort, entry: &Entry, name: Option<Sym>, text: &[Ch]) {
    let Entry::Filter(handler, args) = entry else {
        panic!(rt; "no filter");
    };
    is(rt, *handler, name);
    are_arguments(rt, args, text);
}

fn is_none(entry: &Entry) -> bool {
    match entry {
        Entry::None => true,
        _ => false,
    }
}

/// A part of a character that is held comes out as raw bytes when the output ends in this way.
fn held_tail(rt: &impl Abort, alloc: Global, tail: &[u8], raw: &[Ch], how: Got)
    requires { IsRead how [] }
{
    let mut table = one(rt, alloc);
    let entry = read(rt, alloc, &mut table, tail);
    holds(rt, is_none(&entry));
    let entry = read_none(rt, alloc, &mut table, how);
    is_filter(rt, &entry, None, raw);
    let process = get(rt, &table, 0);
    holds(rt, process.drained());
    holds(rt, process.held().is_empty());
}

#[test]
fn a_held_tail_comes_out_as_raw_bytes_where_output_ends(rt: HostRuntime) {
    let alloc = rt.alloc();
    let raw = [Ch::Raw(0xF0), Ch::Raw(0x9F), Ch::Raw(0x98)];
    held_tail(&rt, alloc, b"\xF0\x9F\x98", &raw, Got::End);
    held_tail(&rt, alloc, b"\xF0\x9F\x98", &raw, Got::Failed);
    held_tail(&rt, alloc, b"\xF0\x9F", &raw[..2], Got::End);
    held_tail(&rt, alloc, b"\xF0", &raw[..1], Got::Failed);
}

#[test]
fn the_filter_set_now_hears_a_character_cut_in_two(rt: HostRuntime) {
    let alloc = rt.alloc();
    let mut table = one(&rt, alloc);
    let entry = read(&rt, alloc, &mut table, b"a\xE2\x82");
    is_filter(&rt, &entry, None, &[Ch::Scalar('a')]);
    set_filter(&rt, &mut table, 0, Filter::Named(Sym(30)));
    let entry = read_none(&rt, alloc, &mut table, Got::Nothing);
    holds(&rt, is_none(&entry));
    let entry = read(&rt, alloc, &mut table, b"\xAC");
    is_filter(&rt, &entry, Some(Sym(30)), &[Ch::Scalar('€')]);
}

/// Characters of one byte each.
fn letters(rt: &impl Abort, alloc: Global, bytes: &[u8]) -> Vec<Ch> {
    let mut text = Vec::new(alloc);
    for byte in bytes {
        text.push(Ch::Scalar(char::from(*byte)))
            .expect(rt, "a character");
    }
    text
}

/// Sentinel 31 is entered with these characters.
fn is_sentinel(rt: &impl Abort, entry: &Entry, text: &[Ch]) {
    let Entry::Sentinel(handler, args) = entry else {
        panic!(rt; "no sentinel");
    };
    is(rt, *handler, Some(Sym(31)));
    are_arguments(rt, args, text);
}

/// The sentinel is told this of an end, and the process has this status then.
fn is_told(rt: &impl Abort, alloc: Global, how: Ended, text: &[u8], status: Status) {
    let mut table = one(rt, alloc);
    set_sentinel(rt, &mut table, 0, Sym(31));
    let entry = end(rt, alloc, &mut table, how);
    is_sentinel(rt, &entry, letters(rt, alloc, text).as_slice());
    is(rt, get(rt, &table, 0).status(), status);
}

/// Nothing is entered where the child still runs, and the process runs too.
fn is_not_told(rt: &impl Abort, alloc: Global) {
    let mut table = one(rt, alloc);
    holds(rt, is_none(&end(rt, alloc, &mut table, Ended::Running)));
    is(rt, get(rt, &table, 0).status(), Status::Run);
}

#[test]
fn a_sentinel_is_told_of_each_kind_of_end(rt: HostRuntime) {
    let alloc = rt.alloc();
    is_told(&rt, alloc, Ended::Code(0), b"finished\n", Status::Exit(0));
    is_told(
        &rt,
        alloc,
        Ended::Code(3),
        b"exited abnormally with code 3\n",
        Status::Exit(3),
    );
    is_told(
        &rt,
        alloc,
        Ended::Code(i32::MIN),
        b"exited abnormally with code -2147483648\n",
        Status::Exit(i32::MIN),
    );
    is_told(&rt, alloc, Ended::Signal, b"killed\n", Status::Signal);
    is_told(&rt, alloc, Ended::Failed, b"failed\n", Status::Failed);
    is_not_told(&rt, alloc);
}
