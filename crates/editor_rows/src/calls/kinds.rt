//! What may stand in each place of each call, and what is refused there.

use super::playing::{called, reply, said};
use super::words::{number, value};
use crate::checking::is;
use buffer_table::Editor;
use ek_call::{Reply, Values};
use std::alloc::Global;
use std::process::Abort;

/// One of each kind of value. The buffer has the name of the first string; the first list is no property list. Behind
/// them stand a marker that points nowhere, a killed buffer, and a name that no buffer has.
const SAMPLES: [&str; 15] = [
    "nil",
    "t",
    "1",
    "face",
    r#""*scratch*""#,
    r#""""#,
    "[1 2]",
    "[face bold]",
    "buffer:0",
    "marker:0",
    "overlay:0",
    "process:0",
    "marker:1",
    "buffer:1",
    r#""w""#,
];

/// How many samples are of a kind each.
const KINDS: usize = 12;

const NOWHERE: usize = 12;

const KILLED: usize = 13;

const UNKNOWN: usize = 14;

/// What makes the objects among the samples.
const SETTING: [&str; 5] = [
    "point-marker",
    "make-marker",
    "make-overlay | 1 | 1",
    r#"get-buffer-create | "w""#,
    "kill-buffer | buffer:1",
];

/// What may stand in a place of a call: the samples that it takes, the first of them as a good argument.
const PLACES: [(&str, &str); 15] = [
    ("any", "0 1 2 3 4 5 6 7 8 9 10 11"),
    ("number", "2"),
    ("position", "2 9"),
    ("position_or_nil", "2 9 0"),
    ("buffer", "8 4 5"),
    ("buffer_or_nil", "8 4 5 0"),
    ("object_or_nil", "8 0"),
    ("object_or_new_name", "8 4"),
    ("name", "4"),
    ("string", "4 5"),
    ("marker", "9"),
    ("overlay", "10"),
    ("symbol", "3"),
    ("list", "7 0"),
    ("value", "3 0 1 2 4 5 7"),
];

/// Each call, with what may stand in its places.
const CALLS: &str = "set-buffer buffer
get-buffer buffer
get-buffer-create object_or_new_name
generate-new-buffer name
rename-buffer name
buffer-live-p any
buffer-name object_or_nil
buffer-modified-p buffer_or_nil
set-buffer-modified-p any
buffer-read-only-p buffer_or_nil
set-buffer-read-only any
buffer-size buffer_or_nil
goto-char position
char-after position_or_nil
buffer-substring position position
buffer-substring-no-properties position position
insert string string string
insert-and-inherit string string
insert-before-markers string string
insert-before-markers-and-inherit string string
insert-buffer-substring buffer position_or_nil position_or_nil
delete-region position position
delete-and-extract-region position position
narrow-to-region position position
copy-marker position_or_nil any
set-marker marker position_or_nil buffer_or_nil
marker-position marker
marker-buffer marker
marker-insertion-type marker
set-marker-insertion-type marker any
get-text-property position symbol
text-properties-at position
put-text-property position position symbol value
add-text-properties position position list
remove-text-properties position position list
set-text-properties position position list
next-property-change position position_or_nil
next-single-property-change position symbol position_or_nil
previous-property-change position position_or_nil
previous-single-property-change position symbol position_or_nil
text-property-any position position symbol value
text-property-not-all position position symbol value
make-overlay position position buffer_or_nil any any
overlay-start overlay
overlay-end overlay
overlay-buffer overlay
overlay-put overlay symbol value
overlay-get overlay symbol
overlay-properties overlay
move-overlay overlay position position buffer_or_nil
delete-overlay overlay
overlays-at position
overlays-in position position
get-char-property position symbol
next-overlay-change position
previous-overlay-change position
undo-more number";

/// The samples that a place takes.
fn samples(place: &str) -> &'static str {
    for (name, samples) in &PLACES {
        if *name == place {
            return samples;
        }
    }
    ""
}

fn takes(place: &str, sample: usize) -> bool {
    for known in samples(place).split(' ') {
        if number(known) == sample {
            return true;
        }
    }
    false
}

/// A good argument for a place.
fn good(place: &str) -> usize {
    let samples = samples(place);
    let (first, _) = samples.split_once(' ').unwrap_or((samples, ""));
    number(first)
}

/// One more argument, a sample.
fn put_sample(rt: &impl Abort, args: &mut Values, sample: usize) {
    let word = SAMPLES.get(sample).unwrap_or(&"nil");
    args.push(value(rt, args.allocator(), word))
        .expect(rt, "an argument");
}

/// The arguments of a call: a sample in one place, and a good one in each other.
fn arguments(rt: &impl Abort, alloc: Global, places: &str, tried: usize, sample: usize) -> Values {
    let mut args = Values::new(alloc);
    for (i, place) in places.split(' ').enumerate() {
        let chosen = if i == tried { sample } else { good(place) };
        put_sample(rt, &mut args, chosen);
    }
    args
}

/// An editor with the objects among the samples.
fn set_up(rt: &impl Abort, alloc: Global) -> Editor {
    let mut editor = Editor::new(alloc).expect(rt, "an editor");
    for call in &SETTING {
        said(rt, &mut editor, call);
    }
    editor
}

/// The fault of a reply, or an empty text where it is none.
fn fault_of(reply: &Reply) -> &'static str {
    match reply {
        Reply::Fault(fault) => fault.name(),
        Reply::Value(_) => "",
    }
}

/// Why a call is refused where a sample stands in one of its places.
fn refused(rt: &impl Abort, alloc: Global, call: &str, i: usize, sample: usize) -> &'static str {
    let (name, places) = call.split_once(' ').unwrap_or((call, ""));
    let args = arguments(rt, alloc, places, i, sample);
    let mut editor = set_up(rt, alloc);
    let reply = reply(rt, &mut editor, called(rt, name), &args);
    editor.close();
    fault_of(&reply)
}

/// A place of a call takes the samples of its kinds, and refuses the others as of a wrong type.
fn check_kinds(rt: &impl Abort, alloc: Global, call: &str, i: usize, place: &str) {
    for sample in 0..KINDS {
        let fault = refused(rt, alloc, call, i, sample);
        let found = (call, i, sample, fault != "wrong-type-argument");
        is(rt, found, (call, i, sample, takes(place, sample)));
    }
}

/// The places of a call, one behind the other.
fn places(call: &str) -> &str {
    let (_, places) = call.split_once(' ').unwrap_or((call, ""));
    places
}

fn check_all_kinds(rt: &impl Abort, alloc: Global, call: &str) {
    for (i, place) in places(call).split(' ').enumerate() {
        check_kinds(rt, alloc, call, i, place);
    }
}

/// Each call, with a sample of each kind in each of its places.
#[test]
fn a_value_of_another_kind_is_refused_in_each_place(rt: HostRuntime) {
    for call in CALLS.split('\n') {
        check_all_kinds(&rt, rt.alloc(), call);
    }
}

fn is_position(place: &str) -> bool {
    takes(place, 2) && takes(place, 9) && !takes(place, 1)
}

fn is_buffer(place: &str) -> bool {
    takes(place, 8) && takes(place, 5) && !takes(place, 1)
}

/// Whether a call takes such a sample though it stands for nothing.
fn takes_nothing(call: &str, place: &str) -> bool {
    call.starts_with("get-buffer ")
        || call.starts_with("copy-marker ")
        || call.starts_with("set-marker ") && is_position(place)
}

const GONE_POSITION: [(usize, &str); 1] = [(NOWHERE, "args-out-of-range")];

const GONE_BUFFERS: [(usize, &str); 2] = [(KILLED, "buffer-killed"), (UNKNOWN, "no-such-buffer")];

/// The samples that a place takes by their kind, and the fault of each all the same.
fn dead(call: &str, place: &str) -> &'static [(usize, &'static str)] {
    if takes_nothing(call, place) {
        &[]
    } else if is_position(place) {
        &GONE_POSITION
    } else if is_buffer(place) {
        &GONE_BUFFERS
    } else {
        &[]
    }
}

/// A place of a call refuses what isn't there any more by its fault.
fn check_dead(rt: &impl Abort, alloc: Global, call: &str, i: usize, place: &str) {
    for (gone, fault) in dead(call, place) {
        let found = (call, i, refused(rt, alloc, call, i, *gone));
        is(rt, found, (call, i, *fault));
    }
}

fn check_all_dead(rt: &impl Abort, alloc: Global, call: &str) {
    for (i, place) in places(call).split(' ').enumerate() {
        check_dead(rt, alloc, call, i, place);
    }
}

/// Each call, with a marker that points nowhere as a position, and with a buffer that isn't there.
#[test]
fn objects_that_are_not_there_are_refused(rt: HostRuntime) {
    for call in CALLS.split('\n') {
        check_all_dead(&rt, rt.alloc(), call);
    }
}
