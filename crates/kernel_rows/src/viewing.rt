//! Runs whose last current buffer is viewed.

use super::comparing::{comes_to, ends_with, is_for, is_refused};
use super::playing::{
    Calls, Child, PLAIN, Ran, Run, Setting, UNREAD, plays, run_script, run_words,
};
use super::{recording, runs};
use kernel_top::Status;
use std::alloc::Global;
use std::process::Abort;

const HEARD: Child = Child {
    reads: &[b"ab"],
    ends: &[],
};

/// A child that is killed at the end.
const KILLED: [Child; 1] = [UNREAD];

/// A script, its children, and what its current buffer looks like at the end.
struct Seen {
    shows: &'static str,
    script: &'static str,
    children: &'static [Child],
    view: &'static [u8],
}

const BRACKETS: &str =
    "(insert \"abcdef\")(put-text-property 2 4 'invisible t)(setq o (make-overlay 5 7))
(overlay-put o 'before-string \"[\")(overlay-put o 'after-string \"]\")";

const SEEN: [Seen; 9] = [
    Seen {
        shows: "an empty buffer",
        script: "",
        children: &[],
        view: b"",
    },
    Seen {
        shows: "hidden characters, and strings around others",
        script: BRACKETS,
        children: &[],
        view: b"ad[ef]",
    },
    Seen {
        shows: "two overlays at one place",
        script: "(insert \"xy\")(setq a (make-overlay 1 3))(setq b (make-overlay 1 3))
(overlay-put a 'before-string \"A\")(overlay-put a 'after-string \"a\")
(overlay-put b 'before-string \"B\")(overlay-put b 'after-string \"b\")(overlay-put a 'priority 5)",
        children: &[],
        view: b"BAxyab",
    },
    Seen {
        shows: "the same, narrowed",
        script: "(insert \"xy\")(setq a (make-overlay 1 3))(setq b (make-overlay 1 3))
(overlay-put a 'before-string \"A\")(overlay-put a 'after-string \"a\")
(overlay-put b 'before-string \"B\")(overlay-put b 'after-string \"b\")(overlay-put a 'priority 5)
(narrow-to-region 1 2)",
        children: &[],
        view: b"BAx",
    },
    Seen {
        shows: "the current buffer alone, with its own overlays",
        script: "(insert \"here\")(setq a (make-overlay 1 3))(overlay-put a 'before-string \"not\")
(get-buffer-create \"b\")(set-buffer \"b\")(insert \"there\")",
        children: &[],
        view: b"there",
    },
    Seen {
        shows: "a block leaves its buffer before the view",
        script: "(insert \"here\")(get-buffer-create \"b\")(save-current-buffer (set-buffer \"b\")(insert \"there\"))",
        children: &[],
        view: b"here",
    },
    Seen {
        shows: "a call that is refused leaves all as it was",
        script: "(insert \"a\")(delete-region 1 9)(insert \"\\377\")",
        children: &[],
        view: b"a\xFF",
    },
    Seen {
        shows: "what a child has written",
        script: recording::SCRIPT,
        children: &[HEARD],
        view: b"ab\nProcess c finished\n",
    },
    Seen {
        shows: "a child that is killed at the end",
        script: "(start-process \"c\" nil \"cat\")(insert \"a\")",
        children: &KILLED,
        view: b"a",
    },
];

const TO_VIEW: [&str; 1] = ["view"];

/// A script that is viewed.
fn view(rt: &impl Abort, alloc: Global, script: &str, children: &[Child], setting: Setting) -> Ran {
    let plays = plays(rt, alloc, children);
    run_words(rt, alloc, &TO_VIEW, script, plays, setting)
}

fn is_seen(rt: &impl Abort, alloc: Global, seen: &Seen) {
    let ran = view(rt, alloc, seen.script, seen.children, PLAIN);
    ends_with(rt, seen.shows, &ran, Status::Done, seen.view);
}

#[test]
fn the_current_buffer_is_written_as_it_would_be_seen(rt: HostRuntime) {
    for seen in &SEEN {
        is_seen(&rt, rt.alloc(), seen);
    }
}

/// Each run asks the host the same whether its lines or its view are written.
fn asks_the_same(rt: &impl Abort, alloc: Global, run: &Run) {
    let ran = view(rt, alloc, run.script.as_str(), run.children, PLAIN);
    is_for(rt, run.shows, ran.status, Status::Done);
    is_for(
        rt,
        run.shows,
        ran.exchanges.as_slice(),
        run.exchanges.as_slice(),
    );
}

#[test]
fn a_view_asks_what_the_run_asks(rt: HostRuntime) {
    for run in &runs::all(&rt, rt.alloc()) {
        asks_the_same(&rt, rt.alloc(), run);
    }
}

/// A front of the view stands in a sink with so much room. The run was made whole before anything is written, so its
/// child is killed, too.
fn is_cut(rt: &impl Abort, alloc: Global, room: usize) {
    let script = "(start-process \"c\" nil \"cat\")(insert \"view\")";
    let whole = run_script(rt, alloc, script, plays(rt, alloc, &KILLED), PLAIN);
    let ran = view(rt, alloc, script, &KILLED, Setting { room, ..PLAIN });
    let front = b"view".as_slice().get(..room).expect(rt, "a front");
    let exchanges = whole.exchanges.as_slice();
    comes_to(
        rt,
        "a full sink",
        &ran,
        Status::WriteFault,
        front,
        exchanges,
    );
}

#[test]
fn a_sink_that_is_full_holds_a_front_of_the_view(rt: HostRuntime) {
    for room in 0..4 {
        is_cut(&rt, rt.alloc(), room);
    }
}

#[test]
fn bytes_that_are_no_script_are_not_viewed(rt: HostRuntime) {
    let ran = view(&rt, rt.alloc(), "(point)\n(goto-char)\n", &[], PLAIN);
    is_refused(&rt, "no script", &ran, Status::Script(2));
}

#[test]
fn a_source_that_fails_is_not_viewed(rt: HostRuntime) {
    for call in 0..2 {
        let from = Calls {
            piece: 1000,
            fails: Some(call),
        };
        let ran = view(&rt, rt.alloc(), BRACKETS, &[], Setting { from, ..PLAIN });
        is_refused(&rt, "a source that fails", &ran, Status::ReadFault);
    }
}
