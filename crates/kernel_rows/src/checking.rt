//! Claimed lines that are checked.

use super::comparing::{ends_with, holds_for, is_refused};
use super::playing::{PLAIN, Ran, Run, Setting, TO_RECORD, check_ran, plays, run_words};
use super::recording::SCRIPT;
use super::replaying::LINES;
use super::runs;
use super::texts::push;
use kernel_top::Status;
use std::alloc::Global;
use std::process::Abort;

const TO_CHECK: [&str; 1] = ["check"];

/// What a check of a transcript comes to, over a host without a child.
fn check(rt: &impl Abort, alloc: Global, text: &str, setting: Setting) -> Ran {
    run_words(rt, alloc, &TO_CHECK, text, Vec::new(alloc), setting)
}

const JOURNAL: &str = "spawn 636174 -> started 0
read 0 -> bytes 6162
read 0 -> end
end 0 -> code 0
";

/// A transcript of these parts.
fn transcript(rt: &impl Abort, alloc: Global, journal: &str, lines: &str, script: &str) -> String {
    let mut text = String::from_str(alloc, journal).expect(rt, "memory");
    write!(text, "lines {}\n", lines.len()).expect(rt, "memory");
    push(rt, &mut text, lines);
    push(rt, &mut text, "script\n");
    push(rt, &mut text, script);
    text
}

#[test]
fn the_lines_of_the_run_are_claimed(rt: HostRuntime) {
    let text = transcript(&rt, rt.alloc(), JOURNAL, LINES, SCRIPT);
    holds_for(&rt, "a size", text.as_str().contains("\nlines 283\n"));
    let ran = check(&rt, rt.alloc(), text.as_str(), PLAIN);
    check_ran(&rt, rt.alloc(), "a check", &ran, "yes\n", b"");
}

/// Claimed lines that aren't those of the run: what it shows, the journal, the lines, the script and the status.
struct Refused {
    shows: &'static str,
    journal: &'static str,
    lines: &'static str,
    script: &'static str,
    status: Status,
}

const INSERTED: &str = "(insert \"é\")";

const REFUSED: [Refused; 11] = [
    Refused {
        shows: "another line",
        journal: JOURNAL,
        lines: "= #<process c>
> filter default #<process c> \"ab\"
< default
= f
> sentinel default #<process c> \"finished\\n\"
< default
= nil
",
        script: SCRIPT,
        status: Status::Differs(4),
    },
    Refused {
        shows: "a longer line",
        journal: JOURNAL,
        lines: "= #<process c> \n> filter",
        script: SCRIPT,
        status: Status::Differs(1),
    },
    Refused {
        shows: "the last exchange is missing",
        journal: "spawn 636174 -> started 0
read 0 -> bytes 6162
read 0 -> end
",
        lines: LINES,
        script: SCRIPT,
        status: Status::Strayed(3),
    },
    Refused {
        shows: "nothing is claimed",
        journal: JOURNAL,
        lines: "",
        script: SCRIPT,
        status: Status::Differs(1),
    },
    Refused {
        shows: "a front of the lines",
        journal: JOURNAL,
        lines: "= #<process c>\n> filter default #<process c> \"ab\"\n",
        script: SCRIPT,
        status: Status::Differs(3),
    },
    Refused {
        shows: "a line behind the last",
        journal: "",
        lines: "= nil
buffer *scratch* point 2 min 1 max 2 modified t current
text \"é\"
more
",
        script: INSERTED,
        status: Status::Differs(4),
    },
    Refused {
        shows: "another byte in the middle of a character",
        journal: "",
        lines: "= nil
buffer *scratch* point 2 min 1 max 2 modified t current
text \"ê\"
",
        script: INSERTED,
        status: Status::Differs(3),
    },
    Refused {
        shows: "a run that strays is no other run",
        journal: "close 0 -> closed\n",
        lines: "= t\n",
        script: INSERTED,
        status: Status::Strayed(0),
    },
    Refused {
        shows: "the script is looked at before the run strays",
        journal: "close 0 -> closed\n",
        lines: "",
        script: "(point)\n(goto-char)",
        status: Status::Script(2),
    },
    Refused {
        shows: "the journal is looked at before the script",
        journal: "close 0 -> sent\n",
        lines: "",
        script: "(goto-char)",
        status: Status::Journal(1),
    },
    Refused {
        shows: "no script",
        journal: "",
        lines: LINES,
        script: "(",
        status: Status::Script(1),
    },
];

/// Nothing is written and nothing asked where the lines aren't those of the run.
fn are_refused(rt: &impl Abort, alloc: Global, row: &Refused) {
    let text = transcript(rt, alloc, row.journal, row.lines, row.script);
    let ran = check(rt, alloc, text.as_str(), PLAIN);
    is_refused(rt, row.shows, &ran, row.status);
}

#[test]
fn other_lines_are_refused(rt: HostRuntime) {
    for row in &REFUSED {
        are_refused(&rt, rt.alloc(), row);
    }
}

/// A text that is no transcript, and the line of its fault.
fn is_none(rt: &impl Abort, alloc: Global, text: &str, line: u32) {
    let ran = check(rt, alloc, text, PLAIN);
    is_refused(rt, "no transcript", &ran, Status::Journal(line));
}

#[test]
fn texts_that_are_no_transcripts_are_refused(rt: HostRuntime) {
    is_none(&rt, rt.alloc(), "", 1);
    is_none(&rt, rt.alloc(), "script\n(point)", 1);
    is_none(&rt, rt.alloc(), "lines 3\na\nscript\n(point)", 3);
    is_none(&rt, rt.alloc(), "lines 4\na\nb\nc\nscript\n(point)", 4);
}

/// A front of the answer stands in a sink with so much room.
fn is_cut(rt: &impl Abort, alloc: Global, room: usize) {
    let text = transcript(rt, alloc, JOURNAL, LINES, SCRIPT);
    let ran = check(rt, alloc, text.as_str(), Setting { room, ..PLAIN });
    let front = b"yes\n".get(..room).expect(rt, "a front");
    ends_with(rt, "a full sink", &ran, Status::WriteFault, front);
}

#[test]
fn a_sink_that_is_full_holds_a_front_of_the_answer(rt: HostRuntime) {
    for room in 0..4 {
        is_cut(&rt, rt.alloc(), room);
    }
}

/// A run is recorded from its host in memory, and its lines are claimed of its journal.
pub fn is_claimed(rt: &impl Abort, alloc: Global, run: &Run) {
    let children = plays(rt, alloc, run.children);
    let recorded = run_words(rt, alloc, &TO_RECORD, run.script.as_str(), children, PLAIN);
    let session = String::from_utf8_lossy(alloc, recorded.written.as_slice()).expect(rt, "memory");
    let rest = run.script.as_str().len() + 7;
    assert!(rt; rest <= session.as_str().len(), "{}", run.shows);
    let journal = session.as_str().get(..session.as_str().len() - rest);
    let text = transcript(
        rt,
        alloc,
        journal.expect(rt, "a journal"),
        run.lines.as_str(),
        run.script.as_str(),
    );
    let ran = check(rt, alloc, text.as_str(), PLAIN);
    check_ran(rt, alloc, run.shows, &ran, "yes\n", b"");
}

#[test]
fn the_lines_of_every_run_are_claimed_of_its_journal(rt: HostRuntime) {
    for run in &runs::all(&rt, rt.alloc()) {
        is_claimed(&rt, rt.alloc(), run);
    }
}
