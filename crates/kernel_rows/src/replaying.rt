//! Sessions that are replayed.

use super::comparing::{ends_with, is_for, is_refused};
use super::playing::{PLAIN, Ran, Run, Setting, TO_RECORD, check_ran, plays, run_words};
use super::recording::{SCRIPT, SESSION};
use super::runs;
use super::texts::push;
use kernel_top::Status;
use std::alloc::Global;
use std::process::Abort;

const TO_REPLAY: [&str; 1] = ["replay"];

/// What a replay of a session comes to, over a host without a child.
fn replay(rt: &impl Abort, alloc: Global, session: &str, setting: Setting) -> Ran {
    run_words(rt, alloc, &TO_REPLAY, session, Vec::new(alloc), setting)
}

pub const LINES: &str = "= #<process c>
> filter default #<process c> \"ab\"
< default
= t
> sentinel default #<process c> \"finished\\n\"
< default
= nil
buffer *scratch* point 23 min 1 max 23 modified t current
text \"ab\\nProcess c finished\\n\"
marker 0 #<marker at 23 in *scratch*>
process 0 #<process c> exit 0
";

#[test]
fn a_replay_writes_the_lines_of_the_recorded_run(rt: HostRuntime) {
    let ran = replay(&rt, rt.alloc(), SESSION, PLAIN);
    check_ran(&rt, rt.alloc(), "a replay", &ran, LINES, b"");
}

#[test]
fn the_session_of_the_empty_script_is_replayed(rt: HostRuntime) {
    let ran = replay(&rt, rt.alloc(), "script\n", PLAIN);
    let lines = "buffer *scratch* point 1 min 1 max 1 modified nil current\ntext \"\"\n";
    check_ran(&rt, rt.alloc(), "the empty script", &ran, lines, b"");
}

/// A session that is refused: what it shows, its journal, its script and the status.
struct Refused {
    shows: &'static str,
    journal: &'static str,
    script: &'static str,
    status: Status,
}

const REFUSED: [Refused; 9] = [
    Refused {
        shows: "the last exchange is missing",
        journal: "spawn 636174 -> started 0
read 0 -> bytes 6162
read 0 -> end
script
",
        script: SCRIPT,
        status: Status::Strayed(3),
    },
    Refused {
        shows: "an odd hexadecimal digit",
        journal: "spawn 636174 -> started 0
read 0 -> bytes 616
read 0 -> end
end 0 -> code 0
script
",
        script: SCRIPT,
        status: Status::Journal(2),
    },
    Refused {
        shows: "an exchange is left over",
        journal: "spawn 636174 -> started 0
read 0 -> bytes 6162
read 0 -> end
end 0 -> code 0
close 0 -> closed
script
",
        script: SCRIPT,
        status: Status::Strayed(4),
    },
    Refused {
        shows: "another program is started",
        journal: "spawn 626174 -> started 0\nkill 0 -> killed\nscript\n",
        script: SCRIPT,
        status: Status::Strayed(0),
    },
    Refused {
        shows: "a close that strays",
        journal: "spawn 636174 -> started 0\nkill 0 -> killed\nscript\n",
        script: "(setq p (start-process \"c\" nil \"cat\"))(process-send-eof p)",
        status: Status::Strayed(1),
    },
    Refused {
        shows: "no script behind the journal",
        journal: "spawn 636174 -> started 0\nscript\n",
        script: "(point)\n(goto-char)\n",
        status: Status::Script(2),
    },
    Refused {
        shows: "the journal is looked at before the script",
        journal: "spawn 636174 -> started 1\nscript\n",
        script: "(goto-char)",
        status: Status::Journal(1),
    },
    Refused {
        shows: "the script is looked at before the run strays",
        journal: "close 0 -> closed\nscript\n",
        script: "(goto-char)",
        status: Status::Script(1),
    },
    Refused {
        shows: "no journal at all",
        journal: "",
        script: SCRIPT,
        status: Status::Journal(1),
    },
];

/// A session that is refused writes nothing, and nothing is asked.
fn are_refused(rt: &impl Abort, alloc: Global, refused: &Refused) {
    let mut text = String::from_str(alloc, refused.journal).expect(rt, "memory");
    push(rt, &mut text, refused.script);
    let ran = replay(rt, alloc, text.as_str(), PLAIN);
    is_refused(rt, refused.shows, &ran, refused.status);
}

#[test]
fn what_is_refused_writes_and_asks_nothing(rt: HostRuntime) {
    for refused in &REFUSED {
        are_refused(&rt, rt.alloc(), refused);
    }
}

/// A front of the lines stands in a sink with so much room.
fn is_cut(rt: &impl Abort, alloc: Global, room: usize) {
    let ran = replay(rt, alloc, SESSION, Setting { room, ..PLAIN });
    let front = LINES.as_bytes().get(..room).expect(rt, "a front");
    ends_with(rt, "a full sink", &ran, Status::WriteFault, front);
}

#[test]
fn a_sink_that_is_full_holds_a_front_of_the_lines(rt: HostRuntime) {
    for room in [0, 1, 30, 250] {
        is_cut(&rt, rt.alloc(), room);
    }
}

/// A run is recorded from its host in memory, and its session replayed without a child.
fn is_replayed(rt: &impl Abort, alloc: Global, run: &Run) {
    let children = plays(rt, alloc, run.children);
    let recorded = run_words(rt, alloc, &TO_RECORD, run.script.as_str(), children, PLAIN);
    is_for(rt, run.shows, recorded.status, Status::Done);
    is_for(
        rt,
        run.shows,
        recorded.exchanges.as_slice(),
        run.exchanges.as_slice(),
    );
    let session = String::from_utf8_lossy(alloc, recorded.written.as_slice()).expect(rt, "memory");
    let ran = replay(rt, alloc, session.as_str(), PLAIN);
    check_ran(rt, alloc, run.shows, &ran, run.lines.as_str(), b"");
}

#[test]
fn every_run_is_recorded_from_its_host_in_memory_and_replayed(rt: HostRuntime) {
    for run in &runs::all(&rt, rt.alloc()) {
        is_replayed(&rt, rt.alloc(), run);
    }
}
