//! Runs that are recorded.

use super::comparing::{comes_to, ends_with};
use super::playing::{PLAIN, Ran, Setting, TO_RECORD, one_child, run_words};
use kernel_top::Status;
use std::alloc::Global;
use std::process::Abort;

pub const SCRIPT: &str =
    "(start-process \"c\" \"*scratch*\" \"cat\")(accept-process-output)(accept-process-output)";

/// The session of that script over a child that writes `ab`.
pub const SESSION: &str = "spawn 636174 -> started 0
read 0 -> bytes 6162
read 0 -> end
end 0 -> code 0
script
(start-process \"c\" \"*scratch*\" \"cat\")(accept-process-output)(accept-process-output)";

/// The same exchanges, as a host shows them.
const EXCHANGES: &[u8] = b"spawn cat: started 0\nread 0: bytes ab\nread 0: end\nend 0: code 0\n";

/// A script that is recorded over a child that writes `ab`.
fn record(rt: &impl Abort, alloc: Global, script: &str, setting: Setting) -> Ran {
    let child = one_child(rt, alloc, &[b"ab"]);
    run_words(rt, alloc, &TO_RECORD, script, child, setting)
}

#[test]
fn the_session_of_a_run_is_written_and_not_its_lines(rt: HostRuntime) {
    let ran = record(&rt, rt.alloc(), SCRIPT, PLAIN);
    comes_to(
        &rt,
        "a session",
        &ran,
        Status::Done,
        SESSION.as_bytes(),
        EXCHANGES,
    );
}

#[test]
fn the_empty_script_is_recorded_as_one_line(rt: HostRuntime) {
    let ran = record(&rt, rt.alloc(), "", PLAIN);
    comes_to(
        &rt,
        "the empty script",
        &ran,
        Status::Done,
        b"script\n",
        b"",
    );
}

const KILLED: &str = "spawn 636174 2d75 - -> started 0
kill 0 -> killed
script
(start-process \"c\" nil \"cat\" \"-u\" \"\")";

/// A child that is never read is killed at the end, and the kill is recorded.
#[test]
fn the_kill_of_the_end_is_recorded(rt: HostRuntime) {
    let script = "(start-process \"c\" nil \"cat\" \"-u\" \"\")";
    let ran = record(&rt, rt.alloc(), script, PLAIN);
    ends_with(&rt, "a kill", &ran, Status::Done, KILLED.as_bytes());
}

#[test]
fn bytes_that_are_no_script_are_not_recorded(rt: HostRuntime) {
    let ran = record(&rt, rt.alloc(), "(point)\n(goto-char)\n", PLAIN);
    comes_to(&rt, "no script", &ran, Status::Script(2), b"", b"");
}

/// A front of the session stands in a sink with so much room. The run was made whole before anything is written, so
/// no less is asked of the host.
fn is_cut(rt: &impl Abort, alloc: Global, room: usize) {
    let ran = record(rt, alloc, SCRIPT, Setting { room, ..PLAIN });
    let front = SESSION.as_bytes().get(..room).expect(rt, "a front");
    comes_to(
        rt,
        "a full sink",
        &ran,
        Status::WriteFault,
        front,
        EXCHANGES,
    );
}

#[test]
fn a_sink_that_is_full_holds_a_front_of_the_session(rt: HostRuntime) {
    for room in [0, 1, 30, 150] {
        is_cut(&rt, rt.alloc(), room);
    }
}
