//! Whole runs with the shipped handlers, over real children.

use crate::comparing::{holds, is};
use crate::texts::{given, push};
use ek_types::{MemorySink, MemorySource};
use host_link::Recorder;
use kernel_top::Status;
use shipped_run::run_shipped;
use std::alloc::Global;
use std::io;
use std::process::{Abort, Processes};
use system_host::{Output, RealHost};

/// What a run came to: its status and what it wrote.
#[derive(Drop)]
struct Wrote {
    status: Status,
    bytes: Vec<u8>,
}

/// What some words with the shipped handlers write for some bytes, over real children.
fn written_with<R: Processes + Abort>(
    rt: &R,
    alloc: Global,
    words: &[&str],
    bytes: &[u8],
) -> Wrote {
    let nowhere = Output::new(alloc, io::sink()).expect(rt, "an output");
    let mut host = Recorder::new(alloc, RealHost::new(alloc, rt, &nowhere));
    let given = given(rt, alloc, words);
    let bytes = bytes.to_vec(alloc).expect(rt, "memory");
    let mut source = MemorySource::new(bytes, 1000, Vec::new(alloc));
    let mut sink = MemorySink::new(alloc, 4_000_000, 1000, Vec::new(alloc)).expect(rt, "memory");
    let status = run_shipped(alloc, given.as_slice(), &mut source, &mut sink, &mut host).expect(
        rt, "memory",
    );
    Wrote {
        status,
        bytes: sink.bytes().to_vec(alloc).expect(rt, "memory"),
    }
}

/// What a run with real children writes.
fn written<R: Processes + Abort>(rt: &R, alloc: Global, script: &str) -> Wrote {
    written_with(rt, alloc, &["run"], script.as_bytes())
}

/// The run is done.
fn is_done(rt: &impl Abort, wrote: &Wrote) {
    is(rt, wrote.status, Status::Done);
}

/// The run is done and has written this.
fn comes_to(rt: &impl Abort, wrote: &Wrote, bytes: &[u8]) {
    is_done(rt, wrote);
    is(rt, wrote.bytes.as_slice(), bytes);
}

#[test]
fn the_shipped_filter_inserts_by_calls(rt: HostRuntime) {
    let script = r#"(setq p (start-process "c" "out" "printf" "hi"))
(set-process-filter p 'insert-filter)(accept-process-output p)"#;
    let wrote = written(&rt, rt.alloc(), script);
    comes_to(
        &rt,
        &wrote,
        br#"= #<process c>
= insert-filter
> filter insert-filter #<process c> "hi"
  = #<buffer out>
  = #<buffer out>
  = 1
  = #<marker at 1 in out>
  = 1
  = #<marker at 1 in out>
  = nil
  = 3
  = #<marker at 3 in out>
< insert-filter
= t
kill #<process c>
buffer *scratch* point 1 min 1 max 1 modified nil current
text ""
buffer out point 3 min 1 max 3 modified t
text "hi"
marker 0 #<marker at 3 in out>
process 0 #<process c> run 0
"#
            .as_slice(),
    );
}

/// The text is put in at the nearer bound, and point is put back by the mark's own number.
#[test]
fn the_shipped_filter_inserts_at_a_bound(rt: HostRuntime) {
    let script = r#"(setq p (start-process "c" "out" "printf" "ab"))
(set-process-filter p 'insert-filter)(setq m (process-mark p))
(save-current-buffer (set-buffer "out")(insert "xyz")(goto-char 2)(narrow-to-region 3 4)(set-marker m 1))
(accept-process-output p)"#;
    let wrote = written(&rt, rt.alloc(), script);
    comes_to(
        &rt,
        &wrote,
        br#"= #<process c>
= insert-filter
= #<marker at 1 in out>
= #<buffer out>
= nil
= 2
= nil
= #<marker at 1 in out>
> filter insert-filter #<process c> "ab"
  = #<buffer out>
  = #<buffer out>
  = 3
  = #<marker at 1 in out>
  = 1
  = #<marker at 1 in out>
  = nil
  = 5
  = #<marker at 5 in out>
  = 7
< insert-filter
= t
kill #<process c>
buffer *scratch* point 1 min 1 max 1 modified nil current
text ""
buffer out point 6 min 3 max 6 modified t
text "xyabz"
marker 0 #<marker at 5 in out>
process 0 #<process c> run 0
"#
            .as_slice(),
    );
}

#[test]
fn the_shipped_sentinel_notes_an_end(rt: HostRuntime) {
    let script = r#"(setq p (start-process "c" nil "true"))
(set-process-sentinel p 'note-sentinel)(accept-process-output p)"#;
    let wrote = written(&rt, rt.alloc(), script);
    comes_to(
        &rt,
        &wrote,
        br#"= #<process c>
= note-sentinel
> sentinel note-sentinel #<process c> "finished\n"
  = #<buffer *events*>
  = #<buffer *events*>
  = 1
  = 1
  = nil
< note-sentinel
= nil
buffer *scratch* point 1 min 1 max 1 modified nil current
text ""
buffer *events* point 10 min 1 max 10 modified t
text "finished\n"
marker 0 #<marker in no buffer>
process 0 #<process c> exit 0
"#
            .as_slice(),
    );
}

#[test]
fn a_child_is_heard_out(rt: HostRuntime) {
    let script =
        "(start-process \"c\" \"*scratch*\" \"printf\" \"ab\")(accept-process-output)(accept-process-output)";
    let wrote = written(&rt, rt.alloc(), script);
    comes_to(
        &rt,
        &wrote,
        b"= #<process c>
> filter default #<process c> \"ab\"
< default
= t
> sentinel default #<process c> \"finished\\n\"
< default
= nil
buffer *scratch* point 23 min 1 max 23 modified t current
text \"ab\\nProcess c finished\\n\"
marker 0 #<marker at 23 in *scratch*>
process 0 #<process c> exit 0
"
            .as_slice(),
    );
}

/// Shells with no output: their scripts, what the sentinel is told, the end of the text, and how they ended.
const SILENT: [(&str, &str, &str, &str); 3] = [
    ("exit 3", "exited abnormally with code 3", "42", "exit 3"),
    (
        "exec >&-; sleep 0.2; exit 3",
        "exited abnormally with code 3",
        "42",
        "exit 3",
    ),
    ("kill -9 $$", "killed", "19", "signal nil"),
];

/// A shell with no output is heard out, and its end told.
fn is_told<R: Processes + Abort>(rt: &R, alloc: Global, case: (&str, &str, &str, &str)) {
    let (shell, told, end, ended) = case;
    let script = format!(in alloc;
        "(start-process \"c\" \"*scratch*\" \"sh\" \"-c\" \"{shell}\")(accept-process-output)"
    ).expect(rt, "memory");
    let want = format!(in alloc;
        "= #<process c>
> sentinel default #<process c> \"{told}\\n\"
< default
= nil
buffer *scratch* point {end} min 1 max {end} modified t current
text \"\\nProcess c {told}\\n\"
marker 0 #<marker at {end} in *scratch*>
process 0 #<process c> {ended}
"
    )
    .expect(rt, "memory");
    let wrote = written(rt, alloc, script.as_str());
    comes_to(rt, &wrote, want.as_bytes());
}

#[test]
fn an_end_is_told(rt: HostRuntime) {
    for case in SILENT {
        is_told(&rt, rt.alloc(), case);
    }
}

#[test]
fn a_child_that_is_not_waited_for_is_killed(rt: HostRuntime) {
    let wrote = written(
        &rt,
        rt.alloc(),
        "(start-process \"c\" nil \"yes\")(insert \"a\")",
    );
    comes_to(
        &rt,
        &wrote,
        b"= #<process c>
= nil
kill #<process c>
buffer *scratch* point 2 min 1 max 2 modified t current
text \"a\"
marker 0 #<marker in no buffer>
process 0 #<process c> run 0
"
            .as_slice(),
    );
}

#[test]
fn a_program_that_is_not_there_leaves_no_process(rt: HostRuntime) {
    let script =
        "(start-process \"c\" \"*scratch*\" \"no-such-program\")(accept-process-output)(accept-process-output nil 1)";
    let wrote = written(&rt, rt.alloc(), script);
    comes_to(
        &rt,
        &wrote,
        b"! 12 spawn-failed
= nil
= nil
buffer *scratch* point 1 min 1 max 1 modified nil current
text \"\"
"
            .as_slice(),
    );
}

/// How the child's output is cut is not known, so the text of the buffer alone is compared.
#[test]
fn a_long_output_is_read_to_its_end(rt: HostRuntime) {
    let mut script = String::new(rt.alloc());
    push(
        &rt,
        &mut script,
        "(start-process \"c\" \"*scratch*\" \"printf\" \"%1048576s\")",
    );
    for _ in 0..1000 {
        push(&rt, &mut script, "(accept-process-output)");
    }
    let mut want = String::new(rt.alloc());
    push(
        &rt,
        &mut want,
        "buffer *scratch* point 1048597 min 1 max 1048597 modified t current\ntext \"",
    );
    for _ in 0..1_048_576 {
        push(&rt, &mut want, " ");
    }
    push(
        &rt,
        &mut want,
        "\\nProcess c finished\\n\"\nmarker 0 #<marker at 1048597 in *scratch*>\nprocess 0 #<process c> exit 0\n",
    );
    let wrote = written(&rt, rt.alloc(), script.as_str());
    is_done(&rt, &wrote);
    holds(&rt, wrote.bytes.ends_with(want.as_bytes()));
}

/// The lines of the run whose session is replayed below.
fn is_replayed(rt: &impl Abort, wrote: &Wrote) {
    is_done(rt, wrote);
    let lines = b"= #<process c>\n= insert-filter\n> filter insert-filter #<process c> \"hi\"\n";
    holds(rt, wrote.bytes.starts_with(lines));
    holds(
        rt,
        wrote.bytes.ends_with(b"process 0 #<process c> exit 0\n"),
    );
}

/// What a real child says in a run is told once more by a replay, and no child is started then.
#[test]
fn a_recorded_child_is_replayed(rt: HostRuntime) {
    let script = br#"(setq p (start-process "c" "out" "printf" "hi"))
(set-process-filter p 'insert-filter)(accept-process-output p)(accept-process-output p)"#;
    let session = written_with(&rt, rt.alloc(), &["record"], script);
    is_done(&rt, &session);
    let bytes = session.bytes.as_slice();
    holds(
        &rt,
        bytes.starts_with(b"spawn 7072696e7466 6869 -> started 0\n"),
    );
    let lines = written_with(&rt, rt.alloc(), &["replay"], bytes);
    is_replayed(&rt, &lines);
}

/// A real child that ends badly is started again, as often as it may be, and its last line is closed each time.
#[test]
fn a_real_child_is_started_again(rt: HostRuntime) {
    let words = ["session", "2", "sh", "-c", "printf 'a\\nb'; exit 3"];
    let wrote = written_with(&rt, rt.alloc(), &words, b"");
    comes_to(&rt, &wrote, b"a\nb\na\nb\na\nb\n");
}
