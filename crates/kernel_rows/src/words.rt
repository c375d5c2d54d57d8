//! The words of the command line, and bytes that are no script.

use super::comparing::{is_for, is_refused};
use super::playing::{PLAIN, run_script, run_words};
use kernel_top::Status;
use std::alloc::Global;
use std::process::Abort;

const WRONG: [&[&str]; 30] = [
    &["walk"],
    &["run", "x"],
    &[],
    &["Run"],
    &["drill"],
    &["drill", "-1"],
    &["drill", ""],
    &["drill", "1a"],
    &["drill", "12345"],
    &["drill", "1", "2"],
    &["run", "1"],
    &["record", "x"],
    &["replay", "1"],
    &["Replay"],
    &["check", "x"],
    &["checks"],
    &["view", "x"],
    &["views"],
    &["session"],
    &["session", "1"],
    &["session", "256", "cat"],
    &["session", "999", "cat"],
    &["session", "", "cat"],
    &["session", "1a", "cat"],
    &["session", "0001", "cat"],
    &["session", "-1", "cat"],
    &["session", "1", ""],
    &["session", "1", "c\0t"],
    &["session", "1", "cat", "a", "\0"],
    &["Session", "1", "cat"],
];

fn are_wrong(rt: &impl Abort, alloc: Global, words: &[&str]) {
    let ran = run_words(rt, alloc, words, "(insert \"a\")", Vec::new(alloc), PLAIN);
    is_refused(rt, "words", &ran, Status::Usage);
}

#[test]
fn other_words_are_wrong(rt: HostRuntime) {
    for words in &WRONG {
        are_wrong(&rt, rt.alloc(), words);
    }
}

/// Bytes that are no script, with the line that is told.
struct Refused {
    script: &'static str,
    line: u32,
}

const REFUSED: [Refused; 6] = [
    Refused {
        script: "(goto-char 7",
        line: 1,
    },
    Refused {
        script: "x",
        line: 1,
    },
    Refused {
        script: "(goto-char 1))",
        line: 1,
    },
    Refused {
        script: "(insert \"a\")\n(goto-char 1)\n(point)\n(insert \"abc)\n",
        line: 4,
    },
    Refused {
        script: "(point)\n(goto-char)\n",
        line: 2,
    },
    Refused {
        script: "; one\n(defhandler f (a a))\n",
        line: 2,
    },
];

fn is_no_script(rt: &impl Abort, alloc: Global, script: &str, line: u32) {
    let ran = run_script(rt, alloc, script, Vec::new(alloc), PLAIN);
    is_refused(rt, script, &ran, Status::Script(line));
}

#[test]
fn bytes_that_are_no_script_write_and_ask_nothing(rt: HostRuntime) {
    for refused in &REFUSED {
        is_no_script(&rt, rt.alloc(), refused.script, refused.line);
    }
}

fn ends_in(rt: &impl Abort, alloc: Global, length: usize, status: Status) {
    let blanks = " ".repeat(alloc, length).expect(rt, "memory");
    let ran = run_script(rt, alloc, blanks.as_str(), Vec::new(alloc), PLAIN);
    is_for(rt, "blanks", ran.status, status);
}

/// One byte more than a script may have is enough for line 0, and one less is a script still.
#[test]
fn a_script_beyond_1048576_bytes_is_too_long(rt: HostRuntime) {
    ends_in(&rt, rt.alloc(), 1_048_576, Status::Done);
    ends_in(&rt, rt.alloc(), 1_048_577, Status::Script(0));
}
