//! Drills.

use super::acting::InTurn;
use super::comparing::ends_with;
use super::playing::{PLAIN, Ran, Setting, run_over, run_words};
use kernel_top::{Status, drill};
use std::alloc::Global;
use std::process::Abort;

/// A drill over its own host: the word for its lines, their number, and what is written.
struct Row {
    word: &'static str,
    lines: u32,
    summary: &'static str,
}

const ROWS: [Row; 3] = [
    Row {
        word: "0",
        lines: 0,
        summary: "drill 0: 12 lines, 3 exchanges, 0 characters\n",
    },
    Row {
        word: "1",
        lines: 1,
        summary: "drill 1: 37 lines, 6 exchanges, 4 characters\n",
    },
    Row {
        word: "0001",
        lines: 1,
        summary: "drill 1: 37 lines, 6 exchanges, 4 characters\n",
    },
];

/// Runs a drill of so many lines over its own host.
fn run_drill(rt: &impl Abort, alloc: Global, word: &str, lines: u32, setting: Setting) -> Ran {
    let (_, host) = drill(alloc, lines).expect(rt, "memory");
    let natives = InTurn::none(alloc);
    run_over(rt, alloc, &["drill", word], "(", host, setting, &natives)
}

/// How a drill ended, and what it wrote.
fn sums_up(rt: &impl Abort, ran: &Ran, status: Status, written: &str) {
    ends_with(rt, written, ran, status, written.as_bytes());
}

fn check_row(rt: &impl Abort, alloc: Global, row: &Row) {
    let ran = run_drill(rt, alloc, row.word, row.lines, PLAIN);
    sums_up(rt, &ran, Status::Done, row.summary);
}

/// The source isn't read: its bytes are no script.
#[test]
fn a_drill_writes_its_summary(rt: HostRuntime) {
    for row in &ROWS {
        check_row(&rt, rt.alloc(), row);
    }
}

/// The spawn is refused; of the lines one tells that, six that the process is unknown, and two are the dump.
#[test]
fn a_drill_without_a_child_counts_its_faults(rt: HostRuntime) {
    let ran = run_words(
        &rt,
        rt.alloc(),
        &["drill", "1"],
        "",
        Vec::new(rt.alloc()),
        PLAIN,
    );
    sums_up(
        &rt,
        &ran,
        Status::Done,
        "drill 1: 9 lines, 1 exchanges, 0 characters\n",
    );
}

#[test]
fn a_summary_is_cut_where_the_sink_is_full(rt: HostRuntime) {
    let full = Setting { room: 11, ..PLAIN };
    let ran = run_drill(&rt, rt.alloc(), "1", 1, full);
    sums_up(&rt, &ran, Status::WriteFault, "drill 1: 37");
}

/// 78,882 bytes in 19,722 reads. Eight hold but the first byte of a character, so there are 19,714 entries of 11 lines.
#[test]
fn the_largest_drill_writes_its_summary(rt: HostRuntime) {
    let ran = run_drill(&rt, rt.alloc(), "9999", 9999, PLAIN);
    sums_up(
        &rt,
        &ran,
        Status::Done,
        "drill 9999: 236588 lines, 19725 exchanges, 68883 characters\n",
    );
}
