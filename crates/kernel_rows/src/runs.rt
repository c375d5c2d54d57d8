//! All runs that are worked out here by subject.

use super::playing::{Row, Run, check_run, plays};
use super::{codings, edits, filters, hooks, nesting, read_only, reentry, undos, waits};
use std::alloc::Global;
use std::process::Abort;

/// Puts copies of some rows behind other runs.
fn add(rt: &impl Abort, alloc: Global, runs: &mut Vec<Run>, rows: &[Row]) {
    for row in rows {
        runs.push(row.run(rt, alloc)).expect(rt, "memory");
    }
}

// A function for each table: one that names several is proved with all of them at once, which takes long.

fn add_edits(rt: &impl Abort, alloc: Global, runs: &mut Vec<Run>) {
    add(rt, alloc, runs, &edits::ROWS);
}

fn add_undos(rt: &impl Abort, alloc: Global, runs: &mut Vec<Run>) {
    add(rt, alloc, runs, &undos::ROWS);
}

fn add_hooks(rt: &impl Abort, alloc: Global, runs: &mut Vec<Run>) {
    add(rt, alloc, runs, &hooks::ROWS);
}

fn add_waits(rt: &impl Abort, alloc: Global, runs: &mut Vec<Run>) {
    add(rt, alloc, runs, &waits::ROWS);
}

fn add_filters(rt: &impl Abort, alloc: Global, runs: &mut Vec<Run>) {
    add(rt, alloc, runs, &filters::ROWS);
}

fn add_reentry(rt: &impl Abort, alloc: Global, runs: &mut Vec<Run>) {
    add(rt, alloc, runs, &reentry::ROWS);
}

fn add_codings(rt: &impl Abort, alloc: Global, runs: &mut Vec<Run>) {
    add(rt, alloc, runs, &codings::ROWS);
}

fn add_read_only(rt: &impl Abort, alloc: Global, runs: &mut Vec<Run>) {
    add(rt, alloc, runs, &read_only::ROWS);
}

/// All runs.
pub fn all(rt: &impl Abort, alloc: Global) -> Vec<Run> {
    let mut runs = nesting::runs(rt, alloc);
    add_edits(rt, alloc, &mut runs);
    add_undos(rt, alloc, &mut runs);
    add_hooks(rt, alloc, &mut runs);
    add_waits(rt, alloc, &mut runs);
    add_filters(rt, alloc, &mut runs);
    add_reentry(rt, alloc, &mut runs);
    add_codings(rt, alloc, &mut runs);
    add_read_only(rt, alloc, &mut runs);
    runs
}

fn check(rt: &impl Abort, alloc: Global, run: &Run) {
    check_run(
        rt,
        alloc,
        run.shows,
        run.script.as_str(),
        plays(rt, alloc, run.children),
        run.lines.as_str(),
        run.exchanges.as_slice(),
    );
}

#[test]
fn every_run_writes_its_lines_and_asks_its_exchanges(rt: HostRuntime) {
    for run in &all(&rt, rt.alloc()) {
        check(&rt, rt.alloc(), run);
    }
}
