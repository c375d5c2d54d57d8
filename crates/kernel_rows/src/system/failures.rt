//! The line and the exit status of each failure.

use crate::comparing::{is, is_for};
use kernel_top::Status;
use shipped_run::result_of;
use std::alloc::Global;
use std::process::Abort;

fn is_failure(rt: &impl Abort, alloc: Global, status: Status, line: &str, exit_status: u8) {
    let Err(failure) = result_of(status) else {
        panic!(rt; "done");
    };
    let told = format!(in alloc; "{failure}").expect(rt, "memory");
    is(rt, told.as_str(), line);
    is_for(rt, line, failure.exit_status(), exit_status);
}

#[test]
fn a_failure_is_told_in_a_line(rt: HostRuntime) {
    let told = [
        (Status::Usage, "kernel_cli: usage", 1),
        (Status::Script(0), "kernel_cli: script: line 0", 2),
        (Status::ReadFault, "kernel_cli: read failed", 3),
        (Status::WriteFault, "kernel_cli: write failed", 4),
        (Status::NoMemory, "kernel_cli: out of memory", 5),
        (Status::Journal(2), "kernel_cli: journal: line 2", 6),
        (Status::JournalFull, "kernel_cli: journal too long", 7),
        (Status::Strayed(3), "kernel_cli: strayed at 3", 8),
        (Status::Differs(4), "kernel_cli: line 4 differs", 9),
        (Status::SessionFull, "kernel_cli: session full", 10),
    ];
    for (status, line, exit_status) in told {
        is_failure(&rt, rt.alloc(), status, line, exit_status);
    }
}
