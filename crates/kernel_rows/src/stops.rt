//! A source, a sink or a host that fails. The status tells of the first two alone, and a child that lives is killed once,
//! whatever the run came to.

use super::comparing::{comes_to, ends_with, holds_for, is_for};
use super::playing::{Calls, PLAIN, Ran, Setting, one_child, run_script};
use kernel_top::Status;
use std::alloc::Global;
use std::process::Abort;

const FIRST: &str = "(insert \"hello\")(goto-char 2)(delete-region 2 3)";

const FIRST_LINES: &[u8] =
    b"= nil\n= 2\n= nil\nbuffer *scratch* point 2 min 1 max 5 modified t current\ntext \"hllo\"\n";

/// The place of a call, as a text.
fn at(rt: &impl Abort, alloc: Global, call: usize) -> String {
    format!(in alloc; "at {call}").expect(rt, "memory")
}

/// The script is read in pieces, where a call fails if it is made.
fn fails_at(rt: &impl Abort, alloc: Global, piece: usize, call: u32, calls: u32) {
    let from = Calls {
        piece,
        fails: Some(call),
    };
    let setting = Setting { from, ..PLAIN };
    let ran = run_script(rt, alloc, FIRST, Vec::new(alloc), setting);
    if call < calls {
        ends_with(rt, "a call that fails", &ran, Status::ReadFault, b"");
    } else {
        ends_with(
            rt,
            "a call that isn't made",
            &ran,
            Status::Done,
            FIRST_LINES,
        );
    }
}

/// The script has 48 bytes, and a call behind them finds the end.
#[test]
fn a_source_that_fails_at_any_call_leaves_nothing_written(rt: HostRuntime) {
    for call in 0..60 {
        fails_at(&rt, rt.alloc(), 1, call, 49);
        fails_at(&rt, rt.alloc(), 7, call, 8);
    }
}

#[test]
fn a_sink_of_single_bytes_that_fails_at_call_3_holds_buf(rt: HostRuntime) {
    let to = Calls {
        piece: 1,
        fails: Some(3),
    };
    let setting = Setting { to, ..PLAIN };
    let ran = run_script(&rt, rt.alloc(), "", Vec::new(rt.alloc()), setting);
    ends_with(&rt, "single bytes", &ran, Status::WriteFault, b"buf");
}

/// A child that is heard out.
const CHILD: &str =
    r#"(defhandler f (p s))(setq p (start-process "c" nil "cat"))(set-process-filter p 'f)
(accept-process-output p)(accept-process-output p)"#;

const CHILD_LINES: &[u8] = br#"= #<process c>
= f
> filter f #<process c> "ab"
< f
= t
> sentinel default #<process c> "finished\n"
< default
= nil
buffer *scratch* point 1 min 1 max 1 modified nil current
text ""
marker 0 #<marker in no buffer>
process 0 #<process c> exit 0
"#;

/// The bytes of the lines until the child is read, and until it is read again.
const STARTED: usize = 19;

const HEARD: usize = 56;

/// What is asked where the sink fails at a call: what was asked before its line, and a kill where the child lives.
fn asked_until(call: usize) -> &'static [u8] {
    if call < STARTED {
        return b"spawn cat: started 0\nkill 0: killed\n";
    }
    if call < HEARD {
        return b"spawn cat: started 0\nread 0: bytes ab\nkill 0: killed\n";
    }
    b"spawn cat: started 0\nread 0: bytes ab\nread 0: end\nend 0: code 0\n"
}

fn is_cut_at(rt: &impl Abort, alloc: Global, call: usize) {
    let to = Calls {
        piece: 1,
        fails: u32::try_from(call).ok(),
    };
    let plays = one_child(rt, alloc, &[b"ab"]);
    let ran = run_script(rt, alloc, CHILD, plays, Setting { to, ..PLAIN });
    let front = CHILD_LINES.split_at(call.min(CHILD_LINES.len())).0;
    let shows = at(rt, alloc, call);
    comes_to(
        rt,
        shows.as_str(),
        &ran,
        Status::WriteFault,
        front,
        asked_until(call),
    );
}

#[test]
fn a_sink_that_fails_at_any_call_has_a_living_child_killed(rt: HostRuntime) {
    for call in 0..CHILD_LINES.len() {
        is_cut_at(&rt, rt.alloc(), call);
    }
}

/// The call of the host that fails, with the lines before the dump and the exchanges.
struct Fault {
    call: u32,
    lines: &'static str,
    exchanges: &'static [u8],
}

const FAULTS: [Fault; 5] = [
    Fault {
        call: 0,
        lines: "! 12 spawn-failed\n! 3 void-variable\n! 3 void-variable\n! 3 void-variable\n",
        exchanges: b"spawn cat: refused\n",
    },
    Fault {
        call: 1,
        lines: "= #<process c>
= f
> sentinel default #<process c> \"finished\\n\"
< default
= nil
= nil
",
        exchanges: b"spawn cat: started 0\nread 0: failed\nend 0: code 0\n",
    },
    Fault {
        call: 2,
        lines: "= #<process c>
= f
> filter f #<process c> \"ab\"
< f
= t
> sentinel default #<process c> \"finished\\n\"
< default
= nil
",
        exchanges: b"spawn cat: started 0\nread 0: bytes ab\nread 0: failed\nend 0: code 0\n",
    },
    Fault {
        call: 3,
        lines: "= #<process c>
= f
> filter f #<process c> \"ab\"
< f
= t
> sentinel default #<process c> \"failed\\n\"
< default
= nil
",
        exchanges: b"spawn cat: started 0\nread 0: bytes ab\nread 0: end\nend 0: failed\n",
    },
    Fault {
        call: 4,
        lines: "= #<process c>
= f
> filter f #<process c> \"ab\"
< f
= t
> sentinel default #<process c> \"finished\\n\"
< default
= nil
",
        exchanges: b"spawn cat: started 0\nread 0: bytes ab\nread 0: end\nend 0: code 0\n",
    },
];

/// A run that is done, with these lines in front of the dump.
fn goes_on(rt: &impl Abort, shows: &str, ran: &Ran, fault: &Fault) {
    let begins = ran.written.starts_with(fault.lines.as_bytes());
    is_for(rt, shows, ran.status, Status::Done);
    holds_for(rt, shows, begins);
    is_for(rt, shows, ran.exchanges.as_slice(), fault.exchanges);
}

fn check_fault(rt: &impl Abort, alloc: Global, fault: &Fault) {
    let setting = Setting {
        host_fails: Some(fault.call),
        ..PLAIN
    };
    let plays = one_child(rt, alloc, &[b"ab"]);
    let ran = run_script(rt, alloc, CHILD, plays, setting);
    let shows = at(rt, alloc, fault.call as usize);
    goes_on(rt, shows.as_str(), &ran, fault);
}

#[test]
fn a_run_goes_on_where_its_host_fails_at_any_call(rt: HostRuntime) {
    for fault in &FAULTS {
        check_fault(&rt, rt.alloc(), fault);
    }
}
