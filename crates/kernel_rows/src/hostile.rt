//! Each call of the source, the sink and the host fails in turn, over all runs that are worked out
//! here.

use super::acting::InTurn;
use super::comparing::{holds_for, is_for, is_refused};
use super::playing::{
    Calls, Child, PLAIN, Ran, Row, Run, Setting, TO_RUN, UNREAD, check_ran, plays, run_over,
    run_script,
};
use super::runs::all;
use super::shown::shown_one;
use host_link::{Answer, Ask, Ended, Exchange, Exchanges, MemoryHost};
use kernel_top::Status;
use std::alloc::Global;
use std::process::Abort;

/// More calls of the source or the sink than any of these runs makes.
const CALLS: u32 = 2000;

/// Makes a run by a setting.
fn ran(rt: &impl Abort, alloc: Global, run: &Run, setting: Setting) -> Ran {
    run_script(
        rt,
        alloc,
        run.script.as_str(),
        plays(rt, alloc, run.children),
        setting,
    )
}

/// Whether two exchanges are the same.
fn is_same(rt: &impl Abort, alloc: Global, one: &Exchange, other: &Exchange) -> bool {
    shown_one(rt, alloc, one).as_str() == shown_one(rt, alloc, other).as_str()
}

/// How many exchanges at the front are the same.
fn same_front(rt: &impl Abort, alloc: Global, one: &Exchanges, other: &Exchanges) -> usize {
    let shorter = one.len().min(other.len());
    for i in 0..shorter {
        if i < one.len() && i < other.len() && !is_same(rt, alloc, one.at(i), other.at(i)) {
            return i;
        }
    }
    shorter
}

/// The child that an exchange has started.
fn started(x: &Exchange) -> Option<u32> {
    match x.answer {
        Answer::Started(child) => Some(child),
        _ => None,
    }
}

/// The child that was asked to be killed.
fn killed(x: &Exchange) -> Option<u32> {
    match x.ask {
        Ask::Kill(child) => Some(child),
        _ => None,
    }
}

/// The child that has ended, or was asked to be killed.
fn over(x: &Exchange) -> Option<u32> {
    match (&x.ask, &x.answer) {
        (Ask::End(_), Answer::Running) => None,
        (Ask::End(child), _) => Some(*child),
        _ => killed(x),
    }
}

/// The children that the first exchanges leave alive, by rising number.
fn living(rt: &impl Abort, alloc: Global, told: &Exchanges, count: usize) -> Vec<u32> {
    let mut living = Vec::new(alloc);
    for x in told.as_slice().iter().take(count) {
        if let Some(child) = started(x) {
            let mut later = told.as_slice().iter().take(count);
            if !later.any(|y| over(y) == Some(child)) {
                living.push(child).expect(rt, "memory");
            }
        }
    }
    living
}

/// Checks that what a stopped run asked is a front of what the whole run asks, and then a kill of
/// each child that lives.
fn check_stopped(rt: &impl Abort, alloc: Global, shows: &str, whole: &Exchanges, told: &Exchanges) {
    let front = same_front(rt, alloc, whole, told);
    let mut kills = told.as_slice().iter().skip(front);
    for child in living(rt, alloc, told, front) {
        let kill = kills.next().expect(rt, "a child is left");
        is_for(rt, shows, killed(kill), Some(child));
    }
    holds_for(rt, shows, kills.next().is_none());
}

/// A run whose source fails at a call has written and asked nothing. Says whether it makes that call.
fn fails_to_read(rt: &impl Abort, alloc: Global, run: &Run, call: u32) -> bool {
    let from = Calls {
        piece: 16,
        fails: Some(call),
    };
    let ran = ran(rt, alloc, run, Setting { from, ..PLAIN });
    if ran.status == Status::Done {
        return false;
    }
    is_refused(rt, run.shows, &ran, Status::ReadFault);
    true
}

#[test]
fn a_source_that_fails_writes_and_asks_nothing(rt: HostRuntime) {
    for run in &all(&rt, rt.alloc()) {
        for call in 0..CALLS {
            if !fails_to_read(&rt, rt.alloc(), run, call) {
                break;
            }
        }
    }
}

/// A run whose sink fails at a call has written a front of the lines, and leaves no child. Says whether it makes that
/// call.
fn fails_to_write(rt: &impl Abort, alloc: Global, run: &Run, whole: &Exchanges, call: u32) -> bool {
    let to = Calls {
        piece: 1000,
        fails: Some(call),
    };
    let ran = ran(rt, alloc, run, Setting { to, ..PLAIN });
    if ran.status == Status::Done {
        return false;
    }
    has_a_front(rt, run, &ran);
    check_stopped(rt, alloc, run.shows, whole, &ran.told);
    true
}

fn has_a_front(rt: &impl Abort, run: &Run, ran: &Ran) {
    let lines = run.lines.as_bytes();
    let is_front = lines.starts_with(ran.written.as_slice());
    is_for(rt, run.shows, ran.status, Status::WriteFault);
    holds_for(rt, run.shows, is_front);
    holds_for(rt, run.shows, ran.written.len() < lines.len());
}

#[test]
fn a_sink_that_fails_holds_a_front_and_leaves_no_child(rt: HostRuntime) {
    for run in &all(&rt, rt.alloc()) {
        let whole = ran(&rt, rt.alloc(), run, PLAIN);
        for call in 0..CALLS {
            if !fails_to_write(&rt, rt.alloc(), run, &whole.told, call) {
                break;
            }
        }
    }
}

/// Whether an input is closed.
fn is_close(x: &Exchange) -> bool {
    matches!(x.ask, Ask::Close(_))
}

/// Whether an answer tells of a fault.
fn is_fault(answer: &Answer) -> bool {
    matches!(answer, Answer::Refused | Answer::Failed | Answer::Broken)
}

/// Up to the call that fails, all that a run tells is the same, and no child is left.
fn goes_on(rt: &impl Abort, alloc: Global, shows: &str, whole: &Exchanges, ran: &Ran, call: usize) {
    let same = same_front(rt, alloc, whole, &ran.told);
    let living = living(rt, alloc, &ran.told, ran.told.len()).len();
    is_for(rt, shows, ran.status, Status::Done);
    holds_for(rt, shows, same >= call);
    is_for(rt, shows, living, 0);
}

/// The answer of the call that fails tells of a fault, but for a close.
fn tells_of_a_fault(rt: &impl Abort, shows: &str, asked: &Exchange, ran: &Ran, call: usize) {
    let failed = ran.told.as_slice().get(call);
    let failed = failed.expect(rt, "the call isn't made");
    holds_for(rt, shows, is_fault(&failed.answer) != is_close(asked));
}

/// A kill that fails changes no line, and a close can't fail.
fn keeps_its_lines(rt: &impl Abort, run: &Run, asked: &Exchange, ran: &Ran) {
    if is_close(asked) || killed(asked).is_some() {
        is_for(rt, run.shows, ran.written.as_slice(), run.lines.as_bytes());
    }
}

/// The host fails at a call of the run, which asks this there.
fn is_failed(rt: &impl Abort, alloc: Global, run: &Run, whole: &Exchanges, call: usize) {
    let setting = Setting {
        host_fails: u32::try_from(call).ok(),
        ..PLAIN
    };
    let ran = ran(rt, alloc, run, setting);
    goes_on(rt, alloc, run.shows, whole, &ran, call);
    if let Some(asked) = whole.as_slice().get(call) {
        tells_of_a_fault(rt, run.shows, asked, &ran, call);
        keeps_its_lines(rt, run, asked, &ran);
    }
}

#[test]
fn a_host_that_fails_is_told_and_leaves_no_child(rt: HostRuntime) {
    for run in &all(&rt, rt.alloc()) {
        let whole = ran(&rt, rt.alloc(), run, PLAIN);
        for call in 0..whole.told.len() {
            is_failed(&rt, rt.alloc(), run, &whole.told, call);
        }
    }
}

/// A run with the calls of the host that fail, counted from 0.
struct Hostile {
    fails: &'static [u32],
    row: Row,
}

/// A child that is heard out by one filter and sentinel.
const HEARD_OUT: &str = r#"(defhandler f (p s))
(setq p (start-process "c" nil "cat"))(set-process-filter p 'f)(set-process-sentinel p 'f)
(accept-process-output p)(accept-process-output p)"#;

const HOSTILE: [Hostile; 10] = [
    Hostile {
        fails: &[1],
        row: Row {
            shows: "a deletion whose kill fails is none the less one",
            script: r#"(setq p (start-process "c" nil "cat"))(delete-process p)(delete-process p)(process-status p)"#,
            children: &[UNREAD],
            lines: r#"= #<process c>
> sentinel default #<process c> "killed\n"
< default
= nil
= nil
= signal
buffer *scratch* point 1 min 1 max 1 modified nil current
text ""
marker 0 #<marker in no buffer>
process 0 #<process c> signal nil
"#,
            exchanges: b"spawn cat: started 0
kill 0: failed
",
        },
    },
    Hostile {
        fails: &[1],
        row: Row {
            shows: "a buffer is killed though the kill of its child fails",
            script: r#"(start-process "c" "w" "cat")(kill-buffer "w")(process-list)"#,
            children: &[UNREAD],
            lines: r#"= #<process c>
> sentinel default #<process c> "killed\n"
< default
= t
= nil
buffer *scratch* point 1 min 1 max 1 modified nil current
text ""
marker 0 #<marker in no buffer>
process 0 #<process c> signal nil
"#,
            exchanges: b"spawn cat: started 0
kill 0: failed
",
        },
    },
    Hostile {
        fails: &[2],
        row: Row {
            shows: "a kill that fails at the end keeps no other child alive",
            script: r#"(start-process "c" nil "a")(start-process "d" nil "b")"#,
            children: &[UNREAD, UNREAD],
            lines: r#"= #<process c>
= #<process d>
kill #<process c>
kill #<process d>
buffer *scratch* point 1 min 1 max 1 modified nil current
text ""
marker 0 #<marker in no buffer>
marker 1 #<marker in no buffer>
process 0 #<process c> run 0
process 1 #<process d> run 0
"#,
            exchanges: b"spawn a: started 0
spawn b: started 1
kill 0: failed
kill 1: killed
",
        },
    },
    Hostile {
        fails: &[1],
        row: Row {
            shows: "a second child that isn't started leaves neither its process nor its buffer",
            script: r#"(start-process "p" "one" "a")(start-process "q" "two" "b")(get-buffer "two")(process-list)"#,
            children: &[UNREAD, UNREAD],
            lines: r#"= #<process p>
! 12 spawn-failed
= nil
= (#<process p>)
kill #<process p>
buffer *scratch* point 1 min 1 max 1 modified nil current
text ""
buffer one point 1 min 1 max 1 modified nil
text ""
marker 0 #<marker at 1 in one>
process 0 #<process p> run 0
"#,
            exchanges: b"spawn a: started 0
spawn b: refused
kill 0: killed
",
        },
    },
    Hostile {
        fails: &[2],
        row: Row {
            shows: "what is held of a character comes where a read fails",
            script: r#"(defhandler f (p s))
(setq p (start-process "c" nil "cat"))(set-process-filter p 'f)(accept-process-output p)(accept-process-output p)"#,
            children: &[Child {
                reads: &[b"\xE2\x82", b"\xAC"],
                ends: &[],
            }],
            lines: r#"= #<process c>
= f
= t
> filter f #<process c> "\342\202"
< f
> sentinel default #<process c> "finished\n"
< default
= nil
buffer *scratch* point 1 min 1 max 1 modified nil current
text ""
marker 0 #<marker in no buffer>
process 0 #<process c> exit 0
"#,
            exchanges: b"spawn cat: started 0
read 0: bytes \\xe2\\x82
read 0: failed
end 0: code 0
",
        },
    },
    Hostile {
        fails: &[2],
        row: Row {
            shows: "an end that can't be had is an end, and the child isn't killed",
            script: r#"(setq p (start-process "c" "*scratch*" "cat"))
(accept-process-output)(process-status p)(process-exit-status p)(process-live-p p)(process-list)"#,
            children: &[Child {
                reads: &[],
                ends: &[Ended::Code(7)],
            }],
            lines: r#"= #<process c>
> sentinel default #<process c> "failed\n"
< default
= nil
= failed
= nil
= nil
= nil
buffer *scratch* point 19 min 1 max 19 modified t current
text "\nProcess c failed\n"
marker 0 #<marker at 19 in *scratch*>
process 0 #<process c> failed nil
"#,
            exchanges: b"spawn cat: started 0
read 0: end
end 0: failed
",
        },
    },
    Hostile {
        fails: &[1],
        row: Row {
            shows: "a text that the child didn't take leaves its process running",
            script: r#"(setq p (start-process "c" nil "cat"))
(process-send-string p "a")(process-status p)(process-send-string p "b")(process-send-eof p)(process-send-string p "c")"#,
            children: &[UNREAD],
            lines: r#"= #<process c>
! 11 broken-pipe
= run
= nil
= #<process c>
! 10 process-ended
kill #<process c>
buffer *scratch* point 1 min 1 max 1 modified nil current
text ""
marker 0 #<marker in no buffer>
process 0 #<process c> run 0
"#,
            exchanges: b"spawn cat: started 0
send 0 a: broken
send 0 b: sent
close 0: closed
kill 0: killed
",
        },
    },
    Hostile {
        fails: &[3],
        row: Row {
            shows: "a failed read inside a filter ends the output for the waits outside it too",
            script: r#"(defhandler f (p s) (accept-process-output p))
(setq p (start-process "c" nil "cat"))(set-process-filter p 'f)(accept-process-output p)(accept-process-output p)"#,
            children: &[Child {
                reads: &[b"a", b"b", b"c"],
                ends: &[Ended::Running, Ended::Code(3)],
            }],
            lines: r#"= #<process c>
= f
> filter f #<process c> "a"
  > filter f #<process c> "b"
    > sentinel default #<process c> "exited abnormally with code 3\n"
    < default
    = nil
  < f
  = t
< f
= t
= nil
buffer *scratch* point 1 min 1 max 1 modified nil current
text ""
marker 0 #<marker in no buffer>
process 0 #<process c> exit 3
"#,
            exchanges: b"spawn cat: started 0
read 0: bytes a
read 0: bytes b
read 0: failed
end 0: running
end 0: code 3
",
        },
    },
    Hostile {
        fails: &[2, 3],
        row: Row {
            shows: "what is held comes where a read fails, and the end that can't be had behind it",
            script: HEARD_OUT,
            children: &[Child {
                reads: &[b"\xE2", b"\x82"],
                ends: &[],
            }],
            lines: r#"= #<process c>
= f
= f
= t
> filter f #<process c> "\342"
< f
> sentinel f #<process c> "failed\n"
< f
= nil
buffer *scratch* point 1 min 1 max 1 modified nil current
text ""
marker 0 #<marker in no buffer>
process 0 #<process c> failed nil
"#,
            exchanges: b"spawn cat: started 0
read 0: bytes \\xe2
read 0: failed
end 0: failed
",
        },
    },
    Hostile {
        fails: &[0],
        row: Row {
            shows: "a start that is refused leaves its register void",
            script: HEARD_OUT,
            children: &[UNREAD],
            lines: r#"! 12 spawn-failed
! 3 void-variable
! 3 void-variable
! 3 void-variable
! 3 void-variable
buffer *scratch* point 1 min 1 max 1 modified nil current
text ""
"#,
            exchanges: b"spawn cat: refused
",
        },
    },
];

fn check_hostile(rt: &impl Abort, alloc: Global, hostile: &Hostile) {
    let row = &hostile.row;
    let fails = hostile.fails.to_vec(alloc).expect(rt, "memory");
    let host = MemoryHost::new(plays(rt, alloc, row.children), fails);
    let natives = InTurn::none(alloc);
    let ran = run_over(rt, alloc, &TO_RUN, row.script, host, PLAIN, &natives);
    check_ran(rt, alloc, row.shows, &ran, row.lines, row.exchanges);
}

#[test]
fn the_rows_of_hosts_that_fail_write_their_lines(rt: HostRuntime) {
    for hostile in &HOSTILE {
        check_hostile(&rt, rt.alloc(), hostile);
    }
}
