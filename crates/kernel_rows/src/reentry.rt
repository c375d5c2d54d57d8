//! Handlers that set others, wait, start, delete and kill while they are running themselves.

use super::playing::{Child, Row, UNREAD, check_run, plays};
use super::texts::push;
use std::alloc::Global;
use std::process::Abort;

/// Runs, each with its lines and its exchanges.
pub const ROWS: [Row; 8] = [
    Row {
        shows: "a filter that sets another in its place, which gets what was held and comes next",
        script: r#"(defhandler f (p s) (set-process-filter p 'g)(accept-process-output p))
(defhandler g (p s))
(setq p (start-process "c" nil "cat"))(set-process-filter p 'f)(accept-process-output p)(accept-process-output p)"#,
        children: &[Child {
            reads: &[b"a\xE2", b"\x82\xACb", b"c"],
            ends: &[],
        }],
        lines: r#"= #<process c>
= f
> filter f #<process c> "a"
  = g
  > filter g #<process c> "€b"
  < g
  = t
< f
= t
> filter g #<process c> "c"
< g
= t
kill #<process c>
buffer *scratch* point 1 min 1 max 1 modified nil current
text ""
marker 0 #<marker in no buffer>
process 0 #<process c> run 0
"#,
        exchanges: b"spawn cat: started 0
read 0: bytes a\\xe2
read 0: bytes \\x82\\xacb
read 0: bytes c
kill 0: killed
",
    },
    Row {
        shows: "a filter that is off while it waits",
        script: r#"(defhandler f (p s) (set-process-filter p t)(accept-process-output p)(set-process-filter p nil))
(setq p (start-process "c" nil "cat"))(set-process-filter p 'f)(accept-process-output p)(accept-process-output p)"#,
        children: &[Child {
            reads: &[b"a", b"b"],
            ends: &[],
        }],
        lines: r#"= #<process c>
= f
> filter f #<process c> "a"
  = t
  = nil
  = nil
< f
= t
> filter default #<process c> "b"
< default
= t
kill #<process c>
buffer *scratch* point 1 min 1 max 1 modified nil current
text ""
marker 0 #<marker in no buffer>
process 0 #<process c> run 0
"#,
        exchanges: b"spawn cat: started 0
read 0: bytes a
read 0: bytes b
kill 0: killed
",
    },
    Row {
        shows: "two filters that wait for each other's process, until one ends",
        script: r#"(defhandler f (p s) (accept-process-output q))
(defhandler g (p s) (accept-process-output r))
(setq r (start-process "r" nil "a"))(setq q (start-process "q" nil "b"))
(set-process-filter r 'f)(set-process-filter q 'g)(accept-process-output r)"#,
        children: &[
            Child {
                reads: &[b"a", b"c"],
                ends: &[],
            },
            Child {
                reads: &[b"b", b"d"],
                ends: &[],
            },
        ],
        lines: r#"= #<process r>
= #<process q>
= f
= g
> filter f #<process r> "a"
  > filter g #<process q> "b"
    > filter f #<process r> "c"
      > filter g #<process q> "d"
        > sentinel default #<process r> "finished\n"
        < default
        = nil
      < g
      = t
    < f
    = t
  < g
  = t
< f
= t
kill #<process q>
buffer *scratch* point 1 min 1 max 1 modified nil current
text ""
marker 0 #<marker in no buffer>
marker 1 #<marker in no buffer>
process 0 #<process r> exit 0
process 1 #<process q> run 0
"#,
        exchanges: b"spawn a: started 0
spawn b: started 1
read 0: bytes a
read 1: bytes b
read 0: bytes c
read 1: bytes d
read 0: end
read 1: end
end 0: code 0
kill 1: killed
",
    },
    Row {
        shows: "a filter that kills its own buffer",
        script: r#"(defhandler f (p s) (setq b (process-buffer p))(kill-buffer b)(process-buffer p)(process-mark p))
(setq p (start-process "c" "out" "cat"))(set-process-filter p 'f)(accept-process-output p)(accept-process-output p)"#,
        children: &[Child {
            reads: &[b"a", b"b"],
            ends: &[],
        }],
        lines: r#"= #<process c>
= f
> filter f #<process c> "a"
  = #<buffer out>
  > sentinel default #<process c> "killed\n"
  < default
  = t
  = #<killed buffer>
  = #<marker in no buffer>
< f
= t
= nil
buffer *scratch* point 1 min 1 max 1 modified nil current
text ""
marker 0 #<marker in no buffer>
process 0 #<process c> signal nil
"#,
        exchanges: b"spawn cat: started 0
read 0: bytes a
kill 0: killed
",
    },
    Row {
        shows: "a filter that deletes its own process, whose sentinel deletes it once more",
        script: r#"(defhandler f (p s) (delete-process p)(process-status p)(get-process "c"))
(defhandler s (p m) (get-process "c")(process-status p)(delete-process p))
(setq p (start-process "c" nil "cat"))(set-process-filter p 'f)(set-process-sentinel p 's)
(accept-process-output)(accept-process-output)"#,
        children: &[Child {
            reads: &[b"a\xE2", b"\x82\xAC"],
            ends: &[],
        }],
        lines: r#"= #<process c>
= f
= s
> filter f #<process c> "a"
  > sentinel s #<process c> "killed\n"
    = #<process c>
    = signal
    = nil
  < s
  = nil
  = signal
  = nil
< f
= t
= nil
buffer *scratch* point 1 min 1 max 1 modified nil current
text ""
marker 0 #<marker in no buffer>
process 0 #<process c> signal nil
"#,
        exchanges: b"spawn cat: started 0
read 0: bytes a\\xe2
kill 0: killed
",
    },
    Row {
        shows: "a filter that starts a process, which the wait asks in its next round",
        script: r#"(defhandler f (p s) (start-process "d" "out" "b"))
(setq p (start-process "c" nil "a"))(set-process-filter p 'f)
(setq z (start-process "z" nil "z"))(accept-process-output z)"#,
        children: &[
            Child {
                reads: &[b"x"],
                ends: &[],
            },
            Child {
                reads: &[b"", b"", b"z"],
                ends: &[],
            },
            Child {
                reads: &[b"y"],
                ends: &[],
            },
        ],
        lines: r#"= #<process c>
= f
= #<process z>
> filter f #<process c> "x"
  = #<process d>
< f
> filter default #<process d> "y"
< default
> filter default #<process z> "z"
< default
= t
kill #<process c>
kill #<process z>
kill #<process d>
buffer *scratch* point 1 min 1 max 1 modified nil current
text ""
buffer out point 2 min 1 max 2 modified t
text "y"
marker 0 #<marker in no buffer>
marker 1 #<marker in no buffer>
marker 2 #<marker at 2 in out>
process 0 #<process c> run 0
process 1 #<process z> run 0
process 2 #<process d> run 0
"#,
        exchanges: b"spawn a: started 0
spawn z: started 1
read 1: nothing
read 0: bytes x
spawn b: started 2
read 1: nothing
read 0: end
read 2: bytes y
read 1: bytes z
kill 0: killed
kill 1: killed
kill 2: killed
",
    },
    Row {
        shows: "a sentinel that waits for its own process, which is listed but not asked any more",
        script: r#"(defhandler s (p m) (accept-process-output p)(process-list))
(setq p (start-process "c" nil "cat"))(set-process-sentinel p 's)(accept-process-output p)"#,
        children: &[UNREAD],
        lines: r#"= #<process c>
= s
> sentinel s #<process c> "finished\n"
  = nil
  = (#<process c>)
< s
= nil
buffer *scratch* point 1 min 1 max 1 modified nil current
text ""
marker 0 #<marker in no buffer>
process 0 #<process c> exit 0
"#,
        exchanges: b"spawn cat: started 0
read 0: end
end 0: code 0
",
    },
    Row {
        shows: "two processes of a killed buffer, where the first sentinel sets the second, which kills the buffer first",
        script: r#"(defhandler s (p m) (set-process-sentinel q 'u)(process-status q)(buffer-live-p b))
(defhandler u (p m) (kill-buffer b))
(setq p (start-process "p" "out" "a"))(setq q (start-process "q" "out" "b"))(setq b (get-buffer "out"))
(set-process-sentinel p 's)(kill-buffer b)(buffer-live-p b)"#,
        children: &[UNREAD, UNREAD],
        lines: r#"= #<process p>
= #<process q>
= #<buffer out>
= s
> sentinel s #<process p> "killed\n"
  = u
  = run
  = t
< s
> sentinel u #<process q> "killed\n"
  = t
< u
= nil
= nil
buffer *scratch* point 1 min 1 max 1 modified nil current
text ""
marker 0 #<marker in no buffer>
marker 1 #<marker in no buffer>
process 0 #<process p> signal nil
process 1 #<process q> signal nil
"#,
        exchanges: b"spawn a: started 0
spawn b: started 1
kill 0: killed
kill 1: killed
",
    },
];

/// How many children end, each of whose sentinels starts the next one. The last one's finds none.
const CHILDREN: usize = 251;

/// The name of a child's process.
fn name(child: usize) -> &'static str {
    if child % 2 == 0 { "c" } else { "c<1>" }
}

/// The lines of the sentinel of a child that has a successor.
fn push_heard(rt: &impl Abort, lines: &mut String, own: &str, next: &str) {
    write!(
        lines,
        "> sentinel s #<process {own}> \"finished\\n\"\n  = #<process {next}>\n  = s\n< s\n"
    )
    .expect(rt, "memory");
}

/// The lines of the run: the sentinels, the last of which finds no child, then the markers and the processes.
fn successors(rt: &impl Abort, alloc: Global) -> String {
    let mut lines = String::from_str(alloc, "= #<process c>\n= s\n").expect(rt, "memory");
    for child in 1..CHILDREN {
        push_heard(rt, &mut lines, name(child - 1), name(child));
    }
    push(
        rt,
        &mut lines,
        "> sentinel s #<process c> \"finished\\n\"
  ! 12 spawn-failed
< s
= nil
buffer *scratch* point 1 min 1 max 1 modified nil current
text \"\"
",
    );
    for child in 0..CHILDREN {
        write!(lines, "marker {child} #<marker in no buffer>\n").expect(rt, "memory");
    }
    for child in 0..CHILDREN {
        push_process(rt, &mut lines, child, name(child));
    }
    lines
}

fn push_process(rt: &impl Abort, lines: &mut String, child: usize, name: &str) {
    write!(lines, "process {child} #<process {name}> exit 0\n").expect(rt, "memory");
}

/// What is asked: each child is started and ends, and one more is refused.
fn succession(rt: &impl Abort, alloc: Global) -> String {
    let mut exchanges = String::new(alloc);
    for child in 0..CHILDREN {
        write!(
            exchanges,
            "spawn cat: started {child}\nread {child}: end\nend {child}: code 0\n"
        )
        .expect(rt, "memory");
    }
    push(rt, &mut exchanges, "spawn cat: refused\n");
    exchanges
}

/// A process is listed while its sentinel is running, so its successor can't have its name, and the
/// next one can.
#[test]
fn each_sentinel_starts_its_successor(rt: HostRuntime) {
    check_run(
        &rt,
        rt.alloc(),
        "successors",
        r#"(defhandler s (p m) (setq p (start-process "c" nil "cat"))(set-process-sentinel p 's))
(setq p (start-process "c" nil "cat"))(set-process-sentinel p 's)(accept-process-output)"#,
        plays(&rt, rt.alloc(), &[UNREAD; CHILDREN]),
        successors(&rt, rt.alloc()).as_str(),
        succession(&rt, rt.alloc()).as_bytes(),
    )
}
