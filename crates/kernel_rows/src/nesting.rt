//! Sixteen handlers inside one another: a hook function that waits, filters that delete a process,
//! sentinels that kill the buffer of another process, and sentinels that wait. What would enter a
//! seventeenth is refused.
//!
//! A process is listed until its sentinel has ended, so the names that are asked for again get
//! numbers behind. Of the calls that kill the buffer `b` the innermost does it, so the others
//! answer nil.

use super::playing::{Child, Run, UNREAD};
use super::texts::push;
use std::alloc::Global;
use std::process::Abort;

/// The handlers, and the process whose output enters the filter.
const HANDLERS: &str = r#"(defhandler h (b e) (accept-process-output c))
(defhandler f (p s) (setq d (start-process "d" nil "d"))(set-process-sentinel d 's)(delete-process d))
(defhandler s (p m) (setq k (start-process "k" "b" "k"))(set-process-sentinel k 'u)(kill-buffer "b"))
(defhandler u (p m) (accept-process-output c))
(setq c (start-process "c" nil "c"))(set-process-filter c 'f)
"#;

/// The child that is read at each wait, and those that are deleted.
const CHILDREN: [Child; 13] = [
    Child {
        reads: &[b"a", b"a", b"a", b"a", b"a", b"a"],
        ends: &[],
    },
    UNREAD,
    UNREAD,
    UNREAD,
    UNREAD,
    UNREAD,
    UNREAD,
    UNREAD,
    UNREAD,
    UNREAD,
    UNREAD,
    UNREAD,
    UNREAD,
];

/// A run in which filter and sentinels enter each other in five rounds, the first of which begins
/// with a sentinel in one of the runs.
struct Nest {
    shows: &'static str,
    /// The forms behind the handlers.
    forms: &'static str,
    /// The first round that begins with a filter, and how deep that is.
    first: u8,
    depth: u8,
    /// The lines before that round, those inside the last one as they are indented there, and those
    /// behind.
    front: &'static str,
    inside: &'static str,
    back: &'static str,
    /// How many markers there are, and the lines of the processes behind the rounds.
    markers: u8,
    processes: &'static str,
    /// The exchanges before that round, and behind the last one.
    asked_before: &'static str,
    asked_behind: &'static str,
}

const NESTS: [Nest; 3] = [
    Nest {
        shows: "behind a hook, filters and sentinels the seventeenth is a wait",
        forms: "(add-hook 'before-change-functions 'h)(insert \"x\")",
        first: 0,
        depth: 1,
        front: "= #<process c>
= f
= (h)
> before h 1 1
",
        inside: "! 13 nesting
",
        back: "< h
= nil
kill #<process c>
buffer *scratch* point 2 min 1 max 2 modified t current
text \"x\"
",
        markers: 11,
        processes: "",
        asked_before: "spawn c: started 0\n",
        asked_behind: "kill 0: killed\n",
    },
    Nest {
        shows: "the seventeenth is a deletion",
        forms: "(accept-process-output c)",
        first: 0,
        depth: 0,
        front: "= #<process c>
= f
",
        inside: "> filter f #<process c> \"a\"
  = #<process d<5>>
  = s
  ! 13 nesting
< f
= t
",
        back: "kill #<process c>
kill #<process d<5>>
buffer *scratch* point 1 min 1 max 1 modified nil current
text \"\"
",
        markers: 12,
        processes: "process 11 #<process d<5>> run 0
",
        asked_before: "spawn c: started 0\n",
        asked_behind: "read 0: bytes a
spawn d: started 11
kill 0: killed
kill 11: killed
",
    },
    Nest {
        shows: "the seventeenth kills a buffer",
        forms: r#"(setq d (start-process "d" nil "d"))(set-process-sentinel d 's)(delete-process d)"#,
        first: 1,
        depth: 2,
        front: r#"= #<process c>
= f
= #<process d>
= s
> sentinel s #<process d> "killed\n"
  = #<process k>
  = u
  > sentinel u #<process k> "killed\n"
"#,
        inside: r#"> filter f #<process c> "a"
  = #<process d<5>>
  = s
  > sentinel s #<process d<5>> "killed\n"
    = #<process k<5>>
    = u
    ! 13 nesting
  < s
  = nil
< f
= t
"#,
        back: "  < u
  = nil
< s
= nil
kill #<process c>
kill #<process k<5>>
buffer *scratch* point 1 min 1 max 1 modified nil current
text \"\"
",
        markers: 13,
        processes: "process 11 #<process d<5>> signal nil
process 12 #<process k<5>> run 0
",
        asked_before: "spawn c: started 0
spawn d: started 1
kill 1: killed
spawn k: started 2
kill 2: killed
",
        asked_behind: "read 0: bytes a
spawn d: started 11
kill 11: killed
spawn k: started 12
kill 0: killed
kill 12: killed
",
    },
];

/// How many rounds there are, where the first may begin with its sentinel.
const ROUNDS: u8 = 5;

/// What stands behind the names of a round.
fn number(rt: &impl Abort, alloc: Global, round: u8) -> String {
    if round == 0 {
        return String::new(alloc);
    }
    format!(in alloc; "<{round}>").expect(rt, "memory")
}

/// The lines of the handlers that a round enters.
fn push_entries(rt: &impl Abort, lines: &mut String, margin: &str, n: &str) {
    write!(
        lines,
        r#"{margin}> filter f #<process c> "a"
{margin}  = #<process d{n}>
{margin}  = s
{margin}  > sentinel s #<process d{n}> "killed\n"
{margin}    = #<process k{n}>
{margin}    = u
{margin}    > sentinel u #<process k{n}> "killed\n"
"#
    )
    .expect(rt, "memory");
}

/// The lines behind these handlers.
fn push_exits(rt: &impl Abort, lines: &mut String, margin: &str, killed: &str) {
    write!(
        lines,
        "{margin}    < u
{margin}    = {killed}
{margin}  < s
{margin}  = nil
{margin}< f
{margin}= t
"
    )
    .expect(rt, "memory");
}

/// The lines of the processes of a round.
fn push_processes(rt: &impl Abort, alloc: Global, lines: &mut String, round: u8) {
    if round < ROUNDS {
        let n = number(rt, alloc, round);
        let (d, k) = (2 * round + 1, 2 * round + 2);
        write!(
            lines,
            "process {d} #<process d{n}> signal nil\nprocess {k} #<process k{n}> signal nil\n"
        )
        .expect(rt, "memory");
    }
}

/// The exchanges of a round.
fn push_asked(rt: &impl Abort, exchanges: &mut String, round: u8) {
    if round < ROUNDS {
        let (d, k) = (2 * round + 1, 2 * round + 2);
        write!(
            exchanges,
            "read 0: bytes a
spawn d: started {d}
kill {d}: killed
spawn k: started {k}
kill {k}: killed
"
        )
        .expect(rt, "memory");
    }
}

impl Nest {
    /// The margin of a round's filter, and for the number of rounds that of what is inside them all.
    fn margin(&self, rt: &impl Abort, alloc: Global, round: u8) -> String {
        let mut margin = String::new(alloc);
        for _ in 0..self.depth {
            push(rt, &mut margin, "  ");
        }
        for _ in self.first..round {
            push(rt, &mut margin, "      ");
        }
        margin
    }

    /// The lines of the markers, none of which stands anywhere, and of the processes.
    fn push_objects(&self, rt: &impl Abort, alloc: Global, lines: &mut String) {
        for marker in 0..self.markers {
            write!(lines, "marker {marker} #<marker in no buffer>\n").expect(rt, "memory");
        }
        push(rt, lines, "process 0 #<process c> run 0\n");
        for round in 0..ROUNDS {
            push_processes(rt, alloc, lines, round);
        }
        push(rt, lines, self.processes);
    }

    fn lines(&self, rt: &impl Abort, alloc: Global) -> String {
        let mut lines = String::from_str(alloc, self.front).expect(rt, "memory");
        for round in self.first..ROUNDS {
            let margin = self.margin(rt, alloc, round);
            push_entries(
                rt,
                &mut lines,
                margin.as_str(),
                number(rt, alloc, round).as_str(),
            );
        }
        let margin = self.margin(rt, alloc, ROUNDS);
        for line in self.inside.lines() {
            write!(lines, "{margin}{line}\n").expect(rt, "memory");
        }
        let mut killed = "t";
        for round in (self.first..ROUNDS).rev() {
            push_exits(
                rt,
                &mut lines,
                self.margin(rt, alloc, round).as_str(),
                killed,
            );
            killed = "nil";
        }
        push(rt, &mut lines, self.back);
        self.push_objects(rt, alloc, &mut lines);
        lines
    }

    fn exchanges(&self, rt: &impl Abort, alloc: Global) -> String {
        let mut exchanges = String::from_str(alloc, self.asked_before).expect(rt, "memory");
        for round in self.first..ROUNDS {
            push_asked(rt, &mut exchanges, round);
        }
        push(rt, &mut exchanges, self.asked_behind);
        exchanges
    }

    /// The run, with its lines and its exchanges.
    fn run(&self, rt: &impl Abort, alloc: Global) -> Run {
        let forms = self.forms;
        Run {
            shows: self.shows,
            script: format!(in alloc; "{HANDLERS}{forms}").expect(rt, "memory"),
            children: &CHILDREN,
            lines: self.lines(rt, alloc),
            exchanges: self.exchanges(rt, alloc).into_bytes(),
        }
    }
}

/// The runs, each with its lines and its exchanges.
pub fn runs(rt: &impl Abort, alloc: Global) -> Vec<Run> {
    let mut runs = Vec::new(alloc);
    for nest in &NESTS {
        runs.push(nest.run(rt, alloc)).expect(rt, "memory");
    }
    runs
}
