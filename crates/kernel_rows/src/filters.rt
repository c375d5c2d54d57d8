//! Children whose output goes to filters.

use super::playing::{Child, Row, UNREAD, check_run, one_child};
use super::texts::push;
use std::alloc::Global;
use std::process::Abort;

/// Runs, each with its lines and its exchanges.
pub const ROWS: [Row; 7] = [
    Row {
        shows: "a character that is cut across reads",
        script: r#"(defhandler f (p s))(defhandler g (p s))
(setq p (start-process "c" nil "cat"))(set-process-filter p 'f)
(accept-process-output p)(accept-process-output p)(set-process-filter p 'g)(accept-process-output p)"#,
        children: &[Child {
            reads: &[b"\xE2", b"\x82", b"\xAC"],
            ends: &[],
        }],
        lines: r#"= #<process c>
= f
= t
= t
= g
> filter g #<process c> "€"
< g
= t
kill #<process c>
buffer *scratch* point 1 min 1 max 1 modified nil current
text ""
marker 0 #<marker in no buffer>
process 0 #<process c> run 0
"#,
        exchanges: b"spawn cat: started 0
read 0: bytes \\xe2
read 0: bytes \\x82
read 0: bytes \\xac
kill 0: killed
",
    },
    Row {
        shows: "what is held of a character comes at the end of the output",
        script: r#"(defhandler f (p s))
(setq p (start-process "c" nil "cat"))(set-process-filter p 'f)(set-process-sentinel p 'f)
(accept-process-output p)(accept-process-output p)"#,
        children: &[Child {
            reads: &[b"\xE2\x82"],
            ends: &[],
        }],
        lines: r#"= #<process c>
= f
= f
= t
> filter f #<process c> "\342\202"
< f
> sentinel f #<process c> "finished\n"
< f
= nil
buffer *scratch* point 1 min 1 max 1 modified nil current
text ""
marker 0 #<marker in no buffer>
process 0 #<process c> exit 0
"#,
        exchanges: b"spawn cat: started 0
read 0: bytes \\xe2\\x82
read 0: end
end 0: code 0
",
    },
    Row {
        shows: "a filter that waits",
        script: r#"(defhandler f (p s) (accept-process-output p))
(setq p (start-process "c" nil "cat"))(set-process-filter p 'f)(accept-process-output p)"#,
        children: &[Child {
            reads: &[b"a", b"b"],
            ends: &[],
        }],
        lines: r#"= #<process c>
= f
> filter f #<process c> "a"
  > filter f #<process c> "b"
    > sentinel default #<process c> "finished\n"
    < default
    = nil
  < f
  = t
< f
= t
buffer *scratch* point 1 min 1 max 1 modified nil current
text ""
marker 0 #<marker in no buffer>
process 0 #<process c> exit 0
"#,
        exchanges: b"spawn cat: started 0
read 0: bytes a
read 0: bytes b
read 0: end
end 0: code 0
",
    },
    Row {
        shows: "a filter deletes another process",
        script: r#"(defhandler f (p s) (delete-process q))
(setq p (start-process "p" nil "a"))(setq q (start-process "q" nil "b"))(setq z (start-process "z" nil "c"))
(set-process-filter p 'f)(accept-process-output z 1)"#,
        children: &[
            Child {
                reads: &[b"x"],
                ends: &[],
            },
            UNREAD,
            Child {
                reads: &[b""],
                ends: &[],
            },
        ],
        lines: r#"= #<process p>
= #<process q>
= #<process z>
= f
> filter f #<process p> "x"
  > sentinel default #<process q> "killed\n"
  < default
  = nil
< f
= nil
kill #<process p>
kill #<process z>
buffer *scratch* point 1 min 1 max 1 modified nil current
text ""
marker 0 #<marker in no buffer>
marker 1 #<marker in no buffer>
marker 2 #<marker in no buffer>
process 0 #<process p> run 0
process 1 #<process q> signal nil
process 2 #<process z> run 0
"#,
        exchanges: b"spawn a: started 0
spawn b: started 1
spawn c: started 2
read 2: nothing
read 0: bytes x
kill 1: killed
kill 0: killed
kill 2: killed
",
    },
    Row {
        shows: "a filter that is off and on",
        script: r#"(setq p (start-process "c" "out" "cat"))
(set-process-filter p t)(accept-process-output p)(set-process-filter p nil)(accept-process-output p)"#,
        children: &[Child {
            reads: &[b"ab"],
            ends: &[],
        }],
        lines: r#"= #<process c>
= t
= nil
= nil
> filter default #<process c> "ab"
< default
= t
kill #<process c>
buffer *scratch* point 1 min 1 max 1 modified nil current
text ""
buffer out point 3 min 1 max 3 modified t
text "ab"
marker 0 #<marker at 3 in out>
process 0 #<process c> run 0
"#,
        exchanges: b"spawn cat: started 0
read 0: bytes ab
kill 0: killed
",
    },
    Row {
        shows: "the default filter outside the accessible portion",
        script: r#"(get-buffer-create "out")(set-buffer "out")(insert "abcdef")
(setq p (start-process "c" "out" "cat"))(narrow-to-region 2 4)(accept-process-output p)"#,
        children: &[Child {
            reads: &[b"xy"],
            ends: &[],
        }],
        lines: r#"= #<buffer out>
= #<buffer out>
= nil
= #<process c>
= nil
> filter default #<process c> "xy"
< default
= t
kill #<process c>
buffer *scratch* point 1 min 1 max 1 modified nil
text ""
buffer out point 4 min 2 max 4 modified t current
text "abcdefxy"
marker 0 #<marker at 9 in out>
process 0 #<process c> run 0
"#,
        exchanges: b"spawn cat: started 0
read 0: bytes xy
kill 0: killed
",
    },
    Row {
        shows: "a spawn that is refused leaves neither process nor buffer",
        script: r#"(start-process "p" "out" "nosuch")(get-process "p")(get-buffer "out")"#,
        children: &[],
        lines: r#"! 12 spawn-failed
= nil
= nil
buffer *scratch* point 1 min 1 max 1 modified nil current
text ""
"#,
        exchanges: b"spawn nosuch: refused
",
    },
];

/// How deep handlers may be nested.
const NESTING_BOUND: usize = 16;

/// A line inside so many handlers.
fn push_line(rt: &impl Abort, alloc: Global, lines: &mut String, depth: usize, line: &str) {
    let indent = "  ".repeat(alloc, depth).expect(rt, "memory");
    write!(lines, "{indent}{line}\n").expect(rt, "memory");
}

/// The lines of a filter that waits in each of its entries, as often as it may.
fn nested(rt: &impl Abort, alloc: Global) -> String {
    let mut lines = String::from_str(alloc, "= #<process c>\n= f\n").expect(rt, "memory");
    for depth in 0..NESTING_BOUND {
        push_line(
            rt,
            alloc,
            &mut lines,
            depth,
            "> filter f #<process c> \"a\"",
        );
    }
    push_line(rt, alloc, &mut lines, NESTING_BOUND, "! 13 nesting");
    for depth in (0..NESTING_BOUND).rev() {
        push_line(rt, alloc, &mut lines, depth, "< f");
        push_line(rt, alloc, &mut lines, depth, "= t");
    }
    push(
        rt,
        &mut lines,
        r#"kill #<process c>
buffer *scratch* point 1 min 1 max 1 modified nil current
text ""
marker 0 #<marker in no buffer>
process 0 #<process c> run 0
"#,
    );
    lines
}

/// The seventeenth read isn't made.
#[test]
fn a_wait_inside_16_filters_is_refused(rt: HostRuntime) {
    let lines = nested(&rt, rt.alloc());
    let reads = "read 0: bytes a\n"
        .repeat(rt.alloc(), NESTING_BOUND)
        .expect(&rt, "memory");
    let exchanges = format!(in rt.alloc(); "spawn cat: started 0\n{reads}kill 0: killed\n").expect(
        &rt, "memory",
    );
    let bytes: [&[u8]; 17] = [b"a"; 17];
    check_run(
        &rt,
        rt.alloc(),
        "the nesting bound",
        r#"(defhandler f (p s) (accept-process-output p))
(setq p (start-process "c" nil "cat"))(set-process-filter p 'f)(accept-process-output p)"#,
        one_child(&rt, rt.alloc(), &bytes),
        lines.as_str(),
        exchanges.as_bytes(),
    )
}
