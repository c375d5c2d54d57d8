//! Children whose output is decoded otherwise than as UTF-8.

use super::playing::{Child, Row};

/// Runs, each with its lines and its exchanges.
pub const ROWS: [Row; 6] = [
    Row {
        shows: "a carriage return at the end of a read, and at the end of the output",
        script: r#"(defhandler f (p s))
(setq p (start-process "c" nil "cat"))(set-process-filter p 'f)(set-process-sentinel p 'f)
(set-process-coding-system p 'utf-8-dos)(accept-process-output p)(accept-process-output p)
(set-process-coding-system p 'latin-1-unix)(accept-process-output p)"#,
        children: &[Child {
            reads: &[b"a\r", b"\nb\r"],
            ends: &[],
        }],
        lines: r#"= #<process c>
= f
= f
= utf-8-dos
> filter f #<process c> "a"
< f
= t
> filter f #<process c> "\nb"
< f
= t
! 19 coding-fixed
> filter f #<process c> "\015"
< f
> sentinel f #<process c> "finished\n"
< f
= nil
buffer *scratch* point 1 min 1 max 1 modified nil current
text ""
marker 0 #<marker in no buffer>
process 0 #<process c> exit 0
"#,
        exchanges: b"spawn cat: started 0
read 0: bytes a\r
read 0: bytes \nb\r
read 0: end
end 0: code 0
",
    },
    Row {
        shows: "each byte as the character of its number",
        script: r#"(defhandler f (p s))
(setq p (start-process "c" nil "cat"))(set-process-coding-system p 'latin-1-unix)
(set-process-filter p 'f)(accept-process-output p)"#,
        children: &[Child {
            reads: &[b"\xE9A"],
            ends: &[],
        }],
        lines: r#"= #<process c>
= latin-1-unix
= f
> filter f #<process c> "éA"
< f
= t
kill #<process c>
buffer *scratch* point 1 min 1 max 1 modified nil current
text ""
marker 0 #<marker in no buffer>
process 0 #<process c> run 0
"#,
        exchanges: b"spawn cat: started 0
read 0: bytes \\xe9A
kill 0: killed
",
    },
    Row {
        shows: "carriage returns behind one another, and before malformed bytes",
        script: r#"(defhandler f (p s))
(setq p (start-process "c" nil "cat"))(set-process-coding-system p 'utf-8-dos)
(set-process-filter p 'f)(accept-process-output p)(accept-process-output p)(accept-process-output p)"#,
        children: &[Child {
            reads: &[b"\r\r\n", b"\r\xFF\r", b"\xE2\x82\r\n"],
            ends: &[],
        }],
        lines: r#"= #<process c>
= utf-8-dos
= f
> filter f #<process c> "\015\n"
< f
= t
> filter f #<process c> "\015\377"
< f
= t
> filter f #<process c> "\015\342\202\n"
< f
= t
kill #<process c>
buffer *scratch* point 1 min 1 max 1 modified nil current
text ""
marker 0 #<marker in no buffer>
process 0 #<process c> run 0
"#,
        exchanges: b"spawn cat: started 0
read 0: bytes \r\r\n
read 0: bytes \\r\\xff\\r
read 0: bytes \\xe2\\x82\\r\\n
kill 0: killed
",
    },
    Row {
        shows: "a coding set behind a read of nothing, in a filter and in a sentinel",
        script: r#"(defhandler f (p s) (process-coding-system p) (set-process-coding-system p 'latin-1-unix))
(setq p (start-process "c" nil "cat"))(set-process-filter p 'f)(set-process-sentinel p 'f)
(accept-process-output p 1)(set-process-coding-system p 'utf-8-dos)
(accept-process-output p)(accept-process-output p)"#,
        children: &[Child {
            reads: &[b"", b"a\r"],
            ends: &[],
        }],
        lines: r#"= #<process c>
= f
= f
= nil
= utf-8-dos
> filter f #<process c> "a"
  = utf-8-dos
  ! 19 coding-fixed
< f
= t
> filter f #<process c> "\015"
  = utf-8-dos
  ! 19 coding-fixed
< f
> sentinel f #<process c> "finished\n"
  = utf-8-dos
  ! 19 coding-fixed
< f
= nil
buffer *scratch* point 1 min 1 max 1 modified nil current
text ""
marker 0 #<marker in no buffer>
process 0 #<process c> exit 0
"#,
        exchanges: b"spawn cat: started 0
read 0: nothing
read 0: bytes a\r
read 0: end
end 0: code 0
",
    },
    Row {
        shows: "a coding set in a sentinel, where no bytes were read",
        script: r#"(defhandler g (p s) (set-process-coding-system p 'latin-1-unix))
(setq p (start-process "c" nil "cat"))(set-process-sentinel p 'g)(accept-process-output p)
(process-coding-system p)(process-send-string p "x")(set-process-coding-system p 'utf-8-dos)
(set-process-coding-system p q)(set-process-coding-system "c" 'utf-8-dos)
(set-process-coding-system p 'run)(set-process-coding-system p nil)"#,
        children: &[Child {
            reads: &[],
            ends: &[],
        }],
        lines: r#"= #<process c>
= g
> sentinel g #<process c> "finished\n"
  = latin-1-unix
< g
= nil
= latin-1-unix
! 10 process-ended
= utf-8-dos
! 3 void-variable
! 9 no-such-process
! 2 wrong-type-argument
! 2 wrong-type-argument
buffer *scratch* point 1 min 1 max 1 modified nil current
text ""
marker 0 #<marker in no buffer>
process 0 #<process c> exit 0
"#,
        exchanges: b"spawn cat: started 0
read 0: end
end 0: code 0
",
    },
    Row {
        shows: "a coding refused behind the other refusals",
        script: r#"(defhandler f (p s))
(setq p (start-process "c" nil "cat"))(set-process-filter p 'f)(accept-process-output p)
(set-process-coding-system p 'run)(set-process-coding-system "no" 'utf-8-dos)
(set-process-coding-system p 'utf-8-dos)(set-process-coding-system p 'utf-8-unix)(delete-process p)
(process-send-string p "x")(set-process-coding-system p 'utf-8-dos)"#,
        children: &[Child {
            reads: &[b"a"],
            ends: &[],
        }],
        lines: r#"= #<process c>
= f
> filter f #<process c> "a"
< f
= t
! 2 wrong-type-argument
! 9 no-such-process
! 19 coding-fixed
! 19 coding-fixed
> sentinel default #<process c> "killed\n"
< default
= nil
! 10 process-ended
! 19 coding-fixed
buffer *scratch* point 1 min 1 max 1 modified nil current
text ""
marker 0 #<marker in no buffer>
process 0 #<process c> signal nil
"#,
        exchanges: b"spawn cat: started 0
read 0: bytes a
kill 0: killed
",
    },
];
