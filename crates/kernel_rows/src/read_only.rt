//! Buffers and texts that are read-only, and the block in which nothing is.

use super::playing::{Child, Row};

/// Runs, each with its lines and its exchanges.
pub const ROWS: [Row; 7] = [
    Row {
        shows: "read-only text, a read-only buffer, and a block",
        script: r#"(insert "abcd")(put-text-property 2 3 'read-only t)(delete-region 1 3)(goto-char 3)(insert "x")
(goto-char 2)(insert "y")(set-buffer-read-only t)(insert "z")(inhibit-read-only (insert "w"))(buffer-read-only-p)"#,
        children: &[],
        lines: r#"= nil
= nil
! 18 text-read-only
= 3
! 18 text-read-only
= 2
= nil
= t
! 17 buffer-read-only
= nil
= t
buffer *scratch* point 4 min 1 max 7 modified t read-only current
text #("aywbcd" 3 4 (read-only t))
"#,
        exchanges: b"",
    },
    Row {
        shows: "what changes nothing isn't refused",
        script: r#"(set-buffer-read-only t)(insert "")(delete-region 1 1)(delete-region 1 99)"#,
        children: &[],
        lines: r#"= t
= nil
= nil
! 1 args-out-of-range
buffer *scratch* point 1 min 1 max 1 modified nil read-only current
text ""
"#,
        exchanges: b"",
    },
    Row {
        shows: "a block ends by a fault, and one inside another ends",
        script: r#"(set-buffer-read-only t)(inhibit-read-only (insert "a")(goto-char t)(insert "b"))(insert "c")
(inhibit-read-only (inhibit-read-only (insert "d"))(insert "e"))(insert "f")"#,
        children: &[],
        lines: r#"= t
= nil
! 2 wrong-type-argument
! 17 buffer-read-only
= nil
= nil
! 17 buffer-read-only
buffer *scratch* point 4 min 1 max 4 modified t read-only current
text "ade"
"#,
        exchanges: b"",
    },
    Row {
        shows: "a block reaches into hook functions, whose faults end it no further than they go",
        script: r#"(defhandler h (b e) (insert "<")(inhibit-read-only (goto-char t)))
(add-hook 'before-change-functions 'h)(set-buffer-read-only t)
(inhibit-read-only (insert "a")(insert "b"))(insert "c")"#,
        children: &[],
        lines: r#"= (h)
= t
> before h 1 1
  = nil
  ! 2 wrong-type-argument
< h
= nil
= nil
! 17 buffer-read-only
buffer *scratch* point 3 min 1 max 4 modified t read-only current
text "ab<"
"#,
        exchanges: b"",
    },
    Row {
        shows: "a hook function makes the buffer read-only, which bars the next change alone",
        script: r#"(defhandler h (b e) (set-buffer-read-only t))
(add-hook 'before-change-functions 'h)(insert "a")(insert "b")"#,
        children: &[],
        lines: r#"= (h)
> before h 1 1
  = t
< h
= nil
! 17 buffer-read-only
buffer *scratch* point 2 min 1 max 2 modified t read-only current
text "a"
"#,
        exchanges: b"",
    },
    Row {
        shows: "a block lifts the tests of a filter that its wait enters",
        script: r#"(defhandler f (p s) (insert s))(setq p (start-process "c" nil "cat"))
(set-process-filter p 'f)(set-buffer-read-only t)
(inhibit-read-only (accept-process-output p))(accept-process-output p)"#,
        children: &[Child {
            reads: &[b"ab", b"cd"],
            ends: &[],
        }],
        lines: r#"= #<process c>
= f
= t
> filter f #<process c> "ab"
  = nil
< f
= t
> filter f #<process c> "cd"
  ! 17 buffer-read-only
< f
= t
kill #<process c>
buffer *scratch* point 3 min 1 max 3 modified t read-only current
text "ab"
marker 0 #<marker in no buffer>
process 0 #<process c> run 0
"#,
        exchanges: b"spawn cat: started 0
read 0: bytes ab
read 0: bytes cd
kill 0: killed
",
    },
    Row {
        shows: "output goes into a read-only buffer, but not where it would be read-only",
        script: r#"(start-process "c" "*scratch*" "cat")(set-buffer-read-only t)(accept-process-output)
(inhibit-read-only (put-text-property 2 3 'read-only t))(accept-process-output)(accept-process-output)"#,
        children: &[Child {
            reads: &[b"ab", b"cd"],
            ends: &[],
        }],
        lines: r#"= #<process c>
= t
> filter default #<process c> "ab"
< default
= t
= nil
> filter default #<process c> "cd"
  ! 18 text-read-only
< default
= t
> sentinel default #<process c> "finished\n"
  ! 18 text-read-only
< default
= nil
buffer *scratch* point 3 min 1 max 3 modified t read-only current
text #("ab" 1 2 (read-only t))
marker 0 #<marker at 3 in *scratch*>
process 0 #<process c> exit 0
"#,
        exchanges: b"spawn cat: started 0
read 0: bytes ab
read 0: bytes cd
read 0: end
end 0: code 0
",
    },
];
