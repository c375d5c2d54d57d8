//! Hook functions that change what they are called for.

use super::playing::Row;

/// Runs, each with its lines and its exchanges.
pub const ROWS: [Row; 13] = [
    Row {
        shows: "a hook narrows before an undoing, which is tried once more",
        script: r#"(defhandler h (b e) (narrow-to-region 1 2))
(insert "abcd")(undo-start)(add-hook 'before-change-functions 'h)(undo-more 1)"#,
        children: &[],
        lines: r#"= nil
= nil
= (h)
> before h 1 5
  = nil
< h
! 7 undo-outside
buffer *scratch* point 2 min 1 max 2 modified t current
text "abcd"
"#,
        exchanges: b"",
    },
    Row {
        shows: "a hook narrows before an insertion, which goes where it was prepared",
        script: r#"(defhandler h (b e) (narrow-to-region 1 2))
(insert "abcd")(add-hook 'before-change-functions 'h)(insert "x")(point)"#,
        children: &[],
        lines: r#"= nil
= (h)
> before h 5 5
  = nil
< h
= nil
= 2
buffer *scratch* point 2 min 1 max 2 modified t current
text "abcdx"
"#,
        exchanges: b"",
    },
    Row {
        shows: "what a hook puts in at the end of the text stays behind erasing",
        script: r#"(defhandler h (b e) (goto-char e) (insert "q"))
(insert "abc")(add-hook 'before-change-functions 'h)(erase-buffer)"#,
        children: &[],
        lines: r#"= nil
= (h)
> before h 1 4
  = 4
  = nil
< h
= nil
buffer *scratch* point 2 min 1 max 2 modified t current
text "q"
"#,
        exchanges: b"",
    },
    Row {
        shows: "a hook undoes before an insertion",
        script: r#"(defhandler h (b e) (undo-start)(undo-more 1))
(insert "ab")(add-hook 'before-change-functions 'h)(insert "cd")(buffer-undo-list)"#,
        children: &[],
        lines: r#"= nil
= (h)
> before h 3 3
  = nil
  = nil
< h
= nil
= ((1 . 3) (t . 0) ("ab" . 1) (1 . 3) (t . 0))
buffer *scratch* point 3 min 1 max 3 modified t current
text "cd"
"#,
        exchanges: b"",
    },
    Row {
        shows: "a hook undoes the change that it is told of",
        script: r#"(defhandler g (b e n) (undo-start)(undo-more 1))
(add-hook 'after-change-functions 'g)(insert "ab")"#,
        children: &[],
        lines: r#"= (g)
> after g 1 3 0
  = nil
  = nil
< g
= nil
buffer *scratch* point 1 min 1 max 1 modified nil current
text ""
"#,
        exchanges: b"",
    },
    Row {
        shows: "a hook switches undo off before an undoing",
        script: r#"(defhandler h (b e) (buffer-disable-undo))
(insert "ab")(undo-start)(add-hook 'before-change-functions 'h)(undo-more 1)(buffer-undo-list)"#,
        children: &[],
        lines: r#"= nil
= nil
= (h)
> before h 1 3
  = nil
< h
! 8 undo-disabled
= t
buffer *scratch* point 3 min 1 max 3 modified t current
text "ab"
"#,
        exchanges: b"",
    },
    Row {
        shows: "a hook changes the text before an undoing, and nothing is pending any more",
        script: r#"(defhandler h (b e) (goto-char 1)(insert "x"))
(insert "ab")(undo-start)(add-hook 'before-change-functions 'h)(undo-more 1)"#,
        children: &[],
        lines: r#"= nil
= nil
= (h)
> before h 1 3
  = 1
  = nil
< h
! 6 no-further-undo
buffer *scratch* point 2 min 1 max 4 modified t current
text "xab"
"#,
        exchanges: b"",
    },
    Row {
        shows: "a hook renames the buffer",
        script: r#"(defhandler h (b e) (rename-buffer "new"))
(add-hook 'before-change-functions 'h)(insert "a")(get-buffer "*scratch*")(current-buffer)"#,
        children: &[],
        lines: r#"= (h)
> before h 1 1
  = "new"
< h
= nil
= nil
= #<buffer new>
buffer new point 2 min 1 max 2 modified t current
text "a"
"#,
        exchanges: b"",
    },
    Row {
        shows: "a hook kills the buffer behind the change",
        script: r#"(defhandler g (b e n) (kill-buffer))
(get-buffer-create "w")(set-buffer "w")(add-hook 'after-change-functions 'g)
(insert "a")(current-buffer)(get-buffer "w")"#,
        children: &[],
        lines: r#"= #<buffer w>
= #<buffer w>
= (g)
> after g 1 2 0
  = t
< g
= nil
= #<buffer *scratch*>
= nil
buffer *scratch* point 1 min 1 max 1 modified nil current
text ""
"#,
        exchanges: b"",
    },
    Row {
        shows: "the functions behind one that kills the buffer are entered, from a copy of the list",
        script: r#"(defhandler k (b e) (kill-buffer))(defhandler h (b e) (current-buffer))
(get-buffer-create "w")(set-buffer "w")
(add-hook 'before-change-functions 'h)(add-hook 'before-change-functions 'k)(insert "a")"#,
        children: &[],
        lines: r#"= #<buffer w>
= #<buffer w>
= (h)
= (k h)
> before k 1 1
  = t
< k
> before h 1 1
  = #<buffer *scratch*>
< h
! 5 buffer-killed
buffer *scratch* point 1 min 1 max 1 modified nil current
text ""
"#,
        exchanges: b"",
    },
    Row {
        shows: "a function that is taken off the list meanwhile is entered once more",
        script: r#"(defhandler h (b e) (remove-hook 'before-change-functions 'g))(defhandler g (b e))
(add-hook 'before-change-functions 'g)(add-hook 'before-change-functions 'h)(insert "a")(insert "b")"#,
        children: &[],
        lines: r#"= (g)
= (h g)
> before h 1 1
  = (h)
< h
> before g 1 1
< g
= nil
> before h 2 2
  = (h)
< h
= nil
buffer *scratch* point 3 min 1 max 3 modified t current
text "ab"
"#,
        exchanges: b"",
    },
    Row {
        shows: "a hook makes another buffer current, and changes it with no hook",
        script: r#"(defhandler h (b e) (set-buffer "w")(insert "y")(add-hook 'before-change-functions 'h))
(get-buffer-create "w")(add-hook 'before-change-functions 'h)(insert "x")(current-buffer)"#,
        children: &[],
        lines: r#"= #<buffer w>
= (h)
> before h 1 1
  = #<buffer w>
  = nil
  = (h)
< h
= nil
= #<buffer *scratch*>
buffer *scratch* point 2 min 1 max 2 modified t current
text "x"
buffer w point 2 min 1 max 2 modified t
text "y"
"#,
        exchanges: b"",
    },
    Row {
        shows: "hooks run again behind a block that inhibits them inside a hook",
        script: r#"(defhandler h (b e) (inhibit-hooks (insert "y")(goto-char unset)))(defhandler g (b e n))
(add-hook 'before-change-functions 'h)(add-hook 'after-change-functions 'g)(insert "x")(insert "z")"#,
        children: &[],
        lines: r#"= (h)
= (g)
> before h 1 1
  = nil
  ! 3 void-variable
< h
> after g 1 2 0
< g
= nil
> after g 2 3 0
< g
= nil
buffer *scratch* point 3 min 1 max 4 modified t current
text "xzy"
"#,
        exchanges: b"",
    },
];
