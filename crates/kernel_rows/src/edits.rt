//! Changes of texts, with what stands at their places, and with hooks.

use super::playing::Row;

/// Scripts without a child.
pub const ROWS: [Row; 13] = [
    Row {
        shows: "the empty script writes the dump",
        script: "",
        children: &[],
        lines: r#"buffer *scratch* point 1 min 1 max 1 modified nil current
text ""
"#,
        exchanges: b"",
    },
    Row {
        shows: "a deletion",
        script: r#"(insert "hello")(goto-char 2)(delete-region 2 3)"#,
        children: &[],
        lines: r#"= nil
= 2
= nil
buffer *scratch* point 2 min 1 max 5 modified t current
text "hllo"
"#,
        exchanges: b"",
    },
    Row {
        shows: "markers at a tie",
        script: r#"(insert "abcd")(setq m (copy-marker 2))(setq n (copy-marker 2 t))(goto-char 2)(insert "xy")"#,
        children: &[],
        lines: r#"= nil
= #<marker at 2 in *scratch*>
= #<marker (moves after insertion) at 2 in *scratch*>
= 2
= nil
buffer *scratch* point 4 min 1 max 7 modified t current
text "axybcd"
marker 0 #<marker at 2 in *scratch*>
marker 1 #<marker (moves after insertion) at 4 in *scratch*>
"#,
        exchanges: b"",
    },
    Row {
        shows: "an insertion before markers",
        script: r#"(insert "abcd")(make-overlay 1 3)(make-overlay 3 5)(goto-char 3)(insert-before-markers "xy")"#,
        children: &[],
        lines: r#"= nil
= #<overlay from 1 to 3 in *scratch*>
= #<overlay from 3 to 5 in *scratch*>
= 3
= nil
buffer *scratch* point 5 min 1 max 7 modified t current
text "abxycd"
overlay 0 #<overlay from 1 to 5 in *scratch*> nil
overlay 1 #<overlay from 5 to 7 in *scratch*> nil
"#,
        exchanges: b"",
    },
    Row {
        shows: "empty overlays by their advances",
        script: r#"(insert "abcd")
(make-overlay 3 3 nil nil nil)(make-overlay 3 3 nil nil t)(make-overlay 3 3 nil t t)(make-overlay 3 3 nil t nil)
(goto-char 3)(insert "xy")"#,
        children: &[],
        lines: r#"= nil
= #<overlay from 3 to 3 in *scratch*>
= #<overlay from 3 to 3 in *scratch*>
= #<overlay from 3 to 3 in *scratch*>
= #<overlay from 3 to 3 in *scratch*>
= 3
= nil
buffer *scratch* point 5 min 1 max 7 modified t current
text "abxycd"
overlay 0 #<overlay from 3 to 3 in *scratch*> nil
overlay 1 #<overlay from 3 to 5 in *scratch*> nil
overlay 2 #<overlay from 5 to 5 in *scratch*> nil
overlay 3 #<overlay from 3 to 3 in *scratch*> nil
"#,
        exchanges: b"",
    },
    Row {
        shows: "what an insertion inherits",
        script: r#"(insert #("ab" 0 1 (face bold rear-nonsticky (face)) 1 2 (face italic front-sticky t)))
(goto-char 2)(insert-and-inherit "x")"#,
        children: &[],
        lines: r#"= nil
= 2
= nil
buffer *scratch* point 3 min 1 max 4 modified t current
text #("axb" 0 1 (rear-nonsticky (face) face bold) 1 2 (face italic) 2 3 (front-sticky t face italic))
"#,
        exchanges: b"",
    },
    Row {
        shows: "overlays that evaporate",
        script: r#"(insert "abcd")(setq o (make-overlay 2 4))(overlay-put o 'evaporate t)
(setq q (make-overlay 1 3))(overlay-put q 'evaporate t)(delete-region 2 4)"#,
        children: &[],
        lines: r#"= nil
= #<overlay from 2 to 4 in *scratch*>
= t
= #<overlay from 1 to 3 in *scratch*>
= t
= nil
buffer *scratch* point 3 min 1 max 3 modified t current
text "ad"
overlay 0 #<overlay in no buffer> (evaporate t)
overlay 1 #<overlay from 1 to 2 in *scratch*> (evaporate t)
"#,
        exchanges: b"",
    },
    Row {
        shows: "the overlay that wins at a character",
        script: r#"(insert #("abcd" 0 4 (face plain)))
(setq a (make-overlay 1 5))(overlay-put a 'face 'outer)(setq b (make-overlay 2 4))(overlay-put b 'face 'inner)
(get-char-property 2 'face)(overlay-put a 'priority 1)(get-char-property 2 'face)(get-char-property 5 'face)"#,
        children: &[],
        lines: r#"= nil
= #<overlay from 1 to 5 in *scratch*>
= outer
= #<overlay from 2 to 4 in *scratch*>
= inner
= inner
= 1
= outer
= nil
buffer *scratch* point 5 min 1 max 5 modified t current
text #("abcd" 0 4 (face plain))
overlay 0 #<overlay from 1 to 5 in *scratch*> (priority 1 face outer)
overlay 1 #<overlay from 2 to 4 in *scratch*> (face inner)
"#,
        exchanges: b"",
    },
    Row {
        shows: "blocks inside one another, and the only buffer is killed",
        script: r#"(insert "abcdef")
(save-restriction (narrow-to-region 2 4)(goto-char 1)(save-excursion (goto-char 4)(insert "X"))(point-max))
(point-max)(kill-buffer)(buffer-list)"#,
        children: &[],
        lines: r#"= nil
= nil
= 1
= 4
= nil
= 5
= 8
= t
= (#<buffer *scratch*>)
buffer *scratch* point 1 min 1 max 1 modified nil current
text ""
"#,
        exchanges: b"",
    },
    Row {
        shows: "a hook edits before the change",
        script: r#"(defhandler h (b e) (delete-region 1 2))
(insert "abcd")(add-hook 'before-change-functions 'h)(delete-region 3 4)"#,
        children: &[],
        lines: r#"= nil
= (h)
> before h 3 4
  = nil
< h
= nil
buffer *scratch* point 3 min 1 max 3 modified t current
text "bd"
"#,
        exchanges: b"",
    },
    Row {
        shows: "a hook kills the buffer",
        script: r#"(defhandler h (b e) (kill-buffer))
(get-buffer-create "w")(set-buffer "w")(insert "ab")(setq m (point-marker))(make-overlay 1 2)
(add-hook 'before-change-functions 'h)(insert "c")(marker-buffer m)"#,
        children: &[],
        lines: r#"= #<buffer w>
= #<buffer w>
= nil
= #<marker at 3 in w>
= #<overlay from 1 to 2 in w>
= (h)
> before h 3 3
  = t
< h
! 5 buffer-killed
= nil
buffer *scratch* point 1 min 1 max 1 modified nil current
text ""
marker 0 #<marker in no buffer>
overlay 0 #<overlay in no buffer> nil
"#,
        exchanges: b"",
    },
    Row {
        shows: "what a hook is told after a change",
        script: r#"(defhandler g (b e n))
(insert "abcdef")(add-hook 'after-change-functions 'g)
(delete-region 3 2)(narrow-to-region 1 3)(delete-region 2 4)(delete-region 2 2)"#,
        children: &[],
        lines: r#"= nil
= (g)
> after g 2 2 1
< g
= nil
= nil
! 1 args-out-of-range
= nil
buffer *scratch* point 3 min 1 max 3 modified t current
text "acdef"
"#,
        exchanges: b"",
    },
    Row {
        shows: "a fault ends a hook, and its list is emptied",
        script: r#"(defhandler h (b e) (goto-char unset))
(add-hook 'before-change-functions 'h)(insert "a")(insert "b")"#,
        children: &[],
        lines: r#"= (h)
> before h 1 1
  ! 3 void-variable
< h
= nil
= nil
buffer *scratch* point 3 min 1 max 3 modified t current
text "ab"
"#,
        exchanges: b"",
    },
];
