//! Undo.

use super::playing::Row;

/// Runs, each with its lines and its exchanges.
pub const ROWS: [Row; 3] = [
    Row {
        shows: "the undo list as it is printed",
        script: r#"(insert "abcd")(setq m (copy-marker 3))(undo-boundary)(delete-region 2 4)(buffer-undo-list)"#,
        children: &[],
        lines: r#"= nil
= #<marker at 3 in *scratch*>
= nil
= nil
= (("bc" . 2) (#<marker at 2 in *scratch*> . -1) 5 nil (1 . 5) (t . 0))
buffer *scratch* point 3 min 1 max 3 modified t current
text "ad"
marker 0 #<marker at 2 in *scratch*>
"#,
        exchanges: b"",
    },
    Row {
        shows: "undo in groups, and undo of that undo",
        script: r#"(insert "abcd")(undo-boundary)
(insert "xy")(put-text-property 1 3 'face 'bold)(delete-region 2 4)(undo-boundary)
(undo-start)(undo-more 2)(buffer-string)(undo-boundary)(undo-start)(undo-more 2)(buffer-string)"#,
        children: &[],
        lines: r#"= nil
= nil
= nil
= nil
= nil
= nil
= nil
= nil
= "abcd"
= nil
= nil
= nil
= #("adxy" 0 1 (face bold))
buffer *scratch* point 2 min 1 max 5 modified t current
text #("adxy" 0 1 (face bold))
"#,
        exchanges: b"",
    },
    Row {
        shows: "an undo outside the accessible portion is refused",
        script: r#"(insert "abcd")(undo-start)(narrow-to-region 1 2)(undo-more 1)"#,
        children: &[],
        lines: r#"= nil
= nil
= nil
! 7 undo-outside
buffer *scratch* point 2 min 1 max 2 modified t current
text "abcd"
"#,
        exchanges: b"",
    },
];
