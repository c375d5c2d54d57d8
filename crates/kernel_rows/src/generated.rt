//! Scripts put together by numbers: what the one machine writes and asks is claimed of the other.

use super::checking::is_claimed;
use super::comparing::is_for;
use super::playing::{Child, PLAIN, Run, plays, run_script};
use super::texts::push;
use kernel_top::Status;
use std::alloc::Global;
use std::process::Abort;

/// Handlers, a text and three processes.
const HEAD: &str = r#"(defhandler f (p s) (insert s) (accept-process-output p))
(defhandler g (p s) (set-buffer "out") (insert s "!") (delete-process q))
(defhandler h (b e) (put-text-property 1 2 'face 'bold) (setq n (point)))
(defhandler k (b e n) (goto-char b) (undo-boundary))
(insert "abcdefghij")(setq m (copy-marker 4))
(setq p (start-process "p" "out" "a"))(setq q (start-process "q" nil "b"))(setq r (start-process "r" "out" "c"))
"#;

const FORMS: [&str; 48] = [
    r#"(insert "xy")"#,
    r#"(insert "é" #("uv" 0 1 (face bold)))"#,
    r#"(insert-before-markers "z")"#,
    "(insert-buffer-substring \"out\")",
    "(goto-char 3)",
    "(goto-char m)",
    "(goto-char 99)",
    "(delete-region 2 5)",
    "(delete-region m 2)",
    "(erase-buffer)",
    "(setq m (copy-marker 3 t))",
    "(setq m (point-marker))",
    "(set-marker m 2)",
    "(narrow-to-region 2 6)",
    "(widen)",
    "(put-text-property 2 4 'face 'dim)",
    "(add-text-properties 1 6 '(k 3 face t))",
    "(setq o (make-overlay 2 5))",
    "(overlay-put o 'evaporate t)",
    "(move-overlay o 1 3)",
    "(undo-boundary)",
    "(undo-start)",
    "(undo-more 1)",
    "(buffer-undo-list)",
    "(buffer-string)",
    "(set-buffer \"out\")",
    "(set-buffer \"*scratch*\")",
    "(kill-buffer \"out\")",
    "(get-buffer-create \"out\")",
    "(add-hook 'before-change-functions 'h)",
    "(remove-hook 'before-change-functions 'h)",
    "(add-hook 'after-change-functions 'k)",
    "(set-process-filter p 'f)",
    "(set-process-filter r 'g)",
    "(set-process-filter q t)",
    "(set-process-sentinel p 'g)",
    "(accept-process-output)",
    "(accept-process-output p)",
    "(accept-process-output q 1)",
    "(accept-process-output r 0 t)",
    "(process-send-string p \"in\")",
    "(process-send-eof p)",
    "(delete-process q)",
    "(setq q (start-process \"s\" \"out\" \"d\"))",
    "(save-excursion (goto-char 1) (insert \"q\") (goto-char w))",
    "(save-restriction (narrow-to-region 1 3) (erase-buffer))",
    "(inhibit-hooks (insert \"i\"))",
    "(when-eq m 3 (insert \"t\") (process-status p))",
];

const CHILDREN: [Child; 4] = [
    Child {
        reads: &[b"ab", b"", b"\xC3", b"\xA9c"],
        ends: &[],
    },
    Child {
        reads: &[b"", b"x\r\n", b"\xFF"],
        ends: &[],
    },
    Child {
        reads: &[b"1", b"2", b"3\n"],
        ends: &[],
    },
    Child {
        reads: &[b"\xE2\x82"],
        ends: &[],
    },
];

/// The number behind another, of a sequence that seems without order.
fn behind(number: u32) -> u32 {
    number.wrapping_mul(1_103_515_245).wrapping_add(12_345)
}

/// The script of a number: the same head, and 16 forms.
fn script(rt: &impl Abort, alloc: Global, number: u32) -> String {
    let mut text = String::from_str(alloc, HEAD).expect(rt, "memory");
    let mut chosen = behind(number);
    for _ in 0..16 {
        chosen = behind(chosen);
        let form = FORMS.get((chosen >> 16) as usize % FORMS.len());
        push(rt, &mut text, form.expect(rt, "a form"));
        push(rt, &mut text, "\n");
    }
    text
}

/// What the kernel writes is claimed of what it asked.
fn is_same_run(rt: &impl Abort, alloc: Global, number: u32) {
    let text = script(rt, alloc, number);
    let ran = run_script(rt, alloc, text.as_str(), plays(rt, alloc, &CHILDREN), PLAIN);
    is_for(rt, text.as_str(), ran.status, Status::Done);
    let lines = String::from_utf8(ran.written).expect(rt, "lines");
    let run = Run {
        shows: "a script of a number",
        script: text,
        children: &CHILDREN,
        lines,
        exchanges: ran.exchanges,
    };
    is_claimed(rt, alloc, &run);
}

#[test]
fn lines_of_200_scripts_are_claimed_of_their_journals(rt: HostRuntime) {
    for number in 0..200 {
        is_same_run(&rt, rt.alloc(), number);
    }
}
