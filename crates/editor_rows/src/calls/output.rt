//! The insertion of a process's output at its mark, and changes between whose preparation and commit something happens.

use super::playing::{called, check_calls, is_said, make, parted};
use super::shown::shown;
use super::words::{arguments, plain};
use buffer_table::Editor;
use editor_prims::{prepare, prepare_output};
use std::alloc::Global;
use std::process::Abort;

/// Calls in front of an output of two letters in buffer 0 with marker 0 as its mark, and calls behind it.
struct Output {
    shows: &'static str,
    before: &'static str,
    behind: &'static str,
}

const OUTPUTS: [Output; 8] = [
    Output {
        shows: "all markers at the mark move, and so does point",
        before: r#"insert | "abcd" => nil
copy-marker | 3 => #<marker at 3 in *scratch*>
copy-marker | 3 => #<marker at 3 in *scratch*>
make-overlay | 1 | 3 => #<overlay from 1 to 3 in *scratch*>
goto-char | 3 => 3"#,
        behind: r#"buffer-string => "abxycd"
marker-position | marker:0 => 5
marker-position | marker:1 => 5
overlay-end | overlay:0 => 5
point => 5"#,
    },
    Output {
        shows: "point in front of the mark stays",
        before: r#"insert | "abcd" => nil
copy-marker | 3 => #<marker at 3 in *scratch*>
goto-char | 2 => 2"#,
        behind: r#"point => 2
buffer-undo-list => ((3 . 5) (1 . 5) (t . 0))"#,
    },
    Output {
        shows: "a mark that points nowhere counts as the end of the accessible portion",
        before: r#"insert | "abcd" => nil
narrow-to-region | 2 | 3 => nil
make-marker => #<marker in no buffer>"#,
        behind: r#"buffer-string => "bxy"
copy-marker | marker:0 => #<marker at 5 in *scratch*>"#,
    },
    Output {
        shows: "a mark in another buffer counts as the end of the accessible portion",
        before: r#"insert | "abcd" => nil
get-buffer-create | "w" => #<buffer w>
make-marker => #<marker in no buffer>
set-marker | marker:0 | 1 | "w" => #<marker at 1 in w>
set-buffer | "w" => #<buffer w>"#,
        behind: r#"current-buffer => #<buffer w>
buffer-size => 0
copy-marker | marker:0 => #<marker at 7 in *scratch*>"#,
    },
    Output {
        shows: "what comes outside the narrowing stays outside",
        before: r#"insert | "abcdef" => nil
copy-marker | 7 => #<marker at 7 in *scratch*>
narrow-to-region | 2 | 4 => nil"#,
        behind: r#"buffer-string => "bc"
buffer-size => 8
marker-position | marker:0 => 9
point => 4"#,
    },
    Output {
        shows: "what comes at the start of the narrowing stands in it",
        before: r#"insert | "abcdef" => nil
narrow-to-region | 4 | 3 => nil
copy-marker | 3 => #<marker at 3 in *scratch*>"#,
        behind: r#"buffer-string => "xyc"
point-min => 3"#,
    },
    Output {
        shows: "a read-only buffer takes it",
        before: r#"point-marker => #<marker at 1 in *scratch*>
set-buffer-read-only | t => t"#,
        behind: r#"buffer-string => "xy""#,
    },
    Output {
        shows: "read-only text in front of the mark refuses it",
        before: r#"insert | "ab" => nil
point-marker => #<marker at 3 in *scratch*>
put-text-property | 2 | 3 | read-only | t => nil"#,
        behind: "buffer-size => 2",
    },
];

/// The two letters are put in at the mark.
fn put_out(rt: &impl Abort, editor: &mut Editor) {
    let alloc = editor.allocator();
    let text = plain(rt, alloc, "xy");
    let prepared = prepare_output(editor, 0, 0, text);
    make(rt, editor, prepared);
}

fn check_output(rt: &impl Abort, alloc: Global, row: &Output) {
    let mut editor = Editor::new(alloc).expect(rt, "an editor");
    check_calls(rt, &mut editor, row.shows, row.before);
    put_out(rt, &mut editor);
    check_calls(rt, &mut editor, row.shows, row.behind);
    editor.close();
}

#[test]
fn the_rows_of_output_give_their_replies(rt: HostRuntime) {
    for row in &OUTPUTS {
        check_output(&rt, rt.alloc(), row);
    }
}

/// A call that is prepared in front of other calls and committed behind them, and its reply.
struct Late {
    shows: &'static str,
    before: &'static str,
    call: &'static str,
    meanwhile: &'static str,
    reply: &'static str,
    behind: &'static str,
}

const LATE: [Late; 6] = [
    Late {
        shows: "the buffer was killed",
        before: r#"get-buffer-create | "w" => #<buffer w>
set-buffer | "w" => #<buffer w>"#,
        call: r#"insert | "x""#,
        meanwhile: "kill-buffer | buffer:1 => t",
        reply: "! buffer-killed",
        behind: "buffer-size => 0",
    },
    Late {
        shows: "another buffer is current",
        before: r#"get-buffer-create | "w" => #<buffer w>"#,
        call: r#"insert | "x""#,
        meanwhile: r#"set-buffer | "w" => #<buffer w>"#,
        reply: "nil",
        behind: r#"current-buffer => #<buffer w>
buffer-size => 0
buffer-size | buffer:0 => 1"#,
    },
    Late {
        shows: "recording was turned off",
        before: r#"insert | "a" => nil
undo-start => nil"#,
        call: "undo-more | 1",
        meanwhile: "buffer-disable-undo => nil",
        reply: "! undo-disabled",
        behind: "buffer-size => 1",
    },
    Late {
        shows: "a change dropped what was to be undone",
        before: r#"insert | "a" => nil
undo-start => nil"#,
        call: "undo-more | 1",
        meanwhile: r#"insert | "b" => nil"#,
        reply: "! no-further-undo",
        behind: r#"buffer-string => "ab""#,
    },
    Late {
        shows: "a narrowing leaves a record outside",
        before: r#"insert | "ab" => nil
undo-start => nil"#,
        call: "undo-more | 1",
        meanwhile: "narrow-to-region | 1 | 2 => nil",
        reply: "! undo-outside",
        behind: "buffer-size => 2",
    },
    Late {
        shows: "the buffer and its text were made read-only",
        before: r#"insert | "ab" => nil"#,
        call: "delete-region | 1 | 2",
        meanwhile: r#"put-text-property | 1 | 2 | read-only | t => nil
set-buffer-read-only | t => t"#,
        reply: "nil",
        behind: "buffer-size => 1",
    },
];

/// The call is prepared, then the others are made, and then it is committed. Its reply is compared.
fn commit_late(rt: &impl Abort, editor: &mut Editor, row: &Late) {
    let (name, words) = parted(row.call);
    let args = arguments(rt, editor.allocator(), words);
    let prepared = prepare(editor, called(rt, name), &args).expect(rt, "a change");
    check_calls(rt, editor, row.shows, row.meanwhile);
    let reply = make(rt, editor, prepared);
    let found = shown(rt, editor, &reply);
    is_said(rt, row.shows, row.call, found.as_str(), row.reply);
}

fn check_late(rt: &impl Abort, alloc: Global, row: &Late) {
    let mut editor = Editor::new(alloc).expect(rt, "an editor");
    check_calls(rt, &mut editor, row.shows, row.before);
    commit_late(rt, &mut editor, row);
    check_calls(rt, &mut editor, row.shows, row.behind);
    editor.close();
}

#[test]
fn the_rows_of_late_commits_give_their_replies(rt: HostRuntime) {
    for row in &LATE {
        check_late(&rt, rt.alloc(), row);
    }
}
