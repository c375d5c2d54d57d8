//! Positions at, in front of and behind each bound.

use super::playing::said;
use crate::checking::is;
use buffer_table::Editor;
use std::alloc::Global;
use std::process::Abort;

/// Of six characters, from position 1 to 7, those from 2 to 5 are accessible. The third is bold, with an overlay of
/// its own.
const SETTING: [&str; 4] = [
    r#"insert | "abcdef" / 2 3 face bold"#,
    "make-marker",
    "make-overlay | 3 | 4",
    "narrow-to-region | 2 | 5",
];

/// Calls with a `P` for the position that is tried, and what the last replies at the positions 0 to 8; a mark, where one of
/// the calls is refused.
type Trial = (&'static str, &'static str);

const TRIALS: [Trial; 27] = [
    ("char-after | P", "nil|nil|98|99|100|nil|nil|nil|nil|"),
    (
        r#"goto-char | P
point"#,
        "2|2|2|3|4|5|5|5|5|",
    ),
    (
        "buffer-substring-no-properties | P | 3",
        r#"!|!|"b"|""|"c"|"cd"|!|!|!|"#,
    ),
    (
        "buffer-substring-no-properties | 3 | P",
        r#"!|!|"b"|""|"c"|"cd"|!|!|!|"#,
    ),
    (
        r#"delete-region | P | 3
buffer-size"#,
        "!|!|5|6|5|4|!|!|!|",
    ),
    (
        r#"delete-region | 3 | P
buffer-size"#,
        "!|!|5|6|5|4|!|!|!|",
    ),
    (
        r#"insert-buffer-substring | buffer:0 | P | 3
buffer-size"#,
        "!|!|7|6|7|8|!|!|!|",
    ),
    (
        r#"narrow-to-region | P | 3
point-min"#,
        "!|1|2|3|3|3|3|3|!|",
    ),
    (
        r#"narrow-to-region | 3 | P
point-max"#,
        "!|3|3|3|4|5|6|7|!|",
    ),
    (
        r#"copy-marker | P
marker-position | marker:1"#,
        "1|1|2|3|4|5|6|7|7|",
    ),
    (
        r#"set-marker | marker:0 | P
marker-position | marker:0"#,
        "1|1|2|3|4|5|6|7|7|",
    ),
    (
        "get-text-property | P | face",
        "!|!|nil|bold|nil|nil|!|!|!|",
    ),
    (
        "get-char-property | P | face",
        "!|!|nil|bold|nil|nil|!|!|!|",
    ),
    (
        "text-properties-at | P",
        "!|!|nil|(face bold)|nil|nil|!|!|!|",
    ),
    (
        "add-text-properties | P | 3 | [face italic]",
        "!|!|t|nil|t|t|!|!|!|",
    ),
    (
        "remove-text-properties | P | 3 | [face nil]",
        "!|!|nil|nil|t|t|!|!|!|",
    ),
    (
        "set-text-properties | 3 | P | nil",
        "!|!|nil|nil|t|t|!|!|!|",
    ),
    (
        "text-property-any | P | 3 | face | bold",
        "!|!|nil|nil|3|3|!|!|!|",
    ),
    (
        "text-property-not-all | P | 3 | face | nil",
        "!|!|nil|nil|3|3|!|!|!|",
    ),
    ("next-property-change | P", "!|!|3|4|nil|nil|!|!|!|"),
    ("next-property-change | 2 | P", "0|1|2|3|3|3|3|3|3|"),
    (
        "previous-single-property-change | P | face",
        "!|!|nil|nil|3|4|!|!|!|",
    ),
    ("previous-property-change | 5 | P", "4|4|4|4|4|5|6|7|8|"),
    (
        r#"make-overlay | P | 3
overlay-start | overlay:1"#,
        "1|1|2|3|3|3|3|3|3|",
    ),
    (
        r#"move-overlay | overlay:0 | P | 3
overlay-end | overlay:0"#,
        "3|3|3|3|4|5|6|7|7|",
    ),
    ("next-overlay-change | P", "3|3|3|4|5|5|5|5|5|"),
    ("previous-overlay-change | P", "2|2|2|2|3|4|4|4|4|"),
];

/// A character of a call, or the position in the place of a `P`.
fn put_placed(rt: &impl Abort, text: &mut String, c: char, position: u32) {
    if c == 'P' {
        write!(text, "{position}").expect(rt, "room");
    } else {
        text.push(c).expect(rt, "room");
    }
}

/// A call with a position in its place.
fn placed(rt: &impl Abort, alloc: Global, call: &str, position: u32) -> String {
    let mut text = String::new(alloc);
    for c in call.chars() {
        put_placed(rt, &mut text, c, position);
    }
    text
}

fn said_at(rt: &impl Abort, editor: &mut Editor, call: &str, position: u32) -> String {
    let call = placed(rt, editor.allocator(), call, position);
    said(rt, editor, call.as_str())
}

/// What the last of these calls replies at a position.
fn last_said(rt: &impl Abort, editor: &mut Editor, calls: &str, position: u32) -> String {
    let alloc = editor.allocator();
    let mut last = String::new(alloc);
    for call in calls.split('\n') {
        last = said_at(rt, editor, call, position);
        if last.starts_with('!') {
            return String::from_str(alloc, "!").expect(rt, "room");
        }
    }
    last
}

fn set_up(rt: &impl Abort, alloc: Global) -> Editor {
    let mut editor = Editor::new(alloc).expect(rt, "an editor");
    for call in &SETTING {
        said(rt, &mut editor, call);
    }
    editor
}

fn tried(rt: &impl Abort, alloc: Global, calls: &str, position: u32) -> String {
    let mut editor = set_up(rt, alloc);
    let found = last_said(rt, &mut editor, calls, position);
    editor.close();
    found
}

fn put(rt: &impl Abort, text: &mut String, more: &str) {
    text.push_str(more).expect(rt, "room");
}

/// What these calls reply at each position, one behind the other.
fn replies(rt: &impl Abort, alloc: Global, calls: &str) -> String {
    let mut found = String::new(alloc);
    for position in 0..9u32 {
        let reply = tried(rt, alloc, calls, position);
        put(rt, &mut found, reply.as_str());
        put(rt, &mut found, "|");
    }
    found
}

fn check_trial(rt: &impl Abort, alloc: Global, trial: &Trial) {
    is(rt, replies(rt, alloc, trial.0).as_str(), trial.1);
}

#[test]
fn the_trials_of_positions_give_their_replies(rt: HostRuntime) {
    for trial in &TRIALS {
        check_trial(&rt, rt.alloc(), trial);
    }
}
