//! Line sessions: a child is started again until it ends well, and its lines are gathered.

use super::comparing::{comes_to, ends_with, holds_for, is_for};
use super::playing::{Calls, Child, PLAIN, Ran, Setting, play, plays, run_words};
use host_link::{Ended, Play};
use kernel_top::Status;
use std::alloc::Global;
use std::process::Abort;

/// A session: how often it may restart, its children, the text that is written, and its exchanges.
struct Session {
    shows: &'static str,
    limit: &'static str,
    children: &'static [Child],
    text: &'static [u8],
    exchanges: &'static [u8],
}

/// A child that ends badly behind half a line, and one that ends well.
const TWO: &[Child] = &[
    Child {
        reads: &[b"a\nb"],
        ends: &[Ended::Code(3)],
    },
    Child {
        reads: &[b"c\n"],
        ends: &[Ended::Code(0)],
    },
];

/// Children that end badly, each in its own way.
const BAD: &[Child] = &[
    Child {
        reads: &[b"a"],
        ends: &[Ended::Running, Ended::Signal],
    },
    Child {
        reads: &[b"", b"b\r"],
        ends: &[Ended::Failed],
    },
    Child {
        reads: &[],
        ends: &[Ended::Code(-1)],
    },
    Child {
        reads: &[b"d"],
        ends: &[Ended::Code(1)],
    },
];

const SESSIONS: [Session; 9] = [
    Session {
        shows: "the second child ends well",
        limit: "2",
        children: TWO,
        text: b"a\nb\nc\n",
        exchanges: b"spawn cat: started 0\nread 0: bytes a\nb\nread 0: end\nend 0: code 3
spawn cat: started 1\nread 1: bytes c\n\nread 1: end\nend 1: code 0\n",
    },
    Session {
        shows: "no restart is left",
        limit: "0",
        children: TWO,
        text: b"a\nb\n",
        exchanges: b"spawn cat: started 0\nread 0: bytes a\nb\nread 0: end\nend 0: code 3\n",
    },
    Session {
        shows: "a line of nothing is none",
        limit: "255",
        children: &[Child {
            reads: &[],
            ends: &[Ended::Code(0)],
        }],
        text: b"",
        exchanges: b"spawn cat: started 0\nread 0: end\nend 0: code 0\n",
    },
    Session {
        shows: "a child that wrote nothing is started again",
        limit: "1",
        children: &[
            Child {
                reads: &[],
                ends: &[Ended::Code(1)],
            },
            Child {
                reads: &[b"a"],
                ends: &[Ended::Code(0)],
            },
        ],
        text: b"a\n",
        exchanges: b"spawn cat: started 0\nread 0: end\nend 0: code 1
spawn cat: started 1\nread 1: bytes a\nread 1: end\nend 1: code 0\n",
    },
    Session {
        shows: "half a line is closed at a good end",
        limit: "007",
        children: &[Child {
            reads: &[b"a", b"b"],
            ends: &[Ended::Code(0)],
        }],
        text: b"ab\n",
        exchanges: b"spawn cat: started 0\nread 0: bytes a\nread 0: bytes b\nread 0: end\nend 0: code 0\n",
    },
    Session {
        shows: "a carriage return closes no line, and nothing is closed behind one that is",
        limit: "9",
        children: &[
            Child {
                reads: &[b"\n"],
                ends: &[Ended::Code(9)],
            },
            Child {
                reads: &[b"a\r"],
                ends: &[Ended::Code(0)],
            },
        ],
        text: b"\na\r\n",
        exchanges: b"spawn cat: started 0\nread 0: bytes \n\nread 0: end\nend 0: code 9
spawn cat: started 1\nread 1: bytes a\r\nread 1: end\nend 1: code 0\n",
    },
    Session {
        shows: "three restarts and no more",
        limit: "3",
        children: BAD,
        text: b"a\nb\r\nd\n",
        exchanges: b"spawn cat: started 0\nread 0: bytes a\nread 0: end\nend 0: running\nend 0: signal
spawn cat: started 1\nread 1: nothing\nread 1: bytes b\r\nread 1: end\nend 1: failed
spawn cat: started 2\nread 2: end\nend 2: code -1
spawn cat: started 3\nread 3: bytes d\nread 3: end\nend 3: code 1\n",
    },
    Session {
        shows: "a refused restart is the last one",
        limit: "3",
        children: &[Child {
            reads: &[b"a"],
            ends: &[Ended::Code(1)],
        }],
        text: b"a\n",
        exchanges: b"spawn cat: started 0\nread 0: bytes a\nread 0: end\nend 0: code 1\nspawn cat: refused\n",
    },
    Session {
        shows: "a refused start leaves nothing",
        limit: "3",
        children: &[],
        text: b"",
        exchanges: b"spawn cat: refused\n",
    },
];

/// A session of `cat`, whose source fails in its first call.
fn gather(rt: &impl Abort, alloc: Global, limit: &str, children: Vec<Play>, room: usize) -> Ran {
    let setting = Setting {
        from: Calls {
            fails: Some(0),
            ..PLAIN.from
        },
        room,
        ..PLAIN
    };
    run_words(rt, alloc, &["session", limit, "cat"], "", children, setting)
}

#[test]
fn a_child_is_started_again_until_it_ends_well(rt: HostRuntime) {
    for row in &SESSIONS {
        let children = plays(&rt, rt.alloc(), row.children);
        let ran = gather(&rt, rt.alloc(), row.limit, children, 1000);
        comes_to(&rt, row.shows, &ran, Status::Done, row.text, row.exchanges);
    }
}

/// A sink with so much room has a front of the text. All has been asked before anything is written.
fn is_cut(rt: &impl Abort, alloc: Global, row: &Session, room: usize) {
    let children = plays(rt, alloc, row.children);
    let ran = gather(rt, alloc, row.limit, children, room);
    let front = row.text.get(..room).expect(rt, "a front");
    comes_to(
        rt,
        "a full sink",
        &ran,
        Status::WriteFault,
        front,
        row.exchanges,
    );
}

#[test]
fn a_sink_that_is_full_holds_a_front_of_the_text(rt: HostRuntime) {
    for room in [0, 3] {
        is_cut(&rt, rt.alloc(), &SESSIONS[0], room);
    }
}

/// Characters of one to four bytes among malformed bytes, and the front of a character at the end.
const OUTPUT: &[u8] = b"a\xC3\xA9\xE2\x82\xAC\xF0\x9D\x84\x9E\xFF\xC3A\xE2\x82A\x80\xF0\x9D\x84";

/// A child for each place at which its bytes are cut; each ends badly, and the start behind the last one is refused.
fn cut_children(rt: &impl Abort, alloc: Global) -> Vec<Play> {
    let mut children = Vec::new(alloc);
    for at in 0..OUTPUT.len() {
        let pieces = [&OUTPUT[..at], &OUTPUT[at..]];
        children
            .push(play(rt, alloc, &pieces, &[Ended::Code(1)]))
            .expect(rt, "memory");
    }
    children
}

/// However the bytes are cut, they are written as they were, with the last line closed.
#[test]
fn malformed_bytes_are_kept_wherever_they_are_cut(rt: HostRuntime) {
    let children = cut_children(&rt, rt.alloc());
    let ran = gather(&rt, rt.alloc(), "255", children, 1000);
    let mut text = Vec::new(rt.alloc());
    for _ in 0..OUTPUT.len() {
        text.extend_from_slice(OUTPUT).expect(&rt, "memory");
        text.push(b'\n').expect(&rt, "memory");
    }
    ends_with(&rt, "cuts", &ran, Status::Done, text.as_slice());
}

/// The characters of the largest text.
const LARGEST_TEXT: usize = 4_194_304;

/// A child that writes so many letters, and no line feed.
fn letters(rt: &impl Abort, alloc: Global, count: usize) -> Vec<Play> {
    let letters = "x".repeat(alloc, count).expect(rt, "memory");
    let mut children = Vec::new(alloc);
    children
        .push(play(rt, alloc, &[letters.as_bytes()], &[]))
        .expect(rt, "memory");
    children
}

/// Where one letter or the line feed is too much, the text is written as it was before.
fn is_full(rt: &impl Abort, alloc: Global, count: usize, last: &[u8]) {
    let ran = gather(rt, alloc, "1", letters(rt, alloc, count), 2 * LARGEST_TEXT);
    let text = "x".repeat(alloc, LARGEST_TEXT).expect(rt, "memory");
    let exchanges = ran.exchanges.as_slice();
    is_for(rt, "a full text", ran.status, Status::SessionFull);
    holds_for(rt, "a full text", ran.written.as_slice() == text.as_bytes());
    holds_for(rt, "a full text", exchanges.ends_with(last));
}

#[test]
fn a_text_that_becomes_full_is_written_as_it_was_before(rt: HostRuntime) {
    let within = b"read 0: bytes x\nkill 0: killed\n";
    is_full(&rt, rt.alloc(), LARGEST_TEXT + 1, within);
    let closed = b"x\nread 0: end\nend 0: code 0\n";
    is_full(&rt, rt.alloc(), LARGEST_TEXT, closed);
}

/// With so many words of its own the program is started, as no child is there, in vain.
fn has_words(rt: &impl Abort, alloc: Global, args: usize, status: Status) {
    let mut words = Vec::new(alloc);
    for word in ["session", "1", "cat"] {
        words.push(word).expect(rt, "memory");
    }
    for _ in 0..args {
        words.push("").expect(rt, "memory");
    }
    let ran = run_words(rt, alloc, words.as_slice(), "", Vec::new(alloc), PLAIN);
    ends_with(rt, "words", &ran, status, b"");
}

#[test]
fn a_program_has_at_most_61_words(rt: HostRuntime) {
    has_words(&rt, rt.alloc(), 61, Status::Done);
    has_words(&rt, rt.alloc(), 62, Status::Usage);
}
