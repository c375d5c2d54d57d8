//! Transcripts: the parts of each, and the line of each fault.
ghost use Rattle.std.specs.Prelude.{IfOk};
ghost use Rattle.host_link.specs.Meaning.{exchanges_of};
ghost use Rattle.journal_text.specs.Allowed.{AreAnswered};

use crate::checking::{is, is_written, refused};
use journal_text::{JournalFault, LONGEST_SESSION, Transcript, read_transcript};
use std::alloc::Global;
use std::process::Abort;

const JOURNAL: &str = "spawn 636174 -> started 0
read 0 -> bytes 6162
read 0 -> end
end 0 -> code 0
";

/// What is read of a text.
fn read(rt: &impl Abort, alloc: Global, text: &str) -> Result<Transcript, JournalFault>
    ensures { IfOk result (λ t. AreAnswered 0 (exchanges_of t.journal)) }
{
    let bytes = text.as_bytes();
    assert!(rt; bytes.len() <= LONGEST_SESSION);
    read_transcript(alloc, bytes)
}

/// A text has these parts behind one another, as it was read.
fn are_parts(rt: &impl Abort, text: &[u8], found: &Transcript, lines: &str, script: &str) {
    is(rt, text.get(found.from..found.to), Some(lines.as_bytes()));
    let rest = text.get(found.script..text.len());
    is(rt, rest, Some(script.as_bytes()));
}

/// The text has these parts behind one another.
fn assert_parts(rt: &impl Abort, alloc: Global, text: &str, lines: &str, script: &str) {
    let found = read(rt, alloc, text).expect(rt, "a transcript");
    are_parts(rt, text.as_bytes(), &found, lines, script);
}

const WHOLE: &str = "spawn 636174 -> started 0
read 0 -> bytes 6162
read 0 -> end
end 0 -> code 0
lines 8
= t
= 1
script
(point)";

#[test]
fn a_transcript_is_read_as_its_parts(rt: HostRuntime) {
    let found = read(&rt, rt.alloc(), WHOLE).expect(&rt, "a transcript");
    are_parts(&rt, WHOLE.as_bytes(), &found, "= t\n= 1\n", "(point)");
    is_written(&rt, rt.alloc(), &found.journal, JOURNAL);
}

#[test]
fn claims_that_are_empty_or_end_within_a_line_are_read(rt: HostRuntime) {
    let alloc = rt.alloc();
    assert_parts(&rt, alloc, "lines 0\nscript\n", "", "");
    assert_parts(&rt, alloc, "lines 2\nabscript\nscript\n", "ab", "script\n");
    assert_parts(&rt, alloc, "lines 7\nscript\nscript\n", "script\n", "");
}

/// The text is refused with a line.
fn assert_refused(rt: &impl Abort, alloc: Global, text: &str, line: u32) {
    refused(rt, read(rt, alloc, text).err(), line, text);
}

/// A text that is no transcript, and the line that is refused.
struct Refused {
    text: &'static str,
    line: u32,
}

const REFUSED: [Refused; 12] = [
    // No claimed lines behind the journal.
    Refused {
        text: "close 0 -> closed\n",
        line: 2,
    },
    Refused {
        text: "close 0 -> closed\nscript\n",
        line: 2,
    },
    Refused {
        text: "close 0 -> closed\nlines 3\nab",
        line: 2,
    },
    Refused {
        text: "close 0 -> closed\nlines 02\nabscript\n",
        line: 2,
    },
    Refused {
        text: "close 0 -> closed\nlines \nscript\n",
        line: 2,
    },
    Refused {
        text: "close 0 -> closed\nlines 4294967296\nscript\n",
        line: 2,
    },
    Refused {
        text: "close 0 -> closed\nlines 0",
        line: 2,
    },
    // No script behind the claimed lines.
    Refused {
        text: "lines 0\n",
        line: 2,
    },
    Refused {
        text: "lines 0\nscript",
        line: 2,
    },
    Refused {
        text: "lines 2\nabscrip",
        line: 2,
    },
    Refused {
        text: "lines 2\na\n\nscript\n",
        line: 3,
    },
    Refused {
        text: "close 0 -> closed\nlines 5\nab\nc\nscripx\n",
        line: 5,
    },
];

#[test]
fn what_is_no_transcript_is_refused_with_its_line(rt: HostRuntime) {
    for row in &REFUSED {
        assert_refused(&rt, rt.alloc(), row.text, row.line);
    }
}
