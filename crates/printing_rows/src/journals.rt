//! Journals: a line of each kind read and written back, and each refusal with its line.

use crate::checking::{is, is_written, read, refused};
use std::alloc::{AllocError, Global};
use std::process::Abort;

/// A line of each kind.
const ALL: &str = "spawn 636174 2d75 - c3a9 -> started 0
spawn 01 -> refused
spawn 7f -> started 1
read 0 -> bytes 00ff0a80
read 0 -> nothing
read 4294967295 -> end
read 10 -> failed
end 0 -> code 0
end 0 -> code 7
end 0 -> code -1
end 0 -> code 2147483647
end 0 -> code -2147483648
end 1 -> signal
end 1 -> running
end 1 -> failed
send 0 00ff -> sent
send 0 0a -> broken
close 0 -> closed
kill 0 -> killed
kill 1 -> failed
";

/// A text and the last line with a script behind it.
fn session(rt: &impl Abort, alloc: Global, journal: &str, script: &str) -> String {
    format!(in alloc; "{journal}script\n{script}").expect(rt, "a text")
}

/// A journal is read, and written back as it was.
fn assert_kept(rt: &impl Abort, alloc: Global, journal: &str) {
    let text = session(rt, alloc, journal, "(point)");
    let read = read(rt, alloc, text.as_bytes()).expect(rt, "a journal");
    is(rt, read.1, journal.len() + 7);
    is_written(rt, alloc, &read.0, journal);
}

/// Two hexadecimal digits for each of these numbers.
fn push_hex(text: &mut String, from: u32, to: u32) -> Result<(), AllocError> {
    for n in from..to {
        write!(text, "{n:02x}")?;
    }
    Ok(())
}

/// A program whose name has each byte of ASCII but 0, and a child that is sent all bytes.
fn all_bytes(alloc: Global) -> Result<String, AllocError> {
    let mut text = String::from_str(alloc, "spawn ")?;
    push_hex(&mut text, 1, 128)?;
    text.push_str(" e282ac f09f9880 -> started 0\nsend 0 ")?;
    push_hex(&mut text, 0, 256)?;
    text.push_str(" -> sent\n")?;
    Ok(text)
}

/// A read that gave so many bytes.
fn long_read(rt: &impl Abort, alloc: Global, bytes: usize) -> String {
    let bytes = "61".repeat(alloc, bytes).expect(rt, "a text");
    format!(in alloc; "read 0 -> bytes {bytes}\n").expect(rt, "a text")
}

/// A line of each kind, none, each byte, and the longest read.
#[test]
fn a_journal_that_is_read_is_written_back_as_it_was(rt: HostRuntime) {
    let alloc = rt.alloc();
    assert_kept(&rt, alloc, ALL);
    assert_kept(&rt, alloc, "");
    let bytes = all_bytes(alloc).expect(&rt, "a text");
    assert_kept(&rt, alloc, bytes.as_str());
    let longest = long_read(&rt, alloc, 4096);
    assert_kept(&rt, alloc, longest.as_str());
}

/// The bytes are refused with a line.
fn assert_refused(rt: &impl Abort, alloc: Global, text: &str, line: u32) {
    refused(rt, read(rt, alloc, text.as_bytes()).err(), line, text);
}

#[test]
fn a_read_of_more_bytes_is_refused(rt: HostRuntime) {
    let text = long_read(&rt, rt.alloc(), 4097);
    assert_refused(&rt, rt.alloc(), text.as_str(), 1);
}

/// A text that is no session, and the line that is refused.
struct Refused {
    text: &'static str,
    line: u32,
}

const REFUSED: [Refused; 32] = [
    // No script.
    Refused { text: "", line: 1 },
    Refused {
        text: "script",
        line: 1,
    },
    Refused {
        text: "close 0 -> closed\nclose 1 -> closed\n",
        line: 3,
    },
    // Numbers.
    Refused {
        text: "close 00 -> closed\nscript\n",
        line: 1,
    },
    Refused {
        text: "close 01 -> closed\nscript\n",
        line: 1,
    },
    Refused {
        text: "close +1 -> closed\nscript\n",
        line: 1,
    },
    Refused {
        text: "close  -> closed\nscript\n",
        line: 1,
    },
    Refused {
        text: "close 4294967296 -> closed\nscript\n",
        line: 1,
    },
    Refused {
        text: "close 12345678901234567890 -> closed\nscript\n",
        line: 1,
    },
    // Codes.
    Refused {
        text: "close 0 -> closed\nend 0 -> code -0\nscript\n",
        line: 2,
    },
    Refused {
        text: "close 0 -> closed\nend 0 -> code 2147483648\nscript\n",
        line: 2,
    },
    Refused {
        text: "close 0 -> closed\nend 0 -> code -2147483649\nscript\n",
        line: 2,
    },
    Refused {
        text: "close 0 -> closed\nend 0 -> code \nscript\n",
        line: 2,
    },
    // Bytes.
    Refused {
        text: "spawn 636174 -> started 0\nread 0 -> bytes 616\nscript\n",
        line: 2,
    },
    Refused {
        text: "spawn 636174 -> started 0\nread 0 -> bytes \nscript\n",
        line: 2,
    },
    Refused {
        text: "spawn 636174 -> started 0\nread 0 -> bytes 4A\nscript\n",
        line: 2,
    },
    Refused {
        text: "spawn 636174 -> started 0\nsend 0  -> sent\nscript\n",
        line: 2,
    },
    Refused {
        text: "spawn 636174 -> started 0\nsend 0 - -> sent\nscript\n",
        line: 2,
    },
    // Words, and the number and the answer of a spawn.
    Refused {
        text: "spawn - -> started 0\nscript\n",
        line: 1,
    },
    Refused {
        text: "spawn 00 -> started 0\nscript\n",
        line: 1,
    },
    Refused {
        text: "spawn 61 0061 -> started 0\nscript\n",
        line: 1,
    },
    Refused {
        text: "spawn 61 ff -> started 0\nscript\n",
        line: 1,
    },
    Refused {
        text: "spawn 61  61 -> started 0\nscript\n",
        line: 1,
    },
    Refused {
        text: "spawn 61 -> started 1\nscript\n",
        line: 1,
    },
    Refused {
        text: "spawn 61 -> killed\nscript\n",
        line: 1,
    },
    // A child that was started before.
    Refused {
        text: "spawn 61 -> started 0\nspawn 61 -> started 0\nscript\n",
        line: 2,
    },
    // Other lines.
    Refused {
        text: "close 0 -> closed \nscript\n",
        line: 1,
    },
    Refused {
        text: "close 0 -> closed\r\nscript\n",
        line: 1,
    },
    Refused {
        text: " close 0 -> closed\nscript\n",
        line: 1,
    },
    Refused {
        text: "Close 0 -> closed\nscript\n",
        line: 1,
    },
    Refused {
        text: "close 0->closed\nscript\n",
        line: 1,
    },
    Refused {
        text: "\nscript\n",
        line: 1,
    },
];

#[test]
fn what_is_no_journal_is_refused_with_its_line(rt: HostRuntime) {
    for row in &REFUSED {
        assert_refused(&rt, rt.alloc(), row.text, row.line);
    }
}
