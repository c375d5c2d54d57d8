//! A child's bytes in pieces: whatever the pieces are, the entries of the filter spell the same
//! text, and the buffer gets the same.

use super::playing::{Child, check_run, one_child, plays};
use super::texts::push;
use host_link::Ended;
use std::alloc::Global;
use std::process::Abort;

/// Characters of one to four bytes, and malformed bytes: one that stands in no character, and
/// fronts of a character before a letter, before a byte that can only follow, and at the end.
const OUTPUT: &[u8] = b"a\xC3\xA9\xE2\x82\xAC\xF0\x9D\x84\x9E\xFF\xC3A\xE2\x82A\x80\xF0\x9D\x84";

/// How many bytes are in the first piece, the text of its entry, and that of the entry of the
/// second piece.
struct Cut {
    at: usize,
    first: &'static str,
    second: &'static str,
}

const CUTS: [Cut; 19] = [
    Cut {
        at: 1,
        first: "a",
        second: r"é€𝄞\377\303A\342\202A\200",
    },
    Cut {
        at: 2,
        first: "a",
        second: r"é€𝄞\377\303A\342\202A\200",
    },
    Cut {
        at: 3,
        first: "aé",
        second: r"€𝄞\377\303A\342\202A\200",
    },
    Cut {
        at: 4,
        first: "aé",
        second: r"€𝄞\377\303A\342\202A\200",
    },
    Cut {
        at: 5,
        first: "aé",
        second: r"€𝄞\377\303A\342\202A\200",
    },
    Cut {
        at: 6,
        first: "aé€",
        second: r"𝄞\377\303A\342\202A\200",
    },
    Cut {
        at: 7,
        first: "aé€",
        second: r"𝄞\377\303A\342\202A\200",
    },
    Cut {
        at: 8,
        first: "aé€",
        second: r"𝄞\377\303A\342\202A\200",
    },
    Cut {
        at: 9,
        first: "aé€",
        second: r"𝄞\377\303A\342\202A\200",
    },
    Cut {
        at: 10,
        first: "aé€𝄞",
        second: r"\377\303A\342\202A\200",
    },
    Cut {
        at: 11,
        first: r"aé€𝄞\377",
        second: r"\303A\342\202A\200",
    },
    Cut {
        at: 12,
        first: r"aé€𝄞\377",
        second: r"\303A\342\202A\200",
    },
    Cut {
        at: 13,
        first: r"aé€𝄞\377\303A",
        second: r"\342\202A\200",
    },
    Cut {
        at: 14,
        first: r"aé€𝄞\377\303A",
        second: r"\342\202A\200",
    },
    Cut {
        at: 15,
        first: r"aé€𝄞\377\303A",
        second: r"\342\202A\200",
    },
    Cut {
        at: 16,
        first: r"aé€𝄞\377\303A\342\202A",
        second: r"\200",
    },
    Cut {
        at: 17,
        first: r"aé€𝄞\377\303A\342\202A\200",
        second: "",
    },
    Cut {
        at: 18,
        first: r"aé€𝄞\377\303A\342\202A\200",
        second: "",
    },
    Cut {
        at: 19,
        first: r"aé€𝄞\377\303A\342\202A\200",
        second: "",
    },
];

/// The texts of the entries where each piece is one byte.
const BYTE_BY_BYTE: [&str; 20] = [
    "a",
    "",
    "é",
    "",
    "",
    "€",
    "",
    "",
    "",
    "𝄞",
    r"\377",
    "",
    r"\303A",
    "",
    "",
    r"\342\202A",
    r"\200",
    "",
    "",
    "",
];

/// The lines behind the last piece: the bytes held, the end, and the dump.
const ENDING: &str = r#"> filter default #<process c> "\360\235\204"
< default
> sentinel default #<process c> "finished\n"
< default
= nil
buffer *scratch* point 35 min 1 max 35 modified t current
text "aé€𝄞\377\303A\342\202A\200\360\235\204\nProcess c finished\n"
marker 0 #<marker at 35 in *scratch*>
process 0 #<process c> exit 0
"#;

/// A script of so many waits.
fn waits(rt: &impl Abort, alloc: Global, count: usize) -> String {
    let mut script = String::from_str(alloc, "(start-process \"c\" \"*scratch*\" \"cat\")").expect(
        rt, "memory",
    );
    for _ in 0..count {
        push(rt, &mut script, "(accept-process-output)");
    }
    script
}

/// The lines of waits that hear these texts of a process, where an empty one enters nothing.
fn push_heard(rt: &impl Abort, lines: &mut String, process: &str, heard: &[&str]) {
    for text in heard {
        if !text.is_empty() {
            write!(
                lines,
                "> filter default #<process {process}> \"{text}\"\n< default\n"
            )
            .expect(rt, "memory");
        }
        push(rt, lines, "= t\n");
    }
}

/// The lines of waits that hear these texts of the process `c`.
fn lines(rt: &impl Abort, alloc: Global, heard: &[&str]) -> String {
    let mut lines = String::from_str(alloc, "= #<process c>\n").expect(rt, "memory");
    push_heard(rt, &mut lines, "c", heard);
    lines
}

/// The exchanges that give these bytes. Those that aren't UTF-8 are shown by their numbers.
fn push_reads(rt: &impl Abort, exchanges: &mut String, reads: &[&[u8]]) {
    for read in reads {
        match str::from_utf8(read) {
            Ok(text) => writeln!(exchanges, "read 0: bytes {text}").expect(rt, "memory"),
            Err(_) => writeln!(exchanges, "read 0: bytes {}", read.escape_ascii()).expect(
                rt, "memory",
            ),
        }
    }
}

/// The exchanges of a child that gives these bytes and ends.
fn exchanges(rt: &impl Abort, alloc: Global, reads: &[&[u8]]) -> String {
    let mut exchanges = String::from_str(alloc, "spawn cat: started 0\n").expect(rt, "memory");
    push_reads(rt, &mut exchanges, reads);
    push(rt, &mut exchanges, "read 0: end\nend 0: code 0\n");
    exchanges
}

/// The output in two pieces: each wait hears one, and the last one the end.
fn check_cut(rt: &impl Abort, alloc: Global, script: &str, cut: &Cut) {
    let (front, back) = OUTPUT.split_at(cut.at.min(OUTPUT.len()));
    let reads = [front, back];
    let mut want = lines(rt, alloc, &[cut.first, cut.second]);
    push(rt, &mut want, ENDING);
    check_run(
        rt,
        alloc,
        "two pieces",
        script,
        one_child(rt, alloc, &reads),
        want.as_str(),
        exchanges(rt, alloc, &reads).as_bytes(),
    );
}

#[test]
fn two_pieces_enter_the_same_text(rt: HostRuntime) {
    let script = waits(&rt, rt.alloc(), 3);
    for cut in &CUTS {
        check_cut(&rt, rt.alloc(), script.as_str(), cut);
    }
}

#[test]
fn one_byte_a_read_enters_the_same_text(rt: HostRuntime) {
    let script = waits(&rt, rt.alloc(), 21);
    let mut want = lines(&rt, rt.alloc(), &BYTE_BY_BYTE);
    push(&rt, &mut want, ENDING);
    let mut reads = Vec::new(rt.alloc());
    for piece in OUTPUT.chunks(1) {
        reads.push(piece).expect(&rt, "memory");
    }
    let plays = one_child(&rt, rt.alloc(), reads.as_slice());
    let exchanges = exchanges(&rt, rt.alloc(), reads.as_slice());
    check_run(
        &rt,
        rt.alloc(),
        "single bytes",
        script.as_str(),
        plays,
        want.as_str(),
        exchanges.as_bytes(),
    )
}

/// The lines of a child that writes these letters, and two more in its second read.
fn long_lines(rt: &impl Abort, alloc: Global, letters: &str) -> String {
    let mut want = lines(rt, alloc, &[letters, "éy"]);
    write!(
        want,
        "> sentinel default #<process c> \"finished\\n\"
< default
= nil
buffer *scratch* point 4118 min 1 max 4118 modified t current
text \"{letters}éy\\nProcess c finished\\n\"
marker 0 #<marker at 4118 in *scratch*>
process 0 #<process c> exit 0
"
    )
    .expect(rt, "memory");
    want
}

fn check_long(rt: &impl Abort, alloc: Global, bytes: &[u8], lines: &str) {
    let (front, back) = bytes.split_at(4096.min(bytes.len()));
    check_run(
        rt,
        alloc,
        "4,096 bytes",
        waits(rt, alloc, 3).as_str(),
        one_child(rt, alloc, &[bytes]),
        lines,
        exchanges(rt, alloc, &[front, back]).as_bytes(),
    );
}

/// A read takes 4,096 bytes, so this character is cut in the middle.
#[test]
fn a_character_across_two_reads_is_entered_whole(rt: HostRuntime) {
    let letters = "x".repeat(rt.alloc(), 4095).expect(&rt, "memory");
    let output = format!(in rt.alloc(); "{letters}éy").expect(&rt, "memory");
    let lines = long_lines(&rt, rt.alloc(), letters.as_str());
    check_long(&rt, rt.alloc(), output.as_bytes(), lines.as_str());
}

/// The pieces of what a sorting child writes, and their texts as they are shown.
struct Cutting {
    reads: &'static [&'static [u8]],
    texts: &'static [&'static str],
}

/// Each cutting of the four bytes.
const CUTTINGS: [Cutting; 8] = [
    Cutting {
        reads: &[b"a\nb\n"],
        texts: &[r"a\nb\n"],
    },
    Cutting {
        reads: &[b"a", b"\nb\n"],
        texts: &["a", r"\nb\n"],
    },
    Cutting {
        reads: &[b"a\n", b"b\n"],
        texts: &[r"a\n", r"b\n"],
    },
    Cutting {
        reads: &[b"a\nb", b"\n"],
        texts: &[r"a\nb", r"\n"],
    },
    Cutting {
        reads: &[b"a", b"\n", b"b\n"],
        texts: &["a", r"\n", r"b\n"],
    },
    Cutting {
        reads: &[b"a", b"\nb", b"\n"],
        texts: &["a", r"\nb", r"\n"],
    },
    Cutting {
        reads: &[b"a\n", b"b", b"\n"],
        texts: &[r"a\n", "b", r"\n"],
    },
    Cutting {
        reads: &[b"a", b"\n", b"b", b"\n"],
        texts: &["a", r"\n", "b", r"\n"],
    },
];

/// The lines behind the last piece.
const SORTED: &str = r#"> sentinel s #<process sorted> "exited abnormally with code 3\n"
< s
= nil
= 3
buffer *scratch* point 1 min 1 max 1 modified nil current
text ""
buffer out point 5 min 1 max 5 modified t
text "a\nb\n"
marker 0 #<marker at 5 in out>
process 0 #<process sorted> exit 3
"#;

/// A script that waits for each piece, and for the end behind them.
fn sorting(rt: &impl Abort, alloc: Global, pieces: usize) -> String {
    let start =
        "(defhandler s (p m))\n(setq p (start-process \"sorted\" \"out\" \"sort\"))(set-process-sentinel p 's)";
    let waits = "(accept-process-output p)"
        .repeat(alloc, pieces)
        .expect(rt, "memory");
    format!(in alloc; "{start}{waits}(accept-process-output p)(process-exit-status p)").expect(
        rt, "memory",
    )
}

/// The lines of this script.
fn sorted(rt: &impl Abort, alloc: Global, texts: &[&str]) -> String {
    let mut lines = String::from_str(alloc, "= #<process sorted>\n= s\n").expect(rt, "memory");
    push_heard(rt, &mut lines, "sorted", texts);
    push(rt, &mut lines, SORTED);
    lines
}

/// Its exchanges.
fn sort_asked(rt: &impl Abort, alloc: Global, reads: &[&[u8]]) -> String {
    let mut exchanges = String::from_str(alloc, "spawn sort: started 0\n").expect(rt, "memory");
    push_reads(rt, &mut exchanges, reads);
    push(rt, &mut exchanges, "read 0: end\nend 0: code 3\n");
    exchanges
}

fn check_cutting(rt: &impl Abort, alloc: Global, reads: &'static [&'static [u8]], texts: &[&str]) {
    let child = Child {
        reads,
        ends: &[Ended::Code(3)],
    };
    check_run(
        rt,
        alloc,
        "a sort",
        sorting(rt, alloc, reads.len()).as_str(),
        plays(rt, alloc, &[child]),
        sorted(rt, alloc, texts).as_str(),
        sort_asked(rt, alloc, reads).as_bytes(),
    );
}

/// Whatever the pieces are that the system makes of a child's output, the text is the same, and the
/// end comes last.
#[test]
fn each_cutting_of_a_sort_leaves_the_same_text(rt: HostRuntime) {
    for cutting in &CUTTINGS {
        check_cutting(&rt, rt.alloc(), cutting.reads, cutting.texts);
    }
}
