//! What runs: the edges of the Unicode Standard's Table 3-7, cuts at each place, line ends and single bytes, and a
//! long text in pieces.
use crate::checking::{holds, is, is_text};
use ek_types::{Ch, Chars};
use std::alloc::Global;
use std::process::Abort;
use utf8_stream::{Coding, Decoder};

/// Room is made, and a piece is fed.
fn feed(rt: &impl Abort, decoder: &mut Decoder, piece: &[u8], out: &mut Chars) {
    let room = decoder.held().len().checked_add(piece.len());
    out.reserve(room.expect(rt, "room")).expect(rt, "room");
    decoder.feed(piece, out);
}

fn finish(rt: &impl Abort, decoder: &mut Decoder, out: &mut Chars) {
    out.reserve(decoder.held().len()).expect(rt, "room");
    decoder.finish(out);
}

/// The bytes are one character, whole and byte by byte.
fn is_one(rt: &impl Abort, alloc: Global, bytes: &[u8], code: u32) {
    let mut out = Chars::new(alloc);
    let mut decoder = Decoder::new();
    feed(rt, &mut decoder, bytes, &mut out);
    holds(rt, decoder.held().is_empty());
    for byte in bytes {
        feed(rt, &mut decoder, &[*byte], &mut out);
    }
    finish(rt, &mut decoder, &mut out);
    let c = Ch::Scalar(char::from_u32(code).expect(rt, "a character"));
    is_text(rt, &out, &[c, c]);
}

/// Each of the bytes by itself.
fn apart(rt: &impl Abort, alloc: Global, bytes: &[u8]) -> Vec<Ch> {
    let mut text = Vec::new(alloc);
    for byte in bytes {
        let c = Ch::raw(*byte).unwrap_or(Ch::Scalar(char::from(*byte)));
        text.push(c).expect(rt, "room");
    }
    text
}

/// Each of the bytes is a character of its own.
fn are_apart(rt: &impl Abort, alloc: Global, bytes: &[u8]) {
    let mut out = Chars::new(alloc);
    let mut decoder = Decoder::new();
    feed(rt, &mut decoder, bytes, &mut out);
    finish(rt, &mut decoder, &mut out);
    is_text(rt, &out, apart(rt, alloc, bytes).as_slice());
}

/// Bytes, and the code of the character that they are.
struct Character {
    bytes: &'static [u8],
    code: u32,
}

const FIRST_AND_LAST: [Character; 18] = [
    Character {
        bytes: b"\x00",
        code: 0,
    },
    Character {
        bytes: b"\x7F",
        code: 0x7F,
    },
    Character {
        bytes: b"\xC2\x80",
        code: 0x80,
    },
    Character {
        bytes: b"\xDF\xBF",
        code: 0x7FF,
    },
    Character {
        bytes: b"\xE0\xA0\x80",
        code: 0x800,
    },
    Character {
        bytes: b"\xE0\xBF\xBF",
        code: 0xFFF,
    },
    Character {
        bytes: b"\xE1\x80\x80",
        code: 0x1000,
    },
    Character {
        bytes: b"\xEC\xBF\xBF",
        code: 0xCFFF,
    },
    Character {
        bytes: b"\xED\x80\x80",
        code: 0xD000,
    },
    Character {
        bytes: b"\xED\x9F\xBF",
        code: 0xD7FF,
    },
    Character {
        bytes: b"\xEE\x80\x80",
        code: 0xE000,
    },
    Character {
        bytes: b"\xEF\xBF\xBF",
        code: 0xFFFF,
    },
    Character {
        bytes: b"\xF0\x90\x80\x80",
        code: 0x10000,
    },
    Character {
        bytes: b"\xF0\xBF\xBF\xBF",
        code: 0x3FFFF,
    },
    Character {
        bytes: b"\xF1\x80\x80\x80",
        code: 0x40000,
    },
    Character {
        bytes: b"\xF3\xBF\xBF\xBF",
        code: 0xFFFFF,
    },
    Character {
        bytes: b"\xF4\x80\x80\x80",
        code: 0x100000,
    },
    Character {
        bytes: b"\xF4\x8F\xBF\xBF",
        code: 0x10FFFF,
    },
];

#[test]
fn the_first_and_the_last_of_each_row_are_one_character(rt: HostRuntime) {
    for row in &FIRST_AND_LAST {
        is_one(&rt, rt.alloc(), row.bytes, row.code);
    }
}

/// One below and one above each range of the table's rows: of two bytes, of three and of four.
const OF_TWO: [[u8; 2]; 8] = [
    *b"\x80\xBF",
    *b"\xC0\x80",
    *b"\xC1\xBF",
    *b"\xC2\x7F",
    *b"\xC2\xC0",
    *b"\xDF\x7F",
    *b"\xDF\xC0",
    *b"\xFE\xFF",
];

const OF_THREE: [[u8; 3]; 20] = [
    *b"\xE0\x80\x80",
    *b"\xE0\x9F\xBF",
    *b"\xE0\xC0\x80",
    *b"\xE0\xA0\x7F",
    *b"\xE0\xBF\xC0",
    *b"\xE1\x7F\x80",
    *b"\xE1\xC0\x80",
    *b"\xE1\x80\x7F",
    *b"\xEC\xBF\xC0",
    *b"\xEC\x7F\xBF",
    *b"\xED\x7F\x80",
    *b"\xED\xA0\x80",
    *b"\xED\xBF\xBF",
    *b"\xED\x80\x7F",
    *b"\xED\x9F\xC0",
    *b"\xEE\x7F\x80",
    *b"\xEE\xC0\x80",
    *b"\xEF\x80\x7F",
    *b"\xEF\xBF\xC0",
    *b"\xEF\xC0\xBF",
];

const OF_FOUR: [[u8; 4]; 20] = [
    *b"\xF0\x80\x80\x80",
    *b"\xF0\x8F\xBF\xBF",
    *b"\xF0\xC0\x80\x80",
    *b"\xF0\x90\x7F\x80",
    *b"\xF0\x90\xC0\x80",
    *b"\xF0\x90\x80\x7F",
    *b"\xF0\xBF\xBF\xC0",
    *b"\xF1\x7F\x80\x80",
    *b"\xF1\xC0\x80\x80",
    *b"\xF1\x80\x7F\x80",
    *b"\xF3\xBF\xC0\xBF",
    *b"\xF3\xBF\xBF\x7F",
    *b"\xF3\xBF\xBF\xC0",
    *b"\xF4\x7F\x80\x80",
    *b"\xF4\x90\x80\x80",
    *b"\xF4\x80\x7F\x80",
    *b"\xF4\x8F\xC0\xBF",
    *b"\xF4\x8F\xBF\x7F",
    *b"\xF4\x8F\xBF\xC0",
    *b"\xF5\x80\x80\x80",
];

#[test]
fn one_below_and_one_above_each_range_stand_apart(rt: HostRuntime) {
    for bytes in &OF_TWO {
        are_apart(&rt, rt.alloc(), bytes);
    }
    for bytes in &OF_THREE {
        are_apart(&rt, rt.alloc(), bytes);
    }
    for bytes in &OF_FOUR {
        are_apart(&rt, rt.alloc(), bytes);
    }
}

/// A character that is cut at each of its places is held, and then ended or given up.
fn is_held(rt: &impl Abort, alloc: Global, bytes: &[u8], c: char) {
    for cut in 1..bytes.len() {
        let (front, rest) = (&bytes[..cut], &bytes[cut..]);
        let mut out = Chars::new(alloc);
        let mut decoder = Decoder::new();
        feed(rt, &mut decoder, front, &mut out);
        holds(rt, out.is_empty());
        is(rt, decoder.held().len(), cut);
        feed(rt, &mut decoder, rest, &mut out);
        is_text(rt, &out, &[Ch::Scalar(c)]);
        holds(rt, decoder.held().is_empty());
        are_apart(rt, alloc, front);
    }
}

#[test]
fn a_character_cut_at_each_place_is_held(rt: HostRuntime) {
    let alloc = rt.alloc();
    is_held(&rt, alloc, b"\xC3\xA9", '\u{E9}');
    is_held(&rt, alloc, b"\xE2\x82\xAC", '\u{20AC}');
    is_held(&rt, alloc, b"\xF0\x9F\x98\x80", '\u{1F600}');
}

/// What follows a fault is read anew, also where a part of the fault was held.
#[test]
fn what_follows_a_fault_is_read_anew(rt: HostRuntime) {
    let mut out = Chars::new(rt.alloc());
    let mut decoder = Decoder::new();
    feed(&rt, &mut decoder, b"\xF0\x9F", &mut out);
    feed(&rt, &mut decoder, b"\xC3", &mut out);
    is(&rt, out.len(), 2);
    is(&rt, decoder.held().len(), 1);
    feed(&rt, &mut decoder, b"\xA9\xE2", &mut out);
    let found = [Ch::Raw(0xF0), Ch::Raw(0x9F), Ch::Scalar('\u{E9}')];
    is_text(&rt, &out, &found);
    finish(&rt, &mut decoder, &mut out);
    let [first, second, third] = found;
    is_text(&rt, &out, &[first, second, third, Ch::Raw(0xE2)]);
}

/// The letter a, é, € and a face, a byte of no sequence, and a part of one.
const MIXED: [u8; 13] = *b"a\xC3\xA9\xE2\x82\xAC\xF0\x9F\x98\x80\xFF\xE2\x82";

const CHARACTERS: [Ch; 7] = [
    Ch::Scalar('a'),
    Ch::Scalar('\u{E9}'),
    Ch::Scalar('\u{20AC}'),
    Ch::Scalar('\u{1F600}'),
    Ch::Raw(0xFF),
    Ch::Raw(0xE2),
    Ch::Raw(0x82),
];

/// Bytes in a coding with their characters: those without what is held back, how many bytes that is, and those at the
/// end.
struct Row {
    coding: Coding,
    bytes: &'static [u8],
    open: &'static [Ch],
    held: usize,
    all: &'static [Ch],
}

/// What the bytes become, whole and cut at each place.
fn becomes(rt: &impl Abort, alloc: Global, row: &Row) {
    for cut in 0..row.bytes.len() {
        let (front, rest) = row.bytes.split_at(cut);
        let mut out = Chars::new(alloc);
        let mut decoder = Decoder::with(row.coding);
        feed(rt, &mut decoder, front, &mut out);
        feed(rt, &mut decoder, rest, &mut out);
        holds(rt, decoder.coding() == row.coding);
        is(rt, decoder.held().len(), row.held);
        is_text(rt, &out, row.open);
        finish(rt, &mut decoder, &mut out);
        holds(rt, decoder.held().is_empty());
        is_text(rt, &out, row.all);
    }
}

const A: Ch = Ch::Scalar('a');

const FEED: Ch = Ch::Scalar('\n');

const RETURN: Ch = Ch::Scalar('\r');

const E2: Ch = Ch::Raw(0xE2);

const X82: Ch = Ch::Raw(0x82);

const FF: Ch = Ch::Raw(0xFF);

/// Line ends, the last five beside malformed bytes, each with its characters by the definition: UTF-8 is decoded, and
/// then a carriage return directly before a line feed goes.
const LINE_ENDS: [Row; 13] = [
    Row {
        coding: Coding::Utf8Dos,
        bytes: b"a\r\n",
        open: &[A, FEED],
        held: 0,
        all: &[A, FEED],
    },
    Row {
        coding: Coding::Utf8Dos,
        bytes: b"a\r",
        open: &[A],
        held: 1,
        all: &[A, RETURN],
    },
    Row {
        coding: Coding::Utf8Dos,
        bytes: b"\r",
        open: &[],
        held: 1,
        all: &[RETURN],
    },
    Row {
        coding: Coding::Utf8Dos,
        bytes: b"\ra",
        open: &[RETURN, A],
        held: 0,
        all: &[RETURN, A],
    },
    Row {
        coding: Coding::Utf8Dos,
        bytes: b"\n\r",
        open: &[FEED],
        held: 1,
        all: &[FEED, RETURN],
    },
    Row {
        coding: Coding::Utf8Dos,
        bytes: b"\r\r",
        open: &[RETURN],
        held: 1,
        all: &[RETURN, RETURN],
    },
    Row {
        coding: Coding::Utf8Dos,
        bytes: b"\r\r\n",
        open: &[RETURN, FEED],
        held: 0,
        all: &[RETURN, FEED],
    },
    Row {
        coding: Coding::Utf8Dos,
        bytes: b"\r\n\r\n",
        open: &[FEED, FEED],
        held: 0,
        all: &[FEED, FEED],
    },
    Row {
        coding: Coding::Utf8Dos,
        bytes: b"\r\xFF",
        open: &[RETURN, FF],
        held: 0,
        all: &[RETURN, FF],
    },
    Row {
        coding: Coding::Utf8Dos,
        bytes: b"\r\xE2",
        open: &[RETURN],
        held: 1,
        all: &[RETURN, E2],
    },
    Row {
        coding: Coding::Utf8Dos,
        bytes: b"\xE2\x82\r",
        open: &[E2, X82],
        held: 1,
        all: &[E2, X82, RETURN],
    },
    Row {
        coding: Coding::Utf8Dos,
        bytes: b"\xE2\x82\r\n",
        open: &[E2, X82, FEED],
        held: 0,
        all: &[E2, X82, FEED],
    },
    Row {
        coding: Coding::Utf8Dos,
        bytes: b"\r\xE2\n",
        open: &[RETURN, E2, FEED],
        held: 0,
        all: &[RETURN, E2, FEED],
    },
];

#[test]
fn a_carriage_return_before_a_line_feed_goes(rt: HostRuntime) {
    for row in &LINE_ENDS {
        becomes(&rt, rt.alloc(), row);
    }
}

const SINGLE: [Row; 2] = [
    Row {
        coding: Coding::Latin1,
        bytes: b"\xE9a\r\n\xFF",
        open: &[Ch::Scalar('\u{E9}'), A, RETURN, FEED, Ch::Scalar('\u{FF}')],
        held: 0,
        all: &[Ch::Scalar('\u{E9}'), A, RETURN, FEED, Ch::Scalar('\u{FF}')],
    },
    Row {
        coding: Coding::Utf8,
        bytes: b"a\r\n",
        open: &[A, RETURN, FEED],
        held: 0,
        all: &[A, RETURN, FEED],
    },
];

#[test]
fn line_ends_stay_in_the_other_codings(rt: HostRuntime) {
    for row in &SINGLE {
        becomes(&rt, rt.alloc(), row);
    }
}

/// The mixed text, so many times.
fn repeated(rt: &impl Abort, alloc: Global, times: usize) -> Vec<u8> {
    let mut text = Vec::new(alloc);
    for _ in 0..times {
        text.extend_from_slice(&MIXED).expect(rt, "a text");
    }
    text
}

/// What a text is in pieces of all lengths from `least` to `most`, in turn.
fn in_pieces(rt: &impl Abort, text: &[u8], least: usize, most: usize, out: &mut Chars) {
    let mut decoder = Decoder::new();
    let mut rest = text;
    let mut length = most;
    for _ in text {
        if rest.is_empty() {
            break;
        }
        length = if length < most { length + 1 } else { least };
        let (piece, more) = rest.split_at(length.min(rest.len()));
        feed(rt, &mut decoder, piece, out);
        rest = more;
    }
    finish(rt, &mut decoder, out);
}

/// The characters are those of the mixed text, over and over.
fn are_repeated(rt: &impl Abort, out: &Chars) {
    for i in 0..out.len() {
        is(rt, out.at(i), CHARACTERS[i % 7]);
    }
}

/// About 1 MiB of mixed text, in pieces of all lengths from `least` to `most`, in turn.
fn comes_through(rt: &impl Abort, alloc: Global, least: usize, most: usize) {
    let text = repeated(rt, alloc, 80_660);
    let mut out = Chars::new(alloc);
    in_pieces(rt, text.as_slice(), least, most, &mut out);
    is(rt, out.len(), 564_620);
    are_repeated(rt, &out);
}

#[test]
fn a_long_text_comes_through_in_pieces_of_any_length(rt: HostRuntime) {
    comes_through(&rt, rt.alloc(), 1, 1);
    comes_through(&rt, rt.alloc(), 1, 7);
    comes_through(&rt, rt.alloc(), 1, 64);
    comes_through(&rt, rt.alloc(), 1, 4096);
    comes_through(&rt, rt.alloc(), 2_000_000, 2_000_000);
}
