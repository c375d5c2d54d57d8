//! Scripts, their fault lines, and what stands in them.

use crate::checking::is;
use ek_call::{Arg, Call, Form, Script};
use ek_types::{Piece, Sym, Symbols};
use script_read::{LONGEST_SCRIPT, ScriptFault, read};
use std::alloc::Global;
use std::process::Abort;

/// Bytes, and the line of their fault where they are no script, as an independent reader of the same grammar told.
struct Case {
    bytes: &'static [u8],
    fault: Option<u32>,
}

const CASES: [Case; 68] = [
    Case {
        bytes: b"",
        fault: None,
    },
    Case {
        bytes: b" ; only a comment",
        fault: None,
    },
    Case {
        bytes: b"(point)",
        fault: None,
    },
    Case {
        bytes: b"(point)\x0a(poin)\x0a",
        fault: Some(2),
    },
    Case {
        bytes: b"(point)\x0a\x0a; c\x0a(insert \"a\x0a",
        fault: Some(4),
    },
    Case {
        bytes: b"(insert \"a\\n\\t\\\\\\\"\\101\\377\xc3\xa9\xff\")",
        fault: None,
    },
    Case {
        bytes: b"(insert \"\\400\")",
        fault: Some(1),
    },
    Case {
        bytes: b"(insert \"\\q\")",
        fault: Some(1),
    },
    Case {
        bytes: b"(goto-char 1)\x0a(goto-char)\x0a",
        fault: Some(2),
    },
    Case {
        bytes: b"(setq a (point))\x0a(setq 'a (point))",
        fault: Some(2),
    },
    Case {
        bytes: b"(save-excursion (save-restriction (widen) (insert \"x\")))\x0a\x0a(",
        fault: Some(3),
    },
    Case {
        bytes: b"(when-eq a 'nil (point)) ; tail",
        fault: None,
    },
    Case {
        bytes: b"(add-hook 'before-change-functions 'f)\x0a(defhandler f (a b) (insert a))",
        fault: None,
    },
    Case {
        bytes: b"(defhandler default () (point))",
        fault: Some(1),
    },
    Case {
        bytes: b"(defhandler f ())(defhandler f ())\x0a",
        fault: Some(1),
    },
    Case {
        bytes: b"(point)\x0a(defhandler f (a a))",
        fault: Some(2),
    },
    Case {
        bytes: b"(defhandler f (a b c d e f g h))",
        fault: None,
    },
    Case {
        bytes: b"(defhandler f (a b c d e f g h i))",
        fault: Some(1),
    },
    Case {
        bytes: b"(insert '(a 1 \"s\" nil t (b c) ()))",
        fault: None,
    },
    Case {
        bytes: b"(insert '(a (1)))\x0a",
        fault: Some(1),
    },
    Case {
        bytes: b"(insert ' a)",
        fault: Some(1),
    },
    Case {
        bytes: b"(insert 't '() 'nil)",
        fault: None,
    },
    Case {
        bytes: b"(insert nil)x",
        fault: Some(1),
    },
    Case {
        bytes: b"(insert -5 -)",
        fault: Some(1),
    },
    Case {
        bytes: b"(point)(point)\x0a\x0a)",
        fault: Some(3),
    },
    Case {
        bytes: b"(save-excursion)",
        fault: None,
    },
    Case {
        bytes: b"(insert aaaaaaaaaaaaaaaaaaaaaaaaaaaaaaaaaaaaaaaaaaaaaaaaaaaaaaaaaaaaaaaaa)",
        fault: Some(1),
    },
    Case {
        bytes: b"(insert 1234567890123456789)",
        fault: Some(1),
    },
    Case {
        bytes: b"(get-buffer \"x\")\x0d\x0a\x09(inhibit-hooks (kill-buffer))\x0a(inhibit-hook)",
        fault: Some(3),
    },
    // A fault inside a form is told by the line in which that form begins at top level.
    Case {
        bytes: b"(insert \"a\")\n(goto-char 1)\n(point)\n(insert \"abc)\n",
        fault: Some(4),
    },
    Case {
        bytes: b"(point)\n(save-excursion\n(poin))",
        fault: Some(2),
    },
    Case {
        bytes: b"(point)\n\n(setq a\n(point)",
        fault: Some(3),
    },
    Case {
        bytes: b"(defhandler f (a)\n(foo))",
        fault: Some(1),
    },
    Case {
        bytes: b"(point)\n(when-eq a)",
        fault: Some(2),
    },
    Case {
        bytes: b"(point)\n(insert 'a 'b '(c\n",
        fault: Some(2),
    },
    Case {
        bytes: b"(point)\n(save-restriction (poin))",
        fault: Some(2),
    },
    Case {
        bytes: b"(point)\n\n(save-current-buffer\n(poin))",
        fault: Some(3),
    },
    Case {
        bytes: b"(point)\n(inhibit-hooks (poin))",
        fault: Some(2),
    },
    Case {
        bytes: b"(inhibit-read-only (set-buffer-read-only t)\n(buffer-read-only-p))\n(inhibit-read-only (poin))",
        fault: Some(3),
    },
    Case {
        bytes: b"(point)\n(setq a (poin))\n",
        fault: Some(2),
    },
    Case {
        bytes: b"(point)\n(when-eq 1 a\n(poin))",
        fault: Some(2),
    },
    Case {
        bytes: b"(point)\n(defhandler f (a)\n(setq b (poin)))",
        fault: Some(2),
    },
    Case {
        bytes: b"(point)\n(insert #(\"a\"\n0 2 ()))",
        fault: Some(2),
    },
    // Comments stand between any two words, and a carriage return doesn't end one.
    Case {
        bytes: b";a\n(;b\ninsert;c\n\"x\";d\n);e",
        fault: None,
    },
    Case {
        bytes: b"(setq;\na;\n(;\npoint;\n);\n)",
        fault: None,
    },
    Case {
        bytes: b"(insert '(;\na;\n) #(;\n\"a\";\n0;\n1;\n(;\na;\n1));\n)",
        fault: None,
    },
    Case {
        bytes: b"(point) ;a\x0d(foo)",
        fault: None,
    },
    Case {
        bytes: b"(insert ';\na)",
        fault: Some(1),
    },
    Case {
        bytes: b"(insert # (\"a\"))",
        fault: Some(1),
    },
    // Strings with properties: places rise, each run has a character, and no name stands twice.
    Case {
        bytes: b"(insert #(\"ab\"))",
        fault: None,
    },
    Case {
        bytes: b"(insert #(\"ab\" 0 2 (face bold)))",
        fault: None,
    },
    Case {
        bytes: b"(insert #(\"ab\" 0 1 (a (b c) d \"x\") 1 2 (e t f nil g -1)))",
        fault: None,
    },
    Case {
        bytes: b"(insert #(\"ab\" 0 3 (face bold)))",
        fault: Some(1),
    },
    Case {
        bytes: b"(insert #(\"ab\" 1 1 ()))",
        fault: Some(1),
    },
    Case {
        bytes: b"(insert #(\"ab\" 1 2 () 0 1 ()))",
        fault: Some(1),
    },
    Case {
        bytes: b"(insert #(\"ab\" 0 1 (a 1 a 2)))",
        fault: Some(1),
    },
    Case {
        bytes: b"(insert #(\"ab\" 0 1 (a nil a 2)))",
        fault: Some(1),
    },
    Case {
        bytes: b"(insert #(\"ab\" 0 1 (a)))",
        fault: Some(1),
    },
    Case {
        bytes: b"(insert #(\"ab\" 0 1 (a (b 1))))",
        fault: Some(1),
    },
    // Bytes that are no letters end a name, and octal digits are three.
    Case {
        bytes: b"(insert a\xff)",
        fault: Some(1),
    },
    Case {
        bytes: b"(insert \xc3\xa9)",
        fault: Some(1),
    },
    Case {
        bytes: b"(point)\n(defhandler f\xff ())",
        fault: Some(2),
    },
    Case {
        bytes: b"(setq a\x80 (point))",
        fault: Some(1),
    },
    Case {
        bytes: b"(insert 'a\xc3\xa9)",
        fault: Some(1),
    },
    Case {
        bytes: b"(point\0)",
        fault: Some(1),
    },
    Case {
        bytes: b"(insert \"\\48\")",
        fault: Some(1),
    },
    Case {
        bytes: b"(goto-char 123456789012345678)",
        fault: None,
    },
    Case {
        bytes: b"(insert aaaaaaaaaaaaaaaaaaaaaaaaaaaaaaaaaaaaaaaaaaaaaaaaaaaaaaaaaaaaaaaa)",
        fault: None,
    },
];

/// What is told is the fault of this line, or none. The number of bytes stands by both to tell the case.
fn is_told(rt: &impl Abort, alloc: Global, bytes: &[u8], fault: Option<u32>) {
    let found = read(alloc, bytes).err();
    let expected = fault.map(ScriptFault::Line);
    is(rt, (bytes.len(), found), (bytes.len(), expected));
}

#[test]
fn scripts_are_read_and_faults_told_by_their_lines(rt: HostRuntime) {
    for case in &CASES {
        is_told(&rt, rt.alloc(), case.bytes, case.fault);
    }
}

/// Puts a piece so often behind a text.
fn push(rt: &impl Abort, text: &mut String, piece: &str, count: usize) {
    for _ in 0..count {
        text.push_str(piece).expect(rt, "room");
    }
}

/// So many numbered definitions of registers, one a line.
fn definitions(rt: &impl Abort, alloc: Global, before: &str, count: u32, behind: &str) -> String {
    let mut text = String::new(alloc);
    for i in 0..count {
        let one = format!(in alloc; "{before}{i}{behind}").expect(rt, "room");
        push(rt, &mut text, &one, 1);
    }
    text
}

/// Numbered definitions and what stands behind them, with the line of its fault.
struct Numbered {
    before: &'static str,
    count: u32,
    behind: &'static str,
    last: &'static str,
    fault: Option<u32>,
}

/// Parameters are no registers.
const NUMBERED: [Numbered; 6] = [
    Numbered {
        before: "(setq r",
        count: 256,
        behind: " (point))\n",
        last: "",
        fault: None,
    },
    Numbered {
        before: "(setq r",
        count: 257,
        behind: " (point))\n",
        last: "",
        fault: Some(257),
    },
    Numbered {
        before: "(setq r",
        count: 256,
        behind: " (point))\n",
        last: "(defhandler f (p) (setq p (insert p r0)))",
        fault: None,
    },
    Numbered {
        before: "(setq r",
        count: 256,
        behind: " (point))\n",
        last: "(defhandler f (p) (insert p q))",
        fault: Some(257),
    },
    Numbered {
        before: "(defhandler h",
        count: 256,
        behind: " ())\n",
        last: "",
        fault: None,
    },
    Numbered {
        before: "(defhandler h",
        count: 257,
        behind: " ())\n",
        last: "",
        fault: Some(257),
    },
];

fn check_numbered(rt: &impl Abort, alloc: Global, row: &Numbered) {
    let mut text = definitions(rt, alloc, row.before, row.count, row.behind);
    push(rt, &mut text, row.last, 1);
    is_told(rt, alloc, text.as_bytes(), row.fault);
}

#[test]
fn at_most_256_handlers_and_registers_are_read(rt: HostRuntime) {
    for row in &NUMBERED {
        check_numbered(&rt, rt.alloc(), row);
    }
}

/// A front, a piece so often, and an end, with the line of its fault.
struct Repeated {
    front: &'static str,
    piece: &'static str,
    count: usize,
    end: &'static str,
    fault: Option<u32>,
}

/// What stands in front of the forms of a body.
const HEAD: &str = "(point)\n\n(defhandler f ()\n";

/// Arguments of a call, forms of a body, and bytes of a script.
const REPEATED: [Repeated; 10] = [
    Repeated {
        front: "(insert",
        piece: " 1",
        count: 64,
        end: ")",
        fault: None,
    },
    Repeated {
        front: "(insert",
        piece: " 1",
        count: 65,
        end: ")",
        fault: Some(1),
    },
    Repeated {
        front: HEAD,
        piece: "(point)",
        count: 256,
        end: ")",
        fault: None,
    },
    Repeated {
        front: HEAD,
        piece: "(point)",
        count: 257,
        end: ")",
        fault: Some(3),
    },
    Repeated {
        front: HEAD,
        piece: "(setq a (point))",
        count: 256,
        end: ")",
        fault: None,
    },
    Repeated {
        front: HEAD,
        piece: "(setq a (point))",
        count: 257,
        end: ")",
        fault: Some(3),
    },
    Repeated {
        front: HEAD,
        piece: "(save-excursion (point))",
        count: 128,
        end: ")",
        fault: None,
    },
    Repeated {
        front: HEAD,
        piece: "(save-excursion (point))",
        count: 128,
        end: "(point))",
        fault: Some(3),
    },
    Repeated {
        front: "",
        piece: " ",
        count: LONGEST_SCRIPT,
        end: "",
        fault: None,
    },
    Repeated {
        front: "",
        piece: " ",
        count: LONGEST_SCRIPT + 1,
        end: "",
        fault: Some(0),
    },
];

fn check_repeated(rt: &impl Abort, alloc: Global, row: &Repeated) {
    let mut text = String::new(alloc);
    push(rt, &mut text, row.front, 1);
    push(rt, &mut text, row.piece, row.count);
    push(rt, &mut text, row.end, 1);
    is_told(rt, alloc, text.as_bytes(), row.fault);
}

#[test]
fn one_argument_form_or_byte_beyond_the_limit_is_refused(rt: HostRuntime) {
    for row in &REPEATED {
        check_repeated(&rt, rt.alloc(), row);
    }
}

/// So many blocks inside one another.
fn nested(rt: &impl Abort, alloc: Global, depth: usize) -> String {
    let mut text = String::new(alloc);
    push(rt, &mut text, " (save-excursion", depth);
    push(rt, &mut text, ")", depth);
    text
}

#[test]
fn blocks_stand_in_one_another_16_deep_and_no_deeper(rt: HostRuntime) {
    let deepest = nested(&rt, rt.alloc(), 16);
    is_told(&rt, rt.alloc(), deepest.as_bytes(), None);
    let deeper = nested(&rt, rt.alloc(), 17);
    is_told(&rt, rt.alloc(), deeper.as_bytes(), Some(1));
}

fn script(rt: &impl Abort, alloc: Global, bytes: &[u8]) -> Script {
    read(alloc, bytes).expect(rt, "a script")
}

const NUMBERS: [(&str, Option<Sym>); 5] = [
    ("run", Some(Sym(6))),
    ("zeta", Some(Sym(17))),
    ("alpha", Some(Sym(18))),
    ("face", Some(Sym(19))),
    ("insert", None),
];

fn are_numbered(rt: &impl Abort, symbols: &Symbols) {
    is(rt, symbols.count(), 20);
    for (name, number) in &NUMBERS {
        is(rt, symbols.find(name), *number);
    }
}

/// The fixed names come first, and then all names in the order of their first places.
#[test]
fn names_are_numbered_in_the_order_of_their_first_places(rt: HostRuntime) {
    let script = script(
        &rt,
        rt.alloc(),
        b"(setq zeta (insert alpha 'run zeta 'face))",
    );
    are_numbered(&rt, &script.symbols);
}

/// The string that a call has for its only argument.
fn argument(call: &Call) -> Option<&Piece> {
    match call.args.as_slice() {
        [Arg::Const(value)] => value.string(),
        _ => None,
    }
}

/// The string that a script of one call has for its argument.
fn string<'a>(rt: &impl Abort, script: &'a Script) -> &'a Piece {
    let text = match script.forms.as_slice() {
        [Form::Do(call)] => argument(call),
        _ => None,
    };
    text.expect(rt, "a string")
}

/// Bytes of a string, and the codes of its characters. The code of a raw byte is 0x3FFF00 more than the byte.
struct Decoded {
    written: &'static [u8],
    codes: &'static [u32],
}

/// Escapes, a character of two bytes, and bytes that are part of none.
const ESCAPED: Decoded = Decoded {
    written: b"\\\"\\\\\\n\\t\\101\\200\\377\xc3\xa9\xff\xc3\\251",
    codes: &[
        '"' as u32,
        '\\' as u32,
        '\n' as u32,
        '\t' as u32,
        'A' as u32,
        0x3F_FF80,
        0x3F_FFFF,
        'é' as u32,
        0x3F_FFFF,
        0x3F_FFC3,
        0x3F_FFA9,
    ],
};

const DECODED: [Decoded; 20] = [
    Decoded {
        written: b"\\000\\177\x01\x7f",
        codes: &[0, 0x7F, 1, 0x7F],
    },
    Decoded {
        written: b"\xc2\x80\xdf\xbf",
        codes: &[0x80, 0x7FF],
    },
    Decoded {
        written: b"\xe0\xa0\x80\xed\x9f\xbf",
        codes: &[0x800, 0xD7FF],
    },
    Decoded {
        written: b"\xee\x80\x80\xef\xbf\xbf",
        codes: &[0xE000, 0xFFFF],
    },
    Decoded {
        written: b"\xf0\x90\x80\x80\xf4\x8f\xbf\xbf",
        codes: &[0x1_0000, 0x10_FFFF],
    },
    Decoded {
        written: b"\x80a",
        codes: &[0x3F_FF80, 0x61],
    },
    Decoded {
        written: b"\xbf\xc3",
        codes: &[0x3F_FFBF, 0x3F_FFC3],
    },
    Decoded {
        written: b"\xc0\x80",
        codes: &[0x3F_FFC0, 0x3F_FF80],
    },
    Decoded {
        written: b"\xc1\xbf",
        codes: &[0x3F_FFC1, 0x3F_FFBF],
    },
    Decoded {
        written: b"\xe0\x9f\xbf",
        codes: &[0x3F_FFE0, 0x3F_FF9F, 0x3F_FFBF],
    },
    Decoded {
        written: b"\xed\xa0\x80",
        codes: &[0x3F_FFED, 0x3F_FFA0, 0x3F_FF80],
    },
    Decoded {
        written: b"\xf0\x8f\xbf\xbf",
        codes: &[0x3F_FFF0, 0x3F_FF8F, 0x3F_FFBF, 0x3F_FFBF],
    },
    Decoded {
        written: b"\xf4\x90\x80\x80",
        codes: &[0x3F_FFF4, 0x3F_FF90, 0x3F_FF80, 0x3F_FF80],
    },
    Decoded {
        written: b"\xf5\x80",
        codes: &[0x3F_FFF5, 0x3F_FF80],
    },
    Decoded {
        written: b"\xfe\xff",
        codes: &[0x3F_FFFE, 0x3F_FFFF],
    },
    Decoded {
        written: b"\xe2A",
        codes: &[0x3F_FFE2, 0x41],
    },
    Decoded {
        written: b"\xe2\x82",
        codes: &[0x3F_FFE2, 0x3F_FF82],
    },
    Decoded {
        written: b"\xf0\x9f\x98\xe2\x82\xac",
        codes: &[0x3F_FFF0, 0x3F_FF9F, 0x3F_FF98, 0x20AC],
    },
    Decoded {
        written: b"\xe2\x82\\n\xac",
        codes: &[0x3F_FFE2, 0x3F_FF82, 10, 0x3F_FFAC],
    },
    Decoded {
        written: b"\xe2\\202\xac",
        codes: &[0x3F_FFE2, 0x3F_FF82, 0x3F_FFAC],
    },
];

/// The codes of the characters of a string.
fn codes(rt: &impl Abort, alloc: Global, text: &Piece) -> Vec<u32> {
    let mut codes = Vec::new(alloc);
    for i in 0..text.len() {
        codes.push(text.ch(i).code()).expect(rt, "room");
    }
    codes
}

/// A script that inserts the string of these bytes.
fn inserts(rt: &impl Abort, alloc: Global, written: &[u8]) -> Script {
    let mut bytes = b"(insert \"".to_vec(alloc).expect(rt, "room");
    bytes.extend_from_slice(written).expect(rt, "room");
    bytes.extend_from_slice(b"\")").expect(rt, "room");
    script(rt, alloc, bytes.as_slice())
}

fn has_codes(rt: &impl Abort, alloc: Global, script: &Script, expected: &[u32]) {
    let found = codes(rt, alloc, string(rt, script));
    is(rt, found.as_slice(), expected);
}

fn check_decoded(rt: &impl Abort, alloc: Global, row: &Decoded) {
    let script = inserts(rt, alloc, row.written);
    has_codes(rt, alloc, &script, row.codes);
}

#[test]
fn each_run_of_plain_bytes_is_decoded_by_itself(rt: HostRuntime) {
    check_decoded(&rt, rt.alloc(), &ESCAPED);
}

/// Bytes that are no well-formed UTF-8, each kind of them, are raw bytes, and so is a tail that an escape cuts off.
#[test]
fn bytes_that_are_no_utf_8_are_raw(rt: HostRuntime) {
    for row in &DECODED {
        check_decoded(&rt, rt.alloc(), row);
    }
}

/// How many properties a character has, and whether one of them is a face.
fn properties(rt: &impl Abort, text: &Piece, i: usize) -> (usize, bool) {
    assert!(rt; i < text.len());
    let set = text.props(i);
    (set.len(), set.get(Sym(17)).is_some())
}

fn have_properties(rt: &impl Abort, text: &Piece, expected: &[(usize, bool)]) {
    is(rt, text.len(), expected.len());
    for (i, of_one) in expected.iter().enumerate() {
        is(rt, properties(rt, text, i), *of_one);
    }
}

/// Properties stand by the number of the name; nil takes no place.
#[test]
fn a_string_has_the_properties_that_are_not_nil(rt: HostRuntime) {
    let bytes = b"(insert #(\"abc\" 1 2 (face bold gone nil run t)))";
    let script = script(&rt, rt.alloc(), bytes.as_slice());
    let expected = [(0, false), (2, true), (0, false)];
    have_properties(&rt, string(&rt, &script), expected.as_slice());
}

/// A long script is read in time that grows with its length, and the fault of its last line is told.
#[test]
fn the_fault_behind_30000_lines_is_told(rt: HostRuntime) {
    let alloc = rt.alloc();
    let mut text = definitions(&rt, alloc, "(when-eq a ", 30_000, " (goto-char 7))\n");
    is_told(&rt, alloc, text.as_bytes(), None);
    push(&rt, &mut text, "(when-eq a", 1);
    is_told(&rt, alloc, text.as_bytes(), Some(30_001));
}
