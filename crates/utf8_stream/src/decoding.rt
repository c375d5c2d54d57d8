//! Decoding of bytes that lie at hand, up to what the next bytes may still change.
ghost use Rattle.std.specs.Prelude.{◌≡◌, ℕ, ◌+◌, ◌<◌, ◌≤◌, ◌++◌, length, map, slice_index, true, false};
ghost use Rattle.text_model.specs.Codings.{Utf8, Utf8Dos, Latin1, decoded, undecoded};
ghost use Rattle.text_model.specs.Characters.{Raw};
ghost use Rattle.utf8_stream.specs.Codings.{coding_of};
ghost use Rattle.utf8_stream.specs.Returns.{IsSplit, return_before};
ghost use Rattle.utf8_stream.specs.Steps.{Decodes};

use crate::coding::Coding;
use crate::sequence::{First, read_first};
use ek_types::{Ch, Chars};
use memchr::memchr;

/// How many bytes are tested at once, and put behind the others at once where they are ASCII: a block.
const AT_ONCE: usize = 16;

/// How many characters are decoded one by one before a block is tested again.
const FEW: usize = 32;

/// Appends the characters of the bytes without those that the next bytes may still change, and gives the bytes left out.
pub(crate) fn open<'a>(coding: Coding, bytes: &'a [u8], out: &mut Chars) -> &'a [u8]
    requires { length bytes.now ≤ out.old.spare }
    ensures items { out.new.items ≡ out.old.items ++ decoded (coding_of coding) bytes.now }
    ensures spare { out.new.spare + length (decoded (coding_of coding) bytes.now) ≡ out.old.spare }
    ensures tail { result.now ≡ undecoded (coding_of coding) bytes.now }
    ensures closed { undecoded (coding_of coding) result.now ≡ result.now }
    ensures short { length result.now ≤ 3 }
{
    match coding {
        Coding::Utf8 => open_utf8(bytes, out),
        Coding::Utf8Dos => open_dos(bytes, out),
        Coding::Latin1 => open_latin1(bytes, out),
    }
}

fn open_utf8<'a>(bytes: &'a [u8], out: &mut Chars) -> &'a [u8]
    requires { length bytes.now ≤ out.old.spare }
    ensures items { out.new.items ≡ out.old.items ++ decoded Utf8 bytes.now }
    ensures spare { out.new.spare + length (decoded Utf8 bytes.now) ≡ out.old.spare }
    ensures tail { result.now ≡ undecoded Utf8 bytes.now }
    ensures closed { undecoded Utf8 result.now ≡ result.now }
    ensures short { length result.now ≤ 3 }
{
    let mut rest = bytes;
    loop {
        rest = put_ascii(rest, out);
        let (behind, ends) = put_few(rest, out);
        rest = behind;
        if ends {
            return rest;
        }
    }
}

/// Appends the characters of the whole blocks of ASCII at the front, and gives the bytes behind these.
fn put_ascii<'a>(bytes: &'a [u8], out: &mut Chars) -> &'a [u8]
    requires { length bytes.now ≤ out.old.spare }
    ensures { Decodes out.old out.new bytes.now result.now }
{
    let count = count_ascii(bytes);
    if count == 0 {
        return bytes;
    }
    out.extend_bytes_spare(&bytes[..count]);
    &bytes[count..]
}

/// How many bytes the whole blocks of ASCII at the front have.
fn count_ascii(bytes: &[u8]) -> usize
    ensures range { result ≤ length bytes.now }
    ensures ascii { (k : ℕ) → k < result → slice_index bytes.now k < 0x80 }
{
    let mut count = 0;
    while bytes.len() - count >= AT_ONCE && is_ascii(bytes, count) {
        count += AT_ONCE;
    }
    count
}

/// Whether a block is ASCII. It is tested with no branch, so that the compiler can test many bytes at once.
fn is_ascii(bytes: &[u8], start: usize) -> bool
    requires { start + 16 ≤ length bytes.now }
    ensures { result ≡ true → (k : ℕ) → start ≤ k → k < start + 16 → slice_index bytes.now k < 0x80 }
{
    let mut all = true;
    for n in start..start + AT_ONCE {
        all = all & (bytes[n] < 0x80);
    }
    all
}

/// Appends a few characters one by one. Gives the bytes behind them, and whether these begin with none.
fn put_few<'a>(bytes: &'a [u8], out: &mut Chars) -> (&'a [u8], bool)
    requires { length bytes.now ≤ out.old.spare }
    ensures decodes { Decodes out.old out.new bytes.now result.0.now }
    ensures closed { result.1 ≡ true → undecoded Utf8 result.0.now ≡ result.0.now }
    ensures short { result.1 ≡ true → length result.0.now ≤ 3 }
    ensures some { result.1 ≡ false → length result.0.now < length bytes.now }
{
    let mut rest = bytes;
    for n in 0..FEW {
        if rest.is_empty() {
            return (rest, true);
        }
        match read_first(rest) {
            First::Whole(c, count) => {
                out.push_spare(Ch::Scalar(c));
                rest = &rest[count..];
            }
            First::Part => return (rest, true),
            First::Neither => {
                out.push_spare(Ch::Raw(rest[0]));
                rest = &rest[1..];
            }
        }
    }
    (rest, false)
}

// It isn't put into `open`, which stays short enough to be put into its callers' loops.
#[inline(never)]
fn open_dos<'a>(bytes: &'a [u8], out: &mut Chars) -> &'a [u8]
    requires { length bytes.now ≤ out.old.spare }
    ensures items { out.new.items ≡ out.old.items ++ decoded Utf8Dos bytes.now }
    ensures spare { out.new.spare + length (decoded Utf8Dos bytes.now) ≡ out.old.spare }
    ensures tail { result.now ≡ undecoded Utf8Dos bytes.now }
    ensures closed { undecoded Utf8Dos result.now ≡ result.now }
    ensures short { length result.now ≤ 3 }
{
    let mut rest = bytes;
    'lines: loop {
        let (line, end) = split_at_return(rest);
        let part = open_utf8(line, out);
        if end.is_empty() {
            return part;
        }
        put_raw(part, out);
        if end.len() == 1 {
            return end;
        }
        put_unless_feed(&end[1..], out);
        rest = &end[1..];
    }
}

/// The bytes before the first carriage return, and those from it on: none where there is no carriage return.
fn split_at_return(bytes: &[u8]) -> (&[u8], &[u8])
    ensures { IsSplit bytes.now result.0.now result.1.now }
{
    let place = memchr(b'\r', bytes).unwrap_or(bytes.len());
    bytes.split_at(place)
}

/// Appends the bytes of a sequence that isn't whole as raw bytes.
pub(crate) fn put_raw(part: &[u8], out: &mut Chars)
    requires room { length part.now ≤ out.old.spare }
    requires part { undecoded Utf8 part.now ≡ part.now }
    ensures items { out.new.items ≡ out.old.items ++ map Raw part.now }
    ensures spare { out.new.spare + length part.now ≡ out.old.spare }
{
    for byte in part {
        out.push_spare(Ch::Raw(*byte));
    }
}

/// Appends a carriage return, unless a line feed is the next byte.
fn put_unless_feed(next: &[u8], out: &mut Chars)
    requires { 1 ≤ out.old.spare }
    ensures items { out.new.items ≡ out.old.items ++ return_before next.now }
    ensures spare { out.new.spare + length (return_before next.now) ≡ out.old.spare }
{
    if next.is_empty() || next[0] != b'\n' {
        out.push_spare(Ch::Scalar('\r'));
    }
}

fn open_latin1<'a>(bytes: &'a [u8], out: &mut Chars) -> &'a [u8]
    requires { length bytes.now ≤ out.old.spare }
    ensures items { out.new.items ≡ out.old.items ++ decoded Latin1 bytes.now }
    ensures spare { out.new.spare + length (decoded Latin1 bytes.now) ≡ out.old.spare }
    ensures tail { result.now ≡ undecoded Latin1 bytes.now }
    ensures closed { undecoded Latin1 result.now ≡ result.now }
    ensures short { length result.now ≤ 3 }
{
    out.extend_bytes_spare(bytes);
    &bytes[bytes.len()..]
}
