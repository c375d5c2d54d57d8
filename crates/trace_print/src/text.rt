//! Characters in a name, and between quotes.
ghost use Rattle.std.specs.Prelude.{◌≡◌, ℕ, ◌+◌, ◌<◌, ◌≤◌, List, length, map, take, drop, flat_map};
ghost use Rattle.std.specs.Prelude.{slice_get, slice_index, Some, true, ◌++◌, ◌∷◌, []};
ghost use Rattle.text_model.specs.Characters.{Ch as Character, code};
ghost use Rattle.plain_machine.specs.Lines.{shown_ch, shown_code, quoted};
ghost use Rattle.ek_types.specs.Seen.{ch_of};
ghost use Rattle.sink_printer.specs.Printing.{Prints};

use crate::escapes::{is_plain, letter, plain, plain_code, show};
use ek_types::{Ch, Chars, Piece, Sink};
use sink_printer::Printer;

/// How many characters are written at once where each takes one byte or two.
const AT_ONCE: usize = 16;

/// How many bytes these take at most.
const ROOM: usize = 32;

/// Characters in order, counted from 0.
pub(crate) trait Characters {
    ghost chars: { Self → List Character };

    fn count(&self) -> usize
        ensures { result ≡ length (chars self.now) };

    fn character(&self, i: usize) -> Ch
        requires { i < length (chars self.now) }
        ensures { slice_get (chars self.now) i ≡ Some (ch_of result) };

    /// The codes of some characters from character `i` on: of one at least. They are lent.
    fn codes(&self, i: usize) -> &[u32]
        requires { i < length (chars self.now) }
        ensures some { 0 < length result.now }
        ensures codes { result.now ≡
            map code (take (length result.now) (drop i (chars self.now))) };
}

impl Characters for Chars {
    ghost chars = { λ c. c.items };

    fn count(&self) -> usize {
        self.len()
    }

    fn character(&self, i: usize) -> Ch {
        self.at(i)
    }

    fn codes(&self, i: usize) -> &[u32] {
        codes_from(self, i)
    }
}

impl Characters for Piece {
    ghost use Rattle.std.specs.Prelude.{map};

    ghost chars = { λ p. map (λ c. c.0) p };

    fn count(&self) -> usize {
        self.len()
    }

    fn character(&self, i: usize) -> Ch {
        self.ch(i)
    }

    fn codes(&self, i: usize) -> &[u32] {
        codes_from(self.text(), i)
    }
}

/// The codes of all characters of a list from character `i` on.
fn codes_from(chars: &Chars, i: usize) -> &[u32]
    requires { i < length chars.now.items }
    ensures some { 0 < length result.now }
    ensures codes { result.now ≡ map code (take (length result.now) (drop i chars.now.items)) }
{
    chars.codes().split_at(i).1
}

/// Whether as many characters as are written at once are shown as they are. Nothing is written meanwhile, so that a
/// processor can look at several codes at once.
fn are_plain(codes: &[u32]) -> bool
    requires { 16 ≤ length codes.now }
    ensures shown { result ≡ true → (n : ℕ) → n < 16 →
        slice_index codes.now n ∷ [] ≡ shown_code (slice_index codes.now n) }
    ensures low { result ≡ true → (n : ℕ) → n < 16 → slice_index codes.now n ≤ 127 }
{
    let mut all = true;
    for n in 0..AT_ONCE {
        all = all & is_plain(codes[n]);
    }
    all
}

/// Copies so many characters, which are shown as they are, to the front of `out`.
fn copy_plain(codes: &[u32], out: &mut [u8; ROOM])
    requires many { 16 ≤ length codes.now }
    requires shown { (n : ℕ) → n < 16 →
        slice_index codes.now n ∷ [] ≡ shown_code (slice_index codes.now n) }
    requires low { (n : ℕ) → n < 16 → slice_index codes.now n ≤ 127 }
    ensures { (chars : List Character) → codes.now ≡ map code chars →
        take 16 out.new ≡ flat_map shown_ch (take 16 chars) }
{
    for n in 0..AT_ONCE {
        out[n] = (codes[n] % 256) as u8;
    }
}

/// Writes what stands for the character of a code to `out` from place `at` on, where it is one of ASCII that takes one
/// byte or two, and says how many: none where it isn't.
fn put_short(code: u32, out: &mut [u8; ROOM], at: usize) -> usize
    requires { at + 2 ≤ 32 }
    ensures bytes { 0 < result → take (at + result) out.new ≡ take at out.old ++ shown_code code }
    ensures low { 0 < result → code ≤ 127 }
    ensures few { result ≤ 2 }
    ensures none { result ≡ 0 → out.new ≡ out.old }
{
    if let Some(byte) = plain_code(code) {
        out[at] = byte;
        return 1;
    }
    if let Some(byte) = letter(code) {
        out[at] = b'\\';
        out[at + 1] = byte;
        return 2;
    }
    0
}

/// Writes what stands for the first characters of some codes to the front of `out`, up to one that takes more than two
/// bytes or is none of ASCII. Says for how many characters, and how many bytes these are.
fn show_short(codes: &[u32], out: &mut [u8; ROOM]) -> (usize, usize)
    ensures bytes { (chars : List Character) → codes.now ≡ map code chars →
        take result.1 out.new ≡ flat_map shown_ch (take result.0 chars) }
    ensures fits { result.1 ≤ 32 }
    ensures range { result.0 ≤ length codes.now }
{
    let count = codes.len().min(AT_ONCE);
    let mut size = 0;
    for n in 0..count {
        let more = put_short(codes[n], out, size);
        if more == 0 {
            return (n, size);
        }
        size += more;
    }
    (count, size)
}

/// The same, where most characters are shown as they are.
fn show_front(codes: &[u32], out: &mut [u8; ROOM]) -> (usize, usize)
    ensures bytes { (chars : List Character) → codes.now ≡ map code chars →
        take result.1 out.new ≡ flat_map shown_ch (take result.0 chars) }
    ensures fits { result.1 ≤ 32 }
    ensures range { result.0 ≤ length codes.now }
{
    if codes.len() >= AT_ONCE && are_plain(codes) {
        copy_plain(codes, out);
        return (AT_ONCE, AT_ONCE);
    }
    show_short(codes, out)
}

fn shown<K: Sink>(out: &mut Printer<'_, K>, c: Ch)
    ensures { Prints K.state out.old out.new (shown_ch (ch_of c)) }
{
    match plain(c) {
        Some(byte) => out.put_byte(byte),
        None => encoded(out, c),
    }
}

/// Writes what stands for a character, however many bytes it is.
fn encoded<K: Sink>(out: &mut Printer<'_, K>, c: Ch)
    ensures { Prints K.state out.old out.new (shown_ch (ch_of c)) }
{
    let mut bytes = [0u8; 4];
    let size = show(c, &mut bytes);
    out.put(&bytes[..size]);
}

/// Writes what stands for the characters of some codes, up to the first that is shown as it is or is no scalar value,
/// and says for how many.
fn scalars<K: Sink>(out: &mut Printer<'_, K>, codes: &[u32]) -> usize
    ensures prints { (chars : List Character) → codes.now ≡ map code chars →
        Prints K.state out.old out.new (flat_map shown_ch (take result chars)) }
    ensures range { result ≤ length codes.now }
{
    for n in 0..codes.len() {
        if is_plain(codes[n]) {
            return n;
        }
        match char::from_u32(codes[n]) {
            Some(scalar) => shown(out, Ch::Scalar(scalar)),
            None => return n,
        }
    }
    codes.len()
}

/// Writes what stands for some characters from character `i` on, for one at least, and says for how many.
fn some_characters<K: Sink, T: Characters>(out: &mut Printer<'_, K>, text: &T, i: usize) -> usize
    requires { i < length (T.chars text.now) }
    ensures prints { Prints K.state out.old out.new
        (flat_map shown_ch (take result (drop i (T.chars text.now)))) }
    ensures some { 0 < result }
    ensures range { i + result ≤ length (T.chars text.now) }
{
    let codes = text.codes(i);
    let mut bytes = [0u8; ROOM];
    let (count, size) = show_front(codes, &mut bytes);
    if count > 0 {
        out.put(&bytes[..size]);
        return count;
    }
    let others = scalars(out, codes);
    if others > 0 {
        return others;
    }
    shown(out, text.character(i));
    1
}

/// Writes what stands for the characters of a text.
pub(crate) fn unquoted<K: Sink, T: Characters>(out: &mut Printer<'_, K>, text: &T)
    ensures { Prints K.state out.old out.new (flat_map shown_ch (T.chars text.now)) }
{
    let mut i = 0;
    while i < text.count() {
        i += some_characters(out, text, i);
    }
}

/// Writes the characters of a text between quotes.
pub(crate) fn quoted<K: Sink, T: Characters>(out: &mut Printer<'_, K>, text: &T)
    ensures { Prints K.state out.old out.new (quoted (T.chars text.now)) }
{
    out.put_byte(b'"');
    unquoted(out, text);
    out.put_byte(b'"');
}
