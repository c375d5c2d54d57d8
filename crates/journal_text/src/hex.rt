//! Bytes in hexadecimal digits, and texts and words of these.
ghost use Rattle.std.specs.Prelude.{◌≡◌, ◌≤◌, ◌<◌, ◌+◌, ◌*◌, ◌++◌, true, length, option_map, IfOk};
ghost use Rattle.std.specs.List.{list_all, prefix_len};
ghost use Rattle.std.specs.Str.{is_utf8};
ghost use Rattle.ek_types.specs.Listing.{items_of, spare_of};
ghost use Rattle.host_link.specs.Meaning.{words_of};
ghost use Rattle.journal_text.specs.Allowed.{has_no_zero};
ghost use Rattle.journal_text.specs.Reading.{is_hex, hex_value, are_pairs, unhex, hex_at, is_text};
ghost use Rattle.journal_text.specs.Reading.{text_at, word_at, led_word_at, words_at};

use crate::pieces::behind;
use ek_types::{ListOf, Mem};
use host_link::{ByteList, WordList};
use std::alloc::Global;

fn is_hex(c: u8) -> bool
    ensures { result ≡ is_hex c }
{
    c.is_ascii_digit() || (b'a' <= c && c <= b'f')
}

fn hex_len(bytes: &[u8]) -> usize
    ensures exact { result ≡ prefix_len is_hex bytes.now }
    ensures within { result ≤ length bytes.now }
{
    bytes.iter().take_while(|c| is_hex(**c)).count()
}

fn hex_value(c: u8) -> u8
    requires { is_hex c ≡ true }
    ensures value { result ≡ hex_value c }
    ensures small { result < 16 }
{
    if c <= b'9' { c - b'0' } else { c - (b'a' - 10) }
}

/// Whether there is an even number of digits.
fn are_pairs(digits: &[u8]) -> bool
    ensures { result ≡ are_pairs digits.now }
{
    digits.len() % 2 == 0
}

/// Puts the bytes of some digits behind those of a list, with no memory taken.
fn fill(list: &mut ByteList, digits: &[u8])
    requires hex { list_all is_hex digits.now ≡ true }
    requires spare { length digits.now ≤ 2 * spare_of list.old }
    ensures { items_of list.new ≡ items_of list.old ++ unhex digits.now }
{
    let mut rest = digits;
    'pairs: while let [high, low, more @ ..] = rest {
        list.push_spare(16 * hex_value(*high) + hex_value(*low));
        rest = more;
    }
}

/// One or more bytes in hexadecimal digits, and what follows them.
pub(crate) fn hex(alloc: Global, bytes: &[u8]) -> Mem<Option<(ByteList, &[u8])>>
    ensures { IfOk result (λ o. option_map (λ r. (items_of r.0, r.1.now)) o ≡ hex_at bytes.now) }
{
    let (digits, rest) = bytes.split_at(hex_len(bytes));
    if digits.len() < 2 || !are_pairs(digits) {
        return Ok(None);
    }
    let mut list = ListOf::new(alloc);
    list.reserve(digits.len() / 2)?;
    fill(&mut list, digits);
    Ok(Some((list, rest)))
}

fn has_no_zero(bytes: &[u8]) -> bool
    ensures { result ≡ has_no_zero bytes.now }
{
    bytes.iter().all(|b| *b != 0)
}

fn is_utf8(bytes: &[u8]) -> bool
    ensures { result ≡ is_utf8 bytes.now }
{
    std::str::from_utf8(bytes).is_ok()
}

/// Whether bytes are UTF-8 without the character 0.
fn is_text(bytes: &[u8]) -> bool
    ensures { result ≡ is_text bytes.now }
{
    is_utf8(bytes) && has_no_zero(bytes)
}

/// A text in hexadecimal digits, and what follows it.
pub(crate) fn text(alloc: Global, bytes: &[u8]) -> Mem<Option<(ByteList, &[u8])>>
    ensures { IfOk result (λ o. option_map (λ r. (items_of r.0, r.1.now)) o ≡ text_at bytes.now) }
{
    let Some((text, rest)) = hex(alloc, bytes)? else {
        return Ok(None);
    };
    if is_text(text.as_slice()) {
        Ok(Some((text, rest)))
    } else {
        Ok(None)
    }
}

/// An argument, and what follows it.
fn word(alloc: Global, bytes: &[u8]) -> Mem<Option<(ByteList, &[u8])>>
    ensures { IfOk result (λ o. option_map (λ r. (items_of r.0, r.1.now)) o ≡ word_at bytes.now) }
{
    match behind(b"-", bytes) {
        Some(rest) => Ok(Some((ListOf::new(alloc), rest))),
        None => text(alloc, bytes),
    }
}

/// A blank with an argument, and what follows it.
fn led_word(alloc: Global, bytes: &[u8]) -> Mem<Option<(ByteList, &[u8])>>
    ensures { IfOk result (λ o. option_map (λ r. (items_of r.0, r.1.now)) o ≡ led_word_at bytes.now) }
{
    match behind(b" ", bytes) {
        Some(rest) => word(alloc, rest),
        None => Ok(None),
    }
}

/// Arguments up to an arrow, and what follows it.
pub(crate) fn words(alloc: Global, bytes: &[u8]) -> Mem<Option<(WordList, &[u8])>>
    ensures { IfOk result (λ o. option_map (λ r. (words_of r.0, r.1.now)) o ≡ words_at bytes.now) }
{
    let mut words = ListOf::new(alloc);
    let mut rest = bytes;
    'words: loop {
        if let Some(behind_arrow) = behind(b" -> ", rest) {
            return Ok(Some((words, behind_arrow)));
        }
        let Some((word, behind_word)) = led_word(alloc, rest)? else {
            return Ok(None);
        };
        words.push(word)?;
        rest = behind_word;
    }
}
