//! What runs: texts whose sizes and gaps lie at the edges of blocks, each kind of character, and refused memory.
ghost use Rattle.gap_text.specs.Text.{LiesIn};

use crate::checking::{holds, is};
use crate::lists;
use ek_types::{Ch, Chars, Mem};
use gap_text::Text;
use std::alloc::Global;
use std::process::Abort;
use text_pool::Pool;

const ALPHABET: &[u8; 26] = b"abcdefghijklmnopqrstuvwxyz";

/// The letters from a to z, over and over.
fn letters(alloc: Global, n: usize) -> Mem<Chars> {
    let mut text = Chars::new(alloc);
    for _ in 0..n / 26 {
        text.extend_bytes(ALPHABET)?;
    }
    text.extend_bytes(&ALPHABET[..n % 26])?;
    Ok(text)
}

fn at(rt: &impl Abort, pool: &Pool, text: &Text, i: usize) -> Ch
    requires { LiesIn pool.now text.now }
{
    assert!(rt; i < text.len());
    text.at(pool, i)
}

/// Letters go into a text that has room for them.
fn insert(rt: &impl Abort, pool: &mut Pool, text: &mut Text, i: usize, letters: &Chars)
    requires { LiesIn pool.old text.old }
    ensures { LiesIn pool.new text.new }
{
    assert!(rt; i <= text.len() && letters.len() <= text.spare());
    text.insert(pool, i, letters);
}

/// Letters go into a text, which gets room for them.
fn put_in(rt: &impl Abort, pool: &mut Pool, text: &mut Text, i: usize, letters: &Chars)
    requires { LiesIn pool.old text.old }
    ensures { LiesIn pool.new text.new }
{
    text.reserve(pool, letters.len()).expect(rt, "room");
    insert(rt, pool, text, i, letters);
}

fn take_out(rt: &impl Abort, pool: &mut Pool, text: &mut Text, from: usize, to: usize)
    requires { LiesIn pool.old text.old }
    ensures { LiesIn pool.new text.new }
{
    assert!(rt; from <= to && to <= text.len());
    text.delete(pool, from, to);
}

/// The text is these characters.
fn is_text(rt: &impl Abort, pool: &Pool, text: &Text, letters: &Chars)
    requires { LiesIn pool.now text.now }
{
    is(rt, text.len(), letters.len());
    for i in 0..letters.len() {
        is(rt, at(rt, pool, text, i), letters.at(i));
    }
}

/// What is copied out of the text is these characters.
fn is_copied(rt: &impl Abort, pool: &Pool, text: &Text, letters: &Chars)
    requires { LiesIn pool.now text.now }
{
    let copied = text.copy_out(pool, 0, text.len()).expect(rt, "a copy");
    is(rt, copied.len(), letters.len());
    holds(rt, copied.same(letters));
}

/// The places of the only text of a pool, and its spare ones, are those of the blocks.
fn fills_its_blocks(rt: &impl Abort, pool: &Pool, text: &Text) {
    let places = text.len().saturating_add(text.spare());
    is(rt, places, pool.live().saturating_mul(256));
}

/// A text of so many letters is put in, read, and taken out again.
fn keeps_letters(rt: &impl Abort, alloc: Global, n: usize) {
    let letters = letters(alloc, n).expect(rt, "letters");
    let mut pool = Pool::new(alloc);
    let mut text = Text::new(alloc);
    put_in(rt, &mut pool, &mut text, 0, &letters);
    is(rt, text.len(), n);
    fills_its_blocks(rt, &pool, &text);
    is_copied(rt, &pool, &text, &letters);
    take_out(rt, &mut pool, &mut text, 0, n);
    is(rt, text.len(), 0);
    text.release(&mut pool);
    is(rt, pool.live(), 0);
}

#[test]
fn a_text_of_each_size_is_kept(rt: HostRuntime) {
    keeps_letters(&rt, rt.alloc(), 0);
    keeps_letters(&rt, rt.alloc(), 255);
    keeps_letters(&rt, rt.alloc(), 256);
    keeps_letters(&rt, rt.alloc(), 257);
    keeps_letters(&rt, rt.alloc(), 1_000_000);
}

/// An `a` stands at a place, and the letters in front of it and behind it.
fn stands_among(rt: &impl Abort, pool: &Pool, text: &Text, letters: &Chars, place: usize)
    requires { LiesIn pool.now text.now }
{
    is(rt, at(rt, pool, text, place), Ch::Scalar('a'));
    for i in 0..letters.len() {
        let there = if i < place { i } else { i + 1 };
        is(rt, at(rt, pool, text, there), letters.at(i));
    }
}

/// One character is put in at a place among 600, and taken out again.
fn goes_in_at(rt: &impl Abort, alloc: Global, place: usize) {
    let letters = letters(alloc, 600).expect(rt, "letters");
    let one = self::letters(alloc, 1).expect(rt, "a letter");
    let mut pool = Pool::new(alloc);
    let mut text = Text::new(alloc);
    text.reserve(&mut pool, 601).expect(rt, "room");
    insert(rt, &mut pool, &mut text, 0, &letters);
    insert(rt, &mut pool, &mut text, place, &one);
    is(rt, text.len(), 601);
    stands_among(rt, &pool, &text, &letters, place);
    take_out(rt, &mut pool, &mut text, place, place.saturating_add(1));
    is_text(rt, &pool, &text, &letters);
    text.release(&mut pool);
}

#[test]
fn the_gap_goes_to_each_edge_of_a_block(rt: HostRuntime) {
    for place in [0, 1, 255, 256, 257, 511, 512, 600] {
        goes_in_at(&rt, rt.alloc(), place);
    }
}

/// A text of one character, made anew from its code.
fn from_code(rt: &impl Abort, alloc: Global, c: Ch) -> Chars {
    let again = Ch::from_code(c.code()).expect(rt, "a character");
    is(rt, again, c);
    let mut one = Chars::new(alloc);
    one.push(again).expect(rt, "a character");
    one
}

/// A character is kept as it is.
fn keeps(rt: &impl Abort, alloc: Global, c: Ch) {
    let one = from_code(rt, alloc, c);
    let mut pool = Pool::new(alloc);
    let mut text = Text::new(alloc);
    put_in(rt, &mut pool, &mut text, 0, &one);
    is_text(rt, &pool, &text, &one);
    text.release(&mut pool);
}

#[test]
fn raw_bytes_and_the_last_scalar_value_are_kept(rt: HostRuntime) {
    keeps(&rt, rt.alloc(), Ch::Raw(0x80));
    keeps(&rt, rt.alloc(), Ch::Raw(0xFF));
    keeps(&rt, rt.alloc(), Ch::Scalar('\0'));
    keeps(&rt, rt.alloc(), Ch::Scalar('\u{D7FF}'));
    keeps(&rt, rt.alloc(), Ch::Scalar('\u{E000}'));
    keeps(&rt, rt.alloc(), Ch::Scalar('\u{10FFFF}'));
}

#[test]
fn an_empty_text_gets_whole_blocks(rt: HostRuntime) {
    let mut pool = Pool::new(rt.alloc());
    let mut text = Text::new(rt.alloc());
    text.reserve(&mut pool, 300).expect(&rt, "room");
    is(&rt, text.len(), 0);
    holds(&rt, text.spare() >= 300);
    is(&rt, text.spare() % 256, 0);
    is(&rt, text.spare() / 256, pool.live());
    text.release(&mut pool);
}

/// A copy of the text is emptied and given back, if memory is there for it; the text stays.
fn empties_a_copy(rt: &impl Abort, pool: &mut Pool, text: &Text) -> bool
    requires { LiesIn pool.old text.now }
    ensures { LiesIn pool.new text.now }
{
    let Ok(mut copy) = text.copy(pool) else {
        return false;
    };
    let len = copy.len();
    is(rt, len, text.len());
    copy.delete(pool, 0, len);
    copy.release(pool);
    true
}

#[test]
fn a_copy_has_blocks_of_its_own(rt: HostRuntime) {
    let letters = letters(rt.alloc(), 300).expect(&rt, "letters");
    let mut pool = Pool::new(rt.alloc());
    let mut text = Text::new(rt.alloc());
    put_in(&rt, &mut pool, &mut text, 0, &letters);
    holds(&rt, empties_a_copy(&rt, &mut pool, &text));
    is(&rt, pool.live(), 2);
    is(&rt, text.len(), 300);
    is(
        &rt,
        at(&rt, &pool, &text, 299),
        lists::at(&rt, &letters, 299),
    );
    text.release(&mut pool);
}

/// Letters go into a text that has room for them, and stay where more memory is refused.
fn outlive_a_refusal(rt: &impl Abort, pool: &mut Pool, text: &mut Text, letters: &Chars)
    requires { LiesIn pool.old text.old }
    ensures { LiesIn pool.new text.new }
{
    insert(rt, pool, text, 0, letters);
    let refused = text.reserve(pool, 100_000).is_err();
    is(rt, refused, text.spare() < 100_000);
    let _copied = empties_a_copy(rt, pool, text);
    is(rt, text.len(), 300);
    is(rt, at(rt, pool, text, 299), lists::at(rt, letters, 299));
}

// Each allocation may fail here, by `rt try --test --fail-alloc N`: the test passes all the same.
#[test]
fn refused_memory_leaves_the_text(rt: HostRuntime) {
    let Ok(letters) = letters(rt.alloc(), 300) else {
        return;
    };
    let mut pool = Pool::new(rt.alloc());
    let mut text = Text::new(rt.alloc());
    if text.reserve(&mut pool, 300).is_ok() {
        outlive_a_refusal(&rt, &mut pool, &mut text, &letters);
    }
    text.release(&mut pool);
    is(&rt, pool.live(), 0);
}
