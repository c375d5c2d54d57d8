//! The words of a session's child.
ghost use Rattle.std.specs.Prelude.{◌≡◌, map, string_bytes, IfOk};
ghost use Rattle.text_model.specs.Decoding.{all_characters};
ghost use Rattle.ek_call.specs.Meaning.{view};
ghost use Rattle.line_session.specs.Script.{word_value, command_of};
ghost use Rattle.line_session.specs.Replies.{values_of};

use crate::asking::ascii;
use ek_call::{Value, Values};
use ek_types::{Chars, ListOf, Mem, Piece};
use std::alloc::Global;
use utf8_stream::Decoder;

/// The characters of a word.
fn decoded(alloc: Global, word: &[u8]) -> Mem<Chars>
    ensures { IfOk result (λ text. text.items ≡ all_characters word.now) }
{
    let mut text = Chars::new(alloc);
    let mut decoder = Decoder::new();
    text.reserve(word.len())?;
    decoder.feed(word, &mut text);
    text.reserve(decoder.held().len())?;
    decoder.finish(&mut text);
    Ok(text)
}

/// A word as a string.
fn word_value(alloc: Global, word: &str) -> Mem<Value>
    ensures { IfOk result (λ v. view v ≡ word_value word.now) }
{
    let text = decoded(alloc, word.as_bytes())?;
    Ok(Value::Str(Piece::plain(alloc, text)?))
}

/// The arguments of each start of the child: the name of the process and that of its buffer, and then the program and
/// its words.
pub(crate) fn command(alloc: Global, program: &str, args: &[String]) -> Mem<Values>
    ensures { IfOk result (λ values. values_of values ≡
        command_of program.now (map string_bytes args.now)) }
{
    let mut command = ListOf::new(alloc);
    command.push(ascii(alloc, b"session")?)?;
    command.push(ascii(alloc, b"*session*")?)?;
    command.push(word_value(alloc, program)?)?;
    for i in 0..args.len() {
        command.push(word_value(alloc, args[i].as_str())?)?;
    }
    Ok(command)
}
