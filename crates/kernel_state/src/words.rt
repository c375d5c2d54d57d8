//! Texts as bytes: what is sent to a child, and the words of a command.
ghost use Rattle.std.specs.Prelude.{◌≡◌, [], true, drop, length, map, string_bytes, IfOk};
ghost use Rattle.std.specs.List.{list_all};
ghost use Rattle.editor_model.specs.Arguments.{arg, name_of};
ghost use Rattle.editor_model.specs.Values.{StartProcess};
ghost use Rattle.plain_machine.specs.Arguments.{encoded, is_plain, is_word};
ghost use Rattle.ek_types.specs.Listing.{items_of};
ghost use Rattle.ek_types.specs.Seen.{ch_of};
ghost use Rattle.ek_call.specs.Meaning.{view};
ghost use Rattle.kernel_steps.specs.Processes.{bytes_of, words_of};
ghost use Rattle.kernel_steps.specs.Waits.{Passes};
ghost use Rattle.kernel_state.specs.Meaning.{state_of};

use crate::kernel::KernelState;
use editor_prims::{arg, nil};
use ek_call::{Value, Values};
use ek_types::{Ch, Chars, Mem, Piece};
use kernel_steps::{Command, Program};
use std::alloc::Global;

/// The characters of a string; none where the value is no string.
pub(crate) fn name_of(alloc: Global, v: &Value) -> Mem<Chars>
    ensures { IfOk result (λ name. name.items ≡ name_of (view v.now)) }
{
    match v {
        Value::Str(text) => text.text().copy(),
        _ => Ok(Chars::new(alloc)),
    }
}

/// Whether a character can stand in a word of a command: it is neither the character 0 nor a raw byte.
fn is_plain(c: Ch) -> bool
    ensures { result ≡ is_plain (ch_of c, []) }
{
    match c {
        Ch::Scalar(c) => c != '\0',
        Ch::Raw(_) => false,
    }
}

/// Whether each character of a text can stand in a word.
fn are_plain(text: &Piece) -> bool
    ensures { result ≡ list_all is_plain text.now }
{
    for i in 0..text.len() {
        if !is_plain(text.ch(i)) {
            return false;
        }
    }
    true
}

/// Whether a value can be a word of a command.
pub(crate) fn is_word(v: &Value) -> bool
    ensures { result ≡ is_word (view v.now) }
{
    match v {
        Value::Str(text) => are_plain(text),
        _ => false,
    }
}

/// How many bytes a text is, coded in UTF-8 with raw bytes as they are.
pub(crate) fn encoded_length(text: &Piece) -> u128
    ensures { result ≡ length (encoded text.now) }
{
    let mut length = 0;
    for i in 0..text.len() {
        let mut room = [0u8; 4];
        length += text.ch(i).encode(&mut room) as u128;
    }
    length
}

/// The bytes of a text, coded in UTF-8 with raw bytes as they are.
fn encoded(alloc: Global, text: &Piece) -> Mem<Vec<u8>>
    ensures { IfOk result (λ bytes. bytes.items ≡ encoded text.now) }
{
    let mut bytes = Vec::with_capacity(alloc, text.len())?;
    for i in 0..text.len() {
        let mut room = [0u8; 4];
        let size = text.ch(i).encode(&mut room);
        bytes.extend_from_slice(&room[..size])?;
    }
    Ok(bytes)
}

/// The bytes of the text that is to be sent, the second argument.
pub(crate) fn bytes_given(kernel: &KernelState, args: &Values) -> Mem<Vec<u8>>
    ensures { IfOk result (λ bytes. bytes.items ≡ bytes_of (arg (map view (items_of args.now)) 1)) }
{
    let nil = nil();
    match arg(args, 1, &nil) {
        Value::Str(text) => encoded(kernel.alloc, text),
        _ => Ok(Vec::new(kernel.alloc)),
    }
}

/// The word that a text is.
fn word(alloc: Global, text: &Piece) -> Mem<String>
    requires { list_all is_plain text.now ≡ true }
    ensures { IfOk result (λ word. string_bytes word ≡ encoded text.now) }
{
    let mut word = String::new(alloc);
    for i in 0..text.len() {
        let Ch::Scalar(c) = text.ch(i) else {
            unreachable!()
        };
        word.push(c)?;
    }
    Ok(word)
}

/// The word that a value is.
fn word_of(alloc: Global, v: &Value) -> Mem<String>
    requires { is_word (view v.now) ≡ true }
    ensures { IfOk result (λ word. string_bytes word ≡ bytes_of (view v.now)) }
{
    let Value::Str(text) = v else { unreachable!() };
    word(alloc, text)
}

/// The words that some values are.
fn words(alloc: Global, values: &[Value]) -> Mem<Vec<String>>
    requires { list_all is_word (map view values.now) ≡ true }
    ensures { IfOk result (λ words. map string_bytes words.items ≡ map bytes_of (map view values.now)) }
{
    let mut words = Vec::new(alloc);
    for value in values {
        words.push(word_of(alloc, value)?)?;
    }
    Ok(words)
}

/// The words of a command behind its program.
fn all_words(alloc: Global, args: &Values) -> Mem<Vec<String>>
    requires { list_all is_word (drop 3 (map view (items_of args.now))) ≡ true }
    ensures { IfOk result (λ words. map string_bytes words.items ≡
        words_of (map view (items_of args.now))) }
{
    if args.len() <= 3 {
        return Ok(Vec::new(alloc));
    }
    words(alloc, &args.as_slice()[3..])
}

/// The program that a start asks for, and its arguments.
pub(crate) fn command<P: Program>(kernel: &KernelState, program: &P, args: &Values) -> Mem<Command>
    requires { Passes (P.meant program.now) (state_of kernel.now) StartProcess
        (map view (items_of args.now)) }
    ensures program { IfOk result (λ command. string_bytes command.program ≡
        bytes_of (arg (map view (items_of args.now)) 2)) }
    ensures words { IfOk result (λ command. map string_bytes command.words.items ≡
        words_of (map view (items_of args.now))) }
{
    let nil = nil();
    let words = all_words(kernel.alloc, args)?;
    Ok(Command {
        program: word_of(kernel.alloc, arg(args, 2, &nil))?,
        words,
    })
}
