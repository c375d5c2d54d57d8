//! Asks that are made, beside those of a list.
ghost use Rattle.std.specs.Prelude.{◌≡◌, ◌≢◌, map, string_bytes, IfOk};
ghost use Rattle.std.specs.Prelude.{MatchBool};
ghost use Rattle.plain_machine.specs.Exchanges.{Spawn};
ghost use Rattle.host_link.specs.Meaning.{ask_of, words_of};

use ek_types::Mem;
use host_link::{Ask, WordList, list_of, words};
use std::alloc::Global;

/// The ask to start a program.
pub(crate) fn spawn_ask(alloc: Global, program: &str, args: &[String]) -> Mem<Ask>
    ensures { IfOk result (λ ask. ask_of ask ≡ Spawn program.now (map string_bytes args.now)) }
{
    let program = list_of(alloc, program.as_bytes())?;
    Ok(Ask::Spawn(program, words(alloc, args)?))
}

fn same_bytes(a: &[u8], b: &[u8]) -> bool
    ensures { MatchBool result (a.now ≡ b.now) (a.now ≢ b.now) }
{
    a == b
}

fn same_words(a: &WordList, b: &WordList) -> bool
    ensures { MatchBool result (words_of a.now ≡ words_of b.now) (words_of a.now ≢ words_of b.now) }
{
    if a.len() != b.len() {
        return false;
    }
    'words: for i in 0..a.len() {
        if !same_bytes(a.at(i).as_slice(), b.at(i).as_slice()) {
            return false;
        }
    }
    true
}

/// Whether two asks are the same.
pub(crate) fn same_ask(a: &Ask, b: &Ask) -> bool
    ensures { MatchBool result (ask_of a.now ≡ ask_of b.now) (ask_of a.now ≢ ask_of b.now) }
{
    match (a, b) {
        (Ask::Spawn(program, args), Ask::Spawn(other, others)) => {
            same_bytes(program.as_slice(), other.as_slice()) && same_words(args, others)
        }
        (Ask::Read(child), Ask::Read(other)) => child == other,
        (Ask::End(child), Ask::End(other)) => child == other,
        (Ask::Send(child, bytes), Ask::Send(other, others)) => {
            child == other && same_bytes(bytes.as_slice(), others.as_slice())
        }
        (Ask::Close(child), Ask::Close(other)) => child == other,
        (Ask::Kill(child), Ask::Kill(other)) => child == other,
        _ => false,
    }
}
