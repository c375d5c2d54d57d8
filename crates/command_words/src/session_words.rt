//! The words of a line session.
ghost use Rattle.std.specs.Prelude.{◌≡◌, ◌∷◌, map, string_bytes};
ghost use Rattle.std.specs.List.{list_all};
ghost use Rattle.command_words.specs.SessionWords.{is_limit, is_given, is_command, session_of};

use crate::words::{are_digits, value};
use std::marker::Model;

/// What the words of a session want. Those of a command line want at most 255 restarts, a program that isn't empty, and
/// at most 61 words for it, none of which has a code 0.
#[derive(Drop)]
pub struct SessionWords<'a> {
    /// How often the program may be restarted.
    pub limit: u32,
    /// The program, by its name.
    pub program: &'a str,
    /// The words that it is given.
    pub args: &'a [String],
}

impl<'a> Model for SessionWords<'a> {
    ghost use Rattle.std.specs.Prelude.{map, string_bytes};
    ghost use Rattle.command_words.specs.SessionWords as meaning;

    ghost Value = { meaning.SessionWords };

    ghost view = { λ w. record {
      limit = w.limit;
      program = w.program.now;
      args = map string_bytes w.args.now;
    } };
}

/// What the words behind the program's name want, where they are those of a session.
pub(crate) fn session_of(words: &[String]) -> Option<SessionWords<'_>>
    ensures { result ≡ session_of (map string_bytes words.now) }
{
    match words {
        [word, number, program, args @ ..] => in_parts(
            word.as_str(),
            number.as_str(),
            program.as_str(),
            args,
        ),
        _ => None,
    }
}

/// What four parts of the words want.
fn in_parts<'a>(
    word: &str,
    number: &str,
    program: &'a str,
    args: &'a [String],
) -> Option<SessionWords<'a>>
    ensures { result ≡
        session_of (word.now ∷ number.now ∷ program.now ∷ map string_bytes args.now) }
{
    if word == "session" && is_limit(number.as_bytes()) && is_command(program.as_bytes(), args) {
        Some(SessionWords {
            limit: value(number.as_bytes()),
            program,
            args,
        })
    } else {
        None
    }
}

/// Whether a word is a number of one to three digits that is at most 255.
fn is_limit(word: &[u8]) -> bool
    ensures { result ≡ is_limit word.now }
{
    are_digits(word) && 1 <= word.len() && word.len() <= 3 && value(word) <= 255
}

/// Whether a child can be started by this program and these words.
fn is_command(program: &[u8], args: &[String]) -> bool
    ensures { result ≡ is_command program.now (map string_bytes args.now) }
{
    !program.is_empty() && args.len() <= 61 && is_given(program) && are_given(args)
}

/// Whether a word has no code 0, so that a child can be given it.
fn is_given(word: &[u8]) -> bool
    ensures { result ≡ is_given word.now }
{
    word.iter().all(|c| *c != 0)
}

/// Whether all words are such.
fn are_given(words: &[String]) -> bool
    ensures { result ≡ list_all is_given (map string_bytes words.now) }
{
    words.iter().all(|word| is_given(word.as_bytes()))
}
