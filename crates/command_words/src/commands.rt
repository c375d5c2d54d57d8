//! What the words of the command line ask for.
ghost use Rattle.std.specs.Prelude.{◌≡◌, map, string_bytes};
ghost use Rattle.command_words.specs.Commands.{command_alone, command_of};

use crate::session_words::{SessionWords, session_of};
use crate::words::drill_of;

/// What the words behind the program's name ask for.
#[derive(Drop)]
pub enum Command<'a> {
    /// `run` alone.
    Run,
    /// `record` alone.
    Record,
    /// `replay` alone.
    Replay,
    /// `check` alone.
    Check,
    /// `view` alone.
    View,
    /// `drill` and a number of one to four digits, which is this one.
    Drill(u32),
    /// `session` with a number of restarts, a program and its words, that want this.
    Session(SessionWords<'a>),
}

/// What the words behind the program's name ask for, where the program knows them. It takes no memory.
pub fn command_of(words: &[String]) -> Option<Command<'_>>
    ensures { result ≡ command_of (map string_bytes words.now) }
{
    match words {
        [word] => command_alone(word.as_str()),
        [_, _] => Some(Command::Drill(drill_of(words)?)),
        _ => Some(Command::Session(session_of(words)?)),
    }
}

/// What one word alone asks for.
fn command_alone<'a>(word: &str) -> Option<Command<'a>>
    ensures { result ≡ command_alone word.now }
{
    match word {
        "run" => Some(Command::Run),
        "record" => Some(Command::Record),
        "replay" => Some(Command::Replay),
        "check" => Some(Command::Check),
        "view" => Some(Command::View),
        _ => None,
    }
}
