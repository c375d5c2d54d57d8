//! What a sentinel is told (GNU Emacs Lisp Reference Manual, Sentinels).
ghost use Rattle.std.specs.Prelude.{◌≡◌, ◌≢◌, pos, ◌+◌, ◌≤◌, ◌++◌, length, map};
ghost use Rattle.std.specs.Fmt.{signed_decimal};
ghost use Rattle.text_model.specs.Characters.{Scalar};
ghost use Rattle.plain_machine.specs.Waits.{exit_text};
ghost use Rattle.handler_run.specs.Answers.{longest_told, told_of};

use ek_types::Chars;
use host_link::Ended;
use itoa::Buffer;

/// The most characters that a sentinel is told: those of the smallest exit code.
pub(crate) const LONGEST_TOLD: usize = 40;

/// Puts ASCII behind other characters, with no memory taken.
fn put_ascii(text: &mut Chars, words: &str)
    requires { length words.now ≤ text.old.spare }
    ensures items { text.new.items ≡ text.old.items ++ map Scalar words.now }
    ensures spare { text.new.spare + length words.now ≡ text.old.spare }
{
    text.extend_bytes_spare(words.as_bytes());
}

/// Puts a number in decimal behind other characters, with no memory taken.
fn put_number(text: &mut Chars, n: i32)
    requires { 11 ≤ text.old.spare }
    ensures items { text.new.items ≡ text.old.items ++ map Scalar (signed_decimal n) }
    ensures spare { text.old.spare ≤ text.new.spare + 11 }
{
    put_ascii(text, Buffer::new().format(n));
}

/// Puts what a sentinel is told of an exit code but 0, with no memory taken.
fn put_exit(text: &mut Chars, code: i32)
    requires room { longest_told ≤ text.old.spare }
    requires code { code ≢ pos 0 }
    ensures { text.new.items ≡ text.old.items ++ map Scalar (exit_text code) }
{
    put_ascii(text, "exited abnormally with code ");
    put_number(text, code);
    put_ascii(text, "\n");
}

/// Puts what a sentinel is told of an end, with no memory taken.
pub(crate) fn put_told(text: &mut Chars, how: &Ended)
    requires { longest_told ≤ text.old.spare }
    ensures { text.new.items ≡ text.old.items ++ map Scalar (told_of how.now) }
{
    match how {
        Ended::Code(0) => put_ascii(text, "finished\n"),
        Ended::Code(code) => put_exit(text, *code),
        Ended::Signal => put_ascii(text, "killed\n"),
        Ended::Failed => put_ascii(text, "failed\n"),
        Ended::Running => {}
    }
}
