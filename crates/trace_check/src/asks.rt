//! Whether what a step asks is what the journal has next, and whether it may be answered so.
ghost use Rattle.std.specs.Prelude.{◌≡◌, map, option_map, string_bytes};
ghost use Rattle.plain_machine.specs.Run.{same_ask, same_bytes};
ghost use Rattle.text_model.specs.Properties.{same_list};
ghost use Rattle.host_link.specs.Meaning.{answer_of, ask_of, exchange_of, words_of};
ghost use Rattle.trace_check.specs.Answers.{may_end, may_kill, may_read};
ghost use Rattle.trace_check.specs.Questions.{Meets, allows, asked};

use crate::turn::Done;
use ek_types::limits::MOST_READ;
use host_link::{Answer, Ask, Exchange, WordList};
use kernel_steps::Command;

/// What a step asks.
#[derive(Clone, Copy)]
pub(crate) enum Question<'a> {
    Spawn(&'a Command),
    Read(u32),
    End(u32),
    Send(u32, &'a [u8]),
    Close(u32),
    Kill(u32),
}

fn are_bytes(a: &[u8], b: &[u8]) -> bool
    ensures { result ≡ same_bytes a.now b.now }
{
    a == b
}

fn are_words(words: &[String], list: &WordList) -> bool
    ensures { result ≡ same_list same_bytes (map string_bytes words.now) (words_of list.now) }
{
    if words.len() != list.len() {
        return false;
    }
    for i in 0..words.len() {
        if !are_bytes(words[i].as_bytes(), list.at(i).as_slice()) {
            return false;
        }
    }
    true
}

impl Question<'_> {
    /// Whether the journal has this ask.
    fn is(&self, ask: &Ask) -> bool
        ensures { result ≡ same_ask (asked self.now) (ask_of ask.now) }
    {
        match (self, ask) {
            (Question::Spawn(command), Ask::Spawn(program, words)) => {
                are_bytes(command.program.as_bytes(), program.as_slice())
                    && are_words(command.words.as_slice(), words)
            }
            (Question::Read(child), Ask::Read(c)) => child == c,
            (Question::End(child), Ask::End(c)) => child == c,
            (Question::Send(child, bytes), Ask::Send(c, list)) => {
                child == c && are_bytes(bytes, list.as_slice())
            }
            (Question::Close(child), Ask::Close(c)) => child == c,
            (Question::Kill(child), Ask::Kill(c)) => child == c,
            _ => false,
        }
    }

    /// Whether it may be answered so. What answers a start, a text or a close is tested where it is taken.
    fn allows(&self, answer: &Answer) -> bool
        ensures { result ≡ allows self.now (answer_of answer.now) }
    {
        match self {
            Question::Read(_) => may_read(answer),
            Question::End(_) => may_end(answer),
            Question::Kill(_) => may_kill(answer),
            Question::Spawn(_) | Question::Send(_, _) | Question::Close(_) => true,
        }
    }
}

/// The answer to a question, where the journal has this exchange next. Without one, what the item comes to.
pub(crate) fn meet<'a>(next: Option<&'a Exchange>, question: &Question) -> Result<&'a Answer, Done>
    ensures { Meets (asked question.now) (allows question.now) (option_map (λ x. exchange_of x.now) next.entry) result }
{
    let Some(exchange) = next else {
        return Err(Done::Waits);
    };
    if !question.is(&exchange.ask) {
        return Err(Done::Off);
    }
    if !question.allows(&exchange.answer) {
        return Err(Done::Off);
    }
    Ok(&exchange.answer)
}

/// Whether a read may be answered so: it gives one byte at least, and no more than a read has room for.
fn may_read(answer: &Answer) -> bool
    ensures { result ≡ may_read (answer_of answer.now) }
{
    match answer {
        Answer::Bytes(bytes) => bytes.len() >= 1 && bytes.len() <= MOST_READ,
        Answer::Nothing | Answer::End | Answer::Failed => true,
        _ => false,
    }
}

/// Whether the question how a child has ended may be answered so.
fn may_end(answer: &Answer) -> bool
    ensures { result ≡ may_end (answer_of answer.now) }
{
    matches!(
        answer,
        Answer::Code(_) | Answer::Signal | Answer::Running | Answer::Failed
    )
}

/// Whether a kill may be answered so.
fn may_kill(answer: &Answer) -> bool
    ensures { result ≡ may_kill (answer_of answer.now) }
{
    matches!(answer, Answer::Killed | Answer::Failed)
}
