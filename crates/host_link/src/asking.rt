//! Exchanges: questions to the host with their answers.
ghost use Rattle.std.specs.Prelude.{◌≡◌, IfOk, map};
ghost use Rattle.std.specs.Prelude.{string_bytes};
ghost use Rattle.plain_machine.specs.Exchanges.{Spawn};
ghost use Rattle.ek_types.specs.Listing.{items_of};
ghost use Rattle.host_link.specs.Meaning.{ask_of, answer_of, exchange_of, words_of};

use ek_types::{Copied, ListOf, Mem};
use std::alloc::Global;

/// Bytes that are sent, read or name a program.
pub type ByteList = ListOf<u8>;

/// The arguments of a program.
pub type WordList = ListOf<ByteList>;

/// Answers in the order in which they are given.
pub type Answers = ListOf<Answer>;

/// The exchanges of a run in their order.
pub type Exchanges = ListOf<Exchange>;

/// What is asked of a host. Children are named by their numbers.
#[derive(Drop)]
pub enum Ask {
    /// Start a program with these arguments.
    Spawn(ByteList, WordList),
    /// Take bytes of a child's output.
    Read(u32),
    /// Say whether a child has ended, and how.
    End(u32),
    /// Send these bytes to a child's input.
    Send(u32, ByteList),
    /// Close a child's input.
    Close(u32),
    /// Kill a child.
    Kill(u32),
}

/// What a host answers.
#[derive(Drop)]
pub enum Answer {
    /// The child of this number was started.
    Started(u32),
    /// No child was started.
    Refused,
    /// These bytes come next in the output.
    Bytes(ByteList),
    /// Nothing yet; the output goes on.
    Nothing,
    /// The output has ended.
    End,
    /// It has ended with this code.
    Code(i32),
    /// It was ended by a signal.
    Signal,
    /// It hasn't ended.
    Running,
    /// The bytes were sent.
    Sent,
    /// The child doesn't take the bytes.
    Broken,
    /// The input is closed.
    Closed,
    /// The child was killed.
    Killed,
    /// The host couldn't read, kill or find out how the child ended.
    Failed,
}

/// One question and its answer.
#[derive(Drop)]
pub struct Exchange {
    pub ask: Ask,
    pub answer: Answer,
}

impl Copied for Ask {
    ghost use Rattle.plain_machine.specs.Exchanges.{Ask as Meant};

    ghost Seen = { Meant };

    ghost seen = { ask_of };

    fn copy(&self) -> Mem<Ask> {
        match self {
            Ask::Spawn(program, args) => {
                let program = program.copy()?;
                Ok(Ask::Spawn(program, args.copy()?))
            }
            Ask::Read(child) => Ok(Ask::Read(*child)),
            Ask::End(child) => Ok(Ask::End(*child)),
            Ask::Send(child, bytes) => Ok(Ask::Send(*child, bytes.copy()?)),
            Ask::Close(child) => Ok(Ask::Close(*child)),
            Ask::Kill(child) => Ok(Ask::Kill(*child)),
        }
    }
}

impl Copied for Answer {
    ghost use Rattle.plain_machine.specs.Exchanges.{Answer as Meant};

    ghost Seen = { Meant };

    ghost seen = { answer_of };

    fn copy(&self) -> Mem<Answer> {
        match self {
            Answer::Started(child) => Ok(Answer::Started(*child)),
            Answer::Refused => Ok(Answer::Refused),
            Answer::Bytes(bytes) => Ok(Answer::Bytes(bytes.copy()?)),
            Answer::Nothing => Ok(Answer::Nothing),
            Answer::End => Ok(Answer::End),
            Answer::Code(code) => Ok(Answer::Code(*code)),
            Answer::Signal => Ok(Answer::Signal),
            Answer::Running => Ok(Answer::Running),
            Answer::Sent => Ok(Answer::Sent),
            Answer::Broken => Ok(Answer::Broken),
            Answer::Closed => Ok(Answer::Closed),
            Answer::Killed => Ok(Answer::Killed),
            Answer::Failed => Ok(Answer::Failed),
        }
    }
}

impl Copied for Exchange {
    ghost use Rattle.plain_machine.specs.Exchanges.{Exchange as Meant};

    ghost Seen = { Meant };

    ghost seen = { exchange_of };

    fn copy(&self) -> Mem<Exchange> {
        let ask = self.ask.copy()?;
        Ok(Exchange {
            ask,
            answer: self.answer.copy()?,
        })
    }
}

/// A list of these bytes.
pub fn list_of(alloc: Global, bytes: &[u8]) -> Mem<ByteList>
    ensures { IfOk result (λ list. items_of list ≡ bytes.now) }
{
    let mut list = ListOf::new(alloc);
    list.reserve(bytes.len())?;
    list.extend_spare(bytes);
    Ok(list)
}

/// The list of the bytes of these words.
pub fn words(alloc: Global, args: &[String]) -> Mem<WordList>
    ensures { IfOk result (λ list. words_of list ≡ map string_bytes args.now) }
{
    let mut list = ListOf::new(alloc);
    for i in 0..args.len() {
        list.push(list_of(alloc, args[i].as_bytes())?)?;
    }
    Ok(list)
}

/// The ask to start a program.
pub(crate) fn spawn_ask(alloc: Global, program: &str, args: &[String]) -> Mem<Ask>
    ensures { IfOk result (λ ask. ask_of ask ≡ Spawn program.now (map string_bytes args.now)) }
{
    let program = list_of(alloc, program.as_bytes())?;
    Ok(Ask::Spawn(program, words(alloc, args)?))
}
