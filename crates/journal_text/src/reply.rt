//! What a list of exchanges answers to an ask, and what is answered to one that strays.
ghost use Rattle.std.specs.Prelude.{◌≡◌, ℕ, ◌+◌, ◌^◌, ◌<◌, ◌≤◌, length, true, IfOk, IfSome, IfNone, IsSome};
ghost use Rattle.std.specs.Prelude.{MatchBool};
ghost use Rattle.plain_machine.specs.Exchanges.{Exchange as Meant, Kill};
ghost use Rattle.host_link.specs.Meaning.{ask_of, answer_of, exchange_of, exchanges_of};
ghost use Rattle.host_link.specs.Hosts.{Fits, spawned_answer, got_answer, ended_answer};
ghost use Rattle.host_link.specs.Hosts.{send_answer, kill_answer};
ghost use Rattle.journal_text.specs.Allowed.{IsSpawned, IsRead, IsEnd, IsSent, IsKilled};
ghost use Rattle.journal_text.specs.Allowed.{AreAnswered};
ghost use Rattle.journal_text.specs.Replayed.{Agrees, HasRoom, Replied, stray_answer};

use crate::asking::same_ask;
use ek_types::{Copied, Mem};
use host_link::{Answer, Ask, Ended, Exchange, Exchanges, Got, KillAnswer, SendAnswer, Spawned};

/// What is answered to an ask, whether it stands in the list, and how many exchanges of the list are answered then.
#[derive(Drop)]
pub(crate) struct Reply {
    pub(crate) answer: Answer,
    pub(crate) follows: bool,
    pub(crate) matched: usize,
}

fn has_room(answer: &Answer, room: usize) -> bool
    ensures { MatchBool result (HasRoom room (answer_of answer.now))
        (HasRoom room (answer_of answer.now) → ⊥) }
{
    match answer {
        Answer::Bytes(bytes) => bytes.len() <= room,
        _ => true,
    }
}

/// The exchange that comes next, where the ask agrees with it.
fn agreeing<'a>(
    strayed: bool,
    list: &'a Exchanges,
    at: usize,
    ask: &Ask,
    room: usize,
) -> Option<&'a Exchange>
    ensures some { IfSome result (λ x. Agrees strayed (exchanges_of list.now) at (ask_of ask.now) room
        (exchange_of x.now)) }
    ensures none { IfNone result ((x : Meant) →
        Agrees strayed (exchanges_of list.now) at (ask_of ask.now) room x → ⊥) }
    ensures fits { IsSome result → at + 1 < 2 ^ 64 }
{
    if strayed || at >= list.len() {
        return None;
    }
    let exchange = list.at(at);
    if same_ask(&exchange.ask, ask) && has_room(&exchange.answer, room) {
        Some(exchange)
    } else {
        None
    }
}

/// The answer to an ask that strays.
fn stray_answer(ask: &Ask) -> Answer
    ensures { answer_of result ≡ stray_answer (ask_of ask.now) }
{
    match ask {
        Ask::Spawn(_, _) => Answer::Refused,
        Ask::Read(_) | Ask::End(_) | Ask::Kill(_) => Answer::Failed,
        Ask::Send(_, _) => Answer::Broken,
        Ask::Close(_) => Answer::Closed,
    }
}

/// What is answered to an ask.
pub(crate) fn reply_to(
    strayed: bool,
    list: &Exchanges,
    at: usize,
    ask: &Ask,
    room: usize,
) -> Mem<Reply>
    requires answered { AreAnswered 0 (exchanges_of list.now) }
    requires within { at ≤ length (exchanges_of list.now) }
    ensures { IfOk result (λ r. Replied strayed (exchanges_of list.now) at (ask_of ask.now) room
        r.follows r.matched (answer_of r.answer)) }
{
    match agreeing(strayed, list, at, ask, room) {
        Some(exchange) => Ok(Reply {
            answer: exchange.answer.copy()?,
            follows: true,
            matched: at + 1,
        }),
        None => Ok(Reply {
            answer: stray_answer(ask),
            follows: false,
            matched: at,
        }),
    }
}

/// The same of a kill.
#[derive(Clone, Copy, Debug, PartialEq, Eq)]
pub(crate) struct KillReply {
    pub(crate) killed: KillAnswer,
    pub(crate) follows: bool,
    pub(crate) matched: usize,
}

/// What is answered to a kill. It takes no memory.
pub(crate) fn kill_reply(strayed: bool, list: &Exchanges, at: usize, child: u32) -> KillReply
    requires answered { AreAnswered 0 (exchanges_of list.now) }
    requires within { at ≤ length (exchanges_of list.now) }
    ensures { Replied strayed (exchanges_of list.now) at (Kill child) 0 result.follows result.matched
        (kill_answer result.killed) }
{
    match agreeing(strayed, list, at, &Ask::Kill(child), 0) {
        Some(exchange) => KillReply {
            killed: killed(&exchange.answer),
            follows: true,
            matched: at + 1,
        },
        None => KillReply {
            killed: KillAnswer::Failed,
            follows: false,
            matched: at,
        },
    }
}

// ANSWERS OF EACH KIND: those of another kind don't come, and are taken as faults.

pub(crate) fn spawned(answer: &Answer) -> Spawned
    ensures { (next : ℕ) → IsSpawned next (answer_of answer.now) →
        spawned_answer result ≡ answer_of answer.now }
{
    match answer {
        Answer::Started(child) => Spawned::Started(*child),
        _ => Spawned::Refused,
    }
}

/// The answer to a read, whose bytes are put to the front of the room given.
pub(crate) fn got(answer: &Answer, into: &mut [u8]) -> Got
    requires read { IsRead (answer_of answer.now) }
    requires room { HasRoom (length into.old) (answer_of answer.now) }
    ensures got { got_answer into.new result ≡ answer_of answer.now }
    ensures fits { Fits (length into.old) result }
{
    match answer {
        Answer::Bytes(bytes) => {
            let n = bytes.len();
            into[..n].copy_from_slice(bytes.as_slice());
            Got::Bytes(n)
        }
        Answer::Nothing => Got::Nothing,
        Answer::End => Got::End,
        _ => Got::Failed,
    }
}

pub(crate) fn ended(answer: &Answer) -> Ended
    ensures { IsEnd (answer_of answer.now) → ended_answer result ≡ answer_of answer.now }
{
    match answer {
        Answer::Code(code) => Ended::Code(*code),
        Answer::Signal => Ended::Signal,
        Answer::Running => Ended::Running,
        _ => Ended::Failed,
    }
}

pub(crate) fn sent(answer: &Answer) -> SendAnswer
    ensures { IsSent (answer_of answer.now) → send_answer result ≡ answer_of answer.now }
{
    match answer {
        Answer::Sent => SendAnswer::Sent,
        _ => SendAnswer::Broken,
    }
}

fn killed(answer: &Answer) -> KillAnswer
    ensures { IsKilled (answer_of answer.now) → kill_answer result ≡ answer_of answer.now }
{
    match answer {
        Answer::Killed => KillAnswer::Killed,
        _ => KillAnswer::Failed,
    }
}
