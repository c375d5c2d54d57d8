//! What a child of a host in memory answers, and how far it has come.
ghost use Rattle.std.specs.Prelude.{◌≡◌, ◌+◌, ◌-◌, ◌^◌, ◌<◌, [], ◌∷◌, length, drop, true, IfOk};
ghost use Rattle.std.specs.Prelude.{OnErr, if◌then◌else◌};
ghost use Rattle.host_link.specs.Hosts.{Fits, got_answer, ended_answer};
ghost use Rattle.plain_machine.specs.Exchanges.{Bytes};
ghost use Rattle.host_link.specs.Meaning.{answer_of};
ghost use Rattle.host_link.specs.Played.{left_of, next_read, after_read, room_after, end_as, next_end};
ghost use Rattle.host_link.specs.Cursors.{IsReadTurn, less, moved_by, rest_of};

use crate::answering::answer_to_end;
use crate::asking::{Answer, Answers, list_of};
use crate::host::{Ended, Got};
use ek_types::Mem;
use std::alloc::Global;

/// The answers of one child, to reads and to the question how it ended. Past the last one a read answers `End`, and
/// the child has ended with code 0. Bytes that the room of a read doesn't hold come next. No bytes count as
/// `Nothing`, and so do answers of another kind; to the question how it ended these count as `Running`.
#[derive(Drop)]
pub struct Play {
    pub reads: Answers,
    pub ends: Answers,
}

/// How many answers to reads were used up, how many bytes of the next one were given, and how many answers to ends
/// were used up.
#[derive(Clone, Copy, Debug, PartialEq, Eq)]
pub(crate) struct Cursor {
    pub(crate) reads: usize,
    pub(crate) bytes: usize,
    pub(crate) ends: usize,
}

/// What a read comes to: the answer, the same as exchanges tell it, whether the play's answer is used up, and else
/// how many of its bytes were given.
#[derive(Drop)]
pub(crate) struct ReadTurn {
    pub(crate) got: Got,
    pub(crate) answer: Answer,
    pub(crate) used: bool,
    pub(crate) given: usize,
}

fn used_up(got: Got, answer: Answer) -> ReadTurn
    ensures { result ≡ record { got = got; answer = answer; used = true; given = 0 } }
{
    ReadTurn {
        got,
        answer,
        used: true,
        given: 0,
    }
}

/// Reads bytes of which so many were given. `into` is changed only where there was memory for the answer.
fn read_bytes(alloc: Global, bytes: &[u8], given: usize, into: &mut [u8]) -> Mem<ReadTurn>
    requires { 0 < length into.old }
    ensures turn { IfOk result (IsReadTurn (Bytes (drop given bytes.now)) (length into.old) into.new) }
    ensures left { IfOk result
        (λ t. left_of (length into.old) (Bytes (drop given bytes.now)) ≡
        (if t.used then [] else Bytes (drop t.given bytes.now) ∷ [])) }
    ensures room { IfOk result (λ t. into.new ≡ room_after into.old (answer_of t.answer)) }
    ensures room_kept { OnErr result (into.new ≡ into.old) }
{
    let from = given.min(bytes.len());
    let left = &bytes[from..];
    let n = left.len().min(into.len());
    if n == 0 {
        return Ok(used_up(Got::Nothing, Answer::Nothing));
    }
    let told = list_of(alloc, &left[..n])?;
    into[..n].copy_from_slice(&left[..n]);
    Ok(ReadTurn {
        got: Got::Bytes(n),
        answer: Answer::Bytes(told),
        used: n == left.len(),
        given: from + n,
    })
}

/// Reads an answer of which so many bytes were given.
fn read_answer(alloc: Global, answer: &Answer, given: usize, into: &mut [u8]) -> Mem<ReadTurn>
    requires { 0 < length into.old }
    ensures turn { IfOk result (IsReadTurn (less given (answer_of answer.now)) (length into.old)
        into.new) }
    ensures left { IfOk result
        (λ t. left_of (length into.old) (less given (answer_of answer.now)) ≡
        (if t.used then [] else less t.given (answer_of answer.now) ∷ [])) }
    ensures room { IfOk result (λ t. into.new ≡ room_after into.old (answer_of t.answer)) }
    ensures room_kept { OnErr result (into.new ≡ into.old) }
{
    match answer {
        Answer::Bytes(bytes) => read_bytes(alloc, bytes.as_slice(), given, into),
        Answer::End => Ok(used_up(Got::End, Answer::End)),
        Answer::Failed => Ok(used_up(Got::Failed, Answer::Failed)),
        _ => Ok(used_up(Got::Nothing, Answer::Nothing)),
    }
}

/// How a child has ended, by an answer to that question; answers of another kind count as running.
pub fn end_of(answer: &Answer) -> Ended
    ensures { ended_answer result ≡ end_as (answer_of answer.now) }
{
    match answer {
        Answer::Code(code) => Ended::Code(*code),
        Answer::Signal => Ended::Signal,
        Answer::Failed => Ended::Failed,
        _ => Ended::Running,
    }
}

/// What a call on a child comes to: the answer, the same as exchanges tell it, and how far the child has come.
#[derive(Drop)]
pub(crate) struct Turn<T> {
    pub(crate) reply: T,
    pub(crate) answer: Answer,
    pub(crate) cursor: Cursor,
}

fn moved(cursor: Cursor, used: bool, given: usize) -> Cursor
    requires { cursor.reads < 2 ^ 64 - 1 }
    ensures { result ≡ moved_by cursor used given }
{
    if used {
        Cursor {
            reads: cursor.reads + 1,
            bytes: 0,
            ends: cursor.ends,
        }
    } else {
        Cursor {
            reads: cursor.reads,
            bytes: given,
            ends: cursor.ends,
        }
    }
}

/// A read of a child's play.
pub(crate) fn read_play(
    alloc: Global,
    play: &Play,
    cursor: Cursor,
    into: &mut [u8],
) -> Mem<Turn<Got>>
    requires { 0 < length into.old }
    ensures told { IfOk result
        (λ t. answer_of t.answer ≡ next_read (length into.old) (rest_of play.now cursor).reads) }
    ensures got { IfOk result (λ t. got_answer into.new t.reply ≡ answer_of t.answer) }
    ensures fits { IfOk result (λ t. Fits (length into.old) t.reply) }
    ensures rest { IfOk result
        (λ t. rest_of play.now t.cursor ≡ record (rest_of play.now cursor)
        { reads = after_read (length into.old) (rest_of play.now cursor).reads }) }
    ensures room { IfOk result (λ t. into.new ≡ room_after into.old (answer_of t.answer)) }
    ensures room_kept { OnErr result (into.new ≡ into.old) }
{
    if cursor.reads >= play.reads.len() {
        return Ok(Turn {
            reply: Got::End,
            answer: Answer::End,
            cursor,
        });
    }
    let turn = read_answer(alloc, play.reads.at(cursor.reads), cursor.bytes, into)?;
    Ok(Turn {
        reply: turn.got,
        answer: turn.answer,
        cursor: moved(cursor, turn.used, turn.given),
    })
}

/// The question how a child has ended.
pub(crate) fn end_play(play: &Play, cursor: Cursor) -> Turn<Ended>
    ensures told { ended_answer result.reply ≡ next_end (rest_of play.now cursor).ends }
    ensures same { answer_of result.answer ≡ ended_answer result.reply }
    ensures rest { rest_of play.now result.cursor ≡
        record (rest_of play.now cursor) { ends = drop 1 (rest_of play.now cursor).ends } }
{
    if cursor.ends >= play.ends.len() {
        return Turn {
            reply: Ended::Code(0),
            answer: Answer::Code(0),
            cursor,
        };
    }
    let reply = end_of(play.ends.at(cursor.ends));
    Turn {
        reply,
        answer: answer_to_end(reply),
        cursor: Cursor {
            reads: cursor.reads,
            bytes: cursor.bytes,
            ends: cursor.ends + 1,
        },
    }
}
