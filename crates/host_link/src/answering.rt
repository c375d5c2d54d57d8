//! Answers as exchanges tell them.
ghost use Rattle.std.specs.Prelude.{◌≡◌, ◌≤◌, [], length};
ghost use Rattle.ek_types.specs.Listing.{items_of, spare_of};
ghost use Rattle.host_link.specs.Meaning.{answer_of};
ghost use Rattle.host_link.specs.Hosts.{Fits, faults_after, spawned_answer, got_answer, ended_answer};
ghost use Rattle.host_link.specs.Hosts.{send_answer, kill_answer};

use crate::asking::{Answer, ByteList, list_of};
use crate::host::{Ended, Got, KillAnswer, SendAnswer, Spawned};
use std::alloc::Global;

/// The answer to a spawn, as exchanges tell it.
pub(crate) fn answer_to_spawn(spawned: Spawned) -> Answer
    ensures { answer_of result ≡ spawned_answer spawned }
{
    match spawned {
        Spawned::Started(child) => Answer::Started(child),
        Spawned::Refused => Answer::Refused,
    }
}

/// A list of these bytes, which takes no more memory than they need where there is memory.
fn list_or_room(alloc: Global, bytes: &[u8], room: ByteList) -> ByteList
    requires empty { items_of room ≡ [] }
    requires spare { length bytes.now ≤ spare_of room }
    ensures { items_of result ≡ bytes.now }
{
    match list_of(alloc, bytes) {
        Ok(list) => list,
        Err(_) => {
            let mut list = room;
            list.extend_spare(bytes);
            list
        }
    }
}

/// The answer to a read, with its bytes in a list of their own or, where memory is wanting, in the room that was set
/// aside for them.
pub(crate) fn answer_to_read(alloc: Global, got: Got, into: &[u8], room: ByteList) -> Answer
    requires fits { Fits (length into.now) got }
    requires empty { items_of room ≡ [] }
    requires spare { length into.now ≤ spare_of room }
    ensures { answer_of result ≡ got_answer into.now got }
{
    match got {
        Got::Bytes(n) => Answer::Bytes(list_or_room(alloc, &into[..n], room)),
        Got::Nothing => Answer::Nothing,
        Got::End => Answer::End,
        Got::Failed => Answer::Failed,
    }
}

/// The answer to the question how a child has ended, as exchanges tell it.
pub(crate) fn answer_to_end(ended: Ended) -> Answer
    ensures { answer_of result ≡ ended_answer ended }
{
    match ended {
        Ended::Code(code) => Answer::Code(code),
        Ended::Signal => Answer::Signal,
        Ended::Running => Answer::Running,
        Ended::Failed => Answer::Failed,
    }
}

/// The answer to bytes that are sent, as exchanges tell it.
pub(crate) fn answer_to_send(sent: SendAnswer) -> Answer
    ensures { answer_of result ≡ send_answer sent }
{
    match sent {
        SendAnswer::Sent => Answer::Sent,
        SendAnswer::Broken => Answer::Broken,
    }
}

/// The answer to a kill, as exchanges tell it.
pub fn answer_to_kill(killed: KillAnswer) -> Answer
    ensures { answer_of result ≡ kill_answer killed }
{
    match killed {
        KillAnswer::Killed => Answer::Killed,
        KillAnswer::Failed => Answer::Failed,
    }
}

/// The count of faults after an answer.
pub fn faults_after(faults: u64, answer: &Answer) -> u64
    ensures { result ≡ faults_after (answer_of answer.now) faults }
{
    match answer {
        Answer::Refused | Answer::Broken | Answer::Failed => faults.saturating_add(1),
        _ => faults,
    }
}
