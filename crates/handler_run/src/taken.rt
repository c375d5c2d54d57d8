//! Taking up an answer of a child, whether a host gave it or it was told.
ghost use Rattle.std.specs.Prelude.{◌≡◌, ◌+◌, ◌<◌, ◌≤◌, ℕ, List, length, IfOk, OnErr};
ghost use Rattle.plain_machine.specs.Exchanges.{most_read};
ghost use Rattle.host_link.specs.Meaning.{answer_of};
ghost use Rattle.host_link.specs.Hosts.{got_answer};
ghost use Rattle.host_link.specs.Played.{read_as};
ghost use Rattle.handler_run.specs.Answers.{IsRead, gave_bytes, longest_told, most_held};
ghost use Rattle.handler_run.specs.Asking.{MayBeTold, TakesAnswer, TakesEnd, TakesKill};
ghost use Rattle.handler_run.specs.Asking.{TakesOutput, bytes_in};

use crate::answers::{ended, enter};
use crate::asking::Heard;
use crate::entry::Entry;
use crate::slot::{Slot, ready};
use ek_types::Mem;
use host_link::{Answer, Ended, Got, end_of};
use process_table::Processes;
use std::alloc::Global;

fn is_bytes(got: &Got) -> bool
    ensures { (room : List ℕ) → result ≡ gave_bytes (got_answer room got.now) }
{
    match got {
        Got::Bytes(_) => true,
        Got::End | Got::Failed | Got::Nothing => false,
    }
}

/// Process `p` answered a read.
pub(crate) fn take_output(
    table: &mut Processes,
    p: u32,
    slot: Slot,
    got: &Got,
    bytes: &[u8],
) -> Heard
    requires made { p < length table.old }
    requires room { most_read + most_held ≤ slot }
    requires read { IsRead got.now bytes.now }
    ensures { TakesOutput table.old table.new p (got_answer bytes.now got.now) result }
{
    Heard {
        bytes: is_bytes(got),
        entry: enter(table, p, slot, got, bytes),
    }
}

/// Process `p` answered how it has ended.
pub(crate) fn take_end(table: &mut Processes, p: u32, slot: Slot, how: &Ended) -> Heard
    requires made { p < length table.old }
    requires room { longest_told ≤ slot }
    ensures { TakesEnd table.old table.new p how.now result }
{
    Heard {
        bytes: false,
        entry: ended(table, p, slot, how),
    }
}

/// Process `p` was killed.
pub(crate) fn take_signal(table: &mut Processes, p: u32, slot: Slot) -> Entry
    requires made { p < length table.old }
    requires room { longest_told ≤ slot }
    ensures { TakesKill table.old table.new p result }
{
    ended(table, p, slot, &Ended::Signal)
}

/// What a read gave, as it was told.
fn got_of(answer: &Answer) -> Got
    requires { read_as most_read (answer_of answer.now) ≡ answer_of answer.now }
    ensures read { IsRead result (bytes_in (answer_of answer.now)) }
    ensures answer { got_answer (bytes_in (answer_of answer.now)) result ≡ answer_of answer.now }
{
    match answer {
        Answer::Bytes(bytes) => Got::Bytes(bytes.len()),
        Answer::End => Got::End,
        Answer::Failed => Got::Failed,
        _ => Got::Nothing,
    }
}

fn bytes_in(answer: &Answer) -> &[u8]
    ensures { result.now ≡ bytes_in (answer_of answer.now) }
{
    match answer {
        Answer::Bytes(bytes) => bytes.as_slice(),
        _ => &[],
    }
}

/// Takes up what process `p` answered about its output, or about its end once its output has ended. The answer was told,
/// and no host is asked. All memory is taken before: where it is wanting, nothing changes.
pub fn take_answer(alloc: Global, table: &mut Processes, p: u32, answer: &Answer) -> Mem<Heard>
    requires made { p < length table.old }
    requires told { MayBeTold table.old p (answer_of answer.now) }
    ensures ok { IfOk result (TakesAnswer table.old table.new p (answer_of answer.now)) }
    ensures table { OnErr result (table.new ≡ table.old) }
{
    let process = table.get(p);
    let slot = ready(alloc, process)?;
    if process.drained() {
        Ok(take_end(table, p, slot, &end_of(answer)))
    } else {
        Ok(take_output(table, p, slot, &got_of(answer), bytes_in(answer)))
    }
}

/// Takes up that process `p` was killed, and says what is entered then. No host is asked. All memory is taken before:
/// where it is wanting, nothing changes.
pub fn take_kill(alloc: Global, table: &mut Processes, p: u32) -> Mem<Entry>
    requires { p < length table.old }
    ensures ok { IfOk result (TakesKill table.old table.new p) }
    ensures table { OnErr result (table.new ≡ table.old) }
{
    let slot = ready(alloc, table.get(p))?;
    Ok(take_signal(table, p, slot))
}
