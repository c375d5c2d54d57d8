//! Asking a child: the question, its answer, and what is entered for it.
ghost use Rattle.std.specs.Prelude.{◌≡◌, ◌+◌, ◌<◌, ◌≤◌, length, false, Some, IfOk, OnErr, slice_get};
ghost use Rattle.plain_machine.specs.Arguments.{child_of};
ghost use Rattle.plain_machine.specs.Exchanges.{most_read};
ghost use Rattle.process_table.specs.Table.{with_table};
ghost use Rattle.host_link.specs.Hosts.{Fits, got_answer};
ghost use Rattle.handler_run.specs.Answers.{IsRead, longest_told, most_held};
ghost use Rattle.handler_run.specs.Asking.{Hears, HearsEnd, HearsOutput, Kills};

use crate::entry::Entry;
use crate::slot::{Slot, ready};
use crate::taken::{take_end, take_output, take_signal};
use ek_types::Mem;
use ek_types::limits::MOST_READ;
use host_link::{Got, Host};
use process_table::Processes;
use std::alloc::Global;

/// What asking a process came to: whether it gave bytes, and what is to be entered.
#[derive(Drop)]
pub struct Heard {
    pub bytes: bool,
    pub entry: Entry,
}

/// Asks process `p` for its output, or for its end once its output has ended. All memory is taken before: where it is
/// wanting, nothing is asked and nothing changes.
pub fn hear<H: Host>(alloc: Global, table: &mut Processes, host: &mut H, p: u32) -> Mem<Heard>
    requires made { p < length table.old }
    requires there { child_of (with_table table.old) p < length (H.state host.old).kills }
    ensures ok { IfOk result (Hears H.state H.made host.old host.new table.old table.new p) }
    ensures table { OnErr result (table.new ≡ table.old) }
    ensures host { OnErr result (host.new ≡ host.old) }
{
    let process = table.get(p);
    let slot = ready(alloc, process)?;
    if process.drained() {
        hear_end(table, host, p, slot)
    } else {
        hear_output(table, host, p, slot)
    }
}

/// The bytes that a read gave, which stand at the front of its room.
fn given<'a>(got: &Got, room: &'a [u8]) -> &'a [u8]
    requires fits { Fits (length room.now) got.now }
    requires few { length room.now ≤ most_read }
    ensures read { IsRead got.now result.now }
    ensures answer { got_answer result.now got.now ≡ got_answer room.now got.now }
{
    match got {
        Got::Bytes(n) => &room[..*n],
        Got::End | Got::Failed | Got::Nothing => &[],
    }
}

/// Asks a process for its output.
fn hear_output<H: Host>(table: &mut Processes, host: &mut H, p: u32, slot: Slot) -> Mem<Heard>
    requires made { p < length table.old }
    requires there { child_of (with_table table.old) p < length (H.state host.old).kills }
    requires room { most_read + most_held ≤ slot }
    ensures ok { IfOk result (HearsOutput H.state H.made host.old host.new table.old table.new p) }
    ensures table { OnErr result (table.new ≡ table.old) }
    ensures host { OnErr result (host.new ≡ host.old) }
{
    let child = table.get(p).child();
    let mut room = [0u8; MOST_READ];
    let got = host.read(child, &mut room)?;
    Ok(take_output(table, p, slot, &got, given(&got, &room)))
}

/// Asks a process how it has ended.
fn hear_end<H: Host>(table: &mut Processes, host: &mut H, p: u32, slot: Slot) -> Mem<Heard>
    requires made { p < length table.old }
    requires there { child_of (with_table table.old) p < length (H.state host.old).kills }
    requires room { longest_told ≤ slot }
    ensures ok { IfOk result (HearsEnd H.state H.made host.old host.new table.old table.new p) }
    ensures table { OnErr result (table.new ≡ table.old) }
    ensures host { OnErr result (host.new ≡ host.old) }
{
    let child = table.get(p).child();
    let how = host.end(child)?;
    Ok(take_end(table, p, slot, &how))
}

/// Kills the child of process `p`, whatever the host answers, and says what is entered then. All memory is taken before:
/// where it is wanting, nothing is asked and nothing changes.
pub fn kill<H: Host>(alloc: Global, table: &mut Processes, host: &mut H, p: u32) -> Mem<Entry>
    requires made { p < length table.old }
    requires lives { slice_get (H.state host.old).kills (child_of (with_table table.old) p) ≡
        Some false }
    ensures ok { IfOk result (Kills H.state H.made host.old host.new table.old table.new p) }
    ensures table { OnErr result (table.new ≡ table.old) }
    ensures host { OnErr result (host.new ≡ host.old) }
{
    let process = table.get(p);
    let slot = ready(alloc, process)?;
    host.kill(process.child());
    Ok(take_signal(table, p, slot))
}
