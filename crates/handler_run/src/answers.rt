//! What an answer changes in the table, and what is entered for it.
ghost use Rattle.std.specs.Prelude.{◌≡◌, ◌+◌, ◌<◌, ◌≤◌, ◌++◌, ◌↔◌, [], length, false};
ghost use Rattle.std.specs.Prelude.{Some, None, option_map};
ghost use Rattle.plain_machine.specs.Exchanges.{most_read};
ghost use Rattle.plain_machine.specs.State.{State, Process as Meant, process};
ghost use Rattle.process_table.specs.Meaning.{status_of};
ghost use Rattle.process_table.specs.Table.{StandsFor, coding_by, held_by};
ghost use Rattle.host_link.specs.Hosts.{got_answer};
ghost use Rattle.handler_run.specs.Answers.{Deletes, Ends, IsRead, Reads, Takes, after_end};
ghost use Rattle.handler_run.specs.Answers.{after_read, came_to, heard_of};
ghost use Rattle.handler_run.specs.Answers.{longest_told, most_held};

use crate::entry::{Entry, arguments, filter_entry};
use crate::slot::Slot;
use crate::told::put_told;
use ek_types::Chars;
use host_link::{Ended, Got};
use process_table::{Processes, Status};

/// Process `p` answered a read: decodes the bytes, which are those given or none, and says what is entered: its filter,
/// the one set now, with the characters that came out, or nothing exactly where none did. Once its output has ended, or
/// where that failed, what was held back comes out too. It takes no memory; the slot was made for `p` as it stands.
pub fn enter(table: &mut Processes, p: u32, slot: Slot, got: &Got, bytes: &[u8]) -> Entry
    requires made { p < length table.old }
    requires room { most_read + most_held ≤ slot }
    requires read { IsRead got.now bytes.now }
    ensures count { length table.new ≡ length table.old }
    ensures table { table.new ≡ after_read p got.now bytes.now table.old }
    ensures none { (result ≡ Entry.None) ↔ (heard_of (coding_by table.old p) got.now bytes.now
        (held_by table.old p) ≡ []) }
    ensures machine { (s : State) (x : Meant) → StandsFor table.old s.processes →
        process s p ≡ Some x → x.drained ≡ false →
        Reads s p x (got_answer bytes.now got.now) table.new result }
{
    let Slot { text, piece, args } = slot;
    let mut text = text;
    let filter = table.get(p).filter();
    decode(table, p, got, bytes, &mut text);
    process_table::processes_stand();
    filter_entry(filter, p, text, piece, args)
}

/// Decodes what a read gave.
fn decode(table: &mut Processes, p: u32, got: &Got, bytes: &[u8], out: &mut Chars)
    requires made { p < length table.old }
    requires room { most_read + most_held ≤ out.old.spare }
    requires read { IsRead got.now bytes.now }
    ensures count { length table.new ≡ length table.old }
    ensures table { table.new ≡ after_read p got.now bytes.now table.old }
    ensures items { out.new.items ≡ out.old.items ++ heard_of (coding_by table.old p) got.now bytes.now
        (held_by table.old p) }
    ensures machine { out.old.items ≡ [] → (s : State) (x : Meant) →
        StandsFor table.old s.processes → process s p ≡ Some x → x.drained ≡ false →
        Takes s p x (got_answer bytes.now got.now) table.new out.new.items }
{
    // Read for what it ensures: at most 3 bytes are held.
    let _held = table.get(p).held();
    process_table::output_stands();
    match got {
        Got::Bytes(_) => table.feed(p, bytes, out),
        Got::End | Got::Failed => table.drain(p, out),
        Got::Nothing => {}
    }
}

/// Process `p` answered how it has ended, or was killed, which is an end by a signal: notes that, and says what is
/// entered: its sentinel, the one set now, with what it is told, or nothing exactly where the process still runs. It
/// takes no memory; the slot was made for `p` as it stands.
pub fn ended(table: &mut Processes, p: u32, slot: Slot, how: &Ended) -> Entry
    requires made { p < length table.old }
    requires room { longest_told ≤ slot }
    ensures count { length table.new ≡ length table.old }
    ensures table { table.new ≡ after_end p how.now table.old }
    ensures none { (result ≡ Entry.None) ↔ (how.now ≡ Ended.Running) }
    ensures machine { (s : State) (x : Meant) → StandsFor table.old s.processes →
        process s p ≡ Some x → Ends s p x how.now table.new result }
    ensures deleted { (s : State) (x : Meant) → how.now ≡ Ended.Signal →
        StandsFor table.old s.processes → process s p ≡ Some x → Deletes s p x table.new result }
{
    let Some(status) = status(how) else {
        return Entry::None;
    };
    let Slot { text, piece, args } = slot;
    let mut text = text;
    put_told(&mut text, how);
    let handler = table.get(p).sentinel();
    table.note_end(p, status);
    process_table::changes_stand();
    process_table::processes_stand();
    Entry::Sentinel(handler, arguments(args, piece, p, text))
}

/// The status that a process has come to, if it has ended.
fn status(how: &Ended) -> Option<Status>
    ensures { option_map status_of result ≡ came_to how.now }
{
    match how {
        Ended::Code(code) => Some(Status::Exit(*code)),
        Ended::Signal => Some(Status::Signal),
        Ended::Failed => Some(Status::Failed),
        Ended::Running => None,
    }
}
