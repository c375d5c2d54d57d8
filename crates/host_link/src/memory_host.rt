//! A host in memory, which plays its children from lists and tells its exchanges.
ghost use Rattle.std.specs.Prelude.{◌≡◌, ◌+◌, ◌-◌, ◌<◌, ◌≤◌, ◌^◌, length, map, [], ◌++◌, false};
ghost use Rattle.std.specs.Prelude.{true, Some, IfOk, OnOk, OnErr, if◌then◌else◌, nat_lt, drop};
ghost use Rattle.std.specs.Prelude.{slice_get, slice_set, string_bytes, vec_len, vec_capacity};
ghost use Rattle.plain_machine.specs.Exchanges.{Spawn, Read, AskEnd, Send, Close, Kill, Closed};
ghost use Rattle.plain_machine.specs.Exchanges.{Started, Refused, Failed, Broken, Sent, Killed};
ghost use Rattle.ek_types.specs.MemoryIo.{fails_at};
ghost use Rattle.host_link.specs.Meaning.{answer_of};
ghost use Rattle.host_link.specs.Hosts.{Asked, Exchanged, Fits, IsNumbered, after_spawn};
ghost use Rattle.host_link.specs.Hosts.{spawned_answer, got_answer, ended_answer, send_answer};
ghost use Rattle.host_link.specs.Hosts.{kill_answer};
ghost use Rattle.host_link.specs.Played.{Plays, host_state, next_read, after_read, room_after};
ghost use Rattle.host_link.specs.Played.{next_end, reply_to};
ghost use Rattle.host_link.specs.Logged.{due_by};
ghost use Rattle.host_link.specs.Cursors.{cursors_by, rest_of, whole_play};

use crate::answering::{answer_to_kill, answer_to_send, answer_to_spawn, faults_after};
use crate::asking::{Answer, Ask, Exchanges, list_of, spawn_ask};
use crate::host::{Ended, Got, Host, KillAnswer, SendAnswer, Spawned};
use crate::log::Log;
use crate::play::{Cursor, Play, Turn, end_play, read_play};
use ek_types::Mem;
use std::alloc::Global;
use std::marker::Model;

/// Starts a child for each of its plays, in their order, and refuses a spawn past the last one. It fails at the calls
/// that it was told, and tells its exchanges.
#[derive(Drop)]
pub struct MemoryHost {
    plays: Vec<Play>,
    cursors: Vec<Cursor>,
    kills: Vec<bool>,
    log: Log,
    fails: Vec<u32>,
    calls: u64,
    faults: u64,
}

impl Model for MemoryHost {
    ghost use Rattle.std.specs.Prelude.{◌≡◌, ◌≤◌, vec_len};
    ghost use Rattle.host_link.specs.Played.{MemoryHostState};
    ghost use Rattle.host_link.specs.Cursors.{rests};
    ghost use Rattle.host_link.specs.Logged.{kills_due};

    ghost Value = { MemoryHostState };

    ghost view = { λ h. record {
      plays = rests h.plays.items h.cursors.items;
      kills = h.kills.items;
      fails = h.fails.items;
      calls = h.calls;
      faults = h.faults;
      told = h.log.told;
    } };

    ghost invariant = { λ h. (vec_len h.cursors ≡ vec_len h.kills) ×
        (vec_len h.cursors ≤ vec_len h.plays) × (h.log.due ≡ kills_due h.kills.items) };
}

impl MemoryHost {
    /// A host that has started no child, and takes its memory where `plays` takes it. The calls whose numbers, from 0
    /// over all calls but `told`, stand in `fails` answer `Refused`, `Failed` or `Broken` by their kind and use up no
    /// answer of a play; a call of `close` can't fail. A call that answers `NoMemory` isn't counted.
    pub fn new(plays: Vec<Play>, fails: Vec<u32>) -> MemoryHost
        ensures { result ≡ record {
          plays = map whole_play plays.items;
          kills = [];
          fails = fails.items;
          calls = 0;
          faults = 0;
          told = [];
        } }
    {
        let alloc = *plays.allocator();
        MemoryHost {
            plays,
            cursors: Vec::new(alloc),
            kills: Vec::new(alloc),
            log: Log::new(alloc),
            fails,
            calls: 0,
            faults: 0,
        }
    }
}

/// Whether the call of this number fails.
fn is_failing(fails: &[u32], call: u64) -> bool
    ensures { result ≡ fails_at fails.now call }
{
    fails.iter().any(|n| u64::from(*n) == call)
}

/// The answer to a spawn where so many of so many children were started.
fn next_child(fails: bool, started: usize, plays: usize) -> Spawned
    requires { started < 2 ^ 32 }
    ensures answer { spawned_answer result ≡
        (if fails then Refused else (if nat_lt started plays then Started started else Refused)) }
    ensures room { started ≤ plays → started + due_by result ≤ plays }
{
    if !fails && started < plays {
        Spawned::Started(started as u32)
    } else {
        Spawned::Refused
    }
}

/// Makes places for a spawn, for the kill of its child and for the child.
fn reserve_child(log: &mut Log, cursors: &mut Vec<Cursor>, kills: &mut Vec<bool>) -> Mem<()>
    ensures told { log.new.told ≡ log.old.told }
    ensures due { log.new.due ≡ log.old.due }
    ensures cursors { cursors.new.items ≡ cursors.old.items }
    ensures kills { kills.new.items ≡ kills.old.items }
    ensures places { OnOk result (2 ≤ log.new.places) }
    ensures cursor { OnOk result (vec_len cursors.new < vec_capacity cursors.new) }
    ensures kill { OnOk result (vec_len kills.new < vec_capacity kills.new) }
{
    log.reserve(2)?;
    cursors.reserve(1)?;
    kills.reserve(1)?;
    Ok(())
}

/// Adds the child that was started, with no memory taken.
fn add_child(cursors: &mut Vec<Cursor>, kills: &mut Vec<bool>, spawned: Spawned)
    requires cursors { vec_len cursors.old < vec_capacity cursors.old }
    requires kills { vec_len kills.old < vec_capacity kills.old }
    ensures cursors { cursors.new.items ≡ cursors.old.items ++ cursors_by spawned }
    ensures kills { kills.new.items ≡ after_spawn kills.old.items spawned }
{
    match spawned {
        Spawned::Started(_) => {
            cursors.push_reserved(Cursor {
                reads: 0,
                bytes: 0,
                ends: 0,
            });
            kills.push_reserved(false);
        }
        Spawned::Refused => {}
    }
}

/// A read that may fail by its number, and then uses up nothing.
fn read_or_fail(
    alloc: Global,
    fails: bool,
    play: &Play,
    cursor: Cursor,
    into: &mut [u8],
) -> Mem<Turn<Got>>
    requires { 0 < length into.old }
    ensures told { IfOk result
        (λ t. answer_of t.answer ≡ (if fails then Failed
        else next_read (length into.old) (rest_of play.now cursor).reads)) }
    ensures got { IfOk result (λ t. got_answer into.new t.reply ≡ answer_of t.answer) }
    ensures fits { IfOk result (λ t. Fits (length into.old) t.reply) }
    ensures rest { IfOk result
        (λ t. rest_of play.now t.cursor ≡ (if fails then rest_of play.now cursor
        else record (rest_of play.now cursor)
        { reads = after_read (length into.old) (rest_of play.now cursor).reads })) }
    ensures room { IfOk result (λ t. into.new ≡ room_after into.old (answer_of t.answer)) }
    ensures room_kept { OnErr result (into.new ≡ into.old) }
{
    if fails {
        return Ok(Turn {
            reply: Got::Failed,
            answer: Answer::Failed,
            cursor,
        });
    }
    read_play(alloc, play, cursor, into)
}

/// The question how a child ended, which may fail by its number.
fn end_or_fail(fails: bool, play: &Play, cursor: Cursor) -> Turn<Ended>
    ensures told { answer_of result.answer ≡
        (if fails then Failed else next_end (rest_of play.now cursor).ends) }
    ensures same { ended_answer result.reply ≡ answer_of result.answer }
    ensures rest { rest_of play.now result.cursor ≡
        (if fails then rest_of play.now cursor
        else record (rest_of play.now cursor) { ends = drop 1 (rest_of play.now cursor).ends }) }
{
    if fails {
        return Turn {
            reply: Ended::Failed,
            answer: Answer::Failed,
            cursor,
        };
    }
    end_play(play, cursor)
}

fn send_or_fail(fails: bool) -> SendAnswer
    ensures { send_answer result ≡ (if fails then Broken else Sent) }
{
    if fails {
        SendAnswer::Broken
    } else {
        SendAnswer::Sent
    }
}

fn kill_or_fail(fails: bool) -> KillAnswer
    ensures { kill_answer result ≡ (if fails then Failed else Killed) }
{
    if fails {
        KillAnswer::Failed
    } else {
        KillAnswer::Killed
    }
}

impl Host for MemoryHost {
    ghost state = { host_state };

    ghost made = { Plays };

    fn spawn(&mut self, program: &str, args: &[String]) -> Mem<Spawned>
        requires { length self.old.kills < 2 ^ 32 - 1 }
        ensures asked { Asked (host_state self.old) (host_state self.new) (after_spawn self.old.kills)
            (Spawn program.now (map string_bytes args.now)) spawned_answer result }
        ensures number { IfOk result (IsNumbered (length self.old.kills)) }
        ensures made { IfOk result (λ s. Plays self.old self.new
            (Spawn program.now (map string_bytes args.now)) 0 (spawned_answer s)) }
        ensures unchanged { OnErr result (self.new ≡ self.old) }
    {
        let ask = spawn_ask(self.log.allocator(), program, args)?;
        reserve_child(&mut self.log, &mut self.cursors, &mut self.kills)?;
        let fails = is_failing(&self.fails, self.calls);
        let spawned = next_child(fails, self.cursors.len(), self.plays.len());
        self.calls = self.calls.saturating_add(1);
        let answer = answer_to_spawn(spawned);
        self.faults = faults_after(self.faults, &answer);
        add_child(&mut self.cursors, &mut self.kills, spawned);
        self.log.put_spawn(ask, answer, spawned);
        Ok(spawned)
    }

    fn read(&mut self, child: u32, into: &mut [u8]) -> Mem<Got>
        requires there { child < length self.old.kills }
        requires room { 0 < length into.old }
        ensures asked { Asked (host_state self.old) (host_state self.new) (λ _. self.old.kills)
            (Read child) (got_answer into.new) result }
        ensures fits { IfOk result (Fits (length into.new)) }
        ensures made { IfOk result (λ got. Plays self.old self.new (Read child) (length into.old)
            (got_answer into.new got)) }
        ensures room { OnOk result (into.new ≡ room_after into.old
            (reply_to self.old (Read child) (length into.old))) }
        ensures unchanged { OnErr result (self.new ≡ self.old) }
        ensures room_kept { OnErr result (into.new ≡ into.old) }
    {
        let number = child as usize;
        let alloc = self.log.allocator();
        self.log.reserve(1)?;
        let fails = is_failing(&self.fails, self.calls);
        let turn = read_or_fail(
            alloc,
            fails,
            &self.plays[number],
            self.cursors[number],
            into,
        )?;
        self.calls = self.calls.saturating_add(1);
        self.faults = faults_after(self.faults, &turn.answer);
        self.cursors[number] = turn.cursor;
        self.log.put(Ask::Read(child), turn.answer);
        Ok(turn.reply)
    }

    fn end(&mut self, child: u32) -> Mem<Ended>
        requires { child < length self.old.kills }
        ensures asked { Asked (host_state self.old) (host_state self.new) (λ _. self.old.kills)
            (AskEnd child) ended_answer result }
        ensures made { IfOk result (λ ended. Plays self.old self.new (AskEnd child) 0
            (ended_answer ended)) }
        ensures unchanged { OnErr result (self.new ≡ self.old) }
    {
        let number = child as usize;
        self.log.reserve(1)?;
        let fails = is_failing(&self.fails, self.calls);
        let turn = end_or_fail(fails, &self.plays[number], self.cursors[number]);
        self.calls = self.calls.saturating_add(1);
        self.faults = faults_after(self.faults, &turn.answer);
        self.cursors[number] = turn.cursor;
        self.log.put(Ask::End(child), turn.answer);
        Ok(turn.reply)
    }

    fn send(&mut self, child: u32, bytes: &[u8]) -> Mem<SendAnswer>
        requires { child < length self.old.kills }
        ensures asked { Asked (host_state self.old) (host_state self.new) (λ _. self.old.kills)
            (Send child bytes.now) send_answer result }
        ensures made { IfOk result (λ sent. Plays self.old self.new (Send child bytes.now) 0
            (send_answer sent)) }
        ensures unchanged { OnErr result (self.new ≡ self.old) }
    {
        let sent_bytes = list_of(self.log.allocator(), bytes)?;
        self.log.reserve(1)?;
        let sent = send_or_fail(is_failing(&self.fails, self.calls));
        let answer = answer_to_send(sent);
        self.calls = self.calls.saturating_add(1);
        self.faults = faults_after(self.faults, &answer);
        self.log.put(Ask::Send(child, sent_bytes), answer);
        Ok(sent)
    }

    fn close(&mut self, child: u32) -> Mem<()>
        requires { child < length self.old.kills }
        ensures asked { Asked (host_state self.old) (host_state self.new) (λ _. self.old.kills)
            (Close child) (λ _. Closed) result }
        ensures made { OnOk result (Plays self.old self.new (Close child) 0 Closed) }
        ensures unchanged { OnErr result (self.new ≡ self.old) }
    {
        self.log.reserve(1)?;
        self.calls = self.calls.saturating_add(1);
        self.log.put(Ask::Close(child), Answer::Closed);
        Ok(())
    }

    fn told(&self) -> Option<&Exchanges> {
        Some(self.log.list())
    }

    fn kill(&mut self, child: u32) -> KillAnswer
        requires { slice_get self.old.kills child ≡ Some false }
        ensures asked { Exchanged (host_state self.old) (host_state self.new)
            (slice_set self.old.kills child true) (Kill child) (kill_answer result) }
        ensures made { Plays self.old self.new (Kill child) 0 (kill_answer result) }
    {
        let killed = kill_or_fail(is_failing(&self.fails, self.calls));
        let answer = answer_to_kill(killed);
        self.calls = self.calls.saturating_add(1);
        self.faults = faults_after(self.faults, &answer);
        self.kills[child as usize] = true;
        self.log.put_kill(Ask::Kill(child), answer);
        killed
    }
}
