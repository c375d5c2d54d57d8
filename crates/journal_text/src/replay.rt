//! A host that answers as a list of exchanges has it.
ghost use Rattle.std.specs.Prelude.{◌≡◌, ◌-◌, ◌<◌, ◌≤◌, ◌^◌, length, map, false, true};
ghost use Rattle.std.specs.Prelude.{Some, IfOk, OnOk, OnErr, slice_get, slice_set, string_bytes};
ghost use Rattle.std.specs.Prelude.{vec_len, vec_capacity};
ghost use Rattle.plain_machine.specs.Exchanges.{Spawn, Read, AskEnd, Send, Close, Kill, Closed};
ghost use Rattle.host_link.specs.Meaning.{exchanges_of};
ghost use Rattle.host_link.specs.Hosts.{Asked, Exchanged, Fits, IsNumbered, after_spawn};
ghost use Rattle.host_link.specs.Hosts.{spawned_answer, got_answer, ended_answer, send_answer};
ghost use Rattle.host_link.specs.Hosts.{kill_answer};
ghost use Rattle.journal_text.specs.Allowed.{AreAnswered};
ghost use Rattle.journal_text.specs.Replayed.{Replays, host_state, new_replay};

use crate::asking::spawn_ask;
use crate::course::Course;
use crate::reply::{ended, got, kill_reply, reply_to, sent, spawned};
use ek_types::Mem;
use host_link::{
    Ask, Ended, Exchanges, Got, Host, KillAnswer, Log, SendAnswer, Spawned, answer_to_kill,
    faults_after, list_of,
};
use std::marker::Model;

/// Answers the asks of a run as a list of exchanges has them, while they agree, and tells its own exchanges. From the
/// first ask on that differs, or that finds the list used up, it answers `Refused`, `Failed`, `Broken` or `Closed` by
/// the ask's kind. A read whose bytes are longer than the room that it gives is an ask that differs. The count of
/// faults rises with each `Refused`, `Failed` and `Broken`, whether it stands in the list or not.
#[derive(Drop)]
pub struct Replay {
    list: Exchanges,
    course: Course,
    kills: Vec<bool>,
}

impl Model for Replay {
    ghost use Rattle.std.specs.Prelude.{◌≡◌, ◌≤◌, length};
    ghost use Rattle.host_link.specs.Meaning.{exchanges_of};
    ghost use Rattle.host_link.specs.Logged.{kills_due};
    ghost use Rattle.journal_text.specs.Allowed.{AreAnswered};
    ghost use Rattle.journal_text.specs.Replayed.{ReplayState, started_in};

    ghost Value = { ReplayState };

    ghost view = { λ r. record {
      list = exchanges_of r.list;
      matched = r.course.matched;
      strayed = r.course.strayed;
      kills = r.kills.items;
      faults = r.course.faults;
      told = r.course.told.told;
    } };

    ghost invariant = { λ r. (r.course.matched ≤ length (exchanges_of r.list)) ×
        (r.course.told.due ≡ kills_due r.kills.items) × AreAnswered 0 (exchanges_of r.list) ×
        (started_in r.course.matched (exchanges_of r.list) ≡ length r.kills.items) };
}

/// Makes places for a spawn, for the kill of its child and for the child.
fn reserve_child(told: &mut Log, kills: &mut Vec<bool>) -> Mem<()>
    ensures told { told.new.told ≡ told.old.told }
    ensures due { told.new.due ≡ told.old.due }
    ensures kills { kills.new.items ≡ kills.old.items }
    ensures places { OnOk result (2 ≤ told.new.places) }
    ensures room { OnOk result (vec_len kills.new < vec_capacity kills.new) }
{
    told.reserve(2)?;
    kills.reserve(1)?;
    Ok(())
}

/// Adds the child that was started, with no memory taken.
fn add_child(kills: &mut Vec<bool>, spawned: Spawned)
    requires { vec_len kills.old < vec_capacity kills.old }
    ensures { kills.new.items ≡ after_spawn kills.old.items spawned }
{
    match spawned {
        Spawned::Started(_) => kills.push_reserved(false),
        Spawned::Refused => {}
    }
}

impl Replay {
    /// A host that has answered nothing yet, and takes its memory where `list` takes it. Each ask of the list has an
    /// answer that it may have, and children are numbered from 0 in their order.
    pub fn new(list: Exchanges) -> Replay
        requires { AreAnswered 0 (exchanges_of list) }
        ensures { result ≡ new_replay (exchanges_of list) }
    {
        let alloc = list.allocator();
        Replay {
            list,
            course: Course::new(alloc),
            kills: Vec::new(alloc),
        }
    }

    /// Begins again: nothing is answered yet, and nothing told.
    pub fn restart(&mut self)
        ensures { self.new ≡ new_replay self.old.list }
    {
        let alloc = self.list.allocator();
        self.course = Course::new(alloc);
        self.kills = Vec::new(alloc);
    }

    /// How many exchanges of the list were answered, while the asks agreed.
    pub fn matched(&self) -> usize
        ensures { result ≡ self.now.matched }
    {
        self.course.matched
    }

    /// Whether an ask has differed or found the list used up.
    pub fn strayed(&self) -> bool
        ensures { result ≡ self.now.strayed }
    {
        self.course.strayed
    }
}

impl Host for Replay {
    ghost state = { host_state };

    ghost made = { Replays };

    fn spawn(&mut self, program: &str, args: &[String]) -> Mem<Spawned>
        requires { length self.old.kills < 2 ^ 32 - 1 }
        ensures asked { Asked (host_state self.old) (host_state self.new) (after_spawn self.old.kills)
            (Spawn program.now (map string_bytes args.now)) spawned_answer result }
        ensures number { IfOk result (IsNumbered (length self.old.kills)) }
        ensures made { IfOk result (λ s. Replays self.old self.new
            (Spawn program.now (map string_bytes args.now)) 0 (spawned_answer s)) }
        ensures unchanged { OnErr result (self.new ≡ self.old) }
    {
        let ask = spawn_ask(self.list.allocator(), program, args)?;
        let reply = reply_to(
            self.course.strayed,
            &self.list,
            self.course.matched,
            &ask,
            0,
        )?;
        reserve_child(&mut self.course.told, &mut self.kills)?;
        let spawned = spawned(&reply.answer);
        self.course.keep(ask, reply);
        self.course.told.owe(spawned);
        add_child(&mut self.kills, spawned);
        Ok(spawned)
    }

    fn read(&mut self, child: u32, into: &mut [u8]) -> Mem<Got>
        requires there { child < length self.old.kills }
        requires room { 0 < length into.old }
        ensures asked { Asked (host_state self.old) (host_state self.new) (λ _. self.old.kills)
            (Read child) (got_answer into.new) result }
        ensures fits { IfOk result (Fits (length into.new)) }
        ensures made { IfOk result (λ got. Replays self.old self.new (Read child) (length into.old)
            (got_answer into.new got)) }
        ensures room_kept { OnErr result (into.new ≡ into.old) }
        ensures unchanged { OnErr result (self.new ≡ self.old) }
    {
        let ask = Ask::Read(child);
        let reply = self.course.reply_to(&self.list, &ask, into.len())?;
        let got = got(&reply.answer, into);
        self.course.keep(ask, reply);
        Ok(got)
    }

    fn end(&mut self, child: u32) -> Mem<Ended>
        requires { child < length self.old.kills }
        ensures asked { Asked (host_state self.old) (host_state self.new) (λ _. self.old.kills)
            (AskEnd child) ended_answer result }
        ensures made { IfOk result (λ ended. Replays self.old self.new (AskEnd child) 0
            (ended_answer ended)) }
        ensures unchanged { OnErr result (self.new ≡ self.old) }
    {
        let ask = Ask::End(child);
        let reply = self.course.reply_to(&self.list, &ask, 0)?;
        let ended = ended(&reply.answer);
        self.course.keep(ask, reply);
        Ok(ended)
    }

    fn send(&mut self, child: u32, bytes: &[u8]) -> Mem<SendAnswer>
        requires { child < length self.old.kills }
        ensures asked { Asked (host_state self.old) (host_state self.new) (λ _. self.old.kills)
            (Send child bytes.now) send_answer result }
        ensures made { IfOk result (λ sent. Replays self.old self.new (Send child bytes.now) 0
            (send_answer sent)) }
        ensures unchanged { OnErr result (self.new ≡ self.old) }
    {
        let ask = Ask::Send(child, list_of(self.list.allocator(), bytes)?);
        let reply = self.course.reply_to(&self.list, &ask, 0)?;
        let sent = sent(&reply.answer);
        self.course.keep(ask, reply);
        Ok(sent)
    }

    fn close(&mut self, child: u32) -> Mem<()>
        requires { child < length self.old.kills }
        ensures asked { Asked (host_state self.old) (host_state self.new) (λ _. self.old.kills)
            (Close child) (λ _. Closed) result }
        ensures made { OnOk result (Replays self.old self.new (Close child) 0 Closed) }
        ensures unchanged { OnErr result (self.new ≡ self.old) }
    {
        let ask = Ask::Close(child);
        let reply = self.course.reply_to(&self.list, &ask, 0)?;
        self.course.keep(ask, reply);
        Ok(())
    }

    fn told(&self) -> Option<&Exchanges> {
        Some(self.course.told.list())
    }

    fn kill(&mut self, child: u32) -> KillAnswer
        requires { slice_get self.old.kills child ≡ Some false }
        ensures asked { Exchanged (host_state self.old) (host_state self.new)
            (slice_set self.old.kills child true) (Kill child) (kill_answer result) }
        ensures made { Replays self.old self.new (Kill child) 0 (kill_answer result) }
    {
        let reply = kill_reply(self.course.strayed, &self.list, self.course.matched, child);
        let answer = answer_to_kill(reply.killed);
        self.course.matched = reply.matched;
        self.course.strayed = !reply.follows;
        self.course.faults = faults_after(self.course.faults, &answer);
        self.kills[child as usize] = true;
        self.course.told.put_kill(Ask::Kill(child), answer);
        reply.killed
    }
}
