//! A recorder: a host that hands each call to another host and keeps the exchanges.
ghost use Rattle.std.specs.Prelude.{◌≡◌, ◌-◌, ◌<◌, ◌≤◌, ◌^◌, length, map, [], false, true, Some, IfOk};
ghost use Rattle.std.specs.Prelude.{OnOk, OnErr, slice_get, slice_set, string_bytes};
ghost use Rattle.plain_machine.specs.Exchanges.{Spawn, Read, AskEnd, Send, Close, Kill, Closed};
ghost use Rattle.ek_types.specs.Listing.{items_of, spare_of};
ghost use Rattle.host_link.specs.Hosts.{Asked, Exchanged, Fits, IsNumbered, after_spawn};
ghost use Rattle.host_link.specs.Hosts.{spawned_answer, got_answer, ended_answer, send_answer};
ghost use Rattle.host_link.specs.Hosts.{kill_answer};
ghost use Rattle.host_link.specs.Recorded.{recorded_state, Records, RecordsOnce};

use crate::answering::{
    answer_to_end, answer_to_kill, answer_to_read, answer_to_send, answer_to_spawn,
};
use crate::asking::{Answer, Ask, ByteList, Exchanges, list_of, spawn_ask};
use crate::host::{Ended, Got, Host, KillAnswer, SendAnswer, Spawned};
use crate::log::Log;
use ek_types::{ListOf, Mem};
use std::alloc::Global;
use std::marker::Model;

/// Keeps and tells the exchanges of another host. Each call but `told` is made once on that host, and its answer handed
/// on; memory for keeping it is taken before that host is asked.
#[derive(Drop)]
pub struct Recorder<H: Host> {
    inner: H,
    log: Log,
}

impl<H: Host> Model for Recorder<H> {
    ghost use Rattle.std.specs.Prelude.{◌≡◌};
    ghost use Rattle.host_link.specs.Recorded.{Recorded};
    ghost use Rattle.host_link.specs.Logged.{kills_due};

    ghost Value = { Recorded H };

    ghost view = { λ r. record { inner = r.inner; told = r.log.told } };

    ghost invariant = { λ r. r.log.due ≡ kills_due (H.state r.inner).kills };
}

impl<H: Host> Recorder<H> {
    /// A recorder, with no exchange yet, over a host that has started no child.
    pub fn new(alloc: Global, inner: H) -> Recorder<H>
        requires { (H.state inner).kills ≡ [] }
        ensures inner { result.inner ≡ inner }
        ensures told { result.told ≡ [] }
    {
        Recorder {
            inner,
            log: Log::new(alloc),
        }
    }
}

/// An empty list with room for so many bytes.
fn room_for(alloc: Global, len: usize) -> Mem<ByteList>
    ensures empty { IfOk result (λ room. items_of room ≡ []) }
    ensures spare { IfOk result (λ room. len ≤ spare_of room) }
{
    let mut room = ListOf::new(alloc);
    room.reserve(len)?;
    Ok(room)
}

impl<H: Host> Host for Recorder<H> {
    ghost state = { λ r. recorded_state (H.state r.inner) r.told };

    ghost made = { λ r s ask room answer. H.made r.inner s.inner ask room answer };

    fn spawn(&mut self, program: &str, args: &[String]) -> Mem<Spawned>
        requires { length (H.state self.old.inner).kills < 2 ^ 32 - 1 }
        ensures asked { Asked (recorded_state (H.state self.old.inner) self.old.told)
            (recorded_state (H.state self.new.inner) self.new.told)
            (after_spawn (H.state self.old.inner).kills) (Spawn program.now (map string_bytes args.now))
            spawned_answer result }
        ensures number { IfOk result (IsNumbered (length (H.state self.old.inner).kills)) }
        ensures inner { RecordsOnce (H.state self.old.inner) (H.state self.new.inner) self.old.told
            self.new.told (after_spawn (H.state self.old.inner).kills)
            (Spawn program.now (map string_bytes args.now)) spawned_answer result }
        ensures made { IfOk result (λ s. H.made self.old.inner self.new.inner
            (Spawn program.now (map string_bytes args.now)) 0 (spawned_answer s)) }
        ensures unchanged { OnErr result (self.new ≡ self.old) }
    {
        let ask = spawn_ask(self.log.allocator(), program, args)?;
        self.log.reserve(2)?;
        let spawned = self.inner.spawn(program, args)?;
        self.log.put_spawn(ask, answer_to_spawn(spawned), spawned);
        Ok(spawned)
    }

    fn read(&mut self, child: u32, into: &mut [u8]) -> Mem<Got>
        requires there { child < length (H.state self.old.inner).kills }
        requires room { 0 < length into.old }
        ensures asked { Asked (recorded_state (H.state self.old.inner) self.old.told)
            (recorded_state (H.state self.new.inner) self.new.told) (λ _. (H.state self.old.inner).kills)
            (Read child) (got_answer into.new) result }
        ensures fits { IfOk result (Fits (length into.new)) }
        ensures inner { RecordsOnce (H.state self.old.inner) (H.state self.new.inner) self.old.told
            self.new.told (λ _. (H.state self.old.inner).kills) (Read child) (got_answer into.new) result }
        ensures made { IfOk result (λ got. H.made self.old.inner self.new.inner (Read child)
            (length into.old) (got_answer into.new got)) }
        ensures room_kept { OnErr result (into.new ≡ into.old) }
        ensures unchanged { OnErr result (self.new ≡ self.old) }
    {
        let alloc = self.log.allocator();
        let room = room_for(alloc, into.len())?;
        self.log.reserve(1)?;
        let got = self.inner.read(child, into)?;
        self.log
            .put(Ask::Read(child), answer_to_read(alloc, got, into, room));
        Ok(got)
    }

    fn end(&mut self, child: u32) -> Mem<Ended>
        requires { child < length (H.state self.old.inner).kills }
        ensures asked { Asked (recorded_state (H.state self.old.inner) self.old.told)
            (recorded_state (H.state self.new.inner) self.new.told) (λ _. (H.state self.old.inner).kills)
            (AskEnd child) ended_answer result }
        ensures inner { RecordsOnce (H.state self.old.inner) (H.state self.new.inner) self.old.told
            self.new.told (λ _. (H.state self.old.inner).kills) (AskEnd child) ended_answer result }
        ensures made { IfOk result (λ ended. H.made self.old.inner self.new.inner (AskEnd child) 0
            (ended_answer ended)) }
        ensures unchanged { OnErr result (self.new ≡ self.old) }
    {
        self.log.reserve(1)?;
        let ended = self.inner.end(child)?;
        self.log.put(Ask::End(child), answer_to_end(ended));
        Ok(ended)
    }

    fn send(&mut self, child: u32, bytes: &[u8]) -> Mem<SendAnswer>
        requires { child < length (H.state self.old.inner).kills }
        ensures asked { Asked (recorded_state (H.state self.old.inner) self.old.told)
            (recorded_state (H.state self.new.inner) self.new.told) (λ _. (H.state self.old.inner).kills)
            (Send child bytes.now) send_answer result }
        ensures inner { RecordsOnce (H.state self.old.inner) (H.state self.new.inner) self.old.told
            self.new.told (λ _. (H.state self.old.inner).kills) (Send child bytes.now) send_answer result }
        ensures made { IfOk result (λ sent. H.made self.old.inner self.new.inner (Send child bytes.now) 0
            (send_answer sent)) }
        ensures unchanged { OnErr result (self.new ≡ self.old) }
    {
        let sent_bytes = list_of(self.log.allocator(), bytes)?;
        self.log.reserve(1)?;
        let sent = self.inner.send(child, bytes)?;
        self.log
            .put(Ask::Send(child, sent_bytes), answer_to_send(sent));
        Ok(sent)
    }

    fn close(&mut self, child: u32) -> Mem<()>
        requires { child < length (H.state self.old.inner).kills }
        ensures asked { Asked (recorded_state (H.state self.old.inner) self.old.told)
            (recorded_state (H.state self.new.inner) self.new.told) (λ _. (H.state self.old.inner).kills)
            (Close child) (λ _. Closed) result }
        ensures inner { RecordsOnce (H.state self.old.inner) (H.state self.new.inner) self.old.told
            self.new.told (λ _. (H.state self.old.inner).kills) (Close child) (λ _. Closed) result }
        ensures made { OnOk result (H.made self.old.inner self.new.inner (Close child) 0 Closed) }
        ensures unchanged { OnErr result (self.new ≡ self.old) }
    {
        self.log.reserve(1)?;
        self.inner.close(child)?;
        self.log.put(Ask::Close(child), Answer::Closed);
        Ok(())
    }

    fn told(&self) -> Option<&Exchanges> {
        Some(self.log.list())
    }

    fn kill(&mut self, child: u32) -> KillAnswer
        requires { slice_get (H.state self.old.inner).kills child ≡ Some false }
        ensures asked { Exchanged (recorded_state (H.state self.old.inner) self.old.told)
            (recorded_state (H.state self.new.inner) self.new.told)
            (slice_set (H.state self.old.inner).kills child true) (Kill child) (kill_answer result) }
        ensures inner { Records (H.state self.old.inner) (H.state self.new.inner) self.old.told
            self.new.told (slice_set (H.state self.old.inner).kills child true) (Kill child)
            (kill_answer result) }
        ensures made { H.made self.old.inner self.new.inner (Kill child) 0 (kill_answer result) }
    {
        let killed = self.inner.kill(child);
        self.log.put_kill(Ask::Kill(child), answer_to_kill(killed));
        killed
    }
}
