//! The trait of a host: what the kernel asks of the outside.
ghost use Rattle.std.specs.Prelude.{◌≡◌, ℕ, ◌-◌, ◌<◌, ◌^◌, length, map, false, true, Some, IfOk};
ghost use Rattle.std.specs.Prelude.{OnOk, OnErr, slice_get, slice_set, string_bytes};
ghost use Rattle.std.specs.Option.{option_map};
ghost use Rattle.plain_machine.specs.Exchanges.{Ask, Answer, Spawn, Read, AskEnd, Send, Close};
ghost use Rattle.plain_machine.specs.Exchanges.{Kill, Closed};
ghost use Rattle.host_link.specs.Meaning.{exchanges_of};
ghost use Rattle.host_link.specs.Hosts.{HostState, Asked, Exchanged, Fits, IsNumbered, after_spawn};
ghost use Rattle.host_link.specs.Hosts.{spawned_answer, got_answer, ended_answer, send_answer};
ghost use Rattle.host_link.specs.Hosts.{kill_answer};

use crate::asking::Exchanges;
use ek_types::Mem;

/// The answer to a spawn: the number of the child, or no child.
#[derive(Clone, Copy, Debug, PartialEq, Eq)]
pub enum Spawned {
    Started(u32),
    Refused,
}

/// The answer to a read of a child's output.
#[derive(Clone, Copy, Debug, PartialEq, Eq)]
pub enum Got {
    /// So many bytes stand at the front of the room given, at least one.
    Bytes(usize),
    Nothing,
    End,
    Failed,
}

/// The answer to the question how a child has ended.
#[derive(Clone, Copy, Debug, PartialEq, Eq)]
pub enum Ended {
    Code(i32),
    Signal,
    Running,
    Failed,
}

/// The answer to bytes that are sent.
#[derive(Clone, Copy, Debug, PartialEq, Eq)]
pub enum SendAnswer {
    Sent,
    Broken,
}

/// The answer to a kill.
#[derive(Clone, Copy, Debug, PartialEq, Eq)]
pub enum KillAnswer {
    Killed,
    Failed,
}

/// The outside of a run. Children are numbered from 0 in the order in which they are started.
///
/// Each call but `told` is one exchange, and a child that it names was started before. `NoMemory` comes before anything
/// was asked and leaves the host as it was.
/// `Refused`, `Failed` and `Broken` come only where the count of faults rose in that call; the count never falls and
/// stays at 2^64 - 1 once it stands there. `Nothing` and `Running` are the host's word.
pub trait Host {
    /// The exchanges, where the host tells them, the count of faults, and which children were asked Kill.
    ghost state: { Self → HostState };

    /// What a call did, in the host's own words: the host before and after it, the ask, for how many bytes there was room
    /// (0 but in a read), and the answer. Code over any host has this by the call alone. So whoever hands calls on
    /// shows by it that each was made once, also where the host tells no exchanges.
    ghost made: { Self → Self → Ask → ℕ → Answer → Type 0 } = { λ _ _ _ _ _. Unit {0} };

    /// Starts a program, where fewer than 2^32 - 1 children were started before. A child that is started has the next
    /// number; `Refused` starts none.
    fn spawn(&mut self, program: &str, args: &[String]) -> Mem<Spawned>
        requires { length (state self.old).kills < 2 ^ 32 - 1 }
        ensures asked { Asked (state self.old) (state self.new) (after_spawn (state self.old).kills)
            (Spawn program.now (map string_bytes args.now)) spawned_answer result }
        ensures number { IfOk result (IsNumbered (length (state self.old).kills)) }
        ensures made { IfOk result (λ s. made self.old self.new
            (Spawn program.now (map string_bytes args.now)) 0 (spawned_answer s)) }
        ensures unchanged { OnErr result (self.new ≡ self.old) };

    /// Takes bytes of a child's output to the front of `into`, which isn't empty. `NoMemory` leaves `into` as it was.
    fn read(&mut self, child: u32, into: &mut [u8]) -> Mem<Got>
        requires there { child < length (state self.old).kills }
        requires room { 0 < length into.old }
        ensures asked { Asked (state self.old) (state self.new) (λ _. (state self.old).kills)
            (Read child) (got_answer into.new) result }
        ensures fits { IfOk result (Fits (length into.new)) }
        ensures made { IfOk result (λ got. made self.old self.new (Read child) (length into.old)
            (got_answer into.new got)) }
        ensures room_kept { OnErr result (into.new ≡ into.old) }
        ensures unchanged { OnErr result (self.new ≡ self.old) };

    /// Asks how a child has ended.
    fn end(&mut self, child: u32) -> Mem<Ended>
        requires { child < length (state self.old).kills }
        ensures asked { Asked (state self.old) (state self.new) (λ _. (state self.old).kills) (AskEnd child)
            ended_answer result }
        ensures made { IfOk result (λ ended. made self.old self.new (AskEnd child) 0
            (ended_answer ended)) }
        ensures unchanged { OnErr result (self.new ≡ self.old) };

    /// Sends bytes to a child's input.
    fn send(&mut self, child: u32, bytes: &[u8]) -> Mem<SendAnswer>
        requires { child < length (state self.old).kills }
        ensures asked { Asked (state self.old) (state self.new) (λ _. (state self.old).kills)
            (Send child bytes.now) send_answer result }
        ensures made { IfOk result (λ sent. made self.old self.new (Send child bytes.now) 0
            (send_answer sent)) }
        ensures unchanged { OnErr result (self.new ≡ self.old) };

    /// Closes a child's input.
    fn close(&mut self, child: u32) -> Mem<()>
        requires { child < length (state self.old).kills }
        ensures asked { Asked (state self.old) (state self.new) (λ _. (state self.old).kills) (Close child)
            (λ _. Closed) result }
        ensures made { OnOk result (made self.old self.new (Close child) 0 Closed) }
        ensures unchanged { OnErr result (self.new ≡ self.old) };

    /// The exchanges so far, exactly where the host tells.
    fn told(&self) -> Option<&Exchanges>
        ensures { option_map (λ list. exchanges_of list.now) result ≡ (state self.now).told };

    /// Asks that a child be killed, at most once for each child. It takes no memory.
    fn kill(&mut self, child: u32) -> KillAnswer
        requires { slice_get (state self.old).kills child ≡ Some false }
        ensures asked { Exchanged (state self.old) (state self.new)
            (slice_set (state self.old).kills child true) (Kill child) (kill_answer result) }
        ensures made { made self.old self.new (Kill child) 0 (kill_answer result) };
}
