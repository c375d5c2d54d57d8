//! Real children as a host. Their standard input and output are pipes, and their standard error is this process's.
//!
//! A read waits for the pipe and the question how a child has ended waits for the child, so this host never answers
//! `Nothing` or `Running`. It tells no exchanges. A child that is killed, or that has ended when it is asked, is
//! reaped.
//!
//! The lines so far are handed on before each call that starts or asks a child, but a kill. A read of an output that is
//! closed, and a send to an input that is, ask nothing. Where the lines can't be handed on no child is asked, and the
//! answer is a fault; only an input is closed all the same. The next line can't be written then, which ends the run.
ghost use Rattle.std.specs.Prelude.{◌≡◌, ◌<◌, ◌-◌, ◌^◌, ℕ, List, [], map, length, None, Some, false, true};
ghost use Rattle.std.specs.Prelude.{vec_len, vec_capacity, slice_get, slice_set, string_bytes, IsSome, IsTrue, IfSome, IfOk, OnOk, OnErr};
ghost use Rattle.std.specs.Io.KnownBytes.{Keeps};
ghost use Rattle.std.specs.Process.{child_status, command_program, command_args, command_var};
ghost use Rattle.std.specs.Process.{command_dir, clears_env};
ghost use Rattle.plain_machine.specs.Exchanges.{Spawn, Read, AskEnd, Send, Close, Kill, Closed};
ghost use Rattle.host_link.specs.Hosts.{Asked, Exchanged, Fits, IsNumbered, after_spawn, is_fault};
ghost use Rattle.host_link.specs.Hosts.{spawned_answer, got_answer, ended_answer, send_answer, kill_answer};
ghost use Rattle.system_host.specs.Answers.{untold, IsChildCall, Gives, InputTakes, EndsAs};

use crate::output::Output;
use ek_types::Mem;
use host_link::{Ended, Exchanges, Got, Host, KillAnswer, SendAnswer, Spawned};
use std::alloc::{AllocError, Global};
use std::io::{self, Read, Write};
use std::marker::Model;
use std::process::{Child, Command, OpenProcess, Processes, Stdio};

/// The children that this process has started, by number, with the count of the calls on them that failed.
pub struct RealHost<'a, R: Processes, W: Write + Drop> {
    rt: &'a R,
    alloc: Global,
    output: &'a Output<W>,
    children: Vec<Child<R::Started>>,
    kills: Vec<bool>,
    faults: u64,
}

impl<'a, R: Processes, W: Write + Drop> Model for RealHost<'a, R, W> {
    ghost use Rattle.std.specs.Prelude.{◌≡◌, vec_len};
    ghost use Rattle.std.specs.declared.process.child.Child.{Child};
    ghost use Rattle.system_host.specs.Answers.{Children};

    ghost Value = { Children (Child R.Started R.Started.Stdin R.Started.Stdout R.Started.Stderr) };

    ghost view = { λ h. record { children = h.children.items; kills = h.kills.items; faults = h.faults } };

    ghost invariant = { λ h. vec_len h.kills ≡ vec_len h.children };
}

impl<'a, R: Processes, W: Write + Drop> RealHost<'a, R, W> {
    /// A host that has started no child, beside the output that lines go to.
    pub fn new(alloc: Global, rt: &'a R, output: &'a Output<W>) -> RealHost<'a, R, W>
        ensures { result ≡ record { children = []; kills = []; faults = 0 } }
    {
        RealHost {
            rt,
            alloc,
            output,
            children: Vec::new(alloc),
            kills: Vec::new(alloc),
            faults: 0,
        }
    }

    /// How many calls have failed.
    pub fn faults(&self) -> u64
        ensures { result ≡ self.now.faults }
    {
        self.faults
    }

    /// Starts a child of a command.
    fn started(&self, command: &mut Command) -> io::Result<Child<R::Started>> {
        self.output.hand_on()?;
        command.spawn(self.rt)
    }

    /// Starts a child of these words.
    fn start(&self, program: &str, args: &[String]) -> Mem<io::Result<Child<R::Started>>> {
        let mut command = command_of(self.alloc, program, args)?;
        Ok(self.started(&mut command))
    }
}

/// Takes room for one child more.
fn reserve_one<C>(children: &mut Vec<C>, kills: &mut Vec<bool>) -> Mem<()>
    ensures children { children.new.items ≡ children.old.items }
    ensures count { vec_len children.new ≡ vec_len children.old }
    ensures kills { kills.new.items ≡ kills.old.items }
    ensures room { IfOk result (λ _. vec_len children.new < vec_capacity children.new) }
    ensures kill { IfOk result (λ _. vec_len kills.new < vec_capacity kills.new) }
{
    children.reserve(1)?;
    kills.reserve(1)?;
    Ok(())
}

/// Reaps what is left: children that were never killed, whose end couldn't be had, or that couldn't be killed. One that
/// can't be killed now either, since it runs as another user, loses its pipes and isn't waited for.
impl<R: Processes, W: Write + Drop> Drop for RealHost<'_, R, W> {
    fn drop(self) {
        let RealHost {
            rt: _,
            alloc: _,
            output: _,
            mut children,
            kills: _,
            faults: _,
        } = self;
        for child in &mut children {
            child.stdin = None;
            child.stdout = None;
            if kill_and_reap(child).is_err() {
                let _ = child.try_wait();
            }
        }
    }
}

/// Ends a child that may still run, and closes its output. One that was waited for already is left alone.
fn kill_and_reap<P: OpenProcess>(child: &mut Child<P>) -> io::Result<()>
    ensures reaped { OnOk result (IsSome (child_status child.new)) }
    ensures again { IfSome (child_status child.old) (λ s. child_status child.new ≡ Some s) }
    ensures closed { OnOk result (child.new.stdin ≡ None) }
{
    child.kill()?;
    child.wait()?;
    child.stdout = None;
    Ok(())
}

/// The command of these words, with pipes for its input and output and with this process's environment and folder.
fn command_of(alloc: Global, program: &str, args: &[String]) -> Result<Command, AllocError>
    ensures program { IfOk result (λ c. command_program c ≡ program.now) }
    ensures args { IfOk result (λ c. command_args c ≡ map string_bytes args.now) }
    ensures environment { IfOk result (λ c. (clears_env c ≡ false) × ((name : List ℕ) → command_var c name ≡ None)) }
    ensures folder { IfOk result (λ c. command_dir c ≡ None) }
{
    let mut command = Command::new(alloc, program)?;
    'words: for word in args {
        command.arg(word.as_str())?;
    }
    command.stdin(Stdio::piped());
    command.stdout(Stdio::piped());
    Ok(command)
}

/// One read of what a child wrote.
fn got_from<R: Read, W: Write + Drop>(
    output: &Output<W>,
    wrote: &mut R,
    room: &mut [u8],
) -> io::Result<Got>
    requires { 0 < length room.old }
    ensures got { IfOk result (λ got. Gives (R.remaining wrote.old) (R.remaining wrote.new)
        (length room.old) (got_answer room.new got)) }
    ensures fits { IfOk result (Fits (length room.new)) }
    ensures no_fault { IfOk result (λ got. is_fault (got_answer room.new got) ≡ false) }
    ensures err { OnErr result (Keeps (R.remaining wrote.old) (R.remaining wrote.new)) }
{
    output.hand_on()?;
    match wrote.read(room)? {
        0 => Ok(Got::End),
        n => Ok(Got::Bytes(n)),
    }
}

/// Puts all bytes into a child's input, and answers whether they went there. They didn't where it was closed, here or by
/// the child; a part may have gone then. They didn't either where the lines that gather can't be handed on: then the child
/// wasn't asked.
fn is_sent<I: Write, W: Write + Drop>(
    output: &Output<W>,
    input: &mut Option<I>,
    bytes: &[u8],
) -> bool
    ensures { IsTrue result → InputTakes I.contents input.old input.new bytes.now }
{
    match input {
        Some(input) => output.hand_on().is_ok() && input.write_all(bytes).is_ok(),
        None => false,
    }
}

/// Closes a child's input and output, and waits for its end, which reaps it.
fn waited_for<P: OpenProcess, W: Write + Drop>(
    output: &Output<W>,
    child: &mut Child<P>,
) -> io::Result<Ended>
    ensures ended { IfOk result (λ ended. EndsAs (child_status child.new) (ended_answer ended)) }
    ensures no_fault { IfOk result (λ ended. is_fault (ended_answer ended) ≡ false) }
    ensures reaped { OnOk result (IsSome (child_status child.new)) }
    ensures again { IfSome (child_status child.old) (λ s. child_status child.new ≡ Some s) }
    ensures closed { child.new.stdin ≡ None }
{
    child.stdin = None;
    output.hand_on()?;
    // Nothing reads it any more: a child that still writes would wait for ever.
    child.stdout = None;
    match child.wait()?.code() {
        Some(code) => Ok(Ended::Code(code)),
        None => Ok(Ended::Signal),
    }
}

impl<'a, R: Processes, W: Write + Drop> Host for RealHost<'a, R, W> {
    ghost state = { untold };

    ghost made = { IsChildCall R.Started.Stdout.remaining R.Started.Stdin.contents };

    /// Want of memory inside the system's own call counts as a refusal.
    fn spawn(&mut self, program: &str, args: &[String]) -> Mem<Spawned>
        requires { length self.old.kills < 2 ^ 32 - 1 }
        ensures asked { Asked (untold self.old) (untold self.new)
            (after_spawn self.old.kills) (Spawn program.now (map string_bytes args.now)) spawned_answer result }
        ensures number { IfOk result (IsNumbered (length self.old.kills)) }
        ensures made { IfOk result (λ s. IsChildCall R.Started.Stdout.remaining R.Started.Stdin.contents
            self.old self.new (Spawn program.now (map string_bytes args.now)) 0 (spawned_answer s)) }
        ensures unchanged { OnErr result (self.new ≡ self.old) }
    {
        reserve_one(&mut self.children, &mut self.kills)?;
        match self.start(program, args)? {
            Ok(child) => {
                let number = self.children.len() as u32;
                self.children.push_reserved(child);
                self.kills.push_reserved(false);
                Ok(Spawned::Started(number))
            }
            Err(_) => {
                self.faults = self.faults.saturating_add(1);
                Ok(Spawned::Refused)
            }
        }
    }

    fn read(&mut self, child: u32, into: &mut [u8]) -> Mem<Got>
        requires there { child < length self.old.kills }
        requires room { 0 < length into.old }
        ensures asked { Asked (untold self.old) (untold self.new)
            (λ _. self.old.kills) (Read child) (got_answer into.new) result }
        ensures fits { IfOk result (Fits (length into.new)) }
        ensures room_kept { OnErr result (into.new ≡ into.old) }
        ensures made { IfOk result (λ got. IsChildCall R.Started.Stdout.remaining R.Started.Stdin.contents
            self.old self.new (Read child) (length into.old) (got_answer into.new got)) }
        ensures unchanged { OnErr result (self.new ≡ self.old) }
    {
        let Some(stdout) = &mut self.children[child as usize].stdout else {
            return Ok(Got::End);
        };
        match got_from(self.output, stdout, into) {
            Ok(got) => Ok(got),
            Err(_) => {
                self.faults = self.faults.saturating_add(1);
                Ok(Got::Failed)
            }
        }
    }

    fn end(&mut self, child: u32) -> Mem<Ended>
        requires { child < length self.old.kills }
        ensures asked { Asked (untold self.old) (untold self.new)
            (λ _. self.old.kills) (AskEnd child) ended_answer result }
        ensures made { IfOk result (λ ended. IsChildCall R.Started.Stdout.remaining R.Started.Stdin.contents
            self.old self.new (AskEnd child) 0 (ended_answer ended)) }
        ensures unchanged { OnErr result (self.new ≡ self.old) }
    {
        match waited_for(self.output, &mut self.children[child as usize]) {
            Ok(ended) => Ok(ended),
            Err(_) => {
                self.faults = self.faults.saturating_add(1);
                Ok(Ended::Failed)
            }
        }
    }

    fn send(&mut self, child: u32, bytes: &[u8]) -> Mem<SendAnswer>
        requires { child < length self.old.kills }
        ensures asked { Asked (untold self.old) (untold self.new)
            (λ _. self.old.kills) (Send child bytes.now) send_answer result }
        ensures made { IfOk result (λ sent. IsChildCall R.Started.Stdout.remaining R.Started.Stdin.contents
            self.old self.new (Send child bytes.now) 0 (send_answer sent)) }
        ensures unchanged { OnErr result (self.new ≡ self.old) }
    {
        if is_sent(self.output, &mut self.children[child as usize].stdin, bytes) {
            Ok(SendAnswer::Sent)
        } else {
            self.faults = self.faults.saturating_add(1);
            Ok(SendAnswer::Broken)
        }
    }

    fn close(&mut self, child: u32) -> Mem<()>
        requires { child < length self.old.kills }
        ensures asked { Asked (untold self.old) (untold self.new)
            (λ _. self.old.kills) (Close child) (λ _. Closed) result }
        ensures made { OnOk result (IsChildCall R.Started.Stdout.remaining R.Started.Stdin.contents
            self.old self.new (Close child) 0 Closed) }
        ensures unchanged { OnErr result (self.new ≡ self.old) }
    {
        let _ = self.output.hand_on();
        self.children[child as usize].stdin = None;
        Ok(())
    }

    fn told(&self) -> Option<&Exchanges> {
        None
    }

    /// Kills the child and reaps it.
    fn kill(&mut self, child: u32) -> KillAnswer
        requires { slice_get self.old.kills child ≡ Some false }
        ensures asked { Exchanged (untold self.old) (untold self.new)
            (slice_set self.old.kills child true) (Kill child) (kill_answer result) }
        ensures made { IsChildCall R.Started.Stdout.remaining R.Started.Stdin.contents
            self.old self.new (Kill child) 0 (kill_answer result) }
    {
        self.kills[child as usize] = true;
        match kill_and_reap(&mut self.children[child as usize]) {
            Ok(()) => KillAnswer::Killed,
            Err(_) => {
                self.faults = self.faults.saturating_add(1);
                KillAnswer::Failed
            }
        }
    }
}
