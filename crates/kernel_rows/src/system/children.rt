//! Real children: what is heard of them, how they end, and what they are no longer asked.
ghost use Rattle.std.specs.Prelude.{◌≡◌, ◌<◌, ◌-◌, ◌^◌, length, IfOk};

use crate::comparing::{holds, is, is_for};
use ek_types::Mem;
use host_link::{Ended, Got, Host, KillAnswer, SendAnswer, Spawned};
use std::alloc::{AllocError, Global};
use std::io::{self, Write};
use std::test::Fail;
use system_host::{Hand, Output, RealHost};

fn words(alloc: Global, script: &str) -> Result<Vec<String>, AllocError> {
    let mut words = Vec::new(alloc);
    words.push(String::from_str(alloc, "-c")?)?;
    words.push(String::from_str(alloc, script)?)?;
    Ok(words)
}

/// Reads to the end of a child's output, and counts its bytes.
fn output_size<H: Host>(host: &mut H, child: u32) -> Mem<u64>
    requires { child < length (H.state host.old).kills }
    ensures { IfOk result (λ _. (H.state host.new).kills ≡ (H.state host.old).kills) }
{
    let mut room = [0u8; 4096];
    let mut size = 0u64;
    for _ in 0..u64::MAX {
        let Got::Bytes(n) = host.read(child, &mut room)? else {
            break;
        };
        size = size.saturating_add(n as u64);
    }
    Ok(size)
}

/// What became of a shell's script: how many bytes it wrote and how it ended.
fn heard_out<H: Host>(alloc: Global, host: &mut H, script: &str) -> Mem<Option<(u64, Ended)>>
    requires { length (H.state host.old).kills < 2 ^ 32 - 1 }
{
    let words = words(alloc, script)?;
    let Spawned::Started(child) = host.spawn("sh", words.as_slice())? else {
        return Ok(None);
    };
    let size = output_size(host, child)?;
    let ended = host.end(child)?;
    Ok(Some((size, ended)))
}

#[test]
fn children_are_heard_out(rt: HostRuntime) -> Result<(), Fail> {
    let cases = [
        ("exit 0", 0, Ended::Code(0)),
        ("printf 'b\\na\\n' | sort; exit 3", 4, Ended::Code(3)),
        ("printf x; kill -9 $$", 1, Ended::Signal),
        ("head -c 1048576 /dev/zero", 1_048_576, Ended::Code(0)),
        ("exec 1>&-; exit 7", 0, Ended::Code(7)),
    ];
    let nowhere = Output::new(rt.alloc(), io::sink())?;
    for (script, size, ended) in cases {
        let mut host = RealHost::new(rt.alloc(), &rt, &nowhere);
        let heard = heard_out(rt.alloc(), &mut host, script)?;
        is_for(&rt, script, heard, Some((size, ended)));
        is_for(&rt, script, host.faults(), 0);
    }
    Ok(())
}

#[test]
fn a_program_that_is_not_there_is_refused(rt: HostRuntime) -> Result<(), Fail> {
    let nowhere = Output::new(rt.alloc(), io::sink())?;
    let mut host = RealHost::new(rt.alloc(), &rt, &nowhere);
    is(&rt, host.spawn("no-such-program", &[])?, Spawned::Refused);
    is(&rt, host.faults(), 1);
    Ok(())
}

#[test]
fn what_is_sent_comes_back_and_the_input_is_closed(rt: HostRuntime) -> Result<(), Fail> {
    let nowhere = Output::new(rt.alloc(), io::sink())?;
    let mut host = RealHost::new(rt.alloc(), &rt, &nowhere);
    let mut room = [0u8; 16];
    let Spawned::Started(child) = host.spawn("cat", &[])? else {
        return Err(Fail::from("refused"));
    };
    is(&rt, host.send(child, b"hi")?, SendAnswer::Sent);
    is(&rt, host.read(child, &mut room)?, Got::Bytes(2));
    is(&rt, &room[..2], b"hi".as_slice());
    host.close(child)?;
    is(&rt, host.read(child, &mut room)?, Got::End);
    is(&rt, host.send(child, b"late")?, SendAnswer::Broken);
    is(&rt, host.end(child)?, Ended::Code(0));
    is(&rt, host.faults(), 1);
    Ok(())
}

#[test]
fn an_input_that_the_child_closed_is_broken(rt: HostRuntime) -> Result<(), Fail> {
    let nowhere = Output::new(rt.alloc(), io::sink())?;
    let mut host = RealHost::new(rt.alloc(), &rt, &nowhere);
    let words = words(rt.alloc(), "exec 0<&-; echo ready; exec sleep 30")?;
    let mut room = [0u8; 16];
    let Spawned::Started(child) = host.spawn("sh", words.as_slice())? else {
        return Err(Fail::from("refused"));
    };
    is(&rt, host.read(child, &mut room)?, Got::Bytes(6));
    is(&rt, host.send(child, b"hi")?, SendAnswer::Broken);
    is(&rt, host.kill(child), KillAnswer::Killed);
    Ok(())
}

#[test]
fn a_child_that_is_never_read_is_killed(rt: HostRuntime) -> Result<(), Fail> {
    let nowhere = Output::new(rt.alloc(), io::sink())?;
    let mut host = RealHost::new(rt.alloc(), &rt, &nowhere);
    let Spawned::Started(child) = host.spawn("yes", &[])? else {
        return Err(Fail::from("refused"));
    };
    is(&rt, host.kill(child), KillAnswer::Killed);
    is(&rt, host.faults(), 0);
    Ok(())
}

#[test]
fn a_child_that_still_writes_is_waited_for(rt: HostRuntime) -> Result<(), Fail> {
    let nowhere = Output::new(rt.alloc(), io::sink())?;
    let mut host = RealHost::new(rt.alloc(), &rt, &nowhere);
    let words = words(rt.alloc(), "head -c 1048576 /dev/zero; exit 3")?;
    let Spawned::Started(child) = host.spawn("sh", words.as_slice())? else {
        return Err(Fail::from("refused"));
    };
    is(&rt, host.end(child)?, Ended::Code(3));
    is(&rt, host.faults(), 0);
    Ok(())
}

/// A child that can't be asked, since the lines before couldn't be handed on, is told as a fault. Its input is closed
/// all the same, and it is killed.
#[test]
fn no_child_is_asked_behind_a_line_that_is_lost(rt: HostRuntime) -> Result<(), Fail> {
    let mut full = [0u8; 1];
    let output = Output::new(rt.alloc(), full.as_mut_slice())?;
    let mut host = RealHost::new(rt.alloc(), &rt, &output);
    let mut room = [0u8; 16];
    let Spawned::Started(child) = host.spawn("cat", &[])? else {
        return Err(Fail::from("refused"));
    };
    is(&rt, host.send(child, b"hi")?, SendAnswer::Sent);
    Hand { output: &output }.write_all(b"two")?;
    is(&rt, host.read(child, &mut room)?, Got::Failed);
    is(&rt, host.send(child, b"hi")?, SendAnswer::Broken);
    holds(&rt, Hand { output: &output }.write(b"x").is_err());
    host.close(child)?;
    is(&rt, host.end(child)?, Ended::Failed);
    is(&rt, host.kill(child), KillAnswer::Killed);
    is(&rt, host.spawn("cat", &[])?, Spawned::Refused);
    is(&rt, host.faults(), 4);
    Ok(())
}
