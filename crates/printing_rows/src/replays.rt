//! Replays that follow their list, and that stray from it.
ghost use Rattle.std.specs.Prelude.{◌≡◌, []};

use crate::checking::{is, is_written, read};
use ek_types::Mem;
use host_link::{Host, Spawned};
use journal_text::Replay;
use std::alloc::Global;
use std::process::Abort;

const RUN: &str = "spawn 636174 -> started 0
read 0 -> bytes 6162
read 0 -> end
end 0 -> code 0
";

/// A replay of a journal.
fn replay(rt: &impl Abort, alloc: Global, session: &str) -> Replay
    ensures { result.kills ≡ [] }
{
    match read(rt, alloc, session.as_bytes()) {
        Ok((list, _)) => Replay::new(list),
        Err(_) => panic!(rt; "no journal"),
    }
}

/// A child is started, read twice and asked how it ended.
fn run<H: Host>(alloc: Global, host: &mut H, program: &str, room: &mut [u8]) -> Mem<()>
    requires { (H.state host.old).kills ≡ [] }
{
    let args = Vec::new(alloc);
    if let Spawned::Started(child) = host.spawn(program, args.as_slice())? {
        if room.len() > 0 {
            let _ = host.read(child, room)?;
            let _ = host.read(child, room)?;
        }
        let _ = host.end(child)?;
    }
    Ok(())
}

/// How far a replay came, whether it strayed, and what it tells.
fn assert_told(
    rt: &impl Abort,
    alloc: Global,
    replay: &Replay,
    matched: usize,
    strayed: bool,
    told: &str,
) {
    is(rt, replay.matched(), matched);
    is(rt, replay.strayed(), strayed);
    let list = replay.told().expect(rt, "it tells");
    is_written(rt, alloc, list, told);
}

/// What `run` comes to over the replay of a session.
fn check_run(
    rt: &impl Abort,
    alloc: Global,
    session: &str,
    program: &str,
    room: &mut [u8],
    matched: usize,
    strayed: bool,
    told: &str,
) {
    let mut host = replay(rt, alloc, session);
    run(alloc, &mut host, program, room).expect(rt, "memory");
    assert_told(rt, alloc, &host, matched, strayed, told);
}

#[test]
fn a_run_is_followed(rt: HostRuntime) {
    let session = "spawn 636174 -> started 0
read 0 -> bytes 6162
read 0 -> end
end 0 -> code 0
script
";
    let mut room = [0u8; 4];
    check_run(&rt, rt.alloc(), session, "cat", &mut room, 4, false, RUN);
    is(&rt, room.as_slice(), b"ab\x00\x00".as_slice());
}

#[test]
fn a_replay_strays_behind_a_list_that_is_used_up(rt: HostRuntime) {
    let session = "spawn 636174 -> started 0
read 0 -> bytes 6162
read 0 -> end
script
";
    let told = "spawn 636174 -> started 0
read 0 -> bytes 6162
read 0 -> end
end 0 -> failed
";
    let mut room = [0u8; 4];
    check_run(&rt, rt.alloc(), session, "cat", &mut room, 3, true, told);
}

#[test]
fn a_read_with_too_little_room_strays(rt: HostRuntime) {
    let session = "spawn 636174 -> started 0
read 0 -> bytes 6162
read 0 -> end
end 0 -> code 0
script
";
    let told = "spawn 636174 -> started 0
read 0 -> failed
read 0 -> failed
end 0 -> failed
";
    let mut room = [0u8; 1];
    check_run(&rt, rt.alloc(), session, "cat", &mut room, 1, true, told);
}

#[test]
fn another_program_strays(rt: HostRuntime) {
    let session = "spawn 636174 -> started 0\nscript\n";
    let told = "spawn 626174 -> refused\n";
    let mut room = [0u8; 1];
    check_run(&rt, rt.alloc(), session, "bat", &mut room, 0, true, told);
}

/// A child is started, and its input used and closed.
fn feed<H: Host>(alloc: Global, host: &mut H) -> Mem<()>
    requires { (H.state host.old).kills ≡ [] }
{
    let args = Vec::new(alloc);
    if let Spawned::Started(child) = host.spawn("cat", args.as_slice())? {
        host.close(child)?;
        let _ = host.send(child, b"x")?;
        let _ = host.kill(child);
    }
    Ok(())
}

/// What `feed` comes to over the replay of a session.
fn check_feed(
    rt: &impl Abort,
    alloc: Global,
    session: &str,
    matched: usize,
    strayed: bool,
    told: &str,
) {
    let mut host = replay(rt, alloc, session);
    feed(alloc, &mut host).expect(rt, "memory");
    assert_told(rt, alloc, &host, matched, strayed, told);
}

#[test]
fn a_close_that_was_not_recorded_strays(rt: HostRuntime) {
    let session = "spawn 636174 -> started 0\nkill 0 -> killed\nscript\n";
    let told = "spawn 636174 -> started 0
close 0 -> closed
send 0 78 -> broken
kill 0 -> failed
";
    check_feed(&rt, rt.alloc(), session, 1, true, told);
}

#[test]
fn inputs_are_followed(rt: HostRuntime) {
    let session = "spawn 636174 -> started 0
close 0 -> closed
send 0 78 -> sent
kill 0 -> killed
script
";
    let told = "spawn 636174 -> started 0
close 0 -> closed
send 0 78 -> sent
kill 0 -> killed
";
    check_feed(&rt, rt.alloc(), session, 4, false, told);
}
