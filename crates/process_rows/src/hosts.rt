//! A host in memory and a recorder: every kind of call with its line, calls that fail, and spawns that are refused.
ghost use Rattle.std.specs.Prelude.{◌≡◌, ◌∷◌, [], false, true};

use crate::checking::is;
use ek_types::{Copied, ListOf};
use host_link::{Answer, Answers, Exchanges, Host, MemoryHost, Play, Recorder, Spawned};
use std::alloc::Global;
use std::process::Abort;

/// Two answers.
fn answers(rt: &impl Abort, alloc: Global, first: Answer, second: Answer) -> Answers {
    let mut list = ListOf::new(alloc);
    list.push(first).expect(rt, "memory");
    list.push(second).expect(rt, "memory");
    list
}

/// The answer to a read that gives "abc".
fn abc(rt: &impl Abort, alloc: Global) -> Answer {
    let mut list = ListOf::new(alloc);
    for byte in b"abc" {
        list.push(*byte).expect(rt, "memory");
    }
    Answer::Bytes(list)
}

/// One child that is read as "abc" and then by an answer of another kind, and has ended with code 3.
fn host(rt: &impl Abort, alloc: Global, fails: &[u32]) -> MemoryHost
    ensures { result.kills ≡ [] }
{
    let play = Play {
        reads: answers(rt, alloc, abc(rt, alloc), Answer::Sent),
        ends: answers(rt, alloc, Answer::Nothing, Answer::Code(3)),
    };
    let mut plays = Vec::new(alloc);
    plays.push(play).expect(rt, "memory");
    MemoryHost::new(plays, fails.to_vec(alloc).expect(rt, "memory"))
}

/// A line for each exchange.
fn shown(rt: &impl Abort, alloc: Global, list: &Exchanges) -> String {
    let mut text = String::new(alloc);
    for exchange in list.as_slice() {
        writeln!(text, "{exchange}").expect(rt, "memory");
    }
    text
}

/// Whether the program is started.
fn starts<H: Host>(rt: &impl Abort, alloc: Global, host: &mut H) -> bool
    requires { (H.state host.old).kills ≡ [] }
    ensures { result ≡ true → (H.state host.new).kills ≡ false ∷ [] }
{
    let option = String::from_str(alloc, "-u").expect(rt, "memory");
    let args = [option];
    match host.spawn("cat", &args).expect(rt, "memory") {
        Spawned::Started(_) => true,
        Spawned::Refused => false,
    }
}

#[derive(Clone, Copy)]
enum Call {
    Read,
    Send,
    Close,
    End,
}

/// Every kind of call but a kill.
const CALLS: [Call; 9] = [
    Call::Read,
    Call::Read,
    Call::Read,
    Call::Read,
    Call::Send,
    Call::Close,
    Call::End,
    Call::End,
    Call::End,
];

/// A call on the child.
fn make<H: Host>(rt: &impl Abort, host: &mut H, call: Call)
    requires { (H.state host.old).kills ≡ false ∷ [] }
    ensures { (H.state host.new).kills ≡ false ∷ [] }
{
    match call {
        Call::Read => {
            let _ = host.read(0, &mut [0u8; 2]).expect(rt, "memory");
        }
        Call::Send => {
            let _ = host.send(0, b"xy").expect(rt, "memory");
        }
        Call::Close => host.close(0).expect(rt, "memory"),
        Call::End => {
            let _ = host.end(0).expect(rt, "memory");
        }
    }
}

/// Every kind of call on a host that has one play.
fn all_calls<H: Host>(rt: &impl Abort, alloc: Global, host: &mut H)
    requires { (H.state host.old).kills ≡ [] }
{
    if starts(rt, alloc, host) {
        for call in CALLS {
            make(rt, host, call);
        }
        let _ = host.kill(0);
    }
}

const ALL: &str = "spawn cat -u: started 0
read 0: bytes ab
read 0: bytes c
read 0: nothing
read 0: end
send 0 xy: sent
close 0: closed
end 0: running
end 0: code 3
end 0: code 0
kill 0: killed
";

/// The exchanges that a host tells.
fn told<'a, H: Host>(rt: &impl Abort, host: &'a H) -> &'a Exchanges {
    host.told().expect(rt, "the host tells")
}

/// What a host tells.
fn tells<H: Host>(rt: &impl Abort, alloc: Global, host: &H, expected: &str) {
    is(rt, shown(rt, alloc, told(rt, host)).as_str(), expected);
}

/// A host whose calls of these numbers fail, behind every kind of call.
fn played(rt: &impl Abort, alloc: Global, fails: &[u32]) -> MemoryHost {
    let mut host = host(rt, alloc, fails);
    all_calls(rt, alloc, &mut host);
    host
}

#[test]
fn a_copy_of_exchanges_tells_the_same(rt: HostRuntime) {
    let host = played(&rt, rt.alloc(), &[]);
    let copy = told(&rt, &host).copy().expect(&rt, "memory");
    is(&rt, shown(&rt, rt.alloc(), &copy).as_str(), ALL);
}

#[test]
fn a_recorder_tells_what_its_inner_host_answers(rt: HostRuntime) {
    let inner = host(&rt, rt.alloc(), &[]);
    let mut recorder = Recorder::new(rt.alloc(), inner);
    all_calls(&rt, rt.alloc(), &mut recorder);
    tells(&rt, rt.alloc(), &recorder, ALL);
}

const FAILING: &str = "spawn cat -u: started 0
read 0: failed
read 0: bytes ab
read 0: failed
read 0: bytes c
send 0 xy: broken
close 0: closed
end 0: failed
end 0: running
end 0: failed
kill 0: failed
";

const REFUSED: &str = "spawn cat -u: refused\n";

/// The calls that fail, and what is told then.
struct Row {
    fails: &'static [u32],
    told: &'static str,
}

/// None fails, some use up no answer, and a spawn that fails starts no child.
const ROWS: [Row; 3] = [
    Row {
        fails: &[],
        told: ALL,
    },
    Row {
        fails: &[1, 3, 5, 7, 9, 10],
        told: FAILING,
    },
    Row {
        fails: &[0],
        told: REFUSED,
    },
];

#[test]
fn a_child_is_played_in_order_but_for_calls_that_fail(rt: HostRuntime) {
    for row in &ROWS {
        let host = played(&rt, rt.alloc(), row.fails);
        tells(&rt, rt.alloc(), &host, row.told);
    }
}

#[test]
fn a_spawn_past_the_last_play_is_refused(rt: HostRuntime) {
    let mut host = MemoryHost::new(Vec::new(rt.alloc()), Vec::new(rt.alloc()));
    all_calls(&rt, rt.alloc(), &mut host);
    tells(&rt, rt.alloc(), &host, REFUSED);
}
