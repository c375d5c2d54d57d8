//! A run over a source, a sink and a host in memory.
ghost use Rattle.std.specs.Prelude.{◌≡◌, []};

use super::acting::InTurn;
use super::comparing::is_for;
use super::shown::shown;
use super::texts::given;
use ek_types::{Copied, ListOf, MemorySink, MemorySource};
use host_link::{Answer, Answers, Ended, Exchanges, Host, MemoryHost, Play};
use kernel_top::{Status, run};
use std::alloc::Global;
use std::process::Abort;

/// The most bytes of a call, and the call that fails.
#[derive(Clone, Copy)]
pub struct Calls {
    pub piece: usize,
    pub fails: Option<u32>,
}

/// How source and sink are called, the bytes that the sink holds, and the calls of the host that fail.
#[derive(Clone, Copy)]
pub struct Setting {
    pub from: Calls,
    pub to: Calls,
    pub room: usize,
    pub host_fails: Option<u32>,
}

const WHOLE: Calls = Calls {
    piece: 1000,
    fails: None,
};

/// None fails.
pub const PLAIN: Setting = Setting {
    from: WHOLE,
    to: WHOLE,
    room: 100_000,
    host_fails: None,
};

/// A child: what its reads give, where no bytes say that there are none yet, and how it has ended, asked again and again.
/// Past the last answer its output has ended, and so has the child, with code 0.
#[derive(Clone, Copy)]
pub struct Child {
    pub reads: &'static [&'static [u8]],
    pub ends: &'static [Ended],
}

/// A child that is killed unread, or has written nothing and ended with code 0.
pub const UNREAD: Child = Child {
    reads: &[],
    ends: &[],
};

/// What a run came to: its status, what was written, a line for each exchange, and the exchanges themselves.
#[derive(Drop)]
pub struct Ran {
    pub status: Status,
    pub written: Vec<u8>,
    pub exchanges: Vec<u8>,
    pub told: Exchanges,
}

/// A run that is done: what it shows, its script, its children, its lines and its exchanges.
pub struct Row {
    pub shows: &'static str,
    pub script: &'static str,
    pub children: &'static [Child],
    pub lines: &'static str,
    pub exchanges: &'static [u8],
}

/// A run whose lines were put together.
#[derive(Drop)]
pub struct Run {
    pub shows: &'static str,
    pub script: String,
    pub children: &'static [Child],
    pub lines: String,
    pub exchanges: Vec<u8>,
}

impl Row {
    /// A copy of the row.
    pub fn run(&self, rt: &impl Abort, alloc: Global) -> Run {
        Run {
            shows: self.shows,
            script: String::from_str(alloc, self.script).expect(rt, "memory"),
            children: self.children,
            lines: String::from_str(alloc, self.lines).expect(rt, "memory"),
            exchanges: self.exchanges.to_vec(alloc).expect(rt, "memory"),
        }
    }
}

fn failing(rt: &impl Abort, alloc: Global, call: Option<u32>) -> Vec<u32> {
    let mut fails = Vec::new(alloc);
    if let Some(call) = call {
        fails.push(call).expect(rt, "memory");
    }
    fails
}

fn answer(rt: &impl Abort, alloc: Global, heard: &[u8]) -> Answer {
    let mut bytes = ListOf::new(alloc);
    for byte in heard {
        bytes.push(*byte).expect(rt, "memory");
    }
    Answer::Bytes(bytes)
}

fn end_answer(ended: Ended) -> Answer {
    match ended {
        Ended::Code(code) => Answer::Code(code),
        Ended::Signal => Answer::Signal,
        Ended::Running => Answer::Running,
        Ended::Failed => Answer::Failed,
    }
}

/// The play of a child.
pub fn play(rt: &impl Abort, alloc: Global, reads: &[&[u8]], ends: &[Ended]) -> Play {
    let mut heard: Answers = ListOf::new(alloc);
    for read in reads {
        heard.push(answer(rt, alloc, read)).expect(rt, "memory");
    }
    let mut ended: Answers = ListOf::new(alloc);
    for end in ends {
        ended.push(end_answer(*end)).expect(rt, "memory");
    }
    Play {
        reads: heard,
        ends: ended,
    }
}

/// The plays of some children.
pub fn plays(rt: &impl Abort, alloc: Global, children: &[Child]) -> Vec<Play> {
    let mut plays = Vec::new(alloc);
    for child in children {
        plays
            .push(play(rt, alloc, child.reads, child.ends))
            .expect(rt, "memory");
    }
    plays
}

/// The play of one child that gives these bytes.
pub fn one_child(rt: &impl Abort, alloc: Global, reads: &[&[u8]]) -> Vec<Play> {
    let mut plays = Vec::new(alloc);
    plays.push(play(rt, alloc, reads, &[])).expect(rt, "memory");
    plays
}

/// The words of the command line that run and record a script.
pub const TO_RUN: [&str; 1] = ["run"];

pub const TO_RECORD: [&str; 1] = ["record"];

/// Runs these words of the command line over a host that has started no child, with these natives.
pub fn run_over(
    rt: &impl Abort,
    alloc: Global,
    words: &[&str],
    script: &str,
    mut host: MemoryHost,
    setting: Setting,
    natives: &InTurn,
) -> Ran
    requires kills { host.kills ≡ [] }
    requires told { host.told ≡ [] }
{
    let Setting { from, to, room, .. } = setting;
    let words = given(rt, alloc, words);
    let bytes = script.as_bytes().to_vec(alloc).expect(rt, "memory");
    let mut source = MemorySource::new(bytes, from.piece.max(1), failing(rt, alloc, from.fails));
    let mut sink = MemorySink::new(
        alloc,
        room,
        to.piece.max(1),
        failing(rt, alloc, to.fails),
    ).expect(rt, "memory");
    let status = run(
        alloc,
        words.as_slice(),
        &mut source,
        &mut sink,
        &mut host,
        natives,
    );
    let told = host.told().expect(rt, "the host tells nothing");
    Ran {
        status,
        written: sink.bytes().to_vec(alloc).expect(rt, "memory"),
        exchanges: shown(rt, alloc, told),
        told: told.copy().expect(rt, "memory"),
    }
}

/// Runs a script by these words of the command line, with these natives.
pub fn run_natives(
    rt: &impl Abort,
    alloc: Global,
    words: &[&str],
    script: &str,
    plays: Vec<Play>,
    setting: Setting,
    natives: &InTurn,
) -> Ran {
    let host = MemoryHost::new(plays, failing(rt, alloc, setting.host_fails));
    run_over(rt, alloc, words, script, host, setting, natives)
}

/// Runs a script by these words of the command line.
pub fn run_words(
    rt: &impl Abort,
    alloc: Global,
    words: &[&str],
    script: &str,
    plays: Vec<Play>,
    setting: Setting,
) -> Ran {
    run_natives(
        rt,
        alloc,
        words,
        script,
        plays,
        setting,
        &InTurn::none(alloc),
    )
}

/// Runs a script.
pub fn run_script(
    rt: &impl Abort,
    alloc: Global,
    script: &str,
    plays: Vec<Play>,
    setting: Setting,
) -> Ran {
    run_words(rt, alloc, &TO_RUN, script, plays, setting)
}

/// Compares what a run writes with its lines.
fn is_written(rt: &impl Abort, alloc: Global, shows: &str, written: &[u8], lines: &str) {
    let written = String::from_utf8_lossy(alloc, written).expect(rt, "memory");
    is_for(rt, shows, written.as_str(), lines);
}

/// Compares a run that is done with its lines and its exchanges.
pub fn check_ran(
    rt: &impl Abort,
    alloc: Global,
    shows: &str,
    ran: &Ran,
    lines: &str,
    exchanges: &[u8],
) {
    is_for(rt, shows, ran.status, Status::Done);
    is_written(rt, alloc, shows, ran.written.as_slice(), lines);
    is_for(rt, shows, ran.exchanges.as_slice(), exchanges);
}

/// Compares the run of a script with its lines and its exchanges.
pub fn check_run(
    rt: &impl Abort,
    alloc: Global,
    shows: &str,
    script: &str,
    plays: Vec<Play>,
    lines: &str,
    exchanges: &[u8],
) {
    let ran = run_script(rt, alloc, script, plays, PLAIN);
    check_ran(rt, alloc, shows, &ran, lines, exchanges)
}
