//! Runs, records, replays, checks or views what stands on standard input, or runs a drill or a line session, and writes
//! what comes of it to standard output.
#![tactic(auto)]

ghost use Rattle.std.specs.Prelude.{◌≡◌, ◌^◌, ◌≤◌, [], Some, length};

use host_link::{Host, Recorder};
use kernel_top::{drill_of, host_of_drill};
use shipped_run::{Failure, result_of, run_shipped};
use std::env;
use std::io::{self, ErrorKind, Write};
use std::process::ExitCode;
use system_host::{Hand, Output, ReaderSource, RealHost, WriterSink};

/// Why the words weren't had: one that isn't UTF-8 is none that the program knows, and all else is want of memory.
fn failure_of(error: &io::Error) -> Failure {
    match error.kind() {
        ErrorKind::InvalidData => Failure::Usage,
        _ => Failure::Memory,
    }
}

/// The words behind the program's name.
fn words(rt: &HostRuntime) -> Result<Vec<String>, Failure> {
    let args = env::args(rt).map_err(|error| failure_of(&error))?;
    args.skip(1)
        .collect(rt.alloc())
        .map_err(|_| Failure::Memory)
}

/// Runs with standard input and an output, over a host. Children that the host still has are dropped with it.
fn work_over<W: Write + Drop, H: Host + Drop>(
    rt: &HostRuntime,
    words: &[String],
    output: &Output<W>,
    mut host: H,
) -> Result<(), Failure>
    requires few { length (H.state host).kills ≤ 2 ^ 31 }
    requires told { (H.state host).told ≡ Some [] }
{
    let mut source = ReaderSource::new(rt.reader());
    let mut sink = WriterSink::new(Hand { output });
    let status = run_shipped(rt.alloc(), words, &mut source, &mut sink, &mut host).map_err(
        |_| Failure::Memory,
    )?;
    drop(host);
    // What is still gathered is written even where the run failed, whose failure is told first.
    let finished = sink.finish();
    result_of(status)?;
    finished.map_err(|_| Failure::Write)
}

/// A drill is run over its own host, and all else over real children.
fn work(rt: &HostRuntime) -> Result<(), Failure> {
    let words = words(rt)?;
    let output = Output::new(rt.alloc(), io::writer(rt)).map_err(|_| Failure::Memory)?;
    match drill_of(words.as_slice()) {
        Some(lines) => {
            let host = host_of_drill(rt.alloc(), lines).map_err(|_| Failure::Memory)?;
            work_over(rt, words.as_slice(), &output, host)
        }
        None => {
            let children = RealHost::new(rt.alloc(), rt, &output);
            let host = Recorder::new(rt.alloc(), children);
            work_over(rt, words.as_slice(), &output, host)
        }
    }
}

fn main(rt: HostRuntime) -> ExitCode {
    match work(&rt) {
        Ok(()) => ExitCode::SUCCESS,
        Err(failure) => {
            // Where standard error can't be written to, the exit status tells it alone.
            let _ = eprintln!(rt; "{failure}");
            ExitCode::from(failure.exit_status())
        }
    }
}
