//! The words `drill` and a number: the script of a drill is run and counted, and one line sums it up.
ghost use Rattle.std.specs.Prelude.{◌≡◌, ◌^◌, ◌≤◌, ◌%◌, ℕ, List, ◌++◌, decimal, length};
ghost use Rattle.plain_machine.specs.Exchanges.{Exchange};
ghost use Rattle.plain_machine.specs.State.{new_state};
ghost use Rattle.plain_machine.specs.Drill.{drill_script};
ghost use Rattle.ek_types.specs.Io.{HasCause, Writes, Continues};
ghost use Rattle.ek_call.specs.Meaning.{script_of};
ghost use Rattle.kernel_steps.specs.HostCalls.{CallsSince};
ghost use Rattle.kernel_run.specs.Meaning.{state_of};
ghost use Rattle.kernel_state.specs.Whole.{program_with};
ghost use Rattle.kernel_top.specs.Drills.{Counted, line_of};
ghost use Rattle.kernel_top.specs.Outcomes.{CameForAnySource, OnDrill};

use crate::status::{Status, written_status};
use ek_call::Script;
use ek_types::{Sink, SinkFault, put};
use handler_code::Natives;
use host_link::Host;
use itoa::Buffer;
use kernel_run::{Kernel, Stop};
use line_drill::script_of_drill;
use run_counters::{CountingHost, CountingSink};
use std::alloc::Global;

/// What a drill counts, each modulo 2^64.
#[derive(Clone, Copy, Debug, PartialEq, Eq)]
pub(crate) struct Counts {
    /// Lines, those of the dump among them.
    pub(crate) lines: u64,
    /// Calls on the host, but for those that were refused for want of memory.
    pub(crate) exchanges: u64,
    /// Characters of all live buffers at the end.
    pub(crate) characters: u64,
}

/// A number modulo 2^64.
fn in_64_bits(n: u128) -> u64
    ensures { result ≡ n % 2 ^ 64 }
{
    (n % (1 << 64)) as u64
}

/// Runs the script of a drill on a kernel that is new, and counts what it does. Nothing is written.
fn count_run<H: Host, N: Natives>(
    kernel: &mut Kernel,
    script: &Script,
    host: &mut H,
    natives: &N,
) -> Result<Counts, Stop>
    requires new { state_of kernel.old ≡ new_state }
    requires few { length (H.state host.old).kills ≤ 2 ^ 31 }
    ensures { (count : ℕ) → script_of script.now ≡ drill_script count → (exchanges : List Exchange) ×
        CallsSince H.state H.made host.old host.new exchanges
        × Counted result (program_with N.names N.does (drill_script count) natives.now) count exchanges }
{
    let mut sink = CountingSink::new();
    let mut counting = CountingHost::new(host);
    match kernel.run_script(script, natives, &mut counting, &mut sink) {
        Ok(()) => Ok(Counts {
            lines: sink.lines(),
            exchanges: counting.exchanges(),
            characters: in_64_bits(kernel.editor().characters()),
        }),
        Err(why) => Err(why),
    }
}

/// Writes some words and a number behind them, where nothing has failed so far.
fn put_number<K: Sink>(
    so_far: Result<(), SinkFault>,
    sink: &mut K,
    words: &[u8],
    number: u64,
) -> Result<(), SinkFault>
    ensures { Continues so_far result (K.state sink.old) (K.state sink.new)
        (words.now ++ decimal number) }
{
    let so_far = put(so_far, sink, words);
    put(so_far, sink, Buffer::new().format(number).as_bytes())
}

/// Writes the summary of a drill. It takes no memory.
fn write_summary<K: Sink>(count: u32, counts: &Counts, sink: &mut K) -> Result<(), SinkFault>
    ensures { Writes (K.state sink.old) (K.state sink.new) result (line_of count counts.now) }
{
    let so_far = put_number(Ok(()), sink, b"drill ", u64::from(count));
    let so_far = put_number(so_far, sink, b": ", counts.lines);
    let so_far = put_number(so_far, sink, b" lines, ", counts.exchanges);
    let so_far = put_number(so_far, sink, b" exchanges, ", counts.characters);
    put(so_far, sink, b" characters\n")
}

/// Runs the script of a drill on a kernel of its own, and writes the summary.
fn sum_up<K: Sink, H: Host, N: Natives>(
    alloc: Global,
    count: u32,
    script: &Script,
    sink: &mut K,
    host: &mut H,
    natives: &N,
) -> Status
    requires script { script_of script.now ≡ drill_script count }
    requires few { length (H.state host.old).kills ≤ 2 ^ 31 }
    ensures outcome { CameForAnySource H.state H.made host.old host.new (K.state sink.old) (K.state sink.new)
        (OnDrill (λ script. program_with N.names N.does script natives.now) count result) }
    ensures write_fault { HasCause (K.state sink.old).faults (K.state sink.new).faults
        (result ≡ Status.WriteFault) }
{
    let Ok(mut kernel) = Kernel::new(alloc) else {
        return Status::NoMemory;
    };
    let counted = count_run(&mut kernel, script, host, natives);
    kernel.close();
    let Ok(counts) = counted else {
        return Status::NoMemory;
    };
    written_status(write_summary(count, &counts, sink))
}

/// Makes the script of a drill, runs it, and writes the summary.
pub(crate) fn run_drill<K: Sink, H: Host, N: Natives>(
    alloc: Global,
    count: u32,
    sink: &mut K,
    host: &mut H,
    natives: &N,
) -> Status
    requires { length (H.state host.old).kills ≤ 2 ^ 31 }
    ensures outcome { CameForAnySource H.state H.made host.old host.new (K.state sink.old) (K.state sink.new)
        (OnDrill (λ script. program_with N.names N.does script natives.now) count result) }
    ensures write_fault { HasCause (K.state sink.old).faults (K.state sink.new).faults
        (result ≡ Status.WriteFault) }
{
    match script_of_drill(alloc, count) {
        Ok(script) => sum_up(alloc, count, &script, sink, host, natives),
        Err(_) => Status::NoMemory,
    }
}
