//! The top call.
ghost use Rattle.std.specs.Prelude.{◌≡◌, ◌^◌, ◌≤◌, [], Some, length, map, string_bytes, IsTrue};
ghost use Rattle.ek_types.specs.Io.{HasCause};
ghost use Rattle.kernel_state.specs.Whole.{program_with};
ghost use Rattle.command_words.specs.Commands.{command_of, IsRecord};
ghost use Rattle.kernel_top.specs.Outcomes.{Came, Completes};

use crate::checking::check_source;
use crate::recording::record_source;
use crate::replaying::replay_source;
use crate::running::run_source;
use crate::session::run_session;
use crate::status::Status;
use crate::summing::run_drill;
use crate::viewing::view_source;
use command_words::{Command, command_of};
use ek_types::{Sink, Source};
use handler_code::Natives;
use host_link::Host;
use std::alloc::Global;

/// The words are those behind the program's name. By what they ask for, this reads and writes:
/// - `run`: reads the script that the source holds, runs it, and writes its lines and the dump to the sink.
/// - `record`: runs such a script with its lines thrown away, and writes the session of the run: a line for each
///   exchange, the line `script`, and the script as it was read.
/// - `replay`: reads such a session, and writes the lines and the dump of that run. It asks the host nothing.
/// - `check`: reads a transcript, which has claimed lines between the journal and the script, and writes the line `yes`
///   where they are those of that run. It asks the host nothing either.
/// - `view`: runs a script with its lines thrown away, and writes what is seen of the current buffer at its end.
/// - `drill` and a number of one to four digits: reads nothing, runs the script of that drill on the host, and writes
///   one line that tells how many lines, exchanges and characters this came to.
/// - `session` with a number, a program and its words: reads nothing, runs a line session, with the natives of that, and
///   writes the text that this gathered.
///
/// The status says what was read and written, as `outcome` has it: for `Done` the lines are those of the plain
/// machine's whole run on the script, whose handlers are its own and the natives. Filters are entered with just what
/// was read. Sentinels come last, and behind the end of the output, unless the child was killed. Undoing back to a
/// kept boundary gives its text back. The exchanges of the run are the calls on the host, each with what the host says
/// of itself that it did, and a read has room for 4,096 bytes. A run whose write fails stops at that line; the children
/// that live are asked to be killed then, each once.
///
/// What `view` writes is what is seen in that run's last state; where memory is wanting, it is nothing. The line of a
/// drill is the summary of the plain machine's whole run on the drill's script, over just the exchanges made. Of a
/// session no more than 268,435,456 bytes are written, and none where it is longer. For `record` the host tells its
/// exchanges, and has told none yet; each exchange of a recorded run has a line. A session is replayed only where the
/// run of its script ends with all exchanges of its journal used up; else `Strayed` tells how many of the first ones
/// the machine goes through. So it is of a check; where the run ends so, `Differs` tells the first line in which the
/// claimed lines are others. The text of a line session is that of the buffer `*session*` in the machine's last
/// state. It became full exactly where a process there isn't read any more.
///
/// The source doesn't fail where it is known not to (`unfailing`), nor the sink where it has room for what the run
/// says. No more than one byte behind the longest script, of 1,048,576 bytes, is asked of the source, or for `replay`
/// and `check` one behind the longest session, of 268,435,456. Bytes that are no script, and no others, are answered
/// by `Script` with the line of the fault; for `replay` and `check` bytes that are no session or transcript are
/// answered by `Journal` first.
pub fn run<S: Source, K: Sink, H: Host, N: Natives>(
    alloc: Global,
    words: &[String],
    source: &mut S,
    sink: &mut K,
    host: &mut H,
    natives: &N,
) -> Status
    requires few { length (H.state host.old).kills ≤ 2 ^ 31 }
    requires told { IsRecord (map string_bytes words.now) → (H.state host.old).told ≡ Some [] }
    ensures outcome { Came H.state H.made
        (λ script. program_with N.names N.does script natives.now) (command_of (map string_bytes words.now)) result
        host.old host.new (S.state source.old) (S.state source.new) (K.state sink.old) (K.state sink.new) }
    ensures read_fault { HasCause (S.state source.old).faults (S.state source.new).faults
        (result ≡ Status.ReadFault) }
    ensures write_fault { HasCause (K.state sink.old).faults (K.state sink.new).faults
        (result ≡ Status.WriteFault) }
    ensures unfailing { IsTrue (S.state source.old).unfailing →
        (S.state source.new).faults ≡ (S.state source.old).faults }
    ensures complete { Completes (command_of (map string_bytes words.now)) result
        (S.state source.old) (S.state source.new) (K.state sink.old) (K.state sink.new) }
{
    match command_of(words) {
        Some(Command::Run) => run_source(alloc, source, sink, host, natives),
        Some(Command::Record) => record_source(alloc, source, sink, host, natives),
        Some(Command::Replay) => replay_source(alloc, source, sink, natives),
        Some(Command::Check) => check_source(alloc, source, sink, natives),
        Some(Command::View) => view_source(alloc, source, sink, host, natives),
        Some(Command::Drill(count)) => run_drill(alloc, count, sink, host, natives),
        Some(Command::Session(wanted)) => run_session(alloc, &wanted, sink, host),
        None => Status::Usage,
    }
}
