//! A run with the handlers that the program brings along.
ghost use Rattle.std.specs.Prelude.{◌≡◌, ◌^◌, ◌≤◌, List, [], ◌∷◌, Some, length, map, string_bytes};
ghost use Rattle.std.specs.Prelude.{IsTrue, IfOk, OnErr};
ghost use Rattle.editor_model.specs.Values.{Value, Reply};
ghost use Rattle.plain_machine.specs.Shipped.{insert_filter, drop_filter, note_sentinel};
ghost use Rattle.ek_types.specs.Io.{HasCause};
ghost use Rattle.command_words.specs.Commands.{command_of, IsRecord};
ghost use Rattle.kernel_top.specs.Outcomes.{Completes};
ghost use Rattle.shipped_run.specs.Shipped.{CameShipped, shipped_names};

use ek_types::{Sink, Source};
use handler_box::{Boxed, DropFilter, Handler, InsertFilter, NoteSentinel};
use host_link::Host;
use kernel_top::{Status, run};
use std::alloc::{AllocError, Global};

/// The top call with the natives that stand in a list.
fn run_list<S: Source, K: Sink, H: Host>(
    alloc: Global,
    words: &[String],
    source: &mut S,
    sink: &mut K,
    host: &mut H,
    list: Vec<Box<dyn Handler>>,
) -> Status
    requires few { length (H.state host.old).kills ≤ 2 ^ 31 }
    requires told { IsRecord (map string_bytes words.now) → (H.state host.old).told ≡ Some [] }
    requires names { map (λ h. called h) list.items ≡ shipped_names }
    requires does { (args : List Value) (past : List Reply) → map (λ h. does h args past) list.items ≡
        insert_filter args past ∷ drop_filter args past ∷ note_sentinel args past ∷ [] }
    ensures outcome { CameShipped H.state H.made (map string_bytes words.now) result
        host.old host.new (S.state source.old) (S.state source.new) (K.state sink.old) (K.state sink.new) }
    ensures read_fault { HasCause (S.state source.old).faults (S.state source.new).faults
        (result ≡ Status.ReadFault) }
    ensures write_fault { HasCause (K.state sink.old).faults (K.state sink.new).faults
        (result ≡ Status.WriteFault) }
    ensures unfailing { IsTrue (S.state source.old).unfailing →
        (S.state source.new).faults ≡ (S.state source.old).faults }
    ensures complete { Completes (command_of (map string_bytes words.now)) result
        (S.state source.old) (S.state source.new) (K.state sink.old) (K.state sink.new) }
{
    let natives = Boxed::new(list);
    run(alloc, words, source, sink, host, &natives)
}

/// The top call with the natives `insert-filter`, `drop-filter` and `note-sentinel`, in this order: what `run` ensures
/// holds of its status. Where memory is wanting for the natives, source, sink and host stay as they were. For `record`
/// the host tells its exchanges, and has told none yet.
pub fn run_shipped<S: Source, K: Sink, H: Host>(
    alloc: Global,
    words: &[String],
    source: &mut S,
    sink: &mut K,
    host: &mut H,
) -> Result<Status, AllocError>
    requires few { length (H.state host.old).kills ≤ 2 ^ 31 }
    requires told { IsRecord (map string_bytes words.now) → (H.state host.old).told ≡ Some [] }
    ensures outcome { IfOk result (λ status. CameShipped H.state H.made
        (map string_bytes words.now) status host.old host.new
        (S.state source.old) (S.state source.new) (K.state sink.old) (K.state sink.new)) }
    ensures read_fault { IfOk result (λ status. HasCause (S.state source.old).faults
        (S.state source.new).faults (status ≡ Status.ReadFault)) }
    ensures write_fault { IfOk result (λ status. HasCause (K.state sink.old).faults
        (K.state sink.new).faults (status ≡ Status.WriteFault)) }
    ensures unfailing { IsTrue (S.state source.old).unfailing →
        (S.state source.new).faults ≡ (S.state source.old).faults }
    ensures complete { IfOk result (λ status. Completes
        (command_of (map string_bytes words.now)) status
        (S.state source.old) (S.state source.new) (K.state sink.old) (K.state sink.new)) }
    ensures err { OnErr result
        ((source.new ≡ source.old) × (sink.new ≡ sink.old) × (host.new ≡ host.old)) }
{
    let mut list: Vec<Box<dyn Handler>> = Vec::with_capacity(alloc, 3)?;
    list.push(Box::new(alloc, InsertFilter)?)?;
    list.push(Box::new(alloc, DropFilter)?)?;
    list.push(Box::new(alloc, NoteSentinel)?)?;
    Ok(run_list(alloc, words, source, sink, host, list))
}
