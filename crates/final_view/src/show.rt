//! The accessible portion of a text, as it is seen.
ghost use Rattle.std.specs.Prelude.{◌≤◌, length, flat_map};
ghost use Rattle.text_model.specs.Characters.{encoded};
ghost use Rattle.text_model.specs.Properties.{part};
ghost use Rattle.ek_types.specs.Io.{Writes};
ghost use Rattle.final_view.specs.Shown.{scene_in, shown_from};
ghost use Rattle.final_view.specs.Scenes.{AreEdges};
ghost use Rattle.final_view.specs.Faults.{Views};

use crate::edges::{Edges, edges_of};
use crate::fault::ViewFault;
use crate::sweep::sweep;
use buffer_table::BufferText;
use ek_types::{NoMemory, Sink, SinkFault};
use overlay_set::Overlays;
use sink_printer::Printer;
use std::alloc::Global;

/// Writes a part of a text with the strings of some overlays. A sink that failed has a front of it.
fn write<K: Sink>(
    text: &BufferText<'_>,
    overlays: &Overlays,
    buffer: u32,
    edges: &Edges,
    first: usize,
    last: usize,
    sink: &mut K,
) -> Result<(), SinkFault>
    requires order { first ≤ last }
    requires within { last ≤ length text.now.buffer.text }
    requires edges { AreEdges buffer overlays.now edges.now.openers.items edges.now.closers.items }
    ensures { Writes (K.state sink.old) (K.state sink.new) result
        (flat_map encoded (shown_from (scene_in buffer first last overlays.now) first
        (part first last text.now.buffer.text))) }
{
    let mut out = Printer::new(sink);
    let openers = edges.openers.as_slice();
    let closers = edges.closers.as_slice();
    sweep(&mut out, text, overlays, openers, closers, first, last);
    out.finish()
}

/// Writes a part of the text of a buffer with the strings of its overlays. A sink that failed has a front of it;
/// where memory was wanting, nothing was written.
pub(crate) fn show<K: Sink>(
    alloc: Global,
    text: &BufferText<'_>,
    overlays: &Overlays,
    buffer: u32,
    first: usize,
    last: usize,
    sink: &mut K,
) -> Result<(), ViewFault>
    requires order { first ≤ last }
    requires within { last ≤ length text.now.buffer.text }
    ensures { Views (K.state sink.old) (K.state sink.new) result
        (flat_map encoded (shown_from (scene_in buffer first last overlays.now) first
        (part first last text.now.buffer.text))) }
{
    match edges_of(alloc, overlays, buffer) {
        Ok(edges) => match write(text, overlays, buffer, &edges, first, last, sink) {
            Ok(()) => Ok(()),
            Err(SinkFault) => Err(ViewFault::Sink),
        },
        Err(NoMemory) => Err(ViewFault::NoMemory),
    }
}
