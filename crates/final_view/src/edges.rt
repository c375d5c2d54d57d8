//! The overlays of a buffer by where they start and by where they end.
ghost use Rattle.std.specs.Prelude.{IfOk};
ghost use Rattle.final_view.specs.Scenes.{AreEdges};

use crate::mark::{Mark, by_end, by_start, ranked};
use ek_types::Mem;
use overlay_set::Overlays;
use std::alloc::Global;

/// Those that start earlier first, and those that end earlier first. Of those that start at one place the weaker come
/// first; of those that end at one place the stronger.
#[derive(Drop)]
pub(crate) struct Edges {
    pub openers: Vec<Mark>,
    pub closers: Vec<Mark>,
}

/// The overlays of a buffer.
pub(crate) fn edges_of(alloc: Global, overlays: &Overlays, buffer: u32) -> Mem<Edges>
    ensures { IfOk result (λ edges.
        AreEdges buffer overlays.now edges.openers.items edges.closers.items) }
{
    let marks = ranked(alloc, overlays, buffer)?;
    let closers = by_end(alloc, marks.as_slice())?;
    let openers = by_start(marks)?;
    Ok(Edges { openers, closers })
}
