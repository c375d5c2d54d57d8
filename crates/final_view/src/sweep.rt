//! From one edge of an overlay to the next.
ghost use Rattle.std.specs.Prelude.{ℕ, ◌+◌, ◌<◌, ◌≤◌, length, drop, All};
ghost use Rattle.text_model.specs.Properties.{part};
ghost use Rattle.final_view.specs.Shown.{Scene, shown_from};
ghost use Rattle.final_view.specs.Showing.{Shows};
ghost use Rattle.final_view.specs.Marks.{IsMade, Rises, start_key, end_key};
ghost use Rattle.final_view.specs.Scenes.{Fits};

use crate::characters::stretch;
use crate::mark::Mark;
use crate::strings::{Started, close, open};
use buffer_table::BufferText;
use ek_types::Sink;
use overlay_set::Overlays;
use sink_printer::Printer;

/// The place of the next overlay that starts, if it is before another.
fn next_start(openers: &[Mark], next: usize, to: usize) -> usize
    ensures rises { Rises start_key 0 (drop next openers.now) →
        Rises start_key result (drop next openers.now) }
    ensures within { result ≤ to }
    ensures behind { (at : ℕ) → at < to → Rises start_key (at + 1) (drop next openers.now) →
        at < result }
{
    if next < openers.len() {
        to.min(openers[next].start)
    } else {
        to
    }
}

/// The place of the next overlay that ends, if it is before another.
fn next_end(closers: &[Mark], next: usize, to: usize) -> usize
    ensures rises { Rises end_key 0 (drop next closers.now) →
        Rises end_key result (drop next closers.now) }
    ensures within { result ≤ to }
    ensures behind { (at : ℕ) → at < to → Rises end_key (at + 1) (drop next closers.now) →
        at < result }
{
    if next < closers.len() {
        to.min(closers[next].end)
    } else {
        to
    }
}

/// Writes what is shown of a part of a text, from one place at which an overlay starts or ends to the next.
pub(crate) fn sweep<K: Sink>(
    out: &mut Printer<'_, K>,
    text: &BufferText<'_>,
    overlays: &Overlays,
    openers: &[Mark],
    closers: &[Mark],
    first: usize,
    last: usize,
)
    requires order { first ≤ last }
    requires within { last ≤ length text.now.buffer.text }
    requires openers_made { All (IsMade overlays.now) openers.now }
    requires closers_made { All (IsMade overlays.now) closers.now }
    requires starts { Rises start_key 0 openers.now }
    requires ends { Rises end_key 0 closers.now }
    ensures { (scene : Scene) → Fits overlays.now openers.now closers.now first last scene →
        Shows K.state out.old out.new
        (shown_from scene first (part first last text.now.buffer.text)) }
{
    let mut at = first;
    let mut ended = 0;
    let mut started = Started { next: 0, until: 0 };
    while at < last {
        ended = close(out, overlays, first, at, closers, ended);
        started = open(out, overlays, last, at, openers, started);
        let to = next_end(closers, ended, next_start(openers, started.next, last));
        stretch(out, text, at, to, started.until);
        at = to;
    }
    close(out, overlays, first, at, closers, ended);
    open(out, overlays, last, at, openers, started);
}
