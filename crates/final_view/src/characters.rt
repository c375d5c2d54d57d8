//! The characters of a text that are shown.
ghost use Rattle.std.specs.Prelude.{◌<◌, ◌≤◌, length, map};
ghost use Rattle.text_model.specs.Properties.{part};
ghost use Rattle.final_view.specs.Showing.{Shows};
ghost use Rattle.final_view.specs.Visible.{run_of, visible};

use crate::strings::character;
use buffer_table::BufferText;
use ek_types::{Sink, Sym};
use sink_printer::Printer;

/// Writes a part of a text.
fn all<K: Sink>(out: &mut Printer<'_, K>, text: &BufferText<'_>, from: usize, to: usize)
    requires order { from ≤ to }
    requires within { to ≤ length text.now.buffer.text }
    ensures { Shows K.state out.old out.new (map (λ c. c.0) (part from to text.now.buffer.text)) }
{
    for i in from..to {
        character(out, text.ch(i));
    }
}

/// Writes a part of a text unless its first character is invisible.
fn run<K: Sink>(out: &mut Printer<'_, K>, text: &BufferText<'_>, from: usize, to: usize)
    requires order { from < to }
    requires within { to ≤ length text.now.buffer.text }
    ensures { Shows K.state out.old out.new (run_of from to text.now.buffer.text) }
{
    if text.props(from).get(Sym::INVISIBLE).is_none() {
        all(out, text, from, to);
    }
}

/// Writes the characters of a part that aren't invisible, from a place on up to which all are hidden. It goes from
/// one run of properties to the next.
pub(crate) fn stretch<K: Sink>(
    out: &mut Printer<'_, K>,
    text: &BufferText<'_>,
    from: usize,
    to: usize,
    until: usize,
)
    requires order { from ≤ to }
    requires within { to ≤ length text.now.buffer.text }
    ensures { Shows K.state out.old out.new
        (visible until from (part from to text.now.buffer.text)) }
{
    let mut at = until.max(from).min(to);
    while at < to {
        let end = text.run_end(at).min(to);
        run(out, text, at, end);
        at = end;
    }
}
