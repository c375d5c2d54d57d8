//! The strings of overlays.
ghost use Rattle.std.specs.Prelude.{◌≡◌, ◌+◌, ◌<◌, flat_map, filter, drop, [], ◌∷◌, All, option_map};
ghost use Rattle.text_model.specs.Characters.{encoded};
ghost use Rattle.ek_types.specs.Property.{prop_of};
ghost use Rattle.ek_types.specs.Seen.{ch_of};
ghost use Rattle.sink_printer.specs.Printing.{Prints};
ghost use Rattle.final_view.specs.Shown.{text_of};
ghost use Rattle.final_view.specs.Showing.{Shows};
ghost use Rattle.final_view.specs.Marks.{IsMade, Rises, Pass, Cover, start_key, end_key};
ghost use Rattle.final_view.specs.Marks.{ends_here, starts_here, closed_of, opened_of, hidden_until};

use crate::mark::Mark;
use ek_types::{Ch, Chars, PropVal, Sink, Sym};
use overlay_set::Overlays;
use sink_printer::Printer;

/// Writes a character.
pub(crate) fn character<K: Sink>(out: &mut Printer<'_, K>, c: Ch)
    ensures { Prints K.state out.old out.new (encoded (ch_of c)) }
{
    let mut bytes = [0u8; 4];
    let size = c.encode(&mut bytes);
    out.put(&bytes[..size]);
}

/// Writes the characters of a text.
fn text<K: Sink>(out: &mut Printer<'_, K>, text: &Chars)
    ensures { Shows K.state out.old out.new text.now.items }
{
    for i in 0..text.len() {
        character(out, text.at(i));
    }
}

/// Writes a value if it is a string.
fn string<K: Sink>(out: &mut Printer<'_, K>, value: Option<&PropVal>)
    ensures { Shows K.state out.old out.new (text_of (option_map (λ v. prop_of v.now) value.entry)) }
{
    if let Some(PropVal::Text(characters)) = value {
        text(out, characters.as_ref());
    }
}

/// Writes the string behind an overlay if it ends at a place behind the first one and isn't empty.
fn close_one<K: Sink>(
    out: &mut Printer<'_, K>,
    overlays: &Overlays,
    first: usize,
    at: usize,
    mark: &Mark,
)
    requires { IsMade overlays.now mark.now }
    ensures { Shows K.state out.old out.new
        (flat_map (closed_of overlays.now) (filter (ends_here first at) (mark.now ∷ []))) }
{
    if mark.end == at && mark.start < mark.end && first < at {
        string(out, overlays.get(mark.number, Sym::AFTER_STRING));
    }
}

/// Writes the string in front of an overlay, and for an empty one the one behind it.
fn open_all<K: Sink>(out: &mut Printer<'_, K>, overlays: &Overlays, mark: &Mark)
    requires { IsMade overlays.now mark.now }
    ensures { Shows K.state out.old out.new (opened_of overlays.now mark.now) }
{
    string(out, overlays.get(mark.number, Sym::BEFORE_STRING));
    if mark.start == mark.end {
        string(out, overlays.get(mark.number, Sym::AFTER_STRING));
    }
}

/// The same if the overlay starts at a place, and is empty or begins before the last place.
fn open_one<K: Sink>(
    out: &mut Printer<'_, K>,
    overlays: &Overlays,
    last: usize,
    at: usize,
    mark: &Mark,
)
    requires { IsMade overlays.now mark.now }
    ensures { Shows K.state out.old out.new
        (flat_map (opened_of overlays.now) (filter (starts_here last at) (mark.now ∷ []))) }
{
    if mark.start == at && (mark.start == mark.end || (mark.start < mark.end && at < last)) {
        open_all(out, overlays, mark);
    }
}

/// Up to where characters are hidden by an overlay, or up to `until` by others.
fn hidden_by(overlays: &Overlays, mark: &Mark, until: usize) -> usize
    requires { IsMade overlays.now mark.now }
    ensures { result ≡ hidden_until overlays.now until mark.now }
{
    if overlays.get(mark.number, Sym::INVISIBLE).is_some() {
        until.max(mark.end)
    } else {
        until
    }
}

/// Writes the strings behind the overlays that end at a place, of those from `next` on, and says which is the next one
/// behind it.
pub(crate) fn close<K: Sink>(
    out: &mut Printer<'_, K>,
    overlays: &Overlays,
    first: usize,
    at: usize,
    closers: &[Mark],
    next: usize,
) -> usize
    requires made { All (IsMade overlays.now) closers.now }
    requires rises { Rises end_key 0 (drop next closers.now) }
    ensures shown { Shows K.state out.old out.new
        (flat_map (closed_of overlays.now) (filter (ends_here first at) (drop next closers.now))) }
    ensures pass { Pass end_key (ends_here first) at (drop next closers.now)
        (drop result closers.now) }
{
    let mut next = next;
    while next < closers.len() && closers[next].end <= at {
        close_one(out, overlays, first, at, &closers[next]);
        next += 1;
    }
    next
}

/// Which overlay is the next to start, and up to where those that have started hide.
#[derive(Clone, Copy)]
pub(crate) struct Started {
    pub next: usize,
    pub until: usize,
}

/// Writes the strings of the overlays that start at a place, of those that are next, and says which is the next one
/// behind it.
pub(crate) fn open<K: Sink>(
    out: &mut Printer<'_, K>,
    overlays: &Overlays,
    last: usize,
    at: usize,
    openers: &[Mark],
    started: Started,
) -> Started
    requires made { All (IsMade overlays.now) openers.now }
    requires rises { Rises start_key 0 (drop started.next openers.now) }
    ensures shown { Shows K.state out.old out.new (flat_map (opened_of overlays.now)
        (filter (starts_here last at) (drop started.next openers.now))) }
    ensures pass { Pass start_key (starts_here last) at (drop started.next openers.now)
        (drop result.next openers.now) }
    ensures cover { Cover overlays.now at started.until result.until
        (drop started.next openers.now) (drop result.next openers.now) }
{
    let mut next = started.next;
    let mut until = started.until;
    while next < openers.len() && openers[next].start <= at {
        open_one(out, overlays, last, at, &openers[next]);
        until = hidden_by(overlays, &openers[next], until);
        next += 1;
    }
    Started { next, until }
}
