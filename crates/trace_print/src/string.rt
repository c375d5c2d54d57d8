//! Strings with their properties.
ghost use Rattle.std.specs.Prelude.{[], ◌∷◌, ◌+◌, ◌<◌, ◌^◌};
ghost use Rattle.text_model.specs.Properties.{stretches, same_set};
ghost use Rattle.plain_machine.specs.Lines.{run_words};
ghost use Rattle.prop_intervals.specs.Runs.{size};
ghost use Rattle.sink_printer.specs.Printing.{Prints};
ghost use Rattle.trace_print.specs.Strings.{led, placed, string_words};

use crate::number::count;
use crate::property::property_set;
use crate::runs::{Sets, has_properties};
use crate::text::{Characters, quoted};
use ek_types::{PropSet, Sink, Symbols};
use prop_intervals::Runs;
use sink_printer::Printer;

/// Writes the ends of a run and its properties, with a blank in front of each, unless it has none.
fn run<K: Sink>(out: &mut Printer<'_, K>, from: usize, to: usize, set: &PropSet, symbols: &Symbols)
    ensures { Prints K.state out.old out.new
        (led (run_words symbols.now ((set.now, from, to) ∷ []))) }
{
    if set.len() > 0 {
        out.put(b" ");
        count(out, from);
        out.put(b" ");
        count(out, to);
        out.put(b" ");
        property_set(out, set, symbols);
    }
}

/// Writes all runs that have properties.
fn runs<K: Sink, T: Sets>(out: &mut Printer<'_, K>, text: &T, symbols: &Symbols)
    ensures { Prints K.state out.old out.new
        (led (run_words symbols.now (stretches same_set 0 (T.sets text.now)))) }
{
    let mut at = 0;
    while at < text.size() {
        let end = text.end_of_run(at);
        run(out, at, end, text.set(at), symbols);
        at = end;
    }
}

/// Writes runs that are lent, the first of which begins at a place. None is looked for: each is met where it is kept.
pub(crate) fn lent_runs<K: Sink>(
    out: &mut Printer<'_, K>,
    runs: &Runs<'_>,
    start: usize,
    symbols: &Symbols,
)
    requires { start + size runs.now < 2 ^ 64 }
    ensures { Prints K.state out.old out.new
        (led (run_words symbols.now (placed start runs.now))) }
{
    let Some(parted) = runs.part() else {
        return;
    };
    let from = start + parted.front.len();
    let to = from + parted.len;
    lent_runs(out, &parted.front, start, symbols);
    run(out, from, to, parted.set, symbols);
    lent_runs(out, &parted.behind, to, symbols);
}

pub(crate) fn string<K: Sink, T: Characters + Sets>(
    out: &mut Printer<'_, K>,
    text: &T,
    symbols: &Symbols,
)
    ensures { Prints K.state out.old out.new
        (string_words symbols.now (T.chars text.now) (T.sets text.now)) }
{
    if has_properties(text) {
        out.put(b"#(");
        quoted(out, text);
        runs(out, text, symbols);
        out.put(b")");
    } else {
        quoted(out, text);
    }
}
