//! What stands between words.
ghost use Rattle.sink_printer.specs.Printing.{Prints};
ghost use Rattle.trace_print.specs.Gaps.{gap};

use ek_types::Sink;
use sink_printer::Printer;

/// Writes the blank that stands in front of each word but the first.
pub(crate) fn gap<K: Sink>(out: &mut Printer<'_, K>, number: usize)
    ensures { Prints K.state out.old out.new (gap number) }
{
    if number > 0 {
        out.put_byte(b' ');
    }
}
