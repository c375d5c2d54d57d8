//! The lines of a journal.
ghost use Rattle.std.specs.Prelude.{◌≡◌, ◌+◌, ◌<◌, ◌++◌, decimal};
ghost use Rattle.plain_machine.specs.Lines.{shown_int};
ghost use Rattle.ek_types.specs.Io.{Writes};
ghost use Rattle.host_link.specs.Meaning.{ask_of, answer_of, exchange_of, exchanges_of, words_of};
ghost use Rattle.journal_text.specs.Lines.{hex_digit, hex_byte, hex, word, led_words};
ghost use Rattle.journal_text.specs.Lines.{ask_words, answer_words, line, journal};
ghost use Rattle.sink_printer.specs.Printing.{Prints};

use ek_types::{Sink, SinkFault};
use host_link::{Answer, Ask, Exchange, Exchanges, WordList};
use itoa::Buffer;
use sink_printer::Printer;

fn hex_digit(n: u8) -> u8
    requires { n < 16 }
    ensures { result ≡ hex_digit n }
{
    if n < 10 { b'0' + n } else { b'a' - 10 + n }
}

/// The two digits of a byte.
fn hex_byte(byte: u8) -> [u8; 2]
    ensures { result ≡ hex_byte byte }
{
    [hex_digit(byte / 16), hex_digit(byte % 16)]
}

fn hex<K: Sink>(out: &mut Printer<'_, K>, bytes: &[u8])
    ensures { Prints K.state out.old out.new (hex bytes.now) }
{
    'bytes: for i in 0..bytes.len() {
        out.put(&hex_byte(bytes[i]));
    }
}

fn number<K: Sink>(out: &mut Printer<'_, K>, n: u32)
    ensures { Prints K.state out.old out.new (decimal n) }
{
    let mut buffer = Buffer::new();
    out.put(buffer.format(n).as_bytes());
}

fn signed<K: Sink>(out: &mut Printer<'_, K>, n: i32)
    ensures { Prints K.state out.old out.new (shown_int n) }
{
    let mut buffer = Buffer::new();
    out.put(buffer.format(n).as_bytes());
}

fn word<K: Sink>(out: &mut Printer<'_, K>, bytes: &[u8])
    ensures { Prints K.state out.old out.new (word bytes.now) }
{
    match bytes {
        [] => out.put_byte(b'-'),
        _ => hex(out, bytes),
    }
}

/// Writes words with a blank in front of each.
fn led_words<K: Sink>(out: &mut Printer<'_, K>, words: &WordList)
    ensures { Prints K.state out.old out.new (led_words (words_of words.now)) }
{
    'words: for i in 0..words.len() {
        out.put_byte(b' ');
        word(out, words.at(i).as_slice());
    }
}

/// Writes a name and a child's number.
fn named<K: Sink>(out: &mut Printer<'_, K>, name: &[u8], child: u32)
    ensures { Prints K.state out.old out.new (name.now ++ decimal child) }
{
    out.put(name);
    number(out, child);
}

fn ask<K: Sink>(out: &mut Printer<'_, K>, ask: &Ask)
    ensures { Prints K.state out.old out.new (ask_words (ask_of ask.now)) }
{
    match ask {
        Ask::Spawn(program, args) => {
            out.put(b"spawn ");
            hex(out, program.as_slice());
            led_words(out, args);
        }
        Ask::Read(child) => named(out, b"read ", *child),
        Ask::End(child) => named(out, b"end ", *child),
        Ask::Send(child, bytes) => {
            out.put(b"send ");
            number(out, *child);
            out.put_byte(b' ');
            hex(out, bytes.as_slice());
        }
        Ask::Close(child) => named(out, b"close ", *child),
        Ask::Kill(child) => named(out, b"kill ", *child),
    }
}

fn answer<K: Sink>(out: &mut Printer<'_, K>, answer: &Answer)
    ensures { Prints K.state out.old out.new (answer_words (answer_of answer.now)) }
{
    match answer {
        Answer::Started(child) => named(out, b"started ", *child),
        Answer::Refused => out.put(b"refused"),
        Answer::Bytes(bytes) => {
            out.put(b"bytes ");
            hex(out, bytes.as_slice());
        }
        Answer::Nothing => out.put(b"nothing"),
        Answer::End => out.put(b"end"),
        Answer::Code(code) => {
            out.put(b"code ");
            signed(out, *code);
        }
        Answer::Signal => out.put(b"signal"),
        Answer::Running => out.put(b"running"),
        Answer::Sent => out.put(b"sent"),
        Answer::Broken => out.put(b"broken"),
        Answer::Closed => out.put(b"closed"),
        Answer::Killed => out.put(b"killed"),
        Answer::Failed => out.put(b"failed"),
    }
}

fn line<K: Sink>(out: &mut Printer<'_, K>, exchange: &Exchange)
    ensures { Prints K.state out.old out.new (line (exchange_of exchange.now)) }
{
    ask(out, &exchange.ask);
    out.put(b" -> ");
    answer(out, &exchange.answer);
    out.put_byte(b'\n');
}

/// Writes a line for each exchange. A sink that failed has a front of the lines.
pub fn write_journal<K: Sink>(list: &Exchanges, sink: &mut K) -> Result<(), SinkFault>
    ensures { Writes (K.state sink.old) (K.state sink.new) result
        (journal (exchanges_of list.now)) }
{
    let mut out = Printer::new(sink);
    'lines: for i in 0..list.len() {
        line(&mut out, list.at(i));
    }
    out.finish()
}
