//! Exchanges as text: `read 0: bytes abc`, with no end of line.
use crate::asking::{Answer, Ask, ByteList, Exchange};
use std::fmt;

/// Bytes as the text that they are; bytes that aren't UTF-8 with an escape for each byte that isn't printable ASCII.
#[derive(Clone, Copy)]
struct ByteText<'a>(&'a [u8]);

fn shown(bytes: &ByteList) -> ByteText<'_> {
    ByteText(bytes.as_slice())
}

impl<'a> fmt::Display for ByteText<'a> {
    fn fmt<W: fmt::Write>(&self, f: &mut fmt::Formatter<W>) -> fmt::Result {
        match str::from_utf8(self.0) {
            Ok(text) => f.write_str(text),
            Err(_) => write!(f, "{}", self.0.escape_ascii()),
        }
    }
}

impl fmt::Display for Ask {
    fn fmt<W: fmt::Write>(&self, f: &mut fmt::Formatter<W>) -> fmt::Result {
        match self {
            Ask::Spawn(program, args) => {
                write!(f, "spawn {}", shown(program))?;
                for arg in args.as_slice() {
                    write!(f, " {}", shown(arg))?;
                }
                Ok(())
            }
            Ask::Read(child) => write!(f, "read {child}"),
            Ask::End(child) => write!(f, "end {child}"),
            Ask::Send(child, bytes) => write!(f, "send {child} {}", shown(bytes)),
            Ask::Close(child) => write!(f, "close {child}"),
            Ask::Kill(child) => write!(f, "kill {child}"),
        }
    }
}

impl fmt::Display for Answer {
    fn fmt<W: fmt::Write>(&self, f: &mut fmt::Formatter<W>) -> fmt::Result {
        match self {
            Answer::Started(child) => write!(f, "started {child}"),
            Answer::Refused => f.write_str("refused"),
            Answer::Bytes(bytes) => write!(f, "bytes {}", shown(bytes)),
            Answer::Nothing => f.write_str("nothing"),
            Answer::End => f.write_str("end"),
            Answer::Code(code) => write!(f, "code {code}"),
            Answer::Signal => f.write_str("signal"),
            Answer::Running => f.write_str("running"),
            Answer::Sent => f.write_str("sent"),
            Answer::Broken => f.write_str("broken"),
            Answer::Closed => f.write_str("closed"),
            Answer::Killed => f.write_str("killed"),
            Answer::Failed => f.write_str("failed"),
        }
    }
}

impl fmt::Display for Exchange {
    fn fmt<W: fmt::Write>(&self, f: &mut fmt::Formatter<W>) -> fmt::Result {
        let Exchange { ask, answer } = self;
        write!(f, "{ask}: {answer}")
    }
}
