//! Standard output in two hands: the sink writes lines to it, where they gather, and the host has them handed on before
//! it asks a child for anything.
//!
//! So whoever watches has seen all lines before a wait begins, and many short lines take few calls of the system. Once
//! a call of the writer has failed, nothing more is written.
ghost use Rattle.std.specs.Io.{WritesAtMost};

use std::alloc::Global;
use std::cell::{Cell, RefCell, RefMut};
use std::io::{self, BufWriter, Error, ErrorKind, Write};

/// How many bytes it keeps back at most.
const KEPT_BACK: usize = 65_536;

/// A writer that keeps back what it is given until it is full, or has to hand it on.
pub struct Output<W: Write + Drop> {
    writer: RefCell<BufWriter<W>>,
    has_failed: Cell<bool>,
}

impl<W: Write + Drop> Output<W> {
    /// An output that was given nothing yet.
    pub fn new(alloc: Global, writer: W) -> io::Result<Output<W>> {
        let writer = BufWriter::with_capacity(alloc, KEPT_BACK, writer)?;
        Ok(Output {
            writer: RefCell::new(writer),
            has_failed: Cell::new(false),
        })
    }

    /// Hands on what it keeps back. It is an error, too, where a call failed before.
    pub fn hand_on(&self) -> io::Result<()> {
        let handed = self.lent()?.flush();
        self.has_failed.set(handed.is_err());
        handed
    }

    /// Takes the first of some bytes.
    fn take(&self, from: &[u8]) -> io::Result<usize>
        ensures { WritesAtMost result from.now }
    {
        let taken = self.lent()?.write(from);
        self.has_failed.set(taken.is_err());
        taken
    }

    /// The writer, unless a call of it has failed.
    fn lent(&self) -> io::Result<RefMut<'_, BufWriter<W>>> {
        if self.has_failed.get() {
            return Err(Error::from(ErrorKind::BrokenPipe));
        }
        self.writer
            .try_borrow_mut()
            .map_err(|_| Error::from(ErrorKind::ResourceBusy))
    }
}

/// A `BufWriter` that is dropped offers its writer what it still keeps, so behind a call that failed it is taken apart.
impl<W: Write + Drop> Drop for Output<W> {
    fn drop(self) {
        let Output { writer, has_failed } = self;
        if has_failed.get() {
            let _ = writer.into_inner().into_parts();
        }
    }
}

/// The hand of the sink. It tells nothing of what it holds, as standard output doesn't.
#[derive(Drop)]
pub struct Hand<'a, W: Write + Drop> {
    pub output: &'a Output<W>,
}

impl<W: Write + Drop> Write for Hand<'_, W> {
    fn write(&mut self, from: &[u8]) -> io::Result<usize> {
        self.output.take(from)
    }

    fn flush(&mut self) -> io::Result<()> {
        self.output.hand_on()
    }
}
