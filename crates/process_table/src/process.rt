//! One process.
ghost use Rattle.std.specs.Prelude.{◌≡◌, ◌+◌, ◌≤◌, ◌++◌, ◌&&◌, true, false, length, option_map};
ghost use Rattle.std.specs.Prelude.{is_some, not};
ghost use Rattle.text_model.specs.Codings.{decoded, undecoded, all_decoded};
ghost use Rattle.editor_model.specs.Editor.{same_name};
ghost use Rattle.plain_machine.specs.State.{read_so_far};
ghost use Rattle.plain_machine.specs.Calls.{with_filter, with_sentinel, of_buffer, with_coding};
ghost use Rattle.plain_machine.specs.Calls.{with_input_closed};
ghost use Rattle.plain_machine.specs.Handling.{unlisted};
ghost use Rattle.ek_types.specs.Property.{number_of};
ghost use Rattle.process_table.specs.Meaning.{status_of, filter_of};
ghost use Rattle.process_table.specs.Table.{new_process, with_status, with_held, with_drained};
ghost use Rattle.utf8_stream.specs.Codings.{coding_of};

use ek_types::{Chars, Sym};
use std::marker::Model;
use utf8_stream::{Coding, Decoder};

/// How a process stands (GNU Emacs Lisp Reference Manual, Process Information).
#[derive(Clone, Copy, Debug, PartialEq, Eq)]
pub enum Status {
    Run,
    /// It exited with this code.
    Exit(i32),
    /// A signal ended it, or it was deleted.
    Signal,
    /// Its end couldn't be had.
    Failed,
}

/// Who hears the output of a process (GNU Emacs Lisp Reference Manual, Filter Functions).
#[derive(Clone, Copy, Debug, PartialEq, Eq)]
pub enum Filter {
    /// The output is put into the buffer of the process.
    Default,
    /// Nobody: the process isn't read.
    Off,
    /// The handler of this name.
    Named(Sym),
}

/// A process, seen as the machine's with those bytes that its decoder holds in the place of all that were read.
#[derive(Drop)]
pub struct Process {
    name: Chars,
    child: u32,
    status: Status,
    buffer: Option<u32>,
    mark: u32,
    filter: Filter,
    sentinel: Option<Sym>,
    decoder: Decoder,
    fed: bool,
    drained: bool,
    closed: bool,
    listed: bool,
}

impl Model for Process {
    ghost use Rattle.std.specs.Prelude.{◌≡◌, false, [], if◌then◌else◌, option_map, Some, None};
    ghost use Rattle.ek_types.specs.Property.{number_of};
    ghost use Rattle.plain_machine.specs.State.{Process as Meant};

    ghost Value = { Meant };

    ghost use Rattle.process_table.specs.Meaning.{status_of, filter_of};

    ghost view = { λ p. record {
      name = p.name.items;
      child = p.child;
      status = status_of p.status;
      buffer = p.buffer;
      mark = p.mark;
      filter = filter_of p.filter;
      sentinel = option_map number_of p.sentinel;
      coding = p.decoder.coding;
      bytes = if p.fed then Some p.decoder.bytes else None;
      drained = p.drained;
      closed = p.closed;
      listed = p.listed;
    } };

    ghost invariant = { λ p. p.fed ≡ false → p.decoder.bytes ≡ [] };
}

impl Process {
    /// A process that just started: with no handlers of its own, and nothing read.
    pub(crate) fn new(name: Chars, child: u32, buffer: Option<u32>, mark: u32) -> Process
        ensures { result ≡ new_process name.items child buffer mark }
    {
        Process {
            name,
            child,
            status: Status::Run,
            buffer,
            mark,
            filter: Filter::Default,
            sentinel: None,
            decoder: Decoder::new(),
            fed: false,
            drained: false,
            closed: false,
            listed: true,
        }
    }

    /// Its name. No two listed processes have the same.
    pub fn name(&self) -> &Chars
        ensures { result.now.items ≡ self.now.name }
    {
        &self.name
    }

    /// The number that the host gave its child.
    pub fn child(&self) -> u32
        ensures { result ≡ self.now.child }
    {
        self.child
    }

    /// How it stands.
    pub fn status(&self) -> Status
        ensures { status_of result ≡ self.now.status }
    {
        self.status
    }

    /// The number of its buffer, if it has one; that may have been killed.
    pub fn buffer(&self) -> Option<u32>
        ensures { result ≡ self.now.buffer }
    {
        self.buffer
    }

    /// The number of the marker where its output is put.
    pub fn mark(&self) -> u32
        ensures { result ≡ self.now.mark }
    {
        self.mark
    }

    /// Who hears its output.
    pub fn filter(&self) -> Filter
        ensures { filter_of result ≡ self.now.filter }
    {
        self.filter
    }

    /// The handler that hears of its end, or none of its own.
    pub fn sentinel(&self) -> Option<Sym>
        ensures { option_map number_of result ≡ self.now.sentinel }
    {
        self.sentinel
    }

    /// How its output is decoded.
    pub fn coding(&self) -> Coding
        ensures { coding_of result ≡ self.now.coding }
    {
        self.decoder.coding()
    }

    /// Whether a read of it gave bytes, so that its coding stays as it is.
    pub fn fed(&self) -> bool
        ensures { result ≡ is_some self.now.bytes }
    {
        self.fed
    }

    /// The bytes that its decoder holds, at most 3: those read that the next ones may still change.
    pub fn held(&self) -> &[u8]
        ensures held { result.now ≡ read_so_far self.now }
        ensures tail { undecoded self.now.coding (read_so_far self.now) ≡ read_so_far self.now }
        ensures at_most { length (read_so_far self.now) ≤ 3 }
    {
        self.decoder.held()
    }

    /// Whether its output has ended.
    pub fn drained(&self) -> bool
        ensures { result ≡ self.now.drained }
    {
        self.drained
    }

    /// Whether its input was closed.
    pub fn closed(&self) -> bool
        ensures { result ≡ self.now.closed }
    {
        self.closed
    }

    /// Whether it is on the process list: until its sentinel has ended.
    pub fn listed(&self) -> bool
        ensures { result ≡ self.now.listed }
    {
        self.listed
    }

    /// Whether it is on the process list under this name.
    pub(crate) fn is_listed_as(&self, name: &Chars) -> bool
        ensures { result ≡ (self.now.listed && same_name self.now.name name.now.items) }
    {
        self.listed && self.name.same(name)
    }

    pub(crate) fn set_filter(&mut self, filter: Filter)
        ensures { self.new ≡ with_filter (filter_of filter) self.old }
    {
        self.filter = filter;
    }

    pub(crate) fn set_sentinel(&mut self, sentinel: Option<Sym>)
        ensures { self.new ≡ with_sentinel (option_map number_of sentinel) self.old }
    {
        self.sentinel = sentinel;
    }

    pub(crate) fn set_buffer(&mut self, buffer: Option<u32>)
        ensures { self.new ≡ of_buffer buffer self.old }
    {
        self.buffer = buffer;
    }

    /// Sets how its output is decoded, as long as nothing was read, and tells whether nothing was.
    pub(crate) fn set_coding(&mut self, coding: Coding) -> bool
        ensures answer { result ≡ not (is_some self.old.bytes) }
        ensures process { self.new ≡ with_coding (coding_of coding) self.old }
    {
        if self.fed {
            return false;
        }
        self.decoder = Decoder::with(coding);
        true
    }

    pub(crate) fn note_end(&mut self, status: Status)
        ensures { self.new ≡ with_status (status_of status) self.old }
    {
        self.status = status;
    }

    pub(crate) fn close_input(&mut self)
        ensures { self.new ≡ with_input_closed self.old }
    {
        self.closed = true;
    }

    pub(crate) fn unlist(&mut self)
        ensures { self.new ≡ unlisted self.old }
    {
        self.listed = false;
    }

    /// Appends the characters of the bytes held and given, and holds what the next bytes may still change.
    pub(crate) fn feed(&mut self, bytes: &[u8], out: &mut Chars)
        requires { length (read_so_far self.old) + length bytes.now ≤ out.old.spare }
        ensures items { out.new.items ≡ out.old.items ++ decoded self.old.coding
            (read_so_far self.old ++ bytes.now) }
        ensures spare { out.new.spare + length (decoded self.old.coding
            (read_so_far self.old ++ bytes.now)) ≡ out.old.spare }
        ensures process { self.new ≡ with_held (undecoded self.old.coding
            (read_so_far self.old ++ bytes.now)) self.old }
    {
        self.decoder.feed(bytes, out);
        self.fed = true;
    }

    /// Appends all characters of the bytes held, since its output has ended.
    pub(crate) fn drain(&mut self, out: &mut Chars)
        requires { length (read_so_far self.old) ≤ out.old.spare }
        ensures items { out.new.items ≡ out.old.items ++ all_decoded self.old.coding
            (read_so_far self.old) }
        ensures spare { out.new.spare + length (all_decoded self.old.coding (read_so_far self.old)) ≡
            out.old.spare }
        ensures process { self.new ≡ with_drained self.old }
    {
        self.decoder.finish(out);
        self.drained = true;
    }
}
