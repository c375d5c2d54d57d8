//! All processes of a run, by number.
ghost use Rattle.std.specs.Prelude.{◌≡◌, ◌+◌, ◌<◌, ◌≤◌, [], ◌∷◌, ◌++◌, List, length, map};
ghost use Rattle.std.specs.Prelude.{option_map, slice_get, Some, None, OnOk, OnErr};
ghost use Rattle.std.specs.Prelude.{IfOk};
ghost use Rattle.std.specs.Prelude.{not};
ghost use Rattle.text_model.specs.Codings.{decoded, undecoded, all_decoded};
ghost use Rattle.plain_machine.specs.State.{Process as Meant};
ghost use Rattle.plain_machine.specs.Arguments.{find_process, free_name, process_name, is_fed};
ghost use Rattle.plain_machine.specs.Calls.{with_filter, with_sentinel, of_buffer, with_coding};
ghost use Rattle.plain_machine.specs.Calls.{with_input_closed};
ghost use Rattle.plain_machine.specs.Handling.{unlisted};
ghost use Rattle.ek_types.specs.Property.{number_of};
ghost use Rattle.ek_call.specs.Meaning.{view};
ghost use Rattle.process_table.specs.Meaning.{status_of, filter_of};
ghost use Rattle.process_table.specs.Table.{NamesDiffer, new_process, with_table};
ghost use Rattle.process_table.specs.Table.{changed, coding_by, held_by, with_status, with_held};
ghost use Rattle.process_table.specs.Table.{with_drained};
ghost use Rattle.utf8_stream.specs.Codings.{coding_of};
ghost use Rattle.process_table.specs.Resolving.{Resolves, IsMade};

use crate::names::numbered;
use crate::place::{Place, moved};
use crate::process::{Filter, Process, Status};
use ek_call::{Fault, Value};
use ek_types::{Chars, Mem, Piece, Sym};
use std::alloc::Global;
use std::marker::Model;
use std::mem;
use utf8_stream::Coding;

/// Processes by number, from 0 in the order in which they were made, seen as the list of them. A run makes at most 256.
/// Names of listed processes differ. A process that a call is given, by its number, was made.
#[derive(Drop)]
pub struct Processes {
    list: Vec<Process>,
}

impl Model for Processes {
    ghost use Rattle.std.specs.Prelude.{List, length, ◌≤◌};
    ghost use Rattle.plain_machine.specs.State.{Process as Meant};

    ghost Value = { List Meant };

    ghost use Rattle.process_table.specs.Table.{NamesDiffer};

    ghost view = { λ t. t.list.items };

    ghost invariant = { λ t. (length t.list.items ≤ 256) × NamesDiffer t.list.items };
}

impl Processes {
    /// No processes yet, and no memory taken.
    pub fn new(alloc: Global) -> Processes
        ensures { result ≡ [] }
    {
        Processes {
            list: Vec::new(alloc),
        }
    }

    /// How many were made.
    pub fn count(&self) -> u32
        ensures count { result ≡ length self.now }
        ensures few { length self.now ≤ 256 }
        ensures differ { NamesDiffer self.now }
    {
        self.list.len() as u32
    }

    /// Takes all the memory that one process more of this name needs, so that its child can be asked for.
    pub fn reserve(&self, name: &Chars) -> Mem<Place>
        ensures { IfOk result (λ place. place ≡ record {
          name = name.now.items;
          processes = length self.now + 1;
        }) }
    {
        Ok(Place {
            name: name.copy()?,
            list: Vec::with_capacity(*self.list.allocator(), self.list.len() + 1)?,
        })
    }

    /// Makes a process that just started in the place that was reserved for it, and gives its number. It takes no
    /// memory. Fewer than 256 processes were made before, and no listed one has the name.
    pub fn add_reserved(&mut self, place: Place, child: u32, buffer: Option<u32>, mark: u32) -> u32
        requires few { length self.old < 256 }
        requires room { length self.old < place.processes }
        requires free { find_process 0 self.old place.name ≡ None }
        ensures number { result ≡ length self.old }
        ensures table { self.new ≡ self.old ++ new_process place.name child buffer mark ∷ [] }
    {
        let number = self.list.len() as u32;
        let empty = Vec::new(*self.list.allocator());
        let processes = mem::replace(&mut self.list, empty);
        self.list = moved(processes, place.list);
        self.list
            .push_reserved(Process::new(place.name, child, buffer, mark));
        number
    }

    /// Makes a process that just started, and gives its number. Fewer than 256 were made before, and no listed
    /// process has the name. A refusal leaves all processes as they were.
    pub fn add(&mut self, name: &Chars, child: u32, buffer: Option<u32>, mark: u32) -> Mem<u32>
        requires room { length self.old < 256 }
        requires free { find_process 0 self.old name.now.items ≡ None }
        ensures number { IfOk result (λ p. p ≡ length self.old) }
        ensures ok { OnOk result (self.new ≡ self.old ++
            new_process name.now.items child buffer mark ∷ []) }
        ensures err { OnErr result (self.new ≡ self.old) }
    {
        let place = self.reserve(name)?;
        Ok(self.add_reserved(place, child, buffer, mark))
    }

    /// The process of number `p`.
    pub fn get(&self, p: u32) -> &Process
        requires { p < length self.now }
        ensures { slice_get self.now p ≡ Some result.now }
    {
        &self.list[p as usize]
    }

    /// The process that an argument of a call gives: itself, or as the name of a listed one (GNU Emacs Lisp Reference
    /// Manual, Process Information). Other kinds are of a wrong type; a name that no listed process has is refused too.
    pub fn resolve(&self, v: &Value) -> Result<u32, Fault>
        requires { IsMade (length self.now) (view v.now) }
        ensures resolves { Resolves (with_table self.now) (view v.now) result }
        ensures made { IfOk result (λ p. p < length self.now) }
    {
        match v {
            Value::Process(p) => Ok(*p),
            Value::Str(name) => self.named(name).ok_or(Fault::NoSuchProcess),
            _ => Err(Fault::WrongType),
        }
    }

    /// The number of the listed process of a name.
    fn find(&self, name: &Chars) -> Option<u32>
        ensures { result ≡ find_process 0 self.now name.now.items }
    {
        for p in 0..self.list.len() {
            if self.list[p].is_listed_as(name) {
                return Some(p as u32);
            }
        }
        None
    }

    /// The number of the listed process whose name has the characters of a string.
    pub fn named(&self, name: &Piece) -> Option<u32>
        ensures { result ≡ find_process 0 self.now (map (λ c. c.0) name.now) }
    {
        self.find(name.text())
    }

    /// The name itself, or the first with `<1>`, `<2>` and so on behind it that no listed process has.
    pub fn free_name(&self, name: &Chars) -> Mem<Chars>
        ensures name { IfOk result (λ n. n.items ≡ process_name self.now name.now.items) }
        ensures free { IfOk result (λ n. find_process 0 self.now n.items ≡ None) }
    {
        if self.find(name).is_none() {
            name.copy()
        } else {
            self.first_free(name)
        }
    }

    /// The first of the name with `<1>`, `<2>` and so on behind it that no listed process has.
    fn first_free(&self, name: &Chars) -> Mem<Chars>
        ensures name { IfOk result (λ n. n.items ≡
            free_name (length self.now) 1 self.now name.now.items) }
        ensures free { IfOk result (λ n. find_process 0 self.now n.items ≡ None) }
    {
        let count = self.count();
        for n in 1..count + 1 {
            let longer = numbered(name, n)?;
            if self.find(&longer).is_none() {
                return Ok(longer);
            }
        }
        numbered(name, count + 1)
    }

    /// Sets who hears the output of process `p`.
    pub fn set_filter(&mut self, p: u32, f: Filter)
        requires { p < length self.old }
        ensures count { length self.new ≡ length self.old }
        ensures table { self.new ≡ changed p (with_filter (filter_of f)) self.old }
    {
        self.list[p as usize].set_filter(f);
    }

    /// Sets the handler that hears of the end of process `p`; `None` is the default one.
    pub fn set_sentinel(&mut self, p: u32, s: Option<Sym>)
        requires { p < length self.old }
        ensures count { length self.new ≡ length self.old }
        ensures table { self.new ≡ changed p (with_sentinel (option_map number_of s)) self.old }
    {
        self.list[p as usize].set_sentinel(s);
    }

    /// Sets the buffer of process `p`. Its mark stays.
    pub fn set_buffer(&mut self, p: u32, b: Option<u32>)
        requires { p < length self.old }
        ensures count { length self.new ≡ length self.old }
        ensures table { self.new ≡ changed p (of_buffer b) self.old }
    {
        self.list[p as usize].set_buffer(b);
    }

    /// Sets how the output of process `p` is decoded. Where a read of it gave bytes, it answers false, and nothing
    /// changes.
    pub fn set_coding(&mut self, p: u32, c: Coding) -> bool
        requires { p < length self.old }
        ensures answer { result ≡ not (is_fed (with_table self.old) p) }
        ensures count { length self.new ≡ length self.old }
        ensures table { self.new ≡ changed p (with_coding (coding_of c)) self.old }
    {
        self.list[p as usize].set_coding(c)
    }

    /// Takes process `p` off the process list. The process stays.
    pub fn unlist(&mut self, p: u32)
        requires { p < length self.old }
        ensures count { length self.new ≡ length self.old }
        ensures table { self.new ≡ changed p unlisted self.old }
    {
        self.list[p as usize].unlist();
    }

    /// Notes how process `p` stands.
    pub fn note_end(&mut self, p: u32, s: Status)
        requires { p < length self.old }
        ensures count { length self.new ≡ length self.old }
        ensures table { self.new ≡ changed p (with_status (status_of s)) self.old }
    {
        self.list[p as usize].note_end(s);
    }

    /// Notes that the input of process `p` was closed.
    pub fn close_input(&mut self, p: u32)
        requires { p < length self.old }
        ensures count { length self.new ≡ length self.old }
        ensures table { self.new ≡ changed p with_input_closed self.old }
    {
        self.list[p as usize].close_input();
    }

    /// Bytes of process `p` were read: appends the characters of the bytes held and these, and then holds what the
    /// next bytes may still change. `out` has spare for as many characters as there are bytes held and given; no
    /// memory is taken.
    pub fn feed(&mut self, p: u32, bytes: &[u8], out: &mut Chars)
        requires made { p < length self.old }
        requires room { length (held_by self.old p) + length bytes.now ≤ out.old.spare }
        ensures items { out.new.items ≡ out.old.items ++ decoded (coding_by self.old p)
            (held_by self.old p ++ bytes.now) }
        ensures spare { out.new.spare + length (decoded (coding_by self.old p)
            (held_by self.old p ++ bytes.now)) ≡ out.old.spare }
        ensures count { length self.new ≡ length self.old }
        ensures table { self.new ≡ changed p (with_held (undecoded (coding_by self.old p)
            (held_by self.old p ++ bytes.now))) self.old }
    {
        self.list[p as usize].feed(bytes, out);
    }

    /// The output of process `p` has ended: appends all characters of the bytes held, and then holds nothing. `out`
    /// has spare for as many characters as there are bytes held; no memory is taken.
    pub fn drain(&mut self, p: u32, out: &mut Chars)
        requires made { p < length self.old }
        requires room { length (held_by self.old p) ≤ out.old.spare }
        ensures items { out.new.items ≡ out.old.items ++ all_decoded (coding_by self.old p)
            (held_by self.old p) }
        ensures spare { out.new.spare + length (all_decoded (coding_by self.old p)
            (held_by self.old p)) ≡ out.old.spare }
        ensures count { length self.new ≡ length self.old }
        ensures table { self.new ≡ changed p with_drained self.old }
    {
        self.list[p as usize].drain(out);
    }
}
