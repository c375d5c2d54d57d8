//! The hook functions of all buffers.
ghost use Rattle.std.specs.Prelude.{◌≡◌, ◌↔◌, ◌<◌, ◌≤◌, [], Some, None, true};
ghost use Rattle.std.specs.Prelude.{false, map, length, nat_le, if◌then◌else◌, IfOk};
ghost use Rattle.std.specs.Prelude.{OnErr};
ghost use Rattle.std.specs.List.{position};
ghost use Rattle.editor_model.specs.Limits.{most_buffers};
ghost use Rattle.editor_model.specs.Values.{Sym as symbol};
ghost use Rattle.plain_machine.specs.State.{new_state, hooks_of, with_hooks};
ghost use Rattle.plain_machine.specs.Hooks.{most_hooks, hook_here, hook_added, hook_removed};
ghost use Rattle.ek_types.specs.Listing.{items_of};
ghost use Rattle.ek_types.specs.Property.{number_of};
ghost use Rattle.change_hooks.specs.Hooked.{hook, hooks_in, state_with, with_list};
ghost use Rattle.change_hooks.specs.Lists.{is_of};

use crate::lists::{BufferHooks, holds, place_of, with_first};
use ek_types::limits::MOST_BUFFERS;
use ek_types::{Copied, ListOf, Mem, Sym, SymList};
use std::alloc::Global;
use std::marker::Model;

/// How many functions a list has at most.
pub const MOST_HOOKS: usize = 8;

/// Which functions hear of the changes of each buffer (GNU Emacs Lisp Reference Manual, Change Hooks), and whether they
/// are inhibited. It is seen as what the machine's state has of these. A buffer is given by its number, which is
/// below 256.
#[derive(Drop)]
pub struct Hooks {
    /// The lists of each buffer that was given to a call that sets one, in this order. There is room for those of all
    /// buffers.
    buffers: Vec<BufferHooks>,
    /// The list of each other buffer.
    nothing: SymList,
    inhibited: bool,
}

impl Model for Hooks {
    ghost use Rattle.std.specs.Prelude.{◌≡◌, ◌≤◌, [], map, vec_capacity};
    ghost use Rattle.editor_model.specs.Limits.{most_buffers};
    ghost use Rattle.ek_types.specs.Listing.{items_of};
    ghost use Rattle.change_hooks.specs.Hooked.{Hooked};

    ghost Value = { Hooked };

    ghost use Rattle.change_hooks.specs.Lists.{entry_of, AreKept};

    ghost view = { λ h. record { lists = map entry_of h.buffers.items; inhibited = h.inhibited } };

    ghost invariant = { λ h. AreKept (map entry_of h.buffers.items) ×
        (most_buffers ≤ vec_capacity h.buffers) × (items_of h.nothing ≡ []) };
}

impl Hooks {
    /// No functions anywhere, and none inhibited. Room for the lists of all buffers is taken.
    pub fn new(alloc: Global) -> Mem<Hooks>
        ensures { IfOk result (λ hooks. hooks ≡ hooks_in new_state) }
    {
        Ok(Hooks {
            buffers: Vec::with_capacity(alloc, MOST_BUFFERS as usize)?,
            nothing: ListOf::new(alloc),
            inhibited: false,
        })
    }

    /// The functions of a buffer that are called before a change, or those that are called after it. The one that was
    /// added last comes first.
    pub fn list(&self, buffer: u32, before: bool) -> &SymList
        ensures few { length (items_of result.now) ≤ most_hooks }
        ensures names { map number_of (items_of result.now) ≡
            hook_here (state_with self.now buffer) (symbol (hook before)) }
    {
        match self.place(buffer) {
            Some(i) => self.buffers[i].list(before),
            None => &self.nothing,
        }
    }

    /// The same functions as a list of their own, since their calls may change the list.
    #[inline(always)]
    pub fn names(&self, buffer: u32, before: bool) -> Mem<SymList>
        ensures { IfOk result (λ names. map number_of (items_of names) ≡
            hook_here (state_with self.now buffer) (symbol (hook before))) }
    {
        self.list(buffer, before).copy()
    }

    /// Puts a function in front of a list of a buffer, unless it stands there. It answers false exactly where 8
    /// others stand there, and then nothing changes. Want of memory leaves all as it was.
    pub fn add(&mut self, buffer: u32, before: bool, name: Sym) -> Mem<bool>
        requires { buffer < most_buffers }
        ensures fits { IfOk result (λ fits. fits ≡
            nat_le (length (hook_added (state_with self.old buffer) (symbol (hook before))
            (symbol name.0))) most_hooks) }
        ensures others { IfOk result (λ fits. (fits ≡ false) ↔
            (length (hook_removed (state_with self.old buffer) (symbol (hook before))
            (symbol name.0)) ≡ most_hooks)) }
        ensures hooks { IfOk result (λ fits. self.new ≡
            (if fits then with_list buffer before
            (hook_added (state_with self.old buffer) (symbol (hook before)) (symbol name.0))
            self.old else self.old)) }
        ensures err { OnErr result (self.new ≡ self.old) }
    {
        let names = self.list(buffer, before);
        if holds(names.as_slice(), name) {
            return Ok(true);
        }
        if names.len() >= MOST_HOOKS {
            return Ok(false);
        }
        let longer = with_first(name, names)?;
        self.set(buffer, before, longer);
        Ok(true)
    }

    /// Takes a function out of a list of a buffer, where it stands there. It takes no memory.
    pub fn remove(&mut self, buffer: u32, before: bool, name: Sym)
        requires { buffer < most_buffers }
        ensures { self.new ≡ with_list buffer before
            (hook_removed (state_with self.old buffer) (symbol (hook before)) (symbol name.0))
            self.old }
    {
        let i = self.entry(buffer);
        self.buffers[i].remove(before, name);
    }

    /// Empties a list of a buffer. It takes no memory.
    pub fn clear(&mut self, buffer: u32, before: bool)
        requires { buffer < most_buffers }
        ensures { self.new ≡ with_list buffer before [] self.old }
    {
        let none = ListOf::new(*self.buffers.allocator());
        self.set(buffer, before, none);
    }

    /// Whether no function is entered.
    pub fn inhibited(&self) -> bool
        ensures { result ≡ self.now.inhibited }
    {
        self.inhibited
    }

    /// Sets whether no function is entered, and answers what was set before.
    pub fn inhibit(&mut self, on: bool) -> bool
        ensures old { result ≡ self.old.inhibited }
        ensures hooks { self.new ≡ record self.old { inhibited = on } }
    {
        let old = self.inhibited;
        self.inhibited = on;
        old
    }

    /// Where the lists of a buffer stand.
    fn place(&self, buffer: u32) -> Option<usize>
        ensures { result ≡ position (is_of buffer) self.now.lists }
    {
        place_of(&self.buffers, buffer)
    }

    /// Where the lists of a buffer stand. Where they don't, they are put there, and are empty. It takes no memory.
    fn entry(&mut self, buffer: u32) -> usize
        requires { buffer < most_buffers }
        ensures place { position (is_of buffer) self.new.lists ≡ Some result }
        ensures hooks { self.new ≡ record self.old {
          lists = with_hooks buffer
              (hooks_of self.old.lists buffer) self.old.lists;
        } }
    {
        if let Some(i) = self.place(buffer) {
            return i;
        }
        let i = self.buffers.len();
        let alloc = *self.buffers.allocator();
        self.buffers.push_reserved(BufferHooks::new(alloc, buffer));
        i
    }

    /// Puts a list, which has at most 8 names, in the place of one of a buffer. It takes no memory.
    fn set(&mut self, buffer: u32, before: bool, names: SymList)
        requires buffer { buffer < most_buffers }
        requires names { length (items_of names) ≤ most_hooks }
        ensures { self.new ≡ with_list buffer before (map number_of (items_of names)) self.old }
    {
        let i = self.entry(buffer);
        self.buffers[i].set(before, names);
    }
}
