//! The hook functions of one buffer.
ghost use Rattle.std.specs.Prelude.{◌≡◌, ◌==◌, ◌∷◌, not, map, filter, IfOk};
ghost use Rattle.std.specs.List.{list_any, position};
ghost use Rattle.plain_machine.specs.State.{no_hooks};
ghost use Rattle.plain_machine.specs.Hooks.{hook_list, with_hook_list};
ghost use Rattle.ek_types.specs.Listing.{items_of};
ghost use Rattle.ek_types.specs.Property.{number_of};
ghost use Rattle.change_hooks.specs.Hooked.{hook};
ghost use Rattle.change_hooks.specs.Lists.{lists_of, entry_of};

use ek_types::{ListOf, Mem, Sym, SymList};
use std::alloc::Global;

/// The functions that hear of the changes of one buffer, by name, the one that was added last first.
#[derive(Drop)]
pub(crate) struct BufferHooks {
    pub(crate) buffer: u32,
    before: SymList,
    after: SymList,
}

impl BufferHooks {
    /// A buffer whose changes no function hears of. It takes no memory.
    pub(crate) fn new(alloc: Global, buffer: u32) -> BufferHooks
        ensures { entry_of result ≡ (buffer, no_hooks) }
    {
        BufferHooks {
            buffer,
            before: ListOf::new(alloc),
            after: ListOf::new(alloc),
        }
    }

    /// The functions that are called before a change, or those that are called after it.
    pub(crate) fn list(&self, before: bool) -> &SymList
        ensures { map number_of (items_of result.now) ≡ hook_list (hook before) (lists_of self.now) }
    {
        if before { &self.before } else { &self.after }
    }

    /// Puts a list in the place of one of the two.
    pub(crate) fn set(&mut self, before: bool, names: SymList)
        ensures { entry_of self.new ≡ (
          self.old.buffer,
          with_hook_list (hook before) (map number_of (items_of names)) (lists_of self.old),
        ) }
    {
        if before {
            self.before = names;
        } else {
            self.after = names;
        }
    }

    /// Takes a name out of one of the two lists. It takes no memory.
    pub(crate) fn remove(&mut self, before: bool, name: Sym)
        ensures { entry_of self.new ≡ (
          self.old.buffer,
          with_hook_list (hook before) (filter (λ n. not (n == name.0))
              (hook_list (hook before) (lists_of self.old))) (lists_of self.old),
        ) }
    {
        if before {
            remove_from(&mut self.before, name);
        } else {
            remove_from(&mut self.after, name);
        }
    }
}

/// Takes a name out of a list, wherever it stands there. It takes no memory.
pub fn remove_from(names: &mut SymList, name: Sym)
    ensures { map number_of (items_of names.new) ≡
        filter (λ n. not (n == name.0)) (map number_of (items_of names.old)) }
{
    names.retain(|n| n.0 != name.0);
}

/// Whether a name stands among others.
pub fn holds(names: &[Sym], name: Sym) -> bool
    ensures { result ≡ list_any (λ n. n == name.0) (map number_of names.now) }
{
    names.iter().any(|n| n.0 == name.0)
}

/// The first place of a buffer's lists.
pub(crate) fn place_of(buffers: &[BufferHooks], buffer: u32) -> Option<usize>
    ensures { result ≡ position (λ h. h.buffer == buffer) buffers.now }
{
    buffers.iter().position(|h| h.buffer == buffer)
}

/// A list with a name in front of the others.
pub(crate) fn with_first(name: Sym, names: &SymList) -> Mem<SymList>
    ensures { IfOk result (λ longer. map number_of (items_of longer) ≡ name.0 ∷
        map number_of (items_of names.now)) }
{
    let mut longer = ListOf::new(names.allocator());
    longer.push(name)?;
    for n in names.as_slice() {
        longer.push(*n)?;
    }
    Ok(longer)
}
