//! A list with a spare: how many more items fit with no memory taken.
ghost use Rattle.std.specs.Prelude.{◌≡◌, ℕ, ◌+◌, ◌<◌, ◌≤◌, [], ◌∷◌, ◌++◌, length, IfOk, IsOk, OnOk};
ghost use Rattle.std.specs.Prelude.{OnErr, slice_get, Some, List, map};
ghost use Rattle.std.specs.Fn.{CalledAt};
ghost use Rattle.std.specs.List.Retain.{IsFiltered};
ghost use Rattle.ek_types.specs.Listing.{items_of, spare_of};

use crate::memory::Mem;
use std::alloc::Global;

/// A value that can be copied where memory allows it.
pub trait Copied: Sized {
    /// What is seen of a value.
    ghost Seen: { Type 0 };

    ghost seen: { Self → Seen };

    /// The same value again.
    fn copy(&self) -> Mem<Self>
        ensures { IfOk result (λ c. seen c ≡ seen self.now) };
}

/// Items in order, counted from 0. No comparison of two lists looks at the spare.
#[derive(Drop)]
pub struct ListOf<T> {
    items: Vec<T>,
}

impl<T> ListOf<T> {
    /// The empty list, which takes no memory yet.
    pub fn new(alloc: Global) -> ListOf<T>
        ensures { items_of result ≡ [] }
    {
        ListOf {
            items: Vec::new(alloc),
        }
    }

    /// The list of the items of a vector, the room of which it keeps.
    pub fn of(items: Vec<T>) -> ListOf<T>
        ensures { items_of result ≡ items.items }
    {
        ListOf { items }
    }

    /// The empty list with a spare of at least `n`, for items whose number is known before.
    pub fn with_room(alloc: Global, n: usize) -> Mem<ListOf<T>>
        ensures items { IfOk result (λ list. items_of list ≡ []) }
        ensures room { IfOk result (λ list. n ≤ spare_of list) }
    {
        Ok(ListOf {
            items: Vec::with_capacity(alloc, n)?,
        })
    }

    /// Makes the spare at least `n`. A refusal leaves the list as it was.
    pub fn reserve(&mut self, n: usize) -> Mem<()>
        ensures items { items_of self.new ≡ items_of self.old }
        ensures room { OnOk result (n ≤ spare_of self.new) }
        ensures kept { spare_of self.old ≤ spare_of self.new }
        ensures had { n ≤ spare_of self.old → IsOk result }
    {
        self.items.reserve(n)?;
        Ok(())
    }

    /// The allocator that the list keeps.
    pub fn allocator(&self) -> Global {
        *self.items.allocator()
    }

    /// How many items there are.
    pub fn len(&self) -> usize
        ensures { result ≡ length (items_of self.now) }
    {
        self.items.len()
    }

    /// All items.
    pub fn as_slice(&self) -> &[T]
        ensures { result.now ≡ items_of self.now }
    {
        self.items.as_slice()
    }

    /// The item at place `i`, which is below the length.
    pub fn at(&self, i: usize) -> &T
        requires { i < length (items_of self.now) }
        ensures { slice_get (items_of self.now) i ≡ Some result.now }
    {
        &self.items[i]
    }

    /// Puts an item behind the others, with no memory taken. There must be spare, which falls by one.
    pub fn push_spare(&mut self, x: T)
        requires { 0 < spare_of self.old }
        ensures items { items_of self.new ≡ items_of self.old ++ x ∷ [] }
        ensures spare { spare_of self.new + 1 ≡ spare_of self.old }
    {
        self.items.push_reserved(x);
    }
}

impl<T: Copy> ListOf<T> {
    /// Puts copies of some items behind the others, with no memory taken. There must be spare for them, which falls by no
    /// more than their number.
    pub fn extend_spare(&mut self, more: &[T])
        requires { length more.now ≤ spare_of self.old }
        ensures items { items_of self.new ≡ items_of self.old ++ more.now }
        ensures spare { spare_of self.old ≤ spare_of self.new + length more.now }
    {
        match self.items.extend_from_slice(more) {
            Ok(()) => {}
            Err(_) => unreachable!(),
        }
    }
}

impl<T: Drop> ListOf<T> {
    /// Puts an item behind the others. A refusal leaves the list as it was and the spare no smaller. The first item gets
    /// room for itself alone, since most lists of a script hold one; from there on the room is doubled.
    pub fn push(&mut self, x: T) -> Mem<()>
        ensures ok { OnOk result (items_of self.new ≡ items_of self.old ++ x ∷ []) }
        ensures room { OnOk result (spare_of self.old ≤ spare_of self.new + 1) }
        ensures err { OnErr result (items_of self.new ≡ items_of self.old) }
        ensures kept { OnErr result (spare_of self.old ≤ spare_of self.new) }
        ensures had { 0 < spare_of self.old → IsOk result }
    {
        if self.items.len() == self.items.capacity() {
            self.items.reserve_exact(self.items.len().max(1))?;
        }
        self.items.push_reserved(x);
        Ok(())
    }

    /// Drops all items. The room that they took stays as spare.
    pub fn clear(&mut self)
        ensures items { items_of self.new ≡ [] }
        ensures spare { spare_of self.old ≤ spare_of self.new }
    {
        self.items.clear();
    }

    /// Keeps the items that pass a test, in their order, and drops the others. It takes no memory.
    pub fn retain<F: FnMut(&T) -> bool>(&mut self, f: F)
        requires { F.IsAlwaysCallable f }
        ensures items { IsFiltered (CalledAt F.FnMut) f (items_of self.old) (items_of self.new) }
        ensures spare { spare_of self.old ≤ spare_of self.new }
    {
        self.items.retain(f);
    }
}

impl<T: Copied + Drop> Copied for ListOf<T> {
    ghost Seen = { List T.Seen };

    ghost seen = { λ a. map T.seen (items_of a) };

    fn copy(&self) -> Mem<ListOf<T>> {
        let mut copies = ListOf::with_room(*self.items.allocator(), self.len())?;
        for i in 0..self.len() {
            copies.push(self.at(i).copy()?)?;
        }
        Ok(copies)
    }
}

impl Copied for u8 {
    ghost use Rattle.std.specs.Prelude.{ℕ};

    ghost Seen = { ℕ };

    ghost seen = { λ b. b };

    fn copy(&self) -> Mem<u8> {
        Ok(*self)
    }
}

impl Copied for u32 {
    ghost use Rattle.std.specs.Prelude.{ℕ};

    ghost Seen = { ℕ };

    ghost seen = { λ n. n };

    fn copy(&self) -> Mem<u32> {
        Ok(*self)
    }
}
