//! Property sets.
ghost use Rattle.std.specs.Prelude.{◌≡◌, [], ◌++◌, IfOk, OnOk, option_map, length, map, take, drop};
ghost use Rattle.std.specs.Prelude.{slice_get, Some, ◌<◌, ◌≤◌};
ghost use Rattle.std.specs.List.{prefix_len};
ghost use Rattle.text_model.specs.Properties.{get, put, with_value, without, given};
ghost use Rattle.text_model.specs.Ordered.{IsProper};
ghost use Rattle.ek_types.specs.Property.{prop_of, number_of, pair_of, is_before, without_first};

use crate::list::Copied;
use crate::memory::Mem;
use crate::property::PropVal;
use crate::symbol::Sym;
use std::alloc::Global;
use std::marker::Model;

type Pair = (Sym, PropVal);

/// The properties of a character or an overlay ("Text Properties" in the GNU Emacs Lisp Reference Manual), seen as
/// the list of names with their values, by rising number of the name. Nil is never a value.
#[derive(Drop)]
pub struct PropSet {
    pairs: Vec<Pair>,
}

impl Model for PropSet {
    ghost use Rattle.text_model.specs.Properties.{PropSet as Pairs};
    ghost use Rattle.text_model.specs.Ordered.{IsProper};

    ghost Value = { Pairs };

    ghost use Rattle.std.specs.Prelude.{map};
    ghost use Rattle.ek_types.specs.Property.{pair_of};

    ghost view = { λ s. map pair_of s.pairs.items };

    ghost invariant = { λ s. IsProper (map pair_of s.pairs.items) };
}

/// Puts copies of some pairs behind others.
fn add_copies(pairs: &mut Vec<Pair>, from: &[Pair]) -> Mem<()>
    ensures { OnOk result (map pair_of pairs.new.items ≡ map pair_of pairs.old.items ++
        map pair_of from.now) }
{
    for (name, value) in from {
        pairs.push((*name, value.copy()?))?;
    }
    Ok(())
}

/// How many names are smaller, which is the place of this one.
fn place(pairs: &[Pair], name: Sym) -> usize
    requires { IsProper (map pair_of pairs.now) }
    ensures exact { result ≡ prefix_len (λ p. is_before name.0 (pair_of p)) pairs.now }
    ensures within { result ≤ length pairs.now }
{
    pairs.partition_point(
        |pair: &Pair| -> bool
            ensures { result ≡ is_before name.0 (pair_of pair.now) }
        { pair.0.0 < name.0 },
    )
}

/// Takes out the pair at a place, where it has this name.
fn take_at(pairs: &mut Vec<Pair>, at: usize, name: Sym)
    requires { at ≤ length pairs.old.items }
    ensures { map pair_of pairs.new.items ≡ take at (map pair_of pairs.old.items) ++
        without_first name.0 (drop at (map pair_of pairs.old.items)) }
{
    if at < pairs.len() && pairs[at].0.0 == name.0 {
        pairs.remove(at);
    }
}

/// Takes out the pair of a name, if there is one.
fn take_out(pairs: &mut Vec<Pair>, name: Sym)
    requires { IsProper (map pair_of pairs.old.items) }
    ensures { map pair_of pairs.new.items ≡ without (map pair_of pairs.old.items) name.0 }
{
    let at = place(pairs, name);
    take_at(pairs, at, name);
}

/// Puts a pair in, in the place of the one of this name, if there is one.
fn put_in(pairs: &mut Vec<Pair>, name: Sym, value: PropVal) -> Mem<()>
    requires { IsProper (map pair_of pairs.old.items) }
    ensures { OnOk result (map pair_of pairs.new.items ≡
        with_value (map pair_of pairs.old.items) name.0 (prop_of value)) }
{
    let at = place(pairs, name);
    take_at(pairs, at, name);
    pairs.insert(at, (name, value))?;
    Ok(())
}

impl PropSet {
    /// The set with no property, which takes no memory.
    pub fn empty(alloc: Global) -> PropSet
        ensures { result ≡ [] }
    {
        PropSet {
            pairs: Vec::new(alloc),
        }
    }

    /// The set of these properties, which stand by rising number of the name, each name once and no value nil.
    pub fn of_rising(pairs: Vec<(Sym, PropVal)>) -> PropSet
        requires { IsProper (map pair_of pairs.items) }
        ensures { result ≡ map pair_of pairs.items }
    {
        PropSet { pairs }
    }

    /// How many properties there are.
    pub fn len(&self) -> usize
        ensures exact { result ≡ length self.now }
        ensures proper { IsProper self.now }
    {
        self.pairs.len()
    }

    /// The property at place `i`, counted from 0 and below the length, by rising number of the name.
    pub fn at(&self, i: usize) -> (Sym, &PropVal)
        requires { i < length self.now }
        ensures { slice_get self.now i ≡ Some (number_of result.0, prop_of result.1.now) }
    {
        let pair = &self.pairs[i];
        (pair.0, &pair.1)
    }

    /// The value of a property, or `None` where the set hasn't it.
    pub fn get(&self, name: Sym) -> Option<&PropVal>
        ensures { option_map (λ v. prop_of v.now) result ≡ get self.now name.0 }
    {
        for pair in &self.pairs {
            if pair.0.0 == name.0 {
                return Some(&pair.1);
            }
        }
        None
    }

    /// The set with the property given anew. Nil takes it away. The set itself is changed, and no other value copied.
    pub fn with(self, name: Sym, value: &PropVal) -> Mem<PropSet>
        ensures { IfOk result (λ set. set ≡ put self name.0 (given (prop_of value.now))) }
    {
        if value.is_nil() {
            return Ok(self.without(name));
        }
        let mut pairs = self.pairs;
        put_in(&mut pairs, name, value.copy()?)?;
        Ok(PropSet { pairs })
    }

    /// The set without the property.
    pub fn without(self, name: Sym) -> PropSet
        ensures { result ≡ without self name.0 }
    {
        let mut pairs = self.pairs;
        take_out(&mut pairs, name);
        PropSet { pairs }
    }

    /// The same properties again.
    pub fn copy(&self) -> Mem<PropSet>
        ensures { IfOk result (λ set. set ≡ self.now) }
    {
        let mut pairs = Vec::with_capacity(*self.pairs.allocator(), self.pairs.len())?;
        add_copies(&mut pairs, &self.pairs)?;
        Ok(PropSet { pairs })
    }
}
