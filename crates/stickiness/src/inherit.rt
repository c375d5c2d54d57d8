//! The properties that an inserted character inherits.
ghost use Rattle.std.specs.Prelude.{◌≡◌, ◌+◌, ◌<◌, IfOk, IfSome, option_map, is_some, length};
ghost use Rattle.std.specs.Prelude.{Some, drop};
ghost use Rattle.text_model.specs.Properties.{get, put_all};
ghost use Rattle.text_model.specs.Ordered.{IsProper, IsOrdered};
ghost use Rattle.text_model.specs.Sticky.{inherited, offered_by_before, offered_by_after};
ghost use Rattle.stickiness.specs.Offers.{offers, offered, offered_at};

use crate::side::Side;
use ek_types::{Mem, PropSet, Sym};
use std::alloc::Global;

/// A set with one property of a neighbour put into it, if the neighbour offers it.
fn with_one(onto: PropSet, set: &PropSet, i: usize, side: Side) -> Mem<PropSet>
    requires within { i < length set.now }
    requires proper { IsProper set.now }
    ensures { IfOk result (λ s. put_all s (offered side set.now (drop (i + 1) set.now)) ≡
        put_all onto (offered side set.now (drop i set.now))) }
{
    let (name, value) = set.at(i);
    if side.offers(set, name) {
        onto.with(name, value)
    } else {
        Ok(onto)
    }
}

/// A set with all that a neighbour offers put into it.
fn with_offered(onto: PropSet, set: &PropSet, side: Side) -> Mem<PropSet>
    ensures exact { IfOk result (λ s. s ≡ put_all onto (offered side set.now set.now)) }
    ensures ordered { IsOrdered set.now }
{
    let mut onto = onto;
    for i in 0..set.len() {
        onto = with_one(onto, set, i, side)?;
    }
    Ok(onto)
}

/// What the character after the insertion offers.
fn offered_by_after(alloc: Global, after: Option<&PropSet>) -> Mem<PropSet>
    ensures { IfOk result (λ s. s ≡ offered_by_after (option_map (λ t. t.now) after.entry)) }
{
    let nothing = PropSet::empty(alloc);
    match after {
        Some(set) => with_offered(nothing, set, Side::After),
        None => Ok(nothing),
    }
}

/// A set with what the character before the insertion offers put into it.
fn with_before(onto: PropSet, before: Option<&PropSet>) -> Mem<PropSet>
    ensures { IfOk result (λ s. s ≡ put_all onto
        (offered_by_before (option_map (λ t. t.now) before.entry))) }
{
    match before {
        Some(set) => with_offered(onto, set, Side::Before),
        None => Ok(onto),
    }
}

/// The properties that a character takes which is put in between two others ("Sticky Properties" in the GNU Emacs Lisp
/// Reference Manual); either neighbour may be absent.
///
/// The character before offers all that its `rear-nonsticky` doesn't name, and the one after those that its
/// `front-sticky` names: t names all, a list the names in it, and anything else none. The two stickiness properties
/// are never offered. Where both offer a property, the value of the one before is taken. The names of the set that is
/// answered rise, and nil is never a value.
pub fn inherited(alloc: Global, before: Option<&PropSet>, after: Option<&PropSet>) -> Mem<PropSet>
    ensures exact { IfOk result (λ set. set ≡ inherited (option_map (λ s. s.now) before.entry)
        (option_map (λ s. s.now) after.entry)) }
    ensures proper { IfOk result IsProper }
{
    let set = with_before(offered_by_after(alloc, after)?, before)?;
    // Read for what it ensures: the names rise, and nil is never a value.
    let _proper = set.len();
    Ok(set)
}

/// Whether a neighbour has a property and offers it.
fn gives(side: Side, set: Option<&PropSet>, name: Sym) -> bool
    ensures exact { result ≡ is_some (get (offered_at side (option_map (λ s. s.now) set.entry)) name.0) }
    ensures ordered { IfSome (option_map (λ s. s.now) set.entry) IsOrdered }
{
    let Some(set) = set else {
        return false;
    };
    // Read for what it ensures: the names rise.
    let _proper = set.len();
    side.offers(set, name) && set.get(name).is_some()
}

/// Whether a character that is put in between two others takes a property from one of them, as `inherited` says. It takes
/// no memory.
pub fn inherits(before: Option<&PropSet>, after: Option<&PropSet>, name: Sym) -> bool
    ensures { result ≡ is_some (get (inherited (option_map (λ s. s.now) before.entry)
        (option_map (λ s. s.now) after.entry)) name.0) }
{
    let first = gives(Side::Before, before, name);
    first || gives(Side::After, after, name)
}
