//! The parameters of the handlers that are running.
ghost use Rattle.std.specs.Prelude.{◌≡◌, ◌==◌, [], ◌∷◌, true, map, drop, is_some, option_map};
ghost use Rattle.std.specs.Prelude.{IfOk, OnOk, OnErr};
ghost use Rattle.std.specs.List.{position};
ghost use Rattle.editor_model.specs.Arguments.{arg};
ghost use Rattle.editor_model.specs.Editor.{register, with_register};
ghost use Rattle.plain_machine.specs.Handling.{bound_params};
ghost use Rattle.ek_types.specs.Listing.{items_of};
ghost use Rattle.ek_types.specs.Property.{number_of};
ghost use Rattle.ek_call.specs.Meaning.{view};
ghost use Rattle.buffer_table.specs.Kept.{registers_of};
ghost use Rattle.kernel_state.specs.Meaning.{innermost, scopes_of};

use editor_prims::{arg, nil};
use ek_call::{Value, Values};
use ek_types::{Copied, Mem, Sym};
use std::alloc::Global;
use std::mem;

/// The parameters of one handler with their values.
type Scope = Vec<(Sym, Value)>;

/// The parameters of each handler that is running, the innermost last.
#[derive(Drop)]
pub struct Scopes {
    list: Vec<Scope>,
}

/// The value of a parameter of a scope, if it has one of this name.
fn value_in(scope: &[(Sym, Value)], name: Sym) -> Option<&Value>
    ensures { option_map (λ v. view v.now) result ≡ register (registers_of scope.now) name.0 }
{
    for i in 0..scope.len() {
        let entry = &scope[i];
        if entry.0.0 == name.0 {
            return Some(&entry.1);
        }
    }
    None
}

/// Where a parameter stands in a scope.
fn place_of(scope: &[(Sym, Value)], name: Sym) -> Option<usize>
    ensures { result ≡ position (λ entry. number_of entry.0 == name.0) scope.now }
{
    scope.iter().position(|entry| entry.0.0 == name.0)
}

/// Gives a parameter of a scope a value. It has one of this name.
fn set_in(scope: &mut Scope, name: Sym, value: Value)
    requires { is_some (register (registers_of scope.old.items) name.0) ≡ true }
    ensures { registers_of scope.new.items ≡
        with_register name.0 (view value) (registers_of scope.old.items) }
{
    match place_of(scope.as_slice(), name) {
        Some(i) => {
            let _before = mem::replace(&mut scope[i], (name, value));
        }
        None => unreachable!(),
    }
}

/// The same value, of which a string is shared: a copy of it then takes a few steps, however long it is.
pub(crate) fn shared(alloc: Global, value: Value) -> Mem<Value>
    ensures { IfOk result (λ v. view v ≡ view value) }
{
    match value {
        Value::Str(text) => Ok(Value::Str(text.shared(alloc)?)),
        other => Ok(other),
    }
}

/// An argument, by its place; a missing one is nil.
fn given(alloc: Global, args: &Values, i: usize) -> Mem<Value>
    ensures { IfOk result (λ v. view v ≡ arg (map view (items_of args.now)) i) }
{
    let nil = nil();
    let value = arg(args, i, &nil).copy()?;
    shared(alloc, value)
}

/// The parameters with their values: a missing argument is nil, and further ones are dropped.
fn bound(alloc: Global, params: &[Sym], args: &Values) -> Mem<Scope>
    ensures { IfOk result (λ scope. registers_of scope.items ≡
        bound_params (map number_of params.now) (map view (items_of args.now))) }
{
    let mut scope = Vec::with_capacity(alloc, params.len())?;
    for i in 0..params.len() {
        scope.push((params[i], given(alloc, args, i)?))?;
    }
    Ok(scope)
}

impl Scopes {
    /// No handler is running.
    pub fn new(alloc: Global) -> Scopes
        ensures { scopes_of result ≡ [] }
    {
        Scopes {
            list: Vec::new(alloc),
        }
    }

    /// The value of a parameter of the innermost handler, if it has one of this name.
    pub fn value(&self, name: Sym) -> Option<&Value>
        ensures { option_map (λ v. view v.now) result ≡
            register (innermost (scopes_of self.now)) name.0 }
    {
        match self.list.last() {
            Some(scope) => value_in(scope.as_slice(), name),
            None => None,
        }
    }

    /// Gives a parameter of the innermost handler a value. It has one of this name.
    pub fn set(&mut self, name: Sym, value: Value)
        requires { is_some (register (innermost (scopes_of self.old)) name.0) ≡ true }
        ensures { scopes_of self.new ≡
            with_register name.0 (view value) (innermost (scopes_of self.old)) ∷ drop 1 (scopes_of self.old) }
    {
        match self.list.last_mut() {
            Some(scope) => set_in(scope, name, value),
            None => unreachable!(),
        }
    }

    /// A handler begins: its parameters get their values. A refusal leaves all as it was.
    pub fn push(&mut self, params: &[Sym], args: &Values) -> Mem<()>
        ensures ok { OnOk result (scopes_of self.new ≡
            bound_params (map number_of params.now) (map view (items_of args.now)) ∷ scopes_of self.old) }
        ensures err { OnErr result (scopes_of self.new ≡ scopes_of self.old) }
    {
        let scope = bound(*self.list.allocator(), params, args)?;
        self.list.push(scope)?;
        Ok(())
    }

    /// The innermost handler ends.
    pub fn pop(&mut self)
        ensures { scopes_of self.new ≡ drop 1 (scopes_of self.old) }
    {
        let _scope = self.list.pop();
    }
}
