//! The calls that a native makes.
ghost use Rattle.std.specs.Prelude.{◌≡◌, ◌∷◌, [], Some, unwrap_or, IfOk};
ghost use Rattle.std.specs.Option.{option_map};
ghost use Rattle.editor_model.specs.Values.{Nil};
ghost use Rattle.ek_call.specs.Meaning.{view};
ghost use Rattle.ek_call.specs.Primitives.{prim_of};
ghost use Rattle.handler_code.specs.Calls.{asked_of};

use crate::native::{NativeCall, Next};
use ek_call::{Primitive, Value};
use ek_types::{Copied, ListOf, Mem};
use std::alloc::Global;

/// A copy of a value. `None` stands for nil.
pub fn copied(value: Option<&Value>) -> Mem<Value>
    ensures { IfOk result (λ v. view v ≡ unwrap_or (option_map (λ w. view w.now) value.entry) Nil) }
{
    match value {
        Some(value) => value.copy(),
        None => Ok(Value::Nil),
    }
}

/// A call with no arguments.
pub fn ask(alloc: Global, prim: Primitive) -> Next
    ensures { asked_of result ≡ Some (prim_of prim, []) }
{
    let args = ListOf::new(alloc);
    Next::Call(NativeCall { prim, args })
}

/// A call with one argument.
pub fn ask_with(alloc: Global, prim: Primitive, value: Value) -> Mem<Next>
    ensures { IfOk result (λ next. asked_of next ≡ Some (prim_of prim, view value ∷ [])) }
{
    let mut args = ListOf::new(alloc);
    args.push(value)?;
    Ok(Next::Call(NativeCall { prim, args }))
}
