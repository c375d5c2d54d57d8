//! The calls that a shipped handler makes.
ghost use Rattle.std.specs.Prelude.{◌≡◌, ◌∷◌, [], Some, IfOk};
ghost use Rattle.ek_call.specs.Meaning.{view};
ghost use Rattle.ek_call.specs.Primitives.{prim_of};
ghost use Rattle.handler_code.specs.Calls.{asked_of};

use ek_call::{Primitive, Value};
use ek_types::{ListOf, Mem};
use handler_code::{NativeCall, Next};
use std::alloc::Global;

/// A call with three arguments.
pub(crate) fn ask_with_three(
    alloc: Global,
    prim: Primitive,
    first: Value,
    second: Value,
    third: Value,
) -> Mem<Next>
    ensures { IfOk result (λ next. asked_of next ≡
        Some (prim_of prim, view first ∷ view second ∷ view third ∷ [])) }
{
    let mut args = ListOf::with_room(alloc, 3)?;
    args.push(first)?;
    args.push(second)?;
    args.push(third)?;
    Ok(Next::Call(NativeCall { prim, args }))
}
