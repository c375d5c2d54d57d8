//! The calls that the natives of a session make.
ghost use Rattle.std.specs.Prelude.{◌≡◌, ◌∷◌, [], Some, IfOk};
ghost use Rattle.ek_call.specs.Meaning.{view};
ghost use Rattle.ek_call.specs.Primitives.{prim_of};
ghost use Rattle.handler_code.specs.Calls.{asked_of};
ghost use Rattle.line_session.specs.Handlers as handlers;

use ek_call::{Primitive, Value};
use ek_types::{Chars, ListOf, Mem, Piece};
use handler_code::{NativeCall, Next};
use std::alloc::Global;

/// A string of ASCII.
pub(crate) fn ascii(alloc: Global, bytes: &[u8]) -> Mem<Value>
    ensures { IfOk result (λ v. view v ≡ handlers.ascii bytes.now) }
{
    let mut text = Chars::new(alloc);
    text.extend_bytes(bytes)?;
    Ok(Value::Str(Piece::plain(alloc, text)?))
}

/// A call with two arguments.
pub(crate) fn ask_with_two(alloc: Global, prim: Primitive, first: Value, second: Value) -> Mem<Next>
    ensures { IfOk result (λ next. asked_of next ≡
        Some (prim_of prim, view first ∷ view second ∷ [])) }
{
    let mut args = ListOf::new(alloc);
    args.push(first)?;
    args.push(second)?;
    Ok(Next::Call(NativeCall { prim, args }))
}
