//! Which calls of a native are made.
ghost use Rattle.std.specs.Prelude.{◌≡◌, option_map, IfOk};
ghost use Rattle.editor_model.specs.Prims.{arity};
ghost use Rattle.plain_machine.specs.State.{State, Program};
ghost use Rattle.plain_machine.specs.Natives.{takes};
ghost use Rattle.ek_call.specs.Primitives.{prim_of};
ghost use Rattle.handler_code.specs.Calls.{allowed as may, call_asked};
ghost use Rattle.handler_code.specs.Counts.{AreMade};

use crate::made::{Made, are_made};
use crate::native::NativeCall;
use crate::normal::{are_normal, normal_values};
use ek_call::Primitive;
use ek_types::Mem;

/// A native's call as it is made, with nil in the place of each empty list. There is none where the number of its
/// arguments is wrong, or where an argument is or contains a buffer, marker, overlay, process or symbol that was
/// never made. Such a call is refused as one of a wrong type, before anything else is tested. `made` has the counts
/// of the run as it stands. Where no empty list is in the arguments, the call itself is given back, with no copy.
pub fn allowed(made: &Made, asked: NativeCall) -> Mem<Option<NativeCall>>
    ensures { IfOk result (λ call. (program : Program) (s : State) → AreMade made.now program s →
        option_map call_asked call ≡ may program s (call_asked asked)) }
{
    if !may_take(asked.prim, asked.args.len()) {
        return Ok(None);
    }
    if !are_made(&asked.args, made) {
        return Ok(None);
    }
    if are_normal(&asked.args) {
        return Ok(Some(asked));
    }
    Ok(Some(NativeCall {
        prim: asked.prim,
        args: normal_values(&asked.args)?,
    }))
}

/// Whether a call takes so many arguments.
fn may_take(prim: Primitive, count: usize) -> bool
    ensures { result ≡ takes (prim_of prim) count }
{
    let (fewest, most) = prim.arity();
    fewest as usize <= count && count <= most as usize
}
