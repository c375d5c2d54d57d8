//! The values of arguments.
ghost use Rattle.std.specs.Prelude.{◌≡◌, [], map, IfOk, option_map};
ghost use Rattle.plain_machine.specs.Forms.{evaluate};
ghost use Rattle.ek_types.specs.Listing.{items_of};
ghost use Rattle.ek_call.specs.Meaning.{arg_of, view};
ghost use Rattle.kernel_steps.specs.Arguments.{value_of_arg, test_of};

use crate::kernel::Kernel;
use ek_call::{Arg, Args, Value, Values};
use ek_types::{Copied, Mem};

/// The value of an argument, if it has one: a name may stand for nothing.
fn value<'a, M: Kernel>(kernel: &'a M, arg: &'a Arg) -> Option<&'a Value>
    ensures { option_map (λ v. view v.now) result ≡ value_of_arg (M.state kernel.now) (arg_of arg.now) }
{
    match arg {
        Arg::Const(value) => Some(value),
        Arg::Name(name) => kernel.value(*name),
    }
}

/// The values of all arguments in an empty list, if each has one.
fn fill<M: Kernel>(kernel: &M, args: &Args, room: Values) -> Mem<Option<Values>>
    requires { items_of room ≡ [] }
    ensures { IfOk result (λ found. option_map (λ vs. map view (items_of vs)) found ≡
        evaluate (M.state kernel.now) (map arg_of (items_of args.now))) }
{
    let mut values = room;
    values.reserve(args.len())?;
    for i in 0..args.len() {
        let Some(value) = value(kernel, args.at(i)) else {
            return Ok(None);
        };
        values.push(value.copy()?)?;
    }
    Ok(Some(values))
}

/// The values of all arguments, if each has one.
#[inline(always)]
pub(crate) fn values<M: Kernel>(kernel: &mut M, args: &Args) -> Mem<Option<Values>>
    ensures values { IfOk result (λ found. option_map (λ vs. map view (items_of vs)) found ≡
        evaluate (M.state kernel.old) (map arg_of (items_of args.now))) }
    ensures state { M.state kernel.new ≡ M.state kernel.old }
{
    let room = kernel.take_room();
    fill(kernel, args, room)
}

/// Whether two arguments are equal, if both have values.
pub(crate) fn are_equal<M: Kernel>(kernel: &M, a: &Arg, b: &Arg) -> Option<bool>
    ensures { result ≡ test_of (M.state kernel.now) (arg_of a.now) (arg_of b.now) }
{
    let x = value(kernel, a)?;
    let y = value(kernel, b)?;
    Some(M::are_equal(x, y))
}
