//! The values of arguments.
ghost use Rattle.std.specs.Prelude.{◌≡◌, map, IfOk, option_map};
ghost use Rattle.plain_machine.specs.Forms.{evaluate};
ghost use Rattle.ek_types.specs.Listing.{items_of};
ghost use Rattle.ek_call.specs.Meaning.{arg_of, view};
ghost use Rattle.kernel_steps.specs.Arguments.{value_of_arg, test_of};

use ek_call::{Arg, Args, Value, Values};
use ek_types::{Copied, ListOf, Mem};
use kernel_steps::Kernel;

/// The value of an argument, if it has one.
fn value<'a, M: Kernel>(kernel: &'a M, arg: &'a Arg) -> Option<&'a Value>
    ensures { option_map (λ v. view v.now) result ≡ value_of_arg (M.state kernel.now) (arg_of arg.now) }
{
    match arg {
        Arg::Const(value) => Some(value),
        Arg::Name(name) => kernel.value(*name),
    }
}

/// The values of all arguments, if each has one.
pub(crate) fn values<M: Kernel>(kernel: &M, args: &Args) -> Mem<Option<Values>>
    ensures { IfOk result (λ found. option_map (λ vs. map view (items_of vs)) found ≡
        evaluate (M.state kernel.now) (map arg_of (items_of args.now))) }
{
    let mut values = ListOf::with_room(kernel.allocator(), args.len())?;
    for i in 0..args.len() {
        let Some(value) = value(kernel, args.at(i)) else {
            return Ok(None);
        };
        values.push(value.copy()?)?;
    }
    Ok(Some(values))
}

/// Whether two arguments are equal, if both have values.
pub(crate) fn are_equal<M: Kernel>(kernel: &M, a: &Arg, b: &Arg) -> Option<bool>
    ensures { result ≡ test_of (M.state kernel.now) (arg_of a.now) (arg_of b.now) }
{
    let x = value(kernel, a)?;
    let y = value(kernel, b)?;
    Some(M::are_equal(x, y))
}
