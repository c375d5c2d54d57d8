//! One handler of the program's own.
use ek_call::{Replies, Values};
use ek_types::Mem;
use handler_code::Next;

/// A handler of the program's own, seen as its name and a function of its arguments and of the replies to its calls
/// so far.
pub trait Handler: Drop {
    ghost use Rattle.std.specs.Prelude.{◌≡◌, ℕ, List, Option, map, IfOk};
    ghost use Rattle.editor_model.specs.Values.{Value, Reply, Prim};
    ghost use Rattle.ek_types.specs.Listing.{items_of};
    ghost use Rattle.ek_call.specs.Meaning.{view, reply_of};
    ghost use Rattle.handler_code.specs.Calls.{asked_of};

    ghost called: { Self → List ℕ };

    /// The call that comes next, if one does.
    ghost does: { Self → List Value → List Reply → Option (Prim × List Value) };

    /// The name that a script writes in a handler's place.
    fn name(&self) -> &str
        ensures { result.now ≡ called self.now };

    /// What the handler does next.
    fn next(&self, args: &Values, past: &Replies) -> Mem<Next>
        ensures { IfOk result (λ next. asked_of next ≡
            does self.now (map view (items_of args.now)) (map reply_of (items_of past.now))) };
}
