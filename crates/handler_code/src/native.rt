//! Natives: handlers that aren't written in the script but in the program.
use ek_call::{Primitive, Replies, Values};
use ek_types::Mem;

/// A call that a native makes.
#[derive(Drop)]
pub struct NativeCall {
    pub prim: Primitive,
    pub args: Values,
}

/// What a native does next.
#[derive(Drop)]
pub enum Next {
    /// It makes a call, and is asked again with the reply.
    Call(NativeCall),
    /// It is done.
    Done,
}

/// A list of natives, each seen as its name and a function of its arguments and of the replies to its calls so far.
pub trait Natives {
    ghost use Rattle.std.specs.Prelude.{◌≡◌, ◌≤◌, ℕ, List, [], Option, map, length, slice_get};
    ghost use Rattle.std.specs.Prelude.{unwrap_or, IfOk};
    ghost use Rattle.editor_model.specs.Values.{Value, Reply, Prim};
    ghost use Rattle.ek_types.specs.Listing.{items_of};
    ghost use Rattle.ek_call.specs.Meaning.{view, reply_of};
    ghost use Rattle.handler_code.specs.Calls.{asked_of};

    ghost names: { Self → List (List ℕ) };

    /// The call that comes next, if one does.
    ghost does: { Self → ℕ → List Value → List Reply → Option (Prim × List Value) };

    /// How many there are.
    fn count(&self) -> u32
        ensures count { result ≡ length (names self.now) }
        ensures few { length (names self.now) ≤ 65536 };

    /// The name of native `i`, counted from 0, and the empty one where there is none of this number.
    fn name(&self, i: u32) -> &str
        ensures { result.now ≡ unwrap_or (slice_get (names self.now) i) [] };

    /// What native `i`, counted from 0, does next.
    fn next(&self, i: u32, args: &Values, past: &Replies) -> Mem<Next>
        ensures { IfOk result (λ next. asked_of next ≡
            does self.now i (map view (items_of args.now)) (map reply_of (items_of past.now))) };
}
