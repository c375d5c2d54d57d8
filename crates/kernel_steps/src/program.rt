//! What is fixed for a run.
ghost use Rattle.std.specs.Prelude.{◌≡◌, Option, map, IfOk, option_map};
ghost use Rattle.plain_machine.specs.Arguments.{handler_def, is_handler};
ghost use Rattle.plain_machine.specs.State.{Program as Plain};
ghost use Rattle.ek_types.specs.Listing.{items_of};
ghost use Rattle.ek_types.specs.Property.{number_of};
ghost use Rattle.ek_call.specs.Meaning.{form_of, joined, reply_of, view};
ghost use Rattle.handler_code.specs.Calls.{asked_of};
ghost use Rattle.kernel_steps.specs.Handlers.{params_of, native_of};

use ek_call::{Forms, Replies, Values};
use ek_types::{Mem, Sym, Symbols};
use handler_code::Next;

/// What is fixed for a run: the names of its symbols, the handlers of its script, and its natives.
pub trait Program {
    ghost meant: { Self → Plain };

    /// All names of the run by their numbers, for the lines that are written.
    fn symbols(&self) -> &Symbols
        ensures { result.now ≡ (meant self.now).symbols };

    /// The body of the script's handler of a name, if there is one.
    fn body(&self, name: Sym) -> Option<&Forms>
        ensures { option_map (λ fs. joined (map form_of (items_of fs.now))) result ≡
            option_map (λ d. d.body) (handler_def (meant self.now).handlers name.0) };

    /// The parameters of a handler: those of the script's of its name, else none.
    fn params(&self, handler: Option<Sym>) -> &[Sym]
        ensures { map number_of result.now ≡ params_of (meant self.now)
            (option_map number_of handler) };

    /// Whether a name is that of a handler of the script or of a native.
    fn is_handler(&self, name: Sym) -> bool
        ensures { result ≡ is_handler (meant self.now) name.0 };

    /// The number of the native of a name.
    fn native(&self, name: Sym) -> u32
        ensures { result ≡ native_of (meant self.now) name.0 };

    /// What a native does next, by its arguments and the replies to its calls so far.
    fn next(&self, native: u32, args: &Values, past: &Replies) -> Mem<Next>
        ensures { IfOk result (λ next. asked_of next ≡
            (meant self.now).does native (map view (items_of args.now)) (map reply_of (items_of past.now))) };
}
