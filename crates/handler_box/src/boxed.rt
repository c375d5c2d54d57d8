//! A list of boxed handlers as natives.
ghost use Rattle.std.specs.Prelude.{◌≡◌, ◌≤◌, map, vec_len, slice_get, IfOk};
ghost use Rattle.ek_types.specs.Listing.{items_of};
ghost use Rattle.ek_call.specs.Meaning.{view, reply_of};
ghost use Rattle.handler_code.specs.Calls.{asked_of};
ghost use Rattle.handler_box.specs.Boxes.{done_by};

use crate::handler::Handler;
use ek_call::{Replies, Values};
use ek_types::Mem;
use handler_code::{Natives, Next};

/// Handlers of the program's own, of which there are at most 65,536, as natives in the same order.
#[derive(Drop)]
pub struct Boxed {
    list: Vec<Box<dyn Handler>>,
    ghost few: { vec_len list ≤ 65536 },
}

impl Boxed {
    /// The natives that these boxes hold, at most 65,536.
    pub fn new(list: Vec<Box<dyn Handler>>) -> Boxed
        requires { vec_len list ≤ 65536 }
        ensures { result.list ≡ list }
    {
        Boxed { list }
    }
}

/// The name of a handler in its box.
fn name_of(handler: &Box<dyn Handler>) -> &str
    ensures { result.now ≡ called handler.now }
{
    handler.name()
}

/// What a handler in its box does next.
fn next_of(handler: &Box<dyn Handler>, args: &Values, past: &Replies) -> Mem<Next>
    ensures { IfOk result (λ next. asked_of next ≡
        does handler.now (map view (items_of args.now)) (map reply_of (items_of past.now))) }
{
    handler.next(args, past)
}

impl Natives for Boxed {
    ghost names = { λ b. map (λ h. (Handler-box h).called h.value) b.list.items };

    ghost does = { λ b i args past. done_by (λ h. (Handler-box h).does h.value args past) (slice_get b.list.items i) };

    fn count(&self) -> u32 {
        self.list.len() as u32
    }

    fn name(&self, i: u32) -> &str {
        match self.list.get(i as usize) {
            Some(handler) => name_of(handler),
            None => "",
        }
    }

    fn next(&self, i: u32, args: &Values, past: &Replies) -> Mem<Next> {
        let asked = self.list.get(i as usize);
        match asked {
            Some(handler) => next_of(handler, args, past),
            None => Ok(Next::Done),
        }
    }
}
