//! Natives that make some calls in turn, whatever the replies are.
ghost use Rattle.std.specs.Prelude.{◌≡◌, ◌≤◌, length, map, slice_get, string_bytes, vec_len, IfOk};
ghost use Rattle.std.specs.Option.{option_map};
ghost use Rattle.ek_types.specs.Listing.{items_of};
ghost use Rattle.ek_call.specs.Meaning.{reply_of};
ghost use Rattle.handler_code.specs.Calls.{asked_of, call_asked};

use ek_call::{Replies, Values};
use ek_types::{Copied, Mem};
use handler_code::{NativeCall, Natives, Next};
use std::alloc::Global;
use std::process::Abort;

/// A native: its name, and the calls that it makes.
#[derive(Drop)]
pub struct Native {
    pub name: String,
    pub calls: Vec<NativeCall>,
}

/// Natives, at most 65,536, that make their calls in turn.
#[derive(Drop)]
pub struct InTurn {
    list: Vec<Native>,
    ghost few: { vec_len list ≤ 65536 },
}

impl InTurn {
    pub fn new(list: Vec<Native>) -> InTurn
        requires { vec_len list ≤ 65536 }
    {
        InTurn { list }
    }

    /// No natives.
    pub fn none(alloc: Global) -> InTurn {
        InTurn {
            list: Vec::new(alloc),
        }
    }
}

/// The same call.
fn copied(call: &NativeCall) -> Mem<NativeCall>
    ensures { IfOk result (λ c. call_asked c ≡ call_asked call.now) }
{
    let prim = call.prim;
    Ok(NativeCall {
        prim,
        args: call.args.copy()?,
    })
}

impl Native {
    /// Makes one more call.
    pub fn then(&mut self, rt: &impl Abort, call: NativeCall) {
        self.calls.push(call).expect(rt, "memory");
    }

    fn name(&self) -> &str
        ensures { result.now ≡ string_bytes self.now.name }
    {
        self.name.as_str()
    }

    /// The call at a place, counted from 0, if there is one.
    fn call_at(&self, i: usize) -> Mem<Next>
        ensures { IfOk result (λ next. asked_of next ≡
            option_map call_asked (slice_get self.now.calls.items i)) }
    {
        match self.calls.get(i) {
            Some(call) => Ok(Next::Call(copied(call)?)),
            None => Ok(Next::Done),
        }
    }

    /// The call behind these replies, if there is one.
    fn behind(&self, past: &Replies) -> Mem<Next>
        ensures { IfOk result (λ next. asked_of next ≡
            option_map call_asked (slice_get self.now.calls.items (length (map reply_of (items_of past.now))))) }
    {
        self.call_at(past.len())
    }
}

impl Natives for InTurn {
    ghost use Rattle.std.specs.Prelude.{length, map, slice_get, string_bytes};
    ghost use Rattle.std.specs.Option.{option_and_then, option_map};
    ghost use Rattle.handler_code.specs.Calls.{call_asked};

    ghost names = { λ b. map (λ n. string_bytes n.name) b.list.items };

    ghost does = { λ b i args past. option_and_then
        (λ n. option_map call_asked (slice_get n.calls.items (length past))) (slice_get b.list.items i) };

    fn count(&self) -> u32 {
        self.list.len() as u32
    }

    fn name(&self, i: u32) -> &str {
        match self.list.get(i as usize) {
            Some(native) => native.name(),
            None => "",
        }
    }

    fn next(&self, i: u32, _args: &Values, past: &Replies) -> Mem<Next> {
        let native = self.list.get(i as usize);
        match native {
            Some(native) => native.behind(past),
            None => Ok(Next::Done),
        }
    }
}
