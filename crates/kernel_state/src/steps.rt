//! The kernel as the steps of a run see it.
use crate::kernel::KernelState;
use crate::scopes::shared;
use crate::{
    blocks, buffers, changes, equal, handlers, hearing, manner, questions, refusals, setting,
    starting, telling, told, words,
};
use editor_prims::{Change, Committed, Prepared, arg, nil};
use ek_call::{Fault, Primitive, Reply, Value, Values};
use ek_types::{ListOf, Mem, Sink, SinkFault, Sym, SymList, Symbols};
use handler_code::NativeCall;
use host_link::{Answer, Host};
use kernel_steps::{Block, Command, Entry, Heard, Kept, Kind, Manner, Program, Stop};
use process_table::Processes;
use std::alloc::Global;
use std::mem;
use wait_loop::Wait;

impl kernel_steps::Kernel for KernelState {
    ghost use Rattle.kernel_state.specs.Meaning.{state_of};
    ghost use Rattle.kernel_state.specs.Starting.{HasPlace};

    ghost state = { state_of };

    ghost has_place = { HasPlace };

    #[inline(always)]
    fn manner(prim: Primitive) -> Manner {
        manner::manner(prim)
    }

    fn are_equal(a: &Value, b: &Value) -> bool {
        equal::are_equal(a, b)
    }

    #[inline(always)]
    fn value(&self, name: Sym) -> Option<&Value> {
        match self.scopes.value(name) {
            Some(value) => Some(value),
            None => self.editor.register(name),
        }
    }

    fn take_room(&mut self) -> Values {
        let mut room = mem::replace(&mut self.room, ListOf::new(self.alloc));
        room.clear();
        room
    }

    #[inline(always)]
    fn give_room(&mut self, args: Values) {
        self.room = args;
    }

    fn assign(&mut self, name: Sym, value: Value) -> Mem<()> {
        let value = shared(self.alloc, value)?;
        if self.scopes.value(name).is_some() {
            self.scopes.set(name, value);
            Ok(())
        } else {
            self.editor.set_register(name, value)
        }
    }

    fn open(&mut self, block: Block) -> Mem<Kept> {
        blocks::open(self, block)
    }

    fn restore(&mut self, kept: Kept) {
        blocks::restore(self, kept);
    }

    #[inline(always)]
    fn query(&self, prim: Primitive, args: &Values) -> Mem<Reply> {
        editor_prims::query(&self.editor, prim, args)
    }

    #[inline(always)]
    fn apply(&mut self, prim: Primitive, args: &Values) -> Mem<Reply> {
        editor_prims::apply(&mut self.editor, prim, args)
    }

    #[inline(always)]
    fn prepare(&self, prim: Primitive, args: &Values) -> Mem<Prepared> {
        editor_prims::prepare(&self.editor, prim, args)
    }

    fn prepare_default(&mut self, kind: Kind, args: &Values) -> Mem<Prepared> {
        handlers::prepare_default(self, kind, args)
    }

    #[inline(always)]
    fn keep_ends(&mut self, change: &Change) -> Mem<()> {
        changes::keep_ends(self, change)
    }

    #[inline(always)]
    fn commit(&mut self, change: &Change) -> Mem<Committed> {
        changes::commit(self, change)
    }

    fn commit_quiet(&mut self, change: &Change) -> Mem<()> {
        editor_prims::commit(&mut self.editor, change)?;
        Ok(())
    }

    fn inhibited(&self) -> bool {
        self.hooks.inhibited()
    }

    fn inhibit(&mut self, on: bool) {
        self.hooks.inhibit(on);
    }

    fn hooks(&self, kind: Kind) -> Mem<SymList> {
        handlers::hooks(self, kind)
    }

    fn ends(alloc: Global, change: &Change) -> Mem<Values> {
        changes::ends(alloc, change)
    }

    fn ends_behind(alloc: Global, from: usize, to: usize, old: usize) -> Mem<Values> {
        changes::ends_behind(alloc, from, to, old)
    }

    fn allocator(&self) -> Global {
        self.alloc
    }

    fn current(&self) -> u32 {
        self.editor.current()
    }

    fn enter(&mut self, params: &[Sym], args: &Values) -> Mem<()> {
        handlers::enter(self, params, args)
    }

    fn leave(&mut self, current: u32) {
        handlers::leave(self, current);
    }

    fn end_handler(&mut self, kind: Kind, faulted: bool) {
        handlers::end_handler(self, kind, faulted);
    }

    fn allowed<P: Program>(&self, program: &P, asked: NativeCall) -> Mem<Option<NativeCall>> {
        handlers::allow(self, program, asked)
    }

    fn tell_entry<K: Sink>(
        &self,
        symbols: &Symbols,
        kind: Kind,
        handler: Option<Sym>,
        args: &Values,
        sink: &mut K,
    ) -> Result<(), SinkFault> {
        telling::tell_entry(self, symbols, kind, handler, args, sink)
    }

    fn tell_exit<K: Sink>(
        &self,
        symbols: &Symbols,
        handler: Option<Sym>,
        sink: &mut K,
    ) -> Result<(), SinkFault> {
        telling::tell_exit(self, symbols, handler, sink)
    }

    #[inline(always)]
    fn tell_reply<K: Sink>(
        &self,
        symbols: &Symbols,
        reply: &Reply,
        sink: &mut K,
    ) -> Result<(), SinkFault> {
        telling::tell_reply(self, symbols, reply, sink)
    }

    fn tell_kill<K: Sink>(&self, symbols: &Symbols, p: u32, sink: &mut K) -> Result<(), SinkFault> {
        telling::tell_kill(self, symbols, p, sink)
    }

    fn tell_dump<K: Sink>(&self, symbols: &Symbols, sink: &mut K) -> Result<(), SinkFault> {
        telling::tell_dump(self, symbols, sink)
    }

    fn refusal<P: Program>(&self, program: &P, prim: Primitive, args: &Values) -> Option<Fault> {
        refusals::refusal(self, program, prim, args)
    }

    fn processes(&self) -> &Processes {
        &self.processes
    }

    fn may_ask(&self) -> bool {
        refusals::may_ask(self)
    }

    fn new_wait(&self, args: &Values) -> Mem<Wait> {
        questions::new_wait(self, args)
    }

    fn hear<P: Program, H: Host>(
        &mut self,
        program: &P,
        host: &mut H,
        p: u32,
    ) -> Result<Heard, Stop> {
        hearing::hear(self, program, host, p)
    }

    fn kill<P: Program, H: Host>(
        &mut self,
        program: &P,
        host: &mut H,
        p: u32,
    ) -> Result<Option<Entry>, Stop> {
        hearing::kill(self, program, host, p)
    }

    fn process_given(&self, args: &Values) -> u32 {
        let nil = nil();
        questions::process(self, arg(args, 0, &nil))
    }

    fn buffer_given(&self, args: &Values) -> u32 {
        let nil = nil();
        questions::buffer(&self.editor, arg(args, 0, &nil))
    }

    fn running_in(&self, buffer: u32) -> Mem<Vec<u32>> {
        buffers::running_in(self, buffer)
    }

    fn kill_live(&mut self, buffer: u32) -> Mem<Reply> {
        buffers::kill_live(self, buffer)
    }

    fn call_silently<P: Program>(
        &mut self,
        program: &P,
        prim: Primitive,
        args: &Values,
    ) -> Mem<Value> {
        setting::call_silently(self, program, prim, args)
    }

    fn bytes_given(&self, args: &Values) -> Mem<Vec<u8>> {
        words::bytes_given(self, args)
    }

    fn count_asked(&mut self) {
        starting::count_asked(self);
    }

    fn count_sent(&mut self, bytes: usize) {
        starting::count_sent(self, bytes);
    }

    fn note_closed(&mut self, p: u32) {
        starting::note_closed(self, p);
    }

    fn command<P: Program>(&self, program: &P, args: &Values) -> Mem<Command> {
        words::command(self, program, args)
    }

    fn reserve_process<P: Program>(&mut self, program: &P, args: &Values) -> Mem<()> {
        starting::reserve_process(self, program, args)
    }

    fn start<P: Program>(&mut self, program: &P, args: &Values, child: u32) -> u32 {
        starting::start(self, program, args, child)
    }
}

impl kernel_steps::Stepped for KernelState {
    fn forget_kept(&mut self) {
        changes::drop_kept(self);
    }

    fn take_answer(&mut self, p: u32, answer: &Answer) -> Mem<Heard> {
        told::take_answer(self, p, answer)
    }

    fn take_kill(&mut self, p: u32) -> Mem<Entry> {
        told::take_kill(self, p)
    }
}
