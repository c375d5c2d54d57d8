//! What a run keeps.
ghost use Rattle.std.specs.Prelude.{◌≡◌, ◌+◌, ◌-◌, ◌<◌, ◌≤◌, [], IsSome, true, length, map};
ghost use Rattle.std.specs.Prelude.{string_bytes, IfOk, OnOk, OnErr, option_map};
ghost use Rattle.editor_model.specs.Values.{equal};
ghost use Rattle.editor_model.specs.Prims.{manner_of};
ghost use Rattle.editor_model.specs.Table.{query as query_of, apply as apply_of};
ghost use Rattle.editor_model.specs.Table.{prepare as prepare_of, commit as commit_of};
ghost use Rattle.plain_machine.specs.State.{State};
ghost use Rattle.plain_machine.specs.Forms.{value_of, assigned, kept_of, opened, restored};
ghost use Rattle.plain_machine.specs.Handling.{bound_params, in_scope, left_state};
ghost use Rattle.plain_machine.specs.Lines.{Replied, Entered, Left, KilledLast, Dumped, line};
ghost use Rattle.ek_types.specs.Io.{Writes};
ghost use Rattle.ek_types.specs.Listing.{items_of};
ghost use Rattle.ek_call.specs.Meaning.{view, reply_of};
ghost use Rattle.ek_call.specs.Primitives.{prim_of};
ghost use Rattle.kernel_steps.specs.Work.{Stays, lifted};
ghost use Rattle.kernel_steps.specs.Worlds.{Between, IsReady};
ghost use Rattle.kernel_steps.specs.Waits.{Hears, IsAsked, IsHeardIf, Kills, Passes, killed_by};
ghost use Rattle.kernel_steps.specs.Waits.{refusal_of, waiting_of};
ghost use Rattle.editor_model.specs.Arguments.{arg, buffer_of};
ghost use Rattle.plain_machine.specs.Arguments.{is_running, process_of, running_in};
ghost use Rattle.ek_call.specs.Faults.{fault_of};
ghost use Rattle.plain_machine.specs.Items.{Waiting};
ghost use Rattle.plain_machine.specs.Refusals.{may_ask, most_sent};
ghost use Rattle.plain_machine.specs.State.{change_process};
ghost use Rattle.plain_machine.specs.Calls.{started, with_input_closed};
ghost use Rattle.plain_machine.specs.Waits.{asked_more};
ghost use Rattle.kernel_steps.specs.Processes.{IsSilent, bytes_of, counted, set_by};
ghost use Rattle.kernel_steps.specs.Processes.{told_by, words_of};
ghost use Rattle.editor_model.specs.Values.{StartProcess};
ghost use Rattle.ek_types.specs.Io.{SinkState};
ghost use Rattle.ek_types.specs.Property.{number_of};
ghost use Rattle.prim_changes.specs.Meaning.{change_of, committed_of, prepared_of};
ghost use Rattle.kernel_steps.specs.Changes.{begun, behind_commit, done_at, ends_behind, ends_of};
ghost use Rattle.handler_code.specs.Calls.{allowed, call_asked};
ghost use Rattle.kernel_steps.specs.Handlers.{default_prepared, default_state, ended_state};
ghost use Rattle.kernel_steps.specs.Handlers.{hook_names, kind_of};
ghost use Rattle.kernel_steps.specs.Blocks.{block_of, kept_as, manner_as};

use crate::program::Program;
use crate::stop::Stop;
use ek_call::{Fault, Primitive, Reply, Value, Values};
use ek_types::{Mem, Sink, SinkFault, Sym, SymList, Symbols};
use handler_code::NativeCall;
use host_link::Host;
use prim_changes::{Change, Committed, Prepared};
use process_table::Processes;
use std::alloc::Global;
use wait_loop::Wait;

/// A block that saves and restores.
#[derive(Clone, Copy, Debug, PartialEq, Eq)]
pub enum Block {
    Excursion,
    Restriction,
    CurrentBuffer,
    NoHooks,
    ReadOnlyOff,
}

/// What a block that is left has to restore. Kept places stand in the editor.
#[derive(Clone, Copy, Debug, PartialEq, Eq)]
pub enum Kept {
    Excursion,
    Restriction,
    /// The number of the buffer that was current before.
    Buffer(u32),
    /// Whether hooks were inhibited before.
    Hooks(bool),
    /// Whether what is read-only was lifted before.
    Lifting(bool),
}

/// How a call goes.
#[derive(Clone, Copy, Debug, PartialEq, Eq)]
pub enum Manner {
    OnlyAsks,
    SetsState,
    ChangesText,
    ConcernsHandlers,
}

/// What a handler is entered for: the output or the end of a process, or what comes before or
/// behind a change of a buffer.
#[derive(Clone, Copy, Debug, PartialEq, Eq)]
pub enum Kind {
    /// The filter of the process of this number.
    Filter(u32),
    /// The sentinel of the process of this number.
    Sentinel(u32),
    /// A function of the hook before a change of the buffer of this number.
    Before(u32),
    /// A function of the hook behind a change of the buffer of this number.
    After(u32),
}

/// A filter or sentinel that is to be entered, with its arguments.
#[derive(Drop)]
pub struct Entry {
    pub kind: Kind,
    pub handler: Option<Sym>,
    pub args: Values,
}

/// What asking a process came to: whether it gave bytes, and what is to be entered.
#[derive(Drop)]
pub struct Heard {
    pub bytes: bool,
    pub entry: Option<Entry>,
}

/// A program that is to be started, with its arguments.
#[derive(Drop)]
pub struct Command {
    pub program: String,
    pub words: Vec<String>,
}

/// What a run keeps: the editor, hooks, processes, parameters of running handlers, and counts.
///
/// The recursion is proved over this trait, apart from all data structures below it. Each method is
/// an equation on the machine's `State`. Where one takes memory it says what is left unchanged when
/// that is wanting.
pub trait Kernel {
    ghost use Rattle.std.specs.Prelude.{List};
    ghost use Rattle.editor_model.specs.Values.{Value as Meant};

    /// The machine's state, with what the decoders hold in the place of all bytes read.
    ghost state: { Self → State };

    /// All the memory is taken that a start with these arguments needs.
    ghost has_place: { Self → List Meant → Type 0 };

    /// How a call goes.
    fn manner(prim: Primitive) -> Manner
        ensures { manner_as result ≡ manner_of (prim_of prim) };

    /// Whether two values are equal.
    fn are_equal(a: &Value, b: &Value) -> bool
        ensures { result ≡ equal (view a.now) (view b.now) };

    /// The value of a parameter or register.
    fn value(&self, name: Sym) -> Option<&Value>
        ensures { option_map (λ v. view v.now) result ≡ value_of (state self.now) name.0 };

    /// An empty list for the arguments of a call, in the room of one that was given back where there is one.
    fn take_room(&mut self) -> Values
        ensures empty { items_of result ≡ [] }
        ensures state { state self.new ≡ state self.old };

    /// Takes the arguments of a call back, so that the next one finds their room.
    fn give_room(&mut self, args: Values)
        ensures { state self.new ≡ state self.old };

    /// Gives a parameter or register a value. A refusal leaves all as it was.
    fn assign(&mut self, name: Sym, value: Value) -> Mem<()>
        ensures ok { OnOk result (state self.new ≡ assigned name.0 (view value) (state self.old)) }
        ensures err { OnErr result (state self.new ≡ state self.old) };

    /// Begins a block, and says what is to be restored behind it. A refusal leaves all as it was.
    fn open(&mut self, block: Block) -> Mem<Kept>
        ensures kept { IfOk result (λ kept. kept_as kept ≡ kept_of (block_of block) (state self.old)) }
        ensures ok { OnOk result (state self.new ≡ opened (block_of block) (state self.old)) }
        ensures err { OnErr result (state self.new ≡ state self.old) };

    /// Restores what a block kept.
    fn restore(&mut self, kept: Kept)
        ensures { state self.new ≡ restored (kept_as kept) (state self.old) };

    /// What a call answers that only asks.
    fn query(&self, prim: Primitive, args: &Values) -> Mem<Reply>
        ensures { IfOk result (λ r. reply_of r ≡
            query_of (state self.now).editor (prim_of prim) (map view (items_of args.now))) };

    /// Does a call that sets state and is heard by no hook. A refusal leaves all as it was.
    fn apply(&mut self, prim: Primitive, args: &Values) -> Mem<Reply>
        ensures ok { OnOk result (state self.new ≡
            record (state self.old) {
              editor = (apply_of (state self.old).editor (prim_of prim)
                  (map view (items_of args.now))).editor;
            }) }
        ensures reply { IfOk result (λ r. reply_of r ≡
            (apply_of (state self.old).editor (prim_of prim) (map view (items_of args.now))).reply) }
        ensures err { OnErr result (state self.new ≡ state self.old) };

    /// Prepares a call that changes a text.
    fn prepare(&self, prim: Primitive, args: &Values) -> Mem<Prepared>
        ensures { IfOk result (λ p. prepared_of p ≡
            prepare_of (state self.now).editor (prim_of prim) (map view (items_of args.now))) };

    /// Prepares the insertion of a default handler, whose buffer becomes current. A refusal leaves
    /// all as it was.
    fn prepare_default(&mut self, kind: Kind, args: &Values) -> Mem<Prepared>
        ensures prepared { IfOk result (λ p. prepared_of p ≡
            default_prepared (kind_of kind) (map view (items_of args.now)) (state self.old)) }
        ensures ok { OnOk result (state self.new ≡ default_state (kind_of kind) (state self.old)) }
        ensures err { OnErr result (state self.new ≡ state self.old) };

    /// Keeps the ends of a change, which move with the text. A refusal leaves all as it was.
    fn keep_ends(&mut self, change: &Change) -> Mem<()>
        ensures ok { OnOk result (state self.new ≡ begun (change_of change.now) (state self.old)) }
        ensures err { OnErr result (state self.new ≡ state self.old) };

    /// Makes a change at its kept ends, which are kept no longer. A refusal leaves all as it was.
    fn commit(&mut self, change: &Change) -> Mem<Committed>
        ensures done { IfOk result (λ d. committed_of d ≡
            (done_at (change_of change.now) (state self.old)).committed) }
        ensures ok { IfOk result (λ d. state self.new ≡
            behind_commit (change_of change.now) (committed_of d) (state self.old)) }
        ensures err { OnErr result (state self.new ≡ state self.old) };

    /// Makes a change at its own ends, as no hook hears of it. A refusal leaves all as it was.
    fn commit_quiet(&mut self, change: &Change) -> Mem<()>
        ensures ok { OnOk result (state self.new ≡
            record (state self.old) {
              editor = (commit_of (state self.old).editor
                  (change_of change.now)).editor;
            }) }
        ensures err { OnErr result (state self.new ≡ state self.old) };

    /// Whether hooks are inhibited.
    fn inhibited(&self) -> bool
        ensures { result ≡ (state self.now).inhibited };

    /// Sets whether hooks are inhibited.
    fn inhibit(&mut self, on: bool)
        ensures { state self.new ≡ record (state self.old) { inhibited = on } };

    /// The hook functions of a kind.
    fn hooks(&self, kind: Kind) -> Mem<SymList>
        ensures { IfOk result (λ names. map number_of (items_of names) ≡
            hook_names (kind_of kind) (state self.now)) };

    /// The ends of a change, as its hook functions get them.
    fn ends(alloc: Global, change: &Change) -> Mem<Values>
        ensures { IfOk result (λ args. map view (items_of args) ≡
            ends_of change.now.from change.now.to) };

    /// The ends behind a change, and the length before it.
    fn ends_behind(alloc: Global, from: usize, to: usize, old: usize) -> Mem<Values>
        ensures { IfOk result (λ args. map view (items_of args) ≡ ends_behind from to old) };

    /// Where memory is taken from.
    fn allocator(&self) -> Global;

    /// The current buffer.
    fn current(&self) -> u32
        ensures { result ≡ (state self.now).editor.current };

    /// A handler is entered: its parameters are bound. A refusal leaves all as it was.
    fn enter(&mut self, params: &[Sym], args: &Values) -> Mem<()>
        ensures ok { OnOk result (state self.new ≡
            in_scope (bound_params (map number_of params.now) (map view (items_of args.now))) (record
            (state self.old) { depth = (state self.old).depth + 1 })) }
        ensures err { OnErr result (state self.new ≡ state self.old) };

    /// A handler is left, and the buffer that was current before it is put back, if it lives.
    fn leave(&mut self, current: u32)
        ensures { state self.new ≡ left_state (state self.old) current };

    /// What the end of a handler does besides: a process leaves the list behind its sentinel, and a
    /// hook function that ended by a fault empties the list that it stands on, if its buffer lives.
    fn end_handler(&mut self, kind: Kind, faulted: bool)
        ensures { state self.new ≡ ended_state (kind_of kind) faulted (state self.old) };

    /// A native's call, if a script might make it, with each empty list as nil.
    fn allowed<P: Program>(&self, program: &P, asked: NativeCall) -> Mem<Option<NativeCall>>
        ensures { IfOk result (λ made. option_map call_asked made ≡
            allowed (P.meant program.now) (state self.now) (call_asked asked)) };

    /// Writes the line of a handler's entry.
    fn tell_entry<K: Sink>(
        &self,
        symbols: &Symbols,
        kind: Kind,
        handler: Option<Sym>,
        args: &Values,
        sink: &mut K,
    ) -> Result<(), SinkFault>
        ensures { Writes (K.state sink.old) (K.state sink.new) result (line symbols.now (state self.now)
            (Entered (state self.now).depth (kind_of kind) (option_map number_of handler)
            (map view (items_of args.now)))) };

    /// Writes the line of a handler's end.
    fn tell_exit<K: Sink>(
        &self,
        symbols: &Symbols,
        handler: Option<Sym>,
        sink: &mut K,
    ) -> Result<(), SinkFault>
        ensures { Writes (K.state sink.old) (K.state sink.new) result (line symbols.now (state self.now)
            (Left ((state self.now).depth - 1) (option_map number_of handler))) };

    /// Writes the line of a reply.
    fn tell_reply<K: Sink>(
        &self,
        symbols: &Symbols,
        reply: &Reply,
        sink: &mut K,
    ) -> Result<(), SinkFault>
        ensures { Writes (K.state sink.old) (K.state sink.new) result (line symbols.now (state self.now)
            (Replied (state self.now).depth (reply_of reply.now))) };

    /// Writes the line of the kill of a process at the end of a run.
    fn tell_kill<K: Sink>(&self, symbols: &Symbols, p: u32, sink: &mut K) -> Result<(), SinkFault>
        ensures { Writes (K.state sink.old) (K.state sink.new) result (line symbols.now (state self.now)
            (KilledLast p)) };

    /// Writes the dump.
    fn tell_dump<K: Sink>(&self, symbols: &Symbols, sink: &mut K) -> Result<(), SinkFault>
        ensures { Writes (K.state sink.old) (K.state sink.new) result (line symbols.now
            (state self.now) Dumped) };

    /// Why a call on hooks or processes, or a `kill-buffer`, is refused, if it is.
    fn refusal<P: Program>(&self, program: &P, prim: Primitive, args: &Values) -> Option<Fault>
        ensures { option_map fault_of result ≡
            refusal_of (P.meant program.now) (state self.now) (prim_of prim) (map view (items_of args.now)) };

    /// All processes by number, with the bytes that their decoders hold.
    fn processes(&self) -> &Processes
        ensures { result.now ≡ (state self.now).processes };

    /// Whether an exchange may be made.
    fn may_ask(&self) -> bool
        ensures { result ≡ may_ask (state self.now) };

    /// The wait that a call asks for.
    fn new_wait(&self, args: &Values) -> Mem<Wait>
        ensures waiting { IfOk result (λ w. w.waiting ≡
            waiting_of (state self.now) (map view (items_of args.now))) }
        ensures room { IfOk result (λ w. w.room ≡ 256) };

    /// Asks a process for its output, or for its end once that has ended. All memory is taken
    /// before it is asked: want of it leaves all as it was, the host too.
    fn hear<P: Program, H: Host>(
        &mut self,
        program: &P,
        host: &mut H,
        p: u32,
    ) -> Result<Heard, Stop>
        requires ready { IsReady (state self.old) (H.state host.old).kills }
        requires asked { IsAsked (state self.old) p }
        ensures hears { (sink : SinkState) (v : Waiting) →
            Between state H.state H.made self.old self.new host.old host.new sink sink (Hears
            (lifted result) (P.meant program.now) p v) }
        ensures stays { (sink : SinkState) →
            Between state H.state H.made self.old self.new host.old host.new sink sink (Stays (lifted result)) }
        ensures heard { IfOk result (λ heard. IsHeardIf heard.entry) }
        ensures asked { OnOk result ((state self.old).asked < (state self.new).asked) }
        ensures err { OnErr result (state self.new ≡ state self.old) }
        ensures host { OnErr result (host.new ≡ host.old) };

    /// Kills a process that runs, and says what is to be entered then. All memory is taken before
    /// it is killed: want of it leaves all as it was, the host too. Where the process doesn't run,
    /// nothing is asked, and `None` is answered.
    fn kill<P: Program, H: Host>(
        &mut self,
        program: &P,
        host: &mut H,
        p: u32,
    ) -> Result<Option<Entry>, Stop>
        requires { IsReady (state self.old) (H.state host.old).kills }
        ensures kills { (sink : SinkState) →
            Between state H.state H.made self.old self.new host.old host.new sink sink (Kills
            (lifted result) (P.meant program.now) p) }
        ensures heard { IfOk result IsHeardIf }
        ensures running { IfOk result (λ entry. IsSome entry → is_running (state self.old) p ≡ true) }
        ensures err { OnErr result (state self.new ≡ state self.old) }
        ensures host { OnErr result (host.new ≡ host.old) };

    /// The process that the first argument gives.
    fn process_given(&self, args: &Values) -> u32
        ensures { result ≡ process_of (state self.now) (arg (map view (items_of args.now)) 0) };

    /// The buffer that the first argument gives.
    fn buffer_given(&self, args: &Values) -> u32
        ensures { result ≡ buffer_of (state self.now).editor (arg (map view (items_of args.now)) 0) };

    /// The running processes of a buffer.
    fn running_in(&self, buffer: u32) -> Mem<Vec<u32>>
        ensures { IfOk result (λ ps. ps.items ≡ running_in (state self.now) buffer) };

    /// Kills a buffer that lives. A refusal leaves all as it was.
    fn kill_live(&mut self, buffer: u32) -> Mem<Reply>
        ensures reply { IfOk result (λ r. reply_of r ≡
            (killed_by (state self.old).editor buffer).reply) }
        ensures ok { OnOk result (state self.new ≡
            record (state self.old) { editor = (killed_by (state self.old).editor buffer).editor }) }
        ensures err { OnErr result (state self.new ≡ state self.old) };

    /// A call on hooks or processes that asks the host nothing and enters nothing. It isn't
    /// refused. Want of memory leaves all as it was.
    fn call_silently<P: Program>(
        &mut self,
        program: &P,
        prim: Primitive,
        args: &Values,
    ) -> Mem<Value>
        requires silent { IsSilent (prim_of prim) }
        requires passes { Passes (P.meant program.now) (state self.old) (prim_of prim)
            (map view (items_of args.now)) }
        ensures value { IfOk result (λ v. view v ≡
            told_by (state self.old) (prim_of prim) (map view (items_of args.now))) }
        ensures ok { OnOk result (state self.new ≡
            set_by (prim_of prim) (map view (items_of args.now)) (state self.old)) }
        ensures err { OnErr result (state self.new ≡ state self.old) };

    /// The bytes of the text that is to be sent, the second argument: UTF-8, with raw bytes as they are.
    fn bytes_given(&self, args: &Values) -> Mem<Vec<u8>>
        ensures { IfOk result (λ bytes. bytes.items ≡
            bytes_of (arg (map view (items_of args.now)) 1)) };

    /// Counts an exchange.
    fn count_asked(&mut self)
        requires { may_ask (state self.old) ≡ true }
        ensures { state self.new ≡ asked_more (state self.old) };

    /// Counts an exchange that sent so many bytes.
    fn count_sent(&mut self, bytes: usize)
        requires asked { may_ask (state self.old) ≡ true }
        requires sent { (state self.old).sent + bytes ≤ most_sent }
        ensures { state self.new ≡ counted bytes (state self.old) };

    /// Counts an exchange, by which the input of a process was closed.
    fn note_closed(&mut self, p: u32)
        requires asked { may_ask (state self.old) ≡ true }
        requires made { p < length (state self.old).processes }
        ensures { state self.new ≡ change_process p with_input_closed (asked_more (state self.old)) };

    /// The program that a start asks for, and its arguments.
    fn command<P: Program>(&self, program: &P, args: &Values) -> Mem<Command>
        requires { Passes (P.meant program.now) (state self.now) StartProcess
            (map view (items_of args.now)) }
        ensures program { IfOk result (λ command. string_bytes command.program ≡
            bytes_of (arg (map view (items_of args.now)) 2)) }
        ensures words { IfOk result (λ command. map string_bytes command.words.items ≡
            words_of (map view (items_of args.now))) };

    /// Takes all the memory that a start needs, for its process, its mark and its buffer. The state
    /// is as it was.
    fn reserve_process<P: Program>(&mut self, program: &P, args: &Values) -> Mem<()>
        requires { Passes (P.meant program.now) (state self.old) StartProcess
            (map view (items_of args.now)) }
        ensures place { OnOk result (has_place self.new (map view (items_of args.now))) }
        ensures state { state self.new ≡ state self.old };

    /// Makes the process of a child that was started, and gives its number. It takes no memory.
    fn start<P: Program>(&mut self, program: &P, args: &Values, child: u32) -> u32
        requires passes { Passes (P.meant program.now) (state self.old) StartProcess
            (map view (items_of args.now)) }
        requires place { has_place self.old (map view (items_of args.now)) }
        ensures number { result ≡ length (state self.old).processes }
        ensures state { state self.new ≡
            started (state self.old) (arg (map view (items_of args.now)) 0) (arg
            (map view (items_of args.now)) 1) child };
}
