//! The items of the list of work.
use crate::waiting::Waiting;
use editor_prims::Change;
use ek_call::{Fault, Form, Forms, Primitive, Replies, Value, Values};
use ek_types::{Sym, SymList};
use kernel_steps::{Kept, Kind};

/// Where the answer of a call goes: nowhere, to a name, or to the native that made the call.
#[derive(Clone, Copy, Debug, PartialEq, Eq)]
pub enum Target {
    Nowhere,
    Name(Sym),
    Native,
}

/// A piece of work that is left to do. Lists of forms and of hook functions are kept whole, with the place of the
/// first one that is left.
#[derive(Drop)]
pub enum Item {
    Top {
        forms: Forms,
        at: usize,
    },
    Body {
        forms: Forms,
        at: usize,
    },
    DoForm(Form),
    MakeCall {
        prim: Primitive,
        args: Values,
        target: Target,
    },
    /// The end of a block.
    Leave(Kept),
    GiveAnswer {
        value: Value,
        target: Target,
    },
    /// A fault, which drops what stands in front of the handler or form that it ends.
    Refuse(Fault),
    MakeChange(Change),
    Hooks {
        kind: Kind,
        names: SymList,
        at: usize,
        args: Values,
    },
    /// The end of the inhibition of hooks, and whether they were inhibited before.
    Calm {
        old: bool,
    },
    CommitChange(Change),
    /// A handler to be entered, or the default one.
    Enter {
        kind: Kind,
        handler: Option<Sym>,
        args: Values,
    },
    Native {
        native: u32,
        args: Values,
        past: Replies,
    },
    /// A native while a call of it is under way.
    Called {
        native: u32,
        args: Values,
        past: Replies,
    },
    /// The end of a handler, with the buffer that was current before it, and whether a fault ended it.
    Exit {
        kind: Kind,
        handler: Option<Sym>,
        current: u32,
        faulted: bool,
    },
    Wait {
        waiting: Waiting,
        target: Target,
    },
    Delete {
        process: u32,
    },
    KillBuffer {
        buffer: u32,
        target: Target,
    },
    /// The end of the run: the processes from this one on are killed.
    Finish {
        process: u32,
    },
    WriteDump,
}
