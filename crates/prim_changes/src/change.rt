//! Changes of a text, which are prepared first and committed when the hooks have run.
ghost use Rattle.std.specs.Prelude.{◌≡◌};
ghost use Rattle.prop_intervals.specs.Sets.{together};
ghost use Rattle.prim_changes.specs.Meaning.{text_of};

use ek_call::{Fault, Value};
use ek_types::Piece;
use prop_intervals::PropEdit;
use std::slice;

/// Pieces side by side. One alone takes no memory for a list.
#[derive(Drop)]
pub enum Pieces {
    One(Piece),
    Several(Vec<Piece>),
}

impl Pieces {
    /// All of them, one behind the other.
    pub fn as_slice(&self) -> &[Piece]
        ensures { together result.now ≡ text_of self.now }
    {
        match self {
            Pieces::One(piece) => slice::from_ref(piece),
            Pieces::Several(pieces) => pieces.as_slice(),
        }
    }
}

/// What a change does.
#[derive(Drop)]
pub enum What {
    /// Puts pieces in, or takes the part out (then there is no piece).
    Put {
        pieces: Pieces,
        /// All markers and overlays at the place advance.
        all: bool,
        /// Point goes behind the pieces.
        point_after: bool,
        /// The buffer is widened first.
        widen: bool,
        /// The marker that goes behind the pieces.
        mark: Option<u32>,
    },
    /// Changes the properties of the part.
    Props(PropEdit),
    /// Undoes some groups of records.
    UndoGroups(u32),
}

/// The part of a buffer that is changed, what is done to it, and what the call answers. Places count from 0.
#[derive(Drop)]
pub struct Change {
    pub buffer: u32,
    pub from: usize,
    pub to: usize,
    pub what: What,
    pub reply: Value,
}

/// What a call that changes a text comes to before anything is changed.
#[derive(Drop)]
pub enum Prepared {
    Change(Change),
    /// An `undo-more` that passes no record; it is made at once.
    Quiet(Change),
    /// Nothing is to be changed.
    Nothing(Value),
    Fault(Fault),
}

/// The ends of a change as it was made, and the length that stood there before.
#[derive(Clone, Copy, Debug, PartialEq, Eq)]
pub enum Committed {
    Done { from: usize, to: usize, old: usize },
    Fault(Fault),
}
