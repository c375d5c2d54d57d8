//! One overlay as it is kept, and how a change of a text moves it.
ghost use Rattle.std.specs.Prelude.{◌≡◌, ℕ, ◌+◌, ◌≤◌, ◌&&◌, nat_lt, true, false, [], ◌∷◌, filter};
ghost use Rattle.std.specs.Prelude.{Some, is_some, option_map, IfOk};
ghost use Rattle.text_model.specs.Properties.{get, put};
ghost use Rattle.text_model.specs.Marks.{Span, move_overlay, evaporated, evaporate, insertion};
ghost use Rattle.text_model.specs.Marks.{deletion};
ghost use Rattle.text_model.specs.OverlayQuestions.{covers, overlaps, stands_in, rank};
ghost use Rattle.text_model.specs.OverlayQuestions.{outranks, least, greatest};
ghost use Rattle.ek_types.specs.Property.{prop_of};
ghost use Rattle.overlay_set.specs.Numbered.{span_at, span_of, given_of, next_or, previous_or};
ghost use Rattle.overlay_set.specs.Slots.{bare_of, with_span, moved_by, test_of, CanMoveIn};

use ek_types::{Mem, PropSet, PropVal, Sym, place_after_delete, place_after_insert};

/// A buffer with two places in it.
pub type Stretch = (u32, usize, usize);

/// What an overlay has besides its stretch: whether its ends advance, and its properties (GNU Emacs Lisp Reference
/// Manual, Overlays). The key leads to it in the tree, where it stands somewhere.
#[derive(Drop)]
pub struct Slot {
    pub key: usize,
    pub front: bool,
    pub rear: bool,
    pub props: PropSet,
}

/// A change of a buffer's text.
#[derive(Clone, Copy)]
pub enum Change {
    /// `n` characters were put in at `at`; `all` ends there advance.
    Insertion { at: usize, n: usize, all: bool },
    /// The part from `from` to `to` was deleted.
    Deletion { from: usize, to: usize },
    /// The buffer was killed.
    Killed,
}

/// What is asked of a stretch.
#[derive(Clone, Copy)]
pub enum Question {
    /// Whether it covers the character at a place.
    At { i: usize },
    /// Whether it lies in a part, whose text ends at `end`.
    Within { from: usize, to: usize, end: usize },
}

/// Whether a stretch begins at the place or before it and ends behind it.
fn covers_place(i: usize, stretch: Stretch) -> bool
    ensures { result ≡ covers (i + 1) (span_at stretch) }
{
    stretch.1 <= i && i < stretch.2
}

/// Whether a stretch has a character in a part, or covers the place where the part is empty.
fn overlaps_part(from: usize, to: usize, stretch: Stretch) -> bool
    ensures { result ≡ overlaps (from + 1) (to + 1) (span_at stretch) }
{
    if from < to {
        stretch.1 < to && from < stretch.2
    } else {
        covers_place(from, stretch)
    }
}

/// Whether an empty stretch lies in a part, or at its end where this is the last place.
fn stands_in_part(from: usize, to: usize, last: usize, start: usize) -> bool
    ensures { result ≡ stands_in (from + 1) (to + 1) (last + 1) (span_at (0, start, start)) }
{
    start == from || (from < start && start < to) || (start == to && to == last)
}

impl Question {
    /// Whether it may be yes for a stretch that begins at `least` or behind it, and ends at `most` or before it.
    pub(crate) fn may_pass(self, least: usize, most: usize) -> bool
        ensures { (s : Span) → test_of self s ≡ true → least ≤ s.start → s.end ≤ most → result ≡ true }
    {
        match self {
            Question::At { i } => least <= i && i < most,
            Question::Within { from, to, .. } => least <= from.max(to) && from.min(to) <= most,
        }
    }

    /// Whether the answer is yes for a stretch.
    pub(crate) fn passes(self, stretch: Stretch) -> bool
        ensures { result ≡ test_of self (span_at stretch) }
    {
        match self {
            Question::At { i } => covers_place(i, stretch),
            Question::Within { from, to, end } if stretch.1 == stretch.2 => {
                stands_in_part(from, to, end, stretch.1)
            }
            Question::Within { from, to, .. } => overlaps_part(from, to, stretch),
        }
    }
}

impl Slot {
    /// Whether it has a property.
    pub fn has(&self, name: Sym) -> bool
        ensures { result ≡ is_some (get self.now.props name.0) }
    {
        self.props.get(name).is_some()
    }

    /// Its priority: 0 where none is given as a number.
    fn rank(&self) -> i64
        ensures { result ≡ rank (bare_of self.now) }
    {
        match self.props.get(Sym::PRIORITY) {
            Some(PropVal::Int(i)) => *i,
            _ => 0,
        }
    }

    /// Whether it wins in its stretch over another overlay of a smaller number in its own.
    pub fn outranks(&self, stretch: Stretch, earlier: &Slot, other: Stretch) -> bool
        ensures { result ≡ outranks (with_span (bare_of self.now) stretch)
            (with_span (bare_of earlier.now) other) }
    {
        let (rank, other_rank) = (self.rank(), earlier.rank());
        let (_, start, end) = stretch;
        let (_, other_start, other_end) = other;
        rank > other_rank
            || (rank == other_rank
                && (start > other_start || (start == other_start && end <= other_end)))
    }

    /// Whether the overlay is deleted as soon as it is empty.
    fn evaporates(&self) -> bool
        ensures { result ≡ is_some (get self.now.props evaporate) }
    {
        self.props.get(Sym::EVAPORATE).is_some()
    }

    /// Where a stretch of the overlay goes at an insertion into its buffer.
    fn after_insert(&self, stretch: Stretch, at: usize, n: usize, all: bool) -> Stretch
        requires start { n + stretch.1 ≤ usize.MAX }
        requires end { n + stretch.2 ≤ usize.MAX }
        ensures { Some (span_at result) ≡ (move_overlay stretch.0 all (insertion at n)
            (with_span (bare_of self.now) stretch)).span }
    {
        let (buffer, start, end) = stretch;
        let start_advances = all || (self.front && (self.rear || start != end));
        let start = place_after_insert(at, n, start_advances, start);
        let end = place_after_insert(at, n, self.rear || all, end);
        (buffer, start, end)
    }

    /// Where a stretch of the overlay goes at a deletion in its buffer, if anywhere.
    fn after_delete(&self, stretch: Stretch, from: usize, to: usize) -> Option<Stretch>
        requires { from ≤ to }
        ensures { span_of result ≡ (evaporated stretch.0
            (move_overlay stretch.0 false (deletion from to)
            (with_span (bare_of self.now) stretch))).span }
    {
        let (buffer, start, end) = stretch;
        let start = place_after_delete(from, to, start);
        let end = place_after_delete(from, to, end);
        if start == end && self.evaporates() {
            None
        } else {
            Some((buffer, start, end))
        }
    }

    /// Where it goes from a stretch at a change of a buffer, if anywhere.
    pub fn moved(&self, stretch: Stretch, buffer: u32, change: Change) -> Option<Stretch>
        requires { CanMoveIn buffer change (with_span (bare_of self.now) stretch) }
        ensures { record (bare_of self.now) { span = span_of result } ≡
            moved_by buffer change (with_span (bare_of self.now) stretch) }
    {
        match change {
            _ if stretch.0 != buffer => Some(stretch),
            Change::Insertion { at, n, all } => Some(self.after_insert(stretch, at, n, all)),
            Change::Deletion { from, to } => self.after_delete(stretch, from, to),
            Change::Killed => None,
        }
    }

    /// Its properties with one given anew, or taken away where `v` is none or nil.
    pub fn props_with(&self, name: Sym, v: Option<&PropVal>) -> Mem<PropSet>
        ensures { IfOk result (λ set. set ≡ put self.now.props name.0
            (given_of (option_map (λ p. prop_of p.now) v.entry))) }
    {
        match v {
            Some(value) => self.props.copy()?.with(name, value),
            None => Ok(self.props.copy()?.without(name)),
        }
    }

    /// An overlay of its own that is alike.
    pub fn copy(&self) -> Mem<Slot>
        ensures { IfOk result (λ copy. bare_of copy ≡ bare_of self.now) }
    {
        Ok(Slot {
            key: self.key,
            front: self.front,
            rear: self.rear,
            props: self.props.copy()?,
        })
    }
}

/// The nearer of a place, where it lies behind `i`, and one that was found.
pub(crate) fn nearer_behind(i: usize, place: usize, found: Option<usize>) -> Option<usize>
    ensures { (last : ℕ) → next_or last result ≡
        least (next_or last found) (filter (λ x. nat_lt (i + 1) x) ((place + 1) ∷ [])) }
{
    match found {
        Some(other) if place <= i || other <= place => found,
        None if place <= i => None,
        _ => Some(place),
    }
}

/// The nearer of a place, where it lies before `i`, and one that was found.
pub(crate) fn nearer_before(i: usize, place: usize, found: Option<usize>) -> Option<usize>
    ensures { (first : ℕ) → previous_or first result ≡
        greatest (previous_or first found) (filter (λ x. nat_lt x (i + 1)) ((place + 1) ∷ [])) }
{
    match found {
        Some(other) if i <= place || place <= other => found,
        None if i <= place => None,
        _ => Some(place),
    }
}
