//! Stretches with the numbers of their overlays, and the bounds of many of them.
ghost use Rattle.std.specs.Prelude.{◌≡◌, false, min, max, filter, ◌+◌, ◌<◌, ℕ, nat_lt, nat_le, ◌%◌, ◌^◌};
ghost use Rattle.std.specs.Prelude.{◌==◌, ◌||◌, ◌&&◌, true, not, is_some, unwrap_or, Some};
ghost use Rattle.text_model.specs.OverlayQuestions.{least, greatest};
ghost use Rattle.overlay_set.specs.Numbered.{next_or, previous_or};
ghost use Rattle.overlay_set.specs.Entries.{Holds, Within, ends_at, passes, is_same, raised, InRange};
ghost use Rattle.text_model.specs.Marks.{Overlay};
ghost use Rattle.overlay_set.specs.Slots.{moved_by, with_span};
ghost use Rattle.overlay_set.specs.Moves.{touches, CanMoveEntry};

use crate::slot::{Change, Question, Stretch, nearer_before, nearer_behind};

/// An overlay that stands somewhere.
#[derive(Clone, Copy)]
pub(crate) struct Entry {
    pub(crate) number: u32,
    pub(crate) stretch: Stretch,
}

/// The least and the greatest of some numbers.
#[derive(Clone, Copy)]
pub(crate) struct Range {
    pub(crate) least: usize,
    pub(crate) most: usize,
}

/// What holds of all entries in a part of the tree: where their numbers, buffers, starts and ends lie, and whether one
/// of them may be empty.
#[derive(Clone, Copy)]
pub(crate) struct Bounds {
    pub(crate) numbers: Range,
    pub(crate) buffers: Range,
    pub(crate) starts: Range,
    pub(crate) ends: Range,
    pub(crate) hollow: bool,
}

impl Entry {
    /// Whether it stands before another: by buffer, start, end and number.
    pub(crate) fn comes_before(self, other: Entry) -> bool {
        (self.stretch, self.number) < (other.stretch, other.number)
    }

    /// The same with its places counted from a shift.
    pub(crate) fn raised(self, by: usize) -> Entry
        ensures { result ≡ raised by self }
    {
        let (buffer, start, end) = self.stretch;
        Entry {
            number: self.number,
            stretch: (buffer, start.wrapping_add(by), end.wrapping_add(by)),
        }
    }

    /// Whether it is the same entry as another.
    pub(crate) fn is_same(self, other: Entry) -> bool
        ensures { result ≡ is_same self other }
    {
        self.number == other.number
            && self.stretch.0 == other.stretch.0
            && self.stretch.1 == other.stretch.1
            && self.stretch.2 == other.stretch.2
    }

    /// Whether it stands in the buffer and passes a test.
    pub(crate) fn passes(self, buffer: u32, question: Question) -> bool
        ensures { result ≡ passes buffer question self }
    {
        self.stretch.0 == buffer && question.passes(self.stretch)
    }

    /// Whether a change of the buffer may move it. Where it may not, its overlay stays where it is.
    #[tactic(auto, using(crate::proofs::ChangeLemmas::stays))]
    pub(crate) fn is_touched(self, buffer: u32, change: Change) -> bool
        ensures exact { result ≡ touches buffer change self }
        ensures stays { result ≡ false → (o : Overlay) →
            moved_by buffer change (with_span o self.stretch) ≡ with_span o self.stretch }
    {
        let (own, start, end) = self.stretch;
        own == buffer
            && match change {
                Change::Insertion { at, .. } => at <= start || at <= end,
                Change::Deletion { from, .. } => from < start || from < end || start == end,
                Change::Killed => true,
            }
    }

    /// The nearest of its places behind `i` and of one that was found, where it stands in the buffer.
    pub(crate) fn nearer_next(self, buffer: u32, i: usize, found: Option<usize>) -> Option<usize>
        ensures { (last : ℕ) → next_or last result ≡
            least (next_or last found) (filter (λ x. nat_lt (i + 1) x) (ends_at buffer self)) }
    {
        let (own, start, end) = self.stretch;
        if own != buffer {
            return found;
        }
        nearer_behind(i, end, nearer_behind(i, start, found))
    }

    /// The nearest of its places before `i` and of one that was found, where it stands in the buffer.
    pub(crate) fn nearer_previous(
        self,
        buffer: u32,
        i: usize,
        found: Option<usize>,
    ) -> Option<usize>
        ensures { (first : ℕ) → previous_or first result ≡
            greatest (previous_or first found)
            (filter (λ x. nat_lt x (i + 1)) (ends_at buffer self)) }
    {
        let (own, start, end) = self.stretch;
        if own != buffer {
            return found;
        }
        nearer_before(i, end, nearer_before(i, start, found))
    }
}

impl Range {
    /// One number by itself.
    pub(crate) fn one(n: usize) -> Range
        ensures { result ≡ record { least = n; most = n } }
    {
        Range { least: n, most: n }
    }

    /// The numbers of two ranges, and those between.
    pub(crate) fn joined(self, other: Range) -> Range
        ensures least { result.least ≡ min self.least other.least }
        ensures most { result.most ≡ max self.most other.most }
    {
        Range {
            least: self.least.min(other.least),
            most: self.most.max(other.most),
        }
    }

    /// Where its numbers lie when they are counted from a shift: anywhere, where some of them pass the last `usize` and
    /// others don't.
    #[tactic(auto, using(crate::proofs::Shifts::within_raised))]
    fn raised(self, by: usize) -> Range
        ensures { (n : ℕ) → Within self n → Within result ((n + by) % 2 ^ 64) }
    {
        let least = self.least.wrapping_add(by);
        let most = self.most.wrapping_add(by);
        if least <= most {
            Range { least, most }
        } else {
            Range {
                least: 0,
                most: usize::MAX,
            }
        }
    }

    /// Whether a number may be one of the range.
    pub(crate) fn holds(self, n: usize) -> bool
        ensures { result ≡ (nat_le self.least n && nat_le n self.most) }
    {
        self.least <= n && n <= self.most
    }
}

impl Range {
    /// Whether a number of the range may lie behind `i` and before one that was found.
    fn may_come_next(self, i: usize, found: Option<usize>) -> bool
        ensures { result ≡ (nat_lt i self.most &&
            (not (is_some found) || nat_lt self.least (unwrap_or found 0))) }
    {
        i < self.most && found.is_none_or(|other| self.least < other)
    }

    /// Whether a number of the range may lie before `i` and behind one that was found.
    fn may_come_before(self, i: usize, found: Option<usize>) -> bool
        ensures { result ≡ (nat_lt self.least i &&
            (not (is_some found) || nat_lt (unwrap_or found 0) self.most)) }
    {
        self.least < i && found.is_none_or(|other| other < self.most)
    }
}

impl Bounds {
    /// The bounds of one entry.
    pub(crate) fn of(entry: Entry) -> Bounds
        ensures holds { Holds result entry }
        ensures range { InRange entry }
    {
        let (buffer, start, end) = entry.stretch;
        Bounds {
            numbers: Range::one(entry.number as usize),
            buffers: Range::one(buffer as usize),
            starts: Range::one(start),
            ends: Range::one(end),
            hollow: start == end,
        }
    }

    /// The bounds of two parts together.
    pub(crate) fn joined(self, other: Bounds) -> Bounds
        ensures own { (e : Entry) → Holds self e → Holds result e }
        ensures others { (e : Entry) → Holds other e → Holds result e }
    {
        Bounds {
            numbers: self.numbers.joined(other.numbers),
            buffers: self.buffers.joined(other.buffers),
            starts: self.starts.joined(other.starts),
            ends: self.ends.joined(other.ends),
            hollow: self.hollow || other.hollow,
        }
    }

    /// The bounds of the same entries when their places are counted from a shift.
    pub(crate) fn raised(self, by: usize) -> Bounds
        ensures { (e : Entry) → Holds self e → Holds result (raised by e) }
    {
        Bounds {
            numbers: self.numbers,
            buffers: self.buffers,
            starts: self.starts.raised(by),
            ends: self.ends.raised(by),
            hollow: self.hollow,
        }
    }

    /// Whether an entry may be the given one.
    pub(crate) fn may_hold(self, entry: Entry) -> bool
        ensures { Holds self entry → result ≡ true }
    {
        let (buffer, start, end) = entry.stretch;
        self.numbers.holds(entry.number as usize)
            && self.buffers.holds(buffer as usize)
            && self.starts.holds(start)
            && self.ends.holds(end)
    }

    /// Whether an entry may pass a test when its places are counted from a shift.
    pub(crate) fn may_pass(&self, buffer: u32, question: Question, by: usize) -> bool
        ensures { (e : Entry) → Holds self.now e → passes buffer question (raised by e) ≡ true →
            result ≡ true }
    {
        self.buffers.holds(buffer as usize)
            && question.may_pass(self.starts.raised(by).least, self.ends.raised(by).most)
    }

    /// Whether a change of the buffer may move an entry.
    pub(crate) fn may_be_touched(self, buffer: u32, change: Change) -> bool
        ensures { (e : Entry) → Holds self e → touches buffer change e ≡ true → result ≡ true }
    {
        let most = self.starts.most.max(self.ends.most);
        self.buffers.holds(buffer as usize)
            && match change {
                Change::Insertion { at, .. } => at <= most,
                Change::Deletion { from, .. } => from < most || self.hollow,
                Change::Killed => true,
            }
    }

    /// How far a change of the buffer moves all entries alike, modulo 2^64, where these bounds show that it does.
    pub(crate) fn carry(self, buffer: u32, change: Change) -> Option<usize>
        ensures { (by : ℕ) → result ≡ Some by → (e : Entry) → Holds self e →
            CanMoveEntry buffer change e → (o : Overlay) →
            moved_by buffer change (with_span o e.stretch) ≡ with_span o (raised by e).stretch }
    {
        let own = buffer as usize;
        let least = self.starts.least.min(self.ends.least);
        if self.buffers.least < own || own < self.buffers.most {
            return None;
        }
        match change {
            Change::Insertion { at, n, .. } if at < least => Some(n),
            Change::Deletion { from, to } if to < least && !self.hollow => {
                Some(from.wrapping_sub(to))
            }
            _ => None,
        }
    }

    /// Whether an entry of the buffer may begin or end behind `i` and before a place that was found.
    pub(crate) fn may_come_next(self, buffer: u32, i: usize, found: Option<usize>) -> bool
        ensures { (e : Entry) → Holds self e → result ≡ false → (last : ℕ) →
            least (next_or last found) (filter (λ x. nat_lt (i + 1) x) (ends_at buffer e)) ≡
            next_or last found }
    {
        self.buffers.holds(buffer as usize)
            && (self.starts.may_come_next(i, found) || self.ends.may_come_next(i, found))
    }

    /// Whether an entry of the buffer may begin or end before `i` and behind a place that was found.
    pub(crate) fn may_come_before(self, buffer: u32, i: usize, found: Option<usize>) -> bool
        ensures { (e : Entry) → Holds self e → result ≡ false → (first : ℕ) →
            greatest (previous_or first found) (filter (λ x. nat_lt x (i + 1)) (ends_at buffer e)) ≡
            previous_or first found }
    {
        self.buffers.holds(buffer as usize)
            && (self.starts.may_come_before(i, found) || self.ends.may_come_before(i, found))
    }
}
