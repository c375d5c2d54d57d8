//! The overlays of a buffer, from the weakest to the strongest.
ghost use Rattle.std.specs.Prelude.{◌≡◌, ◌<◌, length, map, [], ◌∷◌, All, IfOk, IfSome, option_to_list};
ghost use Rattle.std.specs.Prelude.{reverse, ◌++◌, OnOk};
ghost use Rattle.text_model.specs.Properties.{get};
ghost use Rattle.text_model.specs.OverlayQuestions.{priority, as_priority};
ghost use Rattle.overlay_set.specs.Numbered.{overlay_at};
ghost use Rattle.final_view.specs.Shown.{in_buffer};
ghost use Rattle.final_view.specs.Marks.{IsMark, overlay_of, overlays_in, strength, AreRanked};
ghost use Rattle.final_view.specs.Marks.{AreSorted, start_key, end_key};

use ek_types::{Mem, PropSet, PropVal, Sym};
use overlay_set::Overlays;
use std::alloc::Global;
use std::cmp::Ordering;

/// An overlay of a buffer: its number, its two places, and its priority.
#[derive(Clone, Copy)]
pub(crate) struct Mark {
    pub number: u32,
    pub start: usize,
    pub end: usize,
    pub rank: i64,
}

/// The priority, which is 0 where none is given as a number.
fn rank_of(props: &PropSet) -> i64
    ensures { result ≡ as_priority (get props.now priority) }
{
    match props.get(Sym::PRIORITY) {
        Some(PropVal::Int(rank)) => *rank,
        _ => 0,
    }
}

/// The mark of overlay `k`, where it stands in the buffer.
fn mark_of(overlays: &Overlays, buffer: u32, k: u32) -> Option<Mark>
    requires { k < length overlays.now }
    ensures exact { map (overlay_of overlays.now) (option_to_list result) ≡
        in_buffer buffer (overlay_at overlays.now k ∷ []) }
    ensures is { IfSome result (IsMark overlays.now) }
{
    match overlays.span(k) {
        Some((id, start, end)) if id == buffer => Some(Mark {
            number: k,
            start,
            end,
            rank: rank_of(overlays.props(k)),
        }),
        _ => None,
    }
}

/// Puts a mark behind others, if there is one.
fn put(marks: &mut Vec<Mark>, mark: Option<Mark>) -> Mem<()>
    ensures { OnOk result (marks.new.items ≡ marks.old.items ++ option_to_list mark) }
{
    if let Some(mark) = mark {
        marks.push(mark)?;
    }
    Ok(())
}

/// The overlays of the buffer by number.
fn numbered(alloc: Global, overlays: &Overlays, buffer: u32) -> Mem<Vec<Mark>>
    ensures exact { IfOk result (λ marks. overlays_in overlays.now marks.items ≡
        in_buffer buffer overlays.now) }
    ensures are { IfOk result (λ marks. All (IsMark overlays.now) marks.items) }
{
    let mut marks = Vec::new(alloc);
    for k in 0..overlays.count() {
        put(&mut marks, mark_of(overlays, buffer, k))?;
    }
    Ok(marks)
}

impl Mark {
    /// Which of two overlays is stronger, but for their numbers.
    fn compare(&self, other: &Mark) -> Ordering
        ensures { result ≡ strength self.now other.now }
    {
        self.rank
            .cmp(&other.rank)
            .then(self.start.cmp(&other.start))
            .then(other.end.cmp(&self.end))
    }
}

/// The overlays of the buffer, from the weakest to the strongest.
pub(crate) fn ranked(alloc: Global, overlays: &Overlays, buffer: u32) -> Mem<Vec<Mark>>
    ensures { IfOk result (λ marks. AreRanked buffer overlays.now marks.items) }
{
    let mut marks = numbered(alloc, overlays, buffer)?;
    marks.sort_by(|mark, other| mark.compare(other))?;
    Ok(marks)
}

/// Some overlays, those that start earlier first.
pub(crate) fn by_start(mut marks: Vec<Mark>) -> Mem<Vec<Mark>>
    ensures { IfOk result (λ openers. AreSorted start_key marks.items openers.items) }
{
    marks.sort_by_key(|mark| mark.start)?;
    Ok(marks)
}

/// Some overlays from the last to the first, those that end earlier first.
pub(crate) fn by_end(alloc: Global, marks: &[Mark]) -> Mem<Vec<Mark>>
    ensures { IfOk result (λ closers. AreSorted end_key (reverse marks.now) closers.items) }
{
    let mut closers = Vec::from_slice(alloc, marks)?;
    closers.reverse();
    closers.sort_by_key(|mark| mark.end)?;
    Ok(closers)
}
