//! Pieces of a text.
ghost use Rattle.std.specs.Prelude.{◌≡◌, ◌+◌, ◌-◌, ◌≤◌, [], true, length, take, drop};
ghost use Rattle.std.specs.Prelude.{replicate, IfOk, ◌==◌};
ghost use Rattle.std.specs.List.{zip};
ghost use Rattle.prop_intervals.specs.Sets.{together};

use ek_types::{Chars, Mem, Piece};
use prop_intervals::{Props, length_of};
use std::alloc::Global;

/// Whether pieces have no characters.
pub fn are_empty(pieces: &[Piece]) -> bool
    ensures { result ≡ (length (together pieces.now) == 0) }
{
    match length_of(pieces) {
        Some(n) => n == 0,
        None => false,
    }
}

/// Whether the characters from one place to another stand in one run with no properties.
fn is_plain(props: &Props, from: usize, to: usize) -> bool
    requires order { from ≤ to }
    requires range { to ≤ length props.now }
    ensures { result ≡ true → drop from (take to props.now) ≡ replicate (to - from) [] }
{
    if from >= to {
        return false;
    }
    let end = props.run_end(from);
    let set = props.at(from);
    if end < to {
        return false;
    }
    set.len() == 0
}

/// Characters with the property sets from one place to another.
pub fn piece_of(alloc: Global, text: Chars, props: &Props, from: usize, to: usize) -> Mem<Piece>
    requires size { from + length text.items ≡ to }
    requires range { to ≤ length props.now }
    ensures { IfOk result (λ piece. piece ≡ zip text.items (drop from (take to props.now))) }
{
    let mut piece = Piece::plain(alloc, text)?;
    if is_plain(props, from, to) {
        return Ok(piece);
    }
    let mut place = from;
    while place < to {
        let end = props.run_end(place).min(to);
        piece.put(place - from, end - from, props.at(place))?;
        place = end;
    }
    Ok(piece)
}
