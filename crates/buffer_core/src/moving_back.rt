//! Markers that go back to where they stood before a deletion that is undone.
ghost use Rattle.std.specs.Prelude.{◌≡◌, pos, ◌-ℤ◌, ◌≤◌, [], ◌∷◌, ◌++◌, length, drop};
ghost use Rattle.std.specs.Prelude.{option_map, slice_get, OnOk, IfOk};
ghost use Rattle.text_model.specs.Places.{clip};
ghost use Rattle.text_model.specs.Commit.{moves_behind, place_of, spot_less, stands_at, marker_less};
ghost use Rattle.marker_set.specs.Numbered.{spot_of};
ghost use Rattle.buffer_core.specs.Undoing.{standing, all_less};

use ek_types::Mem;
use marker_set::Markers;
use std::alloc::Global;
use undo_list::{Rec, Undo};

/// Whether the marker of a number was made and stands at a place of a buffer.
fn stands_at(markers: &Markers, k: u32, id: u32, place: usize) -> bool
    ensures { result ≡ stands_at id place (slice_get markers.now k) }
{
    if k >= markers.count() {
        return false;
    }
    match markers.place(k) {
        Some((buffer, at)) => buffer == id && at == place,
        None => false,
    }
}

/// Adds a move, where its marker stands at a place of a buffer.
fn add_standing(
    moves: &mut Vec<(u32, i64)>,
    k: u32,
    adjustment: &i64,
    markers: &Markers,
    id: u32,
    place: usize,
) -> Mem<()>
    ensures { OnOk result (moves.new.items ≡ moves.old.items ++
        standing id place markers.now ((k, adjustment.now) ∷ [])) }
{
    if stands_at(markers, k, id, place) {
        moves.push((k, *adjustment))?;
    }
    Ok(())
}

/// The moves of the records from `i` on, up to the first that moves no marker, of those markers that stand at a place
/// of a buffer.
pub fn standing_moves(
    alloc: Global,
    undo: &Undo,
    i: usize,
    markers: &Markers,
    id: u32,
    place: usize,
) -> Mem<Vec<(u32, i64)>>
    requires { i ≤ length undo.now.state.entries }
    ensures { IfOk result (λ moves. moves.items ≡
        standing id place markers.now (moves_behind (drop i undo.now.state.entries))) }
{
    let mut moves = Vec::new(alloc);
    for j in i..undo.len() {
        let Rec::Moved(k, adjustment) = undo.at(j).0 else {
            return Ok(moves);
        };
        add_standing(&mut moves, *k, adjustment, markers, id, place)?;
    }
    Ok(moves)
}

/// A place less an adjustment, or the nearest to that from 0 to `size`.
fn place_less(place: usize, adjustment: i64, size: usize) -> usize
    ensures { result ≡ clip 0 size (place_of (pos place -ℤ adjustment)) }
{
    let moved = place as i128 - adjustment as i128;
    if moved < 0 {
        0
    } else if moved > size as i128 {
        size
    } else {
        moved as usize
    }
}

/// Where a marker goes that is taken back by an adjustment, if it points into a buffer, whose text has this size.
fn spot_less(
    spot: Option<(u32, usize)>,
    id: u32,
    size: usize,
    adjustment: i64,
) -> Option<(u32, usize)>
    ensures { spot_of result ≡ option_map (spot_less id size adjustment) (spot_of spot) }
{
    match spot {
        Some((buffer, place)) if buffer == id => {
            Some((buffer, place_less(place, adjustment, size)))
        }
        other => other,
    }
}

/// Takes one marker back by an adjustment, if it was made.
fn take_back(markers: &mut Markers, k: u32, adjustment: i64, id: u32, size: usize)
    ensures { markers.new ≡ marker_less id size (k, adjustment) markers.old }
{
    if k < markers.count() {
        let to = spot_less(markers.place(k), id, size, adjustment);
        markers.set(k, to);
    }
}

/// Takes markers back, one after the other. They stay in the text, which has this size.
pub fn take_all_back(markers: &mut Markers, moves: &[(u32, i64)], id: u32, size: usize)
    ensures moved { markers.new ≡ all_less id size moves.now markers.old }
{
    for (k, adjustment) in moves {
        take_back(markers, *k, *adjustment, id, size);
    }
}
