//! Which markers of a buffer stand between two places.
ghost use Rattle.std.specs.Prelude.{◌≡◌, ◌<◌, ◌^◌, [], ◌∷◌, ◌++◌, length, false, All, OnOk};
ghost use Rattle.std.specs.List.{filter_map, flat_map, enumerate_from};
ghost use Rattle.marker_set.specs.Numbered.{numbered_if};
ghost use Rattle.marker_set.specs.Homes.{IsNotAlone};
ghost use Rattle.marker_set.specs.Search.{number_between, found_in, alone_within};

use crate::cell::Cell;
use crate::part::Part;
use crate::slot::{Home, Slot};
use ek_types::Mem;

/// Adds the numbers of the markers in cells whose places are not before `low` and not behind `high`.
pub(crate) fn found_cells(
    cells: &[Option<Cell>],
    low: usize,
    high: usize,
    numbers: &mut Vec<u32>,
) -> Mem<()>
    ensures { OnOk result (numbers.new.items ≡ numbers.old.items ++
        filter_map (number_between low high) cells.now) }
{
    for cell in cells.iter() {
        add_between(*cell, low, high, numbers)?;
    }
    Ok(())
}

/// Adds the number of the marker in a cell where its place is not before `low` and not behind `high`.
fn add_between(cell: Option<Cell>, low: usize, high: usize, numbers: &mut Vec<u32>) -> Mem<()>
    ensures { OnOk result (numbers.new.items ≡ numbers.old.items ++
        filter_map (number_between low high) (cell ∷ [])) }
{
    if let Some(number) = between(cell, low, high) {
        numbers.push(number)?;
    }
    Ok(())
}

/// The number of the marker in a cell where its place is not before `low` and not behind `high`.
fn between(cell: Option<Cell>, low: usize, high: usize) -> Option<u32>
    ensures { result ≡ number_between low high cell }
{
    match cell {
        Some(kept) if low <= kept.place && kept.place <= high => Some(kept.number),
        _ => None,
    }
}

/// Adds the numbers of a buffer's markers in parts that stand between two places or at one of them.
pub(crate) fn found_parts(
    parts: &[Part],
    buffer: u32,
    from: usize,
    to: usize,
    numbers: &mut Vec<u32>,
) -> Mem<()>
    ensures { OnOk result (numbers.new.items ≡ numbers.old.items ++
        flat_map (found_in buffer from to) parts.now) }
{
    for part in parts.iter() {
        part.found(buffer, from, to, numbers)?;
    }
    Ok(())
}

/// Adds the numbers of a buffer's markers kept alone that stand between two places or at one of them.
pub(crate) fn found_alone(
    slots: &[Slot],
    some_alone: bool,
    buffer: u32,
    from: usize,
    to: usize,
    numbers: &mut Vec<u32>,
) -> Mem<()>
    requires few { length slots.now < 2 ^ 32 }
    requires packed { some_alone ≡ false → All IsNotAlone slots.now }
    ensures { OnOk result (numbers.new.items ≡ numbers.old.items ++
        filter_map (numbered_if (alone_within buffer from to)) (enumerate_from 0 slots.now)) }
{
    if !some_alone {
        return Ok(());
    }
    for k in 0..slots.len() {
        add_alone(k as u32, slots[k], buffer, from, to, numbers)?;
    }
    Ok(())
}

/// Adds the number of a slot's marker where it is kept alone and stands between two places or at one of them.
fn add_alone(
    k: u32,
    slot: Slot,
    buffer: u32,
    from: usize,
    to: usize,
    numbers: &mut Vec<u32>,
) -> Mem<()>
    ensures { OnOk result (numbers.new.items ≡ numbers.old.items ++
        filter_map (numbered_if (alone_within buffer from to)) ((k, slot) ∷ [])) }
{
    if stands_alone(slot, buffer, from, to) {
        numbers.push(k)?;
    }
    Ok(())
}

/// Whether a slot's marker is kept alone and stands between two places of a buffer or at one of them.
fn stands_alone(slot: Slot, buffer: u32, from: usize, to: usize) -> bool
    ensures { result ≡ alone_within buffer from to slot }
{
    match slot.home {
        Home::Alone { buffer: own, place } => own == buffer && from <= place && place <= to,
        _ => false,
    }
}
