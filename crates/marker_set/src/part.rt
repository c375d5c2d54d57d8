//! A part: markers of one buffer that lie near one another and move together.
ghost use Rattle.std.specs.Prelude.{◌≡◌, ℕ, ◌+◌, ◌≤◌, ◌<◌, Bool, true, false, All, length};
ghost use Rattle.std.specs.Prelude.{map, Some, None, option_map, slice_set, slice_index_or, IfOk};
ghost use Rattle.std.specs.Prelude.{OnOk, IfSome, MatchOption, [], ◌++◌};
ghost use Rattle.marker_set.specs.Changes.{move_of, CanMove};
ghost use Rattle.marker_set.specs.Blocks.{IsFree, cell_at, owner_of, spot_in, moved_cell};
ghost use Rattle.marker_set.specs.Blocks.{moved_block, placed, rebased, CanMoveCell, Lies};
ghost use Rattle.marker_set.specs.Blocks.{LiesFrom, Taken, pushed, CanPush};
ghost use Rattle.marker_set.specs.Numbered.{spot_of};
ghost use Rattle.marker_set.specs.Search.{found_in};

use crate::cell::Cell;
use crate::change::Change;
use crate::search::found_cells;
use ek_types::{Mem, place_after_insert};
use std::alloc::Global;
use std::marker::Model;

/// How many markers a part has room for.
pub(crate) const CELLS: usize = 128;

/// Markers of one buffer that are alike in whether they advance. Their places are counted from an offset, so that all
/// move at once where that moves. No marker lies before `least` or behind `most`.
#[derive(Drop)]
pub(crate) struct Part {
    buffer: u32,
    advances: bool,
    /// Whether there may be closer bounds, since a marker left or came behind others.
    loose: bool,
    taken: usize,
    /// A cell that may be free.
    vacant: usize,
    offset: usize,
    least: usize,
    most: usize,
    cells: Vec<Option<Cell>>,
}

impl Model for Part {
    ghost use Rattle.marker_set.specs.Blocks.{Block};

    ghost Value = { Block };

    ghost use Rattle.std.specs.Prelude.{All, map, option_map};
    ghost use Rattle.marker_set.specs.Blocks.{placed, Lies};

    ghost view = { λ a. record {
      buffer = a.buffer;
      advances = a.advances;
      cells = map (option_map (placed a.offset)) a.cells.items;
    } };

    ghost invariant = { λ a. All (Lies a.offset a.least a.most) a.cells.items };
}

impl Part {
    /// A part with no markers.
    pub(crate) fn new(alloc: Global) -> Mem<Part>
        ensures { IfOk result IsFree }
    {
        Ok(Part {
            buffer: 0,
            advances: false,
            loose: false,
            taken: 0,
            vacant: 0,
            offset: 0,
            least: 0,
            most: 0,
            cells: free_cells(alloc)?,
        })
    }

    /// How many of its cells are taken. This decides where markers are put, and nothing else.
    pub(crate) fn taken(&self) -> usize {
        self.taken
    }

    /// How far a place is from its markers, if it is a part for such a marker.
    pub(crate) fn distance(&self, advances: bool, spot: (u32, usize)) -> Option<usize> {
        if self.taken == 0 || self.buffer != spot.0 || self.advances != advances {
            return None;
        }
        let before = self.least.saturating_sub(spot.1);
        Some(before.max(spot.1.saturating_sub(self.most)))
    }

    /// How far its markers are from those of another part, if that is for markers of its kind.
    pub(crate) fn gap(&self, other: &Part) -> Option<usize> {
        let front = self.distance(other.advances, (other.buffer, other.least))?;
        let rear = self.distance(other.advances, (other.buffer, other.most))?;
        Some(front.min(rear))
    }

    /// Whether one of its markers may stand at a place or before it, and whether one may stand behind it.
    pub(crate) fn sides(&self, place: usize) -> (bool, bool) {
        (self.least <= place, place < self.most)
    }

    /// A place that parts its markers in two, with some on each side of it; none where all stand at one place.
    pub(crate) fn middle(&self) -> Option<usize> {
        if self.least < self.most {
            Some(self.least + (self.most - self.least) / 2)
        } else {
            None
        }
    }

    /// The marker of a cell, where it lies behind a place, if one is given.
    pub(crate) fn behind(&self, cell: usize, middle: Option<usize>) -> Option<u32>
        ensures { IfSome result (λ k. owner_of (cell_at self.now cell) ≡ Some k) }
    {
        if cell >= self.cells.len() {
            return None;
        }
        match self.cells[cell] {
            Some(kept) if self.goes_behind(kept, middle) => Some(kept.number),
            _ => None,
        }
    }

    /// Whether a cell lies behind a place, if one is given.
    fn goes_behind(&self, kept: Cell, middle: Option<usize>) -> bool {
        match middle {
            Some(place) => kept.place > place.saturating_sub(self.offset),
            None => true,
        }
    }

    /// Where the marker of a cell points.
    pub(crate) fn spot(&self, cell: usize) -> Option<(u32, usize)>
        requires { cell < length self.now.cells }
        ensures { spot_of result ≡ spot_in self.now (cell_at self.now cell) }
    {
        // Read so that the place is known to fit its type.
        let _most = self.most;
        match self.cells[cell] {
            Some(kept) => Some((self.buffer, self.offset + kept.place)),
            None => None,
        }
    }

    /// Empties a cell.
    pub(crate) fn clear(&mut self, cell: usize)
        requires { cell < length self.old.cells }
        ensures { self.new ≡ record self.old { cells = slice_set self.old.cells cell None } }
    {
        self.taken = self.taken.saturating_sub(1);
        self.vacant = cell;
        self.loose = true;
        self.cells[cell] = None;
    }

    /// Puts a marker into a free cell, and gives that. An empty part is of any buffer, and whether it is empty is asked
    /// only where it was of another one. There is no cell where the part is full, or for other markers.
    pub(crate) fn take(&mut self, number: u32, advances: bool, spot: (u32, usize)) -> Option<usize>
        ensures { MatchOption result (self.new ≡ self.old)
            (λ cell. Taken number advances spot self.old self.new cell) }
    {
        let cell = self.free()?;
        if self.buffer == spot.0 && self.advances == advances {
            self.add(cell, number, spot.1);
            Some(cell)
        } else if self.taken == 0 && self.is_empty() {
            self.begin(cell, number, advances, spot);
            Some(cell)
        } else {
            None
        }
    }

    /// A cell with no marker.
    fn free(&self) -> Option<usize>
        ensures { IfSome result (λ cell. (cell < length self.now.cells) ×
            (cell_at self.now cell ≡ None)) }
    {
        free_in(self.cells.as_slice(), self.vacant)
    }

    /// Whether there is no marker.
    fn is_empty(&self) -> bool
        ensures { result ≡ true → IsFree self.now }
    {
        is_free(self.cells.as_slice())
    }

    /// Puts the first marker into a part.
    fn begin(&mut self, cell: usize, number: u32, advances: bool, spot: (u32, usize))
        requires within { cell < length self.old.cells }
        requires empty { IsFree self.old }
        ensures { self.new ≡ record {
          buffer = spot.0;
          advances = advances;
          cells = slice_set self.old.cells cell (Some (record {
            number = number;
            place = spot.1;
          }));
        } }
    {
        self.buffer = spot.0;
        self.advances = advances;
        self.loose = false;
        self.taken = 1;
        self.vacant = cell.saturating_add(1);
        self.offset = spot.1;
        self.least = spot.1;
        self.most = spot.1;
        self.cells[cell] = Some(Cell { number, place: 0 });
    }

    /// Puts one more marker of its buffer into a part.
    fn add(&mut self, cell: usize, number: u32, place: usize)
        requires { cell < length self.old.cells }
        ensures { self.new ≡ record self.old {
          cells = slice_set self.old.cells cell
              (Some (record { number = number; place = place }));
        } }
    {
        let offset = self.offset.min(place);
        raise(self.cells.as_mut_slice(), self.offset - offset, self.most);
        self.offset = offset;
        self.cells[cell] = Some(Cell {
            number,
            place: place - offset,
        });
        self.least = self.least.min(place);
        self.most = self.most.max(place);
        // The bounds of markers that are gone are far from one that comes behind them.
        self.loose = self.loose || self.taken == 0;
        self.taken = self.taken.saturating_add(1);
        self.vacant = cell.saturating_add(1);
    }

    /// A buffer's text was changed: its markers move.
    pub(crate) fn note(&mut self, buffer: u32, change: Change)
        requires { self.old.buffer ≡ buffer → All (CanMoveCell change) self.old.cells }
        ensures { self.new ≡ moved_block buffer change self.old }
    {
        if self.buffer != buffer {
            return;
        }
        if change.leaves(self.advances, self.most) {
            return;
        }
        if self.carry(change) {
            return;
        }
        self.walk(change);
        // The bounds go with the markers, so that they are as close as they were.
        if self.loose {
            self.narrow();
        }
    }

    /// Moves all markers at once, where the change moves them alike, and says whether it did.
    fn carry(&mut self, change: Change) -> bool
        requires { All (CanMoveCell change) self.old.cells }
        ensures moved { result ≡ true → self.new ≡ record self.old
            { cells = map (option_map (moved_cell change self.old.advances)) self.old.cells } }
        ensures left { result ≡ false → self.new ≡ self.old }
    {
        if !change.carries(self.advances, self.least) {
            return false;
        }
        let Some(offset) = change.carry(self.offset) else {
            return false;
        };
        self.offset = offset;
        self.least = change.lowest(self.least);
        self.most = change.highest(self.most);
        true
    }

    /// Moves each marker by itself.
    fn walk(&mut self, change: Change)
        requires { All (CanMoveCell change) self.old.cells }
        ensures { self.new ≡ record self.old {
          cells = map
              (option_map (moved_cell change self.old.advances)) self.old.cells;
        } }
    {
        let floor = change.lowest(self.least);
        let most = self.most;
        let from = self.offset;
        let advances = self.advances;
        let cells = self.cells.as_mut_slice();
        move_cells(cells, from, floor, self.least, most, advances, change);
        self.offset = floor;
        self.least = floor;
        self.most = change.highest(most);
    }

    /// Finds closer bounds. The markers stay.
    pub(crate) fn narrow(&mut self)
        ensures { self.new ≡ self.old }
    {
        let bounds = bounds(self.cells.as_slice());
        self.least = self.offset.saturating_add(bounds.least);
        self.most = self.offset.saturating_add(bounds.most);
        self.loose = false;
    }

    /// Adds the numbers of its markers that stand between two places of a buffer or at one of them.
    pub(crate) fn found(
        &self,
        buffer: u32,
        from: usize,
        to: usize,
        numbers: &mut Vec<u32>,
    ) -> Mem<()>
        ensures { OnOk result (numbers.new.items ≡ numbers.old.items ++
            found_in buffer from to self.now) }
    {
        if self.misses(buffer, from, to) {
            return Ok(());
        }
        let Some(high) = to.checked_sub(self.offset) else {
            return Ok(());
        };
        let low = from.saturating_sub(self.offset);
        found_cells(self.cells.as_slice(), low, high, numbers)
    }

    /// Whether its buffer and its bounds alone show that no marker stands between two places or at one of them.
    fn misses(&self, buffer: u32, from: usize, to: usize) -> bool
        ensures none { result ≡ true → found_in buffer from to self.now ≡ [] }
        ensures own { result ≡ false → self.now.buffer ≡ buffer }
    {
        if buffer != self.buffer {
            return true;
        }
        if self.most < from {
            return true;
        }
        to < self.least
    }

    /// The same markers again.
    pub(crate) fn copy(&self) -> Mem<Part>
        ensures { IfOk result (λ copy. copy ≡ self.now) }
    {
        let alloc = *self.cells.allocator();
        Ok(Part {
            buffer: self.buffer,
            advances: self.advances,
            loose: self.loose,
            taken: self.taken,
            vacant: self.vacant,
            offset: self.offset,
            least: self.least,
            most: self.most,
            cells: Vec::from_slice(alloc, self.cells.as_slice())?,
        })
    }
}

/// The cells of an empty part.
fn free_cells(alloc: Global) -> Mem<Vec<Option<Cell>>>
    ensures { IfOk result (λ cells. All (λ cell. cell ≡ None) cells.items) }
{
    let mut cells = Vec::with_capacity(alloc, CELLS)?;
    for _i in 0..CELLS {
        cells.push(None)?;
    }
    Ok(cells)
}

/// A cell with no marker: that at `first`, where it has none.
fn free_in(cells: &[Option<Cell>], first: usize) -> Option<usize>
    ensures { IfSome result (λ cell. (cell < length cells.now) ×
        (slice_index_or cells.now cell None ≡ None)) }
{
    if first < cells.len() && cells[first].is_none() {
        return Some(first);
    }
    for (i, cell) in cells.iter().enumerate() {
        if cell.is_none() {
            return Some(i);
        }
    }
    None
}

/// Whether no cell has a marker.
fn is_free(cells: &[Option<Cell>]) -> bool
    ensures { result ≡ true → (i : ℕ) → slice_index_or cells.now i None ≡ None }
{
    for cell in cells.iter() {
        if cell.is_some() {
            return false;
        }
    }
    true
}

/// Counts the places of all cells from an offset that lies lower by `by`.
fn raise(cells: &mut [Option<Cell>], by: usize, most: usize)
    requires { All (LiesFrom by most) cells.old }
    ensures { cells.new ≡ map (option_map (placed by)) cells.old }
{
    if by == 0 {
        return;
    }
    for cell in cells.iter_mut() {
        *cell = raised(*cell, by, most);
    }
}

/// Moves the markers of cells, whose places are counted from one offset before and from another behind that.
fn move_cells(
    cells: &mut [Option<Cell>],
    from: usize,
    to: usize,
    least: usize,
    most: usize,
    advances: bool,
    change: Change,
)
    requires lie { All (Lies from least most) cells.old }
    requires can { All (CanMoveCell change) (map (option_map (placed from)) cells.old) }
    requires to { (advances : Bool) (place : ℕ) → least ≤ place → CanMove change place →
        to ≤ move_of change advances place }
    ensures { cells.new ≡ map (option_map (rebased from to advances change)) cells.old }
{
    match change {
        Change::Insertion { at, n, all } if to == from && from <= at => {
            push_cells(cells, at - from, n, advances || all);
        }
        _ => move_each(cells, from, to, least, most, advances, change),
    }
}

/// The same for any change, one marker after the other.
fn move_each(
    cells: &mut [Option<Cell>],
    from: usize,
    to: usize,
    least: usize,
    most: usize,
    advances: bool,
    change: Change,
)
    requires lie { All (Lies from least most) cells.old }
    requires can { All (CanMoveCell change) (map (option_map (placed from)) cells.old) }
    requires to { (advances : Bool) (place : ℕ) → least ≤ place → CanMove change place →
        to ≤ move_of change advances place }
    ensures { cells.new ≡ map (option_map (rebased from to advances change)) cells.old }
{
    for cell in cells.iter_mut() {
        *cell = moved(*cell, from, to, least, most, advances, change);
    }
}

/// Text is put in among the markers of cells, which keep their offset.
fn push_cells(cells: &mut [Option<Cell>], at: usize, n: usize, advances: bool)
    requires { All (CanPush n) cells.old }
    ensures { cells.new ≡ map (option_map (pushed at n advances)) cells.old }
{
    for cell in cells.iter_mut() {
        *cell = pushed(*cell, at, n, advances);
    }
}

/// A marker among which text is put in.
fn pushed(cell: Option<Cell>, at: usize, n: usize, advances: bool) -> Option<Cell>
    requires { CanPush n cell }
    ensures { result ≡ option_map (pushed at n advances) cell }
{
    match cell {
        Some(kept) => Some(Cell {
            number: kept.number,
            place: place_after_insert(at, n, advances, kept.place),
        }),
        None => None,
    }
}

/// A marker whose place is counted from an offset that lies lower by `by`.
fn raised(cell: Option<Cell>, by: usize, most: usize) -> Option<Cell>
    requires { LiesFrom by most cell }
    ensures { result ≡ option_map (placed by) cell }
{
    match cell {
        Some(kept) => Some(Cell {
            number: kept.number,
            place: by + kept.place,
        }),
        None => None,
    }
}

/// A marker that moved, its place counted from one offset before and from another behind that.
fn moved(
    cell: Option<Cell>,
    from: usize,
    to: usize,
    least: usize,
    most: usize,
    advances: bool,
    change: Change,
) -> Option<Cell>
    requires lie { Lies from least most cell }
    requires can { CanMoveCell change (option_map (placed from) cell) }
    requires to { (advances : Bool) (place : ℕ) → least ≤ place → CanMove change place →
        to ≤ move_of change advances place }
    ensures { result ≡ option_map (rebased from to advances change) cell }
{
    match cell {
        Some(kept) => Some(Cell {
            number: kept.number,
            place: change.after(advances, from + kept.place) - to,
        }),
        None => None,
    }
}

/// The least and the greatest place of some cells.
fn bounds(cells: &[Option<Cell>]) -> Range
    ensures { All (Lies 0 result.least result.most) cells.now }
{
    let mut bounds = Range::NONE;
    for cell in cells.iter() {
        bounds = bounds.with(*cell);
    }
    bounds
}

/// The least and the greatest of some places.
#[derive(Clone, Copy)]
struct Range {
    least: usize,
    most: usize,
}

impl Range {
    const NONE: Range = Range {
        least: usize::MAX,
        most: 0,
    };

    /// The same with the place of one more cell.
    fn with(self, cell: Option<Cell>) -> Range
        ensures holds { Lies 0 result.least result.most cell }
        ensures least { result.least ≤ self.least }
        ensures most { self.most ≤ result.most }
    {
        match cell {
            Some(kept) => Range {
                least: self.least.min(kept.place),
                most: self.most.max(kept.place),
            },
            None => self,
        }
    }
}
