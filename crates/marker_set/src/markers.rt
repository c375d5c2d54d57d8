//! All markers of a run, by number.
ghost use Rattle.std.specs.Prelude.{◌≡◌, ◌+◌, ◌-◌, ◌^◌, ◌<◌, ◌≤◌, true, false, [], ◌∷◌};
ghost use Rattle.std.specs.Prelude.{◌++◌, length, map, slice_set, All, Some};
ghost use Rattle.std.specs.Prelude.{None, OnOk, OnErr, IfOk, IfSome, vec_capacity};
ghost use Rattle.text_model.specs.Marks.{move_marker, marker_left, insertion, deletion};
ghost use Rattle.marker_set.specs.Numbered.{nowhere, marker_at, spot_of, points_into};
ghost use Rattle.marker_set.specs.Numbered.{numbers_within, HasRoomFor};
ghost use Rattle.marker_set.specs.Changes.{moved_by, CanMoveIn};
ghost use Rattle.marker_set.specs.Blocks.{IsFree, moved_block, CanMoveBlock};
ghost use Rattle.marker_set.specs.Homes.{moved_slot, CanMoveSlot, IsNotAlone};

use crate::change::Change;
use crate::choice::{chosen, crowded, has_two_spares, partner, roomy_nearest, stays_in};
use crate::part::{CELLS, Part};
use crate::room::{Room, move_to};
use crate::search::{found_alone, found_parts};
use crate::slot::{Home, Slot};
use ek_types::Mem;
use std::alloc::Global;
use std::marker::Model;

/// As many parts as there may be whatever the number of markers: one for the markers of each kind in each buffer.
const FEWEST_PARTS: usize = 512;

/// Markers by number, from 0 in the order in which they were made. Places count from 0.
///
/// Those of one buffer that lie near one another are kept in one part, so that a change moves them together. One for
/// which no part has room is kept alone.
#[derive(Drop)]
pub struct Markers {
    slots: Vec<Slot>,
    parts: Vec<Part>,
    some_alone: bool,
}

impl Model for Markers {
    ghost use Rattle.std.specs.Prelude.{List, map};
    ghost use Rattle.text_model.specs.Marks.{Marker};

    ghost Value = { List Marker };

    ghost use Rattle.marker_set.specs.Homes.{marker_in, Kept};

    ghost view = { λ a. map (marker_in a.parts.items) a.slots.items };

    ghost invariant = { λ a. Kept a.parts.items a.slots.items a.some_alone };
}

impl Markers {
    /// No markers yet, and no memory taken.
    pub fn new(alloc: Global) -> Markers
        ensures { result ≡ [] }
    {
        Markers {
            slots: Vec::new(alloc),
            parts: Vec::new(alloc),
            some_alone: false,
        }
    }

    /// How many were made.
    pub fn count(&self) -> u32
        ensures { result ≡ length self.now }
    {
        self.slots.len() as u32
    }

    /// Makes a marker that points nowhere and doesn't advance, and gives its number. A refusal leaves all markers as
    /// they were.
    pub fn make(&mut self) -> Mem<u32>
        requires { length self.old < 2 ^ 32 - 1 }
        ensures number { IfOk result (λ k. k ≡ length self.old) }
        ensures ok { OnOk result (self.new ≡ self.old ++ nowhere ∷ []) }
        ensures err { OnErr result (self.new ≡ self.old) }
    {
        self.have_spare()?;
        self.slots.reserve(1)?;
        let number = self.slots.len() as u32;
        self.slots.push_reserved(Slot::NOWHERE);
        Ok(number)
    }

    /// Takes all the memory that one marker more needs.
    pub fn reserve(&self) -> Mem<Room>
        ensures { IfOk result (λ room. room ≡ length self.now + 1) }
    {
        let alloc = *self.slots.allocator();
        if self.lacks_part() {
            Room::with_part(alloc, self.slots.len() + 1, self.parts.len() + 1)
        } else {
            Room::new(alloc, self.slots.len() + 1)
        }
    }

    /// Makes a marker that points nowhere and doesn't advance, in the room that was reserved for it, and gives its
    /// number. It takes no memory.
    pub fn make_reserved(&mut self, room: Room) -> u32
        requires few { length self.old < 2 ^ 32 - 1 }
        requires fits { length self.old < room }
        ensures number { result ≡ length self.old }
        ensures markers { self.new ≡ self.old ++ nowhere ∷ [] }
    {
        let number = self.count();
        let Room { slots, part, parts } = room;
        self.add_reserved(part, parts);
        self.settle();
        self.make_in(slots);
        number
    }

    /// Makes one more marker in room, into which all markers are moved.
    fn make_in(&mut self, room: Vec<Slot>)
        requires empty { room.items ≡ [] }
        requires few { length self.old < 2 ^ 32 - 1 }
        requires fits { length self.old < vec_capacity room }
        ensures { self.new ≡ self.old ++ nowhere ∷ [] }
    {
        move_to(&mut self.slots, room);
        self.slots.push_reserved(Slot::NOWHERE);
    }

    /// Adds an empty part where there is room for all parts, into which these are moved.
    fn add_reserved(&mut self, part: Option<Part>, room: Vec<Part>)
        requires free { IfSome part IsFree }
        requires empty { room.items ≡ [] }
        ensures { self.new ≡ self.old }
    {
        let Some(part) = part else {
            return;
        };
        if room.capacity() <= self.parts.len() {
            return;
        }
        move_to(&mut self.parts, room);
        self.parts.push_reserved(part);
    }

    /// Whether fewer than two parts are empty, and there aren't many for so few markers: a marker may be set, and then
    /// be told whether it advances. Whatever this says, markers point where they should.
    fn lacks_part(&self) -> bool {
        let few = self.parts.len() < FEWEST_PARTS + self.slots.len() / (CELLS / 8);
        few && !has_two_spares(self.parts.as_slice())
    }

    /// Takes memory for one more part where it is wanted.
    fn have_spare(&mut self) -> Mem<()>
        ensures { self.new ≡ self.old }
    {
        if self.lacks_part() {
            self.add_part()?;
            self.settle();
        }
        Ok(())
    }

    /// Adds an empty part.
    fn add_part(&mut self) -> Mem<()>
        ensures { self.new ≡ self.old }
    {
        self.parts.reserve(1)?;
        let part = Part::new(*self.slots.allocator())?;
        self.parts.push_reserved(part);
        Ok(())
    }

    /// Takes markers that are kept alone into the part that was added last, as far as it takes them.
    fn settle(&mut self)
        ensures { self.new ≡ self.old }
    {
        let parts = self.parts.len();
        if !self.some_alone || parts == 0 {
            return;
        }
        for k in 0..self.count() {
            self.settle_one(k, parts - 1);
        }
    }

    /// Takes marker `k` into a part, where it is kept alone and the part takes it.
    fn settle_one(&mut self, k: u32, part: usize)
        requires { k < length self.old }
        ensures { self.new ≡ self.old }
    {
        if self.slots[k as usize].is_alone() && self.has_room(part) {
            self.rehouse(k, part);
        }
    }

    /// Whether a part has an empty cell.
    fn has_room(&self, part: usize) -> bool {
        part < self.parts.len() && self.parts[part].taken() < CELLS
    }

    /// Takes marker `k` into a part, if that takes it. It points where it did.
    fn rehouse(&mut self, k: u32, part: usize)
        requires { k < length self.old }
        ensures { self.new ≡ self.old }
    {
        let Some(spot) = self.place(k) else {
            return;
        };
        self.leave(k as usize);
        if !self.enter(k as usize, Some(part), spot) {
            self.stand_alone(k as usize, spot);
        }
    }

    /// Where marker `k` points: a buffer and a place in it, or nowhere.
    pub fn place(&self, k: u32) -> Option<(u32, usize)>
        requires { k < length self.now }
        ensures { spot_of result ≡ (marker_at self.now k).spot }
    {
        match self.slots[k as usize].home {
            Home::Nowhere => None,
            Home::Alone { buffer, place } => Some((buffer, place)),
            Home::Packed { part, cell } => self.parts[part].spot(cell),
        }
    }

    /// Points marker `k` to a place in a buffer, or nowhere. Whether it advances stays as it was.
    pub fn set(&mut self, k: u32, to: Option<(u32, usize)>)
        requires { k < length self.old }
        ensures { self.new ≡ slice_set self.old k
            (record (marker_at self.old k) { spot = spot_of to }) }
    {
        let home = self.slots[k as usize].home;
        let stays = self.part_kept(k as usize, to);
        self.leave(k as usize);
        match to {
            Some(spot) => self.put(k as usize, home, stays, spot),
            None => self.join_small(home),
        }
    }

    /// The part that marker `k` stays in as it is pointed to a place, if it does.
    fn part_kept(&self, k: usize, to: Option<(u32, usize)>) -> Option<usize>
        requires { k < length self.now }
    {
        let slot = self.slots[k];
        let Home::Packed { part, .. } = slot.home else {
            return None;
        };
        let spot = to?;
        if stays_in(self.parts.as_slice(), part, slot.advances, spot) {
            Some(part)
        } else {
            None
        }
    }

    /// Points marker `k`, which points nowhere since it left its home, to a place in a buffer: in the part that it stays
    /// in, or else in another or alone.
    fn put(&mut self, k: usize, left: Home, stays: Option<usize>, spot: (u32, usize))
        requires made { k < length self.old }
        requires free { (marker_at self.old k).spot ≡ None }
        ensures { self.new ≡ slice_set self.old k
            (record (marker_at self.old k) { spot = spot_of (Some spot) }) }
    {
        if self.enter(k, stays, spot) {
            return;
        }
        self.join_small(left);
        self.join(k, spot);
    }

    /// Points marker `k` nowhere, out of its part.
    fn leave(&mut self, k: usize)
        requires { k < length self.old }
        ensures { self.new ≡ slice_set self.old k (record (marker_at self.old k) { spot = None }) }
    {
        if let Home::Packed { part, cell } = self.slots[k].home {
            self.slots[k].home = Home::Nowhere;
            self.parts[part].clear(cell);
        } else {
            self.slots[k].home = Home::Nowhere;
        }
    }

    /// Points marker `k`, which points nowhere, to a place in a buffer: in a part with room, or else alone.
    fn join(&mut self, k: usize, spot: (u32, usize))
        requires made { k < length self.old }
        requires free { (marker_at self.old k).spot ≡ None }
        ensures { self.new ≡ slice_set self.old k
            (record (marker_at self.old k) { spot = spot_of (Some spot) }) }
    {
        let advances = self.slots[k].advances;
        let part = self.part_for(advances, spot);
        if !self.enter(k, part, spot) {
            self.stand_alone(k, spot);
        }
    }

    /// Points marker `k`, which points nowhere, to a place in a buffer, and keeps it in a part if that takes it. Says
    /// whether it did.
    fn enter(&mut self, k: usize, part: Option<usize>, spot: (u32, usize)) -> bool
        requires made { k < length self.old }
        requires free { (marker_at self.old k).spot ≡ None }
        ensures put { result ≡ true → self.new ≡ slice_set self.old k
            (record (marker_at self.old k) { spot = spot_of (Some spot) }) }
        ensures left { result ≡ false → self.new ≡ self.old }
    {
        let Some(part) = part else {
            return false;
        };
        if part >= self.parts.len() {
            return false;
        }
        let advances = self.slots[k].advances;
        let Some(cell) = self.parts[part].take(k as u32, advances, spot) else {
            return false;
        };
        self.slots[k].home = Home::Packed { part, cell };
        true
    }

    /// Points marker `k`, which points nowhere, to a place in a buffer, in no part.
    fn stand_alone(&mut self, k: usize, spot: (u32, usize))
        requires made { k < length self.old }
        requires free { (marker_at self.old k).spot ≡ None }
        ensures { self.new ≡ slice_set self.old k
            (record (marker_at self.old k) { spot = spot_of (Some spot) }) }
    {
        self.some_alone = true;
        self.slots[k].home = Home::Alone {
            buffer: spot.0,
            place: spot.1,
        };
    }

    /// The part that a marker is put into. The nearest is split before, where it is full and another is empty.
    fn part_for(&mut self, advances: bool, spot: (u32, usize)) -> Option<usize>
        ensures { self.new ≡ self.old }
    {
        let near = roomy_nearest(self.parts.as_slice(), advances, spot);
        if near.is_some() {
            return near;
        }
        self.make_room(advances, spot);
        chosen(self.parts.as_slice(), advances, spot)
    }

    /// Splits the part that is nearest to a spot, where it is full and another is empty.
    fn make_room(&mut self, advances: bool, spot: (u32, usize))
        ensures { self.new ≡ self.old }
    {
        let Some((part, middle, spare)) = crowded(self.parts.as_slice(), advances, spot) else {
            return;
        };
        for cell in 0..CELLS {
            self.shift(part, cell, Some(middle), spare);
        }
        self.narrow(part);
    }

    /// Finds closer bounds for a part. The markers stay.
    fn narrow(&mut self, part: usize)
        ensures { self.new ≡ self.old }
    {
        if part < self.parts.len() {
            self.parts[part].narrow();
        }
    }

    /// Puts the markers of a part in which few are left into another near them.
    fn join_small(&mut self, left: Home)
        ensures { self.new ≡ self.old }
    {
        let Home::Packed { part, .. } = left else {
            return;
        };
        let Some(other) = partner(self.parts.as_slice(), part) else {
            return;
        };
        for cell in 0..CELLS {
            self.shift(part, cell, None, other);
        }
    }

    /// Takes the marker of a cell to another part, where it lies behind a place, if one is given.
    fn shift(&mut self, part: usize, cell: usize, middle: Option<usize>, spare: usize)
        ensures { self.new ≡ self.old }
    {
        if part >= self.parts.len() {
            return;
        }
        let Some(k) = self.parts[part].behind(cell, middle) else {
            return;
        };
        self.rehouse(k, spare);
    }

    /// Whether marker `k` advances at an insertion.
    pub fn kind(&self, k: u32) -> bool
        requires { k < length self.now }
        ensures { result ≡ (marker_at self.now k).advances }
    {
        self.slots[k as usize].advances
    }

    /// Says whether marker `k` advances at an insertion.
    pub fn set_kind(&mut self, k: u32, after: bool)
        requires { k < length self.old }
        ensures { self.new ≡ slice_set self.old k (record (marker_at self.old k) { advances = after }) }
    {
        let spot = self.place(k);
        self.leave(k as usize);
        self.turn(k as usize, after);
        self.set(k, spot);
    }

    /// Says whether marker `k`, which points nowhere, advances at an insertion.
    fn turn(&mut self, k: usize, after: bool)
        requires made { k < length self.old }
        requires free { (marker_at self.old k).spot ≡ None }
        ensures { self.new ≡ slice_set self.old k (record (marker_at self.old k) { advances = after }) }
    {
        self.slots[k].advances = after;
    }

    /// `n` characters were put in at `at` of a buffer: its markers behind `at` go on by `n`, and so do those just there
    /// which advance, or all of these where `all` is said.
    pub fn note_insert(&mut self, buffer: u32, at: usize, n: usize, all: bool)
        requires { All (HasRoomFor buffer n) self.old }
        ensures { self.new ≡ map (move_marker buffer all (insertion at n)) self.old }
    {
        self.note(buffer, Change::Insertion { at, n, all });
    }

    /// The part from `from` to `to` of a buffer was deleted: its markers in the part go to `from`, and those behind
    /// it come nearer.
    pub fn note_delete(&mut self, buffer: u32, from: usize, to: usize)
        requires { from ≤ to }
        ensures { self.new ≡ map (move_marker buffer false (deletion from to)) self.old }
    {
        self.note(buffer, Change::Deletion { from, to });
    }

    /// A buffer's text was changed: its markers move, part by part.
    fn note(&mut self, buffer: u32, change: Change)
        requires { All (CanMoveIn buffer change) self.old }
        ensures { self.new ≡ map (moved_by buffer change) self.old }
    {
        note_parts(self.parts.as_mut_slice(), buffer, change);
        if self.some_alone {
            note_alone(self.slots.as_mut_slice(), buffer, change);
            self.look_for_alone();
        }
    }

    /// Looks whether a marker is still kept alone.
    fn look_for_alone(&mut self)
        ensures { self.new ≡ self.old }
    {
        let some_alone = any_alone(self.slots.as_slice());
        self.some_alone = some_alone;
    }

    /// The markers of a buffer that stand between two places or at one of them, by rising number.
    pub fn within(&self, buffer: u32, from: usize, to: usize) -> Mem<Vec<u32>>
        ensures { IfOk result (λ numbers. numbers.items ≡ numbers_within buffer from to self.now) }
    {
        let mut numbers = Vec::new(*self.slots.allocator());
        let parts = self.parts.as_slice();
        found_parts(parts, buffer, from, to, &mut numbers)?;
        let slots = self.slots.as_slice();
        found_alone(slots, self.some_alone, buffer, from, to, &mut numbers)?;
        numbers.sort_unstable();
        Ok(numbers)
    }

    /// A buffer was killed: its markers point nowhere. Whether they advance stays as it was.
    pub fn drop_buffer(&mut self, buffer: u32)
        ensures { self.new ≡ map (marker_left buffer) self.old }
    {
        for k in 0..self.count() {
            self.leave_killed(k, buffer);
        }
    }

    /// Points marker `k` nowhere where it points into a killed buffer.
    fn leave_killed(&mut self, k: u32, buffer: u32)
        requires { k < length self.old }
        ensures { self.new ≡ slice_set self.old k (marker_left buffer (marker_at self.old k)) }
    {
        let spot = self.place(k);
        if lies_in(buffer, spot) {
            self.leave(k as usize);
        }
    }

    /// Markers of their own that stand alike.
    pub fn copy(&self) -> Mem<Markers>
        ensures { IfOk result (λ copy. copy ≡ self.now) }
    {
        let alloc = *self.slots.allocator();
        let slots = Vec::from_slice(alloc, self.slots.as_slice())?;
        let parts = copy_parts(alloc, self.parts.as_slice())?;
        Ok(Markers {
            slots,
            parts,
            some_alone: self.some_alone,
        })
    }
}

/// Whether a spot lies in a buffer.
fn lies_in(buffer: u32, spot: Option<(u32, usize)>) -> bool
    ensures { result ≡ points_into buffer (spot_of spot) }
{
    spot.is_some_and(|(own, _)| own == buffer)
}

/// Moves the markers of all parts.
fn note_parts(parts: &mut [Part], buffer: u32, change: Change)
    requires { All (CanMoveBlock buffer change) parts.old }
    ensures { parts.new ≡ map (moved_block buffer change) parts.old }
{
    for part in parts.iter_mut() {
        part.note(buffer, change);
    }
}

/// Moves the markers that are kept alone.
fn note_alone(slots: &mut [Slot], buffer: u32, change: Change)
    requires { All (CanMoveSlot buffer change) slots.old }
    ensures { slots.new ≡ map (moved_slot buffer change) slots.old }
{
    for slot in slots.iter_mut() {
        *slot = slot.moved(buffer, change);
    }
}

/// Whether a marker is kept alone.
fn any_alone(slots: &[Slot]) -> bool
    ensures { result ≡ false → All IsNotAlone slots.now }
{
    for slot in slots.iter() {
        if slot.is_alone() {
            return true;
        }
    }
    false
}

/// The same parts again.
fn copy_parts(alloc: Global, parts: &[Part]) -> Mem<Vec<Part>>
    ensures { IfOk result (λ copy. copy.items ≡ parts.now) }
{
    let mut copy = Vec::new(alloc);
    for part in parts.iter() {
        copy.push(part.copy()?)?;
    }
    Ok(copy)
}
