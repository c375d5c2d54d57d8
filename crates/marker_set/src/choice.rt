//! Where markers are put. Whatever is chosen, they point where they should; what is chosen well is found soon.

use crate::part::{CELLS, Part};

/// The part nearest to a spot of those for such markers, and of two that are as near one with room.
pub(crate) fn nearest(parts: &[Part], advances: bool, spot: (u32, usize)) -> Option<usize> {
    let mut best = None;
    let mut nearest = usize::MAX;
    for (i, part) in parts.iter().enumerate() {
        if let Some(distance) = part.distance(advances, spot) {
            if best.is_none()
                || distance < nearest
                || (distance == nearest && part.taken() < CELLS)
            {
                best = Some(i);
                nearest = distance;
            }
        }
    }
    best
}

/// A part with no markers.
pub(crate) fn spare(parts: &[Part]) -> Option<usize> {
    for (i, part) in parts.iter().enumerate() {
        if part.taken() == 0 {
            return Some(i);
        }
    }
    None
}

/// Whether two parts have no markers. The last are looked at first, since they are taken last.
pub(crate) fn has_two_spares(parts: &[Part]) -> bool {
    let mut has_one = false;
    for part in parts.iter().rev() {
        if part.taken() == 0 {
            if has_one {
                return true;
            }
            has_one = true;
        }
    }
    false
}

/// Whether a marker of a part stays in it as it goes to a place: one that lies among the part's markers, or that no other
/// part is nearer to.
pub(crate) fn stays_in(parts: &[Part], part: usize, advances: bool, spot: (u32, usize)) -> bool {
    let Some(own) = parts.get(part) else {
        return false;
    };
    own.distance(advances, spot) == Some(0) || nearest(parts, advances, spot) == Some(part)
}

/// The part nearest to a spot, where it has room.
pub(crate) fn roomy_nearest(parts: &[Part], advances: bool, spot: (u32, usize)) -> Option<usize> {
    let part = nearest(parts, advances, spot)?;
    if parts.get(part)?.taken() < CELLS {
        Some(part)
    } else {
        None
    }
}

/// A part for such markers that has room.
fn roomy(parts: &[Part], advances: bool, spot: (u32, usize)) -> Option<usize> {
    for (i, part) in parts.iter().enumerate() {
        if part.taken() < CELLS && part.distance(advances, spot).is_some() {
            return Some(i);
        }
    }
    None
}

/// The part that a marker is put into: the nearest, or another with room, or one with no markers.
pub(crate) fn chosen(parts: &[Part], advances: bool, spot: (u32, usize)) -> Option<usize> {
    match nearest(parts, advances, spot) {
        Some(part) if part < parts.len() && parts[part].taken() < CELLS => Some(part),
        Some(_) => spare(parts).or(roomy(parts, advances, spot)),
        None => spare(parts),
    }
}

/// Whether such markers stand on both sides of a spot. One that is put before or behind all others begins a new part, so
/// that markers which are made in order fill their parts.
fn lies_among(parts: &[Part], advances: bool, spot: (u32, usize)) -> bool {
    let mut before = false;
    let mut behind = false;
    for part in parts.iter() {
        if part.distance(advances, spot).is_some() {
            let (low, high) = part.sides(spot.1);
            before = before || low;
            behind = behind || high;
        }
    }
    before && behind
}

/// A full part to be split before a marker is put there: from which, at which place, and into which.
pub(crate) fn crowded(
    parts: &[Part],
    advances: bool,
    spot: (u32, usize),
) -> Option<(usize, usize, usize)> {
    let part = nearest(parts, advances, spot)?;
    if part >= parts.len() || parts[part].taken() < CELLS {
        return None;
    }
    if !lies_among(parts, advances, spot) {
        return None;
    }
    let middle = parts[part].middle()?;
    Some((part, middle, spare(parts)?))
}

/// How far a part is from a small one, if it is for such markers and has room for these and as many again.
fn room_beside(part: &Part, small: &Part) -> Option<usize> {
    if part.taken() <= CELLS / 2 {
        part.gap(small)
    } else {
        None
    }
}

/// Where few markers are left in a part: the nearest part for such markers that has room for these and as many again.
pub(crate) fn partner(parts: &[Part], small: usize) -> Option<usize> {
    let own = parts.get(small)?;
    if own.taken() == 0 || own.taken() > CELLS / 4 {
        return None;
    }
    let mut best = None;
    let mut nearest = usize::MAX;
    for (i, part) in parts.iter().enumerate() {
        if let Some(distance) = room_beside(part, own) {
            if i != small && (best.is_none() || distance < nearest) {
                best = Some(i);
                nearest = distance;
            }
        }
    }
    best
}
