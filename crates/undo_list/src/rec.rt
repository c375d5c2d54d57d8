//! Records of changes.
ghost use Rattle.std.specs.Prelude.{◌≡◌, ◌^◌, ◌<◌, ◌+◌, if◌then◌else◌};
ghost use Rattle.text_model.specs.Undo.{is_boundary, lies_inside, max_after, ends_at};
ghost use Rattle.undo_list.specs.Records.{rec_of, size_of, lengthened};

use ek_types::{Copied, Mem, Piece, PropVal, Sym};

/// One record of a change (GNU Emacs Lisp Reference Manual, Undo). Places count from 0.
#[derive(Drop)]
pub enum Rec {
    /// The end of a group of records that are undone together.
    Boundary,
    /// Where point stood before the change.
    Point(usize),
    /// Text was put in, from the first place to the second.
    Inserted(usize, usize),
    /// This text was deleted at a place.
    Deleted(Piece, usize),
    /// The property had this value, or none, from the first place to the second.
    Prop(Sym, Option<PropVal>, usize, usize),
    /// The buffer wasn't modified before.
    First,
    /// A deletion moved the marker of this number. Where the marker goes as the text is put back (in front of the text,
    /// or behind it where it advances), less this, is where it stood.
    Moved(u32, i64),
}

impl Copied for Rec {
    ghost use Rattle.text_model.specs.Undo as undo;
    ghost use Rattle.undo_list.specs.Records.{rec_of};

    ghost Seen = { undo.Rec };

    ghost seen = { rec_of };

    fn copy(&self) -> Mem<Rec> {
        match self {
            Rec::Boundary => Ok(Rec::Boundary),
            Rec::Point(place) => Ok(Rec::Point(*place)),
            Rec::Inserted(from, to) => Ok(Rec::Inserted(*from, *to)),
            Rec::Deleted(piece, place) => Ok(Rec::Deleted(piece.copy()?, *place)),
            Rec::Prop(name, Some(old), from, to) => Ok(Rec::Prop(
                *name,
                Some(old.copy()?),
                *from,
                *to,
            )),
            Rec::Prop(name, None, from, to) => Ok(Rec::Prop(*name, None, *from, *to)),
            Rec::First => Ok(Rec::First),
            Rec::Moved(marker, adjustment) => Ok(Rec::Moved(*marker, *adjustment)),
        }
    }
}

impl Rec {
    pub(crate) fn is_boundary(&self) -> bool
        ensures { result ≡ is_boundary (rec_of self.now) }
    {
        matches!(self, Rec::Boundary)
    }

    /// How many characters of deleted text it keeps.
    pub(crate) fn size(&self) -> usize
        ensures { result ≡ size_of (rec_of self.now) }
    {
        match self {
            Rec::Deleted(piece, _) => piece.len(),
            _ => 0,
        }
    }

    /// Whether its places lie from `min` to `max`.
    pub(crate) fn lies_inside(&self, min: usize, max: u128) -> bool
        ensures { result ≡ lies_inside min max (rec_of self.now) }
    {
        match self {
            Rec::Inserted(from, to) | Rec::Prop(_, _, from, to) => min <= *from
                && *to as u128 <= max,
            Rec::Deleted(_, place) | Rec::Point(place) => min <= *place && *place as u128 <= max,
            Rec::Boundary | Rec::First | Rec::Moved(..) => true,
        }
    }

    /// What `max` is once the record is undone: an insertion is taken out, and a deletion's text comes back.
    pub(crate) fn max_after(&self, max: u128) -> u128
        requires { max + 2 ^ 64 < 2 ^ 128 }
        ensures exact { result ≡ max_after max (rec_of self.now) }
        ensures bound { result < max + 2 ^ 64 }
    {
        match self {
            Rec::Inserted(from, to) => max.saturating_sub(to.saturating_sub(*from) as u128),
            Rec::Deleted(piece, _) => max + piece.len() as u128,
            _ => max,
        }
    }

    /// Extends an insertion that ended at `from` to `to`, and says whether it was one.
    pub(crate) fn extend(&mut self, from: usize, to: usize) -> bool
        ensures extends { result ≡ ends_at from (rec_of self.old) }
        ensures rec { rec_of self.new ≡ (if result then lengthened to (rec_of self.old) else
            rec_of self.old) }
    {
        match self {
            Rec::Inserted(_, end) if *end == from => {
                *end = to;
                true
            }
            _ => false,
        }
    }
}
