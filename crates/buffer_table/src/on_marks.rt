//! Calls on markers, overlays and kept places.
ghost use Rattle.std.specs.Prelude.{◌≡◌, ◌↔◌, ◌+◌, ◌-◌, ◌^◌, ◌<◌, ◌≤◌, [], ◌∷◌};
ghost use Rattle.std.specs.Prelude.{length, Some, None, IsNone, IfNone, IfSome, IfOk, OnOk};
ghost use Rattle.std.specs.Prelude.{OnErr, option_map};
ghost use Rattle.text_model.specs.Properties.{put};
ghost use Rattle.editor_model.specs.Editor.{marker_of, with_marker};
ghost use Rattle.editor_model.specs.Editor.{set_marker_spot, change_marker, overlay_of};
ghost use Rattle.editor_model.specs.Editor.{with_overlay, change_overlay};
ghost use Rattle.ek_types.specs.Property.{prop_of};
ghost use Rattle.marker_set.specs.Numbered.{nowhere, spot_of};
ghost use Rattle.overlay_set.specs.Numbered.{span_at, span_of, given_of};
ghost use Rattle.narrow_region.specs.Kept.{head_of, kept_of, buffer_of, last_place, IsOrdered};
ghost use Rattle.buffer_table.specs.Kept.{Named, Lives, editor_of};
ghost use Rattle.buffer_table.specs.Places.{IsPlace, IsKeptPlace, IsKeptIn, with_marks};

use crate::editor::Editor;
use buffer_core::Marks;
use ek_types::{Mem, PropVal, Sym};
use marker_set::Room;
use narrow_region::Saved;

/// The buffer of a kept place.
fn buffer_of(saved: &Saved) -> u32
    ensures { result ≡ buffer_of (kept_of saved.now) }
{
    match saved {
        Saved::Excursion(buffer, _) => *buffer,
        Saved::Restriction(buffer, _) => *buffer,
        Saved::Change(buffer, _, _) => *buffer,
    }
}

impl Editor {
    /// The markers, overlays and kept places.
    pub fn marks(&self) -> &Marks
        ensures { result.now ≡ (editor_of self.now).marks }
    {
        &self.marks
    }

    /// Makes a marker that points nowhere and doesn't advance, and gives its number. A refusal leaves the editor as
    /// it was.
    pub fn make_marker(&mut self) -> Mem<u32>
        requires { length (editor_of self.old).marks.markers < 2 ^ 32 - 1 }
        ensures number { IfOk result (λ k. k ≡ length (editor_of self.old).marks.markers) }
        ensures ok { OnOk result (editor_of self.new ≡ with_marker nowhere (editor_of self.old)) }
        ensures err { OnErr result (editor_of self.new ≡ editor_of self.old) }
    {
        let marks = &mut self.marks;
        marks.markers.make()
    }

    /// Takes all the memory that one marker more needs.
    pub fn reserve_marker(&self) -> Mem<Room>
        ensures { IfOk result (λ room. room ≡ length (editor_of self.now).marks.markers + 1) }
    {
        self.marks.markers.reserve()
    }

    /// Makes a marker that points nowhere and doesn't advance, in the room that was reserved for it, and gives its
    /// number. It takes no memory.
    pub fn make_marker_reserved(&mut self, room: Room) -> u32
        requires few { length (editor_of self.old).marks.markers < 2 ^ 32 - 1 }
        requires fits { length (editor_of self.old).marks.markers < room }
        ensures number { result ≡ length (editor_of self.old).marks.markers }
        ensures editor { editor_of self.new ≡ with_marker nowhere (editor_of self.old) }
    {
        let marks = &mut self.marks;
        marks.markers.make_reserved(room)
    }

    /// How many markers were made.
    pub fn marker_count(&self) -> u32
        ensures { result ≡ length (editor_of self.now).marks.markers }
    {
        self.marks.markers.count()
    }

    /// Where marker `k` points: a live buffer and a place in its text, or nowhere.
    pub fn spot(&self, k: u32) -> Option<(u32, usize)>
        requires { k < length (editor_of self.now).marks.markers }
        ensures shown { spot_of result ≡ (marker_of (editor_of self.now) k).spot }
        ensures place { IfSome result (λ p. IsPlace (editor_of self.now) p.0 p.1) }
    {
        match self.marks.markers.place(k) {
            Some((id, place)) => {
                // Read for what it ensures: each character has a property set.
                let _size = self.size(id);
                Some((id, place))
            }
            None => None,
        }
    }

    /// Points marker `k` to a place in a live buffer, or nowhere. Whether it advances stays as it was.
    pub fn set_marker(&mut self, k: u32, to: Option<(u32, usize)>)
        requires made { k < length (editor_of self.old).marks.markers }
        requires place { IfSome to (λ p. IsPlace (editor_of self.old) p.0 p.1) }
        ensures { editor_of self.new ≡ set_marker_spot k (spot_of to) (editor_of self.old) }
    {
        let marks = &mut self.marks;
        marks.markers.set(k, to);
    }

    /// Says whether marker `k` advances at an insertion.
    pub fn set_marker_kind(&mut self, k: u32, after: bool)
        requires { k < length (editor_of self.old).marks.markers }
        ensures { editor_of self.new ≡ change_marker k (λ m. record m { advances = after })
            (editor_of self.old) }
    {
        let marks = &mut self.marks;
        marks.markers.set_kind(k, after);
    }

    /// Makes an overlay without properties from place `from` to place `to` of a live buffer, and gives its number.
    /// `front` and `rear` say whether its start and its end go behind text put in just there. A refusal leaves the
    /// editor as it was.
    pub fn make_overlay(
        &mut self,
        id: u32,
        from: usize,
        to: usize,
        front: bool,
        rear: bool,
    ) -> Mem<u32>
        requires room { length (editor_of self.old).marks.overlays < 2 ^ 32 - 1 }
        requires order { from ≤ to }
        requires place { IsPlace (editor_of self.old) id to }
        ensures number { IfOk result (λ k. k ≡ length (editor_of self.old).marks.overlays) }
        ensures ok { OnOk result (editor_of self.new ≡
            with_overlay (record {
              span = Some (span_at (id, from, to));
              front_advance = front;
              rear_advance = rear;
              props = [];
            }) (editor_of self.old)) }
        ensures err { OnErr result (editor_of self.new ≡ editor_of self.old) }
    {
        let marks = &mut self.marks;
        marks.overlays.make(id, from, to, front, rear)
    }

    /// How many overlays were made.
    pub fn overlay_count(&self) -> u32
        ensures { result ≡ length (editor_of self.now).marks.overlays }
    {
        self.marks.overlays.count()
    }

    /// Where overlay `k` stands: a live buffer and two places in its text, or nowhere.
    pub fn span(&self, k: u32) -> Option<(u32, usize, usize)>
        requires { k < length (editor_of self.now).marks.overlays }
        ensures shown { span_of result ≡ (overlay_of (editor_of self.now) k).span }
        ensures start { IfSome result (λ p. IsPlace (editor_of self.now) p.0 p.1) }
        ensures end { IfSome result (λ p. IsPlace (editor_of self.now) p.0 p.2) }
    {
        match self.marks.overlays.span(k) {
            Some((id, from, to)) => {
                // Read for what it ensures: each character has a property set.
                let _size = self.size(id);
                Some((id, from, to))
            }
            None => None,
        }
    }

    /// Puts overlay `k` from place `from` to place `to` of a live buffer. A refusal leaves the editor as it was.
    pub fn move_overlay(&mut self, k: u32, id: u32, from: usize, to: usize) -> Mem<()>
        requires made { k < length (editor_of self.old).marks.overlays }
        requires order { from ≤ to }
        requires place { IsPlace (editor_of self.old) id to }
        ensures ok { OnOk result (editor_of self.new ≡
            change_overlay k (λ o. record o { span = Some (span_at (id, from, to)) })
            (editor_of self.old)) }
        ensures err { OnErr result (editor_of self.new ≡ editor_of self.old) }
    {
        let marks = &mut self.marks;
        marks.overlays.shift(k, id, from, to)
    }

    /// Takes overlay `k` out of its buffer.
    pub fn remove_overlay(&mut self, k: u32)
        requires { k < length (editor_of self.old).marks.overlays }
        ensures { editor_of self.new ≡ change_overlay k (λ o. record o { span = None })
            (editor_of self.old) }
    {
        let marks = &mut self.marks;
        marks.overlays.remove(k);
    }

    /// Gives overlay `k` a property, or takes it away where `v` is none or nil. A refusal leaves the editor as it was.
    pub fn put_overlay(&mut self, k: u32, name: Sym, v: Option<&PropVal>) -> Mem<()>
        requires { k < length (editor_of self.old).marks.overlays }
        ensures ok { OnOk result (editor_of self.new ≡
            change_overlay k (λ o. record o
            { props = put o.props name.0 (given_of (option_map (λ p. prop_of p.now) v.entry)) })
            (editor_of self.old)) }
        ensures err { OnErr result (editor_of self.new ≡ editor_of self.old) }
    {
        let marks = &mut self.marks;
        marks.overlays.put(k, name, v)
    }

    /// Keeps places of a live buffer, whose ends stand in order. A refusal leaves the editor as it was.
    pub fn push_saved(&mut self, s: Saved) -> Mem<()>
        requires { IsKeptPlace (editor_of self.old) (kept_of s) }
        ensures ok { OnOk result (editor_of self.new ≡
            with_marks (λ m. record m { saved = kept_of s ∷ m.saved }) (editor_of self.old)) }
        ensures err { OnErr result (editor_of self.new ≡ editor_of self.old) }
    {
        let marks = &mut self.marks;
        marks.saved.push(s)
    }

    /// What was kept last; `None` where nothing is kept.
    pub fn last_saved(&self) -> Option<Saved>
        ensures { option_map kept_of result ≡ head_of (editor_of self.now).marks.saved }
    {
        self.marks.saved.last()
    }

    /// Takes away what was kept last, and gives it; `None` where nothing is kept. Its places lie in their text,
    /// unless the buffer was killed meanwhile; its ends stand in order in any case.
    #[inline(always)]
    pub fn pop_saved(&mut self) -> Option<Saved>
        ensures none { IsNone result ↔ ((editor_of self.old).marks.saved ≡ []) }
        ensures newest { IfSome result (λ s. editor_of self.old ≡
            with_marks (λ m. record m { saved = kept_of s ∷ m.saved }) (editor_of self.new)) }
        ensures unchanged { IfNone result (editor_of self.new ≡ editor_of self.old) }
        ensures place { IfSome result (λ s. IsKeptIn (editor_of self.new) (kept_of s)) }
        ensures ordered { IfSome result (λ s. IsOrdered (kept_of s)) }
    {
        match self.take_saved() {
            Some(saved) => {
                let buffer = buffer_of(&saved);
                // Read for what it ensures: each character has a property set.
                let _size = self.size(buffer);
                Some(saved)
            }
            None => None,
        }
    }

    /// The same, where places are measured by property sets.
    fn take_saved(&mut self) -> Option<Saved>
        ensures none { IsNone result ↔ ((editor_of self.old).marks.saved ≡ []) }
        ensures newest { IfSome result (λ s. editor_of self.old ≡
            with_marks (λ m. record m { saved = kept_of s ∷ m.saved }) (editor_of self.new)) }
        ensures unchanged { IfNone result (editor_of self.new ≡ editor_of self.old) }
        ensures within { IfSome result (λ s. (n : Named) →
            Lives self.new.buffers (buffer_of (kept_of s)) n →
            last_place (kept_of s) ≤ length n.buffer.sets) }
        ensures ordered { IfSome result (λ s. IsOrdered (kept_of s)) }
    {
        let marks = &mut self.marks;
        marks.saved.pop()
    }
}
