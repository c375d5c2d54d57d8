//! Where a place goes when its text changes: the rule for markers, overlays, bounds and kept places alike. Places count
//! from 0.
ghost use Rattle.std.specs.Prelude.{◌≡◌, ◌+◌, ◌≤◌};
ghost use Rattle.text_model.specs.Places as places;

/// Where `place` stands after `n` characters were put in at `at`. A place just there goes behind them where it
/// `advances` (GNU Emacs Lisp Reference Manual, Marker Insertion Types). `n` plus the place is at most the last `usize`.
pub fn place_after_insert(at: usize, n: usize, advances: bool, place: usize) -> usize
    requires { n + place ≤ usize.MAX }
    ensures { result ≡ places.after_insert at n advances place }
{
    if place < at || (place == at && !advances) {
        place
    } else {
        place + n
    }
}

/// Where `place` stands after the part from `from` to `to`, which isn't smaller, was deleted.
pub fn place_after_delete(from: usize, to: usize, place: usize) -> usize
    requires { from ≤ to }
    ensures { result ≡ places.after_delete from to place }
{
    if place <= from {
        place
    } else if place < to {
        from
    } else {
        place - (to - from)
    }
}
