//! What is proved of the definitions that the contracts cite.
ghost use Rattle.std.specs.Prelude.{◌≡◌, ℕ, ◌≤◌, true, false, List, [], ◌∷◌, ◌++◌, length};
ghost use Rattle.text_model.specs.Undo.{Entry, is_boundary, has_boundary, without_oldest_group};
ghost use Rattle.text_model.specs.Undo.{fits, cut};

/// The oldest group is what stands behind the last boundary of a list, and that boundary goes with it. Of a list without
/// a boundary nothing is left.
#[tactic(auto, using(crate::proofs::Groups::group_goes, crate::proofs::Groups::all_goes))]
pub fn the_oldest_group_goes_with_its_boundary()
    ensures group { (front group : List Entry) (boundary : Entry) →
        is_boundary boundary.what ≡ true → has_boundary group ≡ false →
        without_oldest_group (front ++ boundary ∷ group) ≡ front }
    ensures alone { (group : List Entry) → has_boundary group ≡ false →
        without_oldest_group group ≡ [] }
{}

/// A list within the limits is left as it is, of another one the oldest group goes first, and what is left in the end is
/// within the limits: as many turns as there are records are enough.
#[tactic(auto, using(crate::proofs::Groups::cut_within, crate::proofs::Groups::cut_over, crate::proofs::Groups::cut_fits))]
pub fn cutting_ends_within_the_limits()
    ensures within { (turns : ℕ) (entries : List Entry) → fits entries ≡ true →
        cut turns entries ≡ entries }
    ensures over { (turns : ℕ) (entries : List Entry) → length entries ≤ turns →
        fits entries ≡ false → cut turns entries ≡ cut turns (without_oldest_group entries) }
    ensures fits { (turns : ℕ) (entries : List Entry) → length entries ≤ turns →
        fits (cut turns entries) ≡ true }
{}
