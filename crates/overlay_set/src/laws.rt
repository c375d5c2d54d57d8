//! What is proved of the definitions that the contracts cite.
ghost use Rattle.std.specs.Prelude.{◌≡◌, ℕ, ◌≤◌, Bool, true, false, [], List, Some, None, Contains};
ghost use Rattle.std.specs.Prelude.{All, ◌⊎◌};
ghost use Rattle.text_model.specs.Marks.{Overlay, move_overlay, evaporated, insertion, deletion};
ghost use Rattle.text_model.specs.OverlayQuestions.{winner};
ghost use Rattle.overlay_set.specs.Rivals.{wins_over, rivals};
ghost use Rattle.overlay_set.specs.Forward.{IsForward};

/// The winner is one of the overlays that cover the position and have the property, and it wins over each other one of
/// these. There is no winner only where there is no such overlay.
#[tactic(auto, using(crate::proofs::RivalLemmas::no_winner, crate::proofs::RivalLemmas::winner_wins))]
pub fn the_winner_wins_over_each_other()
    ensures none { (buffer position name : ℕ) (overlays : List Overlay) →
        winner buffer position name overlays ≡ None → rivals buffer position name overlays ≡ [] }
    ensures one { (buffer position name : ℕ) (overlays : List Overlay) (best : ℕ × Overlay) →
        winner buffer position name overlays ≡ Some best →
        Contains (rivals buffer position name overlays) best }
    ensures wins { (buffer position name : ℕ) (overlays : List Overlay) (best : ℕ × Overlay) →
        winner buffer position name overlays ≡ Some best →
        All (λ o. (o.0 ≡ best.0) ⊎ (wins_over best o ≡ true))
        (rivals buffer position name overlays) }
{}

/// No insertion and no deletion takes the start of an overlay past its end.
#[tactic(auto, using(crate::proofs::ForwardLemmas::insertion_keeps, crate::proofs::ForwardLemmas::deletion_keeps))]
pub fn overlays_keep_their_ends_in_order()
    ensures insertion { (buffer at n : ℕ) (all : Bool) (o : Overlay) → IsForward o →
        IsForward (move_overlay buffer all (insertion at n) o) }
    ensures deletion { (buffer from to : ℕ) (o : Overlay) → from ≤ to → IsForward o →
        IsForward (evaporated buffer (move_overlay buffer false (deletion from to) o)) }
{}
