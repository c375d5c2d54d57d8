//! What is proved of the definitions that the contracts cite.
ghost use Rattle.std.specs.Prelude.{◌≡◌, ℕ, Option, Some, None, IfSome, ◌&&◌, ◌||◌, not, if◌then◌else◌};
ghost use Rattle.std.specs.Option.{option_or};
ghost use Rattle.text_model.specs.Properties.{PropSet as Pairs, get};
ghost use Rattle.text_model.specs.Ordered.{IsOrdered};
ghost use Rattle.text_model.specs.Sticky.{inherited, offered_by_before, offered_by_after};
ghost use Rattle.text_model.specs.Sticky.{is_stickiness, names, front_sticky, rear_nonsticky};

/// A property that is inherited has the value that the character before offers, else the one that the character after
/// offers; it is absent where neither offers it.
#[tactic(auto, using(crate::proofs::Precedence::the_first_offered))]
pub fn the_character_before_comes_first()
    ensures { (before after : Option Pairs) (name : ℕ) → IfSome before IsOrdered →
        get (inherited before after) name ≡
        option_or (get (offered_by_before before) name) (get (offered_by_after after) name) }
{}

/// The character before offers each property that it has, but the stickiness properties and those that its
/// `rear-nonsticky` names; the character after offers those alone that its `front-sticky` names, but the stickiness
/// properties.
#[tactic(auto, using(crate::proofs::Precedence::offered_before, crate::proofs::Precedence::offered_after))]
pub fn what_neighbours_offer()
    ensures before { (set : Pairs) (name : ℕ) → get (offered_by_before (Some set)) name ≡
        (if is_stickiness name || names (get set rear_nonsticky) name then None else get set name) }
    ensures after { (set : Pairs) (name : ℕ) → get (offered_by_after (Some set)) name ≡
        (if not (is_stickiness name) && names (get set front_sticky) name then get set name else
        None) }
{}
