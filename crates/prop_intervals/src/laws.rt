//! What is proved of the definitions that the contracts cite.
ghost use Rattle.std.specs.Prelude.{◌≡◌, ◌↔◌, true};
ghost use Rattle.text_model.specs.Properties.{PropSet as Pairs, same_set};

/// Two property sets count as the same exactly where they have the same pairs of a name and a value.
#[tactic(auto, using(crate::proofs::SameLemmas::same_where_equal))]
pub fn same_sets_have_the_same_pairs()
    ensures { (a b : Pairs) → same_set a b ≡ true ↔ a ≡ b }
{}
