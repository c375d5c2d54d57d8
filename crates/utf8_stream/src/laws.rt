//! Why decoding in pieces gives what decoding the whole gives: laws of the definitions, over all codings and lists of
//! bytes.
ghost use Rattle.std.specs.Prelude.{◌≡◌, ℕ, List, [], ◌++◌};
ghost use Rattle.std.specs.List.{concat};
ghost use Rattle.text_model.specs.Codings.{Coding, decoded, undecoded, all_decoded};
ghost use Rattle.utf8_stream.specs.Pieces.{given_for, held_after};

/// The characters of two pieces are those of the first, and then those of what it leaves and the second.
#[tactic(auto, using(text_model::proofs::Codings::decoded_law))]
pub fn characters_in_pieces()
    ensures { (c : Coding) (x y : List ℕ) →
        decoded c (x ++ y) ≡ decoded c x ++ decoded c (undecoded c x ++ y) }
{}

/// What two pieces leave is what the first one leaves and the second leave.
#[tactic(auto, using(text_model::proofs::Codings::undecoded_law))]
pub fn tail_in_pieces()
    ensures { (c : Coding) (x y : List ℕ) →
        undecoded c (x ++ y) ≡ undecoded c (undecoded c x ++ y) }
{}

/// All characters of two pieces are the characters of the first, and then all of what it leaves and the second.
#[tactic(auto, using(text_model::proofs::Codings::all_decoded_law))]
pub fn all_in_pieces()
    ensures { (c : Coding) (x y : List ℕ) →
        all_decoded c (x ++ y) ≡ decoded c x ++ all_decoded c (undecoded c x ++ y) }
{}

/// However bytes are cut into pieces: what a new decoder gives for the pieces is the characters of all the bytes, what it
/// then holds is what these leave, and with what `finish` gives it is all of them.
#[tactic(auto, using(crate::proofs::Cuttings::given_law, crate::proofs::Cuttings::held_law, crate::proofs::Cuttings::finished_law))]
pub fn any_cutting()
    ensures given { (c : Coding) (pieces : List (List ℕ)) →
        given_for c [] pieces ≡ decoded c (concat pieces) }
    ensures held { (c : Coding) (pieces : List (List ℕ)) →
        held_after c [] pieces ≡ undecoded c (concat pieces) }
    ensures finished { (c : Coding) (pieces : List (List ℕ)) → given_for c [] pieces ++
        all_decoded c (held_after c [] pieces) ≡ all_decoded c (concat pieces) }
{}
