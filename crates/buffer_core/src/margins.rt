//! What an undoing leaves of a text: the characters in front of, and behind, all that it takes out or puts in.
ghost use Rattle.std.specs.Prelude.{◌≡◌, ℕ, ◌+◌, ◌≤◌, true, IfSome, None};
ghost use Rattle.text_model.specs.Undo.{lies_inside, max_after, trial};
ghost use Rattle.undo_list.specs.Records.{rec_of};
ghost use Rattle.buffer_core.specs.Margins.{AllBetween, LiesBetween};

use undo_list::{Rec, Undo};

/// How many characters stand in front of, and how many behind, all that some records take out or put in; and how many
/// there are once these are undone.
#[derive(Clone, Copy)]
pub(crate) struct Margins {
    pub(crate) front: usize,
    pub(crate) behind: usize,
    size: usize,
}

/// The margins that one more record leaves, which lies in the text as it then is; none where the characters can't be
/// counted then.
fn left_by(left: Margins, rec: &Rec) -> Option<Margins>
    requires { lies_inside 0 left.size (rec_of rec.now) ≡ true }
    ensures front { IfSome result (λ m. m.front ≤ left.front) }
    ensures behind { IfSome result (λ m. m.behind ≤ left.behind) }
    ensures between { IfSome result (λ m.
        LiesBetween m.front m.behind left.size (rec_of rec.now)) }
    ensures size { IfSome result (λ m. m.size ≡ max_after left.size (rec_of rec.now)) }
{
    match rec {
        Rec::Inserted(from, to) => Some(Margins {
            front: left.front.min(*from),
            behind: left.behind.min(left.size.saturating_sub(*to)),
            size: left.size.saturating_sub(to.saturating_sub(*from)),
        }),
        Rec::Deleted(piece, place) => {
            let size = left.size.checked_add(piece.len())?;
            Some(Margins {
                front: left.front.min(*place),
                behind: left.behind.min(left.size.saturating_sub(*place)),
                size,
            })
        }
        _ => Some(left),
    }
}

/// The margins of a text of so many characters that the undoing of some records leaves; none where its characters can't
/// be counted on the way.
pub(crate) fn untouched(records: &Undo, size: usize) -> Option<Margins>
    requires inside { (min : ℕ) × (max : ℕ) × (max ≤ size) ×
        (trial min max records.now.state.entries ≡ None) }
    ensures order { IfSome result (λ m. m.front + m.behind ≤ size) }
    ensures between { IfSome result (λ m.
        AllBetween m.front m.behind size records.now.state.entries) }
{
    let mut left = Margins {
        front: size,
        behind: size,
        size,
    };
    for i in 0..records.len() {
        left = left_by(left, records.at(i).0)?;
    }
    Some(Margins {
        front: left.front,
        behind: left.behind.min(size.saturating_sub(left.front)),
        size,
    })
}
