//! Changes of the sets of a part.
ghost use Rattle.std.specs.Prelude.{◌≡◌, ◌<◌, ◌≤◌, IfOk, map, not, take, drop};
ghost use Rattle.text_model.specs.Properties.{edited, same_list, same_set};
ghost use Rattle.prop_intervals.specs.Edits.{edit_of};
ghost use Rattle.prop_intervals.specs.Runs.{size, sets_of, AreApart};

use crate::edit::PropEdit;
use crate::pieces::pushed;
use crate::tree::Tree;
use ek_types::Mem;
use std::alloc::Global;

/// The runs of a part after a change, and whether one of them has another set.
#[derive(Drop)]
pub(crate) struct Edited {
    pub(crate) runs: Tree,
    pub(crate) changed: bool,
}

/// The runs from one place to another after a change.
pub(crate) fn edited_runs(
    alloc: Global,
    tree: &Tree,
    from: usize,
    to: usize,
    edit: &PropEdit,
) -> Mem<Edited>
    requires order { from ≤ to }
    requires within { to ≤ size tree.now }
    ensures sets { IfOk result (λ e. sets_of e.runs ≡
        map (edited (edit_of edit.now)) (drop from (take to (sets_of tree.now)))) }
    ensures apart { IfOk result (λ e. AreApart e.runs) }
    ensures changed { IfOk result (λ e. e.changed ≡
        not (same_list same_set (drop from (take to (sets_of tree.now))) (sets_of e.runs))) }
{
    let mut runs = Tree::new();
    let mut changed = false;
    let mut i = from;
    while i < to {
        let run = tree.find(i);
        let end = run.end.min(to);
        let new = edit.edited(run.set)?;
        changed |= !run.set.same(&new);
        runs = pushed(alloc, runs, new, end - i)?;
        i = end;
    }
    Ok(Edited { runs, changed })
}
