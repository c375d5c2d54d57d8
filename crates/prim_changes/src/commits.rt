//! The commit of a change that was prepared. Hook functions may have run since.
ghost use Rattle.std.specs.Prelude.{◌≡◌, ◌⊎◌, ◌+◌, ◌≤◌, true, false, [], length, Option, Some};
ghost use Rattle.std.specs.Prelude.{OnOk, OnErr, IfOk, IfSome};
ghost use Rattle.editor_model.specs.Editor.{is_live, buffer_at, change_site};
ghost use Rattle.editor_model.specs.Answers as answers;
ghost use Rattle.editor_model.specs.Values.{Value as Meant};
ghost use Rattle.editor_model.specs.Commits.{commit, mark_to, put_site};
ghost use Rattle.prop_intervals.specs.Edits.{edit_of};
ghost use Rattle.prop_intervals.specs.Sets.{together};
ghost use Rattle.buffer_table.specs.Kept.{editor_of};
ghost use Rattle.buffer_table.specs.Places.{IsPlace};
ghost use Rattle.prim_changes.specs.Meaning.{Commits, IsFailed, change_of, committed_of};

use crate::change::{Change, Committed, What};
use crate::replies::committed;
use crate::undo_more::plan;
use buffer_core::are_empty;
use buffer_table::Editor;
use ek_call::Fault;
use ek_types::{Mem, NoMemory, Piece};
use prim_arguments::Failure;
use prim_arguments::kinds::must;
use prim_arguments::limits::must_have_room;
use prim_questions::markers::put as put_marker;
use prop_intervals::{PropEdit, length_of};

/// How pieces are put in, or a part taken out.
#[derive(Clone, Copy)]
struct Manner {
    all: bool,
    point_after: bool,
    widen: bool,
}

/// Puts pieces in, or takes a part out. Point may go behind the pieces. A refusal leaves the editor as it was.
#[inline(always)]
fn put_with_point(
    editor: &mut Editor,
    id: u32,
    from: usize,
    to: usize,
    pieces: &[Piece],
    all: bool,
    point_after: bool,
) -> Mem<()>
    requires live { is_live (editor_of editor.old) id ≡ true }
    requires order { from ≤ to }
    requires range { to ≤ length (buffer_at (editor_of editor.old) id).text }
    requires one { (from ≡ to) ⊎ (together pieces.now ≡ []) }
    ensures ok { OnOk result (editor_of editor.new ≡
        change_site id (put_site id from to (together pieces.now) all point_after false)
        (editor_of editor.old)) }
    ensures err { OnErr result (editor_of editor.new ≡ editor_of editor.old) }
{
    if point_after {
        put_behind(editor, id, from, to, pieces, all)
    } else {
        put_around(editor, id, from, to, pieces, all)
    }
}

/// The place behind some pieces that are put in, if there is a number for it.
fn place_behind(from: usize, pieces: &[Piece]) -> Option<usize>
    ensures { IfSome result (λ behind. behind ≡ from + length (together pieces.now)) }
{
    let n = length_of(pieces)?;
    let behind = from.checked_add(n)?;
    Some(behind)
}

/// Puts pieces in, or takes a part out; point goes behind the pieces. A refusal leaves the editor as it was.
fn put_behind(
    editor: &mut Editor,
    id: u32,
    from: usize,
    to: usize,
    pieces: &[Piece],
    all: bool,
) -> Mem<()>
    requires live { is_live (editor_of editor.old) id ≡ true }
    requires order { from ≤ to }
    requires range { to ≤ length (buffer_at (editor_of editor.old) id).text }
    requires one { (from ≡ to) ⊎ (together pieces.now ≡ []) }
    ensures ok { OnOk result (editor_of editor.new ≡
        change_site id (put_site id from to (together pieces.now) all true false)
        (editor_of editor.old)) }
    ensures err { OnErr result (editor_of editor.new ≡ editor_of editor.old) }
{
    let Some(behind) = place_behind(from, pieces) else {
        return Err(NoMemory);
    };
    editor.replace(id, from, to, pieces, all)?;
    editor.goto_place(id, behind);
    Ok(())
}

/// Puts pieces in, or takes a part out; point moves as places do. A refusal leaves the editor as it was.
#[tactic(auto, using(crate::proofs::Twice::put_still))]
fn put_around(
    editor: &mut Editor,
    id: u32,
    from: usize,
    to: usize,
    pieces: &[Piece],
    all: bool,
) -> Mem<()>
    requires live { is_live (editor_of editor.old) id ≡ true }
    requires order { from ≤ to }
    requires range { to ≤ length (buffer_at (editor_of editor.old) id).text }
    requires one { (from ≡ to) ⊎ (together pieces.now ≡ []) }
    ensures ok { OnOk result (editor_of editor.new ≡
        change_site id (put_site id from to (together pieces.now) all false false)
        (editor_of editor.old)) }
    ensures err { OnErr result (editor_of editor.new ≡ editor_of editor.old) }
{
    editor.replace(id, from, to, pieces, all)
}

/// The same in the buffer widened. A refusal leaves the editor as it was.
fn put_widened(
    editor: &mut Editor,
    id: u32,
    from: usize,
    to: usize,
    pieces: &[Piece],
    all: bool,
    point_after: bool,
) -> Mem<()>
    requires live { is_live (editor_of editor.old) id ≡ true }
    requires order { from ≤ to }
    requires range { to ≤ length (buffer_at (editor_of editor.old) id).text }
    requires one { (from ≡ to) ⊎ (together pieces.now ≡ []) }
    ensures ok { OnOk result (editor_of editor.new ≡
        change_site id (put_site id from to (together pieces.now) all point_after true)
        (editor_of editor.old)) }
    ensures err { OnErr result (editor_of editor.new ≡ editor_of editor.old) }
{
    let portion = editor.bounds(id);
    editor.widen(id);
    match put_with_point(editor, id, from, to, pieces, all, point_after) {
        Ok(()) => Ok(()),
        Err(refused) => {
            editor.narrow(id, portion.start, portion.end);
            Err(refused)
        }
    }
}

/// Puts pieces in, or takes a part out, in one of the ways of a change. A refusal leaves the editor as it was.
#[inline(always)]
fn put(
    editor: &mut Editor,
    id: u32,
    from: usize,
    to: usize,
    pieces: &[Piece],
    manner: Manner,
) -> Mem<()>
    requires live { is_live (editor_of editor.old) id ≡ true }
    requires order { from ≤ to }
    requires range { to ≤ length (buffer_at (editor_of editor.old) id).text }
    requires one { (from ≡ to) ⊎ (together pieces.now ≡ []) }
    ensures ok { OnOk result (editor_of editor.new ≡
        change_site id (put_site id from to (together pieces.now) manner.all manner.point_after
        manner.widen) (editor_of editor.old)) }
    ensures err { OnErr result (editor_of editor.new ≡ editor_of editor.old) }
{
    if manner.widen {
        put_widened(editor, id, from, to, pieces, manner.all, manner.point_after)
    } else {
        put_with_point(editor, id, from, to, pieces, manner.all, manner.point_after)
    }
}

/// A mark goes behind what was put in, if there is one.
fn put_mark(editor: &mut Editor, mark: Option<u32>, id: u32, behind: usize)
    requires { IsPlace (editor_of editor.old) id behind }
    ensures { editor_of editor.new ≡ mark_to mark id behind (editor_of editor.old) }
{
    if let Some(k) = mark {
        put_marker(editor, k, Some((id, behind)));
    }
}

/// Whether the ends of a change lie in its buffer's text, in order, and pieces are put in at one place alone.
fn fits(editor: &Editor, id: u32, from: usize, to: usize, pieces: &[Piece]) -> bool
    ensures order { result ≡ true → from ≤ to }
    ensures range { result ≡ true → to ≤ length (buffer_at (editor_of editor.now) id).text }
    ensures one { result ≡ true → (from ≡ to) ⊎ (together pieces.now ≡ []) }
{
    from <= to && to <= editor.size(id) && (from == to || are_empty(pieces))
}

/// The commit of pieces put in, or a part taken out.
fn commit_put(
    editor: &mut Editor,
    id: u32,
    from: usize,
    to: usize,
    pieces: &[Piece],
    manner: Manner,
    mark: Option<u32>,
) -> Result<Committed, Failure>
    ensures { (reply : Meant) → Commits result (editor_of editor.old) (editor_of editor.new)
        (commit (editor_of editor.old) (record {
          buffer = id;
          from = from;
          to = to;
          what = answers.Put (together pieces.now) manner.all manner.point_after manner.widen mark;
          reply = reply;
        })) }
{
    must(editor.is_live(id), Fault::BufferKilled)?;
    let Some(n) = length_of(pieces) else {
        return Err(Failure::NoMemory);
    };
    must_have_room(editor, id, n as u128)?;
    let Some(behind) = from.checked_add(n) else {
        return Err(Failure::NoMemory);
    };
    if !fits(editor, id, from, to, pieces) {
        return Err(Failure::NoMemory);
    }
    put(editor, id, from, to, pieces, manner)?;
    put_mark(editor, mark, id, behind);
    Ok(Committed::Done {
        from,
        to: behind,
        old: to - from,
    })
}

/// The commit of a change of properties.
fn commit_props(
    editor: &mut Editor,
    id: u32,
    from: usize,
    to: usize,
    edit: &PropEdit,
) -> Result<Committed, Failure>
    ensures { (reply : Meant) → Commits result (editor_of editor.old) (editor_of editor.new)
        (commit (editor_of editor.old) (record {
          buffer = id;
          from = from;
          to = to;
          what = answers.Props (edit_of edit.now);
          reply = reply;
        })) }
{
    must(editor.is_live(id), Fault::BufferKilled)?;
    if to < from || editor.size(id) < to {
        return Err(Failure::NoMemory);
    }
    editor.reprop(id, from, to, edit)?;
    Ok(Committed::Done {
        from,
        to,
        old: to - from,
    })
}

/// The commit of some groups of records undone.
fn commit_undo(
    editor: &mut Editor,
    id: u32,
    from: usize,
    to: usize,
    n: u32,
) -> Result<Committed, Failure>
    ensures { (reply : Meant) → Commits result (editor_of editor.old) (editor_of editor.new)
        (commit (editor_of editor.old) (record {
          buffer = id;
          from = from;
          to = to;
          what = answers.UndoGroups n;
          reply = reply;
        })) }
{
    must(editor.is_live(id), Fault::BufferKilled)?;
    if n == 0 {
        return Err(Failure::NoMemory);
    }
    let plan = plan(editor, id, n)?;
    let old = editor.bounds(id);
    editor.apply_plan(id, &plan)?;
    let new = editor.bounds(id);
    Ok(Committed::Done {
        from: new.start,
        to: new.end,
        old: old.end - old.start,
    })
}

/// Makes a change that was prepared, at its ends, as `commit_at` does.
pub fn commit(editor: &mut Editor, change: &Change) -> Mem<Committed>
    ensures ok { IfOk result (λ c. record {
      editor = editor_of editor.new;
      committed = committed_of c;
    } ≡ commit (editor_of editor.old) (change_of change.now)) }
    ensures err { OnErr result (editor_of editor.new ≡ editor_of editor.old) }
{
    commit_at(editor, change, change.from, change.to)
}

/// Makes a change that was prepared, where its ends are now, and says which these are then. What barred the
/// preparation is tested once more. A refused change leaves the editor as it was, and so does want of memory; this is
/// answered, too, where the ends don't lie in the text in their order, where a piece is to stand in the place of a
/// part, or where no group is to be undone: no call prepares such a change.
pub fn commit_at(editor: &mut Editor, change: &Change, from: usize, to: usize) -> Mem<Committed>
    ensures ok { IfOk result (λ c. record {
      editor = editor_of editor.new;
      committed = committed_of c;
    } ≡ commit (editor_of editor.old)
        (record (change_of change.now) { from = from; to = to })) }
    ensures refused { IfOk result (λ c. IsFailed (committed_of c) →
        editor_of editor.new ≡ editor_of editor.old) }
    ensures err { OnErr result (editor_of editor.new ≡ editor_of editor.old) }
{
    let id = change.buffer;
    match &change.what {
        What::Put {
            pieces,
            all,
            point_after,
            widen,
            mark,
        } => {
            let manner = Manner {
                all: *all,
                point_after: *point_after,
                widen: *widen,
            };
            let pieces = pieces.as_slice();
            committed(commit_put(editor, id, from, to, pieces, manner, *mark))
        }
        What::Props(edit) => committed(commit_props(editor, id, from, to, edit)),
        What::UndoGroups(n) => committed(commit_undo(editor, id, from, to, *n)),
    }
}
