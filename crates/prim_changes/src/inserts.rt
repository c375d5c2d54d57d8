//! The calls that insert strings ("Insertion" in the GNU Emacs Lisp Reference Manual; "Sticky Properties" there for
//! what an insertion inherits).
ghost use Rattle.std.specs.Prelude.{◌≡◌, ◌+◌, ◌<◌, ◌≤◌, ◌++◌, [], ◌∷◌, map, length, drop, IfOk, OnOk};
ghost use Rattle.std.specs.Prelude.{if◌then◌else◌, ℕ, option_map, slice_get};
ghost use Rattle.text_model.specs.Properties.{put_all, with_sets, edited, Replace};
ghost use Rattle.text_model.specs.Ordered.{IsProper};
ghost use Rattle.editor_model.specs.Answers.{first_fault};
ghost use Rattle.editor_model.specs.Arguments.{must_be_string, must_have_room, string_of};
ghost use Rattle.editor_model.specs.TextCalls.{must_take_text};
ghost use Rattle.editor_model.specs.Editor.{here};
ghost use Rattle.editor_model.specs.TextCalls as calls;
ghost use Rattle.ek_types.specs.Listing.{items_of};
ghost use Rattle.ek_call.specs.Meaning.{view};
ghost use Rattle.prop_intervals.specs.Sets.{together};
ghost use Rattle.buffer_table.specs.Kept.{editor_of};
ghost use Rattle.prim_arguments.specs.Meaning.{fault_in};
ghost use Rattle.prim_changes.specs.Meaning.{Prepares, text_of};

use crate::change::{Pieces, Prepared};
use crate::read_only::must_take_text;
use crate::texts::insertion;
use buffer_table::Editor;
use ek_call::{Fault, Value, Values};
use ek_types::{Chars, Mem, Piece, PropSet};
use prim_arguments::Failure;
use prim_arguments::kinds::string;
use prim_arguments::limits::must_have_room;
use prim_questions::properties::set_at;
use std::alloc::Global;
use stickiness::inherited;

/// How many characters the strings have together, where all arguments are strings.
fn must_be_strings(args: &Values) -> Result<u128, Fault>
    ensures test { fault_in result ≡ first_fault (map must_be_string (map view (items_of args.now))) }
    ensures length { IfOk result (λ n. n ≡ length (calls.joined (map view (items_of args.now)))) }
{
    let mut total = 0;
    for i in 0..args.len() {
        total += string(args.at(i))?.len() as u128;
    }
    Ok(total)
}

/// A set with one property of another given anew.
fn with_one(set: PropSet, more: &PropSet, i: usize) -> Mem<PropSet>
    requires within { i < length more.now }
    requires proper { IsProper more.now }
    ensures { IfOk result (λ s. put_all s (drop (i + 1) more.now) ≡ put_all set (drop i more.now)) }
{
    let (name, value) = more.at(i);
    set.with(name, value)
}

/// A set with the properties of another given anew.
fn with_all(set: &PropSet, more: &PropSet) -> Mem<PropSet>
    ensures { IfOk result (λ s. s ≡ put_all set.now more.now) }
{
    let mut all = set.copy()?;
    for i in 0..more.len() {
        all = with_one(all, more, i)?;
    }
    Ok(all)
}

/// Gives the characters of a run a set in place of theirs, unless they have it: then the piece stays as it is, and
/// shared.
fn put_in_run(piece: &mut Piece, i: usize, end: usize, set: &PropSet) -> Mem<()>
    requires run { (i < end) × (end ≤ length piece.old) }
    requires one { (j : ℕ) → i ≤ j → j < end → option_map (λ c. c.1) (slice_get piece.old j) ≡
        option_map (λ c. c.1) (slice_get piece.old i) }
    ensures { OnOk result (piece.new ≡ with_sets i end (edited (Replace set.now)) piece.old) }
{
    if set.same(piece.props(i)) {
        return Ok(());
    }
    piece.put(i, end, set)
}

/// A piece with the properties of a set put beneath those of each character, one run of one set after the other.
fn with_inherited(piece: Piece, set: &PropSet) -> Mem<Piece>
    ensures { IfOk result (λ p. p ≡ calls.with_inherited set.now piece) }
{
    let mut piece = piece;
    let mut i = 0;
    'runs: while i < piece.len() {
        let end = piece.run_end(i);
        let all = with_all(set, piece.props(i))?;
        put_in_run(&mut piece, i, end, &all)?;
        i = end;
    }
    Ok(piece)
}

/// The contents of a string, with a set beneath its properties; what is no string has none.
fn contents(alloc: Global, v: &Value, set: &PropSet) -> Mem<Piece>
    ensures { IfOk result (λ p. p ≡ calls.with_inherited set.now (string_of (view v.now))) }
{
    match v {
        Value::Str(text) => {
            let piece = with_inherited(text.copy()?, set)?;
            Ok(piece)
        }
        _ => Piece::plain(alloc, Chars::new(alloc)),
    }
}

/// The contents of strings side by side, with a set beneath their properties.
fn all_contents(alloc: Global, args: &Values, set: &PropSet) -> Mem<Vec<Piece>>
    ensures { IfOk result (λ pieces. together pieces.items ≡ calls.with_inherited set.now
        (calls.joined (map view (items_of args.now)))) }
{
    let mut pieces = Vec::new(alloc);
    for i in 0..args.len() {
        let piece = contents(alloc, args.at(i), set)?;
        pieces.push(piece)?;
    }
    Ok(pieces)
}

/// The contents of strings as pieces, with a set beneath their properties. None is joined with another.
fn pieces_of(alloc: Global, args: &Values, set: &PropSet) -> Mem<Pieces>
    ensures { IfOk result (λ pieces. text_of pieces ≡ calls.with_inherited set.now
        (calls.joined (map view (items_of args.now)))) }
{
    if args.len() == 1 {
        let piece = contents(alloc, args.at(0), set)?;
        return Ok(Pieces::One(piece));
    }
    let pieces = all_contents(alloc, args, set)?;
    Ok(Pieces::Several(pieces))
}

/// The properties that an insertion at point inherits, or none.
fn inherited_here(editor: &Editor, inherit: bool) -> Mem<PropSet>
    ensures { IfOk result (λ set. set ≡ (if inherit then
        calls.inherited_at (here (editor_of editor.now)) (here (editor_of editor.now)).point else
        [])) }
{
    if !inherit {
        return Ok(PropSet::empty(editor.allocator()));
    }
    let id = editor.current();
    let point = editor.bounds(id).point;
    let before = if point == 0 {
        None
    } else {
        set_at(editor, id, point - 1)
    };
    inherited(editor.allocator(), before, set_at(editor, id, point))
}

/// The tests of an insertion of strings.
fn must_fit(editor: &Editor, args: &Values) -> Result<(), Fault>
    ensures { fault_in result ≡ first_fault (map must_be_string (map view (items_of args.now)) ++
        must_take_text (editor_of editor.now) (length (calls.joined (map view (items_of args.now))))
        ∷ must_have_room (editor_of editor.now) (editor_of editor.now).current
        (length (calls.joined (map view (items_of args.now)))) ∷ []) }
{
    must_take(editor, must_be_strings(args)?)
}

/// So many characters may be put in at point, and there is room for them.
fn must_take(editor: &Editor, n: u128) -> Result<(), Fault>
    ensures { fault_in result ≡ first_fault (must_take_text (editor_of editor.now) n ∷
        must_have_room (editor_of editor.now) (editor_of editor.now).current n ∷ []) }
{
    must_take_text(editor, n)?;
    must_have_room(editor, editor.current(), n)
}

/// Inserts strings at point of the current buffer. All markers and overlays there may advance, and the text may inherit
/// properties of its neighbours.
pub fn insert(editor: &Editor, all: bool, inherit: bool, args: &Values) -> Result<Prepared, Failure>
    ensures { Prepares result (calls.insert (editor_of editor.now) all inherit
        (map view (items_of args.now))) }
{
    must_fit(editor, args)?;
    let set = inherited_here(editor, inherit)?;
    let pieces = pieces_of(editor.allocator(), args, &set)?;
    let point = editor.bounds(editor.current()).point;
    Ok(insertion(editor.current(), point, pieces, all))
}
