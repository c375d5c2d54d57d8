//! The undo list as it is shown ("Undo" in the GNU Emacs Lisp Reference Manual).
ghost use Rattle.std.specs.Prelude.{◌≡◌, ◌<◌, [], ◌∷◌, map, IfOk, option_map};
ghost use Rattle.text_model.specs.Undo.{Inserted, Deleted, Prop};
ghost use Rattle.editor_model.specs.Values.{Dotted, values};
ghost use Rattle.editor_model.specs.Editor.{here};
ghost use Rattle.editor_model.specs.UndoCalls as calls;
ghost use Rattle.ek_types.specs.Listing.{items_of};
ghost use Rattle.ek_types.specs.Property.{number_of, prop_of};
ghost use Rattle.ek_call.specs.Meaning.{view};
ghost use Rattle.undo_list.specs.Records.{rec_of};
ghost use Rattle.buffer_table.specs.Kept.{editor_of};
ghost use Rattle.prim_arguments.specs.Meaning.{Answers};

use buffer_table::Editor;
use ek_call::{Value, Values};
use ek_types::{Copied, Mem, Piece, PropVal, Sym};
use prim_arguments::Failure;
use prim_arguments::values::{at_place, dotted, list, of_prop, symbol};
use std::alloc::Global;
use undo_list::Rec;

/// Two values as a pair.
fn pair(alloc: Global, head: Value, tail: Value) -> Mem<Value>
    ensures { IfOk result (λ v. view v ≡ Dotted (values (view head ∷ [])) (view tail)) }
{
    let mut items = Values::new(alloc);
    items.push(head)?;
    dotted(items, tail)
}

/// A record of the value of a property.
fn property_record(
    alloc: Global,
    name: Sym,
    old: Option<&PropVal>,
    from: usize,
    to: usize,
) -> Mem<Value>
    ensures { IfOk result (λ v. view v ≡ calls.record_value
        (Prop (number_of name) (option_map (λ p. prop_of p.now) old.entry) from to)) }
{
    let mut items = Values::new(alloc);
    items.push(Value::Nil)?;
    items.push(symbol(name))?;
    items.push(of_prop(alloc, old)?)?;
    items.push(at_place(from)?)?;
    dotted(items, at_place(to)?)
}

/// A record of text that was put in.
fn inserted_record(alloc: Global, from: usize, to: usize) -> Mem<Value>
    ensures { IfOk result (λ v. view v ≡ calls.record_value (Inserted from to)) }
{
    let from = at_place(from)?;
    pair(alloc, from, at_place(to)?)
}

/// A record of text that was deleted.
fn deleted_record(alloc: Global, piece: &Piece, place: usize) -> Mem<Value>
    ensures { IfOk result (λ v. view v ≡ calls.record_value (Deleted piece.now place)) }
{
    let place = at_place(place)?;
    pair(alloc, Value::Str(piece.copy()?), place)
}

/// A record as a value.
fn record_value(alloc: Global, rec: &Rec) -> Mem<Value>
    ensures { IfOk result (λ v. view v ≡ calls.record_value (rec_of rec.now)) }
{
    match rec {
        Rec::Boundary => Ok(Value::Nil),
        Rec::Point(place) => at_place(*place),
        Rec::Inserted(from, to) => inserted_record(alloc, *from, *to),
        Rec::Deleted(piece, place) => deleted_record(alloc, piece, *place),
        Rec::Prop(name, old, from, to) => property_record(alloc, *name, old.as_ref(), *from, *to),
        Rec::First => pair(alloc, Value::T, Value::Int(0)),
        Rec::Moved(marker, by) => pair(alloc, Value::Marker(*marker), Value::Int(*by)),
    }
}

/// The records of the current buffer as values, the newest first.
fn record_values(editor: &Editor) -> Mem<Values>
    ensures { IfOk result (λ values. map view (items_of values) ≡
        map (λ e. calls.record_value e.what) (here (editor_of editor.now)).undo.entries) }
{
    let alloc = editor.allocator();
    let id = editor.current();
    let mut values = Values::new(alloc);
    for i in 0..editor.undo_len(id) {
        values.push(record_value(alloc, editor.undo_at(id, i).0)?)?;
    }
    Ok(values)
}

/// The undo list of the current buffer, or `t` where it doesn't record.
pub fn buffer_undo_list(editor: &Editor) -> Result<Value, Failure>
    ensures { Answers result (calls.buffer_undo_list (editor_of editor.now)) }
{
    if !editor.is_recording(editor.current()) {
        return Ok(Value::T);
    }
    Ok(list(record_values(editor)?))
}
