//! The table of calls: each call by its name, subject by subject.
ghost use Rattle.std.specs.Prelude.{◌≡◌, map, IfOk, OnErr};
ghost use Rattle.editor_model.specs.Values.{Nil};
ghost use Rattle.editor_model.specs.Arguments.{arg};
ghost use Rattle.editor_model.specs.Table.{query, apply, prepare};
ghost use Rattle.ek_types.specs.Listing.{items_of};
ghost use Rattle.ek_call.specs.Meaning.{view, reply_of};
ghost use Rattle.ek_call.specs.Primitives.{prim_of};
ghost use Rattle.buffer_table.specs.Kept.{editor_of};
ghost use Rattle.prim_arguments.specs.Meaning.{Answers, Applies};
ghost use Rattle.prim_changes.specs.Meaning.{Prepares, prepared_of};

use buffer_table::Editor;
use ek_call::{Fault, Prim, Reply, Value, Values, argument};
use ek_types::Mem;
use prim_arguments::Failure;
use prim_changes::replies::{prepared, reply};
use prim_changes::{Prepared, inserts, property_changes, texts, undo, undo_more};
use prim_questions::{buffers, markers, overlay_questions, overlays, properties, undo_records};

/// An argument by its place, counted from 0; nil where it was left out.
pub fn arg<'a>(args: &'a Values, i: usize, nil: &'a Value) -> &'a Value
    requires { view nil.now ≡ Nil }
    ensures { view result.now ≡ arg (map view (items_of args.now)) i }
{
    match argument(args, i) {
        Some(v) => v,
        None => nil,
    }
}

/// The value nil.
pub fn nil() -> Value
    ensures { view result ≡ Nil }
{
    Value::Nil
}

/// What a call answers that only asks. Any other call is refused as a wrong type.
pub fn query(editor: &Editor, prim: Prim, args: &Values) -> Mem<Reply>
    ensures { IfOk result (λ r. reply_of r ≡ query (editor_of editor.now) (prim_of prim)
        (map view (items_of args.now))) }
{
    let nil = nil();
    reply(answer(editor, prim, args, &nil))
}

/// What such a call answers, with nil at hand for the arguments that were left out.
fn answer(editor: &Editor, prim: Prim, args: &Values, nil: &Value) -> Result<Value, Failure>
    requires { view nil.now ≡ Nil }
    ensures { Answers result (query (editor_of editor.now) (prim_of prim)
        (map view (items_of args.now))) }
{
    let a = arg(args, 0, nil);
    let b = arg(args, 1, nil);
    let c = arg(args, 2, nil);
    let d = arg(args, 3, nil);
    match prim {
        // Buffers.
        Prim::CurrentBuffer => buffers::current_buffer(editor),
        Prim::GetBuffer => buffers::get_buffer(editor, a),
        Prim::BufferLiveP => buffers::buffer_live_p(editor, a),
        Prim::BufferName => buffers::buffer_name(editor, a),
        Prim::BufferList => buffers::buffer_list(editor),
        Prim::BufferModifiedP => buffers::buffer_modified_p(editor, a),
        Prim::BufferReadOnlyP => buffers::buffer_read_only_p(editor, a),
        // Texts.
        Prim::Point => texts::point(editor),
        Prim::PointMin => texts::point_min(editor),
        Prim::PointMax => texts::point_max(editor),
        Prim::BufferSize => texts::buffer_size(editor, a),
        Prim::BufferNarrowedP => texts::buffer_narrowed_p(editor),
        Prim::CharAfter => texts::char_after(editor, a),
        Prim::BufferString => texts::buffer_string(editor),
        Prim::BufferSubstring => texts::buffer_substring(editor, a, b),
        Prim::BufferSubstringNoProperties => texts::buffer_substring_no_properties(editor, a, b),
        // Markers.
        Prim::MarkerPosition => markers::marker_position(editor, a),
        Prim::MarkerBuffer => markers::marker_buffer(editor, a),
        Prim::MarkerInsertionType => markers::marker_insertion_type(editor, a),
        // Text properties.
        Prim::GetTextProperty => properties::get_text_property(editor, a, b),
        Prim::TextPropertiesAt => properties::text_properties_at(editor, a),
        Prim::NextPropertyChange => properties::next_property_change(editor, a, b),
        Prim::NextSinglePropertyChange => properties::next_single_property_change(editor, a, b, c),
        Prim::PreviousPropertyChange => properties::previous_property_change(editor, a, b),
        Prim::PreviousSinglePropertyChange => properties::previous_single_property_change(
            editor, a, b, c,
        ),
        Prim::TextPropertyAny => properties::text_property_any(editor, a, b, c, d),
        Prim::TextPropertyNotAll => properties::text_property_not_all(editor, a, b, c, d),
        // Overlays.
        Prim::OverlayStart => overlays::overlay_start(editor, a),
        Prim::OverlayEnd => overlays::overlay_end(editor, a),
        Prim::OverlayBuffer => overlays::overlay_buffer(editor, a),
        Prim::OverlayGet => overlays::overlay_get(editor, a, b),
        Prim::OverlayProperties => overlays::overlay_properties(editor, a),
        Prim::OverlaysAt => overlay_questions::overlays_at(editor, a),
        Prim::OverlaysIn => overlay_questions::overlays_in(editor, a, b),
        Prim::GetCharProperty => overlay_questions::get_char_property(editor, a, b),
        Prim::NextOverlayChange => overlay_questions::next_overlay_change(editor, a),
        Prim::PreviousOverlayChange => overlay_questions::previous_overlay_change(editor, a),
        // Undo.
        Prim::BufferUndoList => undo_records::buffer_undo_list(editor),
        _ => Err(Failure::Refused(Fault::WrongType)),
    }
}

/// Does a call that sets state and is heard by no hook. A refused call changes nothing, nor does one that memory was
/// wanting for. Any other call is refused as a wrong type.
pub fn apply(editor: &mut Editor, prim: Prim, args: &Values) -> Mem<Reply>
    ensures ok { IfOk result (λ r. record {
      editor = editor_of editor.new;
      reply = reply_of r;
    } ≡ apply (editor_of editor.old) (prim_of prim)
        (map view (items_of args.now))) }
    ensures err { OnErr result (editor_of editor.new ≡ editor_of editor.old) }
{
    let nil = nil();
    reply(set(editor, prim, args, &nil))
}

/// Does such a call, with nil at hand for the arguments that were left out.
fn set(editor: &mut Editor, prim: Prim, args: &Values, nil: &Value) -> Result<Value, Failure>
    requires { view nil.now ≡ Nil }
    ensures { Applies result (editor_of editor.old) (editor_of editor.new)
        (apply (editor_of editor.old) (prim_of prim) (map view (items_of args.now))) }
{
    let a = arg(args, 0, nil);
    let b = arg(args, 1, nil);
    let c = arg(args, 2, nil);
    let d = arg(args, 3, nil);
    let e = arg(args, 4, nil);
    match prim {
        // Buffers.
        Prim::SetBuffer => buffers::set_buffer(editor, a),
        Prim::GetBufferCreate => buffers::get_buffer_create(editor, a),
        Prim::GenerateNewBuffer => buffers::generate_new_buffer(editor, a),
        Prim::RenameBuffer => buffers::rename_buffer(editor, a),
        Prim::SetBufferModifiedP => buffers::set_buffer_modified_p(editor, a),
        Prim::SetBufferReadOnly => buffers::set_buffer_read_only(editor, a),
        // Texts.
        Prim::GotoChar => texts::goto_char(editor, a),
        Prim::NarrowToRegion => texts::narrow_to_region(editor, a, b),
        Prim::Widen => texts::widen(editor),
        // Markers.
        Prim::MakeMarker => markers::make_marker(editor),
        Prim::PointMarker => markers::point_marker(editor),
        Prim::CopyMarker => markers::copy_marker(editor, a, b),
        Prim::SetMarker => markers::set_marker(editor, a, b, c),
        Prim::SetMarkerInsertionType => markers::set_marker_insertion_type(editor, a, b),
        // Overlays.
        Prim::MakeOverlay => overlays::make_overlay(editor, a, b, c, d, e),
        Prim::OverlayPut => overlays::overlay_put(editor, a, b, c),
        Prim::MoveOverlay => overlays::move_overlay(editor, a, b, c, d),
        Prim::DeleteOverlay => overlays::delete_overlay(editor, a),
        // Undo.
        Prim::UndoBoundary => undo::undo_boundary(editor),
        Prim::UndoStart => undo::undo_start(editor),
        Prim::BufferDisableUndo => undo::buffer_disable_undo(editor),
        Prim::BufferEnableUndo => undo::buffer_enable_undo(editor),
        _ => Err(Failure::Refused(Fault::WrongType)),
    }
}

/// Prepares a call that changes a text, and changes nothing yet. Any other call is refused as a wrong type.
pub fn prepare(editor: &Editor, prim: Prim, args: &Values) -> Mem<Prepared>
    ensures { IfOk result (λ p. prepared_of p ≡
        prepare (editor_of editor.now) (prim_of prim) (map view (items_of args.now))) }
{
    let nil = nil();
    prepared(plan(editor, prim, args, &nil))
}

/// Prepares such a call, with nil at hand for the arguments that were left out.
fn plan(editor: &Editor, prim: Prim, args: &Values, nil: &Value) -> Result<Prepared, Failure>
    requires { view nil.now ≡ Nil }
    ensures { Prepares result (prepare (editor_of editor.now) (prim_of prim)
        (map view (items_of args.now))) }
{
    let a = arg(args, 0, nil);
    let b = arg(args, 1, nil);
    let c = arg(args, 2, nil);
    let d = arg(args, 3, nil);
    match prim {
        // Texts.
        Prim::Insert => inserts::insert(editor, false, false, args),
        Prim::InsertAndInherit => inserts::insert(editor, false, true, args),
        Prim::InsertBeforeMarkers => inserts::insert(editor, true, false, args),
        Prim::InsertBeforeMarkersAndInherit => inserts::insert(editor, true, true, args),
        Prim::InsertBufferSubstring => texts::insert_buffer_substring(editor, a, b, c),
        Prim::DeleteRegion => texts::delete_region(editor, a, b),
        Prim::DeleteAndExtractRegion => texts::delete_and_extract_region(editor, a, b),
        Prim::EraseBuffer => texts::erase_buffer(editor),
        // Text properties.
        Prim::PutTextProperty => property_changes::put_text_property(editor, a, b, c, d),
        Prim::AddTextProperties => property_changes::add_text_properties(editor, a, b, c),
        Prim::RemoveTextProperties => property_changes::remove_text_properties(editor, a, b, c),
        Prim::SetTextProperties => property_changes::set_text_properties(editor, a, b, c),
        // Undo.
        Prim::UndoMore => undo_more::undo_more(editor, a),
        _ => Err(Failure::Refused(Fault::WrongType)),
    }
}
