//! The view of a buffer.
ghost use Rattle.std.specs.Prelude.{◌≡◌, true, flat_map};
ghost use Rattle.text_model.specs.Characters.{encoded};
ghost use Rattle.editor_model.specs.Editor.{is_live};
ghost use Rattle.buffer_table.specs.Kept.{editor_of};
ghost use Rattle.final_view.specs.Faults.{Views};
ghost use Rattle.final_view.specs.Shown.{shown};

use crate::fault::ViewFault;
use crate::show::show;
use buffer_table::Editor;
use ek_types::Sink;

/// Writes the accessible portion of a live buffer as it is seen: without the characters whose `invisible` isn't nil,
/// with the strings of its overlays ("Invisible Text" and "Overlay Properties" in the GNU Emacs Lisp Reference
/// Manual). A sink that failed has a front of it, and its count of faults rose. Where memory was wanting, nothing was
/// written.
pub fn view<K: Sink>(editor: &Editor, buffer: u32, sink: &mut K) -> Result<(), ViewFault>
    requires { is_live (editor_of editor.now) buffer ≡ true }
    ensures { Views (K.state sink.old) (K.state sink.new) result
        (flat_map encoded (shown (editor_of editor.now) buffer)) }
{
    let bounds = editor.bounds(buffer);
    match editor.text(buffer) {
        Some(text) => show(
            editor.allocator(),
            &text,
            &editor.marks().overlays,
            buffer,
            bounds.start,
            bounds.end,
            sink,
        ),
        None => unreachable!(),
    }
}
