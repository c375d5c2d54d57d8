//! What a change of properties would come to.
ghost use Rattle.std.specs.Prelude.{◌≡◌, ◌≤◌, true, length, IfOk};
ghost use Rattle.text_model.specs.Commit.{property_records};
ghost use Rattle.editor_model.specs.Editor.{is_live, buffer_at};
ghost use Rattle.prop_intervals.specs.Edits.{edit_of};
ghost use Rattle.buffer_core.specs.Changes.{is_some_record};
ghost use Rattle.buffer_table.specs.Kept.{editor_of};

use crate::editor::Editor;
use ek_types::Mem;
use prop_intervals::PropEdit;

impl Editor {
    /// Whether a change of the properties of the characters from `from` to before `to` would change something.
    pub fn would_change(&self, id: u32, from: usize, to: usize, edit: &PropEdit) -> Mem<bool>
        requires live { is_live (editor_of self.now) id ≡ true }
        requires order { from ≤ to }
        requires range { to ≤ length (buffer_at (editor_of self.now) id).text }
        ensures { IfOk result (λ b. b ≡ is_some_record
            (property_records (edit_of edit.now) from to
            (buffer_at (editor_of self.now) id).text)) }
    {
        match self.found(id) {
            Some(buffer) => buffer.would_change(from, to, edit),
            None => unreachable!(),
        }
    }
}
