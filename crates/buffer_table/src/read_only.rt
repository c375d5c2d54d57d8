//! Which buffers are read-only, and whether that counts.
ghost use Rattle.std.specs.Prelude.{◌≡◌, true};
ghost use Rattle.editor_model.specs.Editor.{is_live, is_read_only, protected};
ghost use Rattle.buffer_table.specs.Kept.{editor_of};

use crate::editor::Editor;

impl Editor {
    /// Whether a buffer is read-only. Where no live buffer has the number, it isn't.
    pub fn read_only(&self, id: u32) -> bool
        ensures { result ≡ is_read_only (editor_of self.now) id }
    {
        match self.text(id) {
            Some(text) => text.read_only(),
            None => false,
        }
    }

    /// Makes a buffer read-only, or writable.
    pub fn set_read_only(&mut self, id: u32, on: bool)
        requires { is_live (editor_of self.old) id ≡ true }
        ensures { editor_of self.new ≡ protected id on (editor_of self.old) }
    {
        match &mut self.buffers[id as usize] {
            Some(live) => live.read_only = on,
            None => unreachable!(),
        }
    }

    /// Whether nothing counts as read-only.
    pub fn tests_lifted(&self) -> bool
        ensures { result ≡ (editor_of self.now).lifted }
    {
        self.lifted
    }

    /// Says whether nothing counts as read-only, and answers what was so before.
    pub fn lift_tests(&mut self, on: bool) -> bool
        ensures before { result ≡ (editor_of self.old).lifted }
        ensures after { editor_of self.new ≡ record (editor_of self.old) { lifted = on } }
    {
        let before = self.lifted;
        self.lifted = on;
        before
    }
}
