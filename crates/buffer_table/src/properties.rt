//! What is asked of the properties of one buffer ("Property Search" in the GNU Emacs Lisp Reference Manual). Where no
//! live buffer has the number, its text is the empty one.
ghost use Rattle.std.specs.Prelude.{◌≡◌, ℕ, ◌<◌, ◌≤◌, length, Some, option_map, slice_get};
ghost use Rattle.text_model.specs.Ordered.{IsProper};
ghost use Rattle.text_model.specs.PropertyQuestions.{next_change, previous_change};
ghost use Rattle.editor_model.specs.Editor.{buffer_at};
ghost use Rattle.ek_types.specs.Property.{number_of};
ghost use Rattle.prop_intervals.specs.Sets.{sets_in, changes_of, run_end, before, behind};
ghost use Rattle.buffer_table.specs.Kept.{editor_of};

use crate::editor::Editor;
use ek_types::{PropSet, Sym};

/// Places count from 0.
impl Editor {
    /// The property set of character `i`: its names rise, and nil is never a value.
    pub fn props_at(&self, id: u32, i: usize) -> &PropSet
        requires { i < length (buffer_at (editor_of self.now) id).text }
        ensures exact { option_map (λ c. c.1) (slice_get (buffer_at (editor_of self.now) id).text
            i) ≡ Some result.now }
        ensures proper { IsProper result.now }
    {
        match self.found(id) {
            Some(buffer) => buffer.props().at(i),
            None => unreachable!(),
        }
    }

    /// The first place behind `i` whose set differs from the set there, or the end of the text.
    pub fn run_end(&self, id: u32, i: usize) -> usize
        requires { i < length (buffer_at (editor_of self.now) id).text }
        ensures exact { result ≡ run_end i (sets_in (buffer_at (editor_of self.now) id).text) }
        ensures behind { i < result }
    {
        match self.found(id) {
            Some(buffer) => buffer.props().run_end(i),
            None => unreachable!(),
        }
    }

    /// The first place behind `i` and before `to` where a set differs from the one in front of it, or only the value of
    /// one property, if one is named. `None` where there is no such place. So it is the first before any later end,
    /// unless that doesn't lie before `to`.
    pub fn next_change(&self, id: u32, i: usize, to: usize, name: Option<Sym>) -> Option<usize>
        requires { to ≤ length (buffer_at (editor_of self.now) id).text }
        ensures exact { let text = (buffer_at (editor_of self.now) id).text in
            result ≡ next_change i to (changes_of (option_map number_of name) (sets_in text)) }
        ensures within { let text = (buffer_at (editor_of self.now) id).text in
            (end : ℕ) → to ≤ end → result ≡
            before to (next_change i end (changes_of (option_map number_of name) (sets_in text))) }
    {
        match self.found(id) {
            Some(buffer) => buffer.props().next_change(i, to, name),
            None => None,
        }
    }

    /// The last place in front of `i` and behind `from` where a set differs from the one in front of it, or only the
    /// value of one property, if one is named. `None` where there is no such place. So it is the last behind any
    /// earlier start, unless that doesn't lie behind `from`.
    pub fn prev_change(&self, id: u32, from: usize, i: usize, name: Option<Sym>) -> Option<usize>
        requires { i ≤ length (buffer_at (editor_of self.now) id).text }
        ensures exact { let text = (buffer_at (editor_of self.now) id).text in result ≡
            previous_change from i (changes_of (option_map number_of name) (sets_in text)) }
        ensures within { let text = (buffer_at (editor_of self.now) id).text in
            (start : ℕ) → start ≤ from → result ≡ behind from
            (previous_change start i (changes_of (option_map number_of name) (sets_in text))) }
    {
        match self.found(id) {
            Some(buffer) => buffer.props().prev_change(from, i, name),
            None => None,
        }
    }
}
