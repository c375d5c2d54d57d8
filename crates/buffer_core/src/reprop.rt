//! Changes of a buffer's properties.
ghost use Rattle.std.specs.Prelude.{◌≡◌, ◌≢◌, ℕ, ◌<◌, ◌≤◌, List, [], ◌∷◌, ◌++◌, length, map, take};
ghost use Rattle.std.specs.Prelude.{drop, option_map, slice_get, All, IfSome, IfOk, OnOk, OnErr};
ghost use Rattle.std.specs.List.{filter_map};
ghost use Rattle.text_model.specs.Properties.{Cell, get, edited};
ghost use Rattle.text_model.specs.Ordered.{IsValue, GivesOrdered};
ghost use Rattle.machine_laws.specs.Boundaries.{KeepsBoundaries};
ghost use Rattle.machine_laws.specs.Good.{Good};
ghost use Rattle.text_model.specs.Commit.{property_records, stretch_record, with_properties, reset};
ghost use Rattle.text_pool.specs.Pool.{Pooled};
ghost use Rattle.gap_text.specs.Text.{LiesIn};
ghost use Rattle.ek_types.specs.Property.{prop_of};
ghost use Rattle.prop_intervals.specs.Edits.{edit_of};
ghost use Rattle.prop_intervals.specs.Sets.{sets_in};
ghost use Rattle.undo_list.specs.Records.{rec_of};
ghost use Rattle.buffer_core.specs.Changes.{values_of, records_from, is_some_record};
ghost use Rattle.buffer_core.specs.Meaning.{buffer_of, CanBeUndone};

use crate::buffer::Buffer;
use crate::names::touched;
use crate::recording::{push_all, push_first};
use ek_types::{Copied, Mem, PropVal, Sym, same_option};
use machine_laws::changing_properties_keeps_boundaries;
use prop_intervals::{PropEdit, Props};
use std::alloc::Global;
use undo_list::Rec;

/// The value that a change gives a property where it gives or takes one.
fn new_value(edit: &PropEdit, name: Sym) -> Option<&PropVal>
    ensures { option_map (λ v. prop_of v.now) result ≡ get (edited (edit_of edit.now) []) name.0 }
{
    match edit {
        PropEdit::Add(more, _) => {
            // Read for what it ensures: no name stands twice.
            let _proper = more.len();
            more.get(name)
        }
        PropEdit::Remove(_) => None,
        PropEdit::Replace(new) => new.get(name),
    }
}

/// A value again, if there is one.
fn copied(value: Option<&PropVal>) -> Mem<Option<PropVal>>
    ensures { IfOk result (λ v. option_map prop_of v ≡ option_map (λ v. prop_of v.now) value.entry) }
{
    match value {
        Some(value) => Ok(Some(value.copy()?)),
        None => Ok(None),
    }
}

/// The end of the longest stretch of one value of a property that begins at `start`, or `to`.
fn stretch_end(props: &Props, start: usize, to: usize, name: Sym) -> usize
    requires order { start < to }
    requires range { to ≤ length props.now }
    ensures behind { start < result }
    ensures within { result ≤ to }
    ensures same { (j : ℕ) → start ≤ j → j < result →
        slice_get (values_of name.0 props.now) j ≡ slice_get (values_of name.0 props.now) start }
    ensures other { result < to → slice_get (values_of name.0 props.now) result ≢ slice_get
        (values_of name.0 props.now) start }
{
    let value = props.at(start).get(name);
    let mut end = props.run_end(start).min(to);
    while end < to && same_option(props.at(end).get(name), value) {
        end = props.run_end(end).min(to);
    }
    end
}

/// Adds the record of one stretch of a property, if its value is not the new one.
fn add_record(
    records: &mut Vec<Rec>,
    name: Sym,
    old: Option<&PropVal>,
    new: Option<&PropVal>,
    from: usize,
    to: usize,
) -> Mem<()>
    requires order { from ≤ to }
    requires value { IfSome (option_map (λ v. prop_of v.now) old) IsValue }
    ensures records { OnOk result (map rec_of records.new.items ≡ map rec_of records.old.items ++
        filter_map (stretch_record name.0 (option_map (λ v. prop_of v.now) new.entry))
        ((option_map (λ v. prop_of v.now) old.entry, from, to) ∷ [])) }
    ensures undoable { OnOk result (All CanBeUndone (map rec_of records.old.items) →
        All CanBeUndone (map rec_of records.new.items)) }
{
    if !same_option(old, new) {
        records.push(Rec::Prop(name, copied(old)?, from, to))?;
    }
    Ok(())
}

/// Adds the records of one property, from left to right.
fn add_records_of_name(
    records: &mut Vec<Rec>,
    props: &Props,
    from: usize,
    to: usize,
    name: Sym,
    new: Option<&PropVal>,
) -> Mem<()>
    requires order { from ≤ to }
    requires range { to ≤ length props.now }
    ensures records { OnOk result (map rec_of records.new.items ≡ map rec_of records.old.items ++
        records_from name.0 (option_map (λ v. prop_of v.now) new.entry) from
        (drop from (take to props.now))) }
    ensures undoable { OnOk result (All CanBeUndone (map rec_of records.old.items) →
        All CanBeUndone (map rec_of records.new.items)) }
{
    let mut start = from;
    while start < to {
        let end = stretch_end(props, start, to, name);
        add_record(records, name, props.at(start).get(name), new, start, end)?;
        start = end;
    }
    Ok(())
}

/// Whether a change of one property has a record: whether a value of it is not the new one.
fn has_record_of_name(
    props: &Props,
    from: usize,
    to: usize,
    name: Sym,
    new: Option<&PropVal>,
) -> bool
    requires order { from ≤ to }
    requires range { to ≤ length props.now }
    ensures { result ≡ is_some_record (records_from name.0 (option_map (λ v. prop_of v.now)
        new.entry) from (drop from (take to props.now))) }
{
    let mut start = from;
    while start < to {
        let end = stretch_end(props, start, to, name);
        if !same_option(props.at(start).get(name), new) {
            return true;
        }
        start = end;
    }
    false
}

/// Whether a change of properties has a record. None is made.
fn has_record(alloc: Global, edit: &PropEdit, props: &Props, from: usize, to: usize) -> Mem<bool>
    requires order { from ≤ to }
    requires range { to ≤ length props.now }
    ensures { (text : List Cell) → sets_in text ≡ props.now →
        IfOk result (λ b. b ≡ is_some_record (property_records (edit_of edit.now) from to text)) }
{
    let names = touched(alloc, edit, props, from, to)?;
    for name in &names {
        if has_record_of_name(props, from, to, *name, new_value(edit, *name)) {
            return Ok(true);
        }
    }
    Ok(false)
}

/// The records of a change of properties from one place to another: properties by rising number, and each from left to
/// right.
fn property_records(
    alloc: Global,
    edit: &PropEdit,
    props: &Props,
    from: usize,
    to: usize,
) -> Mem<Vec<Rec>>
    requires order { from ≤ to }
    requires range { to ≤ length props.now }
    ensures records { (text : List Cell) → sets_in text ≡ props.now →
        IfOk result (λ records. map rec_of records.items ≡
        property_records (edit_of edit.now) from to text) }
    ensures undoable { IfOk result (λ records. All CanBeUndone (map rec_of records.items)) }
{
    let names = touched(alloc, edit, props, from, to)?;
    let mut records = Vec::new(alloc);
    for name in &names {
        add_records_of_name(&mut records, props, from, to, *name, new_value(edit, *name))?;
    }
    Ok(records)
}

impl Buffer {
    /// Whether a change of the properties of the characters from `from` to before `to` would change something.
    pub fn would_change(&self, from: usize, to: usize, edit: &PropEdit) -> Mem<bool>
        requires order { from ≤ to }
        requires range { to ≤ length self.now.sets }
        ensures { (text : List Cell) → sets_in text ≡ self.now.sets →
            IfOk result (λ b. b ≡ is_some_record
            (property_records (edit_of edit.now) from to text)) }
    {
        has_record(self.alloc, edit, &self.props, from, to)
    }

    /// Changes the properties of the characters from `from` to before `to`, and says whether something is to be
    /// recorded of it: else nothing changes. A refusal leaves the buffer as it was.
    pub(crate) fn change_properties(&mut self, from: usize, to: usize, edit: &PropEdit) -> Mem<bool>
        requires order { from ≤ to }
        requires range { to ≤ length self.old.sets }
        ensures text { self.new.text ≡ self.old.text }
        ensures size { length self.new.sets ≡ length self.old.sets }
        ensures ok { (pool : Pooled) → LiesIn pool self.old.text →
            OnOk result (buffer_of pool self.new ≡
            with_properties (edit_of edit.now) from to (buffer_of pool self.old)) }
        ensures changed { (pool : Pooled) → LiesIn pool self.old.text →
            IfOk result (λ b. b ≡ is_some_record
            (property_records (edit_of edit.now) from to (buffer_of pool self.old).text)) }
        ensures err { (pool : Pooled) → OnErr result
            (buffer_of pool self.new ≡ buffer_of pool self.old) }
    {
        let records = property_records(self.alloc, edit, &self.props, from, to)?;
        if records.is_empty() {
            return Ok(false);
        }
        self.undo.reserve(records.len() + 1)?;
        self.props.change(from, to, edit)?;
        push_first(&mut self.undo, self.modified);
        push_all(&mut self.undo, records);
        self.modified = true;
        Ok(true)
    }

    /// Changes the properties of the characters from `from` to before `to`, and says whether that changed something: then
    /// it is recorded, and the pending records are dropped. A refusal leaves the buffer as it was.
    ///
    /// Undoing all that is newer than a boundary that still stands gives the same text as before.
    pub fn reprop(&mut self, from: usize, to: usize, edit: &PropEdit) -> Mem<bool>
        requires order { from ≤ to }
        requires range { to ≤ length self.old.sets }
        ensures text { self.new.text ≡ self.old.text }
        ensures size { length self.new.sets ≡ length self.old.sets }
        ensures ok { (pool : Pooled) → LiesIn pool self.old.text →
            OnOk result (buffer_of pool self.new ≡
            reset (edit_of edit.now) from to (buffer_of pool self.old)) }
        ensures changed { (pool : Pooled) → LiesIn pool self.old.text →
            IfOk result (λ b. b ≡ is_some_record
            (property_records (edit_of edit.now) from to (buffer_of pool self.old).text)) }
        ensures err { (pool : Pooled) → OnErr result
            (buffer_of pool self.new ≡ buffer_of pool self.old) }
        ensures undo { (pool : Pooled) → LiesIn pool self.old.text →
            GivesOrdered (edit_of edit.now) → Good (buffer_of pool self.old) →
            OnOk result (KeepsBoundaries (buffer_of pool self.old) (buffer_of pool self.new)) }
    {
        changing_properties_keeps_boundaries();
        self.reset_properties(from, to, edit)
    }

    /// The same, without what it means for undo.
    fn reset_properties(&mut self, from: usize, to: usize, edit: &PropEdit) -> Mem<bool>
        requires order { from ≤ to }
        requires range { to ≤ length self.old.sets }
        ensures text { self.new.text ≡ self.old.text }
        ensures size { length self.new.sets ≡ length self.old.sets }
        ensures ok { (pool : Pooled) → LiesIn pool self.old.text →
            OnOk result (buffer_of pool self.new ≡
            reset (edit_of edit.now) from to (buffer_of pool self.old)) }
        ensures changed { (pool : Pooled) → LiesIn pool self.old.text →
            IfOk result (λ b. b ≡ is_some_record
            (property_records (edit_of edit.now) from to (buffer_of pool self.old).text)) }
        ensures err { (pool : Pooled) → OnErr result
            (buffer_of pool self.new ≡ buffer_of pool self.old) }
    {
        let changed = self.change_properties(from, to, edit)?;
        if changed {
            self.undo.drop_pending();
        }
        Ok(changed)
    }
}
