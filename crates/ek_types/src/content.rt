//! Characters with their properties, as runs.
ghost use Rattle.std.specs.Prelude.{◌≡◌, ℕ, ◌+◌, ◌<◌, ◌≤◌, length, map, [], ◌++◌, IfOk, OnOk};
ghost use Rattle.std.specs.Prelude.{OnErr, slice_get, Some, option_map, ◌==◌};
ghost use Rattle.std.specs.List.{prefix_len};
ghost use Rattle.text_model.specs.Properties.{bare, with_sets, edited, Replace};
ghost use Rattle.text_model.specs.Characters.{IsCharacter};
ghost use Rattle.ek_types.specs.Seen.{ch_of};
ghost use Rattle.ek_types.specs.Runs.{AreRising, start_of, ends_by, set_at, rest_to, later_runs};

use crate::character::Ch;
use crate::chars::Chars;
use crate::list::Copied;
use crate::memory::{Mem, NoMemory};
use crate::prop_set::PropSet;
use crate::text::Text;
use std::alloc::Global;
use std::marker::Model;
use std::rc::Rc;

/// One property set up to a place, from where the run before it ends.
#[derive(Drop)]
pub struct Run {
    end: usize,
    set: PropSet,
}

/// What a piece holds: characters with a property set each, counted from 0.
#[derive(Drop)]
pub struct Content {
    text: Text,
    /// The runs, by rising end. The characters behind the last have no properties.
    runs: Vec<Run>,
    /// The set of those characters.
    nothing: PropSet,
}

impl Model for Content {
    ghost use Rattle.std.specs.Prelude.{◌≡◌, List, [], length};
    ghost use Rattle.std.specs.List.{zip};
    ghost use Rattle.text_model.specs.Properties.{Cell};

    ghost Value = { List Cell };

    ghost use Rattle.ek_types.specs.Runs.{sets_from, AreRising};

    ghost view = { λ p. zip p.text.items (sets_from 0 p.runs.items (length p.text.items)) };

    ghost invariant = { λ p. AreRising 0 p.runs.items (length p.text.items) × (p.nothing ≡ []) };
}

impl Copied for Run {
    ghost use Rattle.std.specs.Prelude.{ℕ};
    ghost use Rattle.text_model.specs.Properties.{PropSet as Pairs};

    ghost Seen = { ℕ × Pairs };

    ghost seen = { λ r. (r.end, r.set) };

    fn copy(&self) -> Mem<Run> {
        Ok(Run {
            end: self.end,
            set: self.set.copy()?,
        })
    }
}

/// Puts copies of some runs behind others.
fn add_copies(runs: &mut Vec<Run>, from: &[Run]) -> Mem<()>
    ensures { OnOk result (runs.new.items ≡ runs.old.items ++ from.now) }
{
    for run in from {
        runs.push(run.copy()?)?;
    }
    Ok(())
}

/// How many runs end at a place or in front of it.
fn ending_by(runs: &[Run], place: usize) -> usize
    requires { (size : ℕ) × AreRising 0 runs.now size }
    ensures exact { result ≡ prefix_len (ends_by place) runs.now }
    ensures within { result ≤ length runs.now }
{
    runs.partition_point(
        |run: &Run| -> bool
            ensures { result ≡ ends_by place run.now }
        { run.end <= place },
    )
}

/// The place where a run starts.
fn start(runs: &[Run], number: usize) -> usize
    requires { number ≤ length runs.now }
    ensures { result ≡ start_of 0 number runs.now }
{
    if number == 0 { 0 } else { runs[number - 1].end }
}

/// The set of a run, and behind the last run the set of no property.
fn set_of<'a>(runs: &'a [Run], nothing: &'a PropSet, number: usize) -> &'a PropSet
    requires { nothing.now ≡ [] }
    ensures { result.now ≡ set_at number runs.now }
{
    match runs.get(number) {
        Some(run) => &run.set,
        None => nothing,
    }
}

/// What is left of a run in front of a place, if anything.
fn rest_of(
    alloc: Global,
    runs: &[Run],
    nothing: &PropSet,
    number: usize,
    place: usize,
) -> Mem<Vec<Run>>
    requires number { number ≤ length runs.now }
    requires nothing { nothing.now ≡ [] }
    ensures { IfOk result (λ rest. rest.items ≡ rest_to 0 place number runs.now) }
{
    let mut rest = Vec::new(alloc);
    if start(runs, number) < place {
        let set = set_of(runs, nothing, number).copy()?;
        rest.push(Run { end: place, set })?;
    }
    Ok(rest)
}

/// Puts copies of some runs behind others, each to end `by` places later.
fn add_later(runs: &mut Vec<Run>, from: &[Run], by: usize) -> Mem<()>
    ensures { OnOk result (runs.new.items ≡ runs.old.items ++ later_runs by from.now) }
{
    for run in from {
        let Some(end) = by.checked_add(run.end) else {
            return Err(NoMemory);
        };
        let set = run.set.copy()?;
        runs.push(Run { end, set })?;
    }
    Ok(())
}

impl Content {
    /// The characters without properties. It takes no memory.
    pub fn plain(alloc: Global, text: Chars) -> Content
        ensures { result ≡ bare text.items }
    {
        Content {
            text: Text::own(text),
            runs: Vec::new(alloc),
            nothing: PropSet::empty(alloc),
        }
    }

    /// Shared characters without properties.
    pub fn sharing(alloc: Global, text: &Rc<Chars>) -> Mem<Content>
        ensures { IfOk result (λ p. p ≡ bare text.now.value.items) }
    {
        Ok(Content {
            text: Text::sharing(text)?,
            runs: Vec::new(alloc),
            nothing: PropSet::empty(alloc),
        })
    }

    /// How many characters there are.
    pub fn len(&self) -> usize
        ensures { result ≡ length self.now }
    {
        self.text.len()
    }

    /// Whether there are none.
    pub fn is_empty(&self) -> bool
        ensures { result ≡ (length self.now == 0) }
    {
        self.text.len() == 0
    }

    /// The character at place `i`, which is below the length.
    pub fn ch(&self, i: usize) -> Ch
        requires { i < length self.now }
        ensures item { option_map (λ c. c.0) (slice_get self.now i) ≡ Some (ch_of result) }
        ensures character { IsCharacter (ch_of result) }
    {
        self.text.at(i)
    }

    /// The characters without their properties. They are lent, and nothing is copied.
    pub fn text(&self) -> &Chars
        ensures { result.now.items ≡ map (λ c. c.0) self.now }
    {
        self.text.chars()
    }

    /// The property set of the character at place `i`, which is below the length.
    pub fn props(&self, i: usize) -> &PropSet
        requires { i < length self.now }
        ensures { option_map (λ c. c.1) (slice_get self.now i) ≡ Some result.now }
    {
        set_of(&self.runs, &self.nothing, ending_by(&self.runs, i))
    }

    /// A place behind `i`, which is below the length, up to which each character has the property set of that at `i`. It
    /// need not be the last such place.
    pub fn run_end(&self, i: usize) -> usize
        requires { i < length self.now }
        ensures behind { i < result }
        ensures within { result ≤ length self.now }
        ensures same { (j : ℕ) → i ≤ j → j < result →
            option_map (λ c. c.1) (slice_get self.now j) ≡
            option_map (λ c. c.1) (slice_get self.now i) }
    {
        match self.runs.get(ending_by(&self.runs, i)) {
            Some(run) => run.end,
            None => self.text.len(),
        }
    }

    /// Puts the characters of another piece behind these, with their properties. Want of memory leaves the piece as
    /// it was.
    pub fn append(&mut self, more: &Content) -> Mem<()>
        ensures ok { OnOk result (self.new ≡ self.old ++ more.now) }
        ensures err { OnErr result (self.new ≡ self.old) }
    {
        let size = self.text.len();
        let count = self.runs.len();
        let alloc = *self.runs.allocator();
        let mut new = rest_of(alloc, &self.runs, &self.nothing, count, size)?;
        add_later(&mut new, &more.runs, size)?;
        self.text.reserve(more.text.len())?;
        self.runs.splice(count..count, new)?;
        self.text.extend_spare(&more.text);
        Ok(())
    }

    /// Gives each character from place `from` to the one before place `to` this property set in place of its own. `from`
    /// is at most `to`, and `to` at most the length. Want of memory leaves the piece as it was.
    pub fn put(&mut self, from: usize, to: usize, set: &PropSet) -> Mem<()>
        requires { (from ≤ to) × (to ≤ length self.old) }
        ensures ok { OnOk result (self.new ≡ with_sets from to (edited (Replace set.now)) self.old) }
        ensures err { OnErr result (self.new ≡ self.old) }
    {
        if from == to {
            return Ok(());
        }
        let first = ending_by(&self.runs, from);
        let behind = ending_by(&self.runs, to);
        let mut new = rest_of(
            *self.runs.allocator(),
            &self.runs,
            &self.nothing,
            first,
            from,
        )?;
        new.push(Run {
            end: to,
            set: set.copy()?,
        })?;
        self.runs.splice(first..behind, new)?;
        Ok(())
    }

    /// The same piece, whose characters are shared by copies where they are many.
    pub fn shared(self, alloc: Global) -> Mem<Content>
        ensures { IfOk result (λ p. p ≡ self) }
    {
        Ok(Content {
            text: self.text.shared(alloc)?,
            runs: self.runs,
            nothing: self.nothing,
        })
    }

    /// The characters without their properties, as shared ones.
    pub fn shared_text(&self) -> Mem<Rc<Chars>>
        ensures { IfOk result (λ c. c.value.items ≡ map (λ c. c.0) self.now) }
    {
        self.text.lent()
    }

    /// The same piece again.
    pub fn copy(&self) -> Mem<Content>
        ensures { IfOk result (λ p. p ≡ self.now) }
    {
        let mut runs = Vec::with_capacity(*self.runs.allocator(), self.runs.len())?;
        add_copies(&mut runs, &self.runs)?;
        Ok(Content {
            text: self.text.copy()?,
            runs,
            nothing: self.nothing.copy()?,
        })
    }
}
