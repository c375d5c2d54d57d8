//! What is entered.
ghost use Rattle.std.specs.Prelude.{◌≡◌, ◌≤◌, ◌↔◌, List, [], ◌∷◌, map, option_map};
ghost use Rattle.text_model.specs.Properties.{bare};
ghost use Rattle.editor_model.specs.Values.{Str, TheProcess};
ghost use Rattle.plain_machine.specs.State.{State, Process as Meant};
ghost use Rattle.plain_machine.specs.Items.{Item};
ghost use Rattle.plain_machine.specs.Waits.{entry_of, filter_handler};
ghost use Rattle.process_table.specs.Meaning.{filter_of};
ghost use Rattle.ek_types.specs.Listing.{items_of, spare_of};
ghost use Rattle.ek_types.specs.Property.{number_of};
ghost use Rattle.ek_call.specs.Meaning.{view};
ghost use Rattle.handler_run.specs.Entries.{entering};

use ek_call::{Value, Values};
use ek_types::{Chars, PieceRoom, Sym};
use process_table::Filter;

/// The filter or the sentinel of a process that is to be entered, with its arguments: the process and a text. Without a
/// handler of its own it is the default one (GNU Emacs Lisp Reference Manual, Filter Functions and Sentinels).
#[derive(Drop)]
pub enum Entry {
    Filter(Option<Sym>, Values),
    Sentinel(Option<Sym>, Values),
    /// Nothing is entered.
    None,
}

/// The arguments of a filter or sentinel, put where there is room for them.
pub(crate) fn arguments(room: Values, piece: PieceRoom, p: u32, text: Chars) -> Values
    requires empty { items_of room ≡ [] }
    requires room { 2 ≤ spare_of room }
    ensures { map view (items_of result) ≡ TheProcess p ∷ Str (bare text.items) ∷ [] }
{
    let mut args = room;
    args.push_spare(Value::Process(p));
    args.push_spare(Value::Str(piece.filled(text)));
    args
}

/// The handler of a filter, if it has one of its own.
fn handler_of(filter: Filter) -> Option<Sym>
    ensures { option_map number_of result ≡ filter_handler (filter_of filter) }
{
    match filter {
        Filter::Named(name) => Some(name),
        Filter::Default | Filter::Off => None,
    }
}

/// The entry of a filter with the characters that came out, if any did.
pub(crate) fn filter_entry(
    filter: Filter,
    p: u32,
    text: Chars,
    piece: PieceRoom,
    room: Values,
) -> Entry
    requires empty { items_of room ≡ [] }
    requires room { 2 ≤ spare_of room }
    ensures none { (result ≡ Entry.None) ↔ (text.items ≡ []) }
    ensures machine { (s : State) (x : Meant) (rest : List Item) → x.filter ≡ filter_of filter →
        entry_of s p x text.items rest ≡ entering p result rest }
{
    if text.is_empty() {
        return Entry::None;
    }
    Entry::Filter(handler_of(filter), arguments(room, piece, p, text))
}
