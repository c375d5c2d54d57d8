//! The types that every layer speaks of: characters, symbols, property sets, pieces of text, and where bytes come
//! from and go to.
#![tactic(auto)]

mod character;
mod chars;
mod content;
mod io;
pub mod limits;
mod list;
mod memory;
mod memory_io;
mod null_sink;
mod piece;
mod places;
mod prop_set;
mod property;
mod same;
mod symbol;
mod text;
mod writing;

pub use character::Ch;
pub use chars::Chars;
pub use io::{Sink, SinkFault, Source, Took, Wrote};
pub use list::{Copied, ListOf};
pub use memory::{Mem, NoMemory};
pub use memory_io::{MemorySink, MemorySource};
pub use null_sink::NullSink;
pub use piece::{Piece, PieceRoom};
pub use places::{place_after_delete, place_after_insert};
pub use prop_set::PropSet;
pub use property::{PropVal, SymList};
pub use same::same_option;
pub use symbol::{Sym, Symbols};
pub use writing::{put, write_all};
