//! Texts in blocks of a pool, with a gap among their cells.
#![tactic(auto)]

mod growth;
mod row;
mod text;

pub use text::Text;
