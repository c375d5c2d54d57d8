//! All buffers of a run: their names, the current one, what stands beside their texts, and the registers.
#![tactic(auto)]

mod editor;
mod lending;
mod on_buffer;
mod on_marks;
mod previews;
mod properties;
mod questions;
mod read_only;
mod registers;
mod room;
mod table;
mod whole;

pub use editor::Editor;
pub use lending::BufferText;
pub use room::BufferRoom;
