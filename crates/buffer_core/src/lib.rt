//! One buffer: its text with properties, the accessible portion, and what its changes do to it and to what stands beside
//! the texts.
#![tactic(auto)]

mod buffer;
mod margins;
mod marks;
mod moving_back;
mod names;
mod pieces;
mod recording;
mod replace;
mod reprop;
mod undoing;

pub use buffer::Buffer;
pub use marks::Marks;
pub use pieces::are_empty;
