//! Calls on the editor alone, one after the other, with the reply of each. All replies were worked out by hand.

mod bounds;
mod buffers;
mod kinds;
mod limits;
mod markers;
mod output;
mod overlays;
mod playing;
mod properties;
mod read_only;
mod shown;
mod texts;
mod undo;
pub mod words;
