//! The calls that ask, or set state, and change no text.
#![tactic(auto)]

pub mod buffers;
pub mod markers;
mod names;
pub mod overlay_questions;
pub mod overlays;
pub mod properties;
pub mod undo_records;
