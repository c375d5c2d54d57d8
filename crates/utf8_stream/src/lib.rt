//! Decoding of bytes that come in pieces: characters as soon as their bytes are there, and no byte lost between two
//! pieces.
#![tactic(auto)]

mod coding;
mod decoder;
mod decoding;
mod laws;
mod sequence;

pub use coding::Coding;
pub use decoder::Decoder;
pub use laws::{all_in_pieces, any_cutting, characters_in_pieces, tail_in_pieces};
