//! Overlays by number: stretches of text with properties of their own, that move with every change.
#![tactic(auto)]

mod balance;
mod bounds;
mod laws;
mod moves;
mod overlays;
mod search;
mod slot;
mod tree;

pub use laws::{overlays_keep_their_ends_in_order, the_winner_wins_over_each_other};
pub use overlays::{Numbers, Overlays};
