//! Which text properties an inserted character takes from its two neighbours.
#![tactic(auto)]

mod inherit;
mod laws;
mod side;

pub use inherit::{inherited, inherits};
pub use laws::{the_character_before_comes_first, what_neighbours_offer};
