//! The property sets of a text, one per character, kept as runs of one set in a balanced tree.
#![tactic(auto)]

mod balance;
mod change;
mod cut;
mod edit;
mod laws;
mod lent;
mod pieces;
mod props;
mod questions;
mod splice;
mod tree;

pub use edit::PropEdit;
pub use laws::same_sets_have_the_same_pairs;
pub use lent::{Parted, Runs};
pub use pieces::{length_of, run_end_in};
pub use props::Props;
