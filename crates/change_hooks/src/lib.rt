//! Which functions hear of the changes of each buffer, and whether any does at all.
#![tactic(auto)]

mod hooks;
mod lists;

pub use hooks::{Hooks, MOST_HOOKS};
pub use lists::{holds, remove_from};
