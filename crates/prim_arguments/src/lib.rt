//! The arguments of calls on the editor: what each is, and what refuses it.
#![tactic(auto)]

mod failure;
pub mod kinds;
pub mod limits;
pub mod objects;
pub mod places;
pub mod property_lists;
pub mod property_values;
pub mod values;

pub use failure::Failure;
