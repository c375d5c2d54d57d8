//! Handlers as code: bodies of the script, and natives, which are handlers of the program itself.
#![tactic(auto)]

mod asking;
mod body;
mod calls;
mod made;
mod native;
mod no_natives;
mod normal;

pub use asking::{ask, ask_with, copied};
pub use body::Body;
pub use calls::allowed;
pub use made::Made;
pub use native::{NativeCall, Natives, Next};
pub use no_natives::NoNatives;
