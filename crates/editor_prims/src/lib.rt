//! The calls on buffers, texts, markers, properties, overlays and undo, on the whole editor.
#![tactic(auto)]

mod table;

pub use prim_arguments::Failure;
pub use prim_changes::{
    Change, Committed, Pieces, Prepared, What, commit, commit_at, prepare_output,
};
pub use table::{apply, arg, nil, prepare, query};
