//! One buffer from its beginning to its end: each call at its edges.

mod limits;
pub mod scene;
mod texts;
