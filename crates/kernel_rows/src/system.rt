//! Children and streams of the system, and runs with the shipped handlers over real children.

mod children;
mod failures;
mod outputs;
mod shipped;
mod streams;
