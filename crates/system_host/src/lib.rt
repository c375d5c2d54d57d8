//! Children and the standard streams of the system, as the host, the source and the sink of a run.
#![tactic(auto)]

mod children;
mod output;
mod standard;

pub use children::RealHost;
pub use output::{Hand, Output};
pub use standard::{ReaderSource, WriterSink};
