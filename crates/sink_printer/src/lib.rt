//! A printer: it gathers bytes on the way to a sink, and after a failure writes nothing more.
#![tactic(auto)]

mod printer;

pub use printer::Printer;
