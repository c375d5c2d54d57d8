//! A sink and a host that count what a run does.
#![tactic(auto)]

mod counting_host;
mod counting_sink;

pub use counting_host::CountingHost;
pub use counting_sink::CountingSink;
