//! What the kernel asks of the outside and what it is answered: the trait of a host, a host in memory that plays its
//! children from lists, and a recorder that keeps the exchanges of another host.
#![tactic(auto)]

mod answering;
mod asking;
mod host;
mod log;
mod memory_host;
mod play;
mod recorder;
mod shown;

pub use answering::{answer_to_kill, faults_after};
pub use asking::{Answer, Answers, Ask, ByteList, Exchange, Exchanges, WordList, list_of, words};
pub use host::{Ended, Got, Host, KillAnswer, SendAnswer, Spawned};
pub use log::Log;
pub use memory_host::MemoryHost;
pub use play::{Play, end_of};
pub use recorder::Recorder;
