//! Tests alone, of what stands around the editor: decoding, hosts, processes and waits, what is entered for a host's
//! answers, hook lists, natives, line sessions, and scripts that are read from bytes. Fault lines of scripts are those
//! that an independent reader of the grammar told; other values were worked out by hand.
#![tactic(auto)]

#[cfg(test)]
mod answers;
#[cfg(test)]
mod boxes;
#[cfg(test)]
mod checking;
#[cfg(test)]
mod decoding;
#[cfg(test)]
mod hooks;
#[cfg(test)]
mod hosts;
#[cfg(test)]
mod natives;
#[cfg(test)]
mod processes;
#[cfg(test)]
mod scripts;
#[cfg(test)]
mod sessions;
#[cfg(test)]
mod waits;
