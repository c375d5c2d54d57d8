//! Tests alone: whole runs in memory, with their lines and exchanges. All were worked out by hand.
#![tactic(auto)]

#[cfg(test)]
mod acting;
#[cfg(test)]
mod checking;
#[cfg(test)]
mod codings;
#[cfg(test)]
mod comparing;
#[cfg(test)]
mod cuts;
#[cfg(test)]
mod drills;
#[cfg(test)]
mod edits;
#[cfg(test)]
mod filters;
#[cfg(test)]
mod generated;
#[cfg(test)]
mod hooks;
#[cfg(test)]
mod hostile;
#[cfg(test)]
mod limits;
#[cfg(test)]
mod natives;
#[cfg(test)]
mod nesting;
#[cfg(test)]
mod playing;
#[cfg(test)]
mod read_only;
#[cfg(test)]
mod recording;
#[cfg(test)]
mod reentry;
#[cfg(test)]
mod replaying;
#[cfg(test)]
mod runs;
#[cfg(test)]
mod sessions;
#[cfg(test)]
mod shown;
#[cfg(test)]
mod stops;
#[cfg(test)]
mod system;
#[cfg(test)]
mod texts;
#[cfg(test)]
mod undos;
#[cfg(test)]
mod viewing;
#[cfg(test)]
mod waits;
#[cfg(test)]
mod words;
