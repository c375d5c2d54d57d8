//! Tests alone, of what is written: lines and dumps, views, journals, their replays and transcripts. All values were
//! worked out by hand.
#![tactic(auto)]

#[cfg(test)]
mod checking;
#[cfg(test)]
mod dumps;
#[cfg(test)]
mod journals;
#[cfg(test)]
mod lines;
#[cfg(test)]
mod replays;
#[cfg(test)]
mod transcripts;
#[cfg(test)]
mod views;
