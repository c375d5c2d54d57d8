//! Tests alone: of one buffer, of the whole editor, and of rows of calls on it. All values were worked out by hand.
#![tactic(auto)]

#[cfg(test)]
mod buffers;
#[cfg(test)]
mod calls;
#[cfg(test)]
mod checking;
#[cfg(test)]
mod one_buffer;
