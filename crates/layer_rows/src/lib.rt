//! Tests alone, of the layers below one buffer, each by its public calls. All values were worked out by hand.
#![tactic(auto)]

#[cfg(test)]
mod blocks;
#[cfg(test)]
mod checking;
#[cfg(test)]
mod inherited;
#[cfg(test)]
mod lists;
#[cfg(test)]
mod markers;
#[cfg(test)]
mod narrowing;
#[cfg(test)]
mod overlays;
#[cfg(test)]
mod pieces;
#[cfg(test)]
mod properties;
#[cfg(test)]
mod records;
#[cfg(test)]
mod sources;
#[cfg(test)]
mod symbols;
#[cfg(test)]
mod texts;
#[cfg(test)]
mod values;
