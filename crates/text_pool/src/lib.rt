//! A pool of blocks of 256 cells, in which texts keep their characters.
#![tactic(auto)]

mod pool;

pub use pool::{Block, CELLS, Pool, PoolMemory};
