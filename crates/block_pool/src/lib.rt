//! A pool of blocks of 4,096 bytes, and a memory over it that can take back what was written since
//! a mark. An evaluation uses it as the memory of its module.
//!
//! Files:
//!
//! - `numbers`: Numbers in little-endian order.
//! - `paged`: A memory of bytes over a pool of blocks of 4,096 bytes.
//! - `pool`: A pool of blocks of 4,096 bytes.
//! - `ranges`: Several blocks at once: fills, copies and searches.
//! - `table`: A memory, as the table of its blocks in a pool.
//! - `specs/Blocks`: What contracts see of a pool of blocks.
//! - `specs/Kept`: How a pool keeps its blocks: the bytes of each block that was ever taken,
//!   whether it is live, and the numbers of the blocks that are not.
//! - `specs/Lending`: How a pool changes while the bytes of one of its blocks are borrowed.
//! - `specs/Pages`: What contracts see of a memory that can take back what was written to it.
//! - `specs/Table`: What the table of blocks and the pool represent together.
#![tactic(auto)]

mod numbers;
mod paged;
mod pool;
mod ranges;
mod table;

pub use paged::{Full, Paged};
pub use pool::{BlockId, Pool};
