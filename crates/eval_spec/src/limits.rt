// The limits of an evaluation.

/// The most turns of one evaluation, for the start and all constructors together.
pub const MOST_TURNS: u32 = 50_000_000;
/// The most frames and labels that may be open at once.
pub const MOST_DEPTH: u32 = 1_000;
/// The most distinct blocks of 4,096 bytes of the memory that may be written.
pub const MOST_BLOCKS: u32 = 16_384;
