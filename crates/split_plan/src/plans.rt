use wasm_bytes::Items;

/// Which functions move, and which stay although they were asked to move. Both lists ascend.
#[derive(Drop)]
pub struct Plan {
    /// The functions that move to the secondary module.
    pub moved: Items<u32>,
    /// The functions that were asked to move, and stay because their bodies name segments.
    pub kept: Items<u32>,
}
