// The parts of a merge.

use wasm_bytes::Name;
use wasm_valid::Valid;

/// A module with the name by which other parts import from it.
#[derive(Drop)]
pub struct Part {
    pub name: Name,
    pub module: Valid,
}
