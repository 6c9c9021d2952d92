// The result of `sample`.

use wasm_valid::Valid;

/// The two modules of a sample. The second imports all functions of the first, from module `a`.
#[derive(Drop)]
pub struct Sample {
    pub first: Valid,
    pub second: Valid,
}
