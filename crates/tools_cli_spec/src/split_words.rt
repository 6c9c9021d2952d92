use wasm_bytes::{Items, Name};

/// The names of functions to move and of functions to keep, for each list that is given.
#[derive(Drop)]
pub struct SplitWords {
    pub split: Option<Items<Name>>,
    pub keep: Option<Items<Name>>,
}
