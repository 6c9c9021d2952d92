use wasm_bytes::Name;

/// A function's index in the function index space, and its name.
#[derive(Drop)]
pub struct FuncName {
    pub index: u32,
    pub name: Name,
}
