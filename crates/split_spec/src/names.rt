use wasm_bytes::Name;

/// The names that a split adds.
#[derive(Drop)]
pub struct SplitNames {
    /// The module name under which the secondary module imports from the primary one.
    pub import_namespace: Name,
    /// The module name under which the primary module imports the placeholders.
    pub placeholder_namespace: Name,
    /// The prefix of the names of the exports that the primary module has for the secondary one.
    pub export_prefix: Name,
}
