//! Tests of base_kept, base_paths, wasm_bytes and block_pool.
#![tactic(auto)]

#[cfg(test)]
mod bytes;
#[cfg(test)]
mod kept;
#[cfg(test)]
mod paths;
#[cfg(test)]
mod pool;
