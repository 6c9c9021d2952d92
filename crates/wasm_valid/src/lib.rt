//! Validation of modules (WebAssembly Core 2.0, chapter 3, for the integer profile): it accepts a
//! module, or reports its first invalid item.
//!
//! Files:
//!
//! - `constants`: Constant expressions.
//! - `first`: The first invalid item.
//! - `holds`: The validity of items by their kind.
//! - `items`: When each item is valid.
//! - `kinds`: Items that can be invalid.
//! - `laws`: Laws of valid modules.
//! - `named`: The functions that `ref.func` may name in a body.
//! - `repeated`: Export names that occurred before.
//! - `spaces`: The index spaces of a module, each computed once.
//! - `validation`: Modules that are known to be valid.
//! - `written`: What the binary format requires of a module, except sizes.
//! - `specs/Constants`: Constant expressions.
//! - `specs/First`: The first invalid item.
//! - `specs/Named`: The functions that `ref.func` may name in a body: those that the module names
//!   outside its bodies and its start.
//! - `specs/Names`: Repeated names.
//! - `specs/Rejection`: Why a module is rejected.
//! - `specs/SpaceTypes`: The reference types of tables and element segments.
//! - `specs/Validity`: When a module is valid: each of its items is.
#![tactic(auto)]

mod constants;
mod first;
mod holds;
mod items;
mod kinds;
mod laws;
mod named;
mod repeated;
mod spaces;
mod validation;
mod written;

pub use kinds::{Invalid, ItemKind};
pub use laws::{
    modules_are_valid_or_have_a_first_invalid_item, valid_code_names_memory_zero,
    valid_where_items_hold,
};
pub use named::{mark, mark_const, named_funcs};
pub use validation::{Rejected, Valid, validate};
