//! The canonical encoding of a module: only definitions, which the writer and its callers cite.
//!
//! Files:
//!
//! - `specs/Plain`: The canonical encoding of a module (Core 2.0, 5.5): the sections in their
//!   order, none of them empty or custom, each number in its shortest encoding, and a data count
//!   exactly if a body has memory.init or data.drop.
//! - `specs/PlainCode`: The canonical encoding of bodies and code entries (Core 2.0, 5.4 and
//!   5.5.13).
//! - `specs/PlainValues`: The canonical encoding of types, constant expressions, and the contents
//!   of sections except code (Core 2.0, 5.3 and 5.5).
#![tactic(auto)]
