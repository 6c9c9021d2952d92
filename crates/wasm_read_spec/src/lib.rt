//! Which bytes encode a module, what is within the limits, and the first fault of a file:
//! definitions, and laws about them.
//!
//! Files:
//!
//! - `fault`: Why an item could not be read.
//! - `laws`: Laws about the definitions, as contracts of calls that do nothing.
//! - `parts`: What each section contains.
//! - `token`: An opcode with its immediates.
//! - `specs/Bodies`: The instructions that tokens encode, and code entries (Core 2.0, 5.4.1, 5.4.9
//!   and 5.5.13).
//! - `specs/BodyReading`: Reading functions for tokens and their nesting, in the order of the
//!   bytes.
//! - `specs/Causes`: What each fault says about the bytes.
//! - `specs/Contents`: Reading functions for the contents of the sections, in the order of the
//!   file, and the first fault of the file.
//! - `specs/Cut`: Files that are cut short.
//! - `specs/Exact`: Readers that find what is encoded and small, and nothing else.
//! - `specs/Files`: Module files (Core 2.0, 5.5).
//! - `specs/Operations`: The opcodes of the operations, loads and stores (Core 2.0, 5.4.6 and
//!   5.4.7).
//! - `specs/Reading`: Reading functions on lists of bytes, with the first fault that they meet.
//! - `specs/Sections`: The contents of the sections, except the code section (Core 2.0, 5.5).
//! - `specs/SpellingForms`: Encodings made of others, besides those of wasm_bytes: relations
//!   between a whole list of bytes and a value.
//! - `specs/Stops`: Stops: the first bytes of a form that is not supported, or a quantity over its
//!   limit.
//! - `specs/Tokens`: Which bytes encode a token: an opcode with its immediates (Core 2.0, 5.4).
//! - `specs/Unambiguous`: Sections are encoded unambiguously. (The grammar of the binary format
//!   defines a decoding function.
//! - `specs/Values`: Types and constant expressions (Core 2.0, 5.3 and 5.4.9).
#![tactic(auto)]

mod fault;
mod laws;
mod parts;
mod token;

pub use fault::{Fault, ReadFault};
pub use laws::{
    body_encodings_are_prefix_free, cut_files_end_with_a_frame, decoding_is_unique,
    encoded_bodies_name_memory_zero, encoded_files_are_within_limits_where_none_is_exceeded,
    encoded_trees_are_bounded, faults_have_causes, framing_is_decided, no_fault_where_encoded,
    reading_is_exact, section_encodings_are_unambiguous, sequences_are_read_token_by_token,
};
pub use parts::Parts;
pub use token::{Opener, Sequence, Token};
