//! The bytes of a module file: numbers, names and section frames, and the lists of the module tree.
//!
//! Files:
//!
//! - `cursor`: A cursor, which reads bytes from the left.
//! - `framing`: A section in a file: its id, and where its content starts and how long it is.
//! - `items`: A list over a `Vec`.
//! - `laws`: Laws of encodings of numbers.
//! - `name`: UTF-8 text, as in the names of imports and exports.
//! - `numbers`: LEB128 numbers of any width.
//! - `out`: Bytes to which calls append.
//! - `spelled`: Shortest encodings of numbers.
//! - `specs/FrameViews`: The frames of a file as parts of its bytes.
//! - `specs/Frames`: The sections of a file, in order (Core 2.0, 5.5.2 and 5.5.16).
//! - `specs/Joins`: Encodings made of others: relations between a whole list of bytes and a value.
//! - `specs/Lending`: Lists of which an item is lent.
//! - `specs/Numbers`: Encodings of numbers (Core 2.0, 5.2.2): seven bits in each byte, the lowest
//!   first; bit 7 says that another byte follows.
//! - `specs/Reading`: Reading functions on lists: the value at the front and the bytes after it,
//!   or what is wrong.
//! - `specs/Writing`: The shortest encoding of a number (Core 2.0, 5.2.2).
#![tactic(auto)]

mod cursor;
mod framing;
mod items;
mod laws;
mod name;
mod numbers;
mod out;
mod spelled;

pub use cursor::{Cursor, Wrong};
pub use framing::{Frame, FrameFault, frames};
pub use items::Items;
pub use laws::{
    encoded_numbers_are_in_range, frames_are_read, integer_encodings_are_prefix_free,
    shortest_encodings,
};
pub use name::{Name, NoMemory};
pub use out::Out;
