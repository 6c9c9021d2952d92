//! Reads the names that a module file gives its functions: the name section (WebAssembly Core 2.0,
//! section 7.4.1).
//!
//! Files:
//!
//! - `file`: The name section of a file.
//! - `func_name`: A function's index in the function index space, and its name.
//! - `laws`: The law that a file has exactly one name list.
//! - `name_map`: Maps from indices to names.
//! - `section`: The subsections of a name section.
//! - `specs/NameList`: The names that a file gives its functions: which bytes encode them.
//! - `specs/Reading`: Reading function names from the left, and the name list of a file as a
//!   function of its bytes.
#![tactic(auto)]

mod file;
mod func_name;
mod laws;
mod name_map;
mod section;

pub use file::function_names;
pub use func_name::FuncName;
pub use laws::name_lists_are_those_of_the_first_name_section;
