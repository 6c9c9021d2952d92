//! Defines the two modules of a split, the names that it adds, and its faults. `proofs/SmallSplits`
//! computes both modules of small splits.
//!
//! Files:
//!
//! - `faults`: The faults of a split.
//! - `names`: The names that a split adds.
//! - `specs/Examples`: Words and small modules of the computed examples of a split.
//! - `specs/FaultOrder`: Why a module is not split: the first fault, in the order in which faults
//!   are reported.
//! - `specs/FromPrimary`: What a secondary module imports from the primary one besides the slot
//!   table: all that its functions name, except moved functions that they only call.
//! - `specs/Primary`: The primary module: it keeps everything but the moved functions, and calls
//!   these through the slots.
//! - `specs/Secondary`: A secondary module: it defines moved functions, imports from the primary
//!   module what they name, and puts them into their slots when it is instantiated.
//! - `specs/SplitSlots`: The slots of a split.
//! - `specs/SubstitutedCalls`: Code in which other code replaces each `call`, in blocks as well.
//! - `specs/TrampolineNeeds`: Which moved functions need a trampoline: those that anything but a
//!   `call` names.
#![tactic(auto)]

mod faults;
mod names;

pub use faults::SplitFault;
pub use names::SplitNames;
