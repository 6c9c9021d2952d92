//! Splits a module in two: some functions move to a secondary module, and the primary module calls
//! them through the slots of a table that the split adds.
//!
//! Files:
//!
//! - `call_replacement`: Replaces calls of moved functions in code.
//! - `early_counts`: The counts that are tested before anything is built.
//! - `early_faults`: The faults of a split that are reported before anything is built.
//! - `entities`: What a module has in its index spaces.
//! - `exports`: The exports that the primary module has for the secondary one.
//! - `fault_checks`: Tests for a taken namespace and for too many parameters.
//! - `function_division`: Divides the defined functions: each moved function is taken out and
//!   leaves a trampoline, and the others call the moved ones through their slots.
//! - `imports_from_primary`: What the secondary module imports from the primary one.
//! - `index_maps`: The remaps of both modules.
//! - `input_survey`: What the split looks up in the input module before it changes anything.
//! - `module_drafts`: Drafts: both modules of a split, still in the indices of the input module.
//! - `module_pair`: The public call `split`: survey, refusals, drafts, both finished modules.
//! - `named_entities`: What functions name, leaving out calls of functions that move.
//! - `needed_trampolines`: Which moved functions need a trampoline.
//! - `own_indices`: The indices of each module of a split.
//! - `primary_function_indices`: Where functions go in the primary module.
//! - `primary_module`: What stays in the primary module, and what is added to it.
//! - `secondary_module`: The secondary module, still in the indices of the input module.
//! - `slot_table_items`: Placeholders, the slot table, and the segments that fill its slots.
//! - `slots`: Which functions move, and the slot of each.
//! - `taken_export_names`: Which name of an added export the module already has.
//! - `trampolines`: Trampolines.
//! - `types`: The types of a module, and the type index of each function.
//! - `specs/DividedDefinitions`: What becomes of the defined functions.
//! - `specs/EntityDescriptions`: The functions, tables, memories or globals of a module, each as
//!   an import would describe it.
//! - `specs/ExportList`: What the primary module exports for secondary ones, from marks.
//! - `specs/ImportList`: What a secondary module imports from the primary one, from marks.
//! - `specs/InstructionReplacements`: What replaces calls, instruction by instruction.
//! - `specs/OperandMarks`: Marks of what functions name, leaving out calls of functions that have
//!   slots.
//! - `specs/PlaceholderList`: Imports of placeholders, from the type indices of functions.
//! - `specs/RemapsFromMarks`: The remaps of both modules, from marks.
//! - `specs/SlotLookup`: Looking up slots in a list with an entry for each function.
//! - `specs/SurveysAndDrafts`: What is known of the input module, the faults that are reported
//!   first, and the drafts.
#![tactic(auto)]

mod call_replacement;
mod early_counts;
mod early_faults;
mod entities;
mod exports;
mod fault_checks;
mod function_division;
mod imports_from_primary;
mod index_maps;
mod input_survey;
mod module_drafts;
mod module_pair;
mod named_entities;
mod needed_trampolines;
mod own_indices;
mod primary_function_indices;
mod primary_module;
mod secondary_module;
mod slot_table_items;
mod slots;
mod taken_export_names;
mod trampolines;
mod types;

pub use module_pair::{Pair, split};
pub use needed_trampolines::needed;
pub use split_spec::{SplitFault, SplitNames};
