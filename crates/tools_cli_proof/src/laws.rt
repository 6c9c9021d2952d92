// Laws of the definitions that the contract of `run` uses. Each is the contract of a function that
// does nothing.
ghost use Rattle.std.specs.Prelude.{◌≡◌, List, ℕ};
ghost use Rattle.tool_io.specs.FilesAndSinks.{FileContents};
ghost use Rattle.tools_cli_spec.specs.Effects.{NamedFile, made};
ghost use Rattle.tools_cli_spec.specs.Job.{Done, Job, HasJob, InputsHoldBytes};
ghost use Rattle.tools_cli_spec.specs.Faithful.{IsFaithful, ReadsBytes, SplitWordsAreText};

use crate::evaluated::{
    evaluated_modules_are_snapshots, evaluated_modules_are_valid, evaluated_modules_behave,
};
use dce_graph::exact_marks_exist;
use dce_proof::{
    reached_marks_are_closed, swept_module_equivalent, swept_modules_are_in_range,
    swept_modules_are_valid,
};
use eval_snapshot_proof::{encoded_trees_begin_in_range, snapshots_are_in_range};
use merge_proof::{
    merged_module_equivalent, merged_modules_are_in_range, merged_modules_are_valid,
    sequential_instantiation_equivalent,
};
use merge_spec::link_faults_name_parts;
use split_plan::{plan_faults_have_causes, what_is_planned_is_a_plan};
use split_proof::{
    pairs_can_be_split, primary_modules_are_valid, secondary_modules_are_valid,
    secondary_modules_load, split_module_equivalent, split_modules_are_in_range,
};
use wasm_gen::sample_modules_are_valid;
use wasm_names::name_lists_are_those_of_the_first_name_section;
use wasm_read_spec::{
    decoding_is_unique, encoded_trees_are_bounded, faults_have_causes, no_fault_where_encoded,
};
use wasm_valid::{modules_are_valid_or_have_a_first_invalid_item, valid_code_names_memory_zero};
use wasm_write_proof::{
    canonical_encoding_encodes, encoded_trees_are_in_range, trees_that_fit_have_small_sizes,
};

/// States that a command line has at most one job over some files, if those that it reads hold bytes.
pub fn jobs_are_determined()
    ensures { (words : List (List ℕ)) (files : FileContents) (one other : Job) → InputsHoldBytes words files → HasJob words files one → HasJob words files other → one ≡ other }
{
    decoding_is_unique();
    no_fault_where_encoded();
    exact_marks_exist();
    name_lists_are_those_of_the_first_name_section();
}

/// States that every command line has a job over some files, if those that it reads hold bytes.
pub fn command_lines_have_jobs()
    ensures exists { (words : List (List ℕ)) (files : FileContents) → InputsHoldBytes words files → (job : Job) × HasJob words files job }
{
    no_fault_where_encoded();
    faults_have_causes();
    modules_are_valid_or_have_a_first_invalid_item();
    link_faults_name_parts();
    exact_marks_exist();
    name_lists_are_those_of_the_first_name_section();
    plan_faults_have_causes();
}

/// States that a job which is done is faithful (`IsFaithful`, with a case for each command): after
/// its writes, each output is a valid module, is what the command makes of the modules and texts
/// that were read, and is observationally equivalent to the original of its command. Premises: the
/// files that are read hold bytes, and the arguments of a split are UTF-8.
pub fn done_jobs_are_faithful()
    ensures faithful { (words : List (List ℕ)) (before : FileContents) (writes : List NamedFile) (lines : List ℕ) → SplitWordsAreText words → ReadsBytes words before →
        HasJob words before (Done writes lines) → IsFaithful words before (made writes before) }
{
    canonical_encoding_encodes();
    trees_that_fit_have_small_sizes();
    encoded_trees_are_in_range();
    encoded_trees_are_bounded();
    link_faults_name_parts();
    merged_modules_are_valid();
    merged_modules_are_in_range();
    merged_module_equivalent();
    sequential_instantiation_equivalent();
    sample_modules_are_valid();
    reached_marks_are_closed();
    swept_modules_are_valid();
    swept_modules_are_in_range();
    swept_module_equivalent();
    primary_modules_are_valid();
    secondary_modules_are_valid();
    split_modules_are_in_range();
    what_is_planned_is_a_plan();
    pairs_can_be_split();
    split_module_equivalent();
    secondary_modules_load();
    encoded_trees_begin_in_range();
    evaluated_modules_are_snapshots();
    evaluated_modules_are_valid();
    evaluated_modules_behave();
    snapshots_are_in_range();
    valid_code_names_memory_zero();
}
