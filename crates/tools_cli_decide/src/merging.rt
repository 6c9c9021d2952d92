// What `merge` decides.
ghost use Rattle.std.specs.Prelude.{◌≡◌, ◌≤◌, ◌<◌, ◌^◌, false, length, IfOk, IfErr};
ghost use Rattle.base_lists.specs.Every.{Every};
ghost use Rattle.merge_spec.specs.Parts.{named_modules, HaveDistinctNames};
ghost use Rattle.merge_spec.specs.Joined.{FewInAll};
ghost use Rattle.wasm_meaning.specs.Linking.{sites};
ghost use Rattle.tools_cli_decide.specs.Command.{merge_value, decision_value};
ghost use Rattle.tools_cli_decide.specs.Sources.{source_values};
ghost use Rattle.tools_cli_spec.specs.Job.{Merges, Refuses, AreMerged, parts_of, most_parts};
ghost use Rattle.tools_cli_decide.specs.Causes.{IsWithinLimits, StopsWith, MergeFails};

use crate::merge::{MergeTask, Source};
use crate::output::{Decision, one_output};
use crate::refusal::{refuse_join, refuse_link};
use crate::stop::Stop;
use merge_join::join;
use merge_link::resolve;
use merge_spec::{Part, link_faults_name_parts};
use std::alloc::Global;
use wasm_bytes::{Items, Name, NoMemory};
use wasm_valid::Valid;

// Makes the parts of a merge: the modules, each with the name of its source.
fn name_parts(
    alloc: Global,
    sources: &[Source<'_>],
    modules: Vec<Valid>,
) -> Result<Items<Part>, NoMemory>
    requires { length modules.items ≤ length sources.now }
    ensures { IfOk result (λ parts. named_modules parts ≡ parts_of (source_values sources.now) modules.items) }
{
    let mut parts = Items::new(alloc);
    for module in modules {
        let name = Name::from_text(alloc, sources[parts.len()].name)?;
        parts.keep(Part { name, module })?;
    }
    Ok(parts)
}

// Links and joins the parts; refuses a fault.
fn merge_parts<'a>(
    alloc: Global,
    merge: &MergeTask<'a>,
    parts: Items<Part>,
) -> Result<Valid, Stop<'a>>
    requires names { HaveDistinctNames parts }
    requires each { length parts ≡ length merge.now.sources.items }
    requires imports { length (sites (named_modules parts)) < 2 ^ 32 }
    requires few { FewInAll (named_modules parts) }
    ensures merged { IfOk result (λ tree. AreMerged false (named_modules parts) merge.now.mode tree) }
    ensures stops { IfErr result (StopsWith (MergeFails (merge_value merge.now) (named_modules parts))) }
{
    link_faults_name_parts();
    let links = match resolve(alloc, &parts) {
        Ok(links) => links,
        Err(fault) => {
            let refusal = refuse_link(alloc, merge.sources.as_slice(), fault)?;
            return Err(Stop::Refused(refusal));
        }
    };
    match join(alloc, parts, &links, merge.mode) {
        Ok(tree) => Ok(tree),
        Err(fault) => Err(Stop::Refused(refuse_join(fault)?)),
    }
}

/// Merges these modules, one for each source.
pub(crate) fn merge_modules<'a>(
    alloc: Global,
    merge: &MergeTask<'a>,
    modules: Vec<Valid>,
) -> Result<Valid, Stop<'a>>
    requires each { length modules.items ≡ length merge.now.sources.items }
    requires within { Every IsWithinLimits modules.items }
    requires few { length merge.now.sources.items ≤ most_parts }
    ensures merged { IfOk result (λ tree. AreMerged false (parts_of (merge_value merge.now).sources modules.items) merge.now.mode tree) }
    ensures stops { IfErr result (StopsWith (λ text. Merges (merge_value merge.now) modules.items (Refuses text))) }
{
    let parts = name_parts(alloc, merge.sources.as_slice(), modules)?;
    merge_parts(alloc, merge, parts)
}

/// Decides a `merge` task with these modules, one for each source.
pub fn decide_merge<'a>(
    alloc: Global,
    merge: &MergeTask<'a>,
    modules: Vec<Valid>,
) -> Result<Decision, Stop<'a>>
    requires each { length modules.items ≡ length merge.now.sources.items }
    requires within { Every IsWithinLimits modules.items }
    requires few { length merge.now.sources.items ≤ most_parts }
    ensures decided { IfOk result (λ decision. Merges (merge_value merge.now) modules.items (decision_value decision)) }
    ensures stops { IfErr result (StopsWith (λ text. Merges (merge_value merge.now) modules.items (Refuses text))) }
{
    let tree = merge_modules(alloc, merge, modules)?;
    let lines = Vec::new(alloc);
    Ok(one_output(alloc, merge.output, tree, lines)?)
}
