// Refusals and their texts.
ghost use Rattle.std.specs.Prelude.{◌≡◌, ◌++◌, Some, IfOk, decimal, flat_map, length, slice_get, codes, ◌<◌};
ghost use Rattle.tools_cli_spec.specs.Texts.{which_text, fault_text, kind_text, invalid_text, link_text, join_text, graph_text, sweep_text, plan_text, split_text, eval_text};
ghost use Rattle.tools_cli_decide.specs.Refusals.{refusal_text};
ghost use Rattle.tools_cli_decide.specs.Sources.{files_of};
ghost use Rattle.merge_spec.specs.Faults.{NamesPart};

use crate::digits::Digits;
use crate::merge::Source;
use dce_graph::GraphFault;
use dce_sweep::SweepFault;
use merge_spec::{JoinFault, LinkFault};
use split_plan::PlanFault;
use split_slots::SplitFault;
use std::alloc::Global;
use tools_cli_spec::EvalFault;
use wasm_bytes::{Name, NoMemory};
use wasm_read::ReadFault;
use wasm_tree::Which;
use wasm_valid::{Invalid, ItemKind};

/// Why the input is refused, with what the text of the refusal names.
#[derive(Drop)]
pub enum Refusal<'a> {
    NotModule {
        file: &'a str,
    },
    Malformed {
        file: &'a str,
        section: Digits,
    },
    MalformedBody {
        file: &'a str,
        func: Digits,
    },
    Unsupported {
        file: &'a str,
        section: Digits,
    },
    UnsupportedBody {
        file: &'a str,
        func: Digits,
    },
    Limit {
        file: &'a str,
        which: Which,
    },
    Invalid {
        file: &'a str,
        kind: ItemKind,
        index: Digits,
    },
    TooManyParts,
    ImportMismatch {
        file: &'a str,
        import: Digits,
    },
    ImportCycle {
        file: &'a str,
        import: Digits,
    },
    LimitsClash {
        file: &'a str,
        import: Digits,
    },
    TooManyMemories,
    GlobalCycle {
        file: &'a str,
        global: Digits,
    },
    ExportConflict {
        name: Name,
    },
    TooMany {
        which: Which,
    },
    GraphText {
        file: &'a str,
    },
    GraphShape {
        file: &'a str,
        entry: Digits,
    },
    NodeTwice {
        file: &'a str,
        name: Name,
    },
    UnknownNode {
        file: &'a str,
        name: Name,
    },
    NoSuchFunction {
        name: Name,
    },
    AmbiguousFunction {
        name: Name,
    },
    KeptAndSplit {
        name: Name,
    },
    NamespaceTaken {
        file: &'a str,
        import: Digits,
    },
    PrefixTaken {
        name: Name,
    },
    NoSuchExport {
        name: Name,
    },
}

/// Makes the refusal of a file for its first fault. The fault `NoMemory` becomes the error.
pub fn refuse_fault<'a>(
    alloc: Global,
    file: &'a str,
    fault: ReadFault,
) -> Result<Refusal<'a>, NoMemory>
    ensures { IfOk result (λ refusal. fault_text file.entry.now fault ≡ Some (refusal_text refusal)) }
{
    match fault {
        ReadFault::NotModule => Ok(Refusal::NotModule { file }),
        ReadFault::Malformed { section } => Ok(Refusal::Malformed {
            file,
            section: Digits::new(alloc, section)?,
        }),
        ReadFault::MalformedBody { func } => Ok(Refusal::MalformedBody {
            file,
            func: Digits::new(alloc, func)?,
        }),
        ReadFault::Unsupported {
            section,
            func: None,
        } => Ok(Refusal::Unsupported {
            file,
            section: Digits::new(alloc, section)?,
        }),
        ReadFault::Unsupported {
            func: Some(func),
            ..
        } => Ok(Refusal::UnsupportedBody {
            file,
            func: Digits::new(alloc, func)?,
        }),
        ReadFault::Limit { which } => Ok(Refusal::Limit { file, which }),
        ReadFault::NoMemory => Err(NoMemory),
    }
}

/// Makes the refusal of a file for the first invalid item of its module.
pub fn refuse_item<'a>(alloc: Global, file: &'a str, item: Invalid) -> Result<Refusal<'a>, NoMemory>
    ensures { IfOk result (λ refusal. refusal_text refusal ≡ invalid_text file.entry.now item) }
{
    let index = Digits::new(alloc, item.index)?;
    Ok(Refusal::Invalid {
        file,
        kind: item.kind,
        index,
    })
}

// The file of a part.
fn file_of<'a>(sources: &[Source<'a>], part: u32) -> &'a str
    requires { part < length sources.now }
    ensures { slice_get (files_of sources.now) part ≡ Some result.now }
{
    sources[part as usize].file
}

/// Makes the refusal of parts that do not link. The fault `NoMemory` becomes the error.
pub(crate) fn refuse_link<'a>(
    alloc: Global,
    sources: &[Source<'a>],
    fault: LinkFault,
) -> Result<Refusal<'a>, NoMemory>
    requires { NamesPart (length sources.now) fault }
    ensures { IfOk result (λ refusal. link_text (files_of sources.now) fault ≡ Some (refusal_text refusal)) }
{
    match fault {
        LinkFault::ImportMismatch { part, import } => Ok(Refusal::ImportMismatch {
            file: file_of(sources, part),
            import: Digits::new(alloc, import)?,
        }),
        LinkFault::ImportCycle { part, import } => Ok(Refusal::ImportCycle {
            file: file_of(sources, part),
            import: Digits::new(alloc, import)?,
        }),
        LinkFault::LimitsClash { part, import } => Ok(Refusal::LimitsClash {
            file: file_of(sources, part),
            import: Digits::new(alloc, import)?,
        }),
        LinkFault::TooManyMemories => Ok(Refusal::TooManyMemories),
        LinkFault::GlobalCycle { part, global } => Ok(Refusal::GlobalCycle {
            file: file_of(sources, part),
            global: Digits::new(alloc, global)?,
        }),
        LinkFault::NoMemory => Err(NoMemory),
    }
}

/// Makes the refusal of parts that cannot be joined. The fault `NoMemory` becomes the error.
pub(crate) fn refuse_join<'a>(fault: JoinFault) -> Result<Refusal<'a>, NoMemory>
    ensures { IfOk result (λ refusal. join_text fault ≡ Some (refusal_text refusal)) }
{
    match fault {
        JoinFault::ExportConflict { name } => Ok(Refusal::ExportConflict { name }),
        JoinFault::TooMany { which } => Ok(Refusal::TooMany { which }),
        JoinFault::NoMemory => Err(NoMemory),
    }
}

/// Makes the refusal of a graph file. The fault `NoMemory` becomes the error.
pub(crate) fn refuse_graph<'a>(
    alloc: Global,
    file: &'a str,
    fault: GraphFault,
) -> Result<Refusal<'a>, NoMemory>
    ensures { IfOk result (λ refusal. graph_text file.entry.now fault ≡ Some (refusal_text refusal)) }
{
    match fault {
        GraphFault::GraphText => Ok(Refusal::GraphText { file }),
        GraphFault::GraphShape { entry } => Ok(Refusal::GraphShape {
            file,
            entry: Digits::new(alloc, entry)?,
        }),
        GraphFault::NodeTwice { name } => Ok(Refusal::NodeTwice { file, name }),
        GraphFault::UnknownNode { name } => Ok(Refusal::UnknownNode { file, name }),
        GraphFault::NoMemory => Err(NoMemory),
    }
}

/// Makes the refusal of a sweep that leaves too many of something. The fault `NoMemory` becomes the
/// error.
pub(crate) fn refuse_sweep<'a>(fault: SweepFault) -> Result<Refusal<'a>, NoMemory>
    ensures { IfOk result (λ refusal. sweep_text fault ≡ Some (refusal_text refusal)) }
{
    match fault {
        SweepFault::TooMany { which } => Ok(Refusal::TooMany { which }),
        SweepFault::NoMemory => Err(NoMemory),
    }
}

/// Makes the refusal of names that a split lists. The fault `NoMemory` becomes the error.
pub(crate) fn refuse_plan<'a>(fault: PlanFault) -> Result<Refusal<'a>, NoMemory>
    ensures { IfOk result (λ refusal. plan_text fault ≡ Some (refusal_text refusal)) }
{
    match fault {
        PlanFault::NoSuchFunction { name } => Ok(Refusal::NoSuchFunction { name }),
        PlanFault::AmbiguousFunction { name } => Ok(Refusal::AmbiguousFunction { name }),
        PlanFault::KeptAndSplit { name } => Ok(Refusal::KeptAndSplit { name }),
        PlanFault::NoMemory => Err(NoMemory),
    }
}

/// Makes the refusal of a module that cannot be split. The fault `NoMemory` becomes the error.
pub(crate) fn refuse_split<'a>(
    alloc: Global,
    file: &'a str,
    fault: SplitFault,
) -> Result<Refusal<'a>, NoMemory>
    ensures { IfOk result (λ refusal. split_text file.entry.now fault ≡ Some (refusal_text refusal)) }
{
    match fault {
        SplitFault::NamespaceTaken { import } => Ok(Refusal::NamespaceTaken {
            file,
            import: Digits::new(alloc, import)?,
        }),
        SplitFault::PrefixTaken { name } => Ok(Refusal::PrefixTaken { name }),
        SplitFault::TooMany { which } => Ok(Refusal::TooMany { which }),
        SplitFault::NoMemory => Err(NoMemory),
    }
}

/// Makes the refusal of an evaluation. The fault `NoMemory` becomes the error.
pub fn refuse_eval<'a>(fault: EvalFault) -> Result<Refusal<'a>, NoMemory>
    ensures { IfOk result (λ refusal. eval_text fault ≡ Some (refusal_text refusal)) }
{
    match fault {
        EvalFault::NoSuchExport { name } => Ok(Refusal::NoSuchExport { name }),
        EvalFault::TooMany { which } => Ok(Refusal::TooMany { which }),
        EvalFault::NoMemory => Err(NoMemory),
    }
}

// The name of a limited quantity.
fn which_name<'a>(which: Which) -> &'a str
    ensures { result.now ≡ which_text which }
{
    match which {
        Which::InputBytes => "input bytes",
        Which::Parts => "parts",
        Which::Types => "types",
        Which::Imports => "imports",
        Which::Functions => "functions",
        Which::Tables => "tables",
        Which::Memories => "memories",
        Which::Globals => "globals",
        Which::Exports => "exports",
        Which::ElementSegments => "element segments",
        Which::DataSegments => "data segments",
        Which::Nesting => "nesting",
        Which::Locals => "locals",
        Which::Parameters => "parameters",
        Which::Results => "results",
        Which::Trampolines => "trampolines",
        Which::OutputBytes => "output bytes",
    }
}

// The text between a file and the number of an invalid item.
fn invalid_kind<'a>(kind: ItemKind) -> &'a str
    ensures { result.now ≡ codes ": invalid " ++ kind_text kind }
{
    match kind {
        ItemKind::Import => ": invalid import ",
        ItemKind::Memories => ": invalid memories ",
        ItemKind::Func => ": invalid func ",
        ItemKind::Table => ": invalid table ",
        ItemKind::Memory => ": invalid memory ",
        ItemKind::Global => ": invalid global ",
        ItemKind::Export => ": invalid export ",
        ItemKind::Start => ": invalid start ",
        ItemKind::Elem => ": invalid elem ",
        ItemKind::Segment => ": invalid data ",
        ItemKind::Body => ": invalid body ",
    }
}

// A text about a file, with a number at its end.
fn at<'a>(file: &'a str, says: &'a str, number: &'a Digits) -> [&'a str; 4]
    ensures { flat_map (λ p. p.now) result ≡ file.now ++ (says.now ++ decimal number.now.number) }
{
    [file, says, number.as_str(), ""]
}

// The text about an import of a file.
fn at_import<'a>(file: &'a str, import: &'a Digits, says: &'a str) -> [&'a str; 4]
    ensures { flat_map (λ p. p.now) result ≡ file.now ++ (codes ": import " ++ (decimal import.now.number ++ says.now)) }
{
    [file, ": import ", import.as_str(), says]
}

/// Returns the text of a refusal, in pieces.
pub fn refusal_pieces<'a>(refusal: &'a Refusal<'a>) -> [&'a str; 4]
    ensures { flat_map (λ p. p.now) result ≡ refusal_text refusal.now }
{
    match refusal {
        Refusal::NotModule { file } => [file, ": not a WebAssembly module", "", ""],
        Refusal::Malformed { file, section } => at(file, ": malformed section ", section),
        Refusal::MalformedBody { file, func } => at(file, ": malformed function ", func),
        Refusal::Unsupported { file, section } => at(file, ": unsupported in section ", section),
        Refusal::UnsupportedBody { file, func } => at(file, ": unsupported in function ", func),
        Refusal::Limit { file, which } => [file, ": limit on ", which_name(*which), ""],
        Refusal::Invalid { file, kind, index } => at(file, invalid_kind(*kind), index),
        Refusal::TooManyParts => ["limit on parts", "", "", ""],
        Refusal::ImportMismatch { file, import } => at_import(file, import, " does not match"),
        Refusal::ImportCycle { file, import } => at_import(file, import, " has no end"),
        Refusal::LimitsClash { file, import } => at_import(file, import, " has limits that clash"),
        Refusal::GlobalCycle { file, global } => [
            file,
            ": global ",
            global.as_str(),
            " has no value",
        ],
        Refusal::TooManyMemories => ["more than one memory", "", "", ""],
        Refusal::ExportConflict { name } => ["export ", name.as_str(), " stands twice", ""],
        Refusal::TooMany { which } => ["output exceeds the limit on ", which_name(*which), "", ""],
        Refusal::GraphText { file } => [file, ": not JSON", "", ""],
        Refusal::GraphShape { file, entry } => [
            file,
            ": entry ",
            entry.as_str(),
            " has the wrong shape",
        ],
        Refusal::NodeTwice { file, name } => [file, ": node ", name.as_str(), " stands twice"],
        Refusal::UnknownNode { file, name } => [file, ": no node ", name.as_str(), ""],
        Refusal::NoSuchFunction { name } => ["no function ", name.as_str(), "", ""],
        Refusal::AmbiguousFunction { name } => ["several functions ", name.as_str(), "", ""],
        Refusal::KeptAndSplit { name } => ["function ", name.as_str(), " is kept and split", ""],
        Refusal::NamespaceTaken { file, import } => {
            at_import(file, import, " uses the placeholder namespace")
        }
        Refusal::PrefixTaken { name } => ["export ", name.as_str(), " is taken", ""],
        Refusal::NoSuchExport { name } => ["no exported function ", name.as_str(), "", ""],
    }
}
