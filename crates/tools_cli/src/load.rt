// Reading and validating the modules of a command.
ghost use Rattle.std.specs.Prelude.{◌≡◌, ◌≤◌, ◌<◌, ◌^◌, length, false, Ok, Err, IfOk, IfErr};
ghost use Rattle.wasm_tree.specs.Bounds.{IsBounded};
ghost use Rattle.wasm_valid.specs.declared.kinds.Invalid as items;
ghost use Rattle.wasm_valid.specs.First.{IsFirstInvalid};
ghost use Rattle.tools_cli_decide.specs.Command.{input_entries};
ghost use Rattle.tools_cli_spec.specs.Job.{LoadsFile, AllLoad, OneFails, IsAccepted, most_input};
ghost use Rattle.tools_cli_decide.specs.Causes.{total, StopsWith};
ghost use Rattle.tools_cli.specs.Causes.{InvalidText};

use std::alloc::Global;
use tools_cli_decide::{Input, Stop, refuse_fault, refuse_item};
use wasm_read::read;
use wasm_tree::Module;
use wasm_valid::{Rejected, Valid, validate};

// Validates a module; refuses its first invalid item.
fn accept<'a>(alloc: Global, file: &'a str, tree: Module) -> Result<Valid, Stop<'a>>
    requires { IsBounded tree }
    ensures accepted { IfOk result (λ valid. (valid ≡ tree) × IsAccepted false tree) }
    ensures stops { IfErr result (StopsWith (InvalidText file.entry.now tree)) }
{
    let item = match validate(alloc, tree) {
        Ok(valid) => return Ok(valid),
        Err(Rejected::Invalid(_, item)) => item,
        Err(Rejected::NoMemory(_)) => return Err(Stop::NoMemory),
    };
    Err(Stop::Refused(refuse_item(alloc, file, item)?))
}

// Reads and validates the module that a file holds.
fn load<'a>(alloc: Global, input: &Input<'a>) -> Result<Valid, Stop<'a>>
    requires { length input.now.bytes.items < 2 ^ 32 }
    ensures loaded { IfOk result (λ tree. LoadsFile false input.now.name.now input.now.bytes.items (Ok tree)) }
    ensures stops { IfErr result (StopsWith (λ text. LoadsFile false input.now.name.now input.now.bytes.items (Err text))) }
{
    match read(alloc, input.bytes.as_slice()) {
        Ok(tree) => accept(alloc, input.name, tree),
        Err(fault) => Err(Stop::Refused(refuse_fault(alloc, input.name, fault)?)),
    }
}

/// Reads and validates the modules that files hold, in order. The first that fails is refused.
pub(crate) fn load_all<'a>(alloc: Global, inputs: &[Input<'a>]) -> Result<Vec<Valid>, Stop<'a>>
    requires { total (input_entries inputs.now) ≤ most_input }
    ensures loaded { IfOk result (λ modules. AllLoad false (input_entries inputs.now) modules.items) }
    ensures stops { IfErr result (StopsWith (OneFails false (input_entries inputs.now))) }
{
    let mut modules = Vec::new(alloc);
    for input in inputs {
        let tree = load(alloc, input)?;
        modules.push(tree)?;
    }
    Ok(modules)
}
