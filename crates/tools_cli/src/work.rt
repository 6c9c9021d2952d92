// The work of a command. A stop is reported by `run`.
ghost use Rattle.std.specs.Prelude.{◌≡◌, ◌≤◌, ◌++◌, [], map, string_bytes, option_map, OnOk, IfOk, IfErr, IfSome, None};
ghost use Rattle.base_lists.specs.Every.{Every};
ghost use Rattle.wasm_bytes.specs.Reading.{IsBytes};
ghost use Rattle.tool_io.specs.FilesAndSinks.{NoneFell, Becomes, AppendsPrefix};
ghost use Rattle.tools_cli_spec.specs.Faithful.{HoldBytesAt, ReadsBytes};
ghost use Rattle.tools_cli_spec.specs.Effects.{AreWrittenInPart, written_names};
ghost use Rattle.tools_cli_spec.specs.Job.{InputsAreBytes, InputsHoldBytes, InputsJob, TaskJob, Done, Refused, Whole, gathered, refused_before, most_input};
ghost use Rattle.tools_cli_decide.specs.Command.{task_value, arguments_value, input_entries};
ghost use Rattle.tools_cli.specs.Writes.{write_entries};
ghost use Rattle.tools_cli.specs.Causes.{AreOutputs, PrintsAsAllowed, StopsGathering, StopsPreparing, StopsPrinting, StopsFinishing, AllWritten, PrintsAfter};
ghost use Rattle.tools_cli_decide.specs.Causes.{StopsWith, total};
ghost use Rattle.tools_cli_spec.specs.Run.{ChangesByTheJob, PrintsForTheJob, PrintsNothing, EndsDone, IsSame};
ghost use Rattle.tools_cli.specs.Work.{IsUsage, StopsWork};
ghost use Rattle.tools_cli_spec.specs.CommandLine.{task_of, said_to_tool, inputs_of};

use crate::decide::decide;
use crate::encode::{Plan, encode};
use crate::gather::gather;
use crate::load::load_all;
use crate::perform::write_outputs;
use std::alloc::Global;
use tool_io::{Files, IoFault, Sink};
use tools_cli_decide::{Input, Stop, Task, parse, usage};
use tools_cli_words::Arguments;
use wasm_bytes::NoMemory;
use wasm_tree::MOST_INPUT_BYTES;

// Reads the files of a task, in order.
fn read_inputs<'a, F: Files>(
    alloc: Global,
    task: &Task<'a>,
    files: &mut F,
) -> Result<Vec<Input<'a>>, Stop<'a>>
    ensures stays { F.contents files.new ≡ F.contents files.old }
    ensures reads { NoneFell (F.read_faults files.old) (F.read_faults files.new) }
    ensures writes { NoneFell (F.write_faults files.old) (F.write_faults files.new) }
    ensures whole { IfOk result (λ inputs. IfSome (F.contents files.old) (λ held. gathered (inputs_of (task_value task.now)) held most_input ≡ Whole (input_entries inputs.items))) }
    ensures names { IfOk result (λ inputs. map (λ e. e.0) (input_entries inputs.items) ≡ inputs_of (task_value task.now)) }
    ensures room { IfOk result (λ inputs. total (input_entries inputs.items) ≤ most_input) }
    ensures bytes { IfOk result (λ inputs. Every (λ e. IsBytes e.1) (input_entries inputs.items)) }
    ensures stops { IfErr result (StopsGathering (F.contents files.old) (F.read_faults files.old) (F.read_faults files.new) (inputs_of (task_value task.now)) most_input) }
{
    let names = task.inputs(alloc)?;
    gather(alloc, files, names.as_slice(), MOST_INPUT_BYTES as usize)
}

// Loads the modules, decides over them and the contents of all files, and encodes the outputs.
fn plan<'a>(alloc: Global, task: &Task<'a>, inputs: &[Input<'a>]) -> Result<Plan, Stop<'a>>
    requires room { total (input_entries inputs.now) ≤ most_input }
    requires names { map (λ e. e.0) (input_entries inputs.now) ≡ inputs_of (task_value task.now) }
    requires begun { refused_before (task_value task.now) ≡ None }
    ensures plan { IfOk result (λ plan. InputsJob (task_value task.now) (input_entries inputs.now) (Done (write_entries plan.writes.items) plan.lines.items)) }
    ensures stops { IfErr result (StopsWith (λ text. InputsJob (task_value task.now) (input_entries inputs.now) (Refused text))) }
{
    let (files, _texts) = inputs.split_at(task.module_count());
    let modules = load_all(alloc, files)?;
    let decision = decide(alloc, task, modules, inputs)?;
    encode(alloc, decision)
}

// Does all of a task except writing and printing.
fn prepare<'a, F: Files>(alloc: Global, task: &Task<'a>, files: &mut F) -> Result<Plan, Stop<'a>>
    ensures stays { F.contents files.new ≡ F.contents files.old }
    ensures reads { NoneFell (F.read_faults files.old) (F.read_faults files.new) }
    ensures writes { NoneFell (F.write_faults files.old) (F.write_faults files.new) }
    ensures plan { IfOk result (λ plan. IfSome (F.contents files.old) (λ held. TaskJob (task_value task.now) held (Done (write_entries plan.writes.items) plan.lines.items))) }
    ensures outputs { IfOk result (λ plan. AreOutputs (task_value task.now) (F.contents files.old) (written_names (write_entries plan.writes.items))) }
    ensures lines { IfOk result (λ plan. PrintsAsAllowed (task_value task.now) plan.lines.items) }
    ensures bytes { OnOk result (IfSome (F.contents files.old) (HoldBytesAt (inputs_of (task_value task.now)))) }
    ensures inputs { OnOk result (IfSome (F.contents files.old) (InputsAreBytes (task_value task.now))) }
    ensures stops { IfErr result (StopsPreparing (F.contents files.old) (F.read_faults files.old) (F.read_faults files.new) (task_value task.now)) }
{
    if let Some(refusal) = task.refused_before() {
        return Err(Stop::Refused(refusal));
    }
    let inputs = read_inputs(alloc, task, files)?;
    plan(alloc, task, inputs.as_slice())
}

// Prints the lines of a command, if there are any.
fn print_lines<'a, O: Sink>(out: &mut O, lines: &[u8]) -> Result<(), Stop<'a>>
    ensures printed { OnOk result (Becomes (O.bytes out.old) (O.bytes out.new) (λ a b. b ≡ a ++ lines.now)) }
    ensures prefix { Becomes (O.bytes out.old) (O.bytes out.new) (AppendsPrefix lines.now) }
    ensures silent { lines.now ≡ [] → IsSame (O.bytes out.old) (O.bytes out.new) }
    ensures later { O.faults out.old ≤ O.faults out.new }
    ensures stops { IfErr result (StopsPrinting (O.faults out.old) (O.faults out.new)) }
{
    if lines.is_empty() {
        return Ok(());
    }
    match out.put(lines) {
        Ok(()) => Ok(()),
        Err(IoFault::Failed) => Err(Stop::CannotPrint),
        Err(IoFault::NoMemory) => Err(Stop::NoMemory),
    }
}

// Writes the outputs, and then prints the lines.
fn finish<'a, F: Files, O: Sink>(files: &mut F, out: &mut O, plan: Plan) -> Result<(), Stop<'a>>
    ensures done { OnOk result (AllWritten (write_entries plan.writes.items) (F.contents files.old) (F.contents files.new)) }
    ensures printed { OnOk result (Becomes (O.bytes out.old) (O.bytes out.new) (λ a b. b ≡ a ++ plan.lines.items)) }
    ensures cut { Becomes (F.contents files.old) (F.contents files.new) (AreWrittenInPart (write_entries plan.writes.items)) }
    ensures prints { Becomes (O.bytes out.old) (O.bytes out.new) (PrintsAfter plan.lines.items (AllWritten (write_entries plan.writes.items) (F.contents files.old) (F.contents files.new))) }
    ensures silent { plan.lines.items ≡ [] → IsSame (O.bytes out.old) (O.bytes out.new) }
    ensures reads { NoneFell (F.read_faults files.old) (F.read_faults files.new) }
    ensures writes { NoneFell (F.write_faults files.old) (F.write_faults files.new) }
    ensures later { O.faults out.old ≤ O.faults out.new }
    ensures stops { IfErr result (StopsFinishing (F.write_faults files.old) (F.write_faults files.new) (O.faults out.old) (O.faults out.new) (F.contents files.old) (F.contents files.new)
        (O.bytes out.old) (O.bytes out.new) (write_entries plan.writes.items)) }
{
    let Plan { writes, lines } = plan;
    write_outputs(files, writes)?;
    print_lines(out, lines.as_slice())
}

/// Does what a command line asks for; `said` are its parsed arguments.
pub(crate) fn run_command<'a, F: Files, O: Sink>(
    alloc: Global,
    words: &[String],
    said: &'a Result<Option<Arguments>, NoMemory>,
    files: &mut F,
    out: &mut O,
) -> Result<(), Stop<'a>>
    requires said { IfOk said.now (λ a. option_map arguments_value a ≡ said_to_tool (map string_bytes words.now)) }
    ensures reads { NoneFell (F.read_faults files.old) (F.read_faults files.new) }
    ensures writes { NoneFell (F.write_faults files.old) (F.write_faults files.new) }
    ensures later { O.faults out.old ≤ O.faults out.new }
    ensures files { Becomes (F.contents files.old) (F.contents files.new) (ChangesByTheJob (map string_bytes words.now)) }
    ensures prints { IfSome (F.contents files.old) (λ a. Becomes (O.bytes out.old) (O.bytes out.new) (PrintsForTheJob (map string_bytes words.now) a (F.contents files.new))) }
    ensures no_lines { PrintsNothing (map string_bytes words.now) → IsSame (O.bytes out.old) (O.bytes out.new) }
    ensures done { OnOk result (IfSome (F.contents files.old) (λ a. EndsDone (map string_bytes words.now) a (F.contents files.new) (O.bytes out.old) (O.bytes out.new))) }
    ensures bytes { OnOk result (IfSome (F.contents files.old) (ReadsBytes (map string_bytes words.now))) }
    ensures inputs { OnOk result (IfSome (F.contents files.old) (InputsHoldBytes (map string_bytes words.now))) }
    ensures no_task { task_of (map string_bytes words.now) ≡ None → IsUsage result }
    ensures stops { IfErr result (StopsWork (map string_bytes words.now)
        (record { files = F.contents files.old; reads = F.read_faults files.old; writes = F.write_faults files.old; out = O.bytes out.old; out_faults = O.faults out.old })
        (record { files = F.contents files.new; reads = F.read_faults files.new; writes = F.write_faults files.new; out = O.bytes out.new; out_faults = O.faults out.new })) }
{
    let Some(task) = parse(alloc, words, said)? else {
        return Err(Stop::Usage(usage(words)));
    };
    let plan = prepare(alloc, &task, files)?;
    finish(files, out, plan)
}
