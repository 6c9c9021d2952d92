ghost use Rattle.std.specs.Prelude.{◌≡◌, ◌≤◌, ◌⊎◌, map, string_bytes, IfSome, None};
ghost use Rattle.tool_io.specs.FilesAndSinks.{NoneFell, Becomes, Rose};
ghost use Rattle.tools_cli_spec.specs.CommandLine.{task_of, usage_line};
ghost use Rattle.tools_cli_spec.specs.ErrorLines.{Says};
ghost use Rattle.tools_cli_spec.specs.Faithful.{EndsFaithful};
ghost use Rattle.tools_cli_spec.specs.Run.{ChangesByTheJob, PrintsForTheJob, PrintsNothing, EndsDone, EndsRefused, HasStatus, HasOutsideCause, SomeRose, IsSame, Gains, HostState};

use crate::report::report;
use crate::work::run_command;
use std::alloc::Global;
use tool_io::{Files, Sink};
use tools_cli_decide::said_to_tool;
use tools_cli_proof::{done_jobs_are_faithful, jobs_are_determined};
use tools_cli_spec::Status;

/// Does what the arguments `words` of a command line ask for: reads the files, writes the outputs,
/// and then prints the lines on `out`. Returns how this ended. For each status but `Done` a line on
/// `err` says why, unless `err` fails or memory runs out. After `Refused` or `Usage`, `files` and
/// `out` are unchanged. After `Outside` or `NoMemory`, some first writes of the job may be made,
/// and the next file holds its old contents or a prefix of its new ones; lines are printed only
/// after all writes.
pub fn run<F: Files, O: Sink, E: Sink>(
    alloc: Global,
    words: &[String],
    files: &mut F,
    out: &mut O,
    err: &mut E,
) -> Status
    // No count of faults falls.
    ensures reads { NoneFell (F.read_faults files.old) (F.read_faults files.new) }
    ensures writes { NoneFell (F.write_faults files.old) (F.write_faults files.new) }
    ensures out_later { O.faults out.old ≤ O.faults out.new }
    ensures err_later { E.faults err.old ≤ E.faults err.new }

    // At every exit: `files` has some first writes of the job, `out` has gained a prefix of its
    // lines and only after all writes, and `err` has gained a prefix of one line.
    ensures files { Becomes (F.contents files.old) (F.contents files.new) (ChangesByTheJob (map string_bytes words.now)) }
    ensures prints { IfSome (F.contents files.old) (λ a. Becomes (O.bytes out.old) (O.bytes out.new) (PrintsForTheJob (map string_bytes words.now) a (F.contents files.new))) }
    // A task that prints no lines leaves `out` unchanged, even if the contents of the files are not
    // known.
    ensures no_lines { PrintsNothing (map string_bytes words.now) → IsSame (O.bytes out.old) (O.bytes out.new) }
    ensures says { Becomes (E.bytes err.old) (E.bytes err.new) Says }

    // Each status has its cause.
    ensures done { result ≡ Status.Done → IfSome (F.contents files.old) (λ a. EndsDone (map string_bytes words.now) a (F.contents files.new) (O.bytes out.old) (O.bytes out.new)) ×
        IsSame (E.bytes err.old) (E.bytes err.new) }
    // The headline. If the status is `Done` and the contents of the files before are known, each
    // output name now has an encoding of a valid module. This module is what the command makes of
    // what it read, and what was written is observationally equivalent to its original:
    // - merge: the output, to the parts linked by name;
    // - split: the primary module under the loader of the secondary one, to the module;
    // - metadce: the output, to the module of which the embedder uses only the exports that are
    //   kept;
    // - ctor-eval: the output, to the module after its evaluated constructors;
    // - sample: as a merge, of its two modules.
    // For metadce and ctor-eval this is so in each environment that links the module, for the
    // others in every environment. `equivalence` (tools_cli_spec) has the numbers of steps. Besides
    // (`also`, with its premises in `FurtherClaims`): the parts of a merge or a sample may be
    // instantiated one after the other; the secondary module of a split always loads; the
    // evaluation of a ctor-eval is the machine's run.
    ensures faithful { result ≡ Status.Done → IfSome (F.contents files.old) (λ a. EndsFaithful (map string_bytes words.now) a (F.contents files.new)) }
    ensures refused { result ≡ Status.Refused → IfSome (F.contents files.old) (λ a. EndsRefused (map string_bytes words.now) a (E.bytes err.old) (E.bytes err.new)) ×
        IsSame (F.contents files.old) (F.contents files.new) × IsSame (O.bytes out.old) (O.bytes out.new) }
    ensures usage { result ≡ Status.Usage → (task_of (map string_bytes words.now) ≡ None) × Gains (usage_line (map string_bytes words.now)) (E.bytes err.old) (E.bytes err.new) ×
        IsSame (F.contents files.old) (F.contents files.new) × IsSame (O.bytes out.old) (O.bytes out.new) }
    ensures outside { result ≡ Status.Outside → HasOutsideCause (map string_bytes words.now)
        (record { files = F.contents files.old; reads = F.read_faults files.old; writes = F.write_faults files.old; out = O.bytes out.old; out_faults = O.faults out.old })
        (record { files = F.contents files.new; reads = F.read_faults files.new; writes = F.write_faults files.new; out = O.bytes out.new; out_faults = O.faults out.new })
        (E.bytes err.old) (E.bytes err.new) (E.faults err.old) (E.faults err.new) }

    // If no count of faults rises and the contents of the files before are known, the status is
    // that of each job of the arguments over these files (there is one), or `NoMemory`.
    ensures complete { SomeRose
        (record { files = F.contents files.old; reads = F.read_faults files.old; writes = F.write_faults files.old; out = O.bytes out.old; out_faults = O.faults out.old })
        (record { files = F.contents files.new; reads = F.read_faults files.new; writes = F.write_faults files.new; out = O.bytes out.new; out_faults = O.faults out.new })
        (E.faults err.old) (E.faults err.new)
        ⊎ ((result ≡ Status.NoMemory) ⊎ IfSome (F.contents files.old) (λ a. HasStatus (map string_bytes words.now) a result)) }
    // For arguments that ask for no task the status is `Usage`, whatever the files are, unless
    // `err` fails or memory runs out.
    ensures no_task { task_of (map string_bytes words.now) ≡ None → Rose (E.faults err.old) (E.faults err.new) ⊎ ((result ≡ Status.NoMemory) ⊎ (result ≡ Status.Usage)) }
{
    done_jobs_are_faithful();
    jobs_are_determined();
    let said = said_to_tool(alloc, words);
    match run_command(alloc, words, &said, files, out) {
        Ok(()) => Status::Done,
        Err(stop) => report(err, &stop),
    }
}
