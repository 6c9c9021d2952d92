// What the clauses of `run` say, written out for any task.
ghost use Rattle.std.specs.Prelude.{List, ℕ, Option};
ghost use Rattle.tool_io.specs.FilesAndSinks.{FileContents};
ghost use Rattle.tools_cli_spec.specs.Run.{EndsDone, EndsRefused, ChangesByTheJob, PrintsForTheJob, HasOutsideCause, HasStatus, HostState};
ghost use Rattle.tools_cli_spec.specs.declared.status.Status.{Status};
ghost use Rattle.tools_cli_proof.specs.RunsInFull.{DoneInFull, RefusedInFull, ChangesInFull, PrintsInFull, OutsideInFull, StatusInFull};

/// States what `done` of `run` says: the task is done, each output file holds the bytes of its last
/// write, no other file has changed, and standard output gained the lines of the task.
pub fn done_runs_write_all()
    ensures { (words : List (List ℕ)) (old : FileContents) (new : Option FileContents) (before after : Option (List ℕ)) → EndsDone words old new before after → DoneInFull words old new before after }
{}

/// States what `refused` of `run` says: the task is refused, and standard error gained the line
/// that says why.
pub fn refused_runs_say_why()
    ensures { (words : List (List ℕ)) (old : FileContents) (before after : Option (List ℕ)) → EndsRefused words old before after → RefusedInFull words old before after }
{}

/// States what `files` of `run` says: the files are unchanged; or the task is done, some first
/// writes are made, and the file of the next may hold a prefix of its new contents.
pub fn runs_make_first_writes()
    ensures { (words : List (List ℕ)) (old new : FileContents) → ChangesByTheJob words old new → ChangesInFull words old new }
{}

/// States what `prints` of `run` says: standard output is unchanged; or the task is done, all its
/// writes are made, and standard output gained a prefix of its lines.
pub fn runs_print_behind_all_writes()
    ensures { (words : List (List ℕ)) (old : FileContents) (new : Option FileContents) (before after : List ℕ) → PrintsForTheJob words old new before after → PrintsInFull words old new before after }
{}

/// States what `outside` of `run` says: standard error could not be written, or a line there says
/// which file could not be read or written, or that standard output could not be.
pub fn outside_runs_have_causes()
    ensures { (words : List (List ℕ)) (old new : HostState) (err err_after : Option (List ℕ)) (before now : ℕ) →
        HasOutsideCause words old new err err_after before now → OutsideInFull words old new err err_after before now }
{}

/// States what `complete` of `run` says of the status: it is `Usage` if the words ask for no task,
/// `Refused` if their task is refused, and `Done` if it is done. A task with a missing file has no
/// status.
pub fn statuses_are_those_of_jobs()
    ensures { (words : List (List ℕ)) (files : FileContents) (s : Status) → HasStatus words files s → StatusInFull words files s }
{}
