// How the evaluation of listed constructors ends, or why it gives no module.
ghost use Rattle.std.specs.Prelude.{◌≡◌};
ghost use Rattle.tools_cli_spec.specs.declared.evaluation.EvalFault.TheVariants.{NoMemory as OutOfMemory};

use eval_spec::Stop;
use wasm_bytes::{Name, NoMemory};
use wasm_tree::Which;

/// Why an evaluation gives no module.
#[derive(Drop)]
pub enum EvalFault {
    /// No function is exported under this listed name.
    NoSuchExport { name: Name },
    /// A count of the module after the evaluation is above its limit.
    TooMany { which: Which },
    NoMemory,
}

impl From<NoMemory> for EvalFault {
    ghost from_gives = { λ _ e. e ≡ OutOfMemory };

    fn from(_none: NoMemory) -> EvalFault {
        EvalFault::NoMemory
    }
}

/// How an evaluation ended.
#[derive(Clone, Copy, Debug, PartialEq, Eq)]
pub enum Ending {
    /// Each listed constructor was evaluated.
    Complete,
    /// The instantiation or the start was stopped, and no constructor was called.
    Instantiation(Stop),
    /// The first constructor that was not evaluated was stopped.
    Constructor(Stop),
}
