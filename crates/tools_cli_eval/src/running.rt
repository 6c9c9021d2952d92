ghost use Rattle.std.specs.Prelude.{IfOk};
ghost use Rattle.eval_machine.specs.Calls.{IsReady};
ghost use Rattle.eval_machine.specs.Kept.{Rests};
ghost use Rattle.tools_cli_eval.specs.Calls.{HaveEnded};
ghost use Rattle.tools_cli_eval.specs.Named.{AreFuncsOf};

use eval_machine::{Machine, Ran};
use eval_snapshot_proof::lists_are_evaluated_in_order;
use eval_spec::Stop;
use wasm_bytes::NoMemory;
use wasm_valid::Valid;

/// How far a sequence of calls came.
#[derive(Clone, Copy, Debug, PartialEq, Eq)]
pub struct Calls {
    /// How many calls came to their ends.
    pub count: usize,
    /// What stopped the next call, if something did.
    pub stopped: Option<Stop>,
}

/// Calls these functions in order, until something stops one.
pub(crate) fn call_all(
    machine: &mut Machine,
    input: &Valid,
    funcs: &[u32],
) -> Result<Calls, NoMemory>
    requires ready { IsReady input.now machine.old }
    requires there { AreFuncsOf input.now funcs.now }
    ensures ended { IfOk result (λ calls. HaveEnded input.now funcs.now calls machine.new) }
    ensures rests { Rests input.now machine.new }
{
    lists_are_evaluated_in_order();
    for count in 0..funcs.len() {
        match machine.run_ctor(input, funcs[count])? {
            Ran::Done => {}
            Ran::Stopped(stop) => {
                return Ok(Calls {
                    count,
                    stopped: Some(stop),
                });
            }
        }
    }
    Ok(Calls {
        count: funcs.len(),
        stopped: None,
    })
}
