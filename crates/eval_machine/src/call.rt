// Calls that the embedder makes, of the start and of constructors (WebAssembly Core 2.0, section
// 4.5.5).

ghost use Rattle.std.specs.Prelude.{◌≡◌, IfOk, IsSome};
ghost use Rattle.std.specs.Option.{option_copied};
ghost use Rattle.wasm_tree.specs.Spaces.{type_of_func};
ghost use Rattle.wasm_valid.specs.Validity.{IsValid};
ghost use Rattle.eval_spec.specs.Stops.{takes_and_gives_nothing};
ghost use Rattle.eval_machine.specs.Calls.{CallEnds};
ghost use Rattle.eval_machine.specs.Kept.{MachineFits};
ghost use Rattle.eval_machine.specs.UnchangedParts.{Stays};

use crate::kept::Kept;
use crate::locals::Locals;
use crate::operands::Operands;
use crate::registers::Registers;
use eval_proof::{imported_functions_are_typed, quiet_runs_end};
use eval_spec::Stop;
use std::alloc::Global;
use wasm_bytes::NoMemory;
use wasm_tree::{FuncType, Module};

// Returns whether a function of this type has no parameters and no results.
fn is_bare(ty: &FuncType) -> bool
    ensures { result ≡ takes_and_gives_nothing ty.now }
{
    ty.params.len() == 0 && ty.results.len() == 0
}

impl Kept {
    // Returns the type of a function. The imports are looked through only for an imported function:
    // its call is stopped, and an evaluation ends at its first stop.
    fn type_of_func<'a>(&self, input: &'a Module, func: u32) -> Option<&'a FuncType>
        requires { MachineFits input.now self.now }
        ensures { option_copied result ≡ type_of_func input.now func }
    {
        let at = func as usize;
        if at < self.imports.funcs {
            return input.type_of_func(func);
        }
        match input.funcs.get(at - self.imports.funcs) {
            Some(callee) => input.types.get(callee.ty as usize),
            None => None,
        }
    }
}

impl Registers {
    /// Calls a function for the embedder, without arguments.
    pub(crate) fn call(
        &mut self,
        alloc: Global,
        input: &Module,
        func: u32,
    ) -> Result<Option<Stop>, NoMemory>
        requires valid { IsValid input.now }
        requires fits { MachineFits input.now self.old.kept }
        requires there { IsSome (type_of_func input.now func) }
        ensures ends { IfOk result (λ stop. CallEnds input.now func self.old.kept stop self.new.kept) }
        ensures stays { Stays self.old.kept self.new.kept }
    {
        imported_functions_are_typed();
        quiet_runs_end();
        let Some(ty) = self.kept.type_of_func(input, func) else {
            return Ok(Some(Stop::Trap));
        };
        if !is_bare(ty) {
            return Ok(Some(Stop::Signature));
        }
        let func = func as usize;
        if func < self.kept.imports.funcs {
            return Ok(Some(Stop::Import));
        }
        let Some(callee) = input.funcs.get(func - self.kept.imports.funcs) else {
            return Ok(Some(Stop::Trap));
        };
        self.operands = Operands::new(alloc);
        self.locals = Locals::new(alloc);
        Ok(self.run_frame(alloc, input, ty, callee, 0)?)
    }
}
