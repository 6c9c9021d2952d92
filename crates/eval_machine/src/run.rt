// The interpreter. It recurses over blocks and frames up to `MOST_DEPTH`, and allocates only the
// operands and locals of a level or frame.

ghost use Rattle.std.specs.Prelude.{◌≡◌, ◌<◌, ◌≤◌, [], Ok, IfOk};
ghost use Rattle.wasm_valid.specs.Validity.{IsValid};
ghost use Rattle.wasm_meaning.specs.Values.{declared};
ghost use Rattle.eval_spec.specs.declared.limits.TheConstants.{MOST_DEPTH};
ghost use Rattle.eval_spec.specs.declared.stop.Stop.TheVariants as why;
ghost use Rattle.eval_machine.specs.declared.registers.Flow.TheVariants as flow;
ghost use Rattle.eval_machine.specs.declared.registers.Advance.TheVariants as advance;
ghost use Rattle.eval_machine.specs.Flows.{RunsCall, RunsCode, RunsFrame, RunsInstr, RunsOpened};
ghost use Rattle.eval_machine.specs.Kept.{MachineFits};
ghost use Rattle.eval_machine.specs.UnchangedParts.{Stays};

use crate::locals::{Locals, turns_after};
use crate::operands::Operands;
use crate::registers::{Advance, Flow, MachineAct, Opening, Registers};
use eval_proof::imported_functions_are_typed;
use eval_spec::{MOST_DEPTH, Stop};
use std::alloc::Global;
use std::mem;
use wasm_bytes::NoMemory;
use wasm_tree::{Func, FuncType, Instr, Module};

impl Registers {
    #[cycle(run)]
    fn run_code(
        &mut self,
        alloc: Global,
        input: &Module,
        code: &[Instr],
        depth: u32,
    ) -> Result<Flow, NoMemory>
        requires deep { depth ≤ MOST_DEPTH }
        requires valid { IsValid input.now }
        requires fits { MachineFits input.now self.old.kept }
        ensures runs { IfOk result (λ flow. RunsCode input.now code.now depth self.old flow self.new) }
        ensures stays { Stays self.old.kept self.new.kept }
    {
        let mut at = 0;
        'code: while at < code.len() {
            match self.run_instr(alloc, input, &code[at], depth)? {
                Advance::On => at += 1,
                Advance::Again => (),
                Advance::Out(flow) => return Ok(flow),
            }
        }
        Ok(Flow::Fell)
    }

    #[cycle(run)]
    fn run_instr(
        &mut self,
        alloc: Global,
        input: &Module,
        instr: &Instr,
        depth: u32,
    ) -> Result<Advance, NoMemory>
        requires deep { depth ≤ MOST_DEPTH }
        requires valid { IsValid input.now }
        requires fits { MachineFits input.now self.old.kept }
        ensures runs { IfOk result (λ advance. RunsInstr input.now instr.now depth self.old advance self.new) }
        ensures stays { Stays self.old.kept self.new.kept }
        ensures fewer { 0 < self.old.kept.turns → self.new.kept.turns < self.old.kept.turns }
        ensures none { self.old.kept.turns ≡ 0 → result ≡ Ok (advance.Out (flow.Stopped why.Steps)) }
    {
        if self.kept.turns == 0 {
            return Ok(Advance::Out(Flow::Stopped(Stop::Steps)));
        }
        self.kept.turns -= 1;
        match self.begin(input, instr)? {
            MachineAct::Continues => Ok(Advance::On),
            MachineAct::Leaves(flow) => Ok(Advance::Out(flow)),
            MachineAct::Opens(opening) => Ok(self.run_opened(alloc, input, &opening, depth)?),
            MachineAct::Calls(func) => Ok(self.run_call(alloc, input, func, depth)?),
        }
    }

    #[cycle(run)]
    fn run_opened(
        &mut self,
        alloc: Global,
        input: &Module,
        opening: &Opening<'_>,
        depth: u32,
    ) -> Result<Advance, NoMemory>
        requires deep { depth ≤ MOST_DEPTH }
        requires valid { IsValid input.now }
        requires fits { MachineFits input.now self.old.kept }
        ensures runs { IfOk result (λ advance. RunsOpened input.now opening.now depth self.old advance self.new) }
        ensures stays { Stays self.old.kept self.new.kept }
    {
        let Some(top) = self.operands.take_level(opening.params)? else {
            return Ok(Advance::Out(Flow::Stopped(Stop::Trap)));
        };
        if depth == MOST_DEPTH {
            return Ok(Advance::Out(Flow::Stopped(Stop::Depth)));
        }
        let below = mem::replace(&mut self.operands, top);
        match self.run_code(alloc, input, opening.body, depth + 1)? {
            Flow::Fell => {
                let Some(given) = self.operands.take_top(opening.gives)? else {
                    return Ok(Advance::Out(Flow::Stopped(Stop::Trap)));
                };
                self.operands = below;
                self.operands.put_back(given)?;
                Ok(Advance::On)
            }
            Flow::Branch(label) => {
                if label > 0 {
                    return Ok(Advance::Out(Flow::Branch(label - 1)));
                }
                let Some(carried) = self.operands.take_top(opening.takes)? else {
                    return Ok(Advance::Out(Flow::Stopped(Stop::Trap)));
                };
                self.operands = below;
                self.operands.put_back(carried)?;
                if opening.again {
                    return Ok(Advance::Again);
                }
                Ok(Advance::On)
            }
            Flow::Return => Ok(Advance::Out(Flow::Return)),
            Flow::Stopped(stop) => Ok(Advance::Out(Flow::Stopped(stop))),
        }
    }

    #[cycle(run)]
    fn run_call(
        &mut self,
        alloc: Global,
        input: &Module,
        func: u32,
        depth: u32,
    ) -> Result<Advance, NoMemory>
        requires deep { depth ≤ MOST_DEPTH }
        requires valid { IsValid input.now }
        requires fits { MachineFits input.now self.old.kept }
        ensures runs { IfOk result (λ advance. RunsCall input.now func depth self.old advance self.new) }
        ensures stays { Stays self.old.kept self.new.kept }
    {
        imported_functions_are_typed();
        let func = func as usize;
        if func < self.kept.imports.funcs {
            return Ok(Advance::Out(Flow::Stopped(Stop::Import)));
        }
        let Some(callee) = input.funcs.get(func - self.kept.imports.funcs) else {
            return Ok(Advance::Out(Flow::Stopped(Stop::Trap)));
        };
        let Some(ty) = input.types.get(callee.ty as usize) else {
            return Ok(Advance::Out(Flow::Stopped(Stop::Trap)));
        };
        let Some(args) = self.operands.take_typed(ty.params.as_slice())? else {
            return Ok(Advance::Out(Flow::Stopped(Stop::Trap)));
        };
        let below = mem::replace(&mut self.operands, Operands::new(alloc));
        let outside = mem::replace(&mut self.locals, Locals::of(args));
        match self.run_frame(alloc, input, ty, callee, depth)? {
            Some(stop) => Ok(Advance::Out(Flow::Stopped(stop))),
            None => {
                let given = mem::replace(&mut self.operands, below);
                self.operands.put_back(given)?;
                self.locals = outside;
                Ok(Advance::On)
            }
        }
    }

    // Runs a frame whose arguments are the locals; there are no operands.
    #[cycle(run)]
    pub(crate) fn run_frame(
        &mut self,
        alloc: Global,
        input: &Module,
        ty: &FuncType,
        callee: &Func,
        depth: u32,
    ) -> Result<Option<Stop>, NoMemory>
        requires deep { depth ≤ MOST_DEPTH }
        requires valid { IsValid input.now }
        requires fits { MachineFits input.now self.old.kept }
        requires bare { self.old.operands ≡ [] }
        ensures runs { IfOk result (λ stop. RunsFrame input.now ty.now self.old.locals (declared callee.now.locals) callee.now.body depth self.old stop self.new) }
        ensures stays { Stays self.old.kept self.new.kept }
    {
        let Some(left) = turns_after(callee.locals.as_slice(), self.kept.turns) else {
            return Ok(Some(Stop::Steps));
        };
        self.kept.turns = left;
        if depth == MOST_DEPTH {
            return Ok(Some(Stop::Depth));
        }
        self.locals.declare_all(callee.locals.as_slice())?;
        match self.run_code(alloc, input, callee.body.as_slice(), depth + 1)? {
            Flow::Stopped(stop) => return Ok(Some(stop)),
            Flow::Branch(label) => {
                if label > 0 {
                    return Ok(Some(Stop::Trap));
                }
            }
            Flow::Fell => (),
            Flow::Return => (),
        }
        match self.operands.take_level(ty.results.as_slice())? {
            Some(given) => {
                self.operands = given;
                Ok(None)
            }
            None => Ok(Some(Stop::Trap)),
        }
    }
}
