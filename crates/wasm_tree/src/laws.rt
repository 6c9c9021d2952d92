// Laws of the operands of instructions. They have no code.

ghost use Rattle.wasm_tree.specs.OperandLaws.{
  AnyInside,
  BlockPasses,
  HeldIsMapped,
  IfPasses,
  InstructionsAreMapped,
  LayersAreMapped,
  LoopPasses,
  MappedCodePasses,
  PassesInside,
  PassesLayerByLayer,
};

/// A layer (`layers`) and an instruction (`instructions`) with new indices name those, in the same
/// order, and the instructions inside get new indices too (`held`). Code with new indices passes a
/// test of operands exactly if the old code passes the test at the new indices (`code`).
pub fn operands_are_mapped()
    ensures layers { LayersAreMapped }
    ensures instructions { InstructionsAreMapped }
    ensures held { HeldIsMapped }
    ensures code { MappedCodePasses }
{}

/// An instruction passes a test of operands exactly if its own operands and the instructions inside
/// it pass (`inside`; `blocks`, `loops`, `ifs`). Code passes exactly if the operands of each layer
/// pass (`layers`). Some operand passes exactly if one of the instruction's own does, or one of an
/// instruction inside it (`any`).
pub fn operands_pass_layer_by_layer()
    ensures inside { PassesInside }
    ensures blocks { BlockPasses }
    ensures loops { LoopPasses }
    ensures ifs { IfPasses }
    ensures layers { PassesLayerByLayer }
    ensures any { AnyInside }
{}
