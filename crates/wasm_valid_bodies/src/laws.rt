// A law of typing.

ghost use Rattle.wasm_valid_bodies.specs.Typing.{TypingIsDecided};

/// Every body is well typed, or is not, in every context and with every type (WebAssembly Core 2.0,
/// section 3.3.9).
pub fn bodies_are_well_typed_or_not()
    ensures { TypingIsDecided }
{}
