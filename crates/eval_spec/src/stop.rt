/// Why the evaluation of a module's instantiation, start or constructor stops.
#[derive(Clone, Copy, Debug, PartialEq, Eq)]
pub enum Stop {
    /// An imported function is called, directly or, even if its type is not the expected one,
    /// through a table.
    Import,
    /// The next instruction is `memory.grow`.
    Grow,
    /// The next instruction is `table.set`, `table.grow`, `table.fill`, `table.copy`, `table.init`
    /// or `elem.drop`.
    TableWrite,
    /// An imported global, table or memory is used, or an unknown global or slot is read (or the
    /// slot is called); or an active segment has an unknown offset or goes to an imported table or
    /// memory.
    Unknown,
    /// A trap (WebAssembly Core 2.0, section 4.4 or 4.5.4), or a step to which no rule applies.
    Trap,
    /// The constructor has a parameter or a result.
    Signature,
    /// The turns run out: fewer are left than the next instruction takes, or than the call of the
    /// start or of a constructor takes. An instruction takes one turn, and one more for each 64
    /// bytes that `memory.fill`, `memory.copy` or `memory.init` writes. Opening the frame of a
    /// function takes one for each 64 locals that it declares.
    Steps,
    /// One more frame or label would be open than may be.
    Depth,
    /// The module has several memories, or one more block would be written than may be.
    Memory,
}
