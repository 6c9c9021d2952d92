// The quantities that have a limit, and their limits.

ghost use Rattle.std.specs.Prelude.{◌≡◌};
ghost use Rattle.wasm_tree.specs.Limits.{limit};

/// The limit on the bytes of all input files of one command together.
pub const MOST_INPUT_BYTES: u32 = 16_777_216;
/// The limit on the parts of one merge.
pub const MOST_PARTS: u32 = 1_000;
/// The limit on the types of a module. This and the following limits of a module hold for input
/// files and for outputs.
pub const MOST_TYPES: u32 = 1_000_000;
/// The limit on the imports of a module.
pub const MOST_IMPORTS: u32 = 1_000_000;
/// The limit on the functions that a module defines.
pub const MOST_FUNCTIONS: u32 = 1_000_000;
/// The limit on the tables that a module defines.
pub const MOST_TABLES: u32 = 10_000;
/// The limit on the memories that a module defines. It is what `read` of wasm_read tests;
/// `validate` of wasm_valid is stricter and accepts at most one memory.
pub const MOST_MEMORIES: u32 = 10_000;
/// The limit on the globals that a module defines.
pub const MOST_GLOBALS: u32 = 1_000_000;
/// The limit on the exports of a module.
pub const MOST_EXPORTS: u32 = 1_000_000;
/// The limit on the element segments of a module.
pub const MOST_ELEMENT_SEGMENTS: u32 = 300_000;
/// The limit on the data segments of a module.
pub const MOST_DATA_SEGMENTS: u32 = 300_000;
/// The limit on the blocks, loops and ifs that are open at once in a body.
pub const MOST_NESTING: u32 = 1_000;
/// The limit on the locals that one function declares, without its parameters.
pub const MOST_LOCALS: u32 = 50_000;
/// The limit on the parameters of one function type.
pub const MOST_PARAMETERS: u32 = 1_000;
/// The limit on the results of one function type.
pub const MOST_RESULTS: u32 = 1_000;
/// The limit on the sum of the numbers of parameters of all functions that one split moves.
pub const MOST_TRAMPOLINES: u32 = 4_000_000;
/// The limit on the bytes of the canonical encoding of one output (custom sections, which no
/// command adds, do not count).
pub const MOST_OUTPUT_BYTES: u32 = 268_435_456;

/// A quantity that has a limit. The limit of a quantity of a module holds for input files and for
/// outputs.
#[derive(Clone, Copy, Debug, PartialEq, Eq)]
pub enum Which {
    InputBytes,
    Parts,
    Types,
    Imports,
    Functions,
    Tables,
    Memories,
    Globals,
    Exports,
    ElementSegments,
    DataSegments,
    Nesting,
    Locals,
    Parameters,
    Results,
    Trampolines,
    OutputBytes,
}

impl Which {
    /// Returns the limit of the quantity.
    pub fn limit(self) -> u32
        ensures { result ≡ limit self }
    {
        match self {
            Which::InputBytes => MOST_INPUT_BYTES,
            Which::Parts => MOST_PARTS,
            Which::Types => MOST_TYPES,
            Which::Imports => MOST_IMPORTS,
            Which::Functions => MOST_FUNCTIONS,
            Which::Tables => MOST_TABLES,
            Which::Memories => MOST_MEMORIES,
            Which::Globals => MOST_GLOBALS,
            Which::Exports => MOST_EXPORTS,
            Which::ElementSegments => MOST_ELEMENT_SEGMENTS,
            Which::DataSegments => MOST_DATA_SEGMENTS,
            Which::Nesting => MOST_NESTING,
            Which::Locals => MOST_LOCALS,
            Which::Parameters => MOST_PARAMETERS,
            Which::Results => MOST_RESULTS,
            Which::Trampolines => MOST_TRAMPOLINES,
            Which::OutputBytes => MOST_OUTPUT_BYTES,
        }
    }
}
