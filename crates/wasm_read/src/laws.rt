//! A law about definitions only, as the contract of a call that does nothing.

ghost use Rattle.wasm_read_spec.specs.Cut.{CutFiles};

use wasm_read_spec::cut_files_end_with_a_frame;

/// If a file encodes a tree and so does a proper prefix of it, the prefix is the header alone or
/// ends where a frame of the file ends (WebAssembly Core 2.0, section 5.5.2). So no other proper
/// prefix of the file encodes a tree.
pub fn cut_files()
    ensures { CutFiles }
{
    cut_files_end_with_a_frame();
}
