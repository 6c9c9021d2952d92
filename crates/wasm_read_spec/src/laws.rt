//! Laws about the definitions, as contracts of calls that do nothing.

ghost use Rattle.std.specs.Prelude.{◌≡◌, ◌↔◌, ◌++◌, ℕ, List, [], Bool, true, false, Option, None, Some, Ok, Err};
ghost use Rattle.wasm_bytes.specs.Reading.{IsBytes};
ghost use Rattle.wasm_bytes.specs.Frames.{Section, Framed, FirstBad, HasHeader};
ghost use Rattle.wasm_bytes.specs.Joins.{U32, Named, Sized};
ghost use Rattle.wasm_tree.specs.declared.instr.Instr.{Instr as Tree};
ghost use Rattle.wasm_tree.specs.declared.module.Module.{Module as ModuleTree};
ghost use Rattle.wasm_tree.specs.Bounds.{IsBounded};
ghost use Rattle.wasm_tree.specs.MemoryZero.{memory_zero_funcs};
ghost use Rattle.wasm_tree.specs.declared.which.Which.{Which as SomeWhich};
ghost use Rattle.wasm_read_spec.specs.declared.fault.ReadFault.{ReadFault as SomeFault};
ghost use Rattle.wasm_read_spec.specs.declared.fault.ReadFault.TheVariants as fault;
ghost use Rattle.wasm_read_spec.specs.Bodies.{SpellsBody};
ghost use Rattle.wasm_read_spec.specs.Files.{Spells, Within};
ghost use Rattle.wasm_read_spec.specs.Contents.{AreBytes, framed_at, read_at, read_fault};
ghost use Rattle.wasm_read_spec.specs.Reading.{u32_at, name_at, sized_at};
ghost use Rattle.wasm_read_spec.specs.BodyReading.{TokenByToken};
ghost use Rattle.wasm_read_spec.specs.SpellingForms.{Any};
ghost use Rattle.wasm_read_spec.specs.Exact.{Exact};
ghost use Rattle.wasm_read_spec.specs.Stops.{Stop as SomeStop};
ghost use Rattle.wasm_read_spec.specs.Causes.{StopsAt, Cause};
ghost use Rattle.wasm_read_spec.specs.Cut.{CutFiles};
ghost use Rattle.wasm_read_spec.specs.Unambiguous.{ItemsArePrefixFree, FramesAreUnique};

use wasm_bytes::frames_are_read;
use wasm_tree::operands_pass_layer_by_layer;

/// The same bytes encode at most one tree.
pub fn decoding_is_unique()
    ensures { (many : Bool) (bytes : List ℕ) (m n : ModuleTree) → Spells bytes m many → Spells bytes n many → m ≡ n }
{
    frames_are_read();
}

/// No encoding of a body is a proper prefix of another, and the same bytes encode at most one body.
/// (For numbers see `wasm_bytes::integer_encodings_are_prefix_free`. For files this is false,
/// because the header alone encodes the empty module.)
pub fn body_encodings_are_prefix_free()
    ensures { (many : Bool) (text more : List ℕ) (is js : List Tree) → SpellsBody many text is → SpellsBody many (text ++ more) js → (more ≡ []) × (is ≡ js) }
{}

/// No encoding of an item of a section is a proper prefix of another, and the same bytes encode at
/// most one item (`items`: each field is about one section). The bytes of a file have at most one
/// list of section frames (`frames`).
pub fn section_encodings_are_unambiguous()
    ensures items { ItemsArePrefixFree }
    ensures frames { FramesAreUnique }
{
    frames_are_read();
}

/// Of bytes, `framed_at` gives a list of sections exactly if the file is framed as these sections
/// (`framed`), the number of a section exactly if its frame is the first bad one (`bad`), and
/// `NotModule` exactly if the header is missing (`not_module`). The contents of the frames of bytes
/// are bytes (`contents`).
pub fn framing_is_decided()
    ensures framed { (bytes : List ℕ) (ss : List Section) → IsBytes bytes → (framed_at bytes ≡ Ok ss) ↔ Framed bytes ss }
    ensures bad { (bytes : List ℕ) (n : ℕ) → IsBytes bytes → (framed_at bytes ≡ Err (fault.Malformed n)) ↔ FirstBad bytes n }
    ensures not_module { (bytes : List ℕ) → IsBytes bytes → (framed_at bytes ≡ Err fault.NotModule) ↔ (HasHeader bytes → ⊥) }
    ensures contents { (bytes : List ℕ) (ss : List Section) → IsBytes bytes → Framed bytes ss → AreBytes ss }
{
    frames_are_read();
}

/// The reading functions find what is encoded, and nothing else: a u32 (`numbers`), a name
/// (`names`), or a length with as many bytes (`sized`) in front of some bytes, and the tree that a
/// whole file encodes within the limits (`files`).
pub fn reading_is_exact()
    ensures numbers { Exact U32 Any u32_at }
    ensures names { Exact Named Any name_at }
    ensures sized { Exact Sized Any sized_at }
    ensures files { (many : Bool) (bytes : List ℕ) (m : ModuleTree) → IsBytes bytes → (read_at many bytes ≡ Ok m) ↔ (Spells bytes m many × Within bytes many) }
{
    frames_are_read();
}

/// A sequence of instructions is read token by token, with as much fuel as there are bytes or more.
pub fn sequences_are_read_token_by_token()
    ensures { TokenByToken }
{}

/// A file has no fault exactly if it encodes a tree and is within the limits.
pub fn no_fault_where_encoded()
    ensures { (many : Bool) (bytes : List ℕ) → IsBytes bytes → (read_fault bytes many ≡ None) ↔ ((m : ModuleTree) × Spells bytes m many × Within bytes many) }
{
    frames_are_read();
}

/// The first fault of a file is the fault whose cause holds (`causes`), and there is at most one
/// (`one`). A missing header comes first, and then a bad frame, whatever the sections contain. If
/// all frames are right, everything before the place of the fault is encoded and within the limits.
/// `Limit` and `Unsupported` say that a stop of that kind is at the place, whatever follows it.
/// `Malformed` and `MalformedBody` say that there is no stop, and that the place is malformed, or
/// that all contents are encoded and a rule on the whole file is broken. The place of a stop is
/// unique (`places`): a section and, in the code section, the entry of a function.
pub fn faults_have_causes()
    ensures causes { (bytes : List ℕ) (many : Bool) (e : SomeFault) → IsBytes bytes → (read_fault bytes many ≡ Some e) ↔ Cause bytes many e }
    ensures one { (bytes : List ℕ) (many : Bool) (e f : SomeFault) → IsBytes bytes → Cause bytes many e → Cause bytes many f → e ≡ f }
    ensures places { (bytes : List ℕ) (many : Bool) (n m : ℕ) (f g : Option ℕ) (s t : SomeStop) → IsBytes bytes → StopsAt bytes many n f s → StopsAt bytes many m g t → (n ≡ m) × (f ≡ g) }
{
    frames_are_read();
}

/// A file that encodes a tree is within the limits exactly if no count that is written in it, no
/// nesting and no sum of locals is over its limit. (`Within` is about what is encoded. `Limit` is
/// about what is written, even if the items do not follow.)
pub fn encoded_files_are_within_limits_where_none_is_exceeded()
    ensures { (bytes : List ℕ) (many : Bool) (m : ModuleTree) → IsBytes bytes → Spells bytes m many → Within bytes many ↔ ((which : SomeWhich) → Cause bytes many (fault.Limit which) → ⊥) }
{
    frames_are_read();
}

/// If a file encodes a tree and so does a proper prefix of it, the prefix is the header alone or
/// ends where a frame of the file ends.
pub fn cut_files_end_with_a_frame()
    ensures { CutFiles }
{}

/// A tree that is encoded within the limits is bounded: a u32 names each of its entries.
pub fn encoded_trees_are_bounded()
    ensures { (many : Bool) (bytes : List ℕ) (m : ModuleTree) → Spells bytes m many → Within bytes many → IsBounded m }
{}

/// If memories have no indices, a body names no memory except memory 0.
pub fn encoded_bodies_name_memory_zero()
    ensures { (bytes : List ℕ) (m : ModuleTree) → Spells bytes m false → memory_zero_funcs m.funcs ≡ true }
{
    operands_pass_layer_by_layer();
}
