// A linear congruential generator.

ghost use Rattle.std.specs.Prelude.{◌≡◌, ◌<◌, ◌^◌};
ghost use Rattle.wasm_gen.specs.Draws.{next};

// Draws the next number.
pub(crate) fn draw(state: &mut u32) -> u32
    ensures drawn { result ≡ next state.old }
    ensures state { state.new ≡ next state.old }
    ensures small { result < 2 ^ 31 }
{
    let next = (u64::from(*state) * 1_103_515_245 + 12_345) % 2_147_483_648;
    *state = next as u32;
    *state
}
