ghost use Rattle.std.specs.Prelude.{◌≤◌, ◌<◌, ◌^◌};

/// What `sample` is to do.
#[derive(Drop)]
pub struct SampleTask<'a> {
    pub seed: u32,
    // how many functions each of the two modules has
    pub count: u32,
    pub output: Option<&'a str>,
    ghost seeded: { seed < 2 ^ 31 },
    ghost some: { 1 ≤ count },
    ghost most: { count ≤ 100000 },
}
