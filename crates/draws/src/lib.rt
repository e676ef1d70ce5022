// The draws of a run: SplitMix64, an index by weights, and a recall.
#![tactic(auto, unfolding(crate::specs::Draws::advance, crate::specs::Draws::mix, crate::specs::Draws::xor_shift, crate::specs::Draws::word, crate::specs::Draws::recalled))]

ghost use Rattle.std.specs.Prelude.{◌≡◌, ◌<◌};
ghost use Rattle.float32.specs.Numbers.{0ᶠ};
ghost use Rattle.draws.specs.Draws as Draws;

// The generator, by value.
#[derive(Clone, Copy)]
pub struct SplitMix64 {
    pub state: u64,
}

// A draw: the generator after it and its output.
#[derive(Clone, Copy)]
pub struct Drawn {
    pub generator: SplitMix64,
    pub output: u64,
}

impl SplitMix64 {
    pub fn new(seed: u64) -> Self
        ensures { result.state ≡ seed }
    {
        Self { state: seed }
    }

    pub fn next(self) -> Drawn
        ensures { (result.generator.state ≡ Draws.advance self.state)
            × (result.output ≡ Draws.mix (Draws.advance self.state)) }
    {
        let state = self.state.wrapping_add(0x9e37_79b9_7f4a_7c15);
        Drawn {
            generator: SplitMix64 { state },
            output: mix(state),
        }
    }
}

fn mix(z: u64) -> u64
    ensures { result ≡ Draws.mix z }
{
    let a = xor_shift(z, 30).wrapping_mul(0xbf58_476d_1ce4_e5b9);
    let b = xor_shift(a, 27).wrapping_mul(0x94d0_49bb_1331_11eb);
    xor_shift(b, 31)
}

fn xor_shift(z: u64, k: u64) -> u64
    requires { k < 64 }
    ensures { result ≡ Draws.xor_shift k z }
{
    z ^ (z >> k)
}

// The top 32 bits of an output.
pub fn word(output: u64) -> u32
    ensures { result ≡ Draws.word output }
{
    (output >> 32) as u32
}

// A word as a number from 0 to below 1.
pub fn unit(word: u32) -> f32
    ensures { result ≡ Draws.unit word }
{
    (word / 256) as f32 / 16777216.0
}

// The sum of the weights, added from the first on to 0.
pub fn total(weights: &[f32]) -> f32
    ensures { result ≡ Draws.sum_from 0ᶠ weights.now }
{
    let mut sum: f32 = 0.0;
    for &weight in weights {
        sum += weight;
    }
    sum
}

// The index, from 0, of the weight that a word chooses.
pub fn weighted_index(weights: &[f32], word: u32) -> usize
    ensures { result ≡ Draws.weighted_index weights.now word }
{
    let target = unit(word) * total(weights);
    let mut sum = 0.0;
    let mut positive = 0;
    for (i, &weight) in weights.iter().enumerate() {
        sum += weight;
        if target < sum {
            return i;
        }
        positive = if 0.0 < weight { i } else { positive };
    }
    positive
}

pub fn recalled(chance: f32, word: u32) -> bool
    ensures { result ≡ Draws.recalled chance word }
{
    unit(word) < chance
}
