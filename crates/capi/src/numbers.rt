// Floats, the elementary functions and the draws.
ghost use Rattle.std.specs.Prelude.{◌≡◌, ◌*◌, ◌^◌};
ghost use Rattle.std.specs.Float.Ieee as Ieee;
ghost use Rattle.std.specs.Float.{binary32};
ghost use Rattle.float32.specs.Float32 as Float32;
ghost use Rattle.elementary.specs.Exp.{exp_of};
ghost use Rattle.elementary.specs.Ln.{ln_of};
ghost use Rattle.elementary.specs.Pow.{pow_of};
ghost use Rattle.elementary.specs.Accuracy.{IsExp, IsLn, IsPow};
ghost use Rattle.draws.specs.Draws as Draws;

use draws::SplitMix64;

#[unsafe(no_mangle)]
pub extern "C" fn drill_exp(x: f32) -> f32
    ensures value { result ≡ exp_of x }
    ensures bound { IsExp x result }
{
    elementary::exp_f32(x)
}

#[unsafe(no_mangle)]
pub extern "C" fn drill_ln(x: f32) -> f32
    ensures value { result ≡ ln_of x }
    ensures bound { IsLn x result }
{
    elementary::ln_f32(x)
}

#[unsafe(no_mangle)]
pub extern "C" fn drill_powf(x: f32, y: f32) -> f32
    ensures value { result ≡ pow_of x y }
    ensures bound { IsPow x y result }
{
    elementary::powf_f32(x, y)
}

#[unsafe(no_mangle)]
pub extern "C" fn drill_is_finite(x: f32) -> bool
    ensures { result ≡ Float32.is_finite x }
{
    float32::is_finite(x)
}

#[unsafe(no_mangle)]
pub extern "C" fn drill_abs(x: f32) -> f32
    ensures { result ≡ Float32.abs x }
{
    float32::abs(x)
}

#[unsafe(no_mangle)]
pub extern "C" fn drill_max(x: f32, y: f32) -> f32
    ensures { result ≡ Float32.max x y }
{
    float32::max(x, y)
}

#[unsafe(no_mangle)]
pub extern "C" fn drill_min(x: f32, y: f32) -> f32
    ensures { result ≡ Float32.min x y }
{
    float32::min(x, y)
}

#[unsafe(no_mangle)]
pub extern "C" fn drill_clamp(x: f32, lo: f32, hi: f32) -> f32
    ensures { result ≡ Float32.clamp x lo hi }
{
    float32::clamp(x, lo, hi)
}

#[unsafe(no_mangle)]
pub extern "C" fn drill_to_i32(x: f32) -> i32
    ensures { result ≡ Ieee.to_signed 31 x }
{
    float32::to_i32(x)
}

#[unsafe(no_mangle)]
pub extern "C" fn drill_to_u32(x: f32) -> u32
    ensures { result ≡ Ieee.to_unsigned 32 x }
{
    float32::to_u32(x)
}

#[unsafe(no_mangle)]
pub extern "C" fn drill_pack(negative: bool, m: u64, e: u32) -> f32
    ensures { result ≡ Ieee.round binary32 negative (m * 2 ^ e) (2 ^ 1074) }
{
    float32::pack(negative, m, e)
}

#[unsafe(no_mangle)]
pub extern "C" fn drill_round(x: f32) -> f32
    ensures { result ≡ Float32.round x }
{
    float32::round(x)
}

#[unsafe(no_mangle)]
pub extern "C" fn drill_mul_add(x: f32, y: f32, z: f32) -> f32
    ensures { result ≡ Float32.mul_add x y z }
{
    float32::mul_add(x, y, z)
}

// Advances the state of the draws, and gives the output.
#[unsafe(no_mangle)]
pub extern "C" fn drill_next(state: &mut u64) -> u64
    ensures value { result ≡ Draws.mix (Draws.advance state.old) }
    ensures state_after { state.new ≡ Draws.advance state.old }
{
    let drawn = SplitMix64::new(*state).next();
    *state = drawn.generator.state;
    drawn.output
}

#[unsafe(no_mangle)]
pub extern "C" fn drill_word(output: u64) -> u32
    ensures { result ≡ Draws.word output }
{
    draws::word(output)
}

#[unsafe(no_mangle)]
pub extern "C" fn drill_weighted_index(weights: &[f32], word: u32) -> usize
    ensures { result ≡ Draws.weighted_index weights.now word }
{
    draws::weighted_index(weights, word)
}

#[unsafe(no_mangle)]
pub extern "C" fn drill_recalled(chance: f32, word: u32) -> bool
    ensures { result ≡ Draws.recalled chance word }
{
    draws::recalled(chance, word)
}
