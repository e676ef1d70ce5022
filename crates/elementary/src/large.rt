// x^y for |y| above 128: x is squared until the exponent is below 128.
ghost use Rattle.std.specs.Prelude.{◌≡◌, ◌+◌, ◌*◌, ◌/◌, ◌%◌, ◌^◌, ◌<◌, ◌≤◌, from_bits};
ghost use Rattle.std.specs.Float.{binary32};
ghost use Rattle.power_tables.specs.Tables.{line_word, curvature};
ghost use Rattle.elementary.specs.Power.{fine_log2_at, fine_log2, fine_arg, large_arg, large_bits};
ghost use Rattle.elementary.specs.Power as Power;

use power_tables::Interval;

// 1/4 and 4 in units of 2^-60; log2 1 in units of 2^-35; exponents of 2 below and above every result.
const QUARTER: u64 = 1 << 58;

const FOUR: u64 = 1 << 62;

const LOG2_ONE: u64 = 159 << 35;

const ARG_LEAST: u64 = 0;

const ARG_MOST: u64 = 1 << 56;

// The normalized patterns of 1/4, 1 and 4.
const PATTERN_QUARTER: u32 = 157 << 23;

const PATTERN_ONE: u32 = 159 << 23;

const PATTERN_FOUR: u32 = 161 << 23;

// x x / 2^60, in 64 bits.
fn square(x: u64) -> u64
    requires { x < 2 ^ 62 }
    ensures { result ≡ x * x / 2 ^ 60 }
{
    let h = x / 2147483648;
    let l = x % 2147483648;
    h * h * 4 + (h * l + l * l / 4294967296) / 268435456
}

// One square, of what is from 1/4 to 4 in units of 2^-60.
fn square_once(x: u64) -> u64
    ensures { result ≡ Power.squares 1 x }
{
    if QUARTER <= x && x < FOUR {
        square(x)
    } else {
        x
    }
}

// k squares.
pub(crate) fn squares(k: u32, x: u64) -> u64
    ensures { result ≡ Power.squares k x }
{
    let mut y = x;
    for _ in 0..k {
        y = square_once(y);
    }
    y
}

// The finer logarithm, from the words of its interval.
fn fine_log2_by(line: u64, bend: u64, i: u64, t: u64) -> u64
    requires { (i < 512) × (t < 2 ^ 26) × (line ≡ line_word i) × (bend ≡ curvature i) }
    ensures { (result ≡ fine_log2_at i t) × (result ≤ 2 ^ 32) }
{
    (line + line % 4294967296 * (t * 64) - bend % 4294967296 * (t * t / 16777216)) / 4294967296
}

// The same with the words from the table.
fn fine_log2_at(i: u64, t: u64) -> u64
    requires { (i < 512) × (t < 2 ^ 26) }
    ensures { (result ≡ fine_log2_at i t) × (result ≤ 2 ^ 32) }
{
    let Interval(line, bend) = power_tables::interval_at(i);
    fine_log2_by(line, bend, i, t)
}

// log2 x + 159 in units of 2^-35, for x in units of 2^-60.
fn fine_log2(x: u64) -> u64
    requires { (2 ^ 58 ≤ x) × (x < 2 ^ 62) }
    ensures { result ≡ fine_log2 x }
{
    let z = x.leading_zeros();
    let y = (x << z) / 268435456;
    let i = y / 67108864 - 512;
    let f = fine_log2_at(i, y % 67108864);
    u64::from(162 - z) * 34359738368 + (f + i * 67108864)
}

// y log2 x + 2^16 + 126 in units of 2^-39.
fn fine_arg(l: u64, c: u32) -> u64
    requires { (157 * 2 ^ 35 ≤ l) × (l ≤ 161 * 2 ^ 35 + 8) }
    ensures { result ≡ fine_arg l c }
{
    let u = u64::from(c % 8388608 + 8388608) * l.abs_diff(LOG2_ONE) / 8192;
    super::power::signed_arg(LOG2_ONE, l, c, u)
}

// x^(2^k) in units of 2^-60, from the normalized pattern of x, where |y| / 2^k is from 64 to 128; 0 where it is below
// 1/4, 2^62 where it is 4 or more.
fn squared(p: u32, c: u32) -> u64
    requires { 0x43000000 < c % 2 ^ 31 }
    ensures { result ≡ Power.squared p c }
{
    let k = c % 0x80000000 / 8388608 - 133;
    if p < PATTERN_QUARTER {
        return 0;
    }
    if p < PATTERN_FOUR {
        if k <= 24 {
            let m = u64::from(8388608 + p % 8388608);
            return squares(k, m << (p / 8388608 - 122));
        }
        if p < PATTERN_ONE {
            return 0;
        }
    }
    FOUR
}

// The exponent of 2, or past the ends.
fn large_arg(x: u64, c: u32) -> u64
    ensures { result ≡ large_arg x c }
{
    if x < QUARTER {
        if c < 0x80000000 { ARG_LEAST } else { ARG_MOST }
    } else if x < FOUR {
        fine_arg(fine_log2(x), c)
    } else if c < 0x80000000 {
        ARG_MOST
    } else {
        ARG_LEAST
    }
}

// x^y from the bit patterns, for x other than 1.
pub(crate) fn large_pow(b: u32, c: u32) -> f32
    requires { (0 < b) × (b < 0x7F800000) × (0x43000000 < c % 2 ^ 31) }
    ensures { result ≡ from_bits binary32 (large_bits b c) }
{
    let x = squared(super::power::normalized(b), c);
    super::exp2::value_of(large_arg(x, c))
}
