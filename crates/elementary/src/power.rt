// x^y = 2^(y log2 x) for a finite x above 0 and |y| up to 128.
ghost use Rattle.std.specs.Prelude.{◌≡◌, ◌+◌, ◌*◌, ◌/◌, ◌%◌, ◌^◌, ◌<◌, ◌≤◌, true, not, from_bits, nat_lt};
ghost use Rattle.std.specs.Float.{binary32};
ghost use Rattle.std.specs.Float.Ieee.{unlike};
ghost use Rattle.elementary.specs.Power.{product, signed_arg, near_bits};
ghost use Rattle.elementary.specs.Power as Power;
ghost use Rattle.elementary.specs.Quick.{Near, Quick};

// log2 1 as the patterns count it, in units of 2^-32, and the exponent of 2 for x^y = 1, in units of 2^-39.
const LOG2_ONE: u64 = 159 << 32;

const ARG_ONE: u64 = 65662 << 39;

// The pattern of x with 2^23 for each power of two, also below 2^-126; that of 1 is 159 2^23.
pub(crate) fn normalized(b: u32) -> u32
    requires { (0 < b) × (b < 0x7F800000) }
    ensures { result ≡ Power.normalized b }
{
    if b < 8388608 {
        let z = b.leading_zeros();
        return (40 - z) * 8388608 + (b << (z - 8));
    }
    b + 0x10000000
}

// Whether y log2 x is below 0, where l is log2 x + n.
fn is_negative(n: u64, l: u64, c: u32) -> bool
    ensures { result ≡ unlike (nat_lt l n) (not (nat_lt c (2 ^ 31))) }
{
    (l < n) != (0x80000000 <= c)
}

// (2^16 + 126) 2^39 and u, which is taken away where y log2 x is below 0.
pub(crate) fn signed_arg(n: u64, l: u64, c: u32, u: u64) -> u64
    requires { u ≤ (2 ^ 16 + 126) * 2 ^ 39 }
    ensures { result ≡ signed_arg n l c u }
{
    if is_negative(n, l, c) {
        ARG_ONE - u
    } else {
        ARG_ONE + u
    }
}

// |y log2 x| in units of 2^-39, for |log2 x| in units of 2^-32 and |y| with the bit pattern a up to 128; 0 below 2^-47.
fn product_of(g: u64, a: u32) -> u64
    requires { (g ≤ 149 * 2 ^ 32) × (a ≤ 0x43000000) }
    ensures { result ≡ product g a }
{
    if 0x28000000 <= a {
        (u64::from(a % 8388608 + 8388608) * g) >> (143 - a / 8388608)
    } else {
        0
    }
}

// 126 + y log2 x in units of 2^-39, for x from 1 to 2^32 and y from -2 to -2^-31: m has the digits of y, s how far they
// are shifted.
pub(crate) fn quick_arg(l: u64, m: u32, s: u32) -> u64
    requires { (l ≤ 2 ^ 37) × (m < 2 ^ 24) × (16 ≤ s) × (s < 64) }
    ensures { result + m * l / 2 ^ s ≡ 126 * 2 ^ 39 }
{
    (126 << 39) - ((u64::from(m) * l) >> s)
}

// Whether x is from 1 to 2^32 and y from -2 to -2^-31: two differences, each below 2^28.
pub(crate) fn is_quick(b: u32, c: u32) -> bool
    ensures { result ≡ true → Quick b c }
{
    b.wrapping_sub(0x3F800000) / 0x10000000 + c.wrapping_sub(0xB0000000) / 0x10000000 == 0
}

// y log2 x and 2^16 + 126 in units of 2^-39.
fn arg_of(l: u64, c: u32) -> u64
    requires { (10 * 2 ^ 32 ≤ l) × (l ≤ 287 * 2 ^ 32) × (c % 2 ^ 31 ≤ 0x43000000) }
    ensures { result ≡ Power.arg_of l c }
{
    let u = product_of(l.abs_diff(LOG2_ONE), c % 0x80000000);
    signed_arg(LOG2_ONE, l, c, u)
}

// x^y from the bit patterns.
pub(crate) fn near_pow(b: u32, c: u32) -> f32
    requires { Near b c }
    ensures { result ≡ from_bits binary32 (near_bits b c) }
{
    let l = super::log2::log2_of(normalized(b));
    super::exp2::value_of(arg_of(l, c))
}

// The same for the quick pairs: the logarithm is counted from 1, and the result is a normal number.
pub(crate) fn quick_pow(b: u32, c: u32) -> f32
    requires { Quick b c }
    ensures { result ≡ from_bits binary32 (near_bits b c) }
{
    let l = super::log2::log2_of(b - 0x3F800000);
    let z = quick_arg(l, c % 8388608 + 8388608, 399 - c / 8388608);
    super::exp2::normal_of(z)
}
