// e^x. |x| becomes a fixed point number in units of 2^-48; x + 127 ln 2 is divided by ln 2 into n and a rest r below ln
// 2, and e^x = 2^(n - 127) e^r. e^r is the product of two entries of tables (exp_tables.rt) and 1 + s (1 + s / 2)
// for the last s below 2^-9.
ghost use Rattle.std.specs.Prelude.{◌≡◌, ◌+◌, ◌-◌, ◌*◌, ◌^◌, ◌<◌, ◌≤◌, from_bits, nat_lt};
ghost use Rattle.std.specs.Float.{binary32};
ghost use Rattle.series.specs.Exp.{ln2};
ghost use Rattle.elementary.specs.Exp.{power, small, mant, fixed, packed, shifted, limit, exp_bits, exp_of};
ghost use Rattle.elementary.specs.Accuracy.{IsExp};

// ln 2 in units of 2^-48, cut up, and what is added to x there.
const LN2: u64 = 195103586505168;

const ADDED: u64 = 127 * LN2 - 128;

// Bit patterns of |x|: below the first e^x is 1; from the others on it is +infinity, and 0.
const PATTERN_ONE: u32 = 0x33000000;

const PATTERN_INFINITE: u32 = 0x42B17218;

const PATTERN_ZERO: u32 = 0x42AEAC50;

// e^(p / 2^48) in units of 2^-31.
fn small_exp(p: u64) -> u64
    requires { p < 2 ^ 39 }
    ensures { result ≡ small p }
{
    let s = p / 256;
    2147483648 + s * (2147483648 + s / 1024) / 1099511627776
}

// e^(i / 512) in units of 2^-31.
fn power_at(i: u64) -> u64
    requires { i < 355 }
    ensures { result ≡ power i }
{
    super::exp_tables::coarse_at(i / 32) * super::exp_tables::fine_at(i % 32) / 2147483648
}

// e^(r / 2^48) in units of 2^-31.
fn mantissa(r: u64) -> u64
    requires { r < ln2 + 1 }
    ensures { result ≡ mant r }
{
    power_at(r / 549755813888) * small_exp(r % 549755813888) / 2147483648
}

// 2^(e - 127) e^(r / 2^48), rounded to the nearest f32. At e = 0 the unit is that of a subnormal.
fn pack(e: u64, r: u64) -> f32
    requires { (e < 255) × (r < ln2 + 1) }
    ensures { result ≡ from_bits binary32 (packed e r) }
{
    let m = mantissa(r);
    if e == 0 {
        f32::from_bits(((m + 256) / 512) as u32)
    } else {
        f32::from_bits(((e - 1) * 8388608 + (m + 128) / 256) as u32)
    }
}

// |x| in units of 2^-48, from its bit pattern.
fn to_fixed(a: u32) -> u64
    requires { (0x33000000 ≤ a) × (a < 0x42B17218) }
    ensures { result ≡ fixed a }
{
    u64::from(a % 8388608 + 8388608) << (a / 8388608 - 102)
}

// x + 127 ln 2, from the bit pattern of x and |x|, less what makes it a lower bound.
fn shift(b: u32, x: u64) -> u64
    requires { (x < 2 ^ 55) × (0x80000000 ≤ b → x ≤ 127 * (ln2 + 1) - 128) }
    ensures { result ≡ shifted (nat_lt b 0x80000000) x }
{
    if b < 0x80000000 { ADDED + x } else { ADDED - x }
}

// The pattern of |x| from which on e^x is +infinity, or 0.
fn limit_of(b: u32) -> u32
    ensures { result ≡ limit (nat_lt b 0x80000000) }
{
    if b < 0x80000000 {
        PATTERN_INFINITE
    } else {
        PATTERN_ZERO
    }
}

// e^x from the bit pattern of a number x.
fn exp_at(b: u32) -> f32
    ensures { result ≡ from_bits binary32 (exp_bits b) }
{
    let a = b % 0x80000000;
    if a < PATTERN_ONE {
        1.0
    } else if a < limit_of(b) {
        let z = shift(b, to_fixed(a));
        pack(z / LN2, z % LN2)
    } else if b < 0x80000000 {
        f32::INFINITY
    } else {
        0.0
    }
}

pub fn exp_f32(x: f32) -> f32
    ensures value { result ≡ exp_of x }
    ensures bound { IsExp x result }
{
    if x.is_nan() { x } else { exp_at(x.to_bits()) }
}
