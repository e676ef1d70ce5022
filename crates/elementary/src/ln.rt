// ln x. x = m / 2^23 * 2^(n - 159), and m is multiplied by two reciprocals of tables until it is 1 + d with d below
// 2^-14; then ln x is n ln 2, the two logarithms from the tables, and d - d^2 / 2. The tables are in
// ln_tables.rt.
ghost use Rattle.std.specs.Prelude.{◌≡◌, ◌+◌, ◌-◌, ◌*◌, ◌^◌, ◌<◌, ◌≤◌};
ghost use Rattle.series.specs.Exp.{ln2_fine};
ghost use Rattle.elementary.specs.Ln.{ln_small, ln_rest, ln_mant, exponent, significand, ln_wide};
ghost use Rattle.elementary.specs.Ln.{ln_size, ln_sign, rounded, ln_rounded, ln_of};
ghost use Rattle.elementary.specs.Accuracy.{IsLn};

// ln 2 in units of 2^-52, cut down, and 159 ln 2.
const LN2: u64 = 3121657384082679;

const LN2_159: u64 = 159 * LN2;

// The same less 1320, the most by which a sum is too low.
const LN2_159_LESS: u64 = LN2_159 - 1320;

// ln (1 + d / 2^45) in units of 2^-45, from below.
fn ln_small(d: u64) -> u64
    requires { d ≤ 2415689728 }
    ensures { result ≡ ln_small d }
{
    d - (d * d + 70368744177663) / 70368744177664
}

// ln (t / 2^38) in units of 2^-52, from below, by the second reciprocal.
fn ln_rest(t: u64, j: u64) -> u64
    requires { (j < 128) × (2 ^ 38 + j * 2 ^ 24 ≤ t) × (t ≤ 2 ^ 38 + (j + 1) * 2 ^ 24) }
    ensures { result ≡ ln_rest t j }
{
    let e = super::ln_tables::second_at(j);
    let d = t * (e % 262144) / 1024 % 4294967296;
    e / 262144 + ln_small(d) * 128
}

// ln (m / 2^23) in units of 2^-52, from below.
fn ln_mant(m: u64) -> u64
    requires { (2 ^ 23 ≤ m) × (m < 2 ^ 24) }
    ensures { result ≡ ln_mant m }
{
    let e = super::ln_tables::first_at(m / 65536 % 128);
    let t = m * (e % 65536);
    e / 65536 * 32 + ln_rest(t, t / 16777216 % 128)
}

// The n of a finite x above 0, from its bit pattern. The pattern's bounds are asked at four places: a type for it would
// be made and opened at each.
pub(crate) fn exponent_of(b: u32) -> u64
    requires { (0 < b) × (b < 0x7F800000) }
    ensures { result ≡ exponent b }
{
    if b < 8388608 {
        u64::from(41 - b.leading_zeros())
    } else {
        u64::from(32 + b / 8388608)
    }
}

// The m of x.
pub(crate) fn significand_of(b: u32) -> u64
    requires { (0 < b) × (b < 0x7F800000) }
    ensures { result ≡ significand b }
{
    if b < 8388608 {
        u64::from(b << (b.leading_zeros() - 8))
    } else {
        u64::from(b % 8388608 + 8388608)
    }
}

// ln x + 159 ln 2 in units of 2^-52, from below.
pub(crate) fn ln_wide(n: u64, m: u64) -> u64
    requires { (n ≤ 286) × (2 ^ 23 ≤ m) × (m < 2 ^ 24) }
    ensures { result ≡ ln_wide n m }
{
    n * LN2 + ln_mant(m)
}

// |ln x| in units of 2^-52, from below.
fn size_of(w: u64) -> u64
    requires { w < 159 * ln2_fine → w ≤ 159 * ln2_fine - 1320 }
    ensures { result ≡ ln_size w }
{
    if w < LN2_159 {
        LN2_159_LESS - w
    } else {
        w - LN2_159
    }
}

// The sign's bit of ln x.
fn sign_of(w: u64) -> u32
    ensures { result ≡ ln_sign w }
{
    if w < LN2_159 { 0x80000000 } else { 0 }
}

// The bit pattern of w / 2^52, rounded to the nearest f32, for w above 0.
fn round_fixed(w: u64) -> u32
    requires { 0 < w }
    ensures { result ≡ rounded w }
{
    let z = w.leading_zeros();
    (137 - z) * 8388608 + (((w << z) / 549755813888 + 1) / 2) as u32
}

// The bit pattern of ln x.
fn ln_rounded(w: u64) -> u32
    requires { w < 159 * ln2_fine → w ≤ 159 * ln2_fine - 1320 }
    ensures { result ≡ ln_rounded w }
{
    let s = size_of(w);
    if s == 0 {
        sign_of(w)
    } else {
        round_fixed(s) + sign_of(w)
    }
}

pub fn ln_f32(x: f32) -> f32
    ensures value { result ≡ ln_of x }
    ensures bound { IsLn x result }
{
    if x.is_nan() {
        return x;
    }
    let b = x.to_bits();
    if b < 0x7F800000 {
        if b == 0 {
            return f32::NEG_INFINITY;
        }
        return f32::from_bits(ln_rounded(ln_wide(exponent_of(b), significand_of(b))));
    }
    if b == 0x7F800000 {
        x
    } else if b == 0x80000000 {
        f32::NEG_INFINITY
    } else {
        f32::NAN
    }
}
