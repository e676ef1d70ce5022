// The powers of a block of up to 64 numbers to one exponent, each as powf has it. A step of powf is a loop over the
// whole block here: a loop without a table is compiled to operations on several numbers at once, and none waits for the
// chain of a whole power.
// With no heap the words of a step lie in arrays of 64: a block is one as well, and one count n tells how far each is filled.
ghost use Rattle.std.specs.Prelude.{◌≡◌, ℕ, ◌+◌, ◌*◌, ◌/◌, ◌%◌, ◌^◌, ◌<◌, ◌≤◌, min, true, from_bits, slice_index, slice_index_or, to_bits};
ghost use Rattle.std.specs.Float.{nan, binary32};
ghost use Rattle.power_tables.specs.Tables.{line_word, curvature, power_word};
ghost use Rattle.elementary.specs.Power.{exp2_bits};
ghost use Rattle.elementary.specs.Pow.{pow_of};
ghost use Rattle.elementary.specs.Accuracy.{IsPow};
ghost use Rattle.elementary.specs.Filled.{filled};
ghost use Rattle.elementary.specs.Quick.{IsBase, IsDecay, quick_arg};

// Whether x is from 1 to 2^32. Its like `is_decay` stands apart: each promises its own range.
fn is_base(x: f32) -> bool
    ensures { result ≡ true → IsBase x }
{
    !x.is_nan() && x.to_bits().wrapping_sub(0x3F800000) < 0x10000000
}

// Whether the first n are from 1 to 2^32.
fn are_bases(x: &[f32; 64], n: usize) -> bool
    requires { n ≤ 64 }
    ensures { result ≡ true → (i : ℕ) → i < n → IsBase (slice_index_or x.now i nan) }
{
    x[..n].iter().copied().all(is_base)
}

// The words of the logarithms' intervals.
fn intervals(e: &mut [u64; 64], f: &mut [u64; 64], x: &[f32; 64], n: usize)
    requires { (n ≤ 64) × ((i : ℕ) → i < n → IsBase (slice_index_or x.now i nan)) }
    ensures lines { e.new
        ≡ filled (λ i. line_word (to_bits binary32 (slice_index_or x.now i nan) / 2 ^ 14 % 512)) n e.old }
    ensures curvatures { f.new ≡ filled (λ i. curvature (to_bits binary32 (slice_index_or x.now i nan) / 2 ^ 14 % 512)) n
        f.old }
{
    for i in 0..n {
        let k = power_tables::interval_at(u64::from(x[i].to_bits() / 16384));
        e[i] = k.0;
        f[i] = k.1;
    }
}

// The exponents of 2, in the place of the lines.
fn args(e: &mut [u64; 64], f: &[u64; 64], x: &[f32; 64], c: u32, n: usize)
    requires { (n ≤ 64) × IsDecay c × ((i : ℕ) → i < n → (IsBase (slice_index_or x.now i nan))
        × (slice_index e.old i ≡ line_word (to_bits binary32 (slice_index_or x.now i nan) / 2 ^ 14 % 512))
        × (slice_index f.now i ≡ curvature (to_bits binary32 (slice_index_or x.now i nan) / 2 ^ 14 % 512))) }
    ensures { e.new ≡ filled (λ i. quick_arg (to_bits binary32 (slice_index_or x.now i nan)) c) n
        e.old }
{
    let m = c % 8388608 + 8388608;
    let s = 399 - c / 8388608;
    for i in 0..n {
        let l = super::log2::log2_by(e[i], f[i], x[i].to_bits() - 0x3F800000);
        e[i] = super::power::quick_arg(l, m, s);
    }
}

// The words of the powers of 2.
fn powers(f: &mut [u64; 64], e: &[u64; 64], n: usize)
    requires { n ≤ 64 }
    ensures { f.new ≡ filled (λ i. power_word (slice_index e.now i / 2 ^ 32 % 128)) n
        f.old }
{
    for i in 0..n {
        f[i] = power_tables::power_at(e[i] / 4294967296);
    }
}

// The powers of x.
fn values(x: &mut [f32; 64], e: &[u64; 64], f: &[u64; 64], n: usize)
    requires { (n ≤ 64) × ((i : ℕ) → i < n → (slice_index e.now i < 254 * 2 ^ 39)
        × (slice_index f.now i ≡ power_word (slice_index e.now i / 2 ^ 32 % 128))) }
    ensures { x.new ≡ filled (λ i. from_bits binary32 (exp2_bits (slice_index e.now i + 2 ^ 55))) n
        x.old }
{
    for i in 0..n {
        x[i] = super::exp2::normal_by(f[i], e[i]);
    }
}

// Whether y is from -2 to -2^-31.
fn is_decay(y: f32) -> bool
    ensures { result ≡ true → IsDecay (to_bits binary32 y) }
{
    !y.is_nan() && y.to_bits().wrapping_sub(0xB0000000) < 0x10000000
}

// The powers where y is from -2 to -2^-31 and each x from 1 to 2^32.
fn quick_powers(x: &mut [f32; 64], y: f32, n: usize)
    requires { (n ≤ 64) × IsDecay (to_bits binary32 y) × ((i : ℕ) → i < n → IsBase (slice_index_or x.old i nan)) }
    ensures value { x.new ≡ filled (λ i. pow_of (slice_index_or x.old i nan) y) n x.old }
    ensures bound { (i : ℕ) → i < n
        → IsPow (slice_index_or x.old i nan) y (pow_of (slice_index_or x.old i nan) y) }
{
    let mut e: [u64; 64] = [0; 64];
    let mut f: [u64; 64] = [0; 64];
    intervals(&mut e, &mut f, x, n);
    args(&mut e, &f, x, y.to_bits(), n);
    powers(&mut f, &e, n);
    values(x, &e, &f, n);
}

// The powers of any x to any y.
fn one_by_one(x: &mut [f32; 64], y: f32, n: usize)
    requires { n ≤ 64 }
    ensures value { x.new ≡ filled (λ i. pow_of (slice_index_or x.old i nan) y) n x.old }
    ensures bound { (i : ℕ) → i < n
        → IsPow (slice_index_or x.old i nan) y (pow_of (slice_index_or x.old i nan) y) }
{
    for i in 0..n {
        x[i] = super::powf::powf_f32(x[i], y);
    }
}

// As many of n as a block holds: the name of a block's length, which callers share.
pub fn up_to_64(n: usize) -> usize
    ensures { (result ≡ min n 64) × (result ≤ 64) }
{
    n.min(64)
}

fn powers_of_first(x: &mut [f32; 64], y: f32, n: usize)
    requires { n ≤ 64 }
    ensures value { x.new ≡ filled (λ i. pow_of (slice_index_or x.old i nan) y) n x.old }
    ensures bound { (i : ℕ) → i < n
        → IsPow (slice_index_or x.old i nan) y (pow_of (slice_index_or x.old i nan) y) }
{
    if is_decay(y) && are_bases(x, n) {
        quick_powers(x, y, n);
    } else {
        one_by_one(x, y, n);
    }
}

// The first n of x become their powers, or all 64 where n is more.
pub fn powers_of(x: &mut [f32; 64], y: f32, n: usize)
    ensures value { x.new ≡ filled (λ i. pow_of (slice_index_or x.old i nan) y) (min n 64)
        x.old }
    ensures bound { (i : ℕ) → i < min n 64
        → IsPow (slice_index_or x.old i nan) y (pow_of (slice_index_or x.old i nan) y) }
{
    powers_of_first(x, y, up_to_64(n));
}
