// powf: x^y of a finite x above 0 and a finite y (power.rt, large.rt), and the special cases, as in the definition.
ghost use Rattle.std.specs.Prelude.{◌≡◌, ◌%◌, ◌^◌, ◌<◌, ◌≤◌, true, false, not, T, is_nan};
ghost use Rattle.std.specs.Float.{nan};
ghost use Rattle.elementary.specs.Pow.{is_odd, zero_size, zero_bits, inf_bits, to_inf_bits, num_bits, pow_at, pow_of};
ghost use Rattle.elementary.specs.Accuracy.{IsPow};
ghost use Rattle.elementary.specs.Quick.{Near, Special};

// Whether |y| with the bit pattern a is an odd whole number.
fn is_odd(a: u32) -> bool
    ensures { result ≡ is_odd a }
{
    if 0x3F800000 <= a && a < 0x4B800000 {
        let p = 1u32 << (150 - a / 8388608);
        (a % 8388608 + 8388608) % (p * 2) == p
    } else {
        false
    }
}

// A zero to the y, without a sign. Its mirror `inf_bits` stands apart, as in the definition: one with both values is no shorter.
fn zero_size(c: u32) -> u32
    ensures { result ≡ zero_size c }
{
    if c < 0x80000000 { 0 } else { 0x7F800000 }
}

// A zero to the y: the sign of the zero where y is odd.
fn zero_bits(b: u32, c: u32) -> u32
    requires { b ≤ 0x80000000 }
    ensures { result ≡ zero_bits b c }
{
    if is_odd(c % 0x80000000) {
        zero_size(c) + b
    } else {
        zero_size(c)
    }
}

// +infinity to the y.
fn inf_bits(c: u32) -> u32
    ensures { result ≡ inf_bits c }
{
    if c < 0x80000000 { 0x7F800000 } else { 0 }
}

// x above 0 to an infinity.
fn to_inf_bits(b: u32, c: u32) -> u32
    ensures { result ≡ to_inf_bits b c }
{
    if b < 0x3F800000 {
        zero_size(c)
    } else {
        inf_bits(c)
    }
}

// x a zero or +infinity, or y an infinity; y is not 0 and x not 1.
fn special_bits(b: u32, c: u32) -> u32
    requires { (b ≤ 0x80000000) × (b % 0x80000000 ≤ 0x7F800000) × (c % 0x80000000 ≤ 0x7F800000)
        × (0 < b → b < 0x7F800000 → 0x7F800000 ≤ c % 0x80000000) }
    ensures { result ≡ num_bits b c }
{
    if b % 0x80000000 == 0 {
        zero_bits(b, c)
    } else if b == 0x7F800000 {
        inf_bits(c)
    } else {
        to_inf_bits(b, c)
    }
}

// All of these, with x^0, 1^y and x below 0.
fn special(b: u32, c: u32) -> f32
    requires { Special b c }
    ensures { result ≡ pow_at b c }
{
    if c % 0x80000000 == 0 {
        1.0
    } else if b == 0x3F800000 {
        1.0
    } else if 0x80000000 < b {
        f32::NAN
    } else {
        f32::from_bits(special_bits(b, c))
    }
}

// Whether x is finite and above 0 and |y| up to 128.
fn is_near(b: u32, c: u32) -> bool
    ensures { (result ≡ true → Near b c) × (result ≡ false → Near b c → ⊥) }
{
    0 < b && b < 0x7F800000 && c % 0x80000000 < 0x43000001
}

// A large exponent, or a special case.
fn not_near(b: u32, c: u32) -> f32
    requires { (b % 2 ^ 31 ≤ 0x7F800000) × (c % 2 ^ 31 ≤ 0x7F800000) × (Near b c → ⊥) }
    ensures { result ≡ pow_at b c }
{
    if 0 < b && b < 0x7F800000 && c % 0x80000000 < 0x7F800000 && b != 0x3F800000 {
        super::large::large_pow(b, c)
    } else {
        special(b, c)
    }
}

// Two numbers, by their bit patterns.
fn of_numbers(b: u32, c: u32) -> f32
    requires { (b % 2 ^ 31 ≤ 0x7F800000) × (c % 2 ^ 31 ≤ 0x7F800000) }
    ensures { result ≡ pow_at b c }
{
    if super::power::is_quick(b, c) {
        super::power::quick_pow(b, c)
    } else if is_near(b, c) {
        super::power::near_pow(b, c)
    } else {
        not_near(b, c)
    }
}

// x or y is a NaN.
fn of_nan(x: f32, y: f32) -> f32
    requires { T (not (is_nan y)) → x ≡ nan }
    ensures { result ≡ pow_of x y }
{
    if y.is_nan() {
        return if !x.is_nan() && x.to_bits() == 0x3F800000 {
            1.0
        } else {
            y
        };
    }
    let zero = y.to_bits() % 0x80000000 == 0;
    if zero { 1.0 } else { x }
}

pub fn powf_f32(x: f32, y: f32) -> f32
    ensures value { result ≡ pow_of x y }
    ensures bound { IsPow x y result }
{
    if !x.is_nan() && !y.is_nan() {
        of_numbers(x.to_bits(), y.to_bits())
    } else {
        of_nan(x, y)
    }
}
