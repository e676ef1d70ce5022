// 2^z, the last step of powf: a power of the table times 2^r for the last r below 2^-7.
ghost use Rattle.std.specs.Prelude.{◌≡◌, ◌+◌, ◌*◌, ◌/◌, ◌%◌, ◌^◌, ◌<◌, from_bits};
ghost use Rattle.std.specs.Float.{binary32};
ghost use Rattle.power_tables.specs.Tables.{power_word};
ghost use Rattle.elementary.specs.Power.{exp2_of, exp2_bits};
ghost use Rattle.elementary.specs.Power as Power;

// Exponents of 2: of 2^-126.5, below which the result is 0, of 2^-126 and of 2^128.
const ARG_ZERO: u64 = (1 << 55) - (1 << 38);

const ARG_NORMAL: u64 = 1 << 55;

const ARG_INFINITE: u64 = (1 << 55) + (254 << 39);

// 2^(r / 2^39) - 1 in units of 2^-32: 0.6931453 r + 0.2408769 r^2, the factors in units of 2^-31 and of 2^-32.
fn exp2m1(r: u64) -> u64
    requires { r < 2 ^ 32 }
    ensures { (result ≡ Power.exp2m1 r) × (result < 2 ^ 25) }
{
    r * (1488518144 + r * 1034558604 / 1099511627776) / 274877906944
}

// 2^(z / 2^39 % 1) and half a step, less the straight line, in units of 2^-63, from the word w of z.
pub(crate) fn digits_by(w: u64, z: u64) -> u64
    requires { w ≡ power_word (z / 2 ^ 32 % 128) }
    ensures { result + z / 2 ^ 32 % 128 * 2 ^ 56 ≡ exp2_of (z % 2 ^ 39) + 2 ^ 39 }
{
    w + w % 4294967296 * exp2m1(z % 4294967296)
}

// The bit pattern of a normal number: the straight line is added again with the exponent.
fn normal(q: u64, d: u64) -> u32
    requires { q < 254 * 128 }
    ensures { result ≡ q * 2 ^ 16 + d / 2 ^ 40 }
{
    (q * 65536 + d / 1099511627776) as u32
}

// 2^(z / 2^39 - 2^16 - 126), of the digits d. The last test is the cut to 0.
pub(crate) fn ranged(z: u64, d: u64) -> f32
    requires { d + z / 2 ^ 32 % 128 * 2 ^ 56 ≡ exp2_of (z % 2 ^ 39) + 2 ^ 39 }
    ensures { result ≡ from_bits binary32 (exp2_bits z) }
{
    if ARG_NORMAL <= z {
        if z < ARG_INFINITE {
            return f32::from_bits(normal(z / 4294967296 - 8388608, d));
        }
        return f32::INFINITY;
    }
    if z < ARG_ZERO {
        0.0
    } else {
        f32::from_bits(((d / 4294967296 + z / 4294967296 % 128 * 16777216 + 128) / 512) as u32)
    }
}

// 2^(z / 2^39 - 126), where that is normal, from the word w of z.
pub(crate) fn normal_by(w: u64, z: u64) -> f32
    requires { (z < 254 * 2 ^ 39) × (w ≡ power_word (z / 2 ^ 32 % 128)) }
    ensures { result ≡ from_bits binary32 (exp2_bits (z + 2 ^ 55)) }
{
    f32::from_bits(normal(z / 4294967296, digits_by(w, z)))
}

// The same of z, with its word from the table.
pub(crate) fn normal_of(z: u64) -> f32
    requires { z < 254 * 2 ^ 39 }
    ensures { result ≡ from_bits binary32 (exp2_bits (z + 2 ^ 55)) }
{
    normal_by(power_tables::power_at(z / 4294967296), z)
}

// 2^(z / 2^39 - 2^16 - 126).
pub(crate) fn value_of(z: u64) -> f32
    ensures { result ≡ from_bits binary32 (exp2_bits z) }
{
    ranged(z, digits_by(power_tables::power_at(z / 4294967296), z))
}
