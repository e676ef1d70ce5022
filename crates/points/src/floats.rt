// Edges of the functions on f32.
use crate::report::{compare, compare_bits, equal};
use float32::from_bits;
use std::io;

// Each table has arguments as bits, and what the function must give.
const ROUNDED: [(u32, u32); 17] = [
    (0x0000_0000, 0x0000_0000),
    (0x8000_0000, 0x8000_0000),
    (0x0000_0001, 0x0000_0000),
    (0x8000_0001, 0x8000_0000),
    (0x3f00_0000, 0x3f80_0000),
    (0xbeff_ffff, 0x8000_0000),
    (0xbf00_0000, 0xbf80_0000),
    (0x3fc0_0000, 0x4000_0000),
    // 2^23 - 1/2, 2^23 + 1/2 rounded to even, 2^23 + 1, 2^22 + 1/2
    (0x4aff_ffff, 0x4b00_0000),
    (0x4b00_0000, 0x4b00_0000),
    (0x4b00_0001, 0x4b00_0001),
    (0x4a80_0001, 0x4a80_0002),
    (0xcaff_ffff, 0xcb00_0000),
    (0x7f7f_ffff, 0x7f7f_ffff),
    (0x7f80_0000, 0x7f80_0000),
    (0xff80_0000, 0xff80_0000),
    (0x7fc0_0000, 0x7fc0_0000),
];

// x, y and z, and x * y + z.
const FUSED: [(u32, u32, u32, u32); 22] = [
    (0x3f80_0000, 0x3f7f_feb0, 0x3727_c5ac, 0x3f7f_ff58),
    (0x3f80_0001, 0x3f80_0001, 0x0000_0001, 0x3f80_0002),
    (0x3f80_0001, 0x3f80_0001, 0x8000_0001, 0x3f80_0002),
    (0x3f80_0001, 0x3f80_0001, 0x3300_0000, 0x3f80_0002),
    (0x3f80_0001, 0x3f7f_fffe, 0xbf80_0000, 0xa880_0000),
    (0x0000_0001, 0x3f00_0000, 0x0000_0000, 0x0000_0000),
    (0x0000_0003, 0x3f00_0000, 0x0000_0000, 0x0000_0002),
    (0x0080_0000, 0x3f7f_ffff, 0x0000_0000, 0x0080_0000),
    (0x7f7f_ffff, 0x4000_0000, 0xff7f_ffff, 0x7f7f_ffff),
    (0x7f7f_ffff, 0x3f80_0000, 0x7300_0000, 0x7f80_0000),
    (0x7f7f_ffff, 0x3f80_0000, 0x72ff_ffff, 0x7f7f_ffff),
    (0x8000_0000, 0x3f80_0000, 0x8000_0000, 0x8000_0000),
    (0x8000_0000, 0x3f80_0000, 0x0000_0000, 0x0000_0000),
    (0x3f80_0000, 0xbf80_0000, 0x3f80_0000, 0x0000_0000),
    (0x4b00_0001, 0x3f80_0001, 0x3380_0000, 0x4b00_0002),
    (0x3fc0_0000, 0x3f80_0001, 0x0000_0000, 0x3fc0_0002),
    (0x3fc0_0000, 0x3f80_0001, 0x8000_0001, 0x3fc0_0001),
    // not finite
    (0x7f80_0000, 0x0000_0000, 0x3f80_0000, 0x7fc0_0000),
    (0x7f80_0000, 0x3f80_0000, 0xff80_0000, 0x7fc0_0000),
    (0x3f80_0000, 0xff80_0000, 0x3f80_0000, 0xff80_0000),
    (0x7f7f_ffff, 0x7f7f_ffff, 0xff80_0000, 0xff80_0000),
    (0x3f80_0000, 0x3f80_0000, 0x7fc0_0000, 0x7fc0_0000),
];

const TO_I32: [(u32, i32); 12] = [
    (0x0000_0001, 0),
    (0x8000_0000, 0),
    (0xbf7f_ffff, 0),
    (0xbfff_ffff, -1),
    (0x4eff_ffff, 2147483520),
    (0x4f00_0000, 2147483647),
    (0x7f80_0000, 2147483647),
    (0xceff_ffff, -2147483520),
    (0xcf00_0000, -2147483648),
    (0xcf00_0001, -2147483648),
    (0xff80_0000, -2147483648),
    (0x7fc0_0000, 0),
];

const TO_U32: [(u32, u32); 8] = [
    (0x0000_0001, 0),
    (0x406c_cccd, 3),
    (0xbf80_0000, 0),
    (0xff80_0000, 0),
    (0x4f7f_ffff, 4294967040),
    (0x4f80_0000, 4294967295),
    (0x7f80_0000, 4294967295),
    (0x7fc0_0000, 0),
];

const MAX: [(u32, u32, u32); 5] = [
    (0x3f80_0000, 0x4000_0000, 0x4000_0000),
    (0x7fc0_0000, 0xff80_0000, 0xff80_0000),
    (0x0000_0001, 0x7fc0_0000, 0x0000_0001),
    (0x0000_0000, 0x8000_0000, 0x0000_0000),
    (0x8000_0000, 0x0000_0000, 0x8000_0000),
];

const MIN: [(u32, u32, u32); 3] = [
    (0x3f80_0000, 0x4000_0000, 0x3f80_0000),
    (0x7fc0_0000, 0x4270_0000, 0x4270_0000),
    (0xff80_0000, 0x7fc0_0000, 0xff80_0000),
];

// Clamped to 1 to 10.
const CLAMPED: [(u32, u32); 5] = [
    (0x3f7f_ffff, 0x3f80_0000),
    (0x4120_0001, 0x4120_0000),
    (0x4120_0000, 0x4120_0000),
    (0xff80_0000, 0x3f80_0000),
    (0x7fc0_0000, 0x7fc0_0000),
];

const ABS: [(u32, u32); 4] = [
    (0x8000_0000, 0x0000_0000),
    (0x8000_0001, 0x0000_0001),
    (0xff80_0000, 0x7f80_0000),
    (0x7fc0_0000, 0x7fc0_0000),
];

// The sign, m and e, and m * 2 ^ (e - 1074): the smallest, half of it and a little more, the largest, and beyond.
const PACKED: [(bool, u64, u32, u32); 9] = [
    (false, 1, 925, 0x0000_0001),
    (false, 1, 924, 0x0000_0000),
    (true, 1, 924, 0x8000_0000),
    (false, 3, 924, 0x0000_0002),
    (false, 4294967297, 892, 0x0000_0001),
    (false, 16777215, 924, 0x0080_0000),
    (false, 16777215, 1178, 0x7f7f_ffff),
    (false, 33554431, 1177, 0x7f80_0000),
    (true, 18446744073709551615, 1074, 0xdf80_0000),
];

fn rounded(rt: &impl Print) -> io::Result<()> {
    for (x, want) in ROUNDED {
        compare_bits(rt, "round", float32::round(from_bits(x)), want)?;
    }
    for (x, y, z, want) in FUSED {
        let got = float32::mul_add(from_bits(x), from_bits(y), from_bits(z));
        compare_bits(rt, "mul_add", got, want)?;
    }
    Ok(())
}

fn casts(rt: &impl Print) -> io::Result<()> {
    for (x, want) in TO_I32 {
        equal(rt, "to_i32", float32::to_i32(from_bits(x)) == want)?;
    }
    for (x, want) in TO_U32 {
        compare(
            rt,
            "to_u32",
            u64::from(float32::to_u32(from_bits(x))),
            u64::from(want),
        )?;
    }
    Ok(())
}

fn limits(rt: &impl Print) -> io::Result<()> {
    for (x, y, want) in MAX {
        compare_bits(rt, "max", float32::max(from_bits(x), from_bits(y)), want)?;
    }
    for (x, y, want) in MIN {
        compare_bits(rt, "min", float32::min(from_bits(x), from_bits(y)), want)?;
    }
    for (x, want) in CLAMPED {
        compare_bits(
            rt,
            "clamp 1 to 10",
            float32::clamp(from_bits(x), 1.0, 10.0),
            want,
        )?;
    }
    for (x, want) in ABS {
        compare_bits(rt, "abs", float32::abs(from_bits(x)), want)?;
    }
    Ok(())
}

fn kinds(rt: &impl Print) -> io::Result<()> {
    equal(rt, "is_finite", float32::is_finite(from_bits(0x7f7f_ffff)))?;
    equal(rt, "is_finite", !float32::is_finite(from_bits(0xff80_0000)))?;
    equal(rt, "is_nan", float32::is_nan(from_bits(0x7f80_0001)))?;
    equal(rt, "is_nan", !float32::is_nan(from_bits(0x7f80_0000)))
}

pub fn run(rt: &impl Print) -> io::Result<()> {
    rounded(rt)?;
    casts(rt)?;
    limits(rt)?;
    kinds(rt)?;
    for (negative, m, e, want) in PACKED {
        compare_bits(rt, "pack", float32::pack(negative, m, e), want)?;
    }
    Ok(())
}
