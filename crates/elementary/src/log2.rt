// log2 x by 512 intervals: a height, a slope and a curvature for each.
ghost use Rattle.std.specs.Prelude.{◌≡◌, ◌/◌, ◌%◌, ◌^◌};
ghost use Rattle.power_tables.specs.Tables.{line_word, curvature};
ghost use Rattle.elementary.specs.Power.{log2_of};

// From the words of p's interval. The shift in u32 keeps the product with the slope apart from the square.
pub(crate) fn log2_by(line: u64, bend: u64, p: u32) -> u64
    requires { (line ≡ line_word (p / 2 ^ 14 % 512)) × (bend ≡ curvature (p / 2 ^ 14 % 512)) }
    ensures { result ≡ log2_of p }
{
    let t = p % 16384;
    let s = u64::from(p << 18);
    u64::from(p / 16384) * 8388608
        + (line + line % 4294967296 * s - bend % 4294967296 * u64::from(t * t)) / 34359738368
}

// The logarithm of a pattern, counted from where the patterns are.
pub(crate) fn log2_of(p: u32) -> u64
    ensures { result ≡ log2_of p }
{
    let e = power_tables::interval_at(u64::from(p / 16384));
    log2_by(e.0, e.1, p)
}
