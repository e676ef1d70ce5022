// What is memorized on each day: the chances of all cards, added up, in blocks of 64 days with a count beside, as in
// elementary's blocks.
ghost use Rattle.std.specs.Prelude.{◌≡◌, true, ◌+◌, ◌-◌, ◌^◌, ◌≤◌, pos, length};
ghost use Rattle.std.specs.Float.{binary32};
ghost use Rattle.std.specs.Float.Ieee.{sub, of_int};
ghost use Rattle.elementary.specs.Filled.{filled};
ghost use Rattle.model.specs.Model.{retention};
ghost use Rattle.days.specs.Sums.{add_forgetting_curve_range};

use crate::add_cost;
use model::Curve;

// The times since `last` of n days from day d on.
fn times(a: &mut [f32; 64], d: u32, last: f32, n: usize)
    requires { (n ≤ 64) × (d + n ≤ 2 ^ 24) }
    ensures { a.new ≡ filled (λ i. sub binary32 (of_int binary32 (pos (d + i))) last) n
        a.old }
{
    for i in 0..n {
        a[i] = (d + i as u32) as f32 - last;
    }
}

// A card's chance on each of up to 64 days from day d on.
fn add_block(memorized: &mut [f32], curve: Curve, d: u32, n: usize, last: f32)
    requires { (n ≤ 64) × (d + n ≤ 2 ^ 24) × (d + n ≤ length memorized.old) }
    ensures { memorized.new ≡ add_forgetting_curve_range (λ t. retention curve t) memorized.old n
        d last }
{
    let mut chances: [f32; 64] = [0.0; 64];
    times(&mut chances, d, last, n);
    curve.retentions(&mut chances, n);
    let first = d as usize;
    for i in 0..n {
        memorized[first + i] += chances[i];
    }
}

// On each day from `from` up to `to`, block by block.
fn add_blocks(memorized: &mut [f32], curve: Curve, from: u32, to: u32, last: f32)
    requires { (to ≤ 2 ^ 24) × (to ≤ length memorized.old) }
    ensures { memorized.new ≡ add_forgetting_curve_range (λ t. retention curve t) memorized.old
        (to - from) from last }
{
    for d in (from..to).step_by(64) {
        let n = ((to - d) as usize).min(64);
        add_block(memorized, curve, d, n, last);
    }
}

// The same day by day, for any days. A chance is added to its day as a cost is.
fn add_days(memorized: &mut [f32], curve: Curve, from: u32, to: u32, last: f32)
    ensures { memorized.new ≡ add_forgetting_curve_range (λ t. retention curve t) memorized.old
        (to - from) from last }
{
    for d in from..to {
        let t = float32::from_u32(d) - last;
        add_cost(memorized, d, curve.retention(t));
    }
}

// Whether there are eight days or more, an f32 holds each of them, and each has its place.
fn is_long(memorized: &[f32], from: u32, to: u32) -> bool
    ensures { result ≡ true → (to ≤ 2 ^ 24) × (to ≤ length memorized.now) }
{
    to <= 16777216 && from < to && 7 < to - from && to as usize <= memorized.len()
}

// A card's chance on each day from `from` up to `to`, that day left out. Five parameters and no struct: one function
// makes them and two take them, and a struct would be taken apart in each.
pub fn add_forgetting_curve_range(
    memorized: &mut [f32],
    curve: Curve,
    from: u32,
    to: u32,
    last: f32,
)
    ensures { memorized.new ≡ add_forgetting_curve_range (λ t. retention curve t) memorized.old
        (to - from) from last }
{
    if is_long(memorized, from, to) {
        add_blocks(memorized, curve, from, to, last);
    } else {
        add_days(memorized, curve, from, to, last);
    }
}
