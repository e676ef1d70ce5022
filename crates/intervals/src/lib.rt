// The interval table: a map of fixed size from a key of two buckets to an interval, in two lists that the caller lends.
// A place is free if its interval is below 1, as it is after `clear`. A key is looked for from the place that its hash
// names, place by place and round the end, until the key or a free place is met. Keys and intervals are two lists, not
// one of pairs: C lends them as two. A key goes as its two halves s and r: a struct would be made of a row of C's list
// and taken apart again at each use.
#![tactic(auto)]

ghost use Rattle.std.specs.Prelude.{◌≡◌, ◌<◌, length, get_or, set, replicate, false};
ghost use Rattle.intervals.specs.Table.{table, mix_of, home_of, next_of, same_key, LookupContract, enter_in};
ghost use Rattle.std.specs.Float.{inf};
ghost use Rattle.float32.specs.Float32.{max};
ghost use Rattle.model.specs.Constants.{s_min};
ghost use Rattle.intervals.specs.Bucket.{pattern, bucket_index, stability_bucket, retention_bucket};
ghost use Rattle.intervals.specs.Accuracy.{IsLnBucket};
ghost use Rattle.intervals.specs.Schedule.{is_below, is_no_less, certifies_one, certifies_range, all_finite, certifies};
ghost use Rattle.intervals.specs.Schedule.{slot_of, is_full, interval_of, entered};
ghost use Rattle.float32.specs.Numbers.{0ᶠ};
ghost use Rattle.model.specs.Model as Model;
ghost use Rattle.model.specs.Runtime as Runtime;

use model::{Curve, Fsrs7Runtime};

// A row of the table's keys, as the C interface lends it: the buckets of a stability and of a retention.
pub type KeyRow = [u32; 2];

// The steps of the buckets, and how far inside its rounding range an interval is tested.
const LOG_S_STEP: f32 = 0.001;

const DR_STEP: f32 = 0.0005;

const ROUNDING_MARGIN: f32 = 0.05;

// What a lookup finds: the key's place and interval, a free place that would take the key, or neither. Three cases, so
// no Option and no Result.
#[derive(Clone, Copy)]
pub enum Entry {
    Found(usize, f32),
    Free(usize),
    Full,
}

// How the table serves a schedule: an interval that it holds, one to be entered at a place under a key of two buckets,
// or neither for want of a place. Three cases, where an Option or a Result has two.
#[derive(Clone, Copy)]
pub enum Slot {
    Keep(f32),
    Enter(usize, u32, u32, f32),
    Full,
}

// The bucket of a value as the bit pattern of its i32.
pub fn bucket_index(value: f32, step: f32) -> u32
    ensures { result ≡ pattern (bucket_index value step) }
{
    let times = float32::round(value / step);
    float32::to_i32(float32::clamp(times, -2147483648.0, 2147483648.0)).cast_unsigned()
}

// The bucket of a stability's logarithm.
pub fn stability_bucket(stability: f32) -> u32
    ensures value { result ≡ stability_bucket stability }
    ensures bound { (stability ≡ inf false → ⊥) → IsLnBucket (max stability s_min) result }
{
    bucket_index(
        elementary::ln_f32(float32::max(stability, Fsrs7Runtime::S_MIN)),
        LOG_S_STEP,
    )
}

// The bucket of a desired retention.
#[tactic(auto, using(crate::proofs::Numbers::literals), unfolding(crate::specs::Bucket::retention_bucket))]
pub fn retention_bucket(retention: f32) -> u32
    ensures { result ≡ retention_bucket retention }
{
    bucket_index(retention, DR_STEP)
}

// A key's hash. The first factor is 2^32 over the golden ratio: neighbouring stabilities lie far apart, and any number
// of them in a row lies evenly over the whole range.
#[tactic(auto, unfolding(crate::specs::Table::mix_of))]
fn mixed(s: u32, r: u32) -> usize
    ensures { result ≡ mix_of s r }
{
    ((u64::from(s) * 2654435769 + u64::from(r) * 1540483477) % 4294967296) as usize
}

// Where the search for a key starts: the hash's share of the table. A remainder by the table's length would bring
// neighbours together at some lengths.
#[tactic(auto, unfolding(crate::specs::Table::home_of))]
fn home(n: usize, s: u32, r: u32) -> usize
    requires { 0 < n }
    ensures { result ≡ home_of n s r }
{
    mixed(s, r) * n.min(4294967296) / 4294967296
}

// The place after p, round the end.
#[tactic(auto, unfolding(crate::specs::Table::next_of))]
fn after(n: usize, p: usize) -> usize
    requires { p < n }
    ensures { result ≡ next_of n p }
{
    let q = p + 1;
    if q == n { 0 } else { q }
}

#[tactic(auto, unfolding(crate::specs::Table::same_key))]
fn is_key(key: KeyRow, s: u32, r: u32) -> bool
    ensures { result ≡ same_key (get_or key 0 0) (get_or key 1 0) s r }
{
    key == [s, r]
}

pub fn lookup(keys: &[KeyRow], intervals: &[f32], s: u32, r: u32) -> Entry
    ensures { LookupContract (table keys.now intervals.now) s r result }
{
    let n = keys.len().min(intervals.len());
    if n == 0 {
        return Entry::Full;
    }
    let mut p = home(n, s, r);
    for _ in 0..n {
        let v = intervals[p];
        if v < 1.0 {
            return Entry::Free(p);
        }
        if is_key(keys[p], s, r) {
            return Entry::Found(p, v);
        }
        p = after(n, p);
    }
    Entry::Full
}

fn below(chance: f32, retention: f32) -> bool
    ensures { result ≡ is_below chance retention }
{
    float32::is_finite(chance) && chance < retention
}

fn no_less(chance: f32, retention: f32) -> bool
    ensures { result ≡ is_no_less chance retention }
{
    float32::is_finite(chance) && chance >= retention
}

#[tactic(auto, using(crate::proofs::Numbers::literals), unfolding(crate::specs::Schedule::certifies_one))]
fn certifies_one(curve: Curve, retention: f32, most: f32) -> bool
    ensures { result ≡ certifies_one (Model.retention curve) retention most }
{
    below(
        curve.retention(float32::min(1.5 - ROUNDING_MARGIN, most)),
        retention,
    )
}

#[tactic(auto, using(crate::proofs::Numbers::literals), unfolding(crate::specs::Schedule::certifies_range))]
fn certifies_range(curve: Curve, retention: f32, interval: f32) -> bool
    ensures { result ≡ certifies_range (Model.retention curve) retention interval }
{
    let lower = curve.retention(float32::max(interval - 0.5 + ROUNDING_MARGIN, 0.0));
    no_less(lower, retention) && below(curve.retention(interval + 0.5 - ROUNDING_MARGIN), retention)
}

fn all_finite(stability: f32, retention: f32, interval: f32, most: f32) -> bool
    ensures { result ≡ all_finite stability retention interval most }
{
    float32::is_finite(stability)
        && float32::is_finite(retention)
        && float32::is_finite(interval)
        && float32::is_finite(most)
}

// Whether an interval is the nearest whole number of days at which the curve of the stability falls to the retention.
// Stability, retention and the largest interval go as three numbers, as C and the Rust's own functions have them.
#[tactic(auto, unfolding(crate::specs::Schedule::certifies))]
pub fn certifies_rounded_interval(
    curve: Curve,
    stability: f32,
    retention: f32,
    interval: f32,
    most: f32,
) -> bool
    ensures { result ≡ certifies (Model.retention curve) stability retention interval most }
{
    if !all_finite(stability, retention, interval, most) {
        false
    } else if interval <= 1.0 {
        certifies_one(curve, retention, most)
    } else if interval >= most {
        false
    } else {
        certifies_range(curve, retention, interval)
    }
}

// The slot of a card for its next interval: the held one if it is certified, else a new one under the same key. The
// lookup's answer is taken apart by let .. else, a rule of the project.
#[tactic(auto, unfolding(crate::specs::Schedule::slot_of, crate::specs::Schedule::slot_in))]
pub fn scheduled_interval(
    model: Fsrs7Runtime,
    stability: f32,
    retention: f32,
    most: f32,
    keys: &[KeyRow],
    intervals: &[f32],
) -> Slot
    ensures { result ≡ slot_of (Runtime.curve_of model) stability retention most
        (table keys.now intervals.now) }
{
    let s = stability_bucket(stability);
    let r = retention_bucket(retention);
    let entry = lookup(keys, intervals, s, r);
    let Entry::Found(place, held) = entry else {
        let Entry::Free(place) = entry else {
            return Slot::Full;
        };
        return Slot::Enter(place, s, r, model.scheduled(stability, retention, most));
    };
    let sure = certifies_rounded_interval(model.curve(stability), stability, retention, held, most);
    if sure {
        Slot::Keep(held)
    } else {
        Slot::Enter(place, s, r, model.scheduled(stability, retention, most))
    }
}

fn put<T: Copy>(list: &mut [T], place: usize, x: T)
    ensures { list.new ≡ set list.old place x }
{
    if place < list.len() {
        list[place] = x;
    }
}

// A key with its interval is put at a place that the lookup of the key gave.
pub fn enter(keys: &mut [KeyRow], intervals: &mut [f32], place: usize, s: u32, r: u32, v: f32)
    ensures { table keys.new intervals.new
        ≡ enter_in (table keys.old intervals.old) place s r v }
{
    put(keys, place, [s, r]);
    put(intervals, place, v);
}

pub fn is_full(slot: Slot) -> bool
    ensures { result ≡ is_full slot }
{
    matches!(slot, Slot::Full)
}

// The interval of a slot. A NaN where there is none, not None: C and the stored answers tell a NaN, and a run asks
// `is_full` first.
pub fn interval_in(slot: Slot) -> f32
    ensures { result ≡ interval_of slot }
{
    match slot {
        Slot::Keep(v) | Slot::Enter(_, _, _, v) => v,
        Slot::Full => f32::NAN,
    }
}

// What a slot asks to be entered is entered.
pub fn enter_slot(keys: &mut [KeyRow], intervals: &mut [f32], slot: Slot)
    ensures { table keys.new intervals.new
        ≡ entered (table keys.old intervals.old) slot }
{
    let Slot::Enter(place, s, r, v) = slot else {
        return;
    };
    enter(keys, intervals, place, s, r, v);
}

// Frees every place. The keys' list is not lent: a free place's key means nothing.
pub fn clear(intervals: &mut [f32])
    ensures { intervals.new ≡ replicate (length intervals.old) 0ᶠ }
{
    intervals.fill(0.0);
}
