// The interval table, in two lists of its keys and intervals.
ghost use Rattle.std.specs.Prelude.{◌≡◌, false, length, replicate};
ghost use Rattle.std.specs.Float.{inf};
ghost use Rattle.float32.specs.Numbers.{0ᶠ};
ghost use Rattle.float32.specs.Float32.{max};
ghost use Rattle.model.specs.Constants.{s_min};
ghost use Rattle.model.specs.Model as Model;
ghost use Rattle.intervals.specs.Table.{table};
ghost use Rattle.intervals.specs.Bucket.{pattern, bucket_index, stability_bucket, retention_bucket};
ghost use Rattle.intervals.specs.Accuracy.{IsLnBucket};
ghost use Rattle.intervals.specs.Schedule.{certifies, slot_of, interval_of, entered};

use intervals::KeyRow;
use model::Fsrs7Runtime;

#[unsafe(no_mangle)]
pub extern "C" fn drill_bucket_index(value: f32, step: f32) -> u32
    ensures { result ≡ pattern (bucket_index value step) }
{
    intervals::bucket_index(value, step)
}

#[unsafe(no_mangle)]
pub extern "C" fn drill_stability_bucket(stability: f32) -> u32
    ensures value { result ≡ stability_bucket stability }
    ensures bound { (stability ≡ inf false → ⊥) → IsLnBucket (max stability s_min) result }
{
    intervals::stability_bucket(stability)
}

#[unsafe(no_mangle)]
pub extern "C" fn drill_retention_bucket(retention: f32) -> u32
    ensures { result ≡ retention_bucket retention }
{
    intervals::retention_bucket(retention)
}

#[unsafe(no_mangle)]
pub extern "C" fn drill_certifies_rounded_interval(
    w: &[f32],
    stability: f32,
    retention: f32,
    interval: f32,
    most: f32,
) -> bool
    ensures { result ≡ certifies (λ x. Model.forgetting_curve (Model.curve_of w.now) x stability) stability
        retention interval most }
{
    intervals::certifies_rounded_interval(
        Fsrs7Runtime::new(w).curve(stability),
        stability,
        retention,
        interval,
        most,
    )
}

// The interval that is scheduled, entered where the table did not serve; a NaN, and nothing entered, where it is full.
#[unsafe(no_mangle)]
pub extern "C" fn drill_scheduled_interval(
    w: &[f32],
    stability: f32,
    retention: f32,
    most: f32,
    keys: &mut [KeyRow],
    intervals: &mut [f32],
) -> f32
    ensures value { result ≡ interval_of (slot_of (Model.curve_of w.now) stability retention most
        (table keys.old intervals.old)) }
    ensures intervals_after { table keys.new intervals.new
        ≡ entered (table keys.old intervals.old)
        (slot_of (Model.curve_of w.now) stability retention most
        (table keys.old intervals.old)) }
{
    let slot = intervals::scheduled_interval(
        Fsrs7Runtime::new(w),
        stability,
        retention,
        most,
        keys,
        intervals,
    );
    intervals::enter_slot(keys, intervals, slot);
    intervals::interval_in(slot)
}

#[unsafe(no_mangle)]
pub extern "C" fn drill_clear(intervals: &mut [f32])
    ensures { intervals.new ≡ replicate (length intervals.old) 0ᶠ }
{
    intervals::clear(intervals);
}
