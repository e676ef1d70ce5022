// A trial: the runs of one retention, in the same lists one after the other, and the mean of what they cost.
ghost use Rattle.std.specs.Prelude.{◌≡◌, get_or};
ghost use Rattle.std.specs.Float.{nan};
ghost use Rattle.entry.specs.Lists.{SameLists, inputs_of};
ghost use Rattle.runs.specs.State.{lent_of};
ghost use Rattle.retention.specs.Trials.{total, target, mean_of, run_of, sample};
ghost use Rattle.retention.specs.Trials.{TrialContract};

use super::sizes::sample_size;
use entry::{Learner, Lists, Refusal, Settings};

fn place(xs: &[f32], i: u32) -> f32
    ensures { result ≡ get_or xs.now i nan }
{
    xs.get(i as usize).copied().unwrap_or(f32::NAN)
}

fn total(xs: &[f32], n: u32) -> f32
    ensures { result ≡ total xs.now n }
{
    // past the list's end there is a NaN at each place, so a sum that goes there is one
    if xs.len() < n as usize {
        return f32::NAN;
    }
    let mut sum = -0.0;
    for i in 0..n {
        sum += place(xs, i);
    }
    sum
}

// What a run costs for each card that is memorized on its last day.
#[tactic(auto, unfolding(crate::specs::Trials::target))]
pub fn target(span: u32, costs: &[f32], memorized: &[f32]) -> f32
    ensures { result ≡ target span costs.now memorized.now }
{
    total(costs, span) / place(memorized, span.saturating_sub(1))
}

// The mean of the first n targets.
pub fn mean(targets: &[f32], n: u32) -> f32
    ensures { result ≡ mean_of n (total targets.now n) }
{
    total(targets, n) / float32::from_u32(n)
}

fn target_of(lists: &Lists<'_>, span: u32) -> f32
    ensures { result ≡ target span lists.now.costs.now lists.now.memorized.now }
{
    target(span, lists.costs, lists.memorized)
}

// Run n of a trial.
fn run_of(
    lists: &mut Lists<'_>,
    learner: Learner<'_>,
    settings: Settings,
    retention: f32,
    n: u32,
) -> Result<f32, Refusal>
    ensures run { TrialContract (run_of (inputs_of learner.entry settings) retention n (lent_of lists.old))
        result (lent_of lists.new) }
    ensures same { SameLists lists.old lists.new }
{
    let own = Settings {
        retention,
        seed: 42 + u64::from(n),
        ..settings
    };
    simulation::simulate(lists, learner, own).map_err(|it| it.refusal)?;
    Ok(target_of(lists, settings.config.learn_span))
}

// The trial of a retention.
pub(crate) fn sample(
    lists: &mut Lists<'_>,
    learner: Learner<'_>,
    settings: Settings,
    retention: f32,
) -> Result<f32, Refusal>
    ensures trial { TrialContract (sample (inputs_of learner.entry settings) (lent_of lists.old) retention)
        result (lent_of lists.new) }
    ensures same { SameLists lists.old lists.new }
{
    let runs = sample_size(settings.config.learn_span);
    let mut sum = -0.0;
    for made in 0..runs {
        sum += run_of(lists, learner, settings, retention, made)?;
    }
    Ok(sum / float32::from_u32(runs))
}
