// The search over lists of numbers, whole and one trial at a time.
ghost use Rattle.std.specs.Prelude.{◌≡◌};
ghost use Rattle.brent.specs.Stepping.{started, next_retention, take_mean, answer};
ghost use Rattle.float32.specs.Numbers.{0ᶠ};
ghost use Rattle.entry.specs.Entry.{settings, inputs};
ghost use Rattle.runs.specs.State.{lent};
ghost use Rattle.retention.specs.SampleSize.{sample_size};
ghost use Rattle.retention.specs.Trials.{total, target, mean_of};
ghost use Rattle.capi.specs.Search.{numbers_of, SearchCall, asked, verdict_number};

use super::run::list_in;
use brent::{Stepper, Verdict};
use cards::{CardRow, CountRow, SimulatorConfig};
use days::DayRow;
use entry::{Learner, Lists, Refusal, Settings};
use intervals::KeyRow;
use queue::QueueRow;
use retention::Optimum;

// An answer as numbers: the refusal's number, 0 where a retention was found, its second number and, for 6, its list;
// the rounds done, the retention and its mean, 0 where none was found.
#[repr(C)]
#[derive(Clone, Copy)]
pub struct SearchNumbers {
    pub refusal: u32,
    pub second: u32,
    pub list: u32,
    pub rounds: u32,
    pub retention: f32,
    pub mean: f32,
}

fn numbers_of(answer: Result<Optimum, Refusal>, list: u32) -> SearchNumbers
    ensures { result ≡ numbers_of answer list }
{
    let number = retention::number_of(answer);
    let found = answer.unwrap_or(Optimum {
        rounds: 0,
        retention: 0.0,
        mean: 0.0,
    });
    SearchNumbers {
        refusal: number,
        second: retention::second_of(answer),
        list: list_in(number, list),
        rounds: found.rounds,
        retention: found.retention,
        mean: found.mean,
    }
}

#[unsafe(no_mangle)]
pub extern "C" fn drill_optimal_retention(
    parameters: &[f32],
    existing: &[CardRow],
    existing_counts: &[CountRow],
    config: SimulatorConfig,
    rounds: u32,
    cards: &mut [CardRow],
    counts: &mut [CountRow],
    queue: &mut [QueueRow],
    days: &mut [DayRow],
    costs: &mut [f32],
    memorized: &mut [f32],
    due: &mut [u32],
    keys: &mut [KeyRow],
    intervals: &mut [f32],
) -> SearchNumbers
    ensures { SearchCall
        (inputs (settings config 0ᶠ 0) parameters.now existing.now existing_counts.now) rounds
        (lent cards.old counts.old queue.old days.old costs.old
        memorized.old due.old keys.old intervals.old)
        result
        (lent cards.new counts.new queue.new days.new costs.new
        memorized.new due.new keys.new intervals.new) }
{
    let mut lists = Lists {
        cards,
        counts,
        queue_rows: queue,
        days,
        costs,
        memorized,
        due,
        keys,
        intervals,
    };
    let learner = Learner {
        parameters,
        existing,
        existing_counts,
    };
    // the search tries its own retentions with its own seeds
    let settings = Settings {
        config,
        retention: 0.0,
        seed: 0,
    };
    let list = entry::short_list(
        config,
        existing.len(),
        existing_counts.len(),
        lists.lengths(),
    );
    let told = retention::optimal_retention(&mut lists, learner, settings, rounds);
    numbers_of(told, list)
}

// ---- what a host's own trials need

#[unsafe(no_mangle)]
pub extern "C" fn drill_sample_size(span: u32) -> u32
    ensures { result ≡ sample_size span }
{
    retention::sample_size(span)
}

#[unsafe(no_mangle)]
pub extern "C" fn drill_target(span: u32, costs: &[f32], memorized: &[f32]) -> f32
    ensures { result ≡ target span costs.now memorized.now }
{
    retention::target(span, costs, memorized)
}

#[unsafe(no_mangle)]
pub extern "C" fn drill_mean(targets: &[f32], n: u32) -> f32
    ensures { result ≡ mean_of n (total targets.now n) }
{
    retention::mean(targets, n)
}

// ---- one trial at a time

#[unsafe(no_mangle)]
pub extern "C" fn drill_search_start(rounds: u32) -> Stepper
    ensures { result ≡ started rounds }
{
    brent::start(rounds)
}

// The retention to try, or a NaN: there is none.
#[unsafe(no_mangle)]
pub extern "C" fn drill_search_next(s: Stepper) -> f32
    ensures { result ≡ asked (next_retention s) }
{
    brent::next_retention(s).unwrap_or(f32::NAN)
}

#[unsafe(no_mangle)]
pub extern "C" fn drill_search_take(s: Stepper, mean: f32) -> Stepper
    ensures { result ≡ take_mean s mean }
{
    brent::take_mean(s, mean)
}

#[tactic(auto, unfolding(crate::specs::Search::verdict_number))]
fn verdict_number(verdict: Verdict) -> u32
    ensures { result ≡ verdict_number verdict }
{
    match verdict {
        Verdict::Open => 4294967295,
        Verdict::Found(_) => 0,
        Verdict::NotFound => 10,
    }
}

// 0: found, and the state's x is the retention, fx its mean. 10: not found. 2^32 - 1: a retention is still to be tried.
#[unsafe(no_mangle)]
pub extern "C" fn drill_search_answer(s: Stepper) -> u32
    ensures { result ≡ verdict_number (answer s) }
{
    verdict_number(brent::answer(s))
}
