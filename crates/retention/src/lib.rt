// The search for the cheapest retention: its answer, its entry, and the loop over trials. trials has a trial's runs.
#![tactic(auto)]

ghost use Rattle.std.specs.Prelude.{◌≡◌, ◌≤◌};
ghost use Rattle.brent.specs.Search.{search};
ghost use Rattle.brent.specs.Stepping.{told, answer};
ghost use Rattle.entry.specs.Lists.{SameLists, inputs_of};
ghost use Rattle.runs.specs.State.{lent_of};
ghost use Rattle.retention.specs.Trials.{sample};
ghost use Rattle.retention.specs.Retention.{most_rounds, rounds_ok, optimum_of, number_of, second_of};
ghost use Rattle.retention.specs.Retention.{IsSearched, SearchContract};

use brent::{Stepper, Verdict};
use entry::{Learner, Lists, Refusal, Settings, refusals};

mod sizes;
mod trials;

pub use sizes::sample_size;
pub use trials::{mean, target};

// A retention found, its mean, and the rounds done.
#[derive(Clone, Copy)]
pub struct Optimum {
    pub retention: f32,
    pub mean: f32,
    pub rounds: u32,
}

// What C and the programs tell of an answer, as numbers: the refusal's number and its second number, or 0 and 0 where a
// retention was found.
pub fn number_of(answer: Result<Optimum, Refusal>) -> u32
    ensures { result ≡ number_of answer }
{
    match answer {
        Ok(_) => 0,
        Err(refusal) => refusals::number_of(refusal),
    }
}

pub fn second_of(answer: Result<Optimum, Refusal>) -> u32
    ensures { result ≡ second_of answer }
{
    match answer {
        Ok(_) => 0,
        Err(refusal) => refusals::second_of(refusal),
    }
}

#[tactic(auto, unfolding(crate::specs::Retention::rounds_ok))]
fn rounds_ok(rounds: u32) -> bool
    ensures { result ≡ rounds_ok rounds }
{
    1 <= rounds && rounds <= 64
}

// The answer of a stepper that asks for nothing more.
fn ended(t: Stepper) -> Result<Optimum, Refusal>
    ensures { result ≡ optimum_of (told t.state (answer t)) }
{
    match brent::answer(t) {
        Verdict::Found(retention) => Ok(Optimum {
            retention,
            mean: t.state.fx,
            rounds: t.state.done,
        }),
        Verdict::NotFound | Verdict::Open => Err(Refusal::NotFound(t.state.done)),
    }
}

// Trials until the method asks for no more, one more than the rounds at the most.
fn search(
    lists: &mut Lists<'_>,
    learner: Learner<'_>,
    settings: Settings,
    rounds: u32,
) -> Result<Optimum, Refusal>
    requires { rounds ≤ most_rounds }
    ensures searched { IsSearched
        (search (sample (inputs_of learner.entry settings)) rounds (lent_of lists.old))
        result (lent_of lists.new) }
    ensures same { SameLists lists.old lists.new }
{
    let mut stepper = brent::start(rounds);
    for _ in 0..=rounds {
        let Some(retention) = brent::next_retention(stepper) else {
            return ended(stepper);
        };
        let mean = trials::sample(lists, learner, settings, retention)?;
        stepper = brent::take_mean(stepper, mean);
    }
    ended(stepper)
}

// The retention from 0.70 to 0.95 at which a run costs least for each card that it has memorized in the end; it tries its
// own retentions with its own seeds, and looks at no retention and no seed of the settings. The lists
// are those of `simulation::simulate`, and are left as by the last run made.
pub fn optimal_retention(
    lists: &mut Lists<'_>,
    learner: Learner<'_>,
    settings: Settings,
    rounds: u32,
) -> Result<Optimum, Refusal>
    ensures search { SearchContract (inputs_of learner.entry settings) rounds (lent_of lists.old) result (lent_of lists.new) }
    ensures same { SameLists lists.old lists.new }
{
    entry::check_entry(lists.lengths(), learner, settings, rounds_ok(rounds))?;
    search(lists, learner, settings, rounds)
}
