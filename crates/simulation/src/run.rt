// The run of a call that the entry accepts: set-up, and turns until one stops.
ghost use Rattle.std.specs.Prelude.{◌≡◌, suc, ◌*◌, ◌≤◌, Some};
ghost use Rattle.turns.specs.Turns.{turn_bound};
ghost use Rattle.float32.specs.Numbers.{0ᶠ};
ghost use Rattle.entry.specs.Entry.{most_cards, most_days, passed};
ghost use Rattle.entry.specs.Lists.{SameLists, inputs_of};
ghost use Rattle.runs.specs.State.{lent_of, state, state_at};
ghost use Rattle.runs.specs.Rules.{rules_as, rules_of_learner};
ghost use Rattle.simulation.specs.Steps.{RunTurns, InnerContract};
ghost use Rattle.runs.specs.Checked.{checked};
ghost use Rattle.runs.specs.SetUp.{set_up};
ghost use Rattle.runs.specs.Simulate.{progress, answer_of};
ghost use Rattle.runs.specs.Turn.{Stop};

use entry::{Learner, Lists, Refusal, RunRefusal, Settings};
use events::Rules;
use model::Fsrs7Runtime;
use runs::{Place, Progress, Refused};

// What a run of turns came to: how it halted (ended or refused; None where its fuel was used up), the turns taken, and
// where it stands.
#[derive(Clone, Copy)]
pub(crate) struct RunEnd {
    pub halt: Option<Result<(), RunRefusal>>,
    pub turns: u32,
    pub at: Place,
}

// Turns until one stops, at most so many; a run stops before its fuel is used up (`Demands.ends_within`).
fn run_turns(lists: &mut Lists<'_>, rules: Rules, from: Place, fuel: u32) -> RunEnd
    ensures run { RunTurns (rules_as rules) (state_at lists.old from) fuel result (lent_of lists.new) }
    ensures same { SameLists lists.old lists.new }
{
    let mut at = from;
    for turns in 0..fuel {
        match turn::turn(lists, rules, at) {
            Ok(Some(next)) => at = next,
            Ok(None) => {
                return RunEnd {
                    halt: Some(Ok(())),
                    turns,
                    at,
                };
            }
            Err(refusal) => {
                return RunEnd {
                    halt: Some(Err(refusal)),
                    turns,
                    at,
                };
            }
        }
    }
    RunEnd {
        halt: None,
        turns: fuel,
        at,
    }
}

// The same over nine references of its own: the compiler then keeps them in registers from turn to turn, where it would
// read those of the caller's `Lists` anew in each (a run at the usual rate 1.6 ms of 74 longer).
fn run_held(lists: &mut Lists<'_>, rules: Rules, from: Place, fuel: u32) -> RunEnd
    ensures run { RunTurns (rules_as rules) (state_at lists.old from) fuel result (lent_of lists.new) }
    ensures same { SameLists lists.old lists.new }
{
    let mut held = Lists {
        cards: lists.cards,
        counts: lists.counts,
        queue_rows: lists.queue_rows,
        days: lists.days,
        costs: lists.costs,
        memorized: lists.memorized,
        due: lists.due,
        keys: lists.keys,
        intervals: lists.intervals,
    };
    run_turns(&mut held, rules, from, fuel)
}

fn fuel_of(len: u32, span: u32) -> u32
    requires { (len ≤ most_cards) × (span ≤ most_days) }
    ensures { result ≡ suc (turn_bound len span) }
{
    len * (span + 1) + 1
}

// No run is cut off (`Demands.ends_within`), so the arm None is never taken, and the contract says nothing of it.
fn answer_of(end: RunEnd, cards: u32) -> Result<Progress, Refused>
    ensures { (x : Stop) → end.halt ≡ Some x
        → result ≡ answer_of x (progress end.turns cards end.at.queued end.at.draws) }
{
    let progress = Progress {
        turns: end.turns,
        cards,
        queued: end.at.queued,
        draws: end.at.draws,
    };
    match end.halt {
        Some(Err(refusal)) => Err(Refused {
            refusal: Refusal::Run(refusal),
            progress,
        }),
        Some(Ok(())) | None => Ok(progress),
    }
}

// A call that the entry accepts: set-up, and the turns.
pub(crate) fn simulate_inner(
    lists: &mut Lists<'_>,
    learner: Learner<'_>,
    settings: Settings,
) -> Result<Progress, Refused>
    requires { checked (inputs_of learner settings) (state (lent_of lists.old) 0 settings.seed)
        ≡ passed }
    ensures run { InnerContract (rules_of_learner learner.entry settings)
        (set_up 0ᶠ (inputs_of learner.entry settings) (state (lent_of lists.old) 0 settings.seed))
        result (lent_of lists.new) }
    ensures same { SameLists lists.old lists.new }
{
    let cards = super::set_up::set_up(lists, learner, settings);
    let rules = Rules {
        config: settings.config,
        model: Fsrs7Runtime::new(learner.parameters),
    };
    let start = Place {
        queued: cards,
        draws: settings.seed,
    };
    let fuel = fuel_of(cards, settings.config.learn_span);
    let end = run_held(lists, rules, start, fuel);
    answer_of(end, cards)
}
