// Runs small forecasts: the case of two streets and one day, a deck of eight over ten days, and calls at the entry's
// limits.
#![tactic(auto)]

ghost use Rattle.std.specs.Prelude.{◌≤◌};

use cards::SimulatorConfig;
use days::DayRow;
use entry::{Learner, Lists, Settings, refusals};
use forecast_text::settings::default_config;
use std::io;

// Two streets, every first rating 4, costs of 8 seconds and at most 10 a day; the rest as `SimulatorConfig::default`
// has it.
fn config(deck_size: u32, learn_span: u32) -> SimulatorConfig {
    SimulatorConfig {
        deck_size,
        learn_span,
        max_cost_perday: 10.0,
        first_rating_prob: [0.0, 0.0, 0.0, 1.0],
        state_rating_costs: [8.0; 12],
        ..default_config()
    }
}

fn day(rt: &impl Print, counts: DayRow, cost: f32, memorized: f32) -> io::Result<()> {
    print!(rt; "day")?;
    for count in counts {
        print!(rt; " {count}")?;
    }
    println!(rt;
        " {:08x} {:08x}",
        float32::to_bits(cost),
        float32::to_bits(memorized)
    )
}

// A run over lists of these lengths, and those of its days that are to be shown.
fn forecast<const CARDS: usize, const DAYS: usize, const DUE: usize, const TABLE: usize>(
    rt: &impl Print,
    deck_size: u32,
    learn_span: u32,
    shown: &[usize],
) -> io::Result<()>
    requires { (CARDS ≤ 65536) × (DAYS ≤ 65536) × (DUE ≤ 65536) × (TABLE ≤ 65536) }
{
    let mut lists = Lists {
        cards: &mut [[0.0; 6]; CARDS],
        counts: &mut [[0; 2]; CARDS],
        queue_rows: &mut [[0; 2]; CARDS],
        days: &mut [[0; 4]; DAYS],
        costs: &mut [0.0; DAYS],
        memorized: &mut [0.0; DAYS],
        due: &mut [0; DUE],
        keys: &mut [[0; 2]; TABLE],
        intervals: &mut [0.0; TABLE],
    };
    let learner = Learner {
        parameters: &[0.5; 34],
        existing: &[],
        existing_counts: &[],
    };
    let settings = Settings {
        config: config(deck_size, learn_span),
        retention: 0.9,
        seed: 42,
    };
    match simulation::simulate(&mut lists, learner, settings) {
        Ok(progress) => {
            println!(rt;
                "turns {} cards {} draws {:016x}",
                progress.turns, progress.cards, progress.draws
            )?;
            for i in shown {
                if *i < lists.days.len() && *i < lists.costs.len() && *i < lists.memorized.len() {
                    day(rt, lists.days[*i], lists.costs[*i], lists.memorized[*i])?;
                }
            }
            Ok(())
        }
        Err(refused) => {
            let refusal = refused.refusal;
            println!(rt;
                "refused {} {}",
                refusals::number_of(refusal),
                refusals::second_of(refusal)
            )
        }
    }
}

// Decks and spans at the limits: with lists as long as the largest deck and the longest span need.
const AT_THE_LIMITS: [[u32; 2]; 5] = [[65536, 1], [65537, 1], [2, 0], [2, 36500], [2, 36501]];

fn main(rt: HostRuntime) -> io::Result<()> {
    for [deck_size, learn_span] in [[2, 1], [8, 10]] {
        forecast::<8, 10, 15, 64>(&rt, deck_size, learn_span, &[0, 1, 9])?;
    }
    for [deck_size, learn_span] in AT_THE_LIMITS {
        forecast::<65536, 36500, 54750, 20000>(&rt, deck_size, learn_span, &[])?;
    }
    Ok(())
}
