// Runs small searches: two that find a retention, one whose every mean is a NaN, one with too few rounds, one with too
// many. `harness/run store` writes what it must print, from the Rust.
#![tactic(auto)]

use cards::SimulatorConfig;
use entry::{Learner, Lists, Settings};
use float32::to_bits;
use forecast_text::settings::default_config;
use std::io;

// The same numbers as in the program points: a program lends none to another, and no crate has default parameters.
const PARAMETERS: [f32; 34] = [
    0.1104, 2.2395, 3.9221, 11.7841, 6.1686, 0.6457, 3.0194, 3.3722, 0.1666, 0.796, 1.4, 0.2629,
    1.6483, 0.6014, 1.8729, 3.3722, 0.1666, 0.796, 1.4, 0.2629, 1.6483, 0.6014, 1.8729, 0.0392,
    0.242, 0.6675, 0.9137, 0.4717, 0.4885, 0.8136, 0.698, 0.4621, 0.6547, 0.308,
];

// Decks, spans, learn limits and rounds.
const CASES: [[u32; 4]; 5] = [
    [1, 40, 4294967295, 64],
    [2, 5, 1, 64],
    [4, 5, 0, 57],
    [8, 10, 4294967295, 1],
    [8, 10, 4294967295, 65],
];

// As `SimulatorConfig::default` has it, but for deck, span and learn limit.
fn config(deck_size: u32, learn_span: u32, learn_limit: u32) -> SimulatorConfig {
    SimulatorConfig {
        deck_size,
        learn_span,
        learn_limit,
        ..default_config()
    }
}

// The retention, its mean, the rounds, and of the last run made the cost of its first day and what it memorized then;
// or the refusal's numbers.
fn search(rt: &impl Print, config: SimulatorConfig, rounds: u32) -> io::Result<()> {
    let mut costs = [0.0; 40];
    let mut memorized = [0.0; 40];
    let mut lists = Lists {
        cards: &mut [[0.0; 6]; 20],
        counts: &mut [[0; 2]; 20],
        queue_rows: &mut [[0; 2]; 20],
        days: &mut [[0; 4]; 40],
        costs: &mut costs,
        memorized: &mut memorized,
        due: &mut [0; 60],
        keys: &mut [[0; 2]; 4096],
        intervals: &mut [0.0; 4096],
    };
    let learner = Learner {
        parameters: &PARAMETERS,
        existing: &[],
        existing_counts: &[],
    };
    let settings = Settings {
        config,
        retention: 0.0,
        seed: 0,
    };
    let answer = retention::optimal_retention(&mut lists, learner, settings, rounds);
    match answer {
        Ok(x) => {
            print!(rt;
                "found {:08x} {:08x} {}",
                to_bits(x.retention),
                to_bits(x.mean),
                x.rounds
            )?;
            println!(rt; " {:08x} {:08x}", to_bits(costs[0]), to_bits(memorized[0]))
        }
        Err(_) => {
            let number = retention::number_of(answer);
            let second = retention::second_of(answer);
            println!(rt; "refused {number} {second}")
        }
    }
}

fn main(rt: HostRuntime) -> io::Result<()> {
    for [deck_size, learn_span, learn_limit, rounds] in CASES {
        search(&rt, config(deck_size, learn_span, learn_limit), rounds)?;
    }
    Ok(())
}
