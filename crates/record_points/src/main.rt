// Runs one forecast from the rows of three cards and from their records: the first two lines are the same. Then what
// the room for the rows holds, and calls that are refused: 5 with the third record, and 6 where the room is too short,
// each with a room that is as it was.
#![tactic(auto)]

ghost use Rattle.std.specs.Prelude.{◌<◌, ◌≤◌};

use cards::{Card, CardRow, CountRow, SimulatorConfig};
use entry::{Learner, Lists, Settings, refusals};
use forecast_text::settings::default_config;
use simulation::{Progress, Refused};
use std::io;

// Eight cards, ten days, two new cards a day; the rest as `SimulatorConfig::default` has it.
fn settings() -> Settings {
    Settings {
        config: SimulatorConfig {
            deck_size: 8,
            learn_span: 10,
            max_cost_perday: 100.0,
            learn_limit: 2,
            review_limit: 9999,
            ..default_config()
        },
        retention: 0.9,
        seed: 42,
    }
}

fn card(stability: f32, last_date: f32, due: f32, lapses: u32) -> Card {
    Card {
        difficulty: 5.5,
        stability,
        last_date,
        due,
        interval: 3.0,
        desired_retention: 0.9,
        reps: 4,
        lapses,
    }
}

// A run over records, which are copied to the rows lent for them, or over these rows as they stand; and its last day.
fn forecast(
    rt: &impl Print,
    records: Option<&[Card]>,
    existing: &mut [CardRow],
    existing_counts: &mut [CountRow],
) -> io::Result<()> {
    let mut days = [[0; 4]; 10];
    let mut costs = [0.0; 10];
    let mut memorized = [0.0; 10];
    let mut lists = Lists {
        cards: &mut [[0.0; 6]; 8],
        counts: &mut [[0; 2]; 8],
        queue_rows: &mut [[0; 2]; 8],
        days: &mut days,
        costs: &mut costs,
        memorized: &mut memorized,
        due: &mut [0; 15],
        keys: &mut [[0; 2]; 64],
        intervals: &mut [0.0; 64],
    };
    let parameters = &[0.5; 34];
    let answer = match records {
        Some(records) => card_records::simulate(
            &mut lists,
            existing,
            existing_counts,
            parameters,
            records,
            settings(),
        ),
        None => {
            let learner = Learner {
                parameters,
                existing,
                existing_counts,
            };
            simulation::simulate(&mut lists, learner, settings())
        }
    };
    show(rt, answer, days[9], costs[9], memorized[9])
}

fn show(
    rt: &impl Print,
    answer: Result<Progress, Refused>,
    day: [u32; 4],
    cost: f32,
    memorized: f32,
) -> io::Result<()> {
    match answer {
        Ok(progress) => {
            print!(rt;
                "turns {} cards {} draws {:016x} day",
                progress.turns, progress.cards, progress.draws
            )?;
            for count in day {
                print!(rt; " {count}")?;
            }
            println!(rt;
                " {:08x} {:08x}",
                float32::to_bits(cost),
                float32::to_bits(memorized)
            )
        }
        Err(refused) => {
            let refusal = refused.refusal;
            println!(rt;
                "refused {} {}",
                refusals::number_of(refusal),
                refusals::second_of(refusal)
            )
        }
    }
}

// With a room of so many rows of floats, and four of counts; and what it holds then.
fn by_records<const ROWS: usize>(rt: &impl Print, records: &[Card]) -> io::Result<()>
    requires some { 0 < ROWS }
    requires few { ROWS ≤ 4 }
{
    let mut existing = [[7.0; 6]; ROWS];
    let mut existing_counts = [[7; 2]; 4];
    forecast(rt, Some(records), &mut existing, &mut existing_counts)?;
    let first = float32::to_bits(existing[0][1]);
    let last = float32::to_bits(existing[ROWS - 1][1]);
    let [reps, lapses] = existing_counts[2];
    println!(rt; "room {first:08x} {last:08x} {reps} {lapses}")
}

fn by_rows(rt: &impl Print, records: &[Card; 3]) -> io::Result<()> {
    let mut existing = [[0.0; 6]; 3];
    let mut existing_counts = [[0; 2]; 3];
    for (i, record) in (0..3).zip(records) {
        cards::write_floats(&mut existing, i, *record);
        cards::write_counts(&mut existing_counts, i, *record);
    }
    forecast(rt, None, &mut existing, &mut existing_counts)
}

fn main(rt: HostRuntime) -> io::Result<()> {
    let reviewed = card(3.0, -3.0, 0.0, 0);
    let dropped = card(0.0, -3.0, 0.0, 0);
    let lapsed = card(10.0, -5.0, 2.0, 1);
    let records = [reviewed, dropped, lapsed];
    by_rows(&rt, &records)?;
    by_records::<4>(&rt, &records)?;
    by_records::<4>(&rt, &[reviewed, dropped, card(10.0, -5.0, 20000000.0, 1)])?;
    by_records::<2>(&rt, &records)
}
