// The run over lists of numbers.
ghost use Rattle.runs.specs.State.{lent, state};
ghost use Rattle.runs.specs.Simulate.{told};
ghost use Rattle.entry.specs.Entry.{settings, inputs};
ghost use Rattle.capi.specs.Answer.{list_in, numbers_of, CallContract};
ghost use Rattle.std.specs.Prelude.{◌≡◌};

use cards::{CardRow, CountRow, SimulatorConfig};
use days::DayRow;
use entry::{Learner, Lists, Settings, refusals};
use intervals::KeyRow;
use queue::QueueRow;
use simulation::{Progress, Refused};

// An answer as numbers: the refusal's number, 0 where the run ended, its second number and, for 6, its list; how far
// the run came.
#[repr(C)]
#[derive(Clone, Copy)]
pub struct RunNumbers {
    pub refusal: u32,
    pub second: u32,
    pub list: u32,
    pub turns: u32,
    pub cards: u32,
    pub queued: u32,
    pub draws: u64,
}

pub(crate) fn list_in(number: u32, list: u32) -> u32
    ensures { result ≡ list_in number list }
{
    if number == 6 { list } else { 0 }
}

fn numbers_of(answer: Result<Progress, Refused>, list: u32) -> RunNumbers
    ensures { result ≡ numbers_of (told answer) list }
{
    let (number, second, p) = match answer {
        Ok(p) => (0, 0, p),
        Err(it) => (
            refusals::number_of(it.refusal),
            refusals::second_of(it.refusal),
            it.progress,
        ),
    };
    RunNumbers {
        refusal: number,
        second,
        list: list_in(number, list),
        turns: p.turns,
        cards: p.cards,
        queued: p.queued,
        draws: p.draws,
    }
}

#[unsafe(no_mangle)]
pub extern "C" fn drill_simulate(
    parameters: &[f32],
    existing: &[CardRow],
    existing_counts: &[CountRow],
    config: SimulatorConfig,
    desired_retention: f32,
    seed: u64,
    cards: &mut [CardRow],
    counts: &mut [CountRow],
    queue: &mut [QueueRow],
    days: &mut [DayRow],
    costs: &mut [f32],
    memorized: &mut [f32],
    due: &mut [u32],
    keys: &mut [KeyRow],
    intervals: &mut [f32],
) -> RunNumbers
    ensures { CallContract
        (inputs (settings config desired_retention seed) parameters.now existing.now
        existing_counts.now)
        (state (lent cards.old counts.old queue.old days.old
        costs.old memorized.old due.old keys.old
        intervals.old) 0 seed)
        result
        (lent cards.new counts.new queue.new days.new costs.new
        memorized.new due.new keys.new intervals.new) }
{
    let mut lists = Lists {
        cards,
        counts,
        queue_rows: queue,
        days,
        costs,
        memorized,
        due,
        keys,
        intervals,
    };
    let learner = Learner {
        parameters,
        existing,
        existing_counts,
    };
    let settings = Settings {
        config,
        retention: desired_retention,
        seed,
    };
    let list = entry::short_list(
        config,
        existing.len(),
        existing_counts.len(),
        lists.lengths(),
    );
    let told = simulation::simulate(&mut lists, learner, settings);
    numbers_of(told, list)
}
