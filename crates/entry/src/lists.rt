// What a call is given: the lists that it writes, what it reads of a learner, and its settings.
ghost use Rattle.std.specs.Prelude.{◌≡◌};
ghost use Rattle.entry.specs.Lists.{lengths_of_lists};

use cards::{CardRow, CountRow, SimulatorConfig};
use days::DayRow;
use intervals::KeyRow;
use queue::QueueRow;

// The lists that a call writes, all lent: rows of cards and of their counts, of the queue and of days' counts, the
// days' costs, what is memorized on each, the due counts, and the interval table. Cards and counts, days and costs, keys
// and intervals lie side by side, as C lends them.
#[derive(Drop)]
pub struct Lists<'a> {
    pub cards: &'a mut [CardRow],
    pub counts: &'a mut [CountRow],
    pub queue_rows: &'a mut [QueueRow],
    pub days: &'a mut [DayRow],
    pub costs: &'a mut [f32],
    pub memorized: &'a mut [f32],
    pub due: &'a mut [u32],
    pub keys: &'a mut [KeyRow],
    pub intervals: &'a mut [f32],
}

// The lengths of the lists that a call writes: refusal 6 looks at no more of them.
#[derive(Clone, Copy)]
pub struct Lengths {
    pub cards: usize,
    pub counts: usize,
    pub queue_rows: usize,
    pub days: usize,
    pub costs: usize,
    pub memorized: usize,
    pub due: usize,
    pub keys: usize,
    pub intervals: usize,
}

// What a call reads of a learner: the memory's parameters and the existing cards.
#[derive(Clone, Copy)]
pub struct Learner<'a> {
    pub parameters: &'a [f32],
    pub existing: &'a [CardRow],
    pub existing_counts: &'a [CountRow],
}

// What a run is set to, besides.
#[derive(Clone, Copy)]
pub struct Settings {
    pub config: SimulatorConfig,
    pub retention: f32,
    pub seed: u64,
}

impl Lists<'_> {
    pub fn lengths(&self) -> Lengths
        ensures { result ≡ lengths_of_lists self.now }
    {
        Lengths {
            cards: self.cards.len(),
            counts: self.counts.len(),
            queue_rows: self.queue_rows.len(),
            days: self.days.len(),
            costs: self.costs.len(),
            memorized: self.memorized.len(),
            due: self.due.len(),
            keys: self.keys.len(),
            intervals: self.intervals.len(),
        }
    }
}
