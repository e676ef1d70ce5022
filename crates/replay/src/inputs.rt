// The inputs of a run, as lines tell them: they stay from one run to the next.
//   70: number a of the configuration is b: deck_size, learn_span, learn_limit, review_limit,
//   new_cards_ignore_review_limit,
//       suspend_after_lapses, learning_step_count, relearning_step_count
//   71: setting a is b: max_cost_perday, max_ivl, desired retention; then first_rating_prob, review_rating_prob, the
//   two
//       tables of transitions, and the costs, row by row
//   72, 73: of existing card a difficulty, stability and last_date; due, interval and desired_retention. 74: reps and
//   lapses
//   75: list a is b places long: cards, counts, queue, days, costs, memorized, due, keys, intervals, existing cards,
//       existing counts, parameters
ghost use Rattle.std.specs.Prelude.{◌+◌, ◌≤◌};

use crate::record::Record;
use cards::{CardRow, CountRow, SimulatorConfig};
use entry::{Learner, Lists, Settings};
use float32::from_bits;

#[derive(Drop)]
pub struct Inputs {
    pub numbers: [u32; 8],
    pub settings: [f32; 46],
    pub existing: [CardRow; 4096],
    pub existing_counts: [CountRow; 4096],
    pub lengths: [u32; 12],
}

// x at place i, where the list has one.
pub fn put<T: Copy>(list: &mut [T], i: u32, x: T) {
    if let Some(place) = list.get_mut(i as usize) {
        *place = x;
    }
}

// The first places of a list, as many as it has of n.
pub fn first<T>(list: &[T], n: u32) -> &[T] {
    &list[..list.len().min(n as usize)]
}

fn row<const N: usize>(settings: &[f32; 46], from: usize) -> [f32; N]
    requires { from + N ≤ 46 }
{
    let mut row = [0.0; N];
    row.copy_from_slice(&settings[from..from + N]);
    row
}

impl Inputs {
    pub fn tell(&mut self, r: Record) {
        let floats = [from_bits(r.b), from_bits(r.c), from_bits(r.d)];
        match r.function {
            70 => put(&mut self.numbers, r.a, r.b),
            71 => put(&mut self.settings, r.a, from_bits(r.b)),
            72 => self.put_floats(r.a, 0, floats),
            73 => self.put_floats(r.a, 3, floats),
            74 => put(&mut self.existing_counts, r.a, [r.b, r.c]),
            75 => put(&mut self.lengths, r.a, r.b),
            _ => {}
        }
    }

    // Three numbers of existing card i, from the one on that the row has at `from`.
    fn put_floats(&mut self, i: u32, from: usize, floats: [f32; 3])
        requires { from ≤ 3 }
    {
        if let Some(card) = self.existing.get_mut(i as usize) {
            card[from..from + 3].copy_from_slice(&floats);
        }
    }

    // The cards that a run left, of which it has n, are the existing ones from now on.
    pub fn keep_cards(&mut self, lists: &Lists<'_>, n: u32) {
        for ((i, card), count) in (0..n).zip(&*lists.cards).zip(&*lists.counts) {
            put(&mut self.existing, i, *card);
            put(&mut self.existing_counts, i, *count);
        }
        self.lengths[9] = n;
        self.lengths[10] = n;
    }

    pub fn learner<'a>(&'a self, parameters: &'a [f32]) -> Learner<'a> {
        Learner {
            parameters: first(parameters, self.lengths[11]),
            existing: first(&self.existing, self.lengths[9]),
            existing_counts: first(&self.existing_counts, self.lengths[10]),
        }
    }

    pub fn settings(&self, seed: u64) -> Settings {
        Settings {
            config: self.config(),
            retention: self.settings[2],
            seed,
        }
    }

    fn config(&self) -> SimulatorConfig {
        let numbers = self.numbers;
        let settings = &self.settings;
        SimulatorConfig {
            deck_size: numbers[0],
            learn_span: numbers[1],
            max_cost_perday: settings[0],
            max_ivl: settings[1],
            first_rating_prob: row(settings, 3),
            review_rating_prob: row(settings, 7),
            learn_limit: numbers[2],
            review_limit: numbers[3],
            new_cards_ignore_review_limit: numbers[4] != 0,
            suspend_after_lapses: numbers[5],
            learning_step_transitions: row(settings, 10),
            relearning_step_transitions: row(settings, 22),
            state_rating_costs: row(settings, 34),
            learning_step_count: numbers[6],
            relearning_step_count: numbers[7],
        }
    }
}
