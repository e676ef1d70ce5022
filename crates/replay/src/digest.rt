// Digests of a run's lists, of every place that was lent: a word for the cards with their counts, for the days with
// their costs and what is memorized, for the due counts, and for the interval table. Each word goes in by a draw from
// the digest and the word. The table's is a sum over the places in use, since where a key lies is the port's own
// matter.
use crate::answers::{drawn, join};
use cards::{CardRow, CountRow};
use days::DayRow;
use entry::Lists;
use float32::to_bits;
use intervals::KeyRow;

#[derive(Clone, Copy)]
pub struct Digests {
    pub cards: u32,
    pub days: u32,
    pub due: u32,
    pub table: u32,
}

fn add(d: u32, x: u32) -> u32 {
    drawn(join(d, x))
}

fn add_words(d: u32, words: &[u32]) -> u32 {
    words.iter().fold(d, |d, x| add(d, *x))
}

fn add_floats(d: u32, floats: &[f32]) -> u32 {
    floats.iter().fold(d, |d, x| add(d, to_bits(*x)))
}

fn of_cards(cards: &[CardRow], counts: &[CountRow]) -> u32 {
    let mut d = 0;
    for (card, count) in cards.iter().zip(counts) {
        d = add_words(add_floats(d, card), count);
    }
    d
}

fn of_days(days: &[DayRow], costs: &[f32], memorized: &[f32]) -> u32 {
    let mut d = 0;
    for ((day, cost), share) in days.iter().zip(costs).zip(memorized) {
        d = add_floats(add_words(d, day), &[*cost, *share]);
    }
    d
}

fn of_table(keys: &[KeyRow], intervals: &[f32]) -> u32 {
    let mut d = 0u32;
    for (key, interval) in keys.iter().zip(intervals) {
        if *interval >= 1.0 {
            d = d.wrapping_add(add(add_words(0, key), to_bits(*interval)));
        }
    }
    d
}

pub fn of_lists(lists: &Lists<'_>) -> Digests {
    Digests {
        cards: of_cards(lists.cards, lists.counts),
        days: of_days(lists.days, lists.costs, lists.memorized),
        due: add_words(0, lists.due),
        table: of_table(lists.keys, lists.intervals),
    }
}
