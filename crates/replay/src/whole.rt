// Whole runs over lists that are marked beforehand, as long as the lines say.
//   76: a run with the seed a, b: its answer, its days and digests are printed; 77: the same, and its cards are the
//   existing ones
//       of the next run
use crate::inputs::Inputs;
use crate::record::Record;
use crate::{answers, digest, shown};
use entry::Lists;
use simulation::{Progress, Refused};
use std::io;

// The first places of a list, as many as it has of n.
fn lent<T>(list: &mut [T], n: u32) -> &mut [T] {
    let n = list.len().min(n as usize);
    &mut list[..n]
}

// A run over the first places of the lists, as many as the lengths say.
fn called(
    lists: &mut Lists<'_>,
    parameters: &[f32],
    inputs: &Inputs,
    seed: u64,
) -> Result<Progress, Refused> {
    let lengths = inputs.lengths;
    let mut lists = Lists {
        cards: lent(lists.cards, lengths[0]),
        counts: lent(lists.counts, lengths[1]),
        queue_rows: lent(lists.queue_rows, lengths[2]),
        days: lent(lists.days, lengths[3]),
        costs: lent(lists.costs, lengths[4]),
        memorized: lent(lists.memorized, lengths[5]),
        due: lent(lists.due, lengths[6]),
        keys: lent(lists.keys, lengths[7]),
        intervals: lent(lists.intervals, lengths[8]),
    };
    simulation::simulate(
        &mut lists,
        inputs.learner(parameters),
        inputs.settings(seed),
    )
}

pub fn run(rt: &impl Print, parameters: &[f32], inputs: &mut Inputs, r: Record) -> io::Result<()> {
    let mut lists = Lists {
        cards: &mut [[9.0; 6]; 4096],
        counts: &mut [[9; 2]; 4096],
        queue_rows: &mut [[9; 2]; 4096],
        days: &mut [[9; 4]; 400],
        costs: &mut [9.0; 400],
        memorized: &mut [9.0; 400],
        due: &mut [9; 600],
        keys: &mut [[9; 2]; 16384],
        intervals: &mut [9.0; 16384],
    };
    let answer = called(&mut lists, parameters, inputs, answers::join(r.a, r.b));
    shown::answer(rt, answer)?;
    if shown::has_run(answer) {
        shown::rows(rt, &lists, inputs.numbers[1])?;
    }
    shown::digests(rt, digest::of_lists(&lists))?;
    if r.function == 77 {
        inputs.keep_cards(&lists, shown::progress_of(answer).cards);
    }
    Ok(())
}
