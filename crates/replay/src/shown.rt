// What is printed of a run: its answer, the rows of its days, and digests of its lists.
use crate::digest::Digests;
use crate::inputs::first;
use days::DayRow;
use entry::{Lists, Refusal, refusals};
use float32::to_bits;
use simulation::{Progress, Refused};
use std::io;

// The refusal's two numbers, 0 and 0 where the run ended, and how far it came.
pub fn answer(rt: &impl Print, answer: Result<Progress, Refused>) -> io::Result<()> {
    let (number, second) = match answer {
        Ok(_) => (0, 0),
        Err(it) => (
            refusals::number_of(it.refusal),
            refusals::second_of(it.refusal),
        ),
    };
    let p = progress_of(answer);
    println!(rt;
        "run {number:08x} {second:08x} {:08x} {:08x} {:016x}",
        p.turns, p.cards, p.draws
    )
}

pub fn progress_of(answer: Result<Progress, Refused>) -> Progress {
    match answer {
        Ok(progress) => progress,
        Err(it) => it.progress,
    }
}

// Whether the entry took the call.
pub fn has_run(answer: Result<Progress, Refused>) -> bool {
    match answer {
        Ok(_) => true,
        Err(it) => matches!(it.refusal, Refusal::Run(_)),
    }
}

fn day(rt: &impl Print, counts: DayRow, cost: f32, memorized: f32) -> io::Result<()> {
    for count in counts {
        print!(rt; "{count:08x} ")?;
    }
    println!(rt; "{:08x} {:08x}", to_bits(cost), to_bits(memorized))
}

// The first `span` days.
pub fn rows(rt: &impl Print, lists: &Lists<'_>, span: u32) -> io::Result<()> {
    let days = first(lists.days, span);
    for ((counts, cost), memorized) in days.iter().zip(&*lists.costs).zip(&*lists.memorized) {
        day(rt, *counts, *cost, *memorized)?;
    }
    Ok(())
}

pub fn digests(rt: &impl Print, d: Digests) -> io::Result<()> {
    println!(rt;
        "digests {:08x} {:08x} {:08x} {:08x}",
        d.cards, d.days, d.due, d.table
    )
}
