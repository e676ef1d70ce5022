// Replays stored answers of the Rust, of single functions and of whole runs: `stdin` has the calls, `stdout` what the
// Rust answered, and this program prints what the port answers. `harness/run store` writes both files from the patched
// Rust (and from rustc's own functions on floats). A line of `stdin` is a function's number and four words in hex;
// `answers.rt`, `kept.rt`, `inputs.rt` and `whole.rt` say which.
#![tactic(auto)]

mod answers;
mod digest;
mod inputs;
mod kept;
mod record;
mod shown;
mod whole;

use inputs::Inputs;
use kept::Kept;
use queue::CardPriorityQueue;
use record::Record;
use std::io;

// One call, with what the program keeps, or a line that tells one of a run's inputs.
fn step(rt: &impl Print, kept: &mut Kept, inputs: &mut Inputs, r: Record) -> io::Result<()> {
    match r.function {
        0 => kept.tell(r),
        1..=19 => println!(rt; "{:08x}", answers::of_numbers(r))?,
        20..=49 => println!(rt; "{:08x}", answers::of_memory(&kept.parameters, r))?,
        50..=59 => println!(rt; "{:08x}", kept.queued(r))?,
        60..=69 => println!(rt; "{:08x}", kept.scheduled(r))?,
        76 | 77 => whole::run(rt, &kept.parameters, inputs, r)?,
        _ => inputs.tell(r),
    }
    Ok(())
}

fn main(rt: HostRuntime) -> io::Result<()> {
    let mut input = rt.stdin();
    let mut kept = Kept {
        parameters: [0.0; 40],
        rows: [[0; 2]; 16],
        queue: CardPriorityQueue { len: 0 },
        keys: [[0; 2]; 8],
        intervals: [0.0; 8],
    };
    let mut inputs = Inputs {
        numbers: [0; 8],
        settings: [0.0; 46],
        existing: [[0.0; 6]; 4096],
        existing_counts: [[0; 2]; 4096],
        lengths: [0; 12],
    };
    for _ in 0..100000 {
        let Some(r) = record::next(&mut input) else {
            break;
        };
        step(&rt, &mut kept, &mut inputs, r)?;
    }
    Ok(())
}
