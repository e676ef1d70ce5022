// Runs 6,000 random operations on a queue of up to 64 cards with twelve different keys, so with many ties, and writes
// the order of service: `pop N` where card N leaves, `change N` where it is first and gets another key. stdout holds
// what the Rust heap gives for the same operations: tools/queue-order/run SRC, where SRC is the folder of fsrs-rs,
// takes the heap out of its simulation.rs, compiles it and writes that text.
#![tactic(auto)]

ghost use Rattle.std.specs.Prelude.{◌<◌};

use queue::{CardPriorityQueue, QueueRow};
use std::io;

// A linear congruential sequence modulo 2^31; its upper bits are used.
fn next(state: u64) -> u64
    requires { state < 2147483648 }
    ensures { result < 2147483648 }
{
    (state * 1103515245 + 12345) % 2147483648
}

// One of twelve keys: three days, review or new, two difficulties.
fn key(v: u64) -> u64 {
    let day = (v % 3) as u32;
    let new = v / 3 % 2 == 1;
    let difficulty = if v / 6 % 2 == 1 { 5.5 } else { -1.25 };
    queue::card_priority(day, new, difficulty)
}

// The queue with its rows, and for each card whether it is in it.
#[derive(Drop)]
struct Service {
    queue: CardPriorityQueue,
    rows: [QueueRow; 64],
    queued: [bool; 64],
}

impl Service {
    fn push(&mut self, card: u32, v: u64) {
        let c = card as usize;
        if c < self.queued.len() && !self.queued[c] {
            self.queued[c] = true;
            self.queue = self.queue.push(&mut self.rows, card, key(v));
        }
    }

    fn pop(&mut self, rt: &impl Print) -> io::Result<()> {
        if self.queue.len == 0 {
            return Ok(());
        }
        let card = self.queue.peek_index(&self.rows);
        println!(rt; "pop {card}")?;
        let c = card as usize;
        if c < self.queued.len() {
            self.queued[c] = false;
        }
        self.queue = self.queue.pop(&mut self.rows);
        Ok(())
    }

    fn change(&mut self, rt: &impl Print, v: u64) -> io::Result<()> {
        if self.queue.len == 0 {
            return Ok(());
        }
        println!(rt; "change {}", self.queue.peek_index(&self.rows))?;
        self.queue.change_front(&mut self.rows, key(v));
        Ok(())
    }

    fn operate(&mut self, rt: &impl Print, kind: u64, card: u32, v: u64) -> io::Result<()> {
        match kind {
            0 | 1 => self.push(card, v),
            2 => self.pop(rt)?,
            _ => self.change(rt, v)?,
        }
        Ok(())
    }

    fn operations(&mut self, rt: &impl Print) -> io::Result<()> {
        let mut state: u64 = 1;
        for _ in 0..6000u32 {
            let kind = next(state);
            let card = next(kind);
            state = next(card);
            self.operate(
                rt,
                kind / 65536 % 4,
                (card / 65536 % 64) as u32,
                state / 65536,
            )?;
        }
        Ok(())
    }

    fn empty(&mut self, rt: &impl Print) -> io::Result<()> {
        for _ in 0..64u32 {
            self.pop(rt)?;
        }
        Ok(())
    }
}

fn main(rt: HostRuntime) -> io::Result<()> {
    let mut service = Service {
        queue: CardPriorityQueue { len: 0 },
        rows: [[0; 2]; 64],
        queued: [false; 64],
    };
    service.operations(&rt)?;
    service.empty(&rt)
}
