// What the calls of leaves keep from one to the next: the model's parameters, a queue of cards, and an interval table.
use crate::inputs::put;
use crate::record::Record;
use float32::from_bits;
use intervals::KeyRow;
use model::Fsrs7Runtime;
use queue::{CardPriorityQueue, QueueRow};

#[derive(Drop)]
pub struct Kept {
    pub parameters: [f32; 40],
    pub rows: [QueueRow; 16],
    pub queue: CardPriorityQueue,
    pub keys: [KeyRow; 8],
    pub intervals: [f32; 8],
}

impl Kept {
    // Parameter a is b.
    pub fn tell(&mut self, r: Record) {
        put(&mut self.parameters, r.a, from_bits(r.b));
    }

    // 50: push card a with the key of day b, newness c and difficulty d; 51: the front gets that key; 52: pop. The
    // answer is the first card's number, or the largest number where there is none.
    pub fn queued(&mut self, r: Record) -> u32 {
        let key = queue::card_priority(r.b, r.c == 1, from_bits(r.d));
        let queue = self.queue;
        match r.function {
            50 => self.queue = queue.push(&mut self.rows, r.a, key),
            51 => queue.change_front(&mut self.rows, key),
            _ => self.queue = queue.pop(&mut self.rows),
        }
        // Not an Option: a stored answer is one word, and 4294967295 stands there for none.
        if self.queue.len == 0 {
            u32::MAX
        } else {
            self.queue.peek_index(&self.rows)
        }
    }

    // 60: the interval at stability a and retention b, at most c, entered where the table did not serve; 61: the table
    // is emptied.
    pub fn scheduled(&mut self, r: Record) -> u32 {
        if r.function == 61 {
            intervals::clear(&mut self.intervals);
            return 0;
        }
        let slot = intervals::scheduled_interval(
            Fsrs7Runtime::new(&self.parameters),
            from_bits(r.a),
            from_bits(r.b),
            from_bits(r.c),
            &self.keys,
            &self.intervals,
        );
        intervals::enter_slot(&mut self.keys, &mut self.intervals, slot);
        float32::to_bits(intervals::interval_in(slot))
    }
}
