// The queue of cards, in a list of rows of which the first `len` are in use.
ghost use Rattle.std.specs.Prelude.{◌≡◌};
ghost use Rattle.queue.specs.Queue as Queue;
ghost use Rattle.queue.specs.Queue.{queue, pushed, popped, front, front_changed};
ghost use Rattle.queue.specs.Key.{card_priority};

use queue::{CardPriorityQueue, QueueRow};

#[unsafe(no_mangle)]
pub extern "C" fn drill_card_priority(day: u32, new: bool, difficulty: f32) -> u64
    ensures { result ≡ card_priority day new difficulty }
{
    queue::card_priority(day, new, difficulty)
}

#[unsafe(no_mangle)]
pub extern "C" fn drill_push(rows: &mut [QueueRow], len: u32, card: u32, key: u64) -> u32
    ensures { queue rows.new result ≡ pushed (queue rows.old len) card key }
{
    CardPriorityQueue { len }.push(rows, card, key).len
}

// The first row's card, whatever the length; C passes `len` as to the others.
#[unsafe(no_mangle)]
pub extern "C" fn drill_peek_index(rows: &[QueueRow], len: u32) -> u32
    ensures { result ≡ front (queue rows.now len) }
{
    queue::first_card(rows)
}

#[unsafe(no_mangle)]
pub extern "C" fn drill_pop(rows: &mut [QueueRow], len: u32) -> u32
    ensures { queue rows.new result ≡ popped (queue rows.old len) }
{
    CardPriorityQueue { len }.pop(rows).len
}

#[unsafe(no_mangle)]
pub extern "C" fn drill_change_front(rows: &mut [QueueRow], len: u32, key: u64)
    ensures { queue rows.new len ≡ front_changed (queue rows.old len) key }
{
    CardPriorityQueue { len }.change_front(rows, key);
}
