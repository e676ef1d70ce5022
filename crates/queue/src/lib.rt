// The queue of cards: rows of an order key and a card number in heap order, in a list that the caller lends, the
// smallest key first. Every function takes any list: a length beyond the list, or a full list, leaves the queue as it
// is.
#![tactic(auto)]

ghost use Rattle.std.specs.Prelude.{◌≡◌, ◌+◌, ◌-◌, ◌*◌, ◌^◌, ◌<◌, ◌≤◌, min, set, length};
ghost use Rattle.queue.specs.Queue.{bubble_up, sink, heapify, lesser, queue, front, pushed, popped};
ghost use Rattle.queue.specs.Queue.{front_changed, card_index_at};
ghost use Rattle.turns.specs.Sums.{bit};
ghost use Rattle.queue.specs.Key.{shifted, card_priority};

// A row of the queue, as the C interface lends it: an order key, and a card's place.
pub type QueueRow = [u64; 2];

fn shifted(priority: i32) -> u64
    ensures { (result ≡ shifted priority) × (result < 2 ^ 32) }
{
    (i64::from(priority) + 2147483648) as u64
}

// The order key of a card: a card with a smaller one is served first.
pub fn card_priority(day: u32, new: bool, difficulty: f32) -> u64
    ensures { result ≡ card_priority day new difficulty }
{
    let priority = shifted(float32::to_i32(difficulty * 100.0));
    u64::from(day.min(2147483647)) * 8589934592 + u64::from(new) * 4294967296 + priority
}

// The row put at place `from` rises to its place: the greater rows above it move down.
fn bubble_up(rows: &mut [QueueRow], from: usize, row: QueueRow)
    requires { from < length rows.old }
    ensures { rows.new ≡ bubble_up (set rows.old from row) from }
{
    let mut pos = from;
    while 0 < pos {
        let parent = (pos - 1) / 2;
        let above = rows[parent];
        if above[0] <= row[0] {
            break;
        }
        rows[pos] = above;
        pos = parent;
    }
    rows[pos] = row;
}

// The end of the sinking, where the row put at pos has at most one child.
fn only_child(rows: &mut [QueueRow], n: usize, pos: usize, left: usize, row: QueueRow)
    requires { (left ≡ 2 * pos + 1) × (n ≤ left + 1) × (pos < length rows.old) × (n ≤ length rows.old) }
    ensures { rows.new ≡ sink n (set rows.old pos row) n pos }
{
    if left < n && rows[left][0] < row[0] {
        rows[pos] = rows[left];
        rows[left] = row;
    } else {
        rows[pos] = row;
    }
}

// The row put at the root of the first n sinks to its place: the lesser rows below it move up. While both children are
// there, one comparison a level tells which of them has the lesser key, and one whether the row rests.
// Each child has its own branch: with the lesser one as a value the sinking took a fifth longer.
fn heapify(rows: &mut [QueueRow], n: usize, row: QueueRow)
    requires { (0 < length rows.old) × (n ≤ length rows.old) }
    ensures { rows.new ≡ heapify (set rows.old 0 row) n }
{
    let mut pos = 0;
    let mut left = 1;
    let key = row[0];
    while left + 1 < n {
        let right = left + 1;
        let a = rows[left][0];
        let b = rows[right][0];
        if b < a {
            if key <= b {
                rows[pos] = row;
                return;
            }
            rows[pos] = rows[right];
            pos = right;
            left = 2 * right + 1;
        } else {
            if key <= a {
                rows[pos] = row;
                return;
            }
            rows[pos] = rows[left];
            pos = left;
            left = 2 * left + 1;
        }
    }
    only_child(rows, n, pos, left, row);
}

// The card number of the first of a queue's rows: what a reader of lent rows asks. 0 where there is none, not None, since
// C's drill_peek_index tells a number.
pub fn first_card(rows: &[QueueRow]) -> u32
    ensures { result ≡ card_index_at rows.now 0 }
{
    rows.first().map_or(0, |row| (row[1] % 4294967296) as u32)
}

// How many cards are queued: their rows are the first places of a list that each call lends. It holds no reference, so
// that it can be copied.
#[derive(Clone, Copy)]
pub struct CardPriorityQueue {
    pub len: u32,
}

impl CardPriorityQueue {
    #[tactic(auto, unfolding(crate::specs::Queue::pushed))]
    pub fn push(self, rows: &mut [QueueRow], card: u32, key: u64) -> CardPriorityQueue
        ensures { queue rows.new result.len ≡ pushed (queue rows.old self.len) card key }
    {
        let at = self.len as usize;
        if at < rows.len() && self.len < u32::MAX {
            bubble_up(rows, at, [key, u64::from(card)]);
            CardPriorityQueue { len: self.len + 1 }
        } else {
            self
        }
    }

    // The first card's number, where the queue is not empty.
    pub fn peek_index(self, rows: &[QueueRow]) -> u32
        ensures { result ≡ front (queue rows.now self.len) }
    {
        first_card(rows)
    }

    #[tactic(auto, unfolding(crate::specs::Queue::popped))]
    pub fn pop(self, rows: &mut [QueueRow]) -> CardPriorityQueue
        ensures { queue rows.new result.len ≡ popped (queue rows.old self.len) }
    {
        let at = self.len as usize;
        if 0 < at && at <= rows.len() {
            let last = rows[at - 1];
            heapify(rows, at - 1, last);
            CardPriorityQueue { len: self.len - 1 }
        } else {
            self
        }
    }

    // The first card gets another key: what `change_priority` does to the card that was peeked at.
    #[tactic(auto, unfolding(crate::specs::Queue::front_changed))]
    pub fn change_front(self, rows: &mut [QueueRow], key: u64)
        ensures { queue rows.new self.len ≡ front_changed (queue rows.old self.len) key }
    {
        let at = self.len as usize;
        if 0 < at && at <= rows.len() {
            let card = rows[0][1];
            heapify(rows, at, [key, card]);
        }
    }
}
