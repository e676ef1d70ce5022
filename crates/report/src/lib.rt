// The lines of a forecast, and numbers in them, as bytes in a lent list. A line is written whole or not at all.
#![tactic(auto)]

ghost use Rattle.std.specs.Prelude.{◌≡◌, ◌++◌, ◌+◌, ◌<◌, ◌≤◌, length};
ghost use Rattle.report.specs.Digits.{decimal, hex};
ghost use Rattle.report.specs.Lines.{word, placed, written, day_line, forecast_line, refused_line, cheapest_line};
ghost use Rattle.report.specs.Rows.{Covers, day_at, days_placed, days_written, span_placed, span_written};

use arrayvec::ArrayVec;
use days::DayRow;
use itoa::Buffer;

mod digits;

// The longest line has 183 bytes.
type Line = ArrayVec<u8, 256>;

// A day's row.
#[derive(Clone, Copy)]
pub struct Day {
    pub day: u32,
    pub learn: u32,
    pub review: u32,
    pub correct: u32,
    pub introduced: u32,
    pub cost: f32,
    pub held: f32,
}

fn push_text(line: &mut Line, text: &[u8])
    requires { length line.old.items + length text.now ≤ 256 }
    ensures { line.new.items ≡ line.old.items ++ text.now }
{
    line.try_extend_from_slice(text).unwrap();
}

// A label and N.
fn push_number(line: &mut Line, label: &[u8], n: u32)
    requires { length line.old.items + length label.now + 20 ≤ 256 }
    ensures says { line.new.items ≡ line.old.items ++ (label.now ++ decimal n) }
    ensures short { length line.new.items ≤ length line.old.items + length label.now + 20 }
{
    push_text(line, label);
    push_text(line, Buffer::new().format(n).as_bytes());
}

// A label and W.
fn push_bits(line: &mut Line, label: &[u8], x: f32)
    requires { length line.old.items + length label.now + 20 ≤ 256 }
    ensures says { line.new.items ≡ line.old.items ++ (label.now ++ word x) }
    ensures short { length line.new.items ≤ length line.old.items + length label.now + 20 }
{
    push_text(line, label);
    push_text(line, &digits::hex_of(float32::to_bits(x)));
}

#[tactic(auto, using(std::proofs::Common::append_assoc), unfolding(crate::specs::Lines::forecast_line))]
fn forecast_line(span: u32, turns: u32, cards: u32) -> Line
    ensures { result.items ≡ forecast_line span turns cards }
{
    let mut line = Line::new();
    push_number(&mut line, b"(forecast ", span);
    push_number(&mut line, b" (turns ", turns);
    push_number(&mut line, b") (cards ", cards);
    push_text(&mut line, b"))\n");
    line
}

#[tactic(auto, using(std::proofs::Common::append_assoc), unfolding(crate::specs::Lines::refused_line))]
fn refused_line(number: u32, second: u32) -> Line
    ensures { result.items ≡ refused_line number second }
{
    let mut line = Line::new();
    push_number(&mut line, b"(refused ", number);
    push_number(&mut line, b" ", second);
    push_text(&mut line, b")\n");
    line
}

#[tactic(auto, using(std::proofs::Common::append_assoc), unfolding(crate::specs::Lines::cheapest_line))]
fn cheapest_line(retention: f32, rounds: u32, mean: f32) -> Line
    ensures { result.items ≡ cheapest_line retention rounds mean }
{
    let mut line = Line::new();
    push_bits(&mut line, b"(cheapest ", retention);
    push_number(&mut line, b" (rounds ", rounds);
    push_bits(&mut line, b") (mean ", mean);
    push_text(&mut line, b"))\n");
    line
}

#[tactic(auto, using(std::proofs::Common::append_assoc), unfolding(crate::specs::Lines::day_line))]
fn day_line(d: Day) -> Line
    ensures { result.items ≡ day_line d }
{
    let mut line = Line::new();
    push_number(&mut line, b"(day ", d.day);
    push_number(&mut line, b" (learn ", d.learn);
    push_number(&mut line, b") (review ", d.review);
    push_number(&mut line, b") (correct ", d.correct);
    push_number(&mut line, b") (introduced ", d.introduced);
    push_bits(&mut line, b") (cost ", d.cost);
    push_bits(&mut line, b") (held ", d.held);
    push_text(&mut line, b"))\n");
    line
}

// A line from `at` on, whole or not at all: where it ends, if there was room.
#[tactic(auto, unfolding(crate::specs::Lines::placed, crate::specs::Lines::written))]
pub fn write_line(out: &mut [u8], at: usize, line: &[u8]) -> Option<usize>
    ensures { (result ≡ placed out.old at line.now)
        × (out.new ≡ written out.old at line.now) }
{
    let end = at.checked_add(line.len())?;
    if out.len() < end {
        return None;
    }
    out[at..end].copy_from_slice(line);
    Some(end)
}

// `(day ..)`.
pub fn write_day(out: &mut [u8], at: usize, d: Day) -> Option<usize>
    ensures { (result ≡ placed out.old at (day_line d))
        × (out.new ≡ written out.old at (day_line d)) }
{
    write_line(out, at, &day_line(d))
}

// `(forecast ..)`.
pub fn write_forecast(out: &mut [u8], at: usize, span: u32, turns: u32, cards: u32) -> Option<usize>
    ensures { (result ≡ placed out.old at (forecast_line span turns cards))
        × (out.new ≡ written out.old at (forecast_line span turns cards)) }
{
    write_line(out, at, &forecast_line(span, turns, cards))
}

// `(refused ..)`.
pub fn write_refused(out: &mut [u8], at: usize, number: u32, second: u32) -> Option<usize>
    ensures { (result ≡ placed out.old at (refused_line number second))
        × (out.new ≡ written out.old at (refused_line number second)) }
{
    write_line(out, at, &refused_line(number, second))
}

// `(cheapest ..)`.
pub fn write_cheapest(
    out: &mut [u8],
    at: usize,
    retention: f32,
    rounds: u32,
    mean: f32,
) -> Option<usize>
    ensures { (result ≡ placed out.old at (cheapest_line retention rounds mean))
        × (out.new ≡ written out.old at (cheapest_line retention rounds mean)) }
{
    write_line(out, at, &cheapest_line(retention, rounds, mean))
}

// A run's rows: learned, reviewed, correct and introduced of each day, its cost, and what is held on it.
#[derive(Clone, Copy)]
pub struct Rows<'a> {
    pub days: &'a [DayRow],
    pub costs: &'a [f32],
    pub memorized: &'a [f32],
}

impl Rows<'_> {
    // The row of day d.
    #[tactic(auto, unfolding(crate::specs::Rows::day_at))]
    fn day(self, d: u32) -> Day
        requires { Covers self (d + 1) }
        ensures { result ≡ day_at self.entry.days.now self.entry.costs.now self.entry.memorized.now d }
    {
        let i = d as usize;
        let [learn, review, correct, introduced] = self.days[i];
        Day {
            day: d,
            learn,
            review,
            correct,
            introduced,
            cost: self.costs[i],
            held: self.memorized[i],
        }
    }
}

// The lines of all days, one after the other, until one finds no room.
fn write_rows(out: &mut [u8], from: usize, rows: Rows<'_>, span: u32) -> Option<usize>
    requires { Covers rows span }
    ensures { (result ≡ days_placed rows.entry.days.now rows.entry.costs.now rows.entry.memorized.now 0 span
        out.old from)
        × (out.new ≡ days_written rows.entry.days.now rows.entry.costs.now rows.entry.memorized.now 0 span
        out.old from) }
{
    let mut at = from;
    for d in 0..span {
        at = write_day(out, at, rows.day(d))?;
    }
    Some(at)
}

// The lines of the first `span` days.
#[tactic(auto, unfolding(crate::specs::Rows::span_placed, crate::specs::Rows::span_written, crate::specs::Rows::has_rows))]
pub fn write_days(out: &mut [u8], at: usize, rows: Rows<'_>, span: u32) -> Option<usize>
    ensures { (result ≡ span_placed rows.entry.days.now rows.entry.costs.now rows.entry.memorized.now span
        out.old at)
        × (out.new ≡ span_written rows.entry.days.now rows.entry.costs.now rows.entry.memorized.now span
        out.old at) }
{
    let n = span as usize;
    if rows.days.len() < n || rows.costs.len() < n || rows.memorized.len() < n {
        return None;
    }
    write_rows(out, at, rows, span)
}
