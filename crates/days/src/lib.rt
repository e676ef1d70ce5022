// The rows of a run's days: counts, sums, and the due counts (specs/Due says what they count).
#![tactic(auto)]

mod memorized;

ghost use Rattle.std.specs.Prelude.{◌≡◌, ◌-◌, ◌<◌};
ghost use Rattle.std.specs.Float.{binary32};
ghost use Rattle.std.specs.Float.Ieee.{add};
ghost use Rattle.float32.specs.Numbers.{0ᶠ};
ghost use Rattle.days.specs.Counts.{saturating_suc, learned_at, reviewed_at, add_one, add_review, add_introduced_from, add_event};
ghost use Rattle.days.specs.Sums.{cost_at, add_cost};
ghost use Rattle.days.specs.Due.{due_days, add_due, move_due, none_due};

pub use memorized::add_forgetting_curve_range;

// A day's row of counts, as the C interface lends it; its columns are the four numbers below.
pub type DayRow = [u32; 4];

const LEARNED: usize = 0;

const REVIEWED: usize = 1;

const CORRECT: usize = 2;

const INTRODUCED: usize = 3;

// One more, kept within a u32: how each count of a run goes up.
#[tactic(auto, using(crate::proofs::Laws::saturated))]
pub fn saturating_suc(n: u32) -> u32
    ensures { result ≡ saturating_suc n }
{
    n.saturating_add(1)
}

// This and the next differ in the column: with the column as a parameter their callers would be no shorter.
pub fn learned_at(rows: &[DayRow], d: u32) -> u32
    ensures { result ≡ learned_at rows.now d }
{
    rows.get(d as usize).map_or(0, |row| row[LEARNED])
}

pub fn reviewed_at(rows: &[DayRow], d: u32) -> u32
    ensures { result ≡ reviewed_at rows.now d }
{
    rows.get(d as usize).map_or(0, |row| row[REVIEWED])
}

// One more in a column of day d.
#[tactic(auto, using(crate::proofs::Laws::saturated, std::proofs::lemmas::List::set_past), unfolding(crate::specs::Counts::add_one))]
fn add_one(rows: &mut [DayRow], column: usize, d: u32)
    requires { column < 4 }
    ensures { rows.new ≡ add_one rows.old column d }
{
    let i = d as usize;
    if i < rows.len() {
        rows[i][column] = rows[i][column].saturating_add(1);
    }
}

fn add_review(rows: &mut [DayRow], d: u32, recalled: bool)
    ensures { rows.new ≡ add_review rows.old d recalled }
{
    add_one(rows, REVIEWED, d);
    if recalled {
        add_one(rows, CORRECT, d);
    }
}

// On each day from `from` up to `to`, that day left out.
fn add_introduced_from(rows: &mut [DayRow], from: u32, to: u32)
    ensures { rows.new ≡ add_introduced_from rows.old (to - from) from }
{
    for d in from..to {
        add_one(rows, INTRODUCED, d);
    }
}

#[tactic(auto, unfolding(crate::specs::Counts::add_event))]
pub fn add_event(rows: &mut [DayRow], span: u32, new: bool, d: u32, recalled: bool)
    ensures { rows.new ≡ add_event span rows.old new d recalled }
{
    if new {
        add_one(rows, LEARNED, d);
        add_introduced_from(rows, d, span);
    } else {
        add_review(rows, d, recalled);
    }
}

pub fn cost_at(costs: &[f32], d: u32) -> f32
    ensures { result ≡ cost_at 0ᶠ costs.now d }
{
    costs.get(d as usize).copied().unwrap_or(0.0)
}

#[tactic(auto, using(std::proofs::lemmas::List::set_past), unfolding(crate::specs::Sums::add_cost))]
pub fn add_cost(costs: &mut [f32], d: u32, cost: f32)
    ensures { costs.new ≡ add_cost 0ᶠ (λ x y. add binary32 x y) costs.old d cost }
{
    let i = d as usize;
    if i < costs.len() {
        costs[i] += cost;
    }
}

// The days whose due cards are counted.
pub fn due_days(span: u32) -> usize
    ensures { result ≡ due_days span }
{
    span as usize + (span / 2) as usize
}

#[tactic(auto, using(crate::proofs::Laws::saturated, std::proofs::lemmas::List::set_past), unfolding(crate::specs::Due::add_due))]
fn add_due_at(due: &mut [u32], span: u32, i: usize)
    ensures { due.new ≡ add_due span due.old i }
{
    if i < due_days(span) && i < due.len() {
        due[i] = due[i].saturating_add(1);
    }
}

pub fn add_due(due: &mut [u32], span: u32, d: u32)
    ensures { due.new ≡ add_due span due.old d }
{
    add_due_at(due, span, d as usize);
}

#[tactic(auto, using(std::proofs::lemmas::List::set_past), unfolding(crate::specs::Due::move_due))]
pub fn move_due(due: &mut [u32], span: u32, new: bool, d: u32)
    ensures { due.new ≡ move_due span due.old new d }
{
    if new {
        return;
    }
    let i = d as usize;
    if i < due.len() {
        due[i] = due[i].saturating_sub(1);
    }
    add_due_at(due, span, i + 1);
}

#[tactic(auto, unfolding(crate::specs::Due::none_due))]
pub fn none_due(due: &[u32], new: bool, d: u32) -> bool
    ensures { result ≡ none_due due.now new d }
{
    !new && due.get(d as usize).copied().unwrap_or(0) == 0
}
