// What an event, a learning or a review, does to a card's memory.
#![tactic(auto)]

ghost use Rattle.std.specs.Prelude.{◌≡◌, ◌+◌, ◌-◌, ◌≤◌, ◌<◌, min};
ghost use Rattle.draws.specs.Draws.{word, weighted_index, split_mix};
ghost use Rattle.events.specs.Scalars.{of_runtime};
ghost use Rattle.events.specs.Events.{of_rating, consecutive_after, short_step, short_steps, memory_of};
ghost use Rattle.events.specs.Events.{learning_limit, learning, success, lapse, chance_ok, reviewing, event_at};

use cards::{Card, SimulatorConfig};
use draws::SplitMix64;
use model::Fsrs7Runtime;

// The rows of the costs: of a learning, of a review, and of the steps after a lapse.
const LEARNING: u32 = 0;

const REVIEW: u32 = 1;

const RELEARNING: u32 = 2;

// What an event leaves: the card's memory, what it cost, whether the card was recalled, and the state of the draws.
#[derive(Clone, Copy)]
pub struct Memory {
    pub difficulty: f32,
    pub stability: f32,
    pub cost: f32,
    pub recalled: bool,
    pub draws: u64,
}

// What every event of a run goes by.
#[derive(Clone, Copy)]
pub struct Rules {
    pub config: SimulatorConfig,
    pub model: Fsrs7Runtime,
}

// Where the short-term steps have come to. A rating is a u32 from 1 to 4, not an enum of four: the model takes any u32, as
// C and the Rust's callers hand it over.
#[derive(Clone, Copy)]
pub struct ShortTerm {
    pub stability: f32,
    pub difficulty: f32,
    pub cost: f32,
    pub rating: u32,
    pub consecutive: u32,
    pub draws: u64,
}

// One of the last N ratings, drawn by their weights: of all four, or of the three that a recall can get.
fn drawn_rating<const N: usize>(weights: [f32; N], output: u64) -> u32
    requires { (1 ≤ N) × (N ≤ 4) }
    ensures { result ≡ min (weighted_index weights.entry (word output)) (N - 1) + (5 - N) }
{
    (draws::weighted_index(&weights, draws::word(output)).min(N - 1) + (5 - N)) as u32
}

fn of_rating(row: [f32; 4], rating: u32) -> f32
    requires { (1 ≤ rating) × (rating ≤ 4) }
    ensures { result ≡ of_rating row rating }
{
    row[(rating - 1) as usize]
}

#[tactic(auto, unfolding(crate::specs::Events::consecutive_after))]
fn consecutive_after(n: u32, rating: u32) -> u32
    requires { n < 4294967295 }
    ensures { result ≡ consecutive_after n rating }
{
    if 2 < rating {
        n + 1
    } else if rating == 1 {
        0
    } else {
        n
    }
}

#[tactic(auto, unfolding(crate::specs::Events::short_step))]
fn short_step(m: Fsrs7Runtime, transitions: [f32; 12], costs: [f32; 4], t: ShortTerm) -> ShortTerm
    requires { t.consecutive < 4294967295 }
    ensures { result ≡ short_step split_mix (of_runtime m) transitions costs t }
{
    let drawn = SplitMix64::new(t.draws).next();
    let row = cards::row_of(transitions, t.rating.saturating_sub(1));
    let rating = drawn_rating(row, drawn.output);
    ShortTerm {
        stability: m.stability_short_term(t.stability, 1.0, t.difficulty, rating),
        difficulty: m.next_difficulty(t.difficulty, rating, 1.0),
        cost: t.cost + of_rating(costs, rating),
        rating,
        consecutive: consecutive_after(t.consecutive, rating),
        draws: drawn.generator.state,
    }
}

fn short_steps(
    m: Fsrs7Runtime,
    transitions: [f32; 12],
    costs: [f32; 4],
    limit: u32,
    first: ShortTerm,
) -> ShortTerm
    ensures { result ≡ short_steps split_mix (of_runtime m) transitions costs limit 5 first }
{
    let mut t = first;
    for _ in 0..5u32 {
        if t.consecutive >= limit || t.rating >= 4 {
            break;
        }
        t = short_step(m, transitions, costs, t);
    }
    t
}

fn memory_of(t: ShortTerm, cost: f32, recalled: bool) -> Memory
    ensures { result ≡ memory_of t cost recalled }
{
    Memory {
        difficulty: float32::clamp(t.difficulty, Fsrs7Runtime::D_MIN, Fsrs7Runtime::D_MAX),
        stability: float32::clamp(t.stability, Fsrs7Runtime::S_MIN, Fsrs7Runtime::S_MAX),
        cost,
        recalled,
        draws: t.draws,
    }
}

fn chance_ok(chance: f32) -> bool
    ensures { result ≡ chance_ok chance }
{
    chance >= 0.0 && chance <= 1.0
}

impl Rules {
    fn learning_limit(self, rating: u32) -> u32
        ensures { result ≡ learning_limit self.config rating }
    {
        if 2 < rating {
            self.config.learning_step_count.saturating_sub(1)
        } else {
            self.config.learning_step_count
        }
    }

    fn learning(self, state: u64) -> Memory
        ensures { result ≡ learning split_mix self.config (of_runtime self.model) state }
    {
        let drawn = SplitMix64::new(state).next();
        let rating = drawn_rating(self.config.first_rating_prob, drawn.output);
        let costs = cards::row_of(self.config.state_rating_costs, LEARNING);
        let first = ShortTerm {
            stability: self.model.init_stability(rating),
            difficulty: float32::clamp(
                self.model.init_difficulty(rating),
                Fsrs7Runtime::D_MIN,
                Fsrs7Runtime::D_MAX,
            ),
            cost: of_rating(costs, rating),
            rating,
            consecutive: 0,
            draws: drawn.generator.state,
        };
        let transitions = self.config.learning_step_transitions;
        let limit = self.learning_limit(rating);
        let t = short_steps(self.model, transitions, costs, limit, first);
        memory_of(t, t.cost, true)
    }

    #[tactic(auto, unfolding(crate::specs::Events::success))]
    fn success(self, card: Card, chance: f32, state: u64) -> Memory
        ensures { result ≡ success split_mix self.config (of_runtime self.model) card chance state }
    {
        let drawn = SplitMix64::new(state).next();
        let rating = drawn_rating(self.config.review_rating_prob, drawn.output);
        let costs = cards::row_of(self.config.state_rating_costs, REVIEW);
        let m = self.model;
        Memory {
            difficulty: m.next_difficulty(card.difficulty, rating, 1.0),
            stability: m.stability_after_success(card.stability, chance, card.difficulty, rating),
            cost: of_rating(costs, rating),
            recalled: true,
            draws: drawn.generator.state,
        }
    }

    #[tactic(auto, unfolding(crate::specs::Events::lapse))]
    fn lapse(self, card: Card, chance: f32, state: u64) -> Memory
        ensures { result ≡ lapse split_mix self.config (of_runtime self.model) card chance state }
    {
        let m = self.model;
        let first = ShortTerm {
            stability: m.stability_after_failure(card.stability, chance, card.difficulty),
            difficulty: m.next_difficulty(card.difficulty, 1, 1.0),
            cost: 0.0,
            rating: 1,
            consecutive: 0,
            draws: state,
        };
        let transitions = self.config.relearning_step_transitions;
        let limit = self.config.relearning_step_count;
        let costs = self.config.state_rating_costs;
        let review = cards::row_of(costs, REVIEW);
        let relearning = cards::row_of(costs, RELEARNING);
        let t = short_steps(m, transitions, relearning, limit, first);
        memory_of(t, of_rating(review, 1) + t.cost, false)
    }

    // None is refusal 7: the chance to recall is not within 0 to 1.
    #[tactic(auto, unfolding(crate::specs::Events::reviewing))]
    fn reviewing(self, card: Card, chance: f32, state: u64) -> Option<Memory>
        ensures { result ≡ reviewing split_mix self.config (of_runtime self.model) card chance state }
    {
        if !chance_ok(chance) {
            return None;
        }
        let drawn = SplitMix64::new(state).next();
        let state = drawn.generator.state;
        if draws::recalled(chance, draws::word(drawn.output)) {
            Some(self.success(card, chance, state))
        } else {
            Some(self.lapse(card, chance, state))
        }
    }

    // A learning of a new card, or a review at a chance to recall, from a state of the draws. None is refusal 7.
    // `new` is a fact of the card: a closure in its place would have to be chosen by the same test.
    #[tactic(auto, unfolding(crate::specs::Events::event_at))]
    pub fn event_at(self, card: Card, new: bool, chance: f32, state: u64) -> Option<Memory>
        ensures { result ≡ event_at split_mix self.config (of_runtime self.model) card new chance state }
    {
        if new {
            Some(self.learning(state))
        } else {
            self.reviewing(card, chance, state)
        }
    }
}
