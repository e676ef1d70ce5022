// What a turn does with the queue's first card: by the card, and by what its day holds so far.
ghost use Rattle.std.specs.Prelude.{ℕ, ◌≡◌};
ghost use Rattle.cards.specs.Choices.{limits, retires, today, blocked, choice_of};

use crate::card::Card;
use crate::configuration::SimulatorConfig;
use crate::day::is_new;

// What a turn does with the queue's first card.
#[derive(Clone, Copy)]
pub enum Choice {
    Retire,
    PutOff,
    Learn,
    Review,
}

#[tactic(auto, unfolding(crate::specs::Choices::retires))]
pub fn is_retired(config: SimulatorConfig, card: Card) -> bool
    ensures { result ≡ retires config.learn_span config.suspend_after_lapses card }
{
    card.due >= float32::from_u32(config.learn_span) || card.lapses >= config.suspend_after_lapses
}

// Today's three numbers, here and in `decide`, come from three calls over lent lists: a struct would be made once and taken
// apart at once.
#[tactic(auto, unfolding(crate::specs::Choices::blocked))]
pub fn is_blocked(
    config: SimulatorConfig,
    new: bool,
    learned: u32,
    reviewed: u32,
    cost: f32,
) -> bool
    ensures { (d : ℕ) → result ≡ blocked (limits config) d new (today learned reviewed cost) }
{
    if cost > config.max_cost_perday {
        return true;
    }
    if new {
        let both = u64::from(learned) + u64::from(reviewed);
        learned >= config.learn_limit
            || (!config.new_cards_ignore_review_limit && both >= u64::from(config.review_limit))
    } else {
        reviewed >= config.review_limit
    }
}

#[tactic(auto, unfolding(crate::specs::Choices::choice_of))]
pub fn decide(config: SimulatorConfig, card: Card, learned: u32, reviewed: u32, cost: f32) -> Choice
    ensures { (d : ℕ) → result ≡ choice_of config.learn_span config.suspend_after_lapses (limits config) d
        card (today learned reviewed cost) }
{
    let new = is_new(card.last_date);
    if is_retired(config, card) {
        Choice::Retire
    } else if is_blocked(config, new, learned, reviewed, cost) {
        Choice::PutOff
    } else if new {
        Choice::Learn
    } else {
        Choice::Review
    }
}
