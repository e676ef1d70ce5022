// A card by value and as the two rows of lent lists, and what is asked of an existing one.
ghost use Rattle.std.specs.Prelude.{◌≡◌};
ghost use Rattle.cards.specs.Cards.{card_at, write_floats, write_counts, is_kept, date_ok, history_ok, card_ok};

use crate::day::is_new;

// A card's row of floats, and its row of counts, as the C interface lends them in two lists.
pub type CardRow = [f32; 6];

pub type CountRow = [u32; 2];

// An existing card is kept only above this stability.
const KEPT_ABOVE: f32 = 0.000000001;

// Dates lie within ± this: f32 has every whole number up to it.
const FARTHEST: f32 = 16777216.0;

const MOST_LAPSES: u32 = 4000000000;

// A new card's last date is -infinity, as C has it.
#[repr(C)]
#[derive(Clone, Copy)]
pub struct Card {
    pub difficulty: f32,
    pub stability: f32,
    pub last_date: f32,
    pub due: f32,
    pub interval: f32,
    pub desired_retention: f32,
    pub reps: u32,
    pub lapses: u32,
}

#[tactic(auto, unfolding(crate::specs::Cards::card_at))]
pub fn card_at(cards: &[CardRow], counts: &[CountRow], c: u32) -> Card
    ensures { result ≡ card_at cards.now counts.now c }
{
    let i = c as usize;
    let [
        difficulty,
        stability,
        last_date,
        due,
        interval,
        desired_retention,
    ] = cards.get(i).copied().unwrap_or([f32::NAN; 6]);
    let [reps, lapses] = counts.get(i).copied().unwrap_or([0; 2]);
    Card {
        difficulty,
        stability,
        last_date,
        due,
        interval,
        desired_retention,
        reps,
        lapses,
    }
}

#[tactic(auto, using(std::proofs::lemmas::List::set_past), unfolding(crate::specs::Cards::write_floats))]
pub fn write_floats(cards: &mut [CardRow], c: u32, card: Card)
    ensures { cards.new ≡ write_floats cards.old c card }
{
    let i = c as usize;
    if i < cards.len() {
        cards[i] = [
            card.difficulty,
            card.stability,
            card.last_date,
            card.due,
            card.interval,
            card.desired_retention,
        ];
    }
}

#[tactic(auto, using(std::proofs::lemmas::List::set_past), unfolding(crate::specs::Cards::write_counts))]
pub fn write_counts(counts: &mut [CountRow], c: u32, card: Card)
    ensures { counts.new ≡ write_counts counts.old c card }
{
    let i = c as usize;
    if i < counts.len() {
        counts[i] = [card.reps, card.lapses];
    }
}

pub fn is_kept(card: Card) -> bool
    ensures { result ≡ is_kept card }
{
    card.stability > KEPT_ABOVE
}

fn date_ok(x: f32) -> bool
    ensures { result ≡ date_ok x }
{
    x >= -FARTHEST && x <= FARTHEST
}

// A new card's difficulty is not looked at.
fn history_ok(card: Card) -> bool
    ensures { result ≡ history_ok card }
{
    is_new(card.last_date) || (date_ok(card.last_date) && float32::is_finite(card.difficulty))
}

#[tactic(auto, unfolding(crate::specs::Cards::card_ok))]
pub fn card_ok(card: Card) -> bool
    ensures { result ≡ card_ok card }
{
    float32::is_finite(card.stability)
        && float32::is_finite(card.desired_retention)
        && date_ok(card.due)
        && history_ok(card)
        && card.lapses <= MOST_LAPSES
}
