// Set-up: the lists as a run finds them. Places past what is needed never change.
ghost use Rattle.std.specs.Prelude.{◌≡◌, not, ◌&&◌, ◌/◌, ◌+◌, ◌≤◌, ◌<◌, length};
ghost use Rattle.float32.specs.Numbers.{0ᶠ};
ghost use Rattle.turns.specs.Sums.{bit};
ghost use Rattle.cards.specs.Day as Day;
ghost use Rattle.cards.specs.Cards.{is_kept};
ghost use Rattle.entry.specs.Entry.{most_cards, most_days};
ghost use Rattle.entry.specs.Lists.{SameLists, inputs_of};
ghost use Rattle.runs.specs.State.{lent_of, state};
ghost use Rattle.simulation.specs.Steps.{deck_of, Joined};
ghost use Rattle.runs.specs.SetUp.{new_card, add_card, add_existing_card, add_existing_cards, introduced_before};
ghost use Rattle.runs.specs.SetUp.{add_new_cards, new_card_count, set_up, filled_with};

use cards::{Card, SimulatorConfig};
use entry::{Learner, Lists, Settings};
use queue::CardPriorityQueue;

// The first n places of a list, or all of a shorter one, become x.
// A loop: std's `fill` asks for a `clone` that can't fail, which `T: Copy` doesn't promise.
fn fill_first<T: Copy>(list: &mut [T], n: usize, x: T)
    ensures { list.new ≡ filled_with x n list.old }
{
    for i in 0..n.min(list.len()) {
        list[i] = x;
    }
}

fn add_card(lists: &mut Lists<'_>, card: Card, len: u32) -> u32
    ensures joined { Joined (add_card (deck_of lists.old len) card) lists.old result lists.new }
{
    let key = turn::key_of(card);
    cards::write_floats(lists.cards, len, card);
    cards::write_counts(lists.counts, len, card);
    CardPriorityQueue { len }
        .push(lists.queue_rows, len, key)
        .len
}

fn add_existing_card(lists: &mut Lists<'_>, span: u32, card: Card, len: u32) -> u32
    ensures joined { Joined (add_existing_card span (deck_of lists.old len) card)
        lists.old result lists.new }
{
    if !cards::is_kept(card) {
        return len;
    }
    let more = add_card(lists, card, len);
    days::add_due(lists.due, span, cards::day_of(card.due));
    more
}

// The kept ones of the first n existing cards join an empty queue.
fn add_existing_cards(lists: &mut Lists<'_>, learner: Learner<'_>, span: u32, n: u32) -> u32
    ensures joined { Joined
        (add_existing_cards span learner.entry.existing.now learner.entry.existing_counts.now n
        (deck_of lists.old 0))
        lists.old result lists.new }
{
    let mut len: u32 = 0;
    for i in 0..n {
        let card = cards::card_at(learner.existing, learner.existing_counts, i);
        len = add_existing_card(lists, span, card, len);
    }
    len
}

fn is_introduced(card: Card) -> bool
    ensures { result ≡ is_kept card && not (Day.is_new card.last_date) }
{
    cards::is_kept(card) && !cards::is_new(card.last_date)
}

fn introduced_before(learner: Learner<'_>, n: u32) -> u32
    ensures { result ≡ introduced_before learner.entry.existing.now learner.entry.existing_counts.now n }
{
    let mut count: u32 = 0;
    for i in 0..n {
        let card = cards::card_at(learner.existing, learner.existing_counts, i);
        count += u32::from(is_introduced(card));
    }
    count
}

fn new_card(retention: f32, limit: u32, i: u32) -> Card
    ensures { result ≡ new_card retention limit i }
{
    let never = f32::NEG_INFINITY;
    Card {
        difficulty: never,
        stability: never,
        last_date: never,
        due: float32::from_u32(i.checked_div(limit).unwrap_or(0)),
        interval: never,
        desired_retention: retention,
        reps: 0,
        lapses: 0,
    }
}

#[tactic(auto, unfolding(runs::specs::SetUp::new_card_count))]
fn new_card_count(config: SimulatorConfig, kept: u32) -> u32
    ensures { result ≡ new_card_count config kept }
{
    if config.learn_limit == 0 {
        0
    } else {
        config.deck_size.saturating_sub(kept)
    }
}

// n new cards join after the first `from`.
fn add_new_cards(lists: &mut Lists<'_>, settings: Settings, n: u32, from: u32) -> u32
    ensures joined { Joined
        (add_new_cards settings.retention settings.config.learn_limit n (deck_of lists.old from))
        lists.old result lists.new }
{
    let mut len = from;
    for i in 0..n {
        let card = new_card(settings.retention, settings.config.learn_limit, i);
        len = add_card(lists, card, len);
    }
    len
}

// The lists as a run finds them, and how many cards it has. Neither the parameters, nor the seed, nor the table's keys
// are looked at.
pub(crate) fn set_up(lists: &mut Lists<'_>, learner: Learner<'_>, settings: Settings) -> u32
    requires { (length learner.existing.now ≤ most_cards)
        × (settings.config.learn_span ≤ most_days) }
    ensures state { state (lent_of lists.new) result settings.seed
        ≡ set_up 0ᶠ (inputs_of learner.entry settings) (state (lent_of lists.old) 0 settings.seed) }
    ensures same { SameLists lists.old lists.new }
{
    let span = settings.config.learn_span;
    let n = learner.existing.len() as u32;
    fill_first(lists.due, days::due_days(span), 0);
    let kept = add_existing_cards(lists, learner, span, n);
    let more = new_card_count(settings.config, kept);
    let len = add_new_cards(lists, settings, more, kept);
    fill_first(
        lists.days,
        span as usize,
        [0, 0, 0, introduced_before(learner, n)],
    );
    fill_first(lists.costs, span as usize, 0.0);
    fill_first(lists.memorized, span as usize, 0.0);
    intervals::clear(lists.intervals);
    len
}
