// The entry: the tests of a call, in the order of the refusals' table, which write nothing; why a call is turned away,
// with the numbers by which that is told (refusals.rt); and what a call is given (lists.rt).
#![tactic(auto)]

ghost use Rattle.std.specs.Prelude.{◌≡◌, ◌==◌, ◌||◌, nat_lt};
ghost use Rattle.entry.specs.Entry.{is_bad, passed};
ghost use Rattle.entry.specs.Lists.{inputs_of};
ghost use Rattle.entry.specs.Entry.{check_parameters, lengths_ok, short_list, check_cards};
ghost use Rattle.entry.specs.Entry.{check_settings, check_entry};

use cards::{Card, SimulatorConfig};

pub mod lists;
pub mod refusals;

pub use lists::{Learner, Lengths, Lists, Settings};

// Why a run is refused, each with the card that has the turn.
#[derive(Clone, Copy, Debug, PartialEq, Eq)]
pub enum RunRefusal {
    ChanceOutOfRange(u32),
    TableFull(u32),
    DueCount(u32),
}

// Why a call is turned away; `refusals::number_of` and `second_of` give the numbers of each.
#[derive(Clone, Copy, Debug, PartialEq, Eq)]
pub enum Refusal {
    Parameters(u32),
    DeckSize,
    LearnSpan,
    Config,
    Lists,
    TooManyCards,
    ExistingCard(u32),
    Run(RunRefusal),
    NotFound(u32),
}

// The largest deck and the longest span.
const MOST_CARDS: u32 = 65536;

const MOST_DAYS: u32 = 36500;

// FSRS-7 has 34 parameters, all finite.
#[tactic(auto, unfolding(crate::specs::Entry::check_parameters))]
fn check_parameters(w: &[f32]) -> Result<(), Refusal>
    ensures { result ≡ check_parameters w.now passed }
{
    // too few are told as number 34, by the C interface and in stored outputs, so they have no variant of their own
    if w.len() < 34 {
        return Err(Refusal::Parameters(34));
    }
    match w[..34].iter().position(|x| !float32::is_finite(*x)) {
        Some(i) => Err(Refusal::Parameters(i as u32)),
        None => Ok(()),
    }
}

// Whether refusal 5 turns a card away: it is kept and not as it must be.
pub fn is_bad(card: Card) -> bool
    ensures { result ≡ is_bad card }
{
    cards::is_kept(card) && !cards::card_ok(card)
}

// Refusal 5 tells the first of the first n existing cards that is kept and not as it must be.
// A card lies in two lists, neither known to be as long as the other, so it is read by its number.
fn check_cards(learner: Learner<'_>, n: u32) -> Result<(), Refusal>
    ensures { result ≡ check_cards learner.entry.existing.now learner.entry.existing_counts.now n }
{
    match (0..n).find(|i| is_bad(cards::card_at(learner.existing, learner.existing_counts, *i))) {
        Some(i) => Err(Refusal::ExistingCard(i)),
        None => Ok(()),
    }
}

// The existing cards' two lengths are no fields of `Lengths`: over records both are the number of records.
#[tactic(auto, unfolding(crate::specs::Entry::lengths_ok))]
pub fn lists_ok(
    config: SimulatorConfig,
    existing: usize,
    existing_counts: usize,
    x: Lengths,
) -> bool
    ensures { result ≡ lengths_ok config existing existing_counts x }
{
    short_list(config, existing, existing_counts, x) == 0
}

// Which list refusal 6 is about, by the number that the C interface tells; 0 where it is about none.
#[tactic(auto, unfolding(crate::specs::Entry::short_list))]
pub fn short_list(
    config: SimulatorConfig,
    existing: usize,
    existing_counts: usize,
    x: Lengths,
) -> u32
    ensures { result ≡ short_list config existing existing_counts x }
{
    let deck = config.deck_size as usize;
    let span = config.learn_span as usize;
    if existing != existing_counts {
        1
    } else if x.keys != x.intervals {
        2
    } else if x.cards != x.counts {
        3
    } else if x.cards < deck {
        4
    } else if x.queue_rows < deck {
        5
    } else if x.days < span {
        6
    } else if x.costs < span {
        7
    } else if x.memorized < span {
        8
    } else if x.due < days::due_days(config.learn_span) {
        9
    } else {
        0
    }
}

fn is_outside(x: u32, most: u32) -> bool
    ensures { result ≡ x == 0 || nat_lt most x }
{
    x == 0 || most < x
}

// The tests before that of the cards, of n existing ones; `setting_ok` is the test of what a run and a search each have
// of their own, `lists_ok` that of the lists' lengths.
#[tactic(auto, unfolding(crate::specs::Entry::check_settings))]
pub fn check_settings(
    parameters: &[f32],
    config: SimulatorConfig,
    setting_ok: bool,
    lists_ok: bool,
    n: usize,
) -> Result<(), Refusal>
    ensures { result ≡ check_settings setting_ok lists_ok parameters.now config n passed }
{
    let deck = config.deck_size;
    let span = config.learn_span;
    check_parameters(parameters)?;
    let bad_deck = is_outside(deck, MOST_CARDS);
    if bad_deck {
        return Err(Refusal::DeckSize);
    }
    let bad_span = is_outside(span, MOST_DAYS);
    if bad_span {
        return Err(Refusal::LearnSpan);
    }
    if !(cards::config_ok(config) && setting_ok) {
        return Err(Refusal::Config);
    }
    if !lists_ok {
        return Err(Refusal::Lists);
    }
    if (deck as usize) < n {
        return Err(Refusal::TooManyCards);
    }
    Ok(())
}

// What a run and a search test alike.
pub fn check_entry(
    lengths: Lengths,
    learner: Learner<'_>,
    settings: Settings,
    setting_ok: bool,
) -> Result<(), Refusal>
    ensures { result ≡ check_entry setting_ok (inputs_of learner.entry settings) lengths }
{
    let config = settings.config;
    let n = learner.existing.len();
    let long = lists_ok(config, n, learner.existing_counts.len(), lengths);
    check_settings(learner.parameters, config, setting_ok, long, n)?;
    check_cards(learner, n as u32)
}
