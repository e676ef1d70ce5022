// A turn: what the queue's first card does, and what that writes. A refusal comes before the turn's first write.
#![tactic(auto)]

ghost use Rattle.std.specs.Prelude.{◌≡◌, cond};
ghost use Rattle.draws.specs.Draws.{split_mix};
ghost use Rattle.cards.specs.declared.choice.Choice.TheVariants as choice;
ghost use Rattle.cards.specs.Day.{is_new};
ghost use Rattle.days.specs.Counts.{saturating_suc};
ghost use Rattle.days.specs.Due.{none_due};
ghost use Rattle.intervals.specs.Table.{table};
ghost use Rattle.entry.specs.Lists.{SameLists};
ghost use Rattle.runs.specs.State.{lent_of, key_of, state_at};
ghost use Rattle.runs.specs.Model.{curve_for};
ghost use Rattle.runs.specs.Rules.{rules_as};
ghost use Rattle.runs.specs.declared.Place.{Place};
ghost use Rattle.runs.specs.Turn.{card_after_put_off, card_after_event, add_forgetting_curve, first, turn_choice};
ghost use Rattle.runs.specs.Turn.{event_on, act, next};
ghost use Rattle.turn.specs.Steps.{TurnContract};

use cards::{Card, Choice};
use entry::{Lists, RunRefusal};
use events::{Memory, Rules};
use intervals::Slot;
use model::Curve;
use queue::CardPriorityQueue;
use runs::{First, Place};

// ---- what a turn reads of the lists: over `&Lists`, since one call can't borrow two lists of a `&mut Lists` to read

fn first_of(lists: &Lists<'_>) -> First
    ensures { (at : Place) → result ≡ first (state_at lists.now at) }
{
    let place = queue::first_card(lists.queue_rows);
    let card = cards::card_at(lists.cards, lists.counts, place);
    let day = cards::day_of(card.due);
    First { place, card, day }
}

// What the limits, and the counts and the cost of its day so far, let the first card do.
fn choice_in(lists: &Lists<'_>, rules: Rules, first: First) -> Choice
    ensures { (at : Place) → result ≡ turn_choice (rules_as rules) (state_at lists.now at) first }
{
    let learned = days::learned_at(lists.days, first.day);
    let reviewed = days::reviewed_at(lists.days, first.day);
    let cost = days::cost_at(lists.costs, first.day);
    cards::decide(rules.config, first.card, learned, reviewed, cost)
}

fn none_due_in(lists: &Lists<'_>, new: bool, day: u32) -> bool
    ensures { result ≡ none_due lists.now.due.now new day }
{
    days::none_due(lists.due, new, day)
}

// The place in the interval table, and the interval, for a stability and a retention.
fn slot_for(lists: &Lists<'_>, rules: Rules, stability: f32, retention: f32) -> Slot
    ensures { result ≡ (rules_as rules).model.slot
        (table lists.now.keys.now lists.now.intervals.now) stability retention }
{
    let most = rules.config.max_ivl;
    let model = rules.model;
    intervals::scheduled_interval(
        model,
        stability,
        retention,
        most,
        lists.keys,
        lists.intervals,
    )
}

// ---- the turn's card

pub fn key_of(card: Card) -> u64
    ensures { result ≡ key_of card }
{
    queue::card_priority(
        cards::day_of(card.due),
        cards::is_new(card.last_date),
        card.difficulty,
    )
}

#[tactic(auto, unfolding(runs::specs::Turn::card_after_put_off))]
fn put_off_card(card: Card, day: u32) -> Card
    ensures { result ≡ card_after_put_off card day }
{
    Card {
        due: float32::from_u32(day) + 1.0,
        ..card
    }
}

#[tactic(auto, using(days::proofs::Laws::saturated))]
fn lapses_after(lapses: u32, new: bool, recalled: bool) -> u32
    ensures { result ≡ cond new lapses (cond recalled lapses (saturating_suc lapses)) }
{
    if new || recalled {
        lapses
    } else {
        lapses.saturating_add(1)
    }
}

fn event_card(card: Card, new: bool, memory: Memory, day: u32, interval: f32) -> Card
    ensures { result ≡ card_after_event card new memory day interval }
{
    let last_date = float32::from_u32(day);
    Card {
        difficulty: memory.difficulty,
        stability: memory.stability,
        last_date,
        due: last_date + interval,
        interval,
        reps: card.reps.saturating_add(1),
        lapses: lapses_after(card.lapses, new, memory.recalled),
        ..card
    }
}

fn add_forgetting_curve(memorized: &mut [f32], rules: Rules, curve: Curve, card: Card, to: u32)
    requires { curve ≡ curve_for rules.model card }
    ensures { memorized.new
        ≡ add_forgetting_curve (rules_as rules).model memorized.old card to }
{
    if !cards::is_new(card.last_date) {
        let from = float32::to_u32(card.last_date);
        days::add_forgetting_curve_range(memorized, curve, from, to, card.last_date);
    }
}

// ---- the steps of a turn

fn put_off_step(
    lists: &mut Lists<'_>,
    rules: Rules,
    first: First,
    at: Place,
) -> Result<Option<Place>, RunRefusal>
    ensures step { let before = state_at lists.old at in
        TurnContract (act (rules_as rules) before first choice.PutOff)
        before result (lent_of lists.new) }
    ensures same { SameLists lists.old lists.new }
{
    let First { place, card, day } = first;
    let new = cards::is_new(card.last_date);
    if none_due_in(lists, new, day) {
        return Err(RunRefusal::DueCount(place));
    }
    let later = put_off_card(card, day);
    let key = queue::card_priority(cards::day_after(day), new, card.difficulty);
    cards::write_floats(lists.cards, place, later);
    CardPriorityQueue { len: at.queued }.change_front(lists.queue_rows, key);
    days::move_due(lists.due, rules.config.learn_span, new, day);
    Ok(Some(at))
}

fn retire_step(
    lists: &mut Lists<'_>,
    rules: Rules,
    first: First,
    at: Place,
) -> Result<Option<Place>, RunRefusal>
    ensures step { let before = state_at lists.old at in
        TurnContract (act (rules_as rules) before first choice.Retire)
        before result (lent_of lists.new) }
    ensures same { SameLists lists.old lists.new }
{
    let curve = rules.model.curve(first.card.stability);
    add_forgetting_curve(
        lists.memorized,
        rules,
        curve,
        first.card,
        rules.config.learn_span,
    );
    let queued = CardPriorityQueue { len: at.queued }
        .pop(lists.queue_rows)
        .len;
    Ok(Some(Place { queued, ..at }))
}

// The event of a card on a day; a review's chance is that of the card's curve.
fn event_of(
    rules: Rules,
    curve: Curve,
    card: Card,
    new: bool,
    day: u32,
    draws: u64,
) -> Option<Memory>
    requires { curve ≡ curve_for rules.model card }
    ensures { result ≡ (rules_as rules).model.event split_mix card new day draws }
{
    let chance = curve.retention(float32::from_u32(day) - card.last_date);
    rules.event_at(card, new, chance, draws)
}

fn event_step(
    lists: &mut Lists<'_>,
    rules: Rules,
    first: First,
    at: Place,
) -> Result<Option<Place>, RunRefusal>
    ensures step { let before = state_at lists.old at in
        TurnContract (event_on (rules_as rules) before first (is_new first.card.last_date))
        before result (lent_of lists.new) }
    ensures same { SameLists lists.old lists.new }
{
    let First { place, card, day } = first;
    let new = cards::is_new(card.last_date);
    let span = rules.config.learn_span;
    let curve = rules.model.curve(card.stability);
    let Some(memory) = event_of(rules, curve, card, new, day, at.draws) else {
        return Err(RunRefusal::ChanceOutOfRange(place));
    };
    let slot = slot_for(lists, rules, memory.stability, card.desired_retention);
    if intervals::is_full(slot) {
        return Err(RunRefusal::TableFull(place));
    }
    let later = event_card(card, new, memory, day, intervals::interval_in(slot));
    let key = key_of(later);
    // ---- from here on it writes
    cards::write_floats(lists.cards, place, later);
    cards::write_counts(lists.counts, place, later);
    CardPriorityQueue { len: at.queued }.change_front(lists.queue_rows, key);
    days::add_event(lists.days, span, new, day, memory.recalled);
    days::add_cost(lists.costs, day, memory.cost);
    add_forgetting_curve(lists.memorized, rules, curve, card, day);
    days::add_due(lists.due, span, cards::day_of(later.due));
    intervals::enter_slot(lists.keys, lists.intervals, slot);
    Ok(Some(Place {
        draws: memory.draws,
        ..at
    }))
}

// The next turn: where the run stands after it, or that it has ended, or why it is refused.
pub fn turn(lists: &mut Lists<'_>, rules: Rules, at: Place) -> Result<Option<Place>, RunRefusal>
    ensures turn { let before = state_at lists.old at in
        TurnContract (next (rules_as rules) before) before result (lent_of lists.new) }
    ensures same { SameLists lists.old lists.new }
{
    if at.queued == 0 {
        return Ok(None);
    }
    let first = first_of(lists);
    match choice_in(lists, rules, first) {
        Choice::Retire => retire_step(lists, rules, first, at),
        Choice::PutOff => put_off_step(lists, rules, first, at),
        // each is an event; `event_step` sees itself whether the card is new
        Choice::Learn | Choice::Review => event_step(lists, rules, first, at),
    }
}
