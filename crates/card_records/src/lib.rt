// The run over card records: its existing cards are one lent list of `cards::Card`, which is copied to two lent lists
// of rows, and the core (`simulation::simulate`) is called on those. All of the entry's tests come before the first
// copy, so a refusal at the entry leaves every list as it was, the room for the copies too; a room too short is refusal
// 6. The updated cards stand in the fields `cards` and `counts` of `lists`; `read_back` gives them out as records, and
// `cards::card_at` the record of a place.
#![tactic(auto)]

ghost use Rattle.std.specs.Prelude.{◌≡◌, ◌&&◌, ◌<◌, ◌≤◌, ltb, length, OnOk};
ghost use Rattle.float32.specs.Float32.{is_finite};
ghost use Rattle.entry.specs.declared.Refusal.TheVariants as refusal;
ghost use Rattle.entry.specs.Entry.{passed, fail_if, first_where, lengths_ok, check_settings};
ghost use Rattle.entry.specs.Lists.{SameLists};
ghost use Rattle.runs.specs.State.{lent_of, state};
ghost use Rattle.card_records.specs.Records.{has_room, copied, record_bad, record_inputs, RecordsContract};

use cards::{Card, CardRow, CountRow, SimulatorConfig};
use entry::{Learner, Lengths, Lists, Refusal, Settings};
use simulation::{Progress, Refused};

mod records;

pub use records::read_back;

// Refusal 6: the core's lists are long enough, and there is room for n rows.
fn lists_ok(
    config: SimulatorConfig,
    n: usize,
    lengths: Lengths,
    existing: usize,
    existing_counts: usize,
) -> bool
    ensures { result ≡ lengths_ok config n n lengths && has_room n existing existing_counts }
{
    entry::lists_ok(config, n, n, lengths) && n <= existing && n <= existing_counts
}

// All of the entry's tests, by the lists' lengths and those of the room for the rows.
fn check_records(
    lengths: Lengths,
    existing: usize,
    existing_counts: usize,
    parameters: &[f32],
    records: &[Card],
    settings: Settings,
) -> Result<(), Refusal>
    ensures tests { result ≡ check_settings (is_finite settings.retention)
        (lengths_ok settings.config (length records.now) (length records.now) lengths
        && has_room (length records.now) existing existing_counts) parameters.now settings.config (length records.now)
        (let good = first_where (record_bad records.now) (length records.now) 0 in
        fail_if (ltb good (length records.now)) (refusal.ExistingCard good) passed) }
    ensures fits { OnOk result ((length records.now < 4294967296) × (length records.now ≤ existing)
        × (length records.now ≤ existing_counts)) }
{
    let n = records.len();
    let long = lists_ok(settings.config, n, lengths, existing, existing_counts);
    let finite = float32::is_finite(settings.retention);
    entry::check_settings(parameters, settings.config, finite, long, n)?;
    match records.iter().position(|card| entry::is_bad(*card)) {
        Some(i) => Err(Refusal::ExistingCard(i as u32)),
        None => Ok(()),
    }
}

// How many of n records are copied: none where a test fails. As a value, so that a copy before the tests is refused for
// the number alone.
fn to_copy(tests: Result<(), Refusal>, n: usize) -> usize
    ensures { result ≡ copied tests n }
{
    match tests {
        Ok(()) => n,
        Err(_) => 0,
    }
}

// A run over records; `existing` and `existing_counts` are room for the records' rows, two lists as the core and C have
// them.
pub fn simulate(
    lists: &mut Lists<'_>,
    existing: &mut [CardRow],
    existing_counts: &mut [CountRow],
    parameters: &[f32],
    records: &[Card],
    settings: Settings,
) -> Result<Progress, Refused>
    ensures run { RecordsContract (record_inputs parameters.now records.now settings)
        (state (lent_of lists.old) 0 settings.seed) existing.old existing_counts.old result (lent_of lists.new)
        existing.new existing_counts.new }
    ensures same { SameLists lists.old lists.new }
{
    let tests = check_records(
        lists.lengths(),
        existing.len(),
        existing_counts.len(),
        parameters,
        records,
        settings,
    );
    let n = to_copy(tests, records.len());
    records::copy(&records[..n], existing, existing_counts);
    if let Err(refusal) = tests {
        return Err(Refused::at_entry(refusal, settings.seed));
    }
    let learner = Learner {
        parameters,
        existing: &existing[..records.len()],
        existing_counts: &existing_counts[..records.len()],
    };
    simulation::simulate(lists, learner, settings)
}
