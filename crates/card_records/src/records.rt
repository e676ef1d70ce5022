// What is done with a lent list of records: they are copied to rows, or from rows.
ghost use Rattle.std.specs.Prelude.{◌≡◌, ◌<◌, length};
ghost use Rattle.elementary.specs.Filled.{filled};
ghost use Rattle.cards.specs.Cards.{card_at};
ghost use Rattle.card_records.specs.Records.{floats_at, counts_at};

use cards::{Card, CardRow, CountRow};

// The records, each to its row.
pub(crate) fn copy(records: &[Card], existing: &mut [CardRow], existing_counts: &mut [CountRow])
    requires { length records.now < 4294967296 }
    ensures floats { existing.new ≡ filled (floats_at records.now) (length records.now) existing.old }
    ensures counts { existing_counts.new ≡ filled (counts_at records.now) (length records.now) existing_counts.old }
{
    for (i, card) in records.iter().enumerate() {
        cards::write_floats(existing, i as u32, *card);
        cards::write_counts(existing_counts, i as u32, *card);
    }
}

// The first n cards of a run as records, as many as there is room for; `n` is the answer's number of cards. By place,
// not by a zip of the range with the records: tried, and inside such a loop the proof knows nothing of the records that
// are written already.
pub fn read_back(cards: &[CardRow], counts: &[CountRow], records: &mut [Card], n: u32)
    ensures { records.new ≡ filled (card_at cards.now counts.now) n records.old }
{
    for i in 0..(n as usize).min(records.len()) {
        records[i] = cards::card_at(cards, counts, i as u32);
    }
}
