// The cheapest retention of a text: its settings read, the search made, the answer written.
#![tactic(auto)]

ghost use Rattle.std.specs.Prelude.{◌≡◌};
ghost use Rattle.report.specs.Lines.{placed, written};
ghost use Rattle.retention.specs.Retention.{optimum_of};
ghost use Rattle.cheapest_text.specs.Cheapest.{cheapest_search, answer_text, cheapest_text};

use entry::{Learner, Lists, Refusal, refusals};
use forecast_text::settings;
use retention::Optimum;
use settings_text::Settings;

// The search over settings, in 64 rounds at the most. Its lists stand here as in forecast_text.
fn search(set: Settings) -> Result<Optimum, Refusal>
    ensures { result ≡ optimum_of (cheapest_search set).answer }
{
    let mut lists = Lists {
        cards: &mut [[0.0; 6]; 512],
        counts: &mut [[0; 2]; 512],
        queue_rows: &mut [[0; 2]; 512],
        days: &mut [[0; 4]; 730],
        costs: &mut [0.0; 730],
        memorized: &mut [0.0; 730],
        due: &mut [0; 1095],
        keys: &mut [[0; 2]; 4096],
        intervals: &mut [0.0; 4096],
    };
    let parameters = settings::floats_of(&set.parameters);
    let learner = Learner {
        parameters: &parameters[..settings::parameter_count(set)],
        existing: &[],
        existing_counts: &[],
    };
    // the search tries its own retentions with its own seeds
    let settings = entry::Settings {
        config: settings::config_of(set),
        retention: 0.0,
        seed: 0,
    };
    retention::optimal_retention(&mut lists, learner, settings, 64)
}

#[tactic(auto, unfolding(crate::specs::Cheapest::answer_text))]
fn write_answer(out: &mut [u8], answer: Result<Optimum, Refusal>) -> Option<usize>
    ensures { (result ≡ placed out.old 0 (answer_text answer))
        × (out.new ≡ written out.old 0 (answer_text answer)) }
{
    match answer {
        Ok(x) => report::write_cheapest(out, 0, x.retention, x.rounds, x.mean),
        Err(refusal) => {
            let number = refusals::number_of(refusal);
            let second = refusals::second_of(refusal);
            report::write_refused(out, 0, number, second)
        }
    }
}

// The cheapest retention of a text, as text: one line, whole or not at all; 90 bytes are room enough.
pub fn cheapest(out: &mut [u8], text: &[u8]) -> Option<usize>
    ensures { (result ≡ placed out.old 0 (cheapest_text text.now))
        × (out.new ≡ written out.old 0 (cheapest_text text.now)) }
{
    let reading = settings_text::reader::read(text, settings::default_settings());
    match reading.verdict {
        Err(e) => report::write_refused(out, 0, e.number(), e.second()),
        Ok(()) => write_answer(out, search(reading.settings)),
    }
}
