// What a text forecasts: its settings read, the run made, the answer written.
#![tactic(auto)]

ghost use Rattle.std.specs.Prelude.{◌≡◌, ◌++◌, ◌≤◌, length};
ghost use Rattle.report.specs.Lines.{forecast_line};
ghost use Rattle.report.specs.Rows.{Covers, day_lines};
ghost use Rattle.forecast_text.specs.Settings.{most_span};
ghost use Rattle.forecast_text.specs.Forecast.{RunDays, Printed, run_with, room, run_text};
ghost use Rattle.forecast_text.specs.Forecast.{forecast_text, printed, left};

use days::DayRow;
use entry::{Learner, Lists, refusals};
use report::Rows;
use settings_text::Settings;
use simulation::{Progress, Refused};

pub mod settings;

// The run of settings, its days in the lent lists. The other lists stand here as in cheapest_text: one function that
// lends them all was tried, and its borrows are not proved.
fn run(
    days: &mut [DayRow],
    costs: &mut [f32],
    memorized: &mut [f32],
    set: Settings,
) -> Result<Progress, Refused>
    ensures { RunDays (run_with days.old costs.old memorized.old set) result
        days.new costs.new memorized.new }
{
    let mut lists = Lists {
        cards: &mut [[0.0; 6]; 512],
        counts: &mut [[0; 2]; 512],
        queue_rows: &mut [[0; 2]; 512],
        days,
        costs,
        memorized,
        due: &mut [0; 1095],
        keys: &mut [[0; 2]; 4096],
        intervals: &mut [0.0; 4096],
    };
    let parameters = settings::floats_of(&set.parameters);
    let learner = Learner {
        parameters: &parameters[..settings::parameter_count(set)],
        existing: &[],
        existing_counts: &[],
    };
    let settings = entry::Settings {
        config: settings::config_of(set),
        retention: float32::from_bits(set.retention),
        seed: set.seed,
    };
    simulation::simulate(&mut lists, learner, settings)
}

// A run that ended Ok: its first line, and a line a day.
fn write_run(out: &mut [u8], rows: Rows<'_>, span: u32, turns: u32, cards: u32) -> Option<usize>
    requires { (room ≤ length out.old) × ((span ≤ most_span) × Covers rows span) }
    ensures { Printed out.old (forecast_line span turns cards ++ day_lines rows.entry.days.now
        rows.entry.costs.now rows.entry.memorized.now 0 span) result out.new }
{
    let at = report::write_forecast(out, 0, span, turns, cards)?;
    report::write_days(out, at, rows, span)
}

// The run of settings, made and written.
fn forecast_settings(out: &mut [u8], set: Settings) -> Option<usize>
    requires { room ≤ length out.old }
    ensures { Printed out.old (run_text set) result out.new }
{
    let mut days = [[0; 4]; 730];
    let mut costs = [0.0; 730];
    let mut memorized = [0.0; 730];
    let answer = run(&mut days, &mut costs, &mut memorized, set);
    let span = settings::span_of(set);
    match answer {
        Ok(p) => {
            let rows = Rows {
                days: &days,
                costs: &costs,
                memorized: &memorized,
            };
            write_run(out, rows, span, p.turns, p.cards)
        }
        Err(refused) => {
            let number = refusals::number_of(refused.refusal);
            let second = refusals::second_of(refused.refusal);
            report::write_refused(out, 0, number, second)
        }
    }
}

// What a text forecasts, as text: what is read gives what is written.
pub fn forecast(out: &mut [u8], text: &[u8]) -> Option<usize>
    ensures { (result ≡ printed out.old (forecast_text text.now))
        × (out.new ≡ left out.old (forecast_text text.now)) }
{
    if out.len() < 133680 {
        return None;
    }
    let reading = settings_text::reader::read(text, settings::default_settings());
    match reading.verdict {
        Err(e) => report::write_refused(out, 0, e.number(), e.second()),
        Ok(()) => forecast_settings(out, reading.settings),
    }
}
