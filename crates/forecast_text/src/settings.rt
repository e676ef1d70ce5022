// The values that missing forms take, and settings as a run's inputs.
ghost use Rattle.std.specs.Prelude.{◌≡◌, false, cond, length, get_or};
ghost use Rattle.forecast_text.specs.Settings.{default_config, bits_of, floats_of, default_settings, most_span};
ghost use Rattle.forecast_text.specs.Settings.{zero_above, config_of};

use cards::SimulatorConfig;
use model::defaults;
use settings_text::Settings;

// `SimulatorConfig::default`.
pub fn default_config() -> SimulatorConfig
    ensures { result ≡ default_config }
{
    SimulatorConfig {
        deck_size: 10000,
        learn_span: 365,
        max_cost_perday: 1800.0,
        max_ivl: 36500.0,
        first_rating_prob: defaults::first_rating_prob(),
        review_rating_prob: defaults::review_rating_prob(),
        learn_limit: 4294967295,
        review_limit: 4294967295,
        new_cards_ignore_review_limit: true,
        suspend_after_lapses: 4294967295,
        learning_step_transitions: defaults::learning_step_transitions(),
        relearning_step_transitions: defaults::relearning_step_transitions(),
        state_rating_costs: defaults::state_rating_costs(),
        learning_step_count: 2,
        relearning_step_count: 1,
    }
}

// Floats as W. Not `map`: it asks a bound on N, which each caller would then have to show.
fn bits_of<const N: usize>(xs: &[f32; N]) -> [u32; N]
    ensures { result ≡ bits_of xs.now }
{
    let mut bits = [0; N];
    for i in 0..N {
        bits[i] = float32::to_bits(xs[i]);
    }
    bits
}

// And back.
pub fn floats_of<const N: usize>(bits: &[u32; N]) -> [f32; N]
    ensures { (length result ≡ N) × (result ≡ floats_of bits.now) }
{
    let mut floats = [0.0; N];
    for i in 0..N {
        floats[i] = float32::from_bits(bits[i]);
    }
    floats
}

// What missing forms take.
#[tactic(auto, unfolding(crate::specs::Settings::default_settings))]
pub fn default_settings() -> Settings
    ensures { result ≡ default_settings }
{
    let config = default_config();
    Settings {
        deck: config.deck_size,
        span: config.learn_span,
        seed: 42,
        learn: config.learn_limit,
        review: config.review_limit,
        retention: 0x3f66_6666,
        maxcost: float32::to_bits(config.max_cost_perday),
        first: bits_of(&config.first_rating_prob),
        cost: bits_of(&config.state_rating_costs),
        parameters: [0; 34],
        seen: [false; 10],
    }
}

// n, or 0 where it is above `most`: the run itself then refuses it, in the order of its refusals.
fn zero_above(most: u32, n: u32) -> u32
    ensures { result ≡ zero_above most n }
{
    if most < n { 0 } else { n }
}

#[tactic(auto, unfolding(crate::specs::Settings::config_of))]
pub fn config_of(set: Settings) -> SimulatorConfig
    ensures { result ≡ config_of set }
{
    SimulatorConfig {
        deck_size: zero_above(512, set.deck),
        learn_span: span_of(set),
        max_cost_perday: float32::from_bits(set.maxcost),
        first_rating_prob: floats_of(&set.first),
        learn_limit: set.learn,
        review_limit: set.review,
        state_rating_costs: floats_of(&set.cost),
        ..default_config()
    }
}

pub fn span_of(set: Settings) -> u32
    ensures { result ≡ zero_above most_span set.span }
{
    zero_above(730, set.span)
}

// How many of the parameters are there: 34, or none where their form is missing.
pub fn parameter_count(set: Settings) -> usize
    ensures { result ≡ cond (get_or set.seen 0 false) 34 0 }
{
    if set.seen[0] { 34 } else { 0 }
}
