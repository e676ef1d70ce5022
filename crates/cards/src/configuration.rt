// The configuration of a run, and what is asked of it.
ghost use Rattle.std.specs.Prelude.{◌≡◌, not, ◌&&◌, [], ◌∷◌};
ghost use Rattle.std.specs.Float.Ieee.{eq};
ghost use Rattle.float32.specs.Float32.{is_finite};
ghost use Rattle.float32.specs.Numbers.{0ᶠ};
ghost use Rattle.cards.specs.Config.{row_of, amount_ok, amounts_ok, weights_ok, transitions_ok, costs_ok};
ghost use Rattle.cards.specs.Config.{interval_ok, config_ok};

const LONGEST_INTERVAL: f32 = 36500.0;

// `SimulatorConfig` of the Rust without its callbacks, as the C interface hands it over: a limit of 4294967295 is none;
// rows of four stand one after the other.
#[repr(C)]
#[derive(Clone, Copy)]
pub struct SimulatorConfig {
    pub deck_size: u32,
    pub learn_span: u32,
    pub max_cost_perday: f32,
    pub max_ivl: f32,
    pub first_rating_prob: [f32; 4],
    pub review_rating_prob: [f32; 3],
    pub learn_limit: u32,
    pub review_limit: u32,
    pub new_cards_ignore_review_limit: bool,
    pub suspend_after_lapses: u32,
    pub learning_step_transitions: [f32; 12],
    pub relearning_step_transitions: [f32; 12],
    pub state_rating_costs: [f32; 12],
    pub learning_step_count: u32,
    pub relearning_step_count: u32,
}

// The rows of a table, which stand one after the other.
#[tactic(auto, using(crate::proofs::Rows::rows_are))]
fn rows_of(table: &[f32; 12]) -> &[[f32; 4]]
    ensures { result.now ≡ row_of table.now 0 ∷ row_of table.now 1 ∷ row_of table.now 2 ∷ [] }
{
    table.as_chunks::<4>().0
}

// Row i of a table; row 3 and on are NaN.
pub fn row_of(table: [f32; 12], i: u32) -> [f32; 4]
    ensures { result ≡ row_of table i }
{
    rows_of(&table)
        .get(i as usize)
        .copied()
        .unwrap_or([f32::NAN; 4])
}

#[tactic(auto, unfolding(crate::specs::Config::amount_ok))]
fn amount_ok(x: f32) -> bool
    ensures { result ≡ amount_ok x }
{
    float32::is_finite(x) && !(x < 0.0)
}

fn amounts_ok(row: &[f32]) -> bool
    ensures { result ≡ amounts_ok row.now }
{
    row.iter().copied().all(amount_ok)
}

// Whether `sum`, of finite weights, is finite and not 0.
fn sum_ok(sum: f32) -> bool
    ensures { result ≡ is_finite sum && not (eq sum 0ᶠ) }
{
    float32::is_finite(sum) && sum != 0.0
}

#[tactic(auto, unfolding(crate::specs::Config::weights_ok))]
fn weights_ok(row: &[f32]) -> bool
    ensures { result ≡ weights_ok row.now }
{
    amounts_ok(row) && sum_ok(draws::total(row))
}

#[tactic(auto, using(crate::proofs::Rows::all_three), unfolding(crate::specs::Config::transitions_ok))]
fn transitions_ok(table: [f32; 12]) -> bool
    ensures { result ≡ transitions_ok table }
{
    rows_of(&table).iter().all(|row| weights_ok(row))
}

#[tactic(auto, using(crate::proofs::Rows::all_three), unfolding(crate::specs::Config::costs_ok))]
fn costs_ok(table: [f32; 12]) -> bool
    ensures { result ≡ costs_ok table }
{
    rows_of(&table).iter().all(|row| amounts_ok(row))
}

fn interval_ok(x: f32) -> bool
    ensures { result ≡ interval_ok x }
{
    x >= 1.0 && x <= LONGEST_INTERVAL
}

#[tactic(auto, unfolding(crate::specs::Config::config_ok))]
pub fn config_ok(config: SimulatorConfig) -> bool
    ensures { result ≡ config_ok config }
{
    weights_ok(&config.first_rating_prob)
        && weights_ok(&config.review_rating_prob)
        && transitions_ok(config.learning_step_transitions)
        && transitions_ok(config.relearning_step_transitions)
        && costs_ok(config.state_rating_costs)
        && !float32::is_nan(config.max_cost_perday)
        && interval_ok(config.max_ivl)
}
