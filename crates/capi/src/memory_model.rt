// The scalars of the memory model, from a list of its parameters.
ghost use Rattle.std.specs.Prelude.{◌≡◌};
ghost use Rattle.model.specs.Model as Model;
ghost use Rattle.capi.specs.State.{state_of};

use model::{Fsrs7Runtime, MemoryState};

#[unsafe(no_mangle)]
pub extern "C" fn drill_init_stability(w: &[f32], rating: u32) -> f32
    ensures { result ≡ Model.init_stability w.now rating }
{
    Fsrs7Runtime::new(w).init_stability(rating)
}

#[unsafe(no_mangle)]
pub extern "C" fn drill_init_difficulty(w: &[f32], rating: u32) -> f32
    ensures { result ≡ Model.init_difficulty w.now rating }
{
    Fsrs7Runtime::new(w).init_difficulty(rating)
}

#[unsafe(no_mangle)]
pub extern "C" fn drill_next_difficulty(w: &[f32], d: f32, rating: u32, retention: f32) -> f32
    ensures { result ≡ Model.next_difficulty w.now d rating retention }
{
    Fsrs7Runtime::new(w).next_difficulty(d, rating, retention)
}

#[unsafe(no_mangle)]
pub extern "C" fn drill_stability_after_success(
    w: &[f32],
    s: f32,
    r: f32,
    d: f32,
    rating: u32,
) -> f32
    ensures { result ≡ Model.stability_for_set w.now s d r rating 7 }
{
    Fsrs7Runtime::new(w).stability_after_success(s, r, d, rating)
}

#[unsafe(no_mangle)]
pub extern "C" fn drill_stability_after_failure(w: &[f32], s: f32, r: f32, d: f32) -> f32
    ensures { result ≡ Model.stability_for_set w.now s d r 1 7 }
{
    Fsrs7Runtime::new(w).stability_after_failure(s, r, d)
}

#[unsafe(no_mangle)]
pub extern "C" fn drill_stability_short_term(w: &[f32], s: f32, r: f32, d: f32, rating: u32) -> f32
    ensures { result ≡ Model.stability_for_set w.now s d r rating 7 }
{
    Fsrs7Runtime::new(w).stability_short_term(s, r, d, rating)
}

// C hands the state over as three numbers.
#[tactic(auto, unfolding(crate::specs::State::state_of))]
fn state_of(stability: f32, difficulty: f32, fast: f32) -> MemoryState
    ensures { result ≡ state_of stability difficulty fast }
{
    MemoryState {
        stability,
        difficulty,
        stability_fast: fast,
    }
}

#[unsafe(no_mangle)]
pub extern "C" fn drill_forgetting_curve(w: &[f32], t: f32, stability: f32) -> f32
    ensures { result ≡ Model.forgetting_curve (Model.curve_of w.now) t stability }
{
    Fsrs7Runtime::new(w).forgetting_curve(t, stability)
}

#[unsafe(no_mangle)]
pub extern "C" fn drill_forgetting_curve_for_state(
    w: &[f32],
    t: f32,
    stability: f32,
    difficulty: f32,
    fast: f32,
) -> f32
    ensures { result ≡ Model.retention (Model.curve_of w.now
        (state_of stability difficulty fast)) t }
{
    Fsrs7Runtime::new(w).forgetting_curve_for_state(t, state_of(stability, difficulty, fast))
}

// The solver's curve, and its derivative through a pointer.
#[unsafe(no_mangle)]
pub extern "C" fn drill_forgetting_curve_and_derivative(
    w: &[f32],
    t: f32,
    stability: f32,
    difficulty: f32,
    fast: f32,
    derivative: &mut f32,
) -> f32
    ensures value { result ≡ Model.solver_retention (Model.curve_of w.now
        (state_of stability difficulty fast)) t }
    ensures derivative_after { derivative.new
        ≡ Model.derivative (Model.curve_of w.now (state_of stability difficulty fast)) t }
{
    let slope = Fsrs7Runtime::new(w)
        .curve_for_state(state_of(stability, difficulty, fast))
        .retention_and_derivative(t);
    *derivative = slope.derivative;
    slope.retention
}

#[unsafe(no_mangle)]
pub extern "C" fn drill_next_interval_bisection(
    w: &[f32],
    stability: f32,
    difficulty: f32,
    fast: f32,
    desired: f32,
) -> f32
    ensures { result ≡ Model.next_interval_bisection (Model.curve_of w.now)
        (state_of stability difficulty fast) desired }
{
    Fsrs7Runtime::new(w).next_interval_bisection(state_of(stability, difficulty, fast), desired)
}

#[unsafe(no_mangle)]
pub extern "C" fn drill_next_interval_for_state(
    w: &[f32],
    stability: f32,
    difficulty: f32,
    fast: f32,
    desired: f32,
) -> f32
    ensures { result ≡ Model.next_interval_for_state (Model.curve_of w.now) (state_of stability difficulty fast)
        desired }
{
    Fsrs7Runtime::new(w).next_interval_for_state(state_of(stability, difficulty, fast), desired)
}

#[unsafe(no_mangle)]
pub extern "C" fn drill_next_interval(w: &[f32], stability: f32, desired: f32) -> f32
    ensures { result ≡ Model.next_interval (Model.curve_of w.now) stability desired }
{
    Fsrs7Runtime::new(w).next_interval(stability, desired)
}

#[unsafe(no_mangle)]
pub extern "C" fn drill_scheduled(w: &[f32], stability: f32, desired: f32, largest: f32) -> f32
    ensures { result ≡ Model.scheduled (Model.curve_of w.now) stability desired largest }
{
    Fsrs7Runtime::new(w).scheduled(stability, desired, largest)
}
