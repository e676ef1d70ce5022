// The interval after which a card's retention is the desired one: Newton's method on the logarithm of the time, and
// bisection where it fails.
ghost use Rattle.std.specs.Prelude.{◌≡◌, true, ◌&&◌};
ghost use Rattle.std.specs.Float.Ieee.{lt};
ghost use Rattle.float32.specs.Numbers.{0ᶠ};
ghost use Rattle.model.specs.Constants.{s_max};
ghost use Rattle.model.specs.Model as Model;
ghost use Rattle.model.specs.Runtime as Runtime;

use crate::forgetting_curve::{Curve, MemoryState, of_stability};
use crate::parameters::Fsrs7Runtime;
use elementary::{exp_f32, ln_f32};
use float32::{abs, clamp, is_finite, max, min, round, to_bits};

// The least and the largest retention that is solved for, and one second in days.
const DR_MIN: f32 = 0.0001;

const DR_MAX: f32 = 0.9999;

const MIN_T: f32 = 0.000011574074;

// Whether two floats are the same one: 0.0 and -0.0 are two, and NaN is one.
fn same(x: f32, y: f32) -> bool
    ensures { (result ≡ true → x ≡ y) × (x ≡ y → result ≡ true) }
{
    to_bits(x) == to_bits(y)
}

#[tactic(auto, using(crate::proofs::Numbers::literals), unfolding(crate::specs::Model::within_limits))]
fn within_limits(state: MemoryState) -> MemoryState
    ensures { result ≡ Model.within_limits state }
{
    MemoryState {
        stability: clamp(state.stability, Fsrs7Runtime::S_MIN, Fsrs7Runtime::S_MAX),
        difficulty: clamp(state.difficulty, Fsrs7Runtime::D_MIN, Fsrs7Runtime::D_MAX),
        stability_fast: clamp(
            state.stability_fast,
            Fsrs7Runtime::S_MIN,
            Fsrs7Runtime::S_MAX,
        ),
    }
}

impl Curve {
    // ---- bisection

    #[tactic(auto, using(crate::proofs::Numbers::literals))]
    fn stays_above(self, desired: f32, high: f32) -> bool
        ensures { result ≡ lt desired (Model.retention self high) && lt high s_max }
    {
        self.retention(high) > desired && high < Fsrs7Runtime::S_MAX
    }

    // The upper end, doubled while the curve there is above the desired retention.
    fn doubled(self, desired: f32, start: f32) -> f32
        ensures { result ≡ Model.doubled 16 (Model.retention self) desired start }
    {
        let mut high = start;
        for _ in 0..16_u32 {
            if !self.stays_above(desired, high) {
                return high;
            }
            high = min(high * 2.0, Fsrs7Runtime::S_MAX);
        }
        high
    }

    // Fifty halvings of the part from 0 to high, and the middle of what is left.
    fn halved(self, desired: f32, end: f32) -> f32
        ensures { result ≡ Model.halved 50 (Model.retention self) desired 0ᶠ end }
    {
        let mut low = 0.0;
        let mut high = end;
        for _ in 0..50_u32 {
            let middle = (low + high) * 0.5;
            if self.retention(middle) > desired {
                low = middle;
            } else {
                high = middle;
            }
        }
        clamp((low + high) * 0.5, 0.0, Fsrs7Runtime::S_MAX)
    }

    // The interval by bisection, between 0 and a doubled top.
    #[tactic(auto, using(crate::proofs::Numbers::literals), unfolding(crate::specs::Model::bisected))]
    fn bisected(self, top: f32, desired: f32) -> f32
        ensures { result ≡ Model.bisected self top desired }
    {
        let r = clamp(desired, DR_MIN, DR_MAX);
        if r >= DR_MAX {
            0.0
        } else {
            self.halved(r, self.doubled(r, max(top, 1.0)))
        }
    }

    // ---- Newton's method

    // A step from the logarithm u, which is kept from `least` to `most`.
    #[tactic(auto, using(crate::proofs::Numbers::literals), unfolding(crate::specs::Model::step_within))]
    fn newton_step(self, least: f32, most: f32, desired: f32, u: f32) -> f32
        ensures { result ≡ Model.step_within least most self desired u }
    {
        let u = clamp(u, least, most);
        let t = clamp(exp_f32(u), MIN_T, Fsrs7Runtime::S_MAX);
        let slope = self.retention_and_derivative(t);
        let df_du = min(slope.derivative * t, -0.000000000001);
        u - clamp((slope.retention - desired) / df_du, -4.0, 4.0)
    }

    // Seven steps, but none after one that is not finite. One that changes nothing ends them: so would all after it.
    fn newton(self, desired: f32, start: f32) -> f32
        ensures { result ≡ Model.newton 7 (Model.newton_step self desired) start }
    {
        let least = ln_f32(MIN_T);
        let most = ln_f32(Fsrs7Runtime::S_MAX);
        let mut u = start;
        for _ in 0..7_u32 {
            let next = self.newton_step(least, most, desired, u);
            if same(next, u) || !is_finite(next) {
                return next;
            }
            u = next;
        }
        u
    }

    #[tactic(auto, using(crate::proofs::Numbers::literals), unfolding(crate::specs::Model::near_enough))]
    fn near_enough(self, desired: f32, interval: f32) -> bool
        ensures { result ≡ Model.near_enough self desired interval }
    {
        let r = self.retention(interval);
        is_finite(r) && abs(r - desired) <= 0.001
    }

    // What Newton's steps come to where they stay finite and come near enough, or else bisection.
    #[tactic(auto, using(crate::proofs::Numbers::literals), unfolding(crate::specs::Model::solved))]
    fn solved(self, top: f32, desired: f32) -> f32
        ensures { result ≡ Model.solved self top desired }
    {
        let u = self.newton(desired, ln_f32(max(top, MIN_T)));
        let interval = clamp(exp_f32(u), 0.0, Fsrs7Runtime::S_MAX);
        if is_finite(u) && self.near_enough(desired, interval) {
            interval
        } else {
            self.bisected(top, desired)
        }
    }
}

impl Fsrs7Runtime {
    #[tactic(auto, unfolding(crate::specs::Model::next_interval_bisection))]
    pub fn next_interval_bisection(self, state: MemoryState, desired: f32) -> f32
        ensures { result ≡ Model.next_interval_bisection (Runtime.curve_of self) state desired }
    {
        self.curve_for_state(state)
            .bisected(max(state.stability, state.stability_fast), desired)
    }

    #[tactic(auto, using(crate::proofs::Numbers::literals), unfolding(crate::specs::Model::next_interval_for_state))]
    pub fn next_interval_for_state(self, state: MemoryState, desired: f32) -> f32
        ensures { result ≡ Model.next_interval_for_state (Runtime.curve_of self) state desired }
    {
        let r = clamp(desired, DR_MIN, DR_MAX);
        if r >= DR_MAX {
            0.0
        } else {
            let state = within_limits(state);
            self.curve_for_state(state)
                .solved(max(state.stability, state.stability_fast), r)
        }
    }

    #[tactic(auto, unfolding(crate::specs::Model::next_interval))]
    pub fn next_interval(self, stability: f32, desired: f32) -> f32
        ensures { result ≡ Model.next_interval (Runtime.curve_of self) stability desired }
    {
        self.next_interval_for_state(of_stability(stability), desired)
    }

    // The interval that is scheduled, in whole days from 1 to the largest.
    #[tactic(auto, using(crate::proofs::Numbers::literals), unfolding(crate::specs::Model::scheduled))]
    pub fn scheduled(self, stability: f32, desired: f32, largest: f32) -> f32
        ensures { result ≡ Model.scheduled (Runtime.curve_of self) stability desired largest }
    {
        clamp(round(self.next_interval(stability, desired)), 1.0, largest)
    }
}
