// The forgetting curve of a memory state: two powers of the time, weighted.
ghost use Rattle.std.specs.Prelude.{◌≡◌, ◌*◌, ◌/◌, ◌^◌, ◌≤◌, true, false};
ghost use Rattle.std.specs.Float.Ieee as Ieee;
ghost use Rattle.std.specs.Float.{binary32, binary64};
ghost use Rattle.float32.specs.Numbers.{1ᶠ};
ghost use Rattle.float32.specs.Encoding.{significand, exponent};
ghost use Rattle.model.specs.Model as Model;
ghost use Rattle.model.specs.Accuracy.{InRange, IsRetention};
ghost use Rattle.model.specs.Runtime as Runtime;

use crate::parameters::{CurveParameters, Fsrs7Runtime};
use elementary::{exp_f32, powf_f32};
use float32::{clamp, max, min, mul_add};

#[derive(Clone, Copy)]
pub struct MemoryState {
    pub stability: f32,
    pub difficulty: f32,
    pub stability_fast: f32,
}

#[derive(Clone, Copy)]
pub struct Curve {
    pub stability: f32,
    pub fast: f32,
    pub decay1: f32,
    pub factor1: f32,
    pub decay2: f32,
    pub factor2: f32,
    pub timescale: f32,
    pub rate2: f32,
    pub weight1: f32,
    pub weight2: f32,
    pub total: f32,
}

// The solver's retention at a time, and its derivative.
#[derive(Clone, Copy)]
pub struct Slope {
    pub retention: f32,
    pub derivative: f32,
}

#[tactic(auto, using(crate::proofs::Numbers::literals))]
pub(crate) fn decay_of(x: f32) -> f32
    ensures { result ≡ Model.decay_of x }
{
    -clamp(x, 0.01, 0.95)
}

#[tactic(auto, unfolding(crate::specs::Runtime::decay1))]
fn decay1(p: CurveParameters, fast: f32) -> f32
    ensures { result ≡ Runtime.decay1 p fast }
{
    decay_of(p.w23 * powf_f32(fast, p.power))
}

#[tactic(auto, using(crate::proofs::Numbers::literals), unfolding(crate::specs::Runtime::factor1))]
fn factor1(p: CurveParameters, decay: f32) -> f32
    ensures { result ≡ Runtime.factor1 p decay }
{
    exp_f32(min(p.log / decay, 60.0)) - 1.0
}

#[tactic(auto, using(crate::proofs::Numbers::literals), unfolding(crate::specs::Runtime::d_timescale))]
fn d_timescale(p: CurveParameters, d: f32) -> f32
    ensures { result ≡ Runtime.d_timescale p d }
{
    exp_f32((d - 5.0) * p.pace)
}

#[tactic(auto, unfolding(crate::specs::Runtime::weight1))]
fn weight1(p: CurveParameters, fast: f32) -> f32
    ensures { result ≡ Runtime.weight1 p fast }
{
    p.w27 * powf_f32(fast, p.decline)
}

#[tactic(auto, using(crate::proofs::Numbers::literals), unfolding(crate::specs::Runtime::weight2))]
fn weight2(p: CurveParameters, s: f32, d: f32) -> f32
    ensures { result ≡ Runtime.weight2 p s d }
{
    p.w28 * powf_f32(s, p.w30) * exp_f32((d - 5.0) * p.weight)
}

// The curve at stabilities and a difficulty within their limits.
#[tactic(auto, unfolding(crate::specs::Runtime::curve_at))]
fn curve_at(p: CurveParameters, s: f32, d: f32, fast: f32) -> Curve
    ensures { result ≡ Runtime.curve_at p s d fast }
{
    let decay1 = decay1(p, fast);
    let factor1 = factor1(p, decay1);
    let timescale = d_timescale(p, d);
    let weight1 = weight1(p, fast);
    let weight2 = weight2(p, s, d);
    Curve {
        stability: s,
        fast,
        decay1,
        factor1,
        decay2: p.decay,
        factor2: p.factor,
        timescale,
        rate2: p.factor * timescale,
        weight1,
        weight2,
        total: weight1 + weight2,
    }
}

// What stands under a power.
#[tactic(auto, using(crate::proofs::Numbers::literals), unfolding(crate::specs::Model::base))]
pub(crate) fn base(factor: f32, t: f32, s: f32) -> f32
    ensures { result ≡ Model.base factor t s }
{
    1.0 + factor * (t / s)
}

// A retention kept off 0 and 1, rounded once.
#[tactic(auto, using(crate::proofs::Numbers::literals), unfolding(crate::specs::Model::squeezed))]
pub(crate) fn squeezed(r: f32) -> f32
    ensures { result ≡ Model.squeezed r }
{
    if r >= 0.000001 && r <= 1.0 {
        squeezed_exact(r)
    } else {
        mul_add(r, 0.99998, 0.00001)
    }
}

// The same from 10^-6 to 1: there the sum is exact in `f64`, and only its rounding to an `f32` is left.
// `as` widens, not `f64::from`, which looks for a NaN first: none comes here.
fn squeezed_exact(r: f32) -> f32
    requires least { Ieee.le (Ieee.round binary32 false 1 1000000) r ≡ true }
    requires most { Ieee.le r 1ᶠ ≡ true }
    ensures { result ≡ Model.squeezed r }
{
    let inner: f32 = 0.99998;
    let edge: f32 = 0.00001;
    nearest_f32(f64::to_bits((r as f64) * (inner as f64) + (edge as f64)))
}

// The `f32` nearest to the `f64` of this pattern, and of two the even one. The exponents are 896 apart, and a carry
// out of the digits goes into the exponent.
fn nearest_f32(b: u64) -> f32
    requires least { 897 ≤ b / 2 ^ 52 }
    requires most { b / 2 ^ 52 ≤ 1149 }
    ensures { result ≡ Ieee.round binary32 false (significand binary64 b * 2 ^ exponent binary64 b) (2 ^ 1074) }
{
    f32::from_bits(((b + 268435455 + b / 536870912 % 2) / 536870912 - 7516192768) as u32)
}

impl Curve {
    #[tactic(auto, unfolding(crate::specs::Model::weighted))]
    fn weighted(self, t: f32) -> f32
        ensures { result ≡ Model.weighted self t }
    {
        self.weight1 * powf_f32(base(self.factor1, t, self.fast), self.decay1)
            + self.weight2 * powf_f32(base(self.rate2, t, self.stability), self.decay2)
    }

    // The chance of recall after t days.
    pub fn retention(self, t: f32) -> f32
        ensures value { result ≡ Model.retention self t }
        ensures bound { InRange self t → IsRetention self t result }
    {
        squeezed(self.weighted(max(t, 0.0)) / self.total)
    }

    #[tactic(auto, using(crate::proofs::Numbers::literals), unfolding(crate::specs::Model::dr1))]
    fn dr1_dt(self, t: f32) -> f32
        ensures { result ≡ Model.dr1 self t }
    {
        self.decay1 * powf_f32(base(self.factor1, t, self.fast), self.decay1 - 1.0) * self.factor1
            / self.fast
    }

    #[tactic(auto, using(crate::proofs::Numbers::literals), unfolding(crate::specs::Model::dr2))]
    fn dr2_dt(self, t: f32) -> f32
        ensures { result ≡ Model.dr2 self t }
    {
        self.decay2
            * powf_f32(base(self.rate2, t, self.stability), self.decay2 - 1.0)
            * self.factor2
            * self.timescale
            / self.stability
    }

    // The solver's sum of the weights.
    #[tactic(auto, using(crate::proofs::Numbers::literals), unfolding(crate::specs::Model::weight_sum))]
    fn weight_sum(self) -> f32
        ensures { result ≡ Model.weight_sum self }
    {
        max(self.total, 0.000000001)
    }

    // The solver's chance of recall after t days, and its derivative.
    #[tactic(auto, using(crate::proofs::Numbers::literals), unfolding(crate::specs::Model::solver_retention, crate::specs::Model::derivative, crate::specs::Model::weighted_slope))]
    pub fn retention_and_derivative(self, t: f32) -> Slope
        ensures { (result.retention ≡ Model.solver_retention self t) × (result.derivative ≡ Model.derivative self t) }
    {
        let t = max(t, 0.0);
        let weight_sum = self.weight_sum();
        let slope = self.weight1 * self.dr1_dt(t) + self.weight2 * self.dr2_dt(t);
        Slope {
            retention: squeezed(self.weighted(t) / weight_sum),
            derivative: slope / weight_sum * 0.99998,
        }
    }
}

#[tactic(auto, using(crate::proofs::Numbers::literals), unfolding(crate::specs::Model::of_stability))]
pub(crate) fn of_stability(s: f32) -> MemoryState
    ensures { result ≡ Model.of_stability s }
{
    MemoryState {
        stability: s,
        difficulty: 5.0,
        stability_fast: s,
    }
}

impl Fsrs7Runtime {
    // The curve of a memory state.
    #[tactic(auto, using(crate::proofs::Numbers::literals), unfolding(crate::specs::Runtime::curve_of))]
    pub fn curve_for_state(self, state: MemoryState) -> Curve
        ensures { result ≡ Runtime.curve_of self state }
    {
        curve_at(
            self.curve,
            max(state.stability, Self::S_MIN),
            clamp(state.difficulty, Self::D_MIN, Self::D_MAX),
            max(state.stability_fast, Self::S_MIN),
        )
    }

    // The curve of one stability: difficulty 5, and the fast stability the same.
    pub fn curve(self, stability: f32) -> Curve
        ensures { result ≡ Runtime.curve_of self (Model.of_stability stability) }
    {
        self.curve_for_state(of_stability(stability))
    }

    pub fn forgetting_curve_for_state(self, t: f32, state: MemoryState) -> f32
        ensures { result ≡ Model.retention (Runtime.curve_of self state) t }
    {
        self.curve_for_state(state).retention(t)
    }

    pub fn forgetting_curve(self, t: f32, stability: f32) -> f32
        ensures { result ≡ Model.forgetting_curve (Runtime.curve_of self) t stability }
    {
        self.curve(stability).retention(t)
    }
}
