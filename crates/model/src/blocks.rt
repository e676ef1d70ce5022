// The retentions of a block of up to 64 times. Each step of `Curve::retention` is a loop over the whole block:
// an array of 64 with a count beside, as in elementary's blocks, since there is no heap.
ghost use Rattle.std.specs.Prelude.{◌≡◌, ◌≤◌, min, get_or, slice_index_or};
ghost use Rattle.std.specs.Float.{nan};
ghost use Rattle.float32.specs.Ops.{◌+ᶠ◌, ◌*ᶠ◌, ◌/ᶠ◌};
ghost use Rattle.elementary.specs.Filled.{filled};
ghost use Rattle.model.specs.Model.{time, retention};
ghost use Rattle.model.specs.Model as Model;

use crate::forgetting_curve::{Curve, base, squeezed};
use elementary::{powers_of, up_to_64};
use float32::max;

impl Curve {
    // What stands under the two powers at each time.
    fn bases(self, b1: &mut [f32; 64], b2: &mut [f32; 64], times: &[f32; 64], n: usize)
        requires { n ≤ 64 }
        ensures first { b1.new
            ≡ filled (λ i. Model.base self.factor1 (time (slice_index_or times.now i nan)) self.fast) n
            b1.old }
        ensures second { b2.new ≡ filled (λ i. Model.base self.rate2 (time (slice_index_or times.now i nan))
            self.stability) n b2.old }
    {
        for i in 0..n {
            let t = max(times[i], 0.0);
            b1[i] = base(self.factor1, t, self.fast);
            b2[i] = base(self.rate2, t, self.stability);
        }
    }

    // The retentions, from the two powers.
    fn of_powers(self, r: &mut [f32; 64], p1: &[f32; 64], p2: &[f32; 64], n: usize)
        requires { n ≤ 64 }
        ensures { r.new
            ≡ filled (λ i. Model.squeezed
            ((self.weight1 *ᶠ get_or p1.now i nan +ᶠ self.weight2 *ᶠ get_or p2.now i nan) /ᶠ self.total)) n r.old }
    {
        for i in 0..n {
            r[i] = squeezed((self.weight1 * p1[i] + self.weight2 * p2[i]) / self.total);
        }
    }

    // The first n times of a, or all 64 where n is more, become the chances of recall after them.
    pub fn retentions(self, a: &mut [f32; 64], n: usize)
        ensures { a.new ≡ filled (λ i. retention self (slice_index_or a.old i nan)) (min n 64)
            a.old }
    {
        let mut b1: [f32; 64] = [0.0; 64];
        let mut b2: [f32; 64] = [0.0; 64];
        let n = up_to_64(n);
        self.bases(&mut b1, &mut b2, a, n);
        powers_of(&mut b1, self.decay1, n);
        powers_of(&mut b2, self.decay2, n);
        self.of_powers(a, &b1, &b2, n);
    }
}
