// exp, ln and powf of the crate `elementary` for C, under the same names: a static library exports its own functions
// alone. tools/elementary/elementary.h declares them.
#![tactic(auto)]

ghost use Rattle.std.specs.Prelude.{◌≡◌};
ghost use Rattle.elementary.specs.Exp.{exp_of};
ghost use Rattle.elementary.specs.Ln.{ln_of};
ghost use Rattle.elementary.specs.Pow.{pow_of};
ghost use Rattle.elementary.specs.Accuracy.{IsExp, IsLn, IsPow};

#[unsafe(no_mangle)]
pub extern "C" fn exp_f32(x: f32) -> f32
    ensures value { result ≡ exp_of x }
    ensures bound { IsExp x result }
{
    elementary::exp_f32(x)
}

#[unsafe(no_mangle)]
pub extern "C" fn ln_f32(x: f32) -> f32
    ensures value { result ≡ ln_of x }
    ensures bound { IsLn x result }
{
    elementary::ln_f32(x)
}

#[unsafe(no_mangle)]
pub extern "C" fn powf_f32(x: f32, y: f32) -> f32
    ensures value { result ≡ pow_of x y }
    ensures bound { IsPow x y result }
{
    elementary::powf_f32(x, y)
}
