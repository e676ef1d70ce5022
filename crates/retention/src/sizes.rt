// How many runs a trial has.
ghost use Rattle.std.specs.Prelude.{◌≡◌};
ghost use Rattle.retention.specs.SampleSize.{factor_of, sampled_by, sample_size};

fn factor_of(n: f32) -> f32
    ensures { result ≡ factor_of n }
{
    float32::mul_add(
        elementary::powf_f32(n, 2.0),
        0.00000082,
        n * 0.00241 + 0.013,
    )
}

fn sampled_by(n: f32) -> u32
    ensures { result ≡ sampled_by n }
{
    float32::to_u32(float32::round(16.0 / factor_of(n)))
}

// By the days of the span: fewer where a run is longer.
pub fn sample_size(span: u32) -> u32
    ensures { result ≡ sample_size span }
{
    if span <= 30 {
        180
    } else if span < 365 {
        sampled_by(float32::from_u32(span))
    } else {
        16
    }
}
