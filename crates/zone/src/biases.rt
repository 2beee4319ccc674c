// Biases, in minutes: UTC = local + bias.
ghost use Rattle.std.specs.Prelude.{◌≡◌, ◌+ℤ◌};
ghost use Rattle.zone.specs.Biases.{in_bias_range};

pub fn in_bias_range(bias: i64) -> bool
    ensures { result ≡ in_bias_range bias }
{
    (-1440 <= bias) & (bias <= 1440)
}

// The sum of two biases as a whole number: 64 bits hold it.
pub fn sum_in_range(a: i32, b: i32) -> bool
    ensures { result ≡ in_bias_range (a +ℤ b) }
{
    in_bias_range(a as i64 + b as i64)
}
