// The bias sums of a rule, and ticks moved by a bias, in minutes: UTC = local + bias.
ghost use Rattle.std.specs.Prelude.{◌≡◌, ◌≤◌, true, ◌+ℤ◌};
ghost use Rattle.zone.specs.Biases.{in_bias_range};
ghost use Rattle.zone.specs.Rules.{standard_sum, daylight_sum};
ghost use Rattle.in_force.specs.Biases.{plus_bias, less_bias};
ghost use Rattle.in_force.specs.Steps.{raised_bias};

use zone::rules::Rule;

// The sum of two biases, where it is in range.
pub fn bias_sum(a: i32, b: i32) -> i32
    requires { in_bias_range (a +ℤ b) ≡ true }
    ensures { result ≡ a +ℤ b }
{
    a + b
}

// Bias + StandardBias, in force in standard time.
pub fn standard_sum(rule: Rule) -> i32
    requires { in_bias_range (standard_sum rule) ≡ true }
    ensures { result ≡ standard_sum rule }
{
    bias_sum(rule.bias, rule.standard_bias)
}

// Bias + DaylightBias, in force in daylight time.
pub fn daylight_sum(rule: Rule) -> i32
    requires { in_bias_range (daylight_sum rule) ≡ true }
    ensures { result ≡ daylight_sum rule }
{
    bias_sum(rule.bias, rule.daylight_bias)
}

// A bias plus 1440, which is never below zero.
fn raised(bias: i32) -> u64
    requires { in_bias_range bias ≡ true }
    ensures { (result ≡ raised_bias bias) × (result ≤ 2880) }
{
    (bias + 1440) as u64
}

// A local tick plus a bias: UTC.
pub fn plus_bias(tick: u64, bias: i32) -> u64
    requires { (in_bias_range bias ≡ true) × (tick ≤ 18000000000000000000) }
    ensures { result ≡ plus_bias tick bias }
{
    (tick + raised(bias) * 600000000).saturating_sub(864000000000)
}

// A UTC tick less a bias: local. A bias is at most a day, so that from the second day on no difference is cut off at 0.
pub fn less_bias(tick: u64, bias: i32) -> u64
    requires { (in_bias_range bias ≡ true) × (864000000000 ≤ tick) × (tick ≤ 18000000000000000000) }
    ensures { result ≡ less_bias tick bias }
{
    tick + 864000000000 - raised(bias) * 600000000
}
