//! The intervals of a policy whose delay is multiplied from one attempt to the next.
ghost use Rattle.std.specs.Prelude.{◌≡◌, ◌+◌, ◌<◌, ◌≤◌, min};
ghost use Rattle.std.specs.Duration.{as_nanos, max_nanos};
ghost use Rattle.vm_retries.specs.Intervals.{delay, multiplied};

use crate::fraction::Fraction;
use std::time::Duration;

/// A delay changes with this number of failures and stays after them. So it takes no more multiplications than these, which is less
/// than a millisecond.
const MOST_COUNTED: u32 = 10_000;

/// The delay after this many failures.
pub fn delay(
    initial_interval: Duration,
    factor: Fraction,
    max_interval: Option<Duration>,
    count: u32,
) -> Duration
    ensures { as_nanos result ≡ delay initial_interval factor max_interval count }
{
    let most = max_interval.unwrap_or(Duration::MAX).as_nanos();
    let steps = count.min(MOST_COUNTED).saturating_sub(1);
    Duration::from_nanos_u128(bounded(initial_interval.as_nanos(), factor, most, steps))
}

/// A number multiplied by the fraction in this many steps, or the maximum if that is less.
fn bounded(initial: u128, factor: Fraction, most: u128, steps: u32) -> u128
    requires initial { initial ≤ max_nanos }
    requires most { most ≤ max_nanos }
    ensures { result ≡ min (multiplied factor initial steps) most }
{
    let grows = factor.denominator <= factor.numerator;
    let mut interval = initial;
    let mut left = steps;
    while left > 0 {
        if grows && most <= interval {
            return most;
        }
        let (next, taken) = stride(interval, factor, left);
        interval = next;
        left -= taken;
    }
    interval.min(most)
}

/// The number some multiplications on, and how many they are: of those left, all that change it by the same amount.
fn stride(interval: u128, factor: Fraction, left: u32) -> (u128, u32)
    requires interval { interval ≤ max_nanos }
    requires left { 0 < left }
    ensures next { result.0 ≡ multiplied factor interval result.1 }
    ensures some { 0 < result.1 }
    ensures within { result.1 ≤ left }
{
    let numerator = u128::from(factor.numerator);
    let denominator = u128::from(factor.denominator);
    let product = interval * numerator;
    let next = product / denominator;
    if next == interval {
        return (next, left);
    }
    // A step adds the change, times what numerator and denominator differ by, to the remainder. While the remainder stays
    // below the denominator, the next step changes the number by the same amount.
    let change = next.abs_diff(interval);
    let room = denominator - 1 - product % denominator;
    let alike = room / change / numerator.abs_diff(denominator);
    let further = alike.min(u128::from(left - 1));
    let changed = further * change;
    let reached = if next < interval {
        next - changed
    } else {
        next + changed
    };
    (reached, 1 + further as u32)
}
