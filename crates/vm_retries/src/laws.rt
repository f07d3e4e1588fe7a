//! Laws of delays, as functions that do nothing.
ghost use Rattle.std.specs.Prelude.{◌≡◌, ◌<◌, ◌≤◌, ◌+◌, ◌*◌, ◌^◌, ℕ, min, Option, Some};
ghost use Rattle.std.specs.Duration.{as_nanos, max_nanos, FitsDuration};
ghost use Rattle.std.specs.declared.time.Duration.{Duration};
ghost use Rattle.vm_retries.specs.declared.fraction.Fraction.{Fraction};
ghost use Rattle.vm_retries.specs.Intervals.{at_most, delay, most_counted};

/// By a fraction of at least one no delay is less than an earlier one; by one of at most one none is more.
pub fn delays_go_one_way()
    ensures never_falls { (initial : Duration) (f : Fraction) (most : Option Duration)
        (count later : ℕ)
        → FitsDuration (as_nanos initial) → f.denominator ≤ f.numerator → count ≤ later
        → delay initial f most count ≤ delay initial f most later }
    ensures never_rises { (initial : Duration) (f : Fraction) (most : Option Duration)
        (count later : ℕ)
        → FitsDuration (as_nanos initial) → f.numerator ≤ f.denominator → count ≤ later
        → delay initial f most later ≤ delay initial f most count }
{}

/// No delay is above the maximum, for any fraction.
pub fn delays_stay_within_the_maximum()
    ensures { (initial most : Duration) (f : Fraction) (count : ℕ)
        → delay initial f (Some most) count ≤ as_nanos most }
{}

/// After the failures that are counted a delay stays.
pub fn delays_settle()
    ensures { (initial : Duration) (f : Fraction) (most : Option Duration) (count : ℕ)
        → most_counted ≤ count
        → delay initial f most count ≡ delay initial f most most_counted }
{}

/// By a whole number the delay is the product with its power, as far as the bounds go; by any fraction it isn't above that
/// product, for as many failures as change a delay.
pub fn delays_are_products()
    ensures whole { (initial : Duration) (f : Fraction) (most : Option Duration) (steps : ℕ)
        → FitsDuration (as_nanos initial) → f.denominator ≡ 1
        → delay initial f most (steps + 1)
        ≡ at_most most (min (as_nanos initial * f.numerator ^ steps) max_nanos) }
    ensures below { (initial : Duration) (f : Fraction) (most : Option Duration) (steps : ℕ)
        → FitsDuration (as_nanos initial) → steps < most_counted
        → delay initial f most (steps + 1) * f.denominator ^ steps ≤ as_nanos initial * f.numerator
        ^ steps }
{}
