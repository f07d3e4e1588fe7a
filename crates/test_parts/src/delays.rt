// The delays of policies whose interval is multiplied by a fraction.
use std::process::Abort;
use std::time::Duration;
use vm_retries::{EntryRetryInfo, Fraction, NextRetry, OnMaxAttempts, RetryPolicy};

/// A policy without bounds, with numbers of failures and its delay after each.
#[derive(Drop)]
struct Row<'a> {
    initial: Duration,
    fraction: (u32, u32),
    maximum: Option<Duration>,
    delays: &'a [(u32, Duration)],
}

/// What the policy of a row says after this number of failures.
fn next_retry(row: &Row<'_>, count: u32) -> Option<NextRetry> {
    let factor = Fraction::new(row.fraction.0, row.fraction.1)?;
    let policy = RetryPolicy::exponential(
        row.initial,
        factor,
        None,
        row.maximum,
        None,
        OnMaxAttempts::FailAsTerminal,
    );
    Some(policy.next_retry(EntryRetryInfo {
        retry_count: count,
        retry_loop_duration: Duration::ZERO,
    }))
}

/// Each delay of the row is as it stands there.
fn holds(rt: &impl Abort, row: &Row<'_>) {
    for (count, delay) in row.delays {
        let next = next_retry(row, *count);
        assert_eq!(rt; next, Some(NextRetry::Retry(Some(*delay))), "{count}");
    }
}

#[test]
fn delays_double(rt: HostRuntime) {
    let row = Row {
        initial: Duration::from_secs(1),
        fraction: (2, 1),
        maximum: None,
        delays: &[
            (0, Duration::from_secs(1)),
            (1, Duration::from_secs(1)),
            (3, Duration::from_secs(4)),
            (64, Duration::from_secs(9_223_372_036_854_775_808)),
            (65, Duration::MAX),
            (70, Duration::MAX),
            (4_294_967_295, Duration::MAX),
        ],
    };
    holds(&rt, &row);
}

#[test]
fn delays_stay_within_the_maximum(rt: HostRuntime) {
    let row = Row {
        initial: Duration::from_secs(1),
        fraction: (2, 1),
        maximum: Some(Duration::from_secs(30)),
        delays: &[
            (70, Duration::from_secs(30)),
            (4_294_967_295, Duration::from_secs(30)),
        ],
    };
    holds(&rt, &row);
    let row = Row {
        initial: Duration::from_secs(1),
        fraction: (2, 1),
        maximum: Some(Duration::from_millis(500)),
        delays: &[(1, Duration::from_millis(500))],
    };
    holds(&rt, &row);
}

#[test]
fn delays_stay_by_the_fraction_one(rt: HostRuntime) {
    let row = Row {
        initial: Duration::from_secs(2),
        fraction: (1, 1),
        maximum: None,
        delays: &[(1000, Duration::from_secs(2))],
    };
    holds(&rt, &row);
}

#[test]
fn delays_are_whole_nanoseconds(rt: HostRuntime) {
    let row = Row {
        initial: Duration::from_millis(100),
        fraction: (3, 2),
        maximum: None,
        delays: &[
            (2, Duration::from_millis(150)),
            (3, Duration::from_millis(225)),
            (4, Duration::from_micros(337_500)),
            (5, Duration::from_micros(506_250)),
        ],
    };
    holds(&rt, &row);
    let row = Row {
        initial: Duration::from_nanos(3),
        fraction: (1, 2),
        maximum: None,
        delays: &[
            (1, Duration::from_nanos(3)),
            (2, Duration::from_nanos(1)),
            (3, Duration::ZERO),
            (4, Duration::ZERO),
        ],
    };
    holds(&rt, &row);
}

#[test]
fn greatest_fraction(rt: HostRuntime) {
    let row = Row {
        initial: Duration::from_secs(1),
        fraction: (4_294_967_295, 1),
        maximum: None,
        delays: &[
            (3, Duration::from_secs(18_446_744_065_119_617_025)),
            (4, Duration::MAX),
        ],
    };
    holds(&rt, &row);
}

#[test]
fn fractions(rt: HostRuntime) {
    assert!(rt; Fraction::new(3, 0).is_none());
    let row = Row {
        initial: Duration::from_secs(1),
        fraction: (0, 1),
        maximum: None,
        delays: &[(2, Duration::ZERO)],
    };
    holds(&rt, &row);
}

/// With 4294967294 nanoseconds, times one more than this by this, each multiplication adds one nanosecond; it takes one away
/// the other way round. After 10,000 failures the delay stays.
#[test]
fn fractions_close_to_one(rt: HostRuntime) {
    let row = Row {
        initial: Duration::from_nanos(4_294_967_294),
        fraction: (4_294_967_295, 4_294_967_294),
        maximum: None,
        delays: &[
            (2, Duration::from_nanos(4_294_967_295)),
            (10_000, Duration::from_nanos(4_294_977_293)),
            (10_001, Duration::from_nanos(4_294_977_293)),
            (4_294_967_295, Duration::from_nanos(4_294_977_293)),
        ],
    };
    holds(&rt, &row);
    let row = Row {
        initial: Duration::from_nanos(4_294_967_295),
        fraction: (4_294_967_294, 4_294_967_295),
        maximum: None,
        delays: &[
            (2, Duration::from_nanos(4_294_967_294)),
            (10_000, Duration::from_nanos(4_294_957_296)),
            (4_294_967_295, Duration::from_nanos(4_294_957_296)),
        ],
    };
    holds(&rt, &row);
    let row = Row {
        initial: Duration::from_secs(1),
        fraction: (4_294_967_295, 4_294_967_294),
        maximum: None,
        delays: &[(4_294_967_295, Duration::from_secs(1))],
    };
    holds(&rt, &row);
}
