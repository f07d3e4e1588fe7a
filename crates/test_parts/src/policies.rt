// What policies say of failures: bounds, pauses, defaults.
use std::process::Abort;
use std::test::Fail;
use std::time::Duration;
use vm_retries::{EntryRetryInfo, Fraction, NextRetry, OnMaxAttempts, RetryPolicy};

fn tried(count: u32, millis: u64) -> EntryRetryInfo {
    EntryRetryInfo {
        retry_count: count,
        retry_loop_duration: Duration::from_millis(millis),
    }
}

fn after(millis: u64) -> NextRetry {
    NextRetry::Retry(Some(Duration::from_millis(millis)))
}

/// Each row holds of the policy: after this number of tries, in this number of milliseconds, this is its answer.
fn holds(rt: &impl Abort, policy: &RetryPolicy, rows: &[(u32, u64, NextRetry)]) {
    for (count, millis, wanted) in rows {
        let next = policy.next_retry(tried(*count, *millis));
        assert!(rt;
            next == *wanted,
            "after {count} tries in {millis} ms: {next:?}"
        );
    }
}

fn copy_holds(
    rt: &impl Abort,
    policy: &RetryPolicy,
    rows: &[(u32, u64, NextRetry)],
) -> Result<(), Fail> {
    let copy = policy.clone()?;
    holds(rt, &copy, rows);
    Ok(())
}

#[test]
fn delays_grow_until_a_bound(rt: HostRuntime) -> Result<(), Fail> {
    let policy = RetryPolicy::exponential(
        Duration::from_millis(125),
        Fraction::new(2, 1).ok_or("a fraction")?,
        None,
        Some(Duration::from_millis(750)),
        Some(Duration::from_secs(10)),
        OnMaxAttempts::FailAsTerminal,
    );
    let rows = [
        (2, 1000, after(250)),
        (3, 1000, after(500)),
        (4, 1000, after(750)),
        (4, 9999, after(750)),
        (4, 10_000, NextRetry::FailAsTerminal),
    ];
    holds(&rt, &policy, &rows);
    Ok(())
}

#[test]
fn fixed_delays_have_bounds(rt: HostRuntime) -> Result<(), Fail> {
    let second = Some(Duration::from_secs(1));
    let failing = RetryPolicy::fixed_delay(second, Some(5), None, OnMaxAttempts::FailAsTerminal);
    let rows = [(4, 4500, after(1000)), (5, 4500, NextRetry::FailAsTerminal)];
    holds(&rt, &failing, &rows);
    let pausing = RetryPolicy::fixed_delay(None, None, second, OnMaxAttempts::Pause);
    let rows = [
        (4_294_967_295, 999, NextRetry::Retry(None)),
        (0, 1000, NextRetry::Pause),
    ];
    holds(&rt, &pausing, &rows);
    copy_holds(&rt, &pausing, &[(0, 1000, NextRetry::Pause)])
}

/// How many tries there are by default, and what the default policy says then.
fn default_tries() -> (u32, NextRetry) {
    let tries = EntryRetryInfo::default();
    let count = tries.retry_count;
    (count, RetryPolicy::default().next_retry(tries))
}

#[test]
fn policies_without_bounds(rt: HostRuntime) {
    assert!(rt; default_tries() == (0, NextRetry::Retry(None)));
    let rows = [(4_294_967_295, u64::MAX, NextRetry::Retry(None))];
    holds(&rt, &RetryPolicy::Infinite, &rows);
    let rows = [(1, 0, NextRetry::FailAsTerminal)];
    holds(&rt, &RetryPolicy::None, &rows);
}

fn does_fixed_pause(on_max_attempts: OnMaxAttempts) -> bool {
    let policy = RetryPolicy::fixed_delay(None, Some(1), None, on_max_attempts);
    policy.should_pause_on_max_attempts()
}

/// Whether a policy by a fraction says that it pauses, and whether it does.
fn does_exponential_pause(factor: Fraction, on_max_attempts: OnMaxAttempts) -> (bool, bool) {
    let second = Duration::from_secs(1);
    let policy = RetryPolicy::exponential(second, factor, Some(1), None, None, on_max_attempts);
    let pauses = policy.should_pause_on_max_attempts();
    (pauses, policy.next_retry(tried(1, 0)) == NextRetry::Pause)
}

#[test]
fn some_policies_pause(rt: HostRuntime) -> Result<(), Fail> {
    assert!(rt; OnMaxAttempts::default() == OnMaxAttempts::FailAsTerminal);
    let factor = Fraction::new(2, 1).ok_or("a fraction")?;
    let pauses = [
        does_fixed_pause(OnMaxAttempts::FailAsTerminal),
        does_fixed_pause(OnMaxAttempts::Pause),
        RetryPolicy::Infinite.should_pause_on_max_attempts(),
        RetryPolicy::None.should_pause_on_max_attempts(),
    ];
    assert!(rt; pauses == [false, true, false, false]);
    let fails = does_exponential_pause(factor, OnMaxAttempts::FailAsTerminal);
    let pauses = does_exponential_pause(factor, OnMaxAttempts::Pause);
    assert!(rt; fails == (false, false) && pauses == (true, true));
    Ok(())
}
