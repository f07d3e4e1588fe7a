//! Notifications that wait are used, in order of arrival.
ghost use Rattle.std.specs.Prelude.{◌≡◌, length};
ghost use Rattle.await_tries.specs.Used.{used};

use vm_parts::AsyncResults;

/// Uses the first n.
pub fn use_first(results: &mut AsyncResults, n: usize)
    ensures { results.new ≡ used results.old n }
{
    for _ in 0..n {
        results.use_one();
    }
}

/// Uses all.
pub fn use_all(results: &mut AsyncResults)
    ensures { results.new ≡ used results.old (length results.old.queued) }
{
    while results.use_one() {}
}
