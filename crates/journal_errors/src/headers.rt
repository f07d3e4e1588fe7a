//! The headers of a request, as the one who calls has them.
ghost use Rattle.std.specs.Prelude.{◌≡◌, Some, None, ℕ, List, Option, MatchResult};
ghost use Rattle.std.specs.Option.{option_copied};

/// Where the headers of a request are looked up.
pub trait HeaderMap: Drop {
    type Error: Drop;

    /// What stands under a name: `None` if it can't be read, `Some(None)` if the request has no such header.
    ghost found: { Self → List ℕ → Option (Option (List ℕ)) };

    fn extract(&self, name: &str) -> Result<Option<&str>, Self::Error>
        ensures { MatchResult result (λ text. found self.now name.now
            ≡ Some (option_copied text)) (λ _. found self.now name.now ≡ None) };
}
