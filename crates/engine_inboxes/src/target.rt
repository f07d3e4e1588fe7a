//! The handlers of an engine.
ghost use Rattle.std.specs.Prelude.{◌≡◌};
ghost use Rattle.engine_inboxes.specs.Targets.{are_exclusive, has_names};

use plain::Text;

/// A handler and the names by which it is called.
#[derive(Drop)]
pub struct Target<H: Drop> {
    pub service: Text,
    pub handler: Text,
    /// Of the invocations of one key at most one goes on at a time.
    pub exclusive: bool,
    pub code: H,
}

impl<H: Drop> Target<H> {
    /// Whether it is called by these names.
    pub fn has_names(&self, service: &Text, handler: &Text) -> bool
        ensures { result ≡ has_names service.now handler.now self.now }
    {
        self.service == *service && self.handler == *handler
    }

    /// Whether both are exclusive handlers of one service.
    pub fn shares(&self, other: &Self) -> bool
        ensures { result ≡ are_exclusive self.now other.now }
    {
        self.exclusive && other.exclusive && self.service == other.service
    }
}
