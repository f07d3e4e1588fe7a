//! A law of what waits in an engine.
ghost use Rattle.std.specs.Prelude.{◌≡◌, [], List};
ghost use Rattle.engine_fences.specs.Causes.{InboxesAreAskedFor, InboxesHaveCauses, WaitsHaveCauses};
ghost use Rattle.engines.specs.Between.{AllKept};
ghost use Rattle.engines.specs.Engines.{AllHappen};
ghost use Rattle.engines.specs.declared.types.Happening.{Happening};

use engines::Engine;
use vm_types::Handler;

/// What a stored command waits for can come, or it is a sleep whose time hasn't come, or the result of an invocation that hasn't ended.
pub fn waits_have_causes<'a, H: Handler + Drop>(engine: &Engine<'a, H>)
    ensures causes { AllKept engine.now → WaitsHaveCauses engine.now }
    // In an engine that began without an invocation, what waits for an id in an inbox is what a stored command waits for.
    ensures asked { engine.now.invocations.items ≡ [] → (events : List Happening) (new : _)
        → AllHappen (λ h. H.meaning h) events engine.now new → InboxesAreAskedFor new }
    // So all that waits in its inboxes can come, or has such a cause.
    ensures inboxes { engine.now.invocations.items ≡ [] → (events : List Happening) (new : _)
        → AllHappen (λ h. H.meaning h) events engine.now new → InboxesHaveCauses new }
{}
