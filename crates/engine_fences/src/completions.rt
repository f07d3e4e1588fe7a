//! A law of the completions in an engine's journals.
ghost use Rattle.std.specs.Prelude.{◌≡◌, [], List};
ghost use Rattle.engine_fences.specs.Completions.{CompletionsAreAskedFor, CompletionsAreOwn, IdsRise};
ghost use Rattle.engines.specs.Engines.{AllHappen};
ghost use Rattle.engines.specs.declared.types.Happening.{Happening};
ghost use Rattle.world_rounds.specs.Rounds.{ReplaysAndQueues};

use engines::Engine;
use vm_types::Handler;

/// In an engine that began without an invocation, each completion in a journal is of an id that a stored command before it carries, and of this
/// command's kind.
pub fn completions_are_asked_for<'a, H: Handler + Drop>(engine: &Engine<'a, H>)
    ensures asked { engine.now.invocations.items ≡ [] → (events : List Happening) (new : _)
        → AllHappen (λ h. H.meaning h) events engine.now new → CompletionsAreAskedFor new }
    // If recorded commands are replayed and signals queue, it completes a call, a one-way call, a sleep or a run: an attempt proposes
    // results of its own runs alone, and the ids of other commands are never completed.
    ensures own { engine.now.invocations.items ≡ [] → ReplaysAndQueues engine.now.options
        → (events : List Happening) (new : _) → AllHappen (λ h. H.meaning h) events engine.now new
        → CompletionsAreOwn new }
    // The ids that the commands of a journal carry rise, so no two carry one id.
    ensures ids { engine.now.invocations.items ≡ [] → (events : List Happening) (new : _)
        → AllHappen (λ h. H.meaning h) events engine.now new → IdsRise new }
{}
