//! The law of a journal that can be replayed and that no run made.
ghost use Rattle.std.specs.Prelude.{◌≢◌, ℕ};
ghost use Rattle.journal_protocol.specs.InputCommand.{InputCommand};
ghost use Rattle.journal_protocol.specs.Frames.{IsWhole};
ghost use Rattle.journal_protocol.specs.Message.TheVariants as message;
ghost use Rattle.world_rounds.specs.declared.types.Setting.{Setting};
ghost use Rattle.world_rounds.specs.Guarantees.{IsExactlyOnce, IsReplayable};
ghost use Rattle.world_rounds.specs.Rounds.{ReplaysAndQueues};
ghost use Rattle.world_laws.specs.Unmade.{sleep_until, sleeping_in, slept_until};

/// A journal that can be replayed need not be what a run of the handler made, so `history` says less than `one_run`. Replay doesn't look at the
/// time until which a sleep lasts. A handler sleeps until one second after the epoch, and a journal records another time: the
/// handler can replay it, and no run of the handler made it, for its own sleep has its own time. The premises: the options
/// replay and queue, and the commands can be encoded.
pub fn replayable_journals_need_no_run()
    ensures { (w : Setting) (input : InputCommand) (time : ℕ) → ReplaysAndQueues w.options
        → IsWhole (message.Input input) → IsWhole (sleep_until 1000) → IsWhole (sleep_until time)
        → time ≢ 1000 → IsReplayable (sleeping_in w) (slept_until input time)
        × (IsExactlyOnce (sleeping_in w) (slept_until input time) → ⊥) }
{}
