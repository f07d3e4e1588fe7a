//! The forms of lines, for people: a line's first word, and the words that may follow it. `N` is a number, `T` a text, `B` bytes, `D` a
//! duration, `H` a handle, and `P` a policy. A word in square brackets may be left out.

/// The lines that `frames --encode` reads. All but the first may also follow `arrive` and `entry`.
pub static FRAMES: [&str; 32] = [
    "rest 0x..",
    "raw N 0x..",
    "Start [id=B] [debug_id=T] [key=T] [known_entries=N] [state=[(B B), ..]] [partial=true] [retry_count=N] [duration=N] \
     [random_seed=N] [scope=T] [limit_key=T] [idempotency_key=T]",
    "Suspension future=(kind=..)",
    "Error [code=N] [message=T] [stacktrace=T] behaviour=Retry|Pause|Fail [index=N] [type=N] [name=T] [delay=N]",
    "End",
    "ProposeRunCompletion [id=N] result=value(B)|failure(code=N message=T)",
    "ProposeRunCompletionAck [id=N]",
    "AwaitingOn future=(kind=..) [executing_side_effects=true]",
    "GetStateEphemeralCommand [id=N] [key=T]",
    "GetStateEphemeralNotification [id=N] [result=void|value(B)]",
    "Input [headers=[(T T), ..]] [value=B]",
    "GetEagerState [name=T] [key=T] [result=void|value(B)]",
    "GetLazyState [name=T] [key=T] [result_completion_id=N]",
    "GetEagerStateKeys [value=[B, ..]] [name=T]",
    "GetLazyStateKeys [result_completion_id=N] [name=T]",
    "SetState [name=T] [key=T] [value=B]",
    "ClearState [name=T] [key=T]",
    "ClearAllState [name=T]",
    "Sleep [wake_up_time=N] [result_completion_id=N] [name=T]",
    "Call [service_name=T] [handler_name=T] [key=T] [idempotency_key=T] [scope=T] [limit_key=T] [headers=[(T T), ..]] [parameter=B] \
     [invocation_id_notification_idx=N] [name=T] [result_completion_id=N]",
    "OneWayCall [service_name=T] [handler_name=T] [key=T] [idempotency_key=T] [scope=T] [limit_key=T] [headers=[(T T), ..]] \
     [parameter=B] [invocation_id_notification_idx=N] [name=T] [invoke_time=N]",
    "CompleteAwakeable [awakeable_id=T] result=value(B)|failure(code=N message=T)",
    "SendSignal [target_invocation_id=T] signal=index(N)|name(T) result=void|value(B)|failure(code=N message=T)",
    "GetPromise [key=T] [result_completion_id=N]",
    "PeekPromise [key=T] [result_completion_id=N]",
    "CompletePromise [key=T] completion=value(B)|failure(code=N message=T) [result_completion_id=N]",
    "Run [name=T] [result_completion_id=N]",
    "AttachInvocation target=InvocationId(T)|WorkflowId(name=T key=T)|IdempotencyId(service_name=T handler_name=T idempotency_key=T) \
     [result_completion_id=N]",
    "GetInvocationOutput target=InvocationId(T)|WorkflowId(name=T key=T)|IdempotencyId(service_name=T handler_name=T \
     idempotency_key=T) [result_completion_id=N]",
    "Output result=value(B)|failure(code=N message=T)",
    "Notification id=completion(N)|signal(N)|name(T) result=void|value(B)|failure(code=N message=T)|state_keys([B, ..])|invocation_id(T)",
];

/// The lines of a script of rounds.
pub static ROUNDS: [&str; 9] = [
    "world [id=B] [debug_id=T] [key=T] [seed=N] [scope=T] [limit=T] [idem=T] [input=B] [state={T B}].. [cancel=calls|none|sends|both|off] \
     [checks=on|off] [awaiting=norun|always|never] [mismatch=follow|pause|fail] [replay=on|off] [delivery=queued|overwrite] (before all else, once)",
    "entry FRAME|0x.. (before the rounds)",
    "round [partial] [key=T].. [retry=N] [duration=D]",
    "piece N|all (in a round)",
    "close (in a round)",
    "step [N] (in a round)",
    "arrive FRAME|0x.. (in a round)",
    "run_result H success B|failure N T {T T}..|retryable D N T [stack=T] [behaviour=retry|pause|fail] [delay=D] [policy=P] (in a round)",
    "store N|all (in a round)",
];
