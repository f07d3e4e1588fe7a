// Frames of each type, whose bytes were written out from the layout by another program, and their lines; lines in
// other forms than they are printed in; and lines that have no meaning. A row is `LINE => BYTES`.
use lines::atoms::bytes_of;
use std::alloc::Global;
use std::test::Fail;

/// What begins and ends an attempt, and what it reports of itself.
const CONTROL: &str =
    r#"Start id="abc" known_entries=3 partial=true => 0x0001000000000000003f000000000000000361626300000000000000000000000000000000000000030000000000000000010000000000000000000000000000000000000000000000
Start id="\xff\x00" debug_id="inv_1" key="k" known_entries=1 state=[("k" "1"), ("l" "\xff")] retry_count=3 duration=4000 random_seed=18446744073709551615 scope="" limit_key="l" idempotency_key="i" => 0x000100000000000000820000000000000002ff000000000000000005696e765f3100000000000000016b00000001000000000000000200000000000000016b00000000000000013100000000000000016c0000000000000001ff00000000030000000000000fa0ffffffffffffffff0100000000000000000100000000000000016c01000000000000000169
Suspension future=(kind=Unknown named=["foo"]) => 0x0002000000000000002c040000000000000000000000000000000000000000000000010000000000000003666f6f0000000000000000
Error code=570 message="no" stacktrace="at x" behaviour=Retry index=0 type=18 name="n" delay=1000 => 0x000300000000000000380000023a00000000000000026e6f00000000000000046174207800010000000001000000120100000000000000016e0100000000000003e8
Error code=500 behaviour=Pause => 0x00030000000000000019000001f4000000000000000000000000000000000100000000
Error code=500 behaviour=Fail => 0x00030000000000000019000001f4000000000000000000000000000000000200000000
End => 0x00040000000000000000
ProposeRunCompletion id=1 result=value("x") => 0x0005000000000000000e0000000100000000000000000178
ProposeRunCompletion id=2 result=failure(code=409 message="cancelled" metadata=[("a" "b")]) => 0x00050000000000000034000000020100000199000000000000000963616e63656c6c65640000000000000001000000000000000161000000000000000162
ProposeRunCompletionAck id=4294967295 => 0x00060000000000000004ffffffff
AwaitingOn future=(kind=FirstCompleted signals=[1] nested=[(kind=AllCompleted completions=[2, 4])]) => 0x0007000000000000004f00000000000000000000000000000000010000000100000000000000000000000000000001010000000000000002000000020000000400000000000000000000000000000000000000000000000000
AwaitingOn future=(kind=FirstSucceededOrAllFailed nested=[(kind=AllSucceededOrFirstFailed), (kind=Unknown)]) executing_side_effects=true => 0x0007000000000000006402000000000000000000000000000000000000000000000000000000000000000203000000000000000000000000000000000000000000000000000000000000000004000000000000000000000000000000000000000000000000000000000000000001
AwaitingOn future=(kind=Unknown nested=[(kind=AllCompleted nested=[(kind=Unknown signals=[3]), (kind=FirstSucceededOrAllFailed)]), (kind=FirstCompleted named=["a"])]) => 0x000700000000000000b30400000000000000000000000000000000000000000000000000000000000000020100000000000000000000000000000000000000000000000000000000000000020400000000000000000000000000000001000000030000000000000000000000000000000002000000000000000000000000000000000000000000000000000000000000000000000000000000000000000000000000000000000000000001000000000000000161000000000000000000"#;

/// The input, and state.
const STATE: &str =
    r#"GetStateEphemeralCommand id=2 key="u" => 0x0008000000000000000d00000002000000000000000175
GetStateEphemeralNotification id=2 => 0x000900000000000000050000000200
GetStateEphemeralNotification id=2 result=void => 0x00090000000000000006000000020100
GetStateEphemeralNotification id=2 result=value("1") => 0x0009000000000000000f000000020101000000000000000131
Input headers=[("a" "b")] value="Till" => 0x000a00000000000000260000000000000001000000000000000161000000000000000162000000000000000454696c6c
GetEagerState name="n" key="count" result=void => 0x000b000000000000001800000000000000016e0000000000000005636f756e740100
GetEagerState key="count" result=value("") => 0x000b000000000000001f00000000000000000000000000000005636f756e7401010000000000000000
GetLazyState key="count" result_completion_id=1 => 0x000c000000000000001900000000000000000000000000000005636f756e7400000001
GetEagerStateKeys value=["a", "b"] => 0x000d00000000000000230100000000000000020000000000000001610000000000000001620000000000000000
GetEagerStateKeys value=[] name="n" => 0x000d000000000000001201000000000000000000000000000000016e
GetEagerStateKeys => 0x000d0000000000000009000000000000000000
GetLazyStateKeys result_completion_id=4 name="n" => 0x000e000000000000000d0000000400000000000000016e
SetState key="count" value="42" => 0x000f000000000000001f00000000000000000000000000000005636f756e7400000000000000023432
ClearState name="n" key="k" => 0x0010000000000000001200000000000000016e00000000000000016b
ClearAllState name="n" => 0x0011000000000000000900000000000000016e"#;

/// Other commands, and what comes in.
const OTHERS: &str =
    r#"Sleep wake_up_time=1721123699086 result_completion_id=1 => 0x0012000000000000001400000190baf7798e000000010000000000000000
Call service_name="Greeter" handler_name="greet" key="k" idempotency_key="i" scope="s" limit_key="l" headers=[("a" "b"), ("c" "d")] parameter="hi" invocation_id_notification_idx=2 name="n" result_completion_id=3 => 0x0013000000000000008a0000000000000007477265657465720000000000000005677265657400000000000000016b01000000000000000169010000000000000001730100000000000000016c0000000000000002000000000000000161000000000000000162000000000000000163000000000000000164000000000000000268690000000200000000000000016e00000003
OneWayCall service_name="Greeter" handler_name="greet" invocation_id_notification_idx=1 invoke_time=5 => 0x0014000000000000004b000000000000000747726565746572000000000000000567726565740000000000000000000000000000000000000000000000000000000000000100000000000000000000000000000005
CompleteAwakeable awakeable_id="sign_1YWJjAAAAEQ" result=value("v") => 0x0015000000000000002200000000000000107369676e5f3159574a6a41414141455100000000000000000176
SendSignal target_invocation_id="inv1" signal=index(1) result=void => 0x001600000000000000120000000000000004696e7631000000000100
SendSignal target_invocation_id="inv1" signal=name("foo") result=value("v") => 0x001600000000000000220000000000000004696e7631010000000000000003666f6f01000000000000000176
SendSignal signal=name("") result=failure() => 0x001600000000000000260000000000000000010000000000000000020000000000000000000000000000000000000000
GetPromise key="p" result_completion_id=1 => 0x0017000000000000000d00000000000000017000000001
PeekPromise key="p" result_completion_id=2 => 0x0018000000000000000d00000000000000017000000002
CompletePromise key="p" completion=failure(code=1) result_completion_id=3 => 0x0019000000000000002200000000000000017001000000010000000000000000000000000000000000000003
Run name="r" result_completion_id=1 => 0x001a000000000000000d00000000000000017200000001
AttachInvocation target=InvocationId("inv1") result_completion_id=1 => 0x001b0000000000000011000000000000000004696e763100000001
AttachInvocation target=WorkflowId(name="w" key="k" scope="s") result_completion_id=1 => 0x001b00000000000000210100000000000000017700000000000000016b0100000000000000017300000001
GetInvocationOutput target=IdempotencyId(service_name="s" service_key="k" handler_name="h" idempotency_key="i" scope="c") result_completion_id=9 => 0x001c0000000000000034020000000000000001730100000000000000016b0000000000000001680000000000000001690100000000000000016300000009
Output result=value("timeout") => 0x001d000000000000001000000000000000000774696d656f7574
Notification id=completion(1) result=void => 0x001e0000000000000006000000000100
Notification id=signal(17) result=value("\x22\x5c\x0a(") => 0x001e00000000000000120100000011010000000000000004225c0a28
Notification id=name("a") result=failure(code=3 message="m") => 0x001e000000000000002002000000000000000161020000000300000000000000016d0000000000000000
Notification id=completion(2) result=state_keys(["a", "b"]) => 0x001e00000000000000200000000002030000000000000002000000000000000161000000000000000162
Notification id=completion(3) result=invocation_id("inv1") => 0x001e00000000000000120000000003040000000000000004696e7631
raw 18 0x00ff => 0x0012000000000000000200ff"#;

/// Other lines, and the bytes that they show.
const OTHER_FORMS: &str =
    r#"  Sleep   name="n"  result_completion_id=1 wake_up_time=2 => 0x0012000000000000001500000000000000020000000100000000000000016e
Input value=0x54696C6c headers=[ ("a"   "b") ,("c" 0x)] => 0x000a000000000000003700000000000000020000000000000001610000000000000001620000000000000001630000000000000000000000000000000454696c6c
Input value="\"\\\x0Aé) ]" => 0x000a000000000000001800000000000000000000000000000008225c0ac3a929205d
Sleep wake_up_time=0 result_completion_id=00 name="" => 0x001200000000000000140000000000000000000000000000000000000000
Suspension future=( nested=[ (completions=[1, 2] kind=AllCompleted) ,(nested=[] named=["a)", "["] kind=Unknown)]   signals=[3] kind=FirstCompleted) => 0x00020000000000000082000000000000000000000000000000000100000003000000000000000000000000000000020100000000000000020000000100000002000000000000000000000000000000000000000000000000040000000000000000000000000000000000000000000000020000000000000002612900000000000000015b0000000000000000
rest 0x0012 => 0x0012
raw 31 0x => 0x001f0000000000000000
# nothing => 0x
 => 0x"#;

/// Lines that show nothing.
const BAD: &str = r#"Sleeper
sleep wake_up_time=1
Sleep wake_up_time=-1
Sleep wake_up_time=18446744073709551616
Sleep result_completion_id=4294967296
Sleep wake_up_time=
Sleep name=n
Sleep name="n
Sleep name="\q"
Sleep name="\xg0"
Sleep name=0xf
Sleep name="\xff"
Sleep name="a" name="a"
Sleep until=1
Sleep 1
Output
Output result=void
Output result=value
Output result=value()
Output result=failure(code=1
Output result=failure(code=1]
Notification id=completion("1") result=void
Notification id=completion(1) result=void()
Suspension future=(completions=[1])
Suspension future=(kind=First)
Suspension future=(kind=Unknown completions=[1,])
Suspension future=(kind=Unknown nested=[(kind=Unknown),])
Suspension future=(kind=Unknown nested=[(kind=Unknown) (kind=Unknown)])
Suspension future=(kind=Unknown nested=[(kind=Unknown])
Suspension future=(kind=Unknown nested=[(kind=Unknown)]signals=[1])
Suspension future=(kind=Unknown nested=[] nested=[])
Suspension future=(kind=Unknown nested=(kind=Unknown))
Suspension future=(kind=Unknown)(kind=Unknown)
Suspension future=[(kind=Unknown)]
Input headers=[("a")]
Input headers=[("a" "b" "c")]
AwaitingOn future=(kind=Unknown) executing_side_effects=1
raw 65536 0x
raw 18
raw 18 0x 0x
rest
End now
Error code=1 behaviour=retry"#;

// Tests take the tables from these, so that the proofs of tests don't hold the texts.

pub fn control_rows() -> &'static str {
    CONTROL
}

pub fn state_rows() -> &'static str {
    STATE
}

pub fn other_rows() -> &'static str {
    OTHERS
}

/// Lines as they are printed, and the bytes of their frames.
pub fn frame_rows() -> [&'static str; 3] {
    [control_rows(), state_rows(), other_rows()]
}

pub fn rows_in_other_forms() -> &'static str {
    OTHER_FORMS
}

pub fn bad_lines() -> &'static str {
    BAD
}

fn halves_of(row: &str) -> Result<(&str, &str), Fail> {
    Ok(row.split_once(" => ").ok_or("no =>")?)
}

/// The line of a row, and its bytes.
pub fn parts_of(alloc: Global, row: &str) -> Result<(&str, Vec<u8>), Fail> {
    let (line, hex) = halves_of(row)?;
    Ok((line, bytes_of(alloc, hex.as_bytes())?))
}

/// Fails unless the row holds.
pub fn expect(row: &str, holds: bool) -> Result<(), Fail> {
    if holds {
        Ok(())
    } else {
        Err(Fail::new(format_args!("it doesn't hold: {row}")))
    }
}
