// The ends of the counters, by the VM's calls: a call looks for every number that it needs before it takes one, and a counter at the
// greatest number hands nothing out. No run comes there, so the counters of the VM's machine are put there.
use await_trees::{NotificationHandle, UnresolvedFuture};
use bytes::Bytes;
use invocation_vm::{CoreVM, VM};
use journal_protocol::{Decoder, Error, ErrorBehavior, ErrorMessage, Message, MessageType};
use plain::{Items, Text};
use std::alloc::{AllocError, Global};
use std::process::Abort;
use std::test::Fail;
use std::time::Duration;
use test_support::frames::{INPUT_TILL, SLEEP_TO_1000, START_1, START_2};
use test_support::headers::Headers;
use vm_machine::Machine;
use vm_state::Counters;
use vm_types::{CommandRelationship, CommandType, PayloadOptions, Target, VMOptions, VMResult};

/// The greatest number of each counter.
const END: u32 = 4_294_967_295;

/// The numbers of a VM that has read its input and nothing else.
const BEGUN: Counters = Counters {
    command: Some(0),
    completion: 1,
    signal: 17,
    handle: 17,
    ephemeral: 1,
};

/// A call of a VM.
#[derive(Clone, Copy, Debug)]
enum Asked {
    Sleep,
    Call,
    CallWithDeadline,
    Awakeable,
    Signal,
    Clear,
    EphemeralGet,
    /// The error 500 "no" of the next command, a sleep of the name "n".
    Report,
}

/// What becomes of a call.
#[derive(Clone, Copy)]
enum End {
    /// It fails the VM by an error of this text, which relates to the command of this index and type.
    Refused(&'static str, Option<(u32, MessageType)>),
    /// It is carried out and writes a command of this type, and the counters then stand here.
    Done(MessageType, Counters),
}

/// A call, and the counters before it.
#[derive(Clone, Copy)]
struct Row {
    /// Whether a recorded sleep is left.
    replays: bool,
    before: Counters,
    asked: Asked,
    end: End,
}

const NO_IDS: &str = "exhausted: completion ids";

const NO_SIGNALS: &str = "exhausted: signal ids";

const NO_HANDLES: &str = "exhausted: handles";

const NO_INDEXES: &str = "exhausted: command indexes";

const NO_EPHEMERALS: &str = "exhausted: ephemeral ids";

static ROWS: [Row; 18] = [
    Row {
        replays: false,
        before: Counters {
            completion: END,
            handle: END,
            ..BEGUN
        },
        asked: Asked::Sleep,
        end: End::Refused(NO_IDS, Some((1, MessageType::SleepCommand))),
    },
    Row {
        replays: false,
        before: Counters {
            handle: END,
            ..BEGUN
        },
        asked: Asked::Sleep,
        end: End::Refused(NO_HANDLES, Some((1, MessageType::SleepCommand))),
    },
    Row {
        replays: false,
        before: Counters {
            completion: END - 1,
            ..BEGUN
        },
        asked: Asked::Sleep,
        end: End::Done(
            MessageType::SleepCommand,
            Counters {
                command: Some(1),
                completion: END,
                handle: 18,
                ..BEGUN
            },
        ),
    },
    // A recorded command isn't popped.
    Row {
        replays: true,
        before: Counters {
            completion: END,
            ..BEGUN
        },
        asked: Asked::Sleep,
        end: End::Refused(NO_IDS, Some((1, MessageType::SleepCommand))),
    },
    Row {
        replays: true,
        before: Counters {
            handle: END,
            ..BEGUN
        },
        asked: Asked::Sleep,
        end: End::Refused(NO_HANDLES, Some((1, MessageType::SleepCommand))),
    },
    // A call takes two ids and two handles.
    Row {
        replays: false,
        before: Counters {
            completion: END - 1,
            ..BEGUN
        },
        asked: Asked::Call,
        end: End::Refused(NO_IDS, Some((1, MessageType::CallCommand))),
    },
    Row {
        replays: false,
        before: Counters {
            handle: END - 1,
            ..BEGUN
        },
        asked: Asked::Call,
        end: End::Refused(NO_HANDLES, Some((1, MessageType::CallCommand))),
    },
    // A call with a deadline takes three of both, and two indexes.
    Row {
        replays: false,
        before: Counters {
            completion: END - 2,
            ..BEGUN
        },
        asked: Asked::CallWithDeadline,
        end: End::Refused(NO_IDS, Some((1, MessageType::CallCommand))),
    },
    Row {
        replays: false,
        before: Counters {
            handle: END - 2,
            ..BEGUN
        },
        asked: Asked::CallWithDeadline,
        end: End::Refused(NO_HANDLES, Some((1, MessageType::CallCommand))),
    },
    Row {
        replays: false,
        before: Counters {
            command: Some(END - 1),
            ..BEGUN
        },
        asked: Asked::CallWithDeadline,
        end: End::Refused(NO_INDEXES, Some((END, MessageType::CallCommand))),
    },
    // These have no command.
    Row {
        replays: false,
        before: Counters {
            signal: END,
            ..BEGUN
        },
        asked: Asked::Awakeable,
        end: End::Refused(NO_SIGNALS, None),
    },
    Row {
        replays: false,
        before: Counters {
            signal: END,
            handle: END,
            ..BEGUN
        },
        asked: Asked::Awakeable,
        end: End::Refused(NO_SIGNALS, None),
    },
    Row {
        replays: false,
        before: Counters {
            handle: END,
            ..BEGUN
        },
        asked: Asked::Awakeable,
        end: End::Refused(NO_HANDLES, None),
    },
    Row {
        replays: false,
        before: Counters {
            handle: END,
            ..BEGUN
        },
        asked: Asked::Signal,
        end: End::Refused(NO_HANDLES, None),
    },
    Row {
        replays: false,
        before: Counters {
            ephemeral: END,
            ..BEGUN
        },
        asked: Asked::EphemeralGet,
        end: End::Refused(NO_EPHEMERALS, None),
    },
    // The index of the last command is the greatest: the next one's stays there.
    Row {
        replays: false,
        before: Counters {
            command: Some(END),
            ..BEGUN
        },
        asked: Asked::Clear,
        end: End::Refused(NO_INDEXES, Some((END, MessageType::ClearStateCommand))),
    },
    Row {
        replays: false,
        before: Counters {
            command: Some(END - 1),
            ..BEGUN
        },
        asked: Asked::Clear,
        end: End::Done(
            MessageType::ClearStateCommand,
            Counters {
                command: Some(END),
                ..BEGUN
            },
        ),
    },
    Row {
        replays: false,
        before: Counters {
            command: Some(END),
            ..BEGUN
        },
        asked: Asked::Report,
        end: End::Refused("no", Some((END, MessageType::SleepCommand))),
    },
];

fn answered<T>(given: VMResult<T>) -> Result<T, Fail> {
    match given {
        Ok(answer) => Ok(answer),
        Err(error) => Err(Fail::new(format_args!("{error:?}"))),
    }
}

/// A VM of version 8 that has read its input. A recorded sleep is left, or nothing is.
fn begun(alloc: Global, replays: bool) -> Result<CoreVM, Fail> {
    let headers = Headers::ContentType("application/vnd.restate.invocation.v8");
    let mut vm: CoreVM = answered(VM::new(alloc, headers, VMOptions::default()))?;
    let (start, recorded): (&[u8], &[u8]) = if replays {
        (START_2, SLEEP_TO_1000)
    } else {
        (START_1, b"")
    };
    for bytes in [start, INPUT_TILL, recorded] {
        vm.notify_input(Bytes::copy_from_slice(alloc, bytes)?)?;
    }
    answered(vm.sys_input())?;
    Ok(vm)
}

fn target(alloc: Global) -> Result<Target, AllocError> {
    Ok(Target {
        service: Text::from_str(alloc, "s")?,
        handler: Text::from_str(alloc, "h")?,
        key: None,
        idempotency_key: None,
        scope: None,
        limit_key: None,
        headers: Items::new(alloc),
    })
}

/// A call of another handler.
fn called(
    alloc: Global,
    vm: &mut CoreVM,
    by: Option<Duration>,
) -> Result<VMResult<()>, AllocError> {
    let target = target(alloc)?;
    let options = PayloadOptions::stable_serialization();
    match by {
        None => Ok(vm.sys_call(target, Bytes::new(), None, options).map(|_| ())),
        Some(by) => Ok(
            vm.sys_call_with_deadline(target, Bytes::new(), by, None, options)
                .map(|_| ()),
        ),
    }
}

/// An error that the handler reports, and what the VM says of it.
fn reported(alloc: Global, vm: &mut CoreVM) -> Result<VMResult<()>, AllocError> {
    let error = Error::new(500, String::from_str(alloc, "no")?);
    let name = Some(Text::from_str(alloc, "n")?);
    let next = CommandRelationship::Next {
        ty: CommandType::Sleep,
        name,
    };
    vm.notify_error(error, Some(next))?;
    Ok(vm.is_ready_to_execute().map(|_| ()))
}

/// Makes the call.
fn made(alloc: Global, vm: &mut CoreVM, asked: Asked) -> Result<VMResult<()>, AllocError> {
    let second = Duration::from_millis(1000);
    match asked {
        Asked::Sleep => Ok(vm.sys_sleep(String::new(alloc), second, None).map(|_| ())),
        Asked::Call => called(alloc, vm, None),
        Asked::CallWithDeadline => called(alloc, vm, Some(second)),
        Asked::Awakeable => Ok(vm.sys_awakeable().map(|_| ())),
        Asked::Signal => Ok(
            vm.create_signal_handle(String::from_str(alloc, "a")?)
                .map(|_| ()),
        ),
        Asked::Clear => Ok(vm.sys_state_clear(String::from_str(alloc, "k")?, None)),
        Asked::EphemeralGet => Ok(
            vm.ephemeral_state_get(String::from_str(alloc, "u")?)
                .map(|_| ()),
        ),
        Asked::Report => reported(alloc, vm),
    }
}

fn are_same(found: &Counters, wanted: &Counters) -> bool {
    found.command == wanted.command
        && found.completion == wanted.completion
        && found.signal == wanted.signal
        && found.handle == wanted.handle
        && found.ephemeral == wanted.ephemeral
}

/// The one message that the VM sends.
fn sent(alloc: Global, vm: &mut CoreVM) -> Result<Message, Fail> {
    let mut decoder = Decoder::new(alloc);
    decoder.push(vm.take_output()?)?;
    let Ok(Some(raw)) = decoder.next() else {
        return Err(Fail::from("no frame is sent"));
    };
    if !decoder.waiting().is_empty() {
        return Err(Fail::from("more than one frame is sent"));
    }
    match raw.decode(alloc) {
        Ok(message) => Ok(message),
        Err(error) => Err(Fail::new(format_args!("{error:?}"))),
    }
}

/// The frame of the VM's error: its text, and the command that it relates to.
fn assert_frame(
    rt: &impl Abort,
    row: &Row,
    frame: &ErrorMessage,
    text: &str,
    related: Option<(u32, MessageType)>,
) {
    let asked = row.asked;
    assert_eq!(rt; frame.code, 500, "{asked:?}");
    assert_eq!(rt; frame.message.as_str(), text, "{asked:?}");
    assert_eq!(rt; frame.stacktrace.as_str(), "", "{asked:?}");
    assert!(rt; frame.behavior == ErrorBehavior::Retry, "{asked:?}");
    assert_eq!(rt; frame.index, related.map(|it| it.0), "{asked:?}");
    assert_eq!(rt;
        frame.ty,
        related.map(|it| u32::from(it.1.number())),
        "{asked:?}"
    );
    let name = match &frame.name {
        Some(name) => name.as_str(),
        None => "",
    };
    let wanted = if matches!(asked, Asked::Report) {
        "n"
    } else {
        ""
    };
    assert_eq!(rt; name, wanted, "{asked:?}");
    assert!(rt; frame.delay.is_none(), "{asked:?}");
}

/// The error is the one of this text that relates to the command of this index and type.
fn assert_error(
    rt: &impl Abort,
    row: &Row,
    error: &Error,
    text: &str,
    related: Option<(u32, MessageType)>,
) {
    let asked = row.asked;
    assert_eq!(rt; error.code(), 500, "{asked:?}");
    assert_eq!(rt; error.message(), text, "{asked:?}");
    let (index, ty) = match &error.related_command {
        Some(related) => (Some(related.index), Some(related.ty.number())),
        None => (None, None),
    };
    assert_eq!(rt; index, related.map(|it| it.0), "{asked:?}");
    assert_eq!(rt; ty, related.map(|it| it.1.number()), "{asked:?}");
}

/// Each call of the rows, which a failed VM answers by its error.
static LATER: [Asked; 8] = [
    Asked::Sleep,
    Asked::Call,
    Asked::CallWithDeadline,
    Asked::Awakeable,
    Asked::Signal,
    Asked::Clear,
    Asked::EphemeralGet,
    Asked::Report,
];

/// Calls beside those of the rows.
fn others(vm: &mut CoreVM) -> [VMResult<()>; 5] {
    let handle = NotificationHandle(17);
    [
        vm.sys_input().map(|_| ()),
        vm.do_await(UnresolvedFuture::Single(handle)).map(|_| ()),
        vm.take_notification(handle).map(|_| ()),
        vm.is_ready_to_execute().map(|_| ()),
        vm.sys_end(),
    ]
}

/// Each later call answers the same error, and nothing is sent.
fn assert_stays(
    rt: &impl Abort,
    alloc: Global,
    vm: &mut CoreVM,
    row: &Row,
    text: &str,
    related: Option<(u32, MessageType)>,
) -> Result<(), Fail> {
    for asked in &LATER {
        let error = made(alloc, vm, *asked)?
            .err()
            .ok_or("a later call is carried out")?;
        assert_error(rt, row, &error, text, related);
    }
    for given in others(vm) {
        let error = given.err().ok_or("a later call is carried out")?;
        assert_error(rt, row, &error, text, related);
    }
    assert!(rt; vm.take_output()?.is_empty());
    Ok(())
}

/// The call is refused: one Error frame is written, the error stays, and nothing is taken, popped or written beside it.
fn assert_refused(
    rt: &impl Abort,
    alloc: Global,
    vm: &mut CoreVM,
    row: &Row,
    text: &str,
    related: Option<(u32, MessageType)>,
) -> Result<(), Fail> {
    let left = vm.machine.commands.items().len();
    let error = made(alloc, vm, row.asked)?
        .err()
        .ok_or("it is carried out")?;
    assert_error(rt, row, &error, text, related);
    match &sent(alloc, vm)? {
        Message::Error(frame) => assert_frame(rt, row, frame, text, related),
        _ => return Err(Fail::from("another frame than Error is sent")),
    }
    assert_stays(rt, alloc, vm, row, text, related)?;
    assert!(rt; are_same(&vm.machine.counters, &row.before));
    assert_eq!(rt; vm.machine.commands.items().len(), left);
    assert!(rt; !vm.machine.wrote_command && !vm.machine.ephemeral.any_in_flight());
    Ok(())
}

/// The call is carried out: it writes its command.
fn assert_done(
    rt: &impl Abort,
    alloc: Global,
    vm: &mut CoreVM,
    row: &Row,
    ty: MessageType,
    after: &Counters,
) -> Result<(), Fail> {
    assert!(rt; made(alloc, vm, row.asked)?.is_ok());
    assert!(rt; sent(alloc, vm)?.ty() == ty);
    assert!(rt; are_same(&vm.machine.counters, after));
    Ok(())
}

/// Puts a machine's counters to these numbers.
fn put(machine: &mut Machine, counters: Counters) {
    machine.counters = counters;
}

fn assert_row(rt: &impl Abort, alloc: Global, row: &Row) -> Result<(), Fail> {
    let mut vm = begun(alloc, row.replays)?;
    assert!(rt; are_same(&vm.machine.counters, &BEGUN));
    assert!(rt; vm.machine.phase.is_replaying() == row.replays);
    put(&mut vm.machine, row.before);
    match &row.end {
        End::Refused(text, related) => assert_refused(rt, alloc, &mut vm, row, text, *related),
        End::Done(ty, after) => assert_done(rt, alloc, &mut vm, row, *ty, after),
    }
}

#[test]
fn counters_at_their_end_hand_nothing_out(rt: HostRuntime) -> Result<(), Fail> {
    for row in &ROWS {
        assert_row(&rt, rt.alloc(), row)?;
    }
    Ok(())
}
