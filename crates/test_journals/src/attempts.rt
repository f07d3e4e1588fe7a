// One attempt over a layer, whole: a handler that sleeps and answers. The peer speaks the layer's bytes; a transcoder stands between, and
// nothing else knows of them. What the VM writes is the same over each layer.
use await_trees::{NotificationHandle, UnresolvedFuture};
use bytes::Bytes;
use invocation_vm::{CoreVM, VM};
use journal_protocol::Version;
use std::alloc::Global;
use std::process::Abort;
use std::test::Fail;
use std::time::Duration;
use test_support::frames::{
    AWAITING_ON_1, COMPLETION_1, END, INPUT_TILL, OUTPUT_X, SLEEP_TO_1000, START_1,
};
use test_support::headers::Headers;
use vm_layers::{Layer, LayerFault, Own, Short, Transcoder, translate};
use vm_types::{AwaitResponse, NonEmptyValue, PayloadOptions, VMOptions, VMResult, Value};

fn answered<T>(given: VMResult<T>) -> Result<T, Fail> {
    match given {
        Ok(answer) => Ok(answer),
        Err(error) => Err(Fail::new(format_args!("{error:?}"))),
    }
}

fn done(translated: Result<(), LayerFault>) -> Result<(), Fail> {
    match translated {
        Ok(()) => Ok(()),
        Err(fault) => Err(Fail::new(format_args!("{fault:?}"))),
    }
}

/// All of these bytes in another layer; nothing is left of them.
fn whole<A: Layer, B: Layer>(
    rt: &impl Abort,
    alloc: Global,
    from: &A,
    to: &B,
    bytes: &[u8],
) -> Result<Bytes, Fail> {
    let mut stream = Bytes::copy_from_slice(alloc, bytes)?;
    let mut out = Vec::new(alloc);
    done(translate(alloc, from, to, &mut stream, &mut out))?;
    assert!(rt; stream.is_empty());
    Ok(Bytes::from_vec(out)?)
}

/// A VM whose peer speaks the layer.
#[derive(Drop)]
struct Session<L: Layer + Drop> {
    alloc: Global,
    vm: CoreVM,
    peer: Transcoder<L>,
}

impl<L: Layer + Drop> Session<L> {
    /// The peer sends these frames, byte by byte.
    fn send(&mut self, rt: &impl Abort, frames: &[u8]) -> Result<(), Fail> {
        let own = Own { alloc: self.alloc };
        let sent = whole(rt, self.alloc, &own, &self.peer.layer, frames)?;
        for byte in sent.as_slice() {
            let byte = Bytes::copy_from_slice(self.alloc, &[*byte])?;
            self.peer.notify_input(&mut self.vm, byte)?;
        }
        assert!(rt; self.peer.input.waiting().is_empty());
        Ok(())
    }

    /// What the VM has written, as the peer reads it, is these messages.
    fn receive(&mut self, rt: &impl Abort, frames: &[&[u8]]) -> Result<Bytes, Fail> {
        let own = Own { alloc: self.alloc };
        let mut received = Vec::new(self.alloc);
        done(self.peer.take_output(&mut self.vm, &mut received))?;
        assert!(rt; self.peer.output.waiting().is_empty());
        let read = whole(rt, self.alloc, &self.peer.layer, &own, received.as_slice())?;
        let mut wanted = Vec::new(self.alloc);
        for frame in frames {
            wanted.extend_from_slice(frame)?;
        }
        assert_eq!(rt; read.as_slice(), wanted.as_slice());
        Ok(Bytes::from_vec(received)?)
    }
}

/// The handler reads its input, sleeps and waits.
fn sleeps<L: Layer + Drop>(
    rt: &impl Abort,
    session: &mut Session<L>,
) -> Result<NotificationHandle, Fail> {
    session.send(rt, START_1)?;
    session.send(rt, INPUT_TILL)?;
    let input = answered(session.vm.sys_input())?;
    assert_eq!(rt; input.input.as_slice(), b"Till".as_slice());
    let name = String::new(session.alloc);
    let slept = answered(
        session
            .vm
            .sys_sleep(name, Duration::from_millis(1000), None),
    )?;
    let asked = answered(session.vm.do_await(UnresolvedFuture::Single(slept)))?;
    assert!(rt; matches!(asked, AwaitResponse::WaitingExternalProgress { .. }));
    let _ = session.receive(rt, &[SLEEP_TO_1000, AWAITING_ON_1])?;
    Ok(slept)
}

/// The sleep is over: the handler writes its output and ends.
fn ends<L: Layer + Drop>(
    rt: &impl Abort,
    session: &mut Session<L>,
    slept: NotificationHandle,
) -> Result<Bytes, Fail> {
    session.send(rt, COMPLETION_1)?;
    let asked = answered(session.vm.do_await(UnresolvedFuture::Single(slept)))?;
    assert_eq!(rt; asked, AwaitResponse::AnyCompleted);
    assert_eq!(rt;
        answered(session.vm.take_notification(slept))?,
        Some(Value::Void)
    );
    let output = NonEmptyValue::Success(Bytes::from_static(b"x"));
    answered(
        session
            .vm
            .sys_write_output(output, PayloadOptions::stable_serialization()),
    )?;
    answered(session.vm.sys_end())?;
    session.receive(rt, &[OUTPUT_X, END])
}

fn made(alloc: Global) -> Result<CoreVM, Fail> {
    let headers = Headers::ContentType("application/vnd.restate.invocation.v8");
    answered(VM::new(alloc, headers, VMOptions::default()))
}

/// The attempt, and what the peer received last.
fn attempt<L: Layer + Drop>(rt: &impl Abort, alloc: Global, layer: L) -> Result<Bytes, Fail> {
    let mut session = Session {
        alloc,
        vm: made(alloc)?,
        peer: Transcoder::new(alloc, layer),
    };
    let slept = sleeps(rt, &mut session)?;
    ends(rt, &mut session, slept)
}

#[test]
fn an_attempt_over_our_own_bytes(rt: HostRuntime) -> Result<(), Fail> {
    let alloc = rt.alloc();
    let received = attempt(&rt, alloc, Own { alloc })?;
    assert!(rt; received.as_slice().ends_with(END));
    Ok(())
}

/// Our bytes by another layout, with this mark, in the newest version.
fn short(alloc: Global, mark: bool) -> Short {
    Short {
        alloc,
        mark,
        version: Version::V8,
    }
}

#[test]
fn an_attempt_over_other_bytes(rt: HostRuntime) -> Result<(), Fail> {
    let alloc = rt.alloc();
    let received = attempt(&rt, alloc, short(alloc, false))?;
    assert_eq!(rt;
        received.as_slice(),
        b"\0\0\0\x0b\0\0\0\0\0\0\0\0\0\x01x\0\x1d\0\0\0\x01\0\0\x04".as_slice()
    );
    Ok(())
}

#[test]
fn an_attempt_over_the_other_spelling(rt: HostRuntime) -> Result<(), Fail> {
    let alloc = rt.alloc();
    let received = attempt(&rt, alloc, short(alloc, true))?;
    assert_eq!(rt;
        received.as_slice(),
        b"\0\0\0\x0b\x01\0\0\0\0\0\0\0\0\x01x\0\x1d\0\0\0\x01\x01\0\x04".as_slice()
    );
    Ok(())
}

/// No frame begins so: of the layer, and of our own bytes.
const BAD_MARK: &[u8] = b"\0\0\0\x01\x02\0\x04";

const BAD_TYPE: &[u8] = b"\xff\xff\0\0\0\0\0\0\0\0";

#[test]
fn a_fault_of_the_peer_fails_the_vm_as_bad_bytes_of_its_own(rt: HostRuntime) -> Result<(), Fail> {
    let alloc = rt.alloc();
    let mut plain = made(alloc)?;
    for bytes in [START_1, INPUT_TILL, BAD_TYPE] {
        plain.notify_input(Bytes::copy_from_slice(alloc, bytes)?)?;
    }
    let mut session = Session {
        alloc,
        vm: made(alloc)?,
        peer: Transcoder::new(alloc, short(alloc, false)),
    };
    session.send(&rt, START_1)?;
    session.send(&rt, INPUT_TILL)?;
    let bad = Bytes::copy_from_slice(alloc, BAD_MARK)?;
    session.peer.notify_input(&mut session.vm, bad)?;
    assert!(rt; session.vm.has_failed());
    let _ = session.receive(&rt, &[plain.take_output()?.as_slice()])?;
    // What comes later is dropped.
    session.send(&rt, COMPLETION_1)?;
    assert!(rt; session.vm.waiting_bytes().is_empty());
    Ok(())
}

#[test]
fn what_the_peer_lacks_waits(rt: HostRuntime) -> Result<(), Fail> {
    let alloc = rt.alloc();
    let layer = Short {
        alloc,
        mark: false,
        version: Version::V6,
    };
    let mut session = Session {
        alloc,
        vm: made(alloc)?,
        peer: Transcoder::new(alloc, layer),
    };
    session.send(&rt, START_1)?;
    session.send(&rt, INPUT_TILL)?;
    let _ = answered(session.vm.sys_input())?;
    let slept = answered(
        session
            .vm
            .sys_sleep(String::new(alloc), Duration::from_millis(1000), None),
    )?;
    let _ = answered(session.vm.do_await(UnresolvedFuture::Single(slept)))?;
    let own = Own { alloc };
    let mut received = Vec::new(alloc);
    for _ in 0..2 {
        let taken = session.peer.take_output(&mut session.vm, &mut received);
        assert!(rt; taken == Err(LayerFault::NoSuchMessage));
        let read = whole(&rt, alloc, &session.peer.layer, &own, received.as_slice())?;
        assert_eq!(rt; read.as_slice(), SLEEP_TO_1000);
        assert_eq!(rt; session.peer.output.waiting(), AWAITING_ON_1);
    }
    Ok(())
}
