//! One VM, its last answer to a line, and its last reply to a call.
ghost use Rattle.std.specs.Prelude.{◌≡◌, [], Ok, Some, codes, true, false};
ghost use Rattle.invocation_vm.specs.Making.{version_in};
ghost use Rattle.invocation_vm.specs.Seen.{seen};
ghost use Rattle.invocation_vm.specs.Views.{TakesOutput};
ghost use Rattle.vm_types.specs.ContentTypes.{header_under};
ghost use Rattle.vm_calls.specs.Making.{VmIsMade};
ghost use Rattle.c_sessions.specs.Calls.{OnVm, OwnOver, part_read};
ghost use Rattle.c_sessions.specs.Replies.{numbers_by, part_of, summary};
ghost use Rattle.c_sessions.specs.Sessions.{AnswerRead, Drained, DrainedBy, Fed, FedBy, IsCleared, IsEmpty, LendsBy, PeerCleared, outgoing_of};

use crate::kept::keep;
use crate::outgoing::Outgoing;
use crate::parts::part_of;
use crate::peer::{Peer, Spoken, peer_of};
use crate::replied::{Replied, numbers_by, tell_after, tell_status};
use crate::vm_call::VmCall;
use bytes::Bytes;
use c_values::{Status, write};
use invocation_vm::{CoreVM, VM};
use plain::Text;
use std::alloc::Global;
use vm_calls::making::make_anew;
use vm_parts::Outbox;
use vm_types::{ContentType, Reply, VMOptions};

/// How many bytes of output a VM has room for without taking memory again, at most.
const KEPT: usize = 65_536;

/// One VM, if it was made, the answer to the last line, the reply to the last call, and the output that C was lent last.
#[derive(Drop)]
pub struct Session {
    pub vm: Option<CoreVM>,
    pub answer: Text,
    pub reply: Reply,
    /// The VM has failed by an error that the caller reported, and that reads as out of memory.
    pub mimics: bool,
    pub lent: Vec<u8>,
    /// Between the VM and its peer, unless the peer speaks the VM's own layer.
    pub peer: Option<Peer>,
}

/// Feeds a VM bytes of its input.
fn feed_vm(alloc: Global, vm: &mut CoreVM, bytes: &[u8]) -> Status
    ensures { Fed bytes.now result (Some vm.old) (Some vm.new) }
{
    let Ok(bytes) = Bytes::copy_from_slice(alloc, bytes) else {
        return Status::NoMemory;
    };
    match vm.notify_input(bytes) {
        Ok(()) => Status::Done,
        Err(_) => Status::NoMemory,
    }
}

/// Drops a VM's output, which was taken. The memory of a long one is given back.
fn drop_output(vm: &mut CoreVM)
    ensures { seen vm.new ≡ record (seen vm.old)
        { machine = record (seen vm.old).machine { output = [] } } }
{
    if vm.waiting_len() > KEPT {
        vm.machine.output = Outbox::new(vm.machine.alloc);
    } else {
        vm.clear_output();
    }
}

/// Moves all of a VM's output to the front of `out`, if it has room for it. Returns the output's length either way.
fn drain_vm(vm: &mut CoreVM, out: &mut [u8]) -> (Status, usize)
    ensures { Drained result.0 result.1 out.old out.new (Some vm.old) (Some vm.new) }
{
    let len = vm.waiting_len();
    if out.len() < len {
        return (Status::NoRoom, len);
    }
    out[..len].copy_from_slice(vm.waiting_bytes());
    drop_output(vm);
    (Status::Done, len)
}

/// Moves all of a VM's output to `lent`, instead of what that held. No byte is copied. The memory of what it held is used for the next
/// output; if it is a long one, it is given back, as are the VM's buffers after a long output.
fn lend_vm(vm: &mut CoreVM, lent: &mut Vec<u8>)
    ensures { TakesOutput (Ok lent.new.items) (seen vm.old) (seen vm.new) }
{
    if lent.capacity() > KEPT {
        *lent = Vec::new(vm.machine.alloc);
    }
    vm.machine.output.move_to(lent);
    if lent.len() > KEPT {
        vm.machine.output = Outbox::new(vm.machine.alloc);
    }
}

impl Session {
    pub fn new(alloc: Global, spoken: Spoken) -> Session
        ensures { IsEmpty spoken result }
    {
        Session {
            vm: None,
            answer: Text::empty(alloc),
            reply: Reply::Nothing,
            mimics: false,
            lent: Vec::new(alloc),
            peer: peer_of(alloc, spoken),
        }
    }

    /// Writes the last answer to the front of `out`, if it has room for it. Returns the answer's length either way.
    pub fn read_answer(&self, out: &mut [u8]) -> (Status, usize)
        ensures { AnswerRead result.0 result.1 out.old out.new (Some self.now) }
    {
        write(self.answer.as_str().as_bytes(), out)
    }

    /// Makes a call of the VM, keeps its reply, and returns the reply's summary. If the call isn't made, the last reply stays.
    #[tactic(auto, using(crate::proofs::Made::is_called, crate::proofs::Made::is_kept))]
    pub fn call<C: VmCall>(&mut self, alloc: Global, call: C) -> Replied
        ensures answer { self.new.answer ≡ self.old.answer }
        ensures lent { self.new.lent ≡ self.old.lent }
        ensures peer { self.new.peer ≡ self.old.peer }
        ensures called { OnVm (C.does call) result self.old.vm self.new.vm self.old.mimics
            self.new.mimics self.old.reply self.new.reply }
    {
        let Some(vm) = &mut self.vm else {
            return tell_status(Status::NoVm);
        };
        let had_failed = vm.has_failed();
        match call.make(alloc, vm, &mut self.reply) {
            Ok(replied) => tell_after(&mut self.mimics, had_failed, &vm.machine.failure, replied),
            Err(status) => {
                let told = tell_status(status);
                tell_after(&mut self.mimics, had_failed, &vm.machine.failure, told)
            }
        }
    }

    /// As `call`, of a call whose reply has bytes of the VM's own: it isn't made if the peer speaks another layer.
    pub fn call_own<C: VmCall>(&mut self, alloc: Global, call: C) -> Replied
        ensures { OwnOver self.old.peer (C.does call) result self.old self.new }
    {
        if self.peer.is_some() {
            return tell_status(Status::Layered);
        }
        self.call(alloc, call)
    }

    /// Drops what waits beside the VM, both ways.
    fn clear_peer(&mut self)
        ensures { IsCleared self.old self.new }
    {
        if let Some(peer) = &mut self.peer {
            peer.clear();
        }
    }

    /// Replaces the last VM by a new one, and drops what waits beside that. Returns its version, or why there is none.
    pub fn make(&mut self, alloc: Global, content_type: ContentType, options: VMOptions) -> Replied
        ensures answer { self.new.answer ≡ self.old.answer }
        ensures lent { self.new.lent ≡ self.old.lent }
        ensures peer { PeerCleared self.old.peer self.new.peer }
        ensures made { VmIsMade alloc options
            (version_in (header_under content_type (codes "content-type")))
            self.new.reply self.new.vm }
        ensures mimics { self.new.mimics ≡ false }
        ensures told { result ≡ numbers_by true false (summary self.new.reply) }
    {
        self.clear_peer();
        self.mimics = false;
        let reply = make_anew(alloc, &mut self.vm, content_type, options);
        numbers_by(true, false, keep(&mut self.reply, reply))
    }

    /// Writes a part of the last reply to the front of `out`, if it has room for it. Returns the part's length either way.
    pub fn read_part(&self, at: usize, out: &mut [u8]) -> (Status, usize)
        ensures { part_read (part_of self.now.reply at) result.0 result.1 out.old out.new }
    {
        match part_of(&self.reply, at) {
            Some(part) => write(part, out),
            None => (Status::NoPart, 0),
        }
    }

    /// Feeds the VM bytes of its input.
    pub fn feed(&mut self, alloc: Global, bytes: &[u8]) -> Status
        ensures answer { self.new.answer ≡ self.old.answer }
        ensures reply { self.new.reply ≡ self.old.reply }
        ensures mimics { self.new.mimics ≡ self.old.mimics }
        ensures lent { self.new.lent ≡ self.old.lent }
        ensures fed { FedBy bytes.now result self.old.peer self.new.peer self.old.vm self.new.vm }
    {
        let Some(vm) = &mut self.vm else {
            return Status::NoVm;
        };
        match &mut self.peer {
            Some(peer) => peer.feed(alloc, vm, bytes),
            None => feed_vm(alloc, vm, bytes),
        }
    }

    /// Moves all of the VM's output to the front of `out`, if it has room for it. Returns the output's length either way.
    pub fn take_output(&mut self, alloc: Global, out: &mut [u8]) -> (Status, usize)
        ensures answer { self.new.answer ≡ self.old.answer }
        ensures reply { self.new.reply ≡ self.old.reply }
        ensures mimics { self.new.mimics ≡ self.old.mimics }
        ensures lent { self.new.lent ≡ self.old.lent }
        ensures taken { DrainedBy result.0 result.1 out.old out.new self.old.peer self.new.peer
            self.old.vm self.new.vm }
    {
        let Some(vm) = &mut self.vm else {
            return (Status::NoVm, 0);
        };
        match &mut self.peer {
            Some(peer) => peer.drain(alloc, vm, out),
            None => drain_vm(vm, out),
        }
    }

    /// Moves all of the VM's output to where C may read it, instead of what C was lent before. A peer that speaks another layer is lent nothing:
    /// these are the VM's own bytes.
    pub fn lend_output(&mut self) -> Status
        ensures answer { self.new.answer ≡ self.old.answer }
        ensures reply { self.new.reply ≡ self.old.reply }
        ensures mimics { self.new.mimics ≡ self.old.mimics }
        ensures peer { self.new.peer ≡ self.old.peer }
        ensures lent { LendsBy self.old.peer result self.old.vm self.new.vm self.old.lent
            self.new.lent }
    {
        if self.peer.is_some() {
            return Status::Layered;
        }
        match &mut self.vm {
            Some(vm) => {
                lend_vm(vm, &mut self.lent);
                Status::Done
            }
            None => Status::NoVm,
        }
    }

    /// Where the output lies that C was lent last.
    pub fn outgoing(&self) -> Outgoing
        ensures { result ≡ outgoing_of self.now.lent }
    {
        Outgoing {
            at: self.lent.as_ptr(),
            len: self.lent.len(),
        }
    }
}
