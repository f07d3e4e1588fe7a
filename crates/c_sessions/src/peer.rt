//! A peer of a session that speaks another layer than the VM: what stands between the two, and what C hasn't taken yet.
ghost use Rattle.std.specs.Prelude.{◌≡◌, []};
ghost use Rattle.c_sessions.specs.Peers.{DrainedOver, FedOver, HandedOut, IsPeerOf, NothingWaits, SpeaksShort, TakenOver, layer_at, layer_to, version_over};

use bytes::Bytes;
use c_values::Status;
use invocation_vm::CoreVM;
use journal_protocol::Version;
use std::alloc::Global;
use vm_layers::{LayerFault, Short, Transcoder};

/// How many bytes a peer has room for without taking memory again, at most.
const KEPT: usize = 65_536;

/// The layers that a session's peer may speak.
#[derive(Clone, Copy, Debug, PartialEq, Eq)]
pub enum Spoken {
    /// That of the VM.
    Own,
    /// The second layer, in the version of the VM.
    Short,
    /// The second layer in version 6, also for a VM of a later one.
    ShortV6,
}

/// The layer of this number.
pub fn layer_at(code: u32) -> Option<Spoken>
    ensures { result ≡ layer_at code }
{
    match code {
        0 => Some(Spoken::Own),
        1 => Some(Spoken::Short),
        2 => Some(Spoken::ShortV6),
        _ => None,
    }
}

/// Between the VM of a session and its peer.
#[derive(Drop)]
pub struct Peer {
    pub transcoder: Transcoder<Short>,
    /// The version that the peer speaks, unless that is the VM's.
    pub fixed: Option<Version>,
    /// What the VM wrote, in the peer's bytes, and C hasn't taken.
    pub sent: Vec<u8>,
}

/// The version in which a peer speaks to a VM of this version.
fn version_over(fixed: Option<Version>, version: Version) -> Version
    ensures { result ≡ version_over fixed version }
{
    match fixed {
        Some(version) => version,
        None => version,
    }
}

/// A peer that speaks the second layer.
fn speaks_short(alloc: Global, fixed: Option<Version>) -> Peer
    ensures { SpeaksShort fixed result }
{
    let layer = Short {
        alloc,
        mark: false,
        version: Version::V8,
    };
    Peer {
        transcoder: Transcoder::new(alloc, layer),
        fixed,
        sent: Vec::new(alloc),
    }
}

/// What stands between, if the peer speaks another layer than the VM.
pub fn peer_of(alloc: Global, spoken: Spoken) -> Option<Peer>
    ensures { IsPeerOf spoken result }
{
    match spoken {
        Spoken::Own => None,
        Spoken::Short => Some(speaks_short(alloc, None)),
        Spoken::ShortV6 => Some(speaks_short(alloc, Some(Version::V6))),
    }
}

impl Peer {
    /// Drops what waits, both ways.
    pub fn clear(&mut self)
        ensures waits { NothingWaits self.new }
        ensures fixed { self.new.fixed ≡ self.old.fixed }
        ensures layer { self.new.transcoder.layer ≡ self.old.transcoder.layer }
    {
        self.transcoder.input.clear();
        self.transcoder.output.clear();
        self.sent.clear();
    }

    /// From now on the layer is as the peer speaks it to this VM.
    fn speak_to(&mut self, vm: &CoreVM)
        ensures layer { self.new.transcoder.layer ≡ layer_to self.old vm.now }
        ensures input { self.new.transcoder.input ≡ self.old.transcoder.input }
        ensures output { self.new.transcoder.output ≡ self.old.transcoder.output }
        ensures fixed { self.new.fixed ≡ self.old.fixed }
        ensures sent { self.new.sent ≡ self.old.sent }
    {
        self.transcoder.layer.version = version_over(self.fixed, vm.version());
    }

    /// Feeds the VM bytes of its peer.
    pub fn feed(&mut self, alloc: Global, vm: &mut CoreVM, bytes: &[u8]) -> Status
        ensures { FedOver bytes.now result self.old self.new vm.old vm.new }
    {
        let Ok(bytes) = Bytes::copy_from_slice(alloc, bytes) else {
            return Status::NoMemory;
        };
        self.speak_to(vm);
        match self.transcoder.notify_input(vm, bytes) {
            Ok(()) => Status::Done,
            Err(_) => Status::NoMemory,
        }
    }

    /// Drops what C has taken. The memory of a long output is given back.
    fn drop_sent(&mut self, alloc: Global)
        ensures sent { self.new.sent.items ≡ [] }
        ensures fixed { self.new.fixed ≡ self.old.fixed }
        ensures transcoder { self.new.transcoder ≡ self.old.transcoder }
    {
        if self.sent.len() > KEPT {
            self.sent = Vec::new(alloc);
        } else {
            self.sent.clear();
        }
    }

    /// Moves what C hasn't taken to the front of `out`, if it has room for it. If that is nothing, says whether a message stops the rest.
    fn hand_out(&mut self, alloc: Global, stops: bool, out: &mut [u8]) -> (Status, usize)
        ensures { HandedOut stops result.0 result.1 out.old out.new self.old self.new }
    {
        let len = self.sent.len();
        if len == 0 && stops {
            return (Status::NoFrame, 0);
        }
        if out.len() < len {
            return (Status::NoRoom, len);
        }
        out[..len].copy_from_slice(self.sent.as_slice());
        self.drop_sent(alloc);
        (Status::Done, len)
    }

    /// Takes the VM's output as far as it has a frame in the peer's layer.
    fn collect(&mut self, vm: &mut CoreVM) -> Result<(), LayerFault>
        ensures { TakenOver result self.old self.new vm.old vm.new }
    {
        self.speak_to(vm);
        self.transcoder.take_output(vm, &mut self.sent)
    }

    /// Moves all of the VM's output that has a frame in the peer's layer to the front of `out`, if it has room for it. Returns its length
    /// either way. A message without a frame stops the rest: once C has taken what stood before it, each further call says so.
    #[tactic(auto, using(crate::proofs::Drained::handed, crate::proofs::Drained::starved))]
    pub fn drain(&mut self, alloc: Global, vm: &mut CoreVM, out: &mut [u8]) -> (Status, usize)
        ensures { DrainedOver result.0 result.1 out.old out.new self.old self.new vm.old vm.new }
    {
        match self.collect(vm) {
            Ok(()) => self.hand_out(alloc, false, out),
            Err(LayerFault::Memory) => (Status::NoMemory, self.sent.len()),
            Err(_) => self.hand_out(alloc, true, out),
        }
    }
}
