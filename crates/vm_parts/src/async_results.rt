//! The notifications of an attempt: those that no await has used yet, the results that are ready, and which id
//! each handle stands for.
ghost use Rattle.std.specs.Prelude.{◌≡◌, ℕ, ◌∷◌, ◌++◌, [], OnOk, OnErr, IfOk};
ghost use Rattle.std.specs.Option.{option_copied};
ghost use Rattle.await_arrivals.specs.Came.{is_queued, enough};
ghost use Rattle.vm_parts.specs.Deliveries.{id_at, is_known, no_results, is_listed, left_among, present_among, present_result_for, has_result_for, next_used, with_eager, ready_after, first_result_for, IsTakeOf};

use crate::handles::Handles;
use await_arrivals::{Arrivals, EagerResults};
use journal_values::{Notification, NotificationId, NotificationResult, SignalDelivery};
use plain::copy_of;
use std::alloc::{AllocError, Global};
use std::marker::Model;

/// The id that a handle stands for.
#[derive(Drop)]
pub struct Mapping {
    pub handle: u32,
    pub id: NotificationId,
}

/// What came and what eager reads gave, and the handles that can still be answered.
pub struct AsyncResults {
    arrivals: Arrivals,
    eager: EagerResults,
    handles: Handles,
}

/// Written out, so that a function that drops results calls this: a derived drop is expanded at each way out of a function.
impl Drop for AsyncResults {
    fn drop(self) {
        let Self {
            arrivals,
            eager,
            handles,
        } = self;
        drop(arrivals);
        drop(eager);
        drop(handles);
    }
}

impl Model for AsyncResults {
    ghost use Rattle.vm_parts.specs.Arrived.{Arrived};

    ghost Value = { Arrived };

    ghost view = { λ s. record { queued = s.arrivals.queued; ready = record { delivered = s.arrivals.delivered; eager = s.eager }; handles = s.handles } };
}

/// Whether the deliveries of an id queue up.
fn is_queued_id(delivery: SignalDelivery, id: &NotificationId) -> bool
    ensures { result ≡ is_listed delivery id.now }
{
    match (delivery, id) {
        (SignalDelivery::Overwrite, _) => false,
        (SignalDelivery::Queued, NotificationId::CompletionId(_)) => false,
        (SignalDelivery::Queued, _) => true,
    }
}

/// Takes the present result of an id among the arrivals.
fn take_delivered(
    delivery: SignalDelivery,
    arrivals: &mut Arrivals,
    id: &NotificationId,
) -> Option<NotificationResult>
    ensures found { result ≡ present_among delivery id.now arrivals.old.delivered }
    ensures left { arrivals.new
        ≡ record arrivals.old { delivered = left_among delivery id.now arrivals.old.delivered } }
{
    if is_queued_id(delivery, id) {
        arrivals.take_first(id)
    } else {
        arrivals.take_newest(id)
    }
}

/// Takes what an eager read gave to an id.
fn take_eager(
    delivery: SignalDelivery,
    eager: &mut EagerResults,
    id: &NotificationId,
) -> Option<NotificationResult>
    ensures found { result ≡ present_among delivery id.now eager.old }
    ensures left { eager.new ≡ left_among delivery id.now eager.old }
{
    if is_queued_id(delivery, id) {
        eager.take_first(id)
    } else {
        eager.take_newest(id)
    }
}

/// The present result of an id among the arrivals.
fn find_delivered<'a>(
    delivery: SignalDelivery,
    arrivals: &'a Arrivals,
    id: &NotificationId,
) -> Option<&'a NotificationResult>
    ensures { option_copied result ≡ present_among delivery id.now arrivals.now.delivered }
{
    if is_queued_id(delivery, id) {
        arrivals.oldest(id)
    } else {
        arrivals.newest(id)
    }
}

/// What an eager read gave to an id.
fn find_eager<'a>(
    delivery: SignalDelivery,
    eager: &'a EagerResults,
    id: &NotificationId,
) -> Option<&'a NotificationResult>
    ensures { option_copied result ≡ present_among delivery id.now eager.now }
{
    if is_queued_id(delivery, id) {
        eager.oldest(id)
    } else {
        eager.newest(id)
    }
}

impl AsyncResults {
    /// No notification came, and only the cancel handle stands for an id: signal 1.
    pub fn new(alloc: Global) -> Result<AsyncResults, AllocError>
        ensures { IfOk result (λ results. results ≡ no_results) }
    {
        let mut handles = Handles::new(alloc);
        handles.reserve_few()?;
        handles.push(Mapping {
            handle: 1,
            id: NotificationId::SignalId(1),
        })?;
        Ok(AsyncResults {
            arrivals: Arrivals::new(alloc),
            eager: EagerResults::new(alloc),
            handles,
        })
    }

    /// Appends a notification to those that wait.
    pub fn enqueue(&mut self, notification: Notification) -> Result<(), AllocError>
        ensures ok { OnOk result (self.new
            ≡ record self.old { queued = self.old.queued ++ notification ∷ [] }) }
        ensures err { OnErr result (self.new ≡ self.old) }
    {
        self.arrivals.enqueue(notification)
    }

    /// Gives a new handle its id.
    pub fn map_handle(&mut self, handle: u32, id: NotificationId) -> Result<(), AllocError>
        ensures ok { OnOk result (self.new
            ≡ record self.old {
              handles = self.old.handles
                  ++ record { handle = handle; id = id } ∷ [];
            }) }
        ensures err { OnErr result (self.new ≡ self.old) }
    {
        self.handles.push(Mapping { handle, id })
    }

    /// The id that a handle stands for.
    pub fn id_of(&self, handle: u32) -> Result<Option<NotificationId>, AllocError>
        ensures { IfOk result (λ id. id ≡ id_at handle self.now.handles) }
    {
        match self.handles.find(handle) {
            None => Ok(None),
            Some(id) => Ok(Some(copy_of(id)?)),
        }
    }

    /// The id that a handle stands for, where it lies.
    pub fn find(&self, handle: u32) -> Option<&NotificationId>
        ensures { option_copied result ≡ id_at handle self.now.handles }
    {
        self.handles.find(handle)
    }

    /// The present result of a handle.
    pub fn present(&self, delivery: SignalDelivery, handle: u32) -> Option<&NotificationResult>
        ensures { option_copied result
            ≡ present_result_for delivery (id_at handle self.now.handles) self.now.ready }
    {
        let id = self.handles.find(handle)?;
        match find_delivered(delivery, &self.arrivals, id) {
            Some(result) => Some(result),
            None => find_eager(delivery, &self.eager, id),
        }
    }

    /// Whether a handle has a ready result.
    pub fn is_completed(&self, handle: u32) -> bool
        ensures { result ≡ has_result_for (id_at handle self.now.handles) self.now.ready }
    {
        match self.handles.find(handle) {
            None => false,
            Some(id) => self.arrivals.has(id) || self.eager.has(id),
        }
    }

    /// How many that wait must be used until a handle has a ready result, none where all are too few.
    pub fn uses_until(&self, handle: u32) -> Option<usize>
        ensures { (n : ℕ) → enough result n
            ≡ has_result_for (id_at handle self.now.handles) (ready_after n self.now) }
    {
        let id = self.handles.find(handle)?;
        if self.eager.has(id) {
            return Some(0);
        }
        self.arrivals.uses_until(id)
    }

    /// The present result of a handle, or else the first that waits.
    pub fn first_result(&self, delivery: SignalDelivery, handle: u32) -> Option<&NotificationResult>
        ensures { option_copied result
            ≡ first_result_for delivery (id_at handle self.now.handles) self.now }
    {
        match self.present(delivery, handle) {
            Some(result) => Some(result),
            None => self.arrivals.first_known(self.handles.find(handle)?),
        }
    }

    /// Whether a result of an id is there that was not taken: it waits, or is ready.
    #[tactic(auto, using(crate::proofs::Results::known_is))]
    pub fn knows(&self, id: &NotificationId) -> bool
        ensures { result ≡ is_known id.now self.now }
    {
        self.arrivals.knows(id) || self.eager.has(id)
    }

    /// Uses the oldest notification that waits, if there is one; it takes no memory.
    pub fn use_one(&mut self) -> bool
        ensures found { result ≡ is_queued self.old.queued }
        ensures used { self.new ≡ next_used self.old }
    {
        self.arrivals.use_one()
    }

    /// Takes the present result of a handle; the handle is then forgotten, except the cancel handle.
    pub fn take(&mut self, delivery: SignalDelivery, handle: u32) -> Option<NotificationResult>
        ensures { IsTakeOf delivery handle self.old result self.new }
    {
        let id = self.handles.find(handle)?;
        let delivered = take_delivered(delivery, &mut self.arrivals, id);
        let eager = take_eager(delivery, &mut self.eager, id);
        let taken = delivered.or(eager)?;
        if handle != 1 {
            self.handles.remove(handle);
        }
        Some(taken)
    }

    /// Gives a completion id the result of its eager read, which takes the place of what was delivered before.
    pub fn read_eagerly(&mut self, id: u32, given: NotificationResult) -> Result<(), AllocError>
        ensures ok { OnOk result (self.new
            ≡ record self.old { ready = with_eager id given self.old.ready }) }
        ensures err { OnErr result (self.new ≡ self.old) }
    {
        self.eager.push(Notification {
            id: NotificationId::CompletionId(id),
            result: given,
        })?;
        self.arrivals.take_newest(&NotificationId::CompletionId(id));
        Ok(())
    }
}
