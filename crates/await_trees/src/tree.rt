//! The futures that a handler can await: a handle, or a node over others.
ghost use Rattle.std.specs.Prelude.{◌≡◌};

use crate::copying::copy_of;
use crate::handle::NotificationHandle;
use crate::letting_go::turn;
use crate::showing::show;
use plain::Items;
use std::alloc::AllocError;
use std::fmt;

/// What a handler awaits.
pub enum UnresolvedFuture {
    /// One handle.
    Single(NotificationHandle),
    /// Until some child has an outcome.
    FirstCompleted(Items<UnresolvedFuture>),
    /// Until all children have one.
    AllCompleted(Items<UnresolvedFuture>),
    /// Until some child succeeds, or all have failed.
    FirstSucceededOrAllFailed(Items<UnresolvedFuture>),
    /// Until all children succeed, or some child has failed.
    AllSucceededOrFirstFailed(Items<UnresolvedFuture>),
    /// Some way of the runner's own: asked again at each outcome of a child.
    Unknown(Items<UnresolvedFuture>),
}

impl From<NotificationHandle> for UnresolvedFuture {
    ghost use Rattle.await_trees.specs.declared.tree.UnresolvedFuture.TheVariants.{Single};

    ghost from_gives = { λ handle future. future ≡ Single handle };

    fn from(handle: NotificationHandle) -> UnresolvedFuture {
        UnresolvedFuture::Single(handle)
    }
}

impl Drop for UnresolvedFuture {
    fn drop(mut self) {
        let mut row = None;
        'trees: loop {
            let found = match self {
                UnresolvedFuture::Single(_) => None,
                UnresolvedFuture::FirstCompleted(children) => Some(children.into_vec()),
                UnresolvedFuture::AllCompleted(children) => Some(children.into_vec()),
                UnresolvedFuture::FirstSucceededOrAllFailed(children) => Some(children.into_vec()),
                UnresolvedFuture::AllSucceededOrFirstFailed(children) => Some(children.into_vec()),
                UnresolvedFuture::Unknown(children) => Some(children.into_vec()),
            };
            match turn(row, found) {
                None => return,
                Some((tree, others)) => {
                    self = tree;
                    row = Some(others);
                }
            }
        }
    }
}

impl Clone for UnresolvedFuture {
    ghost is_clone = { λ future copy. copy ≡ future };

    /// An equal tree.
    fn clone(&self) -> Result<UnresolvedFuture, AllocError> {
        match self {
            UnresolvedFuture::Single(handle) => Ok(UnresolvedFuture::Single(*handle)),
            UnresolvedFuture::FirstCompleted(children)
            | UnresolvedFuture::AllCompleted(children)
            | UnresolvedFuture::FirstSucceededOrAllFailed(children)
            | UnresolvedFuture::AllSucceededOrFirstFailed(children)
            | UnresolvedFuture::Unknown(children) => copy_of(children.alloc(), self),
        }
    }
}

impl fmt::Debug for UnresolvedFuture {
    fn fmt<W: fmt::Write>(&self, f: &mut fmt::Formatter<W>) -> fmt::Result {
        match self {
            UnresolvedFuture::Single(handle) => {
                let number = handle.0;
                write!(f, "{number}")
            }
            UnresolvedFuture::FirstCompleted(children)
            | UnresolvedFuture::AllCompleted(children)
            | UnresolvedFuture::FirstSucceededOrAllFailed(children)
            | UnresolvedFuture::AllSucceededOrFirstFailed(children)
            | UnresolvedFuture::Unknown(children) => show(children.alloc(), f, self),
        }
    }
}
