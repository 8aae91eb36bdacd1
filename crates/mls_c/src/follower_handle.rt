//! Handles: what a caller in another language holds.

ghost use Rattle.std.specs.Prelude.{◌≡◌, Option, Some, None, option_map};
ghost use Rattle.mls_c.specs.HandleOwnership.{held_coded};
ghost use Rattle.mls_c.specs.declared.group_follower.GroupFollower.{GroupFollower};

use crate::group_follower::GroupFollower;
use crate::loose::Loose;
use std::alloc::Global;
use std::marker::Model;
use std::{mem, ptr};

/// A handle: one pointer, null if it has no follower. It owns the follower. Contracts read the follower as `value`.
#[repr(C)]
pub struct FollowerHandle {
    at: *mut u8,
    alloc: Global,
    ghost value: { Option GroupFollower } by { held_coded },
}

impl Model for FollowerHandle {
    ghost use Rattle.mls_c.specs.HandleOwnership.{handle_owns};

    ghost also_owns = { λ h. handle_owns h.alloc h.at h.value };
}

impl FollowerHandle {
    /// Returns a handle without a follower.
    pub(crate) fn none(alloc: Global) -> FollowerHandle
        ensures { result.value ≡ None }
    {
        FollowerHandle {
            at: ptr::null_mut(),
            alloc,
        }
    }

    /// Returns a handle with the follower of a box.
    fn of_loose(loose: Loose<GroupFollower, Global>) -> FollowerHandle
        ensures { result.value ≡ Some loose.value }
    {
        let Loose { ptr, alloc } = loose;
        FollowerHandle {
            at: ptr as *mut u8,
            alloc,
        }
    }

    /// Returns the follower, if the handle has one.
    fn into_loose(self) -> Option<Loose<GroupFollower, Global>>
        ensures { option_map (λ loose. loose.value) result ≡ self.value }
    {
        let FollowerHandle { at, alloc } = self;
        if at.is_null() {
            None
        } else {
            Some(Loose {
                ptr: at as *mut GroupFollower,
                alloc,
            })
        }
    }

    /// Returns a handle with this follower.
    fn of(follower: Box<GroupFollower>) -> FollowerHandle
        ensures { result.value ≡ Some follower.value }
    {
        FollowerHandle::of_loose(Loose::of(follower))
    }

    /// Returns the follower, if the handle has one.
    fn into_box(self) -> Option<Box<GroupFollower>>
        ensures { option_map (λ follower. follower.value) result ≡ self.value }
    {
        match self.into_loose() {
            Some(loose) => Some(loose.into_box()),
            None => None,
        }
    }

    /// Takes the follower out of the handle, if it has one.
    pub(crate) fn take(&mut self, alloc: Global) -> Option<Box<GroupFollower>>
        ensures taken { option_map (λ follower. follower.value) result ≡ self.old.value }
        ensures empty { self.new.value ≡ None }
    {
        mem::replace(self, FollowerHandle::none(alloc)).into_box()
    }

    /// Puts a follower into the handle. What it had is dropped.
    pub(crate) fn put(&mut self, follower: Box<GroupFollower>)
        ensures { self.new.value ≡ Some follower.value }
    {
        *self = sendable(FollowerHandle::of(follower));
    }

    /// Drops the follower, if the handle has one.
    pub(crate) fn clear(&mut self, alloc: Global)
        ensures { self.new.value ≡ None }
    {
        *self = FollowerHandle::none(alloc);
    }
}

impl Drop for FollowerHandle {
    fn drop(self) {
        drop(self.into_box());
    }
}

// A handle may go to another thread: it owns what it points to, and a follower is plain data.
unsafe impl Send for FollowerHandle {}

/// Returns a value that may go to another thread.
fn sendable<T: Send>(value: T) -> T
    ensures { result ≡ value }
{
    value
}
