//! What a user may ask for in a call.

use crate::object::Object;
use cp_base::Name;
use cp_object_ops::{LongOp, MapOp, RefOp};
use cp_op_values::Kind;
use cp_ops::{ChangeOp, MemberOp};

/// What a user may ask of an atomic long.
#[derive(Clone, Copy, Debug, PartialEq, Eq)]
pub enum LongCall {
    /// An operation as it is.
    Plain(LongOp),
    /// `inc`: adds 1, and gives the sum.
    Inc,
    /// `dec`: takes 1 away, and gives the difference.
    Dec,
}

/// What a user may ask of an atomic reference.
#[derive(Clone, Debug, PartialEq, Eq, Drop)]
pub enum RefCall {
    /// An operation as it is.
    Plain(RefOp),
    /// `isnull`: tells whether the reference is null.
    IsNull,
    /// `clear`: sets the reference to null.
    Clear,
}

/// What a user may ask of a lock.
#[derive(Clone, Copy, Debug, PartialEq, Eq)]
pub enum LockCall {
    /// Takes a hold, and waits for it as long as it takes.
    Lock,
    /// Takes a hold, and waits for it so many milliseconds at most.
    Try(u32),
    /// Gives a hold back.
    Unlock,
    /// Gives the owner.
    Owner,
}

/// What a user may ask of a semaphore, with or without sessions.
#[derive(Clone, Copy, Debug, PartialEq, Eq)]
pub enum SemCall {
    /// Makes the semaphore with so many permits.
    Init(u32),
    /// Takes permits, and waits for them as long as it takes.
    Acquire(u32),
    /// Takes permits: how many, and how many milliseconds it waits at most.
    Try(u32, u32),
    /// Gives permits back.
    Release(u32),
    /// Gives the permits that stand available.
    Available,
    /// Takes all that stand available.
    Drain,
    /// Adds permits.
    Increase(u32),
    /// Takes permits away for good.
    Reduce(u32),
}

/// What a user may ask of a countdown latch.
#[derive(Clone, Copy, Debug, PartialEq, Eq)]
pub enum LatchCall {
    /// Begins a round with this count.
    Set(u32),
    /// Counts down in the round that the latch is in.
    Down,
    /// Gives the count.
    Count,
    /// Waits for the count 0, for so many milliseconds at most.
    Await(u32),
}

/// What a user may ask about groups.
#[derive(Clone, Debug, PartialEq, Eq, Drop)]
pub enum GroupCall {
    /// Gives the group of this name, or makes it.
    Create(Name),
    /// Destroys the group of this name.
    Destroy(Name),
}

/// An operation as a user writes it in a call.
#[derive(Clone, Debug, PartialEq, Eq, Drop)]
pub enum UserOp {
    /// On an atomic long.
    Long(Object, LongCall),
    /// On an atomic reference.
    Ref(Object, RefCall),
    /// On a lock.
    Lock(Object, LockCall),
    /// On a semaphore whose permits are held by sessions.
    Sem(Object, SemCall),
    /// On a semaphore without sessions.
    Jsem(Object, SemCall),
    /// On a countdown latch.
    Latch(Object, LatchCall),
    /// On a map.
    Map(Object, MapOp),
    /// Destroys an object of this kind.
    Destroy(Kind, Object),
    /// Closes the client's session in the group of this name. Left out, the group is `default`.
    CloseSession(Option<Name>),
    /// On groups.
    Group(GroupCall),
    /// On members.
    Member(MemberOp),
    /// On the members of the group `default`.
    Change(ChangeOp),
}
