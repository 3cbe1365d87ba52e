//! The calls that the bus answers.

/// A member of the bus (D-Bus Specification, "Message Bus Messages" and "Standard Interfaces").
#[derive(Clone, Copy, Debug, PartialEq, Eq)]
pub enum BusMember {
    Hello,
    RequestName,
    ReleaseName,
    NameHasOwner,
    GetNameOwner,
    ListNames,
    ListQueuedOwners,
    AddMatch,
    RemoveMatch,
    GetId,
    Ping,
}
