//! What a request or a release of a name came to.

/// What a request or a release of a name came to.
#[derive(Clone, Copy, Debug, PartialEq, Eq)]
pub struct OwnerChange {
    /// The answer of the D-Bus call: of RequestName 1 primary owner, 2 in queue, 3 exists, 4 already owner; of
    /// ReleaseName 1 released, 2 non-existent, 3 not owner.
    pub answer: u32,
    /// The owner before.
    pub before: Option<u32>,
    /// The owner after.
    pub after: Option<u32>,
}
