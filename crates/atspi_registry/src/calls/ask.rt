//! What is asked of the registry.

/// What is asked of the registry's objects. Texts are lent from the message's bytes.
#[derive(Clone, Copy)]
pub enum Ask<'a> {
    /// RegisterEvent of a pattern.
    Register(&'a str),
    /// DeregisterEvent of a pattern.
    Deregister(&'a str),
    /// GetRegisteredEvents.
    Registered,
    /// Embed of the root with this bus name and path.
    Embed(&'a str, &'a str),
    /// Unembed of it.
    Unembed(&'a str, &'a str),
    /// GetChildren.
    Children,
    /// GetChildAtIndex.
    ChildAt(i32),
    /// GetRole.
    Role,
    /// GetRoleName.
    RoleName,
    /// The property Name.
    Name,
    /// The property ChildCount.
    ChildCount,
    /// All properties of an interface that has some.
    AllProperties,
    /// All properties of one that has none.
    NoProperties,
    /// Ping.
    Ping,
}
