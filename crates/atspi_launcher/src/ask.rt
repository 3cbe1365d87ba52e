//! What is asked of the launcher.

/// A property of the interface org.a11y.Status.
#[derive(Clone, Copy, Debug, PartialEq, Eq)]
pub enum Status {
    /// Whether applications are to export what they show.
    IsEnabled,
    /// Whether somebody reads the screen aloud.
    ScreenReaderEnabled,
}

/// What is asked of the launcher's object.
#[derive(Clone, Copy, Debug, PartialEq, Eq)]
pub enum Ask {
    /// GetAddress.
    Address,
    /// Get of a property.
    Get(Status),
    /// GetAll of an interface that has properties.
    AllProperties,
    /// GetAll of one that has none.
    NoProperties,
    /// Set of a property.
    Set(Status, bool),
    /// Introspect.
    Introspect,
    /// Ping.
    Ping,
}
