//! The errors that a bus answers.

ghost use Rattle.std.specs.Prelude.{◌≡◌, ◌++◌};
ghost use Rattle.atspi_match.specs.routing.OwnMessages.{error_prefix};
ghost use Rattle.atspi_bus_answers.specs.Errors.{error_text};

/// An error that a bus answers (D-Bus Specification, "Message Bus Messages").
#[derive(Clone, Copy, Debug, PartialEq, Eq)]
pub enum BusError {
    Failed,
    InvalidArgs,
    LimitsExceeded,
    MatchRuleInvalid,
    MatchRuleNotFound,
    NameHasNoOwner,
    NoReply,
    ServiceUnknown,
    UnknownInterface,
    UnknownMethod,
}

impl BusError {
    /// The last element of its name, which is also its text.
    pub fn text(self) -> &'static str
        ensures { result.now ≡ error_text self }
    {
        match self {
            BusError::Failed => "Failed",
            BusError::InvalidArgs => "InvalidArgs",
            BusError::LimitsExceeded => "LimitsExceeded",
            BusError::MatchRuleInvalid => "MatchRuleInvalid",
            BusError::MatchRuleNotFound => "MatchRuleNotFound",
            BusError::NameHasNoOwner => "NameHasNoOwner",
            BusError::NoReply => "NoReply",
            BusError::ServiceUnknown => "ServiceUnknown",
            BusError::UnknownInterface => "UnknownInterface",
            BusError::UnknownMethod => "UnknownMethod",
        }
    }

    /// Its name.
    pub fn name(self) -> &'static str
        ensures { result.now ≡ error_prefix ++ error_text self }
    {
        match self {
            BusError::Failed => "org.freedesktop.DBus.Error.Failed",
            BusError::InvalidArgs => "org.freedesktop.DBus.Error.InvalidArgs",
            BusError::LimitsExceeded => "org.freedesktop.DBus.Error.LimitsExceeded",
            BusError::MatchRuleInvalid => "org.freedesktop.DBus.Error.MatchRuleInvalid",
            BusError::MatchRuleNotFound => "org.freedesktop.DBus.Error.MatchRuleNotFound",
            BusError::NameHasNoOwner => "org.freedesktop.DBus.Error.NameHasNoOwner",
            BusError::NoReply => "org.freedesktop.DBus.Error.NoReply",
            BusError::ServiceUnknown => "org.freedesktop.DBus.Error.ServiceUnknown",
            BusError::UnknownInterface => "org.freedesktop.DBus.Error.UnknownInterface",
            BusError::UnknownMethod => "org.freedesktop.DBus.Error.UnknownMethod",
        }
    }
}
