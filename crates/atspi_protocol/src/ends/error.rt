//! Why a call of an object is refused.

ghost use Rattle.std.specs.Prelude.{◌≡◌, ◌++◌, ◌<◌, ◌^◌, true, codes, length, chars};
ghost use Rattle.atspi_base.specs.Text.{HasNoZero};
ghost use Rattle.atspi_base.specs.valid_names.Names.{is_interface};
ghost use Rattle.atspi_protocol.specs.ends.Messages.{error_word};

/// Why a call of an object of an application or of the registry is refused (D-Bus Specification, "Standard
/// Interfaces").
#[derive(Clone, Copy, Debug, PartialEq, Eq)]
pub enum CallError {
    UnknownObject,
    UnknownInterface,
    UnknownMethod,
    InvalidArgs,
    UnknownProperty,
    PropertyReadOnly,
}

impl CallError {
    /// The last word of the error's name.
    pub fn word(self) -> &'static str
        ensures word { result.now ≡ error_word self }
        ensures characters { chars result.now ≡ error_word self }
        ensures no_zero { HasNoZero result.now }
        ensures counted { length result.now < 2 ^ 32 }
    {
        match self {
            CallError::UnknownObject => "UnknownObject",
            CallError::UnknownInterface => "UnknownInterface",
            CallError::UnknownMethod => "UnknownMethod",
            CallError::InvalidArgs => "InvalidArgs",
            CallError::UnknownProperty => "UnknownProperty",
            CallError::PropertyReadOnly => "PropertyReadOnly",
        }
    }

    /// The whole name of the error.
    pub fn name(self) -> &'static str
        ensures name { result.now ≡ codes "org.freedesktop.DBus.Error." ++ error_word self }
        ensures rule { is_interface result.now ≡ true }
    {
        match self {
            CallError::UnknownObject => "org.freedesktop.DBus.Error.UnknownObject",
            CallError::UnknownInterface => "org.freedesktop.DBus.Error.UnknownInterface",
            CallError::UnknownMethod => "org.freedesktop.DBus.Error.UnknownMethod",
            CallError::InvalidArgs => "org.freedesktop.DBus.Error.InvalidArgs",
            CallError::UnknownProperty => "org.freedesktop.DBus.Error.UnknownProperty",
            CallError::PropertyReadOnly => "org.freedesktop.DBus.Error.PropertyReadOnly",
        }
    }
}
