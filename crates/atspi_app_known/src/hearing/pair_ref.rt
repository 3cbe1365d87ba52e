//! A pair that lies elsewhere.

ghost use Rattle.std.specs.Prelude.{◌≡◌, ◌<◌, ◌^◌, IsTrue, bytes_eq, chars, encode_utf8_all, length};
ghost use Rattle.atspi_base.specs.Text.{HasNoZero};
ghost use Rattle.atspi_base.specs.valid_names.Names.{is_bus_name};

/// A listener's bus name and its pattern, lent from where they lie.
#[derive(Clone, Copy, PartialEq, Eq, Hash)]
pub struct PairRef<'a> {
    pub name: &'a str,
    pub pattern: &'a str,
    pub ghost rule: { IsTrue (is_bus_name name.now) },
    pub ghost no_zero: { HasNoZero pattern.now },
    pub ghost counted: { length pattern.now < 2 ^ 32 },
    pub ghost spelled: { IsTrue (bytes_eq (encode_utf8_all (chars pattern.now)) pattern.now) },
}
