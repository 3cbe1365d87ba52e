//! What holds of the tables. Each law is the contract of a function without a body, so that it is proved with the
//! crate; the crates above cite the same definitions.

ghost use Rattle.atspi_tables.specs.Names.{BeginsWithNoDigit, TellsPlaces};
ghost use Rattle.atspi_tables.specs.Roles.{role_names, role_words};
ghost use Rattle.atspi_tables.specs.States.{state_names};

/// A name and a word are those of one role alone, and no word begins with a digit: where a role is written as a word or
/// as a number, either tells one role.
pub fn names_tell_roles()
    ensures words { TellsPlaces role_words }
    ensures numbers { BeginsWithNoDigit role_words }
    ensures names { TellsPlaces role_names }
{}

/// A name is that of one state alone.
pub fn names_tell_states()
    ensures { TellsPlaces state_names }
{}
