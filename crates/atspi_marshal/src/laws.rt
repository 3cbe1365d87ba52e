//! Laws of spellings, over the definitions that the contracts of decoding and encoding cite.

ghost use Rattle.atspi_marshal.specs.Laws.{NoFrontOfAnother, IsReadAgain};

/// No spelling of a value is a proper front of a spelling of another value of its type.
pub fn no_front_of_another()
    ensures { NoFrontOfAnother }
{}

/// Decoding what encoding appended gives the value back, and the place behind it, whatever stands before and behind: by
/// this law and what `decode` ensures of what is spelled.
pub fn is_read_again()
    ensures { IsReadAgain }
{}
