//! Values of the definitions, worked out by hand: none of these functions does anything.

ghost use Rattle.atspi_marshal_in_place.specs.Examples.{BytesArePlain, PathsAreTold, NumbersAreSized, NumbersFill};
ghost use Rattle.atspi_marshal_in_place.specs.Examples.{TypesAreTold};

/// Which bytes are characters of their own.
pub fn bytes_are_plain()
    ensures { BytesArePlain }
{}

/// Which bytes stand in paths, and where.
pub fn paths_are_told()
    ensures { PathsAreTold }
{}

/// How many bytes numbers take.
pub fn numbers_are_sized()
    ensures { NumbersAreSized }
{}

/// Where numbers one after the other end.
pub fn numbers_fill()
    ensures { NumbersFill }
{}

/// What types are.
pub fn types_are_told()
    ensures { TypesAreTold }
{}
