//! The arguments of a call, read where they lie.

ghost use Rattle.std.specs.Prelude.{◌≡◌, [], ◌∷◌, chars};
ghost use Rattle.atspi_types.specs.Kinds.{text, number, u32 as word};
ghost use Rattle.atspi_marshal_in_place.specs.Items.{fields_data, fields_kinds};
ghost use Rattle.atspi_match.specs.routing.Answers as answers;

use atspi_marshal_in_place::Fields;

/// The first argument where it is a text, and an empty one else.
pub fn first_text<'a>(args: Fields<'a>) -> &'a str
    ensures { chars result.now ≡ answers.first_text (fields_data args.entry) }
{
    let mut rest = args;
    match rest.next() {
        Some(first) => match first.text() {
            Some(text) => text,
            None => "",
        },
        None => "",
    }
}

/// The second argument, a number.
pub fn second_number(args: Fields) -> u32
    requires { fields_kinds args ≡ text ∷ (number word ∷ []) }
    ensures { result ≡ answers.second_number (fields_data args.entry) }
{
    let mut rest = args;
    let _ = rest.next();
    match rest.next() {
        Some(second) => second.u32().unwrap_or(0),
        None => 0,
    }
}
