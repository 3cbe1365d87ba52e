//! A pair of a listener's name and its pattern.

ghost use Rattle.std.specs.Prelude.{◌≡◌, ◌<◌, ◌^◌, chars, length};
ghost use Rattle.atspi_base.specs.Text.{HasNoZero};
ghost use Rattle.atspi_marshal_in_place.specs.Items.{item_data, fields_data};
ghost use Rattle.atspi_protocol.specs.exporting.Hearing as hearing;
ghost use Rattle.atspi_app_known.specs.hearing.inner.Lent.{lent_or_none, pair_by};

use crate::hearing::pair_ref::PairRef;
use atspi_base::valid_names::is_bus_name;
use atspi_marshal_in_place::{Fields, Item};

/// The pair of two texts, if the first is a bus name.
fn named<'a>(name: &'a str, pattern: &'a str) -> Option<PairRef<'a>>
    requires no_zero { HasNoZero pattern.now }
    requires counted { length pattern.now < 2 ^ 32 }
    ensures { lent_or_none result ≡ pair_by (chars name.now) (chars pattern.now) }
{
    if is_bus_name(name.as_bytes()) {
        return Some(PairRef { name, pattern });
    }
    None
}

/// The pair that some values begin with: two texts, the first of which is a bus name.
pub(crate) fn first_pair<'a>(values: Fields<'a>) -> Option<PairRef<'a>>
    ensures { lent_or_none result ≡ hearing.pair_in (fields_data values.entry) }
{
    let mut rest = values;
    let name = rest.next()?.text()?;
    let pattern = rest.next()?.text()?;
    named(name, pattern)
}

/// The pair that is a struct of just two texts.
pub(crate) fn pair_of<'a>(item: Item<'a>) -> Option<PairRef<'a>>
    ensures { lent_or_none result ≡ hearing.pair_of (item_data item.entry) }
{
    let mut fields = item.fields()?;
    let name = fields.next()?.text()?;
    let pattern = fields.next()?.text()?;
    match fields.next() {
        Some(_) => None,
        None => named(name, pattern),
    }
}
