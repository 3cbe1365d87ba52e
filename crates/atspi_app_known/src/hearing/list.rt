//! The list of all pairs.

ghost use Rattle.std.specs.Prelude.{◌≡◌, None, MatchOption, IfOk};
ghost use Rattle.atspi_types.specs.Data.{items_of};
ghost use Rattle.atspi_marshal_in_place.specs.Items.{elements_data, fields_data};
ghost use Rattle.atspi_protocol.specs.exporting.Hearing as hearing;
ghost use Rattle.atspi_app_known.specs.hearing.Lent.{all_lent};

use crate::hearing::pair::pair_of;
use crate::hearing::pair_ref::PairRef;
use atspi_base::NoMemory;
use atspi_marshal_in_place::{Elements, Fields};
use std::alloc::Global;

/// The elements, where the values are one list of structs of two texts.
fn list_in<'a>(values: Fields<'a>) -> Option<Elements<'a>>
    ensures { MatchOption result (hearing.pairs_in (fields_data values.entry) ≡ None)
        (λ es. hearing.pairs_in (fields_data values.entry) ≡ hearing.all_pairs (items_of (elements_data es))) }
{
    let mut rest = values;
    let elements = rest.next()?.elements()?;
    match rest.next() {
        Some(_) => None,
        None => {
            if elements.ty().codes() == b"(ss)".as_slice() {
                return Some(elements);
            }
            None
        }
    }
}

/// The pairs of a list, if the first text of each is a bus name.
#[tactic(auto, using(crate::proofs::OfHearing::Values::next_pair, crate::proofs::OfHearing::Values::no_pair, crate::proofs::OfHearing::Values::all_read))]
fn all_pairs<'a>(
    alloc: Global,
    elements: Elements<'a>,
) -> Result<Option<Vec<PairRef<'a>>>, NoMemory>
    ensures { IfOk result (λ pairs. all_lent pairs ≡ hearing.all_pairs (items_of (elements_data elements.entry))) }
{
    let mut rest = elements;
    let mut pairs = Vec::new(alloc);
    while let Some(item) = rest.next() {
        let Some(pair) = pair_of(item) else {
            return Ok(None);
        };
        pairs.push(pair)?;
    }
    Ok(Some(pairs))
}

/// The list of all pairs that GetRegisteredEvents returns (AT-SPI2's interface file Registry); None for other values.
/// Only a list of references into the bytes is made.
pub fn listed<'a>(alloc: Global, values: Fields<'a>) -> Result<Option<Vec<PairRef<'a>>>, NoMemory>
    ensures { IfOk result (λ pairs. all_lent pairs ≡ hearing.pairs_in (fields_data values.entry)) }
{
    match list_in(values) {
        Some(elements) => all_pairs(alloc, elements),
        None => Ok(None),
    }
}
