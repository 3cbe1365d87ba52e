//! The name of a connection to the bus.

ghost use Rattle.std.specs.Prelude.{◌≡◌, ◌↔◌, IfOk, IsErrOf, IsTrue, Some, refl, nat_eq};
ghost use Rattle.std.specs.Ordering.{nat_cmp};
ghost use Rattle.std.specs.Cmp.{partial_equiv_from_equiv};
ghost use Rattle.std.specs.Cmp.Lexicographic.{pointwise, slice_cmp, nat_list_eq_equiv, nat_list_cmp_total, texts_po};
ghost use Rattle.std.specs.Cmp.Lexicographic.{texts_ties};
ghost use Rattle.atspi_base.specs.valid_names.Names.{IsBusName, is_bus_name, has_bus_elements, is_unique_name};
ghost use Rattle.atspi_base.specs.valid_names.Names.{ReadsName};

use super::elements::{Form, are_two_or_more};
use super::fault::{NameFault, ascii_text};
use crate::NoMemory;
use std::alloc::Global;
use std::cmp::Ordering;
use std::marker::Model;

/// The name of a connection to the bus: two or more elements joined by `.`, of letters, digits, `_` and `-`. A unique
/// name begins with `:`; the elements of the others do not begin with a digit. At most 255 bytes. It is ordered by
/// bytes.
#[derive(Drop)]
pub struct BusName {
    text: String,
}

impl Model for BusName {
    ghost use Rattle.std.specs.Prelude.{ℕ, List, string_bytes};
    ghost use Rattle.atspi_base.specs.valid_names.Names.{IsBusName};

    ghost Value = { List ℕ };

    ghost view = { λ name. string_bytes name.text };

    ghost invariant = { λ name. IsBusName (string_bytes name.text) };
}

/// Whether the bytes are the name of a connection.
#[tactic(auto, unfolding(crate::specs::valid_names::Names::is_bus_name))]
fn is_rule(bytes: &[u8]) -> bool
    ensures { result ≡ is_bus_name bytes.now }
{
    has_elements(bytes) && bytes.len() <= 255
}

/// Whether the bytes are elements, behind a `:` where one comes first.
fn has_elements(bytes: &[u8]) -> bool
    ensures { result ≡ has_bus_elements bytes.now }
{
    if bytes.is_empty() {
        return false;
    }
    if bytes[0] == b':' {
        are_two_or_more(Form::Unique, &bytes[1..])
    } else {
        are_two_or_more(Form::WellKnown, bytes)
    }
}

/// Whether the bytes are a bus name, unique or well-known (D-Bus Specification, "Valid Names"). It needs no memory.
pub fn is_bus_name(bytes: &[u8]) -> bool
    ensures rule { IsTrue result ↔ IsBusName bytes.now }
    ensures tested { result ≡ is_bus_name bytes.now }
{
    is_rule(bytes)
}

impl BusName {
    /// The name that the bytes are. Refused as `Form` exactly where they are outside the rule.
    pub fn read(alloc: Global, bytes: &[u8]) -> Result<BusName, NameFault>
        ensures ok { IfOk result (λ name. (name ≡ bytes.now) × IsBusName bytes.now) }
        ensures form { IsErrOf result NameFault.Form ↔ ¬ IsBusName bytes.now }
        ensures tested { ReadsName is_bus_name result bytes.now }
    {
        if !is_rule(bytes) {
            return Err(NameFault::Form);
        }
        Ok(BusName {
            text: ascii_text(alloc, bytes)?,
        })
    }

    /// The name as a text.
    pub fn as_str(&self) -> &str
        ensures bytes { result.now ≡ self.now }
        ensures rule { IsBusName self.now }
    {
        &self.text
    }

    /// An equal name.
    pub fn copy(&self, alloc: Global) -> Result<BusName, NoMemory>
        ensures { IfOk result (λ name. name ≡ self.now) }
    {
        Ok(BusName {
            text: String::from_str(alloc, &self.text)?,
        })
    }

    /// Whether the two are the same name.
    pub fn is(&self, other: &BusName) -> bool
        ensures { IsTrue result ↔ (self.now ≡ other.now) }
    {
        self.text == other.text
    }

    /// Whether it is a unique name, one that begins with `:`.
    pub fn is_unique(&self) -> bool
        ensures { result ≡ is_unique_name self.now }
    {
        self.text.as_bytes().first() == Some(&b':')
    }
}

impl PartialEq for BusName {
    ghost eq = { pointwise nat_eq };

    ghost laws = { partial_equiv_from_equiv nat_list_eq_equiv };

    fn eq(&self, other: &BusName) -> bool {
        self.text == other.text
    }
}

impl Eq for BusName {
    ghost laws = { nat_list_eq_equiv };
}

impl PartialOrd for BusName {
    ghost partial_cmp = { λ a b. Some (slice_cmp nat_cmp a b) };

    ghost laws = { texts_po };

    fn partial_cmp(&self, other: &BusName) -> Option<Ordering> {
        Some(self.cmp(other))
    }
}

impl Ord for BusName {
    ghost cmp = { slice_cmp nat_cmp };

    ghost total = { nat_list_cmp_total };

    ghost matches_partial_cmp = { λ a b. refl };

    ghost matches_eq = { texts_ties };

    fn cmp(&self, other: &BusName) -> Ordering {
        self.text.cmp(&other.text)
    }
}
